//! The data type and the validity of flat builders. A validity has a bit for each slot from the first null on; a frozen builder
//! has none.
ghost use Rattle.std.specs.Prelude.{◌≡◌, option_map};
ghost use Rattle.nest_flat.specs.AnyMutablePrimitive.{built_layout};
ghost use Rattle.nest_memory.specs.TypeOf.{type_of};
ghost use Rattle.nest_model.specs.Accessors.{validity_of};
ghost use Rattle.nest_model.specs.Layout.{layout_type};

use nest_flat::any_primitive::mutable::AnyMutablePrimitive;
use nest_flat::binary::mutable::MutableBinaryArray;
use nest_flat::boolean::mutable::MutableBooleanArray;
use nest_flat::primitive::mutable::MutablePrimitiveArray;
use nest_flat::utf8::mutable::MutableUtf8Array;
use nest_memory::bitmap::mutable::MutableBitmap;
use nest_memory::datatypes::DataType;
use nest_memory::offset::Offset;
use nest_memory::types::NativeType;

/// Returns the data type of a primitive builder.
pub fn primitive_data_type<T: NativeType>(builder: &MutablePrimitiveArray<T>) -> &DataType
    ensures { type_of result.now ≡ layout_type builder.now }
{
    builder.data_type()
}

/// Returns the data type of a boolean builder.
pub fn boolean_data_type(builder: &MutableBooleanArray) -> &DataType
    ensures { type_of result.now ≡ layout_type builder.now }
{
    builder.data_type()
}

/// Returns the data type of a binary builder.
pub fn binary_data_type<O: Offset>(builder: &MutableBinaryArray<O>) -> &DataType
    ensures { type_of result.now ≡ layout_type builder.now }
{
    builder.data_type()
}

/// Returns the data type of a UTF-8 builder.
pub fn utf8_data_type<O: Offset>(builder: &MutableUtf8Array<O>) -> &DataType
    ensures { type_of result.now ≡ layout_type builder.now }
{
    builder.data_type()
}

/// Returns the data type of a primitive builder of any native type.
pub fn any_primitive_data_type(builder: &AnyMutablePrimitive) -> &DataType
    ensures { type_of result.now ≡ layout_type (built_layout builder.now) }
{
    builder.data_type()
}

/// Returns the validity of a primitive builder.
pub fn primitive_validity<T: NativeType>(
    builder: &MutablePrimitiveArray<T>,
) -> Option<&MutableBitmap>
    ensures { option_map (λ b. b.now) result ≡ validity_of builder.now }
{
    builder.validity()
}

/// Returns the validity of a boolean builder.
pub fn boolean_validity(builder: &MutableBooleanArray) -> Option<&MutableBitmap>
    ensures { option_map (λ b. b.now) result ≡ validity_of builder.now }
{
    builder.validity()
}

/// Returns the validity of a binary builder.
pub fn binary_validity<O: Offset>(builder: &MutableBinaryArray<O>) -> Option<&MutableBitmap>
    ensures { option_map (λ b. b.now) result ≡ validity_of builder.now }
{
    builder.validity()
}

/// Returns the validity of a UTF-8 builder.
pub fn utf8_validity<O: Offset>(builder: &MutableUtf8Array<O>) -> Option<&MutableBitmap>
    ensures { option_map (λ b. b.now) result ≡ validity_of builder.now }
{
    builder.validity()
}

/// Returns the validity of a primitive builder of any native type.
pub fn any_primitive_validity(builder: &AnyMutablePrimitive) -> Option<&MutableBitmap>
    ensures { option_map (λ b. b.now) result ≡ validity_of (built_layout builder.now) }
{
    builder.validity()
}
