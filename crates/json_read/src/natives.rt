//! Empty builders of primitive types.
ghost use Rattle.std.specs.Prelude.{◌≡◌, [], false};
ghost use Rattle.nest_flat.specs.AnyMutablePrimitive.{built_layout};
ghost use Rattle.json_read.specs.EmptyBuilders.{is_float};
ghost use Rattle.nest_memory.specs.Physical.{physical_type};
ghost use Rattle.nest_memory.specs.TypeOf.{type_of};
ghost use Rattle.nest_memory.specs.declared.datatypes.physical_type.PhysicalType.TheVariants as physical;
ghost use Rattle.nest_model.specs.Layout.{layout_type};
ghost use Rattle.nest_model.specs.Meaning.{slots_of};

use nest_flat::any_primitive::mutable::AnyMutablePrimitive;
use nest_flat::primitive::mutable::MutablePrimitiveArray;
use nest_memory::datatypes::DataType;
use nest_memory::datatypes::physical_type::PrimitiveType;
use std::alloc::Global;

// Makes an empty builder of one native type.
macro_rules! natives_of {
    ($kind:ident, $alloc:ident, $data_type:ident) => {
        AnyMutablePrimitive::$kind(MutablePrimitiveArray::new($alloc).to($data_type))
    };
}

/// Returns an empty builder of a primitive type, which must not be floating-point.
pub(crate) fn natives(
    alloc: Global,
    kind: PrimitiveType,
    data_type: DataType,
) -> AnyMutablePrimitive
    requires kind { physical_type (type_of data_type) ≡ physical.Primitive kind }
    requires native { is_float kind ≡ false }
    ensures none { slots_of (built_layout result) ≡ [] }
    ensures same_type { layout_type (built_layout result) ≡ type_of data_type }
{
    match kind {
        PrimitiveType::Int8 => natives_of!(Int8, alloc, data_type),
        PrimitiveType::Int16 => natives_of!(Int16, alloc, data_type),
        PrimitiveType::Int32 => natives_of!(Int32, alloc, data_type),
        PrimitiveType::Int64 => natives_of!(Int64, alloc, data_type),
        PrimitiveType::Int128 => natives_of!(Int128, alloc, data_type),
        PrimitiveType::Int256 => natives_of!(Int256, alloc, data_type),
        PrimitiveType::UInt8 => natives_of!(UInt8, alloc, data_type),
        PrimitiveType::UInt16 => natives_of!(UInt16, alloc, data_type),
        PrimitiveType::UInt32 => natives_of!(UInt32, alloc, data_type),
        PrimitiveType::UInt64 => natives_of!(UInt64, alloc, data_type),
        PrimitiveType::DaysMs => natives_of!(DaysMs, alloc, data_type),
        PrimitiveType::MonthDayNano => natives_of!(MonthDayNano, alloc, data_type),
        PrimitiveType::Float16 | PrimitiveType::Float32 | PrimitiveType::Float64 => unreachable!(),
    }
}
