//! Downcasts of arrays whose kind is known from their data type.
ghost use Rattle.std.specs.Prelude.{◌≡◌};
ghost use Rattle.nest_memory.specs.declared.datatypes.physical_type.PhysicalType.TheVariants as physical;
ghost use Rattle.nest_flat.specs.AnyPrimitive.{primitive_layout};
ghost use Rattle.nest_array.specs.Kinds.{physical_kind, IsKeyed, IsPrimitive};
ghost use Rattle.nest_array.specs.Words.{Alike, layout_of, layout_type, physical_type};

use crate::any::AnyArray;
use crate::dictionary::DictionaryArray;
use crate::fixed_size_binary::FixedSizeBinaryArray;
use crate::fixed_size_list::FixedSizeListArray;
use crate::list::ListArray;
use crate::list::large::LargeListArray;
use crate::map::MapArray;
use crate::null::NullArray;
use crate::struct_::StructArray;
use crate::union::UnionArray;
use nest_flat::any_primitive::AnyPrimitive;
use nest_flat::binary::BinaryArray;
use nest_flat::boolean::BooleanArray;
use nest_flat::utf8::Utf8Array;

/// Shows the prover that the variant of an array is that of its physical type.
pub(crate) fn kind(a: &AnyArray)
    ensures { physical_type (layout_type (layout_of a.now)) ≡ physical_kind a.now }
{
    match a {
        AnyArray::Null(x) => x.known(),
        AnyArray::Boolean(x) => x.known(),
        AnyArray::Primitive(x) => x.known(),
        AnyArray::Binary(x) => x.known(),
        AnyArray::LargeBinary(x) => x.known(),
        AnyArray::Utf8(x) => x.known(),
        AnyArray::LargeUtf8(x) => x.known(),
        AnyArray::FixedSizeBinary(x) => x.known(),
        AnyArray::FixedSizeList(x) => x.known(),
        AnyArray::List(x) => x.known(),
        AnyArray::LargeList(x) => x.known(),
        AnyArray::Struct(x) => x.known(),
        AnyArray::Map(x) => x.known(),
        AnyArray::Union(x) => x.known(),
        AnyArray::Dictionary(x) => x.known(),
    }
}

/// Shows the prover that data types that differ only in outer extensions have one physical type.
pub(crate) fn same_kind(a: &AnyArray, b: &AnyArray)
    requires { Alike (layout_of a.now) (layout_of b.now) }
    ensures { physical_type (layout_type (layout_of a.now)) ≡ physical_type (layout_type (layout_of b.now)) }
{
    kind(a);
    kind(b);
}

/// Returns the null array.
pub(crate) fn as_null(b: &AnyArray) -> &NullArray
    requires { physical_type (layout_type (layout_of b.now)) ≡ physical.Null }
    ensures { result.now ≡ layout_of b.now }
{
    kind(b);
    match b {
        AnyArray::Null(y) => y,
        _ => unreachable!(),
    }
}

/// Returns the primitive array, of any native type.
pub(crate) fn as_primitive(b: &AnyArray) -> &AnyPrimitive
    requires { IsPrimitive (physical_type (layout_type (layout_of b.now))) }
    ensures { primitive_layout result.now ≡ layout_of b.now }
{
    kind(b);
    match b {
        AnyArray::Primitive(y) => y,
        _ => unreachable!(),
    }
}

/// Returns the Boolean array.
pub(crate) fn as_boolean(b: &AnyArray) -> &BooleanArray
    requires { physical_type (layout_type (layout_of b.now)) ≡ physical.Boolean }
    ensures { result.now ≡ layout_of b.now }
{
    kind(b);
    match b {
        AnyArray::Boolean(y) => y,
        _ => unreachable!(),
    }
}

/// Returns the binary array with 32-bit offsets.
pub(crate) fn as_binary(b: &AnyArray) -> &BinaryArray<i32>
    requires { physical_type (layout_type (layout_of b.now)) ≡ physical.Binary }
    ensures { result.now ≡ layout_of b.now }
{
    kind(b);
    match b {
        AnyArray::Binary(y) => y,
        _ => unreachable!(),
    }
}

/// Returns the binary array with 64-bit offsets.
pub(crate) fn as_large_binary(b: &AnyArray) -> &BinaryArray<i64>
    requires { physical_type (layout_type (layout_of b.now)) ≡ physical.LargeBinary }
    ensures { result.now ≡ layout_of b.now }
{
    kind(b);
    match b {
        AnyArray::LargeBinary(y) => y,
        _ => unreachable!(),
    }
}

/// Returns the UTF-8 array with 32-bit offsets.
pub(crate) fn as_utf8(b: &AnyArray) -> &Utf8Array<i32>
    requires { physical_type (layout_type (layout_of b.now)) ≡ physical.Utf8 }
    ensures { result.now ≡ layout_of b.now }
{
    kind(b);
    match b {
        AnyArray::Utf8(y) => y,
        _ => unreachable!(),
    }
}

/// Returns the UTF-8 array with 64-bit offsets.
pub(crate) fn as_large_utf8(b: &AnyArray) -> &Utf8Array<i64>
    requires { physical_type (layout_type (layout_of b.now)) ≡ physical.LargeUtf8 }
    ensures { result.now ≡ layout_of b.now }
{
    kind(b);
    match b {
        AnyArray::LargeUtf8(y) => y,
        _ => unreachable!(),
    }
}

/// Returns the fixed-size binary array.
pub(crate) fn as_fixed_size_binary(b: &AnyArray) -> &FixedSizeBinaryArray
    requires { physical_type (layout_type (layout_of b.now)) ≡ physical.FixedSizeBinary }
    ensures { result.now ≡ layout_of b.now }
{
    kind(b);
    match b {
        AnyArray::FixedSizeBinary(y) => y,
        _ => unreachable!(),
    }
}

/// Returns the fixed-size list array.
pub(crate) fn as_fixed_size_list(b: &AnyArray) -> &FixedSizeListArray
    requires { physical_type (layout_type (layout_of b.now)) ≡ physical.FixedSizeList }
    ensures { result.now ≡ layout_of b.now }
{
    kind(b);
    match b {
        AnyArray::FixedSizeList(y) => y,
        _ => unreachable!(),
    }
}

/// Returns the list array with 32-bit offsets.
pub(crate) fn as_list(b: &AnyArray) -> &ListArray
    requires { physical_type (layout_type (layout_of b.now)) ≡ physical.List }
    ensures { result.now ≡ layout_of b.now }
{
    kind(b);
    match b {
        AnyArray::List(y) => y,
        _ => unreachable!(),
    }
}

/// Returns the list array with 64-bit offsets.
pub(crate) fn as_large_list(b: &AnyArray) -> &LargeListArray
    requires { physical_type (layout_type (layout_of b.now)) ≡ physical.LargeList }
    ensures { result.now ≡ layout_of b.now }
{
    kind(b);
    match b {
        AnyArray::LargeList(y) => y,
        _ => unreachable!(),
    }
}

/// Returns the struct array.
pub(crate) fn as_struct(b: &AnyArray) -> &StructArray
    requires { physical_type (layout_type (layout_of b.now)) ≡ physical.Struct }
    ensures { result.now ≡ layout_of b.now }
{
    kind(b);
    match b {
        AnyArray::Struct(y) => y,
        _ => unreachable!(),
    }
}

/// Returns the map array.
pub(crate) fn as_map(b: &AnyArray) -> &MapArray
    requires { physical_type (layout_type (layout_of b.now)) ≡ physical.Map }
    ensures { result.now ≡ layout_of b.now }
{
    kind(b);
    match b {
        AnyArray::Map(y) => y,
        _ => unreachable!(),
    }
}

/// Returns the union array.
pub(crate) fn as_union(b: &AnyArray) -> &UnionArray
    requires { physical_type (layout_type (layout_of b.now)) ≡ physical.Union }
    ensures { result.now ≡ layout_of b.now }
{
    kind(b);
    match b {
        AnyArray::Union(y) => y,
        _ => unreachable!(),
    }
}

/// Returns the dictionary array, of any key type.
pub(crate) fn as_dictionary(b: &AnyArray) -> &DictionaryArray
    requires { IsKeyed (physical_type (layout_type (layout_of b.now))) }
    ensures { result.now ≡ layout_of b.now }
{
    kind(b);
    match b {
        AnyArray::Dictionary(y) => y,
        _ => unreachable!(),
    }
}
