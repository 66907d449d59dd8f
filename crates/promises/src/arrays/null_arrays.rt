//! Arrays of nulls, and empty arrays, of a data type.
//!
//! A data type without an error has both. Else the error is the first in pre-order: a type before the product of its size and
//! the length, the product before the children, and these from the left. `new_null` and `new_empty` of one kind of array refuse
//! a data type of another kind first.
ghost use Rattle.std.specs.Prelude.{◌≡◌, ◌+◌, ◌<◌, ◌^◌, None, IfOk, IsOkUnless, MatchResult, alloc_error, false, replicate, true};
ghost use Rattle.nest_array.specs.Keys.{RefusesDictionary};
ghost use Rattle.nest_array.specs.Seen.{layout_of};
ghost use Rattle.nest_memory.specs.Physical.{binary_of_width, utf8_of_width};
ghost use Rattle.nest_memory.specs.TypeOf.{type_of};
ghost use Rattle.nest_memory.specs.declared.datatypes.physical_type.PhysicalType.TheVariants as physical;
ghost use Rattle.nest_memory.specs.declared.error.Error.TheVariants.{Memory};
ghost use Rattle.nest_model.specs.Fits.{is_dictionary};
ghost use Rattle.nest_model.specs.MadeNulls.{HasNone, HasNulls, RefusesType};
ghost use Rattle.nest_model.specs.Nulls.{empty_error, type_error};
ghost use Rattle.promises.specs.NullArrays.{IsEmptyArray, IsNullArray};

use nest_array::{
    AnyArray, DictionaryArray, FixedSizeBinaryArray, FixedSizeListArray, LargeListArray, ListArray,
    MapArray, NullArray, StructArray, UnionArray, new_empty_array,
};
use nest_flat::binary::BinaryArray;
use nest_flat::boolean::BooleanArray;
use nest_flat::primitive::PrimitiveArray;
use nest_flat::utf8::Utf8Array;
use nest_memory::bitmap::immutable::Bitmap;
use nest_memory::buffer::Buffer;
use nest_memory::datatypes::DataType;
use nest_memory::error::Error;
use nest_memory::offset::Offset;
use nest_memory::offsets::Offsets;
use nest_memory::types::NativeType;
use std::alloc::Global;

/// Returns an array without slots of a data type. Fails exactly where the type has an error, or when an allocation fails.
pub fn empty_of_type(alloc: Global, data_type: DataType) -> Result<AnyArray, Error>
    ensures { let t = type_of data_type in MatchResult result
        (λ a. (empty_error t ≡ None) × HasNone t (layout_of a))
        (λ e. RefusesType e (empty_error t)) }
{
    new_empty_array(alloc, data_type)
}

/// Returns `length` unset bits.
pub fn zeroed_bitmap(alloc: Global, length: usize) -> Result<Bitmap, Error>
    ensures ok { IfOk result (λ b. b ≡ replicate length false) }
    ensures err { IsOkUnless result (Memory alloc_error) }
{
    Bitmap::new_zeroed(alloc, length)
}

/// Returns the offsets of `length` slots without items.
pub fn zeroed_offsets<O: Offset>(alloc: Global, length: usize) -> Result<Offsets<O>, Error>
    requires { length + 1 < 2 ^ 64 }
    ensures ok { IfOk result (λ b. b ≡ replicate (length + 1) 0) }
    ensures err { IsOkUnless result (Memory alloc_error) }
{
    Offsets::new_zeroed(alloc, length)
}

/// Returns `length` copies of a value.
pub fn filled_buffer<T: Copy>(alloc: Global, value: T, length: usize) -> Result<Buffer<T>, Error>
    ensures ok { IfOk result (λ b. b ≡ replicate length value) }
    ensures err { IsOkUnless result (Memory alloc_error) }
{
    Buffer::filled(alloc, value, length)
}

/// Returns nulls of a primitive type.
pub fn null_primitive<T: NativeType>(
    alloc: Global,
    data_type: DataType,
    length: usize,
) -> Result<PrimitiveArray<T>, Error>
    ensures { IsNullArray (physical.Primitive T.PRIMITIVE) (type_of data_type) length None result }
{
    PrimitiveArray::<T>::new_null(alloc, data_type, length)
}

/// Returns an empty primitive array.
pub fn empty_primitive<T: NativeType>(
    alloc: Global,
    data_type: DataType,
) -> Result<PrimitiveArray<T>, Error>
    ensures { IsEmptyArray (physical.Primitive T.PRIMITIVE) (type_of data_type) None result }
{
    PrimitiveArray::<T>::new_empty(alloc, data_type)
}

/// Returns nulls of a boolean type.
pub fn null_boolean(
    alloc: Global,
    data_type: DataType,
    length: usize,
) -> Result<BooleanArray, Error>
    ensures { IsNullArray (physical.Boolean) (type_of data_type) length None result }
{
    BooleanArray::new_null(alloc, data_type, length)
}

/// Returns an empty boolean array.
pub fn empty_boolean(alloc: Global, data_type: DataType) -> Result<BooleanArray, Error>
    ensures { IsEmptyArray (physical.Boolean) (type_of data_type) None result }
{
    BooleanArray::new_empty(alloc, data_type)
}

/// Returns nulls of a binary type.
pub fn null_binary<O: Offset>(
    alloc: Global,
    data_type: DataType,
    length: usize,
) -> Result<BinaryArray<O>, Error>
    ensures { IsNullArray (binary_of_width O.IS_LARGE) (type_of data_type) length (type_error (type_of data_type) length) result }
{
    BinaryArray::<O>::new_null(alloc, data_type, length)
}

/// Returns an empty binary array.
pub fn empty_binary<O: Offset>(alloc: Global, data_type: DataType) -> Result<BinaryArray<O>, Error>
    ensures { IsEmptyArray (binary_of_width O.IS_LARGE) (type_of data_type) (empty_error (type_of data_type)) result }
{
    BinaryArray::<O>::new_empty(alloc, data_type)
}

/// Returns nulls of a UTF-8 type.
pub fn null_utf8<O: Offset>(
    alloc: Global,
    data_type: DataType,
    length: usize,
) -> Result<Utf8Array<O>, Error>
    ensures { IsNullArray (utf8_of_width O.IS_LARGE) (type_of data_type) length (type_error (type_of data_type) length) result }
{
    Utf8Array::<O>::new_null(alloc, data_type, length)
}

/// Returns an empty UTF-8 array.
pub fn empty_utf8<O: Offset>(alloc: Global, data_type: DataType) -> Result<Utf8Array<O>, Error>
    ensures { IsEmptyArray (utf8_of_width O.IS_LARGE) (type_of data_type) (empty_error (type_of data_type)) result }
{
    Utf8Array::<O>::new_empty(alloc, data_type)
}

/// Returns nulls of a null type.
pub fn null_nulls(alloc: Global, data_type: DataType, length: usize) -> Result<NullArray, Error>
    ensures { IsNullArray physical.Null (type_of data_type) length (type_error (type_of data_type) length) result }
{
    NullArray::new_null(alloc, data_type, length)
}

/// Returns an empty null array.
pub fn empty_nulls(alloc: Global, data_type: DataType) -> Result<NullArray, Error>
    ensures { IsEmptyArray physical.Null (type_of data_type) (empty_error (type_of data_type)) result }
{
    NullArray::new_empty(alloc, data_type)
}

/// Returns nulls of a fixed-size binary type.
pub fn null_fixed_size_binary(
    alloc: Global,
    data_type: DataType,
    length: usize,
) -> Result<FixedSizeBinaryArray, Error>
    ensures { IsNullArray physical.FixedSizeBinary (type_of data_type) length (type_error (type_of data_type) length) result }
{
    FixedSizeBinaryArray::new_null(alloc, data_type, length)
}

/// Returns an empty fixed-size binary array.
pub fn empty_fixed_size_binary(
    alloc: Global,
    data_type: DataType,
) -> Result<FixedSizeBinaryArray, Error>
    ensures { IsEmptyArray physical.FixedSizeBinary (type_of data_type) (empty_error (type_of data_type)) result }
{
    FixedSizeBinaryArray::new_empty(alloc, data_type)
}

/// Returns nulls of a fixed-size list type.
pub fn null_fixed_size_list(
    alloc: Global,
    data_type: DataType,
    length: usize,
) -> Result<FixedSizeListArray, Error>
    ensures { IsNullArray physical.FixedSizeList (type_of data_type) length (type_error (type_of data_type) length) result }
{
    FixedSizeListArray::new_null(alloc, data_type, length)
}

/// Returns an empty fixed-size list array.
pub fn empty_fixed_size_list(
    alloc: Global,
    data_type: DataType,
) -> Result<FixedSizeListArray, Error>
    ensures { IsEmptyArray physical.FixedSizeList (type_of data_type) (empty_error (type_of data_type)) result }
{
    FixedSizeListArray::new_empty(alloc, data_type)
}

/// Returns nulls of a list type.
pub fn null_list(alloc: Global, data_type: DataType, length: usize) -> Result<ListArray, Error>
    ensures { IsNullArray physical.List (type_of data_type) length (type_error (type_of data_type) length) result }
{
    ListArray::new_null(alloc, data_type, length)
}

/// Returns an empty list array.
pub fn empty_list(alloc: Global, data_type: DataType) -> Result<ListArray, Error>
    ensures { IsEmptyArray physical.List (type_of data_type) (empty_error (type_of data_type)) result }
{
    ListArray::new_empty(alloc, data_type)
}

/// Returns nulls of a large list type.
pub fn null_large_list(
    alloc: Global,
    data_type: DataType,
    length: usize,
) -> Result<LargeListArray, Error>
    ensures { IsNullArray physical.LargeList (type_of data_type) length (type_error (type_of data_type) length) result }
{
    LargeListArray::new_null(alloc, data_type, length)
}

/// Returns an empty large list array.
pub fn empty_large_list(alloc: Global, data_type: DataType) -> Result<LargeListArray, Error>
    ensures { IsEmptyArray physical.LargeList (type_of data_type) (empty_error (type_of data_type)) result }
{
    LargeListArray::new_empty(alloc, data_type)
}

/// Returns nulls of a struct type.
pub fn null_struct(alloc: Global, data_type: DataType, length: usize) -> Result<StructArray, Error>
    ensures { IsNullArray physical.Struct (type_of data_type) length (type_error (type_of data_type) length) result }
{
    StructArray::new_null(alloc, data_type, length)
}

/// Returns an empty struct array.
pub fn empty_struct(alloc: Global, data_type: DataType) -> Result<StructArray, Error>
    ensures { IsEmptyArray physical.Struct (type_of data_type) (empty_error (type_of data_type)) result }
{
    StructArray::new_empty(alloc, data_type)
}

/// Returns nulls of a map type.
pub fn null_map(alloc: Global, data_type: DataType, length: usize) -> Result<MapArray, Error>
    ensures { IsNullArray physical.Map (type_of data_type) length (type_error (type_of data_type) length) result }
{
    MapArray::new_null(alloc, data_type, length)
}

/// Returns an empty map array.
pub fn empty_map(alloc: Global, data_type: DataType) -> Result<MapArray, Error>
    ensures { IsEmptyArray physical.Map (type_of data_type) (empty_error (type_of data_type)) result }
{
    MapArray::new_empty(alloc, data_type)
}

/// Returns nulls of a union type.
pub fn null_union(alloc: Global, data_type: DataType, length: usize) -> Result<UnionArray, Error>
    ensures { IsNullArray physical.Union (type_of data_type) length (type_error (type_of data_type) length) result }
{
    UnionArray::new_null(alloc, data_type, length)
}

/// Returns an empty union array.
pub fn empty_union(alloc: Global, data_type: DataType) -> Result<UnionArray, Error>
    ensures { IsEmptyArray physical.Union (type_of data_type) (empty_error (type_of data_type)) result }
{
    UnionArray::new_empty(alloc, data_type)
}

/// Returns nulls of a dictionary type with keys of any width.
pub fn null_dictionary(
    alloc: Global,
    data_type: DataType,
    length: usize,
) -> Result<DictionaryArray, Error>
    ensures { let t = type_of data_type in MatchResult result
        (λ a. (is_dictionary t ≡ true) × (type_error t length ≡ None) × HasNulls t length a)
        (λ e. RefusesDictionary e t (type_error t length)) }
{
    DictionaryArray::new_null(alloc, data_type, length)
}

/// Returns an empty dictionary array with keys of any width.
pub fn empty_dictionary(alloc: Global, data_type: DataType) -> Result<DictionaryArray, Error>
    ensures { let t = type_of data_type in MatchResult result
        (λ a. (is_dictionary t ≡ true) × (empty_error t ≡ None) × HasNone t a)
        (λ e. RefusesDictionary e t (empty_error t)) }
{
    DictionaryArray::new_empty(alloc, data_type)
}
