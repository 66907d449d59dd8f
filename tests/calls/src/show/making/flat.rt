//! Arrays without children, from parts.

use crate::show::making::parts::{buffer, offsets, validity};
use nest_array::{AnyArray, FixedSizeBinaryArray, NullArray};
use nest_flat::any_primitive::AnyPrimitive;
use nest_flat::binary::BinaryArray;
use nest_flat::boolean::BooleanArray;
use nest_flat::primitive::PrimitiveArray;
use nest_flat::utf8::Utf8Array;
use nest_memory::bitmap::immutable::Bitmap;
use nest_memory::datatypes::DataType;
use nest_memory::error::Error;
use std::alloc::Global;

/// The numbers 1, null, 3, 4. What is under the null, here 2, is in no slot.
pub fn numbers(alloc: Global) -> Result<PrimitiveArray<i64>, Error> {
    let values = buffer(alloc, &[1, 2, 3, 4])?;
    let validity = validity(alloc, &[true, false, true, true])?;
    PrimitiveArray::try_new(DataType::Int64, values, validity)
}

/// The same as an array of any kind.
pub fn any_numbers(alloc: Global) -> Result<AnyArray, Error> {
    match numbers(alloc) {
        Ok(array) => Ok(AnyArray::Primitive(AnyPrimitive::Int64(array))),
        Err(error) => Err(error),
    }
}

/// The booleans true, null, false, true.
pub fn booleans(alloc: Global) -> Result<BooleanArray, Error> {
    let values = Bitmap::from_bools(alloc, &[true, true, false, true])?;
    let validity = validity(alloc, &[true, false, true, true])?;
    BooleanArray::try_new(DataType::Boolean, values, validity)
}

/// The strings "ab", "", null, "c": their bytes one after another, and where each begins.
pub fn texts(alloc: Global) -> Result<Utf8Array<i32>, Error> {
    let offsets = offsets(alloc, &[0, 2, 2, 2, 3])?;
    let bytes = buffer(alloc, &[97u8, 98, 99])?;
    let validity = validity(alloc, &[true, true, false, true])?;
    Utf8Array::try_new(DataType::Utf8, offsets, bytes, validity)
}

/// The byte strings 1 2 and 3.
pub fn bytes(alloc: Global) -> Result<BinaryArray<i32>, Error> {
    let offsets = offsets(alloc, &[0, 2, 3])?;
    let bytes = buffer(alloc, &[1u8, 2, 3])?;
    BinaryArray::try_new(DataType::Binary, offsets, bytes, None)
}

/// Byte strings of two bytes each: "ab", "cd".
pub fn codes(alloc: Global) -> Result<FixedSizeBinaryArray, Error> {
    let bytes = buffer(alloc, &[97u8, 98, 99, 100])?;
    FixedSizeBinaryArray::try_new(DataType::FixedSizeBinary(2), bytes, None)
}

/// Three nulls, which take no memory.
pub fn nulls() -> Result<NullArray, Error> {
    NullArray::try_new(DataType::Null, 3)
}
