//! Arrays without children, from their parts.
ghost use Rattle.std.specs.Prelude.{◌≡◌, IfOk};
ghost use Rattle.guide.specs.Words.{four_booleans, four_numbers, four_strings, layout_of, numbers_layout, slots_of, strings_layout, three_nulls, two_binaries, two_fixed_binaries};

use crate::arrays::parts::{buffer, offsets, validity};
use std::alloc::Global;
use tiekvorn::error::Error;
use tiekvorn::{
    AnyArray, AnyPrimitive, BinaryArray, Bitmap, BooleanArray, DataType, FixedSizeBinaryArray,
    NullArray, PrimitiveArray, Utf8Array,
};

/// Returns the array `[1, null, 3, 4]`. The value under the null is 2, and no slot has it.
pub fn numbers(alloc: Global) -> Result<PrimitiveArray<i64>, Error>
    ensures parts { IfOk result (λ a. a ≡ numbers_layout) }
    ensures slots { IfOk result (λ a. slots_of a ≡ four_numbers) }
{
    let values = buffer(alloc, &[1, 2, 3, 4])?;
    let validity = validity(alloc, &[true, false, true, true])?;
    PrimitiveArray::try_new(DataType::Int64, values, validity)
}

/// Returns the same array as an `AnyArray`.
pub fn boxed_numbers(alloc: Global) -> Result<AnyArray, Error>
    ensures parts { IfOk result (λ a. layout_of a ≡ numbers_layout) }
    ensures slots { IfOk result (λ a. slots_of (layout_of a) ≡ four_numbers) }
{
    match numbers(alloc) {
        Ok(array) => Ok(AnyArray::Primitive(AnyPrimitive::Int64(array))),
        Err(error) => Err(error),
    }
}

/// Returns the array `[true, null, false, true]`.
pub fn booleans(alloc: Global) -> Result<BooleanArray, Error>
    ensures { IfOk result (λ a. slots_of a ≡ four_booleans) }
{
    let values = Bitmap::from_bools(alloc, &[true, true, false, true])?;
    let validity = validity(alloc, &[true, false, true, true])?;
    BooleanArray::try_new(DataType::Boolean, values, validity)
}

/// Returns the array `["ab", "", null, "c"]`: the bytes of all strings, and the offset at which each begins.
pub fn strings(alloc: Global) -> Result<Utf8Array<i32>, Error>
    ensures parts { IfOk result (λ a. a ≡ strings_layout) }
    ensures slots { IfOk result (λ a. slots_of a ≡ four_strings) }
{
    let offsets = offsets(alloc, &[0, 2, 2, 2, 3])?;
    let bytes = buffer(alloc, &[97u8, 98, 99])?;
    let validity = validity(alloc, &[true, true, false, true])?;
    Utf8Array::try_new(DataType::Utf8, offsets, bytes, validity)
}

/// Returns a binary array of the bytes 1 2, and of the byte 3.
pub fn binaries(alloc: Global) -> Result<BinaryArray<i32>, Error>
    ensures { IfOk result (λ a. slots_of a ≡ two_binaries) }
{
    let offsets = offsets(alloc, &[0, 2, 3])?;
    let bytes = buffer(alloc, &[1u8, 2, 3])?;
    BinaryArray::try_new(DataType::Binary, offsets, bytes, None)
}

/// Returns a fixed-size binary array, two bytes a slot: "ab" and "cd".
pub fn fixed_size_binaries(alloc: Global) -> Result<FixedSizeBinaryArray, Error>
    ensures { IfOk result (λ a. slots_of a ≡ two_fixed_binaries) }
{
    let bytes = buffer(alloc, &[97u8, 98, 99, 100])?;
    FixedSizeBinaryArray::try_new(DataType::FixedSizeBinary(2), bytes, None)
}

/// Returns a null array of three slots, which allocates nothing.
pub fn nulls() -> Result<NullArray, Error>
    ensures { IfOk result (λ a. slots_of a ≡ three_nulls) }
{
    NullArray::try_new(DataType::Null, 3)
}
