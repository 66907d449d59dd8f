//! Builders of arrays without children.
ghost use Rattle.std.specs.Prelude.{◌≡◌, IfOk};
ghost use Rattle.guide.specs.Words.{layout_of, pushed_binaries, pushed_booleans, pushed_fixed_binaries, pushed_strings, slots_of, three_nulls, three_numbers};

use std::alloc::Global;
use tiekvorn::error::Error;
use tiekvorn::{
    AnyArray, BinaryArray, BooleanArray, DataType, MutableArray, MutableBinaryArray,
    MutableBooleanArray, MutableFixedSizeBinaryArray, MutableNullArray, MutablePrimitiveArray,
    MutableUtf8Array, Plain, PrimitiveArray, Utf8Array,
};

/// Builds the array `[1, null, 3]`.
pub fn numbers(alloc: Global) -> Result<PrimitiveArray<i64>, Error>
    ensures { IfOk result (λ a. slots_of a ≡ three_numbers) }
{
    let mut builder = MutablePrimitiveArray::<i64>::new(alloc);
    builder.try_push(Some(1))?;
    builder.try_push(None)?;
    builder.try_push(Some(3))?;
    builder.freeze()
}

/// Builds the array `[true, null]`.
pub fn booleans(alloc: Global) -> Result<BooleanArray, Error>
    ensures { IfOk result (λ a. slots_of a ≡ pushed_booleans) }
{
    let mut builder = MutableBooleanArray::new(alloc);
    builder.try_push(Some(true))?;
    builder.try_push(None)?;
    builder.freeze()
}

/// Builds the array `["ab", null]`.
pub fn strings(alloc: Global) -> Result<Utf8Array<i32>, Error>
    ensures { IfOk result (λ a. slots_of a ≡ pushed_strings) }
{
    let mut builder = MutableUtf8Array::<i32>::new(alloc)?;
    builder.try_push(Some("ab"))?;
    builder.try_push(None)?;
    builder.freeze()
}

/// Builds a binary array: the bytes of "ab", and null.
pub fn binaries(alloc: Global) -> Result<BinaryArray<i32>, Error>
    ensures { IfOk result (λ a. slots_of a ≡ pushed_binaries) }
{
    let mut builder = MutableBinaryArray::<i32>::new(alloc)?;
    builder.try_push(Some(b"ab".as_slice()))?;
    builder.try_push(None)?;
    builder.freeze()
}

/// Builds a fixed-size binary array, two bytes a slot: "ab" and "cd".
pub fn fixed_size_binaries(alloc: Global) -> Result<AnyArray, Error>
    ensures { IfOk result (λ a. slots_of (layout_of a) ≡ pushed_fixed_binaries) }
{
    let mut builder = MutableFixedSizeBinaryArray::new(alloc, 2);
    builder.try_push_plain(Some(Plain::Bytes(b"ab".as_slice())))?;
    builder.try_push_plain(Some(Plain::Bytes(b"cd".as_slice())))?;
    builder.as_box()
}

/// Builds three nulls: the builder starts with two, and one is pushed.
pub fn nulls(alloc: Global) -> Result<AnyArray, Error>
    ensures { IfOk result (λ a. slots_of (layout_of a) ≡ three_nulls) }
{
    let mut builder = MutableNullArray::new(alloc, DataType::Null, 2);
    builder.push_null()?;
    builder.as_box()
}
