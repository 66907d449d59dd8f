//! Flat arrays by their examples slots.
mod blocks;
mod cuts;
mod iterators;
mod kinds;
mod memory;
mod nulls;
mod refusals;
mod same;

use nest_flat::binary::BinaryArray;
use nest_flat::boolean::BooleanArray;
use nest_flat::primitive::PrimitiveArray;
use nest_flat::utf8::Utf8Array;
use nest_memory::bitmap::immutable::Bitmap;
use nest_memory::buffer::Buffer;
use nest_memory::datatypes::DataType;
use nest_memory::error::Error;
use nest_memory::offset::Offset;
use nest_memory::offsets::OffsetsBuffer;
use std::alloc::Global;

/// Both values, or the first error.
fn both<A: Drop, B: Drop>(a: Result<A, Error>, b: Result<B, Error>) -> Result<(A, B), Error> {
    Ok((a?, b?))
}

fn buffer<T: Copy + Drop>(alloc: Global, items: &[T]) -> Result<Buffer<T>, Error> {
    Buffer::from_vec(alloc, Vec::from_slice(alloc, items)?)
}

fn offsets_of<O: Offset>(alloc: Global, offsets: &[O]) -> Result<OffsetsBuffer<O>, Error> {
    OffsetsBuffer::try_new(alloc, Vec::from_slice(alloc, offsets)?)
}

/// The validity of these bits.
fn validity(alloc: Global, bits: Option<&[bool]>) -> Result<Option<Bitmap>, Error> {
    match bits {
        None => Ok(None),
        Some(bits) => Ok(Some(Bitmap::from_bools(alloc, bits)?)),
    }
}

fn numbers(
    alloc: Global,
    data_type: DataType,
    items: &[i32],
    bits: Option<&[bool]>,
) -> Result<PrimitiveArray<i32>, Error> {
    match both(buffer(alloc, items), validity(alloc, bits)) {
        Ok((values, validity)) => PrimitiveArray::try_new(data_type, values, validity),
        Err(error) => {
            drop(data_type);
            Err(error)
        }
    }
}

fn booleans(alloc: Global, items: &[bool], bits: Option<&[bool]>) -> Result<BooleanArray, Error> {
    match both(Bitmap::from_bools(alloc, items), validity(alloc, bits)) {
        Ok((values, validity)) => BooleanArray::try_new(DataType::Boolean, values, validity),
        Err(error) => Err(error),
    }
}

/// Bytes by offsets of 64 bits.
fn binaries(
    alloc: Global,
    bytes: &[u8],
    offsets: &[i64],
    bits: Option<&[bool]>,
) -> Result<BinaryArray<i64>, Error> {
    let parts = both(offsets_of(alloc, offsets), buffer(alloc, bytes));
    match both(parts, validity(alloc, bits)) {
        Ok(((offsets, values), validity)) => {
            BinaryArray::try_new(DataType::LargeBinary, offsets, values, validity)
        }
        Err(error) => Err(error),
    }
}

/// Strings by offsets of 32 bits.
fn texts(
    alloc: Global,
    bytes: &[u8],
    offsets: &[i32],
    bits: Option<&[bool]>,
) -> Result<Utf8Array<i32>, Error> {
    let parts = both(offsets_of(alloc, offsets), buffer(alloc, bytes));
    match both(parts, validity(alloc, bits)) {
        Ok(((offsets, values), validity)) => {
            Utf8Array::try_new(DataType::Utf8, offsets, values, validity)
        }
        Err(error) => Err(error),
    }
}
