//! Arrays of bytes through what they have in common.

use nest_array::{FixedSizeBinaryArray, FixedSizeBinaryValues, GenericBinaryArray};
use nest_flat::binary::BinaryArray;
use nest_flat::utf8::Utf8Array;
use nest_memory::buffer::Buffer;
use nest_memory::datatypes::DataType;
use nest_memory::error::Error;
use nest_memory::offsets::OffsetsBuffer;
use std::alloc::Global;

/// How many bytes and how many offsets an array shows.
fn counts<A: GenericBinaryArray<i32>>(array: &A) -> (usize, usize) {
    (array.values().len(), array.offsets().len())
}

/// How many bytes an array shows in all, and in each slot.
fn sizes<A: FixedSizeBinaryValues>(array: &A) -> (usize, usize) {
    (array.values().len(), array.size())
}

/// Offsets of the slots ab and c, and their bytes; d belongs to no slot.
fn parts(alloc: Global) -> Result<(OffsetsBuffer<i32>, Buffer<u8>), Error> {
    let offsets = OffsetsBuffer::try_new(alloc, Vec::from_slice(alloc, [0i32, 2, 3].as_slice())?)?;
    let bytes = Buffer::from_vec(alloc, Vec::from_slice(alloc, b"abcd")?)?;
    Ok((offsets, bytes))
}

fn binary_counts(alloc: Global) -> Result<(usize, usize), Error> {
    let (offsets, bytes) = parts(alloc)?;
    let array = BinaryArray::try_new(DataType::Binary, offsets, bytes, None)?;
    let found = counts(&array);
    drop(array);
    Ok(found)
}

fn string_counts(alloc: Global) -> Result<(usize, usize), Error> {
    let (offsets, bytes) = parts(alloc)?;
    let array = Utf8Array::try_new(DataType::Utf8, offsets, bytes, None)?;
    let found = counts(&array);
    drop(array);
    Ok(found)
}

#[test]
fn arrays_show_all_their_bytes(rt: HostRuntime) {
    assert!(rt; binary_counts(rt.alloc()).expect(&rt, "binary counts") == (4, 3));
    assert!(rt; string_counts(rt.alloc()).expect(&rt, "text counts") == (4, 3));
    let array = FixedSizeBinaryArray::from_slice(rt.alloc(), [*b"ab", *b"cd"].as_slice()).expect(
        &rt, "items",
    );
    assert!(rt; sizes(&array) == (4, 2));
}
