//! The parts that arrays are made of.

use nest_memory::bitmap::immutable::Bitmap;
use nest_memory::buffer::Buffer;
use nest_memory::error::Error;
use nest_memory::offsets::OffsetsBuffer;
use std::alloc::Global;

/// A buffer of these values.
pub fn buffer<T: Copy + Drop>(alloc: Global, values: &[T]) -> Result<Buffer<T>, Error> {
    Buffer::from_vec(alloc, Vec::from_slice(alloc, values)?)
}

/// A validity: `true` for each valid slot, `false` for each null.
pub fn validity(alloc: Global, valid: &[bool]) -> Result<Option<Bitmap>, Error> {
    Ok(Some(Bitmap::from_bools(alloc, valid)?))
}

#[tactic(auto, unfolding(nest_memory::specs::Rising::numbers))]
/// Offsets of 32 bits: where each row begins, and where the last one ends.
pub fn offsets(alloc: Global, indices: &[i32]) -> Result<OffsetsBuffer<i32>, Error> {
    OffsetsBuffer::try_new(alloc, Vec::from_slice(alloc, indices)?)
}
