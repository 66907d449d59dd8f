//! The parts of arrays, cut out of longer ones.

use crate::numbers::Generator;
use crate::slot::Slot;
use nest_memory::bitmap::Bitmap;
use nest_memory::buffer::Buffer;
use nest_memory::error::Error;
use nest_memory::offset::Offset;
use nest_memory::offsets::OffsetsBuffer;
use std::alloc::Global;

/// A buffer of these values, between others.
pub fn buffer<T: Copy + Drop>(
    alloc: Global,
    rng: &mut Generator,
    values: &[T],
    other: T,
) -> Result<Buffer<T>, Error> {
    let (before, after) = (rng.below(3), rng.below(3));
    let mut all = Vec::with_capacity(alloc, before + values.len() + after)?;
    for _ in 0..before {
        all.push(other)?;
    }
    all.extend_from_slice(values)?;
    for _ in 0..after {
        all.push(other)?;
    }
    Ok(Buffer::from_vec(alloc, all)?.sliced(before, values.len()))
}

/// These bits, between others.
pub fn bits(alloc: Global, rng: &mut Generator, values: &[bool]) -> Result<Bitmap, Error> {
    let (before, after) = (rng.below(11), rng.below(11));
    let mut all = Vec::with_capacity(alloc, before + values.len() + after)?;
    for _ in 0..before {
        all.push(rng.boolean())?;
    }
    all.extend_from_slice(values)?;
    for _ in 0..after {
        all.push(rng.boolean())?;
    }
    Ok(Bitmap::from_bools(alloc, all.as_slice())?.sliced(before, values.len()))
}

/// A validity for these booleans, `None` at times where all are valid.
pub fn validity(
    alloc: Global,
    rng: &mut Generator,
    valid: &[bool],
) -> Result<Option<Bitmap>, Error> {
    if valid.iter().all(|bit| *bit) && rng.boolean() {
        return Ok(None);
    }
    Ok(Some(bits(alloc, rng, valid)?))
}

/// The validity of slots.
pub fn validity_of(
    alloc: Global,
    rng: &mut Generator,
    slots: &[Slot],
) -> Result<Option<Bitmap>, Error> {
    let mut valid = Vec::with_capacity(alloc, slots.len())?;
    for slot in slots {
        valid.push(!slot.is_null())?;
    }
    validity(alloc, rng, valid.as_slice())
}

/// Offsets at these indices, between others.
pub fn offsets<O: Offset + Drop>(
    alloc: Global,
    rng: &mut Generator,
    places: &[usize],
) -> Result<OffsetsBuffer<O>, Error> {
    let (before, after) = (rng.below(3), rng.below(3));
    let first = places.first().copied().unwrap_or(0);
    let last = places.last().copied().unwrap_or(0);
    let mut all = Vec::with_capacity(alloc, before + places.len() + after)?;
    for _ in 0..before {
        all.push(rng.between(0, first))?;
    }
    all.sort()?;
    all.extend_from_slice(places)?;
    for k in 0..after {
        all.push(last + k)?;
    }
    let mut wide = Vec::with_capacity(alloc, all.len())?;
    for index in all.iter() {
        wide.push(O::from_usize(*index).ok_or(Error::Overflow)?)?;
    }
    Ok(OffsetsBuffer::try_new(alloc, wide)?.sliced(before, places.len()))
}
