//! The parts of an array: values, a validity bitmap, offsets.
ghost use Rattle.std.specs.Prelude.{◌≡◌, Some, IfOk, map};
ghost use Rattle.guide.specs.Words.{to_nat};

use std::alloc::Global;
use tiekvorn::error::Error;
use tiekvorn::{Bitmap, Buffer, OffsetsBuffer};

/// Returns a buffer of `values`.
pub fn buffer<T: Copy + Drop>(alloc: Global, values: &[T]) -> Result<Buffer<T>, Error>
    ensures { IfOk result (λ b. b ≡ values.now) }
{
    Buffer::from_vec(alloc, Vec::from_slice(alloc, values)?)
}

/// Returns a validity bitmap: `true` for a valid slot, `false` for a null.
pub fn validity(alloc: Global, valid: &[bool]) -> Result<Option<Bitmap>, Error>
    ensures { IfOk result (λ v. v ≡ Some valid.now) }
{
    Ok(Some(Bitmap::from_bools(alloc, valid)?))
}

#[tactic(auto, unfolding(nest_memory::specs::Rising::numbers))]
/// Returns 32-bit offsets: slot `i` spans the values from offset `i` to offset `i + 1`.
pub fn offsets(alloc: Global, offsets: &[i32]) -> Result<OffsetsBuffer<i32>, Error>
    ensures { IfOk result (λ o. o ≡ map to_nat offsets.now) }
{
    OffsetsBuffer::try_new(alloc, Vec::from_slice(alloc, offsets)?)
}
