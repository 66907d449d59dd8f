//! Checks that the buffers of a record batch are within its body.
ghost use Rattle.std.specs.Prelude.{◌≡◌, ◌<◌, ◌^◌, map, sum, nat_le};
ghost use Rattle.ipc_flatbuf.specs.ReadResults.{check};
ghost use Rattle.ipc_flatbuf.specs.declared.error.IpcReadError.TheVariants.{BufferSum};
ghost use Rattle.ipc_flatbuf.specs.Batches.{spec_is_within, length_of, spec_zero_if_negative, spec_each_within, spec_all_within};

use crate::{BufferSpec, IpcReadError};

fn is_within(body: usize, buffer: BufferSpec) -> bool
    ensures { result ≡ spec_is_within body buffer.offset buffer.length }
{
    if buffer.offset < 0 || buffer.length < 0 {
        return false;
    }
    let offset = buffer.offset as usize;
    offset <= body && buffer.length as usize <= body - offset
}

fn zero_if_negative(number: i64) -> usize
    ensures { result ≡ spec_zero_if_negative number }
{
    if number < 0 { 0 } else { number as usize }
}

fn each_within(body: usize, buffers: &[BufferSpec]) -> Result<(), IpcReadError>
    ensures { result ≡ spec_each_within body buffers.now }
{
    for buffer in buffers {
        if !is_within(body, *buffer) {
            return Err(IpcReadError::BufferRange);
        }
    }
    Ok(())
}

// Subtracts from the length of the body, since the sum of the lengths can overflow.
fn total_within(body: usize, buffers: &[BufferSpec]) -> Result<(), IpcReadError>
    ensures { result ≡ check (nat_le (sum (map length_of buffers.now)) body) BufferSum }
{
    let mut left = body;
    for buffer in buffers {
        let length = zero_if_negative(buffer.length);
        if length > left {
            return Err(IpcReadError::BufferSum);
        }
        left = left - length;
    }
    Ok(())
}

/// Checks that each buffer is within a body of `body` bytes, and that their total length does not exceed it.
///
/// # Errors
/// [`IpcReadError::BufferRange`] for the first buffer that is not, [`IpcReadError::BufferSum`] for the total.
#[tactic(auto, unfolding(crate::specs::Batches::spec_all_within))]
pub fn all_within(body: usize, buffers: &[BufferSpec]) -> Result<(), IpcReadError>
    ensures { result ≡ spec_all_within body buffers.now }
{
    each_within(body, buffers)?;
    total_within(body, buffers)
}
