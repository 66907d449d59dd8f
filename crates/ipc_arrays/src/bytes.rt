//! Copies bytes from a body and into one.
ghost use Rattle.std.specs.Prelude.{◌≡◌, ◌≤◌, ◌-◌, ◌*◌, ◌++◌, length, take, nat_le, IfOk, OnOk, Ok};
ghost use Rattle.ipc_flatbuf.specs.ReadResults.{ReturnsOrRunsOut};
ghost use Rattle.ipc_flatbuf.specs.MessageBytes.{padding};
ghost use Rattle.ipc_arrays.specs.Decoding.{decoded_bytes};
ghost use Rattle.ipc_arrays.specs.BodyBuffers.{padded};

use ipc_flatbuf::{IpcReadError, write_zeros};
use nest_memory::buffer::Buffer;
use nest_memory::error::Error;
use std::alloc::{AllocError, Global};

/// Returns a copy of the first `size` bytes.
pub(crate) fn copy_first(alloc: Global, size: usize, bytes: &[u8]) -> Result<Vec<u8>, AllocError>
    requires { size ≤ length bytes.now }
    ensures { IfOk result (λ v. v.items ≡ take size bytes.now) }
{
    let (first, _) = bytes.split_at(size);
    let mut copy = Vec::with_capacity(alloc, size)?;
    copy.extend_from_slice(first)?;
    Ok(copy)
}

/// Returns a buffer of these values.
pub(crate) fn buffer_of<T: Copy>(alloc: Global, values: Vec<T>) -> Result<Buffer<T>, IpcReadError>
    ensures { ReturnsOrRunsOut (λ b. b) result (Ok values.items) }
{
    match Buffer::from_vec(alloc, values) {
        Ok(buffer) => Ok(buffer),
        Err(_) => Err(IpcReadError::Memory),
    }
}

/// Reads a buffer of `size` bytes.
///
/// # Errors
///
/// `IpcReadError::BufferTooShort` if there are fewer bytes, and `IpcReadError::Memory` if an allocation fails.
#[tactic(auto, unfolding(crate::specs::Decoding::decoded_bytes))]
pub(crate) fn read_bytes(
    alloc: Global,
    size: usize,
    bytes: &[u8],
) -> Result<Buffer<u8>, IpcReadError>
    ensures read { ReturnsOrRunsOut (λ b. b) result (decoded_bytes size bytes.now) }
    ensures size { IfOk result (λ b. length b ≡ size) }
{
    if size > bytes.len() {
        return Err(IpcReadError::BufferTooShort);
    }
    let copy = copy_first(alloc, size, bytes)?;
    buffer_of(alloc, copy)
}

/// Reads a buffer of `slots` values of `size` bytes each; the errors are those of [`read_bytes`].
#[tactic(auto, unfolding(crate::specs::Decoding::decoded_bytes))]
pub(crate) fn read_slots(
    alloc: Global,
    slots: usize,
    size: usize,
    bytes: &[u8],
) -> Result<Buffer<u8>, IpcReadError>
    ensures read { ReturnsOrRunsOut (λ b. b) result (decoded_bytes (slots * size) bytes.now) }
    ensures size { IfOk result (λ b. length b ≡ slots * size) }
{
    match slots.checked_mul(size) {
        Some(needed) => read_bytes(alloc, needed, bytes),
        None => Err(IpcReadError::BufferTooShort),
    }
}

/// Returns whether `bytes` bytes hold `slots` values of `size` bytes each.
pub(crate) fn is_enough(bytes: usize, slots: usize, size: usize) -> bool
    ensures { result ≡ nat_le (slots * size) bytes }
{
    match slots.checked_mul(size) {
        Some(needed) => needed <= bytes,
        None => false,
    }
}

/// Appends zeros until the number of bytes since `start` is a multiple of 8.
pub(crate) fn pad(out: &mut Vec<u8>, start: usize) -> Result<(), AllocError>
    requires { start ≤ length out.old.items }
    ensures { OnOk result (out.new.items ≡ out.old.items ++ padding (length out.old.items - start)) }
{
    let size = out.len() - start;
    write_zeros(out, (8 - size % 8) % 8)
}

/// Appends bytes as a padded buffer.
#[tactic(auto, unfolding(crate::specs::BodyBuffers::padded))]
pub(crate) fn write_bytes(out: &mut Vec<u8>, bytes: &[u8]) -> Result<(), AllocError>
    ensures { OnOk result (out.new.items ≡ out.old.items ++ padded bytes.now) }
{
    let start = out.len();
    out.extend_from_slice(bytes)?;
    pad(out, start)
}
