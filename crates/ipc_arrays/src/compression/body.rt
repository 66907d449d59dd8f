//! Plain bodies of compressed record batches.
ghost use Rattle.std.specs.Prelude.{◌≡◌, IfOk, length};
ghost use Rattle.ipc_arrays.specs.CompressionResults.{ReturnsOrRunsOut, Returns};
ghost use Rattle.ipc_arrays.specs.CompressedBuffers.{decompressed};
ghost use Rattle.ipc_arrays.specs.PlainBodies.{buffer_slice, needed_slice, laid_out, is_needed_at, decompressed_buffer, spec_plain_body, DecodesEachBuffer};

use crate::compression::buffer::decompress_buffer;
use ipc_flatbuf::{BufferSpec, CompressionCodec, CompressionError, write_zeros};
use std::alloc::Global;

#[tactic(auto, unfolding(crate::specs::PlainBodies::buffer_slice))]
fn buffer_bytes(body: &[u8], buffer: BufferSpec) -> Result<&[u8], CompressionError>
    ensures { Returns (λ x. x.now) result (buffer_slice body.now buffer.offset buffer.length) }
{
    if buffer.offset < 0 || buffer.length < 0 {
        return Err(CompressionError::BufferRange);
    }
    let offset = buffer.offset as usize;
    let size = buffer.length as usize;
    if offset > body.len() || size > body.len() - offset {
        return Err(CompressionError::BufferRange);
    }
    let (_, from) = body.split_at(offset);
    let (bytes, _) = from.split_at(size);
    Ok(bytes)
}

/// Returns the bytes of a buffer, or none where it is not needed.
#[tactic(auto, unfolding(crate::specs::PlainBodies::needed_slice))]
fn needed_bytes(body: &[u8], buffer: BufferSpec, is_needed: bool) -> Result<&[u8], CompressionError>
    ensures { Returns (λ x. x.now) result (needed_slice body.now is_needed buffer) }
{
    if is_needed {
        buffer_bytes(body, buffer)
    } else {
        Ok(&[])
    }
}

/// Appends what a buffer decodes to, and zeros up to a multiple of 8 bytes. Returns its offset and length.
fn append_padded(
    alloc: Global,
    codec: CompressionCodec,
    bytes: &[u8],
    plain: &mut Vec<u8>,
) -> Result<BufferSpec, CompressionError>
    ensures { ReturnsOrRunsOut (λ x. (x, plain.new.items)) result (laid_out plain.old.items (decompressed codec bytes.now)) }
{
    let offset = plain.len();
    decompress_buffer(alloc, codec, bytes, plain)?;
    let size = plain.len() - offset;
    write_zeros(plain, (8 - size % 8) % 8)?;
    Ok(BufferSpec {
        offset: offset as i64,
        length: size as i64,
    })
}

/// Appends what a buffer of the body decodes to. Returns its offset and length.
#[tactic(auto, unfolding(crate::specs::PlainBodies::decompressed_buffer))]
fn append_buffer(
    alloc: Global,
    codec: CompressionCodec,
    body: &[u8],
    buffer: BufferSpec,
    is_needed: bool,
    plain: &mut Vec<u8>,
) -> Result<BufferSpec, CompressionError>
    ensures { ReturnsOrRunsOut (λ x. (x, plain.new.items)) result (laid_out plain.old.items (decompressed_buffer codec body.now is_needed buffer)) }
{
    let bytes = needed_bytes(body, buffer, is_needed)?;
    append_padded(alloc, codec, bytes, plain)
}

/// Returns whether a buffer is needed. One without a flag is not.
fn is_needed(needed: &[bool], index: usize) -> bool
    ensures { result ≡ is_needed_at needed.now index }
{
    if index < needed.len() {
        needed[index]
    } else {
        false
    }
}

/// Returns the buffers and the body of a record batch as they are without compression.
///
/// `needed` has a flag for each of `buffers`; a buffer without one is not needed. A buffer that is not needed is not decoded and has length
/// 0. The others are decoded one after the other, each padded with zeros to a multiple of 8 bytes. No memory is allocated by a length that
/// a buffer states.
///
/// # Errors
/// The first error in the order of the buffers: `BufferRange` where a buffer is not within the body, else those of [`decompress_buffer`].
pub fn plain_body(
    alloc: Global,
    codec: CompressionCodec,
    body: &[u8],
    buffers: &[BufferSpec],
    needed: &[bool],
) -> Result<(Vec<BufferSpec>, Vec<u8>), CompressionError>
    ensures value { ReturnsOrRunsOut (λ x. (x.0.items, x.1.items)) result (spec_plain_body codec body.now buffers.now needed.now) }
    ensures count { IfOk result (λ x. length x.0.items ≡ length buffers.now) }
    ensures contents { IfOk result (λ x. DecodesEachBuffer codec body.now buffers.now needed.now x.0.items x.1.items) }
{
    let mut plain_buffers = Vec::new(alloc);
    let mut plain = Vec::new(alloc);
    for (index, buffer) in buffers.iter().enumerate() {
        let flag = is_needed(needed, index);
        let plain_buffer = append_buffer(alloc, codec, body, *buffer, flag, &mut plain)?;
        plain_buffers.push(plain_buffer)?;
    }
    Ok((plain_buffers, plain))
}
