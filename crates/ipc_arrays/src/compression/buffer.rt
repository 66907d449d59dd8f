//! Decoding of buffers.
ghost use Rattle.std.specs.Prelude.{◌≡◌, OnErr};
ghost use Rattle.ipc_arrays.specs.CompressionResults.{ReturnsOrRunsOut, Returns};
ghost use Rattle.ipc_arrays.specs.CompressedBuffers.{with_content, spec_decoded, spec_stated_size, spec_next_size, spec_content_of_size, content_of, decompressed};

use crate::compression::error::{lz4_error, zstd_error};
use ipc_flatbuf::{CompressionCodec, CompressionError};
use lz4_frame::decode_frame;
use std::alloc::Global;
use zstd_decode::decode_frames;

/// Returns what frames of the codec decode to, at most `limit` bytes.
#[tactic(auto, unfolding(crate::specs::CompressedBuffers::spec_decoded))]
fn decoded(
    alloc: Global,
    codec: CompressionCodec,
    bytes: &[u8],
    limit: usize,
) -> Result<Vec<u8>, CompressionError>
    ensures { ReturnsOrRunsOut (λ v. v.items) result (spec_decoded codec limit bytes.now) }
{
    match codec {
        CompressionCodec::Lz4Frame => match decode_frame(alloc, bytes, limit) {
            Ok(content) => Ok(content),
            Err(error) => Err(lz4_error(error)),
        },
        CompressionCodec::Zstd => match decode_frames(alloc, bytes, limit) {
            Ok(content) => Ok(content),
            Err(error) => Err(zstd_error(error)),
        },
    }
}

/// Returns what frames of the codec decode to, which must be `size` bytes.
#[tactic(auto, unfolding(crate::specs::CompressedBuffers::spec_content_of_size))]
fn content_of_size(
    alloc: Global,
    codec: CompressionCodec,
    size: usize,
    bytes: &[u8],
) -> Result<Vec<u8>, CompressionError>
    ensures { ReturnsOrRunsOut (λ v. v.items) result (spec_content_of_size codec size bytes.now) }
{
    let content = decoded(alloc, codec, bytes, size)?;
    if content.len() == size {
        Ok(content)
    } else {
        Err(CompressionError::Length)
    }
}

/// Returns the size of a content of this stated length, or `None` where the content is not compressed.
fn stated_size(length: i64) -> Result<Option<usize>, CompressionError>
    ensures { result ≡ spec_stated_size length }
{
    if length >= 0 {
        Ok(Some(length as usize))
    } else if length == -1 {
        Ok(None)
    } else {
        Err(CompressionError::Length)
    }
}

/// Returns the stated size, and the bytes after it.
#[tactic(auto, unfolding(crate::specs::CompressedBuffers::spec_next_size))]
fn next_size(bytes: &[u8]) -> Result<(Option<usize>, &[u8]), CompressionError>
    ensures { Returns (λ x. (x.0, x.1.now)) result (spec_next_size bytes.now) }
{
    if bytes.len() < 8 {
        return Err(CompressionError::Truncated);
    }
    let (_, rest) = bytes.split_at(8);
    let number = u64::from_le_bytes([
        bytes[0], bytes[1], bytes[2], bytes[3], bytes[4], bytes[5], bytes[6], bytes[7],
    ]);
    let size = stated_size(number.cast_signed())?;
    Ok((size, rest))
}

/// Appends a content of this size.
#[tactic(auto, unfolding(crate::specs::CompressedBuffers::content_of))]
fn append_content(
    alloc: Global,
    codec: CompressionCodec,
    size: Option<usize>,
    bytes: &[u8],
    out: &mut Vec<u8>,
) -> Result<(), CompressionError>
    ensures value { ReturnsOrRunsOut (λ _. out.new.items) result (with_content out.old.items (content_of codec size bytes.now)) }
    ensures err { OnErr result (out.new.items ≡ out.old.items) }
{
    match size {
        None => {
            out.extend_from_slice(bytes)?;
            Ok(())
        }
        Some(size) => {
            let content = content_of_size(alloc, codec, size, bytes)?;
            out.extend_from_slice(&content)?;
            Ok(())
        }
    }
}

/// Appends what a buffer of a compressed body decodes to.
///
/// An empty buffer is empty. Another one begins with the length of its content, eight bytes, little-endian. After a length of -1 the
/// content is not compressed. The output grows as it is decoded, never by the stated length alone. After an error `out` is unchanged.
///
/// # Errors
/// The first error in the order of the bytes. `Memory` where an allocation fails.
#[tactic(auto, unfolding(crate::specs::CompressedBuffers::decompressed))]
pub fn decompress_buffer(
    alloc: Global,
    codec: CompressionCodec,
    bytes: &[u8],
    out: &mut Vec<u8>,
) -> Result<(), CompressionError>
    ensures value { ReturnsOrRunsOut (λ _. out.new.items) result (with_content out.old.items (decompressed codec bytes.now)) }
    ensures err { OnErr result (out.new.items ≡ out.old.items) }
{
    if bytes.is_empty() {
        return Ok(());
    }
    let (size, content) = next_size(bytes)?;
    append_content(alloc, codec, size, content, out)
}
