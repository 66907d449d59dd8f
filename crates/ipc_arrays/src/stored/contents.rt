//! Buffers that are appended to a new body, each padded to a multiple of 8 bytes (Arrow: "RecordBatch message").
ghost use Rattle.std.specs.Prelude.{◌≡◌, ◌≤◌, ◌-◌, ◌++◌, ◌∷◌, [], pos, None, length, map, OnOk, IfOk, IfErr};
ghost use Rattle.ipc_flatbuf.specs.MessageBytes.{padding};
ghost use Rattle.ipc_flatbuf.specs.ReadResults.{ReturnsOrRunsOut, FailsOrRunsOut};
ghost use Rattle.ipc_arrays.specs.Stored.{plain_content, stored_content, stored_contents, with_bytes, with_buffer, with_contents, with_stored, laid_of};

use crate::compression::decompress_buffer;
use crate::cursor::buffer_bytes;
use ipc_flatbuf::{BufferSpec, CompressionCodec, IpcReadError, write_zeros};
use std::alloc::{AllocError, Global};

/// Buffers, and the body that they are in.
#[derive(Drop)]
pub(crate) struct PlainBuffers {
    pub specs: Vec<BufferSpec>,
    pub bytes: Vec<u8>,
}

/// Returns no buffers.
pub(crate) fn no_buffers(alloc: Global) -> PlainBuffers
    ensures { laid_of result ≡ ([], []) }
{
    PlainBuffers {
        specs: Vec::new(alloc),
        bytes: Vec::new(alloc),
    }
}

/// Ends the buffer that begins at `start`.
pub(crate) fn end_buffer(plain: &mut PlainBuffers, start: usize) -> Result<(), AllocError>
    requires { start ≤ length plain.old.bytes.items }
    ensures specs { OnOk result (plain.new.specs.items ≡ plain.old.specs.items ++ record { offset = pos start; length = pos (length plain.old.bytes.items - start) } ∷ []) }
    ensures bytes { OnOk result (plain.new.bytes.items ≡ plain.old.bytes.items ++ padding (length plain.old.bytes.items - start)) }
{
    let size = plain.bytes.len() - start;
    write_zeros(&mut plain.bytes, (8 - size % 8) % 8)?;
    plain.specs.push(BufferSpec {
        offset: start as i64,
        length: size as i64,
    })?;
    Ok(())
}

/// Appends a buffer of these bytes.
pub(crate) fn push_content(plain: &mut PlainBuffers, content: &[u8]) -> Result<(), AllocError>
    ensures { OnOk result (laid_of plain.new ≡ with_contents (laid_of plain.old) (content.now ∷ [])) }
{
    let start = plain.bytes.len();
    plain.bytes.extend_from_slice(content)?;
    end_buffer(plain, start)?;
    Ok(())
}

// Appends bytes, decompressed if there is a codec.
#[tactic(auto, unfolding(crate::specs::Stored::plain_content))]
fn append_bytes(
    alloc: Global,
    codec: Option<CompressionCodec>,
    bytes: &[u8],
    out: &mut Vec<u8>,
) -> Result<(), IpcReadError>
    ensures { ReturnsOrRunsOut (λ _. out.new.items) result (with_bytes out.old.items (plain_content codec bytes.now)) }
{
    match codec {
        None => out.extend_from_slice(bytes)?,
        Some(codec) => decompress_buffer(alloc, codec, bytes, out)?,
    }
    Ok(())
}

// Appends the content of a buffer.
#[tactic(auto, unfolding(crate::specs::Stored::stored_content))]
fn append_stored(
    alloc: Global,
    codec: Option<CompressionCodec>,
    body: &[u8],
    buffer: BufferSpec,
    plain: &mut PlainBuffers,
) -> Result<(), IpcReadError>
    ensures { ReturnsOrRunsOut (λ _. laid_of plain.new) result (with_buffer (laid_of plain.old) (stored_content codec body.now buffer)) }
{
    let bytes = buffer_bytes(body, buffer)?;
    let start = plain.bytes.len();
    append_bytes(alloc, codec, bytes, &mut plain.bytes)?;
    end_buffer(plain, start)?;
    Ok(())
}

/// Appends the contents of buffers of a body, decompressed if there is a codec.
///
/// # Errors
///
/// The first error in the order of the buffers: `IpcReadError::BufferRange` if one is not within the body, or that of its compression.
pub(crate) fn append_each(
    alloc: Global,
    codec: Option<CompressionCodec>,
    body: &[u8],
    buffers: &[BufferSpec],
    plain: &mut PlainBuffers,
) -> Result<(), IpcReadError>
    ensures { ReturnsOrRunsOut (λ _. laid_of plain.new) result (with_stored (laid_of plain.old) (stored_contents codec body.now buffers.now)) }
{
    for buffer in buffers {
        append_stored(alloc, codec, body, *buffer, plain)?;
    }
    Ok(())
}

/// Returns the buffers with their contents as they are without a codec. The errors are those of [`append_each`].
pub(crate) fn decompress_each(
    alloc: Global,
    codec: Option<CompressionCodec>,
    body: &[u8],
    buffers: &[BufferSpec],
) -> Result<PlainBuffers, IpcReadError>
    ensures ok { IfOk result (λ plain. stored_contents codec body.now buffers.now ≡ stored_contents None plain.bytes.items plain.specs.items) }
    ensures err { IfErr result (λ error. FailsOrRunsOut error (stored_contents codec body.now buffers.now)) }
{
    let mut plain = no_buffers(alloc);
    append_each(alloc, codec, body, buffers, &mut plain)?;
    Ok(plain)
}

/// Returns the bytes of each buffer of a body.
///
/// # Errors
///
/// `IpcReadError::BufferRange` if one is not within the body.
pub(crate) fn slices_of<'a>(
    alloc: Global,
    body: &'a [u8],
    buffers: &[BufferSpec],
) -> Result<Vec<&'a [u8]>, IpcReadError>
    ensures { ReturnsOrRunsOut (λ v. map (λ s. s.now) v.items) result (stored_contents None body.now buffers.now) }
{
    let mut slices = Vec::new(alloc);
    for buffer in buffers {
        let bytes = buffer_bytes(body, *buffer)?;
        slices.push(bytes)?;
    }
    Ok(slices)
}
