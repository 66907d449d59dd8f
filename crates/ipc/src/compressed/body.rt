//! Compressed bodies of record batches and dictionary batches.
ghost use Rattle.std.specs.Prelude.{◌≡◌, List, ℕ, length, true, Ok, IfOk};
ghost use Rattle.ipc_flatbuf.specs.Batches.{spec_is_within, spec_all_within};
ghost use Rattle.ipc_arrays.specs.PlainBodies.{buffer_slice};
ghost use Rattle.ipc.specs.CompressedBodies.{AppendsPadded, AreContents, CompressesBody};

use ipc_arrays::compression::compress_buffer;
use ipc_flatbuf::{BufferSpec, write_zeros};
use std::alloc::{AllocError, Global};

// Returns the bytes of a buffer within the body.
fn buffer_bytes(body: &[u8], buffer: BufferSpec) -> &[u8]
    requires { spec_is_within (length body.now) buffer.offset buffer.length ≡ true }
    ensures { buffer_slice body.now buffer.offset buffer.length ≡ Ok result.now }
{
    let offset = buffer.offset as usize;
    let size = buffer.length as usize;
    &body[offset..offset + size]
}

// Appends a compressed buffer, and zeros up to a multiple of 8 bytes. Returns its offset and length, without the zeros.
fn append_padded(alloc: Global, content: &[u8], out: &mut Vec<u8>) -> Result<BufferSpec, AllocError>
    ensures { IfOk result (λ spec. AppendsPadded content.now out.old.items spec out.new.items) }
{
    let offset = out.len();
    compress_buffer(alloc, content, out)?;
    let size = out.len() - offset;
    write_zeros(out, (8 - size % 8) % 8)?;
    Ok(BufferSpec {
        offset: offset as i64,
        length: size as i64,
    })
}

/// Returns the buffers and the body of a record batch with each buffer compressed by LZ4.
///
/// An empty buffer stays empty. Another one is its length and an LZ4 frame, or -1 and the buffer itself where the frame is not shorter.
/// The buffers are one after the other, each padded with zeros to a multiple of 8 bytes.
///
/// # Errors
/// `AllocError` where an allocation fails.
pub fn compress_body(
    alloc: Global,
    body: &[u8],
    buffers: &[BufferSpec],
) -> Result<(Vec<BufferSpec>, Vec<u8>), AllocError>
    requires { spec_all_within (length body.now) buffers.now ≡ Ok tt }
    ensures { (contents : List (List ℕ)) → AreContents body.now buffers.now contents → IfOk result (λ x. CompressesBody contents x.0.items x.1.items) }
{
    let mut compressed = Vec::new(alloc);
    let mut out = Vec::new(alloc);
    for buffer in buffers {
        let content = buffer_bytes(body, *buffer);
        let spec = append_padded(alloc, content, &mut out)?;
        compressed.push(spec)?;
    }
    Ok((compressed, out))
}
