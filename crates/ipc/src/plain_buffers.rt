//! Decompresses the buffers of record batches.
ghost use Rattle.std.specs.Prelude.{◌≡◌, IfOk};
ghost use Rattle.ipc_flatbuf.specs.ReadResults.{ReturnsOrRunsOut};
ghost use Rattle.ipc_arrays.specs.Decoding.{rest_of, with_buffers};
ghost use Rattle.ipc_arrays.specs.Projection.{projection_state};
ghost use Rattle.ipc.specs.PlainBuffers.{decompressed_buffers, without_dictionaries, all_needed};

use ipc_arrays::compression::plain_body;
use ipc_arrays::{BatchCursor, ProjectionCursor};
use ipc_flatbuf::{BufferSpec, CompressionCodec, IpcReadError};
use std::alloc::{AllocError, Global};

/// Returns the needed buffers of a compressed body without compression, and the body that they are in.
pub(crate) fn decompress_buffers(
    alloc: Global,
    codec: CompressionCodec,
    body: &[u8],
    buffers: &[BufferSpec],
    needed: &[bool],
) -> Result<(Vec<BufferSpec>, Vec<u8>), IpcReadError>
    ensures { ReturnsOrRunsOut (λ x. (x.0.items, x.1.items)) result (decompressed_buffers codec body.now buffers.now needed.now) }
{
    match plain_body(alloc, codec, body, buffers, needed) {
        Err(error) => Err(IpcReadError::from(error)),
        Ok(plain) => Ok(plain),
    }
}

/// Returns a cursor over the same nodes and dictionaries with other buffers.
pub(crate) fn replace_buffers<'a>(
    cursor: BatchCursor<'a>,
    buffers: &'a [BufferSpec],
) -> BatchCursor<'a>
    ensures { rest_of result ≡ with_buffers (rest_of cursor.entry) buffers.now }
{
    let nodes = cursor.nodes;
    let dictionaries = cursor.dictionaries;
    BatchCursor {
        nodes,
        buffers,
        dictionaries,
    }
}

/// Returns a cursor over the same nodes, buffers and variadic counts, without dictionaries.
pub(crate) fn drop_dictionaries<'a>(ahead: ProjectionCursor<'a>) -> ProjectionCursor<'a>
    ensures { projection_state result ≡ without_dictionaries (projection_state ahead.entry) }
{
    let nodes = ahead.left.nodes;
    let buffers = ahead.left.buffers;
    let more = ahead.more;
    let left = BatchCursor {
        nodes,
        buffers,
        dictionaries: &[],
    };
    ProjectionCursor { left, more }
}

/// Returns a flag for each buffer: it is needed.
pub(crate) fn need_all(alloc: Global, buffers: &[BufferSpec]) -> Result<Vec<bool>, AllocError>
    ensures { IfOk result (λ v. v.items ≡ all_needed buffers.now) }
{
    let mut needed = Vec::new(alloc);
    for _buffer in buffers {
        needed.push(true)?;
    }
    Ok(needed)
}
