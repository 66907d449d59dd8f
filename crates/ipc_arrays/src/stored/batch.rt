//! Conversion of record batches.
ghost use Rattle.std.specs.Prelude.{◌≡◌};
ghost use Rattle.ipc_flatbuf.specs.ReadResults.{ReturnsOrRunsOut};
ghost use Rattle.ipc_arrays.specs.Projection.{projection_state};
ghost use Rattle.ipc_arrays.specs.Stored.{converted_each, converted_batch, with_arrays, converted_of, parts_of};

use crate::projected::ProjectionCursor;
use crate::stored::arrays::{Conversion, convert_array};
use crate::stored::contents::no_buffers;
use ipc_flatbuf::{BufferSpec, CompressionCodec, IpcReadError, StoredArray};
use std::alloc::Global;

/// The buffers and the body of a record batch after conversion.
#[derive(Drop)]
pub struct ConvertedBatch {
    pub buffers: Vec<BufferSpec>,
    pub body: Vec<u8>,
    /// The `variadicBufferCounts` (Message.fbs, table RecordBatch) of the view arrays that are skipped.
    pub more: Vec<i64>,
}

fn convert_each<'a>(
    alloc: Global,
    codec: Option<CompressionCodec>,
    arrays: &[StoredArray],
    body: &[u8],
    ahead: ProjectionCursor<'a>,
    out: &mut Conversion,
) -> Result<ProjectionCursor<'a>, IpcReadError>
    ensures { ReturnsOrRunsOut (λ x. (converted_of out.new, projection_state x)) result (with_arrays (converted_of out.old) (converted_each codec body.now arrays.now (projection_state ahead.entry))) }
{
    let mut at = ahead;
    for array in arrays {
        at = convert_array(alloc, codec, body, *array, at, out)?;
    }
    Ok(at)
}

/// Converts a record batch of arrays that are stored as `arrays` states, in pre-order, to one of arrays that are read as they are stored.
///
/// A view array becomes one of the layout of LargeBinary and LargeUtf8, and decimals of 32 and 64 bits become decimals of 128 bits. The
/// buffers of skipped arrays become empty. The field nodes stay as they are.
///
/// # Errors
///
/// The first error in the order of the arrays: `IpcReadError::NodeCount` or `IpcReadError::BufferCount` if field nodes, buffers or variadic
/// counts are missing or buffers remain; those of the buffers and of their compression; and `IpcReadError::View` of the view of a valid slot.
#[tactic(auto, unfolding(crate::specs::Stored::converted_batch))]
pub fn convert_batch(
    alloc: Global,
    codec: Option<CompressionCodec>,
    arrays: &[StoredArray],
    body: &[u8],
    ahead: ProjectionCursor<'_>,
) -> Result<ConvertedBatch, IpcReadError>
    ensures { ReturnsOrRunsOut parts_of result (converted_batch codec arrays.now body.now (projection_state ahead.entry)) }
{
    let mut conversion = Conversion {
        plain: no_buffers(alloc),
        more: Vec::new(alloc),
    };
    let rest = convert_each(alloc, codec, arrays, body, ahead, &mut conversion)?;
    if !rest.left.buffers.is_empty() {
        return Err(IpcReadError::BufferCount);
    }
    let Conversion { plain, more } = conversion;
    Ok(ConvertedBatch {
        buffers: plain.specs,
        body: plain.bytes,
        more,
    })
}
