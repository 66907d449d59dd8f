//! Reads all record batches of a stream.
ghost use Rattle.std.specs.Prelude.{◌≡◌, map};
ghost use Rattle.ipc_flatbuf.specs.ReadResults.{ReturnsOrRunsOut};
ghost use Rattle.ipc_schema.specs.Projections.{projection_of};
ghost use Rattle.ipc.specs.Streams.{record_batch_of, batches_in, projected_stream_in, state_of, stream_in, stream_of};

use crate::batch::Batch;
use crate::reading::next_batch;
use crate::state::DictionaryState;
use ipc_flatbuf::IpcReadError;
use ipc_schema::{Projection, Schema, read_projected_schema};
use std::alloc::Global;

/// A stream that has been read.
#[derive(Drop)]
pub struct Stream {
    /// The schema of the projected columns.
    pub schema: Schema,
    /// The record batches, in the order of the stream.
    pub batches: Vec<Batch>,
    /// The number of bytes that the stream takes, with its end-of-stream marker.
    pub read: usize,
}

// Returns the record batches up to the end of the stream, and the bytes after it.
fn read_batches<'a>(
    alloc: Global,
    state: &mut DictionaryState,
    bytes: &'a [u8],
) -> Result<(Vec<Batch>, &'a [u8]), IpcReadError>
    ensures read { ReturnsOrRunsOut (λ x. (map record_batch_of x.0.items, x.1.now)) result (batches_in (state_of state.old) bytes.now) }
    ensures picked { state.new.picked ≡ state.old.picked }
{
    let mut batches = Vec::new(alloc);
    let mut rest = bytes;
    'batches: loop {
        let (next, behind) = next_batch(alloc, state, rest)?;
        match next {
            None => return Ok((batches, behind)),
            Some(batch) => batches.push(batch)?,
        }
        rest = behind;
    }
}

/// Reads the stream at the start of `bytes`, up to its end-of-stream marker or the end of the bytes.
///
/// # Errors
/// The first error in the order of the bytes, or `Memory`.
pub fn read_stream(alloc: Global, bytes: &[u8]) -> Result<Stream, IpcReadError>
    ensures { ReturnsOrRunsOut stream_of result (stream_in bytes.now) }
{
    read_stream_projected(alloc, bytes, Projection::All)
}

/// Reads the projected columns of the stream at the start of `bytes`. The other columns are skipped, even where their data types cannot
/// be read.
///
/// # Errors
/// The first error in the order of the bytes, or `Memory`.
#[tactic(auto, unfolding(crate::specs::Streams::projected_stream_in))]
pub fn read_stream_projected(
    alloc: Global,
    bytes: &[u8],
    columns: Projection<'_>,
) -> Result<Stream, IpcReadError>
    ensures { ReturnsOrRunsOut stream_of result (projected_stream_in (projection_of columns.entry) bytes.now) }
{
    let (picked, rest) = read_projected_schema(alloc, columns, bytes)?;
    let mut state = DictionaryState::new(alloc, picked);
    let (batches, rest) = read_batches(alloc, &mut state, rest)?;
    let read = bytes.len() - rest.len();
    Ok(Stream {
        schema: state.picked.schema,
        batches,
        read,
    })
}
