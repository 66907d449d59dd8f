//! Streams of the Arrow IPC format.
//!
//! For every sequence of bytes a reader returns the stream that the bytes encode, or the first error in the order of reading, or
//! fails when an allocation fails. What is written round-trips.
ghost use Rattle.std.specs.Option.{option_map};
ghost use Rattle.std.specs.Prelude.{◌≡◌, ◌++◌, List, ℕ, [], None, Ok, map, length, IfErr, IfOk, OnOk};
ghost use Rattle.ipc.specs.EncodedStreams.{AreSameBatches, IsErrorOrMemory, decoded_batches, decoded_stream, encoded_stream, stream_error};
ghost use Rattle.ipc.specs.SliceStreamReaders.{next_of, reader_in};
ghost use Rattle.ipc.specs.Streams.{record_batch_of, projected_stream_in, stream_in, stream_of};
ghost use Rattle.ipc_flatbuf.specs.ReadResults.{ReturnsOrRunsOut};
ghost use Rattle.ipc_schema.specs.Projections.{all, projection_of};
ghost use Rattle.ipc_schema.specs.Schemas.{schema_of};
ghost use Rattle.promises.specs.Batches.{next_two};

use ipc::{Batch, SliceStreamReader, Stream, read_stream_projected, write_stream};
use ipc_flatbuf::{IpcReadError, IpcWriteError};
use ipc_schema::{Projection, Schema};
use std::alloc::Global;

/// Returns the projected columns of the stream that the bytes encode, or their first error.
pub fn stream_columns_from_bytes(
    alloc: Global,
    bytes: &[u8],
    columns: Projection<'_>,
) -> Result<Stream, IpcReadError>
    ensures { ReturnsOrRunsOut stream_of result (projected_stream_in (projection_of columns.entry) bytes.now) }
{
    read_stream_projected(alloc, bytes, columns)
}

/// Returns a reader of the stream after its schema.
pub fn stream_reader(alloc: Global, bytes: &[u8]) -> Result<SliceStreamReader<'_>, IpcReadError>
    ensures { ReturnsOrRunsOut (λ r. r) result (reader_in all bytes.now) }
{
    SliceStreamReader::new(alloc, bytes)
}

/// Returns a reader of the projected columns.
pub fn stream_reader_of_columns<'a>(
    alloc: Global,
    bytes: &'a [u8],
    columns: Projection<'_>,
) -> Result<SliceStreamReader<'a>, IpcReadError>
    ensures { ReturnsOrRunsOut (λ r. r) result (reader_in (projection_of columns.entry) bytes.now) }
{
    SliceStreamReader::with_projection(alloc, bytes, columns)
}

/// Returns the next batch, or its first error. The projection stays the same; after the last batch and after an error nothing remains.
pub fn next_batch(
    alloc: Global,
    reader: &mut SliceStreamReader<'_>,
) -> Result<Option<Batch>, IpcReadError>
    ensures next { ReturnsOrRunsOut (λ b. (option_map record_batch_of b, reader.new)) result (next_of reader.old) }
    ensures at_end { IfOk result (λ next. next ≡ None → reader.new.left ≡ []) }
    ensures at_error { IfErr result (λ _. reader.new.left ≡ []) }
    ensures projection { reader.new.state.picked ≡ reader.old.state.picked }
{
    reader.next_batch(alloc)
}

/// Returns the next two batches: the first stays as it was read, also where a dictionary is replaced before the second.
pub fn next_two_batches(
    alloc: Global,
    reader: &mut SliceStreamReader<'_>,
) -> Result<(Option<Batch>, Option<Batch>), IpcReadError>
    ensures { ReturnsOrRunsOut (λ b. ((option_map record_batch_of b.0, option_map record_batch_of b.1), reader.new)) result (next_two reader.old) }
{
    let first = reader.next_batch(alloc)?;
    let second = reader.next_batch(alloc)?;
    Ok((first, second))
}

/// Returns what a reader returns where nothing remains, as after the last batch or an error: no batch and no error. The reader stays the same.
pub fn next_after_end(
    alloc: Global,
    reader: &mut SliceStreamReader<'_>,
) -> Result<Option<Batch>, IpcReadError>
    requires { reader.old.left ≡ [] }
    ensures none { result ≡ Ok None }
    ensures same { reader.new ≡ reader.old }
{
    reader.next_batch(alloc)
}

/// Returns the bytes of a schema and batches, which encode both whatever bytes follow. Fails exactly where they cannot be written.
pub fn stream_to_bytes(
    alloc: Global,
    schema: &Schema,
    batches: &[Batch],
) -> Result<Vec<u8>, IpcWriteError>
    ensures bytes { IfOk result (λ out. out.items ≡ encoded_stream (schema_of schema.now) (map record_batch_of batches.now)) }
    ensures read_back { IfOk result (λ out. (rest : List ℕ) → stream_in (out.items ++ rest) ≡ Ok (decoded_stream (schema_of schema.now) (map record_batch_of batches.now) (length out.items))) }
    ensures same { OnOk result (AreSameBatches (map record_batch_of batches.now) (decoded_batches (map record_batch_of batches.now))) }
    ensures no_refusal { OnOk result (stream_error (schema_of schema.now) (map record_batch_of batches.now) ≡ None) }
    ensures err { IfErr result (IsErrorOrMemory (stream_error (schema_of schema.now) (map record_batch_of batches.now))) }
{
    write_stream(alloc, schema, batches)
}
