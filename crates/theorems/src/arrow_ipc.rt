//! Arrow IPC: a reader returns what the bytes encode, or their first error, and what is written round-trips.
ghost use Rattle.std.specs.Prelude.{◌≡◌, [], Ok, map, IfErr, IfOk, OnOk, ◌⊎◌};
ghost use Rattle.ipc.specs.EncodedFiles.{file_error, decoded_file, HasNoDeltas};
ghost use Rattle.ipc.specs.EncodedStreams.{AreSameBatches, IsErrorOrMemory, decoded_batches, stream_error};
ghost use Rattle.ipc.specs.Streams.{record_batch_of, stream_in, stream_of};
ghost use Rattle.ipc_flatbuf.specs.ReadResults.{ReturnsOrRunsOut};
ghost use Rattle.ipc_schema.specs.Schemas.{schema_of};

use ipc::{Batch, File, Stream, read_file, read_stream, write_file, write_stream};
use ipc_flatbuf::{IpcReadError, IpcWriteError};
use ipc_schema::Schema;
use std::alloc::Global;

/// Returns the stream that the bytes encode, or their first error.
pub fn stream_from_bytes(alloc: Global, bytes: &[u8]) -> Result<Stream, IpcReadError>
    ensures { ReturnsOrRunsOut stream_of result (stream_in bytes.now) }
{
    read_stream(alloc, bytes)
}

/// Writes a schema and batches and reads them back: an equal schema, as many batches, each with the same rows and arrays.
pub fn stream_round_trips(
    alloc: Global,
    schema: &Schema,
    batches: &[Batch],
) -> Result<Stream, IpcWriteError>
    ensures schema { IfOk result (λ r. schema_of r.schema ≡ schema_of schema.now) }
    ensures batches { IfOk result (λ r. map record_batch_of r.batches.items ≡ decoded_batches (map record_batch_of batches.now)) }
    ensures same { OnOk result (AreSameBatches (map record_batch_of batches.now) (decoded_batches (map record_batch_of batches.now))) }
    ensures err { IfErr result (IsErrorOrMemory (stream_error (schema_of schema.now) (map record_batch_of batches.now))) }
{
    let bytes = write_stream(alloc, schema, batches)?;
    match read_stream(alloc, &bytes) {
        Ok(stream) => Ok(stream),
        Err(_) => Err(IpcWriteError::Memory),
    }
}

/// Writes a schema and batches as a file and reads them back: an equal schema, as many batches, each with the same rows and arrays.
pub fn file_round_trips(
    alloc: Global,
    schema: &Schema,
    batches: &[Batch],
) -> Result<File, IpcWriteError>
    ensures schema { IfOk result (λ r. schema_of r.schema ≡ schema_of schema.now) }
    ensures batches { let written = decoded_file (schema_of schema.now) (map record_batch_of batches.now) in
        IfOk result (λ r. map record_batch_of r.batches.items ≡ written.batches) }
    ensures same { let written = decoded_file (schema_of schema.now) (map record_batch_of batches.now) in
        OnOk result (AreSameBatches (map record_batch_of batches.now) written.batches) }
    ensures plain { let bs = map record_batch_of batches.now in
        OnOk result (HasNoDeltas [] bs → (decoded_file (schema_of schema.now) bs).batches ≡ decoded_batches bs) }
    ensures err { IfErr result (IsErrorOrMemory (file_error (schema_of schema.now) (map record_batch_of batches.now))) }
{
    let bytes = write_file(alloc, schema, batches)?;
    match read_file(alloc, &bytes) {
        Ok(file) => Ok(file),
        Err(_) => Err(IpcWriteError::Memory),
    }
}

/// Writes and reads a schema and batches as a stream and as a file: equal schemas and the same rows of the same arrays. Without
/// delta dictionaries the parts are the same too.
pub fn stream_and_file_agree(
    alloc: Global,
    schema: &Schema,
    batches: &[Batch],
) -> Result<(Stream, File), IpcWriteError>
    ensures schema { IfOk result (λ r. schema_of r.0.schema ≡ schema_of r.1.schema) }
    ensures batches { IfOk result (λ r. AreSameBatches (map record_batch_of r.0.batches.items) (map record_batch_of r.1.batches.items)) }
    ensures parts { IfOk result (λ r. HasNoDeltas [] (map record_batch_of batches.now) → map record_batch_of r.0.batches.items ≡ map record_batch_of r.1.batches.items) }
    ensures err { let s = schema_of schema.now in
        let bs = map record_batch_of batches.now in
        IfErr result (λ e. IsErrorOrMemory (stream_error s bs) e ⊎ IsErrorOrMemory (file_error s bs) e) }
{
    let stream = stream_round_trips(alloc, schema, batches)?;
    let file = file_round_trips(alloc, schema, batches)?;
    Ok((stream, file))
}
