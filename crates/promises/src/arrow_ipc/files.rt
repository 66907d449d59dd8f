//! Files of the Arrow IPC format.
//!
//! For every sequence of bytes a reader returns the file that the bytes encode, or the first error in the order of reading, or
//! fails when an allocation fails. What is written round-trips, and agrees with the stream of the same batches.
ghost use Rattle.std.specs.Prelude.{◌≡◌, ◌<◌, [], None, Ok, map, length, IfErr, IfOk, OnOk};
ghost use Rattle.ipc.specs.EncodedFiles.{encoded_file, file_error, decoded_file, HasNoDeltas};
ghost use Rattle.ipc.specs.EncodedStreams.{AreSameBatches, IsErrorOrMemory, decoded_batches};
ghost use Rattle.ipc.specs.Files.{batch_of_file, file_in, file_of, file_reader_in, projected_file_in};
ghost use Rattle.ipc.specs.Streams.{record_batch_of};
ghost use Rattle.ipc_flatbuf.specs.ReadResults.{ReturnsOrRunsOut};
ghost use Rattle.ipc_schema.specs.Projections.{all, projection_of};
ghost use Rattle.ipc_schema.specs.Schemas.{schema_of};

use ipc::{Batch, File, SliceFileReader, read_file, read_file_projected, write_file};
use ipc_flatbuf::{IpcReadError, IpcWriteError};
use ipc_schema::{Projection, Schema};
use std::alloc::Global;

/// Returns the file that the bytes encode, or their first error.
pub fn file_from_bytes(alloc: Global, bytes: &[u8]) -> Result<File, IpcReadError>
    ensures { ReturnsOrRunsOut file_of result (file_in bytes.now) }
{
    read_file(alloc, bytes)
}

/// Returns the projected columns of the file that the bytes encode, or their first error.
pub fn file_columns_from_bytes(
    alloc: Global,
    bytes: &[u8],
    columns: Projection<'_>,
) -> Result<File, IpcReadError>
    ensures { ReturnsOrRunsOut file_of result (projected_file_in (projection_of columns.entry) bytes.now) }
{
    read_file_projected(alloc, bytes, columns)
}

/// Returns a reader of the file after its footer and its dictionaries.
pub fn file_reader(alloc: Global, bytes: &[u8]) -> Result<SliceFileReader<'_>, IpcReadError>
    ensures { ReturnsOrRunsOut (λ r. r) result (file_reader_in all bytes.now) }
{
    SliceFileReader::new(alloc, bytes)
}

/// Returns a reader of the projected columns of a file.
pub fn file_reader_of_columns<'a>(
    alloc: Global,
    bytes: &'a [u8],
    columns: Projection<'_>,
) -> Result<SliceFileReader<'a>, IpcReadError>
    ensures { ReturnsOrRunsOut (λ r. r) result (file_reader_in (projection_of columns.entry) bytes.now) }
{
    SliceFileReader::with_projection(alloc, bytes, columns)
}

/// Returns the batch at an index, in the order of the footer, or its first error.
pub fn batch_at(
    alloc: Global,
    reader: &SliceFileReader<'_>,
    i: usize,
) -> Result<Batch, IpcReadError>
    requires { i < length reader.now.blocks }
    ensures { ReturnsOrRunsOut record_batch_of result (batch_of_file reader.now i) }
{
    reader.batch(alloc, i)
}

/// Returns the bytes of a schema and batches as a file, which encode both. Fails exactly where they cannot be written.
pub fn file_to_bytes(
    alloc: Global,
    schema: &Schema,
    batches: &[Batch],
) -> Result<Vec<u8>, IpcWriteError>
    ensures bytes { IfOk result (λ out. out.items ≡ encoded_file (schema_of schema.now) (map record_batch_of batches.now)) }
    ensures read_back { IfOk result (λ out. file_in out.items ≡ Ok (decoded_file (schema_of schema.now) (map record_batch_of batches.now))) }
    ensures same { let written = decoded_file (schema_of schema.now) (map record_batch_of batches.now) in
        OnOk result (AreSameBatches (map record_batch_of batches.now) written.batches) }
    ensures plain { let bs = map record_batch_of batches.now in
        OnOk result (HasNoDeltas [] bs → (decoded_file (schema_of schema.now) bs).batches ≡ decoded_batches bs) }
    ensures no_refusal { OnOk result (file_error (schema_of schema.now) (map record_batch_of batches.now) ≡ None) }
    ensures err { IfErr result (IsErrorOrMemory (file_error (schema_of schema.now) (map record_batch_of batches.now))) }
{
    write_file(alloc, schema, batches)
}
