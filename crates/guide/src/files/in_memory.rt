//! Record batches as files and streams in memory.
ghost use Rattle.std.specs.Prelude.{◌≡◌, map, IfOk, OnOk};
ghost use Rattle.guide.specs.Words.{AreSameBatches, ReturnsOrRunsOut, Refuses, record_batch_of, file_in, file_of, last_batch_in, named, option_map, projected_file_in, schema_of, decoded_batches, decoded_file};

use anyhow::Result;
use std::alloc::Global;
use tiekvorn::arrow_ipc::{
    Batch, File, IpcReadError, Projection, Schema, SliceFileReader, Stream, read_file,
    read_file_projected, read_stream, write_file, write_stream,
};

/// Writes a schema and batches as a file and reads it: the schema is equal, and each batch has equal columns.
pub fn file_round_trip(alloc: Global, schema: &Schema, batches: &[Batch]) -> Result<File>
    ensures schema { IfOk result (λ f. schema_of f.schema ≡ schema_of schema.now) }
    ensures batches { IfOk result (λ f. map record_batch_of f.batches.items ≡ (decoded_file (schema_of schema.now) (map record_batch_of batches.now)).batches) }
    ensures same { OnOk result (AreSameBatches (map record_batch_of batches.now) (decoded_file (schema_of schema.now) (map record_batch_of batches.now)).batches) }
{
    let bytes = write_file(alloc, schema, batches)?;
    Ok(read_file(alloc, &bytes)?)
}

/// Does the same with a stream.
pub fn stream_round_trip(alloc: Global, schema: &Schema, batches: &[Batch]) -> Result<Stream>
    ensures schema { IfOk result (λ s. schema_of s.schema ≡ schema_of schema.now) }
    ensures batches { IfOk result (λ s. map record_batch_of s.batches.items ≡ decoded_batches (map record_batch_of batches.now)) }
    ensures same { OnOk result (AreSameBatches (map record_batch_of batches.now) (decoded_batches (map record_batch_of batches.now))) }
{
    let bytes = write_stream(alloc, schema, batches)?;
    Ok(read_stream(alloc, &bytes)?)
}

/// Reads the columns of these names, in the order of the file, and skips the others.
pub fn read_columns(alloc: Global, bytes: &[u8], names: &[&str]) -> Result<File, IpcReadError>
    ensures { ReturnsOrRunsOut file_of result (projected_file_in (named (map (λ n. n.now) names.now)) bytes.now) }
{
    read_file_projected(alloc, bytes, Projection::Names(names))
}

/// Reads the last batch of a file, if it has any, and no other.
pub fn last_batch(alloc: Global, bytes: &[u8]) -> Result<Option<Batch>, IpcReadError>
    ensures { ReturnsOrRunsOut (option_map record_batch_of) result (last_batch_in bytes.now) }
{
    let reader = SliceFileReader::new(alloc, bytes)?;
    let count = reader.len();
    if count == 0 {
        return Ok(None);
    }
    let batch = reader.batch(alloc, count - 1)?;
    Ok(Some(batch))
}

/// Returns the error of reading bytes as a file, or `None` where they are one.
pub fn file_error(alloc: Global, bytes: &[u8]) -> Option<IpcReadError>
    ensures { Refuses result (file_in bytes.now) }
{
    match read_file(alloc, bytes) {
        Ok(file) => {
            drop(file);
            None
        }
        Err(error) => Some(error),
    }
}
