//! Streams written to any `Write` and read from any `Read`, one record batch at a time.
ghost use Rattle.std.specs.Prelude.{map, IfOk, OnOk};
ghost use Rattle.std.specs.Io.KnownBytes.{Appends};
ghost use Rattle.guide.specs.Words.{FirstOf, StreamRoundTrips, record_batch_of, schema_of, encoded_stream};

use std::alloc::Global;
use std::io::{Read, Write};
use tiekvorn::arrow_ipc::{Batch, ReadError, Schema, StreamReader, StreamWriter, WriteError};

/// Writes batches as a stream to `output` and returns it: it has received the bytes that `write_stream` returns.
pub fn write_batches<W: Write + Drop>(
    alloc: Global,
    output: W,
    schema: &Schema,
    batches: &[Batch],
) -> Result<W, WriteError>
    ensures put { IfOk result (λ o. Appends (W.contents output) (W.contents o) (encoded_stream (schema_of schema.now) (map record_batch_of batches.now))) }
    ensures again { OnOk result (StreamRoundTrips (schema_of schema.now) (map record_batch_of batches.now)) }
{
    let mut writer = StreamWriter::new(alloc, output, schema)?;
    for batch in batches {
        writer.write(alloc, batch)?;
    }
    writer.finish()
}

/// Reads at most `most` batches of the stream in `input`, and nothing after them.
pub fn read_first_batches<R: Read + Drop>(
    alloc: Global,
    input: R,
    most: usize,
) -> Result<Vec<Batch>, ReadError>
    ensures { FirstOf most (R.remaining input) result }
{
    let mut reader = StreamReader::new(alloc, input)?;
    let mut batches = Vec::new(alloc);
    for _ in 0..most {
        match reader.next_batch(alloc)? {
            None => return Ok(batches),
            Some(batch) => batches.push(batch)?,
        }
    }
    Ok(batches)
}
