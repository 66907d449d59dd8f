//! Record batches read one after another, of a stream or a file.
ghost use Rattle.std.specs.Prelude.{◌≡◌, IfErr, IfOk, OnOk, length, option_map};
ghost use Rattle.ipc.specs.Streams.{record_batch_of};
ghost use Rattle.ipc_schema.specs.Projections.{projection_of};
ghost use Rattle.ipc_schema.specs.Schemas.{schema_of};
ghost use Rattle.cli_read.specs.Inputs.{decoded_input};
ghost use Rattle.cli_read.specs.ProjectedNames.{FailsToOpenColumns, HasNames};
ghost use Rattle.cli_read.specs.Remaining.{FailsToReadNext, FailsToOpen, ReturnsNext};
ghost use Rattle.cli_read.specs.Readers.{IsReaderOf, ReturnsBatch, reader_schema, remaining_batches, remaining_of_stream};
ghost use Rattle.cli_read.specs.declared.reader.BatchReader.TheVariants.{File};

use crate::input::Input;
use cli_rows::{CliError, first_unknown_name};
use ipc::Batch;
use ipc_io::{FileReader, SeekRead, StreamReader};
use ipc_schema::{Projection, Schema};
use std::alloc::Global;
use std::io::Read;

/// A reader of the record batches of a stream or a file.
#[derive(Drop)]
pub enum BatchReader<R> {
    /// A reader of a stream.
    Stream(StreamReader<R>),
    /// A reader of a file, and the number of the next record batch.
    File(FileReader<R>, usize),
}

/// Opens an input and reads its schema.
fn open_reader<R: SeekRead + Drop>(
    alloc: Global,
    columns: Projection<'_>,
    input: Input<R>,
) -> Result<BatchReader<R>, CliError>
    ensures opened { IfOk result (IsReaderOf R.remaining R.stream_position R.stream_bytes (projection_of columns.entry) input) }
    ensures error { IfErr result (λ e. FailsToOpen e (decoded_input R.remaining R.stream_position R.stream_bytes (projection_of columns.entry) input)) }
{
    match input {
        Input::Stream(device) => match StreamReader::with_projection(alloc, device, columns) {
            Ok(reader) => Ok(BatchReader::Stream(reader)),
            Err(e) => Err(CliError::from(e)),
        },
        Input::File(device) => match FileReader::with_projection(alloc, device, columns) {
            Ok(reader) => Ok(BatchReader::File(reader, 0)),
            Err(e) => Err(CliError::from(e)),
        },
    }
}

/// Opens an input and reads its schema. Only the projected columns are read.
///
/// # Errors
/// `Read` with the first error of the bytes in reading order, which may be `Memory`. `Input` if a read fails. `UnknownName` with the first
/// projected name that no column has.
pub fn open<R: SeekRead + Drop>(
    alloc: Global,
    columns: Projection<'_>,
    input: Input<R>,
) -> Result<BatchReader<R>, CliError>
    ensures opened { IfOk result (IsReaderOf R.remaining R.stream_position R.stream_bytes (projection_of columns.entry) input) }
    ensures names { OnOk result (HasNames (projection_of columns.entry) (decoded_input R.remaining R.stream_position R.stream_bytes (projection_of columns.entry) input)) }
    ensures error { IfErr result (λ e. FailsToOpenColumns (projection_of columns.entry) e (decoded_input R.remaining R.stream_position R.stream_bytes (projection_of columns.entry) input)) }
{
    match open_reader(alloc, columns, input) {
        Err(error) => Err(error),
        Ok(reader) => match first_unknown_name(columns, &reader.schema().fields) {
            None => Ok(reader),
            Some(name) => {
                drop(reader);
                Err(CliError::UnknownName(name))
            }
        },
    }
}

/// Returns the next record batch of a stream.
fn next_in_stream<R: Read + Drop>(
    alloc: Global,
    reader: &mut StreamReader<R>,
) -> Result<Option<Batch>, CliError>
    ensures next { IfOk result (λ n. ReturnsNext (remaining_of_stream R.remaining reader.old) (remaining_of_stream R.remaining reader.new) (option_map record_batch_of n)) }
    ensures error { IfErr result (λ e. FailsToReadNext e (remaining_of_stream R.remaining reader.old)) }
    ensures schema { reader.new.state.picked ≡ reader.old.state.picked }
{
    match reader.next_batch(alloc) {
        Ok(next) => Ok(next),
        Err(e) => Err(CliError::from(e)),
    }
}

/// Returns the next record batch of a file.
fn next_in_file<R: SeekRead + Drop>(
    alloc: Global,
    reader: &mut FileReader<R>,
    next: &mut usize,
) -> Result<Option<Batch>, CliError>
    ensures next { IfOk result (λ n. ReturnsBatch R.remaining R.stream_position R.stream_bytes (File reader.old next.old) (File reader.new next.new) (option_map record_batch_of n)) }
    ensures error { IfErr result (λ e. FailsToReadNext e (remaining_batches R.remaining R.stream_position R.stream_bytes (File reader.old next.old))) }
    ensures schema { reader.new.state ≡ reader.old.state }
{
    let k = *next;
    if k >= reader.len() {
        return Ok(None);
    }
    match reader.batch(alloc, k) {
        Ok(batch) => {
            *next = k + 1;
            Ok(Some(batch))
        }
        Err(e) => Err(CliError::from(e)),
    }
}

impl<R> BatchReader<R> {
    /// Returns the schema.
    pub fn schema(&self) -> &Schema
        ensures { schema_of result.now ≡ reader_schema self.now }
    {
        match self {
            BatchReader::Stream(reader) => reader.schema(),
            BatchReader::File(reader, _) => reader.schema(),
        }
    }
}

impl<R: SeekRead + Drop> BatchReader<R> {
    /// Returns the next record batch, or `None` at the end.
    ///
    /// # Errors
    /// Those of [`open`].
    pub fn next_batch(&mut self, alloc: Global) -> Result<Option<Batch>, CliError>
        ensures next { IfOk result (λ n. ReturnsBatch R.remaining R.stream_position R.stream_bytes self.old self.new (option_map record_batch_of n)) }
        ensures error { IfErr result (λ e. FailsToReadNext e (remaining_batches R.remaining R.stream_position R.stream_bytes self.old)) }
        ensures schema { reader_schema self.new ≡ reader_schema self.old }
    {
        match self {
            BatchReader::Stream(reader) => next_in_stream(alloc, reader),
            BatchReader::File(reader, next) => next_in_file(alloc, reader, next),
        }
    }
}
