//! Arrow inputs concatenated, one record batch after another.
ghost use Rattle.std.specs.Prelude.{◌≡◌, [], Err, IfErr, IfOk, IsSome, OnOk};
ghost use Rattle.ipc_schema.specs.Projections.{projection_of};
ghost use Rattle.cli_args.specs.Requests.{all};
ghost use Rattle.cli_read.specs.Inputs.{decoded_input};
ghost use Rattle.cli_read.specs.ProjectedNames.{HasNames};
ghost use Rattle.cli_read.specs.Readers.{decoded_reader, reader_schema, remaining_batches};
ghost use Rattle.cli_write.specs.Concat.{FailsToAppend, FailsToAppendColumns, IsAppended, IsBeforeBatches, WritesFirst, WritesRemaining};
ghost use Rattle.cli_write.specs.ConcatSteps.{AppendsRemaining, FailsToAppendRemaining};
ghost use Rattle.cli_write.specs.Copies.{Copies, CopiesColumns};

use crate::copier::{Progress, copy_all};
use crate::writer::{BatchWriter, begin_writer};
use cli_args::{Format, Selection};
use cli_read::{BatchReader, Input, open};
use cli_rows::BatchError;
use ipc_io::SeekRead;
use ipc_schema::Projection;
use std::alloc::Global;
use std::io::Write;

/// Error returned where an input is not appended.
#[derive(Clone, Copy, Debug, PartialEq, Eq)]
pub enum AppendError {
    /// The schema of the input differs.
    Schema,
    /// The input was not read, or not written.
    Batch(BatchError),
}

/// Appends the remaining record batches of a reader.
fn append_batches<R: SeekRead + Drop, W: Write + Drop, P: Progress>(
    alloc: Global,
    reader: BatchReader<R>,
    writer: &mut BatchWriter<W>,
    progress: &mut P,
) -> Result<(), BatchError>
    ensures put { OnOk result (AppendsRemaining W.contents R.remaining R.stream_position R.stream_bytes reader writer.old writer.new) }
    ensures batch { IfErr result (λ e. IsSome e.batch) }
    ensures error { IfErr result (FailsToAppendRemaining W.contents R.remaining R.stream_position R.stream_bytes reader writer.old) }
{
    let mut reader = reader;
    let mut left = Selection::All;
    match copy_all(alloc, &mut reader, &mut left, writer, progress) {
        Ok(_) => Ok(()),
        Err(error) => Err(error),
    }
}

/// Begins an output with the schema of a reader, and writes its record batches.
fn begin_from_reader<R: SeekRead + Drop, W: Write + Drop, P: Progress>(
    alloc: Global,
    format: Format,
    reader: BatchReader<R>,
    out: W,
    progress: &mut P,
) -> Result<BatchWriter<W>, BatchError>
    ensures put { IfOk result (WritesRemaining W.contents format out (reader_schema reader) [] (remaining_batches R.remaining R.stream_position R.stream_bytes reader)) }
    ensures error { IfErr result (λ e. Copies W.contents format all (decoded_reader R.remaining R.stream_position R.stream_bytes reader) out (Err e)) }
{
    match begin_writer(alloc, format, out, reader.schema()) {
        Err(error) => {
            drop(reader);
            Err(BatchError { batch: None, error })
        }
        Ok(writer) => {
            let mut writer = writer;
            match append_batches(alloc, reader, &mut writer, progress) {
                Ok(()) => Ok(writer),
                Err(error) => {
                    drop(writer);
                    Err(error)
                }
            }
        }
    }
}

/// Begins an output with an Arrow stream or file: writes its schema and all its record batches, each before the next one is read. Only the
/// projected columns are read. [`append`] writes further inputs, and [`BatchWriter::finish`] ends the output and returns it.
///
/// # Errors
/// Those of [`copy`](crate::copy) of all rows, but for the end of the output.
pub fn begin_concat<R: SeekRead + Drop, W: Write + Drop, P: Progress>(
    alloc: Global,
    columns: Projection<'_>,
    format: Format,
    input: Input<R>,
    out: W,
    progress: &mut P,
) -> Result<BatchWriter<W>, BatchError>
    ensures put { IfOk result (WritesFirst W.contents format (decoded_input R.remaining R.stream_position R.stream_bytes (projection_of columns.entry) input) out) }
    ensures names { OnOk result (HasNames (projection_of columns.entry) (decoded_input R.remaining R.stream_position R.stream_bytes (projection_of columns.entry) input)) }
    ensures error { let picks = projection_of columns.entry in
        IfErr result (λ e. CopiesColumns W.contents picks format all (decoded_input R.remaining R.stream_position R.stream_bytes picks input) out (Err e)) }
{
    match open(alloc, columns, input) {
        Err(error) => {
            drop(out);
            Err(BatchError { batch: None, error })
        }
        Ok(reader) => begin_from_reader(alloc, format, reader, out, progress),
    }
}

/// Appends the record batches of a reader if its schema is that of the writer.
fn append_reader<R: SeekRead + Drop, W: Write + Drop, P: Progress>(
    alloc: Global,
    reader: BatchReader<R>,
    writer: &mut BatchWriter<W>,
    progress: &mut P,
) -> Result<(), AppendError>
    ensures put { OnOk result (IsAppended W.contents (decoded_reader R.remaining R.stream_position R.stream_bytes reader) writer.old writer.new) }
    ensures same { IfErr result (λ e. IsBeforeBatches e → writer.new ≡ writer.old) }
    ensures error { IfErr result (FailsToAppend W.contents (decoded_reader R.remaining R.stream_position R.stream_bytes reader) writer.old) }
{
    if writer.schema() != reader.schema() {
        drop(reader);
        return Err(AppendError::Schema);
    }
    match append_batches(alloc, reader, writer, progress) {
        Ok(()) => Ok(()),
        Err(error) => Err(AppendError::Batch(error)),
    }
}

/// Appends all record batches of an Arrow stream or file, each before the next one is read. Only the projected columns are read.
///
/// # Errors
/// `Schema` if its schema is not that of the writer: nothing was written. `Batch` with the errors of [`copy`](crate::copy) of all rows, where
/// `Write` is the first reason why the earlier record batches and those of this input cannot be written. A prefix of its record batches
/// may have been written then, and the writer can only be dropped.
pub fn append<R: SeekRead + Drop, W: Write + Drop, P: Progress>(
    alloc: Global,
    columns: Projection<'_>,
    input: Input<R>,
    writer: &mut BatchWriter<W>,
    progress: &mut P,
) -> Result<(), AppendError>
    ensures put { OnOk result (IsAppended W.contents (decoded_input R.remaining R.stream_position R.stream_bytes (projection_of columns.entry) input) writer.old writer.new) }
    ensures same { IfErr result (λ e. IsBeforeBatches e → writer.new ≡ writer.old) }
    ensures names { OnOk result (HasNames (projection_of columns.entry) (decoded_input R.remaining R.stream_position R.stream_bytes (projection_of columns.entry) input)) }
    ensures error { let picks = projection_of columns.entry in
        IfErr result (FailsToAppendColumns W.contents picks (decoded_input R.remaining R.stream_position R.stream_bytes picks input) writer.old) }
{
    match open(alloc, columns, input) {
        Err(error) => Err(AppendError::Batch(BatchError { batch: None, error })),
        Ok(reader) => append_reader(alloc, reader, writer, progress),
    }
}
