//! An Arrow input, or selected rows of it, written as a stream or a file.
ghost use Rattle.std.specs.Prelude.{◌≡◌, ◌∷◌, [], IfErr, IfOk, IsSome, OnOk, length};
ghost use Rattle.ipc.specs.Streams.{record_batch_of};
ghost use Rattle.ipc_schema.specs.Projections.{projection_of};
ghost use Rattle.ipc_schema.specs.Schemas.{schema_of};
ghost use Rattle.cli_args.specs.RequestTrees.{selection_tree};
ghost use Rattle.cli_rows.specs.RowOrder.{IsInRowOrder, remaining_selection};
ghost use Rattle.cli_rows.specs.SelectedTables.{batch_rows};
ghost use Rattle.cli_read.specs.Inputs.{decoded_input};
ghost use Rattle.cli_read.specs.Readers.{decoded_reader, reader_schema};
ghost use Rattle.cli_write.specs.Copies.{Copies, CopiesColumns};
ghost use Rattle.cli_write.specs.CopyStates.{FailsToWriteSelection, WritesSelection};
ghost use Rattle.cli_write.specs.CopySteps.{CopiesAll, CopiesNext, Ends, FailsToCopyAll, FailsToCopyNext};

use crate::batch::{row_count, select_from_batch};
use crate::writer::{BatchWriter, begin_writer, write_batches};
use cli_args::{Format, Selection};
use cli_read::{BatchReader, Input, open};
use cli_rows::{BatchError, CliError, is_complete, resolve_selection, selection_error, skip_rows};
use ipc::Batch;
use ipc_io::SeekRead;
use ipc_schema::{Projection, Schema};
use std::alloc::Global;
use std::io::Write;

/// Called as rows are written.
pub trait Progress {
    /// A record batch of `rows` rows was read, and its selected rows were written.
    fn rows_read(&mut self, rows: usize);
}

/// Writes the selected rows of a record batch, and changes the selection to what it selects after the batch. Returns the number of rows of
/// the batch.
fn copy_batch<W: Write + Drop>(
    alloc: Global,
    schema: &Schema,
    left: &mut Selection,
    batch: Batch,
    writer: &mut BatchWriter<W>,
) -> Result<usize, CliError>
    ensures put { OnOk result (WritesSelection W.contents (selection_tree left.old) (schema_of schema.now).fields (record_batch_of batch) writer.old writer.new) }
    ensures left { OnOk result (selection_tree left.new ≡ remaining_selection (selection_tree left.old) (length (batch_rows (schema_of schema.now).fields (record_batch_of batch ∷ [])))) }
    ensures error { IfErr result (λ e. FailsToWriteSelection W.contents e (selection_tree left.old) (schema_of schema.now).fields (record_batch_of batch) writer.old) }
{
    let rows = row_count(schema, &batch);
    match select_from_batch(alloc, schema, left, batch) {
        Err(error) => Err(error),
        Ok(batches) => {
            let written = write_batches(alloc, writer, &batches);
            drop(batches);
            match written {
                Err(error) => Err(error),
                Ok(()) => {
                    skip_rows(left, rows);
                    Ok(rows)
                }
            }
        }
    }
}

/// Copies the next record batch. Returns its number of rows, or `None` if no further row is selected or there is no further batch.
fn copy_next<R: SeekRead + Drop, W: Write + Drop>(
    alloc: Global,
    reader: &mut BatchReader<R>,
    left: &mut Selection,
    writer: &mut BatchWriter<W>,
) -> Result<Option<usize>, CliError>
    ensures step { IfOk result (CopiesNext W.contents R.remaining R.stream_position R.stream_bytes reader.old left.old writer.old reader.new left.new writer.new) }
    ensures error { IfErr result (FailsToCopyNext W.contents R.remaining R.stream_position R.stream_bytes reader.old left.old writer.old) }
    ensures schema { reader_schema reader.new ≡ reader_schema reader.old }
{
    if is_complete(left) {
        return Ok(None);
    }
    match reader.next_batch(alloc) {
        Err(error) => Err(error),
        Ok(None) => Ok(None),
        Ok(Some(batch)) => {
            match copy_batch(alloc, reader.schema(), left, batch, writer) {
                Err(error) => Err(error),
                Ok(rows) => Ok(Some(rows)),
            }
        }
    }
}

/// Copies one record batch after another. Returns their number.
pub(crate) fn copy_all<R: SeekRead + Drop, W: Write + Drop, P: Progress>(
    alloc: Global,
    reader: &mut BatchReader<R>,
    left: &mut Selection,
    writer: &mut BatchWriter<W>,
    progress: &mut P,
) -> Result<usize, BatchError>
    ensures copied { IfOk result (CopiesAll W.contents R.remaining R.stream_position R.stream_bytes reader.old left.old writer.old writer.new) }
    ensures batch { IfErr result (λ e. IsSome e.batch) }
    ensures error { IfErr result (FailsToCopyAll W.contents R.remaining R.stream_position R.stream_bytes reader.old left.old writer.old) }
{
    for k in 0..usize::MAX {
        match copy_next(alloc, reader, left, writer) {
            Err(error) => {
                return Err(BatchError {
                    batch: Some(k),
                    error,
                });
            }
            Ok(None) => return Ok(k),
            Ok(Some(rows)) => progress.rows_read(rows),
        }
    }
    if is_complete(left) {
        return Ok(usize::MAX);
    }
    // There are more record batches than a `usize` counts.
    Err(BatchError {
        batch: Some(usize::MAX),
        error: CliError::Input,
    })
}

/// Copies the selected rows of a reader, and ends the output.
fn copy_batches<R: SeekRead + Drop, W: Write + Drop, P: Progress>(
    alloc: Global,
    reader: BatchReader<R>,
    left: Selection,
    writer: BatchWriter<W>,
    progress: &mut P,
) -> Result<W, BatchError>
    ensures { Ends W.contents R.remaining R.stream_position R.stream_bytes reader left writer result }
{
    let mut reader = reader;
    let mut left = left;
    let mut writer = writer;
    match copy_all(alloc, &mut reader, &mut left, &mut writer, progress) {
        Err(error) => Err(error),
        Ok(k) => match writer.finish(alloc) {
            Err(error) => Err(BatchError {
                batch: Some(k),
                error,
            }),
            Ok(out) => Ok(out),
        },
    }
}

/// Begins the output with the schema of a reader, and copies the selected rows.
fn copy_resolved<R: SeekRead + Drop, W: Write + Drop, P: Progress>(
    alloc: Global,
    format: Format,
    left: Selection,
    reader: BatchReader<R>,
    out: W,
    progress: &mut P,
) -> Result<W, BatchError>
    requires { IsInRowOrder (selection_tree left) }
    ensures { Copies W.contents format (selection_tree left) (decoded_reader R.remaining R.stream_position R.stream_bytes reader) out result }
{
    if let Some(error) = selection_error(&left, &reader.schema().fields) {
        drop(left);
        drop(reader);
        drop(out);
        return Err(BatchError { batch: None, error });
    }
    match begin_writer(alloc, format, out, reader.schema()) {
        Err(error) => {
            drop(left);
            drop(reader);
            Err(BatchError { batch: None, error })
        }
        Ok(writer) => copy_batches(alloc, reader, left, writer, progress),
    }
}

/// Copies the selected rows of an input that was opened. The column of the selection is resolved once.
fn copy_reader<R: SeekRead + Drop, W: Write + Drop, P: Progress>(
    alloc: Global,
    format: Format,
    selection: Selection,
    reader: BatchReader<R>,
    out: W,
    progress: &mut P,
) -> Result<W, BatchError>
    requires { IsInRowOrder (selection_tree selection) }
    ensures { Copies W.contents format (selection_tree selection) (decoded_reader R.remaining R.stream_position R.stream_bytes reader) out result }
{
    let left = resolve_selection(selection, &reader.schema().fields);
    copy_resolved(alloc, format, left, reader, out, progress)
}

/// Writes the selected rows of an Arrow stream or file in a format, flushes the output and returns it. The bytes decode to the schema and to
/// these rows, in order. The rows of a record batch are written before the next batch is read, and no batch is read after the selected
/// rows. Only the projected columns are read.
///
/// # Errors
/// Before any record batch: `Read` with the first error of the bytes in reading order; `UnknownName` with the first projected name that no
/// column has; `Condition` with the first error of the condition of `Where`; `Write` if the schema cannot be written. In a record batch:
/// `Read`; `MismatchedColumns` if its columns do not match the schema, unless all rows are selected; `Write` with the first reason why the
/// selected rows up to it cannot be written, or the end after the last one. `Input` if a read fails, `Output` if a write fails. `Memory`,
/// also in `Read` and `Write`, if an allocation fails. A prefix of the bytes may have been written then.
pub fn copy<R: SeekRead + Drop, W: Write + Drop, P: Progress>(
    alloc: Global,
    columns: Projection<'_>,
    format: Format,
    selection: Selection,
    input: Input<R>,
    out: W,
    progress: &mut P,
) -> Result<W, BatchError>
    requires { IsInRowOrder (selection_tree selection) }
    ensures { let picks = projection_of columns.entry in
        CopiesColumns W.contents picks format (selection_tree selection) (decoded_input R.remaining R.stream_position R.stream_bytes picks input) out result }
{
    match open(alloc, columns, input) {
        Err(error) => {
            drop(selection);
            drop(out);
            Err(BatchError { batch: None, error })
        }
        Ok(reader) => copy_reader(alloc, format, selection, reader, out, progress),
    }
}
