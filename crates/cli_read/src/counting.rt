//! The number of rows of an input: of a stream from its record batches, of a file from their metadata.
ghost use Rattle.std.specs.Prelude.{◌≡◌, IfErr, IfOk, IsOkUnless, OnOk, option_map, string_bytes};
ghost use Rattle.ipc_schema.specs.Projections.{projection_of};
ghost use Rattle.ipc_io.specs.Seeks.{bytes_of};
ghost use Rattle.cli_rows.specs.declared.error.CliError.TheVariants.{Memory};
ghost use Rattle.cli_read.specs.Counts.{Counts, CountsText, FailsToCount, FailsToCountText, count_text, counted_input, metadata_contents};
ghost use Rattle.cli_read.specs.CountSteps.{CountsBatches, CountsMetadata, FailsToCountBatches, FailsToCountMetadata, OpensMetadataOf};
ghost use Rattle.cli_read.specs.ProjectedNames.{FailsToOpenColumns, HasNames};
ghost use Rattle.cli_read.specs.declared.input.Input.TheVariants.{File, Stream};

use crate::input::Input;
use crate::reader::{BatchReader, open};
use cli_rows::{BatchError, CliError, first_unknown_name};
use ipc_io::{FileMetadataReader, SeekRead};
use ipc_schema::Projection;
use std::alloc::Global;

/// Adds the numbers of rows of the remaining record batches of a reader.
fn count_batches<R: SeekRead + Drop>(
    alloc: Global,
    reader: BatchReader<R>,
) -> Result<u128, BatchError>
    ensures rows { IfOk result (CountsBatches R.remaining R.stream_position R.stream_bytes reader) }
    ensures error { IfErr result (FailsToCountBatches R.remaining R.stream_position R.stream_bytes reader) }
{
    let mut reader = reader;
    let mut rows = 0u128;
    for k in 0..usize::MAX {
        match reader.next_batch(alloc) {
            Ok(None) => return Ok(rows),
            Ok(Some(batch)) => {
                rows += batch.rows as u128;
                drop(batch);
            }
            Err(error) => {
                return Err(BatchError {
                    batch: Some(k),
                    error,
                });
            }
        }
    }
    // There are more record batches than a `usize` counts.
    Err(BatchError {
        batch: Some(usize::MAX),
        error: CliError::Input,
    })
}

/// Opens a file and reads the metadata in its footer.
pub(crate) fn open_metadata<R: SeekRead + Drop>(
    alloc: Global,
    columns: Projection<'_>,
    device: R,
) -> Result<FileMetadataReader<R>, CliError>
    ensures opened { IfOk result (OpensMetadataOf R.stream_position R.stream_bytes (projection_of columns.entry) device) }
    ensures names { OnOk result (HasNames (projection_of columns.entry) (option_map (metadata_contents (projection_of columns.entry)) (bytes_of R.stream_position R.stream_bytes device))) }
    ensures error { let picks = projection_of columns.entry in IfErr result (λ e. FailsToOpenColumns picks e (option_map (metadata_contents picks) (bytes_of R.stream_position R.stream_bytes device))) }
{
    match FileMetadataReader::with_projection(alloc, device, columns) {
        Err(error) => Err(CliError::from(error)),
        Ok(reader) => match first_unknown_name(columns, &reader.schema().fields) {
            None => Ok(reader),
            Some(name) => {
                drop(reader);
                Err(CliError::UnknownName(name))
            }
        },
    }
}

/// Adds the numbers of rows in the metadata of the record batches of a file.
fn count_metadata<R: SeekRead + Drop>(
    alloc: Global,
    reader: FileMetadataReader<R>,
) -> Result<u128, BatchError>
    ensures rows { IfOk result (CountsMetadata R.stream_position R.stream_bytes reader) }
    ensures error { IfErr result (FailsToCountMetadata R.stream_position R.stream_bytes reader) }
{
    let mut reader = reader;
    let mut rows = 0u128;
    for k in 0..reader.len() {
        match reader.row_count(alloc, k) {
            Ok(more) => rows += more as u128,
            Err(error) => {
                return Err(BatchError {
                    batch: Some(k),
                    error: CliError::from(error),
                });
            }
        }
    }
    Ok(rows)
}

/// Returns the number of rows of a stream, from its record batches.
fn count_stream<R: SeekRead + Drop>(
    alloc: Global,
    columns: Projection<'_>,
    device: R,
) -> Result<u128, BatchError>
    ensures rows { IfOk result (Counts (counted_input R.remaining R.stream_position R.stream_bytes (projection_of columns.entry) (Stream device))) }
    ensures names { OnOk result (HasNames (projection_of columns.entry) (counted_input R.remaining R.stream_position R.stream_bytes (projection_of columns.entry) (Stream device))) }
    ensures error { IfErr result (FailsToCount (projection_of columns.entry) (counted_input R.remaining R.stream_position R.stream_bytes (projection_of columns.entry) (Stream device))) }
{
    match open(alloc, columns, Input::Stream(device)) {
        Err(error) => Err(BatchError { batch: None, error }),
        Ok(reader) => count_batches(alloc, reader),
    }
}

/// Returns the number of rows of a file, from the metadata of its record batches.
fn count_file<R: SeekRead + Drop>(
    alloc: Global,
    columns: Projection<'_>,
    device: R,
) -> Result<u128, BatchError>
    ensures rows { IfOk result (Counts (counted_input R.remaining R.stream_position R.stream_bytes (projection_of columns.entry) (File device))) }
    ensures names { OnOk result (HasNames (projection_of columns.entry) (counted_input R.remaining R.stream_position R.stream_bytes (projection_of columns.entry) (File device))) }
    ensures error { IfErr result (FailsToCount (projection_of columns.entry) (counted_input R.remaining R.stream_position R.stream_bytes (projection_of columns.entry) (File device))) }
{
    match open_metadata(alloc, columns, device) {
        Err(error) => Err(BatchError { batch: None, error }),
        Ok(reader) => count_metadata(alloc, reader),
    }
}

/// Returns the number of rows of an Arrow stream or file. Of a stream each record batch is read; of a file the metadata alone: its
/// dictionaries and the bodies of its record batches are not read.
///
/// # Errors
/// Before any record batch: `Read` with the first error of the schema or the footer; `UnknownName` with the first projected name that no
/// column has. In a record batch: `Read`. `Input` if a read fails. `Memory`, also in `Read`, if an allocation fails.
pub fn count_rows<R: SeekRead + Drop>(
    alloc: Global,
    columns: Projection<'_>,
    input: Input<R>,
) -> Result<u128, BatchError>
    ensures rows { IfOk result (Counts (counted_input R.remaining R.stream_position R.stream_bytes (projection_of columns.entry) input)) }
    ensures names { OnOk result (HasNames (projection_of columns.entry) (counted_input R.remaining R.stream_position R.stream_bytes (projection_of columns.entry) input)) }
    ensures error { IfErr result (FailsToCount (projection_of columns.entry) (counted_input R.remaining R.stream_position R.stream_bytes (projection_of columns.entry) input)) }
{
    match input {
        Input::Stream(device) => count_stream(alloc, columns, device),
        Input::File(device) => count_file(alloc, columns, device),
    }
}

/// Returns a number of rows as a line.
fn count_line(alloc: Global, rows: u128) -> Result<String, CliError>
    ensures text { IfOk result (λ text. string_bytes text ≡ count_text rows) }
    ensures error { IsOkUnless result Memory }
{
    Ok(format!(in alloc; "{rows}\n")?)
}

/// Returns the number of rows of an Arrow stream or file as a line.
///
/// # Errors
/// Those of [`count_rows`].
pub fn count_lines<R: SeekRead + Drop>(
    alloc: Global,
    columns: Projection<'_>,
    input: Input<R>,
) -> Result<String, BatchError>
    ensures text { IfOk result (λ text. CountsText (counted_input R.remaining R.stream_position R.stream_bytes (projection_of columns.entry) input) (string_bytes text)) }
    ensures names { OnOk result (HasNames (projection_of columns.entry) (counted_input R.remaining R.stream_position R.stream_bytes (projection_of columns.entry) input)) }
    ensures error { IfErr result (FailsToCountText (projection_of columns.entry) (counted_input R.remaining R.stream_position R.stream_bytes (projection_of columns.entry) input)) }
{
    match count_rows(alloc, columns, input) {
        Err(error) => Err(error),
        Ok(rows) => match count_line(alloc, rows) {
            Ok(text) => Ok(text),
            Err(error) => Err(BatchError { batch: None, error }),
        },
    }
}
