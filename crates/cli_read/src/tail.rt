//! The last rows of an input. A file is read from its last record batch back, a stream from its first one on.
ghost use Rattle.std.specs.Prelude.{◌≡◌, ◌-◌, ◌++◌, ◌<◌, IfErr, IfOk, IfSome, IsOkUnless, OnOk, length, map, option_map, string_bytes};
ghost use Rattle.std.specs.List.{flat_map};
ghost use Rattle.nest_model.specs.Meaning.{len};
ghost use Rattle.nest_array.specs.Seen.{layout_of};
ghost use Rattle.ipc_io.specs.FileReaders.{IsUnchanged};
ghost use Rattle.ipc_io.specs.Seeks.{bytes_of};
ghost use Rattle.ipc_schema.specs.Projections.{projection_of};
ghost use Rattle.cli_rows.specs.Rows.{rows_of, rows_of_arrays};
ghost use Rattle.cli_rows.specs.declared.error.CliError.TheVariants.{Memory};
ghost use Rattle.cli_read.specs.Decoded.{file_contents};
ghost use Rattle.cli_read.specs.Inputs.{decoded_input};
ghost use Rattle.cli_read.specs.ProjectedNames.{FailsToOpenColumns, HasNames};
ghost use Rattle.cli_read.specs.Readers.{reader_schema, remaining_batches};
ghost use Rattle.cli_read.specs.Tails.{AreLastRows, FailsToTail, IsLastText, input_ends, last};
ghost use Rattle.cli_read.specs.TailSteps.{FailsRecords, FailsToReadBack, FailsToReadOn, FailsToReadRecords, HasFileReader, ReadsBack, ReadsOn, ReadsRecords, ReturnsNextRecords, rows_reversed};
ghost use Rattle.cli_read.specs.declared.input.Input.TheVariants.{File, Stream};

use crate::input::Input;
use crate::reader::{BatchReader, open};
use cli_rows::{BatchError, CliError, array_lines, batch_records, first_unknown_name};
use ipc_io::{FileReader, SeekRead};
use ipc_schema::Projection;
use nest_array::AnyArray;
use std::alloc::Global;

/// Adds an array before others, which are in reverse order: its last rows, so many at most. Returns how many rows are still missing.
fn push_last(arrays: &mut Vec<AnyArray>, array: AnyArray, missing: usize) -> Result<usize, CliError>
    ensures rows { OnOk result (rows_reversed arrays.new.items ≡ last missing (rows_of (layout_of array)) ++ rows_reversed arrays.old.items) }
    ensures missing { IfOk result (λ left. left ≡ missing - len (layout_of array)) }
    ensures error { IsOkUnless result Memory }
{
    let rows = array.len();
    let many = rows.min(missing);
    arrays.push(array.sliced(rows - many, many))?;
    Ok(missing - many)
}

/// Returns the last rows of arrays, so many at most.
fn last_rows(alloc: Global, arrays: Vec<AnyArray>, count: usize) -> Result<Vec<AnyArray>, CliError>
    ensures rows { IfOk result (λ v. rows_of_arrays v.items ≡ last count (rows_of_arrays arrays.items)) }
    ensures error { IsOkUnless result Memory }
{
    let mut arrays = arrays;
    let mut found = Vec::new(alloc);
    let mut missing = count;
    for _turn in 0..arrays.len() {
        if missing == 0 {
            break;
        }
        if let Some(array) = arrays.pop() {
            missing = push_last(&mut found, array, missing)?;
        }
    }
    found.reverse();
    Ok(found)
}

/// Arrays, and the number of their rows, up to 2^64 - 1. Rows before the last ones that are wanted may be missing.
#[derive(Drop)]
struct LastArrays {
    arrays: Vec<AnyArray>,
    rows: usize,
}

/// Adds an array after others. If they have twice the rows that are wanted, the first ones are dropped.
fn push_array(
    alloc: Global,
    found: LastArrays,
    array: AnyArray,
    count: usize,
) -> Result<LastArrays, CliError>
    ensures rows { IfOk result (λ f. last count (rows_of_arrays f.arrays.items) ≡ last count (rows_of_arrays found.arrays.items ++ rows_of (layout_of array))) }
    ensures error { IsOkUnless result Memory }
{
    let rows = found.rows.saturating_add(array.len());
    let mut arrays = found.arrays;
    arrays.push(array)?;
    if rows / 2 < count {
        return Ok(LastArrays { arrays, rows });
    }
    let arrays = last_rows(alloc, arrays, count)?;
    Ok(LastArrays {
        arrays,
        rows: count,
    })
}

/// Returns the next record batch as one array of records, or `None` at the end.
fn next_records<R: SeekRead + Drop>(
    alloc: Global,
    reader: &mut BatchReader<R>,
) -> Result<Option<AnyArray>, CliError>
    ensures records { IfOk result (λ r. ReturnsNextRecords R.remaining R.stream_position R.stream_bytes reader.old reader.new (option_map layout_of r)) }
    ensures error { IfErr result (λ e. FailsRecords (reader_schema reader.old) e (remaining_batches R.remaining R.stream_position R.stream_bytes reader.old)) }
    ensures schema { reader_schema reader.new ≡ reader_schema reader.old }
{
    match reader.next_batch(alloc) {
        Err(error) => Err(error),
        Ok(None) => Ok(None),
        Ok(Some(batch)) => match batch_records(alloc, reader.schema(), batch) {
            Ok(array) => Ok(Some(array)),
            Err(error) => Err(error),
        },
    }
}

/// Returns the last rows of all arrays, when every record batch was read.
fn finished(alloc: Global, found: LastArrays, count: usize) -> Result<Vec<AnyArray>, BatchError>
    ensures rows { IfOk result (λ v. rows_of_arrays v.items ≡ last count (rows_of_arrays found.arrays.items)) }
    ensures error { IfErr result (λ e. (e.batch ≡ None) × (e.error ≡ Memory)) }
{
    match last_rows(alloc, found.arrays, count) {
        Ok(arrays) => Ok(arrays),
        Err(_) => Err(BatchError {
            batch: None,
            error: CliError::Memory,
        }),
    }
}

/// Reads the remaining record batches of a reader, and returns the last rows, so many at most.
fn read_on<R: SeekRead + Drop>(
    alloc: Global,
    reader: BatchReader<R>,
    count: usize,
) -> Result<Vec<AnyArray>, BatchError>
    ensures rows { IfOk result (λ v. ReadsOn R.remaining R.stream_position R.stream_bytes count reader (rows_of_arrays v.items)) }
    ensures error { IfErr result (FailsToReadOn R.remaining R.stream_position R.stream_bytes reader) }
{
    let mut reader = reader;
    let mut found = LastArrays {
        arrays: Vec::new(alloc),
        rows: 0,
    };
    for k in 0..usize::MAX {
        let array = match next_records(alloc, &mut reader) {
            Ok(None) => return finished(alloc, found, count),
            Ok(Some(array)) => array,
            Err(error) => {
                return Err(BatchError {
                    batch: Some(k),
                    error,
                });
            }
        };
        match push_array(alloc, found, array, count) {
            Ok(more) => found = more,
            Err(error) => {
                return Err(BatchError {
                    batch: Some(k),
                    error,
                });
            }
        }
    }
    // There are more record batches than a `usize` counts.
    Err(BatchError {
        batch: Some(usize::MAX),
        error: CliError::Input,
    })
}

/// Opens a file.
fn open_file<R: SeekRead + Drop>(
    alloc: Global,
    columns: Projection<'_>,
    device: R,
) -> Result<FileReader<R>, CliError>
    ensures opened { IfOk result (HasFileReader R.stream_position R.stream_bytes (projection_of columns.entry) device) }
    ensures names { OnOk result (HasNames (projection_of columns.entry) (option_map (file_contents (projection_of columns.entry)) (bytes_of R.stream_position R.stream_bytes device))) }
    ensures error { IfErr result (λ e. FailsToOpenColumns (projection_of columns.entry) e (option_map (file_contents (projection_of columns.entry)) (bytes_of R.stream_position R.stream_bytes device))) }
{
    match FileReader::with_projection(alloc, device, columns) {
        Err(error) => Err(CliError::from(error)),
        Ok(reader) => match first_unknown_name(columns, &reader.schema().fields) {
            None => Ok(reader),
            Some(name) => {
                drop(reader);
                Err(CliError::UnknownName(name))
            }
        },
    }
}

/// Returns the record batch of a file at an index as one array of records.
fn records_at<R: SeekRead + Drop>(
    alloc: Global,
    reader: &mut FileReader<R>,
    k: usize,
) -> Result<AnyArray, CliError>
    requires { k < length reader.old.blocks }
    ensures records { IfOk result (λ a. ReadsRecords R.stream_position R.stream_bytes k reader.old (layout_of a)) }
    ensures error { IfErr result (FailsToReadRecords R.stream_position R.stream_bytes k reader.old) }
    ensures still { IsUnchanged R.stream_position R.stream_bytes reader.old reader.new }
{
    match reader.batch(alloc, k) {
        Err(error) => Err(CliError::from(error)),
        Ok(batch) => batch_records(alloc, reader.schema(), batch),
    }
}

/// Reads the record batches of a file from the last one back until they have so many rows, and returns the last rows.
fn read_back<R: SeekRead + Drop>(
    alloc: Global,
    reader: FileReader<R>,
    count: usize,
) -> Result<Vec<AnyArray>, BatchError>
    ensures rows { IfOk result (λ v. ReadsBack R.stream_position R.stream_bytes count reader (rows_of_arrays v.items)) }
    ensures error { IfErr result (FailsToReadBack R.stream_position R.stream_bytes reader) }
{
    let mut reader = reader;
    let mut found = Vec::new(alloc);
    let mut missing = count;
    let batches = reader.len();
    for turn in 0..batches {
        if missing == 0 {
            break;
        }
        let k = batches - 1 - turn;
        let array = match records_at(alloc, &mut reader, k) {
            Ok(array) => array,
            Err(error) => {
                return Err(BatchError {
                    batch: Some(k),
                    error,
                });
            }
        };
        match push_last(&mut found, array, missing) {
            Ok(left) => missing = left,
            Err(error) => {
                return Err(BatchError {
                    batch: Some(k),
                    error,
                });
            }
        }
    }
    found.reverse();
    Ok(found)
}

/// Returns the last rows of a stream.
fn last_of_stream<R: SeekRead + Drop>(
    alloc: Global,
    columns: Projection<'_>,
    count: usize,
    device: R,
) -> Result<Vec<AnyArray>, BatchError>
    ensures rows { IfOk result (λ v. AreLastRows count (input_ends R.remaining R.stream_position R.stream_bytes (projection_of columns.entry) (Stream device)) (rows_of_arrays v.items)) }
    ensures names { OnOk result (HasNames (projection_of columns.entry) (decoded_input R.remaining R.stream_position R.stream_bytes (projection_of columns.entry) (Stream device))) }
    ensures error { let picks = projection_of columns.entry in
        IfErr result (FailsToTail picks (decoded_input R.remaining R.stream_position R.stream_bytes picks (Stream device)) (input_ends R.remaining R.stream_position R.stream_bytes picks (Stream device))) }
{
    match open(alloc, columns, Input::Stream(device)) {
        Err(error) => Err(BatchError { batch: None, error }),
        Ok(reader) => read_on(alloc, reader, count),
    }
}

/// Returns the last rows of a file.
fn last_of_file<R: SeekRead + Drop>(
    alloc: Global,
    columns: Projection<'_>,
    count: usize,
    device: R,
) -> Result<Vec<AnyArray>, BatchError>
    ensures rows { IfOk result (λ v. AreLastRows count (input_ends R.remaining R.stream_position R.stream_bytes (projection_of columns.entry) (File device)) (rows_of_arrays v.items)) }
    ensures names { OnOk result (HasNames (projection_of columns.entry) (decoded_input R.remaining R.stream_position R.stream_bytes (projection_of columns.entry) (File device))) }
    ensures error { let picks = projection_of columns.entry in
        IfErr result (FailsToTail picks (decoded_input R.remaining R.stream_position R.stream_bytes picks (File device)) (input_ends R.remaining R.stream_position R.stream_bytes picks (File device))) }
{
    match open_file(alloc, columns, device) {
        Err(error) => Err(BatchError { batch: None, error }),
        Ok(reader) => read_back(alloc, reader, count),
    }
}

/// Returns the last rows of a stream or a file.
fn last_of_input<R: SeekRead + Drop>(
    alloc: Global,
    columns: Projection<'_>,
    count: usize,
    input: Input<R>,
) -> Result<Vec<AnyArray>, BatchError>
    ensures rows { IfOk result (λ v. AreLastRows count (input_ends R.remaining R.stream_position R.stream_bytes (projection_of columns.entry) input) (rows_of_arrays v.items)) }
    ensures names { OnOk result (HasNames (projection_of columns.entry) (decoded_input R.remaining R.stream_position R.stream_bytes (projection_of columns.entry) input)) }
    ensures error { let picks = projection_of columns.entry in
        IfErr result (FailsToTail picks (decoded_input R.remaining R.stream_position R.stream_bytes picks input) (input_ends R.remaining R.stream_position R.stream_bytes picks input)) }
{
    match input {
        Input::Stream(device) => last_of_stream(alloc, columns, count, device),
        Input::File(device) => last_of_file(alloc, columns, count, device),
    }
}

/// Returns the last rows of an Arrow stream or file as lines of JSON, so many at most. Of a file the record batches before them are not
/// read. In memory are the rows that are returned, and of a stream at most as many again and one record batch.
///
/// # Errors
/// Before any record batch: `Read` with the first error of the bytes in reading order; `UnknownName` with the first projected name that no
/// column has. In a record batch: `Read`; `MismatchedColumns` if its columns do not match the schema, or there is no column. A file is read
/// from its last record batch back, a stream from its first one on. `Input` if a read fails. `Memory`, also in `Read`, if an allocation
/// fails.
pub fn tail_lines<R: SeekRead + Drop>(
    alloc: Global,
    columns: Projection<'_>,
    count: usize,
    input: Input<R>,
) -> Result<String, BatchError>
    ensures text { IfOk result (λ text. IsLastText count (input_ends R.remaining R.stream_position R.stream_bytes (projection_of columns.entry) input) (string_bytes text)) }
    ensures names { OnOk result (HasNames (projection_of columns.entry) (decoded_input R.remaining R.stream_position R.stream_bytes (projection_of columns.entry) input)) }
    ensures error { let picks = projection_of columns.entry in
        IfErr result (FailsToTail picks (decoded_input R.remaining R.stream_position R.stream_bytes picks input) (input_ends R.remaining R.stream_position R.stream_bytes picks input)) }
{
    match last_of_input(alloc, columns, count, input) {
        Err(error) => Err(error),
        Ok(arrays) => match array_lines(alloc, &arrays) {
            Ok(text) => Ok(text),
            Err(error) => Err(BatchError { batch: None, error }),
        },
    }
}
