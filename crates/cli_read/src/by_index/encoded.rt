//! Rows by index as lines, and encoded as a stream or a file.
ghost use Rattle.std.specs.Prelude.{IfErr, IfOk, OnOk, string_bytes};
ghost use Rattle.ipc_schema.specs.Projections.{projection_of};
ghost use Rattle.cli_read.specs.Inputs.{decoded_input};
ghost use Rattle.cli_read.specs.ProjectedNames.{HasNames};
ghost use Rattle.cli_read.specs.Takes.{FailsToTakeBytes, FailsToTakeText, TakesBytes, TakesText};

use crate::by_index::rows::take;
use crate::input::Input;
use cli_args::{Format, Request, Selection};
use cli_rows::{BatchError, CliError, encode_table, table_text};
use ipc_io::SeekRead;
use ipc_schema::Projection;
use std::alloc::Global;

/// Returns the rows of an Arrow stream or file at indices as lines of JSON, in the order of the indices.
///
/// # Errors
/// Those of [`take`]. Then `MismatchedColumns` if there is no column. `Memory`, in place of any, if an allocation fails.
pub fn take_lines<R: SeekRead + Drop>(
    alloc: Global,
    columns: Projection<'_>,
    wanted: &[usize],
    input: Input<R>,
) -> Result<String, BatchError>
    ensures text { IfOk result (λ text. TakesText wanted.now (decoded_input R.remaining R.stream_position R.stream_bytes (projection_of columns.entry) input) (string_bytes text)) }
    ensures names { OnOk result (HasNames (projection_of columns.entry) (decoded_input R.remaining R.stream_position R.stream_bytes (projection_of columns.entry) input)) }
    ensures error { let picks = projection_of columns.entry in
        IfErr result (FailsToTakeText picks wanted.now (decoded_input R.remaining R.stream_position R.stream_bytes picks input)) }
{
    match take(alloc, columns, wanted, input) {
        Err(error) => Err(error),
        Ok(table) => match table_text(alloc, &Request::Rows(Selection::All), table) {
            Ok(text) => Ok(text),
            Err(error) => Err(BatchError { batch: None, error }),
        },
    }
}

/// Returns the rows of an Arrow stream or file at indices, encoded in a format. The bytes decode to the schema and to these rows, in the
/// order of the indices.
///
/// # Errors
/// Those of [`take`]. Then `Write` with the first reason why the rows cannot be written. `Memory`, also in `Write`, if an allocation
/// fails.
pub fn take_encoded<R: SeekRead + Drop>(
    alloc: Global,
    columns: Projection<'_>,
    format: Format,
    wanted: &[usize],
    input: Input<R>,
) -> Result<Vec<u8>, BatchError>
    ensures bytes { IfOk result (λ out. TakesBytes format wanted.now (decoded_input R.remaining R.stream_position R.stream_bytes (projection_of columns.entry) input) out.items) }
    ensures names { OnOk result (HasNames (projection_of columns.entry) (decoded_input R.remaining R.stream_position R.stream_bytes (projection_of columns.entry) input)) }
    ensures error { let picks = projection_of columns.entry in
        IfErr result (FailsToTakeBytes picks format wanted.now (decoded_input R.remaining R.stream_position R.stream_bytes picks input)) }
{
    match take(alloc, columns, wanted, input) {
        Err(error) => Err(error),
        Ok(table) => {
            let written = encode_table(alloc, format, &table);
            drop(table);
            match written {
                Ok(out) => Ok(out),
                Err(error) => Err(BatchError {
                    batch: None,
                    error: CliError::Write(error),
                }),
            }
        }
    }
}
