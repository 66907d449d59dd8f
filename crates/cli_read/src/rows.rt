//! The rows of record batches read one after another.
ghost use Rattle.std.specs.Prelude.{◌≡◌, IfErr, IfOk, IfSome, option_map};
ghost use Rattle.nest_array.specs.Seen.{layout_of};
ghost use Rattle.cli_rows.specs.Rows.{rows_of};
ghost use Rattle.cli_rows.specs.SelectedTables.{AreRowsOf};
ghost use Rattle.cli_read.specs.RowBuffers.{FailsRows, ReturnsNextRows};
ghost use Rattle.cli_read.specs.Readers.{reader_schema, remaining_batches};

use crate::reader::BatchReader;
use cli_rows::{CliError, row_array};
use ipc_io::SeekRead;
use nest_array::AnyArray;
use std::alloc::Global;

/// Returns the rows of the next record batch as one array, or `None` at the end: records of its columns or, without a column, as many nulls
/// as the batch has rows.
///
/// # Errors
/// Those of [`open`](crate::open). `MismatchedColumns` if the columns do not match the schema. `Memory` if an allocation fails.
pub fn next_rows<R: SeekRead + Drop>(
    alloc: Global,
    reader: &mut BatchReader<R>,
) -> Result<Option<AnyArray>, CliError>
    ensures rows { IfOk result (λ r. ReturnsNextRows R.remaining R.stream_position R.stream_bytes reader.old reader.new (option_map layout_of r)) }
    ensures each { IfOk result (λ r. IfSome r (λ a. AreRowsOf (reader_schema reader.old).fields (rows_of (layout_of a)))) }
    ensures error { IfErr result (λ e. FailsRows (reader_schema reader.old) e (remaining_batches R.remaining R.stream_position R.stream_bytes reader.old)) }
    ensures schema { reader_schema reader.new ≡ reader_schema reader.old }
{
    match reader.next_batch(alloc) {
        Err(error) => Err(error),
        Ok(None) => Ok(None),
        Ok(Some(batch)) => match row_array(alloc, reader.schema(), batch) {
            Ok(rows) => Ok(Some(rows)),
            Err(error) => Err(error),
        },
    }
}
