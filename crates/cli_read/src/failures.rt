//! The first error of an input, read record batch by record batch.
ghost use Rattle.std.specs.Prelude.{IfNone, IfSome};
ghost use Rattle.ipc_schema.specs.Projections.{projection_of};
ghost use Rattle.cli_read.specs.Counts.{FailsToCount};
ghost use Rattle.cli_read.specs.CountSteps.{FailsToCountBatches};
ghost use Rattle.cli_read.specs.FirstErrors.{IsInFirst, ReadsFirst};
ghost use Rattle.cli_read.specs.Inputs.{decoded_input};
ghost use Rattle.cli_read.specs.Readers.{decoded_reader};

use crate::input::Input;
use crate::reader::{BatchReader, open};
use cli_rows::BatchError;
use ipc_io::SeekRead;
use ipc_schema::Projection;
use std::alloc::Global;

/// Reads `count` record batches of a reader at most, and returns the first error.
fn batch_error<R: SeekRead + Drop>(
    alloc: Global,
    reader: BatchReader<R>,
    count: usize,
) -> Option<BatchError>
    ensures error { IfSome result (FailsToCountBatches R.remaining R.stream_position R.stream_bytes reader) }
    ensures within { IfSome result (IsInFirst count) }
    ensures none { IfNone result (ReadsFirst count (decoded_reader R.remaining R.stream_position R.stream_bytes reader)) }
{
    let mut reader = reader;
    for k in 0..count {
        match reader.next_batch(alloc) {
            Ok(None) => return None,
            Ok(Some(batch)) => drop(batch),
            Err(error) => {
                return Some(BatchError {
                    batch: Some(k),
                    error,
                });
            }
        }
    }
    None
}

/// Reads the first record batches of the projected columns of an Arrow stream or file, `count` at most, and returns the first error.
///
/// Each record batch is dropped before the next one is read. A column whose buffers are invalid has the same error when it is read alone.
pub fn first_error<R: SeekRead + Drop>(
    alloc: Global,
    columns: Projection<'_>,
    count: usize,
    input: Input<R>,
) -> Option<BatchError>
    ensures error { let picks = projection_of columns.entry in
        IfSome result (FailsToCount picks (decoded_input R.remaining R.stream_position R.stream_bytes picks input)) }
    ensures within { IfSome result (IsInFirst count) }
    ensures none { let picks = projection_of columns.entry in
        IfNone result (ReadsFirst count (decoded_input R.remaining R.stream_position R.stream_bytes picks input)) }
{
    match open(alloc, columns, input) {
        Err(error) => Some(BatchError { batch: None, error }),
        Ok(reader) => batch_error(alloc, reader, count),
    }
}
