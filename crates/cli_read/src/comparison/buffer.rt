//! Rows of one side that are read and not yet compared.
ghost use Rattle.std.specs.Prelude.{◌≡◌, ◌≤◌, [], IfErr, IfOk, Some, false, length, take};
ghost use Rattle.nest_model.specs.Meaning.{len};
ghost use Rattle.nest_array.specs.Seen.{layout_of};
ghost use Rattle.cli_rows.specs.Rows.{rows_in};
ghost use Rattle.cli_read.specs.CompareSteps.{FailsToFill, FillsBuffer};
ghost use Rattle.cli_read.specs.Readers.{reader_schema};
ghost use Rattle.cli_read.specs.RowBuffers.{IsFilled, IsInBounds, advanced, buffered_rows};

use crate::reader::BatchReader;
use crate::rows::next_rows;
use cli_rows::{BatchError, CliError};
use ipc_io::SeekRead;
use nest_array::{AnyArray, NullArray, Window};
use nest_memory::datatypes::DataType;
use std::alloc::Global;
use std::mem;

/// One side of a comparison: its reader, the number of record batches read, whether there are no more, and the rows of the last record batch.
/// The rows from `from` on are not yet compared.
#[derive(Drop)]
pub(crate) struct RowBuffer<R> {
    reader: BatchReader<R>,
    read: usize,
    is_over: bool,
    rows: AnyArray,
    from: usize,
}

fn no_rows() -> AnyArray
    ensures { len (layout_of result) ≡ 0 }
{
    AnyArray::Null(NullArray::new(DataType::Null, 0))
}

impl<R> RowBuffer<R> {
    /// Returns the buffer before the first record batch.
    pub(crate) fn new(reader: BatchReader<R>) -> RowBuffer<R>
        ensures reader { result.reader ≡ reader }
        ensures read { result.read ≡ 0 }
        ensures over { result.is_over ≡ false }
        ensures rows { buffered_rows result ≡ [] }
        ensures room { IsInBounds result }
    {
        RowBuffer {
            reader,
            read: 0,
            is_over: false,
            rows: no_rows(),
            from: 0,
        }
    }

    /// Returns the number of rows that are not yet compared.
    pub(crate) fn len(&self) -> usize
        requires { IsInBounds self.now }
        ensures { result ≡ length (buffered_rows self.now) }
    {
        self.rows.len() - self.from
    }

    /// Returns the first `n` rows that are not yet compared.
    pub(crate) fn window(&self, n: usize) -> Window<'_>
        requires room { IsInBounds self.now }
        requires within { n ≤ length (buffered_rows self.now) }
        ensures rows { rows_in result ≡ take n (buffered_rows self.now) }
        ensures count { result.count ≡ n }
    {
        Window::new(&self.rows, self.from, n)
    }

    /// Drops the first `n` rows that are not yet compared.
    pub(crate) fn advance(&mut self, n: usize)
        requires room { IsInBounds self.old }
        requires within { n ≤ length (buffered_rows self.old) }
        ensures { self.new ≡ advanced self.old n }
    {
        let _len = self.rows.len();
        self.from += n;
    }

    fn error(&self, error: CliError) -> BatchError
        ensures { result ≡ record { batch = Some self.now.read; error = error } }
    {
        BatchError {
            batch: Some(self.read),
            error,
        }
    }
}

impl<R: SeekRead + Drop> RowBuffer<R> {
    /// Reads the next record batch if every row was compared. Returns whether it tried to read one.
    pub(crate) fn fill(&mut self, alloc: Global) -> Result<bool, BatchError>
        requires room { IsInBounds self.old }
        ensures on { IfOk result (FillsBuffer R.remaining R.stream_position R.stream_bytes self.old self.new) }
        ensures still { IfOk result (λ moved. moved ≡ false → IsFilled self.new) }
        ensures error { IfErr result (FailsToFill R.remaining R.stream_position R.stream_bytes self.old) }
        ensures room { IsInBounds self.new }
        ensures schema { reader_schema self.new.reader ≡ reader_schema self.old.reader }
    {
        if self.is_over {
            return Ok(false);
        }
        if self.from < self.rows.len() {
            return Ok(false);
        }
        let Some(read) = self.read.checked_add(1) else {
            return Err(self.error(CliError::Input));
        };
        match next_rows(alloc, &mut self.reader) {
            Err(error) => Err(self.error(error)),
            Ok(None) => {
                self.is_over = true;
                Ok(true)
            }
            Ok(Some(rows)) => {
                drop(mem::replace(&mut self.rows, rows));
                self.from = 0;
                self.read = read;
                Ok(true)
            }
        }
    }
}
