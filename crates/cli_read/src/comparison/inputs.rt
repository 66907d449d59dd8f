//! Two inputs compared, one record batch after another.
ghost use Rattle.std.specs.Prelude.{◌≡◌};
ghost use Rattle.ipc_schema.specs.Projections.{projection_of};
ghost use Rattle.cli_read.specs.CompareSteps.{ComparesAll, ComparesNext, ReadsAll};
ghost use Rattle.cli_read.specs.Comparisons.{ComparesInputs, ComparesProjections};
ghost use Rattle.cli_read.specs.Readers.{decoded_reader, reader_schema};
ghost use Rattle.cli_read.specs.RowBuffers.{ComparesBuffers, IsDifferenceAt, IsInBounds, buffered_rows};
ghost use Rattle.cli_read.specs.declared.input.Input.TheVariants.{File};

use crate::comparison::buffer::RowBuffer;
use crate::comparison::bytes::have_equal_bytes;
use crate::input::Input;
use crate::reader::{BatchReader, open};
use cli_rows::{BatchError, CliError, Difference, window_difference};
use ipc_io::SeekRead;
use ipc_schema::Projection;
use std::alloc::Global;

/// Error returned where two inputs are not compared.
#[derive(Clone, Copy, Debug, PartialEq, Eq)]
pub enum CompareError {
    /// Error in the first input.
    First(BatchError),
    /// Error in the second input.
    Second(BatchError),
    /// The first 2^64 rows are equal, and more are not counted.
    TooManyRows,
}

/// Result of comparing the buffered rows of two sides.
enum Comparison {
    /// So many rows are equal.
    Equal(usize),
    /// The rows differ first at this index, or there are none left.
    Decided(Option<usize>),
}

/// Compares the buffered rows of two sides.
fn compare_buffers<R, S>(left: &RowBuffer<R>, right: &RowBuffer<S>) -> Comparison
    requires left { IsInBounds left.now }
    requires right { IsInBounds right.now }
    ensures { ComparesBuffers (buffered_rows left.now) (buffered_rows right.now) result }
{
    let n = left.len().min(right.len());
    if n == 0 {
        let is_end = left.len() == right.len();
        return Comparison::Decided(if is_end { None } else { Some(0) });
    }
    let x = left.window(n);
    let y = right.window(n);
    match window_difference(&x, &y) {
        None => Comparison::Equal(n),
        Some(k) => Comparison::Decided(Some(k)),
    }
}

/// Result of one step of a comparison.
enum Step {
    /// There may be more rows to compare.
    Continue,
    /// The comparison is complete, with this difference.
    Done(Option<Difference>),
}

/// Returns the difference at index `k` after `rows` equal rows, or no difference.
fn difference_at(rows: usize, k: Option<usize>) -> Result<Step, CompareError>
    ensures { IsDifferenceAt rows k result }
{
    let Some(k) = k else {
        return Ok(Step::Done(None));
    };
    match rows.checked_add(k) {
        Some(index) => Ok(Step::Done(Some(Difference::Row(index)))),
        None => Err(CompareError::TooManyRows),
    }
}

/// Reads a record batch of a side that has no buffered row, or compares the buffered rows and adds the number of equal ones to `rows`.
fn compare_next<R: SeekRead + Drop, S: SeekRead + Drop>(
    alloc: Global,
    left: &mut RowBuffer<R>,
    right: &mut RowBuffer<S>,
    rows: &mut usize,
) -> Result<Step, CompareError>
    requires left { IsInBounds left.old }
    requires right { IsInBounds right.old }
    ensures step { ComparesNext R.remaining R.stream_position R.stream_bytes S.remaining S.stream_position S.stream_bytes left.old right.old rows.old left.new right.new rows.new result }
    ensures left { IsInBounds left.new × (reader_schema left.new.reader ≡ reader_schema left.old.reader) }
    ensures right { IsInBounds right.new × (reader_schema right.new.reader ≡ reader_schema right.old.reader) }
{
    match left.fill(alloc) {
        Err(error) => return Err(CompareError::First(error)),
        Ok(true) => return Ok(Step::Continue),
        Ok(false) => {}
    }
    match right.fill(alloc) {
        Err(error) => return Err(CompareError::Second(error)),
        Ok(true) => return Ok(Step::Continue),
        Ok(false) => {}
    }
    match compare_buffers(left, right) {
        Comparison::Decided(k) => difference_at(*rows, k),
        Comparison::Equal(n) => {
            let Some(more) = rows.checked_add(n) else {
                return Err(CompareError::TooManyRows);
            };
            *rows = more;
            left.advance(n);
            right.advance(n);
            Ok(Step::Continue)
        }
    }
}

/// Compares the rows of two sides of one schema.
fn compare_all<R: SeekRead + Drop, S: SeekRead + Drop>(
    alloc: Global,
    left: &mut RowBuffer<R>,
    right: &mut RowBuffer<S>,
) -> Result<Option<Difference>, CompareError>
    requires left { IsInBounds left.old }
    requires right { IsInBounds right.old }
    ensures { ComparesAll R.remaining R.stream_position R.stream_bytes S.remaining S.stream_position S.stream_bytes left.old right.old result }
{
    let mut rows = 0usize;
    'steps: for _turn in 0..u64::MAX {
        match compare_next(alloc, left, right, &mut rows) {
            Err(error) => return Err(error),
            Ok(Step::Done(difference)) => return Ok(difference),
            Ok(Step::Continue) => {}
        }
    }
    // There are more record batches than a `u64` counts.
    Err(CompareError::First(BatchError {
        batch: Some(usize::MAX),
        error: CliError::Input,
    }))
}

/// Compares the record batches of two readers of one schema.
fn compare_rows<R: SeekRead + Drop, S: SeekRead + Drop>(
    alloc: Global,
    left: BatchReader<R>,
    right: BatchReader<S>,
) -> Result<Option<Difference>, CompareError>
    requires same { reader_schema left ≡ reader_schema right }
    ensures { ComparesInputs (decoded_reader R.remaining R.stream_position R.stream_bytes left) (decoded_reader S.remaining S.stream_position S.stream_bytes right) result }
{
    let mut left = RowBuffer::new(left);
    let mut right = RowBuffer::new(right);
    compare_all(alloc, &mut left, &mut right)
}

/// Compares two inputs that were opened.
fn compare_readers<R: SeekRead + Drop, S: SeekRead + Drop>(
    alloc: Global,
    left: BatchReader<R>,
    right: BatchReader<S>,
) -> Result<Option<Difference>, CompareError>
    ensures { ComparesInputs (decoded_reader R.remaining R.stream_position R.stream_bytes left) (decoded_reader S.remaining S.stream_position S.stream_bytes right) result }
{
    if left.schema() != right.schema() {
        drop(left);
        drop(right);
        return Ok(Some(Difference::Schema));
    }
    compare_rows(alloc, left, right)
}

/// Opens and compares two inputs.
fn compare_inputs<R: SeekRead + Drop, S: SeekRead + Drop>(
    alloc: Global,
    columns: Projection<'_>,
    left: Input<R>,
    right: Input<S>,
) -> Result<Option<Difference>, CompareError>
    ensures { ComparesProjections R.remaining R.stream_position R.stream_bytes S.remaining S.stream_position S.stream_bytes (projection_of columns.entry) left right result }
{
    match open(alloc, columns, left) {
        Err(error) => {
            drop(right);
            Err(CompareError::First(BatchError { batch: None, error }))
        }
        Ok(left) => match open(alloc, columns, right) {
            Err(error) => {
                drop(left);
                Err(CompareError::Second(BatchError { batch: None, error }))
            }
            Ok(right) => compare_readers(alloc, left, right),
        },
    }
}

/// Reads all record batches of an input that is equal to the other one.
fn read_all<R: SeekRead + Drop>(
    alloc: Global,
    side: &mut RowBuffer<R>,
) -> Result<Option<Difference>, CompareError>
    requires room { IsInBounds side.old }
    ensures { ReadsAll R.remaining R.stream_position R.stream_bytes side.old result }
{
    'batches: for _turn in 0..u64::MAX {
        let is_on = match side.fill(alloc) {
            Err(error) => return Err(CompareError::First(error)),
            Ok(is_on) => is_on,
        };
        let n = side.len();
        if !is_on && n == 0 {
            return Ok(None);
        }
        side.advance(n);
    }
    // There are more record batches than a `u64` counts.
    Err(CompareError::First(BatchError {
        batch: Some(usize::MAX),
        error: CliError::Input,
    }))
}

/// Reads all record batches of a reader whose input is equal to the other one.
fn read_equal<R: SeekRead + Drop>(
    alloc: Global,
    reader: BatchReader<R>,
) -> Result<Option<Difference>, CompareError>
    ensures { ComparesInputs (decoded_reader R.remaining R.stream_position R.stream_bytes reader) (decoded_reader R.remaining R.stream_position R.stream_bytes reader) result }
{
    let mut side = RowBuffer::new(reader);
    read_all(alloc, &mut side)
}

/// Compares two inputs of equal bytes: one of them is read.
fn compare_equal_files<R: SeekRead + Drop>(
    alloc: Global,
    columns: Projection<'_>,
    input: Input<R>,
) -> Result<Option<Difference>, CompareError>
    ensures { ComparesProjections R.remaining R.stream_position R.stream_bytes R.remaining R.stream_position R.stream_bytes (projection_of columns.entry) input input result }
{
    match open(alloc, columns, input) {
        Err(error) => Err(CompareError::First(BatchError { batch: None, error })),
        Ok(reader) => read_equal(alloc, reader),
    }
}

/// Compares two files: their bytes first, and their record batches if the bytes differ.
fn compare_files<R: SeekRead + Drop, S: SeekRead + Drop>(
    alloc: Global,
    columns: Projection<'_>,
    mut left: R,
    mut right: S,
) -> Result<Option<Difference>, CompareError>
    ensures { ComparesProjections R.remaining R.stream_position R.stream_bytes S.remaining S.stream_position S.stream_bytes (projection_of columns.entry) (File left) (File right) result }
{
    if have_equal_bytes(&mut left, &mut right) {
        drop(right);
        return compare_equal_files(alloc, columns, Input::File(left));
    }
    compare_inputs(alloc, columns, Input::File(left), Input::File(right))
}

/// Returns the first difference of two Arrow streams or files, or `None` if they are equal. Record batches may be of other lengths. First the
/// schemas are compared, custom metadata included; then the rows, or the numbers of rows if there is no column. No record batch is read
/// after the first difference. Only the projected columns are read. Of two files of equal bytes one is read.
///
/// # Errors
/// `First` and `Second` with the error of an input and its record batch. Before any record batch, `Second` only if the first input was
/// opened: `Read` with the first error of the bytes in reading order; `UnknownName` with the first projected name that no column has. In a
/// record batch, if the rows before it begin the other input:
/// `Read`; `MismatchedColumns` if its columns do not match the schema. `Input` if a read fails. `Memory`, also in `Read`, if an
/// allocation fails. `TooManyRows` if 2^64 rows are equal.
pub fn compare<R: SeekRead + Drop, S: SeekRead + Drop>(
    alloc: Global,
    columns: Projection<'_>,
    left: Input<R>,
    right: Input<S>,
) -> Result<Option<Difference>, CompareError>
    ensures { ComparesProjections R.remaining R.stream_position R.stream_bytes S.remaining S.stream_position S.stream_bytes (projection_of columns.entry) left right result }
{
    match left {
        Input::File(x) => match right {
            Input::File(y) => compare_files(alloc, columns, x, y),
            right => compare_inputs(alloc, columns, Input::File(x), right),
        },
        left => compare_inputs(alloc, columns, left, right),
    }
}
