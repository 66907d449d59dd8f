//! Rows by index, one record batch after another.
ghost use Rattle.std.specs.Prelude.{◌≡◌, ◌≤◌, List, [], IfErr, IfOk, IsOkUnless, OnOk, Some, false, length, map, true};
ghost use Rattle.std.specs.List.{flat_map};
ghost use Rattle.std.specs.List.Sorted.{IsPermutation};
ghost use Rattle.nest_memory.specs.TypeTree.{FieldTree};
ghost use Rattle.nest_array.specs.Seen.{layout_of};
ghost use Rattle.ipc_schema.specs.Projections.{projection_of};
ghost use Rattle.ipc_schema.specs.Schemas.{schema_of};
ghost use Rattle.cli_args.specs.Requests.{indices};
ghost use Rattle.cli_rows.specs.Compared.{table_rows};
ghost use Rattle.cli_rows.specs.Rows.{RowSlot, rows_of};
ghost use Rattle.cli_rows.specs.SelectedTables.{AreRowsOf};
ghost use Rattle.cli_rows.specs.Selection.{selected_rows};
ghost use Rattle.cli_rows.specs.Tables.{table_of};
ghost use Rattle.cli_rows.specs.declared.error.CliError.TheVariants.{Memory};
ghost use Rattle.cli_read.specs.Inputs.{decoded_input};
ghost use Rattle.cli_read.specs.Readers.{decoded_reader, reader_schema};
ghost use Rattle.cli_read.specs.ProjectedNames.{HasNames};
ghost use Rattle.cli_read.specs.Takes.{FailsToTake, FailsToTakeColumns, Takes};
ghost use Rattle.cli_read.specs.TakeStates.{AreTakenRows, HasMoreIndices, HasTakenFrom, IsFinishError, TakesRows};
ghost use Rattle.cli_read.specs.TakeSteps.{FailsToTakeAll, FailsToTakeNext, TakesAll, TakesNext};

use crate::by_index::indices::{indices_in_batch, positions, sort_indices};
use crate::input::Input;
use crate::reader::{BatchReader, open};
use crate::rows::next_rows;
use cli_args::Selection;
use cli_rows::{BatchError, CliError, Table, batches_of_arrays, take_rows};
use ipc_io::SeekRead;
use ipc_schema::{Projection, Schema};
use nest_array::AnyArray;
use std::alloc::{AllocError, Global};
use std::slice;

/// Rows taken so far. `wanted` are the sorted indices, `next` of which were found in the first `passed` rows; `rows` are their rows.
#[derive(Drop)]
pub(crate) struct TakeState {
    wanted: Vec<usize>,
    next: usize,
    passed: usize,
    rows: Vec<AnyArray>,
}

/// Returns the state before the first record batch.
fn new_state(alloc: Global, wanted: &[usize]) -> Result<TakeState, AllocError>
    ensures same { IfOk result (λ t. IsPermutation wanted.now t.wanted.items) }
    ensures none { IfOk result (λ t. (fs : List FieldTree) → HasTakenFrom fs [] t) }
{
    Ok(TakeState {
        wanted: sort_indices(alloc, wanted)?,
        next: 0,
        passed: 0,
        rows: Vec::new(alloc),
    })
}

impl TakeState {
    /// Returns whether the row at each index was found.
    fn is_found(&self) -> bool
        ensures yes { result ≡ true → length self.now.wanted.items ≤ self.now.next }
        ensures no { result ≡ false → HasMoreIndices self.now }
    {
        self.next >= self.wanted.len()
    }
}

/// Copies the rows of an array at indices in it.
fn copy_rows(alloc: Global, found: Vec<usize>, array: &AnyArray) -> Result<Vec<AnyArray>, CliError>
    ensures rows { IfOk result (λ v. selected_rows (indices found.items) (rows_of (layout_of array.now)) ≡ Some (flat_map rows_of (map layout_of v.items))) }
    ensures error { IsOkUnless result Memory }
{
    let selection = Selection::Indices(found);
    match take_rows(alloc, &selection, slice::from_ref(array)) {
        Ok(rows) => Ok(rows),
        Err(_) => Err(CliError::Memory),
    }
}

/// Takes the rows of an array at the indices that are in it.
fn take_from_array(alloc: Global, state: &mut TakeState, array: &AnyArray) -> Result<(), CliError>
    requires { HasMoreIndices state.old }
    ensures took { OnOk result (TakesRows (rows_of (layout_of array.now)) state.old state.new) }
    ensures same { state.new.wanted ≡ state.old.wanted }
    ensures error { IsOkUnless result Memory }
{
    let rows = array.len();
    let found = indices_in_batch(alloc, &state.wanted[state.next..], state.passed, rows)?;
    let count = found.len();
    let mut taken = copy_rows(alloc, found, array)?;
    state.rows.append(&mut taken)?;
    state.next += count;
    state.passed = state.passed.saturating_add(rows);
    Ok(())
}

/// Takes rows of the next record batch. Returns whether there was one.
fn take_next<R: SeekRead + Drop>(
    alloc: Global,
    reader: &mut BatchReader<R>,
    state: &mut TakeState,
) -> Result<bool, CliError>
    requires more { HasMoreIndices state.old }
    ensures step { IfOk result (TakesNext R.remaining R.stream_position R.stream_bytes reader.old state.old reader.new state.new) }
    ensures error { IfErr result (FailsToTakeNext R.remaining R.stream_position R.stream_bytes reader.old state.old) }
    ensures schema { reader_schema reader.new ≡ reader_schema reader.old }
    ensures same { state.new.wanted ≡ state.old.wanted }
{
    match next_rows(alloc, reader) {
        Err(error) => Err(error),
        Ok(None) => Ok(false),
        Ok(Some(array)) => {
            let taken = take_from_array(alloc, state, &array);
            drop(array);
            match taken {
                Ok(()) => Ok(true),
                Err(error) => Err(error),
            }
        }
    }
}

/// Takes rows of one record batch after another, until the row at each index was found or there is no further batch.
fn take_all<R: SeekRead + Drop>(
    alloc: Global,
    reader: &mut BatchReader<R>,
    state: &mut TakeState,
) -> Result<(), BatchError>
    ensures taken { OnOk result (TakesAll R.remaining R.stream_position R.stream_bytes reader.old state.old state.new) }
    ensures error { IfErr result (FailsToTakeAll R.remaining R.stream_position R.stream_bytes reader.old state.old) }
    ensures schema { reader_schema reader.new ≡ reader_schema reader.old }
    ensures same { state.new.wanted ≡ state.old.wanted }
{
    for k in 0..usize::MAX {
        if state.is_found() {
            return Ok(());
        }
        match take_next(alloc, reader, state) {
            Err(error) => {
                return Err(BatchError {
                    batch: Some(k),
                    error,
                });
            }
            Ok(false) => return Ok(()),
            Ok(true) => {}
        }
    }
    if state.is_found() {
        return Ok(());
    }
    // There are more record batches than a `usize` counts.
    Err(BatchError {
        batch: Some(usize::MAX),
        error: CliError::Input,
    })
}

/// Returns the row at each index, in the order of the indices.
fn rows_in_order(
    alloc: Global,
    state: &TakeState,
    wanted: &[usize],
) -> Result<Vec<AnyArray>, CliError>
    ensures rows { IfOk result (λ v. AreTakenRows wanted.now state.now (map layout_of v.items)) }
    ensures error { IfErr result (λ e. IsFinishError e state.now) }
{
    if !state.is_found() {
        return Err(CliError::IndexOutOfRange);
    }
    let selection = Selection::Indices(positions(alloc, &state.wanted, wanted)?);
    match take_rows(alloc, &selection, &state.rows) {
        Ok(rows) => Ok(rows),
        Err(_) => Err(CliError::Memory),
    }
}

/// Returns arrays of rows as a table of a schema.
fn table_of_rows(alloc: Global, schema: &Schema, rows: Vec<AnyArray>) -> Result<Table, CliError>
    requires { AreRowsOf (schema_of schema.now).fields (flat_map rows_of (map layout_of rows.items)) }
    ensures schema { IfOk result (λ table. (table_of table).schema ≡ schema_of schema.now) }
    ensures rows { IfOk result (λ table. table_rows (table_of table) ≡ flat_map rows_of (map layout_of rows.items)) }
    ensures error { IsOkUnless result Memory }
{
    match batches_of_arrays(alloc, &schema.fields, rows) {
        Err(error) => Err(error),
        Ok(batches) => match schema.clone(alloc) {
            Ok(schema) => Ok(Table { schema, batches }),
            Err(_) => {
                drop(batches);
                Err(CliError::Memory)
            }
        },
    }
}

/// Returns the rows taken as a table, if the row at each index was found.
fn finish(
    alloc: Global,
    schema: &Schema,
    state: &TakeState,
    wanted: &[usize],
) -> Result<Table, CliError>
    requires same { IsPermutation wanted.now state.now.wanted.items }
    requires taken { (rows : List RowSlot) × HasTakenFrom (schema_of schema.now).fields rows state.now }
    ensures schema { IfOk result (λ table. (table_of table).schema ≡ schema_of schema.now) }
    ensures rows { IfOk result (λ table. (rows : List RowSlot) → HasTakenFrom (schema_of schema.now).fields rows state.now → selected_rows (indices wanted.now) rows ≡ Some (table_rows (table_of table))) }
    ensures error { IfErr result (λ e. IsFinishError e state.now) }
{
    match rows_in_order(alloc, state, wanted) {
        Err(error) => Err(error),
        Ok(rows) => table_of_rows(alloc, schema, rows),
    }
}

/// Takes rows of the remaining record batches of a reader.
fn take_from_reader<R: SeekRead + Drop>(
    alloc: Global,
    reader: BatchReader<R>,
    wanted: &[usize],
) -> Result<Table, BatchError>
    ensures rows { IfOk result (λ table. Takes wanted.now (decoded_reader R.remaining R.stream_position R.stream_bytes reader) (table_of table)) }
    ensures error { IfErr result (FailsToTake wanted.now (decoded_reader R.remaining R.stream_position R.stream_bytes reader)) }
{
    let mut reader = reader;
    match new_state(alloc, wanted) {
        Err(_) => {
            drop(reader);
            Err(BatchError {
                batch: None,
                error: CliError::Memory,
            })
        }
        Ok(state) => {
            let mut state = state;
            match take_all(alloc, &mut reader, &mut state) {
                Err(error) => Err(error),
                Ok(()) => match finish(alloc, reader.schema(), &state, wanted) {
                    Ok(table) => Ok(table),
                    Err(error) => Err(BatchError { batch: None, error }),
                },
            }
        }
    }
}

/// Returns the rows of an Arrow stream or file at indices, in the order of the indices, with its schema. Only the projected columns are read,
/// and no record batch after the last index. Of each record batch the rows at indices in it are copied, and the batch is dropped before the
/// next one is read. The rows are one record batch, or several if they exceed the limits of one array.
///
/// # Errors
/// Before any record batch: `Read` with the first error of the bytes in reading order; `Input` if a read fails; `UnknownName` with the first
/// projected name that no column has. In a record batch, if an
/// index is not in the batches before it: `Read`; `MismatchedColumns` if its columns do not match the schema; `Input`. After all record
/// batches: `IndexOutOfRange` if there is no row at an index. `Memory`, also in `Read`, if an allocation fails.
pub fn take<R: SeekRead + Drop>(
    alloc: Global,
    columns: Projection<'_>,
    wanted: &[usize],
    input: Input<R>,
) -> Result<Table, BatchError>
    ensures rows { IfOk result (λ table. Takes wanted.now (decoded_input R.remaining R.stream_position R.stream_bytes (projection_of columns.entry) input) (table_of table)) }
    ensures names { OnOk result (HasNames (projection_of columns.entry) (decoded_input R.remaining R.stream_position R.stream_bytes (projection_of columns.entry) input)) }
    ensures error { let picks = projection_of columns.entry in
        IfErr result (FailsToTakeColumns picks wanted.now (decoded_input R.remaining R.stream_position R.stream_bytes picks input)) }
{
    match open(alloc, columns, input) {
        Err(error) => Err(BatchError { batch: None, error }),
        Ok(reader) => take_from_reader(alloc, reader, wanted),
    }
}
