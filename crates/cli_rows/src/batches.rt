//! Arrays of rows as record batches.
ghost use Rattle.std.specs.Prelude.{◌≡◌, ◌<◌, IfErr, IfOk, IsOkUnless, OnOk, None, Some, map};
ghost use Rattle.std.specs.List.{filter, flat_map};
ghost use Rattle.nest_memory.specs.Physical.{physical_type};
ghost use Rattle.nest_memory.specs.TypeOf.{field_of};
ghost use Rattle.nest_memory.specs.declared.datatypes.physical_type.PhysicalType.TheVariants as physical;
ghost use Rattle.nest_model.specs.Accessors.{validity_of};
ghost use Rattle.nest_model.specs.Layout as layouts;
ghost use Rattle.nest_model.specs.Layout.{layout_type};
ghost use Rattle.nest_model.specs.Meaning.{len};
ghost use Rattle.nest_array.specs.Seen.{layout_of, layouts_of};
ghost use Rattle.ipc.specs.Streams.{record_batch_of};
ghost use Rattle.cli_args.specs.ConditionTrees.{condition_tree};
ghost use Rattle.cli_args.specs.RequestTrees.{selection_tree};
ghost use Rattle.cli_rows.specs.Conditions.{is_true_in};
ghost use Rattle.cli_rows.specs.Compared.{batch_array};
ghost use Rattle.cli_rows.specs.RequestErrors.{IsIndexError};
ghost use Rattle.cli_rows.specs.Rows.{rows_in, rows_of, rows_of_arrays};
ghost use Rattle.cli_rows.specs.SelectedTables.{AppendsRows, AreRowsOf, batch_rows};
ghost use Rattle.cli_rows.specs.Selection.{selected_rows};
ghost use Rattle.cli_rows.specs.declared.error.CliError.TheVariants.{Memory};

use crate::error::CliError;
use crate::select::{select_rows, true_rows};
use crate::take::copied_batches;
use cli_args::{Condition, Selection};
use ipc::Batch;
use nest_array::{AnyArray, Window};
use nest_memory::datatypes::Field;
use nest_take::take;
use std::alloc::Global;

/// Returns the columns of an array of records.
fn columns_of(array: AnyArray) -> Vec<AnyArray>
    requires { physical_type (layout_type (layout_of array)) ≡ physical.Struct }
    ensures { layout_of array ≡ layouts.struct (layout_type (layout_of array)) (layouts_of result.items) (validity_of (layout_of array)) }
{
    match array.into_struct() {
        Ok(records) => {
            records.known();
            let (fields, columns, validity) = records.into_data();
            drop(fields);
            drop(validity);
            columns
        }
        Err(_) => unreachable!(),
    }
}

/// Returns an array of rows as a record batch.
fn batch_of(alloc: Global, fields: &[Field], array: AnyArray) -> Batch
    requires some { 0 < len (layout_of array) }
    requires rows { AreRowsOf (map field_of fields.now) (rows_of (layout_of array)) }
    ensures { rows_of (batch_array (map field_of fields.now) (record_batch_of result)) ≡ rows_of (layout_of array) }
{
    let rows = array.len();
    array.known();
    if fields.is_empty() {
        drop(array);
        return Batch {
            rows,
            columns: Vec::new(alloc),
        };
    }
    Batch {
        rows,
        columns: columns_of(array),
    }
}

/// Appends an array of rows as a record batch, unless it is empty.
///
/// # Errors
/// `Memory` if an allocation fails.
pub fn push_batch(
    alloc: Global,
    fields: &[Field],
    batches: &mut Vec<Batch>,
    array: AnyArray,
) -> Result<(), CliError>
    requires { AreRowsOf (map field_of fields.now) (rows_of (layout_of array)) }
    ensures rows { OnOk result (AppendsRows (map field_of fields.now) batches.old.items batches.new.items (rows_of (layout_of array))) }
    ensures error { IsOkUnless result Memory }
{
    if array.len() == 0 {
        drop(array);
        return Ok(());
    }
    let batch = batch_of(alloc, fields, array);
    batches.push(batch)?;
    Ok(())
}

/// Returns each array of rows as a record batch. Empty arrays are left out.
///
/// # Errors
/// `Memory` if an allocation fails.
pub fn batches_of_arrays(
    alloc: Global,
    fields: &[Field],
    arrays: Vec<AnyArray>,
) -> Result<Vec<Batch>, CliError>
    requires { AreRowsOf (map field_of fields.now) (flat_map rows_of (map layout_of arrays.items)) }
    ensures rows { IfOk result (λ v. batch_rows (map field_of fields.now) (map record_batch_of v.items) ≡ flat_map rows_of (map layout_of arrays.items)) }
    ensures error { IsOkUnless result Memory }
{
    let mut batches = Vec::new(alloc);
    for array in arrays {
        push_batch(alloc, fields, &mut batches, array)?;
    }
    Ok(batches)
}

/// Appends the rows of a window as a record batch, unless it is empty. The batch is a slice of the array: no value is copied.
fn push_window(
    alloc: Global,
    fields: &[Field],
    batches: &mut Vec<Batch>,
    window: &Window<'_>,
) -> Result<(), CliError>
    requires { AreRowsOf (map field_of fields.now) (rows_in window.now) }
    ensures rows { OnOk result (AppendsRows (map field_of fields.now) batches.old.items batches.new.items (rows_in window.now)) }
    ensures error { IsOkUnless result Memory }
{
    if window.is_empty() {
        return Ok(());
    }
    window.known();
    match window.array().clone(alloc) {
        Err(_) => Err(CliError::Memory),
        Ok(array) => {
            let rows = array.sliced(window.offset(), window.len());
            push_batch(alloc, fields, batches, rows)
        }
    }
}

/// Returns each window of rows as a record batch.
pub(crate) fn batches_of_windows(
    alloc: Global,
    fields: &[Field],
    windows: &[Window<'_>],
) -> Result<Vec<Batch>, CliError>
    requires { AreRowsOf (map field_of fields.now) (flat_map rows_in windows.now) }
    ensures rows { IfOk result (λ v. batch_rows (map field_of fields.now) (map record_batch_of v.items) ≡ flat_map rows_in windows.now) }
    ensures error { IsOkUnless result Memory }
{
    let mut batches = Vec::new(alloc);
    for window in windows {
        push_window(alloc, fields, &mut batches, window)?;
    }
    Ok(batches)
}

/// Appends the rows where a condition is true as a record batch, unless there are none.
fn push_where(
    alloc: Global,
    fields: &[Field],
    batches: &mut Vec<Batch>,
    array: &AnyArray,
    condition: &Condition,
) -> Result<(), CliError>
    requires { AreRowsOf (map field_of fields.now) (rows_of (layout_of array.now)) }
    ensures rows { OnOk result (AppendsRows (map field_of fields.now) batches.old.items batches.new.items (filter (is_true_in (condition_tree condition.now)) (rows_of (layout_of array.now)))) }
    ensures error { IsOkUnless result Memory }
{
    let indices = true_rows(alloc, array, condition)?;
    match take(alloc, array, &indices) {
        Err(_) => Err(CliError::Memory),
        Ok(rows) => push_batch(alloc, fields, batches, rows),
    }
}

/// Returns the rows where a condition is true, those of each array as a record batch.
fn batches_where(
    alloc: Global,
    fields: &[Field],
    arrays: &[AnyArray],
    condition: &Condition,
) -> Result<Vec<Batch>, CliError>
    requires { AreRowsOf (map field_of fields.now) (flat_map rows_of (map layout_of arrays.now)) }
    ensures rows { IfOk result (λ v. batch_rows (map field_of fields.now) (map record_batch_of v.items) ≡ filter (is_true_in (condition_tree condition.now)) (rows_of_arrays arrays.now)) }
    ensures error { IsOkUnless result Memory }
{
    let mut batches = Vec::new(alloc);
    for array in arrays {
        push_where(alloc, fields, &mut batches, array, condition)?;
    }
    Ok(batches)
}

/// Returns selected rows as record batches. Rows next to each other in an array are a slice of it; rows at indices are copied to one
/// batch.
///
/// # Errors
/// `IndexOutOfRange` if there is no row at an index. `Memory` if an allocation fails.
pub fn selected_batches(
    alloc: Global,
    fields: &[Field],
    selection: &Selection,
    arrays: &[AnyArray],
) -> Result<Vec<Batch>, CliError>
    requires { AreRowsOf (map field_of fields.now) (flat_map rows_of (map layout_of arrays.now)) }
    ensures rows { IfOk result (λ v. selected_rows (selection_tree selection.now) (rows_of_arrays arrays.now) ≡ Some (batch_rows (map field_of fields.now) (map record_batch_of v.items))) }
    ensures error { IfErr result (λ e. IsIndexError e (selected_rows (selection_tree selection.now) (flat_map rows_of (map layout_of arrays.now)))) }
{
    if let Selection::Where(condition) = selection {
        return batches_where(alloc, fields, arrays, condition);
    }
    match select_rows(alloc, selection, arrays)? {
        None => Err(CliError::IndexOutOfRange),
        Some(windows) => match selection {
            Selection::Indices(_) => copied_batches(alloc, fields, &windows),
            _ => batches_of_windows(alloc, fields, &windows),
        },
    }
}
