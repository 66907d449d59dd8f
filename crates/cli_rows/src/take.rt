//! Rows copied to one array or record batch.
ghost use Rattle.std.specs.Prelude.{◌≡◌, ◌⊎◌, ◌++◌, IfErr, IfOk, IfSome, IsOkUnless, OnOk, None, Some, map, true};
ghost use Rattle.std.specs.List.{flat_map};
ghost use Rattle.nest_memory.specs.TypeOf.{field_of};
ghost use Rattle.nest_array.specs.Seen.{layout_of};
ghost use Rattle.nest_concat.specs.Joined.{AreOfOneType};
ghost use Rattle.nest_concat.specs.Laid.{joins_past};
ghost use Rattle.cli_args.specs.RequestTrees.{selection_tree};
ghost use Rattle.cli_rows.specs.Selection.{selected_rows};
ghost use Rattle.cli_rows.specs.Rows.{rows_in, rows_of};
ghost use Rattle.cli_rows.specs.declared.error.CliError.TheVariants.{Memory};
ghost use Rattle.cli_rows.specs.RequestErrors.{IsIndexError};
ghost use Rattle.cli_rows.specs.SelectedTables.{AreRowsOf, batch_rows};
ghost use Rattle.ipc.specs.Streams.{record_batch_of};

use crate::batches::batches_of_arrays;
use crate::error::CliError;
use crate::select::select_rows;
use cli_args::Selection;
use ipc::Batch;
use nest_array::{AnyArray, Window};
use nest_concat::concatenate;
use nest_memory::datatypes::Field;
use nest_memory::error::Error;
use std::alloc::Global;

/// Appends the rows of a window as an array, a slice: no value is copied.
fn push_window(
    alloc: Global,
    arrays: &mut Vec<AnyArray>,
    window: &Window<'_>,
) -> Result<(), CliError>
    ensures rows { OnOk result (flat_map rows_of (map layout_of arrays.new.items) ≡ flat_map rows_of (map layout_of arrays.old.items) ++ rows_in window.now) }
    ensures error { IsOkUnless result Memory }
{
    window.known();
    match window.array().clone(alloc) {
        Err(_) => Err(CliError::Memory),
        Ok(array) => {
            arrays.push(array.sliced(window.offset(), window.len()))?;
            Ok(())
        }
    }
}

/// Returns the rows of each window as an array, a slice.
fn sliced_windows(alloc: Global, windows: &[Window<'_>]) -> Result<Vec<AnyArray>, CliError>
    ensures rows { IfOk result (λ v. flat_map rows_of (map layout_of v.items) ≡ flat_map rows_in windows.now) }
    ensures error { IsOkUnless result Memory }
{
    let mut arrays = Vec::new(alloc);
    for window in windows {
        push_window(alloc, &mut arrays, window)?;
    }
    Ok(arrays)
}

/// Concatenates arrays. Returns `None` if there is no array, or the rows exceed the limits of one array.
fn concatenated(alloc: Global, arrays: &[AnyArray]) -> Result<Option<AnyArray>, CliError>
    ensures rows { IfOk result (λ found. IfSome found (λ a. rows_of (layout_of a) ≡ flat_map rows_of (map layout_of arrays.now))) }
    ensures none { IfOk result (λ found. found ≡ None → (AreOfOneType (map layout_of arrays.now) → ⊥) ⊎ (joins_past (map layout_of arrays.now) ≡ true)) }
    ensures error { IsOkUnless result Memory }
{
    match concatenate(alloc, arrays) {
        Ok(rows) => Ok(Some(rows)),
        Err(Error::Memory(_)) => Err(CliError::Memory),
        Err(_) => Ok(None),
    }
}

/// Copies the rows of windows to one array. Returns no array if there is no window, and one array for each window if the rows exceed the
/// limits of one array.
fn copied_arrays(alloc: Global, windows: &[Window<'_>]) -> Result<Vec<AnyArray>, CliError>
    ensures rows { IfOk result (λ v. flat_map rows_of (map layout_of v.items) ≡ flat_map rows_in windows.now) }
    ensures error { IsOkUnless result Memory }
{
    let arrays = sliced_windows(alloc, windows)?;
    match concatenated(alloc, &arrays) {
        Err(error) => {
            drop(arrays);
            Err(error)
        }
        Ok(None) => Ok(arrays),
        Ok(Some(rows)) => {
            drop(arrays);
            let mut arrays = Vec::new(alloc);
            arrays.push(rows)?;
            Ok(arrays)
        }
    }
}

/// Copies the rows of windows to one record batch. Returns no batch if there is no row, and one batch for each window if the rows exceed
/// the limits of one array.
pub(crate) fn copied_batches(
    alloc: Global,
    fields: &[Field],
    windows: &[Window<'_>],
) -> Result<Vec<Batch>, CliError>
    requires { AreRowsOf (map field_of fields.now) (flat_map rows_in windows.now) }
    ensures rows { IfOk result (λ v. batch_rows (map field_of fields.now) (map record_batch_of v.items) ≡ flat_map rows_in windows.now) }
    ensures error { IsOkUnless result Memory }
{
    let arrays = copied_arrays(alloc, windows)?;
    batches_of_arrays(alloc, fields, arrays)
}

/// Copies selected rows of arrays to one array. Returns no array if there is no row. If the rows exceed the limits of one array, returns
/// slices of the arrays.
///
/// # Errors
/// `IndexOutOfRange` if there is no row at an index. `Memory` if an allocation fails.
pub fn take_rows(
    alloc: Global,
    selection: &Selection,
    arrays: &[AnyArray],
) -> Result<Vec<AnyArray>, CliError>
    ensures rows { IfOk result (λ v. selected_rows (selection_tree selection.now) (flat_map rows_of (map layout_of arrays.now)) ≡ Some (flat_map rows_of (map layout_of v.items))) }
    ensures error { IfErr result (λ e. IsIndexError e (selected_rows (selection_tree selection.now) (flat_map rows_of (map layout_of arrays.now)))) }
{
    match select_rows(alloc, selection, arrays)? {
        None => Err(CliError::IndexOutOfRange),
        Some(windows) => copied_arrays(alloc, &windows),
    }
}
