//! Selected rows as windows over arrays.
ghost use Rattle.std.specs.Prelude.{◌≡◌, ◌<◌, ◌++◌, IfOk, OnOk, map, option_map};
ghost use Rattle.std.specs.List.{filter, flat_map};
ghost use Rattle.nest_memory.specs.Sublist.{sublist};
ghost use Rattle.nest_model.specs.Meaning.{len};
ghost use Rattle.nest_array.specs.Seen.{layout_of};
ghost use Rattle.nest_array.specs.WindowParts.{window_parts};
ghost use Rattle.cli_args.specs.ConditionTrees.{condition_tree};
ghost use Rattle.cli_args.specs.Requests.{indices};
ghost use Rattle.cli_args.specs.RequestTrees.{selection_tree};
ghost use Rattle.cli_rows.specs.Selection.{selected_rows};
ghost use Rattle.cli_rows.specs.Rows.{rows_in, rows_of};
ghost use Rattle.cli_rows.specs.Conditions.{is_true_in};

use crate::select::conditions::is_true_at;
use crate::select::offsets::{locate, row_offsets};
use cli_args::{Condition, Selection};
use nest_array::{AnyArray, Window};
use std::alloc::{AllocError, Global};

/// Returns all rows.
fn all_rows(alloc: Global, arrays: &[AnyArray]) -> Result<Vec<Window<'_>>, AllocError>
    ensures { IfOk result (λ v. flat_map rows_in v.items ≡ flat_map rows_of (map layout_of arrays.now)) }
{
    let mut windows = Vec::new(alloc);
    for array in arrays {
        windows.push(Window::of(array))?;
    }
    Ok(windows)
}

/// Appends the slice of offset `o` and length `n` at most.
fn push_slice<'a>(
    windows: &mut Vec<Window<'a>>,
    arrays: &'a [AnyArray],
    o: usize,
    n: usize,
) -> Result<(), AllocError>
    ensures { OnOk result (flat_map rows_in windows.new.items ≡ flat_map rows_in windows.old.items ++ sublist (flat_map rows_of (map layout_of arrays.now)) o n) }
{
    let mut skip = o;
    let mut left = n;
    for array in arrays {
        let len = array.len();
        let from = skip.min(len);
        let many = left.min(len - from);
        windows.push(Window::new(array, from, many))?;
        skip -= from;
        left -= many;
    }
    Ok(())
}

/// Returns the slice of offset `o` and length `n` at most.
fn rows_in_slice(
    alloc: Global,
    arrays: &[AnyArray],
    o: usize,
    n: usize,
) -> Result<Vec<Window<'_>>, AllocError>
    ensures { IfOk result (λ v. flat_map rows_in v.items ≡ sublist (flat_map rows_of (map layout_of arrays.now)) o n) }
{
    let mut windows = Vec::new(alloc);
    push_slice(&mut windows, arrays, o, n)?;
    Ok(windows)
}

/// Returns row `i` of an array.
fn one_row(array: &AnyArray, i: usize) -> Window<'_>
    requires { i < len (layout_of array.now) }
    ensures { result ≡ window_parts (layout_of array.now) i 1 }
{
    Window::new(array, i, 1)
}

/// Returns the row at each index, in the order of the indices, or `None` if an index is out of range.
fn rows_at_indices<'a>(
    alloc: Global,
    arrays: &'a [AnyArray],
    wanted: &[usize],
) -> Result<Option<Vec<Window<'a>>>, AllocError>
    ensures { IfOk result (λ r. option_map (λ v. flat_map rows_in v.items) r ≡ selected_rows (indices wanted.now) (flat_map rows_of (map layout_of arrays.now))) }
{
    let row_offsets = row_offsets(alloc, arrays)?;
    let mut windows = Vec::new(alloc);
    for index in wanted {
        let Some((k, i)) = locate(&row_offsets, arrays, *index) else {
            return Ok(None);
        };
        windows.push(one_row(&arrays[k], i))?;
    }
    Ok(Some(windows))
}

/// Appends the rows of an array where a condition is true.
fn push_where<'a>(
    windows: &mut Vec<Window<'a>>,
    array: &'a AnyArray,
    condition: &Condition,
) -> Result<(), AllocError>
    ensures { OnOk result (flat_map rows_in windows.new.items ≡ flat_map rows_in windows.old.items ++ filter (is_true_in (condition_tree condition.now)) (rows_of (layout_of array.now))) }
{
    for i in 0..array.len() {
        if is_true_at(array, condition, i) {
            windows.push(one_row(array, i))?;
        }
    }
    Ok(())
}

/// Returns the rows where a condition is true.
fn rows_where<'a>(
    alloc: Global,
    arrays: &'a [AnyArray],
    condition: &Condition,
) -> Result<Vec<Window<'a>>, AllocError>
    ensures { IfOk result (λ v. flat_map rows_in v.items ≡ filter (is_true_in (condition_tree condition.now)) (flat_map rows_of (map layout_of arrays.now))) }
{
    let mut windows = Vec::new(alloc);
    for array in arrays {
        push_where(&mut windows, array, condition)?;
    }
    Ok(windows)
}

/// Selects rows of arrays, one array after another, as windows over the arrays. Returns `None` if an index is out of range. No value is
/// copied.
pub fn select_rows<'a>(
    alloc: Global,
    selection: &Selection,
    arrays: &'a [AnyArray],
) -> Result<Option<Vec<Window<'a>>>, AllocError>
    ensures { IfOk result (λ r. option_map (λ v. flat_map rows_in v.items) r ≡ selected_rows (selection_tree selection.now) (flat_map rows_of (map layout_of arrays.now))) }
{
    match selection {
        Selection::All => Ok(Some(all_rows(alloc, arrays)?)),
        Selection::Slice(o, n) => Ok(Some(rows_in_slice(alloc, arrays, *o, *n)?)),
        Selection::Indices(indices) => rows_at_indices(alloc, arrays, indices),
        Selection::Where(condition) => Ok(Some(rows_where(alloc, arrays, condition)?)),
    }
}
