//! Selects rows.
ghost use Rattle.std.specs.Prelude.{◌≡◌, IfErr, IfOk, Ok, length, nat_lt};
ghost use Rattle.std.specs.List.{list_all};
ghost use Rattle.nest_memory.specs.TypeTree as types;
ghost use Rattle.listcut_rows.specs.Words.{IsSelectError, selected_rows, slice_rows, default_list_type, layout_of, layout_type, len, take_rows, selection_of, slots_of};

use crate::error::ListcutError;
use crate::int64::numbers;
use crate::selection::RowSelection;
use nest_array::{AnyArray, ListArray};
use nest_memory::error::Error;
use nest_take::take;
use std::alloc::Global;

/// Returns the rows of a slice.
fn slice(mut rows: ListArray, offset: u64, len: u64) -> Result<ListArray, ListcutError>
    ensures rows { IfOk result (λ a. selected_rows (slice_rows (offset, len)) (slots_of rows) ≡ Ok (slots_of a)) }
    ensures same_type { IfOk result (λ a. layout_type a ≡ layout_type rows) }
    ensures error { IfErr result (λ error. IsSelectError error (selected_rows (slice_rows (offset, len)) (slots_of rows))) }
{
    let count = count_rows(&rows);
    if offset > count || len > count - offset {
        drop(rows);
        return Err(ListcutError::Range);
    }
    rows.slice(offset as usize, len as usize);
    Ok(rows)
}

/// Returns the number of rows.
fn count_rows(rows: &ListArray) -> u64
    ensures slots { result ≡ length (slots_of rows.now) }
    ensures len { result ≡ len rows.now }
{
    rows.len() as u64
}

/// Returns whether all indices are below `n`.
fn are_below(indices: &[usize], n: u64) -> bool
    ensures { result ≡ list_all (λ index. nat_lt index n) indices.now }
{
    indices.iter().all(|index| (*index as u64) < n)
}

/// Returns the rows at the indices, in their order.
fn take_indices(
    alloc: Global,
    rows: ListArray,
    indices: &[usize],
) -> Result<ListArray, ListcutError>
    requires { layout_type rows ≡ default_list_type types.int64 }
    ensures rows { IfOk result (λ a. selected_rows (take_rows indices.now) (slots_of rows) ≡ Ok (slots_of a)) }
    ensures same_type { IfOk result (λ a. layout_type a ≡ layout_type rows) }
    ensures error { IfErr result (λ error. IsSelectError error (selected_rows (take_rows indices.now) (slots_of rows))) }
{
    if !are_below(indices, count_rows(&rows)) {
        drop(rows);
        return Err(ListcutError::Range);
    }
    rows.known();
    numbers(rows.values()).known();
    let array = AnyArray::List(rows);
    let taken = take(alloc, &array, indices);
    drop(array);
    match taken {
        Ok(taken) => Ok(into_list_array(taken)),
        Err(error) => match error {
            Error::Overflow => Err(ListcutError::Size),
            _ => Err(ListcutError::Memory),
        },
    }
}

/// Returns an array of type `List(Int64)` as a `ListArray`.
fn into_list_array(array: AnyArray) -> ListArray
    requires { layout_type (layout_of array) ≡ default_list_type types.int64 }
    ensures { result ≡ layout_of array }
{
    match array.into_list() {
        Ok(lists) => lists,
        Err(_) => unreachable!(),
    }
}

/// Returns the selected rows.
///
/// # Errors
/// - `Range`: the slice or an index is out of bounds.
/// - `Size`: the rows at the indices have 2^31 items or more.
/// - `Memory`: an allocation fails.
pub fn select(
    alloc: Global,
    rows: ListArray,
    selection: &RowSelection,
) -> Result<ListArray, ListcutError>
    requires { layout_type rows ≡ default_list_type types.int64 }
    ensures rows { IfOk result (λ a. selected_rows (selection_of selection.now) (slots_of rows) ≡ Ok (slots_of a)) }
    ensures same_type { IfOk result (λ a. layout_type a ≡ layout_type rows) }
    ensures error { IfErr result (λ error. IsSelectError error (selected_rows (selection_of selection.now) (slots_of rows))) }
{
    match selection {
        RowSelection::Slice(offset, len) => slice(rows, *offset, *len),
        RowSelection::Take(indices) => take_indices(alloc, rows, indices),
    }
}
