//! Slices and new validity bitmaps, on the buffers that are there.
ghost use Rattle.std.specs.Prelude.{◌≡◌, ◌+◌, ◌≤◌, IfOk, IfErr, IsOkUnless, alloc_error};
ghost use Rattle.guide.specs.Words.{Memory, ValidityError, sublist, layout_of, layout_type, len, slots_of, with_validity};

use std::alloc::Global;
use tiekvorn::error::Error;
use tiekvorn::{AnyArray, Array, Bitmap, ListArray};

/// Slices an array by value: `count` slots from `start` on.
pub fn sliced_column(column: AnyArray, start: usize, count: usize) -> AnyArray
    requires { start + count ≤ len (layout_of column) }
    ensures slots { slots_of (layout_of result) ≡ sublist (slots_of (layout_of column)) start count }
    ensures same_type { layout_type (layout_of result) ≡ layout_type (layout_of column) }
{
    column.sliced(start, count)
}

/// Slices an array in place.
pub fn slice_in_place(column: &mut AnyArray, start: usize, count: usize)
    requires { start + count ≤ len (layout_of column.old) }
    ensures { slots_of (layout_of column.new) ≡ sublist (slots_of (layout_of column.old)) start count }
{
    column.slice(start, count);
}

/// Returns a slice as a second array on the same buffers.
pub fn new_slice(
    alloc: Global,
    lists: &ListArray,
    start: usize,
    count: usize,
) -> Result<AnyArray, Error>
    requires { start + count ≤ len lists.now }
    ensures rows { IfOk result (λ a. slots_of (layout_of a) ≡ sublist (slots_of lists.now) start count) }
    ensures memory { IsOkUnless result (Memory alloc_error) }
{
    Array::sliced(lists, alloc, start, count)
}

/// Sets the validity bitmap of an array of any kind. An `Err` leaves the array as it was.
pub fn replace_validity(column: &mut AnyArray, validity: Option<Bitmap>) -> Result<(), Error>
    ensures refused { IfErr result (λ e. ValidityError e (layout_of column.old) validity × (layout_of column.new ≡ layout_of column.old)) }
    ensures set { IfOk result (λ _. layout_of column.new ≡ with_validity (layout_of column.old) validity) }
{
    column.set_validity(validity)
}
