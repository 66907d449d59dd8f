//! `take`, `filter` and `concatenate`.
ghost use Rattle.std.specs.Prelude.{◌≡◌, ◌↔◌, IsTrue, IfOk};
ghost use Rattle.nest_take.specs.Indices.{AreBelow};
ghost use Rattle.guide.specs.Words.{selected, layout_of, layout_type, len, mask_indices, slots_of};

use std::alloc::Global;
use tiekvorn::compute::{concatenate, filter, take};
use tiekvorn::error::Error;
use tiekvorn::{AnyArray, BooleanArray};

/// Returns whether each index is below `len`.
pub fn are_in_bounds(indices: &[usize], len: usize) -> bool
    ensures { IsTrue result ↔ AreBelow indices.now len }
{
    indices.iter().all(|index| *index < len)
}

/// Returns the slots at `indices`, in that order. An index may occur more than once.
pub fn take_rows(alloc: Global, column: &AnyArray, indices: &[usize]) -> Result<AnyArray, Error>
    requires { AreBelow indices.now (len (layout_of column.now)) }
    ensures slots { IfOk result (λ a. slots_of (layout_of a) ≡ selected (slots_of (layout_of column.now)) indices.now) }
    ensures same_type { IfOk result (λ a. layout_type (layout_of a) ≡ layout_type (layout_of column.now)) }
{
    take(alloc, column, indices)
}

/// Returns the slots where `mask` is true. A null in the mask selects nothing.
pub fn filter_rows(alloc: Global, column: &AnyArray, mask: &BooleanArray) -> Result<AnyArray, Error>
    requires { len mask.now ≡ len (layout_of column.now) }
    ensures { IfOk result (λ a. slots_of (layout_of a) ≡ selected (slots_of (layout_of column.now)) (mask_indices (slots_of mask.now))) }
{
    filter(alloc, column, mask)
}

/// Returns the slots of all columns, one after another. All must have the same data type.
pub fn concatenate_columns(alloc: Global, columns: &[AnyArray]) -> Result<AnyArray, Error> {
    concatenate(alloc, columns)
}
