//! Rows by index.
ghost use Rattle.std.specs.Prelude.{◌≡◌, ◌≤◌, ◌<◌, ◌+◌, IfOk, get_or, length};
ghost use Rattle.cli_rows.specs.RowOffsets.{AreRowOffsets, IsLocation};

use nest_array::AnyArray;
use std::alloc::{AllocError, Global};

/// Returns the number of rows before each array, up to 2^64 rows.
pub fn row_offsets(alloc: Global, arrays: &[AnyArray]) -> Result<Vec<usize>, AllocError>
    ensures { IfOk result (λ v. AreRowOffsets v.items arrays.now) }
{
    let mut offsets = Vec::new(alloc);
    let mut rows = 0usize;
    for array in arrays {
        offsets.push(rows)?;
        let Some(more) = rows.checked_add(array.len()) else {
            return Ok(offsets);
        };
        rows = more;
    }
    Ok(offsets)
}

/// Returns the position of the last offset that is at most `index`, by binary search.
fn last_offset(offsets: &[usize], index: usize) -> usize
    requires some { 0 < length offsets.now }
    requires first { get_or offsets.now 0 0 ≡ 0 }
    ensures within { result < length offsets.now }
    ensures at_most { get_or offsets.now result 0 ≤ index }
    ensures last { result + 1 < length offsets.now → index < get_or offsets.now (result + 1) 0 }
{
    let mut low = 0;
    let mut high = offsets.len();
    'halves: while high - low > 1 {
        let middle = low + (high - low) / 2;
        if offsets[middle] <= index {
            low = middle;
        } else {
            high = middle;
        }
    }
    low
}

/// Returns the array that contains the row at an index and the position of the row in the array, or `None` if the index is out of range.
pub fn locate(offsets: &[usize], arrays: &[AnyArray], index: usize) -> Option<(usize, usize)>
    requires { AreRowOffsets offsets.now arrays.now }
    ensures { IsLocation arrays.now index result }
{
    if offsets.is_empty() {
        return None;
    }
    let k = last_offset(offsets, index);
    let i = index - offsets[k];
    if i < arrays[k].len() {
        Some((k, i))
    } else {
        None
    }
}
