//! `interleave`: slots of several arrays in any order.
ghost use Rattle.std.specs.Prelude.{◌≡◌, ◌<◌, ◌↔◌, IfErr, IfOk, IsErrOf, IsOkUnless, alloc_error, length, map};
ghost use Rattle.nest_array.specs.Seen.{layout_of};
ghost use Rattle.nest_concat.specs.Words.{AreOfOneType, AreIndicesOf, AreWithin, InvalidArgumentError, IsInterleaved, ItemType, Memory, RefusesInterleave, first_array, layout_type, slot_windows};

use crate::any::join;
use crate::arrays::are_of_one_type;
use nest_array::{AnyArray, Window};
use nest_memory::error::{ArgumentError, Error};
use std::alloc::Global;

/// Returns an empty window over the first array, and a window over each slot at `indices`.
fn windows<'a>(
    alloc: Global,
    arrays: &'a [AnyArray],
    indices: &[(usize, usize)],
) -> Result<Vec<Window<'a>>, Error>
    requires some { 0 < length arrays.now }
    requires indices { AreIndicesOf (map layout_of arrays.now) indices.now }
    ensures ok { IfOk result (λ v. v.items ≡ slot_windows (map layout_of arrays.now) indices.now) }
    ensures within { AreOfOneType (map layout_of arrays.now) → IfOk result (λ v. AreWithin (layout_type (first_array v.items)) v.items) }
    ensures err { IsOkUnless result (Memory alloc_error) }
{
    let mut windows = Vec::with_capacity(alloc, indices.len() + 1)?;
    let first = &arrays[0];
    first.known();
    windows.push_reserved(Window::new(first, 0, 0));
    for place in indices {
        let (k, i) = *place;
        let array = &arrays[k];
        array.known();
        windows.push_reserved(Window::new(array, i, 1));
    }
    Ok(windows)
}

/// Returns the slots at `indices`, in that order: slot `i` of array `k` for `(k, i)`. A slot may occur more than once.
///
/// The result has the data type of the arrays.
///
/// # Errors
/// `InvalidArgumentError(ItemType)` where there is no array or the data types differ.
///
/// `Overflow` and `Memory` as for [`concatenate`](crate::concatenate) of those slots.
pub fn interleave(
    alloc: Global,
    arrays: &[AnyArray],
    indices: &[(usize, usize)],
) -> Result<AnyArray, Error>
    requires { AreIndicesOf (map layout_of arrays.now) indices.now }
    ensures ok { IfOk result (λ a. IsInterleaved (map layout_of arrays.now) indices.now (layout_of a)) }
    ensures types { IsErrOf result (InvalidArgumentError ItemType) ↔ (AreOfOneType (map layout_of arrays.now) → ⊥) }
    ensures err { IfErr result (λ e. RefusesInterleave e (map layout_of arrays.now) indices.now) }
{
    if !are_of_one_type(arrays) {
        return Err(Error::InvalidArgumentError(ArgumentError::ItemType));
    }
    let windows = windows(alloc, arrays, indices)?;
    join(alloc, &windows)
}
