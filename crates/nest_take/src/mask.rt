//! `filter`: slots where a Boolean mask is true.
ghost use Rattle.std.specs.Prelude.{◌≡◌, IfErr, IfOk, IsOkUnless, alloc_error};
ghost use Rattle.nest_model.specs.Selected.{mask_indices};
ghost use Rattle.nest_array.specs.Seen.{layout_of};
ghost use Rattle.nest_take.specs.Words.{IsTaken, Memory, RefusesTake, len, slots_of};

use crate::any::take;
use nest_array::AnyArray;
use nest_flat::boolean::BooleanArray;
use nest_memory::error::Error;
use std::alloc::Global;

/// Returns the slots of an array where a mask of the same length is true, in order. Nulls of the mask select nothing.
///
/// The result has the data type of `array`.
///
/// # Errors
/// Those of [`take`](crate::take) at these indices.
pub fn filter(alloc: Global, array: &AnyArray, mask: &BooleanArray) -> Result<AnyArray, Error>
    requires { len mask.now ≡ len (layout_of array.now) }
    ensures ok { IfOk result (λ a. IsTaken (layout_of array.now) (mask_indices (slots_of mask.now)) (layout_of a)) }
    ensures err { IfErr result (λ e. RefusesTake e (layout_of array.now) (mask_indices (slots_of mask.now))) }
{
    let indices = indices_of(alloc, mask)?;
    take(alloc, array, &indices)
}

/// Returns the indices where a mask is true, in ascending order.
fn indices_of(alloc: Global, mask: &BooleanArray) -> Result<Vec<usize>, Error>
    ensures ok { IfOk result (λ v. v.items ≡ mask_indices (slots_of mask.now)) }
    ensures err { IsOkUnless result (Memory alloc_error) }
{
    let mut indices = Vec::new(alloc);
    for i in 0..mask.len() {
        if mask.get(i).unwrap_or(false) {
            indices.push(i)?;
        }
    }
    Ok(indices)
}
