//! Kernels: `take`, `filter` and `concatenate` return exactly the slots that they name, in their order.
ghost use Rattle.std.specs.Prelude.{◌≡◌, IfErr, IfOk, ◌↔◌, IsErrOf, map};
ghost use Rattle.nest_array.specs.Seen.{layout_of};
ghost use Rattle.nest_concat.specs.Joined.{AreOfOneType, IsConcatenated, RefusesConcatenate};
ghost use Rattle.nest_memory.specs.declared.error.ArgumentError.TheVariants.{ItemType};
ghost use Rattle.nest_memory.specs.declared.error.Error.TheVariants.{InvalidArgumentError};
ghost use Rattle.nest_model.specs.Meaning.{len, slots_of};
ghost use Rattle.nest_model.specs.Selected.{mask_indices};
ghost use Rattle.nest_take.specs.Indices.{AreBelow};
ghost use Rattle.nest_take.specs.Taken.{IsTaken, RefusesTake};

use nest_array::AnyArray;
use nest_flat::boolean::BooleanArray;
use nest_memory::error::Error;
use std::alloc::Global;

/// Returns the slots at some indices, in their order; an index may be repeated.
pub fn take_slots(alloc: Global, array: &AnyArray, indices: &[usize]) -> Result<AnyArray, Error>
    requires { AreBelow indices.now (len (layout_of array.now)) }
    ensures ok { IfOk result (λ a. IsTaken (layout_of array.now) indices.now (layout_of a)) }
    ensures err { IfErr result (λ e. RefusesTake e (layout_of array.now) indices.now) }
{
    nest_take::take(alloc, array, indices)
}

/// Returns the slots where a mask is true; a null of the mask is not true.
pub fn filter_slots(alloc: Global, array: &AnyArray, mask: &BooleanArray) -> Result<AnyArray, Error>
    requires { len mask.now ≡ len (layout_of array.now) }
    ensures ok { IfOk result (λ a. IsTaken (layout_of array.now) (mask_indices (slots_of mask.now)) (layout_of a)) }
    ensures err { IfErr result (λ e. RefusesTake e (layout_of array.now) (mask_indices (slots_of mask.now))) }
{
    nest_take::filter(alloc, array, mask)
}

/// Returns the slots of all arrays in order, of the data type of the first. Fails for arrays of different data types, for too
/// many rows, items or bytes, and when an allocation fails.
pub fn concatenate_slots(alloc: Global, arrays: &[AnyArray]) -> Result<AnyArray, Error>
    ensures ok { IfOk result (λ a. IsConcatenated (map layout_of arrays.now) (layout_of a)) }
    ensures types { IsErrOf result (InvalidArgumentError ItemType) ↔ (AreOfOneType (map layout_of arrays.now) → ⊥) }
    ensures err { IfErr result (λ e. RefusesConcatenate e (map layout_of arrays.now)) }
{
    nest_concat::concatenate(alloc, arrays)
}
