//! `take` for union arrays.
ghost use Rattle.std.specs.Prelude.{◌≡◌, ◌⊎◌, ◌<◌, ◌≤◌, ℕ, IfErr, IfOk, IsOkUnless, None, Some, alloc_error, get_or, length, map, option_map, pos};
ghost use Rattle.nest_memory.specs.TypeTree.{ids_of};
ghost use Rattle.nest_model.specs.Accessors.{children_of, start_of, types_of, union_offsets_of};
ghost use Rattle.nest_model.specs.Fits.{Fits};
ghost use Rattle.nest_model.specs.Layout as layouts;
ghost use Rattle.nest_model.specs.Layout.{count_layouts};
ghost use Rattle.nest_model.specs.Meaning.{union_index};
ghost use Rattle.nest_array.specs.Seen.{layout_of, layouts_of};
ghost use Rattle.nest_take.specs.Words.{AreBelow, EachPicked, IsTaken, Memory, Overflow, PicksPass, RefusesTake, layout_type, len, offsets_in, pick_indices, type_of};

use crate::any::take;
use crate::indices;
use crate::struct_::take_all;
use nest_array::{AnyArray, UnionArray};
use nest_memory::buffer::Buffer;
use nest_memory::datatypes::DataType;
use nest_memory::error::Error;
use std::alloc::Global;

/// Takes the slots at `indices`.
#[cycle(take)]
#[inline(never)]
pub(crate) fn take_picks(
    alloc: Global,
    array: &UnionArray,
    indices: &[usize],
) -> Result<AnyArray, Error>
    requires { AreBelow indices.now (len array.now) }
    ensures ok { IfOk result (λ a. IsTaken array.now indices.now (layout_of a)) }
    ensures err { IfErr result (λ e. RefusesTake e array.now indices.now) }
{
    if array.offsets().is_some() {
        take_dense(alloc, array, indices)
    } else {
        take_sparse(alloc, array, indices)
    }
}

/// Takes slots of a sparse union: each child at the indices of all these slots.
#[cycle(take)]
fn take_sparse(alloc: Global, array: &UnionArray, indices: &[usize]) -> Result<AnyArray, Error>
    requires within { AreBelow indices.now (len array.now) }
    requires sparse { union_offsets_of array.now ≡ None }
    ensures ok { IfOk result (λ a. IsTaken array.now indices.now (layout_of a)) }
    ensures err { IfErr result (λ e. RefusesTake e array.now indices.now) }
{
    array.known();
    let types = indices::values_at(alloc, array.types().as_slice(), indices)?;
    let slots = slots_in_fields(alloc, array, indices)?;
    match take_all(alloc, array.fields(), &slots) {
        Ok(fields) => array_of(alloc, array.data_type(), types, fields, None),
        Err(error) => Err(error),
    }
}

/// Returns the index that each slot at `indices` has in its field.
fn slots_in_fields(
    alloc: Global,
    array: &UnionArray,
    indices: &[usize],
) -> Result<Vec<usize>, Error>
    requires { AreBelow indices.now (len array.now) }
    ensures ok { IfOk result (λ v. v.items ≡ map (union_index (union_offsets_of array.now) (start_of array.now)) indices.now) }
    ensures err { IsOkUnless result (Memory alloc_error) }
{
    let mut slots = Vec::with_capacity(alloc, indices.len())?;
    for place in indices {
        slots.push_reserved(array.index(*place).1);
    }
    Ok(slots)
}

/// Takes slots of a dense union: each child at the offsets that pick it, in order.
#[cycle(take)]
fn take_dense(alloc: Global, array: &UnionArray, indices: &[usize]) -> Result<AnyArray, Error>
    requires within { AreBelow indices.now (len array.now) }
    requires dense { union_offsets_of array.now ≡ None → ⊥ }
    ensures ok { IfOk result (λ a. IsTaken array.now indices.now (layout_of a)) }
    ensures err { IfErr result (λ e. RefusesTake e array.now indices.now) }
{
    array.known();
    count_picks(array, indices)?;
    let types = indices::values_at(alloc, array.types().as_slice(), indices)?;
    let offsets = new_offsets(alloc, array, indices)?;
    match take_fields(alloc, array, indices) {
        Ok(fields) => array_of(alloc, array.data_type(), types, fields, Some(offsets)),
        Err(error) => Err(error),
    }
}

/// Checks the number of picks of each field.
///
/// # Errors
/// `Overflow` where a field has more than 2^31 picks.
fn count_picks(array: &UnionArray, indices: &[usize]) -> Result<(), Error>
    requires within { AreBelow indices.now (len array.now) }
    requires dense { union_offsets_of array.now ≡ None → ⊥ }
    ensures ok { IfOk result (λ _. (f : ℕ) → length (pick_indices array.now f indices.now) ≤ 2147483648) }
    ensures err { IfErr result (λ e. (e ≡ Overflow) × PicksPass (λ f. pick_indices array.now f indices.now) 0 (children_of array.now)) }
{
    array.known();
    let mut counts = [0_u32; 128];
    for place in indices {
        let (field, _) = array.index(*place);
        if counts[field] > 2147483647 {
            return Err(Error::Overflow);
        }
        counts[field] += 1;
    }
    Ok(())
}

/// Returns the new offset of each pick: the number of earlier picks of its field.
fn new_offsets(alloc: Global, array: &UnionArray, indices: &[usize]) -> Result<Buffer<i32>, Error>
    requires within { AreBelow indices.now (len array.now) }
    requires dense { union_offsets_of array.now ≡ None → ⊥ }
    requires few { (f : ℕ) → length (pick_indices array.now f indices.now) ≤ 2147483648 }
    ensures ok { IfOk result (λ b. b ≡ offsets_in array.now indices.now) }
    ensures err { IsOkUnless result (Memory alloc_error) }
{
    array.known();
    let mut counts = [0_u32; 128];
    let mut offsets = Vec::with_capacity(alloc, indices.len())?;
    for place in indices {
        let (field, _) = array.index(*place);
        offsets.push_reserved(counts[field] as i32);
        counts[field] += 1;
    }
    Buffer::from_vec(alloc, offsets)
}

/// Takes each field at the offsets that pick it.
#[cycle(take)]
fn take_fields(alloc: Global, array: &UnionArray, indices: &[usize]) -> Result<Vec<AnyArray>, Error>
    requires within { AreBelow indices.now (len array.now) }
    requires dense { union_offsets_of array.now ≡ None → ⊥ }
    ensures ok { IfOk result (λ v. EachPicked (λ f. pick_indices array.now f indices.now) 0 (children_of array.now) (layouts_of v.items)) }
    ensures err { IfErr result (λ e. (e ≡ Memory alloc_error) ⊎ ((e ≡ Overflow) × PicksPass (λ f. pick_indices array.now f indices.now) 0 (children_of array.now))) }
{
    array.known();
    let fields = array.fields();
    let mut taken = Vec::with_capacity(alloc, fields.len())?;
    for f in 0..fields.len() {
        let picks = picks_of(alloc, array, f, indices)?;
        match take(alloc, &fields[f], &picks) {
            Ok(field) => taken.push_reserved(field),
            Err(error) => return Err(error),
        }
    }
    Ok(taken)
}

/// Returns the offsets at which the slots at `indices` pick a field.
fn picks_of(
    alloc: Global,
    array: &UnionArray,
    field: usize,
    indices: &[usize],
) -> Result<Vec<usize>, Error>
    requires within { AreBelow indices.now (len array.now) }
    requires dense { union_offsets_of array.now ≡ None → ⊥ }
    ensures ok { IfOk result (λ v. v.items ≡ pick_indices array.now field indices.now) }
    ensures err { IsOkUnless result (Memory alloc_error) }
{
    array.known();
    let mut picks = Vec::new(alloc);
    for place in indices {
        let (picked, slot) = array.index(*place);
        if picked == field {
            picks.push(slot)?;
        }
    }
    Ok(picks)
}

/// Returns the array with these parts.
fn array_of(
    alloc: Global,
    data_type: &DataType,
    types: Buffer<i8>,
    fields: Vec<AnyArray>,
    offsets: Option<Buffer<i32>>,
) -> Result<AnyArray, Error>
    requires { Fits (layouts.union (type_of data_type.now) types (layouts_of fields.items) offsets 0) }
    ensures ok { IfOk result (λ a. layout_of a ≡ layouts.union (type_of data_type.now) types (layouts_of fields.items) offsets 0) }
    ensures err { IsOkUnless result (Memory alloc_error) }
{
    match data_type.clone(alloc) {
        Ok(data_type) => {
            let array = UnionArray::new(data_type, types, fields, offsets);
            Ok(AnyArray::Union(array))
        }
        Err(error) => {
            drop(offsets);
            drop(fields);
            drop(types);
            Err(error)
        }
    }
}
