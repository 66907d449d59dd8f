//! Operations on each child of a builder, in order.
ghost use Rattle.std.specs.Prelude.{◌≡◌, ◌≤◌, ◌<◌, ◌+◌, ◌++◌, ◌∷◌, [], ◌↔◌, ◌⊎◌, IsTrue, OnOk, OnErr, IfOk, IfErr, IsOk, IsOkUnless, true, false, alloc_error};
ghost use Rattle.nest_memory.specs.TypeOf.{field_list_of};
ghost use Rattle.nest_any.specs.Trees.{tree_of, trees_of};
ghost use Rattle.nest_any.specs.Words.{AreEachLong, AreEachComplete, AreFrozen, AreComplete, HaveRows, IsComplete, Memory, Overflow, builder_types, count_builders, truncate_builders, emptied_each, field_types, first_rows, largest_length, layouts_of, nulls_appended, nulls_appended_each, nulls_pass, nulls_pass_each, reserve_passes_each};

use crate::any::AnyMutableArray;
use nest_array::AnyArray;
use nest_build::array::MutableArray;
use nest_memory::datatypes::field::Field;
use nest_memory::error::Error;
use std::alloc::Global;

/// Returns whether the children have the types of the fields, in order.
pub(crate) fn have_types(fields: &[Field], children: &[AnyMutableArray]) -> bool
    ensures { IsTrue result ↔ (builder_types (trees_of children.now) ≡ field_types (field_list_of fields.now)) }
{
    if fields.len() != children.len() {
        return false;
    }
    for i in 0..fields.len() {
        let same = *fields[i].data_type() == *children[i].data_type();
        if !same {
            return false;
        }
    }
    true
}

/// Returns the number of rows of the first child.
pub(crate) fn first_rows(children: &[AnyMutableArray]) -> usize
    ensures { result ≡ first_rows (trees_of children.now) }
{
    match children {
        [] => 0,
        [first, ..] => first.len(),
    }
}

/// Returns whether each child has `n` rows.
pub(crate) fn have_rows(children: &[AnyMutableArray], n: usize) -> bool
    ensures { IsTrue result ↔ HaveRows (trees_of children.now) n }
{
    for i in 0..children.len() {
        if children[i].len() != n {
            return false;
        }
    }
    true
}

/// Returns whether each child has its field's type and `n` + 1 rows.
pub(crate) fn are_ready(fields: &[Field], children: &[AnyMutableArray], n: usize) -> bool
    ensures types { IsTrue result → builder_types (trees_of children.now) ≡ field_types (field_list_of fields.now) }
    ensures rows { IsTrue result → HaveRows (trees_of children.now) (n + 1) }
    ensures ready { builder_types (trees_of children.now) ≡ field_types (field_list_of fields.now) → HaveRows (trees_of children.now) (n + 1) → IsTrue result }
    ensures room { IsTrue result → 0 < count_builders (trees_of children.now) → n + 1 ≤ largest_length }
{
    if fields.len() != children.len() {
        return false;
    }
    for i in 0..fields.len() {
        let (data_type, len) = children[i].typed_len();
        if len.checked_sub(1) != Some(n) {
            return false;
        }
        let same = *fields[i].data_type() == *data_type;
        if !same {
            return false;
        }
    }
    true
}

/// Returns whether each child is complete.
pub(crate) fn are_complete(children: &[AnyMutableArray]) -> bool
    ensures { IsTrue result ↔ AreEachComplete (trees_of children.now) }
{
    for i in 0..children.len() {
        if !children[i].complete() {
            return false;
        }
    }
    true
}

/// Returns whether each child is complete and has `n` rows.
#[cycle(complete)]
pub(crate) fn each_is_complete(children: &[AnyMutableArray], n: usize) -> bool
    ensures { IsTrue result ↔ AreComplete (trees_of children.now) n }
{
    for i in 0..children.len() {
        let child = &children[i];
        if !child.complete() || child.len() != n {
            return false;
        }
    }
    true
}

/// Appends a null to a builder of any type. The contract is an equation of trees.
pub(crate) fn add_null_to<B: MutableArray>(builder: &mut B) -> Result<(), Error>
    requires { IsComplete (B.model builder.old) }
    ensures ok { OnOk result (B.model builder.new ≡ nulls_appended 1 (B.model builder.old)) }
    ensures room { OnOk result (nulls_pass 1 (B.model builder.old) ≡ false) }
    ensures err { OnErr result (B.model builder.new ≡ B.model builder.old) }
    ensures cause { IfErr result (λ e. (e ≡ Memory alloc_error) ⊎ ((e ≡ Overflow) × (nulls_pass 1 (B.model builder.old) ≡ true))) }
{
    builder.push_null()
}

/// Appends `n` nulls to a child, all of them or none.
#[cycle(null)]
pub(crate) fn add_nulls(child: &mut AnyMutableArray, n: usize) -> Result<(), Error>
    requires { IsComplete (tree_of child.old) }
    ensures ok { OnOk result (tree_of child.new ≡ nulls_appended n (tree_of child.old)) }
    ensures room { OnOk result (0 < n → nulls_pass n (tree_of child.old) ≡ false) }
    ensures err { OnErr result (tree_of child.new ≡ tree_of child.old) }
    ensures cause { IfErr result (λ e. (e ≡ Memory alloc_error) ⊎ ((e ≡ Overflow) × (nulls_pass n (tree_of child.old) ≡ true) × (0 < n))) }
{
    let len = child.len();
    for _i in 0..n {
        match child.add_null() {
            Ok(()) => {}
            Err(error) => {
                child.cut(len);
                return Err(error);
            }
        }
    }
    Ok(())
}

/// Appends a null to each child of `n` rows, to all of them or none.
#[cycle(null)]
pub(crate) fn add_null_each(children: &mut [AnyMutableArray], n: usize) -> Result<(), Error>
    requires { AreComplete (trees_of children.old) n }
    ensures ok { OnOk result (trees_of children.new ≡ nulls_appended_each 1 (trees_of children.old)) }
    ensures room { OnOk result (nulls_pass_each 1 (trees_of children.old) ≡ false) }
    ensures err { OnErr result (trees_of children.new ≡ trees_of children.old) }
    ensures cause { IfErr result (λ e. (e ≡ Memory alloc_error) ⊎ ((e ≡ Overflow) × (nulls_pass_each 1 (trees_of children.old) ≡ true))) }
{
    for i in 0..children.len() {
        match children[i].add_null() {
            Ok(()) => {}
            Err(error) => {
                cut_each(children, n);
                return Err(error);
            }
        }
    }
    Ok(())
}

/// Keeps the first `n` rows of each child.
#[cycle(cut)]
pub(crate) fn cut_each(children: &mut [AnyMutableArray], n: usize)
    requires { AreEachLong (trees_of children.old) n }
    ensures { trees_of children.new ≡ truncate_builders (trees_of children.old) n }
{
    for i in 0..children.len() {
        children[i].cut(n);
    }
}

/// Reserves capacity for at least `additional` more rows in each child.
#[cycle(room)]
pub(crate) fn room_each(children: &mut [AnyMutableArray], additional: usize) -> Result<(), Error>
    ensures same { trees_of children.new ≡ trees_of children.old }
    ensures room { OnOk result (reserve_passes_each additional (trees_of children.old) ≡ false) }
    ensures cause { IfErr result (λ e. (e ≡ Memory alloc_error) ⊎ ((e ≡ Overflow) × (reserve_passes_each additional (trees_of children.old) ≡ true))) }
{
    for i in 0..children.len() {
        if let Err(refusal) = children[i].room(additional) {
            return Err(refusal);
        }
    }
    Ok(())
}

#[cycle(shrink)]
pub(crate) fn shrink_each(children: &mut [AnyMutableArray]) -> Result<(), Error>
    ensures same { trees_of children.new ≡ trees_of children.old }
    ensures memory { IsOkUnless result (Memory alloc_error) }
{
    for i in 0..children.len() {
        if let Err(error) = children[i].shrink() {
            return Err(error);
        }
    }
    Ok(())
}

/// Returns the arrays of the children. The children have no rows afterwards, also after `Memory`.
#[cycle(frozen)]
pub(crate) fn frozen_each(
    alloc: Global,
    children: &mut [AnyMutableArray],
) -> Result<Vec<AnyArray>, Error>
    requires { AreEachComplete (trees_of children.old) }
    ensures ok { IfOk result (λ arrays. AreFrozen (layouts_of arrays.items) (trees_of children.old)) }
    ensures emptied { trees_of children.new ≡ emptied_each (trees_of children.old) }
    ensures memory { IsOkUnless result (Memory alloc_error) }
{
    let mut arrays = Ok(Vec::new(alloc));
    for i in 0..children.len() {
        let array = children[i].frozen();
        arrays = with_array(arrays, array);
    }
    arrays
}

/// Appends an array, or returns the error of either result.
fn with_array(
    arrays: Result<Vec<AnyArray>, Error>,
    array: Result<AnyArray, Error>,
) -> Result<Vec<AnyArray>, Error>
    requires arrays { IsOkUnless arrays (Memory alloc_error) }
    requires array { IsOkUnless array (Memory alloc_error) }
    ensures ok { IfOk result (λ v. IfOk arrays (λ old. IfOk array (λ a. v.items ≡ old.items ++ a ∷ []))) }
    ensures both { IfOk result (λ v. IsOk arrays × IsOk array) }
    ensures memory { IsOkUnless result (Memory alloc_error) }
{
    match arrays {
        Ok(mut arrays) => match array {
            Ok(array) => {
                arrays.push(array)?;
                Ok(arrays)
            }
            Err(error) => {
                drop(arrays);
                Err(error)
            }
        },
        Err(error) => {
            drop(array);
            Err(error)
        }
    }
}
