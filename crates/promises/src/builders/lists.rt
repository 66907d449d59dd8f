//! Builders of lists and fixed-size lists: their child, and rows of the child's items.
ghost use Rattle.std.specs.Option.{option_copied};
ghost use Rattle.std.specs.Prelude.{◌≡◌, ◌⊎◌, [], true, OnOk, OnErr, IfOk, IfErr, None, alloc_error};
ghost use Rattle.nest_build.specs.Children.{list_child, with_items};
ghost use Rattle.nest_build.specs.Lists.{new_fixed_checks, new_list_checks};
ghost use Rattle.nest_build.specs.Slices.{row_item};
ghost use Rattle.nest_memory.specs.TypeOf.{type_of};
ghost use Rattle.nest_memory.specs.declared.error.Error.TheVariants.{Memory};
ghost use Rattle.nest_model.specs.BuilderAppend.{Accepted};
ghost use Rattle.nest_model.specs.BuilderItem.{null as null_item};
ghost use Rattle.nest_model.specs.BuilderRefusals.{item_refusal};
ghost use Rattle.nest_model.specs.BuilderAddRow.{HasCompleteChildren, RowAdded, RowsAdded, lengths_checks, row_checks};
ghost use Rattle.nest_model.specs.BuilderTree as builders;
ghost use Rattle.nest_model.specs.BuilderComplete.{IsComplete};
ghost use Rattle.nest_model.specs.Checks.{FailFirst, Pass};
ghost use Rattle.promises.specs.Refusals.{IsRefusal};

use nest_build::array::MutableArray;
use nest_build::fixed_size_list::MutableFixedSizeListArray;
use nest_build::flat::{FlatBuilder, TakesValue};
use nest_build::list::MutableListArray;
use nest_build::list::width::ListWidth;
use nest_flat::plain::AsPlain;
use nest_memory::datatypes::DataType;
use nest_memory::error::Error;
use std::alloc::Global;

/// Returns a builder of lists without rows over a child without rows, or the error of the first check that fails.
pub fn new_list_builder<O: ListWidth, M: MutableArray>(
    alloc: Global,
    values: M,
    data_type: DataType,
    capacity: usize,
) -> Result<MutableListArray<O, M>, Error>
    requires { IsComplete (M.model values) }
    ensures ok { let tree = ⟦<MutableListArray<O, M> as MutableArray>⟧.model in
        IfOk result (λ b. tree b ≡ builders.list O.IS_LARGE (type_of data_type) [] (M.model values)) }
    ensures checks { IfOk result (λ b. Pass (new_list_checks O.IS_LARGE (type_of data_type) (M.model values))) }
    ensures refused { IfErr result (λ e. (e ≡ Memory alloc_error) ⊎ FailFirst e (new_list_checks O.IS_LARGE (type_of data_type) (M.model values))) }
{
    MutableListArray::new_from(alloc, values, data_type, capacity)
}

/// Returns a builder of fixed-size lists without rows over a child without rows.
pub fn new_fixed_size_list_builder<M: MutableArray>(
    alloc: Global,
    values: M,
    data_type: DataType,
    size: usize,
) -> Result<MutableFixedSizeListArray<M>, Error>
    requires { IsComplete (M.model values) }
    ensures ok { let tree = ⟦<MutableFixedSizeListArray<M> as MutableArray>⟧.model in
        IfOk result (λ b. tree b ≡ builders.fixed_size_list (type_of data_type) [] (M.model values)) }
    ensures checks { IfOk result (λ b. Pass (new_fixed_checks size (type_of data_type) (M.model values))) }
    ensures refused { IfErr result (λ e. FailFirst e (new_fixed_checks size (type_of data_type) (M.model values))) }
{
    MutableFixedSizeListArray::new_from(alloc, values, data_type, size)
}

/// Appends a null to the child: it is in no row yet, and the rows stay.
pub fn push_into_list_child<O: ListWidth, M: MutableArray>(
    lists: &mut MutableListArray<O, M>,
) -> Result<(), Error>
    requires { IsComplete (list_child (⟦<MutableListArray<O, M> as MutableArray>⟧.model lists.old)) }
    ensures rows { let tree = ⟦<MutableListArray<O, M> as MutableArray>⟧.model in
        tree lists.new ≡ with_items (tree lists.old) (list_child (tree lists.new)) }
    ensures accepted { let tree = ⟦<MutableListArray<O, M> as MutableArray>⟧.model in
        OnOk result (Accepted null_item (list_child (tree lists.old)) (list_child (tree lists.new))) }
    ensures err { let tree = ⟦<MutableListArray<O, M> as MutableArray>⟧.model in
        OnErr result (tree lists.new ≡ tree lists.old) }
{
    lists.mut_values().push_null()
}

/// Appends a null to the child of a builder of fixed-size lists.
pub fn push_into_fixed_size_list_child<M: MutableArray>(
    lists: &mut MutableFixedSizeListArray<M>,
) -> Result<(), Error>
    requires { IsComplete (list_child (⟦<MutableFixedSizeListArray<M> as MutableArray>⟧.model lists.old)) }
    ensures rows { let tree = ⟦<MutableFixedSizeListArray<M> as MutableArray>⟧.model in
        tree lists.new ≡ with_items (tree lists.old) (list_child (tree lists.new)) }
    ensures accepted { let tree = ⟦<MutableFixedSizeListArray<M> as MutableArray>⟧.model in
        OnOk result (Accepted null_item (list_child (tree lists.old)) (list_child (tree lists.new))) }
    ensures err { let tree = ⟦<MutableFixedSizeListArray<M> as MutableArray>⟧.model in
        OnErr result (tree lists.new ≡ tree lists.old) }
{
    lists.mut_values().push_null()
}

/// Appends a row of the child's items that are in no row yet. On an error they stay so.
pub fn push_list_row<O: ListWidth, M: MutableArray>(
    lists: &mut MutableListArray<O, M>,
) -> Result<(), Error>
    requires { HasCompleteChildren (⟦<MutableListArray<O, M> as MutableArray>⟧.model lists.old) }
    ensures ok { let tree = ⟦<MutableListArray<O, M> as MutableArray>⟧.model in
        OnOk result (RowAdded true (tree lists.old) (tree lists.new)) }
    ensures checks { OnOk result (Pass (row_checks (⟦<MutableListArray<O, M> as MutableArray>⟧.model lists.old))) }
    ensures err { let tree = ⟦<MutableListArray<O, M> as MutableArray>⟧.model in
        OnErr result (tree lists.new ≡ tree lists.old) }
    ensures refused { let tree = ⟦<MutableListArray<O, M> as MutableArray>⟧.model in
        IfErr result (λ e. (e ≡ Memory alloc_error) ⊎ FailFirst e (row_checks (tree lists.old))) }
{
    lists.try_push_valid()
}

/// Appends rows of these lengths, or none; a row without a length is null.
pub fn push_list_rows<O: ListWidth, M: MutableArray>(
    lists: &mut MutableListArray<O, M>,
    lengths: &[Option<usize>],
) -> Result<(), Error>
    requires { HasCompleteChildren (⟦<MutableListArray<O, M> as MutableArray>⟧.model lists.old) }
    ensures ok { let tree = ⟦<MutableListArray<O, M> as MutableArray>⟧.model in
        OnOk result (RowsAdded lengths.now (tree lists.old) (tree lists.new)) }
    ensures checks { let tree = ⟦<MutableListArray<O, M> as MutableArray>⟧.model in
        OnOk result (Pass (lengths_checks lengths.now (tree lists.old))) }
    ensures err { let tree = ⟦<MutableListArray<O, M> as MutableArray>⟧.model in
        OnErr result (tree lists.new ≡ tree lists.old) }
    ensures refused { let tree = ⟦<MutableListArray<O, M> as MutableArray>⟧.model in
        IfErr result (λ e. (e ≡ Memory alloc_error) ⊎ FailFirst e (lengths_checks lengths.now (tree lists.old))) }
{
    lists.try_extend_from_lengths(lengths)
}

/// Appends a row of a fixed-size list builder.
pub fn push_fixed_size_list_row<M: MutableArray>(
    lists: &mut MutableFixedSizeListArray<M>,
) -> Result<(), Error>
    requires { HasCompleteChildren (⟦<MutableFixedSizeListArray<M> as MutableArray>⟧.model lists.old) }
    ensures ok { let tree = ⟦<MutableFixedSizeListArray<M> as MutableArray>⟧.model in
        OnOk result (RowAdded true (tree lists.old) (tree lists.new)) }
    ensures checks { OnOk result (Pass (row_checks (⟦<MutableFixedSizeListArray<M> as MutableArray>⟧.model lists.old))) }
    ensures err { let tree = ⟦<MutableFixedSizeListArray<M> as MutableArray>⟧.model in
        OnErr result (tree lists.new ≡ tree lists.old) }
    ensures refused { let tree = ⟦<MutableFixedSizeListArray<M> as MutableArray>⟧.model in
        IfErr result (λ e. (e ≡ Memory alloc_error) ⊎ FailFirst e (row_checks (tree lists.old))) }
{
    lists.try_push_valid()
}

/// Appends a row to a builder of lists over a flat child: null, or the list of the values of a slice.
pub fn push_list_of_values<O: ListWidth, A: AsPlain + Copy + Drop, M: FlatBuilder + TakesValue<A>>(
    lists: &mut MutableListArray<O, M>,
    row: Option<&[Option<A>]>,
) -> Result<(), Error>
    requires { IsComplete (⟦<MutableListArray<O, M> as MutableArray>⟧.model lists.old) }
    ensures accepted { let tree = ⟦<MutableListArray<O, M> as MutableArray>⟧.model in
        OnOk result (Accepted (row_item A.value (option_copied row.entry)) (tree lists.old) (tree lists.new)) }
    ensures no_error { let tree = ⟦<MutableListArray<O, M> as MutableArray>⟧.model in
        OnOk result (item_refusal (row_item A.value (option_copied row.entry)) (tree lists.old) ≡ None) }
    ensures err { let tree = ⟦<MutableListArray<O, M> as MutableArray>⟧.model in
        OnErr result (tree lists.new ≡ tree lists.old) }
    ensures refused { let tree = ⟦<MutableListArray<O, M> as MutableArray>⟧.model in
        IfErr result (IsRefusal (item_refusal (row_item A.value (option_copied row.entry)) (tree lists.old))) }
{
    lists.try_push_slice(row)
}

/// Appends such a row to a builder of fixed-size lists.
pub fn push_fixed_size_list_of_values<A: AsPlain + Copy + Drop, M: FlatBuilder + TakesValue<A>>(
    lists: &mut MutableFixedSizeListArray<M>,
    row: Option<&[Option<A>]>,
) -> Result<(), Error>
    requires { IsComplete (⟦<MutableFixedSizeListArray<M> as MutableArray>⟧.model lists.old) }
    ensures accepted { let tree = ⟦<MutableFixedSizeListArray<M> as MutableArray>⟧.model in
        OnOk result (Accepted (row_item A.value (option_copied row.entry)) (tree lists.old) (tree lists.new)) }
    ensures no_error { let tree = ⟦<MutableFixedSizeListArray<M> as MutableArray>⟧.model in
        OnOk result (item_refusal (row_item A.value (option_copied row.entry)) (tree lists.old) ≡ None) }
    ensures err { let tree = ⟦<MutableFixedSizeListArray<M> as MutableArray>⟧.model in
        OnErr result (tree lists.new ≡ tree lists.old) }
    ensures refused { let tree = ⟦<MutableFixedSizeListArray<M> as MutableArray>⟧.model in
        IfErr result (IsRefusal (item_refusal (row_item A.value (option_copied row.entry)) (tree lists.old))) }
{
    lists.try_push_slice(row)
}
