//! Builders of any kind as one enum, and builders of structs. Both do what [`crate::builders::rows`] says of every builder.
ghost use Rattle.std.specs.Borrow.{LendsIf, sem};
ghost use Rattle.std.specs.Prelude.{◌≡◌, ◌↔◌, ◌⊎◌, ℕ, OnOk, OnErr, IfErr, IfOk, IsErrOf, IsTrue, MatchResult, None, Some, option_map, alloc_error};
ghost use Rattle.nest_any.specs.Dictionaries.{dictionary_tree};
ghost use Rattle.nest_any.specs.Lent.{as_list, as_struct, child_builder};
ghost use Rattle.nest_any.specs.Refusals.{nested_checks, nested_over, struct_checks, struct_over};
ghost use Rattle.nest_any.specs.Trees.{tree_of, trees_of};
ghost use Rattle.nest_any.specs.contracts.any.AnyMutableArray.{the_row as any_row};
ghost use Rattle.nest_any.specs.contracts.lists.ListBuilder.{the_row as list_row};
ghost use Rattle.nest_any.specs.contracts.struct_.MutableStructArray.{the_row as struct_row};
ghost use Rattle.nest_any.specs.declared.any.AnyMutableArray.TheVariants.{List, Struct};
ghost use Rattle.nest_array.specs.Seen.{layout_of};
ghost use Rattle.nest_build.specs.Children.{list_child};
ghost use Rattle.nest_build.specs.Keys.{dictionary_child};
ghost use Rattle.nest_memory.specs.TypeOf.{type_of};
ghost use Rattle.nest_memory.specs.declared.error.ArgumentError.TheVariants.{Incomplete};
ghost use Rattle.nest_memory.specs.declared.error.Error.TheVariants.{InvalidArgumentError, Memory};
ghost use Rattle.nest_model.specs.Accessors.{validity_of};
ghost use Rattle.nest_model.specs.BuilderAppend.{Accepted};
ghost use Rattle.nest_model.specs.BuilderItem.{null as null_item, IsValueAt};
ghost use Rattle.nest_model.specs.BuilderLevels.{own_slots};
ghost use Rattle.nest_model.specs.BuilderRefusals.{item_refusal};
ghost use Rattle.nest_model.specs.BuilderAddRow.{AreEachComplete, HasCompleteChildren, RowAdded, row_checks};
ghost use Rattle.nest_model.specs.BuilderTree.{builder_type};
ghost use Rattle.nest_model.specs.BuilderComplete.{IsComplete, emptied};
ghost use Rattle.nest_model.specs.Checks.{FailFirst, Pass};
ghost use Rattle.nest_model.specs.Layout.{layout_type};
ghost use Rattle.nest_model.specs.Meaning.{slots_of};
ghost use Rattle.nest_model.specs.Nullness.{null_count};
ghost use Rattle.promises.specs.Refusals.{IsRefusal};

use nest_any::{AnyMutableArray, AnyMutableDictionary, ListBuilder, MutableStructArray};
use nest_array::{AnyArray, StructArray};
use nest_build::array::MutableArray;
use nest_flat::plain::AsPlain;
use nest_memory::bitmap::mutable::MutableBitmap;
use nest_memory::datatypes::DataType;
use nest_memory::error::Error;
use std::alloc::Global;
use std::rc::Rc;

/// Returns a builder of lists or dictionaries of a data type over a child without rows, or the error of the first check that fails.
pub fn new_nested_builder(
    alloc: Global,
    data_type: DataType,
    child: AnyMutableArray,
) -> Result<AnyMutableArray, Error>
    requires { IsComplete (tree_of child) }
    ensures ok { IfOk result (λ b. tree_of b ≡ nested_over (type_of data_type) (tree_of child)) }
    ensures checks { IfOk result (λ b. Pass (nested_checks (type_of data_type) (tree_of child))) }
    ensures refused { IfErr result (λ e. (e ≡ Memory alloc_error) ⊎ FailFirst e (nested_checks (type_of data_type) (tree_of child))) }
{
    AnyMutableArray::try_nested(alloc, data_type, child)
}

/// Returns a builder of structs over complete children, or the error of the first check that fails, without allocation.
pub fn new_struct_builder(
    alloc: Global,
    data_type: DataType,
    values: Vec<AnyMutableArray>,
    validity: Option<MutableBitmap>,
) -> Result<MutableStructArray, Error>
    requires { AreEachComplete (trees_of values.items) }
    ensures { let t = type_of data_type in let c = trees_of values.items in
        let k = struct_checks t c validity in
        MatchResult result (λ b. Pass k × (b ≡ struct_over t c validity)) (λ e. FailFirst e k) }
{
    MutableStructArray::try_new(alloc, data_type, values, validity)
}

/// Appends a null to a builder of any kind, as to every builder.
pub fn push_null_to_any(builder: &mut AnyMutableArray) -> Result<(), Error>
    requires { IsComplete (tree_of builder.old) }
    ensures accepted { OnOk result (Accepted null_item (tree_of builder.old) (tree_of builder.new)) }
    ensures err { OnErr result (tree_of builder.new ≡ tree_of builder.old) }
    ensures refused { IfErr result (IsRefusal (item_refusal null_item (tree_of builder.old))) }
{
    builder.push_null()
}

/// Returns the child of a list builder at index 0, or that of a struct builder at its index.
pub fn child_of_any(builder: &mut AnyMutableArray, i: usize) -> Option<&mut AnyMutableArray>
    ensures { option_map (λ c. tree_of c.now) result ≡ child_builder i (tree_of builder.old) }
{
    builder.child(i)
}

/// Returns the builder of lists for writing, where the builder is one; no other builder changes.
pub fn list_builder_of_any(builder: &mut AnyMutableArray) -> Option<&mut ListBuilder>
    ensures* writes_back { sem 𝓛 (LendsIf any_row list_row builder.entry result List builder.old) }
    ensures value { option_map (λ list. list.now) result ≡ as_list builder.old }
{
    builder.as_list_mut()
}

/// Returns the builder of structs for writing, where the builder is one; no other builder changes.
pub fn struct_builder_of_any(builder: &mut AnyMutableArray) -> Option<&mut MutableStructArray>
    ensures* writes_back { sem 𝓛 (LendsIf any_row struct_row builder.entry result Struct builder.old) }
    ensures value { option_map (λ structs. structs.now) result ≡ as_struct builder.old }
{
    builder.as_struct_mut()
}

/// Returns the index of a value among those of a builder of dictionaries.
pub fn index_of_value<T: AsPlain>(builder: &AnyMutableDictionary, value: &T) -> Option<usize>
    ensures { (k : ℕ) → (result ≡ Some k) ↔ IsValueAt (dictionary_child (dictionary_tree builder.now)) (T.value value.now) k }
{
    builder.key_of(value)
}

/// Appends a row of the children's items that are in no row yet, or returns the error of the first check that fails; then no
/// level changes.
pub fn push_row_to_any(builder: &mut AnyMutableArray, valid: bool) -> Result<(), Error>
    requires { HasCompleteChildren (tree_of builder.old) }
    ensures row { OnOk result (RowAdded valid (tree_of builder.old) (tree_of builder.new)) }
    ensures checks { OnOk result (Pass (row_checks (tree_of builder.old))) }
    ensures err { OnErr result (tree_of builder.new ≡ tree_of builder.old) }
    ensures refused { IfErr result (λ e. (e ≡ Memory alloc_error) ⊎ FailFirst e (row_checks (tree_of builder.old))) }
{
    builder.push_row(valid)
}

/// A builder of lists over a complete child has complete children, so a row may be appended.
pub fn list_child_is_complete(lists: &ListBuilder)
    ensures { IsComplete (list_child lists.now) → HasCompleteChildren lists.now }
{
    lists.known()
}

/// Returns whether the children are complete, so a row may be appended.
pub fn has_complete_children(builder: &AnyMutableArray) -> bool
    ensures { IsTrue result ↔ HasCompleteChildren (tree_of builder.now) }
{
    builder.has_complete_children()
}

/// Appends a row to a builder of structs.
pub fn push_struct_row(builder: &mut MutableStructArray, valid: bool) -> Result<(), Error>
    requires { HasCompleteChildren builder.old }
    ensures row { OnOk result (RowAdded valid builder.old builder.new) }
    ensures checks { OnOk result (Pass (row_checks builder.old)) }
    ensures err { OnErr result (builder.new ≡ builder.old) }
    ensures refused { IfErr result (λ e. (e ≡ Memory alloc_error) ⊎ FailFirst e (row_checks builder.old)) }
{
    builder.push(valid)
}

/// Returns the array of the structs. Fails exactly where the builder is incomplete, or when an allocation fails. Without a null the
/// array has no validity.
pub fn freeze_structs(builder: &mut MutableStructArray) -> Result<StructArray, Error>
    ensures slots { IfOk result (λ a. slots_of a ≡ own_slots builder.old) }
    ensures data_type { IfOk result (λ a. layout_type a ≡ builder_type builder.old) }
    ensures no_validity { IfOk result (λ a. null_count a ≡ 0 → validity_of a ≡ None) }
    ensures incomplete { IsErrOf result (InvalidArgumentError Incomplete) ↔ ¬ IsComplete builder.old }
    ensures unchanged { ¬ IsComplete builder.old → builder.new ≡ builder.old }
    ensures emptied { IsComplete builder.old → builder.new ≡ emptied builder.old }
    ensures errors { IfErr result (λ e. (e ≡ InvalidArgumentError Incomplete) ⊎ (e ≡ Memory alloc_error)) }
{
    builder.freeze()
}

/// Returns the array of the structs in an `Rc`, and consumes the builder.
pub fn structs_into_shared(
    builder: MutableStructArray,
    alloc: Global,
) -> Result<Rc<AnyArray>, Error>
    ensures slots { IfOk result (λ r. slots_of (layout_of r.value) ≡ own_slots builder) }
    ensures data_type { IfOk result (λ r. layout_type (layout_of r.value) ≡ builder_type builder) }
    ensures no_validity { IfOk result (λ r. null_count (layout_of r.value) ≡ 0 → validity_of (layout_of r.value) ≡ None) }
    ensures incomplete { IsErrOf result (InvalidArgumentError Incomplete) ↔ ¬ IsComplete builder }
    ensures errors { IfErr result (λ e. (e ≡ InvalidArgumentError Incomplete) ⊎ (e ≡ Memory alloc_error)) }
{
    builder.into_arc(alloc)
}
