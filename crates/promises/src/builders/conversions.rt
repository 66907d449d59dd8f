//! Builders converted into the array of their rows. The array is the one a freeze returns; the conversion fails exactly where
//! the builder is incomplete, or when an allocation fails.
ghost use Rattle.std.specs.Prelude.{◌≡◌, ◌⊎◌, ◌↔◌, IfErr, IfOk, IsErrOf, alloc_error};
ghost use Rattle.nest_array.specs.Seen.{layout_of};
ghost use Rattle.nest_memory.specs.declared.error.ArgumentError.TheVariants.{Incomplete};
ghost use Rattle.nest_memory.specs.declared.error.Error.TheVariants.{InvalidArgumentError, Memory};
ghost use Rattle.nest_model.specs.BuilderLevels.{own_slots};
ghost use Rattle.nest_model.specs.BuilderTree.{builder_type};
ghost use Rattle.nest_model.specs.BuilderComplete.{IsComplete};
ghost use Rattle.nest_model.specs.Layout.{layout_type};
ghost use Rattle.nest_model.specs.Meaning.{slots_of};

use nest_array::AnyArray;
use nest_build::array::MutableArray;
use nest_build::dictionary::{BuilderKey, MutableDictionaryArray};
use nest_build::list::MutableListArray;
use nest_build::list::width::ListWidth;
use nest_memory::error::Error;
use std::alloc::Global;
use std::rc::Rc;

/// Returns the array of a builder of lists.
pub fn list_builder_into_array<O: ListWidth, M: MutableArray>(
    builder: MutableListArray<O, M>,
) -> Result<AnyArray, Error>
    ensures slots { let tree = ⟦<MutableListArray<O, M> as MutableArray>⟧.model in
        IfOk result (λ a. slots_of (layout_of a) ≡ own_slots (tree builder)) }
    ensures data_type { let tree = ⟦<MutableListArray<O, M> as MutableArray>⟧.model in
        IfOk result (λ a. layout_type (layout_of a) ≡ builder_type (tree builder)) }
    ensures incomplete { let tree = ⟦<MutableListArray<O, M> as MutableArray>⟧.model in
        IsErrOf result (InvalidArgumentError Incomplete) ↔ ¬ IsComplete (tree builder) }
    ensures errors { IfErr result (λ e. (e ≡ InvalidArgumentError Incomplete) ⊎ (e ≡ Memory alloc_error)) }
{
    builder.into_box()
}

/// Returns the array of a builder of lists in an `Rc`.
pub fn list_builder_into_shared<O: ListWidth, M: MutableArray>(
    builder: MutableListArray<O, M>,
    alloc: Global,
) -> Result<Rc<AnyArray>, Error>
    ensures slots { let tree = ⟦<MutableListArray<O, M> as MutableArray>⟧.model in
        IfOk result (λ r. slots_of (layout_of r.value) ≡ own_slots (tree builder)) }
    ensures data_type { let tree = ⟦<MutableListArray<O, M> as MutableArray>⟧.model in
        IfOk result (λ r. layout_type (layout_of r.value) ≡ builder_type (tree builder)) }
    ensures incomplete { let tree = ⟦<MutableListArray<O, M> as MutableArray>⟧.model in
        IsErrOf result (InvalidArgumentError Incomplete) ↔ ¬ IsComplete (tree builder) }
    ensures errors { IfErr result (λ e. (e ≡ InvalidArgumentError Incomplete) ⊎ (e ≡ Memory alloc_error)) }
{
    builder.into_arc(alloc)
}

/// Returns the array of a builder of dictionaries.
pub fn dictionary_builder_into_array<K: BuilderKey, M: MutableArray>(
    builder: MutableDictionaryArray<K, M>,
) -> Result<AnyArray, Error>
    ensures slots { let tree = ⟦<MutableDictionaryArray<K, M> as MutableArray>⟧.model in
        IfOk result (λ a. slots_of (layout_of a) ≡ own_slots (tree builder)) }
    ensures data_type { let tree = ⟦<MutableDictionaryArray<K, M> as MutableArray>⟧.model in
        IfOk result (λ a. layout_type (layout_of a) ≡ builder_type (tree builder)) }
    ensures incomplete { let tree = ⟦<MutableDictionaryArray<K, M> as MutableArray>⟧.model in
        IsErrOf result (InvalidArgumentError Incomplete) ↔ ¬ IsComplete (tree builder) }
    ensures errors { IfErr result (λ e. (e ≡ InvalidArgumentError Incomplete) ⊎ (e ≡ Memory alloc_error)) }
{
    builder.into_box()
}

/// Returns the array of a builder of dictionaries in an `Rc`.
pub fn dictionary_builder_into_shared<K: BuilderKey, M: MutableArray>(
    builder: MutableDictionaryArray<K, M>,
    alloc: Global,
) -> Result<Rc<AnyArray>, Error>
    ensures slots { let tree = ⟦<MutableDictionaryArray<K, M> as MutableArray>⟧.model in
        IfOk result (λ r. slots_of (layout_of r.value) ≡ own_slots (tree builder)) }
    ensures data_type { let tree = ⟦<MutableDictionaryArray<K, M> as MutableArray>⟧.model in
        IfOk result (λ r. layout_type (layout_of r.value) ≡ builder_type (tree builder)) }
    ensures incomplete { let tree = ⟦<MutableDictionaryArray<K, M> as MutableArray>⟧.model in
        IsErrOf result (InvalidArgumentError Incomplete) ↔ ¬ IsComplete (tree builder) }
    ensures errors { IfErr result (λ e. (e ≡ InvalidArgumentError Incomplete) ⊎ (e ≡ Memory alloc_error)) }
{
    builder.into_arc(alloc)
}
