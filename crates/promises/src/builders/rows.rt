//! What every builder does, at any nesting.
//!
//! A builder is viewed as its tree of levels, `B.model`: its own rows, and below them those of its children with the items not
//! yet in a row. An accepted item appends its slots at each level, a refused one changes no level, and a builder freezes to the
//! slots it began with followed by the accepted ones.
ghost use Rattle.std.specs.List.{All, items_where_true};
ghost use Rattle.std.specs.Prelude.{◌≡◌, ◌≢◌, ◌≤◌, ◌<◌, ◌⊎◌, ◌↔◌, ◌++◌, ◌∷◌, [], true, false, length, option_map, IsTrue, OnOk, OnErr, IfOk, IfErr, IsErrOf, IsNone, IsOkUnless, None, alloc_error};
ghost use Rattle.nest_array.specs.Seen.{layout_of};
ghost use Rattle.nest_build.specs.Shown.{IsOfOtherKind, ShowsNulls, own_slot, reserve_passes};
ghost use Rattle.nest_flat.specs.Plain.{plain_value, plain_values};
ghost use Rattle.nest_memory.specs.TypeOf.{type_of};
ghost use Rattle.nest_memory.specs.declared.error.ArgumentError.TheVariants.{ItemType, Incomplete};
ghost use Rattle.nest_memory.specs.declared.error.Error.TheVariants.{InvalidArgumentError, Memory, Overflow};
ghost use Rattle.nest_model.specs.BuilderAppend.{Accepted};
ghost use Rattle.nest_model.specs.BuilderComplete.{IsComplete, truncate_builder, emptied};
ghost use Rattle.nest_model.specs.BuilderItem.{null as null_item, Holds, slot_of_item};
ghost use Rattle.nest_model.specs.BuilderJoin.{Joined, join_checks};
ghost use Rattle.nest_model.specs.BuilderLevels.{own_slots};
ghost use Rattle.nest_model.specs.BuilderReading.{Refused, Consumed, ConsumedEach};
ghost use Rattle.nest_model.specs.BuilderRefusals.{required_item, requirement_refusal, item_refusal};
ghost use Rattle.nest_model.specs.BuilderTree.{builder_len, builder_type};
ghost use Rattle.nest_model.specs.Checks.{FailFirst, Pass};
ghost use Rattle.nest_model.specs.Layout.{layout_type};
ghost use Rattle.nest_model.specs.Meaning.{slots_of};
ghost use Rattle.nest_model.specs.Slot as slots;
ghost use Rattle.promises.specs.Refusals.{IsRefusal};

use nest_array::AnyArray;
use nest_build::array::MutableArray;
use nest_build::push::{TryExtendFromSelf, TryPush};
use nest_build::tried::push_all;
use nest_flat::plain::Plain;
use nest_memory::bitmap::mutable::MutableBitmap;
use nest_memory::datatypes::DataType;
use nest_memory::error::Error;
use std::alloc::Global;

/// Returns the data type of a builder.
pub fn builder_data_type<B: MutableArray>(builder: &B) -> &DataType
    ensures { type_of result.now ≡ builder_type (B.model builder.now) }
{
    builder.data_type()
}

/// Returns the number of rows.
pub fn row_count<B: MutableArray>(builder: &B) -> usize
    ensures { result ≡ builder_len (B.model builder.now) }
{
    builder.len()
}

/// Returns whether a row is not null.
pub fn is_valid_row<B: MutableArray>(builder: &B, i: usize) -> bool
    requires { i < builder_len (B.model builder.now) }
    ensures { IsTrue result ↔ own_slot (B.model builder.now) i ≢ slots.null }
{
    builder.is_valid(i)
}

/// Returns the validity, a bit per row; `None` where no row is null, except in a builder of nulls.
pub fn row_validity<B: MutableArray>(builder: &B) -> Option<&MutableBitmap>
    ensures bits { ShowsNulls (option_map (λ b. b.now) result) (B.model builder.now) }
    ensures none { B.bare builder.now → IsNone result }
{
    builder.validity()
}

/// Returns whether a row holds a plain value.
pub fn row_holds<B: MutableArray>(builder: &B, i: usize, value: &Plain<'_>) -> bool
    requires { i < builder_len (B.model builder.now) }
    ensures { IsTrue result ↔ Holds (B.model builder.now) i (plain_value value.now) }
{
    builder.holds(i, value)
}

/// Returns whether a builder is complete: no level has items outside of a row.
pub fn is_complete<B: MutableArray>(builder: &B) -> bool
    ensures { IsTrue result ↔ IsComplete (B.model builder.now) }
{
    builder.is_complete()
}

/// Appends a null: each level gains what a null needs there. On an error no level changes.
pub fn push_null<B: MutableArray>(builder: &mut B) -> Result<(), Error>
    requires { IsComplete (B.model builder.old) }
    ensures accepted { OnOk result (Accepted null_item (B.model builder.old) (B.model builder.new)) }
    ensures no_error { OnOk result (item_refusal null_item (B.model builder.old) ≡ None) }
    ensures err { OnErr result (B.model builder.new ≡ B.model builder.old) }
    ensures refused { IfErr result (IsRefusal (item_refusal null_item (B.model builder.old))) }
{
    builder.push_null()
}

/// Appends a plain value or a null. Fails with `ItemType` exactly where the builder takes no value of that kind.
pub fn push_value<B: MutableArray>(builder: &mut B, value: Option<Plain<'_>>) -> Result<(), Error>
    requires { IsComplete (B.model builder.old) }
    ensures accepted { OnOk result (Accepted (required_item (plain_values value.entry)) (B.model builder.old) (B.model builder.new)) }
    ensures no_error { OnOk result (requirement_refusal (plain_values value.entry) (B.model builder.old) ≡ None) }
    ensures err { OnErr result (B.model builder.new ≡ B.model builder.old) }
    ensures kind { IsErrOf result (InvalidArgumentError ItemType) ↔ IsOfOtherKind (plain_values value.entry) (B.model builder.old) }
    ensures refused { IfErr result (IsRefusal (requirement_refusal (plain_values value.entry) (B.model builder.old))) }
{
    builder.try_push_plain(value)
}

/// Appends an item of any type that the builder takes. On an error no level changes, and the error is that of the check that
/// fails, here or at a level below.
pub fn push_item<A, B: TryPush<A>>(builder: &mut B, item: A) -> Result<(), Error>
    requires complete { IsComplete (B.model builder.old) }
    requires can_read { B.can_push item }
    ensures pushed { OnOk result (Consumed B.reads item (B.model builder.old) (B.model builder.new)) }
    ensures err { OnErr result (B.model builder.new ≡ B.model builder.old) }
    ensures refused { IfErr result (λ e. Refused B.reads item (B.model builder.old) e) }
{
    builder.try_push(item)
}

/// Appends all rows of another builder at every level, or none.
pub fn extend_from_builder<B: TryExtendFromSelf>(builder: &mut B, other: &B) -> Result<(), Error>
    requires complete { IsComplete (B.model builder.old) }
    requires other_whole { IsComplete (B.model other.now) }
    ensures joined { OnOk result (Joined (B.model other.now) (B.model builder.old) (B.model builder.new)) }
    ensures checks { OnOk result (Pass (join_checks (B.model builder.old) (B.model other.now))) }
    ensures err { OnErr result (B.model builder.new ≡ B.model builder.old) }
    ensures refused { IfErr result (λ e. (e ≡ Memory alloc_error) ⊎ FailFirst e (join_checks (B.model builder.old) (B.model other.now))) }
{
    builder.try_extend_from_self(other)
}

/// Keeps the first `n` rows at each level.
pub fn truncate_rows<B: MutableArray>(builder: &mut B, n: usize)
    requires complete { IsComplete (B.model builder.old) }
    requires within { n ≤ builder_len (B.model builder.old) }
    ensures { B.model builder.new ≡ truncate_builder (B.model builder.old) n }
{
    builder.truncate(n)
}

/// Reserves capacity for more rows and changes no level.
pub fn reserve_rows<B: MutableArray>(builder: &mut B, additional: usize) -> Result<(), Error>
    ensures same { B.model builder.new ≡ B.model builder.old }
    ensures limit { OnOk result (reserve_passes additional (B.model builder.old) ≡ false) }
    ensures refused { IfErr result (λ e. (e ≡ Memory alloc_error) ⊎ ((e ≡ Overflow) × (reserve_passes additional (B.model builder.old) ≡ true))) }
{
    builder.reserve(additional)
}

/// Returns the array of the rows and leaves no row at any level. Fails exactly where the builder is incomplete, which changes
/// nothing, or when an allocation fails.
pub fn freeze<B: MutableArray>(builder: &mut B) -> Result<AnyArray, Error>
    ensures slots { IfOk result (λ a. slots_of (layout_of a) ≡ own_slots (B.model builder.old)) }
    ensures data_type { IfOk result (λ a. layout_type (layout_of a) ≡ builder_type (B.model builder.old)) }
    ensures incomplete { IsErrOf result (InvalidArgumentError Incomplete) ↔ ¬ IsComplete (B.model builder.old) }
    ensures unchanged { ¬ IsComplete (B.model builder.old) → B.model builder.new ≡ B.model builder.old }
    ensures emptied { IsComplete (B.model builder.old) → B.model builder.new ≡ emptied (B.model builder.old) }
    ensures validity { IsComplete (B.model builder.old) → B.bare builder.new }
    ensures errors { IfErr result (λ e. (e ≡ InvalidArgumentError Incomplete) ⊎ (e ≡ Memory alloc_error)) }
{
    builder.as_box()
}

/// Returns whether a builder has a validity after a freeze, which it has not.
pub fn has_validity_after_freeze<B: MutableArray>(builder: &mut B) -> bool
    requires { IsComplete (B.model builder.old) }
    ensures { result ≡ false }
{
    drop(builder.as_box());
    builder.validity().is_some()
}

/// Appends each item that is accepted, in order, and returns which were.
pub fn push_each<A: Drop, B: TryPush<A>>(
    alloc: Global,
    builder: &mut B,
    items: Vec<A>,
) -> Result<Vec<bool>, Error>
    requires complete { IsComplete (B.model builder.old) }
    requires can_read { All B.can_push items.items }
    ensures count { IfOk result (λ marks. length marks.items ≡ length items.items) }
    ensures pushed { IfOk result (λ marks. ConsumedEach B.reads (items_where_true marks.items items.items) (B.model builder.old) (B.model builder.new)) }
    ensures err { OnErr result (B.model builder.new ≡ B.model builder.old) }
    ensures memory { IsOkUnless result (Memory alloc_error) }
{
    push_all(alloc, builder, items)
}

/// Appends a value and freezes: the slots that the builder began with, followed by the value's slot.
pub fn push_and_freeze<B: MutableArray>(
    builder: &mut B,
    value: Option<Plain<'_>>,
) -> Result<AnyArray, Error>
    requires { IsComplete (B.model builder.old) }
    ensures { IfOk result (λ a. slots_of (layout_of a) ≡ own_slots (B.model builder.old) ++ slot_of_item (required_item (plain_values value.entry)) ∷ []) }
{
    match builder.try_push_plain(value) {
        Ok(()) => builder.as_box(),
        Err(error) => Err(error),
    }
}
