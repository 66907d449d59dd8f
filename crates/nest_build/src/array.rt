//! The trait of all array builders: arrow2's `MutableArray`.
ghost use Rattle.std.specs.Prelude.{◌≡◌, ◌≢◌, ◌≤◌, ◌<◌, ◌↔◌, ◌⊎◌, true, false, IsNone, IsTrue, OnOk, OnErr, IfOk, IfErr, IsErrOf, IsOkUnless, Some, None, option_map, alloc_error};
ghost use Rattle.nest_model.specs.BuilderItem.{null as null_item};
ghost use Rattle.nest_model.specs.Slot as slots;
ghost use Rattle.nest_build.specs.Words.{Accepted, BuilderTree, Holds, InvalidArgumentError, IsOfOtherKind, IsComplete, ItemType, Memory, Overflow, ShowsNulls, Incomplete, required_item, requirement_refusal, builder_len, builder_type, truncate_builder, emptied, item_refusal, layout_of, layout_type, own_slot, own_slots, plain_value, plain_values, reserve_passes, slots_of, type_of};

use nest_array::AnyArray;
use nest_flat::plain::Plain;
use nest_memory::bitmap::mutable::MutableBitmap;
use nest_memory::datatypes::DataType;
use nest_memory::error::Error;
use std::alloc::Global;
use std::rc::Rc;

/// A builder of an array of any kind. Its model is the tree of its levels: its own rows, and below them those of its
/// children with their pending items.
///
/// A call that returns an error changes no level. Exceptions: `as_box` and `as_arc` empty the builder if an allocation
/// fails. A refused push may leave a new validity without nulls.
pub trait MutableArray: Drop {
    /// The tree of the levels.
    ghost model: { Self → BuilderTree };

    /// The builder has no validity.
    ghost bare: { Self → Type 0 };

    /// Returns the data type.
    fn data_type(&self) -> &DataType
        ensures { type_of result.now ≡ builder_type (model self.now) };

    /// Returns the number of rows.
    fn len(&self) -> usize
        ensures { result ≡ builder_len (model self.now) };

    /// Returns whether there are no rows.
    fn is_empty(&self) -> bool
        ensures { IsTrue result ↔ (builder_len (model self.now) ≡ 0) };

    /// Returns the validity, one bit per row. Without it all rows are valid, except in a null builder.
    fn validity(&self) -> Option<&MutableBitmap>
        ensures nulls { ShowsNulls (option_map (λ b. b.now) result) (model self.now) }
        ensures none { bare self.now → IsNone result };

    /// Returns whether row `i` is valid.
    fn is_valid(&self, i: usize) -> bool
        requires { i < builder_len (model self.now) }
        ensures { IsTrue result ↔ own_slot (model self.now) i ≢ slots.null };

    /// Returns whether the builder is complete: no child has pending items, and every child is complete, has its
    /// field's type and has exactly the items that the rows need.
    fn is_complete(&self) -> bool
        ensures { IsTrue result ↔ IsComplete (model self.now) };

    /// Returns whether row `i` is this value. False if the builder does not accept values of its kind.
    fn holds(&self, i: usize, value: &Plain<'_>) -> bool
        requires { i < builder_len (model self.now) }
        ensures { IsTrue result ↔ Holds (model self.now) i (plain_value value.now) };

    /// Appends a null row, and the items it needs in the children.
    ///
    /// # Errors
    /// `Overflow` if a level would exceed its limit, `Memory` if an allocation fails.
    fn push_null(&mut self) -> Result<(), Error>
        requires { IsComplete (model self.old) }
        ensures accepted { OnOk result (Accepted null_item (model self.old) (model self.new)) }
        ensures unrefused { OnOk result (item_refusal null_item (model self.old) ≡ None) }
        ensures err { OnErr result (model self.new ≡ model self.old) }
        ensures cause { IfErr result (λ e. (e ≡ Memory alloc_error) ⊎ (item_refusal null_item (model self.old) ≡ Some e)) };

    /// Appends a value or a null.
    ///
    /// # Errors
    /// `ItemType` if the builder does not accept values of this kind; this check is first. Then the first failed check
    /// of this level or one below: `ItemSize`, `Overflow`. `Memory` if an allocation fails.
    fn try_push_plain(&mut self, value: Option<Plain<'_>>) -> Result<(), Error>
        requires { IsComplete (model self.old) }
        ensures accepted { OnOk result (Accepted (required_item (plain_values value.entry)) (model self.old) (model self.new)) }
        ensures unrefused { OnOk result (requirement_refusal (plain_values value.entry) (model self.old) ≡ None) }
        ensures err { OnErr result (model self.new ≡ model self.old) }
        ensures kind { IsErrOf result (InvalidArgumentError ItemType) ↔ IsOfOtherKind (plain_values value.entry) (model self.old) }
        ensures cause { IfErr result (λ e. (e ≡ Memory alloc_error) ⊎ (requirement_refusal (plain_values value.entry) (model self.old) ≡ Some e)) };

    /// Keeps the first `n` rows and the items they need in the children. Does not allocate.
    fn truncate(&mut self, n: usize)
        requires complete { IsComplete (model self.old) }
        requires within { n ≤ builder_len (model self.old) }
        ensures { model self.new ≡ truncate_builder (model self.old) n };

    /// Reserves capacity for at least `additional` more rows.
    ///
    /// # Errors
    /// `Overflow` if rows of a fixed size need more items or bytes than a `usize` counts, at this level or one below.
    /// `Memory` if an allocation fails.
    fn reserve(&mut self, additional: usize) -> Result<(), Error>
        ensures same { model self.new ≡ model self.old }
        ensures room { OnOk result (reserve_passes additional (model self.old) ≡ false) }
        ensures cause { IfErr result (λ e. (e ≡ Memory alloc_error) ⊎ ((e ≡ Overflow) × (reserve_passes additional (model self.old) ≡ true))) };

    /// Shrinks the capacity to the rows as far as the allocator can.
    ///
    /// # Errors
    /// `Memory` if an allocation fails.
    fn shrink_to_fit(&mut self) -> Result<(), Error>
        ensures same { model self.new ≡ model self.old }
        ensures memory { IsOkUnless result (Memory alloc_error) };

    /// Freezes the builder: returns the array of its rows. The builder keeps its data type; all its levels are empty
    /// and without validity afterwards, also after `Memory`.
    ///
    /// # Errors
    /// `Incomplete` if the builder is not complete; then nothing changes. `Memory` if an allocation fails.
    fn as_box(&mut self) -> Result<AnyArray, Error>
        ensures slots { IfOk result (λ a. slots_of (layout_of a) ≡ own_slots (model self.old)) }
        ensures same_type { IfOk result (λ a. layout_type (layout_of a) ≡ builder_type (model self.old)) }
        ensures incomplete { IsErrOf result (InvalidArgumentError Incomplete) ↔ ¬ IsComplete (model self.old) }
        ensures unchanged { ¬ IsComplete (model self.old) → model self.new ≡ model self.old }
        ensures emptied { IsComplete (model self.old) → model self.new ≡ emptied (model self.old) }
        ensures validity { IsComplete (model self.old) → bare self.new }
        ensures errors { IfErr result (λ e. (e ≡ InvalidArgumentError Incomplete) ⊎ (e ≡ Memory alloc_error)) };

    /// Freezes the builder and returns the array in an `Rc`.
    ///
    /// # Errors
    /// As `as_box`.
    fn as_arc(&mut self, alloc: Global) -> Result<Rc<AnyArray>, Error>
        ensures slots { IfOk result (λ r. slots_of (layout_of r.value) ≡ own_slots (model self.old)) }
        ensures same_type { IfOk result (λ r. layout_type (layout_of r.value) ≡ builder_type (model self.old)) }
        ensures incomplete { IsErrOf result (InvalidArgumentError Incomplete) ↔ ¬ IsComplete (model self.old) }
        ensures unchanged { ¬ IsComplete (model self.old) → model self.new ≡ model self.old }
        ensures emptied { IsComplete (model self.old) → model self.new ≡ emptied (model self.old) }
        ensures validity { IsComplete (model self.old) → bare self.new }
        ensures errors { IfErr result (λ e. (e ≡ InvalidArgumentError Incomplete) ⊎ (e ≡ Memory alloc_error)) };
}

/// Returns a frozen array in an `Rc`.
pub fn shared(array: Result<AnyArray, Error>, alloc: Global) -> Result<Rc<AnyArray>, Error>
    ensures same { IfOk result (λ r. IfOk array (λ a. layout_of r.value ≡ layout_of a)) }
    ensures err { IfErr array (λ e. IsErrOf result e) }
    ensures cause { IfErr result (λ e. (e ≡ Memory alloc_error) ⊎ IsErrOf array e) }
{
    Ok(Rc::new(alloc, array?)?)
}
