//! A builder of UTF-8 arrays.
ghost use Rattle.std.specs.Prelude.{◌≡◌, ◌≢◌, ◌↔◌, ◌⊎◌, ◌+◌, ◌≤◌, ◌<◌, ◌++◌, ◌∷◌, [], ℕ, List, Option, IsTrue, IfOk, IfErr, OnOk, OnErr, IsErrOf, IsOkUnless, None, length, option_map, alloc_error, IsUtf8};
ghost use Rattle.std.specs.Borrow.{Bor};
ghost use Rattle.std.specs.Option.{option_copied};
ghost use Rattle.nest_model.specs.Layout as layouts;
ghost use Rattle.nest_model.specs.Slot as slots;
ghost use Rattle.nest_flat.specs.Words.{AreSpans, BytesExtended, CanDrain, InvalidArgumentError, ItemType, Memory, Overflow, RefusesBeginning, TopFits, YieldsAll, begin, bytes_held, bytes_of, extent, first_slots, is_masked, item_bytes, item_refusal, joined_spans, last_of, layout_type, len, offsets_of, optional, physical_type, pushed_item, rolled_back, slot, slots_of, spans_of, sublist, text_tree, type_of, utf8_of_width, valid_at, validity_of, where_valid, with_spans};

use crate::growth::bytes::BytesBuilder;
use crate::growth::extend::{Grow, extend_by_push};
use crate::spans;
use crate::utf8::Utf8Array;
use nest_memory::bitmap::mutable::MutableBitmap;
use nest_memory::datatypes::DataType;
use nest_memory::error::{ArgumentError, Error};
use nest_memory::offset::Offset;
use nest_memory::offsets::Offsets;
use std::alloc::Global;
use std::marker::Model;

/// A builder of a `Utf8Array`, as arrow2's `MutableUtf8Array`.
///
/// A null has no bytes. The validity is allocated at the first null. A call that returns an error changes nothing,
/// except `freeze`, which always empties the builder.
#[derive(Drop)]
pub struct MutableUtf8Array<O: Offset> {
    data_type: DataType,
    spans: BytesBuilder<O>,
}

impl<O: Offset> Model for MutableUtf8Array<O> {
    ghost use Rattle.nest_model.specs.Layout as layouts;
    ghost use Rattle.nest_model.specs.Layout.{Layout};
    ghost use Rattle.nest_model.specs.LayoutCode.{coded_layout};

    ghost Value = { Layout };

    ghost coded = { coded_layout };

    ghost use Rattle.std.specs.Prelude.{◌≡◌};
    ghost use Rattle.nest_memory.specs.TypeOf.{type_of};
    ghost use Rattle.nest_memory.specs.Physical.{physical_type, utf8_of_width};
    ghost use Rattle.nest_model.specs.Fits.{EachUtf8};

    ghost view = { λ b. layouts.utf8 O.IS_LARGE (type_of b.data_type) b.spans.offsets b.spans.bytes b.spans.validity };

    ghost invariant = { λ b. (physical_type (type_of b.data_type) ≡ utf8_of_width O.IS_LARGE) × EachUtf8 b.spans.offsets b.spans.bytes };
}

// Returns the data type for the width of the offsets.
fn type_of_width<O: Offset>() -> DataType
    ensures { type_of result ≡ text_tree O.IS_LARGE }
{
    if O::IS_LARGE {
        DataType::LargeUtf8
    } else {
        DataType::Utf8
    }
}

// Returns the bytes of a string.
fn bytes_of(item: Option<&str>) -> Option<&[u8]>
    ensures same { option_copied result ≡ option_copied item.entry }
    ensures text { IsUtf8 (item_bytes (option_copied item.entry)) }
{
    match item {
        Some(text) => Some(text.as_bytes()),
        None => None,
    }
}

impl<O: Offset> MutableUtf8Array<O> {
    /// Returns an empty builder of `LargeUtf8` or `Utf8`, by the width of the offsets.
    ///
    /// # Errors
    /// `Memory` if an allocation fails.
    pub fn new(alloc: Global) -> Result<MutableUtf8Array<O>, Error>
        ensures ok { IfOk result (λ b. b ≡ layouts.utf8 O.IS_LARGE (text_tree O.IS_LARGE) (0 ∷ []) [] None) }
        ensures memory { IsOkUnless result (Memory alloc_error) }
    {
        let spans = BytesBuilder::new(alloc)?;
        Ok(MutableUtf8Array {
            data_type: type_of_width::<O>(),
            spans,
        })
    }

    /// States the invariant of the builder. Does nothing at run time.
    pub fn known(&self)
        ensures fits { TopFits self.now }
        ensures kind { self.now ≡ layouts.utf8 O.IS_LARGE (layout_type self.now) (offsets_of self.now) (bytes_of self.now) (validity_of self.now) }
        ensures spans { AreSpans (spans_of self.now) }
        ensures held { bytes_held (slots_of self.now) ≡ last_of (offsets_of self.now) }
        ensures room { last_of (offsets_of self.now) ≤ O.largest }
    {
        let _ = &self.data_type;
        self.spans.known();
    }

    /// Returns the number of slots.
    pub fn len(&self) -> usize
        ensures { result ≡ len self.now }
    {
        self.spans.len()
    }

    /// Returns whether the array has no slots.
    pub fn is_empty(&self) -> bool
        ensures { IsTrue result ↔ (len self.now ≡ 0) }
    {
        self.len() == 0
    }

    /// Returns the data type.
    pub fn data_type(&self) -> &DataType
        ensures { type_of result.now ≡ layout_type self.now }
    {
        &self.data_type
    }

    /// Returns the validity bitmap: one bit per slot, 1 if valid. `None` means that every slot is valid.
    pub fn validity(&self) -> Option<&MutableBitmap>
        ensures { option_map (λ b. b.now) result ≡ validity_of self.now }
    {
        self.spans.validity()
    }

    /// Returns the offsets: slot `i` has the bytes from offset `i` to offset `i + 1`.
    pub fn offsets(&self) -> &Offsets<O>
        ensures { result.now ≡ offsets_of self.now }
    {
        self.spans.offsets()
    }

    /// Returns the bytes.
    pub fn values(&self) -> &Vec<u8>
        ensures { result.now.items ≡ bytes_of self.now }
    {
        self.spans.bytes()
    }

    /// Returns whether slot `i` is valid.
    pub fn is_valid(&self, i: usize) -> bool
        requires { i < len self.now }
        ensures { result ≡ valid_at (validity_of self.now) i }
    {
        self.spans.is_valid(i)
    }

    /// Returns the raw value of slot `i`: an empty string where the slot is null.
    pub fn value(&self, i: usize) -> &str
        requires { i < len self.now }
        ensures raw { result.now ≡ sublist (bytes_of self.now) (begin (offsets_of self.now) i) (extent (offsets_of self.now) i) }
        ensures slot { slot self.now i ≡ where_valid (validity_of self.now) i (slots.utf8 result.now) }
    {
        spans::text_of(self.spans.value(i))
    }

    /// Appends a slot.
    ///
    /// # Errors
    /// `Overflow` if the end of the slot exceeds the offset type, `Memory` if an allocation fails.
    pub fn try_push(&mut self, item: Option<&str>) -> Result<(), Error>
        ensures parts { OnOk result (self.new ≡ pushed_item self.old (option_copied item.entry)) }
        ensures slots { OnOk result (slots_of self.new ≡ slots_of self.old ++ optional slots.utf8 (option_copied item.entry) ∷ []) }
        ensures err { OnErr result (self.new ≡ self.old) }
        ensures same_type { layout_type self.new ≡ layout_type self.old }
        ensures overflow { IsErrOf result Overflow ↔ (O.largest < last_of (offsets_of self.old) + length (item_bytes (option_copied item.entry))) }
        ensures errors { IfErr result (λ e. (e ≡ Overflow) ⊎ (e ≡ Memory alloc_error)) }
    {
        self.spans.known();
        self.spans.try_push(bytes_of(item))
    }

    /// Appends the slots of another builder: all of them, or none on error.
    ///
    /// # Errors
    /// - `ItemType` if the data types differ,
    /// - `Overflow` if the last end exceeds the offset type,
    /// - `Memory` if an allocation fails.
    pub fn try_extend_from_self(&mut self, other: &MutableUtf8Array<O>) -> Result<(), Error>
        ensures parts { OnOk result (self.new ≡ with_spans self.old (joined_spans (spans_of self.old) (spans_of other.now))) }
        ensures slots { OnOk result (slots_of self.new ≡ slots_of self.old ++ slots_of other.now) }
        ensures err { OnErr result (self.new ≡ self.old) }
        ensures same_type { layout_type self.new ≡ layout_type self.old }
        ensures item_type { IsErrOf result (InvalidArgumentError ItemType) ↔ layout_type self.old ≢ layout_type other.now }
        ensures overflow { IsErrOf result Overflow
            ↔ (layout_type self.old ≡ layout_type other.now) × (O.largest < last_of (offsets_of self.old) + last_of (offsets_of other.now)) }
        ensures errors { IfErr result (λ e. (e ≡ InvalidArgumentError ItemType) ⊎ ((e ≡ Overflow) ⊎ (e ≡ Memory alloc_error))) }
    {
        let same_type = *self.data_type() == *other.data_type();
        if !same_type {
            return Err(Error::InvalidArgumentError(ArgumentError::ItemType));
        }
        self.append(other)
    }

    fn append(&mut self, other: &MutableUtf8Array<O>) -> Result<(), Error>
        ensures parts { OnOk result (self.new ≡ with_spans self.old (joined_spans (spans_of self.old) (spans_of other.now))) }
        ensures slots { OnOk result (slots_of self.new ≡ slots_of self.old ++ slots_of other.now) }
        ensures err { OnErr result (self.new ≡ self.old) }
        ensures same_type { layout_type self.new ≡ layout_type self.old }
        ensures overflow { IsErrOf result Overflow ↔ (O.largest < last_of (offsets_of self.old) + last_of (offsets_of other.now)) }
        ensures errors { IfErr result (λ e. (e ≡ Overflow) ⊎ (e ≡ Memory alloc_error)) }
    {
        self.spans.known();
        other.spans.known();
        self.spans.try_extend_from_self(&other.spans)
    }

    /// Appends a slot for each item: all of them, or none on error.
    ///
    /// # Errors
    /// `Overflow` if the end of an item exceeds the offset type, `Memory` if an allocation fails.
    pub fn try_extend<'a, I: IntoIterator<Item = Option<&'a str>>>(
        &mut self,
        items: I,
    ) -> Result<(), Error>
        requires { CanDrain I.into_iter_gives I.IntoIter.can_next I.IntoIter.remaining items }
        ensures ok { OnOk result ((xs : List (Option (Bor (List ℕ)))) × YieldsAll I.into_iter_gives I.IntoIter.next_gives items xs
            × BytesExtended O.largest slots.utf8 xs self.old self.new) }
        ensures err { OnErr result (self.new ≡ self.old) }
        ensures same_type { layout_type self.new ≡ layout_type self.old }
        ensures cause { IfErr result (λ e. RefusesBeginning I.into_iter_gives I.IntoIter.next_gives
            (λ a x. pushed_item a (option_copied x)) (λ a x. item_refusal O.largest a (option_copied x)) items self.old e) }
    {
        extend_by_push(self, items)
    }

    /// Keeps the first `n` slots and drops the rest.
    pub fn truncate(&mut self, n: usize)
        requires { n ≤ len self.old }
        ensures parts { self.new ≡ first_slots self.old n }
        ensures slots { slots_of self.new ≡ sublist (slots_of self.old) 0 n }
        ensures same_type { layout_type self.new ≡ layout_type self.old }
    {
        self.spans.known();
        self.spans.rollback(n, true);
    }

    /// Reserves capacity for `additional` more slots. Capacity for bytes is not reserved.
    ///
    /// # Errors
    /// `Memory` if an allocation fails.
    pub fn reserve(&mut self, additional: usize) -> Result<(), Error>
        ensures same { self.new ≡ self.old }
        ensures memory { IsOkUnless result (Memory alloc_error) }
    {
        self.spans.reserve(additional)
    }

    /// Releases unused capacity if smaller blocks can be allocated.
    pub fn shrink_to_fit(&mut self)
        ensures { self.new ≡ self.old }
    {
        self.spans.shrink_to_fit();
    }

    /// Returns the array of the slots and empties the builder, also on error. The data type is kept.
    ///
    /// # Errors
    /// `Memory` if an allocation fails.
    pub fn freeze(&mut self) -> Result<Utf8Array<O>, Error>
        ensures ok { IfOk result (λ a. a ≡ self.old) }
        ensures emptied { self.new ≡ layouts.utf8 O.IS_LARGE (layout_type self.old) (0 ∷ []) [] None }
        ensures memory { IsOkUnless result (Memory alloc_error) }
    {
        self.spans.known();
        let alloc = self.spans.allocator();
        let (offsets, values, validity) = self.spans.freeze()?;
        let data_type = self.data_type.clone(alloc)?;
        Ok(Utf8Array {
            data_type,
            offsets,
            values,
            validity,
        })
    }
}

impl<'a, O: Offset> Grow<Option<&'a str>> for MutableUtf8Array<O> {
    ghost layout = { λ b. b };

    ghost slot_of_item = { λ x. optional slots.utf8 (option_copied x) };

    ghost pushed = { λ a x. pushed_item a (option_copied x) };

    ghost refusal = { λ a x. item_refusal O.largest a (option_copied x) };

    fn count(&self) -> usize
        ensures { result ≡ len self.now }
    {
        self.spans.len()
    }

    fn has_validity(&self) -> bool
        ensures masked { result ≡ is_masked self.now }
        ensures whole { rolled_back self.now (len self.now) (is_masked self.now) ≡ self.now }
    {
        self.spans.known();
        self.spans.validity().is_some()
    }

    fn push_item(&mut self, item: Option<&'a str>) -> Result<(), Error> {
        self.spans.known();
        self.spans.try_push(bytes_of(item))
    }

    fn rollback(&mut self, n: usize, masked: bool)
        requires { n ≤ len self.old }
        ensures { self.new ≡ rolled_back self.old n masked }
    {
        self.spans.known();
        self.spans.rollback(n, masked);
    }
}
