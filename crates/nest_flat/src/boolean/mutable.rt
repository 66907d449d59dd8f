//! A builder of boolean arrays.
ghost use Rattle.std.specs.Prelude.{◌≡◌, ◌≢◌, ◌+◌, ◌^◌, ◌≤◌, ◌<◌, ◌↔◌, ◌⊎◌, ◌++◌, ◌∷◌, [], List, Option, Bool, IsTrue, IfOk, IfErr, OnOk, OnErr, IsOkUnless, IsErrOf, None, Some, option_map, alloc_error};
ghost use Rattle.nest_memory.specs.TypeTree as types;
ghost use Rattle.nest_memory.specs.declared.datatypes.physical_type.PhysicalType.TheVariants as physical;
ghost use Rattle.nest_model.specs.Layout as layouts;
ghost use Rattle.nest_model.specs.Slot as slots;
ghost use Rattle.nest_flat.specs.Words.{CanDrain, Extended, YieldsAll, Grew, InvalidArgumentError, IsPast, ItemType, Memory, Overflow, RefusesBeginning, TopFits, bits_of, sublist, slice_layout, joined_parts, layout_type, len, optional, physical_type, pushed_boolean, slots_of, boolean_refusal, type_of, valid_at, validity_of, with_type};

use crate::boolean::BooleanArray;
use crate::growth::extend::{Grow, extend_by_push};
use crate::growth::{bits, validity};
use nest_memory::bitmap::mutable::MutableBitmap;
use nest_memory::datatypes::DataType;
use nest_memory::error::{ArgumentError, Error};
use std::alloc::Global;
use std::marker::Model;
use std::mem;

/// A builder of a `BooleanArray`, as arrow2's `MutableBooleanArray`.
///
/// The raw value of a null is `false`. The validity is allocated at the first null. A call that returns an error
/// changes nothing, except `freeze`, which always empties the builder.
#[derive(Drop)]
pub struct MutableBooleanArray {
    data_type: DataType,
    values: MutableBitmap,
    validity: Option<MutableBitmap>,
    alloc: Global,
}

impl Model for MutableBooleanArray {
    ghost use Rattle.nest_model.specs.Layout as layouts;
    ghost use Rattle.nest_model.specs.Layout.{Layout};
    ghost use Rattle.nest_model.specs.LayoutCode.{coded_layout};

    ghost Value = { Layout };

    ghost coded = { coded_layout };

    ghost use Rattle.nest_memory.specs.TypeOf.{type_of};
    ghost use Rattle.nest_model.specs.Array.{TopFits};

    ghost view = { λ b. layouts.boolean (type_of b.data_type) b.values b.validity };

    ghost invariant = { λ b. TopFits (layouts.boolean (type_of b.data_type) b.values b.validity) };
}

impl MutableBooleanArray {
    /// Returns an empty builder of the type Boolean, without allocation.
    pub fn new(alloc: Global) -> MutableBooleanArray
        ensures { result ≡ layouts.boolean types.boolean [] None }
    {
        MutableBooleanArray {
            data_type: DataType::Boolean,
            values: MutableBitmap::new(alloc),
            validity: None,
            alloc,
        }
    }

    /// Returns the builder with another boolean data type.
    pub fn to(self, data_type: DataType) -> MutableBooleanArray
        requires { physical_type (type_of data_type) ≡ physical.Boolean }
        ensures { result ≡ with_type self (type_of data_type) }
    {
        let mut builder = self;
        let old = mem::replace(&mut builder.data_type, data_type);
        drop(old);
        builder
    }

    /// States the invariant of the builder. Does nothing at run time.
    pub fn known(&self)
        ensures fits { TopFits self.now }
        ensures kind { self.now ≡ layouts.boolean (layout_type self.now) (bits_of self.now) (validity_of self.now) }
    {
        let _ = &self.data_type;
    }

    /// Returns the number of slots.
    pub fn len(&self) -> usize
        ensures { result ≡ len self.now }
    {
        self.values.len()
    }

    /// Returns whether the array has no slots.
    pub fn is_empty(&self) -> bool
        ensures { IsTrue result ↔ (len self.now ≡ 0) }
    {
        self.len() == 0
    }

    /// Returns the data type.
    pub fn data_type(&self) -> &DataType
        ensures { type_of result.now ≡ layout_type self.now }
    {
        &self.data_type
    }

    /// Returns the validity bitmap: one bit per slot, 1 if valid. `None` means that every slot is valid.
    pub fn validity(&self) -> Option<&MutableBitmap>
        ensures { option_map (λ b. b.now) result ≡ validity_of self.now }
    {
        self.validity.as_ref()
    }

    /// Returns whether slot `i` is valid.
    pub fn is_valid(&self, i: usize) -> bool
        requires { i < len self.now }
        ensures { result ≡ valid_at (validity_of self.now) i }
    {
        validity::is_valid(&self.validity, i)
    }

    /// Returns the raw values, including those of null slots.
    pub fn values(&self) -> &MutableBitmap
        ensures { result.now ≡ bits_of self.now }
    {
        &self.values
    }

    /// Appends a slot.
    ///
    /// # Errors
    /// `Overflow` if the length exceeds a `usize`, `Memory` if an allocation fails.
    pub fn try_push(&mut self, item: Option<bool>) -> Result<(), Error>
        ensures parts { OnOk result (self.new ≡ pushed_boolean self.old item) }
        ensures slots { OnOk result (slots_of self.new ≡ slots_of self.old ++ optional slots.boolean item ∷ []) }
        ensures err { OnErr result (self.new ≡ self.old) }
        ensures same_type { layout_type self.new ≡ layout_type self.old }
        ensures overflow { IsErrOf result Overflow ↔ IsPast (len self.old + 1) }
        ensures errors { IfErr result (λ e. (e ≡ Overflow) ⊎ (e ≡ Memory alloc_error)) }
    {
        self.push(item)
    }

    fn push(&mut self, item: Option<bool>) -> Result<(), Error>
        ensures parts { OnOk result (self.new ≡ pushed_boolean self.old item) }
        ensures grew { OnOk result (Grew (optional slots.boolean item ∷ []) self.old self.new) }
        ensures err { OnErr result (self.new ≡ self.old) }
        ensures overflow { IsErrOf result Overflow ↔ IsPast (len self.old + 1) }
        ensures errors { IfErr result (λ e. (e ≡ Overflow) ⊎ (e ≡ Memory alloc_error)) }
    {
        let len = self.values.len();
        self.values.push(item.unwrap_or(false))?;
        let _more = self.values.len();
        if let Err(error) = validity::push(self.alloc, &mut self.validity, len, item.is_some()) {
            self.values.truncate(len);
            return Err(error);
        }
        Ok(())
    }

    /// Appends a slot for each item: all of them, or none on error.
    ///
    /// # Errors
    /// `Overflow` if the length exceeds a `usize`, `Memory` if an allocation fails.
    pub fn try_extend<I: IntoIterator<Item = Option<bool>>>(
        &mut self,
        items: I,
    ) -> Result<(), Error>
        requires { CanDrain I.into_iter_gives I.IntoIter.can_next I.IntoIter.remaining items }
        ensures ok { OnOk result ((xs : List (Option Bool)) × YieldsAll I.into_iter_gives I.IntoIter.next_gives items xs
            × Extended pushed_boolean boolean_refusal (optional slots.boolean) xs self.old self.new) }
        ensures err { OnErr result (self.new ≡ self.old) }
        ensures same_type { layout_type self.new ≡ layout_type self.old }
        ensures cause { IfErr result (λ e. RefusesBeginning I.into_iter_gives I.IntoIter.next_gives pushed_boolean boolean_refusal items self.old e) }
    {
        extend_by_push(self, items)
    }

    /// Appends the slots of another builder: all of them, or none on error.
    ///
    /// # Errors
    /// - `ItemType` if the data types differ,
    /// - `Overflow` if the length exceeds a `usize`,
    /// - `Memory` if an allocation fails.
    pub fn try_extend_from_self(&mut self, other: &MutableBooleanArray) -> Result<(), Error>
        ensures parts { OnOk result (self.new ≡ joined_parts self.old other.now) }
        ensures slots { OnOk result (slots_of self.new ≡ slots_of self.old ++ slots_of other.now) }
        ensures err { OnErr result (self.new ≡ self.old) }
        ensures same_type { layout_type self.new ≡ layout_type self.old }
        ensures item_type { IsErrOf result (InvalidArgumentError ItemType) ↔ layout_type self.old ≢ layout_type other.now }
        ensures overflow { IsErrOf result Overflow
            ↔ (layout_type self.old ≡ layout_type other.now) × IsPast (len self.old + len other.now) }
        ensures errors { IfErr result (λ e. (e ≡ InvalidArgumentError ItemType) ⊎ ((e ≡ Overflow) ⊎ (e ≡ Memory alloc_error))) }
    {
        let same_type = *self.data_type() == *other.data_type();
        if !same_type {
            return Err(Error::InvalidArgumentError(ArgumentError::ItemType));
        }
        if self.len().checked_add(other.len()).is_none() {
            return Err(Error::Overflow);
        }
        self.append(other)
    }

    fn append(&mut self, other: &MutableBooleanArray) -> Result<(), Error>
        requires { len self.old + len other.now < 2 ^ 64 }
        ensures parts { OnOk result (self.new ≡ joined_parts self.old other.now) }
        ensures grew { OnOk result (Grew (slots_of other.now) self.old self.new) }
        ensures err { OnErr result (self.new ≡ self.old) }
        ensures memory { IsOkUnless result (Memory alloc_error) }
    {
        let len = self.values.len();
        let more = other.values.len();
        bits::append(&mut self.values, &other.values)?;
        if let Err(error) = validity::join(
            self.alloc,
            &mut self.validity,
            len,
            &other.validity,
            more,
        ) {
            self.values.truncate(len);
            return Err(error);
        }
        Ok(())
    }

    /// Keeps the first `n` slots and drops the rest.
    pub fn truncate(&mut self, n: usize)
        requires { n ≤ len self.old }
        ensures parts { self.new ≡ slice_layout self.old 0 n }
        ensures slots { slots_of self.new ≡ sublist (slots_of self.old) 0 n }
        ensures same_type { layout_type self.new ≡ layout_type self.old }
    {
        self.cut(n);
    }

    fn cut(&mut self, n: usize)
        requires { n ≤ len self.old }
        ensures { self.new ≡ slice_layout self.old 0 n }
    {
        self.values.truncate(n);
        validity::truncate(&mut self.validity, n);
    }

    /// Reserves capacity for `additional` more slots.
    ///
    /// # Errors
    /// `Memory` if an allocation fails.
    pub fn reserve(&mut self, additional: usize) -> Result<(), Error>
        ensures same { self.new ≡ self.old }
        ensures memory { IsOkUnless result (Memory alloc_error) }
    {
        self.values.reserve(additional)?;
        validity::reserve(&mut self.validity, additional)
    }

    /// Releases unused capacity if smaller blocks can be allocated.
    pub fn shrink_to_fit(&mut self)
        ensures { self.new ≡ self.old }
    {
        self.values.shrink_to_fit();
        validity::shrink_to_fit(&mut self.validity);
    }

    /// Returns the array of the slots and empties the builder, also on error. The data type is kept.
    ///
    /// # Errors
    /// `Memory` if an allocation fails.
    pub fn freeze(&mut self) -> Result<BooleanArray, Error>
        ensures ok { IfOk result (λ a. a ≡ self.old) }
        ensures emptied { self.new ≡ layouts.boolean (layout_type self.old) [] None }
        ensures memory { IsOkUnless result (Memory alloc_error) }
    {
        let values = self.values.freeze();
        let validity = validity::freeze(&mut self.validity);
        let (values, validity) = (values?, validity?);
        BooleanArray::try_new(self.data_type.clone(self.alloc)?, values, validity)
    }
}

impl Grow<Option<bool>> for MutableBooleanArray {
    ghost layout = { λ b. b };

    ghost slot_of_item = { optional slots.boolean };

    ghost pushed = { pushed_boolean };

    ghost refusal = { boolean_refusal };

    fn count(&self) -> usize {
        self.values.len()
    }

    fn has_validity(&self) -> bool {
        self.validity.is_some()
    }

    fn push_item(&mut self, item: Option<bool>) -> Result<(), Error> {
        self.push(item)
    }

    fn rollback(&mut self, n: usize, masked: bool) {
        self.values.truncate(n);
        validity::rollback(&mut self.validity, n, masked);
    }
}
