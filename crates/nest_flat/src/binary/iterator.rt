//! Iterators over the slots and the raw values of a binary array.
ghost use Rattle.std.specs.Prelude.{◌≡◌, None};
ghost use Rattle.nest_model.specs.Slot as slots;
ghost use Rattle.nest_flat.specs.Words.{optional, slots_of, with_validity};

use crate::binary::BinaryArray;
use crate::flat_array::{FlatArray, Slots, Values};
use crate::iterator::{SlotItems, SlotsIter};
use nest_memory::datatypes::DataType;
use nest_memory::offset::Offset;

/// Iterator over the slots of an array, `None` for nulls.
pub type BinaryIter<'a, O> = SlotsIter<BinarySlots<'a, O>>;

/// Iterator over the raw values of an array, including those of null slots.
pub type BinaryValuesIter<'a, O> = SlotsIter<BinaryValues<'a, O>>;

impl<'a, O: Offset> FlatArray for &'a BinaryArray<O> {
    type Value = &'a [u8];

    ghost layout = { λ s. s.now };

    ghost slot_of_value = { λ x. slots.bytes x.now };

    fn type_of_slots(&self) -> &DataType {
        self.data_type()
    }

    fn count(&self) -> usize {
        self.len()
    }

    fn nulls(&self) -> usize {
        self.null_count()
    }

    fn is_null_slot(&self, i: usize) -> bool {
        self.is_null(i)
    }

    fn has_validity(&self) -> bool {
        self.validity().is_some()
    }

    fn value_at(&self, i: usize) -> &'a [u8] {
        self.value(i)
    }

    fn is_same_value(&self, i: usize, other: &&'a BinaryArray<O>, j: usize) -> bool {
        self.value(i) == other.value(j)
    }
}

// Separate types: no proof covers an iterator over `Slots` whose values are references.

/// The slots of a binary array, `None` for nulls.
#[derive(Clone, Copy)]
pub struct BinarySlots<'a, O: Offset>(pub &'a BinaryArray<O>);

impl<'a, O: Offset> SlotItems for BinarySlots<'a, O> {
    type Item = Option<&'a [u8]>;

    ghost array = { λ s. s.0.now };

    ghost slot_of_item = { optional (λ x. slots.bytes x.now) };

    fn count(&self) -> usize {
        Slots(self.0).count()
    }

    fn item(&self, i: usize) -> Option<&'a [u8]> {
        Slots(self.0).item(i)
    }
}

/// The raw values of a binary array, including those of null slots.
#[derive(Clone, Copy)]
pub struct BinaryValues<'a, O: Offset>(pub &'a BinaryArray<O>);

impl<'a, O: Offset> SlotItems for BinaryValues<'a, O> {
    type Item = &'a [u8];

    ghost array = { λ s. with_validity s.0.now None };

    ghost slot_of_item = { λ x. slots.bytes x.now };

    fn count(&self) -> usize {
        Values(self.0).count()
    }

    fn item(&self, i: usize) -> &'a [u8] {
        Values(self.0).item(i)
    }
}

impl<O: Offset> BinaryArray<O> {
    /// Returns a double-ended iterator over the slots.
    pub fn iter(&self) -> BinaryIter<'_, O>
        ensures { result ≡ slots_of self.now }
    {
        SlotsIter::new(BinarySlots(self))
    }

    /// Returns a double-ended iterator over the raw values.
    pub fn values_iter(&self) -> BinaryValuesIter<'_, O>
        ensures { result ≡ slots_of (with_validity self.now None) }
    {
        SlotsIter::new(BinaryValues(self))
    }
}
