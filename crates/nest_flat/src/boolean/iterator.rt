//! Iterators over the slots and the raw values of a boolean array.
ghost use Rattle.std.specs.Prelude.{◌≡◌, None};
ghost use Rattle.nest_model.specs.Slot as slots;
ghost use Rattle.nest_flat.specs.Words.{slots_of, with_validity};

use crate::boolean::BooleanArray;
use crate::flat_array::{FlatArray, Slots, Values};
use crate::iterator::SlotsIter;
use nest_memory::datatypes::DataType;

/// Iterator over the slots of an array, `None` for nulls.
pub type BooleanIter<'a> = SlotsIter<Slots<&'a BooleanArray>>;

/// Iterator over the raw values of an array, including those of null slots.
pub type BooleanValuesIter<'a> = SlotsIter<Values<&'a BooleanArray>>;

impl<'a> FlatArray for &'a BooleanArray {
    type Value = bool;

    ghost layout = { λ s. s.now };

    ghost slot_of_value = { slots.boolean };

    fn type_of_slots(&self) -> &DataType {
        self.data_type()
    }

    fn count(&self) -> usize {
        self.len()
    }

    fn nulls(&self) -> usize {
        self.null_count()
    }

    fn is_null_slot(&self, i: usize) -> bool {
        self.is_null(i)
    }

    fn has_validity(&self) -> bool {
        self.validity().is_some()
    }

    fn value_at(&self, i: usize) -> bool {
        self.value(i)
    }

    fn is_same_value(&self, i: usize, other: &&'a BooleanArray, j: usize) -> bool {
        self.value(i) == other.value(j)
    }
}

impl BooleanArray {
    /// Returns a double-ended iterator over the slots.
    pub fn iter(&self) -> BooleanIter<'_>
        ensures { result ≡ slots_of self.now }
    {
        SlotsIter::new(Slots(self))
    }

    /// Returns a double-ended iterator over the raw values.
    pub fn values_iter(&self) -> BooleanValuesIter<'_>
        ensures { result ≡ slots_of (with_validity self.now None) }
    {
        SlotsIter::new(Values(self))
    }
}
