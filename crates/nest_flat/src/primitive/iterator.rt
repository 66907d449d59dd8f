//! Iterators over the slots and the raw values of a primitive array.
ghost use Rattle.std.specs.Prelude.{◌≡◌, ◌↔◌, ◌+◌, ◌≤◌, ◌<◌, IsTrue, None, map};
ghost use Rattle.nest_model.specs.Slot as slots;
ghost use Rattle.nest_flat.specs.Words.{sublist, len, natives_of, optional, run, slot, slots_of, with_validity};

use crate::flat_array::{FlatArray, Slots, Values};
use crate::iterator::SlotsIter;
use crate::primitive::PrimitiveArray;
use nest_memory::datatypes::DataType;
use nest_memory::types::NativeType;

/// Iterator over the slots of an array, `None` for nulls.
pub type PrimitiveIter<'a, T> = SlotsIter<Slots<&'a PrimitiveArray<T>>>;

/// Iterator over the raw values of an array, including those of null slots.
pub type PrimitiveValuesIter<'a, T> = SlotsIter<Values<&'a PrimitiveArray<T>>>;

impl<'a, T: NativeType> FlatArray for &'a PrimitiveArray<T> {
    type Value = T;

    ghost layout = { λ s. s.now };

    ghost slot_of_value = { λ x. slots.number (T.numbers x) };

    fn type_of_slots(&self) -> &DataType {
        self.data_type()
    }

    fn count(&self) -> usize {
        self.len()
    }

    fn nulls(&self) -> usize {
        self.null_count()
    }

    fn is_null_slot(&self, i: usize) -> bool {
        self.is_null(i)
    }

    fn has_validity(&self) -> bool {
        self.validity().is_some()
    }

    fn value_at(&self, i: usize) -> T {
        self.value(i)
    }

    fn is_same_value(&self, i: usize, other: &&'a PrimitiveArray<T>, j: usize) -> bool {
        self.value(i) == other.value(j)
    }

    fn same_values(&self, o: usize, other: &&'a PrimitiveArray<T>, p: usize, n: usize) -> bool {
        self.equal_block(o, other, p, n)
    }

    // The raw values are borrowed once for all slots.
    fn each_same_slot(&self, o: usize, other: &&'a PrimitiveArray<T>, p: usize, n: usize) -> bool {
        let (left, right) = (self.values.as_slice(), other.values.as_slice());
        let _ends = (self.len(), other.len());
        for k in 0..n {
            if !is_same_item(self.item_in(left, o + k), other.item_in(right, p + k)) {
                return false;
            }
        }
        true
    }
}

// Returns whether two items represent the same slot.
#[inline]
fn is_same_item<T: NativeType>(x: Option<T>, y: Option<T>) -> bool
    ensures { IsTrue result
        ↔ (optional (λ v. slots.number (T.numbers v)) x ≡ optional (λ v. slots.number (T.numbers v)) y) }
{
    match (x, y) {
        (Some(x), Some(y)) => x == y,
        (None, None) => true,
        _ => false,
    }
}

impl<T: NativeType> PrimitiveArray<T> {
    /// Returns a double-ended iterator over the slots.
    pub fn iter(&self) -> PrimitiveIter<'_, T>
        ensures { result ≡ slots_of self.now }
    {
        SlotsIter::new(Slots(self))
    }

    /// Returns a double-ended iterator over the raw values.
    pub fn values_iter(&self) -> PrimitiveValuesIter<'_, T>
        ensures { result ≡ slots_of (with_validity self.now None) }
    {
        SlotsIter::new(Values(self))
    }

    // Returns the raw values of slots `o..o + n`.
    pub(crate) fn values_from(&self, o: usize, n: usize) -> &[T]
        requires { o + n ≤ len self.now }
        ensures raw { map T.numbers result.now ≡ sublist (natives_of self.now) o n }
        ensures unmasked { run (slot (with_validity self.now None)) o n ≡ map (λ x. slots.number (T.numbers x)) result.now }
    {
        let _end = self.len();
        let values = self.values.as_slice();
        &values[o..o + n]
    }

    // Returns the value of slot `i` of all raw values, or `None` if it is null.
    #[inline]
    fn item_in(&self, values: &[T], i: usize) -> Option<T>
        requires shown { map T.numbers values.now ≡ natives_of self.now }
        requires within { i < len self.now }
        ensures { optional (λ x. slots.number (T.numbers x)) result ≡ slot self.now i }
    {
        let _len = self.values.len();
        if self.is_null(i) {
            return None;
        }
        Some(values[i])
    }
}
