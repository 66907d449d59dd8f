//! Iterators over the slots and the raw values of a UTF-8 array.
ghost use Rattle.std.specs.Prelude.{◌≡◌, ◌<◌, None, ⊤};
ghost use Rattle.nest_model.specs.Slot as slots;
ghost use Rattle.nest_flat.specs.Texts.{IsTextOf};
ghost use Rattle.nest_flat.specs.Words.{len, optional, slots_of, with_validity};

use crate::flat_array::{FlatArray, Slots, Values};
use crate::iterator::{SlotItems, SlotsIter};
use crate::utf8::Utf8Array;
use nest_memory::datatypes::DataType;
use nest_memory::offset::Offset;
use std::alloc::AllocError;

/// Iterator over the slots of an array, `None` for nulls.
pub type Utf8Iter<'a, O> = SlotsIter<Utf8Slots<'a, O>>;

/// Iterator over the raw values of an array, including those of null slots.
pub type Utf8ValuesIter<'a, O> = SlotsIter<Utf8Values<'a, O>>;

impl<'a, O: Offset> FlatArray for &'a Utf8Array<O> {
    type Value = &'a str;

    ghost layout = { λ s. s.now };

    ghost slot_of_value = { λ x. slots.utf8 x.now };

    fn type_of_slots(&self) -> &DataType {
        self.data_type()
    }

    fn count(&self) -> usize {
        self.len()
    }

    fn nulls(&self) -> usize {
        self.null_count()
    }

    fn is_null_slot(&self, i: usize) -> bool {
        self.is_null(i)
    }

    fn has_validity(&self) -> bool {
        self.validity().is_some()
    }

    fn value_at(&self, i: usize) -> &'a str {
        self.value(i)
    }

    fn is_same_value(&self, i: usize, other: &&'a Utf8Array<O>, j: usize) -> bool {
        self.bytes_at(i) == other.bytes_at(j)
    }
}

/// The number of slots whose strings are validated together.
const BLOCK: usize = 64;

/// The raw values of a UTF-8 array, including those of null slots. A block of neighbouring slots is validated as one
/// string, which is then split into their values.
pub struct Utf8Values<'a, O: Offset> {
    array: &'a Utf8Array<O>,
    // the string of slots `first..end`
    text: &'a str,
    first: usize,
    end: usize,
    ghost block: { first < end → IsTextOf array.now first end text.now },
}

impl<'a, O: Offset> Copy for Utf8Values<'a, O> {}

impl<'a, O: Offset> Clone for Utf8Values<'a, O> {
    ghost is_clone = { λ x y. y ≡ x };

    ghost is_infallible = { λ _. ⊤ };

    fn clone(&self) -> Result<Utf8Values<'a, O>, AllocError> {
        Ok(*self)
    }
}

impl<'a, O: Offset> Utf8Values<'a, O> {
    /// Returns a source without a validated block.
    fn new(array: &'a Utf8Array<O>) -> Utf8Values<'a, O>
        ensures { result.array.now ≡ array.now }
    {
        Utf8Values {
            array,
            text: "",
            first: 0,
            end: 0,
        }
    }

    /// Returns a source whose validated block contains slot `i`.
    fn near(self, i: usize) -> Utf8Values<'a, O>
        requires { i < len self.array.now }
        ensures { result.array.now ≡ self.entry.array.now }
    {
        if self.first <= i && i < self.end {
            return self;
        }
        let array = self.array;
        let first = i - i % BLOCK;
        let end = first + BLOCK.min(array.len() - first);
        Utf8Values {
            array,
            text: array.text_between(first, end),
            first,
            end,
        }
    }
}

#[tactic(auto, using(crate::specs::BareSlots::len_bare))]
impl<'a, O: Offset> SlotItems for Utf8Values<'a, O> {
    type Item = &'a str;

    ghost array = { λ s. with_validity s.array.now None };

    ghost slot_of_item = { λ x. slots.utf8 x.now };

    fn count(&self) -> usize {
        Values(self.array).count()
    }

    fn item(&self, i: usize) -> &'a str {
        if self.first <= i && i < self.end {
            return self.array.value_in(self.text, self.first, self.end, i);
        }
        Values(self.array).item(i)
    }

    fn prepared(self, i: usize) -> Utf8Values<'a, O> {
        self.near(i)
    }
}

/// The slots of a UTF-8 array, `None` for nulls.
#[derive(Clone, Copy)]
pub struct Utf8Slots<'a, O: Offset> {
    values: Utf8Values<'a, O>,
}

#[tactic(auto, using(crate::specs::BareSlots::len_bare))]
impl<'a, O: Offset> SlotItems for Utf8Slots<'a, O> {
    type Item = Option<&'a str>;

    ghost array = { λ s. s.values.array.now };

    ghost slot_of_item = { optional (λ x. slots.utf8 x.now) };

    fn count(&self) -> usize {
        Slots(self.values.array).count()
    }

    fn item(&self, i: usize) -> Option<&'a str> {
        if self.values.array.is_null(i) {
            return None;
        }
        Some(self.values.item(i))
    }

    fn prepared(self, i: usize) -> Utf8Slots<'a, O> {
        Utf8Slots {
            values: self.values.near(i),
        }
    }
}

impl<O: Offset> Utf8Array<O> {
    /// Returns a double-ended iterator over the slots.
    pub fn iter(&self) -> Utf8Iter<'_, O>
        ensures { result ≡ slots_of self.now }
    {
        SlotsIter::new(Utf8Slots {
            values: Utf8Values::new(self),
        })
    }

    /// Returns a double-ended iterator over the raw values.
    pub fn values_iter(&self) -> Utf8ValuesIter<'_, O>
        ensures { result ≡ slots_of (with_validity self.now None) }
    {
        SlotsIter::new(Utf8Values::new(self))
    }
}
