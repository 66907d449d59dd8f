//! Double-ended iterators of fixed-size binary builders.
ghost use Rattle.std.specs.Prelude.{◌≡◌, None};
ghost use Rattle.nest_model.specs.Slot as slots;
ghost use Rattle.nest_build.specs.Words.{optional, slots_of, with_validity};

use crate::fixed_size_binary::MutableFixedSizeBinaryArray;
use nest_flat::iterator::{SlotItems, SlotsIter};

/// An iterator of the slots of a builder, `None` for a null slot.
pub type MutableFixedSizeBinaryIter<'a> = SlotsIter<BuilderSlots<'a>>;

/// An iterator of the raw values of a builder, including those of null slots.
pub type MutableFixedSizeBinaryValuesIter<'a> = SlotsIter<BuilderValues<'a>>;

/// The slots of a fixed-size binary builder, `None` for a null slot.
#[derive(Clone, Copy)]
pub struct BuilderSlots<'a>(pub &'a MutableFixedSizeBinaryArray);

impl<'a> SlotItems for BuilderSlots<'a> {
    type Item = Option<&'a [u8]>;

    ghost array = { λ s. s.0.now };

    ghost slot_of_item = { optional (λ x. slots.bytes x.now) };

    fn count(&self) -> usize {
        self.0.len()
    }

    fn item(&self, i: usize) -> Option<&'a [u8]> {
        self.0.get(i)
    }
}

/// The raw values of a fixed-size binary builder, including those of null slots.
#[derive(Clone, Copy)]
pub struct BuilderValues<'a>(pub &'a MutableFixedSizeBinaryArray);

#[tactic(auto, using(nest_flat::specs::BareSlots::len_bare))]
impl<'a> SlotItems for BuilderValues<'a> {
    type Item = &'a [u8];

    ghost array = { λ s. with_validity s.0.now None };

    ghost slot_of_item = { λ x. slots.bytes x.now };

    fn count(&self) -> usize {
        self.0.len()
    }

    fn item(&self, i: usize) -> &'a [u8] {
        self.0.value(i)
    }
}

impl MutableFixedSizeBinaryArray {
    /// Returns an iterator of the slots.
    pub fn iter(&self) -> MutableFixedSizeBinaryIter<'_>
        ensures { result ≡ slots_of self.now }
    {
        SlotsIter::new(BuilderSlots(self))
    }

    /// Returns an iterator of the raw values.
    pub fn iter_values(&self) -> MutableFixedSizeBinaryValuesIter<'_>
        ensures { result ≡ slots_of (with_validity self.now None) }
    {
        SlotsIter::new(BuilderValues(self))
    }
}
