//! Equality of fixed-size binary builders: equal slots; the data types are not compared.
ghost use Rattle.std.specs.Prelude.{◌≡◌, ◌↔◌, ◌<◌, IsTrue};
ghost use Rattle.nest_model.specs.Nullness.{is_null_at, null_count};
ghost use Rattle.nest_model.specs.Slot as slots;
ghost use Rattle.nest_build.specs.Words.{len, slot, slots_of};

use crate::fixed_size_binary::MutableFixedSizeBinaryArray;
use nest_flat::flat_array::{self, FlatArray};
use nest_memory::datatypes::DataType;

impl MutableFixedSizeBinaryArray {
    fn is_null(&self, i: usize) -> bool
        requires { i < len self.now }
        ensures slot { IsTrue result ↔ (slot self.now i ≡ slots.null) }
        ensures place { result ≡ is_null_at self.now i }
    {
        self.known();
        !self.is_valid(i)
    }

    fn null_count(&self) -> usize
        ensures { result ≡ null_count self.now }
    {
        self.known();
        match self.validity() {
            None => 0,
            Some(bits) => bits.unset_bits(),
        }
    }
}

impl<'a> FlatArray for &'a MutableFixedSizeBinaryArray {
    type Value = &'a [u8];

    ghost layout = { λ s. s.now };

    ghost slot_of_value = { λ x. slots.bytes x.now };

    fn type_of_slots(&self) -> &DataType {
        self.data_type()
    }

    fn count(&self) -> usize {
        self.len()
    }

    fn nulls(&self) -> usize {
        self.null_count()
    }

    fn is_null_slot(&self, i: usize) -> bool {
        self.is_null(i)
    }

    fn has_validity(&self) -> bool {
        self.validity().is_some()
    }

    fn value_at(&self, i: usize) -> &'a [u8] {
        self.value(i)
    }

    fn is_same_value(&self, i: usize, other: &&'a MutableFixedSizeBinaryArray, j: usize) -> bool {
        self.value(i) == other.value(j)
    }
}

/// Returns whether two builders have equal slots.
fn same_rows(a: &MutableFixedSizeBinaryArray, b: &MutableFixedSizeBinaryArray) -> bool
    ensures { IsTrue result ↔ (slots_of a.now ≡ slots_of b.now) }
{
    let n = a.len();
    if n != b.len() {
        return false;
    }
    flat_array::same_run(a, 0, b, 0, n)
}

impl PartialEq for MutableFixedSizeBinaryArray {
    ghost use Rattle.std.specs.Cmp.{on_equiv, partial_equiv_from_equiv};
    ghost use Rattle.nest_model.specs.Meaning.{slots_of};
    ghost use Rattle.nest_model.specs.SlotCode.{same_slots, same_slots-equiv};

    ghost eq = { λ a b. same_slots (slots_of a) (slots_of b) };

    ghost laws = { partial_equiv_from_equiv (on_equiv slots_of same_slots-equiv) };

    fn eq(&self, other: &MutableFixedSizeBinaryArray) -> bool
        ensures computes { result ≡ same_slots (slots_of self.now) (slots_of other.now) }
        ensures decides { IsTrue result ↔ (slots_of self.now ≡ slots_of other.now) }
    {
        same_rows(self, other)
    }
}
