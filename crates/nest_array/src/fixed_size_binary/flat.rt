//! Fixed-size binary arrays as flat arrays.
ghost use Rattle.nest_model.specs.Slot as slots;

use crate::fixed_size_binary::FixedSizeBinaryArray;
use nest_flat::flat_array::FlatArray;
use nest_memory::datatypes::DataType;

impl<'a> FlatArray for &'a FixedSizeBinaryArray {
    type Value = &'a [u8];

    ghost layout = { λ s. s.now };

    ghost slot_of_value = { λ x. slots.bytes x.now };

    fn type_of_slots(&self) -> &DataType {
        self.data_type()
    }

    fn count(&self) -> usize {
        self.len()
    }

    fn nulls(&self) -> usize {
        self.null_count()
    }

    fn is_null_slot(&self, i: usize) -> bool {
        self.is_null(i)
    }

    fn has_validity(&self) -> bool {
        self.validity().is_some()
    }

    fn value_at(&self, i: usize) -> &'a [u8] {
        self.value(i)
    }

    fn is_same_value(&self, i: usize, other: &&'a FixedSizeBinaryArray, j: usize) -> bool {
        self.value(i) == other.value(j)
    }
}
