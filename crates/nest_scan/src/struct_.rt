//! Iterators over struct arrays.
use crate::elements::{DoubleEnded, ElementsIter};
use crate::tried::{NullableElements, OptionalItems, Tried, TryElements};
use nest_array::{AnyScalar, StructArray, scalars_at};
use nest_memory::error::Error;
use std::alloc::Global;

/// An iterator over the scalars of the fields of each slot, also under a null: arrow2's `StructValueIter`.
pub type StructValueIter<'a> = ElementsIter<Tried<&'a StructArray>>;

/// An iterator over the scalars of the fields of each slot, `None` for a null.
pub type StructIter<'a> = ElementsIter<Tried<OptionalItems<&'a StructArray>>>;

impl<'a> TryElements for &'a StructArray {
    type Item = Vec<AnyScalar>;

    ghost array = { λ s. s.now };

    ghost use Rattle.nest_scan.specs.Items.{IsRecord};

    ghost IsItem = { λ a i v. IsRecord a i v.items };

    fn count(&self) -> usize {
        self.len()
    }

    fn item(&self, alloc: Global, i: usize) -> Result<Vec<AnyScalar>, Error> {
        self.known();
        scalars_at(alloc, self.values(), i)
    }
}

impl<'a> DoubleEnded for &'a StructArray {}

impl<'a> NullableElements for &'a StructArray {
    fn is_null_element(&self, i: usize) -> bool {
        self.is_null(i)
    }

    ghost asks_nothing = { λ _. tt };
}
