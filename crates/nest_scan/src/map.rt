//! Iterators over map arrays.
use crate::elements::{DoubleEnded, ElementsIter};
use crate::tried::{NullableElements, OptionalItems, Tried, TryElements};
use nest_array::{AnyArray, MapArray};
use nest_memory::error::Error;
use std::alloc::Global;

/// An iterator over the entries of each slot, also under a null: arrow2's `MapValuesIter`.
pub type MapValuesIter<'a> = ElementsIter<Tried<&'a MapArray>>;

/// An iterator over the entries of each slot, `None` for a null.
pub type MapIter<'a> = ElementsIter<Tried<OptionalItems<&'a MapArray>>>;

impl<'a> TryElements for &'a MapArray {
    type Item = AnyArray;

    ghost array = { λ s. s.now };

    ghost use Rattle.nest_scan.specs.Items.{IsList};

    ghost IsItem = { IsList };

    fn count(&self) -> usize {
        self.len()
    }

    fn item(&self, alloc: Global, i: usize) -> Result<AnyArray, Error> {
        self.value(alloc, i)
    }
}

impl<'a> DoubleEnded for &'a MapArray {}

impl<'a> NullableElements for &'a MapArray {
    fn is_null_element(&self, i: usize) -> bool {
        self.is_null(i)
    }

    ghost asks_nothing = { λ _. tt };
}
