//! Iterators over fixed-size list arrays.
use crate::elements::{DoubleEnded, ElementsIter};
use crate::tried::{NullableElements, OptionalItems, Tried, TryElements};
use nest_array::{AnyArray, FixedSizeListArray};
use nest_memory::error::Error;
use std::alloc::Global;

/// An iterator over the items of each slot, also under a null: arrow2's `FixedSizeListValuesIter`.
pub type FixedSizeListValuesIter<'a> = ElementsIter<Tried<&'a FixedSizeListArray>>;

/// An iterator over the items of each slot, `None` for a null.
pub type FixedSizeListIter<'a> = ElementsIter<Tried<OptionalItems<&'a FixedSizeListArray>>>;

impl<'a> TryElements for &'a FixedSizeListArray {
    type Item = AnyArray;

    ghost array = { λ s. s.now };

    ghost use Rattle.nest_scan.specs.Items.{IsFixedSizeList};

    ghost IsItem = { IsFixedSizeList };

    fn count(&self) -> usize {
        self.len()
    }

    fn item(&self, alloc: Global, i: usize) -> Result<AnyArray, Error> {
        self.value(alloc, i)
    }
}

impl<'a> DoubleEnded for &'a FixedSizeListArray {}

impl<'a> NullableElements for &'a FixedSizeListArray {
    fn is_null_element(&self, i: usize) -> bool {
        self.is_null(i)
    }

    ghost asks_nothing = { λ _. tt };
}
