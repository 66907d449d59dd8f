//! Iterators over list arrays.
use crate::elements::{DoubleEnded, ElementsIter};
use crate::tried::{NullableElements, OptionalItems, Tried, TryElements};
use nest_array::{AnyArray, LargeListArray, ListArray, ListOffset};
use nest_memory::error::Error;
use std::alloc::Global;

/// An iterator over the items of each slot, also under a null: arrow2's `ListValuesIter`.
pub type ListValuesIter<'a, O> = ElementsIter<Tried<&'a <O as ListOffset>::List>>;

/// An iterator over the items of each slot, `None` for a null.
pub type ListIter<'a, O> = ElementsIter<Tried<OptionalItems<&'a <O as ListOffset>::List>>>;

impl<'a> TryElements for &'a ListArray {
    type Item = AnyArray;

    ghost array = { λ s. s.now };

    ghost use Rattle.nest_scan.specs.Items.{IsList};

    ghost IsItem = { IsList };

    fn count(&self) -> usize {
        self.len()
    }

    fn item(&self, alloc: Global, i: usize) -> Result<AnyArray, Error> {
        self.value(alloc, i)
    }
}

impl<'a> DoubleEnded for &'a ListArray {}

impl<'a> NullableElements for &'a ListArray {
    fn is_null_element(&self, i: usize) -> bool {
        self.is_null(i)
    }

    ghost asks_nothing = { λ _. tt };
}

impl<'a> TryElements for &'a LargeListArray {
    type Item = AnyArray;

    ghost array = { λ s. s.now };

    ghost use Rattle.nest_scan.specs.Items.{IsList};

    ghost IsItem = { IsList };

    fn count(&self) -> usize {
        self.len()
    }

    fn item(&self, alloc: Global, i: usize) -> Result<AnyArray, Error> {
        self.value(alloc, i)
    }
}

impl<'a> DoubleEnded for &'a LargeListArray {}

impl<'a> NullableElements for &'a LargeListArray {
    fn is_null_element(&self, i: usize) -> bool {
        self.is_null(i)
    }

    ghost asks_nothing = { λ _. tt };
}
