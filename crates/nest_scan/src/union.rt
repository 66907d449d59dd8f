//! Iterators over union arrays.
ghost use Rattle.std.specs.Prelude.{◌≡◌};
ghost use Rattle.nest_scan.specs.Elements.{all_elements};

use crate::elements::ElementsIter;
use crate::scan::Scan;
use crate::tried::{Tried, TryElements};
use nest_array::{AnyScalar, UnionArray};
use nest_memory::error::Error;
use std::alloc::Global;

/// An iterator over the scalar that each slot picks, from the front only: arrow2's `UnionIter`.
pub type UnionIter<'a> = ElementsIter<Tried<&'a UnionArray>>;

impl<'a> TryElements for &'a UnionArray {
    type Item = AnyScalar;

    ghost array = { λ s. s.now };

    ghost use Rattle.nest_scan.specs.Items.{IsPicked};

    ghost IsItem = { IsPicked };

    fn count(&self) -> usize {
        self.len()
    }

    fn item(&self, alloc: Global, i: usize) -> Result<AnyScalar, Error> {
        self.value(alloc, i)
    }
}

impl<'a> Scan for &'a UnionArray {
    type Iter = UnionIter<'a>;

    ghost Scans = { λ a it. it ≡ all_elements a.now };

    fn iter(self, alloc: Global) -> UnionIter<'a> {
        ElementsIter::new(alloc, self)
    }
}
