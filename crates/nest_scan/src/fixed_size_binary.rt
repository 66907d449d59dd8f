//! Iterators over fixed-size binary arrays, without allocation.
ghost use Rattle.std.specs.Prelude.{◌≡◌};
ghost use Rattle.nest_scan.specs.Elements.{all_elements};

use crate::elements::{DoubleEnded, Elements, ElementsIter};
use crate::scan::{Scan, ScanValues};
use nest_array::FixedSizeBinaryArray;
use std::alloc::Global;

/// An iterator over the bytes of each slot, which have no meaning under a null.
pub type FixedSizeBinaryValuesIter<'a> = ElementsIter<&'a FixedSizeBinaryArray>;

/// An iterator over the bytes of each slot, `None` for a null.
pub type FixedSizeBinaryIter<'a> = ElementsIter<BytesOrNull<'a>>;

impl<'a> Elements for &'a FixedSizeBinaryArray {
    type Item = &'a [u8];

    ghost array = { λ s. s.now };

    ghost use Rattle.nest_scan.specs.Items.{IsBytes};

    ghost IsItem = { λ a i x. IsBytes a i x.now };

    fn count(&self) -> usize {
        self.len()
    }

    fn item(&self, i: usize) -> &'a [u8] {
        self.value(i)
    }
}

impl<'a> DoubleEnded for &'a FixedSizeBinaryArray {}

/// The bytes of the slots of an array, `None` for a null.
#[derive(Clone, Copy)]
pub struct BytesOrNull<'a>(pub &'a FixedSizeBinaryArray);

impl<'a> Elements for BytesOrNull<'a> {
    type Item = Option<&'a [u8]>;

    ghost array = { λ s. s.0.now };

    ghost use Rattle.nest_scan.specs.Items.{IsBytes};
    ghost use Rattle.nest_scan.specs.Elements.{IsItemOrNull};

    ghost IsItem = { IsItemOrNull (λ a i x. IsBytes a i x.now) };

    fn count(&self) -> usize {
        self.0.len()
    }

    fn item(&self, i: usize) -> Option<&'a [u8]> {
        if self.0.is_null(i) {
            return None;
        }
        Some(self.0.value(i))
    }
}

impl<'a> DoubleEnded for BytesOrNull<'a> {}

impl<'a> Scan for &'a FixedSizeBinaryArray {
    type Iter = FixedSizeBinaryIter<'a>;

    ghost Scans = { λ a it. it ≡ all_elements a.now };

    fn iter(self, alloc: Global) -> FixedSizeBinaryIter<'a> {
        let _ = alloc;
        ElementsIter::of(BytesOrNull(self))
    }
}

impl<'a> ScanValues for &'a FixedSizeBinaryArray {
    type ValuesIter = FixedSizeBinaryValuesIter<'a>;

    ghost ScansValues = { λ a it. it ≡ all_elements a.now };

    fn values_iter(self, alloc: Global) -> FixedSizeBinaryValuesIter<'a> {
        let _ = alloc;
        ElementsIter::of(self)
    }
}
