//! Iterators over dictionary arrays.
mod keys;
mod typed;

ghost use Rattle.std.specs.Prelude.{◌≡◌};
ghost use Rattle.nest_scan.specs.Items.{EachKeyNames};
ghost use Rattle.nest_scan.specs.Elements.{all_elements};

use crate::elements::{DoubleEnded, ElementsIter};
use crate::scan::{Scan, ScanValues};
use crate::tried::{Tried, TryElements};
pub use keys::{KeysIter, KeysValuesIter, RawKeys, ValidKeys};
use nest_array::{AnyScalar, DictionaryArray};
use nest_memory::error::Error;
use std::alloc::Global;
pub use typed::{
    DictionaryIterTyped, DictionaryValuesIterTyped, ScanKeys, TextOffset, TypedOrNull, TypedValues,
};

/// An iterator over the value of each raw key, also under a null: arrow2's `DictionaryValuesIter`.
///
/// It requires that each raw key is the index of a value.
pub type DictionaryValuesIter<'a> = ElementsIter<Tried<&'a DictionaryArray>>;

/// An iterator over the value of each key, `None` for a null. Raw keys under nulls are not read.
pub type DictionaryIter<'a> = ElementsIter<Tried<KeyedOrNull<'a>>>;

impl<'a> TryElements for &'a DictionaryArray {
    type Item = AnyScalar;

    ghost array = { λ s. s.now };

    ghost use Rattle.nest_scan.specs.Items.{EachKeyNames, IsKeyed};

    ghost Asks = { EachKeyNames };

    ghost IsItem = { IsKeyed };

    fn count(&self) -> usize {
        self.len()
    }

    fn item(&self, alloc: Global, i: usize) -> Result<AnyScalar, Error> {
        self.known();
        self.keys().known();
        self.value(alloc, i)
    }
}

impl<'a> DoubleEnded for &'a DictionaryArray {}

/// The values of the keys of a dictionary, `None` for a null.
#[derive(Clone, Copy)]
pub struct KeyedOrNull<'a>(pub &'a DictionaryArray);

impl<'a> TryElements for KeyedOrNull<'a> {
    type Item = Option<AnyScalar>;

    ghost array = { λ s. s.0.now };

    ghost use Rattle.nest_scan.specs.Items.{IsKeyed};
    ghost use Rattle.nest_scan.specs.Elements.{IsItemOrNull};

    ghost IsItem = { IsItemOrNull IsKeyed };

    fn count(&self) -> usize {
        self.0.len()
    }

    fn item(&self, alloc: Global, i: usize) -> Result<Option<AnyScalar>, Error> {
        self.0.known();
        if self.0.is_null(i) {
            return Ok(None);
        }
        match self.0.value(alloc, i) {
            Ok(scalar) => Ok(Some(scalar)),
            Err(error) => Err(error),
        }
    }
}

impl<'a> DoubleEnded for KeyedOrNull<'a> {}

impl<'a> Scan for &'a DictionaryArray {
    type Iter = DictionaryIter<'a>;

    ghost Scans = { λ a it. it ≡ all_elements a.now };

    fn iter(self, alloc: Global) -> DictionaryIter<'a> {
        ElementsIter::new(alloc, KeyedOrNull(self))
    }
}

impl<'a> ScanValues for &'a DictionaryArray {
    type ValuesIter = DictionaryValuesIter<'a>;

    ghost CanScanValues = { λ a. EachKeyNames a.now };

    ghost ScansValues = { λ a it. it ≡ all_elements a.now };

    fn values_iter(self, alloc: Global) -> DictionaryValuesIter<'a> {
        ElementsIter::new(alloc, self)
    }
}
