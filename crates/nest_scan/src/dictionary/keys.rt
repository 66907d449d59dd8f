//! Iterators over the keys of dictionaries, as indices of values, without allocation.
use crate::elements::{DoubleEnded, Elements, ElementsIter};
use nest_array::DictionaryArray;

/// An iterator over the raw keys, also under nulls. It requires that each raw key is the index of a value.
pub type KeysValuesIter<'a> = ElementsIter<RawKeys<'a>>;

/// An iterator over the keys, `None` for a null. Raw keys under nulls are not read.
pub type KeysIter<'a> = ElementsIter<ValidKeys<'a>>;

/// The raw keys of a dictionary.
#[derive(Clone, Copy)]
pub struct RawKeys<'a>(pub &'a DictionaryArray);

impl<'a> Elements for RawKeys<'a> {
    type Item = usize;

    ghost array = { λ s. s.0.now };

    ghost use Rattle.nest_scan.specs.Items.{EachKeyNames, IsKey};

    ghost Asks = { EachKeyNames };

    ghost IsItem = { IsKey };

    fn count(&self) -> usize {
        self.0.len()
    }

    fn item(&self, i: usize) -> usize {
        self.0.known();
        self.0.keys().known();
        self.0.key_value(i)
    }
}

impl<'a> DoubleEnded for RawKeys<'a> {}

/// The keys of a dictionary, `None` for a null.
#[derive(Clone, Copy)]
pub struct ValidKeys<'a>(pub &'a DictionaryArray);

impl<'a> Elements for ValidKeys<'a> {
    type Item = Option<usize>;

    ghost array = { λ s. s.0.now };

    ghost use Rattle.nest_scan.specs.Items.{IsKey};
    ghost use Rattle.nest_scan.specs.Elements.{IsItemOrNull};

    ghost IsItem = { IsItemOrNull IsKey };

    fn count(&self) -> usize {
        self.0.len()
    }

    fn item(&self, i: usize) -> Option<usize> {
        self.0.known();
        if self.0.is_null(i) {
            return None;
        }
        Some(self.0.key_value(i))
    }
}

impl<'a> DoubleEnded for ValidKeys<'a> {}
