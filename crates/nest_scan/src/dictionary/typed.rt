//! Iterators over dictionaries of strings, without allocation.
ghost use Rattle.std.specs.Prelude.{◌≡◌, MatchOption, MatchResult};
ghost use Rattle.nest_memory.specs.declared.error.ArgumentError.TheVariants.{ValuesType};
ghost use Rattle.nest_memory.specs.declared.error.Error.TheVariants.{InvalidArgumentError};
ghost use Rattle.nest_model.specs.Accessors.{child_of};
ghost use Rattle.nest_model.specs.Layout.{Layout};
ghost use Rattle.nest_model.specs.Nullness.{null_count};
ghost use Rattle.nest_array.specs.Seen.{layout_of};
ghost use Rattle.nest_scan.specs.Items.{AreTexts, EachKeyNames};
ghost use Rattle.nest_scan.specs.Elements.{all_elements};

use crate::dictionary::keys::{KeysIter, KeysValuesIter, RawKeys, ValidKeys};
use crate::elements::{DoubleEnded, Elements, ElementsIter};
use nest_array::{AnyArray, DictionaryArray};
use nest_flat::utf8::Utf8Array;
use nest_memory::error::{ArgumentError, Error};
use nest_memory::offset::Offset;
use std::alloc::AllocError;

/// An iterator over the string of each slot, without nulls in keys and values: arrow2's `DictionaryValuesIterTyped`.
pub type DictionaryValuesIterTyped<'a, O> = ElementsIter<TypedValues<'a, O>>;

/// An iterator over the string of each slot, `None` for a null key, without nulls in the values.
///
/// Raw keys under nulls are not read.
pub type DictionaryIterTyped<'a, O> = ElementsIter<TypedOrNull<'a, O>>;

/// An offset type with a downcast to the UTF-8 arrays of that type.
pub trait TextOffset: Offset {
    /// Returns the array as a UTF-8 array with these offsets, `None` where it is of another type.
    fn texts(array: &AnyArray) -> Option<&Utf8Array<Self>>
        ensures { MatchOption result
            (AreTexts Self.IS_LARGE (layout_of array.now) → ⊥)
            (λ t. AreTexts Self.IS_LARGE (layout_of array.now) × (t.now ≡ layout_of array.now)) };
}

impl TextOffset for i32 {
    fn texts(array: &AnyArray) -> Option<&Utf8Array<i32>> {
        array.as_utf8()
    }
}

impl TextOffset for i64 {
    fn texts(array: &AnyArray) -> Option<&Utf8Array<i64>> {
        array.as_large_utf8()
    }
}

/// The strings of the slots of a dictionary.
pub struct TypedValues<'a, O: Offset> {
    keys: &'a DictionaryArray,
    values: &'a Utf8Array<O>,
    ghost of_keys: { values.now ≡ child_of keys.now },
}

impl<'a, O: Offset> Clone for TypedValues<'a, O> {
    ghost use Rattle.std.specs.Prelude.{◌≡◌, ⊤};

    ghost is_clone = { λ s t. t ≡ s };

    ghost is_infallible = { λ _. ⊤ };

    fn clone(&self) -> Result<TypedValues<'a, O>, AllocError> {
        Ok(*self)
    }
}

impl<'a, O: Offset> Copy for TypedValues<'a, O> {}

impl<'a, O: Offset> Elements for TypedValues<'a, O> {
    type Item = &'a str;

    ghost array = { λ s. s.keys.now };

    ghost use Rattle.nest_model.specs.Accessors.{child_of};
    ghost use Rattle.nest_scan.specs.Items.{HasNoNull, IsText};

    ghost Asks = { λ a. HasNoNull a × HasNoNull (child_of a) };

    ghost IsItem = { λ a i x. IsText a i x.now };

    fn count(&self) -> usize {
        self.keys.len()
    }

    fn item(&self, i: usize) -> &'a str {
        self.keys.known();
        self.values.known();
        self.values.value(self.keys.key_value(i))
    }
}

impl<'a, O: Offset> DoubleEnded for TypedValues<'a, O> {}

/// The strings of the slots of a dictionary, `None` for a null key.
#[derive(Clone, Copy)]
pub struct TypedOrNull<'a, O: Offset>(TypedValues<'a, O>);

impl<'a, O: Offset> Elements for TypedOrNull<'a, O> {
    type Item = Option<&'a str>;

    ghost array = { λ s. s.0.keys.now };

    ghost use Rattle.nest_model.specs.Accessors.{child_of};
    ghost use Rattle.nest_scan.specs.Items.{HasNoNull, IsText};
    ghost use Rattle.nest_scan.specs.Elements.{IsItemOrNull};

    ghost Asks = { λ a. HasNoNull (child_of a) };

    ghost IsItem = { IsItemOrNull (λ a i x. IsText a i x.now) };

    fn count(&self) -> usize {
        self.0.keys.len()
    }

    fn item(&self, i: usize) -> Option<&'a str> {
        self.0.keys.known();
        self.0.values.known();
        if self.0.keys.is_null(i) {
            return None;
        }
        Some(self.0.values.value(self.0.keys.key_value(i)))
    }
}

impl<'a, O: Offset> DoubleEnded for TypedOrNull<'a, O> {}

/// A dictionary array whose keys can be iterated.
pub trait ScanKeys {
    /// The dictionary array.
    ghost keyed: { Self → Layout };

    /// Returns an iterator over the keys, `None` for a null. Raw keys under nulls are not read.
    fn keys_iter(&self) -> KeysIter<'_>
        ensures { result ≡ all_elements (keyed self.now) };

    /// Returns an iterator over the raw keys, also under nulls.
    fn keys_values_iter(&self) -> KeysValuesIter<'_>
        requires { EachKeyNames (keyed self.now) }
        ensures { result ≡ all_elements (keyed self.now) };

    /// Returns an iterator over the strings, `None` for a null key.
    ///
    /// # Errors
    /// `InvalidArgumentError(ValuesType)` where the values are not a UTF-8 array with these offsets.
    fn iter_typed<O: TextOffset>(&self) -> Result<DictionaryIterTyped<'_, O>, Error>
        requires { null_count (child_of (keyed self.now)) ≡ 0 }
        ensures { let a = keyed self.now in MatchResult result
            (λ it. AreTexts O.IS_LARGE (child_of a) × (it ≡ all_elements a))
            (λ e. (AreTexts O.IS_LARGE (child_of a) → ⊥) × (e ≡ InvalidArgumentError ValuesType)) };

    /// Returns an iterator over the strings of a dictionary without null keys.
    ///
    /// # Errors
    /// `InvalidArgumentError(ValuesType)` where the values are not a UTF-8 array with these offsets.
    fn values_iter_typed<O: TextOffset>(&self) -> Result<DictionaryValuesIterTyped<'_, O>, Error>
        requires keys { null_count (keyed self.now) ≡ 0 }
        requires values { null_count (child_of (keyed self.now)) ≡ 0 }
        ensures { let a = keyed self.now in MatchResult result
            (λ it. AreTexts O.IS_LARGE (child_of a) × (it ≡ all_elements a))
            (λ e. (AreTexts O.IS_LARGE (child_of a) → ⊥) × (e ≡ InvalidArgumentError ValuesType)) };
}

impl ScanKeys for DictionaryArray {
    ghost keyed = { λ a. a };

    fn keys_iter(&self) -> KeysIter<'_> {
        ElementsIter::of(ValidKeys(self))
    }

    fn keys_values_iter(&self) -> KeysValuesIter<'_> {
        ElementsIter::of(RawKeys(self))
    }

    fn iter_typed<O: TextOffset>(&self) -> Result<DictionaryIterTyped<'_, O>, Error> {
        match O::texts(self.values()) {
            Some(values) => Ok(ElementsIter::of(TypedOrNull(TypedValues { keys: self, values }))),
            None => Err(Error::InvalidArgumentError(ArgumentError::ValuesType)),
        }
    }

    fn values_iter_typed<O: TextOffset>(&self) -> Result<DictionaryValuesIterTyped<'_, O>, Error> {
        match O::texts(self.values()) {
            Some(values) => Ok(ElementsIter::of(TypedValues { keys: self, values })),
            None => Err(Error::InvalidArgumentError(ArgumentError::ValuesType)),
        }
    }
}
