//! Dictionary-encoded arrays.
mod copies;
pub mod keys;
mod nulls;

ghost use Rattle.std.specs.Prelude.{◌≡◌, ◌+◌, ◌≤◌, ◌<◌, ◌↔◌, pos, true, false, IsTrue, IfOk, IsOkUnless, MatchOption, MatchResult, option_map, alloc_error};
ghost use Rattle.nest_memory.specs.Rising.{below_zero};
ghost use Rattle.nest_memory.specs.TypeTree.{is_ordered};
ghost use Rattle.nest_model.specs.Accessors.{key_at, key_type_of, keys_of, raw_keys};
ghost use Rattle.nest_model.specs.Fits.{EachNames, Names};
ghost use Rattle.nest_model.specs.Layout as layouts;
ghost use Rattle.nest_model.specs.Part.{to_index};
ghost use Rattle.nest_model.specs.Slot as slots;
ghost use Rattle.nest_array.specs.Keys.{keyed_by};
ghost use Rattle.nest_array.specs.ScalarParts.{scalar_parts};
ghost use Rattle.nest_array.specs.SeenKeys.{keys_layout};
ghost use Rattle.nest_array.specs.Types.{default_dictionary_type, default_dictionary};
ghost use Rattle.nest_array.specs.Words.{FirstError, Fits, IsSlice, Keeps, Memory, RefusesOrMemory, TopFits, child_of, slice_layout, has_keys, is_null_at, layout_of, layout_type, len, null_count, slot, type_of, validity_of, where_valid};

use crate::any::AnyArray;
use crate::scalar::{AnyScalar, new_scalar};
use crate::types::{has_key_type, has_values, is_dictionary};
use keys::AnyKeys;
use nest_memory::bitmap::immutable::Bitmap;
use nest_memory::datatypes::DataType;
use nest_memory::error::{Error, SpecError};
use std::alloc::Global;
use std::marker::Model;
use std::rc::Rc;

/// Dictionary-encoded Layout: an array of keys, which are indices of an array of values.
///
/// A slot is null if its key is null. Otherwise it is the value at its key, which may itself be null.
#[cycle(array)]
#[derive(Drop)]
pub struct DictionaryArray {
    keys: AnyKeys,
    shared: Rc<TypedValues>,
}

// The parts that slices and new validities leave unchanged, which all copies share.
#[cycle(array)]
#[derive(Drop)]
struct TypedValues {
    data_type: DataType,
    values: AnyArray,
}

impl Model for DictionaryArray {
    ghost use Rattle.nest_model.specs.Layout.{Layout, weight};
    ghost use Rattle.nest_model.specs.LayoutCode.{coded_layout};

    ghost Value = { Layout };

    ghost coded = { coded_layout };

    ghost use Rattle.nest_model.specs.Array.{TopFits};
    ghost use Rattle.nest_array.specs.SeenDictionary.{dictionary_seen};

    ghost view = { dictionary_seen };

    ghost invariant = { λ a. TopFits (dictionary_seen a) };

    ghost size = { weight };

    ghost use Rattle.std.proofs.Common.{arith};
    ghost use Rattle.nest_array.specs.Falls.{deep-size};

    ghost size_decreases = { λ a h. Prim.omega (arith, deep-size a.shared.value.values) };
}

impl DictionaryArray {
    /// Returns the array of these parts.
    ///
    /// Raw keys are checked even where they are null, unless all keys are null.
    ///
    /// # Errors
    /// The first that applies:
    /// - `WrongType`: the logical type is not `Dictionary`;
    /// - `KeyType`: the keys are not of its key type;
    /// - `ChildType`: the values have another logical type than its value type;
    /// - `KeyRange`: a key is not an index of the values;
    /// - `Memory`: an allocation for the data type and values fails.
    pub fn try_new(
        alloc: Global,
        data_type: DataType,
        keys: AnyKeys,
        values: AnyArray,
    ) -> Result<DictionaryArray, Error>
        ensures { let parts = layouts.dictionary (type_of data_type) (keys_layout keys) (layout_of values) in
            MatchResult result (λ a. Fits parts × (a ≡ parts)) (λ e. RefusesOrMemory e parts) }
    {
        if let Some(error) = first_error(&data_type, &keys, &values) {
            drop(values);
            drop(keys);
            drop(data_type);
            return Err(error);
        }
        DictionaryArray::of(alloc, data_type, keys, values)
    }

    /// Returns the array of these keys and values, of their dictionary type without order.
    ///
    /// # Errors
    /// `KeyRange` as in `try_new`, then `Memory` where an allocation fails.
    pub fn try_from_keys(
        alloc: Global,
        keys: AnyKeys,
        values: AnyArray,
    ) -> Result<DictionaryArray, Error>
        ensures { let parts = default_dictionary (keys_layout keys) (layout_of values) in
            MatchResult result (λ a. Fits parts × (a ≡ parts)) (λ e. RefusesOrMemory e parts) }
    {
        keys.known();
        if !keys.are_in_range(values.len()) {
            drop(values);
            drop(keys);
            return Err(Error::OutOfSpec(SpecError::KeyRange));
        }
        match default_type(alloc, &keys, &values) {
            Ok(data_type) => DictionaryArray::of(alloc, data_type, keys, values),
            Err(error) => {
                drop(values);
                drop(keys);
                Err(error)
            }
        }
    }

    /// Returns the array of these parts, which must pass the checks of `try_new`.
    ///
    /// # Errors
    /// `Memory` where an allocation fails.
    pub fn new(
        alloc: Global,
        data_type: DataType,
        keys: AnyKeys,
        values: AnyArray,
    ) -> Result<DictionaryArray, Error>
        requires { Fits (layouts.dictionary (type_of data_type) (keys_layout keys) (layout_of values)) }
        ensures ok { IfOk result (λ a. a ≡ layouts.dictionary (type_of data_type) (keys_layout keys) (layout_of values)) }
        ensures err { IsOkUnless result (Memory alloc_error) }
    {
        DictionaryArray::of(alloc, data_type, keys, values)
    }

    // Returns the array of checked parts.
    fn of(
        alloc: Global,
        data_type: DataType,
        keys: AnyKeys,
        values: AnyArray,
    ) -> Result<DictionaryArray, Error>
        requires { Keeps (layouts.dictionary (type_of data_type) (keys_layout keys) (layout_of values)) }
        ensures ok { IfOk result (λ a. a ≡ layouts.dictionary (type_of data_type) (keys_layout keys) (layout_of values)) }
        ensures err { IsOkUnless result (Memory alloc_error) }
    {
        keys.known();
        match Rc::new(alloc, TypedValues { data_type, values }) {
            Ok(shared) => Ok(DictionaryArray { keys, shared }),
            Err(error) => {
                drop(keys);
                Err(error.into())
            }
        }
    }

    /// Shows the prover the invariant of the array. Does nothing at run time.
    pub fn known(&self)
        ensures fits { TopFits self.now }
        ensures kind { self.now ≡ layouts.dictionary (layout_type self.now) (keys_of self.now) (child_of self.now) }
    {
        let _ = &self.shared;
    }

    /// Returns the number of slots.
    pub fn len(&self) -> usize
        ensures { result ≡ len self.now }
    {
        self.keys.len()
    }

    /// Returns the data type.
    pub fn data_type(&self) -> &DataType
        ensures { type_of result.now ≡ layout_type self.now }
    {
        &self.shared.data_type
    }

    /// Returns whether the data type declares the values ordered.
    pub fn is_ordered(&self) -> bool
        ensures { result ≡ is_ordered (layout_type self.now) }
    {
        self.shared.data_type.is_ordered()
    }

    /// Returns the keys, one per slot.
    pub fn keys(&self) -> &AnyKeys
        ensures { keys_layout result.now ≡ keys_of self.now }
    {
        &self.keys
    }

    /// Returns the values that the keys index.
    pub fn values(&self) -> &AnyArray
        ensures { layout_of result.now ≡ child_of self.now }
    {
        &self.shared.values
    }

    /// Returns the validity bitmap of the keys, one bit per key; `None` if no key is null.
    pub fn validity(&self) -> Option<&Bitmap>
        ensures { option_map (λ b. b.now) result ≡ validity_of self.now }
    {
        self.keys.validity()
    }

    /// Returns whether key `i` is null. Slot `i` is also null if a valid key indexes a null value.
    pub fn is_null(&self, i: usize) -> bool
        requires { i < len self.now }
        ensures place { result ≡ is_null_at self.now i }
        ensures slot { IsTrue result → slot self.now i ≡ slots.null }
        ensures keyed { has_keys self.now ≡ true }
    {
        self.keys.is_null(i)
    }

    /// Returns the number of null keys.
    pub fn null_count(&self) -> usize
        ensures { result ≡ null_count self.now }
    {
        self.keys.null_count()
    }

    /// Returns whether raw key `i` is an index of the values. A null key need not be.
    pub fn in_range(&self, i: usize) -> bool
        requires { i < len self.now }
        ensures names { IsTrue result ↔ Names (key_at (keys_of self.now) i) (len (child_of self.now)) }
        ensures not_negative { IsTrue result → below_zero (key_at (keys_of self.now) i) ≡ false }
    {
        match self.keys.index(i) {
            None => false,
            Some(place) => place < self.shared.values.len(),
        }
    }

    /// Returns whether each raw key, null or not, is an index of the values.
    pub fn all_in_range(&self) -> bool
        ensures { IsTrue result ↔ EachNames (raw_keys (keys_of self.now)) (len (child_of self.now)) }
    {
        self.keys.each_names(self.shared.values.len())
    }

    /// Returns raw key `i`: the index of the value of slot `i`, unless the key is null.
    pub fn key_value(&self, i: usize) -> usize
        requires within { i < len self.now }
        requires not_negative { below_zero (key_at (keys_of self.now) i) ≡ false }
        ensures key { pos result ≡ key_at (keys_of self.now) i }
        ensures slot { slot self.now i ≡ where_valid (validity_of self.now) i (slot (child_of self.now) result) }
    {
        let _ = &self.shared;
        self.place(i)
    }

    /// Returns the value at raw key `i`, null or not, as a scalar of the values' data type.
    ///
    /// # Errors
    /// `Memory` where an allocation fails.
    pub fn value(&self, alloc: Global, i: usize) -> Result<AnyScalar, Error>
        requires within { i < len self.now }
        requires in_range { Names (key_at (keys_of self.now) i) (len (child_of self.now)) }
        ensures ok { IfOk result (λ s. s ≡ scalar_parts (layout_type (child_of self.now)) (slot (child_of self.now) (to_index (key_at (keys_of self.now) i)))) }
        ensures slot { IfOk result (λ s. slot self.now i ≡ where_valid (validity_of self.now) i s.slot) }
        ensures err { IsOkUnless result (Memory alloc_error) }
    {
        self.known();
        new_scalar(alloc, self.values(), self.place(i))
    }

    /// Returns raw key `i` as an index of the values, 0 if it is negative.
    pub(crate) fn place(&self, i: usize) -> usize
        requires { i < len self.now }
        ensures { result ≡ to_index (key_at (keys_of self.now) i) }
    {
        self.keys.index(i).unwrap_or(0)
    }

    /// Slices the array in place to the `n` slots from index `o`. The values are not sliced.
    pub fn slice(&mut self, o: usize, n: usize)
        requires { o + n ≤ len self.old }
        ensures { IsSlice self.old o n self.new }
    {
        self.cut(o, n);
    }

    fn cut(&mut self, o: usize, n: usize)
        requires { o + n ≤ len self.old }
        ensures { self.new ≡ slice_layout self.old o n }
    {
        self.keys.slice(o, n);
    }

    /// Returns the slice of `n` slots from index `o`.
    pub fn sliced(self, o: usize, n: usize) -> DictionaryArray
        requires { o + n ≤ len self }
        ensures { IsSlice self o n result }
    {
        let mut cut = self;
        cut.slice(o, n);
        cut
    }
}

/// Returns the error of the first check that fails, `None` if the parts fit.
fn first_error(data_type: &DataType, keys: &AnyKeys, values: &AnyArray) -> Option<Error>
    ensures { let parts = layouts.dictionary (type_of data_type.now) (keys_layout keys.now) (layout_of values.now) in
        MatchOption result (Fits parts) (λ e. FirstError e parts) }
{
    if !is_dictionary(data_type) {
        return Some(Error::OutOfSpec(SpecError::WrongType));
    }
    if !has_key_type(data_type, keys.key_type()) {
        return Some(Error::OutOfSpec(SpecError::KeyType));
    }
    if !has_values(data_type, values.data_type()) {
        return Some(Error::OutOfSpec(SpecError::ChildType));
    }
    if !keys.are_in_range(values.len()) {
        return Some(Error::OutOfSpec(SpecError::KeyRange));
    }
    None
}

/// Returns the dictionary type of these keys and values, without order.
fn default_type(alloc: Global, keys: &AnyKeys, values: &AnyArray) -> Result<DataType, Error>
    ensures ok { IfOk result (λ t. type_of t ≡ default_dictionary_type (keyed_by (key_type_of (keys_layout keys.now))) (layout_type (layout_of values.now))) }
    ensures err { IsOkUnless result (Memory alloc_error) }
{
    let value_type = values.data_type().clone(alloc)?;
    Ok(DataType::Dictionary(keys.key_type(), Box::new(alloc, value_type)?, false))
}
