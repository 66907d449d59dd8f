//! The rows of a dictionary builder, without the values.
ghost use Rattle.std.specs.Prelude.{◌≡◌, ◌+◌, ◌≤◌, ◌<◌, ◌⊎◌, ◌^◌, ◌++◌, ◌∷◌, [], ℕ, take, get_or, length, map, is_some, OnOk, OnErr, IfOk, IfErr, IfSome, IsNone, IsOkUnless, None, Some, option_map, alloc_error};
ghost use Rattle.nest_memory.specs.Physical.{primitive_tree};
ghost use Rattle.nest_array.specs.SeenKeys.{keys_layout};
ghost use Rattle.nest_model.specs.Accessors.{key_type_of, natives_of, raw_keys};
ghost use Rattle.nest_model.specs.BuilderFreeze.{EncodesKeys};
ghost use Rattle.nest_model.specs.BuilderRow.{values_needed};
ghost use Rattle.nest_model.specs.BuilderTree.{key_count};
ghost use Rattle.nest_model.specs.Fits.{KeysInRange};
ghost use Rattle.nest_model.specs.Layout as layouts;
ghost use Rattle.nest_build.specs.Keys.{encoded_keys, raw_key};
ghost use Rattle.nest_build.specs.Words.{Memory, Overflow, EncodesBits, largest_length, len, validity_of};

use crate::dictionary::key::BuilderKey;
use nest_array::AnyKeys;
use nest_flat::primitive::PrimitiveArray;
use nest_flat::primitive::mutable::MutablePrimitiveArray;
use nest_memory::bitmap::mutable::MutableBitmap;
use nest_memory::error::Error;
use std::alloc::Global;
use std::marker::Model;

/// The keys of rows: Dictionary-encoded Layout of the Arrow format, without the values. A row without a key is null.
/// The validity is created at the first null row; without rows there is none.
///
/// A call that returns an error changes no row, except `freeze`.
#[derive(Drop)]
pub struct DictionaryRows<K: BuilderKey> {
    keys: MutablePrimitiveArray<K>,
    // the number of values the keys need
    needed: usize,
    alloc: Global,
}

impl<K: BuilderKey> Model for DictionaryRows<K> {
    ghost use Rattle.std.specs.Prelude.{List, Option, ℕ};
    ghost use Rattle.nest_build.specs.Keys.{AreKept, encoded_keys};

    ghost Value = { List (Option ℕ) };

    ghost view = { λ r. encoded_keys r.keys };

    ghost invariant = { λ r. AreKept r.keys r.needed };
}

impl<K: BuilderKey> DictionaryRows<K> {
    /// Returns no rows.
    pub fn new(alloc: Global) -> DictionaryRows<K>
        ensures { result ≡ [] }
    {
        DictionaryRows {
            keys: MutablePrimitiveArray::new(alloc),
            needed: 0,
            alloc,
        }
    }

    /// Returns the number of rows.
    pub fn len(&self) -> usize
        ensures { result ≡ length self.now }
    {
        self.keys.len()
    }

    /// Returns the keys, one per row.
    pub fn keys(&self) -> &MutablePrimitiveArray<K>
        ensures spelled { EncodesKeys result.now self.now }
        ensures bare { self.now ≡ [] → validity_of result.now ≡ None }
    {
        self.keys.known();
        &self.keys
    }

    /// Returns the number of values the keys need: the greatest key plus one.
    pub fn needed(&self) -> usize
        ensures { result ≡ values_needed self.now }
    {
        self.needed
    }

    /// Returns the key of row `i`.
    pub fn key(&self, i: usize) -> Option<usize>
        requires { i < length self.now }
        ensures { result ≡ get_or self.now i None }
    {
        key_of(&self.keys, i)
    }

    /// Returns the validity, one bit per row. Without it all rows are valid.
    pub fn validity(&self) -> Option<&MutableBitmap>
        ensures bits { EncodesBits (option_map (λ b. b.now) result) (map is_some self.now) }
        ensures none { self.now ≡ [] → IsNone result }
    {
        self.keys.known();
        self.keys.validity()
    }

    /// Returns whether row `i` is valid.
    pub fn is_valid(&self, i: usize) -> bool
        requires { i < length self.now }
        ensures { result ≡ is_some (get_or self.now i None) }
    {
        self.key(i).is_some()
    }

    /// Appends a row with a key, or a null row.
    ///
    /// # Errors
    /// `Overflow` if the key type cannot represent the key, or the keys need more values than a length can be. `Memory`
    /// if an allocation fails.
    pub fn push(&mut self, key: Option<usize>) -> Result<(), Error>
        ensures ok { OnOk result (self.new ≡ self.old ++ key ∷ []) }
        ensures within { OnOk result (length self.old + 1 ≤ largest_length) }
        ensures fits { OnOk result (IfSome key (λ k. k < key_count K.KEY_TYPE)) }
        ensures err { OnErr result (self.new ≡ self.old) }
        ensures cause { IfErr result (λ e. (e ≡ Memory alloc_error) ⊎ ((e ≡ Overflow) × (k : ℕ) × (key ≡ Some k) × ((key_count K.KEY_TYPE ≤ k) ⊎ (largest_length ≤ k)))) }
    {
        match key {
            None => self.push_null(),
            Some(number) => self.push_key(number),
        }
    }

    fn push_null(&mut self) -> Result<(), Error>
        ensures ok { OnOk result (self.new ≡ self.old ++ None ∷ []) }
        ensures within { OnOk result (length self.old + 1 ≤ largest_length) }
        ensures err { OnErr result (self.new ≡ self.old) }
        ensures memory { IsOkUnless result (Memory alloc_error) }
    {
        self.keys.known();
        if let Err(error) = self.keys.try_push(None) {
            return Err(error);
        }
        let _more = self.keys.len();
        Ok(())
    }

    fn push_key(&mut self, number: usize) -> Result<(), Error>
        ensures ok { OnOk result (self.new ≡ self.old ++ Some number ∷ []) }
        ensures within { OnOk result (length self.old + 1 ≤ largest_length) }
        ensures fits { OnOk result (number < key_count K.KEY_TYPE) }
        ensures err { OnErr result (self.new ≡ self.old) }
        ensures cause { IfErr result (λ e. (e ≡ Memory alloc_error) ⊎ ((e ≡ Overflow) × ((key_count K.KEY_TYPE ≤ number) ⊎ (largest_length ≤ number)))) }
    {
        let Some(key) = K::from_index(number) else {
            return Err(Error::Overflow);
        };
        let Some(needed) = number.checked_add(1) else {
            return Err(Error::Overflow);
        };
        self.keys.known();
        if let Err(error) = self.keys.try_push(Some(key)) {
            return Err(error);
        }
        let _more = self.keys.len();
        self.needed = self.needed.max(needed);
        Ok(())
    }

    /// Keeps the first `n` rows. Does not allocate.
    pub fn truncate(&mut self, n: usize)
        requires { n ≤ length self.old }
        ensures { self.new ≡ take n self.old }
    {
        self.keys.known();
        if n >= self.keys.len() {
            return;
        }
        if n == 0 {
            return self.clear();
        }
        self.keys.truncate(n);
        self.needed = needed_by(&self.keys);
    }

    // Removes all rows and the validity.
    fn clear(&mut self)
        ensures { self.new ≡ [] }
    {
        self.keys = MutablePrimitiveArray::new(self.alloc);
        self.needed = 0;
    }

    /// Reserves capacity for at least `additional` more rows.
    ///
    /// # Errors
    /// `Memory` if an allocation fails.
    pub fn reserve(&mut self, additional: usize) -> Result<(), Error>
        ensures same { self.new ≡ self.old }
        ensures memory { IsOkUnless result (Memory alloc_error) }
    {
        self.keys.reserve(additional)
    }

    /// Shrinks the capacity to the rows as far as the allocator can.
    pub fn shrink_to_fit(&mut self)
        ensures { self.new ≡ self.old }
    {
        self.keys.shrink_to_fit();
    }

    /// Returns the keys, in the variant of their width. No rows and no validity are left, also after `Memory`.
    ///
    /// # Errors
    /// `Memory` if an allocation fails.
    pub fn freeze(&mut self) -> Result<AnyKeys, Error>
        ensures ok { IfOk result (λ keys. EncodesKeys (keys_layout keys) self.old) }
        ensures key_type { IfOk result (λ keys. key_type_of (keys_layout keys) ≡ Some K.KEY_TYPE) }
        ensures in_range { IfOk result (λ keys. KeysInRange (keys_layout keys) (values_needed self.old)) }
        ensures memory { IsOkUnless result (Memory alloc_error) }
        ensures emptied { self.new ≡ [] }
    {
        self.keys.known();
        self.needed = 0;
        let keys = self.keys.freeze()?;
        wrapped(keys)
    }
}

// The keys in the variant of their width.
fn wrapped<K: BuilderKey>(keys: PrimitiveArray<K>) -> Result<AnyKeys, Error>
    ensures ok { IfOk result (λ a. keys_layout a ≡ layouts.primitive K.PRIMITIVE (primitive_tree K.PRIMITIVE) (natives_of keys) (validity_of keys)) }
    ensures memory { IsOkUnless result (Memory alloc_error) }
{
    let wrapped = any_keys(&keys);
    drop(keys);
    wrapped
}

fn any_keys<K: BuilderKey>(keys: &PrimitiveArray<K>) -> Result<AnyKeys, Error>
    ensures ok { IfOk result (λ a. keys_layout a ≡ layouts.primitive K.PRIMITIVE (primitive_tree K.PRIMITIVE) (natives_of keys.now) (validity_of keys.now)) }
    ensures memory { IsOkUnless result (Memory alloc_error) }
{
    keys.known();
    let validity = match keys.validity() {
        None => None,
        Some(bits) => Some(bits.clone()?),
    };
    K::any_keys(keys.values(), validity)
}

// The key of row i.
fn key_of<K: BuilderKey>(keys: &MutablePrimitiveArray<K>, i: usize) -> Option<usize>
    requires raw { raw_keys keys.now ≡ map raw_key (encoded_keys keys.now) }
    requires within { i < length (encoded_keys keys.now) }
    ensures { result ≡ get_or (encoded_keys keys.now) i None }
{
    keys.known();
    if !keys.is_valid(i) {
        return None;
    }
    keys.values()[i].to_index()
}

// The number of values the keys need.
fn needed_by<K: BuilderKey>(keys: &MutablePrimitiveArray<K>) -> usize
    requires raw { raw_keys keys.now ≡ map raw_key (encoded_keys keys.now) }
    requires fits { values_needed (encoded_keys keys.now) < 2 ^ 64 }
    ensures { result ≡ values_needed (encoded_keys keys.now) }
{
    let mut needed: usize = 0;
    for i in 0..keys.len() {
        if let Some(number) = key_of(keys, i) {
            needed = needed.max(number + 1);
        }
    }
    needed
}
