//! Concatenation of dictionary keys, unchanged or moved past the values of earlier arrays.
ghost use Rattle.std.specs.Prelude.{◌≡◌, ◌⊎◌, ◌+◌, ◌++◌, ◌<◌, ◌≤◌, IfErr, IfOk, IfSome, IsErrOf, IsOkUnless, IsTrue, MatchOption, MatchResult, OnOk, Some, alloc_error, map, true};
ghost use Rattle.std.specs.List.{flat_map};
ghost use Rattle.nest_memory.specs.declared.datatypes.physical_type.PhysicalType.TheVariants as physical;
ghost use Rattle.nest_model.specs.Accessors.{key_at, key_type_of, keys_of, as_integer};
ghost use Rattle.nest_model.specs.BuilderTree.{key_count};
ghost use Rattle.nest_model.specs.Part.{to_index};
ghost use Rattle.nest_array.specs.Keys.{keyed_by};
ghost use Rattle.nest_array.specs.SeenKeys.{keys_layout};
ghost use Rattle.nest_concat.specs.Words.{AreJoinedKeys, AreOfKind, AreWithin, IsKeyPast, KeyPasses, Memory, Overflow, RefusesKeys, SomePast, count_slots, first_array, joined_keys, keys_in, layout_type, len, moved_key, moved_keys, moved_run, physical_type, KeysPass, KeysFit, KeyFits, laid_keys};

use crate::{bits, dictionary};
use nest_array::{AnyKeys, DictionaryKey, Window};
use nest_flat::primitive::PrimitiveArray;
use nest_memory::buffer::Buffer;
use nest_memory::error::Error;
use std::alloc::Global;

/// Returns the index of a key, 0 where it is negative.
fn index<K: DictionaryKey>(key: K) -> usize
    ensures { result ≡ to_index (as_integer (K.numbers key)) }
{
    key.to_index().unwrap_or(0)
}

/// Returns raw key `i`.
fn raw_key<K: DictionaryKey>(keys: &PrimitiveArray<K>, i: usize) -> K
    requires { i < len keys.now }
    ensures key { as_integer (K.numbers result) ≡ key_at keys.now i }
    ensures width { key_type_of keys.now ≡ Some K.KEY_TYPE }
{
    keys.known();
    keys.value(i)
}

/// Returns the index of raw key `i`, 0 where it is negative.
fn index_at(keys: &AnyKeys, i: usize) -> usize
    requires { i < len (keys_layout keys.now) }
    ensures key { result ≡ to_index (key_at (keys_layout keys.now) i) }
    ensures below { result < key_count (keyed_by (key_type_of (keys_layout keys.now))) }
{
    match keys {
        AnyKeys::Int8(keys) => index(raw_key(keys, i)),
        AnyKeys::Int16(keys) => index(raw_key(keys, i)),
        AnyKeys::Int32(keys) => index(raw_key(keys, i)),
        AnyKeys::Int64(keys) => index(raw_key(keys, i)),
        AnyKeys::UInt8(keys) => index(raw_key(keys, i)),
        AnyKeys::UInt16(keys) => index(raw_key(keys, i)),
        AnyKeys::UInt32(keys) => index(raw_key(keys, i)),
        AnyKeys::UInt64(keys) => index(raw_key(keys, i)),
    }
}

/// Returns the key of slot `i` after `before` other values, 0 for a null. `None` where it does not fit the key type.
fn moved<K: DictionaryKey>(keys: &AnyKeys, i: usize, before: usize) -> Option<K>
    requires within { i < len (keys_layout keys.now) }
    requires width { key_type_of (keys_layout keys.now) ≡ Some K.KEY_TYPE }
    ensures key { MatchOption result
        (IsKeyPast (key_count K.KEY_TYPE) before (keys_layout keys.now) i)
        (λ k. as_integer (K.numbers k) ≡ moved_key before (keys_layout keys.now) i) }
    ensures room { IfSome result (λ k. KeyFits (key_count K.KEY_TYPE) before (keys_layout keys.now) i) }
{
    if keys.is_null(i) {
        return Some(K::zero());
    }
    match index_at(keys, i).checked_add(before) {
        Some(index) => K::from_index(index),
        None => None,
    }
}

/// Appends the keys of `n` slots from slot `start`, after `before` other values.
fn push_run<K: DictionaryKey>(
    raw: &mut Vec<K>,
    keys: &AnyKeys,
    start: usize,
    n: usize,
    before: usize,
) -> Result<(), Error>
    requires within { start + n ≤ len (keys_layout keys.now) }
    requires width { key_type_of (keys_layout keys.now) ≡ Some K.KEY_TYPE }
    ensures ok { OnOk result (map as_integer (map K.numbers raw.new.items) ≡ map as_integer (map K.numbers raw.old.items) ++ moved_run before (keys_layout keys.now) start n) }
    ensures room { OnOk result (KeysFit (key_count K.KEY_TYPE) before (keys_layout keys.now) start n) }
    ensures err { IfErr result (λ e. (e ≡ Memory alloc_error) ⊎ ((e ≡ Overflow) × SomePast (key_count K.KEY_TYPE) before (keys_layout keys.now) start n)) }
{
    let _len = keys.len();
    for j in 0..n {
        let Some(key) = moved(keys, start + j, before) else {
            return Err(Error::Overflow);
        };
        raw.push(key)?;
    }
    Ok(())
}

/// Returns the keys of the array of a window.
fn keys_of_window<'a, K: DictionaryKey>(window: &Window<'a>) -> &'a AnyKeys
    requires kind { physical_type (layout_type window.now.array) ≡ physical.Dictionary K.KEY_TYPE }
    ensures keys { keys_layout result.now ≡ keys_of window.now.array }
    ensures width { key_type_of (keys_layout result.now) ≡ Some K.KEY_TYPE }
    ensures count { len (keys_layout result.now) ≡ len window.now.array }
{
    let Some(array) = window.array().as_dictionary() else {
        unreachable!()
    };
    array.known();
    array.keys()
}

/// Appends the keys of a window, after `before` other values.
fn push_window<K: DictionaryKey>(
    raw: &mut Vec<K>,
    window: &Window<'_>,
    before: usize,
) -> Result<(), Error>
    requires kind { physical_type (layout_type window.now.array) ≡ physical.Dictionary K.KEY_TYPE }
    ensures ok { OnOk result (map as_integer (map K.numbers raw.new.items) ≡ map as_integer (map K.numbers raw.old.items) ++ keys_in before window.now) }
    ensures room { OnOk result (KeyPasses (key_count K.KEY_TYPE) before window.now → ⊥) }
    ensures err { IfErr result (λ e. (e ≡ Memory alloc_error) ⊎ ((e ≡ Overflow) × ((0 < before) × KeyPasses (key_count K.KEY_TYPE) before window.now))) }
{
    window.known();
    let keys = keys_of_window::<K>(window);
    push_run(raw, keys, window.offset(), window.len(), before)
}

/// Returns the raw keys of windows, unchanged. `total` is the number of slots.
fn kept_keys<K: DictionaryKey>(
    alloc: Global,
    windows: &[Window<'_>],
    total: usize,
) -> Result<Buffer<K>, Error>
    requires kind { AreOfKind (physical.Dictionary K.KEY_TYPE) windows.now }
    ensures ok { IfOk result (λ b. map as_integer (map K.numbers b) ≡ flat_map (keys_in 0) windows.now) }
    ensures err { IsOkUnless result (Memory alloc_error) }
{
    let mut raw = Vec::with_capacity(alloc, total)?;
    for window in windows {
        push_window(&mut raw, window, 0)?;
    }
    Buffer::from_vec(alloc, raw)
}

/// Returns the raw keys of windows, each moved past the values of earlier arrays. `total` is the number of slots.
fn keys_past<K: DictionaryKey>(
    alloc: Global,
    windows: &[Window<'_>],
    total: usize,
) -> Result<Buffer<K>, Error>
    requires kind { AreOfKind (physical.Dictionary K.KEY_TYPE) windows.now }
    ensures ok { IfOk result (λ b. map as_integer (map K.numbers b) ≡ moved_keys 0 windows.now) }
    ensures room { IfOk result (λ b. KeysPass (key_count K.KEY_TYPE) 0 windows.now → ⊥) }
    ensures err { IfErr result (λ e. RefusesKeys true e (key_count K.KEY_TYPE) windows.now) }
{
    let mut raw = Vec::with_capacity(alloc, total)?;
    let mut before: usize = 0;
    for window in windows {
        push_window(&mut raw, window, before)?;
        let Some(sum) = before.checked_add(dictionary::values_of_window(window).len()) else {
            return Err(Error::Overflow);
        };
        before = sum;
    }
    Buffer::from_vec(alloc, raw)
}

/// Returns the raw keys of windows, moved or unchanged.
fn raw_keys<K: DictionaryKey>(
    alloc: Global,
    windows: &[Window<'_>],
    total: usize,
    moved: bool,
) -> Result<Buffer<K>, Error>
    requires kind { AreOfKind (physical.Dictionary K.KEY_TYPE) windows.now }
    ensures ok { IfOk result (λ b. map as_integer (map K.numbers b) ≡ joined_keys moved windows.now) }
    ensures room { IfOk result (λ b. IsTrue moved → KeysPass (key_count K.KEY_TYPE) 0 windows.now → ⊥) }
    ensures err { IfErr result (λ e. RefusesKeys moved e (key_count K.KEY_TYPE) windows.now) }
{
    if moved {
        keys_past(alloc, windows, total)
    } else {
        kept_keys(alloc, windows, total)
    }
}

/// Returns the keys of windows, with the data type of `keys`. `total` is the number of slots.
fn joined_of<K: DictionaryKey>(
    alloc: Global,
    keys: &PrimitiveArray<K>,
    windows: &[Window<'_>],
    total: usize,
    moved: bool,
) -> Result<PrimitiveArray<K>, Error>
    requires within { AreWithin (layout_type (first_array windows.now)) windows.now }
    requires kind { AreOfKind (physical.Dictionary (keyed_by (key_type_of keys.now))) windows.now }
    requires total { total ≡ count_slots windows.now }
    ensures ok { IfOk result (λ k. AreJoinedKeys moved keys.now windows.now k) }
    ensures laid { IfOk result (λ k. k ≡ laid_keys moved keys.now windows.now) }
    ensures room { IfOk result (λ k. IsTrue moved → KeysPass (key_count (keyed_by (key_type_of keys.now))) 0 windows.now → ⊥) }
    ensures err { IfErr result (λ e. RefusesKeys moved e (key_count (keyed_by (key_type_of keys.now))) windows.now) }
{
    keys.known();
    let raw = raw_keys::<K>(alloc, windows, total, moved)?;
    let validity = bits::validity(alloc, windows, total)?;
    let data_type = keys.data_type().clone(alloc)?;
    PrimitiveArray::try_new(data_type, raw, validity)
}

/// Wraps the keys in the variant of their type, or returns the error.
fn wrapped<K: DictionaryKey>(keys: Result<K::Array, Error>) -> Result<AnyKeys, Error>
    ensures { MatchResult keys
        (λ k. MatchResult result (λ b. keys_layout b ≡ K.layout_of_array k) (λ _. ⊥))
        (λ e. IsErrOf result e) }
{
    match keys {
        Ok(keys) => Ok(K::wrap(keys)),
        Err(error) => Err(error),
    }
}

/// Returns the keys of windows over dictionary arrays, of the type of `keys`. `total` is the number of slots.
///
/// If `moved`, each key moves past the values of earlier arrays. The raw key under a null is 0.
pub(crate) fn joined(
    alloc: Global,
    keys: &AnyKeys,
    windows: &[Window<'_>],
    total: usize,
    moved: bool,
) -> Result<AnyKeys, Error>
    requires within { AreWithin (layout_type (first_array windows.now)) windows.now }
    requires kind { AreOfKind (physical.Dictionary (keyed_by (key_type_of (keys_layout keys.now)))) windows.now }
    requires total { total ≡ count_slots windows.now }
    ensures ok { IfOk result (λ k. AreJoinedKeys moved (keys_layout keys.now) windows.now (keys_layout k)) }
    ensures laid { IfOk result (λ k. keys_layout k ≡ laid_keys moved (keys_layout keys.now) windows.now) }
    ensures room { IfOk result (λ k. IsTrue moved → KeysPass (key_count (keyed_by (key_type_of (keys_layout keys.now)))) 0 windows.now → ⊥) }
    ensures err { IfErr result (λ e. RefusesKeys moved e (key_count (keyed_by (key_type_of (keys_layout keys.now)))) windows.now) }
{
    match keys {
        AnyKeys::Int8(keys) => wrapped::<i8>(joined_of(alloc, keys, windows, total, moved)),
        AnyKeys::Int16(keys) => wrapped::<i16>(joined_of(alloc, keys, windows, total, moved)),
        AnyKeys::Int32(keys) => wrapped::<i32>(joined_of(alloc, keys, windows, total, moved)),
        AnyKeys::Int64(keys) => wrapped::<i64>(joined_of(alloc, keys, windows, total, moved)),
        AnyKeys::UInt8(keys) => wrapped::<u8>(joined_of(alloc, keys, windows, total, moved)),
        AnyKeys::UInt16(keys) => wrapped::<u16>(joined_of(alloc, keys, windows, total, moved)),
        AnyKeys::UInt32(keys) => wrapped::<u32>(joined_of(alloc, keys, windows, total, moved)),
        AnyKeys::UInt64(keys) => wrapped::<u64>(joined_of(alloc, keys, windows, total, moved)),
    }
}
