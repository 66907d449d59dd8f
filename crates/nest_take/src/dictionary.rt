//! `take` for dictionary arrays: it takes the keys and keeps the values.
ghost use Rattle.std.specs.Prelude.{◌≡◌, ◌<◌, IfErr, IfOk, IsErrOf, IsOkUnless, MatchResult, alloc_error};
ghost use Rattle.nest_model.specs.Fits.{Fits};
ghost use Rattle.nest_model.specs.Layout as layouts;
ghost use Rattle.nest_array.specs.Seen.{layout_of};
ghost use Rattle.nest_array.specs.SeenKeys.{keys_layout};
ghost use Rattle.nest_take.specs.Words.{AreBelow, AreKeysAt, AreRawKeysAt, IsRawKey, IsTaken, Memory, RefusesTake, len, type_of};

use crate::indices;
use nest_array::{AnyArray, AnyKeys, DictionaryArray, DictionaryKey};
use nest_flat::primitive::PrimitiveArray;
use nest_memory::buffer::Buffer;
use nest_memory::datatypes::DataType;
use nest_memory::error::Error;
use nest_memory::types::NativeType;
use std::alloc::Global;

/// Takes the slots at `indices`. The raw key under a null is 0.
#[inline(never)]
pub(crate) fn take_keyed(
    alloc: Global,
    array: &DictionaryArray,
    indices: &[usize],
) -> Result<AnyArray, Error>
    requires { AreBelow indices.now (len array.now) }
    ensures ok { IfOk result (λ a. IsTaken array.now indices.now (layout_of a)) }
    ensures err { IfErr result (λ e. RefusesTake e array.now indices.now) }
{
    array.known();
    let keys = keys_at(alloc, array.keys(), indices)?;
    match array.values().clone(alloc) {
        Ok(values) => array_of(alloc, array.data_type(), keys, values),
        Err(error) => {
            drop(keys);
            Err(error)
        }
    }
}

/// Returns the array with these parts.
fn array_of(
    alloc: Global,
    data_type: &DataType,
    keys: AnyKeys,
    values: AnyArray,
) -> Result<AnyArray, Error>
    requires { Fits (layouts.dictionary (type_of data_type.now) (keys_layout keys) (layout_of values)) }
    ensures ok { IfOk result (λ a. layout_of a ≡ layouts.dictionary (type_of data_type.now) (keys_layout keys) (layout_of values)) }
    ensures err { IsOkUnless result (Memory alloc_error) }
{
    match data_type.clone(alloc) {
        Ok(data_type) => match DictionaryArray::new(alloc, data_type, keys, values) {
            Ok(array) => Ok(AnyArray::Dictionary(array)),
            Err(error) => Err(error),
        },
        Err(error) => {
            drop(values);
            drop(keys);
            Err(error)
        }
    }
}

/// Takes the keys at `indices`.
fn keys_at(alloc: Global, keys: &AnyKeys, indices: &[usize]) -> Result<AnyKeys, Error>
    requires { AreBelow indices.now (len (keys_layout keys.now)) }
    ensures ok { IfOk result (λ k. AreKeysAt (keys_layout keys.now) indices.now (keys_layout k)) }
    ensures err { IsOkUnless result (Memory alloc_error) }
{
    match keys {
        AnyKeys::Int8(keys) => wrapped::<i8>(keys_of(alloc, keys, indices)),
        AnyKeys::Int16(keys) => wrapped::<i16>(keys_of(alloc, keys, indices)),
        AnyKeys::Int32(keys) => wrapped::<i32>(keys_of(alloc, keys, indices)),
        AnyKeys::Int64(keys) => wrapped::<i64>(keys_of(alloc, keys, indices)),
        AnyKeys::UInt8(keys) => wrapped::<u8>(keys_of(alloc, keys, indices)),
        AnyKeys::UInt16(keys) => wrapped::<u16>(keys_of(alloc, keys, indices)),
        AnyKeys::UInt32(keys) => wrapped::<u32>(keys_of(alloc, keys, indices)),
        AnyKeys::UInt64(keys) => wrapped::<u64>(keys_of(alloc, keys, indices)),
    }
}

/// Wraps the keys in the variant of their type, or returns the error.
fn wrapped<K: DictionaryKey>(keys: Result<K::Array, Error>) -> Result<AnyKeys, Error>
    ensures { MatchResult keys
        (λ k. MatchResult result (λ b. keys_layout b ≡ K.layout_of_array k) (λ _. ⊥))
        (λ e. IsErrOf result e) }
{
    match keys {
        Ok(keys) => Ok(K::wrap(keys)),
        Err(error) => Err(error),
    }
}

/// Takes the keys at `indices`, of one key type.
fn keys_of<K: NativeType>(
    alloc: Global,
    keys: &PrimitiveArray<K>,
    indices: &[usize],
) -> Result<PrimitiveArray<K>, Error>
    requires { AreBelow indices.now (len keys.now) }
    ensures ok { IfOk result (λ b. AreKeysAt keys.now indices.now b) }
    ensures err { IsOkUnless result (Memory alloc_error) }
{
    keys.known();
    let raw = raw_keys(alloc, keys, indices)?;
    let validity = indices::validity_at(alloc, keys.validity(), indices)?;
    let data_type = keys.data_type().clone(alloc)?;
    PrimitiveArray::try_new(data_type, raw, validity)
}

/// Returns the raw keys at `indices`, 0 for a null.
fn raw_keys<K: NativeType>(
    alloc: Global,
    keys: &PrimitiveArray<K>,
    indices: &[usize],
) -> Result<Buffer<K>, Error>
    requires { AreBelow indices.now (len keys.now) }
    ensures ok { IfOk result (λ b. AreRawKeysAt K.numbers keys.now indices.now b) }
    ensures err { IsOkUnless result (Memory alloc_error) }
{
    let mut raw = Vec::with_capacity(alloc, indices.len())?;
    for place in indices {
        raw.push_reserved(raw_key(keys, *place));
    }
    Buffer::from_vec(alloc, raw)
}

/// Returns raw key `i`, 0 for a null.
fn raw_key<K: NativeType>(keys: &PrimitiveArray<K>, i: usize) -> K
    requires { i < len keys.now }
    ensures { IsRawKey keys.now i (K.numbers result) }
{
    keys.known();
    keys.get(i).unwrap_or(K::zero())
}
