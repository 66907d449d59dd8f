//! The key of a value that is there, and none of one that is not.
//!
//! A value that is there has its index as its key, and one that is not there has none: by keys with a sign and without, of
//! bytes, of strings and of strings by keys of their own.
use nest_build::array::MutableArray;
use nest_build::dictionary::{BuilderKey, MutableDictionaryArray};
use nest_build::fixed_size_binary::MutableFixedSizeBinaryArray;
use nest_build::push::TryPush;
use nest_flat::primitive::mutable::MutablePrimitiveArray;
use nest_flat::utf8::mutable::MutableUtf8Array;
use nest_memory::error::Error;
use std::alloc::Global;

type Strings = MutableUtf8Array<i32>;

type DictionaryOfStrings<K> = MutableDictionaryArray<K, Strings>;

/// "A", a null and "B".
fn two_strings<K: BuilderKey>(alloc: Global) -> Result<DictionaryOfStrings<K>, Error> {
    let mut keyed = MutableDictionaryArray::new(alloc, MutableUtf8Array::new(alloc)?)?;
    keyed.try_push(Some("A"))?;
    keyed.push_null()?;
    keyed.try_push(Some("B"))?;
    Ok(keyed)
}

/// Whether just the two strings have these keys.
fn has_keys<K: BuilderKey + PartialEq>(
    keyed: &DictionaryOfStrings<K>,
    first: K,
    second: K,
) -> bool {
    keyed.key_of(&"A") == Some(first)
        && keyed.key_of(&"B") == Some(second)
        && keyed.key_of(&"C").is_none()
        && keyed.key_of(&"").is_none()
        && keyed.key_of(&"AB").is_none()
        && keyed.key_of(&7i64).is_none()
        && keyed.key_of(&true).is_none()
}

#[test]
fn dictionary_strings_of_any_key_width(rt: HostRuntime) -> Result<(), Error> {
    let alloc = rt.alloc();
    assert!(rt; has_keys(&two_strings::<i8>(alloc)?, 0, 1));
    assert!(rt; has_keys(&two_strings::<i16>(alloc)?, 0, 1));
    assert!(rt; has_keys(&two_strings::<i32>(alloc)?, 0, 1));
    assert!(rt; has_keys(&two_strings::<i64>(alloc)?, 0, 1));
    assert!(rt; has_keys(&two_strings::<u8>(alloc)?, 0, 1));
    assert!(rt; has_keys(&two_strings::<u16>(alloc)?, 0, 1));
    assert!(rt; has_keys(&two_strings::<u32>(alloc)?, 0, 1));
    assert!(rt; has_keys(&two_strings::<u64>(alloc)?, 0, 1));
    Ok(())
}

#[test]
fn a_truncated_string_has_no_key(rt: HostRuntime) -> Result<(), Error> {
    let alloc = rt.alloc();
    let mut keyed = two_strings::<i8>(alloc)?;
    keyed.truncate(2);
    assert!(rt; keyed.key_of(&"A") == Some(0i8));
    assert!(rt; keyed.key_of(&"B").is_none());
    keyed.try_push(Some("C"))?;
    assert!(rt; keyed.key_of(&"C") == Some(1i8));
    drop(keyed.freeze()?);
    assert!(rt; keyed.key_of(&"A").is_none());
    assert!(rt; keyed.key_of(&"C").is_none());
    Ok(())
}

#[test]
fn numbers_and_bytes_by_keys_with_a_sign_and_without(rt: HostRuntime) -> Result<(), Error> {
    let alloc = rt.alloc();
    let mut numbers: MutableDictionaryArray<i16, MutablePrimitiveArray<i64>> =
        MutableDictionaryArray::new(alloc, MutablePrimitiveArray::new(alloc))?;
    numbers.try_push(Some(-1i64))?;
    numbers.try_push(Some(5i64))?;
    assert!(rt; numbers.key_of(&-1i64) == Some(0i16));
    assert!(rt; numbers.key_of(&5i64) == Some(1i16));
    assert!(rt; numbers.key_of(&0i64).is_none());
    assert!(rt; numbers.key_of(&5i32).is_none());
    let mut pairs: MutableDictionaryArray<u8, MutableFixedSizeBinaryArray> =
        MutableDictionaryArray::new(alloc, MutableFixedSizeBinaryArray::new(alloc, 2))?;
    pairs.try_push(Some(b"ab".as_slice()))?;
    assert!(rt; pairs.key_of(&b"ab".as_slice()) == Some(0u8));
    assert!(rt; pairs.key_of(&b"ba".as_slice()).is_none());
    assert!(rt; pairs.key_of(&b"abc".as_slice()).is_none());
    Ok(())
}

#[test]
fn dictionary_strings_of_own_keys(rt: HostRuntime) -> Result<(), Error> {
    let alloc = rt.alloc();
    let values: DictionaryOfStrings<u8> = MutableDictionaryArray::new(
        alloc,
        MutableUtf8Array::new(alloc)?,
    )?;
    let mut keyed: MutableDictionaryArray<i8, DictionaryOfStrings<u8>> =
        MutableDictionaryArray::new(alloc, values)?;
    keyed.try_push(Some("A"))?;
    keyed.try_push(Some("B"))?;
    assert!(rt; keyed.key_of(&"B") == Some(1i8));
    assert!(rt; keyed.key_of(&"C").is_none());
    assert!(rt; keyed.values().key_of(&"B") == Some(1u8));
    assert!(rt; keyed.values().key_of(&"C").is_none());
    Ok(())
}
