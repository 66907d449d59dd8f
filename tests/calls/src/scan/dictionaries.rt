//! Iterators over dictionaries from both ends, by keys and by strings.
use crate::scan::maps::texts;
use crate::scan::parts::{both, buffer, numbers, offsets_of, validity};
use crate::scan::walks::{expect_decoded, walk, walked};
use nest_array::{AnyArray, AnyKeys, DictionaryArray};
use nest_flat::primitive::PrimitiveArray;
use nest_flat::utf8::Utf8Array;
use nest_memory::datatypes::DataType;
use nest_memory::error::{ArgumentError, Error};
use nest_scan::{
    DictionaryIterTyped, DictionaryValuesIterTyped, Scan, ScanKeys, ScanValues, TextOffset,
};
use std::alloc::Global;

/// Keys of 32 bits.
fn keys(alloc: Global, raw: &[i32], bits: Option<&[bool]>) -> Result<AnyKeys, Error> {
    match both(buffer(alloc, raw), validity(alloc, bits)) {
        Ok((values, validity)) => PrimitiveArray::try_new(DataType::Int32, values, validity).map(
            |keys| AnyKeys::Int32(keys),
        ),
        Err(error) => Err(error),
    }
}

fn dictionary(
    alloc: Global,
    raw: &[i32],
    bits: Option<&[bool]>,
    values: Result<AnyArray, Error>,
) -> Result<DictionaryArray, Error> {
    match both(keys(alloc, raw, bits), values) {
        Ok((keys, values)) => DictionaryArray::try_from_keys(alloc, keys, values),
        Err(error) => Err(error),
    }
}

/// The keys 0, 1, null and 2 over A, B and C; the null is over a 1.
fn four_keys(alloc: Global) -> Result<DictionaryArray, Error> {
    let bits = [true, true, false, true].as_slice();
    let values = texts(alloc, &[0, 1, 2, 3], b"ABC");
    dictionary(alloc, &[0, 1, 1, 2], Some(bits), values)
}

/// A walk over the slots.
fn slots(alloc: Global, array: &DictionaryArray, turns: &str) -> Result<String, Error> {
    walked(alloc, array.iter(alloc), turns)
}

/// A walk over the values, also under nulls; of raw keys past the values nothing is decoded.
fn raw_values(alloc: Global, array: &DictionaryArray, turns: &str) -> Result<String, Error> {
    if array.all_in_range() {
        return walked(alloc, array.values_iter(alloc), turns);
    }
    Ok(String::new(alloc))
}

/// A walk over the raw keys; of those past the values nothing is decoded.
fn raw_keys(alloc: Global, array: &DictionaryArray, turns: &str) -> Result<String, Error> {
    if array.all_in_range() {
        return walked(alloc, array.keys_values_iter(), turns);
    }
    Ok(String::new(alloc))
}

/// Keys 0, 1, null, 2 over A, B, C, back, back, front, front: C, null, A, B; by their strings A, B, null, C; as keys 0, 1,
/// none, 2.
#[test]
fn scalars_from_both_ends(rt: HostRuntime) {
    let alloc = rt.alloc();
    let array = four_keys(alloc).expect(&rt, "four keys");
    expect_decoded(&rt, slots(alloc, &array, "<<#>>><"), "C null 2 A B - - ");
}

/// Values by raw keys, also under a null; strings of keys without nulls.
#[test]
fn scalars_under_nulls(rt: HostRuntime) {
    let alloc = rt.alloc();
    let array = four_keys(alloc).expect(&rt, "four keys");
    expect_decoded(&rt, raw_values(alloc, &array, "<<#"), "C B 2 ");
}

/// A walk over the keys.
fn keys_of(alloc: Global, array: &DictionaryArray, turns: &str) -> Result<String, Error> {
    walked(alloc, array.keys_iter(), turns)
}

/// A walk of a clone that was made after the first key came, and of the rest.
fn keys_once_more(alloc: Global, array: &DictionaryArray) -> Result<String, Error> {
    let mut text = String::new(alloc);
    let mut keys = array.keys_iter();
    walk(&mut keys, ">", &mut text)?;
    let mut rest = keys.clone()?;
    walk(&mut rest, "<#", &mut text)?;
    walk(&mut keys, ">>#>>", &mut text)?;
    Ok(text)
}

#[test]
fn keys_and_nulls(rt: HostRuntime) {
    let alloc = rt.alloc();
    let array = four_keys(alloc).expect(&rt, "four keys");
    expect_decoded(&rt, keys_once_more(alloc, &array), "0 2 2 1 null 1 2 - ");
    expect_decoded(&rt, raw_keys(alloc, &array, "<<>#"), "2 1 0 1 ");
}

/// A walk over the strings of a dictionary; the error of its values, where they are no such strings.
fn typed<O: TextOffset>(
    alloc: Global,
    array: Result<DictionaryArray, Error>,
    turns: &str,
) -> Result<String, Error> {
    let array = array?;
    let mut answer = Ok(String::new(alloc));
    if array.values().null_count() == 0 {
        answer = match array.iter_typed::<O>() {
            Ok(slots) => {
                let slots: DictionaryIterTyped<'_, O> = slots;
                walked(alloc, slots, turns)
            }
            Err(error) => Err(error),
        };
    }
    drop(array);
    answer
}

const NO_STRINGS: Option<Error> = Some(Error::InvalidArgumentError(ArgumentError::ValuesType));

fn large_strings(alloc: Global, offsets: &[i64], bytes: &[u8]) -> Result<AnyArray, Error> {
    match both(offsets_of(alloc, offsets), buffer(alloc, bytes)) {
        Ok((offsets, values)) => Utf8Array::try_new(DataType::LargeUtf8, offsets, values, None).map(
            |texts| AnyArray::LargeUtf8(texts),
        ),
        Err(error) => Err(error),
    }
}

/// What the values of a dictionary were rejected for.
fn refusal(answer: Result<String, Error>) -> Option<Error> {
    match answer {
        Ok(text) => {
            drop(text);
            None
        }
        Err(error) => Some(error),
    }
}

#[test]
fn strings_and_nulls(rt: HostRuntime) {
    let alloc = rt.alloc();
    expect_decoded(
        &rt,
        typed::<i32>(alloc, four_keys(alloc), ">>>>>"),
        "A B null C - ",
    );
    assert!(rt; refusal(typed::<i64>(alloc, four_keys(alloc), ">")) == NO_STRINGS);
}

/// Typed iteration over strings by other offsets, or over numbers, is rejected.
#[test]
fn values_of_other_types_are_rejected(rt: HostRuntime) {
    let alloc = rt.alloc();
    let large = large_strings(alloc, &[0, 1], b"x");
    let over_large = dictionary(alloc, &[0], None, large);
    assert!(rt; refusal(typed::<i32>(alloc, over_large, ">")) == NO_STRINGS);
    let over_numbers = dictionary(alloc, &[0], None, numbers(alloc, &[7]));
    assert!(rt; refusal(typed::<i32>(alloc, over_numbers, ">")) == NO_STRINGS);
}

/// A walk over the strings of a dictionary without nulls.
fn typed_values<O: TextOffset>(
    alloc: Global,
    array: Result<DictionaryArray, Error>,
    turns: &str,
) -> Result<String, Error> {
    let array = array?;
    let mut answer = Ok(String::new(alloc));
    if array.null_count() == 0 && array.values().null_count() == 0 {
        answer = match array.values_iter_typed::<O>() {
            Ok(values) => {
                let values: DictionaryValuesIterTyped<'_, O> = values;
                walked(alloc, values, turns)
            }
            Err(error) => Err(error),
        };
    }
    drop(array);
    answer
}

#[test]
fn strings_without_nulls(rt: HostRuntime) {
    let alloc = rt.alloc();
    let small = dictionary(alloc, &[1, 0], None, texts(alloc, &[0, 1, 2], b"AB"));
    expect_decoded(&rt, typed_values::<i32>(alloc, small, "<>#"), "A B 0 ");
    let large = large_strings(alloc, &[0, 1, 2], b"AB");
    let large = dictionary(alloc, &[1, 0], None, large);
    expect_decoded(&rt, typed_values::<i64>(alloc, large, "<>#"), "A B 0 ");
    let other = dictionary(alloc, &[1, 0], None, numbers(alloc, &[1, 2]));
    assert!(rt; refusal(typed_values::<i32>(alloc, other, "<")) == NO_STRINGS);
}

/// Null keys past the values: null, null.
#[test]
fn null_keys_past_the_values(rt: HostRuntime) {
    let alloc = rt.alloc();
    let bits = [false, false].as_slice();
    let values = texts(alloc, &[0, 1], b"x");
    let array = dictionary(alloc, &[9, 9], Some(bits), values).expect(&rt, "two null keys");
    assert!(rt; !array.all_in_range());
    expect_decoded(&rt, slots(alloc, &array, ">>>"), "null null - ");
    expect_decoded(&rt, keys_of(alloc, &array, "<#"), "null 1 ");
}
