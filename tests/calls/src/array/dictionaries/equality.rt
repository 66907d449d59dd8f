//! Slots that are looked up by keys are equal by their values: keys, unused values and the index of a null don't count.
use super::{by_keys, int32_keys, strings_by, texts};
use crate::array::arrays::{are_same, both, buffer, offsets_of};
use nest_array::{AnyArray, DictionaryArray};
use nest_flat::utf8::Utf8Array;
use nest_memory::datatypes::{DataType, IntegerType};
use nest_memory::error::Error;
use std::alloc::Global;

/// The n slots of an array from index o; a error where it hasn't them.
pub(super) fn cut(
    array: Result<DictionaryArray, Error>,
    o: usize,
    n: usize,
) -> Result<DictionaryArray, Error> {
    match array {
        Ok(array) => {
            let len = array.len();
            if o > len || n > len - o {
                drop(array);
                return Err(Error::Overflow);
            }
            Ok(array.sliced(o, n))
        }
        Err(error) => Err(error),
    }
}

/// Keys 0, 1, 0 over a and b cut to the last two, against keys 1, 0 over a, b, a: equal.
#[test]
fn other_keys_of_the_same_values(rt: HostRuntime) {
    let alloc = rt.alloc();
    let x = strings_by(alloc, &[0, 1, 0], None, &[Some("a"), Some("b")]);
    let y = strings_by(alloc, &[1, 0], None, &[Some("a"), Some("b"), Some("a")]);
    assert!(rt; are_same(cut(x, 1, 2), y) == Ok(true));
    let x = strings_by(alloc, &[0, 1], None, &[Some("a"), Some("b")]);
    let y = strings_by(alloc, &[1, 0], None, &[Some("a"), Some("b")]);
    assert!(rt; are_same(x, y) == Ok(false));
}

/// A null key against a key to a null value, and the same below another key: equal, but only the key is a null index.
#[test]
fn a_null_key_and_a_null_value(rt: HostRuntime) {
    let alloc = rt.alloc();
    let by_key = strings_by(alloc, &[0], Some(&[false]), &[Some("x")]).expect(&rt, "a null key");
    let by_value = strings_by(alloc, &[0], None, &[None]).expect(&rt, "a null value");
    assert!(rt; by_key.len() == 1);
    assert!(rt; by_value.len() == 1);
    assert!(rt; by_key.is_null(0));
    assert!(rt; !by_value.is_null(0));
    assert!(rt; by_key == by_value);
    assert!(rt; by_value == by_key);
    let text = strings_by(alloc, &[0], None, &[Some("x")]).expect(&rt, "a text");
    assert!(rt; by_key != text);
    assert!(rt; text != by_value);
}

/// Strings by keys as an array of any kind.
pub(super) fn inner(
    alloc: Global,
    raw: &[i32],
    bits: Option<&[bool]>,
    items: &[Option<&str>],
) -> Result<AnyArray, Error> {
    strings_by(alloc, raw, bits, items).map(|array| array.boxed())
}

/// Strings by keys into keys.
pub(super) fn by_two_keys(
    alloc: Global,
    raw: &[i32],
    bits: Option<&[bool]>,
    values: Result<AnyArray, Error>,
) -> Result<DictionaryArray, Error> {
    by_keys(alloc, int32_keys(alloc, raw, bits), values)
}

#[test]
fn keys_into_keys_are_followed(rt: HostRuntime) {
    let alloc = rt.alloc();
    let values = inner(alloc, &[0, 1], None, &[Some("x"), Some("y")]);
    let x = by_two_keys(alloc, &[0, 0, 1], None, values);
    let values = inner(alloc, &[0, 1], None, &[Some("y"), Some("x")]);
    let y = by_two_keys(alloc, &[1, 1, 0], None, values);
    assert!(rt; are_same(x, y) == Ok(true));
    let values = inner(alloc, &[0, 1], None, &[Some("x"), Some("y")]);
    let x = by_two_keys(alloc, &[0, 1], None, values);
    let values = inner(alloc, &[0, 0], None, &[Some("x"), Some("y")]);
    let y = by_two_keys(alloc, &[0, 1], None, values);
    assert!(rt; are_same(x, y) == Ok(false));
}

/// A null by the outer key.
fn null_outside(alloc: Global) -> Result<DictionaryArray, Error> {
    let values = inner(alloc, &[0], None, &[Some("x")]);
    by_two_keys(alloc, &[0], Some(&[false]), values)
}

/// A null by the inner key.
fn null_inside(alloc: Global) -> Result<DictionaryArray, Error> {
    let values = inner(alloc, &[0], Some(&[false]), &[Some("x")]);
    by_two_keys(alloc, &[0], None, values)
}

/// A text, or a null by the value, after two keys.
fn string_inside(alloc: Global, text: Option<&str>) -> Result<DictionaryArray, Error> {
    by_two_keys(alloc, &[0], None, inner(alloc, &[0], None, &[text]))
}

#[test]
fn nulls_by_each_key_and_by_the_value(rt: HostRuntime) {
    let alloc = rt.alloc();
    assert!(rt; are_same(null_outside(alloc), null_inside(alloc)) == Ok(true));
    assert!(rt; are_same(null_inside(alloc), string_inside(alloc, None)) == Ok(true));
    assert!(rt; are_same(string_inside(alloc, None), null_outside(alloc)) == Ok(true));
    let text = string_inside(alloc, Some("x"));
    assert!(rt; are_same(null_outside(alloc), text) == Ok(false));
    let text = string_inside(alloc, Some("x"));
    assert!(rt; are_same(text, null_inside(alloc)) == Ok(false));
}

/// A type of the caller over strings.
pub(super) fn named_strings(alloc: Global) -> Result<DataType, Error> {
    let name = String::from_str(alloc, "name")?;
    Ok(DataType::Extension(name, Box::new(alloc, DataType::Utf8)?, None))
}

/// The text x under a type.
pub(super) fn x_under(
    alloc: Global,
    data_type: Result<DataType, Error>,
) -> Result<AnyArray, Error> {
    let parts = both(offsets_of(alloc, &[0i32, 1]), buffer(alloc, b"x"));
    match both(data_type, parts) {
        Ok((data_type, (offsets, values))) => {
            Utf8Array::try_new(data_type, offsets, values, None).map(|texts| AnyArray::Utf8(texts))
        }
        Err(error) => Err(error),
    }
}

/// A text by a key under the type of strings by keys, whatever the type of the values themselves.
pub(super) fn as_strings(
    alloc: Global,
    values: Result<AnyArray, Error>,
) -> Result<DictionaryArray, Error> {
    let value_type = Box::new(alloc, DataType::Utf8).map_err(|refused| Error::from(refused));
    match both(both(value_type, int32_keys(alloc, &[0], None)), values) {
        Ok(((value_type, keys), values)) => {
            let data_type = DataType::Dictionary(IntegerType::Int32, value_type, false);
            DictionaryArray::try_new(alloc, data_type, keys, values)
        }
        Err(error) => Err(error),
    }
}

/// Keys under the type of strings over values of a type of the caller over strings: equal.
#[test]
fn values_are_viewed_by_their_logical_type(rt: HostRuntime) {
    let alloc = rt.alloc();
    let x = as_strings(alloc, texts(alloc, &[Some("x")]));
    let y = as_strings(alloc, x_under(alloc, named_strings(alloc)));
    assert!(rt; are_same(x, y) == Ok(true));
}
