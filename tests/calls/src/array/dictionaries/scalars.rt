//! What a slot that is looked up by a key holds as a scalar, and the value that a raw key names by itself.
//!
//! A slot by its key as a scalar, null by the key and by the value; the value at a raw key, also under a null; the data types
//! of both.
use super::equality::{by_two_keys, inner};
use super::{four_strings, strings_by};
use crate::array::scalars::{decoded, slot};
use nest_array::{AnyScalar, DictionaryArray, new_scalar};
use nest_memory::datatypes::DataType;
use nest_memory::error::Error;
use std::alloc::Global;

/// The value that raw key i names, `Overflow` where it names none; the array is dropped.
fn named(
    alloc: Global,
    array: Result<DictionaryArray, Error>,
    i: usize,
) -> Result<AnyScalar, Error> {
    let array = array?;
    if i >= array.len() || !array.in_range(i) {
        drop(array);
        return Err(Error::Overflow);
    }
    let scalar = array.value(alloc, i);
    drop(array);
    scalar
}

#[test]
fn slots_are_values_or_null(rt: HostRuntime) {
    let alloc = rt.alloc();
    assert!(rt; slot(alloc, four_strings(alloc), 0).as_str() == "'A'");
    assert!(rt; slot(alloc, four_strings(alloc), 2).as_str() == "null");
    assert!(rt; slot(alloc, four_strings(alloc), 3).as_str() == "'C'");
    let by_value = strings_by(alloc, &[1, 0], None, &[Some("x"), None]);
    assert!(rt; slot(alloc, by_value, 0).as_str() == "null");
}

#[test]
fn slots_after_two_keys(rt: HostRuntime) {
    let alloc = rt.alloc();
    let values = inner(alloc, &[1, 0], None, &[Some("x"), Some("y")]);
    assert!(rt; slot(alloc, by_two_keys(alloc, &[0, 1], None, values), 1).as_str() == "'x'");
    let values = inner(alloc, &[0], Some(&[false]), &[Some("x")]);
    assert!(rt; slot(alloc, by_two_keys(alloc, &[0], None, values), 0).as_str() == "null");
}

#[test]
fn values_at_raw_keys_also_under_nulls(rt: HostRuntime) {
    let alloc = rt.alloc();
    assert!(rt; decoded(alloc, named(alloc, four_strings(alloc), 1)).as_str() == "'B'");
    assert!(rt; decoded(alloc, named(alloc, four_strings(alloc), 2)).as_str() == "'A'");
    let by_value = strings_by(alloc, &[1], None, &[Some("x"), None]);
    assert!(rt; decoded(alloc, named(alloc, by_value, 0)).as_str() == "null");
}

/// Whether the scalar of the first slot has the array's type, and the value that its key names that of strings.
fn have_their_types(alloc: Global, array: &DictionaryArray) -> Result<bool, Error> {
    if array.len() == 0 || !array.in_range(0) {
        return Err(Error::Overflow);
    }
    let value = array.value(alloc, 0)?;
    let texts = *value.data_type() == DataType::Utf8;
    drop(value);
    match array.clone(alloc) {
        Ok(copy) => {
            let any = copy.boxed();
            let scalar = new_scalar(alloc, &any, 0);
            drop(any);
            same_type(scalar, array).map(|same| same && texts)
        }
        Err(error) => Err(error),
    }
}

fn same_type(scalar: Result<AnyScalar, Error>, array: &DictionaryArray) -> Result<bool, Error> {
    let scalar = scalar?;
    let same = *scalar.data_type() == *array.data_type();
    drop(scalar);
    Ok(same)
}

#[test]
fn slots_and_values_have_their_own_types(rt: HostRuntime) {
    let array = four_strings(rt.alloc()).expect(&rt, "four texts");
    let answer = have_their_types(rt.alloc(), &array);
    assert!(rt; answer == Ok(true));
}
