//! How many comparisons equality pushes of slots that are looked up by keys: one for each node of a value, and none for a key.
//!
//! Comparisons of slots by keys: 2 for the keys 0, 1, 0 cut and others, 1 for a null key and a null value, 1 for values under a
//! type of the caller, 2 after two keys.
use super::equality::{as_strings, by_two_keys, cut, inner, named_strings, x_under};
use super::{strings_by, texts};
use crate::array::counts::counted;
use nest_array::{AnyArray, DictionaryArray};
use nest_memory::error::Error;

fn any(array: Result<DictionaryArray, Error>) -> Result<AnyArray, Error> {
    array.map(|array| array.boxed())
}

/// The result and the count of arrays that a call gave; they are dropped.
fn compared(
    x: Result<DictionaryArray, Error>,
    y: Result<DictionaryArray, Error>,
) -> Result<(bool, u64), Error> {
    counted(any(x), any(y))
}

#[test]
fn one_for_each_slot_whatever_the_keys(rt: HostRuntime) {
    let alloc = rt.alloc();
    let x = strings_by(alloc, &[0, 1, 0], None, &[Some("a"), Some("b")]);
    let y = strings_by(alloc, &[1, 0], None, &[Some("a"), Some("b"), Some("a")]);
    assert!(rt; compared(cut(x, 1, 2), y) == Ok((true, 2)));
}

#[test]
fn one_for_nulls_by_key_and_by_value(rt: HostRuntime) {
    let alloc = rt.alloc();
    let by_key = strings_by(alloc, &[0], Some(&[false]), &[Some("x")]);
    let by_value = strings_by(alloc, &[0], None, &[None]);
    assert!(rt; compared(by_key, by_value) == Ok((true, 1)));
    let by_key = strings_by(alloc, &[0], Some(&[false]), &[Some("x")]);
    let text = strings_by(alloc, &[0], None, &[Some("x")]);
    assert!(rt; compared(by_key, text) == Ok((false, 1)));
}

#[test]
fn one_for_values_of_the_same_logical_type(rt: HostRuntime) {
    let alloc = rt.alloc();
    let x = as_strings(alloc, texts(alloc, &[Some("x")]));
    let y = as_strings(alloc, x_under(alloc, named_strings(alloc)));
    assert!(rt; compared(x, y) == Ok((true, 1)));
}

#[test]
fn one_for_each_slot_after_two_keys(rt: HostRuntime) {
    let alloc = rt.alloc();
    let x = by_two_keys(alloc, &[0, 0], None, inner(alloc, &[0], None, &[Some("x")]));
    let y = by_two_keys(alloc, &[0, 0], None, inner(alloc, &[0], None, &[Some("x")]));
    assert!(rt; compared(x, y) == Ok((true, 2)));
}

#[test]
fn none_for_other_lengths(rt: HostRuntime) {
    let alloc = rt.alloc();
    let x = strings_by(alloc, &[0, 0], None, &[Some("x")]);
    let y = strings_by(alloc, &[0], None, &[Some("x")]);
    assert!(rt; compared(x, y) == Ok((false, 0)));
}
