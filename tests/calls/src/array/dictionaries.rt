//! Strings that are looked up by keys: what slots are, slices, new validities.
mod counts;
mod equality;
mod refusals;
mod scalars;
mod widths;

use crate::array::arrays::memory::unless_without_memory;
use crate::array::arrays::{both, buffer, validity};
use nest_array::any::clone;
use nest_array::{AnyArray, AnyKeys, DictionaryArray, DictionaryKey};
use nest_flat::primitive::PrimitiveArray;
use nest_flat::utf8::mutable::MutableUtf8Array;
use nest_memory::datatypes::DataType;
use nest_memory::error::{Error, SpecError};
use std::alloc::Global;
use std::process::Abort;

/// Strings, `None` a null.
pub(crate) fn texts(alloc: Global, items: &[Option<&str>]) -> Result<AnyArray, Error> {
    let mut builder = MutableUtf8Array::<i32>::new(alloc)?;
    for item in items {
        builder.try_push(*item)?;
    }
    builder.freeze().map(|texts| AnyArray::Utf8(texts))
}

/// Raw keys under a validity.
fn keys<K: DictionaryKey + Drop>(
    alloc: Global,
    raw: &[K],
    bits: Option<&[bool]>,
) -> Result<PrimitiveArray<K>, Error> {
    match both(buffer(alloc, raw), validity(alloc, bits)) {
        Ok((values, validity)) => {
            PrimitiveArray::try_new(DataType::from(K::KEY_TYPE), values, validity)
        }
        Err(error) => Err(error),
    }
}

/// Raw keys of 32 bits under a validity.
fn int32_keys(alloc: Global, raw: &[i32], bits: Option<&[bool]>) -> Result<AnyKeys, Error> {
    keys(alloc, raw, bits).map(|keys| i32::wrap(keys))
}

/// Values by keys, under the type of both.
fn by_keys(
    alloc: Global,
    keys: Result<AnyKeys, Error>,
    values: Result<AnyArray, Error>,
) -> Result<DictionaryArray, Error> {
    match both(keys, values) {
        Ok((keys, values)) => DictionaryArray::try_from_keys(alloc, keys, values),
        Err(error) => Err(error),
    }
}

/// Strings by keys of 32 bits.
fn strings_by(
    alloc: Global,
    raw: &[i32],
    bits: Option<&[bool]>,
    items: &[Option<&str>],
) -> Result<DictionaryArray, Error> {
    by_keys(alloc, int32_keys(alloc, raw, bits), texts(alloc, items))
}

/// A, B, null and C.
pub(crate) fn four_strings(alloc: Global) -> Result<DictionaryArray, Error> {
    let items = [Some("A"), Some("B"), Some("C")];
    strings_by(
        alloc,
        &[0, 1, 0, 2],
        Some(&[true, true, false, true]),
        &items,
    )
}

/// The text of slot i.
fn text_at(array: &DictionaryArray, i: usize) -> &str {
    if i >= array.len() {
        return "past the end";
    }
    if array.is_null(i) {
        return "null";
    }
    if !array.in_range(i) {
        return "out of range";
    }
    let index = array.key_value(i);
    match array.values() {
        AnyArray::Utf8(texts) if index < texts.len() => {
            if texts.is_null(index) {
                return "null value";
            }
            texts.value(index)
        }
        _ => "of another kind",
    }
}

/// Appends the slots as text, a blank before each.
fn spell(array: &DictionaryArray, text: &mut String) -> Result<(), Error> {
    for i in 0..array.len() {
        text.push_str(" ")?;
        text.push_str(text_at(array, i))?;
    }
    Ok(())
}

/// The slots of an array are decoded so; it is dropped.
fn expect_strings(
    rt: &impl Abort,
    alloc: Global,
    array: Result<DictionaryArray, Error>,
    expected: &str,
) {
    let array = array.expect(rt, "an array");
    let mut text = String::new(alloc);
    let done = spell(&array, &mut text);
    drop(array);
    assert!(rt; done == Ok(()));
    assert!(rt; text.as_str() == expected);
}

#[test]
fn keys_are_followed(rt: HostRuntime) {
    let alloc = rt.alloc();
    expect_strings(&rt, alloc, four_strings(alloc), " A B null C");
    let items = [Some("x"), None];
    let array = strings_by(alloc, &[1, 0, 1], None, &items);
    expect_strings(&rt, alloc, array, " null value x null value");
}

#[test]
fn parts_are_shown(rt: HostRuntime) {
    let array = four_strings(rt.alloc()).expect(&rt, "four texts");
    assert!(rt; array.len() == 4);
    assert!(rt; array.null_count() == 1);
    assert!(rt; array.keys().len() == 4);
    assert!(rt; !array.keys().is_empty());
    assert!(rt; array.keys().key_type() == i32::KEY_TYPE);
    assert!(rt; *array.keys().data_type() == DataType::Int32);
    assert!(rt; array.keys().null_count() == 1);
    assert!(rt; array.keys().validity().is_some());
    assert!(rt; array.values().len() == 3);
    assert!(rt; array.validity().is_some());
    assert!(rt; !array.is_ordered());
    assert!(rt; array.all_in_range());
}

#[test]
fn raw_keys_are_shown(rt: HostRuntime) {
    let array = four_strings(rt.alloc()).expect(&rt, "four texts");
    assert!(rt; array.len() == 4);
    assert!(rt; array.in_range(3));
    assert!(rt; array.key_value(3) == 2);
    assert!(rt; array.in_range(2));
    assert!(rt; array.key_value(2) == 0);
    assert!(rt; array.is_null(2));
    assert!(rt; !array.is_null(3));
}

#[test]
fn slices_keep_the_values(rt: HostRuntime) {
    let array = four_strings(rt.alloc()).expect(&rt, "four texts");
    assert!(rt; array.len() == 4);
    let mut cut = array.sliced(1, 3);
    assert!(rt; cut.len() == 3);
    cut.slice(1, 2);
    assert!(rt; cut.len() == 2);
    assert!(rt; cut.null_count() == 1);
    assert!(rt; cut.values().len() == 3);
    expect_strings(&rt, rt.alloc(), Ok(cut), " null C");
}

/// Keys that are all null with raw keys 9, 9 over one text: taken, not in range, and never valid, also after a slice.
#[test]
fn null_keys_may_be_any_raw_keys(rt: HostRuntime) {
    let alloc = rt.alloc();
    let nulls = Some([false, false].as_slice());
    let mut array = strings_by(alloc, &[9, 9], nulls, &[Some("x")]).expect(&rt, "two nulls");
    assert!(rt; array.len() == 2);
    assert!(rt; !array.in_range(0));
    assert!(rt; !array.all_in_range());
    let refused = Err(Error::OutOfSpec(SpecError::KeyRange));
    assert!(rt; array.set_validity(None) == refused);
    assert!(rt; array.null_count() == 2);
    let cut = array.sliced(1, 1);
    assert!(rt; cut.len() == 1);
    assert!(rt; cut.is_null(0));
    assert!(rt; !cut.in_range(0));
    let array = strings_by(alloc, &[-1, 9], nulls, &[]);
    expect_strings(&rt, alloc, array, " null null");
}

/// The array, and why its new validity was rejected.
fn kept<A, B>(changed: Result<A, (A, B)>) -> (A, Option<B>) {
    match changed {
        Ok(array) => (array, None),
        Err((array, error)) => (array, Some(error)),
    }
}

/// Null keys with raw keys 0, 9 over one text: the first may become valid, the second not, and the array is handed back.
#[test]
fn validities_under_which_keys_name_values(rt: HostRuntime) {
    let alloc = rt.alloc();
    let nulls = Some([false, false].as_slice());
    let array = strings_by(alloc, &[0, 9], nulls, &[Some("x")]).expect(&rt, "two nulls");
    let bits = validity(alloc, Some(&[false, true])).expect(&rt, "two bits");
    let (array, refused) = kept(array.with_validity(bits));
    assert!(rt; refused == Some(Error::OutOfSpec(SpecError::KeyRange)));
    assert!(rt; array.null_count() == 2);
    let bits = validity(alloc, Some(&[true])).expect(&rt, "a bit");
    let (array, refused) = kept(array.with_validity(bits));
    assert!(rt; refused == Some(Error::OutOfSpec(SpecError::ValidityLength)));
    assert!(rt; array.null_count() == 2);
    let bits = validity(alloc, Some(&[true, false])).expect(&rt, "two bits");
    let (array, refused) = kept(array.with_validity(bits));
    assert!(rt; refused == None);
    expect_strings(&rt, alloc, Ok(array), " x null");
}

#[test]
fn validities_are_replaced(rt: HostRuntime) {
    let alloc = rt.alloc();
    let array = four_strings(alloc).expect(&rt, "four texts");
    let mut any = array.boxed();
    let bits = validity(alloc, Some(&[false, true])).expect(&rt, "two bits");
    let refused = Err(Error::OutOfSpec(SpecError::ValidityLength));
    assert!(rt; any.set_validity(bits) == refused);
    assert!(rt; any.null_count() == 1);
    assert!(rt; any.set_validity(None) == Ok(()));
    assert!(rt; any.null_count() == 0);
}

#[test]
fn copies_and_shared_arrays(rt: HostRuntime) {
    let alloc = rt.alloc();
    let array = four_strings(alloc).expect(&rt, "four texts");
    let copy = array.clone(alloc).expect(&rt, "a copy");
    assert!(rt; copy == array);
    let any = array.boxed();
    let other = clone(alloc, &any).expect(&rt, "a copy in its variant");
    assert!(rt; other == any);
    let shared = copy.arced(alloc).expect(&rt, "a shared array");
    assert!(rt; shared.len() == 4);
}

// The test passes whichever allocation fails.
#[test]
fn without_memory(rt: HostRuntime) {
    let Some(array) = unless_without_memory(&rt, four_strings(rt.alloc())) else {
        return;
    };
    if let Some(copy) = unless_without_memory(&rt, array.clone(rt.alloc())) {
        assert!(rt; copy == array);
    }
    assert!(rt; array.len() == 4);
    assert!(rt; array.null_count() == 1);
    if array.in_range(0) {
        if let Some(scalar) = unless_without_memory(&rt, array.value(rt.alloc(), 0)) {
            assert!(rt; scalar.is_valid());
        }
    }
    if let Some(shared) = unless_without_memory(&rt, array.arced(rt.alloc())) {
        assert!(rt; shared.len() == 4);
    }
}
