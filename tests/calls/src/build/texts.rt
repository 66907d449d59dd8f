//! The builders of strings and of bytes, as builders of any kind.
//!
//! Strings and bytes are pushed at their type and as plain values, found, cut, joined, frozen and boxed; another kind is
//! rejected.

use nest_array::AnyArray;
use nest_build::array::MutableArray;
use nest_build::push::{TryExtend, TryExtendFromSelf, TryPush};
use nest_flat::any_native::AnyNative;
use nest_flat::binary::mutable::MutableBinaryArray;
use nest_flat::plain::Plain;
use nest_flat::utf8::mutable::MutableUtf8Array;
use nest_memory::error::{ArgumentError, Error};
use std::alloc::Global;

type Strings = MutableUtf8Array<i32>;

const OTHER_KIND: Error = Error::InvalidArgumentError(ArgumentError::ItemType);

/// "ab", null, "".
fn three_utf8(alloc: Global) -> Result<Strings, Error> {
    let mut texts = Strings::new(alloc)?;
    let items = [Some("ab"), None, Some("")];
    match TryExtend::try_extend(&mut texts, items.as_slice().iter().copied()) {
        Ok(()) => Ok(texts),
        Err(error) => {
            drop(texts);
            Err(error)
        }
    }
}

fn push_plain<B: MutableArray>(builder: &mut B, value: Plain<'_>) -> Result<(), Error> {
    if !builder.is_complete() {
        return Err(Error::InvalidArgumentError(ArgumentError::Incomplete));
    }
    builder.try_push_plain(Some(value))
}

/// Whether a slot is there, and is this value.
fn holds<B: MutableArray>(builder: &B, i: usize, value: Plain<'_>) -> bool {
    i < builder.len() && builder.holds(i, &value)
}

fn is_null<B: MutableArray>(builder: &B, i: usize) -> bool {
    i < builder.len() && !builder.is_valid(i)
}

/// Whether the array has these strings; it is dropped.
fn strings_are(array: Result<AnyArray, Error>, expected: &[Option<&str>]) -> bool {
    match array {
        Err(_) => false,
        Ok(array) => {
            let same = are_texts(&array, expected);
            drop(array);
            same
        }
    }
}

fn are_texts(array: &AnyArray, expected: &[Option<&str>]) -> bool {
    let AnyArray::Utf8(texts) = array else {
        return false;
    };
    if texts.len() != expected.len() {
        return false;
    }
    for i in 0..texts.len() {
        if texts.get(i) != expected[i] {
            return false;
        }
    }
    true
}

#[test]
fn strings_of_its_type_are_pushed(rt: HostRuntime) {
    let mut texts = three_utf8(rt.alloc()).expect(&rt, "three texts");
    assert!(rt; TryPush::try_push(&mut texts, Some("é")) == Ok(()));
    assert!(rt; MutableArray::len(&texts) == 4);
    assert!(rt;
        strings_are(
            texts.as_box(),
            [Some("ab"), None, Some(""), Some("é")].as_slice()
        )
    );
    assert!(rt; MutableArray::is_empty(&texts));
    assert!(rt; MutableArray::validity(&texts).is_none());
}

#[test]
fn plain_strings_are_pushed(rt: HostRuntime) {
    let mut texts = three_utf8(rt.alloc()).expect(&rt, "three texts");
    assert!(rt; push_plain(&mut texts, Plain::Text("c")) == Ok(()));
    assert!(rt; push_plain(&mut texts, Plain::Bytes(b"c")) == Err(OTHER_KIND));
    assert!(rt; push_plain(&mut texts, Plain::Native(AnyNative::Int64(7))) == Err(OTHER_KIND));
    assert!(rt; texts.push_null() == Ok(()));
    assert!(rt; MutableArray::len(&texts) == 5);
}

#[test]
fn a_string_is_found_at_its_index(rt: HostRuntime) {
    let texts = three_utf8(rt.alloc()).expect(&rt, "three texts");
    assert!(rt; holds(&texts, 0, Plain::Text("ab")));
    assert!(rt; holds(&texts, 2, Plain::Text("")));
    assert!(rt; !holds(&texts, 1, Plain::Text("")));
    assert!(rt; !holds(&texts, 0, Plain::Bytes(b"ab")));
    assert!(rt; is_null(&texts, 1) && !is_null(&texts, 2));
}

#[test]
fn no_byte_is_left_after_the_last_string(rt: HostRuntime) {
    let mut texts = three_utf8(rt.alloc()).expect(&rt, "three texts");
    TryPush::try_push(&mut texts, Some("cde")).expect(&rt, "a row more");
    if MutableArray::len(&texts) >= 2 {
        MutableArray::truncate(&mut texts, 2);
    }
    assert!(rt; texts.values().as_slice() == b"ab".as_slice());
    TryPush::try_push(&mut texts, Some("f")).expect(&rt, "a row more");
    assert!(rt; strings_are(texts.as_box(), [Some("ab"), None, Some("f")].as_slice()));
}

#[test]
fn strings_are_joined(rt: HostRuntime) {
    let mut texts = three_utf8(rt.alloc()).expect(&rt, "three texts");
    let more = three_utf8(rt.alloc()).expect(&rt, "three texts");
    assert!(rt; TryExtendFromSelf::try_extend_from_self(&mut texts, &more) == Ok(()));
    assert!(rt; MutableArray::reserve(&mut texts, 9223372036854775807) != Err(Error::Overflow));
    assert!(rt; MutableArray::shrink_to_fit(&mut texts) == Ok(()));
    let twice = [Some("ab"), None, Some(""), Some("ab"), None, Some("")];
    assert!(rt; strings_are(texts.as_box(), twice.as_slice()));
}
