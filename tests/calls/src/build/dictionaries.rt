//! Dictionaries built from their values.

use nest_array::{AnyArray, AnyKeys, DictionaryArray};
use nest_build::array::MutableArray;
use nest_build::dictionary::{DictionaryRows, MutableDictionaryArray};
use nest_build::fixed_size_binary::MutableFixedSizeBinaryArray;
use nest_build::push::{TryExtend, TryPush};
use nest_flat::plain::Plain;
use nest_memory::error::{ArgumentError, Error};
use std::alloc::Global;
use std::rc::Rc;

/// Byte strings of two bytes by keys of 8 bits.
type Pairs = MutableDictionaryArray<i8, MutableFixedSizeBinaryArray>;

fn push_plain<B: MutableArray>(builder: &mut B, value: Plain<'_>) -> Result<(), Error> {
    if !builder.is_complete() {
        return Err(Error::InvalidArgumentError(ArgumentError::Incomplete));
    }
    builder.try_push_plain(Some(value))
}

fn show(array: &DictionaryArray, text: &mut String) -> Result<(), Error> {
    let AnyKeys::Int8(keys) = array.keys() else {
        return Ok(());
    };
    for i in 0..keys.len() {
        match keys.get(i) {
            None => text.push_str("null ")?,
            Some(key) => write!(text, "{key} ")?,
        }
    }
    let AnyArray::FixedSizeBinary(values) = array.values() else {
        return Ok(());
    };
    for i in 0..values.len() {
        for byte in values.value(i) {
            write!(text, "{byte}")?;
        }
    }
    Ok(())
}

/// The keys and the values of an array of pairs, as text; it is dropped.
fn text_of(alloc: Global, array: Result<DictionaryArray, Error>) -> Result<String, Error> {
    match array {
        Err(error) => Err(error),
        Ok(array) => {
            let mut text = String::new(alloc);
            let done = show(&array, &mut text);
            drop(array);
            done?;
            Ok(text)
        }
    }
}

fn no_pairs(alloc: Global) -> Result<Pairs, Error> {
    MutableDictionaryArray::try_from_values(alloc, MutableFixedSizeBinaryArray::new(alloc, 2))
}

/// Pushes the pair of a 0 and this byte.
fn push_pair(pairs: &mut Pairs, last: u8) -> Result<(), Error> {
    push_plain(pairs, Plain::Bytes(&[0, last]))
}

/// Three pairs, and a null before the last.
fn push_four(pairs: &mut Pairs) -> Result<(), Error> {
    push_pair(pairs, 1)?;
    push_pair(pairs, 2)?;
    if pairs.is_complete() {
        pairs.push_null()?;
    }
    push_pair(pairs, 3)
}

/// "A", "B", null, "C" are frozen to the keys 0, 1, null, 2 over these values; the emptied builder takes "C" by key 0.
#[test]
fn rows_are_the_keys_of_their_values(rt: HostRuntime) {
    let mut pairs = no_pairs(rt.alloc()).expect(&rt, "no pairs");
    push_four(&mut pairs).expect(&rt, "four rows");
    let first = text_of(rt.alloc(), pairs.freeze()).expect(&rt, "its text");
    push_pair(&mut pairs, 3).expect(&rt, "a pair");
    let second = text_of(rt.alloc(), pairs.freeze()).expect(&rt, "its text");
    assert!(rt; first.as_str() == "0 1 null 2 010203");
    assert!(rt; second.as_str() == "0 03");
}

/// A value's key is found by its own kind alone.
#[test]
fn a_key_is_of_its_own_kind(rt: HostRuntime) {
    let mut pairs = no_pairs(rt.alloc()).expect(&rt, "no pairs");
    push_pair(&mut pairs, 1).expect(&rt, "a pair");
    let other = pairs.key_of(&true);
    let own = pairs.key_of(&[0u8, 1].as_slice());
    let unknown = pairs.key_of(&[0u8, 2].as_slice());
    assert!(rt; other == None);
    assert!(rt; own == Some(0));
    assert!(rt; unknown == None);
}

/// 128 values by keys of 8 bits with a sign, and no other; a known one is taken.
#[test]
fn a_full_key_type_takes_known_values(rt: HostRuntime) {
    let mut pairs = no_pairs(rt.alloc()).expect(&rt, "no pairs");
    for last in 0..128u8 {
        push_pair(&mut pairs, last).expect(&rt, "a pair");
    }
    let new = push_pair(&mut pairs, 128);
    let other_kind = push_plain(&mut pairs, Plain::Boolean(true));
    let longer = push_plain(&mut pairs, Plain::Bytes(b"abc"));
    let known = push_pair(&mut pairs, 5);
    let values = pairs.values().len();
    let rows = pairs.len();
    assert!(rt; new == Err(Error::Overflow));
    assert!(rt; longer == Err(Error::Overflow));
    assert!(rt; other_kind == Err(Error::InvalidArgumentError(ArgumentError::ItemType)));
    assert!(rt; known == Ok(()));
    assert!(rt; values == 128);
    assert!(rt; rows == 129);
}

/// A value of another size leaves no key and no value.
#[test]
fn a_value_of_another_size_leaves_no_key(rt: HostRuntime) {
    let mut pairs = no_pairs(rt.alloc()).expect(&rt, "no pairs");
    let refused = push_plain(&mut pairs, Plain::Bytes(b"abc"));
    let rows = pairs.len();
    let values = pairs.values().len();
    assert!(rt; refused == Err(Error::InvalidArgumentError(ArgumentError::ItemSize)));
    assert!(rt; rows == 0);
    assert!(rt; values == 0);
}

/// Rows of dictionaries reject a key past their type.
#[test]
fn rows_reject_a_key_past_their_type(rt: HostRuntime) {
    let mut rows: DictionaryRows<u8> = DictionaryRows::new(rt.alloc());
    rows.reserve(3).expect(&rt, "room");
    rows.push(Some(255)).expect(&rt, "a row more");
    rows.push(None).expect(&rt, "a row more");
    let past = rows.push(Some(256));
    let needed = rows.needed();
    rows.truncate(1);
    rows.shrink_to_fit();
    let first = rows.key(0);
    let keys = rows.freeze().expect(&rt, "an array");
    let count = keys.len();
    assert!(rt; past == Err(Error::Overflow));
    assert!(rt; needed == 256);
    assert!(rt; first == Some(255));
    assert!(rt; count == 1);
    assert!(rt; rows.len() == 0);
}

/// Pushes an item of bytes.
fn push_bytes(pairs: &mut Pairs, item: Option<&[u8]>) -> Result<(), Error> {
    if !pairs.is_complete() {
        return Err(Error::InvalidArgumentError(ArgumentError::Incomplete));
    }
    pairs.try_push(item)
}

/// Pushes all items of bytes or none.
fn extend_bytes(pairs: &mut Pairs, items: &[Option<&[u8]>]) -> Result<(), Error> {
    if !pairs.is_complete() {
        return Err(Error::InvalidArgumentError(ArgumentError::Incomplete));
    }
    pairs.try_extend(items.iter().copied())
}

/// "ab", null, "cd", "ab" over an empty child.
fn four_items(alloc: Global) -> Result<Pairs, Error> {
    let values = MutableFixedSizeBinaryArray::new(alloc, 2);
    let mut pairs: Pairs = MutableDictionaryArray::new(alloc, values)?;
    pairs.reserve(4)?;
    push_bytes(&mut pairs, Some(b"ab"))?;
    extend_bytes(&mut pairs, &[None, Some(b"cd"), Some(b"ab")])?;
    Ok(pairs)
}

/// Which of the rows hold "ab".
fn rows_of_ab(pairs: &Pairs) -> usize {
    let mut found = 0usize;
    for i in 0..pairs.len() {
        if pairs.holds(i, &Plain::Bytes(b"ab")) {
            found = found.saturating_add(1);
        }
    }
    found
}

/// A builder of dictionaries by items of its type: keys, values, what its rows hold; cut, frozen, shared, turned into its
/// array.
#[test]
fn items_of_bytes_are_values_once(rt: HostRuntime) {
    let pairs = four_items(rt.alloc()).expect(&rt, "four items");
    let keys = pairs.keys().len();
    let values = pairs.values().len();
    let held = rows_of_ab(&pairs);
    assert!(rt; keys == 4);
    assert!(rt; values == 2);
    assert!(rt; held == 2);
}

/// Keeps the first rows of a whole builder.
fn keep(pairs: &mut Pairs, n: usize) {
    if pairs.is_complete() && n <= pairs.len() {
        pairs.truncate(n);
    }
}

#[test]
fn the_first_rows_are_kept(rt: HostRuntime) {
    let mut pairs = four_items(rt.alloc()).expect(&rt, "four items");
    keep(&mut pairs, 2);
    pairs.shrink_to_fit().expect(&rt, "less room");
    let rows = pairs.len();
    let values = pairs.values().len();
    assert!(rt; rows == 2);
    assert!(rt; values == 1);
}

/// How many slots, and how many of them are null; the array is dropped.
fn counted(array: Result<AnyArray, Error>) -> Result<(usize, usize), Error> {
    match array {
        Err(error) => Err(error),
        Ok(array) => {
            let counts = (array.len(), array.null_count());
            drop(array);
            Ok(counts)
        }
    }
}

/// The same of a shared array.
fn counted_shared(array: Result<Rc<AnyArray>, Error>) -> Result<(usize, usize), Error> {
    match array {
        Err(error) => Err(error),
        Ok(array) => {
            let counts = (array.len(), array.null_count());
            drop(array);
            Ok(counts)
        }
    }
}

#[test]
fn rows_are_frozen_and_shared(rt: HostRuntime) {
    let mut pairs = four_items(rt.alloc()).expect(&rt, "four items");
    let first = counted(pairs.as_box());
    let second = counted_shared(pairs.as_arc(rt.alloc()));
    assert!(rt; first == Ok((4, 1)));
    assert!(rt; second == Ok((0, 0)));
}

#[test]
fn a_builder_becomes_its_array(rt: HostRuntime) {
    let boxed = counted(four_items(rt.alloc()).expect(&rt, "four items").into_box());
    let arced = counted_shared(
        four_items(rt.alloc())
            .expect(&rt, "four items")
            .into_arc(rt.alloc()),
    );
    assert!(rt; boxed == Ok((4, 1)));
    assert!(rt; arced == Ok((4, 1)));
}
