//! Dictionaries of strings and of numbers, over builders of any kind without children.
use nest_any::AnyMutableFlat;
use nest_array::{AnyArray, AnyKeys, DictionaryArray};
use nest_build::array::MutableArray;
use nest_build::dictionary::MutableDictionaryArray;
use nest_flat::any_native::AnyNative;
use nest_flat::any_primitive::mutable::AnyMutablePrimitive;
use nest_flat::plain::Plain;
use nest_flat::primitive::mutable::MutablePrimitiveArray;
use nest_flat::utf8::mutable::MutableUtf8Array;
use nest_memory::error::{ArgumentError, Error};
use std::alloc::Global;

/// Values of any kind without children, by keys of 8 bits.
type Dictionaries = MutableDictionaryArray<u8, AnyMutableFlat>;

fn no_texts(alloc: Global) -> Result<Dictionaries, Error> {
    let texts = AnyMutableFlat::Utf8(MutableUtf8Array::new(alloc)?);
    MutableDictionaryArray::try_from_values(alloc, texts)
}

fn no_numbers(alloc: Global) -> Result<Dictionaries, Error> {
    let numbers = AnyMutablePrimitive::Int64(MutablePrimitiveArray::new(alloc));
    MutableDictionaryArray::try_from_values(alloc, AnyMutableFlat::Primitive(numbers))
}

fn push(keyed: &mut Dictionaries, value: Plain<'_>) -> Result<(), Error> {
    if !keyed.is_complete() {
        return Err(Error::InvalidArgumentError(ArgumentError::Incomplete));
    }
    keyed.try_push_plain(Some(value))
}

fn show(array: &DictionaryArray, text: &mut String) -> Result<(), Error> {
    let AnyKeys::UInt8(keys) = array.keys() else {
        return Ok(());
    };
    for i in 0..keys.len() {
        match keys.get(i) {
            None => text.push_str("null ")?,
            Some(key) => write!(text, "{key} ")?,
        }
    }
    let AnyArray::Utf8(values) = array.values() else {
        return Ok(());
    };
    for i in 0..values.len() {
        text.push_str(values.value(i))?;
    }
    Ok(())
}

/// The keys and the values of an array of strings, as text; it is dropped.
fn text_of(alloc: Global, array: Result<DictionaryArray, Error>) -> Result<String, Error> {
    match array {
        Err(error) => Err(error),
        Ok(array) => {
            let mut text = String::new(alloc);
            let done = show(&array, &mut text);
            drop(array);
            done?;
            Ok(text)
        }
    }
}

/// "A", "B", null and "A".
fn push_four(keyed: &mut Dictionaries) -> Result<(), Error> {
    push(keyed, Plain::Text("A"))?;
    push(keyed, Plain::Text("B"))?;
    if keyed.is_complete() {
        keyed.push_null()?;
    }
    push(keyed, Plain::Text("A"))
}

/// "A", "B", null, "A" are frozen to the keys 0, 1, null, 0 over two strings; the emptied builder takes "C" by key 0.
#[test]
fn each_string_is_kept_once(rt: HostRuntime) {
    let mut keyed = no_texts(rt.alloc()).expect(&rt, "no texts");
    let pushed = push_four(&mut keyed);
    let first = text_of(rt.alloc(), keyed.freeze());
    let again = push(&mut keyed, Plain::Text("C"));
    let second = text_of(rt.alloc(), keyed.freeze());
    assert!(rt; pushed == Ok(()));
    assert!(rt; again == Ok(()));
    assert!(rt; first.expect(&rt, "first").as_str() == "0 1 null 0 AB");
    assert!(rt; second.expect(&rt, "a text").as_str() == "0 C");
}

/// A number of 32 bits is not a value of a dictionary of numbers of 64 bits, and a text is rejected.
#[test]
fn a_number_is_found_by_its_own_kind(rt: HostRuntime) {
    let mut keyed = no_numbers(rt.alloc()).expect(&rt, "no numbers");
    let pushed = push(&mut keyed, Plain::Native(AnyNative::Int64(7)));
    let other = push(&mut keyed, Plain::Text("7"));
    let narrow = keyed.key_of(&7i32);
    let own = keyed.key_of(&7i64);
    assert!(rt; pushed == Ok(()));
    assert!(rt; other == Err(Error::InvalidArgumentError(ArgumentError::ItemType)));
    assert!(rt; narrow == None);
    assert!(rt; own == Some(0));
}

/// How many of so many different numbers are taken.
fn taken(keyed: &mut Dictionaries, wanted: i64) -> Result<usize, Error> {
    let mut taken = 0usize;
    for number in 0..wanted {
        match push(keyed, Plain::Native(AnyNative::Int64(number))) {
            Ok(()) => taken = taken.saturating_add(1),
            Err(Error::Overflow) => {}
            Err(error) => return Err(error),
        }
    }
    Ok(taken)
}

/// 256 numbers by keys of 8 bits without a sign, and no other; known ones are taken.
#[test]
fn there_are_as_many_values_as_keys(rt: HostRuntime) {
    let mut keyed = no_numbers(rt.alloc()).expect(&rt, "no numbers");
    let count = taken(&mut keyed, 300);
    let again = taken(&mut keyed, 256);
    let rows = keyed.len();
    let values = keyed.values().len();
    assert!(rt; count == Ok(256));
    assert!(rt; again == Ok(256));
    assert!(rt; rows == 512);
    assert!(rt; values == 256);
}
