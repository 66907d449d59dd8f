//! Builders of strings and of bytes.

use nest_flat::binary::BinaryArray;
use nest_flat::binary::mutable::MutableBinaryArray;
use nest_flat::utf8::Utf8Array;
use nest_flat::utf8::mutable::MutableUtf8Array;
use nest_memory::error::Error;
use std::alloc::{AllocError, Global};
use std::test::Fail;

/// The strings of a builder, each before a bar.
fn shown(alloc: Global, texts: &MutableUtf8Array<i32>) -> Result<String, Error> {
    let mut text = String::new(alloc);
    for i in 0..texts.len() {
        if texts.is_valid(i) {
            text.push_str(texts.value(i))?;
        } else {
            text.push_str("null")?;
        }
        text.push_str("|")?;
    }
    Ok(text)
}

fn show(array: &Utf8Array<i32>, text: &mut String) -> Result<(), Error> {
    for i in 0..array.len() {
        match array.get(i) {
            None => text.push_str("null|")?,
            Some(value) => {
                text.push_str(value)?;
                text.push_str("|")?;
            }
        }
    }
    Ok(())
}

/// The strings of an array, each before a bar.
fn frozen(alloc: Global, array: Result<Utf8Array<i32>, Error>) -> Result<String, Error> {
    let array = array?;
    let mut text = String::new(alloc);
    let done = show(&array, &mut text);
    drop(array);
    done?;
    Ok(text)
}

fn push_texts(alloc: Global, texts: &mut MutableUtf8Array<i32>) -> Result<(), Error> {
    let items = vec![in alloc; Some("a"), None]?;
    texts.try_extend(items)?;
    texts.try_push(Some("é"))?;
    texts.try_push(Some(""))
}

#[test]
fn strings_are_frozen_and_read_back(rt: HostRuntime) -> Result<(), Fail> {
    let mut texts = MutableUtf8Array::new(rt.alloc())?;
    let pushed = push_texts(rt.alloc(), &mut texts);
    let array = texts.freeze();
    let left = (
        texts.len(),
        texts.validity().is_some(),
        texts.values().len(),
    );
    assert!(rt; pushed == Ok(()));
    assert!(rt; left == (0, false, 0));
    assert!(rt; frozen(rt.alloc(), array)?.as_str() == "a|null|é||");
    Ok(())
}

fn double_and_truncate(alloc: Global, texts: &mut MutableUtf8Array<i32>) -> Result<usize, Error> {
    push_texts(alloc, texts)?;
    let mut more = MutableUtf8Array::new(alloc)?;
    let pushed = push_texts(alloc, &mut more);
    let joined = texts.try_extend_from_self(&more);
    drop(more);
    pushed?;
    joined?;
    if texts.len() > 6 {
        texts.truncate(6);
    }
    texts.reserve(10)?;
    texts.shrink_to_fit();
    Ok(texts.values().len())
}

#[test]
fn strings_are_joined_and_truncated(rt: HostRuntime) -> Result<(), Fail> {
    let mut texts = MutableUtf8Array::new(rt.alloc())?;
    let bytes = double_and_truncate(rt.alloc(), &mut texts);
    let text = shown(rt.alloc(), &texts);
    assert!(rt; bytes == Ok(4));
    assert!(rt; text?.as_str() == "a|null|é||a|null|");
    Ok(())
}

fn push_bytes(alloc: Global, bytes: &mut MutableBinaryArray<i64>) -> Result<(), Error> {
    bytes.try_push(Some(&[1, 2]))?;
    let items: Vec<Option<&[u8]>> = vec![in alloc; None, Some(b"xyz".as_slice())]?;
    bytes.try_extend(items)
}

fn ends_are(array: Result<BinaryArray<i64>, Error>, ends: &[i64]) -> bool {
    match array {
        Ok(array) => {
            let same = array.offsets().as_slice() == ends;
            drop(array);
            same
        }
        Err(_) => false,
    }
}

#[test]
fn bytes_are_frozen(rt: HostRuntime) {
    let mut bytes = MutableBinaryArray::new(rt.alloc()).expect(&rt, "memory");
    let pushed = push_bytes(rt.alloc(), &mut bytes);
    let array = bytes.freeze();
    let again = bytes.freeze();
    assert!(rt; pushed == Ok(()));
    assert!(rt; ends_are(array, &[0, 2, 2, 5]));
    assert!(rt; ends_are(again, &[0]));
}

// Holds where any one allocation fails: a rejected call adds no slot and no byte, and a freeze empties the
// builder.
#[test]
fn rejected_strings_change_nothing(rt: HostRuntime) {
    let Ok(mut texts) = MutableUtf8Array::<i32>::new(rt.alloc()) else {
        return;
    };
    let mut accepted = (0usize, 0usize);
    for turn in 0..12u32 {
        let item = if turn % 3 == 2 { None } else { Some("text") };
        match texts.try_push(item) {
            Ok(()) => {
                let more = if item.is_some() { 4 } else { 0 };
                accepted = (
                    accepted.0.saturating_add(1),
                    accepted.1.saturating_add(more),
                );
            }
            Err(error) => assert!(rt; error == Error::Memory(AllocError)),
        }
        assert!(rt; (texts.len(), texts.values().len()) == accepted);
    }
    if let Ok(items) = vec![in rt.alloc(); Some("a"), None, Some("b")] {
        if let Err(error) = texts.try_extend(items) {
            assert!(rt; error == Error::Memory(AllocError));
            assert!(rt; (texts.len(), texts.values().len()) == accepted);
        }
    }
    if let Ok(array) = texts.freeze() {}
    assert!(rt; (texts.len(), texts.values().len()) == (0, 0));
}
