//! Slots and raw values from both ends, and how many are left.
use super::{binaries, booleans, numbers, texts};
use nest_flat::utf8::Utf8Array;
use nest_flat::utf8::mutable::MutableUtf8Array;
use nest_memory::datatypes::DataType;
use nest_memory::error::Error;
use std::alloc::Global;

#[test]
fn numbers_from_both_ends(rt: HostRuntime) {
    let bits = Some([true, false, true].as_slice());
    let array = numbers(rt.alloc(), DataType::Int32, &[1, 2, 3], bits).expect(&rt, "three slots");
    let mut slots = array.iter();
    assert!(rt; slots.len() == 3);
    assert!(rt; slots.next_back() == Some(Some(3)));
    assert!(rt; slots.next() == Some(Some(1)));
    assert!(rt; slots.len() == 1);
    assert!(rt; slots.next_back() == Some(None));
    assert!(rt; slots.next().is_none());
    assert!(rt; slots.next_back().is_none());
    let mut values = array.values_iter();
    assert!(rt; values.next_back() == Some(3));
    assert!(rt; values.next_back() == Some(2));
    assert!(rt; values.len() == 1);
}

#[test]
fn booleans_from_both_ends(rt: HostRuntime) {
    let bits = Some([false, true].as_slice());
    let array = booleans(rt.alloc(), &[true, false], bits).expect(&rt, "two slots");
    let mut slots = array.iter();
    assert!(rt; slots.next_back() == Some(Some(false)));
    assert!(rt; slots.len() == 1);
    assert!(rt; slots.next() == Some(None));
    assert!(rt; slots.next().is_none());
    assert!(rt; array.values_iter().next() == Some(true));
}

/// Whether the item is a slot of these bytes.
fn holds(item: Option<Option<&[u8]>>, bytes: &[u8]) -> bool {
    match item {
        Some(Some(item)) => item == bytes,
        _ => false,
    }
}

fn is_null(item: Option<Option<&[u8]>>) -> bool {
    matches!(item, Some(None))
}

#[test]
fn bytes_from_both_ends(rt: HostRuntime) {
    let bits = Some([false, true].as_slice());
    let array = binaries(rt.alloc(), b"def", &[0, 1, 3], bits).expect(&rt, "two slots");
    let mut slots = array.iter();
    assert!(rt; slots.len() == 2);
    assert!(rt; holds(slots.next_back(), b"ef"));
    assert!(rt; is_null(slots.next()));
    assert!(rt; slots.len() == 0);
    assert!(rt; slots.next().is_none());
    let first = array.values_iter().next();
    assert!(rt; holds(Some(first), b"d"));
}

#[test]
fn strings_from_both_ends(rt: HostRuntime) {
    let bits = Some([false, true].as_slice());
    let array = texts(rt.alloc(), b"onetwo", &[0, 3, 6], bits).expect(&rt, "two slots");
    let mut slots = array.iter();
    assert!(rt; slots.len() == 2);
    assert!(rt; slots.next_back() == Some(Some("two")));
    assert!(rt; slots.next() == Some(None));
    assert!(rt; slots.len() == 0);
    assert!(rt; slots.next_back().is_none());
    assert!(rt; array.values_iter().next() == Some("one"));
}

const WORDS: [&str; 4] = ["", "é", "日本", "text"];

/// The slot i of many.
fn word(i: usize) -> Option<&'static str> {
    if i % 10 == 9 {
        None
    } else {
        Some(WORDS[i % 4])
    }
}

fn many_strings(alloc: Global, n: usize) -> Result<Utf8Array<i32>, Error> {
    let mut builder = MutableUtf8Array::new(alloc)?;
    for i in 0..n {
        builder.try_push(word(i))?;
    }
    builder.freeze()
}

/// Strings of many slots, of one to three bytes a character, from both ends and of slices.
#[test]
fn many_strings_from_both_ends(rt: HostRuntime) {
    let array = many_strings(rt.alloc(), 200).expect(&rt, "200 slots");
    let mut slots = array.iter();
    for i in 0..100 {
        assert!(rt; slots.next() == Some(word(i)));
        assert!(rt; slots.next_back() == Some(word(199 - i)));
    }
    assert!(rt; slots.next().is_none());
    assert!(rt; slots.next_back().is_none());
}

#[test]
fn many_strings_of_slices(rt: HostRuntime) {
    for (o, n) in [(0, 64), (1, 64), (63, 2), (37, 130), (199, 1), (200, 0)] {
        let array = many_strings(rt.alloc(), 200).expect(&rt, "200 slots");
        let cut = array.sliced(o, n);
        let mut count = 0;
        for item in cut.iter() {
            assert!(rt; item == word(o + count));
            count += 1;
        }
        assert!(rt; count == n);
        let mut values = cut.values_iter();
        for k in 0..n {
            assert!(rt; values.next_back() == Some(word(o + n - 1 - k).unwrap_or("")));
        }
        assert!(rt; values.next_back().is_none());
    }
}
