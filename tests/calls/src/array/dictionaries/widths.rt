//! Keys of each width.
use super::{by_keys, expect_strings, keys, texts};
use nest_array::{AnyKeys, DictionaryKey};
use nest_memory::error::Error;
use std::alloc::Global;
use std::process::Abort;

/// b and a by these keys.
fn expect_pair(rt: &impl Abort, alloc: Global, keys: Result<AnyKeys, Error>) {
    let array = by_keys(alloc, keys, texts(alloc, &[Some("a"), Some("b")]));
    expect_strings(rt, alloc, array, " b a");
}

/// Keys of each width, the largest and negative ones.
#[test]
fn signed_keys_name_values(rt: HostRuntime) {
    let alloc = rt.alloc();
    expect_pair(
        &rt,
        alloc,
        keys(alloc, &[1i8, 0], None).map(|keys| i8::wrap(keys)),
    );
    expect_pair(
        &rt,
        alloc,
        keys(alloc, &[1i16, 0], None).map(|keys| i16::wrap(keys)),
    );
    expect_pair(
        &rt,
        alloc,
        keys(alloc, &[1i32, 0], None).map(|keys| i32::wrap(keys)),
    );
    expect_pair(
        &rt,
        alloc,
        keys(alloc, &[1i64, 0], None).map(|keys| i64::wrap(keys)),
    );
}

#[test]
fn unsigned_keys_name_values(rt: HostRuntime) {
    let alloc = rt.alloc();
    expect_pair(
        &rt,
        alloc,
        keys(alloc, &[1u8, 0], None).map(|keys| u8::wrap(keys)),
    );
    expect_pair(
        &rt,
        alloc,
        keys(alloc, &[1u16, 0], None).map(|keys| u16::wrap(keys)),
    );
    expect_pair(
        &rt,
        alloc,
        keys(alloc, &[1u32, 0], None).map(|keys| u32::wrap(keys)),
    );
    expect_pair(
        &rt,
        alloc,
        keys(alloc, &[1u64, 0], None).map(|keys| u64::wrap(keys)),
    );
}

/// The largest place that a key of this type names, and whether the next one has no key.
fn expect_largest<K: DictionaryKey>(rt: &impl Abort, largest: usize, signed: bool) {
    assert!(rt; K::always_fits_usize() == !signed);
    let index = K::from_index(largest).and_then(|key| key.to_index());
    assert!(rt; index == Some(largest));
    if largest < usize::MAX {
        assert!(rt; K::from_index(largest + 1).is_none());
    }
}

#[test]
fn the_largest_key_of_each_width(rt: HostRuntime) {
    expect_largest::<i8>(&rt, 127, true);
    expect_largest::<i16>(&rt, 32767, true);
    expect_largest::<i32>(&rt, 2147483647, true);
    expect_largest::<i64>(&rt, 9223372036854775807, true);
    expect_largest::<u8>(&rt, 255, false);
    expect_largest::<u16>(&rt, 65535, false);
    expect_largest::<u32>(&rt, 4294967295, false);
    expect_largest::<u64>(&rt, usize::MAX, false);
}

#[test]
fn negative_keys_name_nothing(rt: HostRuntime) {
    assert!(rt; (-1i8).to_index() == None);
    assert!(rt; (-1i16).to_index() == None);
    assert!(rt; (-1i32).to_index() == None);
    assert!(rt; (-1i64).to_index() == None);
    assert!(rt; 5i32.as_usize() == 5);
    assert!(rt; 5u64.as_usize() == 5);
}
