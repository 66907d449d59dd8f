//! Arrays of each kind at no index.
//!
//! No index of an array of each kind returns the empty array of its type.
use crate::take::arrays::{
    Made, accepts_nothing, booleans, bytes, keyed, lists, maps, nulls, numbers, picks, records,
    sized, sized_bytes, texts, wide_bytes, wide_lists, wide_strings,
};
use std::alloc::Global;

#[test]
fn of_arrays_without_a_child(rt: HostRuntime) {
    let alloc = rt.alloc();
    let bits: Option<&[bool]> = Some(&[true, false]);
    assert!(rt; accepts_nothing(alloc, nulls(2)));
    assert!(rt; accepts_nothing(alloc, booleans(alloc, &[true, false], bits)));
    assert!(rt; accepts_nothing(alloc, numbers(alloc, &[1, 2], bits)));
    assert!(rt; accepts_nothing(alloc, texts(alloc, &[Some("a"), None])));
    assert!(rt; accepts_nothing(alloc, wide_strings(alloc, &[Some("a"), None])));
    assert!(rt; accepts_nothing(alloc, bytes(alloc, &[Some(b"a"), None])));
    assert!(rt; accepts_nothing(alloc, wide_bytes(alloc, &[Some(b"a"), None])));
    assert!(rt; accepts_nothing(alloc, sized_bytes(alloc, 2, b"abcd", bits)));
}

fn items(alloc: Global) -> Made {
    numbers(alloc, &[1, 2, 3, 4], None)
}

fn pairs(alloc: Global) -> Made {
    records(alloc, items(alloc), items(alloc), None)
}

#[test]
fn of_arrays_of_lists(rt: HostRuntime) {
    let alloc = rt.alloc();
    let bits: Option<&[bool]> = Some(&[true, false]);
    assert!(rt; accepts_nothing(alloc, lists(alloc, items(alloc), &[0, 1, 4], bits)));
    assert!(rt; accepts_nothing(alloc, wide_lists(alloc, items(alloc), &[0, 1, 4], bits)));
    assert!(rt; accepts_nothing(alloc, sized(alloc, items(alloc), 2, bits)));
    assert!(rt; accepts_nothing(alloc, maps(alloc, pairs(alloc), &[0, 1, 4], bits)));
}

#[test]
fn of_arrays_of_records_unions_and_keys(rt: HostRuntime) {
    let alloc = rt.alloc();
    let bits: Option<&[bool]> = Some(&[true, false, true, true]);
    assert!(rt; accepts_nothing(alloc, records(alloc, items(alloc), items(alloc), bits)));
    let sparse = picks(alloc, &[0, 1, 1, 0], None, items(alloc), items(alloc));
    assert!(rt; accepts_nothing(alloc, sparse));
    let dense = picks(alloc, &[0, 1], Some(&[3, 2]), items(alloc), items(alloc));
    assert!(rt; accepts_nothing(alloc, dense));
    assert!(rt; accepts_nothing(alloc, keyed(alloc, &[3, 0, 0, 1], bits, items(alloc))));
}
