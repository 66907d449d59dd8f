//! Equality of maps, whatever is under a null or before the first offset.
use super::{entries, maps_of, pairs, texts, two_maps};
use crate::array::arrays::are_same;
use nest_array::{AnyArray, MapArray};
use nest_memory::error::Error;
use std::alloc::Global;

/// The two maps over other parts: a record is before their entries, and none after.
fn rebuilt(alloc: Global) -> Result<MapArray, Error> {
    let first = texts(alloc, &[0, 1, 2, 4], b"xaaa");
    let field = pairs(alloc, first, texts(alloc, &[0, 1, 2, 4], b"ybbb"));
    maps_of(alloc, field, &[1, 2, 3], Some(&[true, true]))
}

#[test]
fn rebuilt_maps_are_equal(rt: HostRuntime) {
    let alloc = rt.alloc();
    assert!(rt; are_same(two_maps(alloc), rebuilt(alloc)) == Ok(true));
    assert!(rt; are_same(any(two_maps(alloc)), any(rebuilt(alloc))) == Ok(true));
}

/// Maps as an array of any kind.
fn any(array: Result<MapArray, Error>) -> Result<AnyArray, Error> {
    array.map(|array| array.boxed())
}

/// One map over the first record, and a null over so many after it.
fn null_over(alloc: Global, end: i32) -> Result<MapArray, Error> {
    maps_of(alloc, entries(alloc), &[0, 1, end], Some(&[true, false]))
}

/// Maps are the same whatever is under a null or before their first entry; each of their calls with memory, and with any one
/// request rejected.
#[test]
fn entries_under_a_null(rt: HostRuntime) {
    let alloc = rt.alloc();
    assert!(rt; are_same(null_over(alloc, 2), null_over(alloc, 3)) == Ok(true));
    assert!(rt; are_same(null_over(alloc, 2), two_maps(alloc)) == Ok(false));
}

#[test]
fn other_entries_differ(rt: HostRuntime) {
    let alloc = rt.alloc();
    let others = maps_of(alloc, entries(alloc), &[1, 2, 3], None);
    assert!(rt; are_same(two_maps(alloc), others) == Ok(false));
    let longer = maps_of(alloc, entries(alloc), &[0, 1, 3], None);
    assert!(rt; are_same(any(two_maps(alloc)), any(longer)) == Ok(false));
}
