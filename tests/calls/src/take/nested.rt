//! Arrays of each kind two deep, cut, at rising, falling and repeated indices.
//!
//! Wide lists of strings, lists of pairs, fixed-size lists, records, maps, picks, dictionary-encoded values: cut and two deep,
//! at rising, falling and repeated indices.
use crate::take::arrays::{
    Made, are_same, booleans, bytes, cut, filtered, keyed, lists, maps, mask, nulls, numbers,
    picks, records, sized, sized_bytes, taken, texts, wide_bytes, wide_lists, wide_strings,
};
use std::alloc::Global;

// ["a"], ["b", null], [], ["c"] by wide offsets
fn wide_lists_of_strings(alloc: Global) -> Made {
    let items = wide_strings(alloc, &[Some("a"), Some("b"), None, Some("c")]);
    wide_lists(alloc, items, &[0, 1, 3, 3, 4], None)
}

#[test]
fn wide_lists_fall(rt: HostRuntime) {
    let alloc = rt.alloc();
    let found = taken(alloc, cut(wide_lists_of_strings(alloc), 1, 3), &[2, 1, 0]);
    let items = wide_strings(alloc, &[Some("c"), Some("b"), None]);
    assert!(rt; are_same(found, wide_lists(alloc, items, &[0, 1, 1, 3], None)));
}

// [0, 1], null, [4, 5] in a list of all three, then in one of none
fn lists_of_pairs(alloc: Global) -> Made {
    let items = numbers(alloc, &[0, 1, 2, 3, 4, 5], None);
    let pairs = sized(alloc, items, 2, Some(&[true, false, true]));
    lists(alloc, pairs, &[0, 3, 3], None)
}

#[test]
fn lists_of_pairs_repeat(rt: HostRuntime) {
    let alloc = rt.alloc();
    let found = taken(alloc, lists_of_pairs(alloc), &[0, 1, 0]);
    let items = numbers(alloc, &[0, 1, 9, 9, 4, 5, 0, 1, 9, 9, 4, 5], None);
    let bits = [true, false, true, true, false, true];
    let pairs = sized(alloc, items, 2, Some(&bits));
    assert!(rt; are_same(found, lists(alloc, pairs, &[0, 3, 3, 6], None)));
}

// {"ab", [1]}, null, {"ef", []}, {"gh", [3, 4]}
fn records_of_lists(alloc: Global) -> Made {
    let first = sized_bytes(alloc, 2, b"abcdefgh", None);
    let items = numbers(alloc, &[1, 2, 3, 4], None);
    let second = lists(alloc, items, &[0, 1, 2, 2, 4], None);
    records(alloc, first, second, Some(&[true, false, true, true]))
}

#[test]
fn slice_records_rise(rt: HostRuntime) {
    let alloc = rt.alloc();
    let found = taken(alloc, cut(records_of_lists(alloc), 1, 3), &[0, 2]);
    let first = sized_bytes(alloc, 2, b"xxgh", None);
    let second = lists(alloc, numbers(alloc, &[3, 4], None), &[0, 0, 2], None);
    let expected = records(alloc, first, second, Some(&[false, true]));
    assert!(rt; are_same(found, expected));
}

// {"k", [1]}; none; {"l", [2, 3]}, {"m", []}
fn maps_of_lists(alloc: Global) -> Made {
    let first = texts(alloc, &[Some("k"), Some("l"), Some("m")]);
    let items = numbers(alloc, &[1, 2, 3], None);
    let second = lists(alloc, items, &[0, 1, 3, 3], None);
    maps(
        alloc,
        records(alloc, first, second, None),
        &[0, 1, 1, 3],
        None,
    )
}

#[test]
fn slice_maps_repeat(rt: HostRuntime) {
    let alloc = rt.alloc();
    let found = taken(alloc, cut(maps_of_lists(alloc), 1, 2), &[1, 1, 0]);
    let first = texts(alloc, &[Some("l"), Some("m"), Some("l"), Some("m")]);
    let items = numbers(alloc, &[2, 3, 2, 3], None);
    let second = lists(alloc, items, &[0, 2, 2, 4, 4], None);
    let expected = maps(
        alloc,
        records(alloc, first, second, None),
        &[0, 2, 4, 4],
        None,
    );
    assert!(rt; are_same(found, expected));
}

// 1, "b" and "a", 2 in two lists
fn lists_of_dense_unions(alloc: Global) -> Made {
    let first = numbers(alloc, &[1, 2], None);
    let second = bytes(alloc, &[Some(b"a"), Some(b"b")]);
    let items = picks(alloc, &[0, 1, 1, 0], Some(&[0, 1, 0, 1]), first, second);
    lists(alloc, items, &[0, 2, 4], None)
}

#[test]
fn lists_of_dense_unions_fall(rt: HostRuntime) {
    let alloc = rt.alloc();
    let found = taken(alloc, lists_of_dense_unions(alloc), &[1, 0, 1]);
    let first = numbers(alloc, &[2, 1, 2], None);
    let second = bytes(alloc, &[Some(b"a"), Some(b"b"), Some(b"a")]);
    let types = [1, 0, 0, 1, 1, 0];
    let items = picks(alloc, &types, Some(&[0, 0, 1, 1, 2, 2]), first, second);
    assert!(rt; are_same(found, lists(alloc, items, &[0, 2, 4, 6], None)));
}

// [1], 7, [2, 3], 8
fn sparse_unions_of_lists(alloc: Global) -> Made {
    let items = numbers(alloc, &[1, 5, 2, 3, 6], None);
    let first = lists(alloc, items, &[0, 1, 2, 4, 5], None);
    let second = numbers(alloc, &[6, 7, 9, 8], None);
    picks(alloc, &[0, 1, 0, 1], None, first, second)
}

#[test]
fn slice_sparse_unions_fall(rt: HostRuntime) {
    let alloc = rt.alloc();
    let found = taken(alloc, cut(sparse_unions_of_lists(alloc), 1, 3), &[2, 1, 0]);
    let items = numbers(alloc, &[2, 3], None);
    let first = lists(alloc, items, &[0, 0, 2, 2], None);
    let second = numbers(alloc, &[8, 0, 7], None);
    assert!(rt; are_same(found, picks(alloc, &[1, 0, 1], None, first, second)));
}

// "x", null, "y" by keys, in records with wide bytes
fn records_of_dictionary(alloc: Global) -> Made {
    let values = texts(alloc, &[Some("x"), Some("y")]);
    let first = keyed(alloc, &[0, 0, 1], Some(&[true, false, true]), values);
    let second = wide_bytes(alloc, &[Some(b"1"), None, Some(b"333")]);
    records(alloc, first, second, None)
}

#[test]
fn slice_records_of_dictionary_fall(rt: HostRuntime) {
    let alloc = rt.alloc();
    let found = taken(alloc, cut(records_of_dictionary(alloc), 1, 2), &[1, 0, 1]);
    let values = texts(alloc, &[Some("x"), Some("y")]);
    let first = keyed(alloc, &[1, 0, 1], Some(&[true, false, true]), values);
    let second = wide_bytes(alloc, &[Some(b"333"), None, Some(b"333")]);
    assert!(rt; are_same(found, records(alloc, first, second, None)));
}

// [[null], []], null, [[null, null], []]
fn sized_lists_of_nulls(alloc: Global) -> Made {
    let items = lists(alloc, nulls(4), &[0, 1, 1, 1, 2, 4, 4], None);
    sized(alloc, items, 2, Some(&[true, false, true]))
}

#[test]
fn slice_sized_lists_repeat(rt: HostRuntime) {
    let alloc = rt.alloc();
    let found = taken(alloc, cut(sized_lists_of_nulls(alloc), 1, 2), &[1, 0, 1]);
    let items = lists(alloc, nulls(4), &[0, 2, 2, 2, 2, 4, 4], None);
    let expected = sized(alloc, items, 2, Some(&[true, false, true]));
    assert!(rt; are_same(found, expected));
}

// [true], {"b", 2}, {"a", 1}, [false, true]
fn dense_unions_of_lists(alloc: Global) -> Made {
    let items = booleans(alloc, &[true, false, true], None);
    let first = lists(alloc, items, &[0, 1, 3], None);
    let left = texts(alloc, &[Some("a"), Some("b")]);
    let second = records(alloc, left, numbers(alloc, &[1, 2], None), None);
    picks(alloc, &[0, 1, 1, 0], Some(&[0, 1, 0, 1]), first, second)
}

#[test]
fn slice_dense_unions_repeat(rt: HostRuntime) {
    let alloc = rt.alloc();
    let found = taken(alloc, cut(dense_unions_of_lists(alloc), 1, 3), &[2, 0, 2]);
    let items = booleans(alloc, &[false, true, false, true], None);
    let first = lists(alloc, items, &[0, 2, 4], None);
    let left = texts(alloc, &[Some("b")]);
    let second = records(alloc, left, numbers(alloc, &[2], None), None);
    let expected = picks(alloc, &[0, 1, 0], Some(&[0, 0, 1]), first, second);
    assert!(rt; are_same(found, expected));
}

#[test]
fn slice_dictionary_lists_fall(rt: HostRuntime) {
    let alloc = rt.alloc();
    let items = bytes(alloc, &[Some(b"a"), None, Some(b"b")]);
    let values = lists(alloc, items, &[0, 2, 3], None);
    let bits: Option<&[bool]> = Some(&[true, true, false, true]);
    let array = keyed(alloc, &[1, 0, 0, 1], bits, values);
    let found = taken(alloc, cut(array, 1, 3), &[2, 1, 0]);
    let items = bytes(alloc, &[Some(b"b"), Some(b"a"), None]);
    let values = lists(alloc, items, &[0, 1, 3], None);
    let expected = keyed(alloc, &[0, 0, 1], Some(&[true, false, true]), values);
    assert!(rt; are_same(found, expected));
}

/// A null row of lists takes no item; a mask of nulls chooses nothing; a slice is filtered.
#[test]
fn null_lists_take_no_item(rt: HostRuntime) {
    let alloc = rt.alloc();
    let items = numbers(alloc, &[1, 2, 3], None);
    let array = lists(alloc, items, &[0, 2, 3], Some(&[false, false]));
    let found = taken(alloc, array, &[1, 0, 0]);
    let items = numbers(alloc, &[], None);
    let expected = lists(alloc, items, &[0, 0, 0, 0], Some(&[false, false, false]));
    assert!(rt; are_same(found, expected));
}

#[test]
fn a_mask_of_nulls_chooses_nothing(rt: HostRuntime) {
    let alloc = rt.alloc();
    let bits = mask(
        alloc,
        &[true, true, true, true],
        Some(&[false, false, false, false]),
    );
    let found = filtered(alloc, records_of_lists(alloc), bits);
    assert!(rt; are_same(found, taken(alloc, records_of_lists(alloc), &[])));
}

#[test]
fn a_slice_is_filtered(rt: HostRuntime) {
    let alloc = rt.alloc();
    let bits = mask(alloc, &[true, false, true], Some(&[true, true, true]));
    let found = filtered(alloc, cut(wide_lists_of_strings(alloc), 1, 3), bits);
    let items = wide_strings(alloc, &[Some("b"), None, Some("c")]);
    assert!(rt; are_same(found, wide_lists(alloc, items, &[0, 2, 3], None)));
}
