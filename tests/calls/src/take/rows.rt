//! Worked rows of each kind.
use crate::take::arrays::{
    Made, are_same, booleans, cut, filtered, keyed, lists, maps, mask, numbers, picks, records,
    sized, taken, texts,
};
use std::alloc::Global;

fn one_to_five(alloc: Global) -> Made {
    numbers(alloc, &[1, 2, 3, 4, 5], None)
}

// [1, 2], [], [3], [4, 5]
fn four_lists(alloc: Global) -> Made {
    lists(alloc, one_to_five(alloc), &[0, 2, 2, 3, 5], None)
}

// [[1, 2], [3, 4]], [[5, 6, 7], [], [8]], [[9, 10]]
fn lists_in_lists(alloc: Global) -> Made {
    let items = numbers(alloc, &[1, 2, 3, 4, 5, 6, 7, 8, 9, 10], None);
    let inner = lists(alloc, items, &[0, 2, 4, 7, 7, 8, 10], None);
    lists(alloc, inner, &[0, 2, 5, 6], None)
}

/// Four lists of numbers at the indices 3, 0, 0 and 1; where a mask with a null is true.
#[test]
fn lists_at_indices(rt: HostRuntime) {
    let alloc = rt.alloc();
    let found = taken(alloc, four_lists(alloc), &[3, 0, 0, 1]);
    let items = numbers(alloc, &[4, 5, 1, 2, 1, 2], None);
    let expected = lists(alloc, items, &[0, 2, 4, 6, 6], None);
    assert!(rt; are_same(found, expected));
}

#[test]
fn lists_by_a_mask(rt: HostRuntime) {
    let alloc = rt.alloc();
    let bits = mask(
        alloc,
        &[true, true, false, true],
        Some(&[true, false, true, true]),
    );
    let found = filtered(alloc, four_lists(alloc), bits);
    let items = numbers(alloc, &[1, 2, 4, 5], None);
    assert!(rt; are_same(found, lists(alloc, items, &[0, 2, 4], None)));
}

/// Lists of lists in falling order; a slice of them.
#[test]
fn lists_of_lists(rt: HostRuntime) {
    let alloc = rt.alloc();
    let found = taken(alloc, lists_in_lists(alloc), &[1, 0]);
    let items = numbers(alloc, &[5, 6, 7, 8, 1, 2, 3, 4], None);
    let inner = lists(alloc, items, &[0, 3, 3, 4, 6, 8], None);
    assert!(rt; are_same(found, lists(alloc, inner, &[0, 3, 5], None)));
}

#[test]
fn a_slice_of_lists_of_lists(rt: HostRuntime) {
    let alloc = rt.alloc();
    let found = taken(alloc, cut(lists_in_lists(alloc), 1, 2), &[1, 0, 1]);
    let items = numbers(alloc, &[9, 10, 5, 6, 7, 8, 9, 10], None);
    let inner = lists(alloc, items, &[0, 2, 5, 5, 6, 8], None);
    assert!(rt; are_same(found, lists(alloc, inner, &[0, 1, 4, 5], None)));
}

// {false, 42}, {false, 28}, null, {true, 31}
fn four_records(alloc: Global) -> Made {
    let first = booleans(alloc, &[false, false, true, true], None);
    let second = numbers(alloc, &[42, 28, 19, 31], None);
    records(alloc, first, second, Some(&[true, true, false, true]))
}

/// Records with a null row; a slice of values by keys; maps of pairs.
#[test]
fn null_records(rt: HostRuntime) {
    let alloc = rt.alloc();
    let found = taken(alloc, four_records(alloc), &[2, 0]);
    let first = booleans(alloc, &[false, false], None);
    let second = numbers(alloc, &[7, 42], None);
    let expected = records(alloc, first, second, Some(&[false, true]));
    assert!(rt; are_same(found, expected));
}

#[test]
fn values_by_keys(rt: HostRuntime) {
    let alloc = rt.alloc();
    let values = texts(alloc, &[Some("a"), Some("b")]);
    let array = cut(keyed(alloc, &[0, 1, 0], None, values), 1, 2);
    let found = taken(alloc, array, &[1, 1, 0]);
    let values = texts(alloc, &[Some("b"), Some("a")]);
    assert!(rt; are_same(found, keyed(alloc, &[1, 1, 0], None, values)));
}

#[test]
fn null_keys(rt: HostRuntime) {
    let alloc = rt.alloc();
    let values = texts(alloc, &[Some("x")]);
    let array = keyed(alloc, &[9, 9], Some(&[false, false]), values);
    let found = taken(alloc, array, &[1]);
    let values = texts(alloc, &[Some("x")]);
    assert!(rt; are_same(found, keyed(alloc, &[0], Some(&[false]), values)));
}

fn pairs(alloc: Global, first: &[Option<&str>], second: &[Option<&str>]) -> Made {
    records(alloc, texts(alloc, first), texts(alloc, second), None)
}

#[test]
fn maps_of_pairs(rt: HostRuntime) {
    let alloc = rt.alloc();
    let first = [Some("a"), Some("aa"), Some("aaa")];
    let entries = pairs(alloc, &first, &[Some("b"), Some("bb"), Some("bbb")]);
    let found = taken(alloc, maps(alloc, entries, &[0, 1, 2], None), &[1, 0]);
    let entries = pairs(alloc, &[Some("aa"), Some("a")], &[Some("bb"), Some("b")]);
    assert!(rt; are_same(found, maps(alloc, entries, &[0, 1, 2], None)));
}

fn letters(alloc: Global) -> Made {
    texts(alloc, &[Some("a"), Some("b"), Some("c"), Some("d")])
}

fn four_unions(alloc: Global) -> Made {
    let first = numbers(alloc, &[10, 11, 12, 13], None);
    picks(alloc, &[0, 1, 0, 1], None, first, letters(alloc))
}

/// A slice of a sparse union; a dense union; a dictionary whose keys are all null.
#[test]
fn sparse_unions(rt: HostRuntime) {
    let alloc = rt.alloc();
    let found = taken(alloc, cut(four_unions(alloc), 1, 2), &[1, 0]);
    let first = numbers(alloc, &[12, 0], None);
    let second = texts(alloc, &[None, Some("b")]);
    assert!(rt; are_same(found, picks(alloc, &[0, 1], None, first, second)));
}

#[test]
fn dense_picks(rt: HostRuntime) {
    let alloc = rt.alloc();
    let first = numbers(alloc, &[10, 11], None);
    let array = picks(
        alloc,
        &[0, 1, 1, 0],
        Some(&[1, 3, 0, 0]),
        first,
        letters(alloc),
    );
    let found = taken(alloc, cut(array, 1, 3), &[2, 0, 2, 1]);
    let first = numbers(alloc, &[10], None);
    let second = texts(alloc, &[Some("d"), Some("a")]);
    let expected = picks(alloc, &[0, 1, 0, 1], Some(&[0, 0, 0, 1]), first, second);
    assert!(rt; are_same(found, expected));
}

#[test]
fn pairs_of_numbers_under_nulls(rt: HostRuntime) {
    let alloc = rt.alloc();
    let items = numbers(alloc, &[1, 2, 3, 4, 5, 6], None);
    let array = cut(sized(alloc, items, 2, Some(&[true, false, true])), 1, 2);
    let found = taken(alloc, array, &[1, 0, 1]);
    let items = numbers(alloc, &[5, 6, 0, 0, 5, 6], None);
    let expected = sized(alloc, items, 2, Some(&[true, false, true]));
    assert!(rt; are_same(found, expected));
}
