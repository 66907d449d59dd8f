//! Too many items, and memory that is rejected.
use crate::take::arrays::{
    Made, are_same, keyed, leaves_source, lists, nulls, numbers, records, refusal, sized, taken,
    texts,
};
use nest_memory::error::Error;
use std::alloc::Global;

fn longest_list(alloc: Global, bits: Option<&[bool]>) -> Made {
    lists(alloc, nulls(2147483647), &[0, 2147483647], bits)
}

/// Twice 2^31 - 1 nulls are more than an offset can name, under a null row they count none.
#[test]
fn more_items_than_an_offset_names(rt: HostRuntime) {
    let alloc = rt.alloc();
    let found = taken(alloc, longest_list(alloc, None), &[0, 0]);
    assert!(rt; refusal(found) == Some(Error::Overflow));
    let found = taken(alloc, longest_list(alloc, Some(&[false])), &[0, 0]);
    let expected = lists(alloc, nulls(0), &[0, 0, 0], Some(&[false, false]));
    assert!(rt; are_same(found, expected));
}

/// Fixed-size lists of nulls whose items are more than a length can be.
#[test]
fn more_items_than_a_length(rt: HostRuntime) {
    let alloc = rt.alloc();
    let found = taken(
        alloc,
        sized(alloc, nulls(usize::MAX), usize::MAX, None),
        &[0, 0],
    );
    assert!(rt; refusal(found) == Some(Error::Overflow));
}

fn lists_and_strings(alloc: Global) -> Made {
    let items = numbers(alloc, &[1, 2, 3], None);
    let first = lists(alloc, items, &[0, 1, 3], None);
    let values = texts(alloc, &[Some("a"), Some("b")]);
    records(alloc, first, keyed(alloc, &[1, 0], None, values), None)
}

// Passes whichever allocation fails.
#[test]
fn without_memory(rt: HostRuntime) {
    let alloc = rt.alloc();
    let array = lists_and_strings(alloc);
    let copy = lists_and_strings(alloc);
    assert!(rt; leaves_source(alloc, array, copy, &[0, 1]));
}
