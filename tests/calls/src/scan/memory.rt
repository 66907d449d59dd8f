//! The tests pass whichever allocation fails: the index whose item found none returns one `Err` and is passed, and all
//! other indices return their items.
use crate::scan::lists::four_lists;
use crate::scan::parts::list_array;
use crate::scan::records::four_records;
use nest_array::{AnyArray, ListArray};
use nest_memory::error::Error;
use nest_scan::{Scan, ScanValues};
use std::alloc::{AllocError, Global};
use std::process::Abort;

/// The result of a call, or `None` where an allocation failed; nothing else may be.
fn unless_without_memory<T>(rt: &impl Abort, outcome: Result<T, Error>) -> Option<T> {
    match outcome {
        Ok(value) => Some(value),
        Err(error) => {
            assert!(rt; error == Error::Memory(AllocError));
            None
        }
    }
}

/// Lists of two, no, one and one of the four lists.
fn lists_of_lists(alloc: Global) -> Result<ListArray, Error> {
    let items = four_lists(alloc, None).map(|lists| lists.boxed());
    list_array(alloc, items, &[0, 2, 2, 3, 4], None)
}

/// Expects so many lists, or `Memory`.
fn expect_lists(rt: &impl Abort, item: Option<Result<AnyArray, Error>>, n: usize) {
    assert!(rt; item.is_some());
    if let Some(item) = item {
        if let Some(array) = unless_without_memory(rt, item) {
            assert!(rt; array.len() == n);
            drop(array);
        }
    }
}

/// A index whose item finds no memory returns one `Err` and is passed, whichever request is rejected.
#[test]
fn a_list_without_memory_is_skipped(rt: HostRuntime) {
    let alloc = rt.alloc();
    let Some(lists) = unless_without_memory(&rt, lists_of_lists(alloc)) else {
        return;
    };
    let mut values = lists.values_iter(alloc);
    expect_lists(&rt, values.next(), 2);
    assert!(rt; values.len() == 3);
    expect_lists(&rt, values.next_back(), 1);
    assert!(rt; values.len() == 2);
    expect_lists(&rt, values.next_back(), 1);
    assert!(rt; values.len() == 1);
    expect_lists(&rt, values.next(), 0);
    assert!(rt; values.size_hint() == (0, Some(0)));
    assert!(rt; values.next().is_none());
}

/// Expects an item, or `Memory`.
fn expect_item<T: Drop>(rt: &impl Abort, item: Option<Result<T, Error>>) {
    assert!(rt; item.is_some());
    if let Some(item) = item {
        drop(unless_without_memory(rt, item));
    }
}

#[test]
fn a_record_without_memory_is_skipped(rt: HostRuntime) {
    let alloc = rt.alloc();
    let Some(records) = unless_without_memory(&rt, four_records(alloc, None)) else {
        return;
    };
    let mut slots = records.iter(alloc);
    for left in 0..4 {
        assert!(rt; slots.len() == 4 - left);
        expect_item(&rt, slots.next());
    }
    assert!(rt; slots.next().is_none());
}
