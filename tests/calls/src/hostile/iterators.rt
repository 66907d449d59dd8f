//! Lists of lists of the numbers from 1 to 10: their items where one finds no memory, and calls that ask for none.
use crate::hostile::arrays::{both, has_int32s, int32s, list_array, validity};
use crate::hostile::runs::{MEMORY, push_rejected};
use nest_array::equal::equal;
use nest_array::{AnyArray, ListArray};
use nest_memory::bitmap::immutable::Bitmap;
use nest_memory::error::Error;
use nest_scan::ScanValues;
use std::alloc::Global;
use std::process::Abort;
use std::test::Fail;

/// [[1,2],[3,4]], [[5,6,7],[],[8]] and [[9,10]].
fn lists_of_lists(alloc: Global) -> Result<ListArray, Error> {
    let items = int32s(alloc, &[1, 2, 3, 4, 5, 6, 7, 8, 9, 10]);
    let inner = list_array(alloc, items, &[0, 2, 4, 7, 7, 8, 10]);
    list_array(alloc, inner.map(|lists| lists.boxed()), &[0, 2, 5, 6])
}

/// Whether an array has lists by these offsets over the numbers from 1 to 10.
fn are_lists(array: &AnyArray, offsets: &[i32]) -> bool {
    let AnyArray::List(lists) = array else {
        return false;
    };
    let all = [1, 2, 3, 4, 5, 6, 7, 8, 9, 10];
    lists.offsets().as_slice() == offsets && has_int32s(lists.values(), &all)
}

/// Expects these lists, or `Memory`: then returns 1.
fn expect_lists(rt: &impl Abort, item: Option<Result<AnyArray, Error>>, offsets: &[i32]) -> usize {
    match item {
        Some(Ok(array)) => {
            let same = are_lists(&array, offsets);
            drop(array);
            assert!(rt; same);
            0
        }
        Some(Err(error)) => {
            assert!(rt; error == MEMORY);
            1
        }
        None => {
            assert!(rt; false);
            0
        }
    }
}

/// Each item in turn, and how many are left; how many found no memory.
fn expect_each(rt: &impl Abort, alloc: Global, lists: &ListArray) -> usize {
    let mut values = lists.values_iter(alloc);
    let first = expect_lists(rt, values.next(), &[0, 2, 4]);
    assert!(rt; values.len() == 2);
    let second = expect_lists(rt, values.next(), &[4, 7, 7, 8]);
    assert!(rt; values.len() == 1);
    let third = expect_lists(rt, values.next(), &[8, 10]);
    assert!(rt; values.len() == 0);
    drop(values);
    assert!(rt; first <= 1 && second <= 1 && third <= 1);
    first.max(second).max(third)
}

/// An item for which an iterator over lists finds no memory is one `Err`, and is passed.
#[test]
fn an_item_without_memory_is_skipped(rt: HostRuntime) -> Result<(), Fail> {
    let alloc = rt.alloc();
    let refused = match lists_of_lists(alloc) {
        Ok(lists) => {
            let refused = expect_each(&rt, alloc, &lists);
            refused
        }
        Err(error) => {
            assert!(rt; error == MEMORY);
            1
        }
    };
    push_rejected(&rt, refused > 0)
}

/// The array and whether its new validity was taken.
fn kept(changed: Result<ListArray, (ListArray, Error)>) -> (ListArray, bool) {
    match changed {
        Ok(array) => (array, true),
        Err((array, _)) => (array, false),
    }
}

/// Whether two arrays are equal, and again once one took a validity in index and the other by value.
fn no_allocation(
    first: ListArray,
    second: ListArray,
    bits: Option<Bitmap>,
    more: Option<Bitmap>,
) -> bool {
    let mut first = first;
    let same = first == second;
    let taken = first.set_validity(bits) == Ok(());
    let other = first != second;
    let (second, more_taken) = kept(second.with_validity(more));
    let first = first.boxed();
    let second = second.boxed();
    let same_again = equal(&first, &second);
    drop(first);
    drop(second);
    same && taken && other && more_taken && same_again
}

/// Equality and new validities allocates nothing.
#[test]
fn calls_that_allocate_nothing(rt: HostRuntime) -> Result<(), Fail> {
    let alloc = rt.alloc();
    let bits = [true, false, true];
    let arrays = both(lists_of_lists(alloc), lists_of_lists(alloc));
    let validities = both(validity(alloc, &bits), validity(alloc, &bits));
    let refused = match both(arrays, validities) {
        Ok(((first, second), (bits, more))) => {
            assert!(rt; no_allocation(first, second, bits, more));
            false
        }
        Err(error) => {
            assert!(rt; error == MEMORY);
            true
        }
    };
    push_rejected(&rt, refused)
}
