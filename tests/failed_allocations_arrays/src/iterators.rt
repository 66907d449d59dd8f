//! Iterators: an item whose allocation fails is one `Err`, and the items after it are unchanged.

use failed_allocations::failures::{Failure, Failures, expect};
use nest_array::AnyArray;
use nest_memory::error::Error;
use nest_scan::{Scan, ScanValues};
use std::alloc::Global;

/// Runs two iterators over one array from both ends.
fn walk<T: PartialEq + Drop, I: ExactSizeIterator<Item = Result<T, Error>> + DoubleEndedIterator>(
    failures: &mut Failures,
    mut first: I,
    mut second: I,
) -> Result<(), Failure> {
    for i in 0..first.len() {
        let left = first.len();
        if i % 2 == 0 {
            meet(failures, first.next(), second.next())?;
        } else {
            meet(failures, first.next_back(), second.next_back())?;
        }
        expect(first.len() == left - 1, "what is left of an iterator")?;
    }
    end(first, second)
}

/// The same from the front alone.
fn walk_on<T: PartialEq + Drop, I: ExactSizeIterator<Item = Result<T, Error>>>(
    failures: &mut Failures,
    mut first: I,
    mut second: I,
) -> Result<(), Failure> {
    for _ in 0..first.len() {
        meet(failures, first.next(), second.next())?;
    }
    end(first, second)
}

/// The items of one index, which are the same where memory was there for both.
fn meet<T: PartialEq + Drop>(
    failures: &mut Failures,
    first: Option<Result<T, Error>>,
    second: Option<Result<T, Error>>,
) -> Result<(), Failure> {
    let (Some(first), Some(second)) = (first, second) else {
        return Err(Failure::Mismatch("an iterator that ends early"));
    };
    if failures.is_failure(&first)? || failures.is_failure(&second)? {
        return Ok(());
    }
    expect(first == second, "an item")
}

fn end<I: Iterator>(first: I, second: I) -> Result<(), Failure>
where
    I::Item: Drop,
{
    let mut first = first;
    let mut second = second;
    expect(
        first.next().is_none() && second.next().is_none(),
        "the end of an iterator",
    )
}

/// The slots and the values of an array, and of one below it, where their items take memory.
pub fn walk_all(failures: &mut Failures, alloc: Global, array: &AnyArray) -> Result<(), Failure> {
    match array {
        AnyArray::List(lists) => {
            walk(failures, lists.iter(alloc), lists.iter(alloc))?;
            walk(failures, lists.values_iter(alloc), lists.values_iter(alloc))
        }
        AnyArray::LargeList(lists) => {
            walk(failures, lists.iter(alloc), lists.iter(alloc))?;
            walk_all(failures, alloc, lists.values())
        }
        AnyArray::FixedSizeList(lists) => walk(failures, lists.iter(alloc), lists.iter(alloc)),
        AnyArray::Struct(records) => {
            walk(failures, records.iter(alloc), records.iter(alloc))?;
            match records.values() {
                [AnyArray::Dictionary(keyed), ..] => {
                    walk(failures, keyed.iter(alloc), keyed.iter(alloc))
                }
                _ => Ok(()),
            }
        }
        AnyArray::Map(maps) => walk(failures, maps.iter(alloc), maps.iter(alloc)),
        AnyArray::Union(picks) => walk_on(failures, picks.iter(alloc), picks.iter(alloc)),
        _ => Ok(()),
    }
}
