//! Iterators over lists from both ends.
use crate::scan::parts::{list_array, numbers};
use crate::scan::walks::{expect_decoded, spell, walked};
use nest_array::ListArray;
use nest_memory::error::Error;
use nest_scan::{ListIter, ListValuesIter, Scan, ScanValues, TryElements};
use std::alloc::Global;

/// [1,2], [], [3], [4,5].
pub(crate) fn four_lists(alloc: Global, bits: Option<&[bool]>) -> Result<ListArray, Error> {
    let items = numbers(alloc, &[1, 2, 3, 4, 5]);
    list_array(alloc, items, &[0, 2, 2, 3, 5], bits)
}

/// A walk over the slots.
fn slots(alloc: Global, lists: &ListArray, turns: &str) -> Result<String, Error> {
    let slots: ListIter<'_, i32> = lists.iter(alloc);
    walked(alloc, slots, turns)
}

/// A walk over the lists, also under nulls.
fn values(alloc: Global, lists: &ListArray, turns: &str) -> Result<String, Error> {
    let values: ListValuesIter<'_, i32> = lists.values_iter(alloc);
    walked(alloc, values, turns)
}

/// Lists [1,2], [], [3], [4,5], front, back, back, front: [1,2], [4,5], [3], []; 3, 2, 1, 0 are left; then nothing from both
/// ends.
#[test]
fn values_from_both_ends(rt: HostRuntime) {
    let alloc = rt.alloc();
    let lists = four_lists(alloc, None).expect(&rt, "four lists");
    let wanted = "4 [1;2;] 3 [4;5;] 2 [3;] 1 [] 0 - - - ";
    expect_decoded(&rt, values(alloc, &lists, "#>#<#<#>#><>"), wanted);
}

/// Nulls among lists, pairs, maps, records and byte strings come as `None` by `iter`, and what is under them by `values_iter`.
#[test]
fn nulls_among_lists(rt: HostRuntime) {
    let alloc = rt.alloc();
    let bits = [true, false, false, true].as_slice();
    let lists = four_lists(alloc, Some(bits)).expect(&rt, "four lists");
    let wanted = "[4;5;] null [1;2;] 1 null - - ";
    expect_decoded(&rt, slots(alloc, &lists, "<<>#><>"), wanted);
    expect_decoded(&rt, values(alloc, &lists, ">>>"), "[1;2;] [] [3;] ");
}

/// The item of index i, decoded; an index that isn't there encodes nothing.
fn item(alloc: Global, lists: &ListArray, i: usize) -> Result<String, Error> {
    let indices = lists;
    let mut text = String::new(alloc);
    if i < indices.count() {
        spell(Some(indices.item(alloc, i)), &mut text)?;
    }
    Ok(text)
}

#[test]
fn the_item_of_a_index(rt: HostRuntime) {
    let alloc = rt.alloc();
    let lists = four_lists(alloc, None).expect(&rt, "four lists");
    expect_decoded(&rt, item(alloc, &lists, 3), "[4;5;] ");
    expect_decoded(&rt, item(alloc, &lists, 4), "");
}
