//! Which scalars are equal: those of one data type and one slot.
//!
//! Scalars are equal by data type and slot, whatever the offsets, and whatever is under a null.
use super::scalar_of;
use crate::array::arrays::lists::by_large_offsets;
use crate::array::arrays::structs::four;
use crate::array::arrays::{
    any_list, are_same, buffer, int32s, list_array, lists_of_lists, numbers,
};
use nest_array::{Array, ListArray, NullArray};
use nest_flat::primitive::PrimitiveArray;
use nest_memory::datatypes::DataType;
use nest_memory::error::Error;
use std::alloc::Global;

/// Whether slot i of an array and slot j of another one are equal scalars.
fn same<A: Array + Drop, B: Array + Drop>(
    alloc: Global,
    array: Result<A, Error>,
    i: usize,
    other: Result<B, Error>,
    j: usize,
) -> Result<bool, Error> {
    are_same(scalar_of(alloc, array, i), scalar_of(alloc, other, j))
}

/// Dates, pushed in the same numbers of 32 bits.
fn dates(alloc: Global, days: &[i32]) -> Result<PrimitiveArray<i32>, Error> {
    match buffer(alloc, days) {
        Ok(values) => PrimitiveArray::try_new(DataType::Date32, values, None),
        Err(error) => Err(error),
    }
}

#[test]
fn numbers_and_nulls(rt: HostRuntime) {
    let alloc = rt.alloc();
    let bits = Some([true, true, false].as_slice());
    let three = || int32s(alloc, &[1, 2, 1], bits);
    assert!(rt; same(alloc, three(), 0, numbers(alloc, &[1]), 0) == Ok(true));
    assert!(rt; same(alloc, three(), 0, three(), 1) == Ok(false));
    assert!(rt; same(alloc, three(), 0, three(), 2) == Ok(false));
    assert!(rt; same(alloc, three(), 2, three(), 2) == Ok(true));
}

#[test]
fn scalars_of_other_types_differ(rt: HostRuntime) {
    let alloc = rt.alloc();
    let array = numbers(alloc, &[1]);
    assert!(rt; same(alloc, array, 0, dates(alloc, &[1]), 0) == Ok(false));
    let bits = Some([false].as_slice());
    let nulls = NullArray::try_new(DataType::Null, 1);
    assert!(rt; same(alloc, int32s(alloc, &[1], bits), 0, nulls, 0) == Ok(false));
}

/// Lists of the items by these offsets.
fn lists(alloc: Global, items: &[i32], offsets: &[i32]) -> Result<ListArray, Error> {
    list_array(alloc, numbers(alloc, items), offsets, None)
}

#[test]
fn lists_by_other_offsets(rt: HostRuntime) {
    let alloc = rt.alloc();
    let array = || lists(alloc, &[1, 2, 3], &[0, 2, 3]);
    let shifted = || lists(alloc, &[9, 1, 2, 3], &[1, 3, 4]);
    assert!(rt; same(alloc, array(), 0, shifted(), 0) == Ok(true));
    assert!(rt; same(alloc, array(), 1, shifted(), 1) == Ok(true));
    assert!(rt; same(alloc, array(), 0, shifted(), 1) == Ok(false));
    let other = lists(alloc, &[1, 3], &[0, 2]);
    assert!(rt; same(alloc, array(), 0, other, 0) == Ok(false));
}

#[test]
fn empty_lists_of_other_items(rt: HostRuntime) {
    let alloc = rt.alloc();
    let empty = || lists(alloc, &[1], &[0, 0]);
    assert!(rt; same(alloc, empty(), 0, empty(), 0) == Ok(true));
    let of_lists = list_array(alloc, any_list(empty()), &[0, 0], None);
    assert!(rt; same(alloc, empty(), 0, of_lists, 0) == Ok(false));
    let large = by_large_offsets(alloc);
    assert!(rt; same(alloc, empty(), 0, large, 1) == Ok(false));
}

#[test]
fn lists_in_lists(rt: HostRuntime) {
    let alloc = rt.alloc();
    let array = lists_of_lists(alloc);
    assert!(rt; same(alloc, array, 1, lists_of_lists(alloc), 1) == Ok(true));
    let array = lists_of_lists(alloc);
    assert!(rt; same(alloc, array, 1, lists_of_lists(alloc), 2) == Ok(false));
}

#[test]
fn records_part_for_part(rt: HostRuntime) {
    let alloc = rt.alloc();
    let array = || four(alloc, &[42, 28, 19, 31]);
    assert!(rt; same(alloc, array(), 0, four(alloc, &[42, 1, 1, 1]), 0) == Ok(true));
    assert!(rt; same(alloc, array(), 0, array(), 1) == Ok(false));
    assert!(rt; same(alloc, array(), 2, four(alloc, &[42, 28, 77, 31]), 2) == Ok(true));
    assert!(rt; same(alloc, array(), 2, array(), 3) == Ok(false));
}
