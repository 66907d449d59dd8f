//! Copies, shared arrays and new validities of each kind that nests, with memory: each results an equal array, where a body
//! that always wants memory would be proved too.
use crate::array::arrays::lists::by_large_offsets;
use crate::array::arrays::sizes::pairs;
use crate::array::arrays::structs::four;
use crate::array::arrays::{lists_of_lists, numbers, validity};
use crate::array::maps::two_maps;
use nest_array::any::clone;
use nest_array::{
    AnyArray, FixedSizeBinaryArray, FixedSizeListArray, LargeListArray, ListArray, NullArray,
    StructArray,
};
use nest_memory::datatypes::DataType;
use nest_memory::error::Error;
use std::alloc::Global;
use std::process::Abort;
use std::rc::Rc;

/// Whether a copy was made and is equal; it is dropped.
fn is_equal<A: PartialEq + Drop>(copy: Result<A, Error>, array: &A) -> bool {
    match copy {
        Ok(copy) => {
            let same = copy == *array;
            drop(copy);
            same
        }
        Err(_) => false,
    }
}

/// Clones, shared arrays and new validities are there where memory is.
#[test]
fn clones_are_equal(rt: HostRuntime) {
    let alloc = rt.alloc();
    let array = pairs(alloc).expect(&rt, "three pairs");
    assert!(rt; is_equal(array.clone(alloc), &array));
    let array = by_large_offsets(alloc).expect(&rt, "three lists");
    assert!(rt; is_equal(array.clone(alloc), &array));
    let array = lists_of_lists(alloc).expect(&rt, "three lists");
    assert!(rt; is_equal(array.clone(alloc), &array));
}

#[test]
fn clones_of_records_and_nulls_are_equal(rt: HostRuntime) {
    let alloc = rt.alloc();
    let array = four(alloc, &[1, 2, 3, 4]).expect(&rt, "four records");
    assert!(rt; is_equal(array.clone(alloc), &array));
    let any = array.boxed();
    assert!(rt; is_equal(any.clone(alloc), &any));
    let array = NullArray::new(DataType::Null, 3);
    assert!(rt; is_equal(array.clone(alloc), &array));
}

/// Whether a shared array was made, of so many slots; it is dropped.
fn is_shared(shared: Result<Rc<AnyArray>, Error>, n: usize) -> bool {
    match shared {
        Ok(shared) => {
            let same = shared.len() == n;
            drop(shared);
            same
        }
        Err(_) => false,
    }
}

#[test]
fn arrays_are_shared(rt: HostRuntime) {
    let alloc = rt.alloc();
    let array = pairs(alloc).expect(&rt, "three pairs");
    assert!(rt; is_shared(array.arced(alloc), 3));
    let array = by_large_offsets(alloc).expect(&rt, "three lists");
    assert!(rt; is_shared(array.arced(alloc), 3));
    let array = lists_of_lists(alloc).expect(&rt, "three lists");
    assert!(rt; is_shared(array.arced(alloc), 3));
    let array = four(alloc, &[1, 2, 3, 4]).expect(&rt, "four records");
    assert!(rt; is_shared(array.arced(alloc), 4));
    let array = NullArray::new(DataType::Null, 3);
    assert!(rt; is_shared(array.arced(alloc), 3));
    let array = FixedSizeBinaryArray::from_slice(alloc, [*b"ab"].as_slice()).expect(&rt, "a row");
    assert!(rt; is_shared(array.arced(alloc), 1));
    let array = two_maps(alloc).expect(&rt, "two maps");
    assert!(rt; is_shared(array.arced(alloc), 2));
}

/// The array and whether its new validity was taken.
fn kept<A>(changed: Result<A, (A, Error)>) -> (A, bool) {
    match changed {
        Ok(array) => (array, true),
        Err((array, _)) => (array, false),
    }
}

#[test]
fn lists_take_new_validities(rt: HostRuntime) {
    let alloc = rt.alloc();
    let bits = [true, false, false].as_slice();
    let mask = validity(alloc, Some(bits)).expect(&rt, "three bits");
    let array = lists_of_lists(alloc).expect(&rt, "three lists");
    let (array, taken): (ListArray, bool) = kept(array.with_validity(mask));
    assert!(rt; taken);
    assert!(rt; array.null_count() == 2);
    let mask = validity(alloc, Some(bits)).expect(&rt, "three bits");
    let array = by_large_offsets(alloc).expect(&rt, "three lists");
    let (array, taken): (LargeListArray, bool) = kept(array.with_validity(mask));
    assert!(rt; taken);
    assert!(rt; array.null_count() == 2);
}

#[test]
fn pairs_and_records_take_new_validities(rt: HostRuntime) {
    let alloc = rt.alloc();
    let bits = [true, false, false].as_slice();
    let mask = validity(alloc, Some(bits)).expect(&rt, "three bits");
    let array = pairs(alloc).expect(&rt, "three pairs");
    let (array, taken): (FixedSizeListArray, bool) = kept(array.with_validity(mask));
    assert!(rt; taken);
    assert!(rt; array.null_count() == 2);
    let array = four(alloc, &[1, 2, 3, 4]).expect(&rt, "four records");
    let (array, taken): (StructArray, bool) = kept(array.with_validity(None));
    assert!(rt; taken);
    assert!(rt; array.null_count() == 0);
}

#[test]
fn copies_by_the_free_call(rt: HostRuntime) {
    let array = numbers(rt.alloc(), &[1, 2]).expect(&rt, "two numbers");
    assert!(rt; is_equal(clone(rt.alloc(), &array), &array));
}

#[test]
fn natives_by_their_kind(rt: HostRuntime) {
    let array = numbers(rt.alloc(), &[1, 2]).expect(&rt, "two numbers");
    assert!(rt; array.as_primitive::<i32>().map(|numbers| numbers.len()) == Some(2));
    assert!(rt; array.as_primitive::<u32>().is_none());
    assert!(rt; array.as_primitive::<i64>().is_none());
}
