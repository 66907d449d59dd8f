//! Slices, and new validities.
use super::{binaries, booleans, numbers, texts, validity};
use nest_flat::primitive::PrimitiveArray;
use nest_memory::datatypes::DataType;
use nest_memory::error::{Error, SpecError};
use std::alloc::Global;

/// The slots 1, null and 3.
fn three(alloc: Global) -> Result<PrimitiveArray<i32>, Error> {
    let bits = Some([true, false, true].as_slice());
    numbers(alloc, DataType::Int32, &[1, 2, 3], bits)
}

#[test]
fn slices_of_numbers(rt: HostRuntime) {
    let array = three(rt.alloc()).expect(&rt, "three slots");
    assert!(rt; array.len() == 3);
    let mut cut = array.sliced(1, 2);
    assert!(rt; cut.null_count() == 1);
    assert!(rt; cut.len() == 2);
    assert!(rt; cut.get(0).is_none());
    cut.slice(1, 1);
    assert!(rt; cut.len() == 1);
    assert!(rt; cut.get(0) == Some(3));
    assert!(rt; cut.null_count() == 0);
}

#[test]
fn parts_of_numbers(rt: HostRuntime) {
    let array = three(rt.alloc()).expect(&rt, "three slots");
    for (o, n) in [(0, 3), (1, 2), (2, 1), (3, 0)] {
        let part = array.part(rt.alloc(), o, n).expect(&rt, "a part");
        assert!(rt; part == three(rt.alloc()).expect(&rt, "three slots").sliced(o, n));
    }
    assert!(rt; array.len() == 3 && array.null_count() == 1);
}

#[test]
fn slices_of_booleans(rt: HostRuntime) {
    let bits = Some([true, false, true].as_slice());
    let array = booleans(rt.alloc(), &[false, false, true], bits).expect(&rt, "three slots");
    assert!(rt; array.len() == 3);
    let mut cut = array.sliced(1, 2);
    assert!(rt; cut.len() == 2);
    cut.slice(1, 1);
    assert!(rt; cut.len() == 1);
    assert!(rt; cut.get(0) == Some(true));
}

#[test]
fn slices_of_bytes(rt: HostRuntime) {
    let offsets = [0, 1, 1, 3].as_slice();
    let array = binaries(rt.alloc(), &[4, 5, 6], offsets, None).expect(&rt, "three slots");
    assert!(rt; array.len() == 3);
    let mut cut = array.sliced(1, 2);
    assert!(rt; cut.len() == 2);
    cut.slice(1, 1);
    assert!(rt; cut.len() == 1);
    assert!(rt; cut.value(0) == [5, 6].as_slice());
    assert!(rt; cut.offsets().as_slice() == [1, 3].as_slice());
}

#[test]
fn slices_of_strings(rt: HostRuntime) {
    let array = texts(rt.alloc(), b"onetwo", &[0, 3, 6], None).expect(&rt, "two slots");
    assert!(rt; array.len() == 2);
    let mut cut = array.sliced(1, 1);
    assert!(rt; cut.len() == 1);
    assert!(rt; cut.value(0) == "two");
    cut.slice(0, 0);
    assert!(rt; cut.is_empty());
}

#[test]
fn new_validity_moved(rt: HostRuntime) {
    let mut array = three(rt.alloc()).expect(&rt, "three slots");
    let first = validity(rt.alloc(), Some(&[false, true, true])).expect(&rt, "three bits");
    assert!(rt; array.set_validity(first) == Ok(()));
    assert!(rt; array.len() == 3);
    assert!(rt; array.get(0).is_none());
    assert!(rt; array.get(1) == Some(2));
    assert!(rt; array.set_validity(None) == Ok(()));
    assert!(rt; array.null_count() == 0);
}

#[test]
fn short_validity_rejected(rt: HostRuntime) {
    let mut array = three(rt.alloc()).expect(&rt, "three slots");
    let refused = Err(Error::OutOfSpec(SpecError::ValidityLength));
    let short = validity(rt.alloc(), Some(&[false, false])).expect(&rt, "two bits");
    assert!(rt; array.set_validity(short) == refused);
    assert!(rt; array.len() == 3);
    assert!(rt; array.get(0) == Some(1));
    assert!(rt; array.null_count() == 1);
}

/// The array, and whether its new validity was taken.
fn kept<A, B>(changed: Result<A, (A, B)>) -> (A, Option<B>) {
    match changed {
        Ok(array) => (array, None),
        Err((array, error)) => (array, Some(error)),
    }
}

#[test]
fn validity_by_value(rt: HostRuntime) {
    let array = three(rt.alloc()).expect(&rt, "three slots");
    let short = validity(rt.alloc(), Some(&[false])).expect(&rt, "one bit");
    let (array, refused) = kept(array.with_validity(short));
    assert!(rt; refused == Some(Error::OutOfSpec(SpecError::ValidityLength)));
    assert!(rt; array.null_count() == 1);
    let (array, refused) = kept(array.with_validity(None));
    assert!(rt; refused.is_none());
    assert!(rt; array.null_count() == 0);
}
