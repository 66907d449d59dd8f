//! Slices of maps, and new validities.
use super::{entries, has_entry, maps_of, two_maps};
use crate::array::arrays::validity;
use nest_array::{Array, MapArray};
use nest_memory::error::{Error, SpecError};

#[test]
fn sliced_to_the_second_map(rt: HostRuntime) {
    let array = two_maps(rt.alloc()).expect(&rt, "two maps");
    assert!(rt; array.len() == 2);
    let cut = array.sliced(1, 1);
    assert!(rt; cut.len() == 1);
    assert!(rt; has_entry(cut.value(rt.alloc(), 0), "aa", "bb"));
}

#[test]
fn slice_of_a_slice(rt: HostRuntime) {
    let bits = [true, false, true, true].as_slice();
    let array = maps_of(
        rt.alloc(),
        entries(rt.alloc()),
        &[0, 0, 1, 2, 3],
        Some(bits),
    );
    let mut array = array.expect(&rt, "four maps");
    assert!(rt; array.len() == 4);
    array.slice(1, 3);
    assert!(rt; array.null_count() == 1);
    assert!(rt; array.len() == 3);
    array.slice(1, 2);
    assert!(rt; array.len() == 2);
    assert!(rt; array.null_count() == 0);
    assert!(rt; array.validity().is_some());
    assert!(rt; has_entry(array.value(rt.alloc(), 0), "aa", "bb"));
}

#[test]
fn null_over_one_record(rt: HostRuntime) {
    let bits = [true, false].as_slice();
    let array = maps_of(rt.alloc(), entries(rt.alloc()), &[0, 1, 2], Some(bits));
    let array = array.expect(&rt, "two maps");
    assert!(rt; array.len() == 2);
    assert!(rt; array.is_null(1));
    assert!(rt; array.is_valid(0));
    assert!(rt; array.null_count() == 1);
    assert!(rt; has_entry(array.value(rt.alloc(), 1), "aa", "bb"));
}

/// The array, and why its new validity was rejected.
fn kept<A, B>(changed: Result<A, (A, B)>) -> (A, Option<B>) {
    match changed {
        Ok(array) => (array, None),
        Err((array, error)) => (array, Some(error)),
    }
}

#[test]
fn new_validity_by_its_length(rt: HostRuntime) {
    let array = two_maps(rt.alloc()).expect(&rt, "two maps");
    let long = validity(rt.alloc(), Some(&[false, true, true])).expect(&rt, "three bits");
    let (mut array, refused): (MapArray, Option<Error>) = kept(array.with_validity(long));
    assert!(rt; refused == Some(Error::OutOfSpec(SpecError::ValidityLength)));
    let long = validity(rt.alloc(), Some(&[false, true, true])).expect(&rt, "three bits");
    let refused = Err(Error::OutOfSpec(SpecError::ValidityLength));
    assert!(rt; array.set_validity(long) == refused);
    assert!(rt; array.null_count() == 0);
    let bits = validity(rt.alloc(), Some(&[false, true])).expect(&rt, "two bits");
    assert!(rt; array.set_validity(bits) == Ok(()));
    assert!(rt; array.null_count() == 1);
    let (array, refused): (MapArray, Option<Error>) = kept(array.with_validity(None));
    assert!(rt; refused.is_none());
    assert!(rt; array.null_count() == 0);
}
