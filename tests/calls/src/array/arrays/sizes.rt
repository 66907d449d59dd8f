//! Fixed-size lists, and arrays of nulls.
use super::{has_numbers, numbers, validity};
use nest_array::{AnyArray, Array, FixedSizeListArray, NullArray};
use nest_memory::datatypes::DataType;
use nest_memory::error::{ArgumentError, Error, SpecError};
use std::alloc::Global;

/// Lists of so many of the items.
fn fixed_lists(alloc: Global, items: AnyArray, size: usize) -> Result<FixedSizeListArray, Error> {
    let data_type = items.data_type().clone(alloc);
    let data_type = data_type.and_then(|items| FixedSizeListArray::default_datatype(
        alloc, items, size,
    ));
    match data_type {
        Ok(data_type) => FixedSizeListArray::try_new(alloc, data_type, items, None),
        Err(error) => {
            drop(items);
            Err(error)
        }
    }
}

/// The numbers from 1 to 6 in pairs.
pub(crate) fn pairs(alloc: Global) -> Result<FixedSizeListArray, Error> {
    let items = numbers(alloc, &[1, 2, 3, 4, 5, 6]);
    items.and_then(|items| fixed_lists(alloc, items, 2))
}

/// Pairs of 1 to 6 cut to the last two under a validity: null, [5,6]; under the null is [3,4].
#[test]
fn slice_pairs_under_a_validity(rt: HostRuntime) {
    let array = pairs(rt.alloc()).expect(&rt, "three pairs");
    assert!(rt; array.len() == 3);
    let mut cut = array.sliced(1, 2);
    let bits = validity(rt.alloc(), Some(&[false, true])).expect(&rt, "two bits");
    assert!(rt; cut.set_validity(bits) == Ok(()));
    assert!(rt; cut.len() == 2);
    assert!(rt; cut.is_null(0));
    assert!(rt; cut.is_valid(1));
    assert!(rt; has_numbers(cut.value(rt.alloc(), 1), &[5, 6]));
    assert!(rt; has_numbers(cut.value(rt.alloc(), 0), &[3, 4]));
}

/// The array, and why its new validity was rejected.
fn kept<A, B>(changed: Result<A, (A, B)>) -> (A, Option<B>) {
    match changed {
        Ok(array) => (array, None),
        Err((array, error)) => (array, Some(error)),
    }
}

/// The same under a validity that is too long: rejected, nothing changed, and the array handed back.
#[test]
fn long_validity_rejected(rt: HostRuntime) {
    let array = pairs(rt.alloc()).expect(&rt, "three pairs");
    assert!(rt; array.len() == 3);
    let cut = array.sliced(1, 2);
    let bits = [false, true, true].as_slice();
    let long = validity(rt.alloc(), Some(bits)).expect(&rt, "three bits");
    let (mut cut, refused) = kept(cut.with_validity(long));
    assert!(rt; refused == Some(Error::OutOfSpec(SpecError::ValidityLength)));
    let long = validity(rt.alloc(), Some(bits)).expect(&rt, "three bits");
    let refused = Err(Error::OutOfSpec(SpecError::ValidityLength));
    assert!(rt; cut.set_validity(long) == refused);
    assert!(rt; cut.len() == 2);
    assert!(rt; cut.null_count() == 0);
    assert!(rt; has_numbers(cut.value(rt.alloc(), 0), &[3, 4]));
}

/// Why lists of so many of six numbers are rejected.
fn refusal(alloc: Global, size: usize) -> Option<Error> {
    let items = numbers(alloc, &[1, 2, 3, 4, 5, 6]);
    items
        .and_then(|items| fixed_lists(alloc, items, size))
        .err()
}

#[test]
fn sizes_that_divide(rt: HostRuntime) {
    let spec = |failure| Some(Error::OutOfSpec(failure));
    assert!(rt; refusal(rt.alloc(), 0) == spec(SpecError::ZeroSize));
    assert!(rt; refusal(rt.alloc(), 4) == spec(SpecError::NotMultiple));
    assert!(rt; refusal(rt.alloc(), 6).is_none());
}

#[test]
fn nulls_take_no_validity(rt: HostRuntime) {
    let array = NullArray::new(DataType::Null, 3);
    assert!(rt; array.null_count() == 3);
    let refused = Some(Error::InvalidArgumentError(ArgumentError::NoValidity));
    let bits = validity(rt.alloc(), Some(&[true, true, true])).expect(&rt, "three bits");
    assert!(rt; array.with_validity(rt.alloc(), bits).err() == refused);
    assert!(rt; array.with_validity(rt.alloc(), None).err() == refused);
}
