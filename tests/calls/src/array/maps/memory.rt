//! Each call of maps that takes memory: where it is there the result is the array, and where a request for it is rejected,
//! whichever, the error is returned and leaves the array.

use super::{has_entry, two_maps};
use crate::array::arrays::memory::unless_without_memory;
use nest_array::{Array, MapArray};
use nest_memory::bitmap::immutable::Bitmap;
use nest_memory::error::Error;
use std::alloc::Global;
use std::process::Abort;

/// Whether a call gave an array that is equal; it is dropped.
fn returns<A: PartialEq + Drop>(rt: &impl Abort, given: Result<A, Error>, array: &A) {
    if let Some(given) = unless_without_memory(rt, given) {
        assert!(rt; given == *array);
        drop(given);
    }
}

/// The array of the parts that an array shows.
fn of_its_parts(alloc: Global, array: &MapArray) -> Result<MapArray, Error> {
    let offsets = array.offsets().clone()?;
    let bits = bits_of(array)?;
    let data_type = array.data_type().clone(alloc)?;
    match array.field().clone(alloc) {
        Ok(field) => MapArray::new(alloc, data_type, offsets, field, bits),
        Err(error) => {
            drop(data_type);
            Err(error)
        }
    }
}

fn bits_of(array: &MapArray) -> Result<Option<Bitmap>, Error> {
    match array.validity() {
        Some(bits) => Ok(Some(bits.clone()?)),
        None => Ok(None),
    }
}

#[test]
fn copies_are_equal_or_fail(rt: HostRuntime) {
    let alloc = rt.alloc();
    let Some(array) = unless_without_memory(&rt, two_maps(alloc)) else {
        return;
    };
    returns(&rt, array.clone(alloc), &array);
    returns(&rt, of_its_parts(alloc, &array), &array);
    let any = array.boxed();
    returns(&rt, any.clone(alloc), &any);
    returns(&rt, any.to_boxed(alloc), &any);
}

#[test]
fn parts_are_pushed_or_rejected(rt: HostRuntime) {
    let alloc = rt.alloc();
    let Some(array) = unless_without_memory(&rt, two_maps(alloc)) else {
        return;
    };
    assert!(rt; array.len() == 2);
    if let Some(entries) = unless_without_memory(&rt, array.value(alloc, 1)) {
        assert!(rt; has_entry(Ok(entries), "aa", "bb"));
    }
    if let Some(cut) = unless_without_memory(&rt, Array::sliced(&array, alloc, 1, 1)) {
        assert!(rt; cut.len() == 1);
    }
    if let Some(no_validity) = unless_without_memory(
        &rt,
        Array::with_validity(&array, alloc, None),
    ) {
        assert!(rt; no_validity.null_count() == 0);
    }
    if let Some(shared) = unless_without_memory(&rt, array.arced(alloc)) {
        assert!(rt; shared.len() == 2);
    }
}
