//! What lists lend, what is under a null, and the properties of types and offsets.
use super::lists::by_large_offsets;
use super::sizes::pairs;
use super::structs::four;
use super::{has_numbers, list_type, lists_of_lists, numbers, offsets_of, validity};
use nest_array::{AnyArray, ListArray, ListOffset, StructArray};
use nest_memory::datatypes::DataType;
use nest_memory::error::Error;
use std::alloc::Global;

#[test]
fn lists_borrow_their_items(rt: HostRuntime) {
    let array = lists_of_lists(rt.alloc()).expect(&rt, "three lists");
    assert!(rt; array.len() == 3);
    assert!(rt; array.window(1).offset() == 2);
    assert!(rt; array.window(1).len() == 3);
}

#[test]
fn lists_of_other_kinds_borrow_their_items(rt: HostRuntime) {
    let array = by_large_offsets(rt.alloc()).expect(&rt, "three lists");
    assert!(rt; array.len() == 3);
    assert!(rt; array.window(2).len() == 2);
    let array = pairs(rt.alloc()).expect(&rt, "three pairs");
    assert!(rt; array.len() == 3);
    assert!(rt; array.window(2).offset() == 4);
}

/// Whether there are no items, for a null.
fn are_none(items: Result<Option<AnyArray>, Error>) -> bool {
    match items {
        Ok(Some(items)) => {
            drop(items);
            false
        }
        Ok(None) => true,
        Err(_) => false,
    }
}

/// Whether there are items, which are these numbers.
fn are_numbers(items: Result<Option<AnyArray>, Error>, numbers: &[i32]) -> bool {
    match items {
        Ok(Some(items)) => has_numbers(Ok(items), numbers),
        _ => false,
    }
}

#[test]
fn pairs_under_a_null(rt: HostRuntime) {
    let mut array = pairs(rt.alloc()).expect(&rt, "three pairs");
    let bits = [true, false, true].as_slice();
    let bits = validity(rt.alloc(), Some(bits)).expect(&rt, "three bits");
    assert!(rt; array.len() == 3);
    assert!(rt; array.set_validity(bits) == Ok(()));
    assert!(rt; array.len() == 3);
    assert!(rt; are_none(array.get(rt.alloc(), 1)));
    assert!(rt; are_numbers(array.get(rt.alloc(), 2), &[5, 6]));
}

#[test]
fn fields_of_types(rt: HostRuntime) {
    let array = four(rt.alloc(), &[42, 28, 19, 31]).expect(&rt, "four records");
    assert!(rt; StructArray::get_fields(array.data_type()).len() == 2);
}

#[test]
fn items_of_types(rt: HostRuntime) {
    let data_type = list_type(rt.alloc(), Ok(DataType::Int32)).expect(&rt, "a type");
    let nullable = match ListArray::try_get_child(&data_type) {
        Ok(field) => field.is_nullable,
        Err(_) => false,
    };
    assert!(rt; nullable);
}

/// The lists 1, and 2 and 3, by the trait of their offsets.
fn by_offsets(alloc: Global) -> Result<AnyArray, Error> {
    let data_type = list_type(alloc, Ok(DataType::Int32));
    let parts = super::both(data_type, numbers(alloc, &[1, 2, 3]));
    match super::both(parts, offsets_of(alloc, &[0, 1, 3])) {
        Ok(((data_type, items), offsets)) => {
            i32::list(alloc, data_type, offsets, items, None).map(|list| i32::any(list))
        }
        Err(error) => Err(error),
    }
}

#[test]
fn lists_by_the_trait_of_offsets(rt: HostRuntime) {
    let array = by_offsets(rt.alloc()).expect(&rt, "two lists");
    assert!(rt; array.len() == 2);
}
