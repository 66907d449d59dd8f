//! Lists of numbers and lists of lists, by offsets of both widths.
use super::{
    any_list, are_same, has_numbers, list_array, list_type, lists_of_lists, lists_under, numbers,
    offsets_of,
};
use nest_array::{AnyArray, LargeListArray, ListArray};
use nest_memory::datatypes::DataType;
use nest_memory::datatypes::physical_type::PhysicalType;
use nest_memory::error::{Error, SpecError};
use std::alloc::Global;

#[test]
fn lists_in_lists(rt: HostRuntime) {
    let array = lists_of_lists(rt.alloc()).expect(&rt, "three lists");
    assert!(rt; array.len() == 3);
    let items = array
        .value(rt.alloc(), 1)
        .expect(&rt, "three lists of numbers");
    assert!(rt; items.len() == 3);
    let alloc = rt.alloc();
    assert!(rt; are_same(lists_of_lists(alloc), lists_of_lists(alloc)) == Ok(true));
}

#[test]
fn lists_by_other_offsets(rt: HostRuntime) {
    let alloc = rt.alloc();
    let array = list_array(alloc, numbers(alloc, &[1, 2, 3]), &[0, 2, 3], None);
    let bits = Some([true, true].as_slice());
    let same = list_array(alloc, numbers(alloc, &[9, 1, 2, 3]), &[1, 3, 4], bits);
    assert!(rt; are_same(array, same) == Ok(true));
    let array = list_array(alloc, numbers(alloc, &[1, 2, 3]), &[0, 2, 3], None);
    let other = list_array(alloc, numbers(alloc, &[1, 2, 3]), &[0, 1, 3], None);
    assert!(rt; are_same(array, other) == Ok(false));
}

/// Lists of the numbers from 1 to 5 by these offsets.
fn of_five(alloc: Global, offsets: &[i32]) -> Result<ListArray, Error> {
    list_array(alloc, numbers(alloc, &[1, 2, 3, 4, 5]), offsets, None)
}

/// Offsets 0, 2 over five numbers are one list, 0, 6 are past the child.
#[test]
fn offsets_within_the_child(rt: HostRuntime) {
    let array = of_five(rt.alloc(), &[0, 2]).expect(&rt, "one list");
    assert!(rt; array.len() == 1);
    assert!(rt; has_numbers(array.value(rt.alloc(), 0), &[1, 2]));
    let past = of_five(rt.alloc(), &[0, 6]).err();
    assert!(rt; past == Some(Error::OutOfSpec(SpecError::OffsetPastChild)));
}

/// Lists under the type of lists of numbers are rejected for their child's type.
#[test]
fn children_of_their_type(rt: HostRuntime) {
    let inner = any_list(of_five(rt.alloc(), &[0, 2, 2, 3, 5]));
    let of_numbers = list_type(rt.alloc(), Ok(DataType::Int32));
    let refused = lists_under(rt.alloc(), of_numbers, inner, &[0, 2, 4], None).err();
    assert!(rt; refused == Some(Error::OutOfSpec(SpecError::ChildType)));
}

#[test]
fn nulls_keep_their_items(rt: HostRuntime) {
    let bits = Some([true, false].as_slice());
    let items = numbers(rt.alloc(), &[1, 2, 3]);
    let array = list_array(rt.alloc(), items, &[0, 2, 3], bits).expect(&rt, "two lists");
    assert!(rt; array.len() == 2);
    assert!(rt; array.is_null(1));
    assert!(rt; array.null_count() == 1);
    assert!(rt; has_numbers(array.value(rt.alloc(), 1), &[3]));
}

/// Lists of the items by offsets of 64 bits.
fn large_lists(alloc: Global, items: AnyArray, offsets: &[i64]) -> Result<LargeListArray, Error> {
    let data_type = items.data_type().clone(alloc);
    let data_type = data_type.and_then(|items| LargeListArray::default_datatype(alloc, items));
    match super::both(data_type, offsets_of(alloc, offsets)) {
        Ok((data_type, offsets)) => LargeListArray::try_new(alloc, data_type, offsets, items, None),
        Err(error) => {
            drop(items);
            Err(error)
        }
    }
}

/// The lists 1, none, and 2 and 3, by offsets of 64 bits.
pub(crate) fn by_large_offsets(alloc: Global) -> Result<LargeListArray, Error> {
    numbers(alloc, &[1, 2, 3]).and_then(|items| large_lists(alloc, items, &[0, 1, 1, 3]))
}

#[test]
fn lists_by_large_offsets(rt: HostRuntime) {
    let mut array = by_large_offsets(rt.alloc()).expect(&rt, "three lists");
    assert!(rt; array.len() == 3);
    assert!(rt; array.null_count() == 0);
    assert!(rt; has_numbers(array.value(rt.alloc(), 2), &[2, 3]));
    array.slice(1, 2);
    assert!(rt; array.len() == 2);
    assert!(rt; has_numbers(array.value(rt.alloc(), 0), &[]));
}

#[test]
fn types_of_lists(rt: HostRuntime) {
    let data_type = list_type(rt.alloc(), Ok(DataType::Int32)).expect(&rt, "a type");
    assert!(rt; data_type.to_physical_type() == PhysicalType::List);
    let items = DataType::Int32;
    assert!(rt; *ListArray::get_child_type(&data_type) == items);
    let refused = LargeListArray::try_get_child(&data_type).err();
    assert!(rt; refused == Some(Error::OutOfSpec(SpecError::WrongType)));
}
