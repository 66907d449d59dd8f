//! What constructors of nested arrays reject, and the field and size of list types.
use crate::array::arrays::{
    both, buffer, list_type, lists_under, numbers, offsets_of, two, validity,
};
use nest_array::{AnyArray, FixedSizeListArray, LargeListArray, ListArray, StructArray};
use nest_flat::utf8::Utf8Array;
use nest_memory::datatypes::DataType;
use nest_memory::datatypes::field::Field;
use nest_memory::error::{Error, SpecError};
use std::alloc::Global;

const WRONG_TYPE: Option<Error> = Some(Error::OutOfSpec(SpecError::WrongType));

/// Each kind under the type of another, and no fields, or not as many as children.
#[test]
fn lists_under_another_type(rt: HostRuntime) {
    let alloc = rt.alloc();
    let items = numbers(alloc, &[1, 2, 3]);
    let refused = lists_under(alloc, Ok(DataType::Int32), items, &[0, 3], None).err();
    assert!(rt; refused == WRONG_TYPE);
}

/// Why large lists of numbers under the type of lists are rejected.
fn rejected_large(alloc: Global) -> Option<Error> {
    let parts = both(
        list_type(alloc, Ok(DataType::Int32)),
        offsets_of(alloc, &[0i64, 3]),
    );
    match both(parts, numbers(alloc, &[1, 2, 3])) {
        Ok(((data_type, offsets), items)) => {
            LargeListArray::try_new(alloc, data_type, offsets, items, None).err()
        }
        Err(error) => Some(error),
    }
}

/// Why fixed-size lists under the type of lists are rejected.
fn rejected_fixed_size(alloc: Global) -> Option<Error> {
    match both(
        list_type(alloc, Ok(DataType::Int32)),
        numbers(alloc, &[1, 2, 3]),
    ) {
        Ok((data_type, items)) => FixedSizeListArray::try_new(alloc, data_type, items, None).err(),
        Err(error) => Some(error),
    }
}

#[test]
fn other_lists_under_the_type_of_lists(rt: HostRuntime) {
    assert!(rt; rejected_large(rt.alloc()) == WRONG_TYPE);
    assert!(rt; rejected_fixed_size(rt.alloc()) == WRONG_TYPE);
}

#[test]
fn records_under_another_type(rt: HostRuntime) {
    let none = Vec::new(rt.alloc());
    assert!(rt; StructArray::try_new(DataType::Utf8, none, None).err() == WRONG_TYPE);
}

/// The type of records of a number and a text.
fn number_and_string(alloc: Global) -> Result<DataType, Error> {
    let number = Field::new(alloc, "number", DataType::Int32, true);
    let text = Field::new(alloc, "text", DataType::Utf8, true);
    two(alloc, number, text).map(|fields| DataType::Struct(fields))
}

/// Strings without a byte, so many of them.
fn empty_strings(alloc: Global, offsets: &[i32]) -> Result<AnyArray, Error> {
    match both(offsets_of(alloc, offsets), buffer(alloc, &[])) {
        Ok((offsets, values)) => {
            Utf8Array::try_new(DataType::Utf8, offsets, values, None).map(|texts| AnyArray::Utf8(
                texts,
            ))
        }
        Err(error) => Err(error),
    }
}

/// Why records of a number and a text over these children, under a validity of so many bits, are rejected.
fn rejected_records(
    alloc: Global,
    children: Result<Vec<AnyArray>, Error>,
    bits: Option<&[bool]>,
) -> Option<Error> {
    match both(
        number_and_string(alloc),
        both(children, validity(alloc, bits)),
    ) {
        Ok((data_type, (children, validity))) => {
            StructArray::try_new(data_type, children, validity).err()
        }
        Err(error) => Some(error),
    }
}

/// Records of a number and a text over children in another order: their types; of two lengths, under a validity of a third:
/// their lengths.
#[test]
fn children_in_another_order_than_the_fields(rt: HostRuntime) {
    let alloc = rt.alloc();
    let children = two(alloc, empty_strings(alloc, &[0, 0]), numbers(alloc, &[1]));
    let refused = rejected_records(alloc, children, None);
    assert!(rt; refused == Some(Error::OutOfSpec(SpecError::ChildType)));
}

#[test]
fn children_of_two_lengths_before_the_validity(rt: HostRuntime) {
    let alloc = rt.alloc();
    let children = two(
        alloc,
        numbers(alloc, &[1, 2]),
        empty_strings(alloc, &[0, 0, 0, 0]),
    );
    let refused = rejected_records(alloc, children, Some(&[true; 9]));
    assert!(rt; refused == Some(Error::OutOfSpec(SpecError::ChildLength)));
}

/// The fields of list types.
#[test]
fn fields_of_list_types(rt: HostRuntime) {
    let lists = ListArray::default_datatype(rt.alloc(), DataType::Int32);
    let data_type = lists.expect(&rt, "a type of lists");
    let field = ListArray::get_child_field(&data_type);
    assert!(rt; field.name.as_str() == "item");
    assert!(rt; field.is_nullable);
    assert!(rt; LargeListArray::try_get_child(&data_type).err() == WRONG_TYPE);
}

#[test]
fn fields_of_large_list_types(rt: HostRuntime) {
    let large = LargeListArray::default_datatype(rt.alloc(), DataType::Int32);
    let data_type = large.expect(&rt, "a type of large lists");
    assert!(rt; LargeListArray::get_child_field(&data_type).name.as_str() == "item");
    let items = DataType::Int32;
    assert!(rt; *LargeListArray::get_child_type(&data_type) == items);
    assert!(rt; ListArray::try_get_child(&data_type).err() == WRONG_TYPE);
}
