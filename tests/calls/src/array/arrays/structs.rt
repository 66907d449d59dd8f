//! Records of a boolean and a number.
use super::{are_same, booleans, both, numbers, two, validity};
use nest_array::{AnyArray, Array, StructArray};
use nest_memory::datatypes::DataType;
use nest_memory::datatypes::field::Field;
use nest_memory::error::{Error, SpecError};
use std::alloc::Global;

/// The type of records of a boolean and a number.
fn record_type(alloc: Global) -> Result<DataType, Error> {
    let boolean = Field::new(alloc, "b", DataType::Boolean, false);
    let number = Field::new(alloc, "i", DataType::Int32, false);
    two(alloc, boolean, number).map(|fields| DataType::Struct(fields))
}

/// Booleans as an array of any kind.
fn any_booleans(alloc: Global, items: &[bool]) -> Result<AnyArray, Error> {
    booleans(alloc, items).map(|array| AnyArray::Boolean(array))
}

/// Records under this type.
fn records_under(
    alloc: Global,
    data_type: Result<DataType, Error>,
    children: Result<Vec<AnyArray>, Error>,
    bits: Option<&[bool]>,
) -> Result<StructArray, Error> {
    match both(data_type, both(children, validity(alloc, bits))) {
        Ok((data_type, (children, validity))) => {
            StructArray::try_new(data_type, children, validity)
        }
        Err(error) => Err(error),
    }
}

fn records(
    alloc: Global,
    booleans: &[bool],
    items: &[i32],
    bits: Option<&[bool]>,
) -> Result<StructArray, Error> {
    let children = two(alloc, any_booleans(alloc, booleans), numbers(alloc, items));
    records_under(alloc, record_type(alloc), children, bits)
}

/// Four records; the third is null.
pub(crate) fn four(alloc: Global, items: &[i32]) -> Result<StructArray, Error> {
    let bits = [true, true, false, true].as_slice();
    records(alloc, &[false, false, true, true], items, Some(bits))
}

#[test]
fn records_of_two_fields(rt: HostRuntime) {
    let array = four(rt.alloc(), &[42, 28, 19, 31]).expect(&rt, "four records");
    assert!(rt; array.len() == 4);
    assert!(rt; array.is_null(2));
    assert!(rt; array.null_count() == 1);
    assert!(rt; array.fields().len() == 2);
    let cut = array.sliced(2, 2);
    assert!(rt; cut.len() == 2);
    assert!(rt; cut.is_null(0));
    assert!(rt; cut.is_valid(1));
}

#[test]
fn numbers_under_a_null(rt: HostRuntime) {
    let alloc = rt.alloc();
    let array = four(alloc, &[42, 28, 19, 31]);
    assert!(rt; are_same(array, four(alloc, &[42, 28, 77, 31])) == Ok(true));
    let array = four(alloc, &[42, 28, 19, 31]);
    assert!(rt; are_same(array, four(alloc, &[42, 28, 19, 77])) == Ok(false));
}

#[test]
fn children_in_the_order_of_fields(rt: HostRuntime) {
    let alloc = rt.alloc();
    let children = two(alloc, numbers(alloc, &[42]), any_booleans(alloc, &[true]));
    let refused = records_under(alloc, record_type(alloc), children, None).err();
    assert!(rt; refused == Some(Error::OutOfSpec(SpecError::ChildType)));
}

#[test]
fn children_of_one_length(rt: HostRuntime) {
    let bits = [true; 9];
    let refused = records(
        rt.alloc(),
        &[true, false],
        &[1, 2, 3],
        Some(bits.as_slice()),
    )
    .err();
    assert!(rt; refused == Some(Error::OutOfSpec(SpecError::ChildLength)));
    let refused = records(rt.alloc(), &[true, false], &[1, 2], Some(bits.as_slice())).err();
    assert!(rt; refused == Some(Error::OutOfSpec(SpecError::ValidityLength)));
}

#[test]
fn a_child_for_each_field(rt: HostRuntime) {
    let alloc = rt.alloc();
    let no_fields = Ok(DataType::Struct(Vec::new(alloc)));
    let refused = records_under(alloc, no_fields, Ok(Vec::new(alloc)), None).err();
    assert!(rt; refused == Some(Error::OutOfSpec(SpecError::NoFields)));
    let refused = records_under(alloc, record_type(alloc), Ok(Vec::new(alloc)), None).err();
    assert!(rt; refused == Some(Error::OutOfSpec(SpecError::FieldCount)));
}

#[test]
fn parts_of_records(rt: HostRuntime) {
    let array = four(rt.alloc(), &[42, 28, 19, 31]).expect(&rt, "four records");
    let (fields, children, validity) = array.into_data();
    assert!(rt; fields.len() == 2);
    assert!(rt; fields[1].name.as_str() == "i");
    assert!(rt; children.len() == 2);
    assert!(rt; super::is_numbers(&children[1], &[42, 28, 19, 31]));
    assert!(rt; validity.as_ref().map(|bits| bits.unset_bits()) == Some(1));
}
