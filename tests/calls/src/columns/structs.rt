//! Struct arrays of columns.
use super::{numbers, strings_and_numbers};
use json_write::Json;
use nest_array::{AnyArray, Array, StructArray, struct_of_columns};
use nest_memory::datatypes::DataType;
use nest_memory::datatypes::field::Field;
use nest_memory::error::{Error, SpecError};
use std::alloc::Global;

/// A struct array of the fields "name" and "age", with its fields made one by one.
fn people_by_fields(alloc: Global, values: &[Option<i32>]) -> Result<StructArray, Error> {
    let mut fields = Vec::with_capacity(alloc, 2)?;
    fields.push(Field::new(alloc, "name", DataType::Utf8, true)?)?;
    fields.push(Field::new(alloc, "age", DataType::Int32, true)?)?;
    let columns = strings_and_numbers(alloc, values)?;
    StructArray::try_new(DataType::Struct(fields), columns, None)
}

fn people(alloc: Global, names: &[&str], values: &[Option<i32>]) -> Result<StructArray, Error> {
    struct_of_columns(alloc, names, strings_and_numbers(alloc, values)?)
}

#[test]
fn named_columns(rt: HostRuntime) -> Result<(), Error> {
    let alloc = rt.alloc();
    let array = people(alloc, &["name", "age"], &[Some(30), None])?;
    assert!(rt; array == people_by_fields(alloc, &[Some(30), None])?);
    assert!(rt; array.validity().is_none());
    assert!(rt; array.fields()[1].metadata.is_empty());
    let data_type = format!(in alloc; "{}", array.data_type())?;
    assert_eq!(rt; data_type.as_str(), "struct<name: string, age: int32>");
    let any = array.boxed();
    let text = format!(in alloc; "{}", Json::of(&any))?;
    assert_eq!(rt;
        text.as_str(),
        "[{\"name\":\"ann\",\"age\":30},{\"name\":\"bob\",\"age\":null}]"
    );
    Ok(())
}

/// Names are in the data type, and may be equal or empty.
#[test]
fn other_names(rt: HostRuntime) -> Result<(), Error> {
    let alloc = rt.alloc();
    let array = people(alloc, &["", ""], &[Some(30), None])?;
    let data_type = format!(in alloc; "{}", array.data_type())?;
    assert_eq!(rt; data_type.as_str(), "struct<: string, : int32>");
    assert!(rt; array != people_by_fields(alloc, &[Some(30), None])?);
    Ok(())
}

/// A column may be a struct array.
#[test]
fn struct_column(rt: HostRuntime) -> Result<(), Error> {
    let alloc = rt.alloc();
    let mut columns = Vec::with_capacity(alloc, 1)?;
    columns.push(people(alloc, &["name", "age"], &[None, Some(40)])?.boxed())?;
    let array = struct_of_columns(alloc, &["person"], columns)?;
    let data_type = format!(in alloc; "{}", array.data_type())?;
    assert_eq!(rt;
        data_type.as_str(),
        "struct<person: struct<name: string, age: int32>>"
    );
    assert!(rt; array.len() == 2);
    Ok(())
}

/// Columns without slots are columns of one length.
#[test]
fn empty_columns(rt: HostRuntime) -> Result<(), Error> {
    let alloc = rt.alloc();
    let mut columns = Vec::with_capacity(alloc, 1)?;
    columns.push(numbers(alloc, &[])?)?;
    let array = struct_of_columns(alloc, &["age"], columns)?;
    assert!(rt; array.len() == 0);
    assert!(rt; array.fields().len() == 1);
    Ok(())
}

fn refused(alloc: Global, names: &[&str], columns: Vec<AnyArray>) -> Option<Error> {
    struct_of_columns(alloc, names, columns).err()
}

#[test]
fn name_for_each_column(rt: HostRuntime) -> Result<(), Error> {
    let alloc = rt.alloc();
    let field_count = Some(Error::OutOfSpec(SpecError::FieldCount));
    let columns = strings_and_numbers(alloc, &[Some(30), None])?;
    assert!(rt; refused(alloc, &["name"], columns) == field_count);
    let columns = strings_and_numbers(alloc, &[Some(30), None])?;
    assert!(rt; refused(alloc, &["name", "age", "size"], columns) == field_count);
    assert!(rt; refused(alloc, &["name"], Vec::new(alloc)) == field_count);
    let unequal = strings_and_numbers(alloc, &[Some(30)])?;
    assert!(rt; refused(alloc, &[], unequal) == field_count);
    Ok(())
}

#[test]
fn one_column_at_least(rt: HostRuntime) {
    let no_fields = Some(Error::OutOfSpec(SpecError::NoFields));
    assert!(rt; refused(rt.alloc(), &[], Vec::new(rt.alloc())) == no_fields);
}

#[test]
fn columns_of_one_length(rt: HostRuntime) -> Result<(), Error> {
    let alloc = rt.alloc();
    let child_length = Some(Error::OutOfSpec(SpecError::ChildLength));
    let columns = strings_and_numbers(alloc, &[Some(30)])?;
    assert!(rt; refused(alloc, &["name", "age"], columns) == child_length);
    Ok(())
}
