//! No validity after a freeze, of records and of builders of any kind.
//!
//! A null brings records and builders of any kind a validity, and a freeze takes it.
use crate::any::nested_dictionaries::dictionary_of_strings;
use crate::any::records::{lists_of, numbers, over, push, push_row, records_of, texts};
use nest_any::AnyMutableArray;
use nest_build::array::MutableArray;
use nest_flat::any_native::AnyNative;
use nest_flat::plain::Plain;
use nest_memory::datatypes::DataType;
use nest_memory::datatypes::field::Field;
use nest_memory::error::{ArgumentError, Error};
use std::alloc::Global;

/// Whether a null brings a validity, and a freeze takes it.
fn has_no_validity(mut builder: AnyMutableArray) -> Result<bool, Error> {
    builder.push_null()?;
    let masked = builder.validity().is_some();
    drop(builder.as_box()?);
    Ok(masked && builder.validity().is_none() && builder.is_empty())
}

fn pairs_of(alloc: Global, items: DataType) -> Result<DataType, Error> {
    let items = Field::new(alloc, "item", items, true)?;
    Ok(DataType::FixedSizeList(Box::new(alloc, items)?, 2))
}

fn large_lists_of(alloc: Global, items: DataType) -> Result<DataType, Error> {
    let items = Field::new(alloc, "item", items, true)?;
    Ok(DataType::LargeList(Box::new(alloc, items)?))
}

#[test]
fn builders_of_any_kind_have_no_validity_after_a_freeze(rt: HostRuntime) -> Result<(), Error> {
    let alloc = rt.alloc();
    assert!(rt; has_no_validity(numbers(alloc))?);
    assert!(rt; has_no_validity(texts(alloc)?)?);
    assert!(rt; has_no_validity(dictionary_of_strings(alloc)?)?);
    for data_type in [
        lists_of(alloc, DataType::Int64)?,
        large_lists_of(alloc, DataType::Int64)?,
        pairs_of(alloc, DataType::Int64)?,
    ] {
        let lists = AnyMutableArray::try_nested(alloc, data_type, numbers(alloc))?;
        assert!(rt; has_no_validity(lists)?);
    }
    let data_type = records_of(alloc, DataType::Int64)?;
    let records = over(alloc, data_type, vec![in alloc; numbers(alloc)], None)?;
    assert!(rt; has_no_validity(AnyMutableArray::Struct(records))?);
    Ok(())
}

#[test]
fn records_have_no_validity_after_a_freeze(rt: HostRuntime) -> Result<(), Error> {
    let alloc = rt.alloc();
    let data_type = records_of(alloc, DataType::Int64)?;
    let mut records = over(alloc, data_type, vec![in alloc; numbers(alloc)], None)?;
    records.push_null()?;
    assert!(rt; MutableArray::validity(&records).is_some());
    drop(records.freeze()?);
    assert!(rt; MutableArray::validity(&records).is_none());
    records.push_null()?;
    records.truncate(0);
    assert!(rt; MutableArray::validity(&records).is_none());
    let (_data_type, _values, validity) = records.into_inner();
    assert!(rt; validity.is_none());
    Ok(())
}

/// Pushes a number into the child of lists.
fn push_item(lists: &mut AnyMutableArray, number: i64) -> Result<(), Error> {
    match lists.child(0) {
        Some(items) => push(items, Plain::Native(AnyNative::Int64(number))),
        None => Err(Error::InvalidArgumentError(ArgumentError::Incomplete)),
    }
}

/// What is in a builder besides a child that was lent, or that it does not have.
#[test]
fn a_failed_downcast_of_a_child_changes_nothing(rt: HostRuntime) -> Result<(), Error> {
    let alloc = rt.alloc();
    let mut lists = AnyMutableArray::try_nested(
        alloc,
        lists_of(alloc, DataType::Int64)?,
        numbers(alloc),
    )?;
    push_item(&mut lists, 1)?;
    assert!(rt; lists.child(1).is_none());
    assert!(rt; lists.is_empty() && lists.child(0).is_some_and(|items| items.len() == 1));
    push_row(&mut lists, true)?;
    push_item(&mut lists, 2)?;
    assert!(rt; lists.len() == 1 && lists.child(0).is_some_and(|items| items.len() == 2));
    assert!(rt; lists.validity().is_none());
    let mut keyed = dictionary_of_strings(alloc)?;
    push(&mut keyed, Plain::Text("A"))?;
    assert!(rt; keyed.child(0).is_none());
    assert!(rt; keyed.len() == 1 && keyed.validity().is_none());
    Ok(())
}
