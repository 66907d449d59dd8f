//! Records of children that are known to fit their data type, made without checks, and a value for a child that is lent.
//!
//! Records of a child that is known to fit, made without checks; a number for the child that they lend.

use crate::any::records::{numbers, push, records_of};
use nest_any::{AnyMutableArray, MutableStructArray};
use nest_build::array::MutableArray;
use nest_flat::any_native::AnyNative;
use nest_flat::plain::Plain;
use nest_memory::datatypes::DataType;
use nest_memory::error::{ArgumentError, Error};
use std::alloc::{AllocError, Global};

/// The records of parts that were checked once, made of them again.
fn made_again(
    alloc: Global,
    data_type: DataType,
    values: Vec<AnyMutableArray>,
) -> Result<MutableStructArray, Error> {
    match MutableStructArray::try_new(alloc, data_type, values, None) {
        Ok(records) => {
            let (data_type, values, _no_validity) = records.into_inner();
            Ok(MutableStructArray::new(alloc, data_type, values))
        }
        Err(error) => Err(error),
    }
}

/// Records of a number each, none yet.
fn number_records(alloc: Global) -> Result<MutableStructArray, Error> {
    let data_type = records_of(alloc, DataType::Int64)?;
    match vec![in alloc; numbers(alloc)] {
        Ok(values) => made_again(alloc, data_type, values),
        Err(refused) => {
            drop(refused);
            drop(data_type);
            Err(Error::Memory(AllocError))
        }
    }
}

/// Pushes a row of what waits in complete children.
fn push_row(records: &mut MutableStructArray) -> Result<(), Error> {
    if !records.has_complete_children() {
        return Err(Error::InvalidArgumentError(ArgumentError::Incomplete));
    }
    records.push(true)
}

#[test]
fn a_number_is_pushed_into_a_child_of_records(rt: HostRuntime) {
    let mut records = number_records(rt.alloc()).expect(&rt, "number records");
    let pushed = push(records.value(0), Plain::Native(AnyNative::Int64(7)));
    let ended = push_row(&mut records);
    let rows = MutableArray::len(&records);
    assert!(rt; pushed == Ok(()));
    assert!(rt; ended == Ok(()));
    assert!(rt; rows == 1);
}
