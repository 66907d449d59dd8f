//! Keys that run out, and lengths and offsets at their limits: what is rejected there changes nothing.
//!
//! Keys that run out; offsets and lengths at their limits.

use crate::checks::same_levels;
use crate::failure::{Failure, expect};
use crate::level::Level;
use crate::makers::no_rows;
use crate::program::{freeze, null, push_row, push_value};
use nest_any::{AnyMutableArray, MutableStructArray};
use nest_build::array::MutableArray;
use nest_build::null::MutableNullArray;
use nest_memory::datatypes::{DataType, Field, IntegerType};
use nest_memory::error::{ArgumentError, Error};
use random::numbers::Generator;
use random::slot::Slot;
use std::alloc::Global;

const UNFINISHED: Error = Error::InvalidArgumentError(ArgumentError::Incomplete);

/// Records of numbers by keys of a width.
fn dictionary_records(alloc: Global, keys: IntegerType) -> Result<DataType, Error> {
    let keyed = DataType::Dictionary(keys, Box::new(alloc, DataType::Int16)?, false);
    let field = Field::new(alloc, "a", keyed, true)?;
    Ok(DataType::Struct(vec![in alloc; field]?))
}

/// Pushes a number into the child, and pushes a record of it where it was accepted.
fn push_record(
    builder: &mut AnyMutableArray,
    level: &mut Level,
    number: i128,
) -> Result<(), Failure> {
    if let Some(child) = builder.child(0) {
        push_value(
            child,
            &mut level.children[0],
            &Slot::number(number),
            &DataType::Int16,
        )?;
    }
    same_levels(builder, level)?;
    if level.children[0].len() > level.len() {
        push_row(builder, level, true)?;
    }
    same_levels(builder, level)
}

/// More values than keys can name: a known one and a null are still accepted, and after a slice new ones.
fn run_out(alloc: Global, keys: IntegerType, most: usize) -> Result<(), Failure> {
    let data_type = dictionary_records(alloc, keys)?;
    let mut builder = no_rows(alloc, &data_type)?;
    let mut level = Level::new(alloc, &data_type)?;
    for number in 0..most + 3 {
        push_record(&mut builder, &mut level, number as i128)?;
    }
    expect(level.len() == most, "a model that keeps to its keys")?;
    push_record(&mut builder, &mut level, 5)?;
    null(&mut builder, &mut level)?;
    expect(level.len() == most + 2, "a known value and a null")?;
    builder.truncate(most - 1);
    level.truncate(most - 1);
    push_record(&mut builder, &mut level, 1000)?;
    push_record(&mut builder, &mut level, 1001)?;
    expect(level.len() == most, "a new value after a cut")?;
    freeze(
        alloc,
        &mut Generator::new(1, 1, 1),
        &mut builder,
        &mut level,
    )?;
    same_levels(&mut builder, &level)
}

#[test]
fn keys_run_out(rt: HostRuntime) {
    assert_eq!(rt; run_out(rt.alloc(), IntegerType::Int8, 128), Ok(()));
    assert_eq!(rt; run_out(rt.alloc(), IntegerType::UInt8, 256), Ok(()));
}

fn nulls(alloc: Global, count: usize) -> AnyMutableArray {
    AnyMutableArray::Null(MutableNullArray::new(alloc, DataType::Null, count))
}

/// A row past the largest offset is rejected until an item is taken back.
fn lists_at_the_limit(alloc: Global, large: bool, most: usize) -> Result<(), Failure> {
    let item = Box::new(alloc, Field::new(alloc, "a", DataType::Null, true)?)?;
    let data_type = if large {
        DataType::LargeList(item)
    } else {
        DataType::List(item)
    };
    let mut lists = no_rows(alloc, &data_type)?;
    if let Some(child) = lists.child(0) {
        *child = nulls(alloc, most + 1);
    }
    expect(
        lists.push_row(true) == Err(Error::Overflow),
        "push_row past the limit",
    )?;
    expect(
        lists.is_empty() && !lists.is_complete(),
        "what a refused row left",
    )?;
    if let Some(child) = lists.child(0) {
        expect(child.len() == most + 1, "what waits after a refused row")?;
        child.truncate(most);
    }
    expect(lists.push_row(true) == Ok(()), "push_row at the limit")?;
    expect(lists.push_null() == Ok(()), "a null at the limit")?;
    if let Some(child) = lists.child(0) {
        expect(child.push_null() == Ok(()), "an item past the limit")?;
    }
    expect(
        lists.push_row(true) == Err(Error::Overflow),
        "push_row past the limit once more",
    )?;
    expect(
        lists.as_box().err() == Some(UNFINISHED),
        "a freeze while an item waits",
    )?;
    if let Some(child) = lists.child(0) {
        child.truncate(most);
    }
    let array = lists.as_box()?;
    expect(
        array.len() == 2 && array.is_null(1) && !array.is_null(0),
        "the two lists",
    )
}

#[test]
fn offsets_at_their_limits(rt: HostRuntime) {
    assert_eq!(rt;
        lists_at_the_limit(rt.alloc(), false, i32::MAX as usize),
        Ok(())
    );
    assert_eq!(rt;
        lists_at_the_limit(rt.alloc(), true, i64::MAX as usize),
        Ok(())
    );
}

/// As many records as a length can be, of nulls alone: there is no null more, at any level.
fn longest_records(alloc: Global) -> Result<(), Failure> {
    let first = Field::new(alloc, "a", DataType::Null, true)?;
    let second = Field::new(alloc, "b", DataType::Null, true)?;
    let data_type = DataType::Struct(vec![in alloc; first, second]?);
    let children = vec![in alloc; nulls(alloc, usize::MAX), nulls(alloc, usize::MAX)]?;
    let mut records = MutableStructArray::try_new(alloc, data_type, children, None)?;
    expect(
        records.push_null() == Err(Error::Overflow),
        "push_null past the limit",
    )?;
    expect(records.is_complete(), "what a refused null left")?;
    let lengths = records
        .values()
        .iter()
        .all(|child| child.len() == usize::MAX);
    expect(lengths, "a child after a refused null")
}

#[test]
fn records_at_the_limit(rt: HostRuntime) {
    assert_eq!(rt; longest_records(rt.alloc()), Ok(()));
}
