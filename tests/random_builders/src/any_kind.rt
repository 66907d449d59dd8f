//! Programs on builders of any kind: of random types, and of one type of each kind.
//!
//! Builders of any kind as one enum, to depth four: after each call every level of the builder, and what is frozen.

use crate::failure::Failure;
use crate::program::{run, run_on};
use nest_memory::datatypes::{DataType, Field, IntegerType};
use nest_memory::error::Error;
use random::numbers::Generator;
use random::start::START;
use std::alloc::Global;

const PROGRAMS: usize = 400;

const PROGRAMS_OF_A_TYPE: usize = 60;

/// The first of some programs that goes wrong, and what is wrong.
fn first_wrong<F: Fn(&mut Generator) -> Result<(), Failure>>(
    programs: usize,
    test: u64,
    run: F,
) -> Option<(usize, Failure)> {
    for number in 0..programs {
        if let Err(wrong) = run(&mut Generator::new(START, test, number)) {
            return Some((number, wrong));
        }
    }
    None
}

#[test]
fn random_types(rt: HostRuntime) {
    let alloc = rt.alloc();
    let wrong = first_wrong(PROGRAMS, 101, |rng| run(alloc, rng));
    assert!(rt; wrong.is_none(), "start {START}, program {wrong:?}");
}

#[test]
fn more_random_types(rt: HostRuntime) {
    let alloc = rt.alloc();
    let wrong = first_wrong(PROGRAMS, 102, |rng| run(alloc, rng));
    assert!(rt; wrong.is_none(), "start {START}, program {wrong:?}");
}

/// The first program on builders of one type that goes wrong.
fn first_of_type(
    alloc: Global,
    test: u64,
    data_type: Result<DataType, Error>,
) -> Result<Option<(usize, Failure)>, Error> {
    let data_type = data_type?;
    Ok(first_wrong(PROGRAMS_OF_A_TYPE, test, |rng| {
        run_on(alloc, rng, &data_type)
    }))
}

fn field(alloc: Global, data_type: DataType) -> Result<Field, Error> {
    Field::new(alloc, "a", data_type, true)
}

fn list(alloc: Global) -> Result<DataType, Error> {
    Ok(DataType::List(Box::new(alloc, field(alloc, DataType::Int8)?)?))
}

#[test]
fn lists(rt: HostRuntime) {
    let wrong = first_of_type(rt.alloc(), 111, list(rt.alloc()));
    assert!(rt; wrong == Ok(None), "start {START}, program {wrong:?}");
}

fn large_list(alloc: Global) -> Result<DataType, Error> {
    Ok(DataType::LargeList(Box::new(alloc, field(alloc, DataType::Utf8)?)?))
}

#[test]
fn large_lists(rt: HostRuntime) {
    let wrong = first_of_type(rt.alloc(), 112, large_list(rt.alloc()));
    assert!(rt; wrong == Ok(None), "start {START}, program {wrong:?}");
}

fn pair(alloc: Global) -> Result<DataType, Error> {
    let item = Box::new(alloc, field(alloc, DataType::Boolean)?)?;
    Ok(DataType::FixedSizeList(item, 2))
}

#[test]
fn lists_of_one_size(rt: HostRuntime) {
    let wrong = first_of_type(rt.alloc(), 113, pair(rt.alloc()));
    assert!(rt; wrong == Ok(None), "start {START}, program {wrong:?}");
}

fn record(alloc: Global) -> Result<DataType, Error> {
    let first = field(alloc, DataType::Int64)?;
    let second = field(alloc, DataType::FixedSizeBinary(2))?;
    Ok(DataType::Struct(vec![in alloc; first, second]?))
}

#[test]
fn records(rt: HostRuntime) {
    let wrong = first_of_type(rt.alloc(), 114, record(rt.alloc()));
    assert!(rt; wrong == Ok(None), "start {START}, program {wrong:?}");
}

fn keyed(alloc: Global) -> Result<DataType, Error> {
    let values = Box::new(alloc, DataType::LargeUtf8)?;
    Ok(DataType::Dictionary(IntegerType::UInt16, values, false))
}

#[test]
fn dictionaries(rt: HostRuntime) {
    let wrong = first_of_type(rt.alloc(), 115, keyed(rt.alloc()));
    assert!(rt; wrong == Ok(None), "start {START}, program {wrong:?}");
}
