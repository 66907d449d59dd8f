//! Builders of any kind, and the arrays that they freeze to.

use crate::arrays::calls;
use crate::mirrors::freeze;
use failed_allocations::failures::{Failure, Failures, expect};
use failed_allocations::parts::{dictionary, field, flat_record, large_list, list, pairs, record};
use nest_array::AnyArray;
use nest_memory::datatypes::{DataType, IntegerType};
use nest_memory::error::Error;
use random_builders::makers::no_rows;
use std::alloc::Global;

/// The array of rows by their numbers, and a null.
fn frozen<F: Fn() -> Result<DataType, Error>>(
    failures: &mut Failures,
    alloc: Global,
    data_type: F,
) -> Result<AnyArray, Failure> {
    let data_type = failures.retry(data_type)?;
    freeze(failures, alloc, || no_rows(alloc, &data_type))
}

pub fn flat_values(failures: &mut Failures, alloc: Global) -> Result<(), Failure> {
    let array = frozen(failures, alloc, || flat_record(alloc))?;
    calls(failures, alloc, &array)
}

pub fn lists_of_records(failures: &mut Failures, alloc: Global) -> Result<(), Failure> {
    let array = frozen(failures, alloc, || {
        list(alloc, record(alloc, DataType::Utf8, DataType::Int64)?)
    })?;
    calls(failures, alloc, &array)
}

pub fn lists_of_pairs(failures: &mut Failures, alloc: Global) -> Result<(), Failure> {
    let array = frozen(failures, alloc, || {
        large_list(alloc, pairs(alloc, DataType::Int16)?)
    })?;
    calls(failures, alloc, &array)
}

pub fn records_of_dictionaries(failures: &mut Failures, alloc: Global) -> Result<(), Failure> {
    let array = frozen(failures, alloc, || {
        let texts = dictionary(alloc, IntegerType::Int8, DataType::Utf8)?;
        let bytes = dictionary(alloc, IntegerType::UInt64, DataType::FixedSizeBinary(2))?;
        record(alloc, texts, bytes)
    })?;
    calls(failures, alloc, &array)
}

/// Lists of records of a text by a key, with the values that their keys name.
pub fn lists_of_dictionary_records(failures: &mut Failures, alloc: Global) -> Result<(), Failure> {
    let array = frozen(failures, alloc, || {
        let texts = dictionary(alloc, IntegerType::Int8, DataType::Utf8)?;
        list(
            alloc,
            DataType::Struct(vec![in alloc; field(alloc, texts)?]?),
        )
    })?;
    calls(failures, alloc, &array)?;
    expect(
        values_named(&array) == Some(2),
        "the values of a dictionary",
    )
}

/// How many values the keys of the records below lists name.
fn values_named(lists: &AnyArray) -> Option<usize> {
    let AnyArray::List(lists) = lists else {
        return None;
    };
    let AnyArray::Struct(records) = lists.values() else {
        return None;
    };
    match records.values() {
        [AnyArray::Dictionary(dictionary)] => Some(dictionary.values().len()),
        _ => None,
    }
}
