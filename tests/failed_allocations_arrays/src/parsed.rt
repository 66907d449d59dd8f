//! A data type read from its text, and decimals from JSON.

use failed_allocations::failures::{Failure, Failures, expect};
use json_read::{JsonReadError, read_json_lines};
use json_write::output::to_json_string;
use nest_array::AnyArray;
use nest_memory::datatypes::DataType;
use nest_memory::error::Error;
use std::alloc::{AllocError, Global};
use type_text::{ParseTypeError, parse_type};

const TEXT: &str =
    "struct<id: int64 not null, tags: list<item: dictionary<values=string, indices=int8, ordered=0>>, pick: dense_union<a: timestamp[s, tz=UTC]=0, b: map<string ('k'), extension<e, null>>=1>>";

pub fn types(failures: &mut Failures, alloc: Global) -> Result<(), Failure> {
    let first = failures.retry(|| read(alloc))?;
    let second = failures.retry(|| read(alloc))?;
    expect(first == second, "another data type")
}

fn read(alloc: Global) -> Result<DataType, Error> {
    parse_type(alloc, TEXT).map_err(|error| match error {
        ParseTypeError::Memory(error) => Error::Memory(error),
        ParseTypeError::Syntax(_) | ParseTypeError::TooDeep(_) => Error::NotYetImplemented,
    })
}

const LINES: &str = "\"12345678901234567890123456789012345678901.25\"\nnull\n\"-0.05\"\n";

/// Decimals of 256 bits, and their text.
pub fn decimals(failures: &mut Failures, alloc: Global) -> Result<(), Failure> {
    let array = failures.retry(|| read_decimals(alloc))?;
    let text = failures.retry(|| Ok(to_json_string(alloc, &array)?))?;
    expect(
        text.as_str() == "[\"12345678901234567890123456789012345678901.25\",null,\"-0.05\"]",
        "the text of decimals",
    )
}

fn read_decimals(alloc: Global) -> Result<AnyArray, Error> {
    let read = read_json_lines(alloc, &DataType::Decimal256(43, 2), LINES.as_bytes());
    read.map_err(|error| match error {
        JsonReadError::Memory => Error::Memory(AllocError),
        _ => Error::NotYetImplemented,
    })
}
