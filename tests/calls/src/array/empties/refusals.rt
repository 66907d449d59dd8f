//! Which types and lengths are rejected, and which error is the first.
use crate::array::empties::types::{
    extension, list, map, none, nulls, numbers, one, records, refusal, sized, two,
};
use nest_memory::datatypes::DataType;
use nest_memory::error::{ArgumentError, Error, SpecError};
use std::alloc::Global;

const NO_SIZE: Option<Error> = Some(Error::OutOfSpec(SpecError::ZeroSize));

const TOO_LONG: Option<Error> = Some(Error::Overflow);

const NO_FLOATS: Option<Error> = Some(Error::NotYetImplemented);

fn no_bytes(alloc: Global) -> Result<DataType, Error> {
    let _ = alloc;
    Ok(DataType::FixedSizeBinary(0))
}

/// Floats are rejected.
#[test]
fn floats(rt: HostRuntime) {
    let alloc = rt.alloc();
    assert!(rt; refusal(nulls(alloc, Ok(DataType::Float32), 0)) == NO_FLOATS);
    assert!(rt; refusal(none(alloc, Ok(DataType::Float16))) == NO_FLOATS);
    assert!(rt; refusal(none(alloc, extension(alloc, Ok(DataType::Float64)))) == NO_FLOATS);
    assert!(rt; refusal(none(alloc, list(alloc, Ok(DataType::Float64)))) == NO_FLOATS);
}

/// Lists of the size 2^33, 2^33 of them, are too many items; of the size 2^64 - 1 there is one, of as many nulls, but not two.
/// Lists of the size 2 of byte strings of the size 0: 2^63 of them are too many items, one of them has no size.
#[test]
fn products_before_children(rt: HostRuntime) {
    let alloc = rt.alloc();
    let half = 9223372036854775808;
    assert!(rt; refusal(nulls(alloc, sized(alloc, no_bytes(alloc), 2), half)) == TOO_LONG);
    assert!(rt; refusal(nulls(alloc, sized(alloc, no_bytes(alloc), 2), 1)) == NO_SIZE);
    assert!(rt; refusal(none(alloc, sized(alloc, no_bytes(alloc), 2))) == NO_SIZE);
    let part = 8589934592;
    assert!(rt; refusal(nulls(alloc, sized(alloc, Ok(DataType::Int8), part), part)) == TOO_LONG);
    assert!(rt; refusal(nulls(alloc, sized(alloc, Ok(DataType::Float32), 0), 1)) == NO_SIZE);
    assert!(rt; refusal(nulls(alloc, Ok(DataType::FixedSizeBinary(part)), part)) == TOO_LONG);
}

/// Lists and strings of 2^64 - 1 slots have too many offsets.
#[test]
fn one_offset_more_than_slots(rt: HostRuntime) {
    let alloc = rt.alloc();
    assert!(rt; refusal(nulls(alloc, list(alloc, Ok(DataType::Int32)), usize::MAX)) == TOO_LONG);
    assert!(rt; refusal(nulls(alloc, list(alloc, Ok(DataType::Float32)), usize::MAX)) == TOO_LONG);
    assert!(rt; refusal(nulls(alloc, Ok(DataType::Utf8), usize::MAX)) == TOO_LONG);
    assert!(rt; refusal(nulls(alloc, Ok(DataType::LargeBinary), usize::MAX)) == TOO_LONG);
}

/// Records of a float and a byte string of the size 0: the float first; records of no field.
#[test]
fn children_from_the_left(rt: HostRuntime) {
    let alloc = rt.alloc();
    let float_first = two(alloc, Ok(DataType::Float32), no_bytes(alloc));
    assert!(rt; refusal(nulls(alloc, records(float_first), 1)) == NO_FLOATS);
    let bytes_first = two(alloc, no_bytes(alloc), Ok(DataType::Float32));
    assert!(rt; refusal(nulls(alloc, records(bytes_first), 1)) == NO_SIZE);
    let no_fields = Some(Error::OutOfSpec(SpecError::NoFields));
    assert!(rt; refusal(nulls(alloc, records(numbers(alloc, 0)), 1)) == no_fields);
    assert!(rt; refusal(none(alloc, records(numbers(alloc, 0)))) == no_fields);
}

/// Entries that are no records of two fields, also where they are an extension of such; extensions at every level.
#[test]
fn entries_of_maps(rt: HostRuntime) {
    let alloc = rt.alloc();
    let no_pairs = Some(Error::InvalidArgumentError(ArgumentError::MapInner));
    assert!(rt; refusal(none(alloc, map(alloc, Ok(DataType::Int8)))) == no_pairs);
    let single = records(one(alloc, Ok(DataType::Int8)));
    assert!(rt; refusal(nulls(alloc, map(alloc, single), usize::MAX)) == no_pairs);
    let pair = records(two(alloc, Ok(DataType::Utf8), Ok(DataType::Int8)));
    assert!(rt; refusal(nulls(alloc, map(alloc, extension(alloc, pair)), 1)) == no_pairs);
    let float = records(two(alloc, Ok(DataType::Utf8), Ok(DataType::Float32)));
    assert!(rt; refusal(nulls(alloc, map(alloc, float), 1)) == NO_FLOATS);
    let pair = records(two(alloc, Ok(DataType::Utf8), Ok(DataType::Int8)));
    assert!(rt; refusal(nulls(alloc, map(alloc, pair), usize::MAX)) == TOO_LONG);
}
