//! Arrays of parts, one of them invalid: the check that fails, by its error.

mod flat;
mod keyed;
mod lists;
mod picks;
mod records;

use crate::cases::{CASES, Case};
use nest_array::{AnyArray, NullArray};
use nest_memory::bitmap::Bitmap;
use nest_memory::buffer::Buffer;
use nest_memory::datatypes::{DataType, PrimitiveType};
use nest_memory::error::{Error, SpecError};
use nest_memory::offset::Offset;
use nest_memory::offsets::OffsetsBuffer;
use random::layouts::lay_array;
use random::natives::native_kind;
use random::numbers::Generator;
use random::start::START;
use random::types::{logical, random_type};
use std::alloc::Global;
use std::test::Fail;

/// What a constructor decoded, and what it should: an error, or `None` where it made an array.
#[derive(Clone, Copy, Debug, PartialEq, Eq)]
struct Trial {
    answer: Option<Error>,
    expected: Option<Error>,
}

/// What a constructor decoded where it should reject so, or make an array.
fn trial<A: Drop>(answer: Result<A, Error>, expected: Option<Error>) -> Trial {
    Trial {
        answer: answer.err(),
        expected,
    }
}

fn spec(failure: SpecError) -> Option<Error> {
    Some(Error::OutOfSpec(failure))
}

/// How values of a type lie in memory: a number for each layout, and the kind of a native value.
pub fn layout(data_type: &DataType) -> (usize, Option<PrimitiveType>) {
    let number = match logical(data_type) {
        DataType::Null => 1,
        DataType::Boolean => 2,
        DataType::Binary => 3,
        DataType::LargeBinary => 4,
        DataType::Utf8 => 5,
        DataType::LargeUtf8 => 6,
        DataType::FixedSizeBinary(_) => 7,
        DataType::List(_) => 8,
        DataType::LargeList(_) => 9,
        DataType::FixedSizeList(_, _) => 10,
        DataType::Struct(_) => 11,
        DataType::Map(_, _) => 12,
        DataType::Union(_, _, _) => 13,
        DataType::Dictionary(_, _, _) => 14,
        _ => 0,
    };
    (number, native_kind(data_type))
}

/// A type of another layout.
fn other_layout(alloc: Global, rng: &mut Generator, own: &DataType) -> Result<DataType, Error> {
    for _ in 0..100 {
        let random = random_type(alloc, rng, 1)?;
        if layout(&random) != layout(own) {
            return Ok(random);
        }
    }
    Ok(DataType::Float16)
}

/// Another type than this one.
fn other_type(alloc: Global, rng: &mut Generator, own: &DataType) -> Result<DataType, Error> {
    for _ in 0..100 {
        let random = random_type(alloc, rng, 1)?;
        if *logical(&random) != *logical(own) {
            return Ok(random);
        }
    }
    Ok(DataType::Float16)
}

fn copied(validity: Option<&Bitmap>) -> Result<Option<Bitmap>, Error> {
    Ok(match validity {
        Some(bits) => Some(bits.clone()?),
        None => None,
    })
}

/// A validity that has not a bit for each of n slots.
fn other_length(alloc: Global, rng: &mut Generator, n: usize) -> Result<Option<Bitmap>, Error> {
    let length = if n > 0 && rng.boolean() { n - 1 } else { n + 1 };
    Ok(Some(Bitmap::new_zeroed(alloc, length)?))
}

/// Offsets after one of these is written over, so that there are none, one is negative or they fall.
fn invalid_offsets<O: Offset + From<i8> + Drop>(
    alloc: Global,
    rng: &mut Generator,
    offsets: &OffsetsBuffer<O>,
) -> Result<Trial, Error> {
    let indices = offsets.as_slice();
    let mut all = Vec::from_slice(alloc, indices)?;
    let expected = match rng.below(4) {
        0 => None,
        1 => {
            all.truncate(0);
            spec(SpecError::Offsets)
        }
        2 => {
            all[0] = O::from(-1);
            spec(SpecError::Offsets)
        }
        _ => {
            let last = indices[indices.len() - 1].to_usize();
            all.push(O::from_usize(last + 1).ok_or(Error::Overflow)?)?;
            all.push(O::from_usize(last).ok_or(Error::Overflow)?)?;
            spec(SpecError::Offsets)
        }
    };
    Ok(trial(OffsetsBuffer::try_new(alloc, all), expected))
}

/// A buffer without its last items.
fn shortened<T: Copy + Drop>(values: &Buffer<T>, n: usize) -> Result<Buffer<T>, Error> {
    Ok(values.clone()?.sliced(0, n))
}

/// The parts of an array once more, one of them invalid or none.
fn tried(alloc: Global, rng: &mut Generator, array: &AnyArray) -> Result<Trial, Error> {
    match array {
        AnyArray::Null(a) => {
            let other = other_layout(alloc, rng, a.data_type())?;
            Ok(trial(
                NullArray::try_new(other, a.len()),
                spec(SpecError::WrongType),
            ))
        }
        AnyArray::Boolean(a) => flat::booleans(alloc, rng, a),
        AnyArray::Primitive(a) => flat::natives(alloc, rng, a),
        AnyArray::Binary(a) => flat::bytes(alloc, rng, a),
        AnyArray::LargeBinary(a) => flat::bytes(alloc, rng, a),
        AnyArray::Utf8(a) => flat::texts(alloc, rng, a),
        AnyArray::LargeUtf8(a) => flat::texts(alloc, rng, a),
        AnyArray::FixedSizeBinary(a) => flat::codes(alloc, rng, a),
        AnyArray::FixedSizeList(a) => lists::sized_lists(alloc, rng, a),
        AnyArray::List(a) => lists::lists(alloc, rng, a),
        AnyArray::LargeList(a) => lists::large_lists(alloc, rng, a),
        AnyArray::Map(a) => lists::maps(alloc, rng, a),
        AnyArray::Struct(a) => records::records(alloc, rng, a),
        AnyArray::Union(a) => picks::picks(alloc, rng, a),
        AnyArray::Dictionary(a) => keyed::keyed(alloc, rng, a),
    }
}

/// One part that is invalid: the check that fails.
#[test]
fn one_invalid_part(rt: HostRuntime) -> Result<(), Fail> {
    let alloc = rt.alloc();
    for case in 0..CASES * 2 {
        let mut random = Case::new(alloc, 14, case)?;
        let slots = random.slots.as_slice();
        let array = lay_array(alloc, &mut random.rng, &random.data_type, slots)?;
        for turn in 0..3 {
            let attempt = tried(alloc, &mut random.rng, &array)?;
            assert_eq!(rt;
                attempt.answer,
                attempt.expected,
                "turn {turn}: start {START}, case {case}"
            );
        }
    }
    Ok(())
}
