//! Data types, random, of whose arrays there are builders of any kind.

use nest_memory::datatypes::{DataType, Field, IntegerType, IntervalUnit, TimeUnit};
use nest_memory::error::Error;
use random::numbers::Generator;
use std::alloc::Global;

const UNITS: [TimeUnit; 4] = [
    TimeUnit::Second,
    TimeUnit::Millisecond,
    TimeUnit::Microsecond,
    TimeUnit::Nanosecond,
];

const KEYS: [IntegerType; 8] = [
    IntegerType::Int8,
    IntegerType::Int16,
    IntegerType::Int32,
    IntegerType::Int64,
    IntegerType::UInt8,
    IntegerType::UInt16,
    IntegerType::UInt32,
    IntegerType::UInt64,
];

const NAMES: [&str; 3] = ["a", "b", ""];

/// A type of at most so many levels.
pub fn a_random_type(alloc: Global, rng: &mut Generator, depth: usize) -> Result<DataType, Error> {
    if depth <= 1 {
        return leaf(alloc, rng);
    }
    match rng.below(9) {
        0 | 1 => Ok(DataType::List(item(alloc, rng, depth)?)),
        2 => Ok(DataType::LargeList(item(alloc, rng, depth)?)),
        3 | 4 => Ok(DataType::FixedSizeList(item(alloc, rng, depth)?, rng.between(1, 2))),
        5 | 6 => Ok(DataType::Struct(fields(alloc, rng, depth)?)),
        7 => {
            let stored = a_random_type(alloc, rng, depth - 1)?;
            if has_own_type(&stored) {
                return extension(alloc, stored);
            }
            Ok(stored)
        }
        _ => leaf(alloc, rng),
    }
}

/// A type without levels below it but a dictionary's values.
fn leaf(alloc: Global, rng: &mut Generator) -> Result<DataType, Error> {
    match rng.below(8) {
        0 => Ok(DataType::Null),
        1..=3 => dictionary(alloc, rng),
        _ => flat(alloc, rng),
    }
}

/// The type of values without children.
pub fn flat(alloc: Global, rng: &mut Generator) -> Result<DataType, Error> {
    Ok(match rng.below(9) {
        0 => DataType::Boolean,
        1 => DataType::Binary,
        2 => DataType::LargeBinary,
        3 => DataType::Utf8,
        4 => DataType::LargeUtf8,
        5 => DataType::FixedSizeBinary(rng.between(1, 3)),
        6 => extension(alloc, native(rng))?,
        _ => native(rng),
    })
}

/// The type of native values, of each of the twelve kinds.
fn native(rng: &mut Generator) -> DataType {
    match rng.below(20) {
        0 => DataType::Int8,
        1 => DataType::Int16,
        2 => DataType::Int32,
        3 => DataType::Int64,
        4 => DataType::UInt8,
        5 => DataType::UInt16,
        6 => DataType::UInt32,
        7 => DataType::UInt64,
        8 => DataType::Date32,
        9 => DataType::Date64,
        10 => DataType::Time32(UNITS[rng.below(2)]),
        11 => DataType::Time64(UNITS[rng.between(2, 3)]),
        12 => DataType::Duration(UNITS[rng.below(4)]),
        13 => DataType::Timestamp(UNITS[rng.below(4)], None),
        14 => DataType::Interval(IntervalUnit::YearMonth),
        15 => DataType::Interval(IntervalUnit::DayTime),
        16 => DataType::Interval(IntervalUnit::MonthDayNano),
        17 => DataType::Decimal(38, 2),
        _ => DataType::Decimal256(76, 10),
    }
}

/// Values that are kept once, by keys of any width.
fn dictionary(alloc: Global, rng: &mut Generator) -> Result<DataType, Error> {
    let values = Box::new(alloc, flat(alloc, rng)?)?;
    Ok(DataType::Dictionary(KEYS[rng.below(8)], values, rng.boolean()))
}

fn extension(alloc: Global, stored: DataType) -> Result<DataType, Error> {
    let name = String::from_str(alloc, "tagged")?;
    Ok(DataType::Extension(name, Box::new(alloc, stored)?, None))
}

/// Whether a builder may be of an extension of that type: those of bytes and strings have their own types alone.
fn has_own_type(data_type: &DataType) -> bool {
    !matches!(
        data_type,
        DataType::Binary
            | DataType::LargeBinary
            | DataType::Utf8
            | DataType::LargeUtf8
            | DataType::FixedSizeBinary(_)
    )
}

fn field(alloc: Global, rng: &mut Generator, depth: usize) -> Result<Field, Error> {
    let data_type = a_random_type(alloc, rng, depth - 1)?;
    Field::new(alloc, NAMES[rng.below(3)], data_type, rng.boolean())
}

fn item(alloc: Global, rng: &mut Generator, depth: usize) -> Result<Box<Field>, Error> {
    Ok(Box::new(alloc, field(alloc, rng, depth)?)?)
}

fn fields(alloc: Global, rng: &mut Generator, depth: usize) -> Result<Vec<Field>, Error> {
    let mut fields = Vec::new(alloc);
    for _ in 0..rng.between(1, 2) {
        fields.push(field(alloc, rng, depth)?)?;
    }
    Ok(fields)
}
