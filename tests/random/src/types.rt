//! Data types, random over every kind.

use crate::numbers::Generator;
use nest_memory::datatypes::{DataType, Field, IntegerType, IntervalUnit, TimeUnit, UnionMode};
use nest_memory::error::Error;
use std::alloc::Global;

/// A data type whose kinds nest up to a depth.
pub fn random_type(alloc: Global, rng: &mut Generator, depth: usize) -> Result<DataType, Error> {
    if depth > 0 && !rng.one_in(3) {
        return random_nested(alloc, rng, depth - 1);
    }
    let own = random_flat(alloc, rng)?;
    if rng.one_in(12) {
        return extension(alloc, rng, own);
    }
    Ok(own)
}

fn random_flat(alloc: Global, rng: &mut Generator) -> Result<DataType, Error> {
    Ok(match rng.below(14) {
        0 => DataType::Null,
        1 => DataType::Boolean,
        2 => DataType::Binary,
        3 => DataType::LargeBinary,
        4 => DataType::Utf8,
        5 => DataType::LargeUtf8,
        6 => DataType::FixedSizeBinary(rng.between(1, 4)),
        7 => random_logical(alloc, rng)?,
        _ => random_native(rng),
    })
}

fn random_native(rng: &mut Generator) -> DataType {
    match rng.below(12) {
        0 => DataType::Int8,
        1 => DataType::Int16,
        2 => DataType::Int32,
        3 => DataType::Int64,
        4 => DataType::UInt8,
        5 => DataType::UInt16,
        6 => DataType::UInt32,
        7 => DataType::UInt64,
        8 => DataType::Decimal(rng.between(1, 38), rng.below(10)),
        9 => DataType::Decimal256(rng.between(1, 76), rng.below(10)),
        10 => DataType::Interval(IntervalUnit::DayTime),
        _ => DataType::Interval(IntervalUnit::MonthDayNano),
    }
}

fn random_logical(alloc: Global, rng: &mut Generator) -> Result<DataType, Error> {
    let unit = [
        TimeUnit::Second,
        TimeUnit::Millisecond,
        TimeUnit::Microsecond,
        TimeUnit::Nanosecond,
    ][rng.below(4)];
    Ok(match rng.below(8) {
        0 => DataType::Date32,
        1 => DataType::Date64,
        2 => DataType::Time32(unit),
        3 => DataType::Time64(unit),
        4 => DataType::Duration(unit),
        5 => DataType::Interval(IntervalUnit::YearMonth),
        6 => DataType::Timestamp(unit, None),
        _ => DataType::Timestamp(unit, Some(String::from_str(alloc, "+01:00")?)),
    })
}

fn random_nested(alloc: Global, rng: &mut Generator, depth: usize) -> Result<DataType, Error> {
    Ok(match rng.below(10) {
        0 => DataType::List(random_item(alloc, rng, depth)?),
        1 => DataType::LargeList(random_item(alloc, rng, depth)?),
        2 => {
            let size = rng.between(1, 3);
            DataType::FixedSizeList(random_item(alloc, rng, depth)?, size)
        }
        3 | 4 => {
            let count = rng.between(1, 3);
            DataType::Struct(random_fields(alloc, rng, depth, count)?)
        }
        5 => random_map(alloc, rng, depth)?,
        6 | 7 => random_union(alloc, rng, depth)?,
        8 => {
            let value = random_type(alloc, rng, depth)?;
            DataType::Dictionary(random_key_type(rng), Box::new(alloc, value)?, rng.boolean())
        }
        _ => {
            let inner = random_type(alloc, rng, depth)?;
            extension(alloc, rng, inner)?
        }
    })
}

/// One of the eight types of keys.
pub fn random_key_type(rng: &mut Generator) -> IntegerType {
    [
        IntegerType::Int8,
        IntegerType::Int16,
        IntegerType::Int32,
        IntegerType::Int64,
        IntegerType::UInt8,
        IntegerType::UInt16,
        IntegerType::UInt32,
        IntegerType::UInt64,
    ][rng.below(8)]
}

fn extension(alloc: Global, rng: &mut Generator, inner: DataType) -> Result<DataType, Error> {
    let metadata = if rng.boolean() {
        Some(String::from_str(alloc, "of a test")?)
    } else {
        None
    };
    let name = String::from_str(alloc, ["odd", "even"][rng.below(2)])?;
    Ok(DataType::Extension(name, Box::new(alloc, inner)?, metadata))
}

fn random_field(alloc: Global, rng: &mut Generator, depth: usize) -> Result<Field, Error> {
    let name = ["a", "b", "item", ""][rng.below(4)];
    let data_type = random_type(alloc, rng, depth)?;
    Field::new(alloc, name, data_type, rng.boolean())
}

fn random_item(alloc: Global, rng: &mut Generator, depth: usize) -> Result<Box<Field>, Error> {
    Ok(Box::new(alloc, random_field(alloc, rng, depth)?)?)
}

fn random_fields(
    alloc: Global,
    rng: &mut Generator,
    depth: usize,
    count: usize,
) -> Result<Vec<Field>, Error> {
    let mut fields = Vec::with_capacity(alloc, count)?;
    for _ in 0..count {
        fields.push(random_field(alloc, rng, depth)?)?;
    }
    Ok(fields)
}

fn random_map(alloc: Global, rng: &mut Generator, depth: usize) -> Result<DataType, Error> {
    let pair = DataType::Struct(random_fields(alloc, rng, depth.saturating_sub(1), 2)?);
    let entries = Field::new(alloc, "entries", pair, false)?;
    Ok(DataType::Map(Box::new(alloc, entries)?, rng.boolean()))
}

fn random_union(alloc: Global, rng: &mut Generator, depth: usize) -> Result<DataType, Error> {
    let count = rng.between(1, 3);
    let fields = random_fields(alloc, rng, depth, count)?;
    let ids = if rng.boolean() {
        Some(random_ids(alloc, rng, count)?)
    } else {
        None
    };
    let mode = if rng.boolean() {
        UnionMode::Dense
    } else {
        UnionMode::Sparse
    };
    Ok(DataType::Union(fields, ids, mode))
}

/// Ids of fields: the positions in another order, or any, of which two may be one.
fn random_ids(alloc: Global, rng: &mut Generator, count: usize) -> Result<Vec<i32>, Error> {
    let mut ids = Vec::with_capacity(alloc, count)?;
    let shift = rng.below(3) as i32;
    let any = rng.boolean();
    for index in 0..count {
        let id = if any {
            [0, 5, 127][rng.below(3)]
        } else {
            index as i32 + shift
        };
        ids.push(id)?;
    }
    rng.shuffle(&mut ids);
    Ok(ids)
}

/// The type without its outer extensions.
pub fn logical(data_type: &DataType) -> &DataType {
    match data_type {
        DataType::Extension(_, inner, _) => logical(inner),
        _ => data_type,
    }
}

/// Whether a slot of the type may be null. A union's slot is a pick, also of a null.
pub fn may_be_null(data_type: &DataType) -> bool {
    match logical(data_type) {
        DataType::Union(_, _, _) => false,
        _ => true,
    }
}

/// The position of the field that a type of a union means: the last one whose id it is, without ids its own.
pub fn meant_field(ids: &Option<Vec<i32>>, kind: i8) -> Option<usize> {
    match ids {
        None => usize::try_from(kind).ok(),
        Some(ids) => ids.iter().rposition(|id| *id == i32::from(kind)),
    }
}

/// The type by which a slot picks a field, `None` where a later field has the same id.
pub fn kind_of_field(ids: &Option<Vec<i32>>, field: usize) -> Option<i8> {
    let kind = match ids {
        None => field as i8,
        Some(ids) => ids[field] as i8,
    };
    if meant_field(ids, kind) == Some(field) {
        Some(kind)
    } else {
        None
    }
}
