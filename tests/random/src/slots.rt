//! Random slots, by their data type.

use crate::natives::{native_kind, random_numbers};
use crate::numbers::Generator;
use crate::slot::{Slot, chosen};
use crate::types::{kind_of_field, logical};
use nest_memory::datatypes::{DataType, Field};
use nest_memory::error::Error;
use std::alloc::Global;

/// How many values a dictionary's slots are random from: few, so that keys of 8 bits name them all.
const POOL: usize = 5;

/// So many slots of a type. What a dictionary of the same type holds is random from the same values in all of a case.
pub fn random_slots(
    alloc: Global,
    rng: &mut Generator,
    data_type: &DataType,
    n: usize,
) -> Result<Vec<Slot>, Error> {
    let nulls = [0, 0, 1, 1, 2, 5][rng.below(6)];
    match logical(data_type) {
        DataType::Dictionary(_, value, _) => {
            let pool = random_slots(alloc, &mut rng.again(), value, POOL)?;
            random_each(alloc, rng, n, nulls, |rng| {
                Ok(pool[rng.below(POOL)].copied(alloc)?)
            })
        }
        DataType::Null => random_each(alloc, rng, n, 0, |_| Ok(Slot::Null)),
        DataType::Union(fields, ids, _) => random_each(alloc, rng, n, 0, |rng| {
            random_union_value(alloc, rng, fields.as_slice(), ids)
        }),
        own => random_each(alloc, rng, n, nulls, |rng| random_value(alloc, rng, own)),
    }
}

/// So many slots, so many in five of them null.
fn random_each<F: FnMut(&mut Generator) -> Result<Slot, Error>>(
    alloc: Global,
    rng: &mut Generator,
    n: usize,
    nulls: usize,
    mut value: F,
) -> Result<Vec<Slot>, Error> {
    let mut slots = Vec::with_capacity(alloc, n)?;
    for _ in 0..n {
        let is_null = nulls > 0 && rng.below(5) < nulls;
        slots.push(if is_null { Slot::Null } else { value(rng)? })?;
    }
    Ok(slots)
}

fn random_union_value(
    alloc: Global,
    rng: &mut Generator,
    fields: &[Field],
    ids: &Option<Vec<i32>>,
) -> Result<Slot, Error> {
    let mut field = rng.below(fields.len());
    while kind_of_field(ids, field).is_none() {
        field = (field + 1) % fields.len();
    }
    let slot = random_slot(alloc, rng, fields[field].data_type())?;
    Ok(Slot::Pick(field, Box::new(alloc, slot)?))
}

/// One slot of a type.
pub fn random_slot(
    alloc: Global,
    rng: &mut Generator,
    data_type: &DataType,
) -> Result<Slot, Error> {
    let mut slots = random_slots(alloc, rng, data_type, 1)?;
    Ok(slots.pop().unwrap_or(Slot::Null))
}

/// A slot that is not null, of a type whose slots are values of their own.
fn random_value(alloc: Global, rng: &mut Generator, own: &DataType) -> Result<Slot, Error> {
    if let Some(kind) = native_kind(own) {
        return Ok(Slot::Number(random_numbers(rng, kind)));
    }
    Ok(match own {
        DataType::Boolean => Slot::Truth(rng.boolean()),
        DataType::Utf8 | DataType::LargeUtf8 => Slot::Text(random_string(alloc, rng)?),
        DataType::FixedSizeBinary(size) => Slot::Bytes(random_bytes(alloc, rng, *size)?),
        DataType::Binary | DataType::LargeBinary => {
            let size = rng.below(4);
            Slot::Bytes(random_bytes(alloc, rng, size)?)
        }
        DataType::List(item) | DataType::LargeList(item) | DataType::Map(item, _) => {
            let count = rng.below(4);
            Slot::List(random_slots(alloc, rng, item.data_type(), count)?)
        }
        DataType::FixedSizeList(item, size) => {
            Slot::List(random_slots(alloc, rng, item.data_type(), *size)?)
        }
        DataType::Struct(fields) => Slot::Record(random_record(alloc, rng, fields.as_slice())?),
        _ => Slot::Null,
    })
}

fn random_record(alloc: Global, rng: &mut Generator, fields: &[Field]) -> Result<Vec<Slot>, Error> {
    let mut values = Vec::with_capacity(alloc, fields.len())?;
    for field in fields {
        values.push(random_slot(alloc, rng, field.data_type())?)?;
    }
    Ok(values)
}

/// The bytes of a text, of characters of each width.
pub fn random_string(alloc: Global, rng: &mut Generator) -> Result<Vec<u8>, Error> {
    let mut text = Vec::new(alloc);
    for _ in 0..rng.below(4) {
        let piece = ["a", "b", "\0", "\u{e9}", "\u{65e5}", "\u{1f980}"][rng.below(6)];
        text.extend_from_slice(piece.as_bytes())?;
    }
    Ok(text)
}

pub fn random_bytes(alloc: Global, rng: &mut Generator, size: usize) -> Result<Vec<u8>, Error> {
    let mut bytes = Vec::with_capacity(alloc, size)?;
    for _ in 0..size {
        bytes.push(if rng.boolean() { rng.byte() } else { 0 })?;
    }
    Ok(bytes)
}

/// The slots at random indices, of which there must be one.
pub fn random_some(
    alloc: Global,
    rng: &mut Generator,
    slots: &[Slot],
    n: usize,
) -> Result<Vec<Slot>, Error> {
    let mut indices = Vec::with_capacity(alloc, n)?;
    for _ in 0..n {
        indices.push(rng.below(slots.len()))?;
    }
    Ok(chosen(alloc, slots, indices.as_slice())?)
}
