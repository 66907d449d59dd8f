//! Slots by the calls that return for one index: `is_null`, `value`, `get`, `index`, `key_value`.

use crate::natives::numbers_of;
use crate::read::slot_of_scalar;
use crate::slot::Slot;
use nest_array::{AnyArray, StructArray, UnionArray};
use nest_memory::error::Error;
use std::alloc::Global;

/// The slots of an array, each by itself.
pub fn slots_by_calls(alloc: Global, array: &AnyArray) -> Result<Vec<Slot>, Error> {
    let mut slots = Vec::with_capacity(alloc, array.len())?;
    for i in 0..array.len() {
        slots.push(slot_at(alloc, array, i)?)?;
    }
    Ok(slots)
}

/// Slot i of an array.
pub fn slot_at(alloc: Global, array: &AnyArray, i: usize) -> Result<Slot, Error> {
    if array.is_null(i) {
        return Ok(Slot::Null);
    }
    Ok(match array {
        AnyArray::Null(_) => Slot::Null,
        AnyArray::Boolean(a) => a.get(i).map_or(Slot::Null, |boolean| Slot::Truth(boolean)),
        AnyArray::Primitive(a) => Slot::Number(numbers_of(a.value(i))),
        AnyArray::Binary(a) => Slot::Bytes(Vec::from_slice(alloc, a.value(i))?),
        AnyArray::LargeBinary(a) => bytes_slot(alloc, a.get(i))?,
        AnyArray::Utf8(a) => Slot::Text(Vec::from_slice(alloc, a.value(i).as_bytes())?),
        AnyArray::LargeUtf8(a) => string_slot(alloc, a.get(i))?,
        AnyArray::FixedSizeBinary(a) => bytes_slot(alloc, a.get(i))?,
        AnyArray::FixedSizeList(a) => match a.get(alloc, i)? {
            Some(items) => list_slot(alloc, &items)?,
            None => Slot::Null,
        },
        AnyArray::List(a) => list_slot(alloc, &a.value(alloc, i)?)?,
        AnyArray::LargeList(a) => list_slot(alloc, &a.value(alloc, i)?)?,
        AnyArray::Map(a) => list_slot(alloc, &a.value(alloc, i)?)?,
        AnyArray::Struct(a) => record_slot(alloc, a, i)?,
        AnyArray::Union(a) => union_slot(alloc, a, i)?,
        AnyArray::Dictionary(a) => slot_of_scalar(alloc, &a.value(alloc, i)?)?,
    })
}

fn bytes_slot(alloc: Global, bytes: Option<&[u8]>) -> Result<Slot, Error> {
    Ok(match bytes {
        Some(bytes) => Slot::Bytes(Vec::from_slice(alloc, bytes)?),
        None => Slot::Null,
    })
}

fn string_slot(alloc: Global, text: Option<&str>) -> Result<Slot, Error> {
    Ok(match text {
        Some(text) => Slot::Text(Vec::from_slice(alloc, text.as_bytes())?),
        None => Slot::Null,
    })
}

fn list_slot(alloc: Global, items: &AnyArray) -> Result<Slot, Error> {
    Ok(Slot::List(slots_by_calls(alloc, items)?))
}

fn record_slot(alloc: Global, a: &StructArray, i: usize) -> Result<Slot, Error> {
    let mut values = Vec::with_capacity(alloc, a.values().len())?;
    for child in a.values() {
        values.push(slot_at(alloc, child, i)?)?;
    }
    Ok(Slot::Record(values))
}

fn union_slot(alloc: Global, a: &UnionArray, i: usize) -> Result<Slot, Error> {
    let (field, _) = a.index(i);
    let own = slot_of_scalar(alloc, &a.value(alloc, i)?)?;
    Ok(Slot::Pick(field, Box::new(alloc, own)?))
}
