//! Arrays of dictionaries.

use crate::layouts::lay;
use crate::layouts::parts::{buffer, validity};
use crate::numbers::Generator;
use crate::slot::Slot;
use crate::slots::{random_slots, random_some};
use crate::types::{logical, may_be_null};
use nest_array::{AnyKeys, DictionaryArray};
use nest_flat::primitive::PrimitiveArray;
use nest_memory::datatypes::{DataType, IntegerType};
use nest_memory::error::Error;
use nest_memory::types::NativeType;
use std::alloc::Global;

/// Keys as numbers, each valid or not.
#[derive(Drop)]
struct Keys {
    raw: Vec<i128>,
    valid: Vec<bool>,
}

/// The values that slots are looked up in: those of the slots, some of them more than once, and some that no key names.
fn values(
    alloc: Global,
    rng: &mut Generator,
    value: &DataType,
    slots: &[Slot],
) -> Result<Vec<Slot>, Error> {
    let extra = rng.below(3);
    let mut values = random_slots(alloc, rng, value, extra)?;
    for slot in slots {
        let wanted = may_be_null(value) || !slot.is_null();
        if wanted && !values.iter().any(|known| *known == *slot) {
            values.push(slot.copied(alloc)?)?;
        }
    }
    if !values.is_empty() {
        let twice = rng.below(3);
        let again = random_some(alloc, rng, values.as_slice(), twice)?;
        values.extend(again)?;
    }
    rng.shuffle(&mut values);
    Ok(values)
}

/// A key of the value that a slot is, at one of the indices where it is; `None` where it is at none.
fn key(rng: &mut Generator, values: &[Slot], slot: &Slot) -> Option<usize> {
    let start = rng.below(values.len());
    let turned = (0..values.len()).map(|k| (start + k) % values.len());
    let mut indices = turned.filter(|index| values[*index] == *slot);
    indices.next()
}

/// A key for each slot. A null is pushed by its key or by a null value.
fn keys(
    alloc: Global,
    rng: &mut Generator,
    values: &[Slot],
    slots: &[Slot],
) -> Result<Keys, Error> {
    let mut raw = Vec::with_capacity(alloc, slots.len())?;
    let mut valid = Vec::with_capacity(alloc, slots.len())?;
    let by_values = rng.boolean();
    for slot in slots {
        let index = match slot {
            Slot::Null if !by_values || rng.boolean() => None,
            _ => key(rng, values, slot),
        };
        valid.push(index.is_some())?;
        raw.push(index.unwrap_or(rng.below(values.len())) as i128)?;
    }
    Ok(Keys { raw, valid })
}

fn keys_of<K: NativeType + Drop>(
    alloc: Global,
    rng: &mut Generator,
    own: DataType,
    keys: &Keys,
    make: fn(i128) -> K,
) -> Result<PrimitiveArray<K>, Error> {
    let all_null = keys.valid.iter().all(|bit| !*bit);
    let mut values = Vec::with_capacity(alloc, keys.raw.len())?;
    for raw in keys.raw.iter() {
        // Where all keys are null none is viewed at.
        values.push(make(if all_null { 100 } else { *raw }))?;
    }
    let values = buffer(alloc, rng, values.as_slice(), make(127))?;
    let validity = validity(alloc, rng, keys.valid.as_slice())?;
    PrimitiveArray::try_new(own, values, validity)
}

fn any_keys(
    alloc: Global,
    rng: &mut Generator,
    key: IntegerType,
    keys: &Keys,
) -> Result<AnyKeys, Error> {
    let (a, d) = (alloc, rng);
    Ok(match key {
        IntegerType::Int8 => AnyKeys::Int8(keys_of(a, d, DataType::Int8, keys, |n| n as i8)?),
        IntegerType::Int16 => AnyKeys::Int16(keys_of(a, d, DataType::Int16, keys, |n| n as i16)?),
        IntegerType::Int32 => AnyKeys::Int32(keys_of(a, d, DataType::Int32, keys, |n| n as i32)?),
        IntegerType::Int64 => AnyKeys::Int64(keys_of(a, d, DataType::Int64, keys, |n| n as i64)?),
        IntegerType::UInt8 => AnyKeys::UInt8(keys_of(a, d, DataType::UInt8, keys, |n| n as u8)?),
        IntegerType::UInt16 => AnyKeys::UInt16(keys_of(
            a,
            d,
            DataType::UInt16,
            keys,
            |n| n as u16,
        )?),
        IntegerType::UInt32 => AnyKeys::UInt32(keys_of(
            a,
            d,
            DataType::UInt32,
            keys,
            |n| n as u32,
        )?),
        IntegerType::UInt64 => AnyKeys::UInt64(keys_of(
            a,
            d,
            DataType::UInt64,
            keys,
            |n| n as u64,
        )?),
    })
}

pub fn keyed(
    alloc: Global,
    rng: &mut Generator,
    own: DataType,
    (key, value): (IntegerType, &DataType),
    slots: &[Slot],
) -> Result<DictionaryArray, Error> {
    let values = values(alloc, rng, value, slots)?;
    let keys = keys(alloc, rng, values.as_slice(), slots)?;
    let keys = any_keys(alloc, rng, key, &keys)?;
    // Their type may have other extensions than the type of the dictionary says.
    let shown = if rng.one_in(4) { logical(value) } else { value };
    let values = lay(alloc, rng, shown, values.as_slice())?;
    DictionaryArray::try_new(alloc, own, keys, values)
}
