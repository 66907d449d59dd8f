//! Arrays without children.

use crate::layouts::parts::{bits, buffer, offsets, validity_of};
use crate::natives::{days_ms_of, i256_of, months_days_ns_of, random_numbers};
use crate::numbers::Generator;
use crate::slot::Slot;
use crate::slots::{random_bytes, random_string};
use nest_array::{AnyArray, FixedSizeBinaryArray};
use nest_flat::any_primitive::AnyPrimitive;
use nest_flat::binary::BinaryArray;
use nest_flat::boolean::BooleanArray;
use nest_flat::primitive::PrimitiveArray;
use nest_flat::utf8::Utf8Array;
use nest_memory::buffer::Buffer;
use nest_memory::datatypes::{DataType, PrimitiveType};
use nest_memory::error::Error;
use nest_memory::offset::Offset;
use nest_memory::offsets::OffsetsBuffer;
use nest_memory::types::NativeType;
use std::alloc::Global;

pub fn booleans(
    alloc: Global,
    rng: &mut Generator,
    own: DataType,
    slots: &[Slot],
) -> Result<BooleanArray, Error> {
    let mut values = Vec::with_capacity(alloc, slots.len())?;
    for slot in slots {
        values.push(match slot {
            Slot::Truth(boolean) => *boolean,
            _ => rng.boolean(),
        })?;
    }
    let values = bits(alloc, rng, values.as_slice())?;
    BooleanArray::try_new(own, values, validity_of(alloc, rng, slots)?)
}

/// Native values of a type, each made of its numbers.
fn primitive<T: NativeType + Drop>(
    alloc: Global,
    rng: &mut Generator,
    own: DataType,
    slots: &[Slot],
    make: fn([i128; 3]) -> T,
) -> Result<PrimitiveArray<T>, Error> {
    let mut values = Vec::with_capacity(alloc, slots.len())?;
    for slot in slots {
        values.push(match slot {
            Slot::Number(numbers) => make(*numbers),
            _ => make(random_numbers(rng, T::PRIMITIVE)),
        })?;
    }
    let other = make(random_numbers(rng, T::PRIMITIVE));
    let values = buffer(alloc, rng, values.as_slice(), other)?;
    PrimitiveArray::try_new(own, values, validity_of(alloc, rng, slots)?)
}

pub fn natives(
    alloc: Global,
    rng: &mut Generator,
    kind: PrimitiveType,
    own: DataType,
    slots: &[Slot],
) -> Result<AnyArray, Error> {
    let (a, d) = (alloc, rng);
    Ok(AnyArray::Primitive(match kind {
        PrimitiveType::Int8 => AnyPrimitive::Int8(primitive(a, d, own, slots, |n| n[0] as i8)?),
        PrimitiveType::Int16 => AnyPrimitive::Int16(primitive(a, d, own, slots, |n| n[0] as i16)?),
        PrimitiveType::Int32 => AnyPrimitive::Int32(primitive(a, d, own, slots, |n| n[0] as i32)?),
        PrimitiveType::Int64 => AnyPrimitive::Int64(primitive(a, d, own, slots, |n| n[0] as i64)?),
        PrimitiveType::UInt8 => AnyPrimitive::UInt8(primitive(a, d, own, slots, |n| n[0] as u8)?),
        PrimitiveType::UInt16 => AnyPrimitive::UInt16(primitive(
            a,
            d,
            own,
            slots,
            |n| n[0] as u16,
        )?),
        PrimitiveType::UInt32 => AnyPrimitive::UInt32(primitive(
            a,
            d,
            own,
            slots,
            |n| n[0] as u32,
        )?),
        PrimitiveType::UInt64 => AnyPrimitive::UInt64(primitive(
            a,
            d,
            own,
            slots,
            |n| n[0] as u64,
        )?),
        PrimitiveType::Int128 => AnyPrimitive::Int128(primitive(a, d, own, slots, |n| n[0])?),
        PrimitiveType::Int256 => AnyPrimitive::Int256(primitive(a, d, own, slots, i256_of)?),
        PrimitiveType::DaysMs => AnyPrimitive::DaysMs(primitive(a, d, own, slots, days_ms_of)?),
        PrimitiveType::MonthDayNano => {
            AnyPrimitive::MonthDayNano(primitive(a, d, own, slots, months_days_ns_of)?)
        }
        PrimitiveType::Float16 | PrimitiveType::Float32 | PrimitiveType::Float64 => {
            return Err(Error::NotYetImplemented);
        }
    }))
}

/// Bytes one after another and where each slot's begin; other bytes are before, after and under nulls.
fn spans<O: Offset + Drop>(
    alloc: Global,
    rng: &mut Generator,
    slots: &[Slot],
) -> Result<(OffsetsBuffer<O>, Buffer<u8>), Error> {
    let head = rng.below(3);
    let mut bytes = random_bytes(alloc, rng, head)?;
    let mut indices = Vec::with_capacity(alloc, slots.len() + 1)?;
    indices.push(bytes.len())?;
    for slot in slots {
        match slot {
            Slot::Text(own) | Slot::Bytes(own) => bytes.extend_from_slice(own.as_slice())?,
            _ => bytes.extend_from_slice(random_string(alloc, rng)?.as_slice())?,
        }
        indices.push(bytes.len())?;
    }
    let tail = rng.below(3);
    bytes.extend_from_slice(random_bytes(alloc, rng, tail)?.as_slice())?;
    let offsets = offsets(alloc, rng, indices.as_slice())?;
    Ok((offsets, buffer(alloc, rng, bytes.as_slice(), 0xff)?))
}

pub fn bytes<O: Offset + Drop>(
    alloc: Global,
    rng: &mut Generator,
    own: DataType,
    slots: &[Slot],
) -> Result<BinaryArray<O>, Error> {
    let (offsets, values) = spans(alloc, rng, slots)?;
    BinaryArray::try_new(own, offsets, values, validity_of(alloc, rng, slots)?)
}

pub fn texts<O: Offset + Drop>(
    alloc: Global,
    rng: &mut Generator,
    own: DataType,
    slots: &[Slot],
) -> Result<Utf8Array<O>, Error> {
    let (offsets, values) = spans(alloc, rng, slots)?;
    Utf8Array::try_new(own, offsets, values, validity_of(alloc, rng, slots)?)
}

pub fn codes(
    alloc: Global,
    rng: &mut Generator,
    own: DataType,
    size: usize,
    slots: &[Slot],
) -> Result<FixedSizeBinaryArray, Error> {
    let mut bytes = Vec::with_capacity(alloc, slots.len() * size)?;
    for slot in slots {
        match slot {
            Slot::Bytes(own) => bytes.extend_from_slice(own.as_slice())?,
            _ => bytes.extend_from_slice(random_bytes(alloc, rng, size)?.as_slice())?,
        }
    }
    let values = buffer(alloc, rng, bytes.as_slice(), 0xff)?;
    FixedSizeBinaryArray::try_new(own, values, validity_of(alloc, rng, slots)?)
}
