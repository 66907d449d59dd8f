//! Invalid parts of arrays without children.

use crate::refusals::{
    Trial, copied, invalid_offsets, other_layout, other_length, shortened, spec, trial,
};
use nest_array::FixedSizeBinaryArray;
use nest_flat::any_primitive::AnyPrimitive;
use nest_flat::binary::BinaryArray;
use nest_flat::boolean::BooleanArray;
use nest_flat::primitive::PrimitiveArray;
use nest_flat::utf8::Utf8Array;
use nest_memory::buffer::Buffer;
use nest_memory::datatypes::DataType;
use nest_memory::error::{Error, SpecError};
use nest_memory::offset::Offset;
use nest_memory::offsets::OffsetsBuffer;
use nest_memory::types::NativeType;
use random::numbers::Generator;
use std::alloc::Global;

pub fn booleans(alloc: Global, rng: &mut Generator, a: &BooleanArray) -> Result<Trial, Error> {
    let mut own = a.data_type().clone(alloc)?;
    let mut validity = copied(a.validity())?;
    let expected = match rng.below(3) {
        0 => None,
        1 => {
            own = other_layout(alloc, rng, a.data_type())?;
            spec(SpecError::WrongType)
        }
        _ => {
            validity = other_length(alloc, rng, a.len())?;
            spec(SpecError::ValidityLength)
        }
    };
    let answer = BooleanArray::try_new(own, a.values().clone()?, validity);
    Ok(trial(answer, expected))
}

fn primitive<T: NativeType + Drop>(
    alloc: Global,
    rng: &mut Generator,
    a: &PrimitiveArray<T>,
) -> Result<Trial, Error> {
    let mut own = a.data_type().clone(alloc)?;
    let mut validity = copied(a.validity())?;
    let expected = match rng.below(3) {
        0 => None,
        1 => {
            own = other_layout(alloc, rng, a.data_type())?;
            spec(SpecError::WrongType)
        }
        _ => {
            validity = other_length(alloc, rng, a.len())?;
            spec(SpecError::ValidityLength)
        }
    };
    let answer = PrimitiveArray::try_new(own, a.values().clone()?, validity);
    Ok(trial(answer, expected))
}

pub fn natives(alloc: Global, rng: &mut Generator, a: &AnyPrimitive) -> Result<Trial, Error> {
    match a {
        AnyPrimitive::Int8(a) => primitive(alloc, rng, a),
        AnyPrimitive::Int16(a) => primitive(alloc, rng, a),
        AnyPrimitive::Int32(a) => primitive(alloc, rng, a),
        AnyPrimitive::Int64(a) => primitive(alloc, rng, a),
        AnyPrimitive::Int128(a) => primitive(alloc, rng, a),
        AnyPrimitive::Int256(a) => primitive(alloc, rng, a),
        AnyPrimitive::UInt8(a) => primitive(alloc, rng, a),
        AnyPrimitive::UInt16(a) => primitive(alloc, rng, a),
        AnyPrimitive::UInt32(a) => primitive(alloc, rng, a),
        AnyPrimitive::UInt64(a) => primitive(alloc, rng, a),
        AnyPrimitive::DaysMs(a) => primitive(alloc, rng, a),
        AnyPrimitive::MonthDayNano(a) => primitive(alloc, rng, a),
    }
}

pub fn bytes<O: Offset + From<i8> + Drop>(
    alloc: Global,
    rng: &mut Generator,
    a: &BinaryArray<O>,
) -> Result<Trial, Error> {
    let mut own = a.data_type().clone(alloc)?;
    let mut validity = copied(a.validity())?;
    let mut values = a.values().clone()?;
    let last = a.offsets().last();
    let expected = match rng.below(5) {
        0 => return invalid_offsets(alloc, rng, a.offsets()),
        1 => {
            own = other_layout(alloc, rng, a.data_type())?;
            spec(SpecError::WrongType)
        }
        2 => {
            validity = other_length(alloc, rng, a.len())?;
            spec(SpecError::ValidityLength)
        }
        3 if last > 0 => {
            values = shortened(a.values(), last - 1)?;
            spec(SpecError::OffsetPastChild)
        }
        _ => None,
    };
    let answer = BinaryArray::try_new(own, a.offsets().clone()?, values, validity);
    Ok(trial(answer, expected))
}

/// The same bytes but one, which is no UTF-8.
fn without_string(
    alloc: Global,
    rng: &mut Generator,
    values: &Buffer<u8>,
    first: usize,
    last: usize,
) -> Result<Buffer<u8>, Error> {
    let mut bytes = Vec::from_slice(alloc, values.as_slice())?;
    bytes[rng.between(first, last - 1)] = 0xff;
    Buffer::from_vec(alloc, bytes)
}

/// Offsets of which one is inside a character, where there is one to lie in.
fn inside_a_character<O: Offset + Drop>(
    alloc: Global,
    a: &Utf8Array<O>,
) -> Result<Option<OffsetsBuffer<O>>, Error> {
    let (places, bytes) = (a.offsets().as_slice(), a.values().as_slice());
    let mut inner = (1..places.len() - 1).filter(|i| {
        let next = places[*i].to_usize() + 1;
        next < places[*i + 1].to_usize() && bytes[next] & 0xc0 == 0x80
    });
    let Some(i) = inner.next() else {
        return Ok(None);
    };
    let mut moved = Vec::from_slice(alloc, places)?;
    moved[i] = O::from_usize(places[i].to_usize() + 1).ok_or(Error::Overflow)?;
    Ok(Some(OffsetsBuffer::try_new(alloc, moved)?))
}

pub fn texts<O: Offset + From<i8> + Drop>(
    alloc: Global,
    rng: &mut Generator,
    a: &Utf8Array<O>,
) -> Result<Trial, Error> {
    let mut own = a.data_type().clone(alloc)?;
    let mut validity = copied(a.validity())?;
    let mut values = a.values().clone()?;
    let mut offsets = a.offsets().clone()?;
    let (first, last) = (offsets.first(), offsets.last());
    let expected = match rng.below(7) {
        0 => return invalid_offsets(alloc, rng, a.offsets()),
        1 => {
            own = other_layout(alloc, rng, a.data_type())?;
            spec(SpecError::WrongType)
        }
        2 => {
            validity = other_length(alloc, rng, a.len())?;
            spec(SpecError::ValidityLength)
        }
        3 if last > 0 => {
            values = shortened(a.values(), last - 1)?;
            spec(SpecError::OffsetPastChild)
        }
        4 if last > first => {
            values = without_string(alloc, rng, a.values(), first, last)?;
            spec(SpecError::Utf8)
        }
        5 => match inside_a_character(alloc, a)? {
            Some(moved) => {
                offsets = moved;
                spec(SpecError::Utf8)
            }
            None => None,
        },
        _ => None,
    };
    let answer = Utf8Array::try_new(own, offsets, values, validity);
    Ok(trial(answer, expected))
}

pub fn codes(alloc: Global, rng: &mut Generator, a: &FixedSizeBinaryArray) -> Result<Trial, Error> {
    let mut own = a.data_type().clone(alloc)?;
    let mut validity = copied(a.validity())?;
    let mut values = a.values().clone()?;
    let expected = match rng.below(5) {
        0 => {
            own = DataType::FixedSizeBinary(0);
            spec(SpecError::ZeroSize)
        }
        1 => {
            own = other_layout(alloc, rng, a.data_type())?;
            spec(SpecError::WrongType)
        }
        2 => {
            validity = other_length(alloc, rng, a.len())?;
            spec(SpecError::ValidityLength)
        }
        3 if a.size() > 1 && values.len() > 0 => {
            values = shortened(a.values(), a.values().len() - 1)?;
            spec(SpecError::NotMultiple)
        }
        _ => None,
    };
    Ok(trial(
        FixedSizeBinaryArray::try_new(own, values, validity),
        expected,
    ))
}
