//! Invalid parts of dictionaries.

use crate::refusals::{Trial, other_layout, other_type, spec, trial};
use nest_array::{AnyKeys, DictionaryArray, DictionaryKey, new_null_array};
use nest_flat::primitive::PrimitiveArray;
use nest_memory::datatypes::DataType;
use nest_memory::error::{Error, SpecError};
use random::numbers::Generator;
use random::types::{logical, random_key_type};
use std::alloc::Global;

/// The same keys, on shared memory.
fn copied(alloc: Global, keys: &AnyKeys) -> Result<AnyKeys, Error> {
    Ok(match keys {
        AnyKeys::Int8(keys) => AnyKeys::Int8(keys.clone(alloc)?),
        AnyKeys::Int16(keys) => AnyKeys::Int16(keys.clone(alloc)?),
        AnyKeys::Int32(keys) => AnyKeys::Int32(keys.clone(alloc)?),
        AnyKeys::Int64(keys) => AnyKeys::Int64(keys.clone(alloc)?),
        AnyKeys::UInt8(keys) => AnyKeys::UInt8(keys.clone(alloc)?),
        AnyKeys::UInt16(keys) => AnyKeys::UInt16(keys.clone(alloc)?),
        AnyKeys::UInt32(keys) => AnyKeys::UInt32(keys.clone(alloc)?),
        AnyKeys::UInt64(keys) => AnyKeys::UInt64(keys.clone(alloc)?),
    })
}

/// The greatest raw key, one more than which is a number of values that they all name; none where none is viewed at.
fn greatest(a: &DictionaryArray) -> Option<usize> {
    if a.null_count() == a.len() {
        return None;
    }
    (0..a.len()).filter_map(|i| a.keys().index(i)).max()
}

pub fn keyed(alloc: Global, rng: &mut Generator, a: &DictionaryArray) -> Result<Trial, Error> {
    let DataType::Dictionary(key, value, ordered) = logical(a.data_type()) else {
        return Ok(trial(Ok(()), None));
    };
    let mut own = a.data_type().clone(alloc)?;
    let mut values = a.values().clone(alloc)?;
    let expected = match rng.below(5) {
        0 => {
            own = other_layout(alloc, rng, a.data_type())?;
            spec(SpecError::WrongType)
        }
        1 => {
            let other = random_key_type(rng);
            own = DataType::Dictionary(other, Box::new(alloc, (**value).clone(alloc)?)?, *ordered);
            if other == *key {
                None
            } else {
                spec(SpecError::KeyType)
            }
        }
        2 => {
            let other = other_type(alloc, rng, value)?;
            values = new_null_array(alloc, other, a.values().len())?;
            spec(SpecError::ChildType)
        }
        3 => match greatest(a) {
            Some(place) => {
                values.slice(0, place);
                spec(SpecError::KeyRange)
            }
            None => {
                values.slice(0, 0);
                None
            }
        },
        _ => return negative_key(alloc, a),
    };
    let answer = DictionaryArray::try_new(alloc, own, copied(alloc, a.keys())?, values);
    Ok(trial(answer, expected))
}

/// Keys; the last one is valid and negative.
fn negative_key(alloc: Global, a: &DictionaryArray) -> Result<Trial, Error> {
    let AnyKeys::Int8(keys) = a.keys() else {
        return Ok(trial(Ok(()), None));
    };
    let mut raw = Vec::from_slice(alloc, keys.values().as_slice())?;
    raw.push(-1)?;
    let keys = PrimitiveArray::<i8>::try_new(
        DataType::Int8,
        nest_memory::buffer::Buffer::from_vec(alloc, raw)?,
        None,
    )?;
    let values = a.values().clone(alloc)?;
    let answer = DictionaryArray::try_new(
        alloc,
        a.data_type().clone(alloc)?,
        i8::wrap(keys),
        values,
    );
    Ok(trial(answer, spec(SpecError::KeyRange)))
}
