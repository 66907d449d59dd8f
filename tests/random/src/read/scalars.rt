//! The slot that a scalar holds.

use crate::natives::numbers_of;
use crate::read::slots_of;
use crate::slot::Slot;
use nest_array::{AnyScalar, ScalarValue};
use nest_memory::error::Error;
use std::alloc::Global;

/// The slot of a scalar.
pub fn slot_of_scalar(alloc: Global, scalar: &AnyScalar) -> Result<Slot, Error> {
    Ok(match scalar.value() {
        ScalarValue::Null => Slot::Null,
        ScalarValue::Boolean(boolean) => Slot::Truth(*boolean),
        ScalarValue::Native(value) => Slot::Number(numbers_of(*value)),
        ScalarValue::Text(text) => Slot::Text(Vec::from_slice(alloc, text.as_bytes())?),
        ScalarValue::Bytes(bytes) => Slot::Bytes(Vec::from_slice(alloc, bytes.as_slice())?),
        ScalarValue::List(items) => Slot::List(slots_of(alloc, items)?),
        ScalarValue::Struct(scalars) => record_of(alloc, scalars.as_slice())?,
        ScalarValue::Pick(field, own) => {
            Slot::Pick(*field, Box::new(alloc, slot_of_scalar(alloc, own)?)?)
        }
    })
}

fn record_of(alloc: Global, scalars: &[AnyScalar]) -> Result<Slot, Error> {
    let mut values = Vec::with_capacity(alloc, scalars.len())?;
    for scalar in scalars {
        values.push(slot_of_scalar(alloc, scalar)?)?;
    }
    Ok(Slot::Record(values))
}
