//! Arrays of records.

use crate::layouts::lay;
use crate::layouts::parts::validity_of;
use crate::numbers::Generator;
use crate::slot::Slot;
use crate::slots::random_slot;
use nest_array::{AnyArray, StructArray};
use nest_memory::datatypes::{DataType, Field};
use nest_memory::error::Error;
use std::alloc::Global;

/// The values of one field; others are under null records.
fn column(
    alloc: Global,
    rng: &mut Generator,
    data_type: &DataType,
    field: usize,
    slots: &[Slot],
) -> Result<AnyArray, Error> {
    let mut values = Vec::with_capacity(alloc, slots.len())?;
    for slot in slots {
        values.push(match slot {
            Slot::Record(own) => own[field].copied(alloc)?,
            _ => random_slot(alloc, rng, data_type)?,
        })?;
    }
    lay(alloc, rng, data_type, values.as_slice())
}

pub fn records(
    alloc: Global,
    rng: &mut Generator,
    own: DataType,
    fields: &[Field],
    slots: &[Slot],
) -> Result<StructArray, Error> {
    let mut children = Vec::with_capacity(alloc, fields.len())?;
    for (index, field) in fields.iter().enumerate() {
        children.push(column(alloc, rng, field.data_type(), index, slots)?)?;
    }
    let validity = validity_of(alloc, rng, slots)?;
    StructArray::try_new(own, children, validity)
}
