//! Arrays of unions.

use crate::layouts::lay;
use crate::layouts::parts::buffer;
use crate::numbers::Generator;
use crate::slot::Slot;
use crate::slots::{random_slot, random_slots};
use crate::types::kind_of_field;
use nest_array::{AnyArray, UnionArray};
use nest_memory::buffer::Buffer;
use nest_memory::datatypes::{DataType, Field};
use nest_memory::error::Error;
use std::alloc::Global;

/// The type of each slot.
fn kinds(
    alloc: Global,
    rng: &mut Generator,
    ids: &Option<Vec<i32>>,
    slots: &[Slot],
) -> Result<Buffer<i8>, Error> {
    let mut kinds = Vec::with_capacity(alloc, slots.len())?;
    for slot in slots {
        kinds.push(match slot {
            Slot::Pick(field, _) => kind_of_field(ids, *field).unwrap_or(-1),
            _ => -1,
        })?;
    }
    buffer(alloc, rng, kinds.as_slice(), -1)
}

pub fn sparse(
    alloc: Global,
    rng: &mut Generator,
    own: DataType,
    (fields, ids): (&[Field], &Option<Vec<i32>>),
    slots: &[Slot],
) -> Result<UnionArray, Error> {
    let mut children = Vec::with_capacity(alloc, fields.len())?;
    for (place, field) in fields.iter().enumerate() {
        children.push(sparse_child(alloc, rng, field.data_type(), place, slots)?)?;
    }
    let kinds = kinds(alloc, rng, ids, slots)?;
    UnionArray::try_new(own, kinds, children, None)
}

/// The slots of one field; others are where another field is picked, and after.
fn sparse_child(
    alloc: Global,
    rng: &mut Generator,
    data_type: &DataType,
    place: usize,
    slots: &[Slot],
) -> Result<AnyArray, Error> {
    let mut values = Vec::with_capacity(alloc, slots.len())?;
    for slot in slots {
        values.push(match slot {
            Slot::Pick(field, own) if *field == place => own.copied(alloc)?,
            _ => random_slot(alloc, rng, data_type)?,
        })?;
    }
    let tail = rng.below(3);
    values.extend(random_slots(alloc, rng, data_type, tail)?)?;
    lay(alloc, rng, data_type, values.as_slice())
}

pub fn dense(
    alloc: Global,
    rng: &mut Generator,
    own: DataType,
    (fields, ids): (&[Field], &Option<Vec<i32>>),
    slots: &[Slot],
) -> Result<UnionArray, Error> {
    let mut offsets = vec![in alloc; 0i32; slots.len()]?;
    let mut children = Vec::with_capacity(alloc, fields.len())?;
    for (place, field) in fields.iter().enumerate() {
        let child = dense_child(alloc, rng, field.data_type(), place, slots, &mut offsets)?;
        children.push(child)?;
    }
    let kinds = kinds(alloc, rng, ids, slots)?;
    let offsets = buffer(alloc, rng, offsets.as_slice(), -1)?;
    UnionArray::try_new(own, kinds, children, Some(offsets))
}

/// The slots of one field, among others that no slot picks; where each is is written to the offsets. Equal picks may
/// share one of them.
fn dense_child(
    alloc: Global,
    rng: &mut Generator,
    data_type: &DataType,
    place: usize,
    slots: &[Slot],
    offsets: &mut Vec<i32>,
) -> Result<AnyArray, Error> {
    let head = rng.below(3);
    let mut values = random_slots(alloc, rng, data_type, head)?;
    for (i, slot) in slots.iter().enumerate() {
        let Slot::Pick(field, own) = slot else {
            continue;
        };
        if *field != place {
            continue;
        }
        let known = values.iter().position(|value| *value == **own);
        offsets[i] = match known {
            Some(known) if rng.boolean() => known as i32,
            _ => {
                values.push(own.copied(alloc)?)?;
                values.len() as i32 - 1
            }
        };
        let unused = rng.below(2);
        values.extend(random_slots(alloc, rng, data_type, unused)?)?;
    }
    lay(alloc, rng, data_type, values.as_slice())
}
