//! Arrays of lists and of maps.

use crate::layouts::lay;
use crate::layouts::parts::{offsets, validity_of};
use crate::numbers::Generator;
use crate::slot::{Slot, copied_all};
use crate::slots::random_slots;
use nest_array::{AnyArray, FixedSizeListArray, LargeListArray, ListArray, MapArray};
use nest_memory::datatypes::DataType;
use nest_memory::error::Error;
use std::alloc::Global;

/// The items of rows one after another, and where each row begins; other items are before, after and under nulls.
fn rows(
    alloc: Global,
    rng: &mut Generator,
    item: &DataType,
    slots: &[Slot],
) -> Result<(Vec<usize>, AnyArray), Error> {
    let head = rng.below(3);
    let mut items = random_slots(alloc, rng, item, head)?;
    let mut indices = Vec::with_capacity(alloc, slots.len() + 1)?;
    indices.push(items.len())?;
    for slot in slots {
        let row = match slot {
            Slot::List(own) => copied_all(alloc, own.as_slice())?,
            _ => {
                let hidden = rng.below(3);
                random_slots(alloc, rng, item, hidden)?
            }
        };
        items.extend(row)?;
        indices.push(items.len())?;
    }
    let tail = rng.below(3);
    items.extend(random_slots(alloc, rng, item, tail)?)?;
    Ok((indices, lay(alloc, rng, item, items.as_slice())?))
}

pub fn lists(
    alloc: Global,
    rng: &mut Generator,
    own: DataType,
    item: &DataType,
    slots: &[Slot],
) -> Result<ListArray, Error> {
    let (indices, items) = rows(alloc, rng, item, slots)?;
    let offsets = offsets(alloc, rng, indices.as_slice())?;
    let validity = validity_of(alloc, rng, slots)?;
    ListArray::try_new(alloc, own, offsets, items, validity)
}

pub fn large_lists(
    alloc: Global,
    rng: &mut Generator,
    own: DataType,
    item: &DataType,
    slots: &[Slot],
) -> Result<LargeListArray, Error> {
    let (indices, items) = rows(alloc, rng, item, slots)?;
    let offsets = offsets(alloc, rng, indices.as_slice())?;
    let validity = validity_of(alloc, rng, slots)?;
    LargeListArray::try_new(alloc, own, offsets, items, validity)
}

pub fn maps(
    alloc: Global,
    rng: &mut Generator,
    own: DataType,
    entry: &DataType,
    slots: &[Slot],
) -> Result<MapArray, Error> {
    let (indices, entries) = rows(alloc, rng, entry, slots)?;
    let offsets = offsets(alloc, rng, indices.as_slice())?;
    let validity = validity_of(alloc, rng, slots)?;
    MapArray::try_new(alloc, own, offsets, entries, validity)
}

pub fn sized_lists(
    alloc: Global,
    rng: &mut Generator,
    own: DataType,
    item: &DataType,
    size: usize,
    slots: &[Slot],
) -> Result<FixedSizeListArray, Error> {
    let mut items = Vec::with_capacity(alloc, slots.len() * size)?;
    for slot in slots {
        items.extend(match slot {
            Slot::List(own) => copied_all(alloc, own.as_slice())?,
            _ => random_slots(alloc, rng, item, size)?,
        })?;
    }
    let items = lay(alloc, rng, item, items.as_slice())?;
    let validity = validity_of(alloc, rng, slots)?;
    FixedSizeListArray::try_new(alloc, own, items, validity)
}
