//! Slots that differ from others in one index, at any depth.

use crate::natives::{native_kind, random_numbers};
use crate::numbers::Generator;
use crate::slot::{Slot, copied_all};
use crate::slots::random_slot;
use crate::types::logical;
use nest_memory::datatypes::{DataType, Field};
use nest_memory::error::Error;
use std::alloc::Global;

/// The same slots, but one of them changed, if a type has more than one value: what comes may be the same.
pub fn perturbed_slots(
    alloc: Global,
    rng: &mut Generator,
    data_type: &DataType,
    slots: &[Slot],
) -> Result<Vec<Slot>, Error> {
    let mut changed = copied_all(alloc, slots)?;
    if !slots.is_empty() {
        let index = rng.below(slots.len());
        changed[index] = perturbed(alloc, rng, data_type, &slots[index])?;
    }
    Ok(changed)
}

/// The same slot but for a small change.
pub fn perturbed(
    alloc: Global,
    rng: &mut Generator,
    data_type: &DataType,
    slot: &Slot,
) -> Result<Slot, Error> {
    let own = logical(data_type);
    if rng.one_in(6) {
        return random_slot(alloc, rng, own);
    }
    Ok(match (slot, own) {
        (Slot::Truth(boolean), _) => Slot::Truth(!*boolean),
        (_, DataType::Dictionary(_, value, _)) => perturbed(alloc, rng, value, slot)?,
        (Slot::Number(numbers), _) => perturbed_number(rng, own, *numbers),
        (Slot::Bytes(bytes), _) if !bytes.is_empty() => {
            let mut bytes = Vec::from_slice(alloc, bytes.as_slice())?;
            let index = rng.below(bytes.len());
            bytes[index] ^= 1 << rng.below(8);
            Slot::Bytes(bytes)
        }
        (Slot::List(items), DataType::FixedSizeList(item, _)) => {
            Slot::List(perturbed_slots(alloc, rng, item.data_type(), items.as_slice())?)
        }
        (
            Slot::List(items),
            DataType::List(item) | DataType::LargeList(item) | DataType::Map(item, _),
        ) => Slot::List(perturbed_items(alloc, rng, item.data_type(), items.as_slice())?),
        (Slot::Record(values), DataType::Struct(fields)) => {
            perturbed_record(alloc, rng, fields.as_slice(), values.as_slice())?
        }
        (Slot::Pick(field, inner), DataType::Union(fields, _, _)) => {
            let inner = perturbed(alloc, rng, fields[*field].data_type(), inner)?;
            Slot::Pick(*field, Box::new(alloc, inner)?)
        }
        _ => random_slot(alloc, rng, own)?,
    })
}

/// A value that differs in one of its numbers.
fn perturbed_number(rng: &mut Generator, own: &DataType, numbers: [i128; 3]) -> Slot {
    let Some(kind) = native_kind(own) else {
        return Slot::Number(numbers);
    };
    let fresh = random_numbers(rng, kind);
    let part = rng.below(3);
    let mut changed = numbers;
    changed[part] = fresh[part];
    if changed == numbers {
        changed = fresh;
    }
    Slot::Number(changed)
}

/// Items, with one changed or the last one omitted.
fn perturbed_items(
    alloc: Global,
    rng: &mut Generator,
    item: &DataType,
    items: &[Slot],
) -> Result<Vec<Slot>, Error> {
    if !items.is_empty() && rng.one_in(4) {
        return Ok(copied_all(alloc, &items[..items.len() - 1])?);
    }
    perturbed_slots(alloc, rng, item, items)
}

fn perturbed_record(
    alloc: Global,
    rng: &mut Generator,
    fields: &[Field],
    values: &[Slot],
) -> Result<Slot, Error> {
    let mut changed = copied_all(alloc, values)?;
    let index = rng.below(fields.len());
    changed[index] = perturbed(alloc, rng, fields[index].data_type(), &values[index])?;
    Ok(Slot::Record(changed))
}
