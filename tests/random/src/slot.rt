//! What one index of an array represents, as plain values: the model that arrays are held against.

use std::alloc::{AllocError, Global};

/// The value at one index.
#[derive(Debug, PartialEq, Eq, Drop)]
pub enum Slot {
    Null,
    Truth(bool),
    /// A native value by its integers, the high half or the longest unit first; a half of 128 bits as its two words.
    Number([i128; 3]),
    /// The bytes of a text.
    Text(Vec<u8>),
    Bytes(Vec<u8>),
    List(Vec<Slot>),
    Record(Vec<Slot>),
    /// Of a union the position of a field, and the slot there.
    Pick(usize, Box<Slot>),
}

impl Slot {
    /// A native value of one number.
    pub fn number(value: i128) -> Slot {
        Slot::Number([value, 0, 0])
    }

    /// The same slot on memory of its own.
    pub fn copied(&self, alloc: Global) -> Result<Slot, AllocError> {
        Ok(match self {
            Slot::Null => Slot::Null,
            Slot::Truth(boolean) => Slot::Truth(*boolean),
            Slot::Number(parts) => Slot::Number(*parts),
            Slot::Text(bytes) => Slot::Text(Vec::from_slice(alloc, bytes.as_slice())?),
            Slot::Bytes(bytes) => Slot::Bytes(Vec::from_slice(alloc, bytes.as_slice())?),
            Slot::List(items) => Slot::List(copied_all(alloc, items.as_slice())?),
            Slot::Record(values) => Slot::Record(copied_all(alloc, values.as_slice())?),
            Slot::Pick(field, slot) => Slot::Pick(*field, Box::new(alloc, slot.copied(alloc)?)?),
        })
    }

    /// How many comparisons it is worth: one, and those of the slots that it holds.
    pub fn node_count(&self) -> usize {
        1 + match self {
            Slot::List(slots) | Slot::Record(slots) => node_counts(slots.as_slice()),
            Slot::Pick(_, slot) => slot.node_count(),
            _ => 0,
        }
    }

    pub fn is_null(&self) -> bool {
        *self == Slot::Null
    }
}

/// The same slots on memory of their own.
pub fn copied_all(alloc: Global, slots: &[Slot]) -> Result<Vec<Slot>, AllocError> {
    let mut copies = Vec::with_capacity(alloc, slots.len())?;
    for slot in slots {
        copies.push(slot.copied(alloc)?)?;
    }
    Ok(copies)
}

/// How many comparisons slots are worth.
pub fn node_counts(slots: &[Slot]) -> usize {
    slots.iter().map(|slot| slot.node_count()).sum()
}

/// The slots at indices, in the order of the indices.
pub fn chosen(alloc: Global, slots: &[Slot], indices: &[usize]) -> Result<Vec<Slot>, AllocError> {
    let mut taken = Vec::with_capacity(alloc, indices.len())?;
    for index in indices {
        taken.push(slots[*index].copied(alloc)?)?;
    }
    Ok(taken)
}

/// The indices, rising, where a mask is true.
pub fn true_indices(alloc: Global, mask: &[Slot]) -> Result<Vec<usize>, AllocError> {
    let mut indices = Vec::new(alloc);
    for (index, slot) in mask.iter().enumerate() {
        if *slot == Slot::Truth(true) {
            indices.push(index)?;
        }
    }
    Ok(indices)
}
