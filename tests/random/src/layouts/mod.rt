//! Arrays of given slots, whose unseen parts are random: what is under nulls, outside of windows, between rows, and in
//! values that no slot names. So two arrays of the same slots differ in all that is not seen.

mod flat;
mod keyed;
mod lists;
pub mod parts;
mod picks;
mod records;

use crate::natives::native_kind;
use crate::numbers::Generator;
use crate::slot::{Slot, copied_all};
use crate::slots::random_slots;
use crate::types::logical;
use nest_array::{AnyArray, NullArray};
use nest_memory::datatypes::{DataType, UnionMode};
use nest_memory::error::Error;
use std::alloc::Global;

/// An array of a type with these slots, at times cut out of a longer one.
pub fn lay(
    alloc: Global,
    rng: &mut Generator,
    data_type: &DataType,
    slots: &[Slot],
) -> Result<AnyArray, Error> {
    if rng.boolean() {
        return lay_array(alloc, rng, data_type, slots);
    }
    let (before, after) = (rng.below(3), rng.below(3));
    let mut longer = random_slots(alloc, rng, data_type, before)?;
    longer.extend(copied_all(alloc, slots)?)?;
    longer.extend(random_slots(alloc, rng, data_type, after)?)?;
    let array = lay_array(alloc, rng, data_type, longer.as_slice())?;
    Ok(slice_in_steps(rng, array, before, slots.len()))
}

/// A slice of a slice.
pub fn slice_in_steps(rng: &mut Generator, array: AnyArray, start: usize, n: usize) -> AnyArray {
    let first = rng.between(0, start);
    let end = rng.between(start + n, array.len());
    array.sliced(first, end - first).sliced(start - first, n)
}

/// An array of a type with these slots and no others.
pub fn lay_array(
    alloc: Global,
    rng: &mut Generator,
    data_type: &DataType,
    slots: &[Slot],
) -> Result<AnyArray, Error> {
    let own = data_type.clone(alloc)?;
    let logical = logical(data_type);
    if let Some(kind) = native_kind(logical) {
        return flat::natives(alloc, rng, kind, own, slots);
    }
    match logical {
        DataType::Null => Ok(AnyArray::Null(NullArray::try_new(own, slots.len())?)),
        DataType::Boolean => Ok(AnyArray::Boolean(flat::booleans(alloc, rng, own, slots)?)),
        DataType::Binary => Ok(AnyArray::Binary(flat::bytes(alloc, rng, own, slots)?)),
        DataType::LargeBinary => Ok(AnyArray::LargeBinary(flat::bytes(alloc, rng, own, slots)?)),
        DataType::Utf8 => Ok(AnyArray::Utf8(flat::texts(alloc, rng, own, slots)?)),
        DataType::LargeUtf8 => Ok(AnyArray::LargeUtf8(flat::texts(alloc, rng, own, slots)?)),
        DataType::FixedSizeBinary(size) => {
            let array = flat::codes(alloc, rng, own, *size, slots)?;
            Ok(AnyArray::FixedSizeBinary(array))
        }
        nested => lay_nested(alloc, rng, own, nested, slots),
    }
}

fn lay_nested(
    alloc: Global,
    rng: &mut Generator,
    own: DataType,
    logical: &DataType,
    slots: &[Slot],
) -> Result<AnyArray, Error> {
    Ok(match logical {
        DataType::List(item) => {
            AnyArray::List(lists::lists(alloc, rng, own, item.data_type(), slots)?)
        }
        DataType::LargeList(item) => {
            AnyArray::LargeList(lists::large_lists(alloc, rng, own, item.data_type(), slots)?)
        }
        DataType::FixedSizeList(item, size) => {
            let item = item.data_type();
            AnyArray::FixedSizeList(lists::sized_lists(alloc, rng, own, item, *size, slots)?)
        }
        DataType::Map(entry, _) => {
            AnyArray::Map(lists::maps(alloc, rng, own, entry.data_type(), slots)?)
        }
        DataType::Struct(fields) => {
            AnyArray::Struct(records::records(alloc, rng, own, fields.as_slice(), slots)?)
        }
        DataType::Union(fields, ids, mode) => {
            let named = (fields.as_slice(), ids);
            AnyArray::Union(match mode {
                UnionMode::Dense => picks::dense(alloc, rng, own, named, slots)?,
                UnionMode::Sparse => picks::sparse(alloc, rng, own, named, slots)?,
            })
        }
        DataType::Dictionary(key, value, _) => {
            AnyArray::Dictionary(keyed::keyed(alloc, rng, own, (*key, value), slots)?)
        }
        _ => return Err(Error::NotYetImplemented),
    })
}
