//! Slots by the parts of arrays: validities, offsets, types and children.

use crate::natives::numbers_of;
use crate::slot::{Slot, copied_all};
use crate::types::{logical, meant_field};
use nest_array::{AnyArray, DictionaryArray, StructArray, UnionArray};
use nest_flat::any_primitive::AnyPrimitive;
use nest_flat::boolean::BooleanArray;
use nest_memory::bitmap::Bitmap;
use nest_memory::datatypes::DataType;
use nest_memory::error::Error;
use nest_memory::offset::Offset;
use nest_memory::offsets::OffsetsBuffer;
use std::alloc::Global;

/// Whether a slot is valid by a validity that may be absent.
fn is_valid(validity: Option<&Bitmap>, i: usize) -> bool {
    match validity {
        None => true,
        Some(bits) => bits.get_bit(i),
    }
}

/// The slots of an array.
pub fn slots_of(alloc: Global, array: &AnyArray) -> Result<Vec<Slot>, Error> {
    match array {
        AnyArray::Null(nulls) => each(alloc, nulls.len(), None, |_| Ok(Slot::Null)),
        AnyArray::Boolean(booleans) => boolean_slots(alloc, booleans),
        AnyArray::Primitive(natives) => native_slots(alloc, natives),
        AnyArray::Binary(a) => {
            let bytes = a.values().as_slice();
            span_slots(alloc, a.offsets(), bytes, a.validity(), Slot::Bytes)
        }
        AnyArray::LargeBinary(a) => {
            let bytes = a.values().as_slice();
            span_slots(alloc, a.offsets(), bytes, a.validity(), Slot::Bytes)
        }
        AnyArray::Utf8(a) => {
            let bytes = a.values().as_slice();
            span_slots(alloc, a.offsets(), bytes, a.validity(), Slot::Text)
        }
        AnyArray::LargeUtf8(a) => {
            let bytes = a.values().as_slice();
            span_slots(alloc, a.offsets(), bytes, a.validity(), Slot::Text)
        }
        AnyArray::FixedSizeBinary(a) => {
            let (size, bytes) = (a.size(), a.values().as_slice());
            each(alloc, bytes.len() / size, a.validity(), |i| {
                Ok(Slot::Bytes(Vec::from_slice(alloc, &bytes[i * size..i * size + size])?))
            })
        }
        nested => nested_slots(alloc, nested),
    }
}

fn nested_slots(alloc: Global, array: &AnyArray) -> Result<Vec<Slot>, Error> {
    match array {
        AnyArray::FixedSizeList(a) => {
            let (size, items) = (a.size(), slots_of(alloc, a.values())?);
            each(alloc, items.len() / size, a.validity(), |i| {
                let own = &items[i * size..i * size + size];
                Ok(Slot::List(copied_all(alloc, own)?))
            })
        }
        AnyArray::List(a) => row_slots(alloc, a.offsets(), a.values(), a.validity()),
        AnyArray::LargeList(a) => row_slots(alloc, a.offsets(), a.values(), a.validity()),
        AnyArray::Map(a) => row_slots(alloc, a.offsets(), a.field(), a.validity()),
        AnyArray::Struct(a) => record_slots(alloc, a),
        AnyArray::Union(a) => union_slots(alloc, a),
        AnyArray::Dictionary(a) => dictionary_slots(alloc, a),
        _ => Err(Error::NotYetImplemented),
    }
}

/// So many slots, null where the validity says so.
fn each<F: FnMut(usize) -> Result<Slot, Error>>(
    alloc: Global,
    n: usize,
    validity: Option<&Bitmap>,
    mut value: F,
) -> Result<Vec<Slot>, Error> {
    let mut slots = Vec::with_capacity(alloc, n)?;
    for i in 0..n {
        let slot = if is_valid(validity, i) {
            value(i)?
        } else {
            Slot::Null
        };
        slots.push(slot)?;
    }
    Ok(slots)
}

fn boolean_slots(alloc: Global, a: &BooleanArray) -> Result<Vec<Slot>, Error> {
    let bits = a.values();
    each(
        alloc,
        bits.len(),
        a.validity(),
        |i| Ok(Slot::Truth(bits.get_bit(i))),
    )
}

fn native_slots(alloc: Global, a: &AnyPrimitive) -> Result<Vec<Slot>, Error> {
    each(
        alloc,
        a.len(),
        a.validity(),
        |i| Ok(Slot::Number(numbers_of(a.value(i)))),
    )
}

fn span_slots<O: Offset>(
    alloc: Global,
    offsets: &OffsetsBuffer<O>,
    bytes: &[u8],
    validity: Option<&Bitmap>,
    make: fn(Vec<u8>) -> Slot,
) -> Result<Vec<Slot>, Error> {
    let places = offsets.as_slice();
    each(alloc, places.len() - 1, validity, |i| {
        let own = &bytes[places[i].to_usize()..places[i + 1].to_usize()];
        Ok(make(Vec::from_slice(alloc, own)?))
    })
}

fn row_slots<O: Offset>(
    alloc: Global,
    offsets: &OffsetsBuffer<O>,
    child: &AnyArray,
    validity: Option<&Bitmap>,
) -> Result<Vec<Slot>, Error> {
    let items = slots_of(alloc, child)?;
    let places = offsets.as_slice();
    each(alloc, places.len() - 1, validity, |i| {
        let own = &items[places[i].to_usize()..places[i + 1].to_usize()];
        Ok(Slot::List(copied_all(alloc, own)?))
    })
}

/// The slots of each child.
fn columns(alloc: Global, children: &[AnyArray]) -> Result<Vec<Vec<Slot>>, Error> {
    let mut columns = Vec::with_capacity(alloc, children.len())?;
    for child in children {
        columns.push(slots_of(alloc, child)?)?;
    }
    Ok(columns)
}

fn record_slots(alloc: Global, a: &StructArray) -> Result<Vec<Slot>, Error> {
    let columns = columns(alloc, a.values())?;
    let n = columns.first().map_or(0, |column| column.len());
    each(alloc, n, a.validity(), |i| {
        let mut values = Vec::with_capacity(alloc, columns.len())?;
        for column in columns.iter() {
            values.push(column[i].copied(alloc)?)?;
        }
        Ok(Slot::Record(values))
    })
}

/// What each type picks: of a dense union at the slot's offset, of a sparse one at the slot's place in the whole array, which
/// only `index` pushes of a slice.
fn union_slots(alloc: Global, a: &UnionArray) -> Result<Vec<Slot>, Error> {
    let columns = columns(alloc, a.fields())?;
    let DataType::Union(_, ids, _) = logical(a.data_type()) else {
        return Err(Error::NotYetImplemented);
    };
    each(alloc, a.types().len(), None, |i| {
        let field = meant_field(ids, a.types().get(i)).unwrap_or(0);
        let place = match a.offsets() {
            Some(offsets) => offsets.get(i) as usize,
            None => a.index(i).1,
        };
        let own = columns[field][place].copied(alloc)?;
        Ok(Slot::Pick(field, Box::new(alloc, own)?))
    })
}

fn dictionary_slots(alloc: Global, a: &DictionaryArray) -> Result<Vec<Slot>, Error> {
    let values = slots_of(alloc, a.values())?;
    each(alloc, a.keys().len(), a.validity(), |i| {
        let place = a.keys().index(i).unwrap_or(0);
        Ok(values[place].copied(alloc)?)
    })
}
