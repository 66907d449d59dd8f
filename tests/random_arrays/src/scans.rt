//! Iterators, from both ends in a random mix.

use crate::cases::{CASES, Case};
use nest_array::{AnyArray, AnyScalar, DictionaryArray, UnionArray};
use nest_flat::any_primitive::{AnyPrimitive, Native};
use nest_flat::primitive::PrimitiveArray;
use nest_memory::error::Error;
use nest_scan::{Scan, ScanKeys, ScanValues};
use random::natives::numbers_of;
use random::numbers::Generator;
use random::read::{slot_of_scalar, slots_of};
use random::slot::Slot;
use random::start::START;
use std::alloc::Global;
use std::test::Fail;

/// What an iterator is held against: the slots, where null ones may show anything.
#[derive(Drop)]
struct Walk<'a> {
    rng: Generator,
    slots: &'a [Slot],
    is_raw: bool,
}

impl<'a> Walk<'a> {
    fn fits(&self, index: usize, read: &Slot) -> bool {
        let slot = &self.slots[index];
        *read == *slot || self.is_raw && slot.is_null()
    }

    /// Whether an iterator returns the slots, from both ends in a random mix, and how many are left, and then nothing.
    fn returns<I, F>(&mut self, items: I, mut read: F) -> Result<bool, Error>
    where
        I: Iterator + DoubleEndedIterator + ExactSizeIterator + Drop,
        I::Item: Drop,
        F: FnMut(I::Item) -> Result<Slot, Error>,
    {
        let mut items = items;
        let (mut front, mut back) = (0, self.slots.len());
        while front < back {
            let left = back - front;
            if items.len() != left || items.size_hint() != (left, Some(left)) {
                return Ok(false);
            }
            let (item, index) = if self.rng.boolean() {
                back -= 1;
                (items.next_back(), back)
            } else {
                front += 1;
                (items.next(), front - 1)
            };
            let Some(item) = item else {
                return Ok(false);
            };
            let slot = read(item)?;
            if !self.fits(index, &slot) {
                return Ok(false);
            }
        }
        Ok(items.len() == 0 && is_done(items.next()) && is_done(items.next_back()))
    }
}

fn is_done<T: Drop>(item: Option<T>) -> bool {
    item.is_none()
}

fn native_slot<T: Native>(value: Option<T>) -> Result<Slot, Error> {
    Ok(match value {
        Some(value) => Slot::Number(numbers_of(value.to_any())),
        None => Slot::Null,
    })
}

fn walk_native<T: Native + Drop>(walk: &mut Walk, a: &PrimitiveArray<T>) -> Result<bool, Error> {
    if walk.is_raw {
        walk.returns(a.values_iter(), |value| native_slot(Some(value)))
    } else {
        walk.returns(a.iter(), |value| native_slot(value))
    }
}

fn walk_primitive(walk: &mut Walk, a: &AnyPrimitive) -> Result<bool, Error> {
    match a {
        AnyPrimitive::Int8(a) => walk_native(walk, a),
        AnyPrimitive::Int16(a) => walk_native(walk, a),
        AnyPrimitive::Int32(a) => walk_native(walk, a),
        AnyPrimitive::Int64(a) => walk_native(walk, a),
        AnyPrimitive::Int128(a) => walk_native(walk, a),
        AnyPrimitive::Int256(a) => walk_native(walk, a),
        AnyPrimitive::UInt8(a) => walk_native(walk, a),
        AnyPrimitive::UInt16(a) => walk_native(walk, a),
        AnyPrimitive::UInt32(a) => walk_native(walk, a),
        AnyPrimitive::UInt64(a) => walk_native(walk, a),
        AnyPrimitive::DaysMs(a) => walk_native(walk, a),
        AnyPrimitive::MonthDayNano(a) => walk_native(walk, a),
    }
}

fn boolean_slot(boolean: Option<bool>) -> Result<Slot, Error> {
    Ok(match boolean {
        Some(boolean) => Slot::Truth(boolean),
        None => Slot::Null,
    })
}

fn bytes_slot(alloc: Global, bytes: Option<&[u8]>) -> Result<Slot, Error> {
    Ok(match bytes {
        Some(bytes) => Slot::Bytes(Vec::from_slice(alloc, bytes)?),
        None => Slot::Null,
    })
}

fn string_slot(alloc: Global, text: Option<&str>) -> Result<Slot, Error> {
    Ok(match text {
        Some(text) => Slot::Text(Vec::from_slice(alloc, text.as_bytes())?),
        None => Slot::Null,
    })
}

fn list_slot(alloc: Global, items: Option<AnyArray>) -> Result<Slot, Error> {
    Ok(match items {
        Some(items) => Slot::List(slots_of(alloc, &items)?),
        None => Slot::Null,
    })
}

fn record_slot(alloc: Global, scalars: Option<Vec<AnyScalar>>) -> Result<Slot, Error> {
    let Some(scalars) = scalars else {
        return Ok(Slot::Null);
    };
    let mut values = Vec::with_capacity(alloc, scalars.len())?;
    for scalar in scalars.iter() {
        values.push(slot_of_scalar(alloc, scalar)?)?;
    }
    Ok(Slot::Record(values))
}

fn scalar_slot(alloc: Global, scalar: Option<AnyScalar>) -> Result<Slot, Error> {
    match scalar {
        Some(scalar) => slot_of_scalar(alloc, &scalar),
        None => Ok(Slot::Null),
    }
}

/// Whether the iterator over the slots of an array returns them.
fn walk_slots(alloc: Global, walk: &mut Walk, array: &AnyArray) -> Result<bool, Error> {
    match array {
        AnyArray::Null(_) => Ok(true),
        AnyArray::Boolean(a) => walk.returns(a.iter(), |x| boolean_slot(x)),
        AnyArray::Primitive(a) => walk_primitive(walk, a),
        AnyArray::Binary(a) => walk.returns(a.iter(), |x| bytes_slot(alloc, x)),
        AnyArray::LargeBinary(a) => walk.returns(a.iter(), |x| bytes_slot(alloc, x)),
        AnyArray::Utf8(a) => walk.returns(a.iter(), |x| string_slot(alloc, x)),
        AnyArray::LargeUtf8(a) => walk.returns(a.iter(), |x| string_slot(alloc, x)),
        AnyArray::FixedSizeBinary(a) => walk.returns(a.iter(alloc), |x| bytes_slot(alloc, x)),
        AnyArray::FixedSizeList(a) => walk.returns(a.iter(alloc), |x| list_slot(alloc, x?)),
        AnyArray::List(a) => walk.returns(a.iter(alloc), |x| list_slot(alloc, x?)),
        AnyArray::LargeList(a) => walk.returns(a.iter(alloc), |x| list_slot(alloc, x?)),
        AnyArray::Map(a) => walk.returns(a.iter(alloc), |x| list_slot(alloc, x?)),
        AnyArray::Struct(a) => walk.returns(a.iter(alloc), |x| record_slot(alloc, x?)),
        AnyArray::Union(a) => walk_unions(alloc, walk.slots, a),
        AnyArray::Dictionary(a) => walk.returns(a.iter(alloc), |x| scalar_slot(alloc, x?)),
    }
}

/// The same of the iterator over the raw values, in which anything is under nulls.
fn walk_values(alloc: Global, walk: &mut Walk, array: &AnyArray) -> Result<bool, Error> {
    match array {
        AnyArray::Null(_) | AnyArray::Union(_) => Ok(true),
        AnyArray::Boolean(a) => walk.returns(a.values_iter(), |x| boolean_slot(Some(x))),
        AnyArray::Primitive(a) => walk_primitive(walk, a),
        AnyArray::Binary(a) => walk.returns(a.values_iter(), |x| bytes_slot(alloc, Some(x))),
        AnyArray::LargeBinary(a) => walk.returns(a.values_iter(), |x| bytes_slot(alloc, Some(x))),
        AnyArray::Utf8(a) => walk.returns(a.values_iter(), |x| string_slot(alloc, Some(x))),
        AnyArray::LargeUtf8(a) => walk.returns(a.values_iter(), |x| string_slot(alloc, Some(x))),
        AnyArray::FixedSizeBinary(a) => {
            walk.returns(a.values_iter(alloc), |x| bytes_slot(alloc, Some(x)))
        }
        AnyArray::FixedSizeList(a) => {
            walk.returns(a.values_iter(alloc), |x| list_slot(alloc, Some(x?)))
        }
        AnyArray::List(a) => walk.returns(a.values_iter(alloc), |x| list_slot(alloc, Some(x?))),
        AnyArray::LargeList(a) => walk.returns(
            a.values_iter(alloc),
            |x| list_slot(alloc, Some(x?)),
        ),
        AnyArray::Map(a) => walk.returns(a.values_iter(alloc), |x| list_slot(alloc, Some(x?))),
        AnyArray::Struct(a) => walk.returns(a.values_iter(alloc), |x| record_slot(alloc, Some(x?))),
        AnyArray::Dictionary(a) => walk_raw_keys(alloc, walk, a),
    }
}

/// A union is iterated from the front alone.
fn walk_unions(alloc: Global, slots: &[Slot], a: &UnionArray) -> Result<bool, Error> {
    let mut items = a.iter(alloc);
    for (k, slot) in slots.iter().enumerate() {
        let (true, Some(item)) = (items.len() == slots.len() - k, items.next()) else {
            return Ok(false);
        };
        let read = slot_of_scalar(alloc, &item?)?;
        let fits = match slot {
            Slot::Pick(_, own) => read == **own,
            _ => false,
        };
        if !fits {
            return Ok(false);
        }
    }
    Ok(items.next().is_none())
}

/// What keys name, and the strings of a dictionary of strings.
fn walk_keys(alloc: Global, walk: &mut Walk, a: &DictionaryArray) -> Result<bool, Error> {
    let values = slots_of(alloc, a.values())?;
    let by_keys = walk.returns(a.keys_iter(), |index| {
        Ok(match index {
            Some(index) => values[index].copied(alloc)?,
            None => Slot::Null,
        })
    })?;
    let has_nulls = values.iter().any(|value| value.is_null());
    let by_texts = match a.values() {
        _ if has_nulls => true,
        AnyArray::Utf8(_) => walk.returns(a.iter_typed::<i32>()?, |x| string_slot(alloc, x))?,
        AnyArray::LargeUtf8(_) => walk.returns(a.iter_typed::<i64>()?, |x| string_slot(alloc, x))?,
        _ => a.iter_typed::<i32>().is_err() && a.iter_typed::<i64>().is_err(),
    };
    Ok(by_keys && by_texts)
}

/// What raw keys name, where each names a value.
fn walk_raw_keys(alloc: Global, walk: &mut Walk, a: &DictionaryArray) -> Result<bool, Error> {
    if !a.all_in_range() {
        return Ok(true);
    }
    let values = slots_of(alloc, a.values())?;
    let by_places = walk.returns(a.keys_values_iter(), |x| Ok(values[x].copied(alloc)?))?;
    let by_values = walk.returns(a.values_iter(alloc), |x| slot_of_scalar(alloc, &x?))?;
    Ok(by_places && by_values)
}

/// Iterators from both ends.
#[test]
fn both_ends(rt: HostRuntime) -> Result<(), Fail> {
    let alloc = rt.alloc();
    for case in 0..CASES {
        let mut random = Case::new(alloc, 13, case)?;
        let array = random.lay(alloc)?;
        let mut walk = Walk {
            rng: random.rng,
            slots: random.slots.as_slice(),
            is_raw: false,
        };
        assert!(rt;
            walk_slots(alloc, &mut walk, &array)?,
            "slots: start {START}, case {case}"
        );
        if let AnyArray::Dictionary(keyed) = &array {
            assert!(rt;
                walk_keys(alloc, &mut walk, keyed)?,
                "keys: start {START}, case {case}"
            );
        }
        walk.is_raw = true;
        assert!(rt;
            walk_values(alloc, &mut walk, &array)?,
            "values: start {START}, case {case}"
        );
    }
    Ok(())
}
