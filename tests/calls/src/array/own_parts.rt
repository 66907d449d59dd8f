//! Arrays made again of parts that are known to fit, and other calls that check nothing: each with memory.
//!
//! Lists, pairs and dictionaries made again of their own parts, which are not checked again; the scalars of a record's fields.

use crate::array::arrays::lists::by_large_offsets;
use crate::array::arrays::lists_of_lists;
use crate::array::arrays::sizes::pairs;
use crate::array::arrays::structs::four;
use crate::array::dictionaries::four_strings;
use nest_array::array::ArrayParts;
use nest_array::{
    AnyKeys, DictionaryArray, FixedSizeListArray, LargeListArray, ListArray, StructArray,
    scalars_at,
};
use nest_memory::bitmap::immutable::Bitmap;
use nest_memory::error::Error;
use std::alloc::Global;

/// A validity again.
fn copied(bits: Option<&Bitmap>) -> Result<Option<Bitmap>, Error> {
    match bits {
        Some(bits) => Ok(Some(bits.clone()?)),
        None => Ok(None),
    }
}

/// Whether a call gave an array that is equal; it is dropped.
fn is_same<A: PartialEq + Drop>(given: Result<A, Error>, array: &A) -> bool {
    match given {
        Ok(given) => {
            let same = given == *array;
            drop(given);
            same
        }
        Err(_error) => false,
    }
}

fn lists_again(alloc: Global, array: &ListArray) -> Result<ListArray, Error> {
    let offsets = array.offsets().clone()?;
    let bits = copied(array.validity())?;
    let data_type = array.data_type().clone(alloc)?;
    match array.values().clone(alloc) {
        Ok(values) => ListArray::new(alloc, data_type, offsets, values, bits),
        Err(error) => {
            drop(data_type);
            Err(error)
        }
    }
}

fn large_lists_again(alloc: Global, array: &LargeListArray) -> Result<LargeListArray, Error> {
    let offsets = array.offsets().clone()?;
    let bits = copied(array.validity())?;
    let data_type = array.data_type().clone(alloc)?;
    match array.values().clone(alloc) {
        Ok(values) => LargeListArray::new(alloc, data_type, offsets, values, bits),
        Err(error) => {
            drop(data_type);
            Err(error)
        }
    }
}

#[test]
fn lists_of_their_own_parts(rt: HostRuntime) {
    let alloc = rt.alloc();
    let lists = lists_of_lists(alloc).expect(&rt, "three lists");
    assert!(rt; is_same(lists_again(alloc, &lists), &lists));
    let lists = by_large_offsets(alloc).expect(&rt, "three lists");
    assert!(rt; is_same(large_lists_again(alloc, &lists), &lists));
}

fn pairs_again(alloc: Global, array: &FixedSizeListArray) -> Result<FixedSizeListArray, Error> {
    let bits = copied(array.validity())?;
    let data_type = array.data_type().clone(alloc)?;
    match array.values().clone(alloc) {
        Ok(values) => FixedSizeListArray::new(alloc, data_type, values, bits),
        Err(error) => {
            drop(data_type);
            Err(error)
        }
    }
}

#[test]
fn pairs_of_their_own_parts(rt: HostRuntime) {
    let alloc = rt.alloc();
    let array = pairs(alloc).expect(&rt, "three pairs");
    assert!(rt; is_same(pairs_again(alloc, &array), &array));
}

/// Keys of 32 bits again; others are `Overflow`.
fn keys_again(alloc: Global, keys: &AnyKeys) -> Result<AnyKeys, Error> {
    match keys {
        AnyKeys::Int32(keys) => match keys.clone(alloc) {
            Ok(keys) => Ok(AnyKeys::Int32(keys)),
            Err(error) => Err(error),
        },
        _ => Err(Error::Overflow),
    }
}

fn dictionary_again(alloc: Global, array: &DictionaryArray) -> Result<DictionaryArray, Error> {
    if !array.all_in_range() {
        return Err(Error::Overflow);
    }
    let data_type = array.data_type().clone(alloc)?;
    let keys = match keys_again(alloc, array.keys()) {
        Ok(keys) => keys,
        Err(error) => {
            drop(data_type);
            return Err(error);
        }
    };
    match array.values().clone(alloc) {
        Ok(values) => DictionaryArray::new(alloc, data_type, keys, values),
        Err(error) => {
            drop(keys);
            drop(data_type);
            Err(error)
        }
    }
}

#[test]
fn dictionaries_of_their_own_parts(rt: HostRuntime) {
    let alloc = rt.alloc();
    let keyed = four_strings(alloc).expect(&rt, "four texts");
    assert!(rt; is_same(dictionary_again(alloc, &keyed), &keyed));
}

/// The array on shared memory, as each kind copies itself.
fn again<A: ArrayParts>(alloc: Global, array: &A) -> Result<A, Error> {
    array.again(alloc)
}

#[test]
fn each_kind_copies_itself(rt: HostRuntime) {
    let alloc = rt.alloc();
    let array = pairs(alloc).expect(&rt, "three pairs");
    assert!(rt; is_same(again(alloc, &array), &array));
    let keyed = four_strings(alloc).expect(&rt, "four texts");
    assert!(rt; is_same(again(alloc, &keyed), &keyed));
}

/// The n slots of it from index o, on shared memory, as each kind makes them.
fn part<A: ArrayParts>(alloc: Global, array: &A, o: usize, n: usize) -> Result<A, Error> {
    array.part(alloc, o, n)
}

#[test]
fn each_kind_makes_parts(rt: HostRuntime) {
    let alloc = rt.alloc();
    let keyed = four_strings(alloc).expect(&rt, "four texts");
    let whole = keyed.len();
    for o in 0..whole + 1 {
        let cut = again(alloc, &keyed)
            .expect(&rt, "four texts")
            .sliced(o, whole - o);
        assert!(rt; is_same(part(alloc, &keyed, o, whole - o), &cut));
    }
}

/// How many scalars record i has, and how many of them are valid.
fn scalars_of(alloc: Global, records: &StructArray, i: usize) -> Result<(usize, usize), Error> {
    let columns = records.values();
    let [first, second] = columns else {
        return Err(Error::Overflow);
    };
    if i >= first.len() || i >= second.len() {
        return Err(Error::Overflow);
    }
    let scalars = scalars_at(alloc, columns, i)?;
    let mut valid = 0usize;
    for scalar in &scalars {
        if scalar.is_valid() {
            valid = valid.saturating_add(1);
        }
    }
    let count = scalars.len();
    drop(scalars);
    Ok((count, valid))
}

#[test]
fn scalars_of_a_record(rt: HostRuntime) {
    let alloc = rt.alloc();
    let records = four(alloc, &[42, 28, 19, 31]).expect(&rt, "four records");
    assert!(rt; scalars_of(alloc, &records, 2) == Ok((2, 2)));
    assert!(rt; scalars_of(alloc, &records, 4) == Err(Error::Overflow));
}
