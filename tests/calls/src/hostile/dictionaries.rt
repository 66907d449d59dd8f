//! A builder of dictionaries that takes 40 values, so that their table grows.
use crate::hostile::runs::{Calls, UNFINISHED, errors_of, has_values, push_rejected};
use nest_array::{AnyArray, AnyKeys, DictionaryArray, FixedSizeBinaryArray};
use nest_build::array::MutableArray;
use nest_build::dictionary::MutableDictionaryArray;
use nest_build::fixed_size_binary::MutableFixedSizeBinaryArray;
use nest_flat::plain::Plain;
use nest_memory::error::Error;
use std::alloc::Global;
use std::test::Fail;

/// Byte strings of two bytes by keys of 8 bits.
pub(crate) type Pairs = MutableDictionaryArray<i8, MutableFixedSizeBinaryArray>;

pub(crate) fn no_pairs(alloc: Global) -> Result<Pairs, Error> {
    MutableDictionaryArray::try_from_values(alloc, MutableFixedSizeBinaryArray::new(alloc, 2))
}

/// Pushes bytes.
pub(crate) fn push(pairs: &mut Pairs, bytes: &[u8]) -> Result<(), Error> {
    if !pairs.is_complete() {
        return Err(UNFINISHED);
    }
    pairs.try_push_plain(Some(Plain::Bytes(bytes)))
}

/// Whether each row is the pair of a 0 and its own number, and so is each value.
fn are_numbered<B: MutableArray>(builder: &B) -> bool {
    for i in 0..builder.len() {
        if i > 255 || !builder.holds(i, &Plain::Bytes(&[0, i as u8])) {
            return false;
        }
    }
    true
}

/// Whether the bytes are pairs of a 0 and their own number, so many of them.
fn are_pairs(values: &FixedSizeBinaryArray, count: usize) -> bool {
    if values.len() != count || values.null_count() != 0 {
        return false;
    }
    for i in 0..values.len() {
        if i > 255 || values.value(i) != [0, i as u8].as_slice() {
            return false;
        }
    }
    true
}

/// Whether key i is i.
fn are_in_turn(keyed: &DictionaryArray) -> bool {
    let AnyKeys::Int8(keys) = keyed.keys() else {
        return false;
    };
    for i in 0..keys.len() {
        if i > 127 || keys.get(i) != Some(i as i8) {
            return false;
        }
    }
    true
}

fn is_expected(array: &AnyArray, count: usize) -> bool {
    let AnyArray::Dictionary(keyed) = array else {
        return false;
    };
    let AnyArray::FixedSizeBinary(values) = keyed.values() else {
        return false;
    };
    keyed.len() == count && are_in_turn(keyed) && are_pairs(values, count)
}

impl Calls for Pairs {
    fn count(&self) -> usize {
        40
    }

    fn call(&mut self, _alloc: Global, k: usize) -> Result<(), Error> {
        if k > 255 {
            return Err(UNFINISHED);
        }
        push(self, &[0, k as u8])
    }

    fn is_after(&mut self, k: usize) -> bool {
        self.is_complete()
            && self.len() == k
            && self.values().len() == k
            && are_numbered(self)
            && are_numbered(self.values())
    }

    fn is_frozen(&mut self) -> Result<bool, Error> {
        match self.as_box() {
            Ok(array) => {
                let same = is_expected(&array, 40);
                drop(array);
                Ok(same)
            }
            Err(error) => Err(error),
        }
    }
}

/// The same of a builder of dictionaries that takes 40 values, so that their table grows.
#[test]
fn forty_values(rt: HostRuntime) -> Result<(), Fail> {
    let alloc = rt.alloc();
    let refused = errors_of(&rt, alloc, no_pairs(alloc));
    push_rejected(&rt, refused > 0)
}
