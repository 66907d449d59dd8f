//! What each test generates first, and what is held of an array.

use nest_array::AnyArray;
use nest_memory::datatypes::DataType;
use nest_memory::error::Error;
use random::layouts::lay;
use random::numbers::Generator;
use random::read::{slots_by_calls, slots_of};
use random::slot::Slot;
use random::slots::random_slots;
use random::start::{ARRAYS, START};
use random::types::{logical, random_key_type, random_type};
use std::alloc::Global;

/// How many cases most tests have: one case of each of them all lays 25 arrays.
pub const CASES: usize = ARRAYS / 25;

/// The length of some flat arrays: more than a word of bits, and than four blocks of native values.
const LONGEST: usize = 80;

/// A data type and slots of it, random from the start, the test's number and the case's.
#[derive(Drop)]
pub struct Case {
    pub rng: Generator,
    pub data_type: DataType,
    pub slots: Vec<Slot>,
}

impl Case {
    pub fn new(alloc: Global, test: u64, case: usize) -> Result<Case, Error> {
        let mut rng = Generator::new(START, test, case);
        let depth = rng.between(0, 4);
        let data_type = random_type(alloc, &mut rng, depth)?;
        let longest = if depth == 0 && rng.one_in(3) {
            LONGEST
        } else {
            8
        };
        let count = rng.between(0, longest);
        let slots = random_slots(alloc, &mut rng, &data_type, count)?;
        Ok(Case {
            rng,
            data_type,
            slots,
        })
    }

    /// The same of values that are looked up by keys.
    pub fn keyed(self, alloc: Global) -> Result<Case, Error> {
        let (mut rng, count) = (self.rng, self.slots.len());
        let key = random_key_type(&mut rng);
        let value = Box::new(alloc, self.data_type.clone(alloc)?)?;
        let data_type = DataType::Dictionary(key, value, rng.boolean());
        let slots = random_slots(alloc, &mut rng, &data_type, count)?;
        Ok(Case {
            rng,
            data_type,
            slots,
        })
    }

    /// An array of the slots, laid out another way at each call.
    pub fn lay(&mut self, alloc: Global) -> Result<AnyArray, Error> {
        lay(alloc, &mut self.rng, &self.data_type, self.slots.as_slice())
    }
}

/// Whether an array has this type and these slots, by its parts and call by call, and pushes their number and its nulls so.
pub fn is_array_of(
    alloc: Global,
    array: &AnyArray,
    data_type: &DataType,
    slots: &[Slot],
) -> Result<bool, Error> {
    Ok(
        array.len() == slots.len()
            && *array.data_type() == *data_type
            && slots_of(alloc, array)?.as_slice() == slots
            && slots_by_calls(alloc, array)?.as_slice() == slots
            && pushes_nulls(array, slots),
    )
}

/// Whether an array pushes its nulls: by its bits, index by index and in all.
fn pushes_nulls(array: &AnyArray, slots: &[Slot]) -> bool {
    let null_slots = (0..slots.len()).filter(|i| array.is_null(*i)).count();
    let bits_fit = match array.validity() {
        None => true,
        Some(bits) => bits.len() == slots.len() && bits.unset_bits() == null_slots,
    };
    let has_bits = array.validity().is_some();
    let places_fit = (0..slots.len()).all(|i| pushes_null(array, i, &slots[i]));
    let none_without_bits = match logical(array.data_type()) {
        DataType::Null => null_slots == slots.len(),
        _ => has_bits || null_slots == 0,
    };
    bits_fit && places_fit && none_without_bits && array.null_count() == null_slots
}

/// Whether `is_null` is right of an index: no slot of a union is null, one of a dictionary where its key is, and any other
/// exactly where the slot is.
fn pushes_null(array: &AnyArray, i: usize, slot: &Slot) -> bool {
    match logical(array.data_type()) {
        DataType::Union(_, _, _) => !array.is_null(i),
        DataType::Dictionary(_, _, _) => slot.is_null() || !array.is_null(i),
        _ => array.is_null(i) == slot.is_null(),
    }
}
