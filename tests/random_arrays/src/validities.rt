//! New validities.

use crate::cases::{CASES, Case, is_array_of};
use nest_array::{AnyArray, Array};
use nest_memory::bitmap::Bitmap;
use nest_memory::error::{ArgumentError, Error, SpecError};
use random::layouts::parts::bits;
use random::numbers::Generator;
use random::read::slots_of;
use random::slot::Slot;
use random::start::START;
use std::alloc::Global;
use std::test::Fail;

/// Random booleans.
fn random_bits(alloc: Global, rng: &mut Generator, n: usize) -> Result<Vec<bool>, Error> {
    let mut valid = Vec::with_capacity(alloc, n)?;
    for _ in 0..n {
        valid.push(rng.boolean())?;
    }
    Ok(valid)
}

/// Whether each raw key that is valid names a value.
fn keys_fit(array: &AnyArray, valid: &[bool]) -> bool {
    let AnyArray::Dictionary(keyed) = array else {
        return true;
    };
    let count = keyed.values().len();
    valid.iter().enumerate().all(|(i, bit)| !*bit
        || keyed.keys().index(i).is_some_and(|place| place < count))
}

/// What a new validity is rejected with.
fn refusal(array: &AnyArray, valid: &[bool]) -> Option<Error> {
    if let AnyArray::Null(_) | AnyArray::Union(_) = array {
        return Some(Error::InvalidArgumentError(ArgumentError::NoValidity));
    }
    if array.len() != valid.len() {
        return Some(Error::OutOfSpec(SpecError::ValidityLength));
    }
    if !keys_fit(array, valid) {
        return Some(Error::OutOfSpec(SpecError::KeyRange));
    }
    None
}

/// Slots under a validity, of which some were seen before: what stood under a null is pushed by the array without one.
fn masked(alloc: Global, raw: &[Slot], valid: &[bool]) -> Result<Vec<Slot>, Error> {
    let mut slots = Vec::with_capacity(alloc, raw.len())?;
    for (slot, bit) in raw.iter().zip(valid.iter()) {
        slots.push(if *bit {
            slot.copied(alloc)?
        } else {
            Slot::Null
        })?;
    }
    Ok(slots)
}

/// Whether an array that took a validity shows it: what was seen stays where it is valid, and what stood under a null is what
/// the array shows without a validity.
fn has_taken(
    alloc: Global,
    random: &Case,
    array: &AnyArray,
    valid: &[bool],
) -> Result<bool, Error> {
    let now = slots_of(alloc, array)?;
    let seen = (0..valid.len()).all(|i| {
        let (old, new) = (&random.slots[i], &now[i]);
        if valid[i] {
            old.is_null() || *new == *old
        } else {
            new.is_null()
        }
    });
    let mut no_validity = array.clone(alloc)?;
    let hidden = match no_validity.set_validity(None) {
        Ok(()) => masked(alloc, slots_of(alloc, &no_validity)?.as_slice(), valid)? == now,
        Err(_) => true,
    };
    let whole = is_array_of(alloc, array, &random.data_type, now.as_slice())?;
    Ok(seen && hidden && whole)
}

/// An array under a new validity or as it was, and why, by the call of its own kind where it has one.
fn of_kind(array: AnyArray, validity: Bitmap) -> (AnyArray, Option<Error>) {
    macro_rules! under {
        ($array:expr, $kind:ident) => {
            match $array.with_validity(Some(validity)) {
                Ok(array) => (AnyArray::$kind(array), None),
                Err((array, error)) => (AnyArray::$kind(array), Some(error)),
            }
        };
    }
    match array {
        AnyArray::Boolean(a) => under!(a, Boolean),
        AnyArray::Binary(a) => under!(a, Binary),
        AnyArray::LargeBinary(a) => under!(a, LargeBinary),
        AnyArray::Utf8(a) => under!(a, Utf8),
        AnyArray::LargeUtf8(a) => under!(a, LargeUtf8),
        AnyArray::FixedSizeBinary(a) => under!(a, FixedSizeBinary),
        AnyArray::FixedSizeList(a) => under!(a, FixedSizeList),
        AnyArray::List(a) => under!(a, List),
        AnyArray::LargeList(a) => under!(a, LargeList),
        AnyArray::Struct(a) => under!(a, Struct),
        AnyArray::Map(a) => under!(a, Map),
        AnyArray::Dictionary(a) => under!(a, Dictionary),
        mut other => {
            let answer = other.set_validity(Some(validity)).err();
            (other, answer)
        }
    }
}

/// New validities.
#[test]
fn new_validities(rt: HostRuntime) -> Result<(), Fail> {
    let alloc = rt.alloc();
    for case in 0..CASES {
        let mut random = Case::new(alloc, 10, case)?;
        if random.rng.one_in(4) {
            random = random.keyed(alloc)?;
        }
        let mut array = random.lay(alloc)?;
        let other = random.rng.below(9);
        let n = [array.len(), array.len(), other][random.rng.below(3)];
        let valid = random_bits(alloc, &mut random.rng, n)?;
        let validity = bits(alloc, &mut random.rng, valid.as_slice())?;
        let expected = refusal(&array, valid.as_slice());
        let lent = Array::with_validity(&array, alloc, Some(validity.clone()?));
        let (own, of_its_kind) = of_kind(array.clone(alloc)?, validity.clone()?);
        let answer = array.set_validity(Some(validity)).err();
        assert_eq!(rt; answer, expected, "set: start {START}, case {case}");
        assert_eq!(rt;
            of_its_kind,
            expected,
            "of its kind: start {START}, case {case}"
        );
        assert!(rt; own == array, "of its kind: start {START}, case {case}");
        let fits = match lent {
            Ok(lent) => { lent == array && has_taken(alloc, &random, &array, valid.as_slice())? }
            Err(error) => {
                let slots = random.slots.as_slice();
                expected == Some(error) && is_array_of(alloc, &array, &random.data_type, slots)?
            }
        };
        assert!(rt; fits, "taken or not: start {START}, case {case}");
    }
    Ok(())
}
