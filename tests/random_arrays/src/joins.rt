//! Slots of several arrays, one array after another, and by array and index.

use crate::cases::{CASES, Case, is_array_of};
use nest_array::AnyArray;
use nest_concat::{concatenate, interleave};
use nest_memory::error::Error;
use random::layouts::lay;
use random::slot::{Slot, chosen};
use random::slots::random_slots;
use random::start::START;
use std::alloc::Global;
use std::test::Fail;

/// Arrays of the type of a case, each cut at odd indices, and the slots of all of them.
fn random_arrays(alloc: Global, random: &mut Case) -> Result<(Vec<AnyArray>, Vec<Slot>), Error> {
    let mut arrays = Vec::new(alloc);
    let mut all = Vec::new(alloc);
    for _ in 0..random.rng.below(4) + 1 {
        let count = random.rng.below(12);
        let slots = random_slots(alloc, &mut random.rng, &random.data_type, count)?;
        let array = lay(alloc, &mut random.rng, &random.data_type, slots.as_slice())?;
        let start = random.rng.below(count + 1);
        let kept = random.rng.below(count - start + 1);
        arrays.push(array.sliced(start, kept))?;
        for slot in &slots[start..start + kept] {
            all.push(slot.copied(alloc)?)?;
        }
    }
    Ok((arrays, all))
}

/// Slots of several arrays, one array after another.
#[test]
fn slots_of_arrays(rt: HostRuntime) -> Result<(), Fail> {
    let alloc = rt.alloc();
    let mut joined = 0;
    for case in 0..CASES * 2 {
        let mut random = Case::new(alloc, 21, case)?;
        let (arrays, slots) = random_arrays(alloc, &mut random)?;
        match concatenate(alloc, arrays.as_slice()) {
            Ok(array) => {
                joined += 1;
                let fits = is_array_of(alloc, &array, &random.data_type, slots.as_slice())?;
                assert!(rt; fits, "start {START}, case {case}");
            }
            Err(error) => {
                let may = may_reject(alloc, &random, error)?;
                assert!(rt; may, "start {START}, case {case}: {error:?}");
            }
        }
    }
    assert!(rt; joined > CASES, "only {joined} were joined: start {START}");
    Ok(())
}

/// Whether arrays of the type of a case may be rejected so: keys of 8 bits may have no room.
fn may_reject(alloc: Global, random: &Case, error: Error) -> Result<bool, Error> {
    let shown = format!(in alloc; "{}", random.data_type)?;
    let text = shown.as_str();
    let short = text.contains("indices=int8") || text.contains("indices=uint8");
    Ok(error == Error::Overflow && short)
}

/// The same of dictionaries of other values, and of the slices of one.
#[test]
fn slots_of_dictionaries(rt: HostRuntime) -> Result<(), Fail> {
    let alloc = rt.alloc();
    let mut joined = 0;
    for case in 0..CASES * 2 {
        let mut random = Case::new(alloc, 22, case)?.keyed(alloc)?;
        let (arrays, slots) = random_arrays(alloc, &mut random)?;
        match concatenate(alloc, arrays.as_slice()) {
            Ok(array) => {
                joined += 1;
                let fits = is_array_of(alloc, &array, &random.data_type, slots.as_slice())?;
                assert!(rt; fits, "start {START}, case {case}");
            }
            Err(error) => {
                let may = may_reject(alloc, &random, error)?;
                assert!(rt; may, "start {START}, case {case}: {error:?}");
            }
        }
    }
    assert!(rt; joined > CASES, "only {joined} were joined: start {START}");
    Ok(())
}

/// An array's slices up to two indices and from them on.
fn cuts(
    alloc: Global,
    array: &AnyArray,
    first: usize,
    second: usize,
) -> Result<Vec<AnyArray>, Error> {
    let mut cuts = Vec::with_capacity(alloc, 3)?;
    cuts.push(array.clone(alloc)?.sliced(0, first))?;
    cuts.push(array.clone(alloc)?.sliced(first, second - first))?;
    cuts.push(array.clone(alloc)?.sliced(second, array.len() - second))?;
    Ok(cuts)
}

// The values of dictionaries stay where an array is cut, so they are equal.
#[test]
fn slices_of_dictionaries(rt: HostRuntime) -> Result<(), Fail> {
    let alloc = rt.alloc();
    for case in 0..CASES {
        let mut random = Case::new(alloc, 23, case)?.keyed(alloc)?;
        let array = random.lay(alloc)?;
        let (first, count) = random.rng.window(array.len());
        let arrays = cuts(alloc, &array, first, first + count)?;
        let joined = concatenate(alloc, arrays.as_slice())?;
        let fits = is_array_of(alloc, &joined, &random.data_type, random.slots.as_slice())?;
        assert!(rt;
            fits,
            "cut at {first} of {count}: start {START}, case {case}"
        );
        let values = |array: &AnyArray| array
            .as_dictionary()
            .map_or(0, |keyed| keyed.values().len());
        assert!(rt;
            values(&joined) == values(&array),
            "values: start {START}, case {case}"
        );
    }
    Ok(())
}

/// Indices of slots of arrays, and where each slot is in all of them.
fn random_indices(
    alloc: Global,
    random: &mut Case,
    arrays: &[AnyArray],
) -> Result<(Vec<(usize, usize)>, Vec<usize>), Error> {
    let mut places = Vec::new(alloc);
    let mut found = Vec::new(alloc);
    for _ in 0..random.rng.below(12) {
        let array = random.rng.below(arrays.len());
        if arrays[array].len() > 0 {
            let index = random.rng.below(arrays[array].len());
            places.push((array, index))?;
            let before: usize = arrays[..array].iter().map(|a| a.len()).sum();
            found.push(before + index)?;
        }
    }
    Ok((places, found))
}

#[test]
fn slots_by_array_and_index(rt: HostRuntime) -> Result<(), Fail> {
    let alloc = rt.alloc();
    let mut made = 0;
    for case in 0..CASES * 2 {
        let mut random = Case::new(alloc, 24, case)?;
        let (arrays, all) = random_arrays(alloc, &mut random)?;
        let (places, found) = random_indices(alloc, &mut random, arrays.as_slice())?;
        match interleave(alloc, arrays.as_slice(), places.as_slice()) {
            Ok(array) => {
                made += 1;
                let slots = chosen(alloc, all.as_slice(), found.as_slice())?;
                let fits = is_array_of(alloc, &array, &random.data_type, slots.as_slice())?;
                assert!(rt; fits, "places {places:?}: start {START}, case {case}");
            }
            Err(error) => {
                let may = may_reject(alloc, &random, error)?;
                assert!(rt; may, "start {START}, case {case}: {error:?}");
            }
        }
    }
    assert!(rt; made > CASES, "only {made} were made: start {START}");
    Ok(())
}
