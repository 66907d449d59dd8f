//! Slots at indices, and where a mask is true.
//!
//! Slots at indices, and by a mask.

use crate::cases::{CASES, Case, is_array_of};
use nest_array::AnyArray;
use nest_memory::datatypes::DataType;
use nest_take::{filter, take};
use random::layouts::lay;
use random::slot::{chosen, true_indices};
use random::slots::random_slots;
use random::start::START;
use std::test::Fail;

#[test]
fn slots_at_indices(rt: HostRuntime) -> Result<(), Fail> {
    let alloc = rt.alloc();
    for case in 0..CASES * 2 {
        let mut random = Case::new(alloc, 8, case)?;
        let array = random.lay(alloc)?;
        let mut indices = Vec::new(alloc);
        if !random.slots.is_empty() {
            for _ in 0..random.rng.below(10) {
                indices.push(random.rng.below(random.slots.len()))?;
            }
        }
        let taken = take(alloc, &array, indices.as_slice())?;
        let slots = chosen(alloc, random.slots.as_slice(), indices.as_slice())?;
        let fits = is_array_of(alloc, &taken, &random.data_type, slots.as_slice())?;
        assert!(rt; fits, "indices {indices:?}: start {START}, case {case}");
    }
    Ok(())
}

#[test]
fn slots_by_a_mask(rt: HostRuntime) -> Result<(), Fail> {
    let alloc = rt.alloc();
    for case in 0..CASES {
        let mut random = Case::new(alloc, 9, case)?;
        let array = random.lay(alloc)?;
        let mask = random_slots(alloc, &mut random.rng, &DataType::Boolean, array.len())?;
        let layouts = lay(alloc, &mut random.rng, &DataType::Boolean, mask.as_slice())?;
        let indices = true_indices(alloc, mask.as_slice())?;
        let slots = chosen(alloc, random.slots.as_slice(), indices.as_slice())?;
        let AnyArray::Boolean(bits) = &layouts else {
            continue;
        };
        let kept = filter(alloc, &array, bits)?;
        let fits = is_array_of(alloc, &kept, &random.data_type, slots.as_slice())?;
        assert!(rt; fits, "indices {indices:?}: start {START}, case {case}");
    }
    Ok(())
}
