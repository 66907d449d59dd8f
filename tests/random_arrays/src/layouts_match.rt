//! Arrays made of fitting parts.

use crate::cases::{CASES, Case, is_array_of};
use crate::refusals::layout;
use nest_array::Array;
use random::numbers::Generator;
use random::start::START;
use random::types::random_type;
use std::test::Fail;

/// Parts that fit: the array is its slots, by its parts and call by call; so are clones.
#[test]
fn arrays_are_their_slots(rt: HostRuntime) -> Result<(), Fail> {
    let alloc = rt.alloc();
    for case in 0..CASES {
        let mut random = Case::new(alloc, 1, case)?;
        let array = random.lay(alloc)?;
        let slots = random.slots.as_slice();
        let fits = is_array_of(alloc, &array, &random.data_type, slots)?;
        assert!(rt; fits, "start {START}, case {case}");
        let copy = array.clone(alloc)?;
        let fits = is_array_of(alloc, &copy, &random.data_type, slots)?;
        assert!(rt; fits, "clone: start {START}, case {case}");
        let copy = Array::to_boxed(&array, alloc)?;
        drop(array);
        let fits = is_array_of(alloc, &copy, &random.data_type, slots)?;
        assert!(rt; fits, "boxed: start {START}, case {case}");
    }
    Ok(())
}

/// Types of every layout and of every native kind.
#[test]
fn every_layout_occurs(rt: HostRuntime) -> Result<(), Fail> {
    let alloc = rt.alloc();
    let mut known = Vec::new(alloc);
    for case in 0..2000 {
        let mut rng = Generator::new(START, 15, case);
        let depth = rng.between(0, 4);
        let random = layout(&random_type(alloc, &mut rng, depth)?);
        if !known.contains(&random) {
            known.push(random)?;
        }
    }
    assert_eq!(rt; known.len(), 14 + 12, "start {START}: {known:?}");
    Ok(())
}
