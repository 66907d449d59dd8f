//! Equality, and what it counts.
//!
//! Other parts of the same slots are the same array; one slot changed, another type, another length are not; counts.

use crate::cases::{CASES, Case};
use nest_array::equal::{equal, equal_counted};
use nest_array::{AnyArray, Steps};
use random::layouts::lay;
use random::perturb::perturbed_slots;
use random::slot::{Slot, node_counts};
use random::slots::random_slots;
use random::start::START;
use random::types::random_type;
use std::test::Fail;

/// What a comparison pushes, and how many steps beyond those that were pushed before.
fn counted(a: &AnyArray, b: &AnyArray, before: u64) -> (bool, usize) {
    let mut steps = Steps::new();
    steps.add(before);
    let same = equal_counted(a, b, &mut steps);
    (same, (steps.count() - before) as usize)
}

/// Whether arrays of one kind are the same by the kind's own `==`.
fn same_of_kind(a: &AnyArray, b: &AnyArray) -> bool {
    match (a, b) {
        (AnyArray::Null(x), AnyArray::Null(y)) => *x == *y,
        (AnyArray::Boolean(x), AnyArray::Boolean(y)) => *x == *y,
        (AnyArray::Primitive(x), AnyArray::Primitive(y)) => *x == *y,
        (AnyArray::Binary(x), AnyArray::Binary(y)) => *x == *y,
        (AnyArray::LargeBinary(x), AnyArray::LargeBinary(y)) => *x == *y,
        (AnyArray::Utf8(x), AnyArray::Utf8(y)) => *x == *y,
        (AnyArray::LargeUtf8(x), AnyArray::LargeUtf8(y)) => *x == *y,
        (AnyArray::FixedSizeBinary(x), AnyArray::FixedSizeBinary(y)) => *x == *y,
        (AnyArray::FixedSizeList(x), AnyArray::FixedSizeList(y)) => *x == *y,
        (AnyArray::List(x), AnyArray::List(y)) => *x == *y,
        (AnyArray::LargeList(x), AnyArray::LargeList(y)) => *x == *y,
        (AnyArray::Struct(x), AnyArray::Struct(y)) => *x == *y,
        (AnyArray::Map(x), AnyArray::Map(y)) => *x == *y,
        (AnyArray::Union(x), AnyArray::Union(y)) => *x == *y,
        (AnyArray::Dictionary(x), AnyArray::Dictionary(y)) => *x == *y,
        _ => false,
    }
}

/// Whether every call pushes that two arrays of one type are the same, or that they are not.
fn all_push(a: &AnyArray, b: &AnyArray, same: bool) -> bool {
    equal(a, b) == same
        && equal(b, a) == same
        && (*a == *b) == same
        && same_of_kind(a, b) == same
        && same_of_kind(b, a) == same
}

/// Whether a count is what a list of slots is worth where the result is true, and else at most that.
fn is_count_of((same, compared): (bool, usize), expected: bool, slots: &[Slot]) -> bool {
    let worth = node_counts(slots);
    same == expected && compared <= worth && (!same || compared == worth)
}

#[test]
fn other_parts_of_the_same_slots(rt: HostRuntime) -> Result<(), Fail> {
    let alloc = rt.alloc();
    for case in 0..CASES {
        let mut random = Case::new(alloc, 4, case)?;
        let (a, b) = (random.lay(alloc)?, random.lay(alloc)?);
        assert!(rt; all_push(&a, &b, true), "start {START}, case {case}");
        let before = random.rng.below(1000) as u64;
        let count = counted(&a, &b, before);
        let slots = random.slots.as_slice();
        assert!(rt;
            is_count_of(count, true, slots),
            "{count:?}: start {START}, case {case}"
        );
    }
    Ok(())
}

#[test]
fn one_slot_changed(rt: HostRuntime) -> Result<(), Fail> {
    let alloc = rt.alloc();
    for case in 0..CASES * 2 {
        let mut random = Case::new(alloc, 5, case)?;
        let a = random.lay(alloc)?;
        let slots = random.slots.as_slice();
        let changed = perturbed_slots(alloc, &mut random.rng, &random.data_type, slots)?;
        let b = lay(
            alloc,
            &mut random.rng,
            &random.data_type,
            changed.as_slice(),
        )?;
        let same = changed.as_slice() == slots;
        assert!(rt; all_push(&a, &b, same), "start {START}, case {case}");
        let count = counted(&a, &b, 7);
        assert!(rt;
            is_count_of(count, same, slots),
            "{count:?}: start {START}, case {case}"
        );
    }
    Ok(())
}

#[test]
fn other_types_and_lengths(rt: HostRuntime) -> Result<(), Fail> {
    let alloc = rt.alloc();
    for case in 0..CASES {
        let mut random = Case::new(alloc, 6, case)?;
        let a = random.lay(alloc)?;
        let count = random.slots.len();
        let data_type = random_type(alloc, &mut random.rng, 2)?;
        let slots = random_slots(alloc, &mut random.rng, &data_type, count)?;
        let b = lay(alloc, &mut random.rng, &data_type, slots.as_slice())?;
        let same = data_type == random.data_type && slots == random.slots;
        assert_eq!(rt;
            equal(&a, &b),
            same,
            "another type: start {START}, case {case}"
        );
        if data_type != random.data_type {
            assert_eq!(rt;
                counted(&a, &b, 3),
                (false, 0),
                "another type: start {START}, case {case}"
            );
        }
        let more = random_slots(alloc, &mut random.rng, &random.data_type, 1)?;
        random.slots.extend(more)?;
        let longer = random.lay(alloc)?;
        assert_eq!(rt;
            counted(&a, &longer, 3),
            (false, 0),
            "longer: start {START}, case {case}"
        );
        assert_eq!(rt;
            counted(&longer, &a, 3),
            (false, 0),
            "shorter: start {START}, case {case}"
        );
    }
    Ok(())
}
