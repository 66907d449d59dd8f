//! Scalars: one slot by itself.

use crate::cases::{CASES, Case};
use nest_array::new_scalar;
use random::read::slot_of_scalar;
use random::start::START;
use std::test::Fail;

/// One slot by itself.
#[test]
fn slots_by_themselves(rt: HostRuntime) -> Result<(), Fail> {
    let alloc = rt.alloc();
    for case in 0..CASES {
        let mut random = Case::new(alloc, 7, case)?;
        let (a, b) = (random.lay(alloc)?, random.lay(alloc)?);
        for i in 0..random.slots.len() {
            let j = random.rng.below(random.slots.len());
            let (slot, other) = (&random.slots[i], &random.slots[j]);
            let scalar = new_scalar(alloc, &a, i)?;
            let read = slot_of_scalar(alloc, &scalar)?;
            assert!(rt; read == *slot, "slot {i}: start {START}, case {case}");
            assert!(rt;
                *scalar.data_type() == random.data_type,
                "slot {i}: start {START}, case {case}"
            );
            assert_eq!(rt;
                scalar.is_valid(),
                !slot.is_null(),
                "slot {i}: start {START}, case {case}"
            );
            let same = *slot == *other;
            let found = scalar == new_scalar(alloc, &b, j)?;
            assert_eq!(rt;
                found,
                same,
                "slots {i} and {j}: start {START}, case {case}"
            );
        }
    }
    Ok(())
}
