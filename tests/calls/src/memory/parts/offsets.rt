//! Offsets that never change, and what their constructors reject.
use super::unless_without_memory;
use nest_memory::error::{Error, SpecError};
use nest_memory::offset::Offset;
use nest_memory::offsets::{Offsets, OffsetsBuffer};
use std::alloc::Global;

const WRONG: Option<Error> = Some(Error::OutOfSpec(SpecError::Offsets));

fn offsets_of(alloc: Global, parts: &[i32]) -> Result<OffsetsBuffer<i32>, Error> {
    OffsetsBuffer::try_new(alloc, Vec::from_slice(alloc, parts)?)
}

fn growing_from(alloc: Global, parts: &[i64]) -> Result<Offsets<i64>, Error> {
    Offsets::try_new(Vec::from_slice(alloc, parts)?)
}

#[test]
fn offset_types(rt: HostRuntime) {
    assert!(rt; !i32::IS_LARGE);
    assert!(rt; i64::IS_LARGE);
    assert!(rt; i32::from_usize(2147483647) == Some(2147483647));
    assert!(rt; i32::from_usize(2147483648).is_none());
    assert!(rt; i64::from_usize(9223372036854775808).is_none());
    assert!(rt; (-1i32).is_negative());
    assert!(rt; 7i64.to_usize() == 7);
}

/// Offsets that are none, negative or falling are rejected, and those of a builder that begin past 0; `[2,2]` is one slot.
#[test]
fn rejected_offsets(rt: HostRuntime) {
    for parts in [[].as_slice(), [-1, 0].as_slice(), [2, 1].as_slice()] {
        assert!(rt; offsets_of(rt.alloc(), parts).err() == WRONG);
    }
    assert!(rt; growing_from(rt.alloc(), &[1, 2]).err() == WRONG);
}

#[test]
fn offsets_of_one_slot(rt: HostRuntime) {
    let one = offsets_of(rt.alloc(), &[2, 2]).expect(&rt, "one slot");
    assert!(rt; one.len_proxy() == 1);
    assert!(rt; one.first() == 2);
    assert!(rt; one.last() == 2);
    let two = growing_from(rt.alloc(), &[0, 2, 2]).expect(&rt, "two slots");
    assert!(rt; two.len_proxy() == 2);
    let none = OffsetsBuffer::<i32>::new(rt.alloc()).expect(&rt, "no slot");
    assert!(rt; none.as_slice() == [0].as_slice());
}

#[test]
fn slices_of_shared_offsets(rt: HostRuntime) {
    let mut shared = offsets_of(rt.alloc(), &[0, 4, 6, 6]).expect(&rt, "three slots");
    assert!(rt; shared.len() == 4);
    shared.slice(1, 3);
    assert!(rt; shared.len_proxy() == 2);
    let copy = shared.clone().expect(&rt, "a second owner");
    let cut = copy.sliced(0, 2);
    assert!(rt; cut.as_slice() == [4, 6].as_slice());
    assert!(rt; shared.len() == 3);
}

// Passes whichever allocation fails.
#[test]
fn offsets_without_memory(rt: HostRuntime) {
    if let Some(none) = unless_without_memory(&rt, OffsetsBuffer::<i32>::new(rt.alloc())) {
        assert!(rt; none.len() == 1);
    }
    if let Some(one) = unless_without_memory(&rt, offsets_of(rt.alloc(), &[0, 3])) {
        assert!(rt; one.last() == 3);
    }
}
