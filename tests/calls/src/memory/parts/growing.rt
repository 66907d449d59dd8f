//! Offsets that are pushed, cut off and frozen.
use super::unless_without_memory;
use nest_memory::error::Error;
use nest_memory::offsets::Offsets;
use std::alloc::Global;
use std::process::Abort;

#[test]
fn offsets_past_the_largest(rt: HostRuntime) {
    let mut small = Offsets::<i32>::new(rt.alloc()).expect(&rt, "no slot");
    assert!(rt; small.try_push_usize(2147483647) == Ok(()));
    assert!(rt; small.try_push_usize(1) == Err(Error::Overflow));
    assert!(rt; small.try_extend_from_lengths(&[0, 1]) == Err(Error::Overflow));
    assert!(rt; small.len_proxy() == 1);
}

/// The number of slots and the last offset.
fn size(offsets: &Offsets<i64>) -> (usize, usize) {
    (offsets.len_proxy(), offsets.last())
}

/// Slots of 2, 0, 3, 0 and 0 items.
fn grow(offsets: &mut Offsets<i64>) -> Result<(), Error> {
    offsets.try_extend_from_lengths(&[2, 0, 3])?;
    offsets.extend_constant(2)
}

fn delta(alloc: Global) -> Result<Offsets<i64>, Error> {
    let mut offsets = Offsets::with_capacity(alloc, 7)?;
    match grow(&mut offsets) {
        Ok(()) => Ok(offsets),
        Err(error) => Err(error),
    }
}

#[test]
fn growing_offsets(rt: HostRuntime) {
    let mut offsets = delta(rt.alloc()).expect(&rt, "five slots");
    assert!(rt; offsets.capacity() >= 1);
    assert!(rt; offsets.extend_constant(usize::MAX) == Err(Error::Overflow));
    assert!(rt; size(&offsets) == (5, 5));
    if offsets.len_proxy() == 5 {
        assert!(rt; offsets.start_end(2) == (2, 5));
    }
}

#[test]
fn joined_offsets(rt: HostRuntime) {
    let more = delta(rt.alloc()).expect(&rt, "five slots");
    let mut joined = Offsets::<i64>::new(rt.alloc()).expect(&rt, "no slot");
    assert!(rt; joined.try_push_usize(4) == Ok(()));
    assert!(rt; joined.try_extend_from_self(&more) == Ok(()));
    assert!(rt; size(&joined) == (6, 9));
}

#[test]
fn frozen_offsets(rt: HostRuntime) {
    let mut offsets = delta(rt.alloc()).expect(&rt, "five slots");
    assert!(rt; offsets.reserve(10) == Ok(()));
    assert!(rt; offsets.len_proxy() == 5);
    offsets.truncate(3);
    offsets.shrink_to_fit();
    let frozen = offsets.freeze().expect(&rt, "the same offsets");
    assert!(rt; offsets.len_proxy() == 0);
    assert!(rt; frozen.as_slice() == [0, 2, 2, 5].as_slice());
}

/// A rejected call changes neither the number of slots nor the last offset.
fn expect_kept(
    rt: &impl Abort,
    done: Result<(), Error>,
    before: (usize, usize),
    after: (usize, usize),
) {
    if unless_without_memory(rt, done).is_none() {
        assert!(rt; after == before);
    }
}

// The next four pass whichever allocation fails: a rejected call changes nothing, and a freeze leaves its
// object empty.
#[test]
fn offsets_are_pushed_without_memory(rt: HostRuntime) {
    let Some(mut delta) = unless_without_memory(&rt, Offsets::<i64>::new(rt.alloc())) else {
        return;
    };
    for length in 0..9usize {
        let before = delta.len_proxy();
        let pushed = unless_without_memory(&rt, delta.try_push_usize(length)).is_some();
        assert!(rt; delta.len_proxy() == before.saturating_add(usize::from(pushed)));
    }
}

#[test]
fn offsets_grow_without_memory(rt: HostRuntime) {
    let Some(mut delta) = unless_without_memory(&rt, Offsets::<i64>::new(rt.alloc())) else {
        return;
    };
    let before = size(&delta);
    let done = delta.try_extend_from_lengths(&[1, 2, 3, 4, 5, 6, 7, 8, 9, 10, 11]);
    expect_kept(&rt, done, before, size(&delta));
    let before = size(&delta);
    let done = delta.extend_constant(100);
    expect_kept(&rt, done, before, size(&delta));
    let before = size(&delta);
    let done = delta.reserve(1000);
    expect_kept(&rt, done, before, size(&delta));
}

#[test]
fn offsets_are_joined_without_memory(rt: HostRuntime) {
    let Some(more) = unless_without_memory(&rt, delta(rt.alloc())) else {
        return;
    };
    if let Some(mut joined) = unless_without_memory(&rt, Offsets::with_capacity(rt.alloc(), 1)) {
        let done = joined.try_extend_from_self(&more);
        expect_kept(&rt, done, (0, 0), size(&joined));
    }
}

#[test]
fn offsets_freeze_without_memory(rt: HostRuntime) {
    let Some(mut delta) = unless_without_memory(&rt, delta(rt.alloc())) else {
        return;
    };
    let before = size(&delta);
    if let Some(frozen) = unless_without_memory(&rt, delta.freeze()) {
        assert!(rt; (frozen.len_proxy(), frozen.last()) == before);
    }
    assert!(rt; size(&delta) == (0, 0));
}
