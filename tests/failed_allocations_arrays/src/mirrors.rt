//! Two equal builders: what a call that failed changed in one of them shows beside the other.

use failed_allocations::failures::{Failure, Failures, expect};
use nest_array::AnyArray;
use nest_build::array::MutableArray;
use nest_memory::error::Error;
use std::alloc::Global;

/// A builder of which there are two.
pub trait Mirrored: MutableArray {
    /// Whether both have the same rows at each level.
    fn is_same(&mut self, other: &mut Self) -> bool;

    /// Adds rows to both, which have none.
    fn fill(
        failures: &mut Failures,
        alloc: Global,
        first: &mut Self,
        second: &mut Self,
    ) -> Result<(), Failure>;
}

/// Makes a call on both. If an allocation fails, the call changes nothing, and is made again.
pub fn change<B: Mirrored, F: Fn(&mut B) -> Result<(), Error>>(
    failures: &mut Failures,
    first: &mut B,
    second: &mut B,
    call: F,
) -> Result<(), Failure> {
    let outcome = call(first);
    if failures.is_failure(&outcome)? {
        expect(first.is_same(second), "a builder after a call that failed")?;
        call(first)?;
    }
    let outcome = call(second);
    if failures.is_failure(&outcome)? {
        call(second)?;
    }
    expect(first.is_same(second), "builders after a call")
}

fn are_empty<B: Mirrored>(first: &mut B, second: &mut B) -> bool {
    first.is_empty() && first.is_complete() && first.is_same(second)
}

/// Fills two builders and freezes them to equal arrays. If an allocation of the freeze fails, the builder has no row at any
/// level, and is filled again.
pub fn freeze<B: Mirrored, F: Fn() -> Result<B, Error>>(
    failures: &mut Failures,
    alloc: Global,
    make: F,
) -> Result<AnyArray, Failure> {
    let mut first = failures.retry(&make)?;
    let mut second = failures.retry(&make)?;
    B::fill(failures, alloc, &mut first, &mut second)?;
    let outcome = first.as_box();
    if failures.is_failure(&outcome)? {
        let array = second.as_box()?;
        expect(
            are_empty(&mut first, &mut second),
            "builders after a freeze that failed",
        )?;
        B::fill(failures, alloc, &mut first, &mut second)?;
        expect(
            first.as_box()? == array,
            "an array after a freeze that failed",
        )?;
        return Ok(array);
    }
    let array = outcome?;
    let outcome = second.as_arc(alloc);
    expect(
        are_empty(&mut first, &mut second),
        "builders after a freeze",
    )?;
    if failures.is_failure(&outcome)? {
        B::fill(failures, alloc, &mut first, &mut second)?;
        expect(
            *second.as_arc(alloc)? == array,
            "a shared array after a freeze that failed",
        )?;
        return Ok(array);
    }
    expect(*outcome? == array, "two arrays of the same rows")?;
    Ok(array)
}
