//! Scenarios whose allocations fail, each once.
//!
//! `rt try --test --fail-alloc FAILED` fails one allocation of each test, the one of the number `FAILED`. The test of allocation
//! n of a scenario first allocates and frees `FAILED - n` blocks, so that allocation n of the scenario fails. The call that made
//! it returns `Memory` and changes nothing, the same call succeeds when it is made again, and the result is the right one. If the
//! scenario makes fewer than n allocations, one of the n blocks after it fails, and so does the test.
//!
//! The folders `failed_allocations_NAME` have the scenarios. Their module `allocations` has a test for each scenario, which
//! states how many allocations it makes. `scripts/test` adds a test for these allocations: for all with `--all-allocations`, else for
//! some.
#![tactic(auto)]

pub mod failures;
pub mod parts;
pub mod samples;

use failures::{Failure, Failures, expect};
use std::alloc::{AllocError, Global};
use std::process::Abort;

/// The number of the allocation of a test that fails, the first being 1. No scenario makes as many.
const FAILED: usize = 600;

/// Allocates blocks, and frees each before the next.
fn allocate(alloc: Global, count: usize) -> Result<(), AllocError> {
    for number in 0..count {
        drop(Box::new(alloc, number)?);
    }
    Ok(())
}

/// Runs a scenario of which the allocation of a number fails, the first being 1.
fn run_failing<F: FnOnce(&mut Failures, Global) -> Result<(), Failure>>(
    alloc: Global,
    scenario: F,
    number: usize,
) -> Result<(), Failure> {
    let before = allocate(alloc, FAILED.saturating_sub(number));
    expect(before.is_ok(), "an allocation before the scenario")?;
    scenario(&mut Failures::new(), alloc)?;
    let after = allocate(alloc, number);
    expect(after.is_ok(), "an allocation after the scenario")
}

/// Runs a scenario with memory. Returns the number of its allocations, if it is below `FAILED`.
fn count_allocations<F: FnOnce(&mut Failures, Global) -> Result<(), Failure>>(
    alloc: Global,
    scenario: F,
) -> Result<Option<usize>, Failure> {
    scenario(&mut Failures::new(), alloc)?;
    for number in 1..FAILED {
        if Box::new(alloc, number).is_err() {
            return Ok(FAILED.checked_sub(number));
        }
    }
    Ok(None)
}

/// A test of a scenario of which the allocation of a number fails.
pub fn fail<F: FnOnce(&mut Failures, Global) -> Result<(), Failure>>(
    rt: &(impl Abort + AllocGlobal),
    scenario: F,
    number: usize,
) {
    let outcome = run_failing(rt.alloc(), scenario, number);
    assert!(rt; outcome == Ok(()), "{outcome:?}");
}

/// A test of the number of allocations of a scenario.
pub fn expect_count<F: FnOnce(&mut Failures, Global) -> Result<(), Failure>>(
    rt: &(impl Abort + AllocGlobal),
    scenario: F,
    wanted: usize,
) {
    let count = count_allocations(rt.alloc(), scenario);
    assert!(rt; count == Ok(Some(wanted)), "{count:?}");
}
