//! What the benchmarks share: reading the argument, the clock, and printing a result with its time.
#![tactic(auto)]

use std::fmt::Display;
use std::rt::{Clock, Env};
use std::time::Instant;
use std::{env, io};

/// Whether the last argument is `run`, so that the work is measured.
pub fn is_measured(rt: &(impl Env + Alloc)) -> io::Result<bool> {
    let mut measured = false;
    for word in env::args(rt)?.skip(1) {
        measured = word.as_str() == "run";
    }
    Ok(measured)
}

/// Returns the time at which a work begins, if it is measured.
pub fn begin(rt: &impl Clock, measured: bool) -> io::Result<Option<Instant>> {
    if measured {
        return Ok(Some(Instant::now(rt)?));
    }
    Ok(None)
}

/// Returns the time of each of n steps in thousandths of a nanosecond.
fn thousandths(rt: &impl Clock, begun: Instant, n: usize) -> io::Result<u128> {
    let nanos = begun.elapsed(rt)?.as_nanos();
    Ok(nanos.saturating_mul(1000) / (n as u128).max(1))
}

fn print_measured<R: Print>(
    rt: &R,
    work: &str,
    given: impl Display + Drop,
    each: u128,
) -> io::Result<()> {
    let whole = each / 1000;
    let rest = each % 1000;
    println!(rt; "{work}: {given}, {whole}.{rest:03} ns each")
}

/// Prints the result of a work and, if it was measured, the time of each of its n steps.
pub fn report<R: Clock + Print>(
    rt: &R,
    work: &str,
    given: impl Display + Drop,
    begun: Option<Instant>,
    n: usize,
) -> io::Result<()> {
    let Some(begun) = begun else {
        return println!(rt; "{work}: {given}");
    };
    let each = thousandths(rt, begun, n)?;
    print_measured(rt, work, given, each)
}
