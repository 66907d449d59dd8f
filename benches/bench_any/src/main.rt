//! Measures pushing into builders of dictionaries, records and lists of records: `bench_any run` prints nanoseconds per value or row.
//! Without `run` it does the same work on few rows and prints the results alone.
#![tactic(auto)]

mod keyed;
mod makers;
mod records;

use anyhow::Result;
use bench_tools::is_measured;
use std::rt::Clock;

fn run<R: Clock + Print + AllocGlobal>(rt: &R, measured: bool) -> Result<()> {
    keyed::run(rt, measured)?;
    records::run(rt, measured)
}

fn main(rt: HostRuntime) -> Result<()> {
    let measured = is_measured(&rt)?;
    run(&rt, measured)
}
