//! Measures slicing, reading, copying, building and comparing nested arrays: `bench_array run` prints nanoseconds per slice, copy, row or item.
//! Without `run` it does the same work on few rows and prints the results alone.
#![tactic(auto)]

mod arrays;
mod building;
mod comparing;
mod copies;
mod cuts;
mod kinds;
mod least;
mod nulls;
mod rows;
mod scans;

use anyhow::Result;
use bench_tools::is_measured;
use std::rt::Clock;

fn run<R: Clock + Print + AllocGlobal>(rt: &R, measured: bool) -> Result<()> {
    cuts::run(rt, measured)?;
    rows::run(rt, measured)?;
    scans::run(rt, measured)?;
    copies::run(rt, measured)?;
    least::run(rt, measured)?;
    kinds::run(rt, measured)?;
    nulls::run(rt, measured)?;
    building::run(rt, measured)?;
    comparing::run(rt, measured)
}

fn main(rt: HostRuntime) -> Result<()> {
    let measured = is_measured(&rt)?;
    run(&rt, measured)
}
