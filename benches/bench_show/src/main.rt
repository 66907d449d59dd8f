//! Measures writing arrays as JSON, beside a plain loop over raw numbers: `bench_show run` prints nanoseconds per slot. Each work is done
//! once before it is measured, so that none pays for the first use of memory.
//! Without `run` it does the same work on few slots and prints the results alone.
#![tactic(auto)]

mod arrays;
mod rows;

use anyhow::Result;
use bench_tools::{begin, is_measured, report};
use json_write::output::to_json_string;
use nest_array::AnyArray;
use nest_memory::error::Error;
use std::alloc::{AllocError, Global};
use std::rt::Clock;

const FEW: usize = 1000;

const SLOTS: usize = 1_000_000;

/// Numbers with a comma after each, by a plain loop.
fn plain_text(alloc: Global, values: &[i64]) -> Result<String, AllocError> {
    let mut text = String::new(alloc);
    for value in values {
        write!(text, "{value},")?;
    }
    Ok(text)
}

fn run_plain<R: Clock + Print + AllocGlobal>(rt: &R, n: usize, measured: bool) -> Result<()> {
    let values = arrays::raw_numbers(rt.alloc(), n)?;
    drop(plain_text(rt.alloc(), &values)?);
    let begun = begin(rt, measured)?;
    let text = plain_text(rt.alloc(), &values)?;
    report(rt, "raw numbers, by a plain loop", text.len(), begun, n)?;
    Ok(())
}

/// Writes an array, if it was made.
pub(crate) fn run_array<R: Clock + Print + AllocGlobal>(
    rt: &R,
    kind: &str,
    array: Result<AnyArray, Error>,
    measured: bool,
) -> Result<()> {
    let array = array?;
    drop(to_json_string(rt.alloc(), &array)?);
    let begun = begin(rt, measured)?;
    let text = to_json_string(rt.alloc(), &array)?;
    report(rt, kind, text.len(), begun, array.len())?;
    Ok(())
}

fn run_all<R: Clock + Print + AllocGlobal>(rt: &R, n: usize, measured: bool) -> Result<()> {
    run_plain(rt, n, measured)?;
    run_array(rt, "numbers", arrays::numbers(rt.alloc(), n), measured)?;
    let plain = arrays::texts(rt.alloc(), n, *b"nineteen");
    run_array(rt, "strings of 8 bytes", plain, measured)?;
    let escaped = arrays::texts(rt.alloc(), n, *b"nine\nten");
    run_array(rt, "strings of 8 bytes, one escaped", escaped, measured)?;
    run_array(
        rt,
        "lists of 8 numbers",
        arrays::lists(rt.alloc(), n),
        measured,
    )?;
    let records = arrays::records(rt.alloc(), n);
    run_array(rt, "records of a number and a string", records, measured)?;
    rows::run(rt, n, measured)
}

fn main(rt: HostRuntime) -> Result<()> {
    let measured = is_measured(&rt)?;
    run_all(&rt, if measured { SLOTS } else { FEW }, measured)
}
