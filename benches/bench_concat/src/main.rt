//! Measures concatenating arrays of each kind, beside a plain loop over vectors, offsets and bytes: `bench_concat run` prints nanoseconds per
//! row. Each work is done once before it is measured, so that none pays for the first use of memory.
//! Without `run` it does the same work on few rows and prints the results alone.
#![tactic(auto)]

mod arrays;
mod raw;

use anyhow::Result;
use bench_tools::{begin, is_measured, report};
use nest_array::AnyArray;
use nest_concat::concatenate;
use nest_memory::error::Error;
use std::alloc::Global;
use std::rt::Clock;

/// How many arrays, of how many rows.
#[derive(Clone, Copy)]
struct Size {
    arrays: usize,
    rows: usize,
}

const FEW: Size = Size {
    arrays: 4,
    rows: 10,
};

const MANY: Size = Size {
    arrays: 1000,
    rows: 1000,
};

const TWO: Size = Size {
    arrays: 2,
    rows: 1_000_000,
};

/// What the rows are.
#[derive(Clone, Copy)]
enum Kind {
    Numbers,
    Texts,
    Lists,
}

fn made(alloc: Global, kind: Kind, n: usize) -> Result<AnyArray, Error> {
    match kind {
        Kind::Numbers => arrays::numbers(alloc, n),
        Kind::Texts => arrays::texts(alloc, n),
        Kind::Lists => arrays::lists(alloc, n),
    }
}

fn copies(alloc: Global, kind: Kind, size: Size) -> Result<Vec<AnyArray>, Error> {
    let mut all = Vec::with_capacity(alloc, size.arrays)?;
    for _ in 0..size.arrays {
        match made(alloc, kind, size.rows) {
            Ok(array) => all.push(array)?,
            Err(error) => return Err(error),
        }
    }
    Ok(all)
}

fn report_arrays<R: Clock + Print + AllocGlobal>(
    rt: &R,
    kind: Kind,
    size: Size,
    measured: bool,
) -> Result<()> {
    let all = copies(rt.alloc(), kind, size)?;
    drop(concatenate(rt.alloc(), &all));
    let begun = begin(rt, measured)?;
    let joined = concatenate(rt.alloc(), &all);
    let told = match &joined {
        Ok(array) => report(rt, "  arrays", array.len(), begun, array.len()),
        Err(error) => return Err((*error).into()),
    };
    drop(joined);
    told?;
    Ok(())
}

fn report_vectors<R: Clock + Print + AllocGlobal>(
    rt: &R,
    size: Size,
    measured: bool,
) -> Result<()> {
    let all = raw::vectors(rt.alloc(), size.arrays, size.rows, 7i64)?;
    drop(raw::join_vectors(rt.alloc(), &all)?);
    let begun = begin(rt, measured)?;
    let joined = raw::join_vectors(rt.alloc(), &all)?;
    report(rt, "  by a plain loop", joined.len(), begun, joined.len())?;
    Ok(())
}

fn report_rows<T: Copy, R: Clock + Print + AllocGlobal>(
    rt: &R,
    size: Size,
    item: T,
    measured: bool,
) -> Result<()> {
    let all = raw::made_rows(rt.alloc(), size.arrays, size.rows, item)?;
    drop(raw::join_rows(rt.alloc(), &all)?);
    let begun = begin(rt, measured)?;
    let joined = raw::join_rows(rt.alloc(), &all)?;
    report(rt, "  by a plain loop", joined.len(), begun, joined.len())?;
    Ok(())
}

fn run_kinds<R: Clock + Print + AllocGlobal>(rt: &R, size: Size, measured: bool) -> Result<()> {
    println!(rt; "numbers")?;
    report_vectors(rt, size, measured)?;
    report_arrays(rt, Kind::Numbers, size, measured)?;
    println!(rt; "strings of 8 bytes")?;
    report_rows(rt, size, b'n', measured)?;
    report_arrays(rt, Kind::Texts, size, measured)?;
    println!(rt; "lists of 8 numbers")?;
    report_rows(rt, size, 7i64, measured)?;
    report_arrays(rt, Kind::Lists, size, measured)
}

fn main(rt: HostRuntime) -> Result<()> {
    let measured = is_measured(&rt)?;
    println!(rt; "many arrays")?;
    run_kinds(&rt, if measured { MANY } else { FEW }, measured)?;
    println!(rt; "two arrays")?;
    run_kinds(&rt, if measured { TWO } else { FEW }, measured)
}
