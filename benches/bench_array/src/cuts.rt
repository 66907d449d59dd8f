//! Slices of records.
use crate::arrays;
use anyhow::Result;
use bench_tools::{begin, report};
use nest_array::any::AnyArray;
use nest_memory::error::Error;
use std::alloc::Global;
use std::io;
use std::rt::Clock;

const FEW: usize = 100;

const ROWS: usize = 1_000_000;

/// Slices the first row off, so many times.
fn cut_in_place(array: &mut AnyArray, n: usize) {
    for _ in 0..n {
        let len = array.len();
        let start = len.min(1);
        array.slice(start, len - start);
    }
}

/// The lengths, added up, of so many slices of an array.
fn cut_by_clone(alloc: Global, array: &AnyArray, n: usize) -> Result<usize, Error> {
    let len = array.len();
    let mut total = 0usize;
    for i in 0..n {
        let start = i.min(len);
        let cut = array.clone(alloc)?.sliced(start, len - start);
        total = total.wrapping_add(cut.len());
        drop(cut);
    }
    Ok(total)
}

fn report_cuts_by_clone<R: Clock + Print + AllocGlobal>(
    rt: &R,
    array: &AnyArray,
    measured: bool,
) -> Result<()> {
    let n = array.len();
    let begun = begin(rt, measured)?;
    let total = cut_by_clone(rt.alloc(), array, n)?;
    report(rt, "  rows of all slices of a clone", total, begun, n)?;
    Ok(())
}

fn report_cuts_in_place<R: Clock + Print>(
    rt: &R,
    array: &mut AnyArray,
    measured: bool,
) -> io::Result<()> {
    let n = array.len();
    let begun = begin(rt, measured)?;
    cut_in_place(array, n);
    report(rt, "  rows left by slices in place", array.len(), begun, n)
}

fn report_cuts<R: Clock + Print + AllocGlobal>(
    rt: &R,
    array: &mut AnyArray,
    measured: bool,
) -> Result<()> {
    report_cuts_by_clone(rt, array, measured)?;
    report_cuts_in_place(rt, array, measured)?;
    Ok(())
}

fn run_records<R: Clock + Print + AllocGlobal>(rt: &R, nulls: bool, measured: bool) -> Result<()> {
    let n = if measured { ROWS } else { FEW };
    let mut array = arrays::records(rt.alloc(), n, nulls)?;
    let told = report_cuts(rt, &mut array, measured);
    drop(array);
    told
}

/// Slices records, without a null and with a tenth of them null.
pub fn run<R: Clock + Print + AllocGlobal>(rt: &R, measured: bool) -> Result<()> {
    println!(rt; "records of a number and a string, sliced")?;
    run_records(rt, false, measured)?;
    println!(rt; "records and nulls, sliced")?;
    run_records(rt, true, measured)
}
