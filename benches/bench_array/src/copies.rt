//! Copies of arrays, and their nulls.
use crate::arrays;
use anyhow::Result;
use bench_tools::{begin, report};
use nest_array::any::AnyArray;
use nest_memory::error::Error;
use std::alloc::Global;
use std::io;
use std::rt::Clock;

const FEW: usize = 100;

const COPIES: usize = 200_000;

const QUESTIONS: usize = 1_000_000;

/// The lengths, added up, of so many copies of an array.
fn lengths_of_copies(alloc: Global, array: &AnyArray, n: usize) -> Result<usize, Error> {
    let mut total = 0usize;
    for _ in 0..n {
        let copy = array.clone(alloc)?;
        total = total.wrapping_add(copy.len());
        drop(copy);
    }
    Ok(total)
}

/// The fields, added up, of so many copies of an array's data type.
fn fields_of_copies(alloc: Global, array: &AnyArray, n: usize) -> Result<usize, Error> {
    let mut total = 0usize;
    for _ in 0..n {
        let copy = array.data_type().clone(alloc)?;
        total = total.wrapping_add(copy.fields().len());
        drop(copy);
    }
    Ok(total)
}

/// The nulls of two arrays added up, asked of one after the other so many times.
fn nulls_in_turn(left: &AnyArray, right: &AnyArray, n: usize) -> usize {
    let mut total = 0usize;
    for i in 0..n {
        let array = if i % 2 == 0 { left } else { right };
        total = total.wrapping_add(array.null_count());
    }
    total
}

fn report_copies<R: Clock + Print + AllocGlobal>(
    rt: &R,
    work: &str,
    array: &AnyArray,
    measured: bool,
) -> Result<()> {
    let n = if measured { COPIES } else { FEW };
    let begun = begin(rt, measured)?;
    let total = lengths_of_copies(rt.alloc(), array, n)?;
    report(rt, work, total, begun, n)?;
    Ok(())
}

fn report_type_copies<R: Clock + Print + AllocGlobal>(
    rt: &R,
    array: &AnyArray,
    measured: bool,
) -> Result<()> {
    let n = if measured { COPIES } else { FEW };
    let begun = begin(rt, measured)?;
    let total = fields_of_copies(rt.alloc(), array, n)?;
    report(
        rt,
        "  fields of all copies of their data type",
        total,
        begun,
        n,
    )?;
    Ok(())
}

fn report_nulls<R: Clock + Print>(
    rt: &R,
    left: &AnyArray,
    right: &AnyArray,
    measured: bool,
) -> io::Result<()> {
    let n = if measured { QUESTIONS } else { FEW };
    let begun = begin(rt, measured)?;
    let total = nulls_in_turn(left, right, n);
    report(rt, "  nulls added up", total, begun, n)
}

fn report_numbers_and_lists<R: Clock + Print + AllocGlobal>(
    rt: &R,
    numbers: &AnyArray,
    lists: &AnyArray,
    measured: bool,
) -> Result<()> {
    report_copies(rt, "  rows of all copies of numbers", numbers, measured)?;
    report_copies(rt, "  rows of all copies of lists", lists, measured)?;
    report_nulls(rt, numbers, lists, measured)?;
    Ok(())
}

/// A hundred lists of eight numbers, a tenth of rows and items null.
fn lists(alloc: Global) -> Result<AnyArray, Error> {
    let items = arrays::numbers(alloc, 800, true)?;
    arrays::lists(alloc, 100, 8, true, items)
}

fn run_lists<R: Clock + Print + AllocGlobal>(
    rt: &R,
    numbers: &AnyArray,
    measured: bool,
) -> Result<()> {
    let lists = lists(rt.alloc())?;
    let told = report_numbers_and_lists(rt, numbers, &lists, measured);
    drop(lists);
    told
}

fn run_numbers<R: Clock + Print + AllocGlobal>(rt: &R, measured: bool) -> Result<()> {
    let numbers = arrays::numbers(rt.alloc(), 1000, true)?;
    let told = run_lists(rt, &numbers, measured);
    drop(numbers);
    told
}

fn report_records<R: Clock + Print + AllocGlobal>(
    rt: &R,
    records: &AnyArray,
    measured: bool,
) -> Result<()> {
    report_copies(rt, "  rows of all copies of records", records, measured)?;
    report_type_copies(rt, records, measured)
}

fn run_records<R: Clock + Print + AllocGlobal>(rt: &R, measured: bool) -> Result<()> {
    let records = arrays::records(rt.alloc(), 100, true)?;
    let told = report_records(rt, &records, measured);
    drop(records);
    told
}

/// Copies arrays with nulls, and asks for their nulls.
pub fn run<R: Clock + Print + AllocGlobal>(rt: &R, measured: bool) -> Result<()> {
    println!(rt; "arrays with nulls, copied and asked")?;
    run_numbers(rt, measured)?;
    run_records(rt, measured)
}
