//! Rows of lists, read as arrays.
use crate::arrays;
use anyhow::Result;
use bench_tools::{begin, report};
use nest_array::any::AnyArray;
use nest_array::list::ListArray;
use nest_array::window::Window;
use nest_flat::any_primitive::AnyPrimitive;
use nest_memory::error::Error;
use std::alloc::Global;
use std::rt::Clock;

const FEW: usize = 100;

const ROWS: usize = 100_000;

const SIZE: usize = 8;

fn sum(values: &[i64]) -> i64 {
    let mut sum = 0i64;
    for value in values {
        sum = sum.wrapping_add(*value);
    }
    sum
}

/// The raw values of an array of numbers added up.
fn sum_of_array(array: &AnyArray) -> i64 {
    match array {
        AnyArray::Primitive(AnyPrimitive::Int64(numbers)) => sum(numbers.values().as_slice()),
        _ => 0,
    }
}

/// The items of all rows added up.
fn sum_of_rows(alloc: Global, lists: &ListArray) -> Result<i64, Error> {
    let mut total = 0i64;
    for i in 0..lists.len() {
        let row = lists.value(alloc, i)?;
        total = total.wrapping_add(sum_of_array(&row));
        drop(row);
    }
    Ok(total)
}

/// The values from one place up to another added up.
fn sum_between(values: &[i64], start: usize, end: usize) -> i64 {
    if start <= end && end <= values.len() {
        sum(&values[start..end])
    } else {
        0
    }
}

/// The raw values of a window of numbers added up.
fn sum_of_window(row: &Window<'_>) -> i64 {
    match row.array() {
        AnyArray::Primitive(AnyPrimitive::Int64(numbers)) => {
            let start = row.offset();
            let end = start.saturating_add(row.len());
            sum_between(numbers.values().as_slice(), start, end)
        }
        _ => 0,
    }
}

/// The items of all rows added up, without an array for each.
fn sum_of_windows(lists: &ListArray) -> i64 {
    let mut total = 0i64;
    for i in 0..lists.len() {
        total = total.wrapping_add(sum_of_window(&lists.window(i)));
    }
    total
}

fn report_rows<R: Clock + Print + AllocGlobal>(
    rt: &R,
    lists: &ListArray,
    measured: bool,
) -> Result<()> {
    let n = lists.len();
    let begun = begin(rt, measured)?;
    let total = sum_of_rows(rt.alloc(), lists)?;
    report(rt, "  sum of the rows as arrays", total, begun, n)?;
    let begun = begin(rt, measured)?;
    let total = sum_of_windows(lists);
    report(rt, "  sum of the rows as windows", total, begun, n)?;
    Ok(())
}

/// Reads lists of eight numbers.
pub fn run<R: Clock + Print + AllocGlobal>(rt: &R, measured: bool) -> Result<()> {
    let n = if measured { ROWS } else { FEW };
    println!(rt; "lists of {SIZE} numbers, read")?;
    let items = arrays::numbers(rt.alloc(), n * SIZE, false)?;
    let array = arrays::lists(rt.alloc(), n, SIZE, false, items)?;
    let told = match &array {
        AnyArray::List(lists) => report_rows(rt, lists, measured),
        _ => Ok(()),
    };
    drop(array);
    told
}
