//! Iteration over rows: lists, records, strings by keys, picks.
use crate::arrays;
use anyhow::Result;
use bench_tools::{begin, report};
use nest_array::{AnyArray, DictionaryArray, ListArray, StructArray, UnionArray};
use nest_memory::error::Error;
use nest_scan::{Scan, ScanKeys, ScanValues};
use std::alloc::Global;
use std::rt::Clock;

const FEW: usize = 100;

const ROWS: usize = 100_000;

/// How many items all lists have, also those under nulls.
fn items_of_lists(alloc: Global, lists: &ListArray) -> Result<usize, Error> {
    let mut total = 0usize;
    for row in lists.values_iter(alloc) {
        let row = row?;
        total = total.saturating_add(row.len());
        drop(row);
    }
    Ok(total)
}

/// How many lists are valid.
fn valid_lists(alloc: Global, lists: &ListArray) -> Result<usize, Error> {
    let mut valid = 0usize;
    for row in lists.iter(alloc) {
        if let Some(row) = row? {
            valid = valid.saturating_add(1);
            drop(row);
        }
    }
    Ok(valid)
}

/// How many records are valid.
fn valid_records(alloc: Global, records: &StructArray) -> Result<usize, Error> {
    let mut valid = 0usize;
    for row in records.iter(alloc) {
        if let Some(row) = row? {
            valid = valid.saturating_add(1);
            drop(row);
        }
    }
    Ok(valid)
}

/// How many keys are valid, each value as a scalar.
fn valid_values(alloc: Global, keyed: &DictionaryArray) -> Result<usize, Error> {
    let mut valid = 0usize;
    for value in keyed.iter(alloc) {
        if let Some(value) = value? {
            valid = valid.saturating_add(1);
            drop(value);
        }
    }
    Ok(valid)
}

/// How many bytes the strings of all valid keys have.
fn bytes_of_texts(keyed: &DictionaryArray) -> Result<usize, Error> {
    let mut total = 0usize;
    if keyed.values().null_count() > 0 {
        return Ok(total);
    }
    for text in keyed.iter_typed::<i32>()? {
        if let Some(text) = text {
            total = total.saturating_add(text.len());
        }
    }
    Ok(total)
}

/// How many picks are valid scalars.
fn valid_picks(alloc: Global, picks: &UnionArray) -> Result<usize, Error> {
    let mut valid = 0usize;
    for pick in picks.iter(alloc) {
        let pick = pick?;
        if pick.is_valid() {
            valid = valid.saturating_add(1);
        }
        drop(pick);
    }
    Ok(valid)
}

fn report_lists<R: Clock + Print + AllocGlobal>(
    rt: &R,
    lists: &ListArray,
    measured: bool,
) -> Result<()> {
    let n = lists.len();
    let begun = begin(rt, measured)?;
    let total = items_of_lists(rt.alloc(), lists)?;
    report(rt, "  items of all lists", total, begun, n)?;
    let begun = begin(rt, measured)?;
    let valid = valid_lists(rt.alloc(), lists)?;
    report(rt, "  valid lists", valid, begun, n)?;
    Ok(())
}

fn report_keyed<R: Clock + Print + AllocGlobal>(
    rt: &R,
    keyed: &DictionaryArray,
    measured: bool,
) -> Result<()> {
    let n = keyed.len();
    let begun = begin(rt, measured)?;
    let valid = valid_values(rt.alloc(), keyed)?;
    report(rt, "  valid strings by keys as scalars", valid, begun, n)?;
    let begun = begin(rt, measured)?;
    let total = bytes_of_texts(keyed)?;
    report(rt, "  bytes of strings by keys", total, begun, n)?;
    Ok(())
}

/// Iterates over the slots of an array of one of the four kinds.
fn report_rows<R: Clock + Print + AllocGlobal>(
    rt: &R,
    array: &AnyArray,
    measured: bool,
) -> Result<()> {
    let n = array.len();
    let begun = begin(rt, measured)?;
    match array {
        AnyArray::List(lists) => report_lists(rt, lists, measured),
        AnyArray::Dictionary(keyed) => report_keyed(rt, keyed, measured),
        AnyArray::Struct(records) => {
            let valid = valid_records(rt.alloc(), records)?;
            Ok(report(rt, "  valid records", valid, begun, n)?)
        }
        AnyArray::Union(picks) => {
            let valid = valid_picks(rt.alloc(), picks)?;
            Ok(report(rt, "  valid union values", valid, begun, n)?)
        }
        _ => Ok(()),
    }
}

fn run_made<R: Clock + Print + AllocGlobal>(
    rt: &R,
    made: Result<AnyArray, Error>,
    measured: bool,
) -> Result<()> {
    let array = made?;
    let told = report_rows(rt, &array, measured);
    drop(array);
    told
}

/// Lists of eight numbers, a tenth of rows and items null.
fn lists(alloc: Global, n: usize) -> Result<AnyArray, Error> {
    let items = arrays::numbers(alloc, n.saturating_mul(8), true)?;
    arrays::lists(alloc, n, 8, true, items)
}

/// Iterates over lists, records, strings by keys and picks.
pub fn run<R: Clock + Print + AllocGlobal>(rt: &R, measured: bool) -> Result<()> {
    let n = if measured { ROWS } else { FEW };
    let alloc = rt.alloc();
    println!(rt; "rows gone through, a tenth null")?;
    run_made(rt, lists(alloc, n), measured)?;
    run_made(rt, arrays::records(alloc, n, true), measured)?;
    run_made(rt, arrays::texts_by_keys(alloc, n, true), measured)?;
    run_made(rt, arrays::sparse_unions(alloc, n), measured)
}
