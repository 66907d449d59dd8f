//! Measures `take` and `filter`, beside plain loops over raw numbers and over offsets and bytes of strings: `bench_take run` prints
//! nanoseconds per row. Each work is done once before it is measured, so that none pays for the first use of memory.
//! Without `run` it does the same work on few rows and prints the results alone.
#![tactic(auto)]

ghost use Rattle.std.specs.Prelude.{IsTrue, length};
ghost use Rattle.nest_array.specs.Words.{layout_of, len};
ghost use Rattle.nest_take.specs.Indices.{AreBelow};

mod arrays;
mod raw_texts;

use anyhow::Result;
use bench_tools::{begin, is_measured, report};
use nest_array::AnyArray;
use nest_flat::boolean::BooleanArray;
use nest_memory::error::Error;
use nest_take::{filter, take};
use raw_texts::RawTexts;
use std::alloc::{AllocError, Global};
use std::rt::Clock;
use std::time::Instant;

const FEW: usize = 1000;

const ROWS: usize = 1_000_000;

/// A number without a divisor in common with either number of rows.
const STRIDE: usize = 618_033;

/// The rows that are asked for.
#[derive(Drop)]
struct Asked {
    scattered: Vec<usize>,
    rising: Vec<usize>,
    chosen: Vec<bool>,
    mask: BooleanArray,
}

/// All indices below n, each so far from the one before.
fn places(alloc: Global, n: usize, stride: usize) -> Result<Vec<usize>, AllocError> {
    let mut places = Vec::with_capacity(alloc, n)?;
    for i in 0..n {
        places.push(i.wrapping_mul(stride) % n.max(1))?;
    }
    Ok(places)
}

/// The rows of n that are asked for.
fn made(alloc: Global, n: usize) -> Result<Asked, Error> {
    let scattered = places(alloc, n, STRIDE)?;
    let rising = places(alloc, n, 1)?;
    let chosen = arrays::raw_mask(alloc, n)?;
    let mask = arrays::mask(alloc, &chosen)?;
    Ok(Asked {
        scattered,
        rising,
        chosen,
        mask,
    })
}

fn are_below(places: &[usize], n: usize) -> bool
    ensures { IsTrue result → AreBelow places.now n }
{
    places.iter().all(|place| *place < n)
}

fn report_rows<R: Clock + Print>(
    rt: &R,
    work: &str,
    taken: &Result<AnyArray, Error>,
    begun: Option<Instant>,
) -> Result<()> {
    match taken {
        Ok(rows) => report(rt, work, rows.len(), begun, rows.len())?,
        Err(error) => return Err((*error).into()),
    }
    Ok(())
}

fn report_taken<R: Clock + Print + AllocGlobal>(
    rt: &R,
    work: &str,
    array: &AnyArray,
    places: &[usize],
    measured: bool,
) -> Result<()> {
    if !are_below(places, array.len()) {
        return Ok(());
    }
    drop(take(rt.alloc(), array, places));
    let begun = begin(rt, measured)?;
    let taken = take(rt.alloc(), array, places);
    let told = report_rows(rt, work, &taken, begun);
    drop(taken);
    told
}

fn report_filtered<R: Clock + Print + AllocGlobal>(
    rt: &R,
    work: &str,
    array: &AnyArray,
    mask: &BooleanArray,
    measured: bool,
) -> Result<()> {
    if mask.len() != array.len() {
        return Ok(());
    }
    drop(filter(rt.alloc(), array, mask));
    let begun = begin(rt, measured)?;
    let taken = filter(rt.alloc(), array, mask);
    let told = report_rows(rt, work, &taken, begun);
    drop(taken);
    told
}

fn report_array<R: Clock + Print + AllocGlobal>(
    rt: &R,
    kind: &str,
    array: &AnyArray,
    asked: &Asked,
    measured: bool,
) -> Result<()> {
    println!(rt; "{kind}")?;
    report_taken(
        rt,
        "  rows at scattered indices",
        array,
        &asked.scattered,
        measured,
    )?;
    report_taken(
        rt,
        "  rows at rising indices",
        array,
        &asked.rising,
        measured,
    )?;
    report_filtered(rt, "  rows by a mask", array, &asked.mask, measured)
}

/// Takes and filters the rows of an array, if it was made.
fn run_array<R: Clock + Print + AllocGlobal>(
    rt: &R,
    kind: &str,
    array: Result<AnyArray, Error>,
    asked: &Asked,
    measured: bool,
) -> Result<()> {
    match array {
        Ok(array) => {
            let told = report_array(rt, kind, &array, asked, measured);
            drop(array);
            told
        }
        Err(error) => Err(error.into()),
    }
}

/// The values at some indices, by a plain loop.
fn plain_take(alloc: Global, values: &[i64], places: &[usize]) -> Result<Vec<i64>, AllocError>
    requires { AreBelow places.now (length values.now) }
{
    let mut taken = Vec::with_capacity(alloc, places.len())?;
    for place in places {
        taken.push_reserved(values[*place]);
    }
    Ok(taken)
}

/// The values where a boolean is true, by a plain loop.
fn plain_filter(alloc: Global, values: &[i64], chosen: &[bool]) -> Result<Vec<i64>, AllocError> {
    let mut taken = Vec::new(alloc);
    for (value, is_chosen) in values.iter().zip(chosen) {
        if *is_chosen {
            taken.push(*value)?;
        }
    }
    Ok(taken)
}

fn report_plain_filter<R: Clock + Print + AllocGlobal>(
    rt: &R,
    values: &[i64],
    chosen: &[bool],
    measured: bool,
) -> Result<()> {
    drop(plain_filter(rt.alloc(), values, chosen)?);
    let begun = begin(rt, measured)?;
    let taken = plain_filter(rt.alloc(), values, chosen)?;
    report(rt, "  rows by a mask", taken.len(), begun, taken.len())?;
    Ok(())
}

fn report_plain<R: Clock + Print + AllocGlobal>(
    rt: &R,
    work: &str,
    values: &[i64],
    places: &[usize],
    measured: bool,
) -> Result<()> {
    if !are_below(places, values.len()) {
        return Ok(());
    }
    drop(plain_take(rt.alloc(), values, places)?);
    let begun = begin(rt, measured)?;
    let taken = plain_take(rt.alloc(), values, places)?;
    report(rt, work, taken.len(), begun, taken.len())?;
    Ok(())
}

fn run_plain<R: Clock + Print + AllocGlobal>(
    rt: &R,
    n: usize,
    asked: &Asked,
    measured: bool,
) -> Result<()> {
    // The first large block that is dropped goes back to the system, those after it are kept.
    drop(arrays::raw_numbers(rt.alloc(), n)?);
    let values = arrays::raw_numbers(rt.alloc(), n)?;
    println!(rt; "raw numbers, by a plain loop")?;
    report_plain(
        rt,
        "  rows at scattered indices",
        &values,
        &asked.scattered,
        measured,
    )?;
    report_plain(
        rt,
        "  rows at rising indices",
        &values,
        &asked.rising,
        measured,
    )?;
    report_plain_filter(rt, &values, &asked.chosen, measured)
}

fn report_plain_texts<R: Clock + Print + AllocGlobal>(
    rt: &R,
    work: &str,
    texts: &RawTexts,
    places: &[usize],
    measured: bool,
) -> Result<()> {
    drop(raw_texts::plain_take(rt.alloc(), texts, places)?);
    let begun = begin(rt, measured)?;
    let taken = raw_texts::plain_take(rt.alloc(), texts, places)?;
    report(rt, work, taken.len(), begun, taken.len())?;
    Ok(())
}

fn report_plain_texts_filter<R: Clock + Print + AllocGlobal>(
    rt: &R,
    texts: &RawTexts,
    chosen: &[bool],
    measured: bool,
) -> Result<()> {
    drop(raw_texts::plain_filter(rt.alloc(), texts, chosen)?);
    let begun = begin(rt, measured)?;
    let taken = raw_texts::plain_filter(rt.alloc(), texts, chosen)?;
    report(rt, "  rows by a mask", taken.len(), begun, taken.len())?;
    Ok(())
}

fn run_plain_texts<R: Clock + Print + AllocGlobal>(
    rt: &R,
    n: usize,
    asked: &Asked,
    measured: bool,
) -> Result<()> {
    let texts = raw_texts::raw_texts(rt.alloc(), n)?;
    println!(rt; "raw strings of 8 bytes, by a plain loop")?;
    report_plain_texts(
        rt,
        "  rows at scattered indices",
        &texts,
        &asked.scattered,
        measured,
    )?;
    report_plain_texts(
        rt,
        "  rows at rising indices",
        &texts,
        &asked.rising,
        measured,
    )?;
    report_plain_texts_filter(rt, &texts, &asked.chosen, measured)
}

fn run_kinds<R: Clock + Print + AllocGlobal>(
    rt: &R,
    n: usize,
    asked: &Asked,
    measured: bool,
) -> Result<()> {
    let alloc = rt.alloc();
    run_plain(rt, n, asked, measured)?;
    run_plain_texts(rt, n, asked, measured)?;
    run_array(rt, "numbers", arrays::numbers(alloc, n), asked, measured)?;
    run_array(
        rt,
        "strings of 8 bytes",
        arrays::texts(alloc, n),
        asked,
        measured,
    )?;
    run_array(
        rt,
        "lists of 8 numbers",
        arrays::lists(alloc, n),
        asked,
        measured,
    )?;
    run_array(
        rt,
        "records of a number and a string",
        arrays::records(alloc, n),
        asked,
        measured,
    )?;
    run_array(
        rt,
        "strings by keys of 32 bits",
        arrays::texts_by_keys(alloc, n),
        asked,
        measured,
    )
}

fn main(rt: HostRuntime) -> Result<()> {
    let measured = is_measured(&rt)?;
    let n = if measured { ROWS } else { FEW };
    let asked = made(rt.alloc(), n)?;
    run_kinds(&rt, n, &asked, measured)
}
