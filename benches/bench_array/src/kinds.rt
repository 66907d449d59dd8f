//! Slots as scalars, rows as arrays and slices, of each kind.
ghost use Rattle.std.specs.Prelude.{◌<◌};
ghost use Rattle.nest_array.specs.Words.{layout_of, len};

use crate::arrays;
use anyhow::Result;
use bench_tools::{begin, report};
use nest_array::{AnyArray, AnyScalar, new_scalar};
use nest_memory::error::Error;
use std::alloc::Global;
use std::io;
use std::rt::Clock;

const FEW: usize = 100;

const ROWS: usize = 100_000;

#[derive(Clone, Copy)]
enum Kind {
    Numbers,
    Lists,
    FixedSizeLists,
    Records,
    Maps,
    TextsByKeys,
    SparseUnions,
    DenseUnions,
}

const KINDS: [Kind; 8] = [
    Kind::Numbers,
    Kind::Lists,
    Kind::FixedSizeLists,
    Kind::Records,
    Kind::Maps,
    Kind::TextsByKeys,
    Kind::SparseUnions,
    Kind::DenseUnions,
];

impl Kind {
    fn name(self) -> &'static str {
        match self {
            Kind::Numbers => "numbers",
            Kind::Lists => "lists of 8 numbers",
            Kind::FixedSizeLists => "lists of a fixed size of 8 numbers",
            Kind::Records => "records of a number and a string",
            Kind::Maps => "maps of 4 entries from a number to a string",
            Kind::TextsByKeys => "strings by keys of 32 bits over 1000 of them",
            Kind::SparseUnions => "sparse unions of numbers and strings",
            Kind::DenseUnions => "dense unions of numbers and strings",
        }
    }

    /// An array of n rows, a tenth of them null where the kind has nulls.
    fn made(self, alloc: Global, n: usize) -> Result<AnyArray, Error> {
        match self {
            Kind::Numbers => arrays::numbers(alloc, n, true),
            Kind::Lists => {
                let items = arrays::numbers(alloc, n.saturating_mul(8), true)?;
                arrays::lists(alloc, n, 8, true, items)
            }
            Kind::FixedSizeLists => {
                let items = arrays::numbers(alloc, n.saturating_mul(8), true)?;
                arrays::fixed_size_lists(alloc, n, 8, true, items)
            }
            Kind::Records => arrays::records(alloc, n, true),
            Kind::Maps => arrays::maps(alloc, n, 4, true),
            Kind::TextsByKeys => arrays::texts_by_keys(alloc, n, true),
            Kind::SparseUnions => arrays::sparse_unions(alloc, n),
            Kind::DenseUnions => arrays::dense_unions(alloc, n),
        }
    }
}

/// How many of an array's slots are valid scalars.
fn valid_scalars(alloc: Global, array: &AnyArray) -> Result<usize, Error> {
    let mut valid = 0usize;
    for i in 0..array.len() {
        let scalar = new_scalar(alloc, array, i)?;
        if scalar.is_valid() {
            valid = valid.saturating_add(1);
        }
        drop(scalar);
    }
    Ok(valid)
}

/// How many rows the calls `value` of the first n slots return: a list's items, a map's entries, and one of what is no array.
fn rows_of_values(alloc: Global, array: &AnyArray) -> Result<usize, Error> {
    let mut rows = 0usize;
    for i in 0..array.len() {
        rows = rows.saturating_add(rows_of_value(alloc, array, i)?);
    }
    Ok(rows)
}

fn rows_of_value(alloc: Global, array: &AnyArray, i: usize) -> Result<usize, Error>
    requires { i < len (layout_of array.now) }
{
    match array {
        AnyArray::List(lists) => rows_of(lists.value(alloc, i)),
        AnyArray::FixedSizeList(lists) => rows_of(lists.value(alloc, i)),
        AnyArray::Map(maps) => rows_of(maps.value(alloc, i)),
        AnyArray::Union(picks) => one_of(picks.value(alloc, i)),
        AnyArray::Dictionary(keyed) if keyed.in_range(i) => one_of(keyed.value(alloc, i)),
        _ => Ok(0),
    }
}

fn one_of(value: Result<AnyScalar, Error>) -> Result<usize, Error> {
    let value = value?;
    drop(value);
    Ok(1)
}

fn rows_of(value: Result<AnyArray, Error>) -> Result<usize, Error> {
    let value = value?;
    let rows = value.len();
    drop(value);
    Ok(rows)
}

/// Slices the first row off, so many times.
fn cut_in_place(array: &mut AnyArray, n: usize) {
    for _ in 0..n {
        let len = array.len();
        let start = len.min(1);
        array.slice(start, len - start);
    }
}

fn report_reads<R: Clock + Print + AllocGlobal>(
    rt: &R,
    array: &AnyArray,
    measured: bool,
) -> Result<()> {
    let n = array.len();
    let begun = begin(rt, measured)?;
    let valid = valid_scalars(rt.alloc(), array)?;
    report(rt, "  valid slots as scalars", valid, begun, n)?;
    let begun = begin(rt, measured)?;
    let rows = rows_of_values(rt.alloc(), array)?;
    report(rt, "  rows of their values", rows, begun, n)?;
    Ok(())
}

fn report_cuts<R: Clock + Print>(rt: &R, array: &mut AnyArray, measured: bool) -> io::Result<()> {
    let n = array.len();
    let begun = begin(rt, measured)?;
    cut_in_place(array, n);
    report(rt, "  rows left by slices in place", array.len(), begun, n)
}

fn report_kind<R: Clock + Print + AllocGlobal>(
    rt: &R,
    array: &mut AnyArray,
    measured: bool,
) -> Result<()> {
    report_reads(rt, array, measured)?;
    report_cuts(rt, array, measured)?;
    Ok(())
}

fn run_kind<R: Clock + Print + AllocGlobal>(rt: &R, kind: Kind, measured: bool) -> Result<()> {
    let n = if measured { ROWS } else { FEW };
    println!(rt; "{}", kind.name())?;
    let mut array = kind.made(rt.alloc(), n)?;
    let told = report_kind(rt, &mut array, measured);
    drop(array);
    told
}

/// Reads and cuts arrays of each kind.
pub fn run<R: Clock + Print + AllocGlobal>(rt: &R, measured: bool) -> Result<()> {
    println!(rt; "slots of each kind")?;
    for kind in KINDS {
        run_kind(rt, kind, measured)?;
    }
    Ok(())
}
