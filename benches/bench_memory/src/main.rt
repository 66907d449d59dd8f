//! Measures growing, sharing and allocating memory, and copying data types: `bench_memory run` prints nanoseconds per element.
//! Without `run` it does the same work on few elements and prints the results alone.
#![tactic(auto)]

use anyhow::Result;
use bench_tools::{begin, is_measured, report};
use nest_memory::bitmap::immutable::Bitmap;
use nest_memory::bitmap::mutable::MutableBitmap;
use nest_memory::buffer::Buffer;
use nest_memory::datatypes::DataType;
use nest_memory::datatypes::field::Field;
use nest_memory::error::Error;
use nest_memory::offsets::{Offsets, OffsetsBuffer};
use std::alloc::Global;
use std::rt::Clock;

const FEW: usize = 1000;

const BITS: usize = 10_000_000;

const OFFSETS: usize = 10_000_000;

const CUTS: usize = 1_000_000;

const QUESTIONS: usize = 1_000_000;

const COPIES: usize = 1_000_000;

/// Bits pushed one by one and frozen; every third is set.
fn bits(alloc: Global, n: usize) -> Result<Bitmap, Error> {
    let mut grown = MutableBitmap::new(alloc);
    for i in 0..n {
        grown.push(i % 3 == 0)?;
    }
    grown.freeze()
}

/// How many bits from the middle on are 0.
fn unset_from_middle(bitmap: Bitmap) -> usize {
    let len = bitmap.len();
    let middle = len / 2;
    bitmap.sliced(middle, len - middle).unset_bits()
}

/// The unset bits of so many cuts added up, each of which leaves out up to 63 of the first bits.
fn unset_of_cuts(bitmap: &Bitmap, n: usize) -> Result<usize, Error> {
    let mut total = 0usize;
    for i in 0..n {
        let mut cut = bitmap.clone()?;
        let place = (i % 64).min(cut.len());
        cut.slice(place, cut.len() - place);
        total = total.wrapping_add(cut.unset_bits());
    }
    Ok(total)
}

/// The unset bits of these bitmaps added up, asked of one after another so many times.
fn asked(bitmaps: &[Bitmap], n: usize) -> usize {
    let mut total = 0usize;
    for _ in 0..n / bitmaps.len().max(1) {
        for bitmap in bitmaps {
            total = total.wrapping_add(bitmap.unset_bits());
        }
    }
    total
}

/// A bitmap and another owner of its bits.
fn two_owners(alloc: Global, bitmap: &Bitmap) -> Result<Vec<Bitmap>, Error> {
    let mut owners = Vec::with_capacity(alloc, 2)?;
    owners.push(bitmap.clone()?)?;
    owners.push(bitmap.clone()?)?;
    Ok(owners)
}

/// Offsets pushed one by one and frozen, of slots of 0 to 3 items.
fn offsets(alloc: Global, n: usize) -> Result<OffsetsBuffer<i64>, Error> {
    let mut grown = Offsets::new(alloc)?;
    for i in 0..n {
        grown.try_push_usize(i % 4)?;
    }
    grown.freeze()
}

/// The lengths, added up, of this many slices of a buffer.
fn cuts(buffer: &Buffer<u64>, n: usize) -> Result<usize, Error> {
    let len = buffer.len();
    let mut total = 0usize;
    for i in 0..n {
        let start = i.min(len);
        let cut = buffer.clone()?.sliced(start, len - start);
        total = total.wrapping_add(cut.len());
    }
    Ok(total)
}

/// How many of the copies of these data types, taken one after another so many times, have items.
fn copies(alloc: Global, types: &[DataType], n: usize) -> Result<usize, Error> {
    let mut with_items = 0usize;
    for _ in 0..n / types.len().max(1) {
        for data_type in types {
            let copy = data_type.clone(alloc)?;
            with_items = with_items.wrapping_add(usize::from(copy.item_type().is_some()));
            drop(copy);
        }
    }
    Ok(with_items)
}

/// One of two data types without parts: the least that a call can make and hand up in place of a copy.
#[inline(never)]
fn made(like: &DataType) -> Result<DataType, Error> {
    match like {
        DataType::Int64 => Ok(DataType::Int64),
        _ => Ok(DataType::Utf8),
    }
}

/// The same count of types that are made like these.
fn makings(types: &[DataType], n: usize) -> Result<usize, Error> {
    let mut with_items = 0usize;
    for _ in 0..n / types.len().max(1) {
        for data_type in types {
            let one = made(data_type)?;
            with_items = with_items.wrapping_add(usize::from(one.item_type().is_some()));
            drop(one);
        }
    }
    Ok(with_items)
}

/// Two data types without parts.
fn plain_types(alloc: Global) -> Result<Vec<DataType>, Error> {
    let mut types = Vec::with_capacity(alloc, 2)?;
    types.push(DataType::Int64)?;
    types.push(DataType::Utf8)?;
    Ok(types)
}

/// The type of lists of these items.
fn list_of(alloc: Global, items: DataType) -> Result<DataType, Error> {
    let field = Field::new(alloc, "item", items, true)?;
    Ok(DataType::List(Box::new(alloc, field)?))
}

/// Two data types of lists.
fn list_types(alloc: Global) -> Result<Vec<DataType>, Error> {
    let mut types = Vec::with_capacity(alloc, 2)?;
    types.push(list_of(alloc, DataType::Int64)?)?;
    types.push(list_of(alloc, DataType::Utf8)?)?;
    Ok(types)
}

fn run_questions<R: Clock + Print + AllocGlobal>(
    rt: &R,
    bitmap: &Bitmap,
    measured: bool,
) -> Result<()> {
    let n = if measured { QUESTIONS } else { FEW };
    let owners = two_owners(rt.alloc(), bitmap)?;
    let begun = begin(rt, measured)?;
    let total = asked(&owners, n);
    report(
        rt,
        "unset bits of a whole bitmap, added up",
        total,
        begun,
        n,
    )?;
    Ok(())
}

/// Slices of a thousand bits that leave out few.
fn run_cuts_of_bits<R: Clock + Print + AllocGlobal>(rt: &R, measured: bool) -> Result<()> {
    let n = if measured { CUTS } else { FEW };
    let bitmap = bits(rt.alloc(), FEW)?;
    let begun = begin(rt, measured)?;
    let total = unset_of_cuts(&bitmap, n)?;
    report(rt, "unset bits of slices, added up", total, begun, n)?;
    Ok(())
}

fn run_bits<R: Clock + Print + AllocGlobal>(rt: &R, measured: bool) -> Result<()> {
    let n = if measured { BITS } else { FEW };
    let begun = begin(rt, measured)?;
    let bitmap = bits(rt.alloc(), n)?;
    report(rt, "bits pushed and frozen", bitmap.len(), begun, n)?;
    run_questions(rt, &bitmap, measured)?;
    let begun = begin(rt, measured)?;
    let unset = unset_from_middle(bitmap);
    report(
        rt,
        "unset bits counted from the middle",
        unset,
        begun,
        n / 2,
    )?;
    run_cuts_of_bits(rt, measured)
}

fn run_offsets<R: Clock + Print + AllocGlobal>(rt: &R, measured: bool) -> Result<()> {
    let n = if measured { OFFSETS } else { FEW };
    let begun = begin(rt, measured)?;
    let frozen = offsets(rt.alloc(), n)?;
    report(
        rt,
        "offsets pushed and frozen, the last",
        frozen.last(),
        begun,
        n,
    )?;
    Ok(())
}

fn run_cuts<R: Clock + Print + AllocGlobal>(rt: &R, measured: bool) -> Result<()> {
    let n = if measured { CUTS } else { FEW };
    let buffer = Buffer::from_vec(rt.alloc(), vec![in rt.alloc(); 7u64; n]?)?;
    let begun = begin(rt, measured)?;
    let total = cuts(&buffer, n)?;
    report(rt, "items of all slices of a buffer", total, begun, n)?;
    Ok(())
}

fn report_copies<R: Clock + Print + AllocGlobal>(
    rt: &R,
    work: &str,
    types: &[DataType],
    measured: bool,
) -> Result<()> {
    let n = if measured { COPIES } else { FEW };
    let begun = begin(rt, measured)?;
    let with_items = copies(rt.alloc(), types, n)?;
    report(rt, work, with_items, begun, n)?;
    Ok(())
}

fn report_makings<R: Clock + Print>(rt: &R, types: &[DataType], measured: bool) -> Result<()> {
    let n = if measured { COPIES } else { FEW };
    let begun = begin(rt, measured)?;
    let with_items = makings(types, n)?;
    report(
        rt,
        "plain data types made by a call, with items",
        with_items,
        begun,
        n,
    )?;
    Ok(())
}

fn run_copies<R: Clock + Print + AllocGlobal>(rt: &R, measured: bool) -> Result<()> {
    let plain = plain_types(rt.alloc())?;
    report_copies(
        rt,
        "copies of plain data types with items",
        &plain,
        measured,
    )?;
    report_makings(rt, &plain, measured)?;
    let lists = list_types(rt.alloc())?;
    report_copies(rt, "copies of list types with items", &lists, measured)
}

fn run<R: Clock + Print + AllocGlobal>(rt: &R, measured: bool) -> Result<()> {
    run_bits(rt, measured)?;
    run_offsets(rt, measured)?;
    run_cuts(rt, measured)?;
    run_copies(rt, measured)
}

fn main(rt: HostRuntime) -> Result<()> {
    let measured = is_measured(&rt)?;
    run(&rt, measured)
}
