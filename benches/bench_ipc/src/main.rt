//! Measures writing and reading streams of a column, and writing files, beside a plain copy of the bytes: `bench_ipc run` prints
//! nanoseconds per thousand bytes. Each work is done once before it is measured, so that none pays for the first use of memory.
//! Without `run` it does the same work on few rows and prints the results alone.
#![tactic(auto)]

mod batches;

use anyhow::Result;
use bench_tools::{begin, is_measured, report};
use ipc::{Batch, read_stream, write_file, write_stream};
use ipc_schema::Schema;
use nest_array::AnyArray;
use nest_memory::error::Error;
use std::alloc::{AllocError, Global};
use std::rt::Clock;

const FEW: usize = 1000;

const THOUSAND: usize = 1000;

/// The bytes once more.
fn copied(alloc: Global, bytes: &[u8]) -> Result<Vec<u8>, AllocError> {
    let mut copy = Vec::with_capacity(alloc, bytes.len())?;
    copy.extend_from_slice(bytes)?;
    Ok(copy)
}

fn run_copy<R: Clock + Print + AllocGlobal>(rt: &R, bytes: &[u8], measured: bool) -> Result<()> {
    drop(copied(rt.alloc(), bytes)?);
    let begun = begin(rt, measured)?;
    let copy = copied(rt.alloc(), bytes)?;
    let thousands = bytes.len() / THOUSAND;
    report(
        rt,
        "  the bytes, by a plain copy",
        copy.len(),
        begun,
        thousands,
    )?;
    Ok(())
}

fn run_written<R: Clock + Print + AllocGlobal>(
    rt: &R,
    schema: &Schema,
    batches: &[Batch],
    measured: bool,
) -> Result<Vec<u8>> {
    drop(write_stream(rt.alloc(), schema, batches)?);
    let begun = begin(rt, measured)?;
    let bytes = write_stream(rt.alloc(), schema, batches)?;
    let thousands = bytes.len() / THOUSAND;
    report(rt, "  the stream, written", bytes.len(), begun, thousands)?;
    Ok(bytes)
}

/// As a file, whose dictionaries are round-trip as they are written.
fn run_filed<R: Clock + Print + AllocGlobal>(
    rt: &R,
    schema: &Schema,
    batches: &[Batch],
    measured: bool,
) -> Result<()> {
    drop(write_file(rt.alloc(), schema, batches)?);
    let begun = begin(rt, measured)?;
    let bytes = write_file(rt.alloc(), schema, batches)?;
    let thousands = bytes.len() / THOUSAND;
    report(rt, "  the file, written", bytes.len(), begun, thousands)?;
    Ok(())
}

fn run_read<R: Clock + Print + AllocGlobal>(rt: &R, bytes: &[u8], measured: bool) -> Result<()> {
    drop(read_stream(rt.alloc(), bytes)?);
    let begun = begin(rt, measured)?;
    let stream = read_stream(rt.alloc(), bytes)?;
    let thousands = bytes.len() / THOUSAND;
    report(rt, "  the stream, read", stream.read, begun, thousands)?;
    Ok(())
}

fn run_stream<R: Clock + Print + AllocGlobal>(
    rt: &R,
    kind: &str,
    column: Result<AnyArray, Error>,
    measured: bool,
) -> Result<()> {
    println!(rt; "{kind}")?;
    let column = match column {
        Ok(column) => column,
        Err(error) => return Err(error.into()),
    };
    let schema = batches::schema(rt.alloc(), &column)?;
    let mut batches = Vec::with_capacity(rt.alloc(), 1)?;
    batches.push(batches::batch(rt.alloc(), column)?)?;
    let bytes = run_written(rt, &schema, &batches, measured)?;
    run_filed(rt, &schema, &batches, measured)?;
    run_read(rt, &bytes, measured)?;
    run_copy(rt, &bytes, measured)
}

/// Streams of some 100 MB, or of a few rows.
fn rows(measured: bool, many: usize) -> usize {
    if measured { many } else { FEW }
}

fn main(rt: HostRuntime) -> Result<()> {
    let measured = is_measured(&rt)?;
    let alloc = rt.alloc();
    let column = batches::numbers(alloc, rows(measured, 12_500_000));
    run_stream(&rt, "numbers of 64 bits", column, measured)?;
    let column = batches::with_nulls(alloc, rows(measured, 12_500_000));
    run_stream(
        &rt,
        "numbers of 64 bits, every third null",
        column,
        measured,
    )?;
    let column = batches::texts(alloc, rows(measured, 8_300_000));
    run_stream(&rt, "strings of 8 bytes", column, measured)?;
    let column = batches::lists(alloc, rows(measured, 1_470_000));
    run_stream(&rt, "lists of 8 numbers", column, measured)?;
    let column = batches::records(alloc, rows(measured, 5_000_000));
    run_stream(&rt, "records of a number and a string", column, measured)?;
    let column = batches::keyed(alloc, rows(measured, 6_200_000));
    run_stream(
        &rt,
        "strings of 8 bytes by keys, each its own",
        column,
        measured,
    )
}
