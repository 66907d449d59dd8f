//! Arrays of nulls, beside their buffers alone.
use anyhow::Result;
use bench_tools::{begin, report};
use nest_array::new_null_array;
use nest_memory::bitmap::immutable::Bitmap;
use nest_memory::buffer::Buffer;
use nest_memory::datatypes::DataType;
use nest_memory::datatypes::field::Field;
use nest_memory::error::Error;
use nest_memory::offsets::Offsets;
use std::alloc::Global;
use std::rt::Clock;

const FEW: u32 = 100;

const ROWS: u32 = 1_000_000;

#[derive(Clone, Copy)]
enum Kind {
    Numbers,
    Texts,
    Records,
    Lists,
}

fn number_field(alloc: Global) -> Result<Field, Error> {
    Field::new(alloc, "number", DataType::Int64, true)
}

fn text_field(alloc: Global) -> Result<Field, Error> {
    Field::new(alloc, "text", DataType::Utf8, true)
}

fn records(alloc: Global) -> Result<DataType, Error> {
    let mut fields = Vec::with_capacity(alloc, 2)?;
    fields.push(number_field(alloc)?)?;
    fields.push(text_field(alloc)?)?;
    Ok(DataType::Struct(fields))
}

fn lists(alloc: Global) -> Result<DataType, Error> {
    Ok(DataType::List(Box::new(alloc, number_field(alloc)?)?))
}

fn data_type(alloc: Global, kind: Kind) -> Result<DataType, Error> {
    match kind {
        Kind::Numbers => Ok(DataType::Int64),
        Kind::Texts => Ok(DataType::Utf8),
        Kind::Records => records(alloc),
        Kind::Lists => lists(alloc),
    }
}

fn slots_made(alloc: Global, kind: Kind, n: u32) -> Result<usize, Error> {
    let array = new_null_array(alloc, data_type(alloc, kind)?, n as usize)?;
    let slots = array.len();
    drop(array);
    Ok(slots)
}

/// Zeros for the numbers, and their validity.
fn fill_numbers(alloc: Global, n: u32) -> Result<usize, Error> {
    let values = Buffer::filled(alloc, 0i64, n as usize)?;
    let validity = Bitmap::new_zeroed(alloc, n as usize)?;
    Ok(values.len().min(validity.len()))
}

/// The offsets of strings or lists, and their validity.
fn fill_offsets(alloc: Global, n: u32) -> Result<usize, Error> {
    let offsets = Offsets::<i32>::new_zeroed(alloc, n as usize)?;
    let validity = Bitmap::new_zeroed(alloc, n as usize)?;
    Ok(offsets.len_proxy().min(validity.len()))
}

fn fill_records(alloc: Global, n: u32) -> Result<usize, Error> {
    let numbers = fill_numbers(alloc, n)?;
    let texts = fill_offsets(alloc, n)?;
    let validity = Bitmap::new_zeroed(alloc, n as usize)?;
    Ok(numbers.min(texts).min(validity.len()))
}

fn slots_filled(alloc: Global, kind: Kind, n: u32) -> Result<usize, Error> {
    match kind {
        Kind::Numbers => fill_numbers(alloc, n),
        Kind::Texts | Kind::Lists => fill_offsets(alloc, n),
        Kind::Records => fill_records(alloc, n),
    }
}

fn report_kind<R: Clock + Print + AllocGlobal>(
    rt: &R,
    work: &str,
    kind: Kind,
    measured: bool,
) -> Result<()> {
    let n = if measured { ROWS } else { FEW };
    let begun = begin(rt, measured)?;
    let slots = slots_made(rt.alloc(), kind, n)?;
    report(rt, work, slots, begun, n as usize)?;
    let begun = begin(rt, measured)?;
    let slots = slots_filled(rt.alloc(), kind, n)?;
    report(rt, "    their buffers alone", slots, begun, n as usize)?;
    Ok(())
}

/// Makes nulls of some types, and what they take alone.
pub fn run<R: Clock + Print + AllocGlobal>(rt: &R, measured: bool) -> Result<()> {
    println!(rt; "nulls of a type")?;
    report_kind(rt, "  numbers", Kind::Numbers, measured)?;
    report_kind(rt, "  strings", Kind::Texts, measured)?;
    report_kind(
        rt,
        "  records of a number and a string",
        Kind::Records,
        measured,
    )?;
    report_kind(rt, "  lists of numbers", Kind::Lists, measured)
}
