//! The least that a call can hand up as an array of any kind: what copies and rows cost at least, whatever they share.
use anyhow::Result;
use bench_tools::{begin, report};
use nest_array::any::AnyArray;
use nest_array::null::NullArray;
use nest_memory::datatypes::DataType;
use nest_memory::error::Error;
use std::rt::Clock;

const FEW: usize = 100;

const MANY: usize = 1_000_000;

/// An array of n nulls: it has a data type without parts and a length, and shares nothing.
#[inline(never)]
fn handed_up(n: usize) -> Result<AnyArray, Error> {
    Ok(AnyArray::Null(NullArray::new(DataType::Null, n)))
}

/// The same, cut to nothing on its way through one call more.
#[inline(never)]
fn handed_on(n: usize) -> Result<AnyArray, Error> {
    let mut made = handed_up(n);
    if let Ok(array) = &mut made {
        array.slice(0, 0);
    }
    made
}

/// The lengths of n arrays that are handed up, added up.
fn lengths_handed_up(n: usize) -> Result<usize, Error> {
    let mut total = 0usize;
    for i in 0..n {
        let array = handed_up(i)?;
        total = total.wrapping_add(array.len());
        drop(array);
    }
    Ok(total)
}

/// The same of arrays that are cut and handed on.
fn lengths_handed_on(n: usize) -> Result<usize, Error> {
    let mut total = 0usize;
    for i in 0..n {
        let array = handed_on(i)?;
        total = total.wrapping_add(array.len());
        drop(array);
    }
    Ok(total)
}

/// Makes arrays of nulls, and drops of them.
pub fn run<R: Clock + Print>(rt: &R, measured: bool) -> Result<()> {
    let n = if measured { MANY } else { FEW };
    println!(rt; "arrays of nulls, created and dropped")?;
    let begun = begin(rt, measured)?;
    let total = lengths_handed_up(n)?;
    report(rt, "  slots handed up by a call", total, begun, n)?;
    let begun = begin(rt, measured)?;
    let total = lengths_handed_on(n)?;
    report(
        rt,
        "  slots left by a call that slices them",
        total,
        begun,
        n,
    )?;
    Ok(())
}
