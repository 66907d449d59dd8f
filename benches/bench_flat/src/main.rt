//! Measures pushing, iterating over and comparing flat arrays: `bench_flat run` prints nanoseconds per slot.
//! Without `run` it does the same work on few slots and prints the results alone.
#![tactic(auto)]

use anyhow::Result;
use bench_tools::{begin, is_measured, report};
use nest_flat::primitive::PrimitiveArray;
use nest_flat::primitive::mutable::MutablePrimitiveArray;
use nest_flat::utf8::Utf8Array;
use nest_flat::utf8::mutable::MutableUtf8Array;
use nest_memory::datatypes::DataType;
use nest_memory::error::Error;
use std::alloc::Global;
use std::io;
use std::rt::Clock;

const FEW: usize = 1000;

const NUMBERS: usize = 10_000_000;

const TEXTS: usize = 1_000_000;

const WORDS: [&str; 4] = ["nineteen", "thirteen", "eighteen", "fourteen"];

/// Pushes numbers, every tenth of them null where `nulls` says so.
fn push_numbers(
    builder: &mut MutablePrimitiveArray<i64>,
    n: usize,
    nulls: bool,
) -> Result<(), Error> {
    for i in 0..n {
        let item = if nulls && i % 10 == 9 {
            None
        } else {
            Some((i % 1000) as i64)
        };
        builder.try_push(item)?;
    }
    Ok(())
}

/// Numbers pushed one by one and frozen.
fn numbers(alloc: Global, n: usize, nulls: bool) -> Result<PrimitiveArray<i64>, Error> {
    let mut builder = MutablePrimitiveArray::new(alloc);
    let frozen = match push_numbers(&mut builder, n, nulls) {
        Ok(()) => builder.freeze(),
        Err(error) => Err(error),
    };
    drop(builder);
    frozen
}

/// Pushes strings of eight bytes.
fn push_texts(builder: &mut MutableUtf8Array<i32>, n: usize) -> Result<(), Error> {
    for i in 0..n {
        builder.try_push(Some(WORDS[i % 4]))?;
    }
    Ok(())
}

/// Strings pushed one by one and frozen.
fn texts(alloc: Global, n: usize) -> Result<Utf8Array<i32>, Error> {
    let mut builder = MutableUtf8Array::new(alloc)?;
    let frozen = match push_texts(&mut builder, n) {
        Ok(()) => builder.freeze(),
        Err(error) => Err(error),
    };
    drop(builder);
    frozen
}

/// The raw values added up, by their iterator.
fn sum_of_values(array: &PrimitiveArray<i64>) -> i64 {
    let mut sum = 0i64;
    for value in array.values_iter() {
        sum = sum.wrapping_add(value);
    }
    sum
}

/// The values of the slots that are not null added up, by their iterator.
fn sum_of_slots(array: &PrimitiveArray<i64>) -> i64 {
    let mut sum = 0i64;
    for item in array.iter() {
        if let Some(value) = item {
            sum = sum.wrapping_add(value);
        }
    }
    sum
}

/// The values of the slots that are not null added up, by their indices.
fn sum_of_places(array: &PrimitiveArray<i64>) -> i64 {
    let mut sum = 0i64;
    for i in 0..array.len() {
        if array.is_valid(i) {
            sum = sum.wrapping_add(array.value(i));
        }
    }
    sum
}

/// Walks an array of numbers in three ways.
fn walk<R: Clock + Print>(rt: &R, array: &PrimitiveArray<i64>, measured: bool) -> io::Result<()> {
    let n = array.len();
    let begun = begin(rt, measured)?;
    let sum = sum_of_values(array);
    report(rt, "  sum of the raw values", sum, begun, n)?;
    let begun = begin(rt, measured)?;
    let sum = sum_of_slots(array);
    report(rt, "  sum of the slots", sum, begun, n)?;
    let begun = begin(rt, measured)?;
    let sum = sum_of_places(array);
    report(rt, "  sum of the slots by their indices", sum, begun, n)
}

/// Compares arrays of numbers, once as arrays and once as runs of slots.
fn compare<R: Clock + Print>(
    rt: &R,
    left: &PrimitiveArray<i64>,
    right: &PrimitiveArray<i64>,
    measured: bool,
) -> io::Result<()> {
    let n = left.len().min(right.len());
    let begun = begin(rt, measured)?;
    let same = left == right;
    report(rt, "  arrays found equal", same, begun, n)?;
    let begun = begin(rt, measured)?;
    let same = left.same_run(0, right, 0, n);
    report(rt, "  runs found equal", same, begun, n)
}

/// Walks an array of numbers, and compares it with one that is made like it.
fn walk_and_compare<R: Clock + Print + AllocGlobal>(
    rt: &R,
    array: &PrimitiveArray<i64>,
    nulls: bool,
    measured: bool,
) -> Result<()> {
    walk(rt, array, measured)?;
    let other = numbers(rt.alloc(), array.len(), nulls)?;
    let told = compare(rt, array, &other, measured);
    drop(other);
    told?;
    Ok(())
}

/// Pushes numbers, walks and compares them.
fn run_numbers<R: Clock + Print + AllocGlobal>(
    rt: &R,
    work: &str,
    nulls: bool,
    measured: bool,
) -> Result<()> {
    let n = if measured { NUMBERS } else { FEW };
    let begun = begin(rt, measured)?;
    let array = numbers(rt.alloc(), n, nulls)?;
    let told = report(rt, work, array.null_count(), begun, n);
    let done = match told {
        Ok(()) => walk_and_compare(rt, &array, nulls, measured),
        Err(error) => Err(error.into()),
    };
    drop(array);
    done
}

/// The bytes of the raw values, by their iterator.
fn bytes_of_values(array: &Utf8Array<i32>) -> usize {
    let mut bytes = 0usize;
    for text in array.values_iter() {
        bytes = bytes.wrapping_add(text.len());
    }
    bytes
}

/// The bytes of the slots that are not null, by their iterator.
fn bytes_of_slots(array: &Utf8Array<i32>) -> usize {
    let mut bytes = 0usize;
    for item in array.iter() {
        if let Some(text) = item {
            bytes = bytes.wrapping_add(text.len());
        }
    }
    bytes
}

/// The bytes of the values by their indices.
fn bytes_of_places(array: &Utf8Array<i32>) -> usize {
    let mut bytes = 0usize;
    for i in 0..array.len() {
        bytes = bytes.wrapping_add(array.value(i).len());
    }
    bytes
}

/// Strings of the same parts, which are tested.
fn made_again(alloc: Global, array: &Utf8Array<i32>) -> Result<Utf8Array<i32>, Error> {
    let offsets = array.offsets().clone()?;
    let values = array.values().clone()?;
    Utf8Array::try_new(DataType::Utf8, offsets, values, None)
}

/// Walks an array of strings in three ways, and makes one of its parts.
fn walk_texts<R: Clock + Print + AllocGlobal>(
    rt: &R,
    array: &Utf8Array<i32>,
    measured: bool,
) -> Result<()> {
    let n = array.len();
    let begun = begin(rt, measured)?;
    let bytes = bytes_of_values(array);
    report(rt, "  bytes of the raw values", bytes, begun, n)?;
    let begun = begin(rt, measured)?;
    let bytes = bytes_of_slots(array);
    report(rt, "  bytes of the slots", bytes, begun, n)?;
    let begun = begin(rt, measured)?;
    let bytes = bytes_of_places(array);
    report(
        rt,
        "  bytes of the values by their indices",
        bytes,
        begun,
        n,
    )?;
    let begun = begin(rt, measured)?;
    let other = made_again(rt.alloc(), array)?;
    let count = other.len();
    drop(other);
    report(rt, "  strings of the same parts", count, begun, n)?;
    Ok(())
}

/// Pushes strings, and walks them.
fn run_texts<R: Clock + Print + AllocGlobal>(rt: &R, measured: bool) -> Result<()> {
    let n = if measured { TEXTS } else { FEW };
    let begun = begin(rt, measured)?;
    let array = texts(rt.alloc(), n)?;
    let bytes = array.values().len();
    let told = report(
        rt,
        "strings pushed and frozen, their bytes",
        bytes,
        begun,
        n,
    );
    let done = match told {
        Ok(()) => walk_texts(rt, &array, measured),
        Err(error) => Err(error.into()),
    };
    drop(array);
    done
}

fn run<R: Clock + Print + AllocGlobal>(rt: &R, measured: bool) -> Result<()> {
    run_numbers(
        rt,
        "numbers pushed and frozen, their nulls",
        false,
        measured,
    )?;
    run_numbers(
        rt,
        "numbers and nulls pushed and frozen, their nulls",
        true,
        measured,
    )?;
    run_texts(rt, measured)
}

fn main(rt: HostRuntime) -> Result<()> {
    let measured = is_measured(&rt)?;
    run(&rt, measured)
}
