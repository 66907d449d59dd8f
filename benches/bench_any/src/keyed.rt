//! Dictionaries of strings, whose values are found by a table of hashes.
ghost use Rattle.std.specs.Prelude.{IfOk};
ghost use Rattle.nest_model.specs.BuilderComplete.{IsComplete};

use anyhow::Result;
use bench_tools::{begin, report};
use nest_any::AnyMutableFlat;
use nest_build::array::MutableArray;
use nest_build::dictionary::MutableDictionaryArray;
use nest_flat::plain::Plain;
use nest_flat::utf8::mutable::MutableUtf8Array;
use nest_memory::error::Error;
use std::alloc::{AllocError, Global};
use std::rt::Clock;

/// Strings by keys of 32 bits.
type Keyed = MutableDictionaryArray<i32, AnyMutableFlat>;

const FEW: usize = 100;

const MANY: usize = 1_000_000;

/// A prime number: steps of it come by all of the strings.
const STRIDE: usize = 618_041;

/// So many different strings.
fn different(alloc: Global, n: usize) -> Result<Vec<String>, AllocError> {
    let mut texts = Vec::with_capacity(alloc, n)?;
    for i in 0..n {
        let mut text = String::new(alloc);
        write!(text, "value {i}")?;
        texts.push(text)?;
    }
    Ok(texts)
}

fn no_texts(alloc: Global) -> Result<Keyed, Error>
    ensures { IfOk result (λ b. IsComplete (⟦<Keyed as MutableArray>⟧.model b)) }
{
    let texts = AnyMutableFlat::Utf8(MutableUtf8Array::new(alloc)?);
    MutableDictionaryArray::try_from_values(alloc, texts)
}

/// Pushes n strings, each so far from the one before.
fn push_texts(keyed: &mut Keyed, texts: &[String], n: usize, stride: usize) -> Result<(), Error>
    requires { IsComplete (⟦<Keyed as MutableArray>⟧.model keyed.old) }
{
    'texts: for i in 0..n {
        let place = i.wrapping_mul(stride) % texts.len().max(1);
        if let Some(text) = texts.get(place) {
            keyed.try_push_plain(Some(Plain::Text(text.as_str())))?;
        }
    }
    Ok(())
}

/// How many values a new builder has after n pushes of these strings.
fn values_of(alloc: Global, texts: &[String], n: usize, stride: usize) -> Result<usize, Error> {
    let mut keyed = no_texts(alloc)?;
    let pushed = push_texts(&mut keyed, texts, n, stride);
    let count = keyed.values().len();
    drop(keyed);
    pushed?;
    Ok(count)
}

/// Each text once into a new builder, and this again until so many were pushed.
fn all_new(alloc: Global, texts: &[String], n: usize) -> Result<usize, Error> {
    let mut count = 0;
    for _ in 0..n / texts.len().max(1) {
        count = values_of(alloc, texts, texts.len(), 1)?;
    }
    Ok(count)
}

fn run_texts<R: Clock + Print + AllocGlobal>(
    rt: &R,
    different_texts: usize,
    measured: bool,
) -> Result<()> {
    let (n, count) = if measured {
        (MANY, different_texts)
    } else {
        (FEW, 10)
    };
    let texts = different(rt.alloc(), count)?;
    let begun = begin(rt, measured)?;
    let values = all_new(rt.alloc(), &texts, n)?;
    report(
        rt,
        "  strings pushed, all new, the values",
        values,
        begun,
        n,
    )?;
    let begun = begin(rt, measured)?;
    let values = values_of(rt.alloc(), &texts, n, STRIDE)?;
    report(
        rt,
        "  strings pushed, mostly known, the values",
        values,
        begun,
        n,
    )?;
    Ok(())
}

/// Dictionaries of few and of many strings.
pub fn run<R: Clock + Print + AllocGlobal>(rt: &R, measured: bool) -> Result<()> {
    println!(rt; "dictionaries of 1,000 strings")?;
    run_texts(rt, 1000, measured)?;
    println!(rt; "dictionaries of 100,000 strings")?;
    run_texts(rt, 100_000, measured)
}
