//! Measures writing floating-point numbers as text, beside the kit's `ryu`: `bench_floats run` prints nanoseconds per number.
//! Without `run` it does the same work on few numbers and prints the results alone.
#![tactic(auto)]

use anyhow::Result;
use bench_tools::{begin, is_measured, report};
use float_text::{write_float, write_half};
use std::alloc::{AllocError, Global};
use std::fmt;
use std::fmt::{Display, Formatter};
use std::num::{f64_from_bits_with_nan, f64_to_bits_with_nan};
use std::rt::Clock;

const FEW: usize = 1000;

const NUMBERS: usize = 1_000_000;

/// A number by its bits.
#[derive(Clone, Copy)]
enum Number {
    Double(u64),
    Single(u32),
    Half(u16),
}

impl Display for Number {
    fn fmt<W: fmt::Write>(&self, f: &mut Formatter<W>) -> fmt::Result {
        match *self {
            Number::Double(bits) => write_float::<f64, W>(f, bits),
            Number::Single(bits) => write_float::<f32, W>(f, u64::from(bits)),
            Number::Half(bits) => write_half::<W>(f, bits),
        }
    }
}

/// The next number of a sequence of bits (xorshift).
fn next(state: u64) -> u64 {
    let first = state ^ (state << 13);
    let second = first ^ (first >> 7);
    second ^ (second << 17)
}

/// Bits whose first 64, 32 and 16 are a finite number.
fn random(alloc: Global, n: usize) -> Result<Vec<u64>, AllocError> {
    let mut numbers = Vec::with_capacity(alloc, n)?;
    let mut bits = 88_172_645_463_325_252;
    for _ in 0..n {
        bits = next(bits);
        numbers.push(bits & !(1 << 62))?;
    }
    Ok(numbers)
}

#[derive(Clone, Copy)]
enum Format {
    Double,
    Single,
    Half,
}

impl Format {
    /// The finite number of the first bits.
    fn number(self, bits: u64) -> Number {
        match self {
            Format::Double => Number::Double(bits),
            Format::Single => Number::Single((bits >> 32) as u32),
            Format::Half => Number::Half((bits >> 48) as u16),
        }
    }
}

/// Doubles from a half to 1, most of 16 or 17 digits.
fn fractions(alloc: Global, random: &[u64]) -> Result<Vec<u64>, AllocError> {
    let mut numbers = Vec::with_capacity(alloc, random.len())?;
    for bits in random {
        numbers.push((0x3fe << 52) | (*bits & ((1 << 52) - 1)))?;
    }
    Ok(numbers)
}

/// Prices below 10,000, with two digits after the point.
fn prices(alloc: Global, n: usize) -> Result<Vec<u64>, AllocError> {
    let mut numbers = Vec::with_capacity(alloc, n)?;
    for at in 0..n {
        let cents = (at as u64).wrapping_mul(48_271) % 1_000_000;
        numbers.push(f64_to_bits_with_nan(cents as f64 / 100.0))?;
    }
    Ok(numbers)
}

fn texts(alloc: Global, numbers: &[u64], format: Format) -> Result<String, AllocError> {
    let mut text = String::new(alloc);
    for bits in numbers {
        let number = format.number(*bits);
        write!(text, "{number},")?;
    }
    Ok(text)
}

fn peer_texts(alloc: Global, numbers: &[u64]) -> Result<String, AllocError> {
    let mut text = String::new(alloc);
    for bits in numbers {
        let mut buffer = ryu::Buffer::new();
        let digits = buffer.format(f64_from_bits_with_nan(*bits));
        write!(text, "{digits},")?;
    }
    Ok(text)
}

fn run_format<R: Clock + Print + AllocGlobal>(
    rt: &R,
    name: &str,
    numbers: &[u64],
    format: Format,
    measured: bool,
) -> Result<()> {
    drop(texts(rt.alloc(), numbers, format)?);
    let begun = begin(rt, measured)?;
    let text = texts(rt.alloc(), numbers, format)?;
    report(rt, name, text.len(), begun, numbers.len())?;
    Ok(())
}

fn run_peer<R: Clock + Print + AllocGlobal>(
    rt: &R,
    name: &str,
    numbers: &[u64],
    measured: bool,
) -> Result<()> {
    drop(peer_texts(rt.alloc(), numbers)?);
    let begun = begin(rt, measured)?;
    let text = peer_texts(rt.alloc(), numbers)?;
    report(rt, name, text.len(), begun, numbers.len())?;
    Ok(())
}

fn main(rt: HostRuntime) -> Result<()> {
    let measured = is_measured(&rt)?;
    let n = if measured { NUMBERS } else { FEW };
    let random = random(rt.alloc(), n)?;
    let fractions = fractions(rt.alloc(), &random)?;
    let prices = prices(rt.alloc(), n)?;
    run_format(&rt, "random doubles", &random, Format::Double, measured)?;
    run_peer(&rt, "random doubles, by ryu", &random, measured)?;
    run_format(&rt, "random singles", &random, Format::Single, measured)?;
    run_format(&rt, "random halves", &random, Format::Half, measured)?;
    run_format(&rt, "fractions", &fractions, Format::Double, measured)?;
    run_peer(&rt, "fractions, by ryu", &fractions, measured)?;
    run_format(&rt, "prices", &prices, Format::Double, measured)?;
    run_peer(&rt, "prices, by ryu", &prices, measured)
}
