//! Numbers of conditions.
ghost use Rattle.std.specs.Prelude.{◌≡◌, IfOk};
ghost use Rattle.std.specs.Float.Ieee.{binary32, binary64};
ghost use Rattle.cli_args.specs.NumberLiterals.{bits_of_text, number_of_decimal};
ghost use Rattle.cli_args.specs.ConditionTrees.{number_tree};

use std::alloc::{AllocError, Global};
use std::num::{f32_to_bits_with_nan, f64_to_bits_with_nan};

/// A decimal number, and the floating-point numbers nearest to it (IEEE 754), by their bits.
#[derive(Clone, Copy, Debug, PartialEq, Eq)]
pub struct NumberLiteral {
    /// The number without its decimal point.
    pub value: i128,
    /// The number of its digits after the decimal point.
    pub digits: u8,
    /// The nearest single-precision number.
    pub single: u32,
    /// The nearest double-precision number.
    pub double: u64,
}

/// Returns the bits of the single-precision number that a text reads as.
fn single_bits(text: &str) -> u32
    ensures { result ≡ bits_of_text binary32 text.now }
{
    match fast_float::parse::<f32, _>(text.as_bytes()) {
        Ok(number) => f32_to_bits_with_nan(number),
        Err(_) => 0,
    }
}

/// Returns the bits of the double-precision number that a text reads as.
fn double_bits(text: &str) -> u64
    ensures { result ≡ bits_of_text binary64 text.now }
{
    match fast_float::parse::<f64, _>(text.as_bytes()) {
        Ok(number) => f64_to_bits_with_nan(number),
        Err(_) => 0,
    }
}

/// Returns the number `value` / 10^`digits`.
pub(crate) fn number_literal(
    alloc: Global,
    value: i128,
    digits: u8,
) -> Result<NumberLiteral, AllocError>
    ensures { IfOk result (λ n. number_tree n ≡ number_of_decimal value digits) }
{
    let text = format!(in alloc; "{value}e-{digits}")?;
    Ok(NumberLiteral {
        value,
        digits,
        single: single_bits(&text),
        double: double_bits(&text),
    })
}
