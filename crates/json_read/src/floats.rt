//! Floating-point numbers, by their bits.
ghost use Rattle.std.specs.Prelude.{◌≡◌, true};
ghost use Rattle.std.specs.Float.Ieee.{binary32, binary64};
ghost use Rattle.json.specs.Json.{number, string};
ghost use Rattle.json.specs.Value.{value_view};
ghost use Rattle.json_read.specs.FloatValues.{name_bits, number_bits, spec_is_float_name, text_bits};
ghost use Rattle.json_read.specs.NativeNumbers.{ReadsNativeValue};
ghost use Rattle.json_write.specs.Formats.{has_format};
ghost use Rattle.json_write.specs.declared.format.ValueFormat.TheVariants.{Float};
ghost use Rattle.nest_memory.specs.declared.datatypes.physical_type.PrimitiveType.{PrimitiveType};

use crate::half_numbers::{half_of_name, half_of_number};
use crate::value_error::ValueError;
use float_text::is_finite;
use json::Value;
use nest_flat::any_native::AnyNative;
use nest_memory::datatypes::floats::Precision;
use std::num::{f32_to_bits_with_nan, f64_to_bits_with_nan};

/// Returns the number of a JSON value: the nearest to a JSON number, at a tie the even one, or the one that a string names.
///
/// # Errors
/// - `OutOfRange`: the JSON number is past the range.
/// - `InvalidText`: a string other than `NaN`, `Infinity` and `-Infinity`.
/// - `WrongType`: any other JSON value.
pub(crate) fn float_of(precision: Precision, value: &Value<'_>) -> Result<AnyNative, ValueError>
    ensures { (k : PrimitiveType) → has_format k (Float precision) ≡ true → ReadsNativeValue k (Float precision) (value_view value.now) result }
{
    match value {
        Value::Number(text) => float_of_number(precision, text),
        Value::String(text) => float_of_name(precision, text),
        _ => Err(ValueError::WrongType),
    }
}

// Returns the number nearest to a JSON number.
fn float_of_number(precision: Precision, text: &str) -> Result<AnyNative, ValueError>
    ensures { (k : PrimitiveType) → has_format k (Float precision) ≡ true → ReadsNativeValue k (Float precision) (number text.now) result }
{
    match precision {
        Precision::Half => match half_of_number(text.as_bytes()) {
            Some(bits) => Ok(AnyNative::UInt16(bits)),
            None => Err(ValueError::OutOfRange),
        },
        Precision::Single => match finite_single(text) {
            Some(bits) => Ok(AnyNative::UInt32(bits)),
            None => Err(ValueError::OutOfRange),
        },
        Precision::Double => match finite_double(text) {
            Some(bits) => Ok(AnyNative::UInt64(bits)),
            None => Err(ValueError::OutOfRange),
        },
    }
}

/// Returns the number that a JSON string names. The errors are those of `float_of`.
pub(crate) fn float_of_name(precision: Precision, text: &str) -> Result<AnyNative, ValueError>
    ensures { (k : PrimitiveType) → has_format k (Float precision) ≡ true → ReadsNativeValue k (Float precision) (string text.now) result }
{
    match precision {
        Precision::Half => match half_of_name(text) {
            Some(bits) => Ok(AnyNative::UInt16(bits)),
            None => Err(ValueError::InvalidText),
        },
        Precision::Single => match named_single(text) {
            Some(bits) => Ok(AnyNative::UInt32(bits)),
            None => Err(ValueError::InvalidText),
        },
        Precision::Double => match named_double(text) {
            Some(bits) => Ok(AnyNative::UInt64(bits)),
            None => Err(ValueError::InvalidText),
        },
    }
}

fn finite_single(text: &str) -> Option<u32>
    ensures { result ≡ number_bits binary32 text.now }
{
    let bits = single_bits(text)?;
    if is_finite::<f32>(u64::from(bits)) {
        Some(bits)
    } else {
        None
    }
}

fn finite_double(text: &str) -> Option<u64>
    ensures { result ≡ number_bits binary64 text.now }
{
    let bits = double_bits(text)?;
    if is_finite::<f64>(bits) {
        Some(bits)
    } else {
        None
    }
}

fn named_single(text: &str) -> Option<u32>
    ensures { result ≡ name_bits binary32 text.now }
{
    if is_float_name(text) {
        single_bits(text)
    } else {
        None
    }
}

fn named_double(text: &str) -> Option<u64>
    ensures { result ≡ name_bits binary64 text.now }
{
    if is_float_name(text) {
        double_bits(text)
    } else {
        None
    }
}

// Returns the bits of the single that a text reads as.
fn single_bits(text: &str) -> Option<u32>
    ensures { result ≡ text_bits binary32 text.now }
{
    match fast_float::parse::<f32, _>(text.as_bytes()) {
        Ok(number) => Some(f32_to_bits_with_nan(number)),
        Err(_) => None,
    }
}

// Returns the bits of the double that a text reads as.
fn double_bits(text: &str) -> Option<u64>
    ensures { result ≡ text_bits binary64 text.now }
{
    match fast_float::parse::<f64, _>(text.as_bytes()) {
        Ok(number) => Some(f64_to_bits_with_nan(number)),
        Err(_) => None,
    }
}

// Returns whether a string is that of a number that is not finite.
fn is_float_name(text: &str) -> bool
    ensures { result ≡ spec_is_float_name text.now }
{
    text == "NaN" || text == "Infinity" || text == "-Infinity"
}
