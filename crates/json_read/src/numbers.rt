//! Native values from JSON numbers.
ghost use Rattle.std.specs.Prelude.{◌≡◌, ◌≢◌, MatchResult, Some, None, is_some, pos, slice_index, []};
ghost use Rattle.std.specs.Char.{is_ascii_digit};
ghost use Rattle.std.specs.List.{list_all};
ghost use Rattle.json.specs.Json.{array, item, no_items, number};
ghost use Rattle.json.specs.Value.{value_view, items_view};
ghost use Rattle.json_read.specs.FlatValues.{Range, number_error, numbers_error};
ghost use Rattle.json_read.specs.NativeNumbers.{HasSeveralNumbers, ReadsNative, ReadsSigned, ReadsUnsigned, spec_range_error};
ghost use Rattle.json_read.specs.Integers.{are_decimal_digits, integer_of};
ghost use Rattle.json_read.specs.declared.value_error.ValueError.TheVariants.{WrongLength};
ghost use Rattle.nest_memory.specs.declared.datatypes.physical_type.PrimitiveType.TheVariants.{DaysMs, Int256, MonthDayNano};

use crate::value_error::ValueError;
use json::Value;
use nest_flat::any_native::AnyNative;
use nest_memory::datatypes::physical_type::PrimitiveType;
use nest_memory::types::{days_ms, i256, months_days_ns};

// Returns whether all bytes are digits.
fn all_digits(text: &[u8]) -> bool
    ensures { result ≡ list_all is_ascii_digit text.now }
{
    text.iter().all(|b| b.is_ascii_digit())
}

// Returns whether the text is one digit or more.
fn are_digits(text: &[u8]) -> bool
    ensures { result ≡ are_decimal_digits text.now }
{
    all_digits(text) && !text.is_empty()
}

// Returns whether the text is an integer.
fn is_integer(text: &[u8]) -> bool
    ensures { result ≡ is_some (integer_of text.now) }
{
    match text {
        [b'-', digits @ ..] => are_digits(digits),
        _ => are_digits(text),
    }
}

// Returns the error of a number that the range does not have.
fn range_error(text: &str) -> ValueError
    ensures { result ≡ spec_range_error text.now }
{
    if is_integer(text.as_bytes()) {
        ValueError::OutOfRange
    } else {
        ValueError::NotAnInteger
    }
}

// Returns the text of a number. It does not begin with a plus, which the parsers below would accept.
fn text_of<'a>(value: &Value<'a>) -> Result<&'a str, ValueError>
    ensures { MatchResult result
        (λ text. (value_view value.now ≡ number text.now) × (slice_index text.now 0 ≢ 43))
        (λ e. (r : Range) → number_error r (value_view value.now) ≡ Some e) }
{
    match value.as_number() {
        None => Err(ValueError::WrongType),
        Some(text) => {
            if text.as_bytes().first() == Some(&b'+') {
                Err(ValueError::NotAnInteger)
            } else {
                Ok(text)
            }
        }
    }
}

// Returns `Ok` for `-0`, the only unsigned integer with a minus.
fn zero_of(text: &str) -> Result<(), ValueError>
    requires { slice_index text.now 0 ≢ 43 }
    ensures { MatchResult result
        (λ _. integer_of text.now ≡ Some (pos 0))
        (λ e. (integer_of text.now ≢ Some (pos 0)) × (e ≡ spec_range_error text.now)) }
{
    match fast_float::parse_i64(text.as_bytes()) {
        Ok(number) => {
            if number == 0 {
                Ok(())
            } else {
                Err(range_error(text))
            }
        }
        Err(_) => Err(range_error(text)),
    }
}

// ---- the widest integers, each in one pass over its digits

fn signed_64(value: &Value<'_>) -> Result<i64, ValueError>
    ensures { ReadsSigned 64 (value_view value.now) result }
{
    let text = text_of(value)?;
    match fast_float::parse_i64(text.as_bytes()) {
        Ok(number) => Ok(number),
        Err(_) => Err(range_error(text)),
    }
}

fn signed_128(value: &Value<'_>) -> Result<i128, ValueError>
    ensures { ReadsSigned 128 (value_view value.now) result }
{
    let text = text_of(value)?;
    match i128::from_str_radix(text, 10) {
        Ok(number) => Ok(number),
        Err(_) => Err(range_error(text)),
    }
}

fn unsigned_64(value: &Value<'_>) -> Result<u64, ValueError>
    ensures { ReadsUnsigned 64 (value_view value.now) result }
{
    let text = text_of(value)?;
    match fast_float::parse_u64(text.as_bytes()) {
        Ok(number) => Ok(number),
        Err(_) => match zero_of(text) {
            Ok(()) => Ok(0),
            Err(reason) => Err(reason),
        },
    }
}

fn unsigned_128(value: &Value<'_>) -> Result<u128, ValueError>
    ensures { ReadsUnsigned 128 (value_view value.now) result }
{
    let text = text_of(value)?;
    match u128::from_str_radix(text, 10) {
        Ok(number) => Ok(number),
        Err(_) => match zero_of(text) {
            Ok(()) => Ok(0),
            Err(reason) => Err(reason),
        },
    }
}

// ---- narrower integers

fn signed_8(value: &Value<'_>) -> Result<i8, ValueError>
    ensures { ReadsSigned 8 (value_view value.now) result }
{
    match i8::try_from(signed_64(value)?) {
        Ok(number) => Ok(number),
        Err(_) => Err(ValueError::OutOfRange),
    }
}

fn unsigned_8(value: &Value<'_>) -> Result<u8, ValueError>
    ensures { ReadsUnsigned 8 (value_view value.now) result }
{
    match u8::try_from(unsigned_64(value)?) {
        Ok(number) => Ok(number),
        Err(_) => Err(ValueError::OutOfRange),
    }
}

fn signed_16(value: &Value<'_>) -> Result<i16, ValueError>
    ensures { ReadsSigned 16 (value_view value.now) result }
{
    match i16::try_from(signed_64(value)?) {
        Ok(number) => Ok(number),
        Err(_) => Err(ValueError::OutOfRange),
    }
}

fn signed_32(value: &Value<'_>) -> Result<i32, ValueError>
    ensures { ReadsSigned 32 (value_view value.now) result }
{
    match i32::try_from(signed_64(value)?) {
        Ok(number) => Ok(number),
        Err(_) => Err(ValueError::OutOfRange),
    }
}

fn unsigned_16(value: &Value<'_>) -> Result<u16, ValueError>
    ensures { ReadsUnsigned 16 (value_view value.now) result }
{
    match u16::try_from(unsigned_64(value)?) {
        Ok(number) => Ok(number),
        Err(_) => Err(ValueError::OutOfRange),
    }
}

fn unsigned_32(value: &Value<'_>) -> Result<u32, ValueError>
    ensures { ReadsUnsigned 32 (value_view value.now) result }
{
    match u32::try_from(unsigned_64(value)?) {
        Ok(number) => Ok(number),
        Err(_) => Err(ValueError::OutOfRange),
    }
}

// ---- native values of several numbers

// Returns the first item and the items after it.
fn next<'v, 'a>(items: &'v [Value<'a>]) -> Result<(&'v Value<'a>, &'v [Value<'a>]), ValueError>
    ensures { MatchResult result
        (λ parts. items_view items.now ≡ item (value_view parts.0.now) (items_view parts.1.now))
        (λ e. (items_view items.now ≡ no_items) × (e ≡ WrongLength)) }
{
    match items.split_first() {
        Some(parts) => Ok(parts),
        None => Err(ValueError::WrongLength),
    }
}

// Returns `Ok` if no item is left.
fn end(items: &[Value<'_>]) -> Result<(), ValueError>
    ensures { MatchResult result
        (λ _. items_view items.now ≡ no_items)
        (λ e. numbers_error [] (items_view items.now) ≡ Some e) }
{
    match items.split_first() {
        None => Ok(()),
        Some(_) => Err(ValueError::WrongLength),
    }
}

// Returns the 256-bit integer of its high and low halves.
fn int256_of(items: &[Value<'_>]) -> Result<AnyNative, ValueError>
    ensures { ReadsNative Int256 (array (items_view items.now)) result }
{
    let (item, rest) = next(items)?;
    let high = signed_128(item)?;
    let (item, rest) = next(rest)?;
    let low = unsigned_128(item)?;
    end(rest)?;
    Ok(AnyNative::Int256(i256::from_words(high, low)))
}

// Returns the interval of its days and milliseconds.
fn days_ms_of(items: &[Value<'_>]) -> Result<AnyNative, ValueError>
    ensures { ReadsNative DaysMs (array (items_view items.now)) result }
{
    let (item, rest) = next(items)?;
    let days = signed_32(item)?;
    let (item, rest) = next(rest)?;
    let milliseconds = signed_32(item)?;
    end(rest)?;
    Ok(AnyNative::DaysMs(days_ms { days, milliseconds }))
}

// Returns the interval of its months, days and nanoseconds.
fn month_day_nano_of(items: &[Value<'_>]) -> Result<AnyNative, ValueError>
    ensures { ReadsNative MonthDayNano (array (items_view items.now)) result }
{
    let (item, rest) = next(items)?;
    let months = signed_32(item)?;
    let (item, rest) = next(rest)?;
    let days = signed_32(item)?;
    let (item, rest) = next(rest)?;
    let ns = signed_64(item)?;
    end(rest)?;
    Ok(AnyNative::MonthDayNano(months_days_ns { months, days, ns }))
}

// Returns the native value of the numbers of a JSON array.
fn native_of_numbers(kind: PrimitiveType, value: &Value<'_>) -> Result<AnyNative, ValueError>
    requires { HasSeveralNumbers kind }
    ensures { ReadsNative kind (value_view value.now) result }
{
    let Value::Array(items) = value else {
        return Err(ValueError::WrongType);
    };
    match kind {
        PrimitiveType::Int256 => int256_of(items),
        PrimitiveType::DaysMs => days_ms_of(items),
        _ => month_day_nano_of(items),
    }
}

// Reads one number as the variant of its type.
macro_rules! one {
    ($read:ident, $kind:ident, $value:expr) => {
        match $read($value) {
            Ok(number) => Ok(AnyNative::$kind(number)),
            Err(reason) => Err(reason),
        }
    };
}

/// Returns the native value of a JSON number, or of a JSON array if the value has several numbers.
///
/// # Errors
/// - `WrongType`: any other JSON value, and any value of a floating-point type.
/// - `NotAnInteger`, `OutOfRange`: the first number with an error.
/// - `WrongLength`: an array of another length.
pub(crate) fn native_of(kind: PrimitiveType, value: &Value<'_>) -> Result<AnyNative, ValueError>
    ensures { ReadsNative kind (value_view value.now) result }
{
    match kind {
        PrimitiveType::Int8 => one!(signed_8, Int8, value),
        PrimitiveType::Int16 => one!(signed_16, Int16, value),
        PrimitiveType::Int32 => one!(signed_32, Int32, value),
        PrimitiveType::Int64 => one!(signed_64, Int64, value),
        PrimitiveType::Int128 => one!(signed_128, Int128, value),
        PrimitiveType::UInt8 => one!(unsigned_8, UInt8, value),
        PrimitiveType::UInt16 => one!(unsigned_16, UInt16, value),
        PrimitiveType::UInt32 => one!(unsigned_32, UInt32, value),
        PrimitiveType::UInt64 => one!(unsigned_64, UInt64, value),
        PrimitiveType::Float16 | PrimitiveType::Float32 | PrimitiveType::Float64 => {
            Err(ValueError::WrongType)
        }
        PrimitiveType::Int256 | PrimitiveType::DaysMs | PrimitiveType::MonthDayNano => {
            native_of_numbers(kind, value)
        }
    }
}
