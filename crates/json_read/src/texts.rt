//! Native values from JSON strings and numbers, in the format of their data type.
ghost use Rattle.std.specs.Prelude.{◌≡◌, Err, FitsSigned, IsTrue, MatchOption, Ok, SomeIff, true};
ghost use Rattle.std.specs.Int.{w32, w64};
ghost use Rattle.json.specs.Json.{string};
ghost use Rattle.json.specs.Value.{value_view};
ghost use Rattle.json_read.specs.NativeNumbers.{ReadsNativeValue};
ghost use Rattle.json_read.specs.declared.value_error.ValueError.TheVariants.{InvalidText};
ghost use Rattle.json_write.specs.Formats.{has_format};
ghost use Rattle.nest_flat.specs.declared.any_native.AnyNative.TheVariants as native;
ghost use Rattle.json_write.specs.Reading.{IsParsed};
ghost use Rattle.json_write.specs.Times.{date_text, is_time_of_day, time_text, unit_digits};
ghost use Rattle.nest_memory.specs.declared.datatypes.physical_type.PrimitiveType.TheVariants.{DaysMs, Int128, Int256, Int32, Int64, MonthDayNano};

use crate::floats::{float_of, float_of_name};
use crate::numbers::native_of;
use crate::text_numbers::{
    parse_days_ms, parse_decimal, parse_decimal_256, parse_duration, parse_month_day_nano,
    parse_months,
};
use crate::value_error::ValueError;
use json::Value;
use json_write::ValueFormat;
use json_write::value_text::{
    Magnitude, is_time, parse_date, parse_millisecond_date, parse_time, parse_timestamp,
};
use nest_flat::any_native::AnyNative;
use nest_memory::datatypes::TimeUnit;
use nest_memory::datatypes::physical_type::PrimitiveType;
use nest_memory::types::{days_ms, months_days_ns};

/// Returns the native value of a JSON value.
///
/// # Errors
/// - `WrongType`: a string of a value that is never text, or another value for a decimal.
/// - `InvalidText`: a string that is the text of no value.
/// - `PrecisionExceeded`: a decimal of more digits than the precision.
/// - those of `float_of` and `native_of` for other values.
pub(crate) fn value_of(
    kind: PrimitiveType,
    format: ValueFormat,
    value: &Value<'_>,
) -> Result<AnyNative, ValueError>
    requires { has_format kind format ≡ true }
    ensures { ReadsNativeValue kind format (value_view value.now) result }
{
    match value {
        Value::String(text) => value_of_text(kind, format, text),
        _ => match format {
            ValueFormat::Decimal(_, _) | ValueFormat::Decimal256(_, _) => {
                Err(ValueError::WrongType)
            }
            ValueFormat::Float(precision) => float_of(precision, value),
            _ => native_of(kind, value),
        },
    }
}

// Returns the value with a text.
fn value_of_text(
    kind: PrimitiveType,
    format: ValueFormat,
    text: &str,
) -> Result<AnyNative, ValueError>
    requires { has_format kind format ≡ true }
    ensures { ReadsNativeValue kind format (string text.now) result }
{
    let bytes = text.as_bytes();
    match kind {
        PrimitiveType::Int32 => value_of_32(format, bytes),
        PrimitiveType::Int64 => value_of_64(format, bytes),
        PrimitiveType::Int128 => decimal_of(format, bytes),
        PrimitiveType::Int256 => decimal_256_of(format, bytes),
        PrimitiveType::DaysMs => days_ms_of_text(format, bytes),
        PrimitiveType::MonthDayNano => month_day_nano_of_text(format, bytes),
        _ => match format {
            ValueFormat::Float(precision) => float_of_name(precision, text),
            _ => Err(ValueError::WrongType),
        },
    }
}

// Returns a value of 32 bits.
fn value_of_32(format: ValueFormat, text: &[u8]) -> Result<AnyNative, ValueError>
    requires { has_format Int32 format ≡ true }
    ensures { ReadsNativeValue Int32 format (string text.now) result }
{
    match format {
        ValueFormat::Date => native_32(date_32(text)),
        ValueFormat::Time(unit) => native_32(time_32(text, unit)),
        ValueFormat::Months => native_32(parse_months(text)),
        _ => Err(ValueError::WrongType),
    }
}

fn native_32(number: Option<i32>) -> Result<AnyNative, ValueError>
    ensures { MatchOption number (result ≡ Err InvalidText) (λ n. result ≡ Ok (native.Int32 n)) }
{
    match number {
        Some(number) => Ok(AnyNative::Int32(number)),
        None => Err(ValueError::InvalidText),
    }
}

// Returns the day of a date.
fn date_32(text: &[u8]) -> Option<i32>
    ensures { IsParsed date_text (FitsSigned w32) text.now result }
{
    let day = parse_date(text)?;
    i64_to_i32(day)
}

// Returns a time of day.
fn time_32(text: &[u8], unit: TimeUnit) -> Option<i32>
    ensures { IsParsed (time_text (unit_digits unit)) (λ n. FitsSigned w32 n × IsTrue (is_time_of_day (unit_digits unit) n)) text.now result }
{
    let value = time_of_day(text, unit)?;
    i64_to_i32(value)
}

// Returns the number if 32 bits hold it.
fn i64_to_i32(number: i64) -> Option<i32>
    ensures { SomeIff result (FitsSigned w32 number) number }
{
    i32::try_from(number).ok()
}

// Returns a value of 64 bits.
fn value_of_64(format: ValueFormat, text: &[u8]) -> Result<AnyNative, ValueError>
    requires { has_format Int64 format ≡ true }
    ensures { ReadsNativeValue Int64 format (string text.now) result }
{
    match format {
        ValueFormat::MillisecondDate => native_64(parse_millisecond_date(text)),
        ValueFormat::Time(unit) => native_64(time_of_day(text, unit)),
        ValueFormat::Timestamp(unit, utc) => native_64(parse_timestamp(text, unit, utc)),
        ValueFormat::Duration(unit) => native_64(parse_duration(text, unit)),
        _ => Err(ValueError::WrongType),
    }
}

fn native_64(number: Option<i64>) -> Result<AnyNative, ValueError>
    ensures { MatchOption number (result ≡ Err InvalidText) (λ n. result ≡ Ok (native.Int64 n)) }
{
    match number {
        Some(number) => Ok(AnyNative::Int64(number)),
        None => Err(ValueError::InvalidText),
    }
}

// Returns a time of day. Other times are numbers.
fn time_of_day(text: &[u8], unit: TimeUnit) -> Option<i64>
    ensures { IsParsed (time_text (unit_digits unit)) (λ n. FitsSigned w64 n × IsTrue (is_time_of_day (unit_digits unit) n)) text.now result }
{
    let value = parse_time(text, unit)?;
    if is_time(unit, value) {
        Some(value)
    } else {
        None
    }
}

// Returns a decimal of 128 bits.
fn decimal_of(format: ValueFormat, text: &[u8]) -> Result<AnyNative, ValueError>
    requires { has_format Int128 format ≡ true }
    ensures { ReadsNativeValue Int128 format (string text.now) result }
{
    let ValueFormat::Decimal(precision, scale) = format else {
        return Err(ValueError::WrongType);
    };
    match parse_decimal(text, scale) {
        None => Err(ValueError::InvalidText),
        Some(number) => {
            let magnitude = Magnitude {
                high: 0,
                low: number.unsigned_abs(),
            };
            if magnitude.has_at_most(precision) {
                Ok(AnyNative::Int128(number))
            } else {
                Err(ValueError::PrecisionExceeded)
            }
        }
    }
}

// Returns a decimal of 256 bits.
fn decimal_256_of(format: ValueFormat, text: &[u8]) -> Result<AnyNative, ValueError>
    requires { has_format Int256 format ≡ true }
    ensures { ReadsNativeValue Int256 format (string text.now) result }
{
    let ValueFormat::Decimal256(precision, scale) = format else {
        return Err(ValueError::WrongType);
    };
    match parse_decimal_256(text, scale) {
        None => Err(ValueError::InvalidText),
        Some(number) => {
            if Magnitude::of(number).has_at_most(precision) {
                Ok(AnyNative::Int256(number))
            } else {
                Err(ValueError::PrecisionExceeded)
            }
        }
    }
}

// Returns an interval of days and milliseconds.
fn days_ms_of_text(format: ValueFormat, text: &[u8]) -> Result<AnyNative, ValueError>
    requires { has_format DaysMs format ≡ true }
    ensures { ReadsNativeValue DaysMs format (string text.now) result }
{
    let ValueFormat::DaysMs = format else {
        return Err(ValueError::WrongType);
    };
    match parse_days_ms(text) {
        Some((days, milliseconds)) => Ok(AnyNative::DaysMs(days_ms { days, milliseconds })),
        None => Err(ValueError::InvalidText),
    }
}

// Returns an interval of months, days and nanoseconds.
fn month_day_nano_of_text(format: ValueFormat, text: &[u8]) -> Result<AnyNative, ValueError>
    requires { has_format MonthDayNano format ≡ true }
    ensures { ReadsNativeValue MonthDayNano format (string text.now) result }
{
    let ValueFormat::MonthDayNano = format else {
        return Err(ValueError::WrongType);
    };
    match parse_month_day_nano(text) {
        Some((months, days, ns)) => {
            Ok(AnyNative::MonthDayNano(months_days_ns { months, days, ns }))
        }
        None => Err(ValueError::InvalidText),
    }
}
