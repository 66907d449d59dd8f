//! Dates, times and timestamps in conditions, as numbers.
ghost use Rattle.std.specs.Prelude.{◌≡◌, ◌*ℤ◌, ◌^◌, FitsSigned, IsTrue, SomeIff, option_map, pos, string_bytes};
ghost use Rattle.std.specs.Int.{w32, w64};
ghost use Rattle.json_write.specs.Reading.{IsParsed};
ghost use Rattle.json_write.specs.Times.{date_text, is_time_of_day, time_text, unit_digits};
ghost use Rattle.json_write.specs.declared.format.ValueFormat.TheVariants as formats;
ghost use Rattle.cli_args.specs.ConditionTrees.{number_tree};
ghost use Rattle.cli_rows.specs.TimeLiterals.{day_with_text, in_unit, integer_with_text, midnight, seconds_of_time, seconds_of_timestamp, spec_number_of_text, time_in, timestamp_in, units_of_seconds, whole_number};

use cli_args::NumberLiteral;
use json_write::value_text::{is_time, parse_date, parse_time, parse_timestamp};
use nest_memory::datatypes::TimeUnit;

/// A kind of dates and times.
#[derive(Clone, Copy, Debug, PartialEq, Eq)]
pub enum TemporalKind {
    /// Dates, as days since 1970-01-01.
    Date,
    /// Times of day, as units since midnight.
    Time(TimeUnit),
    /// Timestamps, as units since 1970-01-01T00:00:00, in UTC or without a zone.
    Timestamp(TimeUnit, bool),
}

fn to_i32(number: i64) -> Option<i32>
    ensures { SomeIff result (FitsSigned w32 number) number }
{
    i32::try_from(number).ok()
}

/// Returns the day of a date, if 32 bits hold it.
fn date_of_32_bits(text: &[u8]) -> Option<i32>
    ensures { IsParsed date_text (FitsSigned w32) text.now result }
{
    let day = parse_date(text)?;
    to_i32(day)
}

/// Returns the day with this text.
fn day_of_text(text: &[u8]) -> Option<i32>
    ensures { result ≡ day_with_text text.now }
{
    date_of_32_bits(text)
}

/// Returns a time of day. The text of any other time is a number.
fn time_of_day(text: &[u8], unit: TimeUnit) -> Option<i64>
    ensures { IsParsed (time_text (unit_digits unit)) (λ n. FitsSigned w64 n × IsTrue (is_time_of_day (unit_digits unit) n)) text.now result }
{
    let value = parse_time(text, unit)?;
    if is_time(unit, value) {
        Some(value)
    } else {
        None
    }
}

/// Returns the time of day with this text.
fn time_of_text(text: &[u8], unit: TimeUnit) -> Option<i64>
    ensures { result ≡ integer_with_text (2 ^ 63) (formats.Time unit) text.now }
{
    time_of_day(text, unit)
}

/// Returns the timestamp with this text.
fn timestamp_of_text(text: &[u8], unit: TimeUnit, utc: bool) -> Option<i64>
    ensures { result ≡ integer_with_text (2 ^ 63) (formats.Timestamp unit utc) text.now }
{
    parse_timestamp(text, unit, utc)
}

/// Returns the number of digits of a second after the decimal point.
fn second_digits(unit: TimeUnit) -> u8
    ensures { result ≡ unit_digits unit }
{
    match unit {
        TimeUnit::Second => 0,
        TimeUnit::Millisecond => 3,
        TimeUnit::Microsecond => 6,
        TimeUnit::Nanosecond => 9,
    }
}

/// Returns a number of units in seconds, and the number of its digits after the decimal point.
fn with_unit(value: Option<i64>, unit: TimeUnit) -> Option<(i64, u8)>
    ensures { result ≡ option_map (in_unit unit) value }
{
    match value {
        None => None,
        Some(value) => Some((value, second_digits(unit))),
    }
}

fn time_with_unit(text: &[u8], unit: TimeUnit) -> Option<(i64, u8)>
    ensures { result ≡ time_in unit text.now }
{
    with_unit(time_of_text(text, unit), unit)
}

fn timestamp_with_unit(text: &[u8], unit: TimeUnit, utc: bool) -> Option<(i64, u8)>
    ensures { result ≡ timestamp_in utc unit text.now }
{
    with_unit(timestamp_of_text(text, unit, utc), unit)
}

/// Returns the time of day, in seconds, with this text.
fn time_in_seconds(text: &[u8]) -> Option<(i64, u8)>
    ensures { result ≡ seconds_of_time text.now }
{
    time_with_unit(text, TimeUnit::Second)
        .or(time_with_unit(text, TimeUnit::Millisecond))
        .or(time_with_unit(text, TimeUnit::Microsecond))
        .or(time_with_unit(text, TimeUnit::Nanosecond))
}

/// Returns the second at which the day with this text begins.
fn midnight_of_text(text: &[u8]) -> Option<(i64, u8)>
    ensures { result ≡ option_map midnight (day_with_text text.now) }
{
    match day_of_text(text) {
        None => None,
        Some(day) => Some((i64::from(day) * 86_400, 0)),
    }
}

/// Returns the timestamp, in seconds, with this text.
fn timestamp_in_seconds(text: &[u8], utc: bool) -> Option<(i64, u8)>
    ensures { result ≡ seconds_of_timestamp utc text.now }
{
    midnight_of_text(text)
        .or(timestamp_with_unit(text, TimeUnit::Second, utc))
        .or(timestamp_with_unit(text, TimeUnit::Millisecond, utc))
        .or(timestamp_with_unit(text, TimeUnit::Microsecond, utc))
        .or(timestamp_with_unit(text, TimeUnit::Nanosecond, utc))
}

/// Returns seconds as a number of units.
fn count_of_units(unit: TimeUnit, seconds: i64) -> i128
    ensures { result ≡ seconds *ℤ pos (10 ^ unit_digits unit) }
{
    match unit {
        TimeUnit::Second => i128::from(seconds),
        TimeUnit::Millisecond => i128::from(seconds) * 1_000,
        TimeUnit::Microsecond => i128::from(seconds) * 1_000_000,
        TimeUnit::Nanosecond => i128::from(seconds) * 1_000_000_000,
    }
}

/// Returns seconds as a number of units.
fn number_of_seconds(unit: TimeUnit, seconds: (i64, u8)) -> NumberLiteral
    ensures { number_tree result ≡ units_of_seconds (unit_digits unit) seconds }
{
    NumberLiteral {
        value: count_of_units(unit, seconds.0),
        digits: seconds.1,
        single: 0,
        double: 0,
    }
}

fn number_of_day(day: i32) -> NumberLiteral
    ensures { number_tree result ≡ whole_number day }
{
    NumberLiteral {
        value: i128::from(day),
        digits: 0,
        single: 0,
        double: 0,
    }
}

/// Returns the number that a text is compared as with values of a kind.
pub fn number_of_text(kind: TemporalKind, text: &String) -> Option<NumberLiteral>
    ensures { option_map number_tree result ≡ spec_number_of_text kind (string_bytes text.now) }
{
    let bytes = text.as_bytes();
    match kind {
        TemporalKind::Date => match day_of_text(bytes) {
            None => None,
            Some(day) => Some(number_of_day(day)),
        },
        TemporalKind::Time(unit) => match time_in_seconds(bytes) {
            None => None,
            Some(seconds) => Some(number_of_seconds(unit, seconds)),
        },
        TemporalKind::Timestamp(unit, utc) => match timestamp_in_seconds(bytes, utc) {
            None => None,
            Some(seconds) => Some(number_of_seconds(unit, seconds)),
        },
    }
}
