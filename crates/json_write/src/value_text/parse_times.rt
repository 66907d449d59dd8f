//! Dates, times of day and timestamps from text. Each function returns the value whose text it is given.
ghost use Rattle.std.specs.Prelude.{◌≡◌, ◌≢◌, ◌<◌, ◌+◌, ◌*◌, ◌^◌, FitsSigned, IfNone, IfSome, false, pos, unsigned_abs};
ghost use Rattle.std.specs.Int.{int_rem_euclid, w64};
ghost use Rattle.json_write.specs.Calendar.{IsDate};
ghost use Rattle.json_write.specs.Digits.{signed_integer_text};
ghost use Rattle.json_write.specs.Reading.{IsParsed, IsTimeOf};
ghost use Rattle.json_write.specs.Times.{calendar_text, clock_text, date_text, is_time_of_day, millisecond_date_text, time_text, timestamp_text, unit_digits, year_text};

use crate::value_text::calendar::{Date, day_of_date};
use crate::value_text::reading::{
    digits_number, parse_fraction, parse_integer, parse_six_digits, to_i64,
};
use crate::value_text::times::is_time;
use crate::value_text::unit::clock_len;
use nest_memory::datatypes::TimeUnit;

fn parse_year(text: &[u8]) -> Option<i64>
    ensures { IsParsed year_text (λ y. unsigned_abs y < 10 ^ 15) text.now result }
{
    let (first, rest) = text.split_first()?;
    if *first == b'-' {
        let years = parse_six_digits(rest)?;
        if 0 < years && years < 1_000_000_000_000_000 {
            Some(-(years as i64))
        } else {
            None
        }
    } else if *first == b'+' {
        let years = parse_six_digits(rest)?;
        if 10_000 <= years && years < 1_000_000_000_000_000 {
            Some(years as i64)
        } else {
            None
        }
    } else if text.len() == 4 {
        let years = digits_number(text)?;
        Some(years as i64)
    } else {
        None
    }
}

fn parse_calendar_date(text: &[u8]) -> Option<Date>
    ensures { IsParsed calendar_text (λ d. IsDate d × (unsigned_abs d.year < 10 ^ 15)) text.now result }
{
    if text.len() < 6 {
        return None;
    }
    let (front, rest) = text.split_at(text.len() - 6);
    if rest[0] != b'-' {
        return None;
    }
    if rest[3] != b'-' {
        return None;
    }
    let year = parse_year(front)?;
    let month = digits_number(&rest[1..3])?;
    let day = digits_number(&rest[4..6])?;
    let date = Date {
        year,
        month: month as u8,
        day: day as u8,
    };
    if date.exists() { Some(date) } else { None }
}

/// Returns the day of a date, counted from 1970-01-01.
pub fn parse_date(text: &[u8]) -> Option<i64>
    ensures { IsParsed date_text (λ n. unsigned_abs n < 10 ^ 17) text.now result }
{
    let date = parse_calendar_date(text)?;
    let day = day_of_date(date);
    if day.unsigned_abs() < 100_000_000_000_000_000 {
        Some(day)
    } else {
        None
    }
}

/// Returns the second of the day and its fraction.
fn parse_clock(text: &[u8], unit: TimeUnit) -> Option<(u32, u32)>
    ensures { IsParsed (λ p. clock_text (unit_digits unit) p.0 p.1) (λ p. (p.0 < 86_400) × (p.1 < 10 ^ unit_digits unit)) text.now result }
{
    if text.len() < 8 {
        return None;
    }
    if text[2] != b':' {
        return None;
    }
    if text[5] != b':' {
        return None;
    }
    let hours = digits_number(&text[..2])?;
    let minutes = digits_number(&text[3..5])?;
    let seconds = digits_number(&text[6..8])?;
    let second = second_of_day(hours, minutes, seconds)?;
    let fraction = parse_fraction(&text[8..], unit)?;
    Some((second, fraction))
}

/// Returns the second of the day of a time.
fn second_of_day(hours: u128, minutes: u128, seconds: u128) -> Option<u32>
    ensures some { IfSome result (λ s. (hours < 24) × (minutes < 60) × (seconds < 60) × (s ≡ hours * 3600 + minutes * 60 + seconds)) }
    ensures none { IfNone result ((hours < 24) → (minutes < 60) → ¬ (seconds < 60)) }
{
    if hours < 24 && minutes < 60 && seconds < 60 {
        Some((hours * 3600 + minutes * 60 + seconds) as u32)
    } else {
        None
    }
}

/// Returns the number of units of some seconds and a fraction.
fn join(unit: TimeUnit, seconds: i128, fraction: u32) -> Option<i64>
    requires seconds { unsigned_abs seconds < 10 ^ 23 }
    requires fraction { fraction < 10 ^ unit_digits unit }
    ensures { IsTimeOf (unit_digits unit) seconds fraction result }
{
    match unit {
        TimeUnit::Second => to_i64(seconds),
        TimeUnit::Millisecond => to_i64(seconds * 1_000 + i128::from(fraction)),
        TimeUnit::Microsecond => to_i64(seconds * 1_000_000 + i128::from(fraction)),
        TimeUnit::Nanosecond => to_i64(seconds * 1_000_000_000 + i128::from(fraction)),
    }
}

/// Returns a time of day, in units since midnight. The text of a value outside of a day is a number.
pub fn parse_time(text: &[u8], unit: TimeUnit) -> Option<i64>
    ensures { IsParsed (time_text (unit_digits unit)) (FitsSigned w64) text.now result }
{
    match parse_clock(text, unit) {
        Some((second, fraction)) => join(unit, second as i128, fraction),
        None => parse_time_number(text, unit),
    }
}

/// Returns a value outside of a day.
fn parse_time_number(text: &[u8], unit: TimeUnit) -> Option<i64>
    ensures { IsParsed signed_integer_text (λ n. FitsSigned w64 n × (is_time_of_day (unit_digits unit) n ≡ false)) text.now result }
{
    let number = parse_integer(text)?;
    let value = to_i64(number)?;
    if is_time(unit, value) {
        None
    } else {
        Some(value)
    }
}

/// Returns a timestamp, in units since 1970-01-01T00:00:00; one in UTC ends with `Z`.
pub fn parse_timestamp(text: &[u8], unit: TimeUnit, utc: bool) -> Option<i64>
    ensures { IsParsed (timestamp_text (unit_digits unit) utc) (FitsSigned w64) text.now result }
{
    if utc {
        let (last, front) = text.split_last()?;
        if *last == b'Z' {
            parse_local_timestamp(front, unit)
        } else {
            None
        }
    } else {
        parse_local_timestamp(text, unit)
    }
}

/// Returns a timestamp without `Z`.
fn parse_local_timestamp(text: &[u8], unit: TimeUnit) -> Option<i64>
    ensures { IsParsed (timestamp_text (unit_digits unit) false) (FitsSigned w64) text.now result }
{
    let clock_len = clock_len(unit);
    if text.len() <= clock_len {
        return None;
    }
    let at = text.len() - clock_len - 1;
    if text[at] != b'T' {
        return None;
    }
    let day = parse_date(&text[..at])?;
    let (second, fraction) = parse_clock(&text[at + 1..], unit)?;
    join(
        unit,
        i128::from(day) * 86_400 + i128::from(second),
        fraction,
    )
}

/// Returns a date in milliseconds since 1970-01-01: the text of a whole number of days is a date.
pub fn parse_millisecond_date(text: &[u8]) -> Option<i64>
    ensures { IsParsed millisecond_date_text (FitsSigned w64) text.now result }
{
    match parse_date(text) {
        Some(day) => day.checked_mul(86_400_000),
        None => parse_date_and_time(text),
    }
}

/// Returns milliseconds that are no whole number of days.
fn parse_date_and_time(text: &[u8]) -> Option<i64>
    ensures { IsParsed (timestamp_text 3 false) (λ n. FitsSigned w64 n × (unsigned_abs (int_rem_euclid n (pos 86_400_000)) ≢ 0)) text.now result }
{
    let value = parse_local_timestamp(text, TimeUnit::Millisecond)?;
    if value.rem_euclid(86_400_000) == 0 {
        None
    } else {
        Some(value)
    }
}
