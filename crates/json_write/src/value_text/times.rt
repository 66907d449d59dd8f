//! Dates, times of day and timestamps as text (ISO 8601).
ghost use Rattle.std.specs.Prelude.{◌≡◌, pos, unsigned_abs};
ghost use Rattle.std.specs.Int.{int_div_euclid, int_rem_euclid};
ghost use Rattle.std.specs.Fmt.{WritesOnOk};
ghost use Rattle.json_write.specs.Times.{calendar_text, clock_text, date_text, is_time_of_day, millisecond_date_text, time_text, timestamp_text, unit_digits, year_text, zone_text};

use crate::value_text::calendar::{Date, date_of_day};
use crate::value_text::digits::{
    write_fraction, write_integer, write_last_digits, write_six_digits,
};
use crate::value_text::unit::{digits, split};
use nest_memory::datatypes::TimeUnit;
use std::fmt;
use std::fmt::Formatter;

/// Writes the date of a day, counted from 1970-01-01, as `2024-02-29`. A year outside of 0000 to 9999 has a sign and at least six digits.
pub fn write_date<W: fmt::Write>(f: &mut Formatter<W>, day: i64) -> fmt::Result
    ensures { WritesOnOk W.write_str_gives f.old result (date_text day) f.new }
{
    write_calendar_date(f, date_of_day(day))
}

/// Writes the year, the month and the day.
fn write_calendar_date<W: fmt::Write>(f: &mut Formatter<W>, date: Date) -> fmt::Result
    ensures { WritesOnOk W.write_str_gives f.old result (calendar_text date) f.new }
{
    write_year(f, date.year)?;
    f.write_char('-')?;
    write_last_digits(f, 2, u64::from(date.month))?;
    f.write_char('-')?;
    write_last_digits(f, 2, u64::from(date.day))
}

fn write_year<W: fmt::Write>(f: &mut Formatter<W>, year: i64) -> fmt::Result
    ensures { WritesOnOk W.write_str_gives f.old result (year_text year) f.new }
{
    let years = year.unsigned_abs();
    if year < 0 {
        f.write_char('-')?;
        write_six_digits(f, years)
    } else if years < 10_000 {
        write_last_digits(f, 4, years)
    } else {
        f.write_char('+')?;
        write_six_digits(f, years)
    }
}

/// Writes the hours, minutes and seconds of a second of the day, and its fraction.
fn write_clock<W: fmt::Write>(
    f: &mut Formatter<W>,
    unit: TimeUnit,
    second: u32,
    fraction: u32,
) -> fmt::Result
    ensures { WritesOnOk W.write_str_gives f.old result (clock_text (unit_digits unit) second fraction) f.new }
{
    write_last_digits(f, 2, u64::from(second / 3600))?;
    f.write_char(':')?;
    write_last_digits(f, 2, u64::from(second / 60 % 60))?;
    f.write_char(':')?;
    write_last_digits(f, 2, u64::from(second % 60))?;
    write_fraction(f, digits(unit), u64::from(fraction))
}

/// Writes a time of day, in units since midnight, as `12:34:56.789` with the digits of the unit. A value outside of a day is written as a number.
pub fn write_time<W: fmt::Write>(f: &mut Formatter<W>, unit: TimeUnit, value: i64) -> fmt::Result
    ensures { WritesOnOk W.write_str_gives f.old result (time_text (unit_digits unit) value) f.new }
{
    let (seconds, fraction) = split(unit, value);
    if 0 <= seconds && seconds < SECONDS_PER_DAY {
        write_clock(f, unit, seconds as u32, fraction)
    } else {
        write_integer(f, value)
    }
}

/// Returns whether a value is a time of day, and not written as a number.
pub fn is_time(unit: TimeUnit, value: i64) -> bool
    ensures { result ≡ is_time_of_day (unit_digits unit) value }
{
    let (seconds, _) = split(unit, value);
    0 <= seconds && seconds < SECONDS_PER_DAY
}

const SECONDS_PER_DAY: i64 = 86_400;

/// Writes a timestamp, in units since 1970-01-01T00:00:00, as `2024-02-29T12:34:56.000001` with the digits of the unit. One in UTC ends with `Z`.
pub fn write_timestamp<W: fmt::Write>(
    f: &mut Formatter<W>,
    unit: TimeUnit,
    utc: bool,
    value: i64,
) -> fmt::Result
    ensures { WritesOnOk W.write_str_gives f.old result (timestamp_text (unit_digits unit) utc value) f.new }
{
    let (seconds, fraction) = split(unit, value);
    let (day, second) = split_days(seconds);
    write_date(f, day)?;
    f.write_char('T')?;
    write_clock(f, unit, second, fraction)?;
    write_zone(f, utc)
}

/// Splits seconds into whole days, rounded down, and the second of the day.
fn split_days(seconds: i64) -> (i64, u32)
    ensures day { result.0 ≡ int_div_euclid seconds (pos 86_400) }
    ensures second { result.1 ≡ unsigned_abs (int_rem_euclid seconds (pos 86_400)) }
{
    (
        seconds.div_euclid(SECONDS_PER_DAY),
        seconds.rem_euclid(SECONDS_PER_DAY) as u32,
    )
}

fn write_zone<W: fmt::Write>(f: &mut Formatter<W>, utc: bool) -> fmt::Result
    ensures { WritesOnOk W.write_str_gives f.old result (zone_text utc) f.new }
{
    if utc { f.write_char('Z') } else { Ok(()) }
}

/// Writes a date in milliseconds since 1970-01-01: a whole number of days as a date, any other as a timestamp.
pub fn write_millisecond_date<W: fmt::Write>(f: &mut Formatter<W>, value: i64) -> fmt::Result
    ensures { WritesOnOk W.write_str_gives f.old result (millisecond_date_text value) f.new }
{
    if value.rem_euclid(MILLISECONDS_PER_DAY) == 0 {
        write_date(f, value.div_euclid(MILLISECONDS_PER_DAY))
    } else {
        write_timestamp(f, TimeUnit::Millisecond, false, value)
    }
}

const MILLISECONDS_PER_DAY: i64 = 86_400_000;
