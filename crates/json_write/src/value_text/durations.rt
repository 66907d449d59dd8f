//! Durations and intervals as text (ISO 8601).
ghost use Rattle.std.specs.Prelude.{◌≡◌};
ghost use Rattle.std.specs.Fmt.{WritesOnOk};
ghost use Rattle.json_write.specs.Times.{days_ms_text, days_text, duration_text, month_day_nano_text, months_text, unit_digits};

use crate::value_text::decimals::write_decimal;
use crate::value_text::digits::write_integer;
use crate::value_text::unit::digits;
use nest_memory::datatypes::TimeUnit;
use std::fmt;
use std::fmt::Formatter;

/// Writes a duration in seconds as `PT1.500S`, with the digits of the unit.
pub fn write_duration<W: fmt::Write>(
    f: &mut Formatter<W>,
    unit: TimeUnit,
    value: i64,
) -> fmt::Result
    ensures { WritesOnOk W.write_str_gives f.old result (duration_text (unit_digits unit) value) f.new }
{
    f.write_str("PT")?;
    write_decimal(f, i128::from(value), digits(unit) as usize)?;
    f.write_str("S")
}

/// Writes an interval of months as `P14M`.
pub fn write_months<W: fmt::Write>(f: &mut Formatter<W>, months: i32) -> fmt::Result
    ensures { WritesOnOk W.write_str_gives f.old result (months_text months) f.new }
{
    f.write_str("P")?;
    write_integer(f, i64::from(months))?;
    f.write_str("M")
}

/// Writes an interval of days and milliseconds as `P1DT0.003S`.
pub fn write_days_ms<W: fmt::Write>(
    f: &mut Formatter<W>,
    days: i32,
    milliseconds: i32,
) -> fmt::Result
    ensures { WritesOnOk W.write_str_gives f.old result (days_ms_text days milliseconds) f.new }
{
    f.write_str("P")?;
    write_days(f, TimeUnit::Millisecond, days, i64::from(milliseconds))
}

/// Writes an interval of months, days and nanoseconds as `P1M2DT0.000000003S`.
pub fn write_month_day_nano<W: fmt::Write>(
    f: &mut Formatter<W>,
    months: i32,
    days: i32,
    nanoseconds: i64,
) -> fmt::Result
    ensures { WritesOnOk W.write_str_gives f.old result (month_day_nano_text months days nanoseconds) f.new }
{
    f.write_str("P")?;
    write_integer(f, i64::from(months))?;
    f.write_str("M")?;
    write_days(f, TimeUnit::Nanosecond, days, nanoseconds)
}

/// Writes the days of an interval and the seconds after them.
fn write_days<W: fmt::Write>(
    f: &mut Formatter<W>,
    unit: TimeUnit,
    days: i32,
    value: i64,
) -> fmt::Result
    ensures { WritesOnOk W.write_str_gives f.old result (days_text (unit_digits unit) days value) f.new }
{
    write_integer(f, i64::from(days))?;
    f.write_str("DT")?;
    write_decimal(f, i128::from(value), digits(unit) as usize)?;
    f.write_str("S")
}
