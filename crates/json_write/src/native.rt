//! Native values in the format of their data type.
ghost use Rattle.std.specs.Prelude.{◌≡◌, [], ◌∷◌, is_some, true};
ghost use Rattle.std.specs.Fmt.{WritesOnOk};
ghost use Rattle.nest_flat.specs.AnyNative.{native_kind, native_numbers};
ghost use Rattle.nest_memory.specs.declared.datatypes.physical_type.PrimitiveType.TheVariants.{Int32, Int64};
ghost use Rattle.json_write.specs.Formats.{has_format, text_in, text_of_numbers};
ghost use Rattle.json_write.specs.JsonText.{json_of_value};

use crate::flat::write_number;
use crate::floats::write_float_value;
use crate::format::ValueFormat;
use crate::value_text::{
    is_time, write_date, write_days_ms, write_decimal, write_decimal_256, write_duration,
    write_millisecond_date, write_month_day_nano, write_months, write_time, write_timestamp,
};
use nest_flat::any_native::AnyNative;
use std::fmt;
use std::fmt::Formatter;

/// Writes a value: as a JSON string, as a floating-point number, or as integers.
#[inline(always)]
pub(crate) fn write_native<W: fmt::Write>(
    f: &mut Formatter<W>,
    format: ValueFormat,
    value: AnyNative,
) -> fmt::Result
    requires { has_format (native_kind value) format ≡ true }
    ensures { WritesOnOk W.write_str_gives f.old result (json_of_value format (native_numbers value)) f.new }
{
    if is_string(format, value) {
        return write_quoted_text(f, format, value);
    }
    match format {
        ValueFormat::Float(_) => write_float_value(f, value),
        _ => write_number(f, value),
    }
}

/// Returns whether a value has a text, which is written as a string.
#[inline(always)]
fn is_string(format: ValueFormat, value: AnyNative) -> bool
    requires { has_format (native_kind value) format ≡ true }
    ensures { result ≡ is_some (text_of_numbers format (native_numbers value)) }
{
    match format {
        ValueFormat::Number | ValueFormat::Float(_) => false,
        ValueFormat::Time(unit) => match value {
            AnyNative::Int32(n) => is_time(unit, i64::from(n)),
            AnyNative::Int64(n) => is_time(unit, n),
            _ => false,
        },
        ValueFormat::Decimal256(_, _) => match value {
            AnyNative::Int256(n) => {
                let _low = n.low;
                true
            }
            _ => false,
        },
        _ => true,
    }
}

/// Writes a value as a JSON string. Its text needs no escapes.
fn write_quoted_text<W: fmt::Write>(
    f: &mut Formatter<W>,
    format: ValueFormat,
    value: AnyNative,
) -> fmt::Result
    requires format { has_format (native_kind value) format ≡ true }
    requires text { is_some (text_of_numbers format (native_numbers value)) ≡ true }
    ensures { WritesOnOk W.write_str_gives f.old result (json_of_value format (native_numbers value)) f.new }
{
    f.write_str("\"")?;
    write_text(f, format, value)?;
    f.write_str("\"")
}

/// Writes the text of a value that has one.
fn write_text<W: fmt::Write>(
    f: &mut Formatter<W>,
    format: ValueFormat,
    value: AnyNative,
) -> fmt::Result
    requires format { has_format (native_kind value) format ≡ true }
    requires text { is_some (text_of_numbers format (native_numbers value)) ≡ true }
    ensures { WritesOnOk W.write_str_gives f.old result (text_in format (native_numbers value)) f.new }
{
    match value {
        AnyNative::Int32(n) => write_text_32(f, format, n),
        AnyNative::Int64(n) => write_text_64(f, format, n),
        AnyNative::Int128(n) => match format {
            ValueFormat::Decimal(_, scale) => write_decimal(f, n, scale),
            _ => Ok(()),
        },
        AnyNative::Int256(n) => match format {
            ValueFormat::Decimal256(_, scale) => write_decimal_256(f, n, scale),
            _ => Ok(()),
        },
        AnyNative::DaysMs(n) => write_days_ms(f, n.days, n.milliseconds),
        AnyNative::MonthDayNano(n) => write_month_day_nano(f, n.months, n.days, n.ns),
        _ => Ok(()),
    }
}

/// Writes the text of a value of 32 bits.
fn write_text_32<W: fmt::Write>(
    f: &mut Formatter<W>,
    format: ValueFormat,
    number: i32,
) -> fmt::Result
    requires format { has_format Int32 format ≡ true }
    requires text { is_some (text_of_numbers format (number ∷ [])) ≡ true }
    ensures { WritesOnOk W.write_str_gives f.old result (text_in format (number ∷ [])) f.new }
{
    match format {
        ValueFormat::Date => write_date(f, i64::from(number)),
        ValueFormat::Time(unit) => write_time(f, unit, i64::from(number)),
        ValueFormat::Months => write_months(f, number),
        _ => Ok(()),
    }
}

/// Writes the text of a value of 64 bits.
fn write_text_64<W: fmt::Write>(
    f: &mut Formatter<W>,
    format: ValueFormat,
    number: i64,
) -> fmt::Result
    requires format { has_format Int64 format ≡ true }
    requires text { is_some (text_of_numbers format (number ∷ [])) ≡ true }
    ensures { WritesOnOk W.write_str_gives f.old result (text_in format (number ∷ [])) f.new }
{
    match format {
        ValueFormat::MillisecondDate => write_millisecond_date(f, number),
        ValueFormat::Time(unit) => write_time(f, unit, number),
        ValueFormat::Timestamp(unit, utc) => write_timestamp(f, unit, utc, number),
        ValueFormat::Duration(unit) => write_duration(f, unit, number),
        _ => Ok(()),
    }
}
