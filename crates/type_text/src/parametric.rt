//! Parametric types with a unit or with numbers, after their keyword.
ghost use Rattle.std.specs.Prelude.{◌≡◌, IfOk};
ghost use Rattle.nest_memory.specs.TypeOf.{type_of};
ghost use Rattle.nest_memory.specs.TypeTree as types;
ghost use Rattle.type_text.specs.TypeParser.{ReadsAs, plain_tree, read_decimal, read_parametric, read_precision_and_scale, read_size, read_fixed_size_binary, read_time, read_timestamp, read_unit};

use crate::error::{PartError, SyntaxError};
use crate::keyword::{ParametricType, PlainType};
use crate::lexer::{expect, name, number, strip_prefix};
use nest_memory::datatypes::floats::{Precision, float_type};
use nest_memory::datatypes::{DataType, IntervalUnit, TimeUnit};
use std::alloc::{AllocError, Global};

/// Returns the data type that is its keyword alone.
pub fn plain(alloc: Global, kind: PlainType) -> Result<DataType, AllocError>
    ensures { IfOk result (λ t. type_of t ≡ plain_tree kind) }
{
    match kind {
        PlainType::Null => Ok(DataType::Null),
        PlainType::Boolean => Ok(DataType::Boolean),
        PlainType::Float16 => float_type(alloc, Precision::Half),
        PlainType::Float32 => float_type(alloc, Precision::Single),
        PlainType::Float64 => float_type(alloc, Precision::Double),
        PlainType::Date32 => Ok(DataType::Date32),
        PlainType::Date64 => Ok(DataType::Date64),
        PlainType::YearMonth => Ok(DataType::Interval(IntervalUnit::YearMonth)),
        PlainType::DayTime => Ok(DataType::Interval(IntervalUnit::DayTime)),
        PlainType::MonthDayNano => Ok(DataType::Interval(IntervalUnit::MonthDayNano)),
        PlainType::Binary => Ok(DataType::Binary),
        PlainType::LargeBinary => Ok(DataType::LargeBinary),
        PlainType::Utf8 => Ok(DataType::Utf8),
        PlainType::LargeUtf8 => Ok(DataType::LargeUtf8),
    }
}

/// Reads the parameters of a type and the closing bracket.
pub fn parametric(
    alloc: Global,
    kind: ParametricType,
    text: &str,
) -> Result<(DataType, &str), PartError>
    ensures { ReadsAs (λ x. (type_of x.0, x.1.now)) result (read_parametric kind text.now) }
{
    match kind {
        ParametricType::Timestamp => timestamp(alloc, text),
        ParametricType::Time32 => time32(text),
        ParametricType::Time64 => time64(text),
        ParametricType::Duration => duration(text),
        ParametricType::FixedSizeBinary => fixed_size_binary(text),
        ParametricType::Decimal => decimal(text),
        ParametricType::Decimal256 => decimal256(text),
    }
}

#[tactic(auto, unfolding(crate::specs::TypeParser::read_unit))]
fn unit(text: &str) -> Result<(TimeUnit, &str), PartError>
    ensures { ReadsAs (λ x. (x.0, x.1.now)) result (read_unit text.now) }
{
    if let Some(rest) = strip_prefix(text, "s") {
        return Ok((TimeUnit::Second, rest));
    }
    if let Some(rest) = strip_prefix(text, "ms") {
        return Ok((TimeUnit::Millisecond, rest));
    }
    if let Some(rest) = strip_prefix(text, "us") {
        return Ok((TimeUnit::Microsecond, rest));
    }
    if let Some(rest) = strip_prefix(text, "ns") {
        return Ok((TimeUnit::Nanosecond, rest));
    }
    Err(PartError::Syntax(SyntaxError::Unexpected(text.len())))
}

#[tactic(auto, unfolding(crate::specs::TypeParser::read_timestamp))]
fn timestamp(alloc: Global, text: &str) -> Result<(DataType, &str), PartError>
    ensures { ReadsAs (λ x. (type_of x.0, x.1.now)) result (read_timestamp text.now) }
{
    let (unit, rest) = unit(text)?;
    match strip_prefix(rest, ", tz=") {
        Some(zone) => {
            let (zone, rest) = name(zone, "]")?;
            let zone = String::from_str(alloc, zone)?;
            Ok((DataType::Timestamp(unit, Some(zone)), rest))
        }
        None => {
            let rest = expect(rest, "]")?;
            Ok((DataType::Timestamp(unit, None), rest))
        }
    }
}

#[tactic(auto, unfolding(crate::specs::TypeParser::read_time))]
fn time32(text: &str) -> Result<(DataType, &str), PartError>
    ensures { ReadsAs (λ x. (type_of x.0, x.1.now)) result (read_time types.time32 text.now) }
{
    let (unit, rest) = unit(text)?;
    let rest = expect(rest, "]")?;
    Ok((DataType::Time32(unit), rest))
}

#[tactic(auto, unfolding(crate::specs::TypeParser::read_time))]
fn time64(text: &str) -> Result<(DataType, &str), PartError>
    ensures { ReadsAs (λ x. (type_of x.0, x.1.now)) result (read_time types.time64 text.now) }
{
    let (unit, rest) = unit(text)?;
    let rest = expect(rest, "]")?;
    Ok((DataType::Time64(unit), rest))
}

#[tactic(auto, unfolding(crate::specs::TypeParser::read_time))]
fn duration(text: &str) -> Result<(DataType, &str), PartError>
    ensures { ReadsAs (λ x. (type_of x.0, x.1.now)) result (read_time types.duration text.now) }
{
    let (unit, rest) = unit(text)?;
    let rest = expect(rest, "]")?;
    Ok((DataType::Duration(unit), rest))
}

/// Reads a size and the closing bracket.
#[tactic(auto, unfolding(crate::specs::TypeParser::read_size))]
pub fn size(text: &str) -> Result<(usize, &str), PartError>
    ensures { ReadsAs (λ x. (x.0, x.1.now)) result (read_size text.now) }
{
    let (n, rest) = number(text)?;
    let rest = expect(rest, "]")?;
    Ok((n, rest))
}

#[tactic(auto, unfolding(crate::specs::TypeParser::read_fixed_size_binary))]
fn fixed_size_binary(text: &str) -> Result<(DataType, &str), PartError>
    ensures { ReadsAs (λ x. (type_of x.0, x.1.now)) result (read_fixed_size_binary text.now) }
{
    let (n, rest) = size(text)?;
    Ok((DataType::FixedSizeBinary(n), rest))
}

/// Reads the precision and the scale of a decimal, and the closing bracket.
#[tactic(auto, unfolding(crate::specs::TypeParser::read_precision_and_scale))]
fn precision_and_scale(text: &str) -> Result<((usize, usize), &str), PartError>
    ensures { ReadsAs (λ x. (x.0, x.1.now)) result (read_precision_and_scale text.now) }
{
    let (precision, rest) = number(text)?;
    let rest = expect(rest, ", ")?;
    let (scale, rest) = number(rest)?;
    let rest = expect(rest, ")")?;
    Ok(((precision, scale), rest))
}

#[tactic(auto, unfolding(crate::specs::TypeParser::read_decimal))]
fn decimal(text: &str) -> Result<(DataType, &str), PartError>
    ensures { ReadsAs (λ x. (type_of x.0, x.1.now)) result (read_decimal types.decimal text.now) }
{
    let ((precision, scale), rest) = precision_and_scale(text)?;
    Ok((DataType::Decimal(precision, scale), rest))
}

#[tactic(auto, unfolding(crate::specs::TypeParser::read_decimal))]
fn decimal256(text: &str) -> Result<(DataType, &str), PartError>
    ensures { ReadsAs (λ x. (type_of x.0, x.1.now)) result (read_decimal types.decimal256 text.now) }
{
    let ((precision, scale), rest) = precision_and_scale(text)?;
    Ok((DataType::Decimal256(precision, scale), rest))
}
