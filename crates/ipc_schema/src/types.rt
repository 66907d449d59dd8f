//! Readers of the tables of types without children.
ghost use Rattle.std.specs.Prelude.{◌≡◌, ◌<◌, ◌^◌, length, option_map};
ghost use Rattle.ipc_flatbuf.specs.ReadResults.{Returns};
ghost use Rattle.ipc_schema.specs.LeafModels.{leaf_tree};
ghost use Rattle.ipc_schema.specs.Types.{spec_bare_at, spec_integer_of, spec_integer_at, spec_float_at, spec_is_precision, spec_decimal_of, spec_decimal_at, spec_date_of, spec_date_at, spec_unit_of, spec_is_coarse, spec_time_of, spec_time_at, spec_zone_at, spec_timestamp_at, spec_interval_of, spec_interval_at, spec_duration_at, spec_size_of, spec_fixed_size_binary_at, spec_type_at};

use crate::floats::precision_of_number;
use crate::leaf_types::Leaf;
use crate::type_tags::LeafTag;
use ipc_flatbuf::{
    IpcReadError, i16_field, i32_field, non_negative, offset_field, read_string, read_table,
    u8_field,
};
use nest_memory::datatypes::{IntegerType, IntervalUnit, TimeUnit};

#[tactic(auto, unfolding(crate::specs::Types::spec_bare_at))]
fn bare_at<'a>(
    leaf: Leaf<'a>,
    bytes: &'a [u8],
    position: usize,
    left: usize,
) -> Result<(Leaf<'a>, usize), IpcReadError>
    requires { length bytes.now < 2 ^ 32 }
    ensures { Returns (λ x. (leaf_tree x.0, x.1)) result (spec_bare_at (leaf_tree leaf.entry) bytes.now position left) }
{
    let (_, left) = read_table(bytes, position, left)?;
    Ok((leaf, left))
}

fn integer_of(bits: usize, signed: bool) -> Result<IntegerType, IpcReadError>
    ensures { result ≡ spec_integer_of bits signed }
{
    if bits == 8 {
        Ok(if signed {
            IntegerType::Int8
        } else {
            IntegerType::UInt8
        })
    } else if bits == 16 {
        Ok(if signed {
            IntegerType::Int16
        } else {
            IntegerType::UInt16
        })
    } else if bits == 32 {
        Ok(if signed {
            IntegerType::Int32
        } else {
            IntegerType::UInt32
        })
    } else if bits == 64 {
        Ok(if signed {
            IntegerType::Int64
        } else {
            IntegerType::UInt64
        })
    } else {
        Err(IpcReadError::TypeRange)
    }
}

/// Returns the integer type at a position, and the budget left (Schema.fbs, table `Int`).
#[tactic(auto, unfolding(crate::specs::Types::spec_integer_at))]
pub fn integer_at(
    bytes: &[u8],
    position: usize,
    left: usize,
) -> Result<(IntegerType, usize), IpcReadError>
    requires { length bytes.now < 2 ^ 32 }
    ensures { result ≡ spec_integer_at bytes.now position left }
{
    let (table, left) = read_table(bytes, position, left)?;
    let width = i32_field(bytes, table, 0, 0)?;
    let sign = u8_field(bytes, table, 1)?;
    let bits = non_negative(IpcReadError::TypeRange, width as i64)?;
    let integer = integer_of(bits, sign > 0)?;
    Ok((integer, left))
}

#[tactic(auto, unfolding(crate::specs::Types::spec_float_at))]
fn float_at(bytes: &[u8], position: usize, left: usize) -> Result<(Leaf<'_>, usize), IpcReadError>
    requires { length bytes.now < 2 ^ 32 }
    ensures { Returns (λ x. (leaf_tree x.0, x.1)) result (spec_float_at bytes.now position left) }
{
    let (table, left) = read_table(bytes, position, left)?;
    let number = i16_field(bytes, table, 0, 0)?;
    let number = non_negative(IpcReadError::TypeRange, number as i64)?;
    let precision = precision_of_number(number)?;
    Ok((Leaf::Float(precision), left))
}

// The most digits of a decimal of 32 bits.
const MOST_DIGITS_32: usize = 9;

// The most digits of a decimal of 64 bits.
const MOST_DIGITS_64: usize = 18;

/// The most digits of a 128-bit decimal.
pub const MOST_DIGITS: usize = 38;

/// The most digits of a 256-bit decimal.
pub const MOST_DIGITS_256: usize = 76;

/// Returns whether a precision is from 1 to the most digits of a width.
pub fn is_precision(most: usize, digits: usize) -> bool
    ensures { result ≡ spec_is_precision most digits }
{
    1 <= digits && digits <= most
}

fn decimal_of<'a>(digits: usize, after: usize, bits: usize) -> Result<Leaf<'a>, IpcReadError>
    ensures { Returns leaf_tree result (spec_decimal_of digits after bits) }
{
    if bits == 128 && is_precision(MOST_DIGITS, digits) {
        Ok(Leaf::Decimal(digits, after))
    } else if bits == 256 && is_precision(MOST_DIGITS_256, digits) {
        Ok(Leaf::Decimal256(digits, after))
    } else if bits == 32 && is_precision(MOST_DIGITS_32, digits) {
        Ok(Leaf::Decimal32(digits, after))
    } else if bits == 64 && is_precision(MOST_DIGITS_64, digits) {
        Ok(Leaf::Decimal64(digits, after))
    } else {
        Err(IpcReadError::TypeRange)
    }
}

#[tactic(auto, unfolding(crate::specs::Types::spec_decimal_at))]
fn decimal_at(bytes: &[u8], position: usize, left: usize) -> Result<(Leaf<'_>, usize), IpcReadError>
    requires { length bytes.now < 2 ^ 32 }
    ensures { Returns (λ x. (leaf_tree x.0, x.1)) result (spec_decimal_at bytes.now position left) }
{
    let (table, left) = read_table(bytes, position, left)?;
    let precision = i32_field(bytes, table, 0, 0)?;
    let scale = i32_field(bytes, table, 1, 0)?;
    let width = i32_field(bytes, table, 2, 128)?;
    let digits = non_negative(IpcReadError::TypeRange, precision as i64)?;
    let after = non_negative(IpcReadError::TypeRange, scale as i64)?;
    let bits = non_negative(IpcReadError::TypeRange, width as i64)?;
    let leaf = decimal_of(digits, after, bits)?;
    Ok((leaf, left))
}

fn date_of<'a>(number: usize) -> Result<Leaf<'a>, IpcReadError>
    ensures { Returns leaf_tree result (spec_date_of number) }
{
    match number {
        0 => Ok(Leaf::Date32),
        1 => Ok(Leaf::Date64),
        _ => Err(IpcReadError::TypeRange),
    }
}

#[tactic(auto, unfolding(crate::specs::Types::spec_date_at))]
fn date_at(bytes: &[u8], position: usize, left: usize) -> Result<(Leaf<'_>, usize), IpcReadError>
    requires { length bytes.now < 2 ^ 32 }
    ensures { Returns (λ x. (leaf_tree x.0, x.1)) result (spec_date_at bytes.now position left) }
{
    let (table, left) = read_table(bytes, position, left)?;
    let unit = i16_field(bytes, table, 0, 1)?;
    let number = non_negative(IpcReadError::TypeRange, unit as i64)?;
    let leaf = date_of(number)?;
    Ok((leaf, left))
}

fn unit_of(number: usize) -> Result<TimeUnit, IpcReadError>
    ensures { result ≡ spec_unit_of number }
{
    match number {
        0 => Ok(TimeUnit::Second),
        1 => Ok(TimeUnit::Millisecond),
        2 => Ok(TimeUnit::Microsecond),
        3 => Ok(TimeUnit::Nanosecond),
        _ => Err(IpcReadError::TypeRange),
    }
}

/// Returns whether 32-bit times have this unit: seconds or milliseconds.
pub fn is_coarse(unit: TimeUnit) -> bool
    ensures { result ≡ spec_is_coarse unit }
{
    match unit {
        TimeUnit::Second | TimeUnit::Millisecond => true,
        TimeUnit::Microsecond | TimeUnit::Nanosecond => false,
    }
}

fn time_of<'a>(unit: TimeUnit, bits: usize) -> Result<Leaf<'a>, IpcReadError>
    ensures { Returns leaf_tree result (spec_time_of unit bits) }
{
    if bits == 32 && is_coarse(unit) {
        Ok(Leaf::Time32(unit))
    } else if bits == 64 && !is_coarse(unit) {
        Ok(Leaf::Time64(unit))
    } else {
        Err(IpcReadError::TypeRange)
    }
}

#[tactic(auto, unfolding(crate::specs::Types::spec_time_at))]
fn time_at(bytes: &[u8], position: usize, left: usize) -> Result<(Leaf<'_>, usize), IpcReadError>
    requires { length bytes.now < 2 ^ 32 }
    ensures { Returns (λ x. (leaf_tree x.0, x.1)) result (spec_time_at bytes.now position left) }
{
    let (table, left) = read_table(bytes, position, left)?;
    let unit = i16_field(bytes, table, 0, 1)?;
    let width = i32_field(bytes, table, 1, 32)?;
    let unit = unit_of(non_negative(IpcReadError::TypeRange, unit as i64)?)?;
    let bits = non_negative(IpcReadError::TypeRange, width as i64)?;
    let leaf = time_of(unit, bits)?;
    Ok((leaf, left))
}

// The time zone of a timestamp, `None` where it is absent.
#[tactic(auto, unfolding(crate::specs::Types::spec_zone_at))]
fn zone_at(
    bytes: &[u8],
    position: Option<usize>,
    left: usize,
) -> Result<(Option<&str>, usize), IpcReadError>
    requires { length bytes.now < 2 ^ 32 }
    ensures { Returns (λ x. (option_map (λ z. z.now) x.0, x.1)) result (spec_zone_at bytes.now position left) }
{
    match position {
        None => Ok((None, left)),
        Some(position) => {
            let (zone, left) = read_string(bytes, position, left)?;
            Ok((Some(zone), left))
        }
    }
}

#[tactic(auto, unfolding(crate::specs::Types::spec_timestamp_at))]
fn timestamp_at(
    bytes: &[u8],
    position: usize,
    left: usize,
) -> Result<(Leaf<'_>, usize), IpcReadError>
    requires { length bytes.now < 2 ^ 32 }
    ensures { Returns (λ x. (leaf_tree x.0, x.1)) result (spec_timestamp_at bytes.now position left) }
{
    let (table, left) = read_table(bytes, position, left)?;
    let unit = i16_field(bytes, table, 0, 0)?;
    let to = offset_field(bytes, table, 1)?;
    let (zone, left) = zone_at(bytes, to, left)?;
    let unit = unit_of(non_negative(IpcReadError::TypeRange, unit as i64)?)?;
    Ok((Leaf::Timestamp(unit, zone), left))
}

fn interval_of(number: usize) -> Result<IntervalUnit, IpcReadError>
    ensures { result ≡ spec_interval_of number }
{
    match number {
        0 => Ok(IntervalUnit::YearMonth),
        1 => Ok(IntervalUnit::DayTime),
        2 => Ok(IntervalUnit::MonthDayNano),
        _ => Err(IpcReadError::TypeRange),
    }
}

#[tactic(auto, unfolding(crate::specs::Types::spec_interval_at))]
fn interval_at(
    bytes: &[u8],
    position: usize,
    left: usize,
) -> Result<(Leaf<'_>, usize), IpcReadError>
    requires { length bytes.now < 2 ^ 32 }
    ensures { Returns (λ x. (leaf_tree x.0, x.1)) result (spec_interval_at bytes.now position left) }
{
    let (table, left) = read_table(bytes, position, left)?;
    let unit = i16_field(bytes, table, 0, 0)?;
    let unit = interval_of(non_negative(IpcReadError::TypeRange, unit as i64)?)?;
    Ok((Leaf::Interval(unit), left))
}

#[tactic(auto, unfolding(crate::specs::Types::spec_duration_at))]
fn duration_at(
    bytes: &[u8],
    position: usize,
    left: usize,
) -> Result<(Leaf<'_>, usize), IpcReadError>
    requires { length bytes.now < 2 ^ 32 }
    ensures { Returns (λ x. (leaf_tree x.0, x.1)) result (spec_duration_at bytes.now position left) }
{
    let (table, left) = read_table(bytes, position, left)?;
    let unit = i16_field(bytes, table, 0, 1)?;
    let unit = unit_of(non_negative(IpcReadError::TypeRange, unit as i64)?)?;
    Ok((Leaf::Duration(unit), left))
}

/// Returns a size, which must be positive.
///
/// # Errors
/// [`IpcReadError::TypeRange`] where it is 0.
pub fn size_of(number: usize) -> Result<usize, IpcReadError>
    ensures { result ≡ spec_size_of number }
{
    if number == 0 {
        Err(IpcReadError::TypeRange)
    } else {
        Ok(number)
    }
}

#[tactic(auto, unfolding(crate::specs::Types::spec_fixed_size_binary_at))]
fn fixed_size_binary_at(
    bytes: &[u8],
    position: usize,
    left: usize,
) -> Result<(Leaf<'_>, usize), IpcReadError>
    requires { length bytes.now < 2 ^ 32 }
    ensures { Returns (λ x. (leaf_tree x.0, x.1)) result (spec_fixed_size_binary_at bytes.now position left) }
{
    let (table, left) = read_table(bytes, position, left)?;
    let width = i32_field(bytes, table, 0, 0)?;
    let size = size_of(non_negative(IpcReadError::TypeRange, width as i64)?)?;
    Ok((Leaf::FixedSizeBinary(size), left))
}

/// Returns the type of the type table at a position, for a type without children, and the budget left.
///
/// # Errors
/// [`IpcReadError::TypeRange`] where a parameter is out of range, and those of flatbuffers.
pub fn type_at(
    tag: LeafTag,
    bytes: &[u8],
    position: usize,
    left: usize,
) -> Result<(Leaf<'_>, usize), IpcReadError>
    requires { length bytes.now < 2 ^ 32 }
    ensures { Returns (λ x. (leaf_tree x.0, x.1)) result (spec_type_at tag bytes.now position left) }
{
    match tag {
        LeafTag::Null => bare_at(Leaf::Null, bytes, position, left),
        LeafTag::Int => {
            let (integer, left) = integer_at(bytes, position, left)?;
            Ok((Leaf::Integer(integer), left))
        }
        LeafTag::FloatingPoint => float_at(bytes, position, left),
        LeafTag::Binary => bare_at(Leaf::Binary, bytes, position, left),
        LeafTag::Utf8 => bare_at(Leaf::Utf8, bytes, position, left),
        LeafTag::Bool => bare_at(Leaf::Boolean, bytes, position, left),
        LeafTag::Decimal => decimal_at(bytes, position, left),
        LeafTag::Date => date_at(bytes, position, left),
        LeafTag::Time => time_at(bytes, position, left),
        LeafTag::Timestamp => timestamp_at(bytes, position, left),
        LeafTag::Interval => interval_at(bytes, position, left),
        LeafTag::FixedSizeBinary => fixed_size_binary_at(bytes, position, left),
        LeafTag::Duration => duration_at(bytes, position, left),
        LeafTag::LargeBinary => bare_at(Leaf::LargeBinary, bytes, position, left),
        LeafTag::LargeUtf8 => bare_at(Leaf::LargeUtf8, bytes, position, left),
        LeafTag::BinaryView => bare_at(Leaf::BinaryView, bytes, position, left),
        LeafTag::Utf8View => bare_at(Leaf::Utf8View, bytes, position, left),
    }
}
