//! Writers of the tables of types.
ghost use Rattle.std.specs.Prelude.{◌≡◌, ◌<◌, ◌^◌, ◌++◌, length, map, option_map, OnOk, IfErr, Ok};
ghost use Rattle.std.specs.List.{flat_map};
ghost use Rattle.nest_memory.specs.TypeOf.{type_of, text_of, field_of};
ghost use Rattle.ipc_flatbuf.specs.PartBytes.{i32_bytes};
ghost use Rattle.ipc_flatbuf.specs.WriteErrors.{IsSizeError};
ghost use Rattle.ipc_schema.specs.Extensions.{spec_storage_type, spec_table_type, spec_is_extension};
ghost use Rattle.ipc_schema.specs.Types.{spec_children_of};
ghost use Rattle.ipc_schema.specs.WriteChecks.{spec_require, spec_check_number, spec_check_size, spec_check_decimal, spec_check_type};
ghost use Rattle.ipc_schema.specs.SchemaBytes.{float_bytes, no_field, one_field, two_fields, three_fields, spec_unit_number, spec_interval_number, spec_mode_number, ids_bytes, union_bytes, timestamp_bytes, type_bytes, spec_type_number};
ghost use Rattle.ipc_schema.specs.TypeLaws.{IsZone, TypeFits, AreFew};

use crate::floats::precision_number;
use crate::nested::are_union_ids;
use crate::type_shapes::is_pair;
use crate::types::{MOST_DIGITS, MOST_DIGITS_256, is_coarse, is_precision};
use ipc_flatbuf::{IpcWriteError, write_i32, write_string, write_u32, write_zeros};
use nest_memory::datatypes::floats::{Precision, is_float, precision_of};
use nest_memory::datatypes::{DataType, Field, IntervalUnit, TimeUnit, UnionMode};
use std::alloc::AllocError;
use std::slice;

fn check_number(number: usize) -> Result<(), IpcWriteError>
    ensures { result ≡ spec_check_number number }
{
    if number < 1 << 31 {
        Ok(())
    } else {
        Err(IpcWriteError::Size)
    }
}

fn check_size(size: usize) -> Result<(), IpcWriteError>
    ensures { result ≡ spec_check_size size }
{
    if size == 0 {
        Err(IpcWriteError::Type)
    } else {
        check_number(size)
    }
}

fn check_decimal(most: usize, digits: usize, after: usize) -> Result<(), IpcWriteError>
    ensures { result ≡ spec_check_decimal most digits after }
{
    if is_precision(most, digits) {
        check_number(after)
    } else {
        Err(IpcWriteError::Type)
    }
}

// The error where a condition is false.
fn require(passes: bool, why: IpcWriteError) -> Result<(), IpcWriteError>
    ensures { result ≡ spec_require passes why }
{
    if passes { Ok(()) } else { Err(why) }
}

/// Returns the storage type of an extension type, and any other type itself; floating-point types are not extension types.
pub fn storage_type(data_type: &DataType) -> &DataType
    ensures { type_of result.now ≡ spec_storage_type (type_of data_type.now) }
{
    match data_type {
        DataType::Extension(_, inner, _) if !is_float(data_type) => inner,
        _ => data_type,
    }
}

/// Returns the type that the type table of a field has: the value type of a dictionary, without extension types.
pub fn table_type(data_type: &DataType) -> &DataType
    ensures { type_of result.now ≡ spec_table_type (type_of data_type.now) }
{
    match storage_type(data_type) {
        DataType::Dictionary(_, values, _) => values,
        other => other,
    }
}

/// Returns whether a type is an extension type and not a floating-point type.
pub fn is_extension(data_type: &DataType) -> bool
    ensures { result ≡ spec_is_extension (type_of data_type.now) }
{
    match data_type {
        DataType::Extension(_, _, _) => !is_float(data_type),
        _ => false,
    }
}

/// Returns the child fields of a type.
pub fn children_of(data_type: &DataType) -> &[Field]
    ensures { map field_of result.now ≡ spec_children_of (type_of data_type.now) }
{
    match data_type {
        DataType::List(field)
        | DataType::LargeList(field)
        | DataType::FixedSizeList(field, _)
        | DataType::Map(field, _) => slice::from_ref(field),
        DataType::Struct(fields) => fields,
        DataType::Union(fields, _, _) => fields,
        _ => &[],
    }
}

/// Checks that a type can be written, without its children.
///
/// # Errors
/// [`IpcWriteError::Type`], [`IpcWriteError::Float`], [`IpcWriteError::Unit`] or [`IpcWriteError::Size`].
pub fn check_type(data_type: &DataType) -> Result<(), IpcWriteError>
    ensures { result ≡ spec_check_type (type_of data_type.now) }
{
    match data_type {
        DataType::Null
        | DataType::Boolean
        | DataType::Int8
        | DataType::Int16
        | DataType::Int32
        | DataType::Int64
        | DataType::UInt8
        | DataType::UInt16
        | DataType::UInt32
        | DataType::UInt64
        | DataType::Timestamp(_, _)
        | DataType::Date32
        | DataType::Date64
        | DataType::Duration(_)
        | DataType::Interval(_)
        | DataType::Binary
        | DataType::LargeBinary
        | DataType::Utf8
        | DataType::LargeUtf8
        | DataType::List(_)
        | DataType::LargeList(_) => Ok(()),
        DataType::Float16 | DataType::Float32 | DataType::Float64 => Err(IpcWriteError::Float),
        DataType::Time32(unit) => require(is_coarse(*unit), IpcWriteError::Unit),
        DataType::Time64(unit) => require(!is_coarse(*unit), IpcWriteError::Unit),
        DataType::FixedSizeBinary(size) | DataType::FixedSizeList(_, size) => check_size(*size),
        DataType::Struct(fields) => require(fields.len() != 0, IpcWriteError::Type),
        DataType::Union(fields, ids, _) => require(
            are_union_ids(ids, fields.len()),
            IpcWriteError::Type,
        ),
        DataType::Map(field, _) => require(is_pair(&field.data_type), IpcWriteError::Type),
        DataType::Decimal(digits, after) => check_decimal(MOST_DIGITS, *digits, *after),
        DataType::Decimal256(digits, after) => check_decimal(MOST_DIGITS_256, *digits, *after),
        DataType::Dictionary(_, _, _) => Err(IpcWriteError::Type),
        DataType::Extension(_, _, _) => require(is_float(data_type), IpcWriteError::Type),
    }
}

/// Returns the tag of a type (Schema.fbs, union `Type`).
#[tactic(auto, unfolding(crate::specs::SchemaBytes::spec_type_number))]
pub fn type_number(data_type: &DataType) -> u8
    ensures { result ≡ spec_type_number (type_of data_type.now) }
{
    match data_type {
        DataType::Null => 1,
        DataType::Int8
        | DataType::Int16
        | DataType::Int32
        | DataType::Int64
        | DataType::UInt8
        | DataType::UInt16
        | DataType::UInt32
        | DataType::UInt64 => 2,
        DataType::Binary => 4,
        DataType::Utf8 => 5,
        DataType::Boolean => 6,
        DataType::Decimal(_, _) | DataType::Decimal256(_, _) => 7,
        DataType::Date32 | DataType::Date64 => 8,
        DataType::Time32(_) | DataType::Time64(_) => 9,
        DataType::Timestamp(_, _) => 10,
        DataType::Interval(_) => 11,
        DataType::List(_) => 12,
        DataType::Struct(_) => 13,
        DataType::Union(_, _, _) => 14,
        DataType::FixedSizeBinary(_) => 15,
        DataType::FixedSizeList(_, _) => 16,
        DataType::Map(_, _) => 17,
        DataType::Duration(_) => 18,
        DataType::LargeBinary => 19,
        DataType::LargeUtf8 => 20,
        DataType::LargeList(_) => 21,
        DataType::Extension(_, _, _) => { if is_float(data_type) { 3 } else { 0 } }
        DataType::Float16 | DataType::Float32 | DataType::Float64 | DataType::Dictionary(_, _, _) =>
            0,
    }
}

#[tactic(auto, unfolding(crate::specs::SchemaBytes::no_field))]
fn write_no_field(out: &mut Vec<u8>) -> Result<(), AllocError>
    ensures { OnOk result (out.new.items ≡ out.old.items ++ no_field) }
{
    out.extend_from_slice(&[4, 0, 4, 0, 0, 0, 0, 0, 0, 0, 0, 0, 12, 0, 0, 0])
}

#[tactic(auto, unfolding(crate::specs::SchemaBytes::one_field))]
fn write_one_field(out: &mut Vec<u8>, a: u32) -> Result<(), AllocError>
    ensures { OnOk result (out.new.items ≡ out.old.items ++ one_field a) }
{
    out.extend_from_slice(&[6, 0, 8, 0, 4, 0, 0, 0, 0, 0, 0, 0, 12, 0, 0, 0])?;
    write_u32(out, a)?;
    out.extend_from_slice(&[0, 0, 0, 0])
}

/// Appends a table with numbers in its first two fields.
#[tactic(auto, unfolding(crate::specs::SchemaBytes::two_fields))]
pub fn write_two_fields(out: &mut Vec<u8>, a: u32, b: u32) -> Result<(), AllocError>
    ensures { OnOk result (out.new.items ≡ out.old.items ++ two_fields a b) }
{
    out.extend_from_slice(&[8, 0, 12, 0, 4, 0, 8, 0, 0, 0, 0, 0, 12, 0, 0, 0])?;
    write_u32(out, a)?;
    write_u32(out, b)
}

#[tactic(auto, unfolding(crate::specs::SchemaBytes::three_fields))]
fn write_three_fields(out: &mut Vec<u8>, a: u32, b: u32, c: u32) -> Result<(), AllocError>
    ensures { OnOk result (out.new.items ≡ out.old.items ++ three_fields a b c) }
{
    out.extend_from_slice(&[10, 0, 16, 0, 4, 0, 8, 0, 12, 0, 0, 0, 12, 0, 0, 0])?;
    write_u32(out, a)?;
    write_u32(out, b)?;
    write_u32(out, c)?;
    out.extend_from_slice(&[0, 0, 0, 0])
}

fn unit_number(unit: TimeUnit) -> u32
    ensures { result ≡ spec_unit_number unit }
{
    match unit {
        TimeUnit::Second => 0,
        TimeUnit::Millisecond => 1,
        TimeUnit::Microsecond => 2,
        TimeUnit::Nanosecond => 3,
    }
}

fn interval_number(unit: IntervalUnit) -> u32
    ensures { result ≡ spec_interval_number unit }
{
    match unit {
        IntervalUnit::YearMonth => 0,
        IntervalUnit::DayTime => 1,
        IntervalUnit::MonthDayNano => 2,
    }
}

#[tactic(auto, unfolding(crate::specs::SchemaBytes::timestamp_bytes))]
fn write_timestamp(
    out: &mut Vec<u8>,
    unit: TimeUnit,
    zone: &Option<String>,
) -> Result<(), IpcWriteError>
    ensures ok { OnOk result (out.new.items ≡ out.old.items ++ timestamp_bytes unit (text_of zone.now)) }
    ensures fits { OnOk result (IsZone (text_of zone.now)) }
    ensures size { IfErr result (λ why. IsSizeError why (length (timestamp_bytes unit (text_of zone.now)))) }
{
    match zone {
        None => {
            write_one_field(out, unit_number(unit))?;
            Ok(())
        }
        Some(zone) => {
            write_two_fields(out, unit_number(unit), 4)?;
            write_string(out, zone.as_str())?;
            Ok(())
        }
    }
}

#[tactic(auto, unfolding(crate::specs::SchemaBytes::float_bytes))]
fn write_float(out: &mut Vec<u8>, precision: Option<Precision>) -> Result<(), AllocError>
    ensures { OnOk result (out.new.items ≡ out.old.items ++ float_bytes precision) }
{
    match precision {
        None => Ok(()),
        Some(precision) => write_one_field(out, precision_number(precision)),
    }
}

fn mode_number(mode: UnionMode) -> u32
    ensures { result ≡ spec_mode_number mode }
{
    match mode {
        UnionMode::Sparse => 0,
        UnionMode::Dense => 1,
    }
}

fn write_each_id(out: &mut Vec<u8>, ids: &[i32]) -> Result<(), AllocError>
    ensures { OnOk result (out.new.items ≡ out.old.items ++ flat_map i32_bytes ids.now) }
{
    for id in ids {
        write_i32(out, *id)?;
    }
    Ok(())
}

// Appends a vector of type ids.
#[tactic(auto, unfolding(crate::specs::SchemaBytes::ids_bytes, ipc_flatbuf::specs::PartBytes::vector_bytes))]
fn write_ids(out: &mut Vec<u8>, ids: &[i32]) -> Result<(), AllocError>
    requires { length ids.now < 128 }
    ensures { OnOk result (out.new.items ≡ out.old.items ++ ids_bytes ids.now) }
{
    let count = ids.len();
    write_u32(out, count as u32)?;
    write_each_id(out, ids)?;
    write_zeros(out, 8 * (count / 2 + 1) - (4 + 4 * count))
}

#[tactic(auto, unfolding(crate::specs::SchemaBytes::union_bytes))]
fn write_union(out: &mut Vec<u8>, ids: &Option<Vec<i32>>, mode: UnionMode) -> Result<(), AllocError>
    requires { AreFew (option_map (λ v. v.items) ids.now) }
    ensures { OnOk result (out.new.items ≡ out.old.items ++ union_bytes (option_map (λ v. v.items) ids.now) mode) }
{
    match ids {
        None => write_one_field(out, mode_number(mode)),
        Some(ids) => {
            write_two_fields(out, mode_number(mode), 4)?;
            write_ids(out, ids)
        }
    }
}

/// Appends the table of a type that can be written.
///
/// # Errors
/// [`IpcWriteError::Size`] where the table has 2^31 bytes or more.
#[tactic(auto, unfolding(crate::specs::SchemaBytes::type_bytes))]
pub fn write_type(out: &mut Vec<u8>, data_type: &DataType) -> Result<(), IpcWriteError>
    requires { spec_check_type (type_of data_type.now) ≡ Ok tt }
    ensures ok { OnOk result (out.new.items ≡ out.old.items ++ type_bytes (type_of data_type.now)) }
    ensures fits { OnOk result (TypeFits (type_of data_type.now)) }
    ensures size { IfErr result (λ why. IsSizeError why (length (type_bytes (type_of data_type.now)))) }
{
    match data_type {
        DataType::Null
        | DataType::Boolean
        | DataType::Binary
        | DataType::LargeBinary
        | DataType::Utf8
        | DataType::LargeUtf8
        | DataType::List(_)
        | DataType::LargeList(_)
        | DataType::Struct(_) => write_no_field(out)?,
        DataType::Int8 => write_two_fields(out, 8, 1)?,
        DataType::Int16 => write_two_fields(out, 16, 1)?,
        DataType::Int32 => write_two_fields(out, 32, 1)?,
        DataType::Int64 => write_two_fields(out, 64, 1)?,
        DataType::UInt8 => write_two_fields(out, 8, 0)?,
        DataType::UInt16 => write_two_fields(out, 16, 0)?,
        DataType::UInt32 => write_two_fields(out, 32, 0)?,
        DataType::UInt64 => write_two_fields(out, 64, 0)?,
        DataType::Timestamp(unit, zone) => write_timestamp(out, *unit, zone)?,
        DataType::Date32 => write_one_field(out, 0)?,
        DataType::Date64 => write_one_field(out, 1)?,
        DataType::Time32(unit) => write_two_fields(out, unit_number(*unit), 32)?,
        DataType::Time64(unit) => write_two_fields(out, unit_number(*unit), 64)?,
        DataType::Duration(unit) => write_one_field(out, unit_number(*unit))?,
        DataType::Interval(unit) => write_one_field(out, interval_number(*unit))?,
        DataType::FixedSizeBinary(size) | DataType::FixedSizeList(_, size) => {
            write_one_field(out, *size as u32)?
        }
        DataType::Map(_, sorted) => write_one_field(out, *sorted as u32)?,
        DataType::Union(_, ids, mode) => write_union(out, ids, *mode)?,
        DataType::Decimal(digits, after) => write_two_fields(out, *digits as u32, *after as u32)?,
        DataType::Decimal256(digits, after) => {
            write_three_fields(out, *digits as u32, *after as u32, 256)?
        }
        DataType::Extension(_, _, _) => write_float(out, precision_of(data_type))?,
        DataType::Float16 | DataType::Float32 | DataType::Float64 | DataType::Dictionary(_, _, _) =>
            {}
    }
    Ok(())
}
