//! Slots of arrays without child arrays.
ghost use Rattle.std.specs.Prelude.{◌≡◌, ◌+◌, ◌≤◌, ◌<◌, [], ◌∷◌, false, map, true};
ghost use Rattle.std.specs.Fmt.{WritesOnOk};
ghost use Rattle.nest_flat.specs.AnyNative.{native_numbers};
ghost use Rattle.nest_flat.specs.AnyPrimitive.{primitive_kind, primitive_layout};
ghost use Rattle.nest_model.specs.Accessors.{natives_of};
ghost use Rattle.nest_model.specs.Layout.{layout_type};
ghost use Rattle.nest_model.specs.Meaning.{len, slot};
ghost use Rattle.json_write.specs.Formats.{format_of_type, has_format};
ghost use Rattle.json_write.specs.JsonText.{json_of_native, json_of_number, slot_json, slots_json};

use crate::format::ValueFormat;
use crate::native::write_native;
use crate::quoting::{write_bytes, write_comma, write_quoted};
use itoa::{Buffer, Integer};
use nest_array::FixedSizeBinaryArray;
use nest_flat::any_native::AnyNative;
use nest_flat::any_primitive::{AnyPrimitive, Native};
use nest_flat::binary::BinaryArray;
use nest_flat::boolean::BooleanArray;
use nest_flat::primitive::PrimitiveArray;
use nest_flat::utf8::Utf8Array;
use nest_memory::offset::Offset;
use std::fmt;
use std::fmt::Formatter;

pub(crate) fn write_boolean<W: fmt::Write>(
    f: &mut Formatter<W>,
    array: &BooleanArray,
    i: usize,
) -> fmt::Result
    requires { i < len array.now }
    ensures { WritesOnOk W.write_str_gives f.old result (slot_json array.now i) f.new }
{
    match array.get(i) {
        None => f.write_str("null"),
        Some(true) => f.write_str("true"),
        Some(false) => f.write_str("false"),
    }
}

pub(crate) fn write_primitive<W: fmt::Write, T: Native>(
    f: &mut Formatter<W>,
    array: &PrimitiveArray<T>,
    i: usize,
) -> fmt::Result
    requires { i < len array.now }
    ensures { WritesOnOk W.write_str_gives f.old result (slot_json array.now i) f.new }
{
    let format = ValueFormat::of_type(array.data_type());
    write_value(f, array, array.values().as_slice(), format, i)
}

/// Writes slot `i` of an array with these raw values in this format.
#[inline(always)]
fn write_value<W: fmt::Write, T: Native>(
    f: &mut Formatter<W>,
    array: &PrimitiveArray<T>,
    values: &[T],
    format: ValueFormat,
    i: usize,
) -> fmt::Result
    requires within { i < len array.now }
    requires raw { map T.numbers values.now ≡ natives_of array.now }
    requires format { format ≡ format_of_type (layout_type array.now) }
    ensures { WritesOnOk W.write_str_gives f.old result (slot_json array.now i) f.new }
{
    array.known();
    if array.is_null(i) {
        return f.write_str("null");
    }
    write_native(f, format, values[i].to_any())
}

/// Writes `count` slots from index `start`, separated by commas.
pub(crate) fn write_primitive_items<W: fmt::Write, T: Native>(
    f: &mut Formatter<W>,
    array: &PrimitiveArray<T>,
    start: usize,
    count: usize,
) -> fmt::Result
    requires { start + count ≤ len array.now }
    ensures { WritesOnOk W.write_str_gives f.old result (slots_json array.now start count) f.new }
{
    let format = ValueFormat::of_type(array.data_type());
    write_value_items(f, array, array.values().as_slice(), format, start, count)
}

// Takes the slice of values, so that the loop does not load it again after each call of the generic writer.
fn write_value_items<W: fmt::Write, T: Native>(
    f: &mut Formatter<W>,
    array: &PrimitiveArray<T>,
    values: &[T],
    format: ValueFormat,
    start: usize,
    count: usize,
) -> fmt::Result
    requires within { start + count ≤ len array.now }
    requires raw { map T.numbers values.now ≡ natives_of array.now }
    requires format { format ≡ format_of_type (layout_type array.now) }
    ensures { WritesOnOk W.write_str_gives f.old result (slots_json array.now start count) f.new }
{
    let _end = array.len();
    for k in 0..count {
        write_comma(f, k > 0)?;
        write_value(f, array, values, format, start + k)?;
    }
    Ok(())
}

pub(crate) fn write_any_primitive<W: fmt::Write>(
    f: &mut Formatter<W>,
    array: &AnyPrimitive,
    i: usize,
) -> fmt::Result
    requires { i < len (primitive_layout array.now) }
    ensures { WritesOnOk W.write_str_gives f.old result (slot_json (primitive_layout array.now) i) f.new }
{
    array.known();
    write_any_primitive_as(f, array, ValueFormat::of_type(array.data_type()), i)
}

/// Writes slot `i` in a format, which may be that of a dictionary with these values.
pub(crate) fn write_any_primitive_as<W: fmt::Write>(
    f: &mut Formatter<W>,
    array: &AnyPrimitive,
    format: ValueFormat,
    i: usize,
) -> fmt::Result
    requires within { i < len (primitive_layout array.now) }
    requires format { has_format (primitive_kind array.now) format ≡ true }
    ensures { WritesOnOk W.write_str_gives f.old result (json_of_native format (slot (primitive_layout array.now) i)) f.new }
{
    array.known();
    if array.is_null(i) {
        return f.write_str("null");
    }
    write_native(f, format, array.value(i))
}

/// Writes `count` slots from index `start`, separated by commas. The primitive type is matched once.
pub(crate) fn write_any_primitive_items<W: fmt::Write>(
    f: &mut Formatter<W>,
    array: &AnyPrimitive,
    start: usize,
    count: usize,
) -> fmt::Result
    requires { start + count ≤ len (primitive_layout array.now) }
    ensures { WritesOnOk W.write_str_gives f.old result (slots_json (primitive_layout array.now) start count) f.new }
{
    match array {
        AnyPrimitive::Int8(array) => write_primitive_items(f, array, start, count),
        AnyPrimitive::Int16(array) => write_primitive_items(f, array, start, count),
        AnyPrimitive::Int32(array) => write_primitive_items(f, array, start, count),
        AnyPrimitive::Int64(array) => write_primitive_items(f, array, start, count),
        AnyPrimitive::Int128(array) => write_primitive_items(f, array, start, count),
        AnyPrimitive::Int256(array) => write_primitive_items(f, array, start, count),
        AnyPrimitive::UInt8(array) => write_primitive_items(f, array, start, count),
        AnyPrimitive::UInt16(array) => write_primitive_items(f, array, start, count),
        AnyPrimitive::UInt32(array) => write_primitive_items(f, array, start, count),
        AnyPrimitive::UInt64(array) => write_primitive_items(f, array, start, count),
        AnyPrimitive::DaysMs(array) => write_primitive_items(f, array, start, count),
        AnyPrimitive::MonthDayNano(array) => write_primitive_items(f, array, start, count),
    }
}

// Inlined, so that the match is hoisted out of loops over values of one type.
#[inline(always)]
pub(crate) fn write_number<W: fmt::Write>(f: &mut Formatter<W>, value: AnyNative) -> fmt::Result
    ensures { WritesOnOk W.write_str_gives f.old result (json_of_number (native_numbers value)) f.new }
{
    match value {
        AnyNative::Int8(n) => write_integer(f, n),
        AnyNative::Int16(n) => write_integer(f, n),
        AnyNative::Int32(n) => write_integer(f, n),
        AnyNative::Int64(n) => write_integer(f, n),
        AnyNative::Int128(n) => write_integer(f, n),
        AnyNative::Int256(n) => {
            let (high, low) = (n.high, n.low);
            write!(f, "[{high},{low}]")
        }
        AnyNative::UInt8(n) => write_integer(f, n),
        AnyNative::UInt16(n) => write_integer(f, n),
        AnyNative::UInt32(n) => write_integer(f, n),
        AnyNative::UInt64(n) => write_integer(f, n),
        AnyNative::DaysMs(n) => {
            let (days, milliseconds) = (n.days, n.milliseconds);
            write!(f, "[{days},{milliseconds}]")
        }
        AnyNative::MonthDayNano(n) => {
            let (months, days, ns) = (n.months, n.days, n.ns);
            write_month_day_nano(f, months, days, ns)
        }
    }
}

/// Writes the decimal digits of an integer.
#[inline(always)]
fn write_integer<W: fmt::Write, I: Integer>(f: &mut Formatter<W>, n: I) -> fmt::Result
    ensures { WritesOnOk W.write_str_gives f.old result (I.text n) f.new }
{
    let mut buffer = Buffer::new();
    f.write_str(buffer.format(n))
}

/// Writes the months, days and nanoseconds of an interval as a list.
fn write_month_day_nano<W: fmt::Write>(
    f: &mut Formatter<W>,
    months: i32,
    days: i32,
    ns: i64,
) -> fmt::Result
    ensures { WritesOnOk W.write_str_gives f.old result (json_of_number (months ∷ days ∷ ns ∷ [])) f.new }
{
    write!(f, "[{months},{days}")?;
    write!(f, ",{ns}]")
}

pub(crate) fn write_string<W: fmt::Write, O: Offset>(
    f: &mut Formatter<W>,
    array: &Utf8Array<O>,
    i: usize,
) -> fmt::Result
    requires { i < len array.now }
    ensures { WritesOnOk W.write_str_gives f.old result (slot_json array.now i) f.new }
{
    match array.get(i) {
        None => f.write_str("null"),
        Some(text) => write_quoted(f, text),
    }
}

pub(crate) fn write_binary<W: fmt::Write, O: Offset>(
    f: &mut Formatter<W>,
    array: &BinaryArray<O>,
    i: usize,
) -> fmt::Result
    requires { i < len array.now }
    ensures { WritesOnOk W.write_str_gives f.old result (slot_json array.now i) f.new }
{
    match array.get(i) {
        None => f.write_str("null"),
        Some(bytes) => write_bytes(f, bytes),
    }
}

pub(crate) fn write_fixed_size_binary<W: fmt::Write>(
    f: &mut Formatter<W>,
    array: &FixedSizeBinaryArray,
    i: usize,
) -> fmt::Result
    requires { i < len array.now }
    ensures { WritesOnOk W.write_str_gives f.old result (slot_json array.now i) f.new }
{
    match array.get(i) {
        None => f.write_str("null"),
        Some(bytes) => write_bytes(f, bytes),
    }
}
