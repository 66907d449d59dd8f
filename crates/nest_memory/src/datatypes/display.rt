//! `Display` and `Debug` of data types and fields, in the format of pyarrow, without allocation.
ghost use Rattle.std.specs.Prelude.{◌≡◌, ◌++◌, codes, decimal, false, get_or, option_map, pos};
ghost use Rattle.std.specs.Fmt.{WritesOnOk, signed_decimal};
ghost use Rattle.nest_memory.specs.TypeOf.{field_list_of, field_of, text_of, type_of};
ghost use Rattle.nest_memory.specs.TypeTree as types;
ghost use Rattle.nest_memory.specs.TypeTree.{is_pair};
ghost use Rattle.nest_memory.specs.TypeText.{entries_end, id_at, integer_text, mode_text, nullable_text, order_text, precision_text, separator_text, sorted_text, text_of_entries, text_of_field, text_of_fields, text_of_pair, text_of_part, text_of_parts, text_of_picks, text_of_type, unit_text, unusual};

use crate::datatypes::floats::{Precision, precision_of};
use crate::datatypes::{DataType, Field, IntegerType, IntervalUnit, TimeUnit, UnionMode};
use std::fmt;
use std::fmt::Formatter;

impl fmt::Display for DataType {
    ghost use Rattle.std.specs.Prelude.{Some};

    ghost output = { λ t. Some (text_of_type (type_of t)) };

    fn fmt<W: fmt::Write>(&self, f: &mut fmt::Formatter<W>) -> fmt::Result {
        write_type(f, self)
    }
}

impl fmt::Debug for DataType {
    ghost use Rattle.std.specs.Prelude.{Some};

    ghost debug_output = { λ t. Some (text_of_type (type_of t)) };

    fn fmt<W: fmt::Write>(&self, f: &mut fmt::Formatter<W>) -> fmt::Result {
        write_type(f, self)
    }
}

impl fmt::Display for Field {
    ghost use Rattle.std.specs.Prelude.{Some};

    ghost output = { λ t. Some (text_of_field (field_of t)) };

    fn fmt<W: fmt::Write>(&self, f: &mut fmt::Formatter<W>) -> fmt::Result {
        write_field(f, self)
    }
}

impl fmt::Debug for Field {
    ghost use Rattle.std.specs.Prelude.{Some};

    ghost debug_output = { λ t. Some (text_of_field (field_of t)) };

    fn fmt<W: fmt::Write>(&self, f: &mut fmt::Formatter<W>) -> fmt::Result {
        write_field(f, self)
    }
}

fn unit(unit: TimeUnit) -> &'static str
    ensures { result.now ≡ unit_text unit }
{
    match unit {
        TimeUnit::Second => "s",
        TimeUnit::Millisecond => "ms",
        TimeUnit::Microsecond => "us",
        TimeUnit::Nanosecond => "ns",
    }
}

fn write_unit<W: fmt::Write>(f: &mut Formatter<W>, head: &str, u: TimeUnit) -> fmt::Result
    ensures { WritesOnOk W.write_str_gives f.old result (head.now ++ (unit_text u ++ codes "]")) f.new }
{
    f.write_str(head)?;
    f.write_str(unit(u))?;
    f.write_str("]")
}

fn write_size<W: fmt::Write>(f: &mut Formatter<W>, head: &str, n: usize) -> fmt::Result
    ensures { WritesOnOk W.write_str_gives f.old result (head.now ++ (decimal n ++ codes "]")) f.new }
{
    f.write_str(head)?;
    f.write(n)?;
    f.write_str("]")
}

fn write_decimal<W: fmt::Write>(
    f: &mut Formatter<W>,
    head: &str,
    digits: usize,
    after: usize,
) -> fmt::Result
    ensures { WritesOnOk W.write_str_gives f.old result (head.now ++ (decimal digits ++ (codes ", " ++ (decimal after ++ codes ")")))) f.new }
{
    f.write_str(head)?;
    f.write(digits)?;
    f.write_str(", ")?;
    f.write(after)?;
    f.write_str(")")
}

fn write_timestamp<W: fmt::Write>(
    f: &mut Formatter<W>,
    u: TimeUnit,
    zone: &Option<String>,
) -> fmt::Result
    ensures { WritesOnOk W.write_str_gives f.old result (text_of_type (types.timestamp u (text_of zone.now))) f.new }
{
    f.write_str("timestamp[")?;
    f.write_str(unit(u))?;
    match zone {
        None => f.write_str("]"),
        Some(zone) => {
            f.write_str(", tz=")?;
            f.write_str(zone)?;
            f.write_str("]")
        }
    }
}

fn interval(unit: IntervalUnit) -> &'static str
    ensures { result.now ≡ text_of_type (types.interval unit) }
{
    match unit {
        IntervalUnit::YearMonth => "month_interval",
        IntervalUnit::DayTime => "day_time_interval",
        IntervalUnit::MonthDayNano => "month_day_nano_interval",
    }
}

#[cycle(texts)]
fn write_type<W: fmt::Write>(f: &mut Formatter<W>, t: &DataType) -> fmt::Result
    ensures { WritesOnOk W.write_str_gives f.old result (text_of_type (type_of t.now)) f.new }
{
    match t {
        DataType::Null => f.write_str("null"),
        DataType::Boolean => f.write_str("bool"),
        DataType::Int8 => f.write_str("int8"),
        DataType::Int16 => f.write_str("int16"),
        DataType::Int32 => f.write_str("int32"),
        DataType::Int64 => f.write_str("int64"),
        DataType::UInt8 => f.write_str("uint8"),
        DataType::UInt16 => f.write_str("uint16"),
        DataType::UInt32 => f.write_str("uint32"),
        DataType::UInt64 => f.write_str("uint64"),
        DataType::Float16 => f.write_str("halffloat"),
        DataType::Float32 => f.write_str("float"),
        DataType::Float64 => f.write_str("double"),
        DataType::Timestamp(u, zone) => write_timestamp(f, *u, zone),
        DataType::Date32 => f.write_str("date32[day]"),
        DataType::Date64 => f.write_str("date64[ms]"),
        DataType::Time32(u) => write_unit(f, "time32[", *u),
        DataType::Time64(u) => write_unit(f, "time64[", *u),
        DataType::Duration(u) => write_unit(f, "duration[", *u),
        DataType::Interval(u) => f.write_str(interval(*u)),
        DataType::Binary => f.write_str("binary"),
        DataType::FixedSizeBinary(n) => write_size(f, "fixed_size_binary[", *n),
        DataType::LargeBinary => f.write_str("large_binary"),
        DataType::Utf8 => f.write_str("string"),
        DataType::LargeUtf8 => f.write_str("large_string"),
        DataType::List(field) => write_items(f, "list<", field),
        DataType::FixedSizeList(field, n) => {
            write_items(f, "fixed_size_list<", field)?;
            write_size(f, "[", *n)
        }
        DataType::LargeList(field) => write_items(f, "large_list<", field),
        DataType::Struct(fields) => write_fields(f, "struct<", fields),
        DataType::Union(fields, ids, mode) => write_union(f, union_head(*mode), fields, ids),
        DataType::Map(entries, sorted) => write_map(f, entries, *sorted),
        DataType::Dictionary(key, values, ordered) => {
            f.write_str("dictionary<values=")?;
            write_type(f, values)?;
            f.write_str(", indices=")?;
            f.write_str(integer(*key))?;
            f.write_str(order(*ordered))
        }
        DataType::Decimal(digits, after) => write_decimal(f, "decimal128(", *digits, *after),
        DataType::Decimal256(digits, after) => write_decimal(f, "decimal256(", *digits, *after),
        DataType::Extension(name, inner, _) => match precision_of(t) {
            Some(precision) => f.write_str(precision_name(precision)),
            None => {
                f.write_str("extension<")?;
                f.write_str(name)?;
                f.write_str(", ")?;
                write_type(f, inner)?;
                f.write_str(">")
            }
        },
    }
}

/// Returns the name of a floating-point type.
fn precision_name(precision: Precision) -> &'static str
    ensures { result.now ≡ precision_text precision }
{
    match precision {
        Precision::Half => "halffloat",
        Precision::Single => "float",
        Precision::Double => "double",
    }
}

fn union_head(mode: UnionMode) -> &'static str
    ensures { result.now ≡ mode_text mode }
{
    match mode {
        UnionMode::Dense => "dense_union<",
        UnionMode::Sparse => "sparse_union<",
    }
}

fn order(ordered: bool) -> &'static str
    ensures { result.now ≡ order_text ordered }
{
    if ordered {
        ", ordered=1>"
    } else {
        ", ordered=0>"
    }
}

fn integer(key: IntegerType) -> &'static str
    ensures { result.now ≡ integer_text key }
{
    match key {
        IntegerType::Int8 => "int8",
        IntegerType::Int16 => "int16",
        IntegerType::Int32 => "int32",
        IntegerType::Int64 => "int64",
        IntegerType::UInt8 => "uint8",
        IntegerType::UInt16 => "uint16",
        IntegerType::UInt32 => "uint32",
        IntegerType::UInt64 => "uint64",
    }
}

#[cycle(texts)]
fn write_items<W: fmt::Write>(f: &mut Formatter<W>, head: &str, field: &Field) -> fmt::Result
    ensures { WritesOnOk W.write_str_gives f.old result (head.now ++ (text_of_field (field_of field.now) ++ codes ">")) f.new }
{
    f.write_str(head)?;
    write_field(f, field)?;
    f.write_str(">")
}

/// Writes a map type: its key and value, or the type of its entries if that is not a struct of two fields.
#[cycle(texts)]
fn write_map<W: fmt::Write>(f: &mut Formatter<W>, entries: &Field, sorted: bool) -> fmt::Result
    ensures { WritesOnOk W.write_str_gives f.old result (codes "map<" ++ text_of_entries sorted (field_of entries.now)) f.new }
{
    f.write_str("map<")?;
    if is_pair(&entries.data_type) {
        write_pair(f, &entries.data_type)?;
    } else {
        write_type(f, &entries.data_type)?;
    }
    write_entries_end(f, &entries.name, sorted)
}

fn is_pair(t: &DataType) -> bool
    ensures { result ≡ is_pair (type_of t.now) }
{
    match t {
        DataType::Struct(fields) => fields.len() == 2,
        _ => false,
    }
}

/// Writes the two fields of a struct, or nothing for any other type.
#[cycle(texts)]
fn write_pair<W: fmt::Write>(f: &mut Formatter<W>, t: &DataType) -> fmt::Result
    ensures { WritesOnOk W.write_str_gives f.old result (text_of_pair (type_of t.now)) f.new }
{
    match t {
        DataType::Struct(fields) => write_parts(f, fields),
        _ => Ok(()),
    }
}

#[cycle(texts)]
fn write_parts<W: fmt::Write>(f: &mut Formatter<W>, fields: &[Field]) -> fmt::Result
    ensures { WritesOnOk W.write_str_gives f.old result (text_of_parts (field_list_of fields.now)) f.new }
{
    if fields.len() != 2 {
        return Ok(());
    }
    write_part(f, "key", &fields[0])?;
    f.write_str(", ")?;
    write_part(f, "value", &fields[1])
}

/// Writes the type of a map's key or value, and its name if that is not the usual one.
#[cycle(texts)]
fn write_part<W: fmt::Write>(f: &mut Formatter<W>, usual: &str, field: &Field) -> fmt::Result
    ensures { WritesOnOk W.write_str_gives f.old result (text_of_part usual.now (field_of field.now)) f.new }
{
    write_type(f, &field.data_type)?;
    write_unusual(f, usual, &field.name)
}

fn write_entries_end<W: fmt::Write>(f: &mut Formatter<W>, name: &str, sorted: bool) -> fmt::Result
    ensures { WritesOnOk W.write_str_gives f.old result (entries_end sorted name.now) f.new }
{
    f.write_str(sorted_mark(sorted))?;
    write_unusual(f, "entries", name)?;
    f.write_str(">")
}

fn sorted_mark(sorted: bool) -> &'static str
    ensures { result.now ≡ sorted_text sorted }
{
    if sorted { ", keys_sorted" } else { "" }
}

fn write_unusual<W: fmt::Write>(f: &mut Formatter<W>, usual: &str, name: &str) -> fmt::Result
    ensures { WritesOnOk W.write_str_gives f.old result (unusual usual.now name.now) f.new }
{
    if usual == name {
        return Ok(());
    }
    f.write_str(" ('")?;
    f.write_str(name)?;
    f.write_str("')")
}

/// Writes a field: its name, its type, and `not null` if it is not nullable.
#[cycle(texts)]
fn write_field<W: fmt::Write>(f: &mut Formatter<W>, field: &Field) -> fmt::Result
    ensures { WritesOnOk W.write_str_gives f.old result (text_of_field (field_of field.now)) f.new }
{
    f.write_str(&field.name)?;
    f.write_str(": ")?;
    write_type(f, &field.data_type)?;
    f.write_str(nullable(field.is_nullable))
}

fn nullable(is_nullable: bool) -> &'static str
    ensures { result.now ≡ nullable_text is_nullable }
{
    if is_nullable { "" } else { " not null" }
}

fn separator(after: bool) -> &'static str
    ensures { result.now ≡ separator_text after }
{
    if after { ", " } else { "" }
}

#[cycle(texts)]
fn write_fields<W: fmt::Write>(f: &mut Formatter<W>, head: &str, fields: &[Field]) -> fmt::Result
    ensures { WritesOnOk W.write_str_gives f.old result (head.now ++ (text_of_fields false (field_list_of fields.now) ++ codes ">")) f.new }
{
    f.write_str(head)?;
    let mut after = false;
    for field in fields {
        f.write_str(separator(after))?;
        write_field(f, field)?;
        after = true;
    }
    f.write_str(">")
}

/// Writes the fields of a union, each with its type id.
#[cycle(texts)]
fn write_union<W: fmt::Write>(
    f: &mut Formatter<W>,
    head: &str,
    fields: &[Field],
    ids: &Option<Vec<i32>>,
) -> fmt::Result
    ensures { WritesOnOk W.write_str_gives f.old result (head.now ++ (text_of_picks (option_map (λ v. v.items) ids.now) 0 (field_list_of fields.now) ++ codes ">")) f.new }
{
    f.write_str(head)?;
    for k in 0..fields.len() {
        f.write_str(separator(k > 0))?;
        write_field(f, &fields[k])?;
        f.write_str("=")?;
        write_id(f, ids, k)?;
    }
    f.write_str(">")
}

/// Writes the type id of field `k`, which is `k` if there are no ids.
fn write_id<W: fmt::Write>(f: &mut Formatter<W>, ids: &Option<Vec<i32>>, k: usize) -> fmt::Result
    ensures { WritesOnOk W.write_str_gives f.old result (signed_decimal (id_at (option_map (λ v. v.items) ids.now) k)) f.new }
{
    match ids {
        None => f.write(k),
        Some(ids) => f.write(id_of(ids, k)),
    }
}

fn id_of(ids: &[i32], k: usize) -> i32
    ensures { result ≡ get_or ids.now k (pos 0) }
{
    if k < ids.len() { ids[k] } else { 0 }
}
