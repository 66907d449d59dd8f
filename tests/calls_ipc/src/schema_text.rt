//! Schemas as the text that is beside the samples.
use ipc_flatbuf::IpcReadError;
use ipc_schema::{Schema, read_schema};
use nest_memory::datatypes::{
    DataType, Field, IntegerType, IntervalUnit, Metadata, TimeUnit, UnionMode,
};
use std::alloc::Global;

/// A point, and letters, of which some are written by their numbers.
pub fn put_letters(text: &mut String, letters: &str) -> Result<(), IpcReadError> {
    text.push_str(" .")?;
    for byte in letters.as_bytes() {
        if *byte <= 32 || *byte == b'%' || *byte >= 127 {
            write!(text, "%{byte:02x}")?;
        } else {
            text.push(*byte as char)?;
        }
    }
    Ok(())
}

/// How many pairs there are, and each of them.
pub fn write_metadata(text: &mut String, metadata: &Metadata) -> Result<(), IpcReadError> {
    write!(text, " {}", metadata.len())?;
    for (key, value) in metadata.iter() {
        put_letters(text, key.as_str())?;
        put_letters(text, value.as_str())?;
    }
    Ok(())
}

fn unit_text(unit: TimeUnit) -> &'static str {
    match unit {
        TimeUnit::Second => "s",
        TimeUnit::Millisecond => "m",
        TimeUnit::Microsecond => "u",
        TimeUnit::Nanosecond => "n",
    }
}

fn interval_text(unit: IntervalUnit) -> &'static str {
    match unit {
        IntervalUnit::YearMonth => "y",
        IntervalUnit::DayTime => "d",
        IntervalUnit::MonthDayNano => "m",
    }
}

fn integer_text(integer: IntegerType) -> &'static str {
    match integer {
        IntegerType::Int8 => "i1",
        IntegerType::Int16 => "i2",
        IntegerType::Int32 => "i4",
        IntegerType::Int64 => "i8",
        IntegerType::UInt8 => "u1",
        IntegerType::UInt16 => "u2",
        IntegerType::UInt32 => "u4",
        IntegerType::UInt64 => "u8",
    }
}

fn put_option(text: &mut String, letters: &Option<String>) -> Result<(), IpcReadError> {
    match letters {
        None => text.push_str(" -")?,
        Some(letters) => put_letters(text, letters.as_str())?,
    }
    Ok(())
}

fn put_fields(text: &mut String, fields: &[Field]) -> Result<(), IpcReadError> {
    write!(text, " {}", fields.len())?;
    for field in fields {
        put_field(text, field)?;
    }
    Ok(())
}

fn put_union(
    text: &mut String,
    fields: &[Field],
    ids: &Option<Vec<i32>>,
    mode: UnionMode,
) -> Result<(), IpcReadError> {
    text.push_str(match mode {
        UnionMode::Dense => " Y d",
        UnionMode::Sparse => " Y s",
    })?;
    match ids {
        None => text.push_str(" -")?,
        Some(ids) => {
            write!(text, " i {}", ids.len())?;
            for id in ids {
                write!(text, " {id}")?;
            }
        }
    }
    put_fields(text, fields)
}

fn write_type(text: &mut String, data_type: &DataType) -> Result<(), IpcReadError> {
    match data_type {
        DataType::Null => text.push_str(" n")?,
        DataType::Boolean => text.push_str(" b")?,
        DataType::Int8 => text.push_str(" i1")?,
        DataType::Int16 => text.push_str(" i2")?,
        DataType::Int32 => text.push_str(" i4")?,
        DataType::Int64 => text.push_str(" i8")?,
        DataType::UInt8 => text.push_str(" u1")?,
        DataType::UInt16 => text.push_str(" u2")?,
        DataType::UInt32 => text.push_str(" u4")?,
        DataType::UInt64 => text.push_str(" u8")?,
        DataType::Float16 | DataType::Float32 | DataType::Float64 => text.push_str(" float")?,
        DataType::Timestamp(unit, zone) => {
            write!(text, " ts {}", unit_text(*unit))?;
            put_option(text, zone)?;
        }
        DataType::Date32 => text.push_str(" d4")?,
        DataType::Date64 => text.push_str(" d8")?,
        DataType::Time32(unit) => write!(text, " t4 {}", unit_text(*unit))?,
        DataType::Time64(unit) => write!(text, " t8 {}", unit_text(*unit))?,
        DataType::Duration(unit) => write!(text, " du {}", unit_text(*unit))?,
        DataType::Interval(unit) => write!(text, " iv {}", interval_text(*unit))?,
        DataType::Binary => text.push_str(" B")?,
        DataType::FixedSizeBinary(size) => write!(text, " F {size}")?,
        DataType::LargeBinary => text.push_str(" LB")?,
        DataType::Utf8 => text.push_str(" U")?,
        DataType::LargeUtf8 => text.push_str(" LU")?,
        DataType::List(field) => {
            text.push_str(" L")?;
            put_field(text, field)?;
        }
        DataType::FixedSizeList(field, size) => {
            write!(text, " K {size}")?;
            put_field(text, field)?;
        }
        DataType::LargeList(field) => {
            text.push_str(" LL")?;
            put_field(text, field)?;
        }
        DataType::Struct(fields) => {
            text.push_str(" S")?;
            put_fields(text, fields)?;
        }
        DataType::Union(fields, ids, mode) => put_union(text, fields, ids, *mode)?,
        DataType::Map(field, sorted) => {
            text.push_str(if *sorted { " M 1" } else { " M 0" })?;
            put_field(text, field)?;
        }
        DataType::Dictionary(key, values, ordered) => {
            write!(text, " G {} {}", integer_text(*key), *ordered as u8)?;
            write_type(text, values)?;
        }
        DataType::Decimal(digits, after) => write!(text, " dc {digits} {after}")?,
        DataType::Decimal256(digits, after) => write!(text, " dd {digits} {after}")?,
        DataType::Extension(name, inner, metadata) => {
            text.push_str(" X")?;
            put_letters(text, name.as_str())?;
            put_option(text, metadata)?;
            write_type(text, inner)?;
        }
    }
    Ok(())
}

/// A name, whether it may be null, metadata, a type.
pub fn put_field(text: &mut String, field: &Field) -> Result<(), IpcReadError> {
    put_letters(text, field.name.as_str())?;
    text.push_str(if field.is_nullable { " 1" } else { " 0" })?;
    write_metadata(text, &field.metadata)?;
    write_type(text, &field.data_type)
}

/// The metadata, and a line for each field.
pub fn put_schema(text: &mut String, schema: &Schema) -> Result<(), IpcReadError> {
    text.push_str("metadata")?;
    write_metadata(text, &schema.metadata)?;
    text.push_str("\n")?;
    for field in &schema.fields {
        text.push_str("field")?;
        put_field(text, field)?;
        text.push_str("\n")?;
    }
    Ok(())
}

/// What a schema's message is, or its error.
pub fn text_of_schema(alloc: Global, bytes: &[u8]) -> Result<String, IpcReadError> {
    let mut text = String::new(alloc);
    match read_schema(alloc, bytes) {
        Err(failure) => write!(text, "error {failure:?}\n")?,
        Ok((keyed, _)) => put_schema(&mut text, &keyed.schema)?,
    }
    Ok(text)
}
