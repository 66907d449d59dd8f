//! The text of data types, in the forms that pyarrow prints.
use crate::show::making::{nested, tagged};
use nest_array::AnyArray;
use nest_memory::datatypes::{DataType, Field, IntegerType, IntervalUnit, TimeUnit, UnionMode};
use nest_memory::error::Error;
use std::alloc::Global;

/// The text of a data type.
fn text(alloc: Global, data_type: DataType) -> Result<String, Error> {
    Ok(format!(in alloc; "{}", data_type)?)
}

/// The text of an array's data type.
fn text_of_array(alloc: Global, array: AnyArray) -> Result<String, Error> {
    Ok(format!(in alloc; "{}", array.data_type())?)
}

/// A data type in a box.
fn boxed(alloc: Global, data_type: DataType) -> Result<Box<DataType>, Error> {
    Ok(Box::new(alloc, data_type)?)
}

/// A map from strings to numbers, with these names of its entries and of their parts.
fn map(alloc: Global, names: [&str; 3], sorted: bool) -> Result<DataType, Error> {
    let mut parts = Vec::with_capacity(alloc, 2)?;
    parts.push(Field::new(alloc, names[1], DataType::Utf8, false)?)?;
    parts.push(Field::new(alloc, names[2], DataType::Int64, true)?)?;
    let entries = Field::new(alloc, names[0], DataType::Struct(parts), false)?;
    Ok(DataType::Map(Box::new(alloc, entries)?, sorted))
}

#[test]
fn plain_types(rt: HostRuntime) -> Result<(), Error> {
    let alloc = rt.alloc();
    assert_eq!(rt; text(alloc, DataType::Null)?.as_str(), "null");
    assert_eq!(rt; text(alloc, DataType::Boolean)?.as_str(), "bool");
    assert_eq!(rt; text(alloc, DataType::UInt16)?.as_str(), "uint16");
    assert_eq!(rt; text(alloc, DataType::Float16)?.as_str(), "halffloat");
    assert_eq!(rt; text(alloc, DataType::LargeUtf8)?.as_str(), "large_string");
    assert_eq!(rt; text(alloc, DataType::Date32)?.as_str(), "date32[day]");
    assert_eq!(rt; text(alloc, DataType::Date64)?.as_str(), "date64[ms]");
    assert_eq!(rt;
        text(alloc, DataType::Time32(TimeUnit::Second))?.as_str(),
        "time32[s]"
    );
    assert_eq!(rt;
        text(alloc, DataType::Time64(TimeUnit::Nanosecond))?.as_str(),
        "time64[ns]"
    );
    assert_eq!(rt;
        text(alloc, DataType::Duration(TimeUnit::Millisecond))?.as_str(),
        "duration[ms]"
    );
    assert_eq!(rt;
        text(alloc, DataType::Interval(IntervalUnit::MonthDayNano))?.as_str(),
        "month_day_nano_interval"
    );
    assert_eq!(rt;
        text(alloc, DataType::FixedSizeBinary(16))?.as_str(),
        "fixed_size_binary[16]"
    );
    assert_eq!(rt;
        text(alloc, DataType::Decimal(10, 2))?.as_str(),
        "decimal128(10, 2)"
    );
    Ok(())
}

#[test]
fn timestamps(rt: HostRuntime) -> Result<(), Error> {
    let alloc = rt.alloc();
    let zone = String::from_str(alloc, "UTC")?;
    assert_eq!(rt;
        text(
            alloc,
            DataType::Timestamp(TimeUnit::Microsecond, Some(zone))
        )?
        .as_str(),
        "timestamp[us, tz=UTC]"
    );
    assert_eq!(rt;
        text(alloc, DataType::Timestamp(TimeUnit::Second, None))?.as_str(),
        "timestamp[s]"
    );
    Ok(())
}

#[test]
fn nested_types(rt: HostRuntime) -> Result<(), Error> {
    let alloc = rt.alloc();
    assert_eq!(rt;
        text_of_array(alloc, tagged::tagged_lists(alloc)?.boxed())?.as_str(),
        "list<item: struct<number: int64, tag: dictionary<values=string, indices=int32, ordered=0>>>"
    );
    assert_eq!(rt;
        text_of_array(alloc, nested::picks(alloc)?.boxed())?.as_str(),
        "sparse_union<number: int64=0, text: string=1>"
    );
    assert_eq!(rt;
        text_of_array(alloc, nested::pairs(alloc)?.boxed())?.as_str(),
        "fixed_size_list<item: int64>[2]"
    );
    let values = boxed(alloc, DataType::Utf8)?;
    assert_eq!(rt;
        text(
            alloc,
            DataType::Dictionary(IntegerType::UInt8, values, true)
        )?
        .as_str(),
        "dictionary<values=string, indices=uint8, ordered=1>"
    );
    Ok(())
}

#[test]
fn dense_unions(rt: HostRuntime) -> Result<(), Error> {
    let alloc = rt.alloc();
    let mut fields = Vec::with_capacity(alloc, 2)?;
    fields.push(Field::new(alloc, "a", DataType::Int64, true)?)?;
    fields.push(Field::new(alloc, "b", DataType::Utf8, false)?)?;
    let ids = Vec::from_slice(alloc, &[5i32, 0])?;
    assert_eq!(rt;
        text(alloc, DataType::Union(fields, Some(ids), UnionMode::Dense))?.as_str(),
        "dense_union<a: int64=5, b: string not null=0>"
    );
    Ok(())
}

#[test]
fn maps(rt: HostRuntime) -> Result<(), Error> {
    let alloc = rt.alloc();
    assert_eq!(rt;
        text(alloc, map(alloc, ["entries", "key", "value"], false)?)?.as_str(),
        "map<string, int64>"
    );
    assert_eq!(rt;
        text(alloc, map(alloc, ["entries", "key", "value"], true)?)?.as_str(),
        "map<string, int64, keys_sorted>"
    );
    assert_eq!(rt;
        text(alloc, map(alloc, ["rows", "k", "value"], true)?)?.as_str(),
        "map<string ('k'), int64, keys_sorted ('rows')>"
    );
    assert_eq!(rt;
        text_of_array(alloc, nested::maps(alloc)?.boxed())?.as_str(),
        "map<int64 ('number'), string ('text')>"
    );
    Ok(())
}

#[test]
fn extensions_and_fields(rt: HostRuntime) -> Result<(), Error> {
    let alloc = rt.alloc();
    let name = String::from_str(alloc, "uuid")?;
    let inner = boxed(alloc, DataType::FixedSizeBinary(16))?;
    assert_eq!(rt;
        text(alloc, DataType::Extension(name, inner, None))?.as_str(),
        "extension<uuid, fixed_size_binary[16]>"
    );
    let field = Field::new(alloc, "id", DataType::Int64, false)?;
    let text = format!(in alloc; "{}", field)?;
    assert_eq!(rt; text.as_str(), "id: int64 not null");
    assert_eq!(rt;
        format!(in alloc; "{field:?}")?.as_str(),
        "id: int64 not null"
    );
    assert_eq!(rt;
        format!(in alloc; "{:?}", field.data_type)?.as_str(),
        "int64"
    );
    Ok(())
}
