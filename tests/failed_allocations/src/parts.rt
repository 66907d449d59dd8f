//! Data types, and parts of arrays.

use nest_memory::bitmap::immutable::Bitmap;
use nest_memory::buffer::Buffer;
use nest_memory::datatypes::{DataType, Field, IntegerType, IntervalUnit};
use nest_memory::error::Error;
use nest_memory::offset::Offset;
use nest_memory::offsets::OffsetsBuffer;
use std::alloc::Global;

pub fn field(alloc: Global, data_type: DataType) -> Result<Field, Error> {
    Field::new(alloc, "a", data_type, true)
}

fn item(alloc: Global, data_type: DataType) -> Result<Box<Field>, Error> {
    Ok(Box::new(alloc, field(alloc, data_type)?)?)
}

pub fn list(alloc: Global, items: DataType) -> Result<DataType, Error> {
    Ok(DataType::List(item(alloc, items)?))
}

pub fn large_list(alloc: Global, items: DataType) -> Result<DataType, Error> {
    Ok(DataType::LargeList(item(alloc, items)?))
}

pub fn pairs(alloc: Global, items: DataType) -> Result<DataType, Error> {
    Ok(DataType::FixedSizeList(item(alloc, items)?, 2))
}

pub fn dictionary(alloc: Global, keys: IntegerType, values: DataType) -> Result<DataType, Error> {
    Ok(DataType::Dictionary(keys, Box::new(alloc, values)?, false))
}

/// Records of two fields.
pub fn record(alloc: Global, first: DataType, second: DataType) -> Result<DataType, Error> {
    let mut fields = Vec::with_capacity(alloc, 2)?;
    fields.push(field(alloc, first)?)?;
    fields.push(field(alloc, second)?)?;
    Ok(DataType::Struct(fields))
}

/// Records of a value of each kind that has no children.
pub fn flat_record(alloc: Global) -> Result<DataType, Error> {
    let types = [
        DataType::Null,
        DataType::Boolean,
        DataType::Date32,
        DataType::Decimal256(76, 2),
        DataType::Interval(IntervalUnit::MonthDayNano),
        DataType::Binary,
        DataType::LargeBinary,
        DataType::Utf8,
        DataType::LargeUtf8,
        DataType::FixedSizeBinary(2),
    ];
    let mut fields = Vec::with_capacity(alloc, types.len())?;
    for data_type in types {
        fields.push(field(alloc, data_type)?)?;
    }
    Ok(DataType::Struct(fields))
}

pub fn buffer<T: Copy + Drop>(alloc: Global, items: &[T]) -> Result<Buffer<T>, Error> {
    Buffer::from_vec(alloc, Vec::from_slice(alloc, items)?)
}

pub fn offsets<O: Offset + Drop>(alloc: Global, ends: &[O]) -> Result<OffsetsBuffer<O>, Error> {
    OffsetsBuffer::try_new(alloc, Vec::from_slice(alloc, ends)?)
}

pub fn validity(alloc: Global, bits: &[bool]) -> Result<Option<Bitmap>, Error> {
    Ok(Some(Bitmap::from_bools(alloc, bits)?))
}
