//! Arrays over other arrays, from parts. What holds a child is made last, and what has a data type is dropped by name where
//! a later part is rejected.

use crate::show::making::flat::{any_numbers, texts};
use crate::show::making::parts::{buffer, offsets, validity};
use nest_array::{
    AnyArray, AnyKeys, DictionaryArray, FixedSizeListArray, ListArray, MapArray, StructArray,
    UnionArray,
};
use nest_flat::primitive::PrimitiveArray;
use nest_memory::datatypes::field::Field;
use nest_memory::datatypes::{DataType, UnionMode};
use nest_memory::error::Error;
use std::alloc::Global;

/// The lists [1, null], null, [3, 4].
pub fn lists(alloc: Global) -> Result<ListArray, Error> {
    let offsets = offsets(alloc, &[0, 2, 2, 4])?;
    let validity = validity(alloc, &[true, false, true])?;
    let items = any_numbers(alloc)?;
    match ListArray::default_datatype(alloc, DataType::Int64) {
        Ok(data_type) => ListArray::try_new(alloc, data_type, offsets, items, validity),
        Err(error) => {
            drop(items);
            Err(error)
        }
    }
}

/// The lists [1, null], [3, 4], of two items each.
pub fn pairs(alloc: Global) -> Result<FixedSizeListArray, Error> {
    let items = any_numbers(alloc)?;
    match FixedSizeListArray::default_datatype(alloc, DataType::Int64, 2) {
        Ok(data_type) => FixedSizeListArray::try_new(alloc, data_type, items, None),
        Err(error) => {
            drop(items);
            Err(error)
        }
    }
}

/// The fields of records: a number and a text.
fn fields(alloc: Global) -> Result<Vec<Field>, Error> {
    let mut fields = Vec::with_capacity(alloc, 2)?;
    fields.push(Field::new(alloc, "number", DataType::Int64, true)?)?;
    fields.push(Field::new(alloc, "text", DataType::Utf8, true)?)?;
    Ok(fields)
}

/// A child for each field, of four slots.
fn children(alloc: Global) -> Result<Vec<AnyArray>, Error> {
    let mut children = Vec::with_capacity(alloc, 2)?;
    children.push(any_numbers(alloc)?)?;
    children.push(AnyArray::Utf8(texts(alloc)?))?;
    Ok(children)
}

/// The records {1, "ab"}, {null, ""}, {3, null}, {4, "c"}.
pub fn records(alloc: Global) -> Result<StructArray, Error> {
    let fields = fields(alloc)?;
    match children(alloc) {
        Ok(children) => StructArray::try_new(DataType::Struct(fields), children, None),
        Err(error) => {
            drop(fields);
            Err(error)
        }
    }
}

/// The type of lists of records.
fn record_list_type(alloc: Global) -> Result<DataType, Error> {
    let item = DataType::Struct(fields(alloc)?);
    ListArray::default_datatype(alloc, item)
}

/// Lists of those records: of the first one, and of the other three.
pub fn record_lists(alloc: Global) -> Result<ListArray, Error> {
    let offsets = offsets(alloc, &[0, 1, 4])?;
    let items = records(alloc)?.boxed();
    match record_list_type(alloc) {
        Ok(data_type) => ListArray::try_new(alloc, data_type, offsets, items, None),
        Err(error) => {
            drop(items);
            Err(error)
        }
    }
}

/// The type of maps whose entries are such records.
fn map_type(alloc: Global) -> Result<DataType, Error> {
    let entries = DataType::Struct(fields(alloc)?);
    let field = Field::new(alloc, "entries", entries, false)?;
    Ok(DataType::Map(Box::new(alloc, field)?, false))
}

/// Two maps, of the first two records and of the last two.
pub fn maps(alloc: Global) -> Result<MapArray, Error> {
    let offsets = offsets(alloc, &[0, 2, 4])?;
    let entries = records(alloc)?.boxed();
    match map_type(alloc) {
        Ok(data_type) => MapArray::try_new(alloc, data_type, offsets, entries, None),
        Err(error) => {
            drop(entries);
            Err(error)
        }
    }
}

/// Of each slot the number (type 0) or the text (type 1): 1, "", null, 4.
pub fn picks(alloc: Global) -> Result<UnionArray, Error> {
    let types = buffer(alloc, &[0i8, 1, 1, 0])?;
    let fields = fields(alloc)?;
    match children(alloc) {
        Ok(children) => {
            let data_type = DataType::Union(fields, None, UnionMode::Sparse);
            UnionArray::try_new(data_type, types, children, None)
        }
        Err(error) => {
            drop(fields);
            Err(error)
        }
    }
}

/// The strings "c", null, "ab", "c", by keys that name them in `texts`.
pub fn keyed(alloc: Global) -> Result<DictionaryArray, Error> {
    let indices = buffer(alloc, &[3i32, 0, 0, 3])?;
    let validity = validity(alloc, &[true, false, true, true])?;
    let keys = PrimitiveArray::try_new(DataType::Int32, indices, validity)?;
    match texts(alloc) {
        Ok(values) => {
            DictionaryArray::try_from_keys(alloc, AnyKeys::Int32(keys), AnyArray::Utf8(values))
        }
        Err(error) => {
            drop(keys);
            Err(error)
        }
    }
}
