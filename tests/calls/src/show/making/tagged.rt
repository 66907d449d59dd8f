//! Lists of records with a dictionary inside, from parts.

use crate::show::making::flat::any_numbers;
use crate::show::making::nested::keyed;
use crate::show::making::parts::offsets;
use nest_array::{AnyArray, ListArray, StructArray};
use nest_memory::datatypes::field::Field;
use nest_memory::datatypes::{DataType, IntegerType};
use nest_memory::error::Error;
use std::alloc::Global;

/// The type of strings by keys of 32 bits.
fn tag_type(alloc: Global) -> Result<DataType, Error> {
    let texts = Box::new(alloc, DataType::Utf8)?;
    Ok(DataType::Dictionary(IntegerType::Int32, texts, false))
}

/// The fields of records: a number, and a text by its key.
fn fields(alloc: Global) -> Result<Vec<Field>, Error> {
    let mut fields = Vec::with_capacity(alloc, 2)?;
    fields.push(Field::new(alloc, "number", DataType::Int64, true)?)?;
    fields.push(Field::new(alloc, "tag", tag_type(alloc)?, true)?)?;
    Ok(fields)
}

/// A child for each field, of four slots.
fn children(alloc: Global) -> Result<Vec<AnyArray>, Error> {
    let mut children = Vec::with_capacity(alloc, 2)?;
    children.push(any_numbers(alloc)?)?;
    children.push(keyed(alloc)?.boxed())?;
    Ok(children)
}

/// The type of lists of such records.
fn list_type(alloc: Global) -> Result<DataType, Error> {
    let item = DataType::Struct(fields(alloc)?);
    ListArray::default_datatype(alloc, item)
}

/// The records {1, "c"}, {null, null}, {3, "ab"}, {4, "c"}.
fn records(alloc: Global) -> Result<AnyArray, Error> {
    let fields = fields(alloc)?;
    match children(alloc) {
        Ok(children) => match StructArray::try_new(DataType::Struct(fields), children, None) {
            Ok(records) => Ok(records.boxed()),
            Err(error) => Err(error),
        },
        Err(error) => {
            drop(fields);
            Err(error)
        }
    }
}

/// Lists of them: of the first two, and of the last two.
pub fn tagged_lists(alloc: Global) -> Result<ListArray, Error> {
    let offsets = offsets(alloc, &[0, 2, 4])?;
    let items = records(alloc)?;
    match list_type(alloc) {
        Ok(data_type) => ListArray::try_new(alloc, data_type, offsets, items, None),
        Err(error) => {
            drop(items);
            Err(error)
        }
    }
}

/// The last of the lists, as a column of its own.
pub fn last_list(alloc: Global) -> Result<AnyArray, Error> {
    match tagged_lists(alloc) {
        Ok(lists) => Ok(lists.boxed().sliced(1, 1)),
        Err(error) => Err(error),
    }
}
