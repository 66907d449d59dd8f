//! Data types, each made of parts that may be rejected.
use nest_array::AnyArray;
use nest_memory::datatypes::field::Field;
use nest_memory::datatypes::{DataType, IntegerType, UnionMode};
use nest_memory::error::Error;
use std::alloc::Global;

/// A field of this type.
pub fn field(alloc: Global, data_type: Result<DataType, Error>) -> Result<Field, Error> {
    match data_type {
        Ok(data_type) => Field::new(alloc, "f", data_type, true),
        Err(error) => Err(error),
    }
}

fn boxed(alloc: Global, data_type: Result<DataType, Error>) -> Result<Box<Field>, Error> {
    let field = field(alloc, data_type)?;
    Ok(Box::new(alloc, field)?)
}

pub fn list(alloc: Global, item: Result<DataType, Error>) -> Result<DataType, Error> {
    Ok(DataType::List(boxed(alloc, item)?))
}

pub fn large_list(alloc: Global, item: Result<DataType, Error>) -> Result<DataType, Error> {
    Ok(DataType::LargeList(boxed(alloc, item)?))
}

pub fn sized(alloc: Global, item: Result<DataType, Error>, size: usize) -> Result<DataType, Error> {
    Ok(DataType::FixedSizeList(boxed(alloc, item)?, size))
}

pub fn map(alloc: Global, entries: Result<DataType, Error>) -> Result<DataType, Error> {
    Ok(DataType::Map(boxed(alloc, entries)?, false))
}

/// Dictionaries of such values by such keys.
pub fn dictionary(
    alloc: Global,
    key: IntegerType,
    values: Result<DataType, Error>,
) -> Result<DataType, Error> {
    Ok(DataType::Dictionary(key, Box::new(alloc, values?)?, false))
}

/// The type under a name of its own.
pub fn extension(alloc: Global, inner: Result<DataType, Error>) -> Result<DataType, Error> {
    let name = String::from_str(alloc, "x")?;
    Ok(DataType::Extension(name, Box::new(alloc, inner?)?, None))
}

/// Two fields of these types.
pub fn two(
    alloc: Global,
    first: Result<DataType, Error>,
    second: Result<DataType, Error>,
) -> Result<Vec<Field>, Error> {
    let mut fields = one(alloc, first)?;
    fields.push(field(alloc, second)?)?;
    Ok(fields)
}

/// One field of this type.
pub fn one(alloc: Global, data_type: Result<DataType, Error>) -> Result<Vec<Field>, Error> {
    let mut fields = Vec::new(alloc);
    fields.push(field(alloc, data_type)?)?;
    Ok(fields)
}

/// So many fields of numbers.
pub fn numbers(alloc: Global, n: usize) -> Result<Vec<Field>, Error> {
    let mut fields = Vec::new(alloc);
    for _ in 0..n {
        fields.push(field(alloc, Ok(DataType::Int32))?)?;
    }
    Ok(fields)
}

pub fn records(fields: Result<Vec<Field>, Error>) -> Result<DataType, Error> {
    Ok(DataType::Struct(fields?))
}

pub fn union(
    alloc: Global,
    fields: Result<Vec<Field>, Error>,
    ids: Option<&[i32]>,
    mode: UnionMode,
) -> Result<DataType, Error> {
    let fields = fields?;
    let ids = match ids {
        None => None,
        Some(ids) => Some(Vec::from_slice(alloc, ids)?),
    };
    Ok(DataType::Union(fields, ids, mode))
}

/// What a call rejected.
pub fn refusal(array: Result<AnyArray, Error>) -> Option<Error> {
    match array {
        Ok(array) => {
            drop(array);
            None
        }
        Err(error) => Some(error),
    }
}

/// So many nulls of a type that may be rejected.
pub fn nulls(
    alloc: Global,
    data_type: Result<DataType, Error>,
    length: usize,
) -> Result<AnyArray, Error> {
    match data_type {
        Ok(data_type) => nest_array::new_null_array(alloc, data_type, length),
        Err(error) => Err(error),
    }
}

/// No slot of a type that may be rejected.
pub fn none(alloc: Global, data_type: Result<DataType, Error>) -> Result<AnyArray, Error> {
    match data_type {
        Ok(data_type) => nest_array::new_empty_array(alloc, data_type),
        Err(error) => Err(error),
    }
}
