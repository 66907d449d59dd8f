//! A schema, and batches of it.
use ipc::Batch;
use ipc_schema::Schema;
use nest_array::any::AnyArray;
use nest_flat::any_primitive::AnyPrimitive;
use nest_flat::primitive::PrimitiveArray;
use nest_memory::buffer::Buffer;
use nest_memory::datatypes::{DataType, Field};
use nest_memory::error::Error;
use std::alloc::Global;
use std::collections::BTreeMap;

/// One column of numbers of 64 bits.
pub fn schema(alloc: Global, data_type: DataType) -> Result<Schema, Error> {
    let mut fields = Vec::new(alloc);
    fields.push(Field::new(alloc, "a", data_type, true)?)?;
    Ok(Schema {
        fields,
        metadata: BTreeMap::new(alloc),
    })
}

/// So many numbers, from a first one on.
pub fn batch(alloc: Global, first: i64, rows: usize) -> Result<Batch, Error> {
    let mut values = Vec::new(alloc);
    for i in 0..rows {
        values.push(first + i as i64)?;
    }
    let values = Buffer::from_vec(alloc, values)?;
    let array = PrimitiveArray::try_new(DataType::Int64, values, None)?;
    let mut columns = Vec::new(alloc);
    columns.push(AnyArray::Primitive(AnyPrimitive::Int64(array)))?;
    Ok(Batch { rows, columns })
}

/// Batches of 0, 3, 6 .. rows.
pub fn batches(alloc: Global, count: usize) -> Result<Vec<Batch>, Error> {
    let mut batches = Vec::new(alloc);
    for i in 0..count {
        batches.push(batch(alloc, 10 * i as i64, 3 * i)?)?;
    }
    Ok(batches)
}

/// Whether batches have the same rows and columns.
pub fn same(one: &Batch, other: &Batch) -> bool {
    if one.rows != other.rows || one.columns.len() != other.columns.len() {
        return false;
    }
    for k in 0..one.columns.len() {
        if one.columns[k] != other.columns[k] {
            return false;
        }
    }
    true
}
