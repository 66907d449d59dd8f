//! The arrays that are measured. Values with a data type are dropped by `drop`, which keeps the proofs short.
use nest_array::{AnyArray, ListArray, StructArray};
use nest_flat::any_primitive::AnyPrimitive;
use nest_flat::primitive::PrimitiveArray;
use nest_flat::utf8::Utf8Array;
use nest_memory::buffer::Buffer;
use nest_memory::datatypes::DataType;
use nest_memory::datatypes::field::Field;
use nest_memory::error::Error;
use nest_memory::offsets::{Offsets, OffsetsBuffer};
use std::alloc::Global;

const EIGHT: usize = 8;

/// Numbers of 64 bits.
pub fn raw_numbers(alloc: Global, n: usize) -> Result<Vec<i64>, Error> {
    let mut values = Vec::with_capacity(alloc, n)?;
    for i in 0..n {
        values.push((i % 1000) as i64)?;
    }
    Ok(values)
}

/// The same as an array.
pub fn numbers(alloc: Global, n: usize) -> Result<AnyArray, Error> {
    let values = Buffer::from_vec(alloc, raw_numbers(alloc, n)?)?;
    let array = PrimitiveArray::try_new(DataType::Int64, values, None)?;
    Ok(AnyArray::Primitive(AnyPrimitive::Int64(array)))
}

/// The offsets of n slots of eight items each.
fn offsets(alloc: Global, n: usize) -> Result<OffsetsBuffer<i32>, Error> {
    let mut offsets = Offsets::new(alloc)?;
    for _ in 0..n {
        offsets.try_push_usize(EIGHT)?;
    }
    offsets.freeze()
}

/// The same text of eight bytes in each slot.
pub fn texts(alloc: Global, n: usize, text: [u8; EIGHT]) -> Result<AnyArray, Error> {
    let mut bytes = Vec::new(alloc);
    for _ in 0..n {
        bytes.extend_from_slice(&text)?;
    }
    let bytes = Buffer::from_vec(alloc, bytes)?;
    let array = Utf8Array::try_new(DataType::Utf8, offsets(alloc, n)?, bytes, None)?;
    Ok(AnyArray::Utf8(array))
}

/// Lists of eight numbers.
pub fn lists(alloc: Global, n: usize) -> Result<AnyArray, Error> {
    let offsets = offsets(alloc, n)?;
    let data_type = ListArray::default_datatype(alloc, DataType::Int64)?;
    match numbers(alloc, n.saturating_mul(EIGHT)) {
        Ok(items) => {
            let array = ListArray::try_new(alloc, data_type, offsets, items, None)?;
            Ok(AnyArray::List(array))
        }
        Err(error) => {
            drop(data_type);
            Err(error)
        }
    }
}

fn record_type(alloc: Global) -> Result<DataType, Error> {
    let mut fields = Vec::with_capacity(alloc, 2)?;
    fields.push(Field::new(alloc, "number", DataType::Int64, true)?)?;
    fields.push(Field::new(alloc, "text", DataType::Utf8, true)?)?;
    Ok(DataType::Struct(fields))
}

fn record_children(alloc: Global, n: usize) -> Result<Vec<AnyArray>, Error> {
    let mut children = Vec::with_capacity(alloc, 2)?;
    children.push(numbers(alloc, n)?)?;
    children.push(texts(alloc, n, *b"nineteen")?)?;
    Ok(children)
}

/// Records of a number and a text.
pub fn records(alloc: Global, n: usize) -> Result<AnyArray, Error> {
    let children = record_children(alloc, n)?;
    match record_type(alloc) {
        Ok(data_type) => {
            let array = StructArray::try_new(data_type, children, None)?;
            Ok(AnyArray::Struct(array))
        }
        Err(error) => {
            drop(children);
            Err(error)
        }
    }
}
