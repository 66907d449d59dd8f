//! The arrays that are joined. Values with a data type are dropped by `drop`, which keeps the proofs short.
use nest_array::{AnyArray, ListArray};
use nest_flat::any_primitive::AnyPrimitive;
use nest_flat::primitive::PrimitiveArray;
use nest_flat::utf8::Utf8Array;
use nest_memory::buffer::Buffer;
use nest_memory::datatypes::DataType;
use nest_memory::error::Error;
use nest_memory::offsets::{Offsets, OffsetsBuffer};
use std::alloc::Global;

const TEXT: [u8; 8] = *b"nineteen";

/// Numbers of 64 bits.
pub fn raw_numbers(alloc: Global, n: usize) -> Result<Vec<i64>, Error> {
    let mut values = Vec::with_capacity(alloc, n)?;
    for i in 0..n {
        values.push((i % 1000) as i64)?;
    }
    Ok(values)
}

/// The same as an array.
pub fn numbers(alloc: Global, n: usize) -> Result<AnyArray, Error> {
    let values = Buffer::from_vec(alloc, raw_numbers(alloc, n)?)?;
    let array = PrimitiveArray::try_new(DataType::Int64, values, None)?;
    Ok(AnyArray::Primitive(AnyPrimitive::Int64(array)))
}

/// The offsets of n slots of eight items each.
fn offsets(alloc: Global, n: usize) -> Result<OffsetsBuffer<i32>, Error> {
    let mut offsets = Offsets::new(alloc)?;
    for _ in 0..n {
        offsets.try_push_usize(TEXT.len())?;
    }
    offsets.freeze()
}

/// Strings of eight bytes.
pub fn texts(alloc: Global, n: usize) -> Result<AnyArray, Error> {
    let mut bytes = Vec::new(alloc);
    for _ in 0..n {
        bytes.extend_from_slice(&TEXT)?;
    }
    let bytes = Buffer::from_vec(alloc, bytes)?;
    let array = Utf8Array::try_new(DataType::Utf8, offsets(alloc, n)?, bytes, None)?;
    Ok(AnyArray::Utf8(array))
}

/// Lists of eight numbers.
pub fn lists(alloc: Global, n: usize) -> Result<AnyArray, Error> {
    let offsets = offsets(alloc, n)?;
    let data_type = ListArray::default_datatype(alloc, DataType::Int64)?;
    match numbers(alloc, n.saturating_mul(TEXT.len())) {
        Ok(items) => {
            let array = ListArray::try_new(alloc, data_type, offsets, items, None)?;
            Ok(AnyArray::List(array))
        }
        Err(error) => {
            drop(data_type);
            Err(error)
        }
    }
}
