//! Parts of arrays.
use nest_array::{AnyArray, ListArray};
use nest_flat::any_primitive::NativeArray;
use nest_flat::primitive::PrimitiveArray;
use nest_memory::bitmap::immutable::Bitmap;
use nest_memory::buffer::Buffer;
use nest_memory::datatypes::DataType;
use nest_memory::error::Error;
use nest_memory::offset::Offset;
use nest_memory::offsets::OffsetsBuffer;
use std::alloc::Global;

/// Both values, or the first error.
pub(crate) fn both<A: Drop, B: Drop>(
    a: Result<A, Error>,
    b: Result<B, Error>,
) -> Result<(A, B), Error> {
    Ok((a?, b?))
}

/// Both items, or the first error.
pub(crate) fn two<T: Drop>(
    alloc: Global,
    first: Result<T, Error>,
    second: Result<T, Error>,
) -> Result<Vec<T>, Error> {
    let mut items = Vec::with_capacity(alloc, 2)?;
    items.push(first?)?;
    items.push(second?)?;
    Ok(items)
}

pub(crate) fn buffer<T: Copy + Drop>(alloc: Global, items: &[T]) -> Result<Buffer<T>, Error> {
    Buffer::from_vec(alloc, Vec::from_slice(alloc, items)?)
}

pub(crate) fn offsets_of<O: Offset>(
    alloc: Global,
    offsets: &[O],
) -> Result<OffsetsBuffer<O>, Error> {
    OffsetsBuffer::try_new(alloc, Vec::from_slice(alloc, offsets)?)
}

/// The validity of these bits.
pub(crate) fn validity(alloc: Global, bits: Option<&[bool]>) -> Result<Option<Bitmap>, Error> {
    match bits {
        None => Ok(None),
        Some(bits) => Ok(Some(Bitmap::from_bools(alloc, bits)?)),
    }
}

/// Numbers of 32 bits as an array of any kind.
pub(crate) fn numbers(alloc: Global, items: &[i32]) -> Result<AnyArray, Error> {
    match buffer(alloc, items) {
        Ok(values) => PrimitiveArray::try_new(DataType::Int32, values, None).map(
            |array| AnyArray::Primitive(i32::wrap(array)),
        ),
        Err(error) => Err(error),
    }
}

/// A copy of an array's data type.
pub(crate) fn type_of(alloc: Global, array: &Result<AnyArray, Error>) -> Result<DataType, Error> {
    match array {
        Ok(array) => array.data_type().clone(alloc),
        Err(error) => Err(*error),
    }
}

/// Lists of items by offsets of 32 bits.
pub(crate) fn list_array(
    alloc: Global,
    items: Result<AnyArray, Error>,
    offsets: &[i32],
    bits: Option<&[bool]>,
) -> Result<ListArray, Error> {
    let data_type = type_of(alloc, &items).and_then(|t| ListArray::default_datatype(alloc, t));
    let ranges = both(offsets_of(alloc, offsets), validity(alloc, bits));
    match both(both(data_type, items), ranges) {
        Ok(((data_type, items), (offsets, validity))) => {
            ListArray::try_new(alloc, data_type, offsets, items, validity)
        }
        Err(error) => Err(error),
    }
}
