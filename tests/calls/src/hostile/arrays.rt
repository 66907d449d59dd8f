//! Arrays by their parts, and what is passed of frozen ones.
use nest_array::{AnyArray, ListArray};
use nest_flat::any_primitive::{AnyPrimitive, NativeArray};
use nest_flat::primitive::PrimitiveArray;
use nest_memory::bitmap::immutable::Bitmap;
use nest_memory::buffer::Buffer;
use nest_memory::datatypes::DataType;
use nest_memory::error::Error;
use nest_memory::offsets::OffsetsBuffer;
use std::alloc::Global;

/// Both values, or the first error.
pub(crate) fn both<A: Drop, B: Drop>(
    a: Result<A, Error>,
    b: Result<B, Error>,
) -> Result<(A, B), Error> {
    Ok((a?, b?))
}

pub(crate) fn validity(alloc: Global, bits: &[bool]) -> Result<Option<Bitmap>, Error> {
    Ok(Some(Bitmap::from_bools(alloc, bits)?))
}

/// Numbers of 32 bits as an array of any kind.
pub(crate) fn int32s(alloc: Global, items: &[i32]) -> Result<AnyArray, Error> {
    match Buffer::from_vec(alloc, Vec::from_slice(alloc, items)?) {
        Ok(values) => PrimitiveArray::try_new(DataType::Int32, values, None).map(
            |array| AnyArray::Primitive(i32::wrap(array)),
        ),
        Err(error) => Err(error),
    }
}

/// A copy of an array's data type.
fn type_of(alloc: Global, array: &Result<AnyArray, Error>) -> Result<DataType, Error> {
    match array {
        Ok(array) => array.data_type().clone(alloc),
        Err(error) => Err(*error),
    }
}

/// Lists of these items, none of them null.
pub(crate) fn list_array(
    alloc: Global,
    items: Result<AnyArray, Error>,
    offsets: &[i32],
) -> Result<ListArray, Error> {
    let data_type = type_of(alloc, &items).and_then(|t| ListArray::default_datatype(alloc, t));
    let offsets = OffsetsBuffer::try_new(alloc, Vec::from_slice(alloc, offsets)?);
    match both(both(data_type, items), offsets) {
        Ok(((data_type, items), offsets)) => {
            ListArray::try_new(alloc, data_type, offsets, items, None)
        }
        Err(error) => Err(error),
    }
}

/// Whether an array has these numbers of 32 bits, whatever is null.
pub(crate) fn has_int32s(array: &AnyArray, items: &[i32]) -> bool {
    match array {
        AnyArray::Primitive(AnyPrimitive::Int32(numbers)) => {
            numbers.values().as_slice() == items
        }
        _ => false,
    }
}

/// Whether an array has these numbers of 64 bits, `None` a null.
pub(crate) fn is_int64s(array: &AnyArray, items: &[Option<i64>]) -> bool {
    let AnyArray::Primitive(AnyPrimitive::Int64(numbers)) = array else {
        return false;
    };
    if numbers.len() != items.len() {
        return false;
    }
    for i in 0..numbers.len() {
        if numbers.get(i) != items[i] {
            return false;
        }
    }
    true
}
