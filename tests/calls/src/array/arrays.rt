//! Arrays in arrays by their examples slots.
mod kinds;
pub(crate) mod lists;
pub(crate) mod memory;
mod reads;
pub(crate) mod sizes;
pub(crate) mod structs;
mod windows;

use nest_array::{AnyArray, ListArray};
use nest_flat::any_primitive::{AnyPrimitive, NativeArray};
use nest_flat::boolean::BooleanArray;
use nest_flat::primitive::PrimitiveArray;
use nest_memory::bitmap::immutable::Bitmap;
use nest_memory::buffer::Buffer;
use nest_memory::datatypes::DataType;
use nest_memory::error::Error;
use nest_memory::offset::Offset;
use nest_memory::offsets::OffsetsBuffer;
use std::alloc::Global;

/// Both values, or the first error.
pub(crate) fn both<A: Drop, B: Drop>(
    a: Result<A, Error>,
    b: Result<B, Error>,
) -> Result<(A, B), Error> {
    Ok((a?, b?))
}

/// Whether both were made and are equal; both are dropped.
pub(crate) fn are_same<A: PartialEq + Drop>(
    x: Result<A, Error>,
    y: Result<A, Error>,
) -> Result<bool, Error> {
    let (x, y) = both(x, y)?;
    Ok(x == y)
}

/// Both items, or the first error.
pub(crate) fn two<T: Drop>(
    alloc: Global,
    first: Result<T, Error>,
    second: Result<T, Error>,
) -> Result<Vec<T>, Error> {
    let mut items = Vec::with_capacity(alloc, 2)?;
    items.push(first?)?;
    items.push(second?)?;
    Ok(items)
}

pub(crate) fn buffer<T: Copy + Drop>(alloc: Global, items: &[T]) -> Result<Buffer<T>, Error> {
    Buffer::from_vec(alloc, Vec::from_slice(alloc, items)?)
}

pub(crate) fn offsets_of<O: Offset>(
    alloc: Global,
    offsets: &[O],
) -> Result<OffsetsBuffer<O>, Error> {
    OffsetsBuffer::try_new(alloc, Vec::from_slice(alloc, offsets)?)
}

/// The validity of these bits.
pub(crate) fn validity(alloc: Global, bits: Option<&[bool]>) -> Result<Option<Bitmap>, Error> {
    match bits {
        None => Ok(None),
        Some(bits) => Ok(Some(Bitmap::from_bools(alloc, bits)?)),
    }
}

pub(crate) fn int32s(
    alloc: Global,
    items: &[i32],
    bits: Option<&[bool]>,
) -> Result<PrimitiveArray<i32>, Error> {
    match both(buffer(alloc, items), validity(alloc, bits)) {
        Ok((values, validity)) => PrimitiveArray::try_new(DataType::Int32, values, validity),
        Err(error) => Err(error),
    }
}

pub(crate) fn booleans(alloc: Global, items: &[bool]) -> Result<BooleanArray, Error> {
    match Bitmap::from_bools(alloc, items) {
        Ok(values) => BooleanArray::try_new(DataType::Boolean, values, None),
        Err(error) => Err(error),
    }
}

/// Numbers of 32 bits as an array of any kind.
pub(crate) fn numbers(alloc: Global, items: &[i32]) -> Result<AnyArray, Error> {
    int32s(alloc, items, None).map(|array| AnyArray::Primitive(i32::wrap(array)))
}

/// Whether an array was made and has these numbers of 32 bits; it is dropped.
pub(crate) fn has_numbers(array: Result<AnyArray, Error>, items: &[i32]) -> bool {
    match array {
        Ok(array) => {
            let same = is_numbers(&array, items);
            drop(array);
            same
        }
        Err(_) => false,
    }
}

pub(crate) fn is_numbers(array: &AnyArray, items: &[i32]) -> bool {
    match array {
        AnyArray::Primitive(AnyPrimitive::Int32(array)) => *array.values().as_slice() == *items,
        _ => false,
    }
}

/// A copy of an array's data type.
pub(crate) fn type_of(alloc: Global, array: &Result<AnyArray, Error>) -> Result<DataType, Error> {
    match array {
        Ok(array) => array.data_type().clone(alloc),
        Err(error) => Err(*error),
    }
}

/// Lists under this type.
pub(crate) fn lists_under(
    alloc: Global,
    data_type: Result<DataType, Error>,
    items: Result<AnyArray, Error>,
    offsets: &[i32],
    bits: Option<&[bool]>,
) -> Result<ListArray, Error> {
    let ranges = both(offsets_of(alloc, offsets), validity(alloc, bits));
    match both(both(data_type, items), ranges) {
        Ok(((data_type, items), (offsets, validity))) => {
            ListArray::try_new(alloc, data_type, offsets, items, validity)
        }
        Err(error) => Err(error),
    }
}

/// The type of lists of such items.
pub(crate) fn list_type(alloc: Global, items: Result<DataType, Error>) -> Result<DataType, Error> {
    items.and_then(|items| ListArray::default_datatype(alloc, items))
}

pub(crate) fn list_array(
    alloc: Global,
    items: Result<AnyArray, Error>,
    offsets: &[i32],
    bits: Option<&[bool]>,
) -> Result<ListArray, Error> {
    let data_type = list_type(alloc, type_of(alloc, &items));
    lists_under(alloc, data_type, items, offsets, bits)
}

/// An array of lists as one of any kind.
pub(crate) fn any_list(array: Result<ListArray, Error>) -> Result<AnyArray, Error> {
    array.map(|array| array.boxed())
}

/// Lists of lists of the numbers from 1 to 10.
pub(crate) fn lists_of_lists(alloc: Global) -> Result<ListArray, Error> {
    let items = numbers(alloc, &[1, 2, 3, 4, 5, 6, 7, 8, 9, 10]);
    let inner = list_array(alloc, items, &[0, 2, 4, 7, 7, 8, 10], None);
    list_array(alloc, any_list(inner), &[0, 2, 5, 6], None)
}
