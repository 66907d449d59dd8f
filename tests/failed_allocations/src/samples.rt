//! Small arrays of every nested kind.

use crate::parts::{buffer, field, offsets, record, validity};
use nest_array::{
    AnyArray, AnyKeys, DictionaryArray, FixedSizeBinaryArray, FixedSizeListArray, ListArray,
    MapArray, StructArray, UnionArray,
};
use nest_flat::any_primitive::NativeArray;
use nest_flat::primitive::PrimitiveArray;
use nest_flat::utf8::Utf8Array;
use nest_memory::datatypes::{DataType, UnionMode};
use nest_memory::error::Error;
use std::alloc::Global;

/// Three records of a text and a number.
pub fn records(alloc: Global) -> Result<AnyArray, Error> {
    let children = vec![in alloc; strings(alloc)?, numbers(alloc, &[1, 2, 3])?]?;
    let data_type = record(alloc, DataType::LargeUtf8, DataType::Int32)?;
    let bits = validity(alloc, &[true, true, false])?;
    Ok(StructArray::try_new(data_type, children, bits)?.boxed())
}

/// Maps of no, two, no and one entry, the third of them null.
pub fn map_array(alloc: Global, entries: &AnyArray) -> Result<AnyArray, Error> {
    let data_type = entries.data_type().clone(alloc)?;
    let data_type = DataType::Map(Box::new(alloc, field(alloc, data_type)?)?, false);
    let ends = offsets(alloc, &[0, 0, 2, 2, 3])?;
    let bits = validity(alloc, &[true, true, false, true])?;
    Ok(MapArray::try_new(alloc, data_type, ends, entries.clone(alloc)?, bits)?.boxed())
}

/// Unions of both fields of records in turn.
pub fn union_array(alloc: Global, records: &AnyArray, mode: UnionMode) -> Result<AnyArray, Error> {
    let mut fields = Vec::with_capacity(alloc, 2)?;
    let mut children = Vec::with_capacity(alloc, 2)?;
    if let AnyArray::Struct(records) = records {
        for child in records.values() {
            fields.push(field(alloc, child.data_type().clone(alloc)?)?)?;
            children.push(child.clone(alloc)?)?;
        }
    }
    let ids = Vec::from_slice(alloc, &[7, 3])?;
    let indices = match mode {
        UnionMode::Sparse => None,
        UnionMode::Dense => Some(buffer(alloc, &[0, 0, 2])?),
    };
    let types = buffer(alloc, &[7, 3, 7])?;
    let data_type = DataType::Union(fields, Some(ids), mode);
    Ok(UnionArray::try_new(data_type, types, children, indices)?.boxed())
}

/// Numbers of 32 bits.
fn numbers(alloc: Global, items: &[i32]) -> Result<AnyArray, Error> {
    let values = buffer(alloc, items)?;
    let bits = validity(alloc, &[true, false, true])?;
    let array = PrimitiveArray::try_new(DataType::Int32, values, bits)?;
    Ok(AnyArray::Primitive(i32::wrap(array)))
}

/// Strings by offsets of 64 bits.
pub fn strings(alloc: Global) -> Result<AnyArray, Error> {
    let ends = offsets(alloc, &[0i64, 1, 1, 3])?;
    let values = buffer(alloc, b"abc")?;
    Ok(AnyArray::LargeUtf8(Utf8Array::try_new(DataType::LargeUtf8, ends, values, None)?))
}

/// Lists of lists of numbers.
pub fn lists_of_lists(alloc: Global) -> Result<ListArray, Error> {
    let inner = list_array(alloc, numbers(alloc, &[1, 2, 3])?, &[0, 1, 1, 3])?;
    list_array(alloc, inner.boxed(), &[0, 0, 2, 3])
}

fn list_array(alloc: Global, items: AnyArray, ends: &[i32]) -> Result<ListArray, Error> {
    let data_type = ListArray::default_datatype(alloc, items.data_type().clone(alloc)?)?;
    ListArray::try_new(alloc, data_type, offsets(alloc, ends)?, items, None)
}

/// Strings by keys of 8 bits, one of them null.
pub fn dictionary_of_strings(alloc: Global) -> Result<AnyArray, Error> {
    let bits = validity(alloc, &[true, true, false])?;
    let keys = PrimitiveArray::try_new(DataType::Int8, buffer(alloc, &[2i8, 0, 1])?, bits)?;
    Ok(DictionaryArray::try_from_keys(alloc, AnyKeys::Int8(keys), strings(alloc)?)?.boxed())
}

/// Byte strings of two bytes, one of them null.
pub fn codes(alloc: Global) -> Result<AnyArray, Error> {
    let items = [Some(b"ab".as_slice()), None, Some(b"cd".as_slice())];
    Ok(FixedSizeBinaryArray::try_from_iter(alloc, items, 2)?.boxed())
}

/// Lists of one number each.
pub fn single_numbers(alloc: Global) -> Result<AnyArray, Error> {
    let items = numbers(alloc, &[4, 5, 6])?;
    let data_type = FixedSizeListArray::default_datatype(alloc, DataType::Int32, 1)?;
    let bits = validity(alloc, &[true, false, true])?;
    Ok(FixedSizeListArray::try_new(alloc, data_type, items, bits)?.boxed())
}
