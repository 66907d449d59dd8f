//! The arrays that are measured. Values with a data type are dropped by `drop`, which keeps the proofs short.
use nest_array::{
    AnyArray, AnyKeys, DictionaryArray, FixedSizeListArray, ListArray, MapArray, StructArray,
    UnionArray,
};
use nest_flat::any_primitive::AnyPrimitive;
use nest_flat::primitive::PrimitiveArray;
use nest_flat::utf8::Utf8Array;
use nest_memory::bitmap::immutable::Bitmap;
use nest_memory::bitmap::mutable::MutableBitmap;
use nest_memory::buffer::Buffer;
use nest_memory::datatypes::field::Field;
use nest_memory::datatypes::{DataType, UnionMode};
use nest_memory::error::Error;
use nest_memory::offsets::{Offsets, OffsetsBuffer};
use std::alloc::Global;

const TEXT: [u8; 8] = *b"nineteen";

/// Bits, every tenth of them unset.
fn tenth_unset(alloc: Global, n: usize) -> Result<Bitmap, Error> {
    let mut bits = MutableBitmap::new(alloc);
    for i in 0..n {
        bits.push(i % 10 != 9)?;
    }
    bits.freeze()
}

/// The validity of n slots: every tenth is null, or none.
fn validity(alloc: Global, n: usize, nulls: bool) -> Result<Option<Bitmap>, Error> {
    if nulls {
        return Ok(Some(tenth_unset(alloc, n)?));
    }
    Ok(None)
}

/// The offsets of n slots of so many items each.
fn offsets(alloc: Global, n: usize, size: usize) -> Result<OffsetsBuffer<i32>, Error> {
    let mut offsets = Offsets::new(alloc)?;
    for _ in 0..n {
        offsets.try_push_usize(size)?;
    }
    offsets.freeze()
}

fn some_values(alloc: Global, n: usize) -> Result<Buffer<i64>, Error> {
    let mut values = Vec::with_capacity(alloc, n)?;
    for i in 0..n {
        values.push((i % 1000) as i64)?;
    }
    Buffer::from_vec(alloc, values)
}

fn some_bytes(alloc: Global, n: usize) -> Result<Buffer<u8>, Error> {
    let mut bytes = Vec::new(alloc);
    for _ in 0..n {
        bytes.extend_from_slice(&TEXT)?;
    }
    Buffer::from_vec(alloc, bytes)
}

/// Numbers of 64 bits.
pub fn numbers(alloc: Global, n: usize, nulls: bool) -> Result<AnyArray, Error> {
    let values = some_values(alloc, n)?;
    let validity = validity(alloc, n, nulls)?;
    let array = PrimitiveArray::try_new(DataType::Int64, values, validity)?;
    Ok(AnyArray::Primitive(AnyPrimitive::Int64(array)))
}

/// Strings of eight bytes.
fn texts(alloc: Global, n: usize) -> Result<AnyArray, Error> {
    let offsets = offsets(alloc, n, TEXT.len())?;
    let bytes = some_bytes(alloc, n)?;
    let array = Utf8Array::try_new(DataType::Utf8, offsets, bytes, None)?;
    Ok(AnyArray::Utf8(array))
}

fn list_type(alloc: Global, items: &AnyArray) -> Result<DataType, Error> {
    let item_type = items.data_type().clone(alloc)?;
    ListArray::default_datatype(alloc, item_type)
}

/// What n lists of so many items each have beside their items.
fn list_parts(
    alloc: Global,
    n: usize,
    size: usize,
    nulls: bool,
    items: &AnyArray,
) -> Result<(DataType, OffsetsBuffer<i32>, Option<Bitmap>), Error> {
    let offsets = offsets(alloc, n, size)?;
    let validity = validity(alloc, n, nulls)?;
    let data_type = list_type(alloc, items)?;
    Ok((data_type, offsets, validity))
}

/// n lists of so many of these items each.
pub fn lists(
    alloc: Global,
    n: usize,
    size: usize,
    nulls: bool,
    items: AnyArray,
) -> Result<AnyArray, Error> {
    match list_parts(alloc, n, size, nulls, &items) {
        Ok((data_type, offsets, validity)) => {
            let array = ListArray::try_new(alloc, data_type, offsets, items, validity)?;
            Ok(AnyArray::List(array))
        }
        Err(error) => {
            drop(items);
            Err(error)
        }
    }
}

/// What n fixed-size lists have beside their items.
fn fixed_size_list_parts(
    alloc: Global,
    n: usize,
    size: usize,
    nulls: bool,
    items: &AnyArray,
) -> Result<(DataType, Option<Bitmap>), Error> {
    let validity = validity(alloc, n, nulls)?;
    let item_type = items.data_type().clone(alloc)?;
    let data_type = FixedSizeListArray::default_datatype(alloc, item_type, size)?;
    Ok((data_type, validity))
}

/// n fixed-size lists of these items.
pub fn fixed_size_lists(
    alloc: Global,
    n: usize,
    size: usize,
    nulls: bool,
    items: AnyArray,
) -> Result<AnyArray, Error> {
    match fixed_size_list_parts(alloc, n, size, nulls, &items) {
        Ok((data_type, validity)) => {
            let array = FixedSizeListArray::try_new(alloc, data_type, items, validity)?;
            Ok(AnyArray::FixedSizeList(array))
        }
        Err(error) => {
            drop(items);
            Err(error)
        }
    }
}

fn record_type(alloc: Global) -> Result<DataType, Error> {
    let mut fields = Vec::with_capacity(alloc, 2)?;
    fields.push(Field::new(alloc, "number", DataType::Int64, true)?)?;
    fields.push(Field::new(alloc, "text", DataType::Utf8, true)?)?;
    Ok(DataType::Struct(fields))
}

fn record_children(alloc: Global, n: usize) -> Result<Vec<AnyArray>, Error> {
    let mut children = Vec::with_capacity(alloc, 2)?;
    children.push(numbers(alloc, n, false)?)?;
    children.push(texts(alloc, n)?)?;
    Ok(children)
}

/// Records of a number and a text.
pub fn records(alloc: Global, n: usize, nulls: bool) -> Result<AnyArray, Error> {
    let validity = validity(alloc, n, nulls)?;
    let children = record_children(alloc, n)?;
    match record_type(alloc) {
        Ok(data_type) => {
            let array = StructArray::try_new(data_type, children, validity)?;
            Ok(AnyArray::Struct(array))
        }
        Err(error) => {
            drop(children);
            drop(validity);
            Err(error)
        }
    }
}

/// The type of maps of such entries.
fn map_type(alloc: Global, entries: &AnyArray) -> Result<DataType, Error> {
    let entry_type = entries.data_type().clone(alloc)?;
    let field = Field::new(alloc, "entries", entry_type, false)?;
    Ok(DataType::Map(Box::new(alloc, field)?, false))
}

/// What n maps of so many entries each have beside their entries.
fn map_parts(
    alloc: Global,
    n: usize,
    size: usize,
    nulls: bool,
    entries: &AnyArray,
) -> Result<(DataType, OffsetsBuffer<i32>, Option<Bitmap>), Error> {
    let offsets = offsets(alloc, n, size)?;
    let validity = validity(alloc, n, nulls)?;
    let data_type = map_type(alloc, entries)?;
    Ok((data_type, offsets, validity))
}

/// n maps of so many entries from a number to a text each.
pub fn maps(alloc: Global, n: usize, size: usize, nulls: bool) -> Result<AnyArray, Error> {
    let entries = records(alloc, n.saturating_mul(size), false)?;
    match map_parts(alloc, n, size, nulls, &entries) {
        Ok((data_type, offsets, validity)) => {
            let array = MapArray::try_new(alloc, data_type, offsets, entries, validity)?;
            Ok(AnyArray::Map(array))
        }
        Err(error) => {
            drop(entries);
            Err(error)
        }
    }
}

/// Keys of 32 bits that name a thousand values in turn.
fn keys(alloc: Global, n: usize, nulls: bool) -> Result<AnyKeys, Error> {
    let mut keys = Vec::with_capacity(alloc, n)?;
    for i in 0..n {
        keys.push((i % 1000) as i32)?;
    }
    let keys = Buffer::from_vec(alloc, keys)?;
    let validity = validity(alloc, n, nulls)?;
    let array = PrimitiveArray::try_new(DataType::Int32, keys, validity)?;
    Ok(AnyKeys::Int32(array))
}

/// n strings by keys of 32 bits over a thousand of them.
pub fn texts_by_keys(alloc: Global, n: usize, nulls: bool) -> Result<AnyArray, Error> {
    let keys = keys(alloc, n, nulls)?;
    match texts(alloc, 1000) {
        Ok(values) => {
            let array = DictionaryArray::try_from_keys(alloc, keys, values)?;
            Ok(AnyArray::Dictionary(array))
        }
        Err(error) => {
            drop(keys);
            Err(error)
        }
    }
}

/// The types of n slots, which pick both fields in turn.
fn types(alloc: Global, n: usize) -> Result<Buffer<i8>, Error> {
    let mut types = Vec::with_capacity(alloc, n)?;
    for i in 0..n {
        types.push((i % 2) as i8)?;
    }
    Buffer::from_vec(alloc, types)
}

/// Each slot's offset in its field, of which every second slot is.
fn union_offsets(alloc: Global, n: usize) -> Result<Buffer<i32>, Error> {
    let mut offsets = Vec::with_capacity(alloc, n)?;
    for i in 0..n {
        offsets.push((i / 2 % 1_000_000_000) as i32)?;
    }
    Buffer::from_vec(alloc, offsets)
}

fn union_type(alloc: Global, mode: UnionMode) -> Result<DataType, Error> {
    let mut fields = Vec::with_capacity(alloc, 2)?;
    fields.push(Field::new(alloc, "number", DataType::Int64, true)?)?;
    fields.push(Field::new(alloc, "text", DataType::Utf8, true)?)?;
    Ok(DataType::Union(fields, None, mode))
}

/// n picks of a number and a text in turn, each field as long as the union.
pub fn sparse_unions(alloc: Global, n: usize) -> Result<AnyArray, Error> {
    let types = types(alloc, n)?;
    let data_type = union_type(alloc, UnionMode::Sparse)?;
    match record_children(alloc, n) {
        Ok(fields) => Ok(AnyArray::Union(UnionArray::try_new(data_type, types, fields, None)?)),
        Err(error) => {
            drop(data_type);
            Err(error)
        }
    }
}

/// n picks of a number and a text in turn, each field half as long as the union.
pub fn dense_unions(alloc: Global, n: usize) -> Result<AnyArray, Error> {
    let types = types(alloc, n)?;
    let offsets = union_offsets(alloc, n)?;
    let data_type = union_type(alloc, UnionMode::Dense)?;
    match record_children(alloc, n / 2 + 1) {
        Ok(fields) => {
            let array = UnionArray::try_new(data_type, types, fields, Some(offsets))?;
            Ok(AnyArray::Union(array))
        }
        Err(error) => {
            drop(data_type);
            Err(error)
        }
    }
}
