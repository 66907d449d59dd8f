//! Columns by dictionaries, short ones: words of a letter, keys of a digit, `-` a null.
use ipc::Batch;
use ipc_schema::Schema;
use nest_array::any::AnyArray;
use nest_array::{
    AnyKeys, DictionaryArray, DictionaryKey, ListArray, MapArray, StructArray, UnionArray,
};
use nest_flat::primitive::PrimitiveArray;
use nest_flat::utf8::mutable::MutableUtf8Array;
use nest_memory::bitmap::immutable::Bitmap;
use nest_memory::buffer::Buffer;
use nest_memory::datatypes::{DataType, Field, IntegerType, UnionMode};
use nest_memory::error::Error;
use nest_memory::offsets::OffsetsBuffer;
use std::alloc::Global;
use std::collections::BTreeMap;

/// A word of each letter.
pub fn words(alloc: Global, letters: &str) -> Result<AnyArray, Error> {
    let mut builder = MutableUtf8Array::<i32>::new(alloc)?;
    for i in 0..letters.len() {
        let letter = &letters[i..i + 1];
        builder.try_push((letter != "-").then_some(letter))?;
    }
    builder.freeze().map(|texts| AnyArray::Utf8(texts))
}

fn keys_of<K: DictionaryKey + Drop>(
    alloc: Global,
    places: &[Option<usize>],
) -> Result<PrimitiveArray<K>, Error> {
    let mut raw = Vec::new(alloc);
    let mut valid = Vec::new(alloc);
    for index in places {
        raw.push(K::from_index(index.unwrap_or(0)).ok_or(Error::Overflow)?)?;
        valid.push(index.is_some())?;
    }
    let values = Buffer::from_vec(alloc, raw)?;
    let validity = Bitmap::from_bools(alloc, &valid)?;
    PrimitiveArray::try_new(DataType::from(K::KEY_TYPE), values, Some(validity))
}

/// Keys of a width that name indices.
pub fn any_keys(
    alloc: Global,
    key: IntegerType,
    places: &[Option<usize>],
) -> Result<AnyKeys, Error> {
    Ok(match key {
        IntegerType::Int8 => AnyKeys::Int8(keys_of(alloc, places)?),
        IntegerType::Int16 => AnyKeys::Int16(keys_of(alloc, places)?),
        IntegerType::Int32 => AnyKeys::Int32(keys_of(alloc, places)?),
        IntegerType::Int64 => AnyKeys::Int64(keys_of(alloc, places)?),
        IntegerType::UInt8 => AnyKeys::UInt8(keys_of(alloc, places)?),
        IntegerType::UInt16 => AnyKeys::UInt16(keys_of(alloc, places)?),
        IntegerType::UInt32 => AnyKeys::UInt32(keys_of(alloc, places)?),
        IntegerType::UInt64 => AnyKeys::UInt64(keys_of(alloc, places)?),
    })
}

// A index of each digit.
fn places_of(alloc: Global, digits: &str) -> Result<Vec<Option<usize>>, Error> {
    let mut places = Vec::new(alloc);
    for digit in digits.as_bytes() {
        places.push((*digit != b'-').then_some((*digit).wrapping_sub(b'0') as usize))?;
    }
    Ok(places)
}

/// Values by keys of a width.
pub fn by(
    alloc: Global,
    key: IntegerType,
    digits: &str,
    values: AnyArray,
) -> Result<AnyArray, Error> {
    let keys = any_keys(alloc, key, &places_of(alloc, digits)?)?;
    Ok(AnyArray::Dictionary(DictionaryArray::try_from_keys(alloc, keys, values)?))
}

/// Values by keys of 8 bits.
pub fn keyed(alloc: Global, digits: &str, values: AnyArray) -> Result<AnyArray, Error> {
    by(alloc, IntegerType::Int8, digits, values)
}

/// Words by keys of 8 bits.
pub fn dictionary_of_strings(
    alloc: Global,
    digits: &str,
    letters: &str,
) -> Result<AnyArray, Error> {
    keyed(alloc, digits, words(alloc, letters)?)
}

fn field(alloc: Global, array: &AnyArray) -> Result<Field, Error> {
    Field::new(alloc, "f", array.data_type().clone(alloc)?, true)
}

fn fields(alloc: Global, arrays: &[AnyArray]) -> Result<Vec<Field>, Error> {
    let mut fields = Vec::new(alloc);
    for array in arrays {
        fields.push(field(alloc, array)?)?;
    }
    Ok(fields)
}

pub fn record(alloc: Global, children: Vec<AnyArray>) -> Result<AnyArray, Error> {
    let data_type = DataType::Struct(fields(alloc, &children)?);
    Ok(AnyArray::Struct(StructArray::try_new(data_type, children, None)?))
}

fn offsets(alloc: Global, ends: &[i32]) -> Result<OffsetsBuffer<i32>, Error> {
    OffsetsBuffer::try_new(alloc, Vec::from_slice(alloc, ends)?)
}

pub fn list(alloc: Global, ends: &[i32], items: AnyArray) -> Result<AnyArray, Error> {
    let data_type = DataType::List(Box::new(alloc, field(alloc, &items)?)?);
    Ok(AnyArray::List(ListArray::try_new(alloc, data_type, offsets(alloc, ends)?, items, None)?))
}

/// Maps whose entries are records of two.
pub fn map(alloc: Global, ends: &[i32], entries: AnyArray) -> Result<AnyArray, Error> {
    let data_type = DataType::Map(Box::new(alloc, field(alloc, &entries)?)?, false);
    Ok(AnyArray::Map(MapArray::try_new(alloc, data_type, offsets(alloc, ends)?, entries, None)?))
}

/// Unions of children at the same index.
pub fn union(alloc: Global, kinds: &[i8], children: Vec<AnyArray>) -> Result<AnyArray, Error> {
    let data_type = DataType::Union(fields(alloc, &children)?, None, UnionMode::Sparse);
    let kinds = Buffer::from_vec(alloc, Vec::from_slice(alloc, kinds)?)?;
    Ok(AnyArray::Union(UnionArray::try_new(data_type, kinds, children, None)?))
}

/// The schema of columns.
pub fn schema_of(alloc: Global, columns: &[AnyArray]) -> Result<Schema, Error> {
    Ok(Schema {
        fields: fields(alloc, columns)?,
        metadata: BTreeMap::new(alloc),
    })
}

/// A batch of columns, at least one.
pub fn batch(columns: Vec<AnyArray>) -> Batch {
    Batch {
        rows: columns[0].len(),
        columns,
    }
}

/// A batch of one column.
pub fn single(alloc: Global, column: AnyArray) -> Result<Batch, Error> {
    Ok(batch(vec![in alloc; column]?))
}
