//! The batches that are measured, of one column each. Values with a data type are dropped by `drop`, which keeps the proofs
//! short.
use ipc::Batch;
use ipc_schema::Schema;
use nest_array::{AnyArray, AnyKeys, DictionaryArray, ListArray, StructArray};
use nest_flat::any_primitive::AnyPrimitive;
use nest_flat::primitive::PrimitiveArray;
use nest_flat::utf8::Utf8Array;
use nest_memory::bitmap::immutable::Bitmap;
use nest_memory::bitmap::mutable::MutableBitmap;
use nest_memory::buffer::Buffer;
use nest_memory::datatypes::DataType;
use nest_memory::datatypes::field::Field;
use nest_memory::error::Error;
use nest_memory::offsets::{Offsets, OffsetsBuffer};
use std::alloc::Global;
use std::collections::BTreeMap;

const TEXT: [u8; 8] = *b"nineteen";

/// One field of the type of a column.
pub fn schema(alloc: Global, column: &AnyArray) -> Result<Schema, Error> {
    let mut fields = Vec::with_capacity(alloc, 1)?;
    let data_type = column.data_type().clone(alloc)?;
    fields.push(Field::new(alloc, "column", data_type, true)?)?;
    Ok(Schema {
        fields,
        metadata: BTreeMap::new(alloc),
    })
}

/// A batch of the column.
pub fn batch(alloc: Global, column: AnyArray) -> Result<Batch, Error> {
    let rows = column.len();
    let mut columns = Vec::new(alloc);
    columns.push(column)?;
    Ok(Batch { rows, columns })
}

fn values(alloc: Global, n: usize) -> Result<Buffer<i64>, Error> {
    let mut values = Vec::with_capacity(alloc, n)?;
    for i in 0..n {
        values.push(i as i64)?;
    }
    Buffer::from_vec(alloc, values)
}

fn numbers_under(alloc: Global, n: usize, validity: Option<Bitmap>) -> Result<AnyArray, Error> {
    let array = PrimitiveArray::try_new(DataType::Int64, values(alloc, n)?, validity)?;
    Ok(AnyArray::Primitive(AnyPrimitive::Int64(array)))
}

/// So many numbers.
pub fn numbers(alloc: Global, n: usize) -> Result<AnyArray, Error> {
    numbers_under(alloc, n, None)
}

/// So many, of which every third is null.
pub fn with_nulls(alloc: Global, n: usize) -> Result<AnyArray, Error> {
    let mut bits = MutableBitmap::new(alloc);
    for i in 0..n {
        bits.push(i % 3 != 0)?;
    }
    numbers_under(alloc, n, Some(bits.freeze()?))
}

/// The offsets of n slots of eight items each.
fn offsets(alloc: Global, n: usize) -> Result<OffsetsBuffer<i32>, Error> {
    let mut offsets = Offsets::new(alloc)?;
    for _ in 0..n {
        offsets.try_push_usize(TEXT.len())?;
    }
    offsets.freeze()
}

/// Strings of eight bytes.
pub fn texts(alloc: Global, n: usize) -> Result<AnyArray, Error> {
    let mut bytes = Vec::new(alloc);
    for _ in 0..n {
        bytes.extend_from_slice(&TEXT)?;
    }
    let bytes = Buffer::from_vec(alloc, bytes)?;
    let array = Utf8Array::try_new(DataType::Utf8, offsets(alloc, n)?, bytes, None)?;
    Ok(AnyArray::Utf8(array))
}

/// Lists of eight numbers.
pub fn lists(alloc: Global, n: usize) -> Result<AnyArray, Error> {
    let offsets = offsets(alloc, n)?;
    let data_type = ListArray::default_datatype(alloc, DataType::Int64)?;
    match numbers(alloc, n.saturating_mul(TEXT.len())) {
        Ok(items) => {
            let array = ListArray::try_new(alloc, data_type, offsets, items, None)?;
            Ok(AnyArray::List(array))
        }
        Err(error) => {
            drop(data_type);
            Err(error)
        }
    }
}

fn fields(alloc: Global) -> Result<Vec<Field>, Error> {
    let mut fields = Vec::with_capacity(alloc, 2)?;
    fields.push(Field::new(alloc, "number", DataType::Int64, true)?)?;
    fields.push(Field::new(alloc, "text", DataType::Utf8, true)?)?;
    Ok(fields)
}

fn children(alloc: Global, n: usize) -> Result<Vec<AnyArray>, Error> {
    let mut children = Vec::with_capacity(alloc, 2)?;
    match numbers(alloc, n) {
        Ok(array) => children.push(array)?,
        Err(error) => return Err(error),
    }
    match texts(alloc, n) {
        Ok(array) => children.push(array)?,
        Err(error) => return Err(error),
    }
    Ok(children)
}

/// Records of a number and a text.
pub fn records(alloc: Global, n: usize) -> Result<AnyArray, Error> {
    let fields = fields(alloc)?;
    match children(alloc, n) {
        Ok(children) => {
            let array = StructArray::try_new(DataType::Struct(fields), children, None)?;
            Ok(AnyArray::Struct(array))
        }
        Err(error) => {
            drop(fields);
            Err(error)
        }
    }
}

fn keys(alloc: Global, n: usize) -> Result<AnyKeys, Error> {
    let mut keys = Vec::with_capacity(alloc, n)?;
    for i in 0..n {
        keys.push((i % (1 << 31)) as i32)?;
    }
    let keys = PrimitiveArray::try_new(DataType::Int32, Buffer::from_vec(alloc, keys)?, None)?;
    Ok(AnyKeys::Int32(keys))
}

/// Strings of eight bytes by keys of 32 bits, one for each key.
pub fn keyed(alloc: Global, n: usize) -> Result<AnyArray, Error> {
    let keys = keys(alloc, n)?;
    match texts(alloc, n) {
        Ok(texts) => {
            let array = DictionaryArray::try_from_keys(alloc, keys, texts)?;
            Ok(AnyArray::Dictionary(array))
        }
        Err(error) => Err(error),
    }
}
