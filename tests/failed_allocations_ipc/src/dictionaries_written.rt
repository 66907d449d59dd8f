//! Dictionaries of records with a dictionary, in two record batches: a stream with a replacement dictionary, a file with one
//! dictionary, a file with a replacement dictionary, which cannot be written, and a file with a delta dictionary.

use crate::streams::{from_read_error, from_write_error};
use failed_allocations::failures::{Failure, Failures, expect};
use failed_allocations::parts::{buffer, field, offsets};
use ipc::{Batch, SliceFileReader, read_file, read_stream, write_file, write_stream};
use ipc_flatbuf::IpcWriteError;
use ipc_schema::Schema;
use nest_array::{AnyArray, AnyKeys, DictionaryArray, StructArray};
use nest_flat::primitive::PrimitiveArray;
use nest_flat::utf8::Utf8Array;
use nest_memory::datatypes::DataType;
use nest_memory::error::Error;
use std::alloc::Global;
use std::collections::BTreeMap;

/// Words of a letter each, three at most.
fn words(alloc: Global, letters: &[u8]) -> Result<AnyArray, Error> {
    let ends = offsets(alloc, &[0i32, 1, 2, 3][..letters.len() + 1])?;
    Ok(AnyArray::Utf8(Utf8Array::try_new(DataType::Utf8, ends, buffer(alloc, letters)?, None)?))
}

/// Values by keys of 8 bits.
fn dictionary(alloc: Global, keys: &[i8], values: AnyArray) -> Result<AnyArray, Error> {
    let keys = PrimitiveArray::try_new(DataType::Int8, buffer(alloc, keys)?, None)?;
    Ok(DictionaryArray::try_from_keys(alloc, AnyKeys::Int8(keys), values)?.boxed())
}

/// The last and the first of the records of words.
fn column(alloc: Global, letters: &[u8]) -> Result<AnyArray, Error> {
    let last = letters.len() as i8 - 1;
    let inner = dictionary(alloc, &[1, 0, 2][..letters.len()], words(alloc, letters)?)?;
    let mut fields = Vec::with_capacity(alloc, 1)?;
    fields.push(field(alloc, inner.data_type().clone(alloc)?)?)?;
    let children = vec![in alloc; inner]?;
    let records = StructArray::try_new(DataType::Struct(fields), children, None)?;
    dictionary(alloc, &[last, 0], records.boxed())
}

/// Two batches, and their schema.
pub fn batches(alloc: Global, letters: [&[u8]; 2]) -> Result<(Schema, Vec<Batch>), Error> {
    let mut batches = Vec::with_capacity(alloc, 2)?;
    for letters in letters {
        let columns = vec![in alloc; column(alloc, letters)?]?;
        batches.push(Batch { rows: 2, columns })?;
    }
    let data_type = batches[0].columns[0].data_type().clone(alloc)?;
    let mut fields = Vec::with_capacity(alloc, 1)?;
    fields.push(field(alloc, data_type)?)?;
    let metadata = BTreeMap::new(alloc);
    Ok((Schema { fields, metadata }, batches))
}

/// Whether what is read is what was written.
fn are_same(read: &[Batch], want: &[Batch]) -> bool {
    read.len() == 2
        && read[0].columns[0] == want[0].columns[0]
        && read[1].columns[0] == want[1].columns[0]
}

/// Whether a stream with a replacement dictionary round-trips.
fn stream(alloc: Global) -> Result<bool, Error> {
    let (schema, batches) = batches(alloc, [b"ab", b"cd"])?;
    let bytes = write_stream(alloc, &schema, &batches).map_err(from_write_error)?;
    let stream = read_stream(alloc, &bytes).map_err(from_read_error)?;
    Ok(are_same(&stream.batches, &batches))
}

/// Whether a file with one dictionary, or a delta dictionary, round-trips, and its second batch by itself.
fn file(alloc: Global, letters: [&[u8]; 2]) -> Result<bool, Error> {
    let (schema, batches) = batches(alloc, letters)?;
    let bytes = write_file(alloc, &schema, &batches).map_err(from_write_error)?;
    let file = read_file(alloc, &bytes).map_err(from_read_error)?;
    let reader = SliceFileReader::new(alloc, &bytes).map_err(from_read_error)?;
    let second = reader.batch(alloc, 1).map_err(from_read_error)?;
    Ok(are_same(&file.batches, &batches) && second.columns[0] == batches[1].columns[0])
}

/// Whether a file with a replacement dictionary cannot be written.
fn is_rejected(alloc: Global) -> Result<bool, Error> {
    let (schema, batches) = batches(alloc, [b"ab", b"cd"])?;
    match write_file(alloc, &schema, &batches) {
        Ok(_file) => Ok(false),
        Err(IpcWriteError::DictionaryReplacement) => Ok(true),
        Err(error) => Err(from_write_error(error)),
    }
}

pub fn streams(failures: &mut Failures, alloc: Global) -> Result<(), Failure> {
    expect(failures.retry(|| stream(alloc))?, "another stream")
}

pub fn files(failures: &mut Failures, alloc: Global) -> Result<(), Failure> {
    let same = failures.retry(|| file(alloc, [b"ab", b"ab"]))?;
    expect(same, "another file")?;
    expect(
        failures.retry(|| is_rejected(alloc))?,
        "a file of two dictionaries of one id",
    )
}

pub fn delta(failures: &mut Failures, alloc: Global) -> Result<(), Failure> {
    let same = failures.retry(|| file(alloc, [b"ab", b"abc"]))?;
    expect(same, "another file")
}
