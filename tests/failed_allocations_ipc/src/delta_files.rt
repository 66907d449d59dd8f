//! A file of two record batches with a delta dictionary, written to a `Write`. If writing a batch returns `Memory`, the writer is
//! unchanged and writes the batch again, or it has failed, and another writer writes all batches.

use crate::streams::{from_read_error, from_write_error};
use failed_allocations::failures::{Failure, Failures, expect};
use ipc::{Batch, read_file, write_file};
use ipc_io::{FileWriter, WriteError};
use ipc_schema::Schema;
use nest_array::{AnyArray, AnyKeys, DictionaryArray};
use nest_flat::primitive::PrimitiveArray;
use nest_flat::utf8::Utf8Array;
use nest_memory::datatypes::Field;
use nest_memory::error::Error;
use std::alloc::{AllocError, Global};
use std::collections::BTreeMap;
use std::io::ErrorKind;

/// The second of some words, and the first.
fn batch(alloc: Global, texts: &[&str]) -> Result<Batch, Error> {
    let words = AnyArray::Utf8(Utf8Array::from_slice(alloc, texts)?);
    let keys = AnyKeys::Int8(PrimitiveArray::from_slice(alloc, &[1i8, 0])?);
    let column = DictionaryArray::try_from_keys(alloc, keys, words)?.boxed();
    let columns = vec![in alloc; column]?;
    Ok(Batch { rows: 2, columns })
}

fn batches(alloc: Global) -> Result<(Schema, Vec<Batch>), Error> {
    let first = batch(alloc, &["a", "b"])?;
    let second = batch(alloc, &["a", "b", "c"])?;
    let data_type = first.columns[0].data_type().clone(alloc)?;
    let fields = vec![in alloc; Field::new(alloc, "a", data_type, true)?]?;
    let metadata = BTreeMap::new(alloc);
    let batches = vec![in alloc; first, second]?;
    Ok((Schema { fields, metadata }, batches))
}

fn from_writer_error(e: WriteError) -> Error {
    match e {
        WriteError::Ipc(error) => from_write_error(error),
        WriteError::Io(e) if e.kind() == ErrorKind::OutOfMemory => Error::Memory(AllocError),
        WriteError::Io(_) => Error::NotYetImplemented,
        WriteError::Failed => Error::NotYetImplemented,
    }
}

/// Writes a batch, again if an allocation fails. Returns whether the writer continues.
fn write_batch(
    failures: &mut Failures,
    alloc: Global,
    writer: &mut FileWriter<Vec<u8>>,
    batch: &Batch,
) -> Result<bool, Failure> {
    let outcome = writer.write(alloc, batch).map_err(from_writer_error);
    if !failures.is_failure(&outcome)? {
        outcome?;
        return Ok(true);
    }
    if writer.is_failed() {
        return Ok(false);
    }
    writer.write(alloc, batch).map_err(from_writer_error)?;
    Ok(true)
}

/// Returns the bytes of a file, or none if its writer failed or an allocation of its end failed.
fn file_of(
    failures: &mut Failures,
    alloc: Global,
    schema: &Schema,
    batches: &[Batch],
) -> Result<Option<Vec<u8>>, Failure> {
    let begun = || FileWriter::new(alloc, Vec::new(alloc), schema).map_err(from_writer_error);
    let mut writer = failures.retry(begun)?;
    for batch in batches {
        if !write_batch(failures, alloc, &mut writer, batch)? {
            return Ok(None);
        }
    }
    let outcome = writer.finish(alloc).map_err(from_writer_error);
    if failures.is_failure(&outcome)? {
        return Ok(None);
    }
    Ok(Some(outcome?))
}

pub fn written(failures: &mut Failures, alloc: Global) -> Result<(), Failure> {
    let (schema, batches) = failures.retry(|| batches(alloc))?;
    let want = failures.retry(|| write_file(alloc, &schema, &batches).map_err(from_write_error))?;
    let bytes = match file_of(failures, alloc, &schema, &batches)? {
        Some(bytes) => Some(bytes),
        None => file_of(failures, alloc, &schema, &batches)?,
    };
    expect(bytes == Some(want), "other bytes")?;
    let bytes = bytes.unwrap_or(Vec::new(alloc));
    let file = failures.retry(|| read_file(alloc, &bytes).map_err(from_read_error))?;
    let same = file.batches[0].columns[0] == batches[0].columns[0]
        && file.batches[1].columns[0] == batches[1].columns[0];
    expect(same, "other batches")
}
