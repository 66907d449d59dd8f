//! A file of two record batches with one dictionary, read from a `Read` and `Seek`. If reading a batch returns `Memory`, the reader
//! is unchanged and reads the batch again.

use crate::dictionaries_written::batches;
use crate::streams::{from_read_error, from_write_error};
use failed_allocations::failures::{Failure, Failures, expect};
use ipc::{Batch, write_file};
use ipc_io::{FileReader, ReadError};
use nest_memory::error::Error;
use std::alloc::Global;
use std::io::Cursor;

fn from_reader_error(e: ReadError) -> Error {
    match e {
        ReadError::Ipc(error) => from_read_error(error),
        ReadError::Io(_) => Error::NotYetImplemented,
    }
}

fn open(alloc: Global, bytes: &[u8]) -> Result<FileReader<Cursor<&[u8]>>, Error> {
    FileReader::new(alloc, Cursor::new(bytes)).map_err(from_reader_error)
}

/// Returns the batch at an index. If an allocation fails, the reader is unchanged, and reads it again.
fn batch_at(
    failures: &mut Failures,
    alloc: Global,
    reader: &mut FileReader<Cursor<&[u8]>>,
    i: usize,
) -> Result<Batch, Failure> {
    let outcome = reader.batch(alloc, i).map_err(from_reader_error);
    if failures.is_failure(&outcome)? {
        return Ok(reader.batch(alloc, i).map_err(from_reader_error)?);
    }
    Ok(outcome?)
}

/// Whether a file has these batches, read from the last to the first.
fn are_read(
    failures: &mut Failures,
    alloc: Global,
    bytes: &[u8],
    want: &[Batch],
) -> Result<bool, Failure> {
    let mut reader = failures.retry(|| open(alloc, bytes))?;
    if reader.len() != want.len() {
        return Ok(false);
    }
    for k in 0..want.len() {
        let i = want.len() - 1 - k;
        let batch = batch_at(failures, alloc, &mut reader, i)?;
        if batch.rows != want[i].rows || batch.columns[0] != want[i].columns[0] {
            return Ok(false);
        }
    }
    Ok(true)
}

pub fn read(failures: &mut Failures, alloc: Global) -> Result<(), Failure> {
    let (schema, batches) = failures.retry(|| batches(alloc, [b"ab", b"ab"]))?;
    let bytes = failures.retry(|| write_file(alloc, &schema, &batches).map_err(from_write_error))?;
    expect(
        are_read(failures, alloc, &bytes, &batches)?,
        "other batches",
    )
}
