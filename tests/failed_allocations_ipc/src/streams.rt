//! A stream, read whole and one record batch at a time, and written as a stream and as a file, which is read; flat columns, written
//! into a body and read.

use failed_allocations::failures::{Failure, Failures, expect};
use ipc::{
    SliceFileReader, SliceStreamReader, read_file, read_stream, write_compressed_stream,
    write_file, write_stream,
};
use ipc_arrays::{BatchCursor, layout_columns, read_columns, write_columns};
use ipc_flatbuf::{IpcReadError, IpcWriteError};
use nest_array::nulls::new_null_array;
use nest_memory::datatypes::DataType;
use nest_memory::error::Error;
use std::alloc::{AllocError, Global};

/// One field, nullable, of 32 bits, and one batch of 7 and a null.
pub const STREAM: [u8; 296] = [
    255, 255, 255, 255, 120, 0, 0, 0, 16, 0, 0, 0, 10, 0, 11, 0, 8, 0, 10, 0, 4, 0, 0, 0, 12, 0, 0,
    0, 16, 0, 0, 0, 4, 0, 1, 0, 8, 0, 8, 0, 0, 0, 4, 0, 8, 0, 0, 0, 4, 0, 0, 0, 1, 0, 0, 0, 20, 0,
    0, 0, 16, 0, 18, 0, 4, 0, 16, 0, 17, 0, 8, 0, 0, 0, 12, 0, 16, 0, 0, 0, 16, 0, 0, 0, 28, 0, 0,
    0, 36, 0, 0, 0, 1, 2, 0, 0, 1, 0, 0, 0, 97, 0, 8, 0, 9, 0, 4, 0, 8, 0, 0, 0, 10, 0, 0, 0, 32,
    0, 0, 0, 1, 0, 0, 0, 0, 0, 0, 0, 255, 255, 255, 255, 136, 0, 0, 0, 20, 0, 0, 0, 12, 0, 19, 0,
    16, 0, 18, 0, 12, 0, 4, 0, 0, 0, 0, 0, 16, 0, 0, 0, 16, 0, 0, 0, 0, 0, 0, 0, 20, 0, 0, 0, 4, 0,
    3, 0, 10, 0, 20, 0, 4, 0, 12, 0, 16, 0, 0, 0, 12, 0, 0, 0, 2, 0, 0, 0, 0, 0, 0, 0, 12, 0, 0, 0,
    32, 0, 0, 0, 0, 0, 0, 0, 1, 0, 0, 0, 2, 0, 0, 0, 0, 0, 0, 0, 1, 0, 0, 0, 0, 0, 0, 0, 0, 0, 0,
    0, 2, 0, 0, 0, 0, 0, 0, 0, 0, 0, 0, 0, 1, 0, 0, 0, 0, 0, 0, 0, 8, 0, 0, 0, 0, 0, 0, 0, 8, 0, 0,
    0, 0, 0, 0, 0, 1, 0, 0, 0, 0, 0, 0, 0, 7, 0, 0, 0, 0, 0, 0, 0, 255, 255, 255, 255, 0, 0, 0, 0,
];

pub fn from_read_error(error: IpcReadError) -> Error {
    match error {
        IpcReadError::Memory => Error::Memory(AllocError),
        _ => Error::NotYetImplemented,
    }
}

pub fn from_write_error(error: IpcWriteError) -> Error {
    match error {
        IpcWriteError::Memory => Error::Memory(AllocError),
        _ => Error::NotYetImplemented,
    }
}

fn whole(alloc: Global) -> Result<usize, Error> {
    let stream = read_stream(alloc, &STREAM).map_err(from_read_error)?;
    Ok(stream.batches.len())
}

/// How many bytes the stream has, once it was read and written.
fn written(alloc: Global) -> Result<usize, Error> {
    let stream = read_stream(alloc, &STREAM).map_err(from_read_error)?;
    let bytes = write_stream(alloc, &stream.schema, &stream.batches).map_err(from_write_error)?;
    Ok(bytes.len())
}

/// How many batches are read of the stream, once it was written compressed.
fn compressed(alloc: Global) -> Result<usize, Error> {
    let stream = read_stream(alloc, &STREAM).map_err(from_read_error)?;
    let bytes = write_compressed_stream(alloc, &stream.schema, &stream.batches).map_err(
        from_write_error,
    )?;
    let again = read_stream(alloc, &bytes).map_err(from_read_error)?;
    Ok(again.batches.len())
}

/// How many batches the file of the stream has, and how many rows the first of them has.
fn filed(alloc: Global) -> Result<(usize, usize), Error> {
    let stream = read_stream(alloc, &STREAM).map_err(from_read_error)?;
    let bytes = write_file(alloc, &stream.schema, &stream.batches).map_err(from_write_error)?;
    let file = read_file(alloc, &bytes).map_err(from_read_error)?;
    let reader = SliceFileReader::new(alloc, &bytes).map_err(from_read_error)?;
    let batch = reader.batch(alloc, 0).map_err(from_read_error)?;
    Ok((file.batches.len(), batch.rows))
}

/// The rows of the first batch of a reader. After an error there is no batch.
fn first_batch(alloc: Global) -> Result<usize, Error> {
    let mut reader = SliceStreamReader::new(alloc, &STREAM).map_err(from_read_error)?;
    match reader.next_batch(alloc) {
        Ok(None) => Ok(0),
        Ok(Some(batch)) => Ok(batch.rows),
        Err(error) => match reader.next_batch(alloc).map_err(from_read_error)? {
            None => Err(from_read_error(error)),
            Some(_batch) => Ok(0),
        },
    }
}

/// How many columns are read of a body, once they were written: three nulls of each flat kind.
fn columns(alloc: Global) -> Result<usize, Error> {
    let types = [
        DataType::Null,
        DataType::Boolean,
        DataType::Decimal256(9, 2),
        DataType::FixedSizeBinary(5),
        DataType::Binary,
        DataType::LargeUtf8,
    ];
    let mut columns = Vec::new(alloc);
    for data_type in &types {
        columns.push(new_null_array(alloc, data_type.clone(alloc)?, 3)?)?;
    }
    let placed = layout_columns(alloc, &columns).map_err(from_write_error)?;
    let mut body = Vec::new(alloc);
    write_columns(&mut body, &columns).map_err(from_write_error)?;
    let left = BatchCursor {
        nodes: &placed.nodes,
        buffers: &placed.buffers,
        dictionaries: &[],
    };
    let read = read_columns(alloc, &types, 3, &body, left).map_err(from_read_error)?;
    Ok(read.len())
}

pub fn both_ways(failures: &mut Failures, alloc: Global) -> Result<(), Failure> {
    let batches = failures.retry(|| whole(alloc))?;
    expect(batches == 1, "another number of batches")?;
    let rows = failures.retry(|| first_batch(alloc))?;
    expect(rows == 2, "another number of rows")?;
    let bytes = failures.retry(|| written(alloc))?;
    expect(bytes > 0 && bytes % 8 == 0, "another number of bytes")?;
    let batches = failures.retry(|| compressed(alloc))?;
    expect(batches == 1, "another number of compressed batches")?;
    let (batches, rows) = failures.retry(|| filed(alloc))?;
    expect(batches == 1 && rows == 2, "another file")?;
    let read = failures.retry(|| columns(alloc))?;
    expect(read == 6, "another number of columns")
}
