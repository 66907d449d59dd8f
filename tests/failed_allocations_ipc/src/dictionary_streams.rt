//! A stream with a replacement dictionary and one with a delta dictionary: read whole, one record batch at a time, and without a
//! column.

use crate::streams::from_read_error;
use failed_allocations::failures::{Failure, Failures, expect};
use ipc::{SliceStreamReader, read_stream, read_stream_projected};
use ipc_schema::Projection;
use nest_array::any::AnyArray;
use nest_memory::error::Error;
use std::alloc::Global;

/// One field, by a dictionary of strings, and two batches of two rows, each after its values.
const STREAM: [u8; 864] = [
    255, 255, 255, 255, 144, 0, 0, 0, 16, 0, 0, 0, 10, 0, 11, 0, 8, 0, 10, 0, 4, 0, 0, 0, 12, 0, 0,
    0, 16, 0, 0, 0, 4, 0, 1, 0, 8, 0, 8, 0, 0, 0, 4, 0, 8, 0, 0, 0, 4, 0, 0, 0, 1, 0, 0, 0, 20, 0,
    0, 0, 16, 0, 21, 0, 4, 0, 0, 0, 20, 0, 8, 0, 12, 0, 16, 0, 16, 0, 0, 0, 20, 0, 0, 0, 28, 0, 0,
    0, 28, 0, 0, 0, 52, 0, 0, 0, 5, 0, 0, 0, 1, 0, 0, 0, 97, 0, 4, 0, 4, 0, 0, 0, 6, 0, 0, 0, 80,
    0, 0, 0, 12, 0, 0, 0, 8, 0, 9, 0, 4, 0, 8, 0, 8, 0, 0, 0, 32, 0, 0, 0, 1, 0, 0, 0, 0, 0, 0, 0,
    0, 0, 0, 0, 255, 255, 255, 255, 168, 0, 0, 0, 20, 0, 0, 0, 12, 0, 19, 0, 16, 0, 18, 0, 12, 0,
    4, 0, 0, 0, 0, 0, 16, 0, 0, 0, 24, 0, 0, 0, 0, 0, 0, 0, 16, 0, 0, 0, 4, 0, 2, 0, 8, 0, 8, 0, 0,
    0, 4, 0, 8, 0, 0, 0, 16, 0, 0, 0, 10, 0, 20, 0, 4, 0, 12, 0, 16, 0, 0, 0, 12, 0, 0, 0, 2, 0, 0,
    0, 0, 0, 0, 0, 12, 0, 0, 0, 32, 0, 0, 0, 0, 0, 0, 0, 1, 0, 0, 0, 2, 0, 0, 0, 0, 0, 0, 0, 0, 0,
    0, 0, 0, 0, 0, 0, 0, 0, 0, 0, 3, 0, 0, 0, 0, 0, 0, 0, 0, 0, 0, 0, 0, 0, 0, 0, 0, 0, 0, 0, 0, 0,
    0, 0, 0, 0, 0, 0, 12, 0, 0, 0, 0, 0, 0, 0, 16, 0, 0, 0, 0, 0, 0, 0, 2, 0, 0, 0, 0, 0, 0, 0, 0,
    0, 0, 0, 1, 0, 0, 0, 2, 0, 0, 0, 0, 0, 0, 0, 97, 98, 0, 0, 0, 0, 0, 0, 255, 255, 255, 255, 136,
    0, 0, 0, 20, 0, 0, 0, 12, 0, 19, 0, 16, 0, 18, 0, 12, 0, 4, 0, 0, 0, 0, 0, 16, 0, 0, 0, 8, 0,
    0, 0, 0, 0, 0, 0, 20, 0, 0, 0, 4, 0, 3, 0, 10, 0, 20, 0, 4, 0, 12, 0, 16, 0, 0, 0, 12, 0, 0, 0,
    2, 0, 0, 0, 0, 0, 0, 0, 12, 0, 0, 0, 32, 0, 0, 0, 0, 0, 0, 0, 1, 0, 0, 0, 2, 0, 0, 0, 0, 0, 0,
    0, 0, 0, 0, 0, 0, 0, 0, 0, 0, 0, 0, 0, 2, 0, 0, 0, 0, 0, 0, 0, 0, 0, 0, 0, 0, 0, 0, 0, 0, 0, 0,
    0, 0, 0, 0, 0, 0, 0, 0, 0, 8, 0, 0, 0, 0, 0, 0, 0, 0, 0, 0, 0, 1, 0, 0, 0, 255, 255, 255, 255,
    168, 0, 0, 0, 20, 0, 0, 0, 12, 0, 19, 0, 16, 0, 18, 0, 12, 0, 4, 0, 0, 0, 0, 0, 16, 0, 0, 0,
    24, 0, 0, 0, 0, 0, 0, 0, 16, 0, 0, 0, 4, 0, 2, 0, 8, 0, 8, 0, 0, 0, 4, 0, 8, 0, 0, 0, 16, 0, 0,
    0, 10, 0, 20, 0, 4, 0, 12, 0, 16, 0, 0, 0, 12, 0, 0, 0, 2, 0, 0, 0, 0, 0, 0, 0, 12, 0, 0, 0,
    32, 0, 0, 0, 0, 0, 0, 0, 1, 0, 0, 0, 2, 0, 0, 0, 0, 0, 0, 0, 0, 0, 0, 0, 0, 0, 0, 0, 0, 0, 0,
    0, 3, 0, 0, 0, 0, 0, 0, 0, 0, 0, 0, 0, 0, 0, 0, 0, 0, 0, 0, 0, 0, 0, 0, 0, 0, 0, 0, 0, 12, 0,
    0, 0, 0, 0, 0, 0, 16, 0, 0, 0, 0, 0, 0, 0, 2, 0, 0, 0, 0, 0, 0, 0, 0, 0, 0, 0, 1, 0, 0, 0, 2,
    0, 0, 0, 0, 0, 0, 0, 99, 100, 0, 0, 0, 0, 0, 0, 255, 255, 255, 255, 136, 0, 0, 0, 20, 0, 0, 0,
    12, 0, 19, 0, 16, 0, 18, 0, 12, 0, 4, 0, 0, 0, 0, 0, 16, 0, 0, 0, 8, 0, 0, 0, 0, 0, 0, 0, 20,
    0, 0, 0, 4, 0, 3, 0, 10, 0, 20, 0, 4, 0, 12, 0, 16, 0, 0, 0, 12, 0, 0, 0, 2, 0, 0, 0, 0, 0, 0,
    0, 12, 0, 0, 0, 32, 0, 0, 0, 0, 0, 0, 0, 1, 0, 0, 0, 2, 0, 0, 0, 0, 0, 0, 0, 0, 0, 0, 0, 0, 0,
    0, 0, 0, 0, 0, 0, 2, 0, 0, 0, 0, 0, 0, 0, 0, 0, 0, 0, 0, 0, 0, 0, 0, 0, 0, 0, 0, 0, 0, 0, 0, 0,
    0, 0, 8, 0, 0, 0, 0, 0, 0, 0, 0, 0, 0, 0, 1, 0, 0, 0, 255, 255, 255, 255, 0, 0, 0, 0,
];

/// The length of a vtable of the second values: 8, for two fields of the table after it.
const FIELDS: usize = 552;

/// The same stream, where the second values are after the first: with a third field, which the next two bytes index at a byte that
/// is not 0, they are a delta.
fn delta_stream() -> [u8; 864] {
    let mut bytes = STREAM;
    bytes[FIELDS] = 10;
    bytes
}

fn whole(alloc: Global, bytes: &[u8]) -> Result<usize, Error> {
    let stream = read_stream(alloc, bytes).map_err(from_read_error)?;
    Ok(stream.batches.len())
}

/// The rows of all batches of a reader.
fn one_by_one(alloc: Global, bytes: &[u8]) -> Result<usize, Error> {
    let mut reader = SliceStreamReader::new(alloc, bytes).map_err(from_read_error)?;
    let mut rows = 0;
    for _ in 0..3 {
        match reader.next_batch(alloc).map_err(from_read_error)? {
            None => {}
            Some(batch) => rows += batch.rows,
        }
    }
    Ok(rows)
}

fn passed(alloc: Global, bytes: &[u8]) -> Result<usize, Error> {
    let stream = read_stream_projected(alloc, bytes, Projection::Indices(&[])).map_err(
        from_read_error,
    )?;
    Ok(stream.batches.len())
}

fn read_each(failures: &mut Failures, alloc: Global, bytes: &[u8]) -> Result<(), Failure> {
    let batches = failures.retry(|| whole(alloc, bytes))?;
    expect(batches == 2, "another number of batches")?;
    let rows = failures.retry(|| one_by_one(alloc, bytes))?;
    expect(rows == 4, "another number of rows")?;
    let batches = failures.retry(|| passed(alloc, bytes))?;
    expect(batches == 2, "another number of batches without columns")
}

pub fn replaced(failures: &mut Failures, alloc: Global) -> Result<(), Failure> {
    read_each(failures, alloc, &STREAM)
}

/// How many values the columns of the second batch name.
fn count_values(alloc: Global, bytes: &[u8]) -> Result<usize, Error> {
    let stream = read_stream(alloc, bytes).map_err(from_read_error)?;
    Ok(match &stream.batches[1].columns[0] {
        AnyArray::Dictionary(array) => array.values().len(),
        _ => 0,
    })
}

pub fn delta(failures: &mut Failures, alloc: Global) -> Result<(), Failure> {
    let bytes = delta_stream();
    let values = failures.retry(|| count_values(alloc, &bytes))?;
    expect(values == 4, "another number of values")?;
    read_each(failures, alloc, &bytes)
}
