//! Nested columns, written as a stream and read: all of them, and projected columns.

use crate::streams::{from_read_error, from_write_error};
use failed_allocations::failures::{Failure, Failures, expect};
use failed_allocations::parts::field;
use failed_allocations::samples::{
    lists_of_lists, map_array, records, single_numbers, union_array,
};
use ipc::{Batch, Stream, read_stream, read_stream_projected, write_stream};
use ipc_schema::{Projection, Schema};
use nest_array::any::AnyArray;
use nest_memory::datatypes::UnionMode;
use nest_memory::error::Error;
use std::alloc::Global;
use std::collections::BTreeMap;

/// Sliced maps, unions of both modes, lists of lists, fixed-size lists and records, of three rows each.
fn columns(alloc: Global) -> Result<Vec<AnyArray>, Error> {
    let records = records(alloc)?;
    let mut columns = Vec::with_capacity(alloc, 6)?;
    columns.push(map_array(alloc, &records)?.sliced(1, 3))?;
    columns.push(union_array(alloc, &records, UnionMode::Sparse)?)?;
    columns.push(union_array(alloc, &records, UnionMode::Dense)?)?;
    columns.push(lists_of_lists(alloc)?.boxed())?;
    columns.push(single_numbers(alloc)?)?;
    columns.push(records)?;
    Ok(columns)
}

fn schema(alloc: Global, columns: &[AnyArray]) -> Result<Schema, Error> {
    let mut fields = Vec::with_capacity(alloc, columns.len())?;
    for column in columns {
        fields.push(field(alloc, column.data_type().clone(alloc)?)?)?;
    }
    Ok(Schema {
        fields,
        metadata: BTreeMap::new(alloc),
    })
}

fn written(alloc: Global, columns: Vec<AnyArray>) -> Result<Vec<u8>, Error> {
    let schema = schema(alloc, &columns)?;
    let rows = columns[0].len();
    let mut batches = Vec::with_capacity(alloc, 1)?;
    batches.push(Batch { rows, columns })?;
    write_stream(alloc, &schema, &batches).map_err(from_write_error)
}

/// How many columns the first batch of a stream has.
fn count(stream: &Stream) -> usize {
    if stream.batches.len() == 1 {
        stream.batches[0].columns.len()
    } else {
        0
    }
}

/// How many columns are read of what was written, and how many of those at indices 1 and 3.
fn read_counts(alloc: Global) -> Result<(usize, usize), Error> {
    let bytes = written(alloc, columns(alloc)?)?;
    let whole = read_stream(alloc, &bytes).map_err(from_read_error)?;
    let some = read_stream_projected(alloc, &bytes, Projection::Indices(&[1, 3])).map_err(
        from_read_error,
    )?;
    Ok((count(&whole), count(&some)))
}

pub fn both_ways(failures: &mut Failures, alloc: Global) -> Result<(), Failure> {
    let (whole, some) = failures.retry(|| read_counts(alloc))?;
    expect(whole == 6 && some == 2, "another number of columns")
}
