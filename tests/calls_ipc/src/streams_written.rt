//! Streams that are written, and round-trip.
//!
//! Streams that are written, and round-trip: windows, nothing, streams of others, rows without columns; each reason not to.
use crate::samples::READ;
use crate::samples_read::bytes_of;
use crate::stream_text::text_of_stream;
use crate::streams::WORKED;
use ipc::{Batch, SliceStreamReader, read_stream, write_stream};
use ipc_flatbuf::{IpcReadError, IpcWriteError};
use ipc_schema::Schema;
use nest_array::any::AnyArray;
use nest_flat::any_primitive::AnyPrimitive;
use nest_flat::primitive::PrimitiveArray;
use nest_memory::bitmap::immutable::Bitmap;
use nest_memory::buffer::Buffer;
use nest_memory::datatypes::{DataType, Field};
use nest_memory::error::Error;
use std::alloc::Global;
use std::collections::BTreeMap;

fn next(state: u64) -> u64 {
    state
        .wrapping_mul(6364136223846793005)
        .wrapping_add(1442695040888963407)
}

// A column of 40 numbers that follow from a first one, cut; every fifth is null, or none.
fn column(alloc: Global, first: u64, start: usize, count: usize) -> Result<AnyArray, Error> {
    let mut state = first;
    let mut values = Vec::new(alloc);
    let mut valid = Vec::new(alloc);
    for _ in 0..40 {
        state = next(state);
        values.push(state.cast_signed())?;
        valid.push((state >> 40) % 5 != 0 || first % 3 == 0)?;
    }
    let values = Buffer::from_vec(alloc, values)?;
    let validity = Bitmap::from_bools(alloc, &valid)?;
    let array = PrimitiveArray::try_new(DataType::Int64, values, Some(validity))?;
    let cut = array.sliced(start, count);
    Ok(AnyArray::Primitive(AnyPrimitive::Int64(cut)))
}

// Columns `a` and `b` of numbers of 64 bits.
fn schema(alloc: Global, second: DataType) -> Result<Schema, Error> {
    let mut fields = Vec::new(alloc);
    fields.push(Field::new(alloc, "a", DataType::Int64, true)?)?;
    fields.push(Field::new(alloc, "b", second, false)?)?;
    Ok(Schema {
        fields,
        metadata: BTreeMap::new(alloc),
    })
}

fn batch(alloc: Global, first: u64, start: usize, rows: usize) -> Result<Batch, Error> {
    let mut columns = Vec::new(alloc);
    columns.push(column(alloc, first, start, rows)?)?;
    columns.push(column(alloc, first + 1, start + 1, rows)?)?;
    Ok(Batch { rows, columns })
}

fn batches(alloc: Global, count: usize) -> Result<Vec<Batch>, Error> {
    let mut batches = Vec::new(alloc);
    for i in 0..count {
        batches.push(batch(alloc, i as u64, 5 * i % 13, 7 * i % 20)?)?;
    }
    Ok(batches)
}

// Whether the reader returns just these batches, all bytes but those after the end mark read.
fn are_read(
    alloc: Global,
    bytes: &[u8],
    want: &[Batch],
    behind: usize,
) -> Result<bool, IpcReadError> {
    let stream = read_stream(alloc, bytes)?;
    if stream.batches.len() != want.len() || stream.read + behind != bytes.len() {
        return Ok(false);
    }
    for i in 0..want.len() {
        let (one, other) = (&stream.batches[i], &want[i]);
        if one.rows != other.rows || one.columns.len() != other.columns.len() {
            return Ok(false);
        }
        for k in 0..one.columns.len() {
            if one.columns[k] != other.columns[k] {
                return Ok(false);
            }
        }
    }
    Ok(true)
}

#[test]
fn batches_of_windows(rt: HostRuntime) {
    let alloc = rt.alloc();
    let schema = schema(alloc, DataType::Int64).expect(&rt, "a schema");
    for count in 0..12usize {
        let batches = batches(alloc, count).expect(&rt, "batches");
        let bytes = write_stream(alloc, &schema, &batches).expect(&rt, "a stream");
        assert!(rt; bytes.len() % 8 == 0);
        assert!(rt; are_read(alloc, &bytes, &batches, 0) == Ok(true));
    }
}

#[test]
fn bytes_after_the_end_are_not_read(rt: HostRuntime) {
    let alloc = rt.alloc();
    let schema = schema(alloc, DataType::Int64).expect(&rt, "a schema");
    let batches = batches(alloc, 3).expect(&rt, "batches");
    let mut bytes = write_stream(alloc, &schema, &batches).expect(&rt, "a stream");
    assert!(rt; bytes.extend_from_slice(&[1, 2, 3]).is_ok());
    assert!(rt; are_read(alloc, &bytes, &batches, 3) == Ok(true));
}

#[test]
fn batch_by_batch(rt: HostRuntime) {
    let alloc = rt.alloc();
    let schema = schema(alloc, DataType::Int64).expect(&rt, "a schema");
    let batches = batches(alloc, 4).expect(&rt, "batches");
    let bytes = write_stream(alloc, &schema, &batches).expect(&rt, "a stream");
    let mut reader = SliceStreamReader::new(alloc, &bytes).expect(&rt, "a reader");
    let mut count = 0;
    for _ in 0..6 {
        if let Some(batch) = reader.next_batch(alloc).expect(&rt, "a batch") {
            assert!(rt; batch.rows == batches[count].rows);
            count = count + 1;
        }
    }
    assert!(rt; count == 4);
}

// What a stream says, once it was read and written.
fn written_again(alloc: Global, bytes: &[u8]) -> Result<String, IpcReadError> {
    let stream = read_stream(alloc, bytes)?;
    match write_stream(alloc, &stream.schema, &stream.batches) {
        Ok(written) => text_of_stream(alloc, &written),
        Err(_) => Err(IpcReadError::Memory),
    }
}

#[test]
fn streams_of_others_are_written_again(rt: HostRuntime) {
    let alloc = rt.alloc();
    let mut count = 0;
    for sample in &READ {
        let bytes = bytes_of(alloc, sample).expect(&rt, "bytes");
        let again = written_again(alloc, &bytes).expect(&rt, "a stream");
        // What is after the end is not written.
        if !sample.text.contains("unread") {
            assert!(rt; again.as_str() == sample.text, "{}: {again}", sample.name);
            count = count + 1;
        }
    }
    assert!(rt; count > 5);
    let again = written_again(alloc, &WORKED).expect(&rt, "a stream");
    assert!(rt;
        again.as_str()
            == text_of_stream(alloc, &WORKED)
                .expect(&rt, "a text")
                .as_str()
    );
}

// The reason why two columns of 64 bits are not written under a schema, if there is one.
fn reason(alloc: Global, schema: &Schema, batch: Batch) -> Option<IpcWriteError> {
    match write_stream(alloc, schema, &[batch]) {
        Ok(_bytes) => None,
        Err(why) => Some(why),
    }
}

#[test]
fn columns_of_another_schema(rt: HostRuntime) {
    let alloc = rt.alloc();
    let both = schema(alloc, DataType::Int64).expect(&rt, "a schema");
    let mixed = schema(alloc, DataType::UInt64).expect(&rt, "a schema");
    let good = batch(alloc, 1, 2, 9).expect(&rt, "a batch");
    assert!(rt; reason(alloc, &both, good).is_none());
    let other_type = batch(alloc, 1, 2, 9).expect(&rt, "a batch");
    assert!(rt; reason(alloc, &mixed, other_type) == Some(IpcWriteError::Columns));
    let mut few = batch(alloc, 1, 2, 9).expect(&rt, "a batch");
    assert!(rt; few.columns.pop().is_some());
    assert!(rt; reason(alloc, &both, few) == Some(IpcWriteError::Columns));
    let mut many = batch(alloc, 1, 2, 9).expect(&rt, "a batch");
    let third = column(alloc, 5, 0, 9).expect(&rt, "a column");
    assert!(rt; many.columns.push(third).is_ok());
    assert!(rt; reason(alloc, &both, many) == Some(IpcWriteError::Columns));
    let mut short = batch(alloc, 1, 2, 9).expect(&rt, "a batch");
    short.rows = 8;
    assert!(rt; reason(alloc, &both, short) == Some(IpcWriteError::Columns));
}

#[test]
fn a_schema_that_cannot_be_written(rt: HostRuntime) {
    let alloc = rt.alloc();
    let floats = schema(alloc, DataType::Float32).expect(&rt, "a schema");
    let one = batch(alloc, 1, 2, 9).expect(&rt, "a batch");
    assert!(rt; reason(alloc, &floats, one) == Some(IpcWriteError::Float));
    let sizeless = schema(alloc, DataType::FixedSizeBinary(0)).expect(&rt, "a schema");
    let other = batch(alloc, 1, 2, 9).expect(&rt, "a batch");
    assert!(rt; reason(alloc, &sizeless, other) == Some(IpcWriteError::Type));
}

#[test]
fn rows_without_columns(rt: HostRuntime) {
    let alloc = rt.alloc();
    let empty = Schema {
        fields: Vec::new(alloc),
        metadata: BTreeMap::new(alloc),
    };
    for rows in [0usize, 7, 9223372036854775807] {
        let columns = Vec::new(alloc);
        let bytes = write_stream(alloc, &empty, &[Batch { rows, columns }]).expect(&rt, "a stream");
        let stream = read_stream(alloc, &bytes).expect(&rt, "a stream");
        assert!(rt; stream.batches[0].rows == rows && stream.batches[0].columns.is_empty());
    }
    let columns = Vec::new(alloc);
    let rows = 9223372036854775808;
    assert!(rt; reason(alloc, &empty, Batch { rows, columns }) == Some(IpcWriteError::Size));
}

// Numbers of 32 bits under an extension, cut, and a null among them.
fn extended(alloc: Global, text: Option<&str>) -> Result<PrimitiveArray<i32>, Error> {
    let name = String::from_str(alloc, "odd")?;
    let text = match text {
        None => None,
        Some(text) => Some(String::from_str(alloc, text)?),
    };
    let data_type = DataType::Extension(name, Box::new(alloc, DataType::Int32)?, text);
    let values = Buffer::from_vec(alloc, Vec::from_slice(alloc, &[9, -7, 0, i32::MAX])?)?;
    let validity = Bitmap::from_bools(alloc, &[true, true, false, true])?;
    let array = PrimitiveArray::try_new(data_type, values, Some(validity))?;
    Ok(array.sliced(1, 3))
}

fn extended_batch(alloc: Global, text: Option<&str>) -> Result<Batch, Error> {
    let mut columns = Vec::new(alloc);
    columns.push(AnyArray::Primitive(AnyPrimitive::Int32(extended(alloc, text)?)))?;
    Ok(Batch { rows: 3, columns })
}

fn extended_schema(alloc: Global, text: Option<&str>) -> Result<Schema, Error> {
    let mut fields = Vec::new(alloc);
    let data_type = extended(alloc, text)?.data_type().clone(alloc)?;
    fields.push(Field::new(alloc, "x", data_type, true)?)?;
    Ok(Schema {
        fields,
        metadata: BTreeMap::new(alloc),
    })
}

#[test]
fn columns_of_extensions(rt: HostRuntime) {
    let alloc = rt.alloc();
    for text in [None, Some(""), Some("of a test")] {
        let schema = extended_schema(alloc, text).expect(&rt, "a schema");
        let batches = [extended_batch(alloc, text).expect(&rt, "a batch")];
        let bytes = write_stream(alloc, &schema, &batches).expect(&rt, "a stream");
        assert!(rt; are_read(alloc, &bytes, &batches, 0) == Ok(true));
        let stream = read_stream(alloc, &bytes).expect(&rt, "a stream");
        assert!(rt; stream.schema.fields == schema.fields);
    }
    let other = extended_batch(alloc, Some("of another")).expect(&rt, "a batch");
    let schema = extended_schema(alloc, None).expect(&rt, "a schema");
    assert!(rt; reason(alloc, &schema, other) == Some(IpcWriteError::Columns));
}
