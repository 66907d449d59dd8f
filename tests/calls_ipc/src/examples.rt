//! Streams of other writers.
//!
//! Streams of other writers are read: one field and a batch, byte by byte, whole and batch by batch; all kinds of integers.
use crate::streams::{INTEGERS, WORKED};
use ipc::{SliceStreamReader, read_stream};
use ipc_flatbuf::batch::read_batch;
use ipc_flatbuf::message::{MessageKind, MetadataVersion, next_message};
use ipc_flatbuf::{BufferSpec, FieldNode, IpcReadError};
use ipc_schema::read_schema;
use nest_memory::datatypes::DataType;
use std::alloc::Global;

/// How many batches a stream has.
pub fn count_batches(alloc: Global, bytes: &[u8]) -> Result<usize, IpcReadError> {
    let stream = read_stream(alloc, bytes)?;
    Ok(stream.batches.len())
}

#[test]
fn byte_by_byte(rt: HostRuntime) {
    let alloc = rt.alloc();
    let (keyed, rest) = read_schema(alloc, &WORKED).expect(&rt, "no schema");
    let schema = &keyed.schema;
    assert!(rt; keyed.dictionaries.ids.is_empty() && keyed.dictionaries.named.len() == 0);
    assert!(rt; rest.len() == 296 - 128);
    assert!(rt; schema.metadata.len() == 0);
    assert!(rt; schema.fields.len() == 1);
    assert!(rt; schema.fields[0].name.as_str() == "a");
    assert!(rt; schema.fields[0].is_nullable);
    assert!(rt; schema.fields[0].data_type == DataType::Int32);
    let (message, rest) = next_message(rest).expect(&rt, "no message");
    let message = message.expect(&rt, "the end");
    assert!(rt; message.root.version == MetadataVersion::V5);
    assert!(rt; message.root.kind == MessageKind::RecordBatch);
    assert!(rt; message.body.len() == 16);
    assert!(rt; message.body[8] == 7);
    let root = message.root;
    let batch = read_batch(
        alloc,
        message.metadata,
        root.header,
        root.left,
        root.body_length,
    )
    .expect(&rt, "no batch");
    assert!(rt; batch.rows == 2);
    assert!(rt; batch.nodes.len() == 1);
    assert!(rt;
        batch.nodes[0]
            == FieldNode {
                length: 2,
                null_count: 1
            }
    );
    assert!(rt; batch.buffers.len() == 2);
    assert!(rt;
        batch.buffers[0]
            == BufferSpec {
                offset: 0,
                length: 1
            }
    );
    assert!(rt;
        batch.buffers[1]
            == BufferSpec {
                offset: 8,
                length: 8
            }
    );
    let (end, rest) = next_message(rest).expect(&rt, "no end");
    assert!(rt; end.is_none());
    assert!(rt; rest.len() == 0);
}

#[test]
fn all_kinds(rt: HostRuntime) {
    let alloc = rt.alloc();
    let (keyed, _rest) = read_schema(alloc, &INTEGERS).expect(&rt, "no schema");
    let schema = &keyed.schema;
    assert!(rt; schema.fields.len() == 8);
    assert!(rt; schema.fields[0].data_type == DataType::Int8);
    assert!(rt; schema.fields[3].data_type == DataType::Int64);
    assert!(rt; schema.fields[4].data_type == DataType::UInt8);
    assert!(rt; schema.fields[7].data_type == DataType::UInt64);
    assert!(rt; schema.fields[7].name.as_str() == "u8");
    assert!(rt; count_batches(alloc, &INTEGERS) == Ok(1));
    assert!(rt; count_batches(alloc, &WORKED) == Ok(1));
}

#[test]
fn whole(rt: HostRuntime) {
    let alloc = rt.alloc();
    let stream = read_stream(alloc, &WORKED).expect(&rt, "no stream");
    assert!(rt; stream.read == 296);
    assert!(rt; stream.schema.fields[0].name.as_str() == "a");
    assert!(rt; stream.batches.len() == 1);
    let batch = &stream.batches[0];
    assert!(rt; batch.rows == 2);
    assert!(rt; batch.columns.len() == 1);
    let column = &batch.columns[0];
    assert!(rt; *column.data_type() == DataType::Int32);
    assert!(rt; column.is_null(1));
    let numbers = column.as_primitive::<i32>().expect(&rt, "another kind");
    assert!(rt; numbers.value(0) == 7);
}

#[test]
fn batch_by_batch(rt: HostRuntime) {
    let alloc = rt.alloc();
    let mut reader = SliceStreamReader::new(alloc, &WORKED).expect(&rt, "no reader");
    assert!(rt; reader.schema().fields.len() == 1);
    let batch = reader.next_batch(alloc).expect(&rt, "an error");
    assert!(rt; batch.expect(&rt, "the end").rows == 2);
    for _ in 0..3 {
        assert!(rt; reader.next_batch(alloc).expect(&rt, "an error").is_none());
    }
}

#[test]
fn nothing_after_an_error(rt: HostRuntime) {
    let alloc = rt.alloc();
    let mut stream = WORKED;
    stream[174] = 1;
    let mut reader = SliceStreamReader::new(alloc, &stream).expect(&rt, "no reader");
    assert!(rt; reader.next_batch(alloc).err() == Some(IpcReadError::HeaderType));
    assert!(rt;
        reader
            .next_batch(alloc)
            .expect(&rt, "a second failure")
            .is_none()
    );
}
