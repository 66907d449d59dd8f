//! Streams that are written to readers and writers.
//!
//! What is written to a stream, a byte at a time and interrupted, is what `write_stream` returns.
//!
//! A batch that cannot be written leaves the writer as it was; a stream that fails at any byte gets nothing more, and has a
//! beginning.
use crate::examples::{batch, batches, schema};
use crate::fake_io::Sink;
use ipc::{Batch, write_stream};
use ipc_flatbuf::IpcWriteError;
use ipc_io::{StreamWriter, WriteError};
use ipc_schema::Schema;
use nest_memory::datatypes::DataType;
use std::alloc::Global;
use std::io::ErrorKind;

fn stream_to(
    alloc: Global,
    sink: Sink,
    schema: &Schema,
    batches: &[Batch],
) -> Result<Sink, WriteError> {
    let mut writer = StreamWriter::new(alloc, sink, schema)?;
    for batch in batches {
        writer.write(alloc, batch)?;
    }
    writer.finish()
}

#[test]
fn the_bytes_of_a_stream(rt: HostRuntime) {
    let alloc = rt.alloc();
    let schema = schema(alloc, DataType::Int64).expect(&rt, "a schema");
    for count in 0..5usize {
        let batches = batches(alloc, count).expect(&rt, "batches");
        let bytes = write_stream(alloc, &schema, &batches).expect(&rt, "a stream");
        for most in [1usize, 7, 1000000] {
            let sink = Sink::new(alloc, most, usize::MAX);
            let sink = match stream_to(alloc, sink, &schema, &batches) {
                Ok(sink) => sink,
                Err(_) => return assert!(rt; false),
            };
            assert!(rt; sink.bytes == bytes);
            assert!(rt; sink.flushes == 1);
        }
    }
}

#[test]
fn a_batch_that_cannot_be_written(rt: HostRuntime) {
    let alloc = rt.alloc();
    let schema = schema(alloc, DataType::Int64).expect(&rt, "a schema");
    let good = batch(alloc, 1, 4).expect(&rt, "a batch");
    let mut bad = batch(alloc, 1, 4).expect(&rt, "a batch");
    bad.rows = 5;
    let mut sink = Sink::new(alloc, 9, usize::MAX);
    let mut writer = match StreamWriter::new(alloc, &mut sink, &schema) {
        Ok(writer) => writer,
        Err(_) => return assert!(rt; false),
    };
    assert!(rt;
        matches!(
            writer.write(alloc, &bad),
            Err(WriteError::Ipc(IpcWriteError::Columns))
        )
    );
    assert!(rt; !writer.is_failed());
    assert!(rt; writer.write(alloc, &good).is_ok());
    assert!(rt; writer.finish().is_ok());
    let mut want = Vec::new(alloc);
    assert!(rt; want.push(good).is_ok());
    let bytes = write_stream(alloc, &schema, &want).expect(&rt, "a stream");
    assert!(rt; sink.bytes == bytes);
}

// Whether a stream that fails at a byte gets nothing more, and holds a prefix of the bytes.
fn keeps_a_beginning(
    alloc: Global,
    schema: &Schema,
    batches: &[Batch],
    bytes: &[u8],
    fails_at: usize,
) -> bool {
    let mut sink = Sink::new(alloc, 5, fails_at);
    match StreamWriter::new(alloc, &mut sink, schema) {
        Err(WriteError::Io(e)) => {
            if e.kind() != ErrorKind::StorageFull {
                return false;
            }
        }
        Err(_) => return false,
        Ok(mut writer) => {
            let mut failed = false;
            for batch in batches {
                match writer.write(alloc, batch) {
                    Ok(()) => {
                        if failed {
                            return false;
                        }
                    }
                    Err(WriteError::Io(e)) => {
                        if failed || e.kind() != ErrorKind::StorageFull {
                            return false;
                        }
                        failed = true;
                    }
                    Err(WriteError::Failed) => {
                        if !failed {
                            return false;
                        }
                    }
                    Err(WriteError::Ipc(_)) => return false,
                }
                if writer.is_failed() != failed {
                    return false;
                }
            }
            match writer.finish() {
                Ok(_) => return false,
                Err(WriteError::Failed) => {
                    if !failed {
                        return false;
                    }
                }
                Err(_) => {
                    if failed {
                        return false;
                    }
                }
            }
        }
    }
    sink.bytes.len() == fails_at && bytes.starts_with(&sink.bytes)
}

#[test]
fn a_device_that_fails_at_each_byte(rt: HostRuntime) {
    let alloc = rt.alloc();
    let schema = schema(alloc, DataType::Int64).expect(&rt, "a schema");
    let batches = batches(alloc, 3).expect(&rt, "batches");
    let bytes = write_stream(alloc, &schema, &batches).expect(&rt, "a stream");
    for fails_at in 0..bytes.len() {
        assert!(rt; keeps_a_beginning(alloc, &schema, &batches, &bytes, fails_at));
    }
}

#[test]
fn a_schema_that_cannot_be_written(rt: HostRuntime) {
    let alloc = rt.alloc();
    let floats = schema(alloc, DataType::Float32).expect(&rt, "a schema");
    let mut sink = Sink::new(alloc, 5, usize::MAX);
    assert!(rt;
        matches!(
            StreamWriter::new(alloc, &mut sink, &floats),
            Err(WriteError::Ipc(IpcWriteError::Float))
        )
    );
    assert!(rt; sink.bytes.is_empty());
}
