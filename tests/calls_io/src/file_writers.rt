//! Files that are written to readers and writers.
//!
//! The same of files beside `write_file`, after what the stream had too; rejected batches between others are in no block; a
//! stream that fails in `flush`, or takes no byte.
use crate::examples::{batch, batches, schema};
use crate::fake_io::Sink;
use ipc::{Batch, SliceFileReader, read_file, write_file};
use ipc_flatbuf::IpcWriteError;
use ipc_io::{FileWriter, WriteError};
use ipc_schema::Schema;
use nest_memory::datatypes::DataType;
use std::alloc::Global;
use std::io::ErrorKind;

fn file_to<'a>(
    alloc: Global,
    sink: &'a mut Sink,
    schema: &Schema,
    batches: &[Batch],
) -> Result<&'a mut Sink, WriteError> {
    let mut writer = FileWriter::new(alloc, sink, schema)?;
    for batch in batches {
        writer.write(alloc, batch)?;
    }
    writer.finish(alloc)
}

#[test]
fn the_bytes_of_a_file(rt: HostRuntime) {
    let alloc = rt.alloc();
    let schema = schema(alloc, DataType::Int64).expect(&rt, "a schema");
    for count in 0..5usize {
        let batches = batches(alloc, count).expect(&rt, "batches");
        let bytes = write_file(alloc, &schema, &batches).expect(&rt, "a file");
        for most in [1usize, 7, 1000000] {
            let mut sink = Sink::new(alloc, most, usize::MAX);
            assert!(rt; file_to(alloc, &mut sink, &schema, &batches).is_ok());
            assert!(rt; sink.bytes == bytes);
            assert!(rt; sink.flushes == 1);
        }
    }
}

#[test]
fn after_existing_bytes(rt: HostRuntime) {
    let alloc = rt.alloc();
    let schema = schema(alloc, DataType::Int64).expect(&rt, "a schema");
    let batches = batches(alloc, 3).expect(&rt, "batches");
    let bytes = write_file(alloc, &schema, &batches).expect(&rt, "a file");
    let mut sink = Sink::new(alloc, 1000000, usize::MAX);
    assert!(rt; sink.bytes.extend_from_slice(b"before").is_ok());
    assert!(rt; file_to(alloc, &mut sink, &schema, &batches).is_ok());
    assert!(rt; sink.bytes[..6] == b"before"[..]);
    assert!(rt; sink.bytes[6..] == bytes[..]);
}

#[test]
fn each_batch_is_found_by_its_block(rt: HostRuntime) {
    let alloc = rt.alloc();
    let schema = schema(alloc, DataType::Int64).expect(&rt, "a schema");
    let batches = batches(alloc, 40).expect(&rt, "batches");
    let mut sink = Sink::new(alloc, 1000000, usize::MAX);
    assert!(rt; file_to(alloc, &mut sink, &schema, &batches).is_ok());
    let reader = match SliceFileReader::new(alloc, &sink.bytes) {
        Ok(reader) => reader,
        Err(_) => return assert!(rt; false),
    };
    assert!(rt; reader.len() == 40);
    for i in 0..40usize {
        let at = 39 - i;
        match reader.batch(alloc, at) {
            Ok(batch) => assert!(rt; batch.rows == batches[at].rows),
            Err(_) => return assert!(rt; false),
        }
    }
}

// Whether a batch is rejected for its columns, and the writer continues.
fn is_rejected(alloc: Global, writer: &mut FileWriter<&mut Sink>, batch: &Batch) -> bool {
    let before = writer.get_ref().bytes.len();
    let refused = matches!(
        writer.write(alloc, batch),
        Err(WriteError::Ipc(IpcWriteError::Columns))
    );
    refused && !writer.is_failed() && writer.get_ref().bytes.len() == before
}

#[test]
fn batches_that_cannot_be_written(rt: HostRuntime) {
    let alloc = rt.alloc();
    let schema = schema(alloc, DataType::Int64).expect(&rt, "a schema");
    let good = batches(alloc, 3).expect(&rt, "batches");
    let mut bad = batch(alloc, 1, 4).expect(&rt, "a batch");
    bad.rows = 5;
    let none = Batch {
        rows: 0,
        columns: Vec::new(alloc),
    };
    let mut sink = Sink::new(alloc, 9, usize::MAX);
    let mut writer = match FileWriter::new(alloc, &mut sink, &schema) {
        Ok(writer) => writer,
        Err(_) => return assert!(rt; false),
    };
    assert!(rt; is_rejected(alloc, &mut writer, &bad));
    for batch in &good {
        assert!(rt; writer.write(alloc, batch).is_ok());
        assert!(rt; is_rejected(alloc, &mut writer, &none));
        assert!(rt; is_rejected(alloc, &mut writer, &bad));
    }
    assert!(rt; writer.finish(alloc).is_ok());
    let bytes = write_file(alloc, &schema, &good).expect(&rt, "a file");
    assert!(rt; sink.bytes == bytes);
    assert!(rt; read_file(alloc, &sink.bytes).is_ok());
}

// What batches have as results of a stream that fails somewhere: Ok, then one failure, then that it failed before.
fn fails_once(alloc: Global, writer: &mut FileWriter<&mut Sink>, batches: &[Batch]) -> bool {
    for batch in batches {
        let failed = writer.is_failed();
        let result = match writer.write(alloc, batch) {
            Ok(()) => !failed && !writer.is_failed(),
            Err(WriteError::Io(e)) => {
                !failed && writer.is_failed() && e.kind() == ErrorKind::StorageFull
            }
            Err(WriteError::Failed) => failed && writer.is_failed(),
            Err(WriteError::Ipc(_)) => false,
        };
        if !result {
            return false;
        }
    }
    true
}

// The same up to the end, which is not reached.
fn fails_before_its_end(
    alloc: Global,
    sink: &mut Sink,
    schema: &Schema,
    batches: &[Batch],
) -> bool {
    let mut writer = match FileWriter::new(alloc, sink, schema) {
        Ok(writer) => writer,
        Err(WriteError::Io(e)) => return e.kind() == ErrorKind::StorageFull,
        Err(_) => return false,
    };
    if !fails_once(alloc, &mut writer, batches) {
        return false;
    }
    let failed = writer.is_failed();
    match writer.finish(alloc) {
        Err(WriteError::Io(e)) => !failed && e.kind() == ErrorKind::StorageFull,
        Err(WriteError::Failed) => failed,
        _ => false,
    }
}

#[test]
fn a_device_that_fails_at_each_byte(rt: HostRuntime) {
    let alloc = rt.alloc();
    let schema = schema(alloc, DataType::Int64).expect(&rt, "a schema");
    let batches = batches(alloc, 3).expect(&rt, "batches");
    let bytes = write_file(alloc, &schema, &batches).expect(&rt, "a file");
    for fails_at in 0..bytes.len() {
        let most = if fails_at % 2 == 0 { 1 } else { 64 };
        let mut sink = Sink::new(alloc, most, fails_at);
        assert!(rt; fails_before_its_end(alloc, &mut sink, &schema, &batches));
        assert!(rt; sink.bytes[..] == bytes[..fails_at]);
        assert!(rt; sink.flushes == 0);
    }
}

#[test]
fn a_failed_writer_fails_again(rt: HostRuntime) {
    let alloc = rt.alloc();
    let schema = schema(alloc, DataType::Int64).expect(&rt, "a schema");
    let good = batch(alloc, 1, 4).expect(&rt, "a batch");
    let mut bad = batch(alloc, 1, 4).expect(&rt, "a batch");
    bad.rows = 5;
    let front = write_file(alloc, &schema, &[]).expect(&rt, "a file").len();
    let mut sink = Sink::new(alloc, 1000000, front);
    let mut writer = match FileWriter::new(alloc, &mut sink, &schema) {
        Ok(writer) => writer,
        Err(_) => return assert!(rt; false),
    };
    let mut failed = false;
    for _ in 0..8usize {
        match writer.write(alloc, &good) {
            Ok(()) => assert!(rt; !failed),
            Err(WriteError::Io(_)) => failed = true,
            Err(WriteError::Failed) => assert!(rt; failed),
            Err(WriteError::Ipc(_)) => assert!(rt; false),
        }
    }
    assert!(rt; failed);
    assert!(rt; matches!(writer.write(alloc, &bad), Err(WriteError::Failed)));
    assert!(rt; matches!(writer.finish(alloc), Err(WriteError::Failed)));
    assert!(rt; sink.bytes.len() == front);
}

#[test]
fn a_device_that_fails_in_flush(rt: HostRuntime) {
    let alloc = rt.alloc();
    let schema = schema(alloc, DataType::Int64).expect(&rt, "a schema");
    let batches = batches(alloc, 2).expect(&rt, "batches");
    let bytes = write_file(alloc, &schema, &batches).expect(&rt, "a file");
    let mut sink = Sink::new(alloc, 5, usize::MAX);
    sink.flush_fails = true;
    match file_to(alloc, &mut sink, &schema, &batches) {
        Err(WriteError::Io(e)) => assert!(rt; e.kind() == ErrorKind::BrokenPipe),
        _ => assert!(rt; false),
    }
    assert!(rt; sink.bytes == bytes);
}

#[test]
fn a_writer_that_accepts_no_byte(rt: HostRuntime) {
    let alloc = rt.alloc();
    let schema = schema(alloc, DataType::Int64).expect(&rt, "a schema");
    let mut sink = Sink::new(alloc, 0, usize::MAX);
    match FileWriter::new(alloc, &mut sink, &schema) {
        Err(WriteError::Io(e)) => assert!(rt; e.kind() == ErrorKind::WriteZero),
        _ => assert!(rt; false),
    }
}

#[test]
fn a_schema_that_cannot_be_written(rt: HostRuntime) {
    let alloc = rt.alloc();
    let floats = schema(alloc, DataType::Float32).expect(&rt, "a schema");
    let mut sink = Sink::new(alloc, 5, usize::MAX);
    assert!(rt;
        matches!(
            FileWriter::new(alloc, &mut sink, &floats),
            Err(WriteError::Ipc(IpcWriteError::Float))
        )
    );
    assert!(rt; sink.bytes.is_empty());
}
