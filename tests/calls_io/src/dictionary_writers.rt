//! Streams and files with dictionaries that are written to readers and writers.
//!
//! With dictionaries that stay, change and are in others both writers have the bytes of `write_stream` and `write_file`; of a
//! file one that would be replaced is rejected, and the writer continues.
use crate::fake_io::Sink;
use crate::samples::{DICTIONARIES_INSIDE, REPLACEMENT, bytes_of};
use ipc::{Batch, Stream, read_stream, write_file, write_stream};
use ipc_flatbuf::{IpcReadError, IpcWriteError};
use ipc_io::{FileWriter, StreamWriter, WriteError};
use ipc_schema::Schema;
use std::alloc::Global;
use std::io::ErrorKind;

/// The schema of a sample, and the batches at these indices, one after another.
fn stream_of(alloc: Global, sample: &[u8], indices: &[usize]) -> Result<Stream, IpcReadError> {
    let bytes = bytes_of(alloc, sample)?;
    let mut batches = Vec::new(alloc);
    for i in indices {
        let mut stream = read_stream(alloc, &bytes)?;
        stream.batches.truncate(*i + 1);
        if let Some(batch) = stream.batches.pop() {
            batches.push(batch)?;
        }
    }
    let mut stream = read_stream(alloc, &bytes)?;
    stream.batches = batches;
    Ok(stream)
}

// What stays is written once, what changes each time, and what is inside of values before them.
const STREAMS: [(&[u8], &[usize]); 4] = [
    (REPLACEMENT, &[0, 0, 1, 1, 0]),
    (REPLACEMENT, &[1]),
    (DICTIONARIES_INSIDE, &[0, 0]),
    (REPLACEMENT, &[]),
];

// Those of which a file has each dictionary once.
const FILES: [(&[u8], &[usize]); 3] = [
    (REPLACEMENT, &[1, 1]),
    (DICTIONARIES_INSIDE, &[0, 0, 0]),
    (REPLACEMENT, &[]),
];

fn stream_to(
    alloc: Global,
    sink: &mut Sink,
    schema: &Schema,
    batches: &[Batch],
) -> Result<(), WriteError> {
    let mut writer = StreamWriter::new(alloc, sink, schema)?;
    for batch in batches {
        writer.write(alloc, batch)?;
    }
    writer.finish()?;
    Ok(())
}

fn file_to(
    alloc: Global,
    sink: &mut Sink,
    schema: &Schema,
    batches: &[Batch],
) -> Result<(), WriteError> {
    let mut writer = FileWriter::new(alloc, sink, schema)?;
    for batch in batches {
        writer.write(alloc, batch)?;
    }
    writer.finish(alloc)?;
    Ok(())
}

#[test]
fn the_bytes_of_a_stream(rt: HostRuntime) {
    let alloc = rt.alloc();
    for (sample, indices) in STREAMS {
        let stream = stream_of(alloc, sample, indices).expect(&rt, "a stream");
        let bytes = write_stream(alloc, &stream.schema, &stream.batches).expect(&rt, "bytes");
        for most in [1usize, 7, 1000000] {
            let mut sink = Sink::new(alloc, most, usize::MAX);
            assert!(rt; stream_to(alloc, &mut sink, &stream.schema, &stream.batches).is_ok());
            assert!(rt; sink.bytes == bytes);
        }
        let back = read_stream(alloc, &bytes).expect(&rt, "a stream");
        assert!(rt; back.batches.len() == stream.batches.len());
    }
}

#[test]
fn the_bytes_of_a_file(rt: HostRuntime) {
    let alloc = rt.alloc();
    for (sample, indices) in FILES {
        let stream = stream_of(alloc, sample, indices).expect(&rt, "a stream");
        let bytes = write_file(alloc, &stream.schema, &stream.batches).expect(&rt, "bytes");
        for most in [1usize, 7, 1000000] {
            let mut sink = Sink::new(alloc, most, usize::MAX);
            assert!(rt; file_to(alloc, &mut sink, &stream.schema, &stream.batches).is_ok());
            assert!(rt; sink.bytes == bytes);
        }
    }
}

// A dictionary is written once, where it stays.
#[test]
fn what_stays_is_not_written_again(rt: HostRuntime) {
    let alloc = rt.alloc();
    let once = stream_of(alloc, REPLACEMENT, &[0]).expect(&rt, "a stream");
    let twice = stream_of(alloc, REPLACEMENT, &[0, 0]).expect(&rt, "a stream");
    let both = stream_of(alloc, REPLACEMENT, &[0, 1]).expect(&rt, "a stream");
    let mut lengths = [0usize; 3];
    for (i, stream) in [once, twice, both].iter().enumerate() {
        let mut sink = Sink::new(alloc, 1000000, usize::MAX);
        assert!(rt; stream_to(alloc, &mut sink, &stream.schema, &stream.batches).is_ok());
        lengths[i] = sink.bytes.len();
    }
    assert!(rt; lengths[0] < lengths[1]);
    assert!(rt; lengths[1] < lengths[2]);
}

#[test]
fn what_would_be_replaced(rt: HostRuntime) {
    let alloc = rt.alloc();
    let good = stream_of(alloc, REPLACEMENT, &[0, 0]).expect(&rt, "a stream");
    let other = stream_of(alloc, REPLACEMENT, &[1]).expect(&rt, "a stream");
    let mut sink = Sink::new(alloc, 9, usize::MAX);
    let mut writer = match FileWriter::new(alloc, &mut sink, &good.schema) {
        Ok(writer) => writer,
        Err(_) => return assert!(rt; false),
    };
    for batch in &good.batches {
        assert!(rt; writer.write(alloc, batch).is_ok());
        let before = writer.get_ref().bytes.len();
        assert!(rt;
            matches!(
                writer.write(alloc, &other.batches[0]),
                Err(WriteError::Ipc(IpcWriteError::DictionaryReplacement))
            )
        );
        assert!(rt; !writer.is_failed());
        assert!(rt; writer.get_ref().bytes.len() == before);
    }
    assert!(rt; writer.finish(alloc).is_ok());
    let bytes = write_file(alloc, &good.schema, &good.batches).expect(&rt, "a file");
    assert!(rt; sink.bytes == bytes);
}

// Whether a stream that fails at a byte is reported, and has the bytes written before.
fn fails_at(ended: Result<(), WriteError>, sink: &Sink, bytes: &[u8], at: usize) -> bool {
    match ended {
        Err(WriteError::Io(e)) => {
            e.kind() == ErrorKind::StorageFull && sink.bytes[..] == bytes[..at]
        }
        _ => false,
    }
}

// A stream fails at one byte of nine, since each takes a whole run.
const APART: usize = 9;

#[test]
fn a_device_that_fails_in_a_stream(rt: HostRuntime) {
    let alloc = rt.alloc();
    let stream = stream_of(alloc, REPLACEMENT, &[0, 1]).expect(&rt, "a stream");
    let bytes = write_stream(alloc, &stream.schema, &stream.batches).expect(&rt, "bytes");
    for part in 0..bytes.len() / APART {
        let at = part * APART;
        let mut sink = Sink::new(alloc, 64, at);
        let result = stream_to(alloc, &mut sink, &stream.schema, &stream.batches);
        assert!(rt; fails_at(result, &sink, &bytes, at));
    }
}

#[test]
fn a_device_that_fails_in_a_file(rt: HostRuntime) {
    let alloc = rt.alloc();
    let file = stream_of(alloc, DICTIONARIES_INSIDE, &[0, 0]).expect(&rt, "a stream");
    let bytes = write_file(alloc, &file.schema, &file.batches).expect(&rt, "bytes");
    for part in 0..bytes.len() / APART {
        let at = part * APART;
        let mut sink = Sink::new(alloc, 64, at);
        let result = file_to(alloc, &mut sink, &file.schema, &file.batches);
        assert!(rt; fails_at(result, &sink, &bytes, at));
    }
}
