//! Streams that are read from readers and writers.
//!
//! A stream from a stream, in pieces of any size and interrupted, has the batches of `StreamReader`; what is after the end mark
//! is left.
//!
//! Each prefix of a stream, and each byte changed, has the results of `StreamReader`; a stream that fails at any byte is
//! pushed, and nothing comes after.
//!
//! The same of streams with dictionaries: a batch comes over those before it, and none of a dictionary alone.
use crate::examples::{batches, same, schema};
use crate::fake_io::Source;
use crate::samples::{DICTIONARIES_INSIDE, LEGACY_FRAMING, REPLACEMENT, bytes_of};
use ipc::{Batch, SliceStreamReader, write_stream};
use ipc_io::{ReadError, StreamReader};
use ipc_schema::Projection;
use nest_memory::datatypes::DataType;
use std::alloc::Global;
use std::io::ErrorKind;

fn equal_next(one: &Option<Batch>, other: &Option<Batch>) -> bool {
    match (one, other) {
        (None, None) => true,
        (Some(one), Some(other)) => same(one, other),
        _ => false,
    }
}

fn copy(alloc: Global, bytes: &[u8]) -> Option<Vec<u8>> {
    let mut copied = Vec::new(alloc);
    match copied.extend_from_slice(bytes) {
        Ok(()) => Some(copied),
        Err(_) => None,
    }
}

// Whether a reader over a stream results as one over its bytes, six times.
fn alike(alloc: Global, bytes: &[u8], most: usize) -> bool {
    let copied = match copy(alloc, bytes) {
        Some(copied) => copied,
        None => return false,
    };
    let source = Source::new(copied, most, usize::MAX);
    let mut plain = match SliceStreamReader::new(alloc, bytes) {
        Ok(plain) => plain,
        Err(error) => {
            return match StreamReader::new(alloc, source) {
                Err(ReadError::Ipc(other)) => error == other,
                _ => false,
            };
        }
    };
    let mut reader = match StreamReader::new(alloc, source) {
        Ok(reader) => reader,
        Err(_) => return false,
    };
    for _ in 0..6 {
        let one = plain.next_batch(alloc);
        let other = reader.next_batch(alloc);
        match (one, other) {
            (Ok(one), Ok(other)) => {
                if !equal_next(&one, &other) {
                    return false;
                }
            }
            (Err(one), Err(ReadError::Ipc(other))) => {
                if one != other {
                    return false;
                }
            }
            _ => return false,
        }
    }
    true
}

#[test]
fn in_pieces(rt: HostRuntime) {
    let alloc = rt.alloc();
    let schema = schema(alloc, DataType::Int64).expect(&rt, "a schema");
    for count in 0..5usize {
        let batches = batches(alloc, count).expect(&rt, "batches");
        let bytes = write_stream(alloc, &schema, &batches).expect(&rt, "a stream");
        for most in [1usize, 3, 8, 1000000] {
            assert!(rt; alike(alloc, &bytes, most));
        }
    }
}

#[test]
fn each_beginning_and_each_byte_changed(rt: HostRuntime) {
    let alloc = rt.alloc();
    let schema = schema(alloc, DataType::Int64).expect(&rt, "a schema");
    let batches = batches(alloc, 2).expect(&rt, "batches");
    let mut bytes = write_stream(alloc, &schema, &batches).expect(&rt, "a stream");
    for end in 0..bytes.len() {
        assert!(rt; alike(alloc, &bytes[..end], 11), "{end}");
    }
    for i in 0..bytes.len() {
        let was = bytes[i];
        bytes[i] = was ^ 0x91;
        assert!(rt; alike(alloc, &bytes, 100), "{i}");
        bytes[i] = was;
    }
}

#[test]
fn a_body_past_the_end_is_an_error(rt: HostRuntime) {
    let alloc = rt.alloc();
    // metadata of 2^31 - 1 bytes, of which three come
    let head = [255u8, 255, 255, 255, 255, 255, 255, 127, 1, 2, 3];
    assert!(rt; alike(alloc, &head, 2));
}

#[test]
fn bytes_after_the_end_are_left(rt: HostRuntime) {
    let alloc = rt.alloc();
    let schema = schema(alloc, DataType::Int64).expect(&rt, "a schema");
    let batches = batches(alloc, 2).expect(&rt, "batches");
    let mut bytes = write_stream(alloc, &schema, &batches).expect(&rt, "a stream");
    let end = bytes.len();
    assert!(rt; bytes.extend_from_slice(&[1, 2, 3]).is_ok());
    let source = Source::new(bytes, 1000, usize::MAX);
    let mut reader = match StreamReader::new(alloc, source) {
        Ok(reader) => reader,
        Err(_) => return assert!(rt; false),
    };
    for _ in 0..5 {
        assert!(rt; reader.next_batch(alloc).is_ok());
    }
    let source = reader.into_inner();
    assert!(rt; source.at == end);
}

// Whether a reader pushes that its stream failed, once, after any batches, and returns nothing more.
fn returns_failure(alloc: Global, source: Source) -> bool {
    let mut reader = match StreamReader::new(alloc, source) {
        Ok(reader) => reader,
        Err(ReadError::Io(e)) => return e.kind() == ErrorKind::ConnectionReset,
        Err(ReadError::Ipc(_)) => return false,
    };
    let mut failed = false;
    for _ in 0..4 {
        match reader.next_batch(alloc) {
            Ok(None) if failed => {}
            Ok(Some(_)) if !failed => {}
            Err(ReadError::Io(_)) if !failed => failed = true,
            _ => return false,
        }
    }
    failed
}

#[test]
fn a_device_that_fails_at_each_byte(rt: HostRuntime) {
    let alloc = rt.alloc();
    let schema = schema(alloc, DataType::Int64).expect(&rt, "a schema");
    let batches = batches(alloc, 2).expect(&rt, "batches");
    let plain = write_stream(alloc, &schema, &batches).expect(&rt, "a stream");
    let keyed = bytes_of(alloc, REPLACEMENT).expect(&rt, "bytes");
    for bytes in [&plain, &keyed] {
        for fails_at in 0..bytes.len() {
            let copied = copy(alloc, bytes).expect(&rt, "bytes");
            let source = Source::new(copied, 6, fails_at);
            assert!(rt; returns_failure(alloc, source), "{fails_at}");
        }
    }
}

// How many rows a stream's batches have, each after the one before, up to the end.
fn rows_of(alloc: Global, source: Source) -> Option<Vec<usize>> {
    let mut reader = StreamReader::new(alloc, source).ok()?;
    let mut rows = Vec::new(alloc);
    for _ in 0..9 {
        match reader.next_batch(alloc) {
            Ok(None) => return Some(rows),
            Ok(Some(batch)) => rows.push(batch.rows).ok()?,
            Err(_) => return None,
        }
    }
    None
}

#[test]
fn dictionaries_in_pieces(rt: HostRuntime) {
    let alloc = rt.alloc();
    for sample in [REPLACEMENT, DICTIONARIES_INSIDE] {
        let bytes = bytes_of(alloc, sample).expect(&rt, "bytes");
        for most in [1usize, 3, 8, 1000000] {
            assert!(rt; alike(alloc, &bytes, most));
        }
        for end in 0..bytes.len() {
            assert!(rt; alike(alloc, &bytes[..end], 11), "{end}");
        }
    }
}

#[test]
fn messages_without_continuation_indicator(rt: HostRuntime) {
    let alloc = rt.alloc();
    let mut bytes = bytes_of(alloc, LEGACY_FRAMING).expect(&rt, "bytes");
    for end in 0..bytes.len() {
        assert!(rt; alike(alloc, &bytes[..end], 3), "{end}");
    }
    assert!(rt; bytes.extend_from_slice(&[1, 2, 3]).is_ok());
    for most in [1usize, 3, 8, 1000000] {
        let copied = bytes_of(alloc, &bytes).expect(&rt, "bytes");
        let rows = rows_of(alloc, Source::new(copied, most, usize::MAX)).expect(&rt, "rows");
        assert!(rt; rows.as_slice() == [3usize, 1].as_slice(), "{most}");
    }
}

#[test]
fn dictionaries_with_each_byte_changed(rt: HostRuntime) {
    let alloc = rt.alloc();
    let mut bytes = bytes_of(alloc, REPLACEMENT).expect(&rt, "bytes");
    for i in 0..bytes.len() {
        let was = bytes[i];
        bytes[i] = was ^ 0x91;
        assert!(rt; alike(alloc, &bytes, 100), "{i}");
        bytes[i] = was;
    }
}

#[test]
fn no_batch_of_a_dictionary(rt: HostRuntime) {
    let alloc = rt.alloc();
    let replaced = bytes_of(alloc, REPLACEMENT).expect(&rt, "bytes");
    let rows = rows_of(alloc, Source::new(replaced, 1, usize::MAX)).expect(&rt, "rows");
    assert!(rt; rows.as_slice() == [2usize, 2].as_slice());
    let inside = bytes_of(alloc, DICTIONARIES_INSIDE).expect(&rt, "bytes");
    let rows = rows_of(alloc, Source::new(inside, 1, usize::MAX)).expect(&rt, "rows");
    assert!(rt; rows.as_slice() == [4usize].as_slice());
}

// How many columns each of a stream's batches has, of those that are read.
fn widths_of(alloc: Global, source: Source, columns: Projection<'_>) -> Option<Vec<usize>> {
    let mut reader = StreamReader::with_projection(alloc, source, columns).ok()?;
    let mut widths = Vec::new(alloc);
    for _ in 0..9 {
        match reader.next_batch(alloc) {
            Ok(None) => return Some(widths),
            Ok(Some(batch)) => widths.push(batch.columns.len()).ok()?,
            Err(_) => return None,
        }
    }
    None
}

#[test]
fn some_columns(rt: HostRuntime) {
    let alloc = rt.alloc();
    for (indices, width) in [(&[0usize, 5][..], 1usize), (&[5usize][..], 0)] {
        let replaced = bytes_of(alloc, REPLACEMENT).expect(&rt, "bytes");
        let source = Source::new(replaced, 1, usize::MAX);
        let widths = widths_of(alloc, source, Projection::Indices(indices)).expect(&rt, "widths");
        assert!(rt; widths.as_slice() == [width, width].as_slice());
    }
}
