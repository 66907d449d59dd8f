//! Files that are read from readers and writers.
//!
//! A file from a stream, in pieces of any size and interrupted, has the batches of `FileReader`, whole and of some columns, in
//! any order and again; so have each prefix of it and each byte changed.
//!
//! A stream that fails at any call, or ends early, is reported; a reader continues after that; a body of 2^62 bytes is
//! rejected and not asked for.
use crate::examples::{batches, same, schema};
use crate::fake_io::Disk;
use crate::samples::{DICTIONARIES_INSIDE, REPLACEMENT, bytes_of};
use ipc::{Batch, SliceFileReader, read_stream, write_file};
use ipc_flatbuf::IpcReadError;
use ipc_io::{FileReader, ReadError, SeekRead};
use ipc_schema::Projection;
use nest_memory::datatypes::DataType;
use std::alloc::Global;
use std::io::{Cursor, ErrorKind};

// Two batches of numbers.
fn numbers(alloc: Global) -> Option<Vec<u8>> {
    let schema = schema(alloc, DataType::Int64).ok()?;
    let batches = batches(alloc, 3).ok()?;
    write_file(alloc, &schema, &batches).ok()
}

// The file of the batches of a stream, a sample.
fn filed(alloc: Global, sample: &[u8], count: usize) -> Option<Vec<u8>> {
    let bytes = bytes_of(alloc, sample).ok()?;
    let stream = read_stream(alloc, &bytes).ok()?;
    write_file(alloc, &stream.schema, &stream.batches[..count]).ok()
}

fn files(alloc: Global) -> Option<Vec<Vec<u8>>> {
    let mut files = Vec::new(alloc);
    files.push(numbers(alloc)?).ok()?;
    files.push(filed(alloc, REPLACEMENT, 1)?).ok()?;
    files.push(filed(alloc, DICTIONARIES_INSIDE, 1)?).ok()?;
    Some(files)
}

// Whether both return the same batch, or the same error.
fn same_batch(one: &Result<Batch, IpcReadError>, other: &Result<Batch, ReadError>) -> bool {
    match (one, other) {
        (Ok(one), Ok(other)) => same(one, other),
        (Err(one), Err(ReadError::Ipc(other))) => one == other,
        _ => false,
    }
}

// Whether both have the same batches, asked for from the last to the first, and each again.
fn same_batches<R: SeekRead + Drop>(
    alloc: Global,
    plain: &SliceFileReader<'_>,
    reader: &mut FileReader<R>,
) -> bool {
    if plain.len() != reader.len() || plain.schema().fields.len() != reader.schema().fields.len() {
        return false;
    }
    for i in 0..plain.len() {
        for index in [plain.len() - 1 - i, i] {
            let one = plain.batch(alloc, index);
            let other = reader.batch(alloc, index);
            if !same_batch(&one, &other) {
                return false;
            }
        }
    }
    true
}

// Whether a reader over a stream results as one over its bytes.
fn alike<R: SeekRead + Drop>(
    alloc: Global,
    bytes: &[u8],
    device: R,
    columns: Projection<'_>,
) -> bool {
    let plain = SliceFileReader::with_projection(alloc, bytes, columns);
    let reader = FileReader::with_projection(alloc, device, columns);
    match (plain, reader) {
        (Ok(plain), Ok(mut reader)) => same_batches(alloc, &plain, &mut reader),
        (Err(error), Err(ReadError::Ipc(other))) => error == other,
        _ => false,
    }
}

#[test]
fn in_pieces(rt: HostRuntime) {
    let alloc = rt.alloc();
    let files = files(alloc).expect(&rt, "files");
    for bytes in &files {
        assert!(rt; alike(alloc, bytes, Cursor::new(bytes.as_slice()), Projection::All));
        for most in [1usize, 3, 8, 1000000] {
            let disk = Disk::new(bytes, most, usize::MAX);
            assert!(rt; alike(alloc, bytes, disk, Projection::All));
        }
    }
}

#[test]
fn some_columns(rt: HostRuntime) {
    let alloc = rt.alloc();
    let files = files(alloc).expect(&rt, "files");
    for bytes in &files {
        for indices in [&[][..], &[0usize][..], &[5usize][..]] {
            let disk = Disk::new(bytes, 7, usize::MAX);
            assert!(rt; alike(alloc, bytes, disk, Projection::Indices(indices)));
        }
    }
}

#[test]
fn each_beginning(rt: HostRuntime) {
    let alloc = rt.alloc();
    let bytes = numbers(alloc).expect(&rt, "a file");
    for end in 0..bytes.len() {
        let disk = Disk::new(&bytes[..end], 50, usize::MAX);
        assert!(rt; alike(alloc, &bytes[..end], disk, Projection::All), "{end}");
    }
}

#[test]
fn each_byte_changed(rt: HostRuntime) {
    let alloc = rt.alloc();
    let mut bytes = filed(alloc, REPLACEMENT, 1).expect(&rt, "a file");
    for i in 0..bytes.len() {
        let was = bytes[i];
        bytes[i] = was ^ 0x91;
        let cursor = Cursor::new(bytes.as_slice());
        assert!(rt; alike(alloc, &bytes, cursor, Projection::All), "{i}");
        bytes[i] = was;
    }
}

// Whether a stream that fails at one call is reported, and the reader, where there is one, has all batches then.
fn returns_failure(alloc: Global, bytes: &[u8], fails_at: usize) -> Option<bool> {
    let plain = SliceFileReader::new(alloc, bytes).ok()?;
    let mut reader = match FileReader::new(alloc, Disk::new(bytes, 40, fails_at)) {
        Ok(reader) => reader,
        Err(ReadError::Io(e)) => return Some(e.kind() == ErrorKind::ConnectionReset),
        Err(ReadError::Ipc(_)) => return None,
    };
    let mut returned = false;
    for i in 0..reader.len() {
        match reader.batch(alloc, i) {
            Ok(_) => {}
            Err(ReadError::Io(e)) => returned = e.kind() == ErrorKind::ConnectionReset,
            Err(ReadError::Ipc(_)) => return None,
        }
    }
    if returned && !same_batches(alloc, &plain, &mut reader) {
        return None;
    }
    Some(returned)
}

#[test]
fn a_device_that_fails_at_each_call(rt: HostRuntime) {
    let alloc = rt.alloc();
    let files = files(alloc).expect(&rt, "files");
    for bytes in &files {
        let mut fails_at = 0;
        'calls: loop {
            if !returns_failure(alloc, bytes, fails_at).expect(&rt, "other results") {
                break 'calls;
            }
            fails_at += 1;
        }
        assert!(rt; fails_at > 10, "{fails_at}");
    }
}

#[test]
fn a_reader_that_ends_early(rt: HostRuntime) {
    let alloc = rt.alloc();
    let bytes = numbers(alloc).expect(&rt, "a file");
    for more in 1..20usize {
        let mut disk = Disk::new(&bytes, 40, usize::MAX);
        disk.says = bytes.len() + more;
        match FileReader::new(alloc, disk) {
            Err(ReadError::Io(e)) => assert!(rt; e.kind() == ErrorKind::UnexpectedEof),
            _ => assert!(rt; false),
        }
    }
}

// Where the length of the last batch's body is, six numbers of 8 bytes: after a gap of 4 bytes, in the last block that says so.
fn last_body(bytes: &[u8]) -> Option<usize> {
    let mut index = None;
    for i in 4..bytes.len() - 8 {
        if bytes[i - 4..i + 8] == [0, 0, 0, 0, 48, 0, 0, 0, 0, 0, 0, 0] {
            index = Some(i);
        }
    }
    index
}

#[test]
fn a_body_larger_than_any_reader(rt: HostRuntime) {
    let alloc = rt.alloc();
    let mut bytes = numbers(alloc).expect(&rt, "a file");
    let index = last_body(&bytes).expect(&rt, "a body's length");
    bytes[index + 7] = 64;
    let mut disk = Disk::new(&bytes, 40, usize::MAX);
    match FileReader::new(alloc, &mut disk) {
        Err(ReadError::Ipc(error)) => assert!(rt; error == IpcReadError::Block),
        _ => assert!(rt; false),
    }
    assert!(rt; disk.wanted < 4096);
}

#[test]
fn the_same_writer(rt: HostRuntime) {
    let alloc = rt.alloc();
    let bytes = numbers(alloc).expect(&rt, "a file");
    let mut reader = match FileReader::new(alloc, Disk::new(&bytes, 40, usize::MAX)) {
        Ok(reader) => reader,
        Err(_) => return assert!(rt; false),
    };
    assert!(rt; reader.len() == 3);
    assert!(rt; reader.batch(alloc, 2).is_ok());
    assert!(rt; reader.get_ref().bytes.len() == bytes.len());
    let disk = reader.into_inner();
    assert!(rt; disk.bytes.len() == bytes.len());
}
