//! The first error of an input, and of its columns one by one.
use crate::copying::before_batches;
use crate::counting::overwrite_bodies;
use crate::devices::{Device, NEVER, input};
use crate::oracle::read_table;
use crate::samples::{COMPRESSED, DICTIONARIES, DICTIONARY_FILE, EMPTY, FILE, STREAM, bytes_of};
use cli_read::first_error;
use cli_rows::{BatchError, CliError};
use ipc_schema::Projection;
use std::alloc::Global;
use std::test::*;

/// Returns the first error of bytes. The call with the number `fails_at` fails.
fn error_of(
    alloc: Global,
    columns: Projection<'_>,
    count: usize,
    bytes: &[u8],
    fails_at: usize,
) -> Option<BatchError> {
    match bytes.to_vec(alloc) {
        Ok(own) => first_error(
            alloc,
            columns,
            count,
            input(bytes, Device::new(own, fails_at)),
        ),
        Err(_) => Some(before_batches(CliError::Memory)),
    }
}

fn any_error(alloc: Global, bytes: &[u8]) -> Option<CliError> {
    error_of(alloc, Projection::All, NEVER, bytes, NEVER).map(|found| found.error)
}

#[test]
fn errors_are_those_of_reading(rt: HostRuntime) -> Result<(), Fail> {
    let alloc = rt.alloc();
    for sample in [STREAM, FILE, DICTIONARIES, DICTIONARY_FILE, EMPTY] {
        assert!(rt; any_error(alloc, sample) == None);
        for i in 6..sample.len() {
            let mut hostile = bytes_of(alloc, sample)?;
            hostile[i] ^= 255;
            let want = read_table(alloc, Projection::All, &hostile).err();
            assert!(rt; any_error(alloc, &hostile) == want, "byte {i}: {want:?}");
        }
    }
    Ok(())
}

#[test]
fn so_many_record_batches_are_read(rt: HostRuntime) -> Result<(), Fail> {
    let alloc = rt.alloc();
    let mut stream = bytes_of(alloc, STREAM)?;
    // The metadata length of the third record batch is negative.
    stream[632] = 0;
    for (count, want) in [(0, None), (2, None), (3, Some(2)), (NEVER, Some(2))] {
        let found = error_of(alloc, Projection::All, count, &stream, NEVER);
        assert!(rt; found.and_then(|e| e.batch) == want, "{count}: {found:?}");
    }
    Ok(())
}

#[test]
fn a_column_has_the_error(rt: HostRuntime) -> Result<(), Fail> {
    let alloc = rt.alloc();
    let mut file = bytes_of(alloc, FILE)?;
    overwrite_bodies(alloc, &mut file, 1)?;
    let all = error_of(alloc, Projection::All, NEVER, &file, NEVER);
    assert!(rt; all.and_then(|e| e.batch) == Some(0), "{all:?}");
    let a = error_of(alloc, Projection::Names(&["a"]), NEVER, &file, NEVER);
    let b = error_of(alloc, Projection::Names(&["b"]), NEVER, &file, NEVER);
    let first = if a.is_some() { a } else { b };
    // The offsets of column `b` may not be any bytes.
    assert!(rt; b.is_some() && all == first, "{all:?}, {a:?}, {b:?}");
    assert!(rt; error_of(alloc, Projection::All, NEVER, COMPRESSED, NEVER).is_some());
    let unknown = error_of(alloc, Projection::Names(&["c"]), NEVER, FILE, NEVER);
    assert!(rt; unknown == Some(before_batches(CliError::UnknownName(0))));
    Ok(())
}

#[test]
fn failing_readers_have_errors(rt: HostRuntime) -> Result<(), Fail> {
    let alloc = rt.alloc();
    for sample in [STREAM, FILE] {
        let mut calls = 0;
        while error_of(alloc, Projection::All, NEVER, sample, calls).is_some() {
            calls += 1;
        }
        assert!(rt; calls > 3, "{calls} calls");
    }
    Ok(())
}
