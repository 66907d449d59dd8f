//! Counting rows: of a stream from its record batches, of a file from their metadata.
use crate::comparing::{bytes_in, read_error};
use crate::copying::before_batches;
use crate::devices::{Device, NEVER, input};
use crate::oracle::{converted, read_table};
use crate::samples::{
    BOOLEANS, COLUMNLESS, COMPRESSED, DICTIONARIES, DICTIONARY_FILE, EMPTY, FILE, LEGACY_FILE,
    STREAM, bytes_of,
};
use cli_args::Format;
use cli_read::{count_lines, count_rows};
use cli_rows::{BatchError, CliError};
use ipc_flatbuf::IpcReadError;
use ipc_schema::Projection;
use ipc_schema::footer::read_footer;
use std::alloc::Global;
use std::test::*;

/// Counts the rows of bytes. The call with the number `fails_at` fails.
pub fn counted(
    alloc: Global,
    columns: Projection<'_>,
    bytes: &[u8],
    fails_at: usize,
) -> Result<u128, BatchError> {
    let own = bytes
        .to_vec(alloc)
        .map_err(|_| before_batches(CliError::Memory))?;
    count_rows(alloc, columns, input(bytes, Device::new(own, fails_at)))
}

fn all_counted(alloc: Global, bytes: &[u8]) -> Result<u128, BatchError> {
    counted(alloc, Projection::All, bytes, NEVER)
}

/// Returns the number of rows of a table that is read completely.
fn rows_read(alloc: Global, bytes: &[u8]) -> Result<u128, CliError> {
    let table = read_table(alloc, Projection::All, bytes)?;
    let mut rows = 0u128;
    for batch in &table.batches {
        rows += batch.rows as u128;
    }
    Ok(rows)
}

/// Overwrites the bodies of the first record batches of a file, so many at most.
pub fn overwrite_bodies(alloc: Global, bytes: &mut [u8], batches: usize) -> Result<(), Fail> {
    let footer = read_footer(alloc, Projection::All, bytes)?;
    for k in 0..batches.min(footer.batches.len()) {
        let block = footer.batches[k];
        let from = (block.offset + block.metadata_length as i64) as usize;
        for i in 0..block.body_length as usize {
            bytes[from + i] = 255;
        }
    }
    Ok(())
}

#[test]
fn samples_are_counted(rt: HostRuntime) -> Result<(), Fail> {
    let alloc = rt.alloc();
    for (sample, rows) in [
        (STREAM, 3),
        (FILE, 3),
        (BOOLEANS, 11),
        (COLUMNLESS, 3),
        (EMPTY, 0),
    ] {
        let found = all_counted(alloc, sample);
        assert!(rt; found == Ok(rows), "{found:?}");
    }
    for sample in [DICTIONARIES, DICTIONARY_FILE, LEGACY_FILE] {
        let found = all_counted(alloc, sample);
        let want = rows_read(alloc, sample).map_err(before_batches);
        assert!(rt; found == want && want.is_ok(), "{found:?}");
    }
    let line = count_lines(alloc, Projection::All, input(FILE, device(alloc, FILE)?));
    assert!(rt; line.expect(&rt, "a line").as_str() == "3\n");
    Ok(())
}

fn device(alloc: Global, bytes: &[u8]) -> Result<Device, Fail> {
    Ok(Device::new(bytes.to_vec(alloc)?, NEVER))
}

#[test]
fn random_batches_are_counted(rt: HostRuntime) -> Result<(), Fail> {
    let alloc = rt.alloc();
    let truths = [true; 40];
    for batches in 0..40usize {
        let mut parts: Vec<&[bool]> = Vec::new(alloc);
        let mut rows = 0;
        for k in 0..batches {
            let many = (k * 7 + batches * 3) % 11;
            rows += many as u128;
            parts.push(&truths[..many])?;
        }
        for format in [Format::File, Format::Stream] {
            let bytes = bytes_in(alloc, format, &parts).expect(&rt, "bytes");
            let found = all_counted(alloc, &bytes);
            assert!(rt; found == Ok(rows), "{batches} record batches: {found:?}");
        }
    }
    Ok(())
}

#[test]
fn bodies_of_a_file_are_not_read(rt: HostRuntime) -> Result<(), Fail> {
    let alloc = rt.alloc();
    let mut bytes = bytes_of(alloc, FILE)?;
    overwrite_bodies(alloc, &mut bytes, NEVER)?;
    assert!(rt; read_table(alloc, Projection::All, &bytes).is_err());
    assert!(rt; all_counted(alloc, &bytes) == Ok(3));
    // A file whose body is compressed, with a truncated buffer.
    let stream = bytes_of(alloc, COMPRESSED)?;
    assert!(rt; all_counted(alloc, &stream).is_err());
    Ok(())
}

#[test]
fn errors_are_returned(rt: HostRuntime) -> Result<(), Fail> {
    let alloc = rt.alloc();
    let mut stream = bytes_of(alloc, STREAM)?;
    // The metadata length of the third record batch is negative.
    stream[632] = 0;
    let negative = Err(read_error(Some(2), IpcReadError::MetadataLength));
    assert!(rt; all_counted(alloc, &stream) == negative);
    let mut file = bytes_of(alloc, FILE)?;
    let footer = read_footer(alloc, Projection::All, FILE)?;
    // The metadata length of the second record batch is negative, and then that of another message.
    let offset = footer.batches[1].offset as usize;
    file[offset + 7] = 128;
    let negative = Err(read_error(Some(1), IpcReadError::MetadataLength));
    assert!(rt; all_counted(alloc, &file) == negative);
    file[offset + 7] = 0;
    file[offset + 4] = 0;
    let found = all_counted(alloc, &file);
    assert!(rt; found.is_err_and(|e| e.batch == Some(1)));
    for (names, name) in [(["c"].as_slice(), 0), (&["a", "d"], 1)] {
        for sample in [STREAM, FILE] {
            let found = counted(alloc, Projection::Names(names), sample, NEVER);
            assert!(rt; found == Err(before_batches(CliError::UnknownName(name))));
        }
    }
    assert!(rt; counted(alloc, Projection::Names(&["b"]), FILE, NEVER) == Ok(3));
    Ok(())
}

#[test]
fn hostile_bytes_are_counted_or_refused(rt: HostRuntime) -> Result<(), Fail> {
    let alloc = rt.alloc();
    for sample in [STREAM, FILE, DICTIONARY_FILE] {
        let bytes = bytes_of(alloc, sample)?;
        for i in 6..bytes.len() {
            let mut hostile = bytes_of(alloc, sample)?;
            hostile[i] ^= 255;
            let found = all_counted(alloc, &hostile);
            // A table that is read completely has the number of rows that is counted.
            if let Ok(rows) = rows_read(alloc, &hostile) {
                assert!(rt; found == Ok(rows), "byte {i}: {found:?}");
            }
            let cut = all_counted(alloc, &bytes[..i]);
            if let Ok(rows) = rows_read(alloc, &bytes[..i]) {
                assert!(rt; cut == Ok(rows), "{i} bytes: {cut:?}");
            }
        }
    }
    Ok(())
}

#[test]
fn failing_readers_are_errors(rt: HostRuntime) -> Result<(), Fail> {
    let alloc = rt.alloc();
    for format in [Format::File, Format::Stream] {
        let bytes = converted(alloc, format, STREAM).expect(&rt, "bytes");
        let mut fails_at = 0;
        while counted(alloc, Projection::All, &bytes, fails_at) != Ok(3) {
            let found = counted(alloc, Projection::All, &bytes, fails_at);
            assert!(rt;
                found.is_err_and(|e| e.error == CliError::Input),
                "call {fails_at}"
            );
            fails_at += 1;
        }
        assert!(rt; fails_at > 10);
    }
    Ok(())
}
