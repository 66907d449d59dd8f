//! The last rows as lines.
use crate::comparing::{bytes_in, read_error};
use crate::copying::before_batches;
use crate::counting::overwrite_bodies;
use crate::devices::{Device, NEVER, input};
use crate::oracle::{converted, lines_of};
use crate::samples::{
    BOOLEANS, COLUMNLESS, COMPRESSED, DICTIONARIES, DICTIONARY_FILE, EMPTY, FILE, STREAM, bytes_of,
};
use cli_args::Format;
use cli_read::tail_lines;
use cli_rows::{BatchError, CliError};
use ipc_flatbuf::{CompressionError, IpcReadError};
use ipc_schema::Projection;
use std::alloc::Global;
use std::test::*;

/// Returns the last rows of bytes as lines. The call with the number `fails_at` fails.
fn tail_of(
    alloc: Global,
    columns: Projection<'_>,
    bytes: &[u8],
    count: usize,
    fails_at: usize,
) -> Result<String, BatchError> {
    let own = bytes
        .to_vec(alloc)
        .map_err(|_| before_batches(CliError::Memory))?;
    let from = input(bytes, Device::new(own, fails_at));
    tail_lines(alloc, columns, count, from)
}

fn last_of(alloc: Global, bytes: &[u8], count: usize) -> Result<String, BatchError> {
    tail_of(alloc, Projection::All, bytes, count, NEVER)
}

/// Returns the last lines of a text, so many at most.
fn last_lines(text: &str, count: usize) -> &str {
    let bytes = text.as_bytes();
    let mut missing = count;
    for k in 0..bytes.len() {
        let i = bytes.len() - 1 - k;
        if bytes[i] == b'\n' {
            if missing == 0 {
                return text.get(i + 1..).unwrap_or("");
            }
            missing -= 1;
        }
    }
    text
}

const COUNTS: [usize; 8] = [0, 1, 2, 3, 4, 10, 11, usize::MAX];

#[test]
fn last_rows_of_samples_are_printed(rt: HostRuntime) -> Result<(), Fail> {
    let alloc = rt.alloc();
    for sample in [STREAM, FILE, BOOLEANS, EMPTY, DICTIONARIES, DICTIONARY_FILE] {
        let all = lines_of(alloc, sample).expect(&rt, "lines");
        for count in COUNTS {
            let found = last_of(alloc, sample, count);
            let want = last_lines(&all, count);
            assert!(rt;
                found.expect(&rt, "rows").as_str() == want,
                "{count} of {all}"
            );
        }
    }
    let one = tail_of(alloc, Projection::Names(&["a"]), FILE, 1, NEVER);
    assert!(rt; one.expect(&rt, "a row").as_str() == "{\"a\":3}\n");
    Ok(())
}

#[test]
fn last_rows_of_many_batches_are_printed(rt: HostRuntime) -> Result<(), Fail> {
    let alloc = rt.alloc();
    let mut truths = [true; 64];
    for i in 0..truths.len() {
        truths[i] = i * i % 5 < 2;
    }
    for batches in 0..30usize {
        let mut parts: Vec<&[bool]> = Vec::new(alloc);
        for k in 0..batches {
            let from = (k * 5 + batches) % 50;
            parts.push(&truths[from..from + (k * 7 + batches * 3) % 11])?;
        }
        for format in [Format::File, Format::Stream] {
            let bytes = bytes_in(alloc, format, &parts).expect(&rt, "bytes");
            let all = lines_of(alloc, &bytes).expect(&rt, "lines");
            for count in [0, 1, 2, 3, 5, 8, 13, 21, 34, 55, 89, 144, 300] {
                let found = last_of(alloc, &bytes, count).expect(&rt, "rows");
                assert!(rt;
                    found.as_str() == last_lines(&all, count),
                    "{count} of {batches}"
                );
            }
        }
    }
    Ok(())
}

#[test]
fn batches_of_a_file_before_the_last_rows_are_not_read(rt: HostRuntime) -> Result<(), Fail> {
    let alloc = rt.alloc();
    let mut bytes = bytes_of(alloc, FILE)?;
    let all = lines_of(alloc, &bytes).expect(&rt, "lines");
    // The record batches have 2, 0 and 1 rows.
    overwrite_bodies(alloc, &mut bytes, 1)?;
    assert!(rt; last_of(alloc, &bytes, 1).expect(&rt, "a row").as_str() == last_lines(&all, 1));
    let found = last_of(alloc, &bytes, 2);
    assert!(rt; found.is_err_and(|e| e.batch == Some(0)));
    overwrite_bodies(alloc, &mut bytes, 3)?;
    assert!(rt; last_of(alloc, &bytes, 0).expect(&rt, "no row").is_empty());
    let found = last_of(alloc, &bytes, 1);
    assert!(rt; found.is_err_and(|e| e.batch == Some(2)));
    Ok(())
}

#[test]
fn errors_are_returned(rt: HostRuntime) -> Result<(), Fail> {
    let alloc = rt.alloc();
    let mut stream = bytes_of(alloc, STREAM)?;
    // The metadata length of the third record batch is negative.
    stream[632] = 0;
    for count in COUNTS {
        let negative = Err(read_error(Some(2), IpcReadError::MetadataLength));
        assert!(rt; last_of(alloc, &stream, count) == negative);
        let truncated = IpcReadError::Compression(CompressionError::Truncated);
        let found = last_of(alloc, COMPRESSED, count);
        assert!(rt; found == Err(read_error(Some(0), truncated)), "{found:?}");
        let none = BatchError {
            batch: Some(0),
            error: CliError::MismatchedColumns,
        };
        assert!(rt; last_of(alloc, COLUMNLESS, count) == Err(none));
    }
    for (names, name) in [(["c"].as_slice(), 0), (&["a", "d"], 1)] {
        for sample in [STREAM, FILE] {
            let found = tail_of(alloc, Projection::Names(names), sample, 2, NEVER);
            assert!(rt; found == Err(before_batches(CliError::UnknownName(name))));
        }
    }
    Ok(())
}

#[test]
fn hostile_bytes_are_printed_or_refused(rt: HostRuntime) -> Result<(), Fail> {
    let alloc = rt.alloc();
    for sample in [STREAM, FILE, DICTIONARY_FILE] {
        let bytes = bytes_of(alloc, sample)?;
        for i in 6..bytes.len() {
            let mut hostile = bytes_of(alloc, sample)?;
            hostile[i] ^= 255;
            for count in [1, 10] {
                let found = last_of(alloc, &hostile, count);
                // Rows that are printed completely end in those that are found.
                if let Ok(all) = lines_of(alloc, &hostile) {
                    let want = last_lines(&all, count);
                    assert!(rt; found.expect(&rt, "rows").as_str() == want, "byte {i}");
                }
            }
        }
    }
    Ok(())
}

#[test]
fn failing_readers_are_errors(rt: HostRuntime) -> Result<(), Fail> {
    let alloc = rt.alloc();
    let all = lines_of(alloc, STREAM).expect(&rt, "lines");
    let want = last_lines(&all, 2);
    for format in [Format::File, Format::Stream] {
        let bytes = converted(alloc, format, STREAM).expect(&rt, "bytes");
        let mut fails_at = 0;
        loop {
            match tail_of(alloc, Projection::All, &bytes, 2, fails_at) {
                Ok(text) => {
                    assert!(rt; text.as_str() == want);
                    break;
                }
                Err(e) => assert!(rt; e.error == CliError::Input, "call {fails_at}"),
            }
            fails_at += 1;
            assert!(rt; fails_at < 100000);
        }
        assert!(rt; fails_at > 10);
    }
    Ok(())
}
