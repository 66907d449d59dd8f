//! Printing one record batch at a time.
use crate::devices::{Device, NEVER, Sink, input};
use crate::oracle::{request, text_of};
use crate::samples::{BOOLEANS, COLUMNLESS, COMPRESSED, EMPTY, FILE, STREAM, bytes_of};
use cli_args::Request;
use cli_read::{is_file, print, read_first_bytes};
use cli_rows::{BatchError, CliError, in_row_order};
use ipc_flatbuf::{CompressionError, IpcReadError};
use ipc_schema::Projection;
use std::alloc::Global;
use std::test::*;

/// Returns the request of a command whose rows are in row order.
fn ordered(alloc: Global, arguments: &[&str]) -> Result<Request, CliError> {
    match request(alloc, arguments)? {
        Some(Request::Columns) => Ok(Request::Columns),
        Some(Request::Rows(selection)) => match in_row_order(selection) {
            Ok(selection) => Ok(Request::Rows(selection)),
            Err(_) => Err(CliError::IndexOutOfRange),
        },
        None => Err(CliError::IndexOutOfRange),
    }
}

/// Prints the result of a command, and returns the bytes written.
fn printed(
    alloc: Global,
    arguments: &[&str],
    bytes: &[u8],
    fails_at: usize,
    room: usize,
) -> Result<(Result<(), BatchError>, Vec<u8>), CliError> {
    let device = Device::new(bytes.to_vec(alloc)?, fails_at);
    let mut sink = Sink::new(alloc, room);
    let request = ordered(alloc, arguments)?;
    let done = print(
        alloc,
        Projection::All,
        request,
        input(bytes, device),
        &mut sink,
    );
    Ok((done, sink.bytes))
}

const COMMANDS: [&[&str]; 12] = [
    &["schema"],
    &["rows"],
    &["slice", "0", "0"],
    &["slice", "0", "2"],
    &["slice", "1", "1"],
    &["slice", "1", "9"],
    &["cut", "2", "1"],
    &["cut", "3", "1"],
    &["cut", "9", "18446744073709551615"],
    &["where", "a"],
    &["where", "b"],
    &["where", "c"],
];

#[test]
fn samples_are_printed(rt: HostRuntime) -> Result<(), Fail> {
    let alloc = rt.alloc();
    for sample in [STREAM, FILE, BOOLEANS, EMPTY] {
        let bytes = bytes_of(alloc, sample)?;
        for arguments in COMMANDS {
            let (done, out) = printed(alloc, arguments, &bytes, NEVER, NEVER)?;
            match text_of(alloc, Projection::All, &ordered(alloc, arguments)?, &bytes) {
                Ok(text) => {
                    assert!(rt;
                        done == Ok(()) && out.as_slice() == text.as_bytes(),
                        "{arguments:?}: {done:?}"
                    );
                }
                Err(error) => {
                    assert!(rt;
                        done == Err(BatchError { batch: None, error }) && out.is_empty(),
                        "{arguments:?}: {done:?}"
                    );
                }
            }
        }
    }
    Ok(())
}

#[test]
fn errors_follow_complete_batches(rt: HostRuntime) -> Result<(), Fail> {
    let alloc = rt.alloc();
    let two = "{\"a\":1,\"b\":\"a\"}\n{\"a\":null,\"b\":\"b\"}\n";
    let mut stream = bytes_of(alloc, STREAM)?;
    // The metadata length of the third record batch is negative.
    stream[632] = 0;
    let (done, out) = printed(alloc, &["rows"], &stream, NEVER, NEVER)?;
    let error = BatchError {
        batch: Some(2),
        error: CliError::Read(IpcReadError::MetadataLength),
    };
    assert!(rt;
        done == Err(error) && out.as_slice() == two.as_bytes(),
        "{done:?}"
    );
    let line = format!(in alloc; "{error}")?;
    let want = format!(in alloc; "record batch 2: {}", IpcReadError::MetadataLength)?;
    assert!(rt; line == want, "{line}");
    let mut file = bytes_of(alloc, FILE)?;
    file[640] = 0;
    let (done, out) = printed(alloc, &["rows"], &file, NEVER, NEVER)?;
    assert!(rt;
        done == Err(error) && out.as_slice() == two.as_bytes(),
        "{done:?}"
    );
    let (done, out) = printed(
        alloc,
        &["rows"],
        &bytes_of(alloc, COLUMNLESS)?,
        NEVER,
        NEVER,
    )?;
    let error = BatchError {
        batch: Some(0),
        error: CliError::MismatchedColumns,
    };
    assert!(rt; done == Err(error) && out.is_empty(), "{done:?}");
    Ok(())
}

#[test]
fn unselected_batches_are_not_read(rt: HostRuntime) -> Result<(), Fail> {
    let alloc = rt.alloc();
    let stream = bytes_of(alloc, STREAM)?;
    let two = "{\"a\":1,\"b\":\"a\"}\n{\"a\":null,\"b\":\"b\"}\n";
    // The second record batch is truncated, and not needed for two rows.
    for end in [424, 500] {
        let (done, out) = printed(alloc, &["slice", "0", "2"], &stream[..end], NEVER, NEVER)?;
        assert!(rt;
            done == Ok(()) && out.as_slice() == two.as_bytes(),
            "{end}: {done:?}"
        );
    }
    let (done, out) = printed(alloc, &["slice", "0", "3"], &stream[..500], NEVER, NEVER)?;
    assert!(rt; done.err().and_then(|e| e.batch) == Some(1) && out.as_slice() == two.as_bytes());
    // No row, or the columns: the schema is sufficient.
    for arguments in [["slice", "0", "0"].as_slice(), ["schema"].as_slice()] {
        let (done, _) = printed(alloc, arguments, &stream[..200], NEVER, NEVER)?;
        assert!(rt; done == Ok(()), "{done:?}");
    }
    let compressed = bytes_of(alloc, COMPRESSED)?;
    let (done, out) = printed(alloc, &["schema"], &compressed, NEVER, NEVER)?;
    assert!(rt; done == Ok(()) && !out.is_empty());
    let (done, out) = printed(alloc, &["rows"], &compressed, NEVER, NEVER)?;
    let error = CliError::Read(IpcReadError::Compression(CompressionError::Truncated));
    assert!(rt;
        done == Err(BatchError {
            batch: Some(0),
            error
        }) && out.is_empty()
    );
    Ok(())
}

#[test]
fn device_errors_follow_complete_batches(rt: HostRuntime) -> Result<(), Fail> {
    let alloc = rt.alloc();
    for sample in [STREAM, FILE] {
        let bytes = bytes_of(alloc, sample)?;
        let (_, whole) = printed(alloc, &["rows"], &bytes, NEVER, NEVER)?;
        for call in 0..400usize {
            let (done, out) = printed(alloc, &["rows"], &bytes, call, NEVER)?;
            match done {
                Ok(()) => assert!(rt; out == whole),
                Err(e) => {
                    assert!(rt; e.error == CliError::Input, "{e:?}");
                    assert!(rt;
                        whole.starts_with(&out) && (out.is_empty() || out[out.len() - 1] == b'\n')
                    );
                    assert!(rt; e.batch.is_none() == (out.is_empty() && e.batch != Some(0)));
                }
            }
        }
        for room in 0..whole.len() {
            let (done, out) = printed(alloc, &["rows"], &bytes, NEVER, room)?;
            assert!(rt; done.err().map(|e| e.error) == Some(CliError::Output));
            assert!(rt; out.len() == room && whole.starts_with(&out));
        }
    }
    Ok(())
}

#[test]
fn first_bytes_tell_formats(rt: HostRuntime) -> Result<(), Fail> {
    let alloc = rt.alloc();
    for (bytes, want, is) in [
        (b"ARROW1 and more".as_slice(), b"ARROW1".as_slice(), true),
        (b"ARROW", b"ARROW", false),
        (b"", b"", false),
        (b"\xff\xff\xff\xff\0\0\0\0", b"\xff\xff\xff\xff\0\0", false),
    ] {
        let mut device = Device::new(bytes.to_vec(alloc)?, NEVER);
        let head = read_first_bytes(alloc, &mut device)?;
        assert!(rt; head.as_slice() == want && is_file(&head) == is && device.at == want.len());
    }
    let mut device = Device::new(bytes_of(alloc, STREAM)?, 1);
    assert!(rt; read_first_bytes(alloc, &mut device).err() == Some(CliError::Input));
    assert!(rt; ordered(alloc, &["take", "0"]).is_err());
    Ok(())
}
