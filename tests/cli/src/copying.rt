//! Copying one record batch at a time.
use crate::comparing::{bytes_in, read_error};
use crate::devices::{Count, Device, NEVER, Sink, input};
use crate::oracle::{converted, lines_of, selected};
use crate::samples::{BOOLEANS, COLUMNLESS, COMPRESSED, EMPTY, FILE, STREAM, bytes_of};
use cli_args::{Column, Condition, Format, Selection};
use cli_read::open;
use cli_rows::{BatchError, CliError, ColumnError, in_row_order};
use cli_write::copy;
use ipc_flatbuf::{CompressionError, IpcReadError};
use ipc_schema::Projection;
use std::alloc::Global;
use std::test::*;

/// Returns an error before any record batch.
pub fn before_batches(error: CliError) -> BatchError {
    BatchError { batch: None, error }
}

/// Copies bytes. Returns the bytes written, and the number of record batches read. The call with the number `fails_at.0` fails, and the
/// output has room for `fails_at.1` bytes.
fn copied(
    alloc: Global,
    bytes: &[u8],
    format: Format,
    selection: Selection,
    fails_at: (usize, usize),
) -> Result<(Vec<u8>, usize), BatchError> {
    let mut count = Count::new();
    let own = bytes
        .to_vec(alloc)
        .map_err(|_| before_batches(CliError::Memory))?;
    let from = input(bytes, Device::new(own, fails_at.0));
    let out = Sink::new(alloc, fails_at.1);
    let out = copy(
        alloc,
        Projection::All,
        format,
        selection,
        from,
        out,
        &mut count,
    )?;
    Ok((out.bytes, count.batches))
}

#[test]
fn samples_are_copied(rt: HostRuntime) -> Result<(), Fail> {
    let alloc = rt.alloc();
    for sample in [STREAM, FILE, BOOLEANS, COLUMNLESS, EMPTY] {
        let bytes = bytes_of(alloc, sample)?;
        for format in [Format::File, Format::Stream] {
            let want = converted(alloc, format, &bytes).expect(&rt, "bytes");
            let (made, _) = copied(alloc, &bytes, format, Selection::All, (NEVER, NEVER)).expect(
                &rt, "a copy",
            );
            assert!(rt; made == want);
        }
    }
    Ok(())
}

/// Copies a slice, and compares it with the slice of the table. Returns the number of record batches read.
fn batches_read_for_slice(
    alloc: Global,
    bytes: &[u8],
    format: Format,
    start: usize,
    count: usize,
) -> Option<usize> {
    let want = selected(alloc, format, &Selection::Slice(start, count), bytes).ok()?;
    let selection = Selection::Slice(start, count);
    let (made, batches) = copied(alloc, bytes, format, selection, (NEVER, NEVER)).ok()?;
    if made != want {
        return None;
    }
    Some(batches)
}

#[test]
fn slices_are_copied(rt: HostRuntime) -> Result<(), Fail> {
    let alloc = rt.alloc();
    for sample in [STREAM, FILE, COLUMNLESS, EMPTY] {
        let bytes = bytes_of(alloc, sample)?;
        for start in 0..5usize {
            for count in [0usize, 1, 2, 3, usize::MAX] {
                for format in [Format::File, Format::Stream] {
                    let read = batches_read_for_slice(alloc, &bytes, format, start, count);
                    assert!(rt; read.is_some(), "{start} {count}");
                }
            }
        }
    }
    Ok(())
}

#[test]
fn slices_end_in_a_batch(rt: HostRuntime) -> Result<(), Fail> {
    let alloc = rt.alloc();
    for format in [Format::File, Format::Stream] {
        let rows: [&[bool]; 4] = [&[true, false], &[], &[false, true, true], &[false]];
        let bytes = bytes_in(alloc, format, &rows).expect(&rt, "bytes");
        for (start, count, batches) in [
            (0usize, 0usize, 0usize),
            (0, 1, 1),
            (0, 2, 1),
            (0, 3, 3),
            (1, 1, 1),
            (1, 2, 3),
            (2, 3, 3),
            (2, 4, 4),
            (5, 1, 4),
            (6, 0, 0),
            (6, 1, 4),
        ] {
            let read = batches_read_for_slice(alloc, &bytes, Format::Stream, start, count);
            assert!(rt; read == Some(batches), "{start} {count}: {read:?}");
        }
    }
    Ok(())
}

#[test]
fn true_rows_are_copied(rt: HostRuntime) -> Result<(), Fail> {
    let alloc = rt.alloc();
    let bytes = bytes_of(alloc, BOOLEANS)?;
    for name in ["a", "b"] {
        for format in [Format::File, Format::Stream] {
            let selection = Selection::Where(Condition::IsTrue(
                Column::Named(String::from_str(alloc, name)?),
                0,
            ));
            let want = selected(alloc, format, &selection, &bytes).expect(&rt, "bytes");
            let selection = in_row_order(selection).ok().expect(&rt, "an order");
            let (made, _) = copied(alloc, &bytes, format, selection, (NEVER, NEVER)).expect(
                &rt, "a copy",
            );
            assert!(rt; made == want);
        }
    }
    let indices = in_row_order(Selection::Indices(Vec::new(alloc)));
    assert!(rt; indices.is_err());
    Ok(())
}

#[test]
fn errors_end_a_copy(rt: HostRuntime) -> Result<(), Fail> {
    let alloc = rt.alloc();
    let mut broken = bytes_of(alloc, STREAM)?;
    // The metadata length of the third record batch is negative.
    broken[632] = 0;
    let error = read_error(Some(2), IpcReadError::MetadataLength);
    let found = copied(alloc, &broken, Format::File, Selection::All, (NEVER, NEVER)).err();
    assert!(rt; found == Some(error), "{found:?}");
    let found = copied(
        alloc,
        &broken,
        Format::File,
        Selection::Slice(0, 3),
        (NEVER, NEVER),
    )
    .err();
    assert!(rt; found == Some(error), "{found:?}");
    let (made, _) = copied(
        alloc,
        &broken,
        Format::File,
        Selection::Slice(1, 1),
        (NEVER, NEVER),
    )
    .expect(&rt, "a copy");
    assert!(rt;
        lines_of(alloc, &made).expect(&rt, "lines").as_str() == "{\"a\":null,\"b\":\"b\"}\n"
    );
    let compressed = bytes_of(alloc, COMPRESSED)?;
    let truncated = IpcReadError::Compression(CompressionError::Truncated);
    let error = read_error(Some(0), truncated);
    let found = copied(
        alloc,
        &compressed,
        Format::Stream,
        Selection::All,
        (NEVER, NEVER),
    )
    .err();
    assert!(rt; found == Some(error), "{found:?}");
    assert!(rt;
        copied(
            alloc,
            &compressed,
            Format::Stream,
            Selection::Slice(7, 0),
            (NEVER, NEVER)
        )
        .is_ok()
    );
    for (name, error) in [
        ("b", ColumnError::NotBoolean(0)),
        ("c", ColumnError::UnknownColumn(0)),
    ] {
        let selection = Selection::Where(Condition::IsTrue(
                Column::Named(String::from_str(alloc, name)?),
                0,
            ));
        let found = copied(
            alloc,
            &compressed,
            Format::Stream,
            selection,
            (NEVER, NEVER),
        )
        .err();
        let error = before_batches(CliError::Condition(error));
        assert!(rt; found == Some(error), "{found:?}");
    }
    Ok(())
}

#[test]
fn devices_and_outputs_fail(rt: HostRuntime) -> Result<(), Fail> {
    let alloc = rt.alloc();
    for sample in [STREAM, FILE] {
        let bytes = bytes_of(alloc, sample)?;
        for format in [Format::File, Format::Stream] {
            let (want, _) = copied(alloc, &bytes, format, Selection::All, (NEVER, NEVER)).expect(
                &rt, "a copy",
            );
            for at in (0..want.len()).step_by(7) {
                let found = copied(alloc, &bytes, format, Selection::All, (NEVER, at));
                assert!(rt;
                    found.err().map(|e| e.error) == Some(CliError::Output),
                    "{at}"
                );
            }
            let mut errors = 0;
            for call in (0..400usize).step_by(3) {
                match copied(alloc, &bytes, format, Selection::All, (call, NEVER)) {
                    Ok((made, _)) => assert!(rt; made == want),
                    Err(e) => {
                        assert!(rt; e.error == CliError::Input, "{e}");
                        errors += 1;
                    }
                }
            }
            assert!(rt; errors > 30, "{errors}");
        }
    }
    Ok(())
}

#[test]
fn batches_are_read(rt: HostRuntime) -> Result<(), Fail> {
    let alloc = rt.alloc();
    for sample in [STREAM, FILE] {
        let bytes = bytes_of(alloc, sample)?;
        let device = Device::new(bytes.to_vec(alloc)?, NEVER);
        let mut reader = open(alloc, Projection::All, input(&bytes, device)).expect(
            &rt, "a reader",
        );
        for rows in [2usize, 0, 1] {
            let next = reader.next_batch(alloc).expect(&rt, "a result");
            assert!(rt; next.map(|batch| batch.rows) == Some(rows));
        }
        assert!(rt; reader.next_batch(alloc).expect(&rt, "a result").is_none());
    }
    Ok(())
}
