//! Comparing two inputs, checked against a list of booleans.
use crate::devices::{Device, NEVER, input};
use crate::samples::{BOOLEANS, COLUMNLESS, COMPRESSED, EMPTY, FILE, STREAM, bytes_of};
use cli_args::Format;
use cli_read::{CompareError, compare};
use cli_rows::{BatchError, CliError, Difference};
use ipc::{Batch, write_file, write_stream};
use ipc_flatbuf::{CompressionError, IpcReadError, IpcWriteError};
use ipc_schema::{Projection, Schema};
use nest_array::AnyArray;
use nest_flat::boolean::BooleanArray;
use nest_memory::datatypes::{DataType, Field, Metadata};
use std::alloc::Global;
use std::test::*;

/// Compares bytes. The calls with the numbers `fails_at` fail.
fn compared(
    alloc: Global,
    columns: Projection<'_>,
    left: &[u8],
    right: &[u8],
    fails_at: (usize, usize),
) -> Result<Option<Difference>, CompareError> {
    match (left.to_vec(alloc), right.to_vec(alloc)) {
        (Ok(x), Ok(y)) => {
            let x = input(left, Device::new(x, fails_at.0));
            let y = input(right, Device::new(y, fails_at.1));
            compare(alloc, columns, x, y)
        }
        _ => Err(CompareError::TooManyRows),
    }
}

/// Compares samples.
fn samples_compared(
    alloc: Global,
    columns: Projection<'_>,
    left: &[u8],
    right: &[u8],
) -> Result<Option<Difference>, CompareError> {
    compared(alloc, columns, left, right, (NEVER, NEVER))
}

/// Returns an error of reading a record batch.
pub fn read_error(batch: Option<usize>, error: IpcReadError) -> BatchError {
    BatchError {
        batch,
        error: CliError::Read(error),
    }
}

#[test]
fn samples_are_compared(rt: HostRuntime) -> Result<(), Fail> {
    for sample in [STREAM, FILE, BOOLEANS, COLUMNLESS, EMPTY] {
        let same = samples_compared(rt.alloc(), Projection::All, sample, sample);
        assert!(rt; same == Ok(None));
    }
    let same = samples_compared(rt.alloc(), Projection::All, STREAM, FILE);
    assert!(rt; same == Ok(None));
    let schema = samples_compared(rt.alloc(), Projection::All, BOOLEANS, COLUMNLESS);
    assert!(rt; schema == Ok(Some(Difference::Schema)));
    let rows = samples_compared(rt.alloc(), Projection::Names(&["a"]), EMPTY, FILE);
    assert!(rt; rows == Ok(Some(Difference::Row(0))));
    let rows = samples_compared(rt.alloc(), Projection::Names(&["a"]), FILE, EMPTY);
    assert!(rt; rows == Ok(Some(Difference::Row(0))));
    let truncated = IpcReadError::Compression(CompressionError::Truncated);
    let compressed = read_error(Some(0), truncated);
    let error = samples_compared(rt.alloc(), Projection::All, COMPRESSED, STREAM);
    assert!(rt; error == Err(CompareError::First(compressed)));
    let error = samples_compared(rt.alloc(), Projection::All, STREAM, COMPRESSED);
    assert!(rt; error == Err(CompareError::Second(compressed)));
    // Schemas are compared before any record batch is read.
    let schema = samples_compared(rt.alloc(), Projection::All, COMPRESSED, BOOLEANS);
    assert!(rt; schema == Ok(Some(Difference::Schema)));
    Ok(())
}

/// Returns a schema of one boolean column.
fn schema(alloc: Global) -> Result<Schema, IpcWriteError> {
    let mut fields = Vec::new(alloc);
    fields.push(Field::new(alloc, "ok", DataType::Boolean, true).map_err(
        |_| IpcWriteError::Memory,
    )?)?;
    Ok(Schema {
        fields,
        metadata: Metadata::new(alloc),
    })
}

/// Returns booleans as a record batch.
fn batch(alloc: Global, rows: &[bool]) -> Result<Batch, IpcWriteError> {
    let array = BooleanArray::from_slice(alloc, rows).map_err(|_| IpcWriteError::Memory)?;
    let mut columns = Vec::new(alloc);
    columns.push(AnyArray::Boolean(array))?;
    Ok(Batch {
        rows: rows.len(),
        columns,
    })
}

/// Returns record batches of booleans, encoded in a format.
pub fn bytes_in(
    alloc: Global,
    format: Format,
    batches: &[&[bool]],
) -> Result<Vec<u8>, IpcWriteError> {
    let mut all = Vec::new(alloc);
    for rows in batches {
        all.push(batch(alloc, rows)?)?;
    }
    let schema = schema(alloc)?;
    match format {
        Format::File => write_file(alloc, &schema, &all),
        Format::Stream => write_stream(alloc, &schema, &all),
    }
}

/// Returns booleans in four record batches, split at these offsets.
fn split_at(
    alloc: Global,
    format: Format,
    rows: &[bool],
    offsets: [usize; 3],
) -> Result<Vec<u8>, IpcWriteError> {
    let [a, b, c] = offsets;
    bytes_in(
        alloc,
        format,
        &[&rows[..a], &rows[a..b], &rows[b..c], &rows[c..]],
    )
}

/// Where two lists samples_compared first.
fn first_difference(xs: &[bool], ys: &[bool]) -> Option<usize> {
    for i in 0..xs.len().max(ys.len()) {
        if xs.get(i) != ys.get(i) {
            return Some(i);
        }
    }
    None
}

/// Offsets in order, some of them equal.
const OFFSETS: [[usize; 3]; 5] = [[0, 0, 0], [0, 1, 3], [1, 1, 2], [2, 3, 4], [3, 4, 4]];

#[test]
fn different_rows_are_found(rt: HostRuntime) -> Result<(), Fail> {
    let alloc = rt.alloc();
    let rows = [true, false, false, true, false, true];
    for changed in 0..7usize {
        for len in [4usize, 5, 6] {
            let mut others = rows;
            if changed < 6 {
                others[changed] = !others[changed];
            }
            let want = first_difference(&rows, &others[..len]).map(Difference::Row);
            for left in OFFSETS {
                for right in OFFSETS {
                    let x = split_at(alloc, Format::Stream, &rows, left).expect(&rt, "a stream");
                    let y = split_at(alloc, Format::File, &others[..len], right).expect(
                        &rt, "a file",
                    );
                    let found = compared(alloc, Projection::All, &x, &y, (NEVER, NEVER));
                    assert!(rt;
                        found == Ok(want),
                        "{changed} {len} {left:?} {right:?}: {found:?}"
                    );
                    let found = compared(alloc, Projection::All, &y, &x, (NEVER, NEVER));
                    assert!(rt;
                        found == Ok(want),
                        "{changed} {len} {right:?} {left:?}: {found:?}"
                    );
                }
            }
        }
    }
    Ok(())
}

#[test]
fn errors_follow_equal_rows(rt: HostRuntime) -> Result<(), Fail> {
    let alloc = rt.alloc();
    let mut broken = bytes_of(alloc, STREAM)?;
    // The metadata length of the third record batch is negative.
    broken[632] = 0;
    let whole = bytes_of(alloc, FILE)?;
    let error = read_error(Some(2), IpcReadError::MetadataLength);
    let found = compared(alloc, Projection::All, &broken, &whole, (NEVER, NEVER));
    assert!(rt; found == Err(CompareError::First(error)), "{found:?}");
    let found = compared(alloc, Projection::All, &whole, &broken, (NEVER, NEVER));
    assert!(rt; found == Err(CompareError::Second(error)), "{found:?}");
    // Rows that samples_compared before it are compared instead.
    let left = bytes_in(alloc, Format::Stream, &[&[true], &[false]]).expect(&rt, "a stream");
    let mut others = bytes_in(alloc, Format::Stream, &[&[false], &[false]]).expect(&rt, "a stream");
    let last = others.len() - 8;
    others.truncate(last);
    let found = compared(alloc, Projection::All, &left, &others, (NEVER, NEVER));
    assert!(rt; found == Ok(Some(Difference::Row(0))), "{found:?}");
    let mut same = bytes_in(alloc, Format::Stream, &[&[true], &[false]]).expect(&rt, "a stream");
    same.truncate(last + 4);
    let found = compared(alloc, Projection::All, &left, &same, (NEVER, NEVER));
    let error = read_error(Some(2), IpcReadError::Truncated);
    assert!(rt; found == Err(CompareError::Second(error)), "{found:?}");
    Ok(())
}

#[test]
fn devices_fail_at_any_call(rt: HostRuntime) -> Result<(), Fail> {
    let alloc = rt.alloc();
    let stream = bytes_of(alloc, STREAM)?;
    let file = bytes_of(alloc, FILE)?;
    let mut errors = 0;
    for call in 0..500usize {
        for fails_at in [(call, NEVER), (NEVER, call)] {
            match compared(alloc, Projection::All, &stream, &file, fails_at) {
                Ok(difference) => assert!(rt; difference.is_none()),
                Err(CompareError::First(e)) => {
                    assert!(rt; fails_at.0 == call && e.error == CliError::Input, "{e:?}");
                    errors += 1;
                }
                Err(CompareError::Second(e)) => {
                    assert!(rt; fails_at.1 == call && e.error == CliError::Input, "{e:?}");
                    errors += 1;
                }
                Err(CompareError::TooManyRows) => assert!(rt; false),
            }
        }
    }
    assert!(rt; errors > 300, "{errors}");
    Ok(())
}

#[test]
fn files_of_equal_bytes_are_equal(rt: HostRuntime) -> Result<(), Fail> {
    let alloc = rt.alloc();
    let rows = [true, false, false, true];
    let file = split_at(alloc, Format::File, &rows, [1, 2, 3]).expect(&rt, "a file");
    let same = compared(alloc, Projection::All, &file, &file, (NEVER, NEVER));
    assert!(rt; same == Ok(None), "{same:?}");
    // A changed byte in both: the error is that of the first.
    let mut unread = 0;
    for at in (0..file.len()).step_by(5) {
        let mut changed_bytes = file.to_vec(alloc)?;
        changed_bytes[at] = !changed_bytes[at];
        match compared(
            alloc,
            Projection::All,
            &changed_bytes,
            &changed_bytes,
            (NEVER, NEVER),
        ) {
            Ok(difference) => assert!(rt; difference.is_none(), "{at}: {difference:?}"),
            Err(CompareError::First(_)) => unread += 1,
            Err(why) => assert!(rt; false, "{at}: {why:?}"),
        }
    }
    assert!(rt; unread > 10, "{unread}");
    // After a failure the record batches are compared.
    let mut errors = 0;
    for call in (0..1000usize).step_by(7) {
        for fails_at in [(call, NEVER), (NEVER, call)] {
            match compared(alloc, Projection::All, &file, &file, fails_at) {
                Ok(difference) => assert!(rt; difference.is_none()),
                Err(CompareError::First(e) | CompareError::Second(e)) => {
                    assert!(rt; e.error == CliError::Input, "{e:?}");
                    errors += 1;
                }
                Err(CompareError::TooManyRows) => assert!(rt; false),
            }
        }
    }
    assert!(rt; errors > 20, "{errors}");
    Ok(())
}
