//! Taking rows by index.
use crate::comparing::{bytes_in, read_error};
use crate::copying::before_batches;
use crate::devices::{Device, NEVER, input};
use crate::oracle::{arrays_of, lines_of, read_table, selected, text_of};
use crate::samples::{BOOLEANS, COLUMNLESS, COMPRESSED, EMPTY, FILE, STREAM, bytes_of};
use cli_args::{Format, Request, Selection};
use cli_read::{take, take_encoded, take_lines};
use cli_rows::{BatchError, CliError, Table, batches_of_arrays, encode_table, take_rows};
use ipc_flatbuf::{CompressionError, IpcReadError};
use ipc_schema::Projection;
use std::alloc::Global;
use std::test::*;

/// Indices in and out of order, repeated, and out of range.
const INDICES: [&[usize]; 12] = [
    &[],
    &[0],
    &[2],
    &[2, 0, 2],
    &[1, 1, 1],
    &[0, 1, 2],
    &[2, 1, 0],
    &[3],
    &[0, 3],
    &[10, 4, 7, 4, 0],
    &[11],
    &[usize::MAX, 0],
];

/// Returns a selection of indices.
fn indices_of(alloc: Global, indices: &[usize]) -> Result<Selection, CliError> {
    Ok(Selection::Indices(indices.to_vec(alloc)?))
}

/// Takes rows of bytes. The call with the number `fails_at` fails.
fn taken(
    alloc: Global,
    bytes: &[u8],
    indices: &[usize],
    fails_at: usize,
) -> Result<Table, BatchError> {
    let own = bytes
        .to_vec(alloc)
        .map_err(|_| before_batches(CliError::Memory))?;
    take(
        alloc,
        Projection::All,
        indices,
        input(bytes, Device::new(own, fails_at)),
    )
}

/// Takes rows, encoded in a format.
fn bytes_at(
    alloc: Global,
    bytes: &[u8],
    format: Format,
    indices: &[usize],
) -> Result<Vec<u8>, BatchError> {
    let own = bytes
        .to_vec(alloc)
        .map_err(|_| before_batches(CliError::Memory))?;
    let from = input(bytes, Device::new(own, NEVER));
    take_encoded(alloc, Projection::All, format, indices, from)
}

/// Takes rows as lines.
fn lines_at(alloc: Global, bytes: &[u8], indices: &[usize]) -> Result<String, BatchError> {
    let own = bytes
        .to_vec(alloc)
        .map_err(|_| before_batches(CliError::Memory))?;
    take_lines(
        alloc,
        Projection::All,
        indices,
        input(bytes, Device::new(own, NEVER)),
    )
}

#[test]
fn samples_are_taken(rt: HostRuntime) -> Result<(), Fail> {
    let alloc = rt.alloc();
    for sample in [STREAM, FILE, BOOLEANS, COLUMNLESS, EMPTY] {
        let bytes = bytes_of(alloc, sample)?;
        for indices in INDICES {
            for format in [Format::File, Format::Stream] {
                let selection = indices_of(alloc, indices)?;
                let want = selected(alloc, format, &selection, &bytes).map_err(before_batches);
                let made = bytes_at(alloc, &bytes, format, indices);
                assert!(rt; made == want, "{indices:?}");
            }
        }
    }
    Ok(())
}

#[test]
fn rows_are_taken_as_lines(rt: HostRuntime) -> Result<(), Fail> {
    let alloc = rt.alloc();
    for sample in [STREAM, FILE, BOOLEANS, EMPTY] {
        let bytes = bytes_of(alloc, sample)?;
        for indices in INDICES {
            let request = Request::Rows(indices_of(alloc, indices)?);
            let want = text_of(alloc, Projection::All, &request, &bytes).map_err(before_batches);
            let found = lines_at(alloc, &bytes, indices);
            assert!(rt; found == want, "{indices:?}: {found:?}");
        }
    }
    let columnless = bytes_of(alloc, COLUMNLESS)?;
    assert!(rt;
        lines_at(alloc, &columnless, &[])
            .expect(&rt, "no lines")
            .is_empty()
    );
    assert!(rt;
        lines_at(alloc, &columnless, &[1]) == Err(before_batches(CliError::MismatchedColumns))
    );
    assert!(rt;
        lines_at(alloc, &columnless, &[3]) == Err(before_batches(CliError::IndexOutOfRange))
    );
    Ok(())
}

/// Returns a pseudo-random number.
fn next(seed: &mut u64) -> usize {
    *seed = seed
        .wrapping_mul(6364136223846793005)
        .wrapping_add(1442695040888963407);
    (*seed >> 33) as usize
}

/// Returns booleans in record batches of seven at most, and all of them.
fn random_batches(alloc: Global, seed: &mut u64) -> Result<(Vec<Vec<bool>>, Vec<bool>), Fail> {
    let mut batches = Vec::new(alloc);
    let mut all = Vec::new(alloc);
    for _ in 0..next(seed) % 9 {
        let mut rows = Vec::new(alloc);
        for _ in 0..next(seed) % 8 {
            let truth = next(seed) % 2 == 0;
            rows.push(truth)?;
            all.push(truth)?;
        }
        batches.push(rows)?;
    }
    Ok((batches, all))
}

#[test]
fn random_rows_are_taken(rt: HostRuntime) -> Result<(), Fail> {
    let alloc = rt.alloc();
    let mut seed = 7u64;
    let mut lacking = 0;
    for _ in 0..300usize {
        let (batches, all) = random_batches(alloc, &mut seed)?;
        let mut parts: Vec<&[bool]> = Vec::new(alloc);
        for rows in &batches {
            parts.push(rows)?;
        }
        let format = if next(&mut seed) % 2 == 0 {
            Format::File
        } else {
            Format::Stream
        };
        let bytes = bytes_in(alloc, format, &parts).expect(&rt, "bytes");
        let mut indices = Vec::new(alloc);
        for _ in 0..next(&mut seed) % 12 {
            indices.push(next(&mut seed) % (all.len() + 1))?;
        }
        let found = bytes_at(alloc, &bytes, Format::Stream, &indices);
        if indices.iter().any(|index| *index >= all.len()) {
            lacking += 1;
            assert!(rt; found == Err(before_batches(CliError::IndexOutOfRange)));
            continue;
        }
        let mut want = Vec::new(alloc);
        for index in &indices {
            want.push(all[*index])?;
        }
        let mut rows: Vec<&[bool]> = Vec::new(alloc);
        if !want.is_empty() {
            rows.push(&want)?;
        }
        let want = bytes_in(alloc, Format::Stream, &rows);
        assert!(rt;
            found.expect(&rt, "rows") == want.expect(&rt, "bytes"),
            "{indices:?}"
        );
    }
    assert!(rt; lacking > 50 && lacking < 250, "{lacking}");
    Ok(())
}

#[test]
fn errors_are_returned_before_missing_rows(rt: HostRuntime) -> Result<(), Fail> {
    let alloc = rt.alloc();
    let mut broken = bytes_of(alloc, STREAM)?;
    // The metadata length of the third record batch is negative.
    broken[632] = 0;
    let error = read_error(Some(2), IpcReadError::MetadataLength);
    for (indices, is_read) in [
        ([].as_slice(), true),
        (&[1, 0, 1], true),
        (&[2], false),
        (&[0, 2], false),
        (&[9], false),
    ] {
        let found = taken(alloc, &broken, indices, NEVER);
        assert!(rt; found.is_ok() == is_read, "{indices:?}");
        if let Err(e) = found {
            assert!(rt; e == error, "{e}");
        }
    }
    let compressed = bytes_of(alloc, COMPRESSED)?;
    assert!(rt; taken(alloc, &compressed, &[], NEVER).is_ok());
    let found = taken(alloc, &compressed, &[0], NEVER).err();
    let truncated = IpcReadError::Compression(CompressionError::Truncated);
    assert!(rt; found == Some(read_error(Some(0), truncated)));
    let found = taken(alloc, b"a,b\n1,2\n", &[0], NEVER).err();
    assert!(rt; found == Some(read_error(None, IpcReadError::Truncated)));
    Ok(())
}

#[test]
fn devices_fail_at_any_call(rt: HostRuntime) -> Result<(), Fail> {
    let alloc = rt.alloc();
    for sample in [STREAM, FILE] {
        let bytes = bytes_of(alloc, sample)?;
        let mut errors = 0;
        for call in 0..400usize {
            match taken(alloc, &bytes, &[2, 0], call) {
                Ok(held) => assert!(rt; held.batches.len() == 1 && held.batches[0].rows == 2),
                Err(e) => {
                    assert!(rt; e.error == CliError::Input, "{e}");
                    errors += 1;
                }
            }
        }
        assert!(rt; errors > 100, "{errors}");
    }
    Ok(())
}

#[test]
fn rows_of_arrays_are_taken(rt: HostRuntime) -> Result<(), Fail> {
    let alloc = rt.alloc();
    for sample in [STREAM, BOOLEANS] {
        let bytes = bytes_of(alloc, sample)?;
        let table = read_table(alloc, Projection::All, &bytes)?;
        let schema = table.schema.clone(alloc)?;
        let arrays = arrays_of(alloc, table)?;
        for indices in INDICES {
            let selection = indices_of(alloc, indices)?;
            let want = text_of(
                alloc,
                Projection::All,
                &Request::Rows(indices_of(alloc, indices)?),
                &bytes,
            );
            match take_rows(alloc, &selection, &arrays) {
                Err(error) => assert!(rt; want == Err(error), "{indices:?}"),
                Ok(rows) => {
                    assert!(rt; rows.len() == if indices.is_empty() { 0 } else { 1 });
                    let batches = batches_of_arrays(alloc, &schema.fields, rows)?;
                    let schema = schema.clone(alloc)?;
                    let made = encode_table(alloc, Format::File, &Table { schema, batches })?;
                    assert!(rt; lines_of(alloc, &made) == want, "{indices:?}");
                }
            }
        }
    }
    Ok(())
}
