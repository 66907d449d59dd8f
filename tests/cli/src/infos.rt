//! What the metadata of an input says: samples; bodies that are not read; types that are not supported; errors; hostile bytes.
use crate::counting::{counted, overwrite_bodies};
use crate::devices::{Device, NEVER};
use crate::samples::{
    BOOLEANS, COLUMNLESS, COMPRESSED, DICTIONARIES, DICTIONARY_FILE, EMPTY, FILE, LEGACY_FILE,
    STREAM, bytes_of,
};
use cli_read::{file_info_lines, is_file, stream_info_lines};
use ipc_flatbuf::message::MetadataVersion;
use ipc_flatbuf::{CompressionCodec, IpcReadError};
use ipc_io::{
    BatchKind, InfoError, IpcInfo, ReadError, read_file_info, read_stream_info, record_batch_count,
};
use ipc_schema::Projection;
use ipc_schema::footer::read_footer;
use std::alloc::{AllocError, Global};
use std::test::*;

/// A stream with a delta dictionary, and a file with one.
const DELTA: &[u8] = include_bytes!("dictionaries/valid/delta.arrows");
const DELTA_FILE: &[u8] = include_bytes!("dictionary_files/valid/delta.arrow");

/// A stream of version 4.
const VERSION_4: &[u8] = include_bytes!("layouts/valid/version_v4.arrows");

/// A file whose messages are of version 4.
const VERSION_4_FILE: &[u8] = include_bytes!("pyarrow/samples/formats/version_4.arrow");

/// Streams and files with compressed dictionary batches, deltas and record batches.
const LZ4: &[u8] = include_bytes!("pyarrow/samples/compressed/lz4_deltas.arrows");
const LZ4_FILE: &[u8] = include_bytes!("pyarrow/samples/compressed/lz4_deltas.arrow");
const ZSTD: &[u8] = include_bytes!("pyarrow/samples/compressed/zstd_deltas.arrows");
const ZSTD_FILE: &[u8] = include_bytes!("pyarrow/samples/compressed/zstd_deltas.arrow");

/// A stream and a file of list views, which are not supported.
const LIST_VIEWS: &[u8] = include_bytes!("pyarrow/samples/formats/list_views.arrows");
const LIST_VIEWS_FILE: &[u8] = include_bytes!("pyarrow/samples/formats/list_views.arrow");

fn out_of_memory(_error: AllocError) -> InfoError {
    InfoError {
        batch: None,
        error: ReadError::Ipc(IpcReadError::Memory),
    }
}

/// Reads what the metadata of bytes says. The call with the number `fails_at` fails.
fn info_of(alloc: Global, bytes: &[u8], fails_at: usize) -> Result<IpcInfo, InfoError> {
    let own = bytes.to_vec(alloc).map_err(out_of_memory)?;
    let mut device = Device::new(own, fails_at);
    if is_file(bytes) {
        read_file_info(alloc, &mut device)
    } else {
        read_stream_info(alloc, &mut device)
    }
}

fn lines_of(alloc: Global, bytes: &[u8]) -> Result<String, InfoError> {
    let own = bytes.to_vec(alloc).map_err(out_of_memory)?;
    let mut device = Device::new(own, NEVER);
    if is_file(bytes) {
        file_info_lines(alloc, &mut device)
    } else {
        stream_info_lines(alloc, &mut device)
    }
}

/// Returns the lines of these values: format, version and compression; the numbers of columns, record batches, rows, dictionary batches and deltas.
fn lines(alloc: Global, texts: [&str; 3], numbers: [usize; 5]) -> Result<String, AllocError> {
    let [format, version, compression] = texts;
    let [columns, batches, rows, dictionaries, deltas] = numbers;
    format!(in alloc;
        "format: {format}\nversion: {version}\ncompression: {compression}\ncolumns: {columns}\nrecord batches: {batches}\nrows: {rows}\ndictionary batches: {dictionaries}\ndelta dictionaries: {deltas}\n"
    )
}

#[test]
fn samples_have_infos(rt: HostRuntime) -> Result<(), Fail> {
    let alloc = rt.alloc();
    for (sample, texts, numbers) in [
        (STREAM, ["stream", "V5", "none"], [2, 3, 3, 0, 0]),
        (FILE, ["file", "V5", "none"], [2, 3, 3, 0, 0]),
        (BOOLEANS, ["stream", "V5", "none"], [2, 1, 11, 0, 0]),
        (COLUMNLESS, ["stream", "V5", "none"], [0, 1, 3, 0, 0]),
        (EMPTY, ["file", "none", "none"], [1, 0, 0, 0, 0]),
        (DICTIONARIES, ["stream", "V5", "none"], [1, 1, 5, 1, 0]),
        (DICTIONARY_FILE, ["file", "V5", "none"], [1, 1, 5, 1, 0]),
        (DELTA, ["stream", "V5", "none"], [1, 3, 6, 2, 1]),
        (DELTA_FILE, ["file", "V5", "none"], [1, 3, 6, 2, 1]),
        (LEGACY_FILE, ["file", "V5", "none"], [2, 2, 4, 0, 0]),
        (VERSION_4, ["stream", "V4", "none"], [2, 1, 2, 0, 0]),
        (VERSION_4_FILE, ["file", "V4", "none"], [4, 1, 20, 0, 0]),
        (LZ4, ["stream", "V5", "lz4"], [1, 2, 2, 2, 1]),
        (LZ4_FILE, ["file", "V5", "lz4"], [1, 2, 2, 2, 1]),
        (ZSTD, ["stream", "V5", "zstd"], [1, 2, 2, 2, 1]),
        (ZSTD_FILE, ["file", "V5", "zstd"], [1, 2, 2, 2, 1]),
    ] {
        let found = lines_of(alloc, sample);
        let want = lines(alloc, texts, numbers)?;
        assert!(rt; found.is_ok_and(|text| text == want), "{want}");
    }
    Ok(())
}

#[test]
fn batches_are_in_the_order_of_reading(rt: HostRuntime) -> Result<(), Fail> {
    let alloc = rt.alloc();
    let kinds = [
        BatchKind::Dictionary,
        BatchKind::Records,
        BatchKind::Delta,
        BatchKind::Records,
    ];
    for (sample, codec, order) in [
        (LZ4, CompressionCodec::Lz4Frame, [0, 1, 2, 3]),
        (ZSTD_FILE, CompressionCodec::Zstd, [0, 2, 1, 3]),
    ] {
        let info = info_of(alloc, sample, NEVER).expect(&rt, "info");
        assert!(rt; info.columns == 1 && info.batches.len() == 4);
        assert!(rt; record_batch_count(&info.batches) == 2);
        for k in 0..4usize {
            let batch = info.batches[k];
            assert!(rt; batch.version == MetadataVersion::V5 && batch.rows == 1);
            assert!(rt; batch.kind == kinds[order[k]] && batch.compression == Some(codec));
        }
    }
    Ok(())
}

#[test]
fn different_batches_are_mixed(rt: HostRuntime) -> Result<(), Fail> {
    let alloc = rt.alloc();
    // The record batch of a stream of version 4, after those of a stream of version 5.
    let mut bytes = bytes_of(alloc, STREAM)?;
    let end = bytes.len() - 8;
    bytes.truncate(end);
    bytes.extend_from_slice(batches_of(VERSION_4))?;
    let found = lines_of(alloc, &bytes);
    let want = lines(alloc, ["stream", "mixed", "none"], [2, 4, 5, 0, 0])?;
    assert!(rt; found.is_ok_and(|text| text == want), "versions");
    for (other, codec) in [(LZ4, "lz4"), (ZSTD, "zstd")] {
        bytes.truncate(end);
        bytes.extend_from_slice(batches_of(other))?;
        let found = lines_of(alloc, &bytes);
        let want = lines(alloc, ["stream", "V5", "mixed"], [2, 5, 5, 2, 1])?;
        assert!(rt; found.is_ok_and(|text| text == want), "{codec}");
    }
    Ok(())
}

/// Returns the bytes of a stream after its schema message, which has no body.
fn batches_of(stream: &[u8]) -> &[u8] {
    &stream[8 + word_at(stream, 4)..]
}

#[test]
fn bodies_and_columns_are_not_read(rt: HostRuntime) -> Result<(), Fail> {
    let alloc = rt.alloc();
    let mut bytes = bytes_of(alloc, FILE)?;
    overwrite_bodies(alloc, &mut bytes, NEVER)?;
    let want = lines(alloc, ["file", "V5", "none"], [2, 3, 3, 0, 0])?;
    assert!(rt; lines_of(alloc, &bytes).is_ok_and(|text| text == want));
    // A buffer is truncated.
    let want = lines(alloc, ["stream", "V5", "lz4"], [2, 1, 3, 0, 0])?;
    assert!(rt; lines_of(alloc, COMPRESSED).is_ok_and(|text| text == want));
    for sample in [LIST_VIEWS, LIST_VIEWS_FILE] {
        assert!(rt; counted(alloc, Projection::All, sample, NEVER).is_err());
        assert!(rt; info_of(alloc, sample, NEVER).is_ok_and(|info| info.columns == 2));
    }
    Ok(())
}

fn is_error(found: Result<IpcInfo, InfoError>, batch: Option<usize>, error: IpcReadError) -> bool {
    match found {
        Err(InfoError {
            batch: k,
            error: ReadError::Ipc(e),
        }) => k == batch && e == error,
        _ => false,
    }
}

#[test]
fn errors_have_their_record_batch(rt: HostRuntime) -> Result<(), Fail> {
    let alloc = rt.alloc();
    let mut stream = bytes_of(alloc, STREAM)?;
    // The metadata length of the third record batch is negative.
    stream[632] = 0;
    let found = info_of(alloc, &stream, NEVER);
    assert!(rt; is_error(found, Some(2), IpcReadError::MetadataLength));
    let mut file = bytes_of(alloc, FILE)?;
    let footer = read_footer(alloc, Projection::All, FILE)?;
    let offset = footer.batches[1].offset as usize;
    file[offset + 7] = 128;
    let found = info_of(alloc, &file, NEVER);
    assert!(rt; is_error(found, Some(1), IpcReadError::MetadataLength));
    let mut dictionary = bytes_of(alloc, DICTIONARY_FILE)?;
    // The dictionary batch is a record batch by its header, which is an error before the first record batch.
    let footer = read_footer(alloc, Projection::All, DICTIONARY_FILE)?;
    let place = header_type(&dictionary, footer.dictionaries[0].offset as usize);
    dictionary[place] = 3;
    let found = info_of(alloc, &dictionary, NEVER);
    assert!(rt; is_error(found, Some(0), IpcReadError::HeaderType));
    dictionary.truncate(20);
    let found = info_of(alloc, &dictionary, NEVER);
    assert!(rt; found.is_err_and(|e| e.batch == None));
    assert!(rt; is_error(info_of(alloc, &[], NEVER), None, IpcReadError::MissingSchema));
    Ok(())
}

/// Returns the position of the type of the header of a message: field 1 of its root table.
fn header_type(bytes: &[u8], message: usize) -> usize {
    let start = message + 8;
    let root = start + word_at(bytes, start);
    let vtable = root - word_at(bytes, root);
    root + bytes[vtable + 6] as usize
}

fn word_at(bytes: &[u8], position: usize) -> usize {
    let part = [
        bytes[position],
        bytes[position + 1],
        bytes[position + 2],
        bytes[position + 3],
    ];
    u32::from_le_bytes(part) as usize
}

#[test]
fn hostile_bytes_have_infos_or_errors(rt: HostRuntime) -> Result<(), Fail> {
    let alloc = rt.alloc();
    for sample in [STREAM, FILE, DICTIONARY_FILE, LZ4] {
        let bytes = bytes_of(alloc, sample)?;
        for i in 6..bytes.len() {
            let mut hostile = bytes_of(alloc, sample)?;
            hostile[i] ^= 255;
            // If the rows are counted and the metadata is valid, the numbers of rows are equal.
            if let Ok(rows) = counted(alloc, Projection::All, &hostile, NEVER) {
                let found = info_of(alloc, &hostile, NEVER);
                assert!(rt; found.is_err() || found.is_ok_and(|info| rows_of(&info) == rows), "byte {i}");
            }
            let _ = info_of(alloc, &bytes[..i], NEVER);
        }
    }
    Ok(())
}

fn rows_of(info: &IpcInfo) -> u128 {
    let mut rows = 0u128;
    for batch in &info.batches {
        if batch.kind == BatchKind::Records {
            rows += batch.rows as u128;
        }
    }
    rows
}

#[test]
fn failing_readers_are_errors(rt: HostRuntime) -> Result<(), Fail> {
    let alloc = rt.alloc();
    for sample in [STREAM, FILE, DELTA_FILE] {
        let mut fails_at = 0;
        while let Err(error) = info_of(alloc, sample, fails_at) {
            assert!(rt; matches!(error.error, ReadError::Io(_)), "call {fails_at}");
            fails_at += 1;
        }
        assert!(rt; fails_at > 10);
    }
    Ok(())
}
