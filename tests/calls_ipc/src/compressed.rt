//! Compressed record batches of Arrow C++, with a byte changed, whole and projected. `tests/pyarrow` compares the rows of unchanged ones.
use crate::samples_read::copied;
use ipc::{Stream, read_stream, read_stream_projected};
use ipc_flatbuf::{CompressionError, IpcReadError};
use ipc_schema::Projection;
use std::alloc::Global;

// Columns `id` of integers, `word` of strings and `flag` of booleans, 100 rows. The buffers of `word` begin at 664.
const ZSTD_ROWS: &[u8] = include_bytes!("pyarrow/samples/compressed/zstd_rows.arrows");

const LZ4_ROWS: &[u8] = include_bytes!("pyarrow/samples/compressed/lz4_rows.arrows");

// Dictionary batches at 152 and 600.
const ZSTD_DELTAS: &[u8] = include_bytes!("pyarrow/samples/compressed/zstd_deltas.arrows");

/// Reads a stream in which one byte has this value.
fn read_changed(
    alloc: Global,
    sample: &[u8],
    index: usize,
    byte: u8,
    columns: Projection<'_>,
) -> Result<Stream, IpcReadError> {
    let mut bytes = copied(alloc, sample)?;
    bytes[index] = byte;
    read_stream_projected(alloc, &bytes, columns)
}

#[test]
fn each_error(rt: HostRuntime) {
    for (sample, index, byte, want) in [
        // the length of buffer 1 in the metadata
        (ZSTD_ROWS, 360, 7, CompressionError::Truncated),
        (ZSTD_ROWS, 360, 100, CompressionError::Truncated),
        // the stated length, the magic number, the frame header and the first block of buffer 1
        (ZSTD_ROWS, 504, 33, CompressionError::Length),
        (ZSTD_ROWS, 511, 128, CompressionError::Length),
        (ZSTD_ROWS, 512, 41, CompressionError::Magic),
        (ZSTD_ROWS, 516, 97, CompressionError::Unsupported),
        (ZSTD_ROWS, 519, 79, CompressionError::Block),
        // the checksum of the descriptor
        (LZ4_ROWS, 510, 131, CompressionError::Checksum),
        // a dictionary batch
        (ZSTD_DELTAS, 360, 41, CompressionError::Magic),
    ] {
        let found = read_changed(rt.alloc(), sample, index, byte, Projection::All).err();
        assert!(rt; found == Some(IpcReadError::Compression(want)), "byte {index}");
    }
}

#[test]
fn other_codecs_are_errors(rt: HostRuntime) {
    for (sample, index) in [(ZSTD_ROWS, 331), (ZSTD_DELTAS, 275)] {
        let found = read_changed(rt.alloc(), sample, index, 2, Projection::All).err();
        assert!(rt; found == Some(IpcReadError::UnsupportedCompression), "byte {index}");
    }
}

#[test]
fn skipped_columns_are_not_decompressed(rt: HostRuntime) {
    let alloc = rt.alloc();
    let whole = read_stream(alloc, ZSTD_ROWS).expect(&rt, "no stream");
    // The magic number of the offsets of `word` is another.
    let others = Projection::Names(&["id", "flag"]);
    let stream = read_changed(alloc, ZSTD_ROWS, 672, 41, others).expect(&rt, "no columns");
    let columns = &stream.batches[0].columns;
    assert!(rt; columns.len() == 2);
    assert!(rt; columns[0] == whole.batches[0].columns[0]);
    assert!(rt; columns[1] == whole.batches[0].columns[2]);
    let word = read_changed(alloc, ZSTD_ROWS, 672, 41, Projection::Names(&["word"])).err();
    assert!(rt; word == Some(IpcReadError::Compression(CompressionError::Magic)));
}

#[test]
fn both_codecs_have_the_same_rows(rt: HostRuntime) {
    let alloc = rt.alloc();
    let one = read_stream(alloc, ZSTD_ROWS).expect(&rt, "no stream");
    let other = read_stream(alloc, LZ4_ROWS).expect(&rt, "no stream");
    assert!(rt; one.batches[0].rows == other.batches[0].rows);
    for i in 0..3 {
        assert!(rt; one.batches[0].columns[i] == other.batches[0].columns[i], "column {i}");
    }
}
