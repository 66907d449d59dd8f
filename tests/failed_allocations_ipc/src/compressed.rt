//! Buffers that are compressed and decoded, and the plain body of a record batch of them. A failed call leaves the output unchanged.

use failed_allocations::failures::{Failure, Failures, expect};
use ipc_arrays::compression::{compress_buffer, decompress_buffer, plain_body};
use ipc_flatbuf::{BufferSpec, CompressionCodec, CompressionError};
use nest_memory::error::Error;
use std::alloc::{AllocError, Global};

/// A byte as a Zstandard frame, as Arrow C++ writes it.
const ZSTD: &[u8] = &[
    1, 0, 0, 0, 0, 0, 0, 0, 0x28, 0xB5, 0x2F, 0xFD, 0x20, 1, 9, 0, 0, 0x77,
];

fn from_compression_error(error: CompressionError) -> Error {
    match error {
        CompressionError::Memory => Error::Memory(AllocError),
        _ => Error::NotYetImplemented,
    }
}

/// Appends a buffer of 100 bytes.
fn compress(failures: &mut Failures, alloc: Global, out: &mut Vec<u8>) -> Result<(), Failure> {
    let before = out.len();
    let outcome = compress_buffer(alloc, &[7; 100], out).map_err(Error::Memory);
    if failures.is_failure(&outcome)? {
        expect(out.len() == before, "output after a failed allocation")?;
        return Ok(compress_buffer(alloc, &[7; 100], out).map_err(Error::Memory)?);
    }
    Ok(outcome?)
}

/// Appends what a buffer decodes to.
fn decompress(
    failures: &mut Failures,
    alloc: Global,
    codec: CompressionCodec,
    bytes: &[u8],
    out: &mut Vec<u8>,
) -> Result<(), Failure> {
    let before = out.len();
    let outcome = decompress_buffer(alloc, codec, bytes, out).map_err(from_compression_error);
    if failures.is_failure(&outcome)? {
        expect(out.len() == before, "output after a failed allocation")?;
        return Ok(decompress_buffer(alloc, codec, bytes, out).map_err(from_compression_error)?);
    }
    Ok(outcome?)
}

pub fn both_ways(failures: &mut Failures, alloc: Global) -> Result<(), Failure> {
    let mut body = Vec::new(alloc);
    compress(failures, alloc, &mut body)?;
    let mut content = Vec::new(alloc);
    decompress(
        failures,
        alloc,
        CompressionCodec::Lz4Frame,
        &body,
        &mut content,
    )?;
    decompress(failures, alloc, CompressionCodec::Zstd, ZSTD, &mut content)?;
    expect(
        content.len() == 101 && content[99] == 7 && content[100] == 0x77,
        "another content",
    )?;
    let buffers = [BufferSpec {
        offset: 0,
        length: body.len() as i64,
    }; 2];
    let (plain_buffers, plain) = failures.retry(|| {
        plain_body(
            alloc,
            CompressionCodec::Lz4Frame,
            &body,
            &buffers,
            &[true, true],
        )
        .map_err(from_compression_error)
    })?;
    expect(
        plain_buffers.len() == 2 && plain.len() == 208,
        "another plain body",
    )
}
