//! Each error of a buffer, by the smallest change of one that decodes. After an error the output is unchanged.

use ipc_arrays::compression::decompress_buffer;
use ipc_flatbuf::{CompressionCodec, CompressionError};
use std::process::Abort;

/// `abc` as an LZ4 frame of an uncompressed block, as Arrow C++ writes it.
const LZ4: &[u8] = &[
    3, 0, 0, 0, 0, 0, 0, 0, 0x04, 0x22, 0x4D, 0x18, 0x60, 0x40, 0x82, 3, 0, 0, 0x80, 97, 98, 99, 0,
    0, 0, 0,
];

/// A byte as a Zstandard frame of a raw block, as Arrow C++ writes it.
const ZSTD: &[u8] = &[
    1, 0, 0, 0, 0, 0, 0, 0, 0x28, 0xB5, 0x2F, 0xFD, 0x20, 1, 9, 0, 0, 0x77,
];

/// Appends what a buffer decodes to after two bytes.
fn expect(
    rt: &(impl Abort + AllocGlobal),
    codec: CompressionCodec,
    buffer: &[u8],
    wanted: Result<&[u8], CompressionError>,
) {
    let mut out = Vec::from_slice(rt.alloc(), &[1u8, 2]).expect(rt, "two bytes");
    let found = decompress_buffer(rt.alloc(), codec, buffer, &mut out);
    assert!(rt; found.err() == wanted.err());
    assert!(rt; out[..2] == [1u8, 2][..]);
    assert!(rt; out[2..] == wanted.unwrap_or(&[])[..]);
}

/// A buffer with a byte changed.
fn expect_change(
    rt: &(impl Abort + AllocGlobal),
    codec: CompressionCodec,
    buffer: &[u8],
    change: (usize, u8),
    error: CompressionError,
) {
    let mut changed = Vec::from_slice(rt.alloc(), buffer).expect(rt, "a copy");
    changed[change.0] = change.1;
    expect(rt, codec, &changed, Err(error));
}

#[test]
fn buffers_of_lz4(rt: HostRuntime) {
    let codec = CompressionCodec::Lz4Frame;
    expect(&rt, codec, LZ4, Ok(b"abc"));
    expect_change(&rt, codec, LZ4, (8, 5), CompressionError::Magic);
    expect_change(&rt, codec, LZ4, (12, 0x61), CompressionError::Unsupported);
    expect_change(&rt, codec, LZ4, (13, 0x30), CompressionError::Block);
    expect_change(&rt, codec, LZ4, (14, 0x83), CompressionError::Checksum);
    expect_change(&rt, codec, LZ4, (0, 2), CompressionError::Length);
    expect_change(&rt, codec, LZ4, (0, 4), CompressionError::Length);
    expect_change(&rt, codec, LZ4, (6, 1), CompressionError::Length);
    for end in 1..LZ4.len() {
        expect(&rt, codec, &LZ4[..end], Err(CompressionError::Truncated));
    }
}

#[test]
fn buffers_of_zstd(rt: HostRuntime) {
    let codec = CompressionCodec::Zstd;
    expect(&rt, codec, ZSTD, Ok(&[0x77]));
    expect_change(&rt, codec, ZSTD, (8, 5), CompressionError::Magic);
    expect_change(&rt, codec, ZSTD, (12, 0x28), CompressionError::Unsupported);
    expect_change(&rt, codec, ZSTD, (14, 15), CompressionError::Block);
    expect_change(&rt, codec, ZSTD, (0, 0), CompressionError::Length);
    expect_change(&rt, codec, ZSTD, (0, 2), CompressionError::Length);
    for end in 1..ZSTD.len() {
        expect(&rt, codec, &ZSTD[..end], Err(CompressionError::Truncated));
    }
}

/// A buffer of the other codec.
#[test]
fn codecs(rt: HostRuntime) {
    assert!(rt; CompressionCodec::Lz4Frame.number() == 0);
    assert!(rt; CompressionCodec::Zstd.number() == 1);
    expect(
        &rt,
        CompressionCodec::Lz4Frame,
        ZSTD,
        Err(CompressionError::Magic),
    );
    expect(
        &rt,
        CompressionCodec::Zstd,
        LZ4,
        Err(CompressionError::Magic),
    );
}

#[test]
fn lengths(rt: HostRuntime) {
    for codec in [CompressionCodec::Lz4Frame, CompressionCodec::Zstd] {
        expect(&rt, codec, &[], Ok(&[]));
        expect(
            &rt,
            codec,
            &[255, 255, 255, 255, 255, 255, 255, 255],
            Ok(&[]),
        );
        expect(
            &rt,
            codec,
            &[255, 255, 255, 255, 255, 255, 255, 255, 97],
            Ok(&[97]),
        );
        expect(
            &rt,
            codec,
            &[254, 255, 255, 255, 255, 255, 255, 255],
            Err(CompressionError::Length),
        );
        expect(
            &rt,
            codec,
            &[0, 0, 0, 0, 0, 0, 0, 128],
            Err(CompressionError::Length),
        );
        expect(
            &rt,
            codec,
            &[0, 0, 0, 0, 0, 0, 0, 0],
            Err(CompressionError::Truncated),
        );
    }
}

#[test]
fn messages(rt: HostRuntime) {
    let wanted = [
        (
            CompressionError::Truncated,
            "compressed buffer is truncated",
        ),
        (
            CompressionError::Magic,
            "compressed buffer is not a frame of its codec",
        ),
        (
            CompressionError::Block,
            "block of a compressed buffer is invalid",
        ),
        (
            CompressionError::Checksum,
            "checksum of a compressed buffer differs",
        ),
        (
            CompressionError::Unsupported,
            "compressed buffer has a feature that is not supported",
        ),
        (
            CompressionError::Length,
            "compressed buffer does not decode to the length that it states",
        ),
        (
            CompressionError::BufferRange,
            "buffer is outside of the message body",
        ),
        (CompressionError::Memory, "out of memory"),
    ];
    for (error, text) in wanted {
        let found = format!(in rt.alloc(); "{error}").expect(&rt, "a text");
        assert!(rt; found.as_str() == text);
    }
}
