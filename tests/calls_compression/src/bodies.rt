//! The plain bodies of record batches that Arrow C++ compressed: those of the same batch without compression, and those of the other codec.

use crate::batches::{StoredBatch, first_batch};
use ipc_arrays::compression::plain_body;
use ipc_flatbuf::{BufferSpec, CompressionCodec, CompressionError};
use std::alloc::Global;
use std::process::Abort;

/// The buffers and the body of a record batch without compression.
type PlainBody = (Vec<BufferSpec>, Vec<u8>);

/// Reads a record batch of a codec.
fn batch<'a>(
    rt: &(impl Abort + AllocGlobal),
    codec: Option<CompressionCodec>,
    bytes: &'a [u8],
) -> StoredBatch<'a> {
    let found = first_batch(rt.alloc(), bytes).expect(rt, "a record batch");
    assert!(rt; found.codec == codec);
    found
}

/// As many flags as there are buffers, each `flag`.
fn flags(alloc: Global, batch: &StoredBatch<'_>, flag: bool) -> Vec<bool> {
    let mut out = Vec::new(alloc);
    if out.resize(batch.buffers.len(), flag).is_err() {
        out.clear();
    }
    out
}

/// Reads all buffers of a record batch.
fn plain(rt: &(impl Abort + AllocGlobal), codec: CompressionCodec, bytes: &[u8]) -> PlainBody {
    let stored = batch(rt, Some(codec), bytes);
    let all = flags(rt.alloc(), &stored, true);
    plain_body(rt.alloc(), codec, stored.body, &stored.buffers, &all).expect(rt, "a plain body")
}

/// The bytes of a buffer of a body.
fn bytes_of<'a>(body: &'a [u8], buffer: &BufferSpec) -> &'a [u8] {
    let start = buffer.offset as usize;
    &body[start..start + buffer.length as usize]
}

/// Each buffer begins at the multiple of 8 after the one before it, with zeros between them.
fn expect_layout(rt: &(impl Abort + AllocGlobal), found: &PlainBody) {
    let mut end = 0usize;
    for buffer in &found.0 {
        assert!(rt; buffer.offset as usize == end);
        let last = end + buffer.length as usize;
        end = last.div_ceil(8) * 8;
        assert!(rt; found.1[last..end].iter().all(|byte| *byte == 0));
    }
    assert!(rt; found.1.len() == end);
}

#[test]
fn rows_of_both_codecs(rt: HostRuntime) {
    let wanted = batch(
        &rt,
        None,
        include_bytes!("pyarrow/samples/batches/many_rows.arrows"),
    );
    let of_lz4 = plain(
        &rt,
        CompressionCodec::Lz4Frame,
        include_bytes!("pyarrow/samples/compressed/lz4_rows.arrows"),
    );
    let of_zstd = plain(
        &rt,
        CompressionCodec::Zstd,
        include_bytes!("pyarrow/samples/compressed/zstd_rows.arrows"),
    );
    expect_layout(&rt, &of_lz4);
    assert!(rt; of_lz4.0.len() == wanted.buffers.len());
    for (found, stored) in of_lz4.0.iter().zip(&wanted.buffers) {
        assert!(rt; bytes_of(&of_lz4.1, found) == bytes_of(wanted.body, stored));
    }
    assert!(rt; of_lz4 == of_zstd);
}

#[test]
fn nested_columns_and_noise_of_both_codecs(rt: HostRuntime) {
    let of_lz4 = plain(
        &rt,
        CompressionCodec::Lz4Frame,
        include_bytes!("pyarrow/samples/compressed/lz4_nested.arrows"),
    );
    let of_zstd = plain(
        &rt,
        CompressionCodec::Zstd,
        include_bytes!("pyarrow/samples/compressed/zstd_nested.arrows"),
    );
    expect_layout(&rt, &of_lz4);
    assert!(rt; of_lz4 == of_zstd);
    let of_lz4 = plain(
        &rt,
        CompressionCodec::Lz4Frame,
        include_bytes!("pyarrow/samples/compressed/lz4_noise.arrows"),
    );
    let of_zstd = plain(
        &rt,
        CompressionCodec::Zstd,
        include_bytes!("pyarrow/samples/compressed/zstd_noise.arrows"),
    );
    assert!(rt; of_lz4.1.len() == 512);
    assert!(rt; of_lz4 == of_zstd);
}

#[test]
fn buffers_of_several_blocks(rt: HostRuntime) {
    let of_lz4 = plain(
        &rt,
        CompressionCodec::Lz4Frame,
        include_bytes!("pyarrow/samples/compressed/lz4_blocks.arrows"),
    );
    let of_zstd = plain(
        &rt,
        CompressionCodec::Zstd,
        include_bytes!("pyarrow/samples/compressed/zstd_blocks.arrows"),
    );
    expect_layout(&rt, &of_lz4);
    assert!(rt; of_lz4 == of_zstd);
    let of_level_1 = plain(
        &rt,
        CompressionCodec::Zstd,
        include_bytes!("pyarrow/samples/compressed/zstd_level_1.arrows"),
    );
    let of_level_19 = plain(
        &rt,
        CompressionCodec::Zstd,
        include_bytes!("pyarrow/samples/compressed/zstd_level_19.arrows"),
    );
    assert!(rt; of_level_1 == of_level_19);
}

/// A buffer that is not needed is empty where it would be, and its bytes are not read.
#[test]
fn needed_buffers(rt: HostRuntime) {
    let alloc = rt.alloc();
    let stored = batch(
        &rt,
        Some(CompressionCodec::Lz4Frame),
        include_bytes!("pyarrow/samples/compressed/lz4_rows.arrows"),
    );
    let all = flags(alloc, &stored, true);
    let whole = plain_body(
        alloc,
        CompressionCodec::Lz4Frame,
        stored.body,
        &stored.buffers,
        &all,
    )
    .expect(&rt, "a plain body");
    for needed in 0..all.len() {
        let mut one = flags(alloc, &stored, false);
        one[needed] = true;
        let some = plain_body(
            alloc,
            CompressionCodec::Lz4Frame,
            stored.body,
            &stored.buffers,
            &one,
        )
        .expect(&rt, "a plain body");
        expect_layout(&rt, &some);
        assert!(rt; some.0.len() == all.len());
        for i in 0..all.len() {
            let wanted = if i == needed {
                bytes_of(&whole.1, &whole.0[i])
            } else {
                &[]
            };
            assert!(rt; bytes_of(&some.1, &some.0[i]) == wanted);
        }
        // The flags after the one that is set are false anyway, and one more changes nothing.
        let fewer = plain_body(
            alloc,
            CompressionCodec::Lz4Frame,
            stored.body,
            &stored.buffers,
            &one[..needed + 1],
        );
        one.push(true).expect(&rt, "a flag");
        let more = plain_body(
            alloc,
            CompressionCodec::Lz4Frame,
            stored.body,
            &stored.buffers,
            &one,
        );
        assert!(rt; fewer == more);
        assert!(rt; fewer == Ok(some));
    }
}

/// Buffers are decoded in order, so the first error is that of the first buffer that has one.
#[test]
fn first_error_of_buffers(rt: HostRuntime) {
    let alloc = rt.alloc();
    // `abc` after a length of -1, then a length of -2, then a buffer that passes the body.
    let body = [
        255u8, 255, 255, 255, 255, 255, 255, 255, 97, 98, 99, 0, 0, 0, 0, 0, 254, 255, 255, 255,
        255, 255, 255, 255,
    ];
    let good = BufferSpec {
        offset: 0,
        length: 11,
    };
    let bad = BufferSpec {
        offset: 16,
        length: 8,
    };
    let outside = BufferSpec {
        offset: 16,
        length: 9,
    };
    let read = |buffers: &[BufferSpec], needed: &[bool]| {
        plain_body(alloc, CompressionCodec::Zstd, &body, buffers, needed).map(|it| it.1.len())
    };
    assert!(rt; read(&[good], &[true]) == Ok(8));
    assert!(rt; read(&[good, bad, outside], &[true, true, true]) == Err(CompressionError::Length));
    assert!(rt;
        read(&[good, outside, bad], &[true, true, true]) == Err(CompressionError::BufferRange)
    );
    assert!(rt; read(&[outside, good, bad], &[false, true, false]) == Ok(8));
    assert!(rt; read(&[good, good], &[true, true]) == Ok(16));
}

/// A buffer is within the body, and may be empty at its end.
#[test]
fn buffers_outside_of_the_body(rt: HostRuntime) {
    let alloc = rt.alloc();
    let read = |offset: i64, length: i64| {
        plain_body(
            alloc,
            CompressionCodec::Lz4Frame,
            &[255, 255, 255, 255, 255, 255, 255, 255, 97],
            &[BufferSpec { offset, length }],
            &[true],
        )
        .map(|it| it.1.len())
    };
    assert!(rt; read(0, 9) == Ok(8));
    assert!(rt; read(0, 8) == Ok(0));
    assert!(rt; read(9, 0) == Ok(0));
    assert!(rt; read(10, 0) == Err(CompressionError::BufferRange));
    assert!(rt; read(1, 9) == Err(CompressionError::BufferRange));
    assert!(rt; read(-1, 9) == Err(CompressionError::BufferRange));
    assert!(rt; read(0, -1) == Err(CompressionError::BufferRange));
    assert!(rt; read(i64::MAX, i64::MAX) == Err(CompressionError::BufferRange));
}
