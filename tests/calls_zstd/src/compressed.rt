//! Compressed frames of the program `zstd` 1.5.4 and of pyarrow 25, as `tests/data/zstd/make.py` makes them, decode to their contents.

use crate::samples::noise;
use std::alloc::{AllocError, Global};
use std::process::Abort;
use zstd_decode::{ZstdError, decode_frames, xxh64};

const LETTERS: &[u8] = b"eeeeettttaaoin s";

/// Appends pseudorandom letters, as many as `length`.
fn append_letters(out: &mut Vec<u8>, length: usize) -> Result<(), AllocError> {
    let mut state = 1u32;
    for _ in 0..length {
        state = state.wrapping_mul(1_103_515_245).wrapping_add(12_345);
        out.push(LETTERS[(state / 65_536 % 16) as usize])?;
    }
    Ok(())
}

/// Appends numbers of four bytes that repeat, with parts that do not, as many bytes as `length`.
fn append_rows(out: &mut Vec<u8>, length: usize) -> Result<(), AllocError> {
    for i in 0..length {
        let byte = if i / 1024 % 7 == 0 {
            i.wrapping_mul(i) / 7 % 256
        } else {
            (i / 1200 >> (8 * (i % 4))) % 256
        };
        out.push(byte as u8)?;
    }
    Ok(())
}

/// Returns letters and rows in turn.
fn mixture(alloc: Global) -> Result<Vec<u8>, AllocError> {
    let mut some = Vec::new(alloc);
    append_letters(&mut some, 5000)?;
    let mut others = Vec::new(alloc);
    append_rows(&mut others, 2000)?;
    let mut out = Vec::new(alloc);
    for i in 0..60usize {
        out.extend_from_slice(&some[i..i + 3000])?;
        out.extend_from_slice(&others[i % 7..])?;
    }
    Ok(out)
}

/// Expects a content, with a limit that has just room for it, and an error with the limit before.
fn expect_content(rt: &(impl Abort + AllocGlobal), bytes: &[u8], wanted: &[u8]) {
    let found = decode_frames(rt.alloc(), bytes, wanted.len()).expect(rt, "a frame");
    assert!(rt; found.as_slice() == wanted);
    assert!(rt;
        decode_frames(rt.alloc(), bytes, wanted.len() - 1).err() == Some(ZstdError::TooLong)
    );
}

/// Expects frames of 0 to 300 letters.
fn expect_letters(rt: &(impl Abort + AllocGlobal), bytes: &[u8]) {
    let mut wanted = Vec::new(rt.alloc());
    for length in 0..301usize {
        append_letters(&mut wanted, length).expect(rt, "a content");
    }
    expect_content(rt, bytes, &wanted);
}

#[test]
fn letters_of_each_length(rt: HostRuntime) {
    expect_letters(&rt, include_bytes!("zstd/letters_1.zst"));
    expect_letters(&rt, include_bytes!("zstd/letters_3.zst"));
    expect_letters(&rt, include_bytes!("zstd/letters_19.zst"));
    expect_letters(&rt, include_bytes!("zstd/letters_fast.zst"));
}

#[test]
fn four_million_bytes(rt: HostRuntime) {
    let mut wanted = Vec::new(rt.alloc());
    append_rows(&mut wanted, 4_000_000).expect(&rt, "a content");
    expect_content(&rt, include_bytes!("zstd/rows_3.zst"), &wanted);
    expect_content(&rt, include_bytes!("zstd/rows_19.zst"), &wanted);
}

#[test]
fn letters_and_rows(rt: HostRuntime) {
    let wanted = mixture(rt.alloc()).expect(&rt, "a content");
    expect_content(&rt, include_bytes!("zstd/mixture_1.zst"), &wanted);
    expect_content(&rt, include_bytes!("zstd/mixture_3.zst"), &wanted);
    expect_content(&rt, include_bytes!("zstd/mixture_19.zst"), &wanted);
    expect_content(&rt, include_bytes!("zstd/mixture_fast.zst"), &wanted);
}

#[test]
fn offsets_as_large_as_the_window(rt: HostRuntime) {
    let part = noise(rt.alloc(), 1024).expect(&rt, "a content");
    let mut wanted = Vec::new(rt.alloc());
    for _ in 0..8 {
        wanted.extend_from_slice(&part).expect(&rt, "a content");
    }
    expect_content(&rt, include_bytes!("zstd/window.zst"), &wanted);
}

/// Frames that the description of the format names, since libraries before 1.3.5 and programs before 1.4.4 refused them.
#[test]
fn frames_that_zstd_refused(rt: HostRuntime) {
    let tiny = [
        0x28, 0xB5, 0x2F, 0xFD, 0x20, 0x27, 0xC5, 0x00, 0x00, 0x80, 0xF3, 0xF1, 0xF0, 0xEC, 0xEB,
        0xC6, 0xC5, 0xC7, 0xF0, 0x9D, 0x43, 0x00, 0x00, 0x00, 0xE0, 0xE0, 0x06, 0x58, 0x01, 0x00,
        0x60, 0x3E, 0x52,
    ];
    expect_checksum(&rt, &tiny, 39, 0xDE02_5017);
    let zeros = [
        0x28, 0xB5, 0x2F, 0xFD, 0xA0, 0x01, 0x00, 0x02, 0x00, 0x02, 0x00, 0x10, 0x00, 0x0B, 0x00,
        0x00, 0x00,
    ];
    expect_checksum(&rt, &zeros, 131_073, 0xE3B3_3BB6);
}

#[test]
fn zeros(rt: HostRuntime) {
    let mut wanted = Vec::new(rt.alloc());
    wanted.resize(1000, 0).expect(&rt, "a content");
    expect_content(&rt, include_bytes!("zstd/zeros.zst"), &wanted);
}

/// Expects a content of this length, whose checksum has these low four bytes.
fn expect_checksum(rt: &(impl Abort + AllocGlobal), bytes: &[u8], length: usize, checksum: u64) {
    let found = decode_frames(rt.alloc(), bytes, length).expect(rt, "a frame");
    assert!(rt; found.len() == length);
    assert!(rt; xxh64(&found) % 0x1_0000_0000 == checksum);
}

#[test]
fn streams_of_pyarrow(rt: HostRuntime) {
    expect_checksum(
        &rt,
        include_bytes!("zstd/stream_blocks.zst"),
        153_000,
        0xA0C2_DB88,
    );
    expect_checksum(
        &rt,
        include_bytes!("zstd/stream_level_1.zst"),
        12_000,
        0xC968_255A,
    );
    expect_checksum(
        &rt,
        include_bytes!("zstd/stream_level_19.zst"),
        12_000,
        0xC968_255A,
    );
    expect_checksum(
        &rt,
        include_bytes!("zstd/stream_rows.zst"),
        404,
        0x3FBE_E968,
    );
    expect_checksum(
        &rt,
        include_bytes!("zstd/stream_repeated.zst"),
        300_000,
        0x3822_5BA6,
    );
    expect_checksum(
        &rt,
        include_bytes!("zstd/stream_views.zst"),
        112,
        0x583E_AF53,
    );
}
