//! Frames and blocks of the program `lz4` 1.9.4 and of pyarrow 25 decode to their contents.

use crate::contents::{Kind, content};
use lz4_frame::{Lz4Error, decode_block, decode_frame};
use std::process::Abort;

/// Expects the content of a frame.
fn expect_frame(rt: &(impl Abort + AllocGlobal), bytes: &[u8], kind: Kind, length: usize) {
    let wanted = content(rt.alloc(), kind, length).expect(rt, "a content");
    assert!(rt; decode_frame(rt.alloc(), bytes, length) == Ok(wanted));
}

/// Expects the content of a block.
fn expect_block(rt: &(impl Abort + AllocGlobal), bytes: &[u8], kind: Kind, length: usize) {
    let wanted = content(rt.alloc(), kind, length).expect(rt, "a content");
    let mut out = Vec::new(rt.alloc());
    assert!(rt; decode_block(&mut out, 0, length, bytes) == Ok(()));
    assert!(rt; out == wanted);
}

/// Expects an error of a frame.
fn expect_error(rt: &(impl Abort + AllocGlobal), bytes: &[u8], wanted: Lz4Error) {
    assert!(rt; decode_frame(rt.alloc(), bytes, 1 << 20).err() == Some(wanted));
}

#[test]
fn frames_of_lz4(rt: HostRuntime) {
    expect_frame(&rt, include_bytes!("lz4/empty.lz4"), Kind::Rows, 0);
    expect_frame(&rt, include_bytes!("lz4/one.lz4"), Kind::Rows, 1);
    expect_frame(&rt, include_bytes!("lz4/rows.lz4"), Kind::Rows, 3000);
    expect_frame(&rt, include_bytes!("lz4/rows_9.lz4"), Kind::Rows, 3000);
    expect_frame(&rt, include_bytes!("lz4/noise.lz4"), Kind::Noise, 1000);
}

#[test]
fn frames_with_checksums_and_sizes(rt: HostRuntime) {
    expect_frame(&rt, include_bytes!("lz4/checked.lz4"), Kind::Rows, 60);
    expect_frame(&rt, include_bytes!("lz4/sized.lz4"), Kind::Rows, 3000);
    expect_frame(&rt, include_bytes!("lz4/unchecked.lz4"), Kind::Squares, 60);
}

#[test]
fn frames_of_several_blocks(rt: HostRuntime) {
    expect_frame(&rt, include_bytes!("lz4/independent.lz4"), Kind::Squares, 200_000);
    expect_frame(&rt, include_bytes!("lz4/linked.lz4"), Kind::Squares, 200_000);
    expect_frame(&rt, include_bytes!("lz4/zeros.lz4"), Kind::Zeros, 300_000);
}

#[test]
fn frames_of_pyarrow(rt: HostRuntime) {
    expect_frame(&rt, include_bytes!("lz4/pyarrow_empty.lz4"), Kind::Rows, 0);
    expect_frame(&rt, include_bytes!("lz4/pyarrow_rows.lz4"), Kind::Rows, 3000);
    expect_frame(&rt, include_bytes!("lz4/pyarrow_squares.lz4"), Kind::Squares, 300_000);
    expect_frame(&rt, include_bytes!("lz4/pyarrow_noise.lz4"), Kind::Noise, 1000);
    expect_frame(&rt, include_bytes!("lz4/pyarrow_zeros.lz4"), Kind::Zeros, 5000);
}

#[test]
fn blocks_of_pyarrow(rt: HostRuntime) {
    expect_block(&rt, include_bytes!("lz4/pyarrow_empty.block"), Kind::Rows, 0);
    expect_block(&rt, include_bytes!("lz4/pyarrow_rows.block"), Kind::Rows, 3000);
    expect_block(&rt, include_bytes!("lz4/pyarrow_squares.block"), Kind::Squares, 300_000);
    expect_block(&rt, include_bytes!("lz4/pyarrow_noise.block"), Kind::Noise, 1000);
    expect_block(&rt, include_bytes!("lz4/pyarrow_zeros.block"), Kind::Zeros, 5000);
}

#[test]
fn frames_that_are_refused(rt: HostRuntime) {
    expect_error(&rt, include_bytes!("lz4/legacy.lz4"), Lz4Error::NotAFrame);
    expect_error(&rt, include_bytes!("lz4/two.lz4"), Lz4Error::TrailingBytes);
    expect_error(&rt, include_bytes!("lz4/skippable.lz4"), Lz4Error::SkippableFrame);
}
