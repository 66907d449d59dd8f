//! What is written: it round-trips, and it is what the program `lz4` accepts.

use crate::contents::{Kind, content};
use lz4_frame::{compress_block, decode_block, decode_frame, encode_frame};
use std::process::Abort;

const KINDS: [Kind; 4] = [Kind::Rows, Kind::Squares, Kind::Noise, Kind::Zeros];

/// Writes a frame of a content and decodes it. Returns its length.
fn expect_frame(rt: &(impl Abort + AllocGlobal), wanted: &[u8]) -> usize {
    let frame = encode_frame(rt.alloc(), wanted).expect(rt, "a frame");
    let found = decode_frame(rt.alloc(), &frame, wanted.len()).expect(rt, "a content");
    assert!(rt; found.as_slice() == wanted);
    frame.len()
}

/// Writes a block and a frame of a content, and decodes both. Returns the length of the frame.
fn expect_round_trip(rt: &(impl Abort + AllocGlobal), kind: Kind, length: usize) -> usize {
    let wanted = content(rt.alloc(), kind, length).expect(rt, "a content");
    let mut block = Vec::new(rt.alloc());
    compress_block(rt.alloc(), &mut block, &wanted).expect(rt, "a block");
    let mut out = Vec::new(rt.alloc());
    assert!(rt; decode_block(&mut out, 0, length, &block) == Ok(()));
    assert!(rt; out == wanted);
    expect_frame(rt, &wanted)
}

#[test]
fn sizes_up_to_300(rt: HostRuntime) {
    for length in 0..301usize {
        for kind in KINDS {
            let size = expect_round_trip(&rt, kind, length);
            assert!(rt; size <= length + 15);
        }
    }
}

#[test]
fn several_blocks(rt: HostRuntime) {
    for length in [65_535usize, 65_536, 70_000] {
        assert!(rt; expect_round_trip(&rt, Kind::Zeros, length) < length / 200 + 100);
    }
    // A frame has one block of up to 4 MiB, and then another.
    let mut zeros = content(rt.alloc(), Kind::Zeros, 4_194_304).expect(&rt, "a content");
    assert!(rt; expect_frame(&rt, &zeros) < zeros.len() / 200 + 100);
    zeros.push(0).expect(&rt, "a content");
    assert!(rt; expect_frame(&rt, &zeros) < zeros.len() / 200 + 100);
    assert!(rt; expect_round_trip(&rt, Kind::Noise, 70_000) == 70_015);
    assert!(rt; expect_round_trip(&rt, Kind::Squares, 300_000) < 2000);
}

/// Frames of this encoder that `lz4` 1.9.4 decodes to their contents.
#[test]
fn frames_that_lz4_accepts(rt: HostRuntime) {
    let rows = content(rt.alloc(), Kind::Rows, 3000).expect(&rt, "a content");
    let squares = content(rt.alloc(), Kind::Squares, 70_000).expect(&rt, "a content");
    let of_rows = encode_frame(rt.alloc(), &rows).expect(&rt, "a frame");
    let of_squares = encode_frame(rt.alloc(), &squares).expect(&rt, "a frame");
    assert!(rt; of_rows[..] == include_bytes!("lz4/written_rows.lz4")[..]);
    assert!(rt; of_squares[..] == include_bytes!("lz4/written_squares.lz4")[..]);
}
