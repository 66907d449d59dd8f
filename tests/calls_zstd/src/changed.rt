//! Compressed frames cut after any byte, or with any byte changed, beside what the library of `zstd` 1.5.4 makes of them.

use std::process::Abort;
use zstd_decode::{ZstdError, decode_frames};

/// The hash of a content in the list of outcomes, where 0 is an error.
fn hash(content: &[u8]) -> u32 {
    let mut hashed = 0u32;
    for byte in content {
        hashed = (hashed * 257 + *byte as u32 + 1) % 65_521;
    }
    hashed + 1
}

/// Expects that a frame cut after any byte is truncated.
fn expect_truncated(rt: &(impl Abort + AllocGlobal), bytes: &[u8]) {
    for end in 0..bytes.len() {
        assert!(rt;
            decode_frames(rt.alloc(), &bytes[..end], 200_000).err() == Some(ZstdError::Truncated),
            "{end}"
        );
    }
}

/// Expects an error or the content of the library for each change of the bytes from `first` up to `end`, and as many errors of this decoder alone.
///
/// The library takes bits that are left in a bitstream, reserved bits of the modes, and windows of any size.
fn expect_outcomes(
    rt: &(impl Abort + AllocGlobal),
    bytes: &[u8],
    outcomes: &[u8],
    first: usize,
    end: usize,
    ours: usize,
) {
    let mut changed = Vec::new(rt.alloc());
    changed.extend_from_slice(bytes).expect(rt, "a copy");
    let mut at = 2 * 255 * first;
    let mut only_ours = 0;
    for i in first..end {
        for by in 1..256usize {
            changed[i] = bytes[i] ^ by as u8;
            let wanted = outcomes[at] as u32 + 256 * outcomes[at + 1] as u32;
            at += 2;
            match decode_frames(rt.alloc(), &changed, 200_000) {
                Ok(found) => {
                    assert!(rt; hash(&found) == wanted, "{i} {by}");
                }
                Err(error) => {
                    assert!(rt; error != ZstdError::Memory, "{i} {by}");
                    if wanted != 0 {
                        only_ours += 1;
                    }
                }
            }
        }
        changed[i] = bytes[i];
    }
    assert!(rt; only_ours == ours, "{only_ours}");
}

const SEQUENCE: &[u8] = include_bytes!("zstd/changed_sequence.zst");

const HUFFMAN: &[u8] = include_bytes!("zstd/changed_huffman.zst");

const BOTH: &[u8] = include_bytes!("zstd/changed_both.zst");

/// Expects the outcomes of a sixth of a frame of literals and sequences.
fn expect_sixth(rt: &(impl Abort + AllocGlobal), part: usize, ours: usize) {
    let outcomes = include_bytes!("zstd/changed_both.bin");
    let each = BOTH.len() / 6;
    expect_outcomes(rt, BOTH, outcomes, part * each, part * each + each, ours);
}

#[test]
fn cut_after_any_byte(rt: HostRuntime) {
    expect_truncated(&rt, SEQUENCE);
    expect_truncated(&rt, HUFFMAN);
    expect_truncated(&rt, BOTH);
}

#[test]
fn a_sequence(rt: HostRuntime) {
    let outcomes = include_bytes!("zstd/changed_sequence.bin");
    expect_outcomes(&rt, SEQUENCE, outcomes, 0, SEQUENCE.len(), 110);
}

#[test]
fn huffman_literals(rt: HostRuntime) {
    let outcomes = include_bytes!("zstd/changed_huffman.bin");
    expect_outcomes(&rt, HUFFMAN, outcomes, 0, HUFFMAN.len(), 39);
}

#[test]
fn first_sixth_of_literals_and_sequences(rt: HostRuntime) {
    expect_sixth(&rt, 0, 39);
}

#[test]
fn second_sixth_of_literals_and_sequences(rt: HostRuntime) {
    expect_sixth(&rt, 1, 0);
}

#[test]
fn third_sixth_of_literals_and_sequences(rt: HostRuntime) {
    expect_sixth(&rt, 2, 0);
}

#[test]
fn fourth_sixth_of_literals_and_sequences(rt: HostRuntime) {
    expect_sixth(&rt, 3, 0);
}

#[test]
fn fifth_sixth_of_literals_and_sequences(rt: HostRuntime) {
    expect_sixth(&rt, 4, 0);
}

#[test]
fn last_sixth_of_literals_and_sequences(rt: HostRuntime) {
    expect_sixth(&rt, 5, 99);
}
