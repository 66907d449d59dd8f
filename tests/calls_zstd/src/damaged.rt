//! Frames whose content has a checksum, cut after any byte or with any byte changed: an error, or the content.

use crate::samples::noise;
use std::process::Abort;
use zstd_decode::{ZstdError, decode_frames};

/// Every proper prefix is truncated, and each byte is changed to each other value.
fn expect_errors(rt: &(impl Abort + AllocGlobal), bytes: &[u8], length: usize) {
    let wanted = noise(rt.alloc(), length).expect(rt, "a content");
    for end in 0..bytes.len() {
        assert!(rt;
            decode_frames(rt.alloc(), &bytes[..end], 1000).err() == Some(ZstdError::Truncated),
            "{end}"
        );
    }
    let mut changed = Vec::new(rt.alloc());
    changed.extend_from_slice(bytes).expect(rt, "a copy");
    for i in 0..bytes.len() {
        for by in 1..256usize {
            changed[i] = bytes[i] ^ by as u8;
            match decode_frames(rt.alloc(), &changed, 1000) {
                Ok(found) => {
                    assert!(rt; found == wanted, "{i} {by}");
                }
                Err(error) => {
                    assert!(rt; error != ZstdError::Memory, "{i} {by}");
                }
            }
        }
        changed[i] = bytes[i];
    }
}

#[test]
fn one_byte(rt: HostRuntime) {
    expect_errors(&rt, include_bytes!("zstd/one.zst"), 1);
}

#[test]
fn twenty_bytes(rt: HostRuntime) {
    expect_errors(&rt, include_bytes!("zstd/small.zst"), 20);
}
