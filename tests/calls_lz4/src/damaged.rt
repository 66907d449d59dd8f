//! Frames whose content has a checksum, cut after any byte or with any byte changed: an error, or the content.

use crate::contents::{Kind, content};
use lz4_frame::{Lz4Error, decode_frame};
use std::process::Abort;

/// Every proper prefix is truncated.
fn expect_prefixes(rt: &(impl Abort + AllocGlobal), bytes: &[u8]) {
    for end in 0..bytes.len() {
        assert!(rt; decode_frame(rt.alloc(), &bytes[..end], 1000).err() == Some(Lz4Error::Truncated), "{end}");
    }
}

/// Each byte is changed to each other value.
fn expect_changes(rt: &(impl Abort + AllocGlobal), bytes: &[u8], kind: Kind, length: usize) {
    let wanted = content(rt.alloc(), kind, length).expect(rt, "a content");
    let mut changed = Vec::new(rt.alloc());
    changed.extend_from_slice(bytes).expect(rt, "a copy");
    for i in 0..bytes.len() {
        for by in 1..256usize {
            changed[i] = bytes[i] ^ by as u8;
            match decode_frame(rt.alloc(), &changed, 1000) {
                Ok(found) => {
                    assert!(rt; found == wanted, "{i} {by}");
                }
                Err(error) => {
                    assert!(rt; error != Lz4Error::Memory, "{i} {by}");
                }
            }
        }
        changed[i] = bytes[i];
    }
}

#[test]
fn one_byte(rt: HostRuntime) {
    expect_prefixes(&rt, include_bytes!("lz4/one.lz4"));
    expect_changes(&rt, include_bytes!("lz4/one.lz4"), Kind::Rows, 1);
}

#[test]
fn a_compressed_block(rt: HostRuntime) {
    expect_prefixes(&rt, include_bytes!("lz4/small.lz4"));
    expect_changes(&rt, include_bytes!("lz4/small.lz4"), Kind::Rows, 100);
}

#[test]
fn a_block_with_its_checksum(rt: HostRuntime) {
    expect_prefixes(&rt, include_bytes!("lz4/checked.lz4"));
    expect_changes(&rt, include_bytes!("lz4/checked.lz4"), Kind::Rows, 60);
}
