//! No output is longer than the limit, and a limit that has room changes nothing.

use crate::contents::{Kind, content};
use lz4_frame::{Lz4Error, decode_block, decode_frame};

#[test]
fn frames(rt: HostRuntime) {
    let bytes = include_bytes!("lz4/rows.lz4");
    for limit in [0usize, 1, 6, 2999] {
        assert!(rt; decode_frame(rt.alloc(), bytes, limit).err() == Some(Lz4Error::TooLong), "{limit}");
    }
    for limit in [3000usize, 3001, usize::MAX] {
        assert!(rt; decode_frame(rt.alloc(), bytes, limit).map(|it| it.len()) == Ok(3000), "{limit}");
    }
}

#[test]
fn uncompressed_blocks(rt: HostRuntime) {
    let bytes = include_bytes!("lz4/noise.lz4");
    assert!(rt; decode_frame(rt.alloc(), bytes, 999).err() == Some(Lz4Error::TooLong));
    assert!(rt; decode_frame(rt.alloc(), bytes, 1000).map(|it| it.len()) == Ok(1000));
}

#[test]
fn blocks(rt: HostRuntime) {
    let alloc = rt.alloc();
    let wanted = content(alloc, Kind::Zeros, 5000).expect(&rt, "a content");
    for limit in [0usize, 1, 100, 4999, 5000, 6000] {
        let mut out = Vec::new(alloc);
        let decoded = decode_block(&mut out, 0, limit, include_bytes!("lz4/pyarrow_zeros.block"));
        assert!(rt; out.len() <= limit);
        assert!(rt; out[..] == wanted[..out.len()]);
        if limit < 5000 {
            assert!(rt; decoded == Err(Lz4Error::TooLong));
        } else {
            assert!(rt; decoded == Ok(()));
        }
    }
}

/// A block after other output, from which its matches copy or not.
#[test]
fn output_before_a_block(rt: HostRuntime) {
    let alloc = rt.alloc();
    let block = [0x02, 2, 0, 0x10, 98];
    for base in 0..5usize {
        let mut out = vec![in alloc; 97u8, 98, 99].expect(&rt, "an output");
        let decoded = decode_block(&mut out, base, 100, &block);
        if base < 2 {
            assert!(rt; decoded == Ok(()));
            assert!(rt; out[..] == b"abcbcbcbcb"[..]);
        } else {
            assert!(rt; decoded == Err(Lz4Error::InvalidOffset));
        }
    }
}
