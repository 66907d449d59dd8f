//! Frames of the program `zstd` 1.5.4 and of pyarrow 25, as `tests/data/zstd/make.py` makes them, decode to their contents.

use std::alloc::{AllocError, Global};
use std::process::Abort;
use zstd_decode::{ZstdError, decode_frames};

/// Returns pseudorandom bytes, as many as `length`.
pub fn noise(alloc: Global, length: usize) -> Result<Vec<u8>, AllocError> {
    let mut out = Vec::new(alloc);
    let mut state = 1u32;
    for _ in 0..length {
        state = state.wrapping_mul(1_103_515_245).wrapping_add(12_345);
        out.push((state / 65_536 % 256) as u8)?;
    }
    Ok(out)
}

/// Expects the content of frames, with a limit that has room for it, and an error with each smaller one.
fn expect_noise(rt: &(impl Abort + AllocGlobal), bytes: &[u8], length: usize) {
    let wanted = noise(rt.alloc(), length).expect(rt, "a content");
    assert!(rt;
        decode_frames(rt.alloc(), bytes, usize::MAX) == decode_frames(rt.alloc(), bytes, length)
    );
    assert!(rt; decode_frames(rt.alloc(), bytes, length) == Ok(wanted));
    for limit in 0..length {
        assert!(rt;
            decode_frames(rt.alloc(), bytes, limit).err() == Some(ZstdError::TooLong),
            "{limit}"
        );
    }
}

#[test]
fn frames_of_zstd(rt: HostRuntime) {
    expect_noise(&rt, include_bytes!("zstd/empty.zst"), 0);
    expect_noise(&rt, include_bytes!("zstd/one.zst"), 1);
    expect_noise(&rt, include_bytes!("zstd/small.zst"), 20);
    expect_noise(&rt, include_bytes!("zstd/sized.zst"), 300);
    expect_noise(&rt, include_bytes!("zstd/noise.zst"), 1000);
    expect_noise(&rt, include_bytes!("zstd/noise_19.zst"), 1000);
}

#[test]
fn frames_of_pyarrow(rt: HostRuntime) {
    expect_noise(&rt, include_bytes!("zstd/pyarrow_empty.zst"), 0);
    expect_noise(&rt, include_bytes!("zstd/pyarrow_noise.zst"), 1000);
}

#[test]
fn several_frames(rt: HostRuntime) {
    let alloc = rt.alloc();
    let mut wanted = noise(alloc, 10).expect(&rt, "a content");
    assert!(rt;
        decode_frames(alloc, include_bytes!("zstd/skippable.zst"), 10)
            == Ok(noise(alloc, 10).expect(&rt, "a content"))
    );
    wanted
        .extend_from_slice(&noise(alloc, 20).expect(&rt, "a content"))
        .expect(&rt, "a content");
    assert!(rt; decode_frames(alloc, include_bytes!("zstd/two.zst"), 30) == Ok(wanted));
    assert!(rt;
        decode_frames(alloc, include_bytes!("zstd/two.zst"), 29).err() == Some(ZstdError::TooLong)
    );
}
