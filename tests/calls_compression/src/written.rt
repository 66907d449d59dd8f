//! What is written: it decodes to its content, and it is the shorter of two forms.

use ipc_arrays::compression::{compress_buffer, decompress_buffer};
use ipc_flatbuf::CompressionCodec;
use lz4_frame::decode_frame;
use std::process::Abort;

/// Writes a buffer after a byte, and reads it. Returns its length.
fn expect_round_trip(rt: &(impl Abort + AllocGlobal), content: &[u8]) -> usize {
    let mut buffer = Vec::from_slice(rt.alloc(), &[1u8]).expect(rt, "a byte");
    compress_buffer(rt.alloc(), content, &mut buffer).expect(rt, "a buffer");
    assert!(rt; buffer[0] == 1);
    let mut out = Vec::new(rt.alloc());
    let codec = CompressionCodec::Lz4Frame;
    assert!(rt; decompress_buffer(rt.alloc(), codec, &buffer[1..], &mut out) == Ok(()));
    assert!(rt; out[..] == content[..]);
    buffer.len() - 1
}

#[test]
fn sizes_up_to_300(rt: HostRuntime) {
    let mut noise = Vec::new(rt.alloc());
    let mut zeros = Vec::new(rt.alloc());
    let mut state = 1u32;
    assert!(rt; expect_round_trip(&rt, &noise) == 0);
    for size in 1..301usize {
        state = state.wrapping_mul(1_103_515_245).wrapping_add(12_345);
        noise
            .push((state / 65_536 % 256) as u8)
            .expect(&rt, "a byte");
        zeros.push(0u8).expect(&rt, "a byte");
        assert!(rt; expect_round_trip(&rt, &noise) == size + 8);
        assert!(rt; expect_round_trip(&rt, &zeros) <= size + 8);
    }
    assert!(rt; expect_round_trip(&rt, &zeros) < 50);
}

/// The length, and a frame that the program `lz4` decodes.
#[test]
fn frames_that_lz4_accepts(rt: HostRuntime) {
    let frame = include_bytes!("lz4/written_rows.lz4");
    let rows = decode_frame(rt.alloc(), frame, 3000).expect(&rt, "a content");
    let mut buffer = Vec::new(rt.alloc());
    compress_buffer(rt.alloc(), &rows, &mut buffer).expect(&rt, "a buffer");
    assert!(rt; buffer[..8] == [0xB8u8, 0x0B, 0, 0, 0, 0, 0, 0][..]);
    assert!(rt; buffer[8..] == frame[..]);
}
