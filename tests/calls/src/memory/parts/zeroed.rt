//! Bits, offsets and values that are all alike, as null arrays need them.
//!
//! Bits, offsets and values that are all alike: of no length, of some, and too long for memory.
use super::unless_without_memory;
use nest_memory::bitmap::immutable::Bitmap;
use nest_memory::buffer::Buffer;
use nest_memory::error::Error;
use nest_memory::offsets::{Offsets, OffsetsBuffer};
use std::alloc::Global;

fn zero_offsets(alloc: Global, length: u8) -> Result<OffsetsBuffer<i64>, Error> {
    let mut offsets = Offsets::new_zeroed(alloc, length as usize)?;
    offsets.freeze()
}

#[test]
fn bits_that_are_0(rt: HostRuntime) {
    let none = Bitmap::new_zeroed(rt.alloc(), 0).expect(&rt, "no bit");
    assert!(rt; none.is_empty());
    assert!(rt; none.unset_bits() == 0);
    let bits = Bitmap::new_zeroed(rt.alloc(), 9).expect(&rt, "nine bits");
    assert!(rt; bits.len() == 9);
    assert!(rt; bits.unset_bits() == 9);
    assert!(rt; !bits.get_bit(8));
}

#[test]
fn offsets_that_are_0(rt: HostRuntime) {
    let one = zero_offsets(rt.alloc(), 0).expect(&rt, "one offset");
    assert!(rt; one.as_slice() == [0].as_slice());
    assert!(rt; one.len_proxy() == 0);
    let four = zero_offsets(rt.alloc(), 3).expect(&rt, "four offsets");
    assert!(rt; four.as_slice() == [0, 0, 0, 0].as_slice());
    assert!(rt; four.len_proxy() == 3);
}

#[test]
fn values_that_are_equal(rt: HostRuntime) {
    let none = Buffer::filled(rt.alloc(), 7u8, 0).expect(&rt, "no value");
    assert!(rt; none.is_empty());
    let three = Buffer::filled(rt.alloc(), -1i64, 3).expect(&rt, "three values");
    assert!(rt; three.as_slice() == [-1, -1, -1].as_slice());
}

#[test]
fn too_long_for_memory(rt: HostRuntime) {
    assert!(rt; Buffer::filled(rt.alloc(), 0i64, usize::MAX).is_err());
    assert!(rt; Offsets::<i64>::new_zeroed(rt.alloc(), usize::MAX - 1).is_err());
}

// Passes whichever allocation fails.
#[test]
fn zeros_without_memory(rt: HostRuntime) {
    if let Some(bits) = unless_without_memory(&rt, Bitmap::new_zeroed(rt.alloc(), 70)) {
        assert!(rt; bits.unset_bits() == 70);
    }
    if let Some(offsets) = unless_without_memory(&rt, zero_offsets(rt.alloc(), 2)) {
        assert!(rt; offsets.last() == 0);
    }
    if let Some(values) = unless_without_memory(&rt, Buffer::filled(rt.alloc(), 5u16, 4)) {
        assert!(rt; values.len() == 4);
    }
}
