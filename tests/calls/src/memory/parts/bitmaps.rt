//! Bits, pushed and frozen.
use super::unless_without_memory;
use nest_memory::bitmap::immutable::Bitmap;
use nest_memory::bitmap::mutable::MutableBitmap;
use nest_memory::error::{Error, SpecError};
use std::alloc::Global;

fn bitmap_of(alloc: Global, bytes: &[u8], len: usize) -> Result<Bitmap, Error> {
    Bitmap::try_new(alloc, Vec::from_slice(alloc, bytes)?, len)
}

/// Bit i is bit i % 8 of byte i / 8.
#[test]
fn bits_are_least_significant_first(rt: HostRuntime) {
    let bits = bitmap_of(rt.alloc(), &[0b0000_0101, 0b1000_0000], 16).expect(&rt, "two bytes");
    assert!(rt; !bits.is_empty());
    assert!(rt; bits.len() == 16);
    for i in 0..16usize {
        if i < bits.len() {
            assert!(rt; bits.get_bit(i) == (i == 0 || i == 2 || i == 15));
        }
    }
    assert!(rt; bits.unset_bits() == 13);
}

#[test]
fn slices_of_shared_bits(rt: HostRuntime) {
    let mut bits = bitmap_of(rt.alloc(), &[0b0000_0101, 0b1000_0000], 16).expect(&rt, "two bytes");
    let shared = bits.clone().expect(&rt, "a second owner");
    assert!(rt; bits.len() == 16);
    bits.slice(1, 15);
    assert!(rt; bits.unset_bits() == 13);
    assert!(rt; bits.len() == 15);
    let end = bits.sliced(13, 2);
    assert!(rt; end.unset_bits() == 1);
    assert!(rt; shared.unset_bits() == 13);
}

/// The bit i of many.
fn is_set(i: usize) -> bool {
    i % 3 != 0
}

fn many_bits(alloc: Global, n: usize) -> Result<Bitmap, Error> {
    let mut bits = MutableBitmap::new(alloc);
    for i in 0..n {
        bits.push(is_set(i))?;
    }
    bits.freeze()
}

/// The unset bits of a slice are as many, whether few bits were omitted or many.
#[test]
fn unset_bits_of_slices(rt: HostRuntime) {
    let cuts = [
        (0, 1000),
        (1, 999),
        (0, 936),
        (0, 935),
        (64, 936),
        (65, 935),
        (31, 937),
        (500, 1),
        (3, 0),
        (1000, 0),
    ];
    for (offset, len) in cuts {
        let mut cut = many_bits(rt.alloc(), 1000).expect(&rt, "1000 bits");
        cut.slice(offset, len);
        let unset = (offset..offset + len).filter(|i| !is_set(*i)).count();
        assert!(rt; cut.unset_bits() == unset);
        if len > 7 {
            cut.slice(5, len - 7);
            let unset = (offset + 5..offset + len - 2)
                .filter(|i| !is_set(*i))
                .count();
            assert!(rt; cut.unset_bits() == unset);
        }
    }
}

/// A bitmap of one byte has no nine bits.
#[test]
fn short_bitmap(rt: HostRuntime) {
    let refused = bitmap_of(rt.alloc(), &[1], 9).err();
    assert!(rt; refused == Some(Error::OutOfSpec(SpecError::ValidityLength)));
}

#[test]
fn bits_from_both_ends(rt: HostRuntime) {
    let bools = [true, true, false, true, false, false, false, false, true];
    let mut bits = Bitmap::from_bools(rt.alloc(), &bools).expect(&rt, "nine bits");
    assert!(rt; bits.len() == 9);
    bits.slice(1, 8);
    let mut iter = bits.iter();
    assert!(rt; iter.len() == 8);
    assert!(rt; iter.next_back() == Some(true));
    assert!(rt; iter.next() == Some(true));
    assert!(rt; iter.next() == Some(false));
    assert!(rt; iter.len() == 5);
    assert!(rt; iter.filter(|bit| *bit).count() == 1);
}

#[test]
fn pushed_bits_from_both_ends(rt: HostRuntime) {
    let mut delta = MutableBitmap::new(rt.alloc());
    assert!(rt; delta.push(true) == Ok(()));
    let mut iter = delta.iter();
    assert!(rt; iter.next() == Some(true));
    assert!(rt; iter.next_back().is_none());
}

/// Bits 0, 3, 6 and 9 of eleven are 1; then thirty are 1 and twenty 0.
fn grow(bits: &mut MutableBitmap) -> Result<(), Error> {
    for i in 0..11u32 {
        bits.push(i % 3 == 0)?;
    }
    bits.extend_constant(30, true)?;
    bits.extend_constant(20, false)
}

fn delta(alloc: Global) -> Result<MutableBitmap, Error> {
    let mut bits = MutableBitmap::with_capacity(alloc, 11)?;
    match grow(&mut bits) {
        Ok(()) => Ok(bits),
        Err(error) => Err(error),
    }
}

#[test]
fn growing_bitmaps(rt: HostRuntime) {
    let mut bits = delta(rt.alloc()).expect(&rt, "61 bits");
    assert!(rt; bits.len() == 61);
    assert!(rt; bits.unset_bits() == 27);
    bits.set(0, false);
    assert!(rt; !bits.get(0));
    assert!(rt; bits.reserve(1000) == Ok(()));
    bits.truncate(41);
    bits.shrink_to_fit();
    assert!(rt; bits.unset_bits() == 8);
    assert!(rt; bits.extend_constant(usize::MAX, true) == Err(Error::Overflow));
    assert!(rt; bits.len() == 41);
}

#[test]
fn frozen_bits(rt: HostRuntime) {
    let mut bits = delta(rt.alloc()).expect(&rt, "61 bits");
    let frozen = bits.freeze().expect(&rt, "the same bits");
    assert!(rt; bits.is_empty());
    assert!(rt; frozen.len() == 61);
    assert!(rt; frozen.unset_bits() == 27);
}

// The next three pass whichever allocation fails: a rejected call changes nothing, and a freeze leaves its
// object empty.
#[test]
fn bits_grow_without_memory(rt: HostRuntime) {
    let mut delta = MutableBitmap::new(rt.alloc());
    let mut accepted = 0usize;
    for _i in 0..40u32 {
        if unless_without_memory(&rt, delta.push(true)).is_some() {
            accepted = accepted.saturating_add(1);
        }
        assert!(rt; delta.len() == accepted);
    }
    unless_without_memory(&rt, delta.reserve(1000));
    assert!(rt; delta.len() == accepted);
    if unless_without_memory(&rt, delta.extend_constant(5000, false)).is_some() {
        assert!(rt; delta.unset_bits() == 5000);
    }
}

#[test]
fn bits_freeze_without_memory(rt: HostRuntime) {
    let mut delta = MutableBitmap::new(rt.alloc());
    unless_without_memory(&rt, delta.extend_constant(40, true));
    let before = delta.len();
    if let Some(frozen) = unless_without_memory(&rt, delta.freeze()) {
        assert!(rt; frozen.len() == before);
    }
    assert!(rt; delta.is_empty());
}

#[test]
fn bitmaps_without_memory(rt: HostRuntime) {
    drop(unless_without_memory(&rt, MutableBitmap::with_capacity(rt.alloc(), 9)));
    if let Some(bits) = unless_without_memory(&rt, Bitmap::from_bools(rt.alloc(), &[true, false])) {
        assert!(rt; bits.unset_bits() == 1);
    }
    if let Some(bits) = unless_without_memory(&rt, bitmap_of(rt.alloc(), &[], 0)) {
        assert!(rt; bits.is_empty());
    }
}
