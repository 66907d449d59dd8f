//! Each error, by the smallest change of a frame that has it.

use lz4_frame::{Lz4Error, decode_frame, xxh32};
use std::alloc::{AllocError, Global};

/// A frame of this descriptor, with the checksum of its descriptor, and what follows it.
fn frame(alloc: Global, descriptor: &[u8], rest: &[u8]) -> Result<Vec<u8>, AllocError> {
    let mut bytes = Vec::new(alloc);
    bytes.extend_from_slice(&[0x04, 0x22, 0x4D, 0x18])?;
    bytes.extend_from_slice(descriptor)?;
    bytes.push((xxh32(descriptor) / 256 % 256) as u8)?;
    bytes.extend_from_slice(rest)?;
    Ok(bytes)
}

/// The uncompressed block `abc`, and the EndMark.
const STORED: &[u8] = &[3, 0, 0, 0x80, 97, 98, 99, 0, 0, 0, 0];

/// The error of a frame, if it has one.
fn error(alloc: Global, descriptor: &[u8], rest: &[u8]) -> Option<Lz4Error> {
    match frame(alloc, descriptor, rest) {
        Ok(bytes) => decode_frame(alloc, &bytes, 100).err(),
        Err(_) => Some(Lz4Error::Memory),
    }
}

#[test]
fn descriptors(rt: HostRuntime) {
    let alloc = rt.alloc();
    assert!(rt; error(alloc, &[0x60, 0x40], STORED) == None);
    assert!(rt; error(alloc, &[0xA0, 0x40], STORED) == Some(Lz4Error::UnsupportedVersion));
    assert!(rt; error(alloc, &[0x62, 0x40], STORED) == Some(Lz4Error::ReservedBits));
    assert!(rt; error(alloc, &[0x60, 0xC0], STORED) == Some(Lz4Error::ReservedBits));
    assert!(rt; error(alloc, &[0x60, 0x41], STORED) == Some(Lz4Error::ReservedBits));
    assert!(rt; error(alloc, &[0x61, 0x40, 1, 2, 3, 4], STORED) == Some(Lz4Error::DictionaryId));
    assert!(rt; error(alloc, &[0x60, 0x30], STORED) == Some(Lz4Error::BlockSize));
    assert!(rt; error(alloc, &[0x68, 0x40, 3, 0, 0, 0, 0, 0, 0, 0], STORED) == None);
    assert!(rt; error(alloc, &[0x68, 0x40, 4, 0, 0, 0, 0, 0, 0, 0], STORED) == Some(Lz4Error::ContentSize));
}

#[test]
fn header_checksum(rt: HostRuntime) {
    let mut bytes = frame(rt.alloc(), &[0x60, 0x40], STORED).expect(&rt, "a frame");
    bytes[6] ^= 1;
    assert!(rt; decode_frame(rt.alloc(), &bytes, 100).err() == Some(Lz4Error::HeaderChecksum));
}

#[test]
fn checksums(rt: HostRuntime) {
    let alloc = rt.alloc();
    // The checksum of `abc` is 32D153FF.
    let block = &[3, 0, 0, 0x80, 97, 98, 99, 0xFF, 0x53, 0xD1, 0x32, 0, 0, 0, 0];
    let content = &[3, 0, 0, 0x80, 97, 98, 99, 0, 0, 0, 0, 0xFF, 0x53, 0xD1, 0x32];
    assert!(rt; error(alloc, &[0x70, 0x40], block) == None);
    assert!(rt; error(alloc, &[0x64, 0x40], content) == None);
    assert!(rt; error(alloc, &[0x70, 0x40], content) == Some(Lz4Error::BlockChecksum));
    assert!(rt; error(alloc, &[0x64, 0x40], STORED) == Some(Lz4Error::Truncated));
    assert!(rt; error(alloc, &[0x64, 0x40], &[3, 0, 0, 0x80, 97, 98, 99, 0, 0, 0, 0, 0xFF, 0x53, 0xD1, 0x33]) == Some(Lz4Error::ContentChecksum));
}

#[test]
fn blocks(rt: HostRuntime) {
    let alloc = rt.alloc();
    assert!(rt; error(alloc, &[0x60, 0x40], &[1, 0, 1, 0x80]) == Some(Lz4Error::BlockSize));
    assert!(rt; error(alloc, &[0x60, 0x40], &[3, 0, 0, 0x80, 97, 98]) == Some(Lz4Error::Truncated));
    assert!(rt; error(alloc, &[0x60, 0x40], &[]) == Some(Lz4Error::Truncated));
    // One literal, and a match with an offset of 1, 2 or 0.
    assert!(rt; error(alloc, &[0x60, 0x40], &[6, 0, 0, 0, 0x14, 97, 1, 0, 0x10, 98, 0, 0, 0, 0]) == None);
    assert!(rt; error(alloc, &[0x60, 0x40], &[6, 0, 0, 0, 0x14, 97, 2, 0, 0x10, 98, 0, 0, 0, 0]) == Some(Lz4Error::InvalidOffset));
    assert!(rt; error(alloc, &[0x60, 0x40], &[6, 0, 0, 0, 0x14, 97, 0, 0, 0x10, 98, 0, 0, 0, 0]) == Some(Lz4Error::InvalidOffset));
}

#[test]
fn matches_of_an_earlier_block(rt: HostRuntime) {
    // The block `abc`, and one whose match copies from it.
    let rest = &[3, 0, 0, 0x80, 97, 98, 99, 5, 0, 0, 0, 0x00, 3, 0, 0x10, 98, 0, 0, 0, 0];
    assert!(rt; error(rt.alloc(), &[0x40, 0x40], rest) == None);
    assert!(rt; error(rt.alloc(), &[0x60, 0x40], rest) == Some(Lz4Error::InvalidOffset));
}

#[test]
fn what_is_around_a_frame(rt: HostRuntime) {
    let alloc = rt.alloc();
    assert!(rt; error(alloc, &[0x60, 0x40], &[0, 0, 0, 0]) == None);
    assert!(rt; error(alloc, &[0x60, 0x40], &[0, 0, 0, 0, 0]) == Some(Lz4Error::TrailingBytes));
    assert!(rt; decode_frame(alloc, &[0x05, 0x22, 0x4D, 0x18], 100).err() == Some(Lz4Error::NotAFrame));
    assert!(rt; decode_frame(alloc, &[0x5F, 0x2A, 0x4D, 0x18, 0, 0, 0, 0], 100).err() == Some(Lz4Error::SkippableFrame));
    assert!(rt; decode_frame(alloc, &[0x60, 0x2A, 0x4D, 0x18, 0, 0, 0, 0], 100).err() == Some(Lz4Error::NotAFrame));
    assert!(rt; decode_frame(alloc, &[], 100).err() == Some(Lz4Error::Truncated));
}
