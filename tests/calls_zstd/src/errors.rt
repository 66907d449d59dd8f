//! Each error, by the smallest change of a frame that has it.

use std::alloc::{AllocError, Global};
use zstd_decode::{ZstdError, decode_frames};

/// A frame of this header, and what follows it.
fn frame(alloc: Global, header: &[u8], rest: &[u8]) -> Result<Vec<u8>, AllocError> {
    let mut bytes = Vec::new(alloc);
    bytes.extend_from_slice(&[0x28, 0xB5, 0x2F, 0xFD])?;
    bytes.extend_from_slice(header)?;
    bytes.extend_from_slice(rest)?;
    Ok(bytes)
}

/// The last block, `abc`.
const ABC: &[u8] = &[0x19, 0, 0, 97, 98, 99];

/// The error of a frame, if it has one.
fn error(alloc: Global, header: &[u8], rest: &[u8]) -> Option<ZstdError> {
    match frame(alloc, header, rest) {
        Ok(bytes) => decode_frames(alloc, &bytes, 100).err(),
        Err(_) => Some(ZstdError::Memory),
    }
}

#[test]
fn frame_headers(rt: HostRuntime) {
    let alloc = rt.alloc();
    assert!(rt; error(alloc, &[0x20, 3], ABC) == None);
    assert!(rt; error(alloc, &[0x20, 4], ABC) == Some(ZstdError::ContentSize));
    assert!(rt; error(alloc, &[0x60, 3, 0], ABC) == Some(ZstdError::ContentSize));
    assert!(rt; error(alloc, &[0xA0, 3, 0, 0, 0], ABC) == None);
    assert!(rt; error(alloc, &[0xE0, 3, 0, 0, 0, 0, 0, 0, 0], ABC) == None);
    assert!(rt; error(alloc, &[0xE0, 3, 0, 0, 0, 1, 0, 0, 0], ABC) == Some(ZstdError::WindowSize));
    assert!(rt; error(alloc, &[0x30, 3], ABC) == None);
    assert!(rt; error(alloc, &[0x28, 3], ABC) == Some(ZstdError::ReservedBit));
    assert!(rt; error(alloc, &[0x21, 7, 3], ABC) == Some(ZstdError::DictionaryId));
    assert!(rt; error(alloc, &[0x22, 0, 7, 3], ABC) == Some(ZstdError::DictionaryId));
    assert!(rt; error(alloc, &[0x23, 0, 0, 0, 7, 3], ABC) == Some(ZstdError::DictionaryId));
    assert!(rt; error(alloc, &[0x23, 0, 0, 0, 0, 3], ABC) == None);
}

#[test]
fn windows(rt: HostRuntime) {
    let alloc = rt.alloc();
    assert!(rt; error(alloc, &[0x00, 0x00], ABC) == None);
    assert!(rt; error(alloc, &[0x00, 0x88], ABC) == None);
    assert!(rt; error(alloc, &[0x00, 0x89], ABC) == Some(ZstdError::WindowSize));
    assert!(rt; error(alloc, &[0x00, 0xFF], ABC) == Some(ZstdError::WindowSize));
    // A block of 1024 bytes is as large as the window; one of 1025 bytes is larger.
    assert!(rt; error(alloc, &[0x00, 0x00], &[0x03, 0x20, 0, 97]) == Some(ZstdError::TooLong));
    assert!(rt; error(alloc, &[0x00, 0x00], &[0x0B, 0x20, 0, 97]) == Some(ZstdError::BlockSize));
    assert!(rt; error(alloc, &[0x00, 0x01], &[0x0B, 0x20, 0, 97]) == Some(ZstdError::TooLong));
    // The most is 128 KiB.
    assert!(rt; error(alloc, &[0x00, 0x88], &[0x03, 0, 0x10, 97]) == Some(ZstdError::TooLong));
    assert!(rt; error(alloc, &[0x00, 0x88], &[0x0B, 0, 0x10, 97]) == Some(ZstdError::BlockSize));
}

#[test]
fn blocks(rt: HostRuntime) {
    let alloc = rt.alloc();
    assert!(rt; error(alloc, &[0x20, 3], &[0x1F, 0, 0, 97, 98, 99]) == Some(ZstdError::BlockType));
    assert!(rt; error(alloc, &[0x20, 3], &[0x1D, 0, 0, 97, 98, 99]) == Some(ZstdError::BlockSize));
    assert!(rt; error(alloc, &[0x20, 3], &[0x18, 0, 0, 97, 98, 99]) == Some(ZstdError::Truncated));
    assert!(rt; error(alloc, &[0x20, 3], &[0x18, 0, 0, 97, 98, 99, 0x01, 0, 0]) == None);
    assert!(rt; error(alloc, &[0x20, 3], &[0x10, 0, 0, 97, 98, 0x0B, 0, 0, 99]) == None);
    assert!(rt; error(alloc, &[0x20, 3], &[0x1B, 0, 0, 97]) == None);
    assert!(rt; error(alloc, &[0x20, 3], &[0x1B, 0, 0]) == Some(ZstdError::Truncated));
}

#[test]
fn checksums(rt: HostRuntime) {
    let alloc = rt.alloc();
    // The last four bytes of the checksum of `abc` are AD770999.
    assert!(rt;
        error(
            alloc,
            &[0x24, 3],
            &[0x19, 0, 0, 97, 98, 99, 0x99, 0x09, 0x77, 0xAD]
        ) == None
    );
    assert!(rt;
        error(
            alloc,
            &[0x24, 3],
            &[0x19, 0, 0, 97, 98, 99, 0x99, 0x09, 0x77, 0xAC]
        ) == Some(ZstdError::ContentChecksum)
    );
    assert!(rt; error(alloc, &[0x24, 3], ABC) == Some(ZstdError::Truncated));
    assert!(rt; error(alloc, &[0x24, 4], ABC) == Some(ZstdError::ContentSize));
}

#[test]
fn what_is_around_a_frame(rt: HostRuntime) {
    let alloc = rt.alloc();
    assert!(rt;
        error(alloc, &[0x20, 3], &[0x19, 0, 0, 97, 98, 99, 0]) == Some(ZstdError::Truncated)
    );
    assert!(rt;
        error(alloc, &[0x20, 3], &[0x19, 0, 0, 97, 98, 99, 0, 0, 0, 0])
            == Some(ZstdError::NotAFrame)
    );
    assert!(rt;
        decode_frames(alloc, &[0x5F, 0x2A, 0x4D, 0x18, 0, 0, 0, 0], 0).map(|it| it.len()) == Ok(0)
    );
    assert!(rt;
        decode_frames(alloc, &[0x60, 0x2A, 0x4D, 0x18, 0, 0, 0, 0], 0).err()
            == Some(ZstdError::NotAFrame)
    );
    assert!(rt;
        decode_frames(alloc, &[0x50, 0x2A, 0x4D, 0x18, 1, 0, 0, 0], 0).err()
            == Some(ZstdError::Truncated)
    );
    assert!(rt; decode_frames(alloc, &[], 100).err() == Some(ZstdError::Truncated));
}

/// What a frame of one compressed block decodes to.
fn decoded(alloc: Global, content: &[u8]) -> Result<Vec<u8>, ZstdError> {
    let mut rest = Vec::new(alloc);
    rest.extend_from_slice(&[(8 * content.len() + 5) as u8, 0, 0])?;
    rest.extend_from_slice(content)?;
    decode_frames(alloc, &frame(alloc, &[0, 0x58], &rest)?, 100)
}

/// Whether the block decodes to this content.
fn is_content(alloc: Global, content: &[u8], wanted: &[u8]) -> bool {
    match decoded(alloc, content) {
        Ok(found) => found.as_slice() == wanted,
        Err(_) => false,
    }
}

/// Whether the block has this error.
fn is_error(alloc: Global, content: &[u8], wanted: ZstdError) -> bool {
    decoded(alloc, content).err() == Some(wanted)
}

#[test]
fn literals(rt: HostRuntime) {
    let alloc = rt.alloc();
    assert!(rt; is_content(alloc, &[0x00, 0x00], b""));
    assert!(rt; is_content(alloc, &[0x18, 97, 98, 99, 0x00], b"abc"));
    assert!(rt; is_error(alloc, &[0x00], ZstdError::Truncated));
    assert!(rt; is_error(alloc, &[0x1A, 0, 0], ZstdError::Truncated));
    // Two literals of one bit each; all weights are 0; no weight is 1; a bit is left; one literal in four streams; no table before.
    assert!(rt; is_content(alloc, &[0x22, 0xC0, 0, 0x80, 0x10, 0x06, 0], &[1, 0]));
    assert!(rt;
        is_error(
            alloc,
            &[0x22, 0xC0, 0, 0x80, 0x00, 0x06, 0],
            ZstdError::HuffmanTable
        )
    );
    assert!(rt;
        is_error(
            alloc,
            &[0x22, 0xC0, 0, 0x80, 0x20, 0x06, 0],
            ZstdError::HuffmanTable
        )
    );
    assert!(rt;
        is_error(
            alloc,
            &[0x12, 0xC0, 0, 0x80, 0x10, 0x06, 0],
            ZstdError::Bitstream
        )
    );
    assert!(rt;
        is_error(
            alloc,
            &[0x16, 0xC0, 0, 0x80, 0x10, 0x06, 0],
            ZstdError::Literals
        )
    );
    assert!(rt; is_error(alloc, &[0x13, 0x40, 0, 0x01, 0], ZstdError::NoTable));
}

/// Appends the literals `abc` and these bytes.
fn after_abc(alloc: Global, sequences: &[u8]) -> Result<Vec<u8>, ZstdError> {
    let mut content = Vec::new(alloc);
    content.extend_from_slice(&[0x18, 97, 98, 99])?;
    content.extend_from_slice(sequences)?;
    decoded(alloc, &content)
}

#[test]
fn sequences(rt: HostRuntime) {
    let alloc = rt.alloc();
    let wanted = decoded(alloc, &[0x30, 97, 98, 99, 99, 99, 99, 0]);
    // Three literals and a match of three bytes: its offset is 1, or the first repeat offset.
    assert!(rt; after_abc(alloc, &[1, 0x54, 3, 2, 0, 0x04]) == wanted);
    assert!(rt; after_abc(alloc, &[1, 0x54, 3, 0, 0, 0x01]) == wanted);
    // The offset is 5; the first repeat offset less 1 is 0.
    assert!(rt; after_abc(alloc, &[1, 0x54, 3, 3, 0, 0x08]).err() == Some(ZstdError::Offset));
    assert!(rt; after_abc(alloc, &[1, 0x54, 0, 1, 0, 0x03]).err() == Some(ZstdError::Offset));
    // A bit is left; there is no final bit flag; there are only three literals.
    assert!(rt; after_abc(alloc, &[1, 0x54, 3, 2, 0, 0x08]).err() == Some(ZstdError::Bitstream));
    assert!(rt; after_abc(alloc, &[1, 0x54, 3, 2, 0]).err() == Some(ZstdError::Bitstream));
    assert!(rt; after_abc(alloc, &[1, 0x54, 3, 2, 0, 0]).err() == Some(ZstdError::Bitstream));
    assert!(rt; after_abc(alloc, &[1, 0x54, 4, 2, 0, 4]).err() == Some(ZstdError::Truncated));
    // Modes with a reserved bit; a literals length code of 36; an accuracy of 20; no table before; bytes after no sequence.
    assert!(rt; after_abc(alloc, &[1, 0x01]).err() == Some(ZstdError::Sequences));
    assert!(rt; after_abc(alloc, &[1, 0x40, 36]).err() == Some(ZstdError::Sequences));
    assert!(rt; after_abc(alloc, &[1, 0x80, 0x0F]).err() == Some(ZstdError::FseTable));
    assert!(rt; after_abc(alloc, &[1, 0xC0]).err() == Some(ZstdError::NoTable));
    assert!(rt; after_abc(alloc, &[0, 7]).err() == Some(ZstdError::Sequences));
}

#[test]
fn four_streams(rt: HostRuntime) {
    let alloc = rt.alloc();
    // Six literals of one bit each, two in each of the first three streams; four, one in each stream.
    let six = [0x66, 0x00, 0x03, 0x80, 0x10, 1, 0, 1, 0, 1, 0, 4, 4, 4, 1, 0];
    assert!(rt; is_content(alloc, &six, &[0, 0, 0, 0, 0, 0]));
    let four = [0x46, 0x00, 0x03, 0x80, 0x10, 1, 0, 1, 0, 1, 0, 2, 2, 2, 2, 0];
    assert!(rt; is_error(alloc, &four, ZstdError::Literals));
}

#[test]
fn numbers_of_sequences(rt: HostRuntime) {
    let alloc = rt.alloc();
    // A number of 0 in two bytes ends the section, as one in one byte does.
    let wanted = decoded(alloc, &[0x18, 97, 98, 99, 0]);
    assert!(rt; after_abc(alloc, &[0x80, 0]) == wanted);
    assert!(rt; after_abc(alloc, &[0x80, 0, 0]).err() == Some(ZstdError::Sequences));
    // One sequence, of three literals and a match of three bytes.
    let wanted = decoded(alloc, &[0x30, 97, 98, 99, 99, 99, 99, 0]);
    assert!(rt; after_abc(alloc, &[0x80, 1, 0x54, 3, 2, 0, 0x04]) == wanted);
}

/// What 1024 times `a`, `b`, and a match of three bytes at an offset of 1021 plus `more` decode to, with a window of 1024 bytes.
fn past_window(alloc: Global, more: u8) -> Result<Vec<u8>, ZstdError> {
    let mut rest = Vec::new(alloc);
    rest.extend_from_slice(&[0x02, 0x20, 0, 97, 0x0A, 0, 0, 98])?;
    rest.extend_from_slice(&[0x45, 0, 0, 0x00, 1, 0x54, 0, 10, 0, more, 0x04])?;
    decode_frames(alloc, &frame(alloc, &[0, 0], &rest)?, 1028)
}

#[test]
fn offsets_of_a_window(rt: HostRuntime) {
    let alloc = rt.alloc();
    let found = past_window(alloc, 3).expect(&rt, "a frame");
    assert!(rt; found.len() == 1028 && found.ends_with(b"baaa"));
    assert!(rt; past_window(alloc, 4).err() == Some(ZstdError::Offset));
    assert!(rt; past_window(alloc, 5).err() == Some(ZstdError::Offset));
}
