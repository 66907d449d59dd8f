//! Streams of another implementation.
use std::alloc::{AllocError, Global};

/// Two batches of two rows, and before each of them a dictionary of the same id.
pub const REPLACEMENT: &[u8] = include_bytes!("dictionaries/valid/replacement.arrows");

/// A batch of four rows, with dictionaries in a struct and in a list in it.
pub const DICTIONARIES_INSIDE: &[u8] = include_bytes!(
    "dictionaries/valid/dictionaries_inside.arrows"
);

/// Batches of three rows and of one. The messages and the end-of-stream marker have no continuation indicator.
pub const LEGACY_FRAMING: &[u8] = include_bytes!("streams/valid/legacy_framing.arrows");

/// Returns a copy of the bytes of a stream.
pub fn bytes_of(alloc: Global, stream: &[u8]) -> Result<Vec<u8>, AllocError> {
    Vec::from_slice(alloc, stream)
}
