//! Streams and files of another implementation.
use std::alloc::{AllocError, Global};

/// A stream of a column `a` of Int32 and a column `b` of Utf8: record batches of 2, 0 and 1 rows.
pub const STREAM: &[u8] = include_bytes!("cli/stream.arrows");

/// The same rows as a file.
pub const FILE: &[u8] = include_bytes!("cli/file.arrow");

/// A stream of columns `a` and `b` of Boolean, the second not nullable: 11 rows.
pub const BOOLEANS: &[u8] = include_bytes!("flat/valid/boolean.arrows");

/// A stream of three rows without a column.
pub const COLUMNLESS: &[u8] = include_bytes!("streams/valid/no_columns.arrows");

/// A stream whose record batch is compressed, with a truncated buffer.
pub const COMPRESSED: &[u8] = include_bytes!("cli/compressed.arrows");

/// A file of a column `a` without a record batch.
pub const EMPTY: &[u8] = include_bytes!("files/valid/no_batches.arrow");

/// A stream with a dictionary, and a file with one.
pub const DICTIONARIES: &[u8] = include_bytes!("dictionaries/valid/dictionary.arrows");
pub const DICTIONARY_FILE: &[u8] = include_bytes!("dictionary_files/valid/dictionary.arrow");

/// A file whose messages have no continuation indicator.
pub const LEGACY_FILE: &[u8] = include_bytes!("files/valid/legacy_framing.arrow");

/// Returns a copy of a sample.
pub fn bytes_of(alloc: Global, sample: &[u8]) -> Result<Vec<u8>, AllocError> {
    sample.to_vec(alloc)
}
