//! Streams, files and messages of another Arrow implementation, which shares no code with this repository, and some written by hand.
//!
//! The bytes are in `tests/data`, and beside each of them a text: what it decodes to, or the error. `scripts/laying.py` writes
//! `samples!` of a folder out as the array of its samples, in the order of their names.

/// Encoded bytes, and the text of what they decode to, or of the error.
#[derive(Clone, Copy)]
pub struct Sample {
    pub name: &'static str,
    pub bytes: &'static [u8],
    pub text: &'static str,
}

/// Streams of integer and string columns, and of their metadata.
pub const READ: [Sample; 13] = samples!("streams/valid");

pub const REJECTED: [Sample; 28] = samples!("streams/invalid");

/// Streams of arrays of every kind without children.
pub const READ_FLAT: [Sample; 10] = samples!("flat/valid");

pub const REJECTED_FLAT: [Sample; 10] = samples!("flat/invalid");

/// Streams of lists, fixed-size lists, structs, maps and unions.
pub const READ_NESTED: [Sample; 16] = samples!("nested/valid");

pub const REJECTED_NESTED: [Sample; 8] = samples!("nested/invalid");

/// Streams with dictionaries: replacement and delta dictionaries, shared and nested ones.
pub const READ_DICTIONARIES: [Sample; 12] = samples!("dictionaries/valid");

pub const REJECTED_DICTIONARIES: [Sample; 11] = samples!("dictionaries/invalid");

/// Files with dictionaries.
pub const READ_DICTIONARY_FILES: [Sample; 5] = samples!("dictionary_files/valid");

pub const REJECTED_DICTIONARY_FILES: [Sample; 1] = samples!("dictionary_files/invalid");

/// Schema messages. The text has the metadata, and a line for each field.
pub const SCHEMAS: [Sample; 27] = samples!("schemas/valid");

pub const REJECTED_SCHEMAS: [Sample; 16] = samples!("schemas/invalid");

/// Schema messages with dictionaries. The text has the dictionary ids, too.
pub const DICTIONARY_SCHEMAS: [Sample; 11] = samples!("dictionary_schemas/valid");

pub const REJECTED_DICTIONARY_SCHEMAS: [Sample; 17] = samples!("dictionary_schemas/invalid");

/// Files.
pub const READ_FILES: [Sample; 3] = samples!("files/valid");

pub const REJECTED_FILES: [Sample; 4] = samples!("files/invalid");
