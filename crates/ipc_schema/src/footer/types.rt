//! The types of file footers.
use crate::ProjectedSchema;

/// The position and the lengths of a message of a file (File.fbs, struct `Block`).
#[derive(Clone, Copy, Debug, PartialEq, Eq)]
pub struct Block {
    /// The offset of the message from the start of the file.
    pub offset: i64,
    /// The length of the message without its body: 8 bytes and its metadata.
    pub metadata_length: i32,
    /// The length of the body.
    pub body_length: i64,
}

/// The footer of a file with the projection of its schema (File.fbs, table `Footer`).
#[derive(Drop)]
pub struct ProjectedFooter {
    /// The projection of the schema.
    pub picked: ProjectedSchema,
    /// The blocks of the dictionary batches, in the order of reading.
    pub dictionaries: Vec<Block>,
    /// The blocks of the record batches, in their order.
    pub batches: Vec<Block>,
}
