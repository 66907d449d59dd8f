//! The structs `FieldNode` and `Buffer` of record batches.

/// The length and null count of an array (Message.fbs, struct `FieldNode`).
#[derive(Clone, Copy, Debug, PartialEq, Eq)]
pub struct FieldNode {
    pub length: i64,
    pub null_count: i64,
}

/// The offset of a buffer in the message body and its length, in bytes (Message.fbs, struct `Buffer`).
#[derive(Clone, Copy, Debug, PartialEq, Eq)]
pub struct BufferSpec {
    pub offset: i64,
    pub length: i64,
}
