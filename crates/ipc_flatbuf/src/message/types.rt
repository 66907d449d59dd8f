//! The types of messages.

/// The supported metadata versions (Schema.fbs, enum `MetadataVersion`).
#[derive(Clone, Copy, Debug, PartialEq, Eq)]
pub enum MetadataVersion {
    V4,
    V5,
}

/// The supported kinds of message (Message.fbs, union `MessageHeader`).
#[derive(Clone, Copy, Debug, PartialEq, Eq)]
pub enum MessageKind {
    Schema,
    DictionaryBatch,
    RecordBatch,
}

/// The root table of the metadata of a message (Message.fbs, table `Message`).
#[derive(Clone, Copy, Debug, PartialEq, Eq)]
pub struct MessageRoot {
    pub version: MetadataVersion,
    pub kind: MessageKind,
    /// The position of the header table in the metadata.
    pub header: usize,
    /// The budget that is left for reading the metadata, in bytes.
    pub left: usize,
    /// The length of the body in bytes.
    pub body_length: usize,
}

/// An encapsulated message: its root table, its metadata and its body.
#[derive(Clone, Copy)]
pub struct Message<'a> {
    pub root: MessageRoot,
    pub metadata: &'a [u8],
    pub body: &'a [u8],
}
