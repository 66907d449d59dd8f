//! The metadata of record batches.
use crate::{BufferSpec, CompressionCodec, FieldNode};

/// The metadata of a record batch (Message.fbs, table `RecordBatch`).
#[derive(Drop)]
pub struct BatchMetadata {
    /// The number of rows.
    pub rows: usize,
    /// The field nodes, in pre-order.
    pub nodes: Vec<FieldNode>,
    /// The buffers of the arrays in the message body, in the order of the field nodes.
    pub buffers: Vec<BufferSpec>,
    /// The codec of the buffers, `None` where they are not compressed.
    pub compression: Option<CompressionCodec>,
}
