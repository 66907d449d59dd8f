//! The record batches of streams of Arrow C++, as they are stored.

use ipc_flatbuf::batch::read_batch;
use ipc_flatbuf::message::{Message, MessageKind, next_message};
use ipc_flatbuf::{BufferSpec, CompressionCodec, IpcReadError};
use std::alloc::Global;

/// A record batch: its codec, its buffers and its body.
#[derive(Drop)]
pub struct StoredBatch<'a> {
    pub codec: Option<CompressionCodec>,
    pub buffers: Vec<BufferSpec>,
    pub body: &'a [u8],
}

/// Returns the record batch of a message.
fn batch_of<'a>(alloc: Global, message: Message<'a>) -> Result<StoredBatch<'a>, IpcReadError> {
    let (header, left) = (message.root.header, message.root.left);
    let batch = read_batch(alloc, message.metadata, header, left, message.body.len())?;
    Ok(StoredBatch {
        codec: batch.compression,
        buffers: batch.buffers,
        body: message.body,
    })
}

/// Returns the first record batch of a stream.
pub fn first_batch<'a>(alloc: Global, bytes: &'a [u8]) -> Result<StoredBatch<'a>, IpcReadError> {
    let mut rest = bytes;
    for _ in 0..bytes.len() {
        let (message, after) = next_message(rest)?;
        match message {
            None => return Err(IpcReadError::MissingData),
            Some(found) => {
                if found.root.kind == MessageKind::RecordBatch {
                    return batch_of(alloc, found);
                }
            }
        }
        rest = after;
    }
    Err(IpcReadError::Truncated)
}
