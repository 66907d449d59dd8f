//! Streams with deltas, put together a message at a time.
use crate::files::{blocks_of, blocks_of_kind, file_with};
use ipc::Batch;
use ipc_arrays::{layout_columns, write_columns};
use ipc_flatbuf::batch::{BatchMetadata, write_batch, write_dictionary};
use ipc_flatbuf::message::MessageKind;
use ipc_flatbuf::{IpcReadError, IpcWriteError};
use nest_array::any::AnyArray;
use std::alloc::Global;

// The metadata of columns, and how many bytes their body has.
fn placed(
    alloc: Global,
    rows: usize,
    columns: &[AnyArray],
) -> Result<(BatchMetadata, usize), IpcWriteError> {
    let placed = layout_columns(alloc, columns)?;
    let metadata = BatchMetadata {
        rows,
        nodes: placed.nodes,
        buffers: placed.buffers,
        compression: None,
    };
    Ok((metadata, placed.length))
}

fn append_dictionary(
    alloc: Global,
    out: &mut Vec<u8>,
    delta: bool,
    id: i64,
    values: &AnyArray,
) -> Result<(), IpcWriteError> {
    let columns = std::slice::from_ref(values);
    let (metadata, length) = placed(alloc, values.len(), columns)?;
    write_dictionary(alloc, out, delta, id, &metadata, length)?;
    write_columns(out, columns)
}

/// Values that an id has from now on.
pub fn put_values(
    alloc: Global,
    out: &mut Vec<u8>,
    id: i64,
    values: &AnyArray,
) -> Result<(), IpcWriteError> {
    append_dictionary(alloc, out, false, id, values)
}

/// Values after those that an id has.
pub fn put_delta(
    alloc: Global,
    out: &mut Vec<u8>,
    id: i64,
    values: &AnyArray,
) -> Result<(), IpcWriteError> {
    append_dictionary(alloc, out, true, id, values)
}

/// A batch, over values that were put before.
pub fn put_keys(alloc: Global, out: &mut Vec<u8>, batch: &Batch) -> Result<(), IpcWriteError> {
    let (metadata, length) = placed(alloc, batch.rows, &batch.columns)?;
    write_batch(alloc, out, &metadata, length)?;
    write_columns(out, &batch.columns)
}

pub fn put_end(out: &mut Vec<u8>) -> Result<(), IpcWriteError> {
    out.extend_from_slice(&[255, 255, 255, 255, 0, 0, 0, 0])?;
    Ok(())
}

/// The file of a stream: its dictionaries in their order, then its batches.
pub fn file_of(alloc: Global, stream: &[u8]) -> Result<Vec<u8>, IpcReadError> {
    let dictionaries = blocks_of_kind(alloc, stream, MessageKind::DictionaryBatch)?;
    let batches = blocks_of(alloc, stream)?;
    file_with(alloc, stream, &dictionaries, &batches)
}
