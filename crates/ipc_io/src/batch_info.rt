//! What the metadata of a record batch or a dictionary batch says. Source: Message.fbs, tables Message, RecordBatch and DictionaryBatch.
ghost use Rattle.std.specs.Prelude.{◌≡◌, ◌<◌, ◌≤◌, ◌^◌, length};
ghost use Rattle.ipc_flatbuf.specs.ReadResults.{ReturnsOrRunsOut};
ghost use Rattle.ipc_flatbuf.specs.Messages.{model_of};
ghost use Rattle.ipc.specs.Streams.{spec_data_position};
ghost use Rattle.ipc_io.specs.BatchInfos.{dictionary_by, dictionary_info, dictionary_kind, info_as, message_info, record_batch_by, record_batch_info, record_batches, records_in};

use ipc_flatbuf::batch::read_batch;
use ipc_flatbuf::message::{Message, MessageKind, MessageRoot, MetadataVersion};
use ipc_flatbuf::{CompressionCodec, IpcReadError, offset_field, read_table, u8_field};
use std::alloc::Global;

/// The kind of a batch.
#[derive(Clone, Copy, Debug, PartialEq, Eq)]
pub enum BatchKind {
    /// A record batch.
    Records,
    /// A dictionary batch that is no delta.
    Dictionary,
    /// A delta dictionary.
    Delta,
}

/// What the metadata of a record batch or a dictionary batch says.
#[derive(Clone, Copy, Debug, PartialEq, Eq)]
pub struct BatchInfo {
    /// The metadata version of its message.
    pub version: MetadataVersion,
    /// The kind of the batch.
    pub kind: BatchKind,
    /// The number of rows, or of the values of a dictionary batch.
    pub rows: usize,
    /// The codec of the buffers, `None` if they are not compressed.
    pub compression: Option<CompressionCodec>,
}

// Returns the kind of a dictionary batch by its flag `isDelta`.
fn kind_of_flag(flag: u8) -> BatchKind
    ensures { result ≡ dictionary_kind flag }
{
    if flag > 0 {
        BatchKind::Delta
    } else {
        BatchKind::Dictionary
    }
}

// Returns the position of the record batch in a dictionary batch.
fn data_position(to: Option<usize>) -> Result<usize, IpcReadError>
    ensures { result ≡ spec_data_position to }
{
    match to {
        None => Err(IpcReadError::MissingData),
        Some(position) => Ok(position),
    }
}

#[tactic(auto, unfolding(crate::specs::BatchInfos::record_batch_info))]
fn read_record_batch_info(
    alloc: Global,
    root: MessageRoot,
    metadata: &[u8],
) -> Result<BatchInfo, IpcReadError>
    requires { length metadata.now < 2 ^ 31 }
    ensures { ReturnsOrRunsOut (λ info. info) result (record_batch_info root metadata.now) }
{
    let batch = read_batch(alloc, metadata, root.header, root.left, root.body_length)?;
    Ok(BatchInfo {
        version: root.version,
        kind: BatchKind::Records,
        rows: batch.rows,
        compression: batch.compression,
    })
}

#[tactic(auto, unfolding(crate::specs::BatchInfos::dictionary_info))]
fn read_dictionary_info(
    alloc: Global,
    root: MessageRoot,
    metadata: &[u8],
) -> Result<BatchInfo, IpcReadError>
    requires { length metadata.now < 2 ^ 31 }
    ensures { ReturnsOrRunsOut (λ info. info) result (dictionary_info root metadata.now) }
{
    let (table, left) = read_table(metadata, root.header, root.left)?;
    let position = data_position(offset_field(metadata, table, 1)?)?;
    let kind = kind_of_flag(u8_field(metadata, table, 2)?);
    let batch = read_batch(alloc, metadata, position, left, root.body_length)?;
    Ok(BatchInfo {
        version: root.version,
        kind,
        rows: batch.rows,
        compression: batch.compression,
    })
}

// Reads what the metadata of a message says that must be a record batch.
fn info_of_record_batch(
    alloc: Global,
    root: MessageRoot,
    metadata: &[u8],
) -> Result<BatchInfo, IpcReadError>
    requires { length metadata.now < 2 ^ 31 }
    ensures { ReturnsOrRunsOut (λ info. info) result (record_batch_by root.kind root metadata.now) }
{
    match root.kind {
        MessageKind::Schema => Err(IpcReadError::HeaderType),
        MessageKind::DictionaryBatch => Err(IpcReadError::HeaderType),
        MessageKind::RecordBatch => read_record_batch_info(alloc, root, metadata),
    }
}

// Reads what the metadata of a message says that must be a dictionary batch.
fn info_of_dictionary(
    alloc: Global,
    root: MessageRoot,
    metadata: &[u8],
) -> Result<BatchInfo, IpcReadError>
    requires { length metadata.now < 2 ^ 31 }
    ensures { ReturnsOrRunsOut (λ info. info) result (dictionary_by root.kind root metadata.now) }
{
    match root.kind {
        MessageKind::Schema => Err(IpcReadError::HeaderType),
        MessageKind::DictionaryBatch => read_dictionary_info(alloc, root, metadata),
        MessageKind::RecordBatch => Err(IpcReadError::HeaderType),
    }
}

// Reads what the metadata of a message says that must be of this kind.
pub(crate) fn read_info_as(
    alloc: Global,
    wanted: MessageKind,
    root: MessageRoot,
    metadata: &[u8],
) -> Result<BatchInfo, IpcReadError>
    requires { length metadata.now < 2 ^ 31 }
    ensures { ReturnsOrRunsOut (λ info. info) result (info_as wanted root metadata.now) }
{
    match wanted {
        MessageKind::Schema => Err(IpcReadError::HeaderType),
        MessageKind::DictionaryBatch => info_of_dictionary(alloc, root, metadata),
        MessageKind::RecordBatch => info_of_record_batch(alloc, root, metadata),
    }
}

// Reads what the metadata of a message says.
pub(crate) fn read_message_info(
    alloc: Global,
    message: Message<'_>,
) -> Result<BatchInfo, IpcReadError>
    requires { length message.metadata.now < 2 ^ 31 }
    ensures { ReturnsOrRunsOut (λ info. info) result (message_info (model_of message.entry)) }
{
    let root = message.root;
    read_info_as(alloc, root.kind, root, message.metadata)
}

// Returns 1 for a record batch.
fn records_of(kind: BatchKind) -> usize
    ensures value { result ≡ records_in kind }
    ensures bound { result ≤ 1 }
{
    match kind {
        BatchKind::Records => 1,
        BatchKind::Dictionary => 0,
        BatchKind::Delta => 0,
    }
}

/// Returns the number of record batches among batches.
pub fn record_batch_count(infos: &[BatchInfo]) -> usize
    ensures { result ≡ record_batches infos.now }
{
    let mut count = 0usize;
    for info in infos {
        count += records_of(info.kind);
    }
    count
}
