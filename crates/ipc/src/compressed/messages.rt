//! Compresses encoded messages.
ghost use Rattle.std.specs.Prelude.{◌≡◌, ◌<◌, ◌^◌, ◌++◌, List, ℕ, None, Ok, Err, length, IfErr, IfOk, OnOk};
ghost use Rattle.ipc_flatbuf.specs.declared.error.IpcWriteError.TheVariants.{Memory};
ghost use Rattle.ipc_flatbuf.specs.ReadResults.{ReturnsOrRunsOut};
ghost use Rattle.ipc_flatbuf.specs.Messages.{model_of};
ghost use Rattle.ipc_flatbuf.specs.MessageBytes.{metadata_size};
ghost use Rattle.ipc_flatbuf.specs.Batches.{batch_of, spec_all_within};
ghost use Rattle.ipc_flatbuf.specs.BatchBytes.{IsBatchWriteError};
ghost use Rattle.ipc.specs.EncodedStreams.{each_error, IsErrorOrMemory};
ghost use Rattle.ipc.specs.CompressedMessages.{BatchMessage, head_bytes, data_position, dictionary_header_in, header_in, header_of, SaysPlainly, ArePlainMessages, HeadRoundTripsWithBodies, AppendsCompressedMessage, AppendsCompressedMessages, compression_error};

use crate::compressed::body::compress_body;
use ipc_flatbuf::batch::{BatchMetadata, read_batch, write_batch, write_dictionary};
use ipc_flatbuf::message::{Message, MessageKind, next_message};
use ipc_flatbuf::{
    CompressionCodec, IpcReadError, IpcWriteError, i64_field, offset_field, read_table, u8_field,
};
use std::alloc::Global;

// The metadata of a record batch, or of a dictionary batch with its delta flag and id.
#[derive(Drop)]
struct BatchHeader {
    dictionary: Option<(bool, i64)>,
    batch: BatchMetadata,
}

// Returns the position of the record batch in a dictionary batch.
fn position_of(to: Option<usize>) -> Result<usize, IpcReadError>
    ensures { result ≡ data_position to }
{
    match to {
        None => Err(IpcReadError::MissingData),
        Some(position) => Ok(position),
    }
}

#[tactic(auto, unfolding(crate::specs::CompressedMessages::dictionary_header_in))]
fn read_dictionary_header(alloc: Global, message: Message<'_>) -> Result<BatchHeader, IpcReadError>
    requires { length message.metadata.now < 2 ^ 31 }
    ensures { ReturnsOrRunsOut header_of result (dictionary_header_in (model_of message.entry)) }
{
    let root = message.root;
    let metadata = message.metadata;
    let (table, left) = read_table(metadata, root.header, root.left)?;
    let id = i64_field(metadata, table, 0, 0)?;
    let position = position_of(offset_field(metadata, table, 1)?)?;
    let delta = u8_field(metadata, table, 2)? > 0;
    let batch = read_batch(alloc, metadata, position, left, root.body_length)?;
    Ok(BatchHeader {
        dictionary: Some((delta, id)),
        batch,
    })
}

fn read_header(alloc: Global, message: Message<'_>) -> Result<BatchHeader, IpcReadError>
    requires { length message.metadata.now < 2 ^ 31 }
    ensures { ReturnsOrRunsOut header_of result (header_in (model_of message.entry)) }
{
    let root = message.root;
    match root.kind {
        MessageKind::Schema => Err(IpcReadError::HeaderType),
        MessageKind::DictionaryBatch => read_dictionary_header(alloc, message),
        MessageKind::RecordBatch => {
            match read_batch(
                alloc,
                message.metadata,
                root.header,
                root.left,
                root.body_length,
            ) {
                Err(error) => Err(error),
                Ok(batch) => Ok(BatchHeader {
                    dictionary: None,
                    batch,
                }),
            }
        }
    }
}

// Reads the header of a message that was encoded here, so that only an allocation can fail.
fn plain_header(alloc: Global, message: Message<'_>) -> Result<BatchHeader, IpcWriteError>
    requires { length message.metadata.now < 2 ^ 31 }
    ensures read { IfOk result (λ header. header_in (model_of message.entry) ≡ Ok (header_of header)) }
    ensures err { IfErr result (λ error. error ≡ Memory) }
{
    match read_header(alloc, message) {
        Ok(header) => Ok(header),
        Err(_) => Err(IpcWriteError::Memory),
    }
}

// Appends the message of a batch without its body.
fn write_header(
    alloc: Global,
    out: &mut Vec<u8>,
    header: &BatchHeader,
    body_length: usize,
) -> Result<(), IpcWriteError>
    requires { body_length < 2 ^ 63 }
    ensures bytes { OnOk result (out.new.items ≡ out.old.items ++ head_bytes header.now.dictionary (batch_of header.now.batch) body_length) }
    ensures rows { OnOk result (header.now.batch.rows < 2 ^ 63) }
    ensures small { OnOk result (metadata_size (head_bytes header.now.dictionary (batch_of header.now.batch) body_length) < 2 ^ 31) }
    ensures again { OnOk result (HeadRoundTripsWithBodies header.now.dictionary (batch_of header.now.batch) body_length) }
    ensures err { IfErr result (IsBatchWriteError (batch_of header.now.batch) (metadata_size (head_bytes header.now.dictionary (batch_of header.now.batch) body_length))) }
{
    match header.dictionary {
        None => write_batch(alloc, out, &header.batch, body_length),
        Some((delta, id)) => write_dictionary(alloc, out, delta, id, &header.batch, body_length),
    }
}

// Appends a message with its buffers compressed.
fn compress_message(
    alloc: Global,
    message: Message<'_>,
    out: &mut Vec<u8>,
) -> Result<(), IpcWriteError>
    requires length { length message.metadata.now < 2 ^ 31 }
    requires says { (m : BatchMessage) × SaysPlainly (model_of message) m }
    ensures ok { (m : BatchMessage) → SaysPlainly (model_of message.entry) m → OnOk result (AppendsCompressedMessage m out.old.items out.new.items) }
    ensures form { (m : BatchMessage) → SaysPlainly (model_of message.entry) m → OnOk result (compression_error m ≡ None) }
    ensures err { (m : BatchMessage) → SaysPlainly (model_of message.entry) m → IfErr result (IsErrorOrMemory (compression_error m)) }
{
    let mut header = plain_header(alloc, message)?;
    let (buffers, body) = compress_body(alloc, message.body, &header.batch.buffers)?;
    header.batch.buffers = buffers;
    header.batch.compression = Some(CompressionCodec::Lz4Frame);
    write_header(alloc, out, &header, body.len())?;
    out.extend_from_slice(&body)?;
    Ok(())
}

/// Appends encoded record batches and dictionary batches with their buffers compressed by LZ4.
///
/// `bytes` has the messages without compression, each with its body.
///
/// # Errors
/// `Size` where the metadata of a compressed message has 2^31 bytes or more. `Memory` where an allocation fails. `out` may have more bytes
/// then.
pub(crate) fn compress_messages(
    alloc: Global,
    bytes: &[u8],
    out: &mut Vec<u8>,
) -> Result<(), IpcWriteError>
    requires { (ms : List BatchMessage) × ArePlainMessages ms bytes.now }
    ensures ok { (ms : List BatchMessage) → ArePlainMessages ms bytes.now → OnOk result (AppendsCompressedMessages ms out.old.items out.new.items) }
    ensures form { (ms : List BatchMessage) → ArePlainMessages ms bytes.now → OnOk result (each_error compression_error ms ≡ None) }
    ensures err { (ms : List BatchMessage) → ArePlainMessages ms bytes.now → IfErr result (IsErrorOrMemory (each_error compression_error ms)) }
{
    let mut rest = bytes;
    'messages: loop {
        match next_message(rest) {
            Err(_) => unreachable!(),
            Ok((None, _)) => return Ok(()),
            Ok((Some(message), behind)) => {
                compress_message(alloc, message, out)?;
                rest = behind;
            }
        }
    }
}
