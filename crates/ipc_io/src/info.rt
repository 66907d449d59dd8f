//! Reads what the metadata of a stream or a file says. No body is decoded.
ghost use Rattle.std.specs.Prelude.{◌≡◌, ◌<◌, ◌^◌, ◌∷◌, ◌++◌, [], length, Err, IfErr, IfOk, Ok, OnOk, Some, option_map};
ghost use Rattle.ipc_flatbuf.specs.ReadResults.{ReturnsOrRunsOut};
ghost use Rattle.ipc_io.specs.BatchInfos.{record_batches};
ghost use Rattle.ipc_io.specs.Fetched.{IsReadFailure};
ghost use Rattle.ipc_io.specs.FileReaders.{DecodesAs};
ghost use Rattle.ipc_io.specs.Infos.{ReadsInfo, ReadsInfos, ReturnsInfo, block_info_in, block_infos_in, file_info_in, file_infos_in, info_in_front, info_in_metadata, infos_in, prefixed, stream_info_in};
ghost use Rattle.ipc_io.specs.Seeks.{KeepsBytes, bytes_of};

use crate::batch_info::{BatchInfo, read_info_as, read_message_info, record_batch_count};
use crate::error::ReadError;
use crate::fetching::fetch_message;
use crate::file_reader::find_blocks;
use crate::metadata_reader::{fetch_metadata, read_front};
use crate::seek_read::SeekRead;
use crate::stream_reader::read_first;
use ipc_flatbuf::IpcReadError;
use ipc_flatbuf::message::{MessageKind, read_root};
use ipc_schema::Projection;
use ipc_schema::footer::Block;
use std::alloc::Global;
use std::fmt::{Display, Formatter};
use std::io::{ErrorKind, Read};
use std::{fmt, io};

/// What the metadata of a stream or a file says.
#[derive(Drop)]
pub struct IpcInfo {
    /// The number of columns.
    pub columns: usize,
    /// The dictionary batches and record batches, in the order in which they are read.
    pub batches: Vec<BatchInfo>,
}

/// Error returned where the metadata of a stream or a file cannot be read.
#[derive(Clone, Copy, Debug)]
pub struct InfoError {
    /// The record batch that has the error, or a dictionary batch before it. `None`: the schema or the footer has it.
    pub batch: Option<usize>,
    /// The error.
    pub error: ReadError,
}

impl Display for InfoError {
    fn fmt<W: fmt::Write>(&self, f: &mut Formatter<W>) -> fmt::Result {
        match self.batch {
            None => write!(f, "{}", self.error),
            Some(k) => write!(f, "record batch {k}: {}", self.error),
        }
    }
}

// Appends a batch.
fn push_info(infos: &mut Vec<BatchInfo>, info: BatchInfo) -> Result<(), ReadError>
    ensures pushed { OnOk result (infos.new.items ≡ infos.old.items ++ info ∷ []) }
    ensures error { IfErr result IsReadFailure }
{
    infos.push(info)?;
    Ok(())
}

// Reads the metadata of the next message, and skips its body.
#[tactic(auto, using(crate::proofs::StreamInfos::unfetched_info, crate::proofs::StreamInfos::info_is_missing, crate::proofs::StreamInfos::info_fails, crate::proofs::StreamInfos::info_is))]
fn read_next_info<R: Read>(alloc: Global, reader: &mut R) -> Result<Option<BatchInfo>, ReadError>
    ensures { ReadsInfo (option_map infos_in (R.remaining reader.old)) (option_map infos_in (R.remaining reader.new)) result }
{
    match fetch_message(alloc, reader)? {
        None => Ok(None),
        Some(next) => match read_message_info(alloc, next.message()) {
            Err(error) => Err(ReadError::Ipc(error)),
            Ok(info) => Ok(Some(info)),
        },
    }
}

// Appends the batches up to the end of the stream.
fn read_stream_infos<R: Read>(
    alloc: Global,
    reader: &mut R,
    infos: &mut Vec<BatchInfo>,
) -> Result<(), ReadError>
    ensures { ReadsInfos (option_map (λ xs. prefixed infos.old.items (infos_in xs)) (R.remaining reader.old)) infos.new.items result }
{
    'messages: for _turn in 0..u64::MAX {
        match read_next_info(alloc, reader) {
            Err(error) => return Err(error),
            Ok(None) => return Ok(()),
            Ok(Some(info)) => match push_info(infos, info) {
                Err(error) => return Err(error),
                Ok(()) => {}
            },
        }
    }
    Err(ReadError::Io(io::Error::from(ErrorKind::TimedOut)))
}

// Returns the batch in the metadata of a block. `behind` has the bytes of the block between the metadata and the body.
#[tactic(auto, unfolding(crate::specs::Infos::info_in_metadata))]
fn read_info(
    alloc: Global,
    wanted: MessageKind,
    block: Block,
    metadata: &[u8],
    behind: &[u8],
) -> Result<BatchInfo, IpcReadError>
    requires { length metadata.now < 2 ^ 31 }
    ensures { ReturnsOrRunsOut (λ info. info) result (info_in_metadata wanted block metadata.now behind.now) }
{
    let root = read_root(metadata)?;
    if !(behind.is_empty() && root.body_length == block.body_length.unsigned_abs() as usize) {
        return Err(IpcReadError::Block);
    }
    read_info_as(alloc, wanted, root, metadata)
}

// Returns the batch of a block. `front` has the bytes of the block before the body.
#[tactic(auto, using(crate::proofs::BlockInfos::info_unread, crate::proofs::BlockInfos::info_is, crate::proofs::BlockInfos::info_fails))]
fn info_before_body(
    alloc: Global,
    wanted: MessageKind,
    block: Block,
    front: &[u8],
) -> Result<BatchInfo, ReadError>
    ensures { DecodesAs (λ bytes info. info) (info_in_front wanted block) (Some front.now) result }
{
    let mut rest = front;
    let metadata = fetch_metadata(alloc, &mut rest)?;
    match read_info(alloc, wanted, block, &metadata, rest) {
        Ok(info) => Ok(info),
        Err(error) => Err(ReadError::Ipc(error)),
    }
}

// Reads the metadata of a block.
fn read_block_info<R: SeekRead>(
    alloc: Global,
    reader: &mut R,
    wanted: MessageKind,
    block: Block,
) -> Result<BatchInfo, ReadError>
    ensures info { DecodesAs (λ bytes info. info) (λ xs. block_info_in wanted xs block) (bytes_of R.stream_position R.stream_bytes reader.old) result }
    ensures kept { KeepsBytes R.stream_position R.stream_bytes reader.old reader.new }
{
    match read_front(alloc, reader, block) {
        Err(error) => Err(error),
        Ok(front) => info_before_body(alloc, wanted, block, &front),
    }
}

// Appends the batches of blocks.
fn read_block_infos<R: SeekRead>(
    alloc: Global,
    reader: &mut R,
    wanted: MessageKind,
    blocks: &[Block],
    infos: &mut Vec<BatchInfo>,
) -> Result<(), ReadError>
    ensures read { ReadsInfos (option_map (λ xs. prefixed infos.old.items (block_infos_in wanted blocks.now xs)) (bytes_of R.stream_position R.stream_bytes reader.old)) infos.new.items result }
    ensures kept { KeepsBytes R.stream_position R.stream_bytes reader.old reader.new }
{
    for block in blocks {
        match read_block_info(alloc, reader, wanted, *block) {
            Err(error) => return Err(error),
            Ok(info) => match push_info(infos, info) {
                Err(error) => return Err(error),
                Ok(()) => {}
            },
        }
    }
    Ok(())
}

// Appends the dictionary batches of a file, then its record batches.
fn read_file_infos<R: SeekRead>(
    alloc: Global,
    reader: &mut R,
    dictionaries: &[Block],
    batches: &[Block],
    infos: &mut Vec<BatchInfo>,
) -> Result<(), ReadError>
    ensures { ReadsInfos (option_map (λ xs. prefixed infos.old.items (file_infos_in dictionaries.now batches.now xs)) (bytes_of R.stream_position R.stream_bytes reader.old)) infos.new.items result }
{
    match read_block_infos(
        alloc,
        reader,
        MessageKind::DictionaryBatch,
        dictionaries,
        infos,
    ) {
        Err(error) => Err(error),
        Ok(()) => read_block_infos(alloc, reader, MessageKind::RecordBatch, batches, infos),
    }
}

// Returns what was read, or the error and the record batch that has it.
fn info_or_error(
    columns: usize,
    batches: Vec<BatchInfo>,
    read: Result<(), ReadError>,
) -> Result<IpcInfo, InfoError>
    ensures info { IfOk result (λ info. (read ≡ Ok tt) × (info.columns ≡ columns) × (info.batches.items ≡ batches.items)) }
    ensures error { IfErr result (λ stop. (read ≡ Err stop.error) × (stop.batch ≡ Some (record_batches batches.items))) }
{
    match read {
        Ok(()) => Ok(IpcInfo { columns, batches }),
        Err(error) => Err(InfoError {
            batch: Some(record_batch_count(&batches)),
            error,
        }),
    }
}

/// Reads what the metadata of a stream says, up to the end of the stream. The bodies of its messages are skipped. Columns may have data
/// types that are not supported.
///
/// # Errors
/// `Ipc` with the first error of the schema or of the metadata of a message, or `Memory`. `Io` with an error of the reader.
pub fn read_stream_info<R: Read>(alloc: Global, reader: &mut R) -> Result<IpcInfo, InfoError>
    ensures { ReturnsInfo stream_info_in (R.remaining reader.old) result }
{
    match read_first(alloc, Projection::Indices(&[]), reader) {
        Err(error) => Err(InfoError { batch: None, error }),
        Ok(picked) => {
            let columns = picked.steps.len();
            drop(picked);
            let mut batches = Vec::new(alloc);
            let read = read_stream_infos(alloc, reader, &mut batches);
            info_or_error(columns, batches, read)
        }
    }
}

/// Reads what the footer of a file and the metadata of its messages say. The bodies of the messages are not read. Columns may have data
/// types that are not supported.
///
/// # Errors
/// `Ipc` with the first error of the footer or of the metadata of a message, or `Memory`: `Block`, if the metadata does not fill its part of
/// the block; `HeaderType`, if a message is not of the kind that the footer says. `Io` with an error of the reader, or `UnexpectedEof`.
pub fn read_file_info<R: SeekRead>(alloc: Global, reader: &mut R) -> Result<IpcInfo, InfoError>
    ensures { ReturnsInfo file_info_in (bytes_of R.stream_position R.stream_bytes reader.old) result }
{
    match find_blocks(alloc, Projection::Indices(&[]), reader) {
        Err(error) => Err(InfoError { batch: None, error }),
        Ok(footer) => {
            let columns = footer.picked.steps.len();
            let mut batches = Vec::new(alloc);
            let read = read_file_infos(
                alloc,
                reader,
                &footer.dictionaries,
                &footer.batches,
                &mut batches,
            );
            info_or_error(columns, batches, read)
        }
    }
}
