//! Reads the next message. Memory is allocated for bytes that were read, not for the lengths in the message.
ghost use Rattle.std.specs.Prelude.{◌≡◌, ◌<◌, ◌^◌, length, IfErr, IfOk, IfSome, OnOk};
ghost use Rattle.std.specs.Io.{ReadsAtMost};
ghost use Rattle.std.specs.Io.KnownBytes.{ReadConsumes};
ghost use Rattle.ipc_flatbuf.specs.Messages.{message_at, spec_first_bytes, spec_message_of_size, model_of};
ghost use Rattle.ipc_io.specs.Fetched.{Fetches, ReadsUpTo, IsReadFailure, fetched_message, optional_fetched, word_at, number_of_size, metadata_length_at};

use crate::error::ReadError;
use ipc_flatbuf::message::{Message, MessageRoot, read_root};
use ipc_flatbuf::{IpcReadError, non_negative};
use std::alloc::Global;
use std::io;
use std::io::{ErrorKind, Read};

/// The number of bytes of one read.
pub(crate) const PIECE: usize = 16384;

/// A message that was read.
#[derive(Drop)]
pub struct FetchedMessage {
    /// The root of its metadata.
    pub root: MessageRoot,
    /// The metadata, a flatbuffer.
    pub metadata: Vec<u8>,
    /// The body.
    pub body: Vec<u8>,
}

impl FetchedMessage {
    /// Returns the message, which borrows its metadata and body.
    pub fn message(&self) -> Message<'_>
        ensures model { model_of result ≡ fetched_message self.now }
        ensures metadata { result.metadata.now ≡ self.now.metadata.items }
    {
        Message {
            root: self.root,
            metadata: &self.metadata,
            body: &self.body,
        }
    }
}

// Reads once, and retries while the read is interrupted.
fn read_retrying<R: Read>(reader: &mut R, piece: &mut [u8]) -> io::Result<usize>
    ensures bound { ReadsAtMost result piece.new }
    ensures bytes { ReadConsumes (R.remaining reader.old) (R.remaining reader.new) result piece.new }
{
    'tries: for _turn in 0..u64::MAX {
        match reader.read(piece) {
            Ok(n) => return Ok(n),
            Err(e) => {
                if e.kind() != ErrorKind::Interrupted {
                    return Err(e);
                }
            }
        }
    }
    Err(io::Error::from(ErrorKind::TimedOut))
}

// Appends the next `want` bytes, or all bytes of a reader that ends before.
fn fill<R: Read>(reader: &mut R, buf: &mut Vec<u8>, want: usize) -> Result<(), ReadError>
    ensures read { OnOk result (ReadsUpTo (R.remaining reader.old) (R.remaining reader.new) buf.old.items buf.new.items want) }
    ensures err { IfErr result IsReadFailure }
{
    let mut buffer = [0u8; PIECE];
    let mut left = want;
    'reads: while left > 0 {
        let piece = &mut buffer[..left.min(PIECE)];
        match read_retrying(reader, piece) {
            Ok(0) => return Ok(()),
            Ok(n) => {
                buf.extend_from_slice(&piece[..n])?;
                left -= n;
            }
            Err(e) => return Err(ReadError::Io(e)),
        }
    }
    Ok(())
}

// Reads the next `n` bytes.
#[tactic(auto, using(crate::proofs::Messages::failed, crate::proofs::Messages::bytes_fetched, crate::proofs::Messages::bytes_missing))]
pub(crate) fn fetch_bytes<R: Read>(
    alloc: Global,
    reader: &mut R,
    n: usize,
) -> Result<Vec<u8>, ReadError>
    ensures read { Fetches (spec_first_bytes n) (λ v. v.items) (R.remaining reader.old) (R.remaining reader.new) result }
    ensures length { IfOk result (λ v. length v.items ≡ n) }
{
    let mut buf = Vec::new(alloc);
    fill(reader, &mut buf, n)?;
    if buf.len() < n {
        return Err(ReadError::Ipc(IpcReadError::Truncated));
    }
    Ok(buf)
}

// Reads the next 4 bytes as a number, or returns `None` at the end of the reader.
#[tactic(auto, using(crate::proofs::Messages::failed, crate::proofs::Messages::word_absent, crate::proofs::Messages::word_missing, crate::proofs::Messages::word_fetched))]
fn fetch_word<R: Read>(alloc: Global, reader: &mut R) -> Result<Option<u32>, ReadError>
    ensures { Fetches word_at (λ word. word) (R.remaining reader.old) (R.remaining reader.new) result }
{
    let mut word = Vec::new(alloc);
    fill(reader, &mut word, 4)?;
    if word.is_empty() {
        return Ok(None);
    }
    if word.len() < 4 {
        return Err(ReadError::Ipc(IpcReadError::Truncated));
    }
    Ok(Some(u32::from_le_bytes([word[0], word[1], word[2], word[3]])))
}

// Returns the length of the metadata from its 4 bytes.
fn metadata_length(word: u32) -> Result<usize, IpcReadError>
    ensures length { result ≡ number_of_size word }
    ensures small { IfOk result (λ size. size < 2 ^ 31) }
{
    non_negative(IpcReadError::MetadataLength, word.cast_signed() as i64)
}

// Reads the length of the metadata, after the continuation indicator if there is one. It is 0 at the end of the stream.
#[tactic(auto, using(crate::proofs::Messages::length_unread, crate::proofs::Messages::length_of_none, crate::proofs::Messages::length_unmarked, crate::proofs::Messages::length_unmarked_invalid, crate::proofs::Messages::length_cut, crate::proofs::Messages::length_unread_after, crate::proofs::Messages::length_invalid, crate::proofs::Messages::length_read))]
pub(crate) fn fetch_metadata_length<R: Read>(
    alloc: Global,
    reader: &mut R,
) -> Result<usize, ReadError>
    ensures read { Fetches metadata_length_at (λ size. size) (R.remaining reader.old) (R.remaining reader.new) result }
    ensures small { IfOk result (λ size. size < 2 ^ 31) }
{
    let Some(first) = fetch_word(alloc, reader)? else {
        return Ok(0);
    };
    if first != 0xFFFF_FFFF {
        return Ok(metadata_length(first)?);
    }
    match fetch_word(alloc, reader)? {
        None => Err(ReadError::Ipc(IpcReadError::Truncated)),
        Some(word) => Ok(metadata_length(word)?),
    }
}

// Reads a message with `size` bytes of metadata.
#[tactic(auto, using(crate::proofs::Messages::metadata_unread, crate::proofs::Messages::root_invalid, crate::proofs::Messages::body_unread, crate::proofs::Messages::parts_read))]
fn fetch_message_of_size<R: Read>(
    alloc: Global,
    reader: &mut R,
    size: usize,
) -> Result<FetchedMessage, ReadError>
    requires { size < 2 ^ 31 }
    ensures read { Fetches (spec_message_of_size size) fetched_message (R.remaining reader.old) (R.remaining reader.new) result }
    ensures small { IfOk result (λ m. length m.metadata.items < 2 ^ 31) }
{
    let metadata = fetch_bytes(alloc, reader, size)?;
    let root = read_root(&metadata)?;
    let body = fetch_bytes(alloc, reader, root.body_length)?;
    Ok(FetchedMessage {
        root,
        metadata,
        body,
    })
}

/// Reads the next message, or returns `None` at the end of the stream.
///
/// # Errors
/// `Ipc` with the error of `ipc_flatbuf::message::next_message`, or `Memory`. `Io` with an error of the reader.
#[tactic(auto, using(crate::proofs::Messages::message_unread, crate::proofs::Messages::message_absent, crate::proofs::Messages::message_failed, crate::proofs::Messages::message_read))]
pub fn fetch_message<R: Read>(
    alloc: Global,
    reader: &mut R,
) -> Result<Option<FetchedMessage>, ReadError>
    ensures read { Fetches message_at optional_fetched (R.remaining reader.old) (R.remaining reader.new) result }
    ensures small { IfOk result (λ next. IfSome next (λ m. length m.metadata.items < 2 ^ 31)) }
{
    let size = fetch_metadata_length(alloc, reader)?;
    if size == 0 {
        return Ok(None);
    }
    let message = fetch_message_of_size(alloc, reader, size)?;
    Ok(Some(message))
}
