//! Readers of encapsulated messages.
ghost use Rattle.std.specs.Prelude.{◌≡◌, ◌<◌, ◌^◌, length, IfOk, IfSome, Ok};
ghost use Rattle.ipc_flatbuf.specs.ReadResults.{Returns};
ghost use Rattle.ipc_flatbuf.specs.Messages.{spec_version_of, spec_kind_of, spec_header_position, root_at, spec_first_bytes, spec_after_continuation, spec_message_of_size, spec_sized_message, message_at, model_of, optional_model_of};

use crate::message::types::{Message, MessageKind, MessageRoot, MetadataVersion};
use crate::{
    IpcReadError, i16_field, i64_field, non_negative, offset_at, offset_field, read_table, u8_field,
};

/// Returns the metadata version of a number of `MetadataVersion`.
///
/// # Errors
/// [`IpcReadError::Version`] where it is neither V4 nor V5.
pub fn version_of(number: i16) -> Result<MetadataVersion, IpcReadError>
    ensures { result ≡ spec_version_of number }
{
    let number = non_negative(IpcReadError::Version, number as i64)?;
    if number == 3 {
        Ok(MetadataVersion::V4)
    } else if number == 4 {
        Ok(MetadataVersion::V5)
    } else {
        Err(IpcReadError::Version)
    }
}

fn kind_of(tag: u8) -> Result<MessageKind, IpcReadError>
    ensures { result ≡ spec_kind_of tag }
{
    if tag == 1 {
        Ok(MessageKind::Schema)
    } else if tag == 2 {
        Ok(MessageKind::DictionaryBatch)
    } else if tag == 3 {
        Ok(MessageKind::RecordBatch)
    } else {
        Err(IpcReadError::HeaderType)
    }
}

fn header_position(to: Option<usize>) -> Result<usize, IpcReadError>
    ensures { result ≡ spec_header_position to }
{
    match to {
        None => Err(IpcReadError::HeaderType),
        Some(position) => Ok(position),
    }
}

/// Returns the root table of metadata.
///
/// # Errors
/// [`IpcReadError::Flatbuffer`], [`IpcReadError::ApparentSize`], [`IpcReadError::Version`],
/// [`IpcReadError::HeaderType`] where the header is absent or of another type, [`IpcReadError::BodyLength`] where the
/// body length is negative.
#[tactic(auto, unfolding(crate::specs::Messages::root_at))]
pub fn read_root(bytes: &[u8]) -> Result<MessageRoot, IpcReadError>
    requires { length bytes.now < 2 ^ 31 }
    ensures { result ≡ root_at bytes.now }
{
    let position = offset_at(bytes, 0)?;
    let (table, left) = read_table(bytes, position, 64 * bytes.len())?;
    let version = version_of(i16_field(bytes, table, 0, 0)?)?;
    let kind = kind_of(u8_field(bytes, table, 1)?)?;
    let header = header_position(offset_field(bytes, table, 2)?)?;
    let body_length = non_negative(IpcReadError::BodyLength, i64_field(bytes, table, 3, 0)?)?;
    Ok(MessageRoot {
        version,
        kind,
        header,
        left,
        body_length,
    })
}

#[tactic(auto, unfolding(crate::specs::Messages::spec_first_bytes))]
fn first_bytes(n: usize, bytes: &[u8]) -> Result<(&[u8], &[u8]), IpcReadError>
    ensures parts { Returns (λ x. (x.0.now, x.1.now)) result (spec_first_bytes n bytes.now) }
    ensures length { IfOk result (λ x. length x.0.now ≡ n) }
{
    if n <= bytes.len() {
        Ok(bytes.split_at(n))
    } else {
        Err(IpcReadError::Truncated)
    }
}

// Skips the continuation indicator, which messages written before version 0.15 of the format lack.
#[tactic(auto, unfolding(crate::specs::Messages::spec_after_continuation))]
fn after_continuation(bytes: &[u8]) -> Result<&[u8], IpcReadError>
    ensures { Returns (λ x. x.now) result (spec_after_continuation bytes.now) }
{
    let (mark, rest) = first_bytes(4, bytes)?;
    if u32::from_le_bytes([mark[0], mark[1], mark[2], mark[3]]) == 0xFFFF_FFFF {
        Ok(rest)
    } else {
        Ok(bytes)
    }
}

#[tactic(auto, unfolding(crate::specs::Messages::spec_message_of_size))]
fn message_of_size(size: usize, bytes: &[u8]) -> Result<(Message<'_>, &[u8]), IpcReadError>
    requires { size < 2 ^ 31 }
    ensures parts { Returns (λ x. (model_of x.0, x.1.now)) result (spec_message_of_size size bytes.now) }
    ensures small { IfOk result (λ x. length x.0.metadata.now < 2 ^ 31) }
{
    let (metadata, rest) = first_bytes(size, bytes)?;
    let root = read_root(metadata)?;
    let (body, rest) = first_bytes(root.body_length, rest)?;
    Ok((
        Message {
            root,
            metadata,
            body,
        },
        rest,
    ))
}

#[tactic(auto, unfolding(crate::specs::Messages::spec_sized_message))]
fn sized_message(bytes: &[u8]) -> Result<(Option<Message<'_>>, &[u8]), IpcReadError>
    ensures parts { Returns (λ x. (optional_model_of x.0, x.1.now)) result (spec_sized_message bytes.now) }
    ensures small { IfOk result (λ x. IfSome x.0 (λ m. length m.metadata.now < 2 ^ 31)) }
{
    let (long, rest) = first_bytes(4, bytes)?;
    let number = u32::from_le_bytes([long[0], long[1], long[2], long[3]]).cast_signed();
    let size = non_negative(IpcReadError::MetadataLength, number as i64)?;
    if size == 0 {
        return Ok((None, rest));
    }
    let (message, rest) = message_of_size(size, rest)?;
    Ok((Some(message), rest))
}

/// Returns the message at the start of the bytes, and the bytes after its body.
///
/// `None` is the end of the stream: its end-of-stream marker, or no bytes. Messages and end-of-stream markers without the
/// continuation indicator are read too, as they were written before version 0.15 of the format.
///
/// # Errors
/// [`IpcReadError::Truncated`] or [`IpcReadError::MetadataLength`] where the encapsulation is invalid, and the errors
/// of [`read_root`].
///
/// Source: Columnar format, Encapsulated message format and IPC Streaming Format.
#[tactic(auto, unfolding(crate::specs::Messages::message_at))]
pub fn next_message(bytes: &[u8]) -> Result<(Option<Message<'_>>, &[u8]), IpcReadError>
    ensures parts { Returns (λ x. (optional_model_of x.0, x.1.now)) result (message_at bytes.now) }
    ensures small { IfOk result (λ x. IfSome x.0 (λ m. length m.metadata.now < 2 ^ 31)) }
{
    if bytes.is_empty() {
        return Ok((None, bytes));
    }
    sized_message(after_continuation(bytes)?)
}
