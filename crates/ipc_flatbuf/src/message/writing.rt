//! Writers of encapsulated messages without their bodies.
ghost use Rattle.std.specs.Prelude.{◌≡◌, ◌<◌, ◌^◌, ◌++◌, OnOk, IfErr};
ghost use Rattle.ipc_flatbuf.specs.WriteErrors.{IsSizeError};
ghost use Rattle.ipc_flatbuf.specs.MessageBytes.{header_tag, root_bytes, framed_bytes, metadata_size, message_bytes};

use crate::message::types::MessageKind;
use crate::{IpcWriteError, write_i64, write_u32, write_zeros};
use std::alloc::{AllocError, Global};

fn tag_of(kind: MessageKind) -> u8
    ensures { result ≡ header_tag kind }
{
    match kind {
        MessageKind::Schema => 1,
        MessageKind::DictionaryBatch => 2,
        MessageKind::RecordBatch => 3,
    }
}

/// Appends the root table of metadata, version V5, and the part that holds its header table, `head` bytes into it.
#[tactic(auto, unfolding(crate::specs::MessageBytes::root_bytes))]
pub fn write_root(
    out: &mut Vec<u8>,
    kind: MessageKind,
    body_length: usize,
    head: u8,
    part: &[u8],
) -> Result<(), AllocError>
    requires { body_length < 2 ^ 63 }
    ensures { OnOk result (out.new.items ≡ out.old.items ++ root_bytes kind body_length head part.now) }
{
    out.extend_from_slice(&[
        24, 0, 0, 0, 0, 0, 0, 0, 12, 0, 24, 0, 16, 0, 18, 0, 4, 0, 8, 0, 0, 0, 0, 0, 16, 0, 0, 0,
    ])?;
    write_u32(out, 20 + head as u32)?;
    write_i64(out, body_length as i64)?;
    out.extend_from_slice(&[4, 0, tag_of(kind), 0, 0, 0, 0, 0])?;
    out.extend_from_slice(part)?;
    Ok(())
}

/// Appends an encapsulated message without its body.
///
/// # Errors
/// [`IpcWriteError::Size`] where the metadata with its padding exceeds 2^31 - 1 bytes, [`IpcWriteError::Memory`]
/// where an allocation fails.
#[tactic(auto, unfolding(crate::specs::MessageBytes::message_bytes, crate::specs::MessageBytes::framed_bytes))]
pub fn write_message(
    alloc: Global,
    out: &mut Vec<u8>,
    kind: MessageKind,
    body_length: usize,
    head: u8,
    part: &[u8],
) -> Result<(), IpcWriteError>
    requires { body_length < 2 ^ 63 }
    ensures ok { OnOk result (out.new.items ≡ out.old.items ++ message_bytes kind body_length head part.now) }
    ensures small { OnOk result (metadata_size (message_bytes kind body_length head part.now) < 2 ^ 31) }
    ensures size { IfErr result (λ why. IsSizeError why (metadata_size (message_bytes kind body_length head part.now))) }
{
    let mut metadata = Vec::new(alloc);
    write_root(&mut metadata, kind, body_length, head, part)?;
    let pad = (8 - metadata.len() % 8) % 8;
    if metadata.len() > (1 << 31) - 8 {
        return Err(IpcWriteError::Size);
    }
    out.extend_from_slice(&[255, 255, 255, 255])?;
    write_u32(out, (metadata.len() + pad) as u32)?;
    out.extend_from_slice(&metadata)?;
    write_zeros(out, pad)?;
    Ok(())
}
