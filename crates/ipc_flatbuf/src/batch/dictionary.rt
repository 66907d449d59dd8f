//! Writer of the messages of dictionary batches, without their bodies.
ghost use Rattle.std.specs.Prelude.{◌≡◌, ◌<◌, ◌^◌, ◌++◌, length, OnOk, IfErr};
ghost use Rattle.ipc_flatbuf.specs.MessageBytes.{metadata_size};
ghost use Rattle.ipc_flatbuf.specs.Batches.{batch_of};
ghost use Rattle.ipc_flatbuf.specs.BatchBytes.{IsBatchWriteError};
ghost use Rattle.ipc_flatbuf.specs.DictionaryBytes.{dictionary_part_head, dictionary_message};
ghost use Rattle.ipc_flatbuf.specs.DictionaryLaws.{DictionaryRoundTripsWithBodies};

use crate::batch::metadata::BatchMetadata;
use crate::batch::writing::{check_counts, write_batch_part};
use crate::message::{MessageKind, write_message};
use crate::{IpcWriteError, write_i64};
use std::alloc::{AllocError, Global};

#[tactic(auto, unfolding(crate::specs::DictionaryBytes::dictionary_part_head))]
fn write_head(out: &mut Vec<u8>, delta: bool, id: i64) -> Result<(), AllocError>
    ensures { OnOk result (out.new.items ≡ out.old.items ++ dictionary_part_head delta id) }
{
    let flag = delta as u8;
    out.extend_from_slice(&[
        10, 0, 20, 0, 12, 0, 4, 0, 8, 0, 0, 0, 12, 0, 0, 0, 32, 0, 0, 0, flag, 0, 0, 0,
    ])?;
    write_i64(out, id)?;
    Ok(())
}

/// Appends the message of a dictionary batch without its body, which has `body_length` bytes and follows it.
///
/// `delta` becomes `isDelta`, which is always written: `true` appends the values to those of the id, `false` replaces
/// them. The flag, the id and the batch round-trip where all buffers are within the body.
///
/// # Errors
/// [`IpcWriteError::Size`] where the number of rows is 2^63 or more, or the metadata has 2^31 bytes or more,
/// [`IpcWriteError::Memory`] where an allocation fails.
///
/// Source: Message.fbs, table `DictionaryBatch`.
#[tactic(auto, unfolding(crate::specs::DictionaryBytes::dictionary_message, crate::specs::DictionaryBytes::dictionary_part_bytes))]
pub fn write_dictionary(
    alloc: Global,
    out: &mut Vec<u8>,
    delta: bool,
    id: i64,
    metadata: &BatchMetadata,
    body_length: usize,
) -> Result<(), IpcWriteError>
    requires { body_length < 2 ^ 63 }
    ensures bytes { OnOk result (out.new.items ≡ out.old.items ++ dictionary_message delta id (batch_of metadata.now) body_length) }
    ensures form { OnOk result ((metadata.now.rows < 2 ^ 63) × (metadata_size (dictionary_message delta id (batch_of metadata.now) body_length) < 2 ^ 31)) }
    ensures again { OnOk result (DictionaryRoundTripsWithBodies delta id (batch_of metadata.now) body_length) }
    ensures err { IfErr result (IsBatchWriteError (batch_of metadata.now) (metadata_size (dictionary_message delta id (batch_of metadata.now) body_length))) }
{
    check_counts(metadata)?;
    let mut part = Vec::new(alloc);
    write_head(&mut part, delta, id)?;
    write_batch_part(&mut part, metadata)?;
    write_message(
        alloc,
        out,
        MessageKind::DictionaryBatch,
        body_length,
        12,
        &part,
    )
}
