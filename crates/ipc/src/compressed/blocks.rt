//! The blocks of encoded messages.
ghost use Rattle.std.specs.Prelude.{◌≡◌, ◌+◌, ◌-◌, ◌<◌, ◌≤◌, ◌^◌, List, None, length, IfErr, OnOk};
ghost use Rattle.ipc.specs.EncodedStreams.{each_error, IsErrorOrMemory};
ghost use Rattle.ipc.specs.EncodedFiles.{file_blocks_of};
ghost use Rattle.ipc.specs.CompressedFiles.{AreReadBack, FileMessage, IsLengthErrorOrMemory, block_of_lengths, both_blocks, is_dictionary_kind, message_blocks, part_length_error, with_last_block};

use crate::writing_files::{FileBlocks, block_between};
use ipc_flatbuf::IpcWriteError;
use ipc_flatbuf::message::{MessageKind, next_message};

// Adds the block of a message between these positions, whose body has this length.
fn push_block(
    blocks: &mut FileBlocks,
    kind: MessageKind,
    start: usize,
    end: usize,
    body_length: usize,
) -> Result<(), IpcWriteError>
    requires within { start + body_length ≤ end }
    requires small { end < 2 ^ 63 }
    ensures ok { OnOk result (file_blocks_of blocks.new ≡ with_last_block (is_dictionary_kind kind) (block_of_lengths start (end - start - body_length) body_length) (file_blocks_of blocks.old)) }
    ensures short { OnOk result (end - start - body_length < 2 ^ 31) }
    ensures err { IfErr result (IsLengthErrorOrMemory (end - start - body_length)) }
{
    let block = block_between(start, end, body_length)?;
    match kind {
        MessageKind::DictionaryBatch => {
            blocks.dictionaries.push(block)?;
            Ok(())
        }
        MessageKind::Schema | MessageKind::RecordBatch => {
            blocks.batches.push(block)?;
            Ok(())
        }
    }
}

/// Adds the blocks of encoded messages. The first message begins at `position`.
///
/// # Errors
/// `Size` where a message without its body has 2^31 bytes or more. `Memory` where an allocation fails. `blocks` may have more blocks then.
pub(crate) fn push_blocks(
    blocks: &mut FileBlocks,
    position: usize,
    bytes: &[u8],
) -> Result<(), IpcWriteError>
    requires readable { (parts : List FileMessage) × AreReadBack parts bytes.now }
    requires small { position + length bytes.now < 2 ^ 63 }
    ensures ok { (parts : List FileMessage) → AreReadBack parts bytes.now → OnOk result (file_blocks_of blocks.new ≡ both_blocks (file_blocks_of blocks.old) (message_blocks position parts)) }
    ensures form { (parts : List FileMessage) → AreReadBack parts bytes.now → OnOk result (each_error part_length_error parts ≡ None) }
    ensures err { (parts : List FileMessage) → AreReadBack parts bytes.now → IfErr result (IsErrorOrMemory (each_error part_length_error parts)) }
{
    let mut rest = bytes;
    let mut start = position;
    'messages: loop {
        match next_message(rest) {
            Err(_) => unreachable!(),
            Ok((None, _)) => return Ok(()),
            Ok((Some(message), behind)) => {
                let size = rest.len() - behind.len();
                let end = start + size;
                push_block(blocks, message.root.kind, start, end, message.body.len())?;
                start = end;
                rest = behind;
            }
        }
    }
}
