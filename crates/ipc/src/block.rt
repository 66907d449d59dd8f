//! Reads the messages of a file by the blocks of its footer.
ghost use Rattle.std.specs.Prelude.{◌≡◌, ◌<◌, ◌^◌, ◌==◌, length, IfOk};
ghost use Rattle.ipc_flatbuf.specs.ReadResults.{ReturnsOrRunsOut, Returns};
ghost use Rattle.ipc_flatbuf.specs.Messages.{model_of, optional_model_of};
ghost use Rattle.ipc_flatbuf.specs.MessageBytes.{header_tag};
ghost use Rattle.ipc_schema.specs.ProjectedSchemas.{projected_schema_of};
ghost use Rattle.ipc.specs.Streams.{record_batch_of, state_of};
ghost use Rattle.ipc.specs.Files.{message_of_block, spec_message_in_block, batch_in_block, dictionary_in_block};

use crate::batch::Batch;
use crate::dictionary::read_dictionary;
use crate::reading::read_record_batch;
use crate::state::DictionaryState;
use ipc_flatbuf::IpcReadError;
use ipc_flatbuf::message::{Message, MessageKind, next_message};
use ipc_schema::footer::Block;
use ipc_schema::{ProjectedSchema, check_projected_version};
use std::alloc::Global;

// Returns the message, if it fills its block. `behind` has the bytes after its body.
fn of_block<'a>(
    block: Block,
    next: Option<Message<'a>>,
    behind: &[u8],
) -> Result<Message<'a>, IpcReadError>
    ensures parts { Returns model_of result (message_of_block block (optional_model_of next.entry) behind.now) }
    ensures same { IfOk result (λ m. Some m ≡ next.entry) }
{
    match next {
        None => Err(IpcReadError::Block),
        Some(message) => {
            let body = block.body_length.unsigned_abs() as usize;
            if behind.is_empty() && message.body.len() == body {
                Ok(message)
            } else {
                Err(IpcReadError::Block)
            }
        }
    }
}

// Returns whether two kinds are equal.
fn is_kind(kind: MessageKind, want: MessageKind) -> bool
    ensures { result ≡ (header_tag kind == header_tag want) }
{
    match kind {
        MessageKind::Schema => matches!(want, MessageKind::Schema),
        MessageKind::DictionaryBatch => matches!(want, MessageKind::DictionaryBatch),
        MessageKind::RecordBatch => matches!(want, MessageKind::RecordBatch),
    }
}

// Reads the message of a block of this kind from the bytes of the block.
#[tactic(auto, unfolding(crate::specs::Files::spec_message_in_block))]
fn message_in_block<'a>(
    kind: MessageKind,
    picked: &ProjectedSchema,
    own: &'a [u8],
    block: Block,
) -> Result<Message<'a>, IpcReadError>
    ensures parts { Returns model_of result (spec_message_in_block kind (projected_schema_of picked.now) own.now block) }
    ensures small { IfOk result (λ m. length m.metadata.now < 2 ^ 31) }
{
    let (next, behind) = next_message(own)?;
    let message = of_block(block, next, behind)?;
    if !is_kind(message.root.kind, kind) {
        return Err(IpcReadError::HeaderType);
    }
    check_projected_version(message.root.version, &picked.schema.fields, &picked.steps)?;
    Ok(message)
}

/// Reads a dictionary batch of a file into the state. `own` has the bytes of its block.
///
/// # Errors
/// The first error of the message: `Block`, if it does not fill the block; `HeaderType`, if it is no dictionary batch; an error
/// of the batch; the error of a second dictionary with an id, as files allow deltas only. Otherwise `Memory`.
pub fn read_dictionary_block(
    alloc: Global,
    state: &mut DictionaryState,
    own: &[u8],
    block: Block,
) -> Result<(), IpcReadError>
    ensures picked { state.new.picked ≡ state.old.picked }
    ensures known { ReturnsOrRunsOut (λ done. state_of state.new) result (dictionary_in_block (state_of state.old) own.now block) }
{
    let message = message_in_block(MessageKind::DictionaryBatch, &state.picked, own, block)?;
    read_dictionary(alloc, true, state, message)
}

/// Reads a record batch of a file. `own` has the bytes of its block.
///
/// # Errors
/// The first error of the message: `Block`, if it does not fill the block; `HeaderType`, if it is no record batch; an error of
/// the batch. Otherwise `Memory`.
pub fn read_batch_block(
    alloc: Global,
    state: &DictionaryState,
    own: &[u8],
    block: Block,
) -> Result<Batch, IpcReadError>
    ensures { ReturnsOrRunsOut record_batch_of result (batch_in_block (state_of state.now) own.now block) }
{
    let message = message_in_block(MessageKind::RecordBatch, &state.picked, own, block)?;
    read_record_batch(alloc, state, message)
}
