//! Reads the messages after a schema.
ghost use Rattle.std.specs.Prelude.{◌≡◌, ◌<◌, ◌^◌, map, length, IfErr, is_some};
ghost use Rattle.std.specs.List.{list_any};
ghost use Rattle.std.specs.Option.{option_map};
ghost use Rattle.ipc_flatbuf.specs.ReadResults.{ReturnsOrRunsOut};
ghost use Rattle.ipc_flatbuf.specs.Messages.{model_of};
ghost use Rattle.nest_memory.specs.TypeOf.{field_of};
ghost use Rattle.nest_memory.specs.TypeTree.{field_type};
ghost use Rattle.nest_array.specs.Seen.{layout_of};
ghost use Rattle.ipc_schema.specs.ProjectedSchemas.{projected_schema_of};
ghost use Rattle.ipc_arrays.specs.Projection.{decoded_projection, projection_state};
ghost use Rattle.ipc_arrays.specs.NeededBuffers.{spec_needed_buffers};
ghost use Rattle.ipc.specs.Streams.{spec_has_views, spec_variadic_counts, plain_columns_in, converted_columns_in, columns_in, record_batch_in, message_by_kind, message_in, next_in, record_batch_of, state_of};

use crate::batch::Batch;
use crate::dictionary::read_dictionary;
use crate::plain_buffers::{decompress_buffers, drop_dictionaries, replace_buffers};
use crate::state::{DictionaryState, values_of};
use ipc_arrays::stored::convert_batch;
use ipc_arrays::{BatchCursor, ProjectionCursor, needed_buffers, read_projected};
use ipc_flatbuf::batch::{read_batch, read_variadic_buffer_counts};
use ipc_flatbuf::message::{Message, MessageKind, next_message};
use ipc_flatbuf::{
    BufferSpec, CompressionCodec, FieldAction, IpcReadError, are_read_as_stored, are_views_read,
};
use ipc_schema::{ProjectedSchema, check_projected_version, outermost_ids};
use nest_array::any::AnyArray;
use nest_memory::datatypes::Field;
use std::alloc::Global;

// Returns whether the steps skip a column with view arrays.
fn has_views(step: FieldAction) -> bool
    ensures { result ≡ spec_has_views step }
{
    match step {
        FieldAction::Read => false,
        FieldAction::Skip(span) => span.views > 0,
    }
}

// Returns whether some step does.
fn skips_views(steps: &[FieldAction]) -> bool
    ensures { result ≡ list_any spec_has_views steps.now }
{
    steps.iter().any(|step| has_views(*step))
}

// Returns the variadic buffer counts of a record batch. They are read only where a column with view arrays is skipped or read.
fn variadic_counts(
    alloc: Global,
    picked: &ProjectedSchema,
    message: Message<'_>,
) -> Result<Vec<i64>, IpcReadError>
    requires { length message.metadata.now < 2 ^ 31 }
    ensures { ReturnsOrRunsOut (λ v. v.items) result (spec_variadic_counts (projected_schema_of picked.now) (model_of message.entry)) }
{
    if skips_views(&picked.steps) || are_views_read(&picked.arrays) {
        let root = message.root;
        read_variadic_buffer_counts(alloc, message.metadata, root.header, root.left)
    } else {
        Ok(Vec::new(alloc))
    }
}

// Reads the projected columns of a record batch.
fn columns_of(
    alloc: Global,
    steps: &[FieldAction],
    fields: &[Field],
    rows: usize,
    body: &[u8],
    ahead: ProjectionCursor<'_>,
) -> Result<Vec<AnyArray>, IpcReadError>
    ensures { ReturnsOrRunsOut (λ v. map layout_of v.items) result (decoded_projection steps.now (map field_type (map field_of fields.now)) rows body.now (projection_state ahead.entry)) }
{
    read_projected(alloc, steps, fields, rows, body, ahead)
}

// Returns for each buffer whether a projected column has it.
fn needed_of(
    alloc: Global,
    steps: &[FieldAction],
    fields: &[Field],
    more: &[i64],
    buffers: &[BufferSpec],
) -> Result<Vec<bool>, IpcReadError>
    ensures { ReturnsOrRunsOut (λ v. v.items) result (spec_needed_buffers steps.now (map field_type (map field_of fields.now)) more.now buffers.now) }
{
    needed_buffers(alloc, steps, fields, more, buffers)
}

// Reads the projected columns of a record batch whose arrays are read as they are stored, from buffers that may be compressed.
fn plain_columns(
    alloc: Global,
    picked: &ProjectedSchema,
    compression: Option<CompressionCodec>,
    rows: usize,
    body: &[u8],
    ahead: ProjectionCursor<'_>,
) -> Result<Vec<AnyArray>, IpcReadError>
    ensures { ReturnsOrRunsOut (λ v. map layout_of v.items) result (plain_columns_in compression (projected_schema_of picked.now) rows body.now (projection_state ahead.entry)) }
{
    let steps = &picked.steps;
    let fields = &picked.schema.fields;
    match compression {
        None => columns_of(alloc, steps, fields, rows, body, ahead),
        Some(codec) => {
            let more = ahead.more;
            let needed = needed_of(alloc, steps, fields, more, ahead.left.buffers)?;
            let (buffers, bytes) = decompress_buffers(
                alloc,
                codec,
                body,
                ahead.left.buffers,
                &needed,
            )?;
            let left = replace_buffers(ahead.left, &buffers);
            columns_of(
                alloc,
                steps,
                fields,
                rows,
                &bytes,
                ProjectionCursor { left, more },
            )
        }
    }
}

// Reads the projected columns of a record batch of which some array is stored otherwise than it is read.
fn converted_columns(
    alloc: Global,
    picked: &ProjectedSchema,
    compression: Option<CompressionCodec>,
    rows: usize,
    body: &[u8],
    ahead: ProjectionCursor<'_>,
) -> Result<Vec<AnyArray>, IpcReadError>
    ensures { ReturnsOrRunsOut (λ v. map layout_of v.items) result (converted_columns_in compression (projected_schema_of picked.now) rows body.now (projection_state ahead.entry)) }
{
    let batch = convert_batch(
        alloc,
        compression,
        &picked.arrays,
        body,
        drop_dictionaries(ahead),
    )?;
    let left = replace_buffers(ahead.left, &batch.buffers);
    let more = &batch.more;
    columns_of(
        alloc,
        &picked.steps,
        &picked.schema.fields,
        rows,
        &batch.body,
        ProjectionCursor { left, more },
    )
}

// Reads the projected columns of a record batch.
fn columns_in_batch(
    alloc: Global,
    picked: &ProjectedSchema,
    compression: Option<CompressionCodec>,
    rows: usize,
    body: &[u8],
    ahead: ProjectionCursor<'_>,
) -> Result<Vec<AnyArray>, IpcReadError>
    ensures { ReturnsOrRunsOut (λ v. map layout_of v.items) result (columns_in compression (projected_schema_of picked.now) rows body.now (projection_state ahead.entry)) }
{
    if are_read_as_stored(&picked.arrays) {
        plain_columns(alloc, picked, compression, rows, body, ahead)
    } else {
        converted_columns(alloc, picked, compression, rows, body, ahead)
    }
}

/// Reads the projected columns of a record batch message.
#[tactic(auto, unfolding(crate::specs::Streams::record_batch_in))]
pub(crate) fn read_record_batch(
    alloc: Global,
    state: &DictionaryState,
    message: Message<'_>,
) -> Result<Batch, IpcReadError>
    requires { length message.metadata.now < 2 ^ 31 }
    ensures { ReturnsOrRunsOut record_batch_of result (record_batch_in (state_of state.now) (model_of message.entry)) }
{
    let root = message.root;
    let batch = read_batch(
        alloc,
        message.metadata,
        root.header,
        root.left,
        root.body_length,
    )?;
    let picked = &state.picked;
    let more = variadic_counts(alloc, picked, message)?;
    let ids = outermost_ids(alloc, &picked.dictionaries.ids, &picked.dictionaries)?;
    let dictionaries = values_of(alloc, &state.known, &ids)?;
    let left = BatchCursor {
        nodes: &batch.nodes,
        buffers: &batch.buffers,
        dictionaries: &dictionaries,
    };
    let ahead = ProjectionCursor { left, more: &more };
    let rows = batch.rows;
    let compression = batch.compression;
    let columns = columns_in_batch(alloc, picked, compression, rows, message.body, ahead)?;
    Ok(Batch { rows, columns })
}

// Reads a message by its kind; a second schema is refused.
fn read_by_kind(
    alloc: Global,
    state: &mut DictionaryState,
    message: Message<'_>,
) -> Result<Option<Batch>, IpcReadError>
    requires { length message.metadata.now < 2 ^ 31 }
    ensures picked { state.new.picked ≡ state.old.picked }
    ensures read { ReturnsOrRunsOut (λ b. (option_map record_batch_of b, state_of state.new)) result (message_by_kind message.entry.root.kind (state_of state.old) (model_of message.entry)) }
{
    match message.root.kind {
        MessageKind::Schema => Err(IpcReadError::HeaderType),
        MessageKind::DictionaryBatch => {
            read_dictionary(alloc, false, state, message)?;
            Ok(None)
        }
        MessageKind::RecordBatch => match read_record_batch(alloc, state, message) {
            Err(error) => Err(error),
            Ok(batch) => Ok(Some(batch)),
        },
    }
}

/// Reads a message after the schema: returns a record batch, or `None` for a dictionary batch, which the state then holds.
///
/// # Errors
/// The first error of the message; `HeaderType` for a second schema. Otherwise `Memory`.
#[tactic(auto, unfolding(crate::specs::Streams::message_in))]
pub fn read_message(
    alloc: Global,
    state: &mut DictionaryState,
    message: Message<'_>,
) -> Result<Option<Batch>, IpcReadError>
    requires { length message.metadata.now < 2 ^ 31 }
    ensures picked { state.new.picked ≡ state.old.picked }
    ensures read { ReturnsOrRunsOut (λ b. (option_map record_batch_of b, state_of state.new)) result (message_in (state_of state.old) (model_of message.entry)) }
{
    let picked = &state.picked;
    check_projected_version(message.root.version, &picked.schema.fields, &picked.steps)?;
    read_by_kind(alloc, state, message)
}

/// Reads the next record batch of a stream and returns it with the bytes after it; `None` at the end of the stream.
///
/// Dictionary batches before it are read into the state.
///
/// # Errors
/// The first error of the messages up to the batch, or `Memory`.
pub fn next_batch<'a>(
    alloc: Global,
    state: &mut DictionaryState,
    bytes: &'a [u8],
) -> Result<(Option<Batch>, &'a [u8]), IpcReadError>
    ensures picked { state.new.picked ≡ state.old.picked }
    ensures read { ReturnsOrRunsOut (λ x. ((option_map record_batch_of x.0, state_of state.new), x.1.now)) result (next_in (state_of state.old) bytes.now) }
{
    let mut rest = bytes;
    'messages: loop {
        let (next, behind) = next_message(rest)?;
        match next {
            None => return Ok((None, behind)),
            Some(message) => {
                let found = read_message(alloc, state, message)?;
                match found {
                    None => {}
                    Some(batch) => return Ok((Some(batch), behind)),
                }
            }
        }
        rest = behind;
    }
}
