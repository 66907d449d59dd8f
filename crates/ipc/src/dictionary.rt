//! Reads dictionary batches. Source: Message.fbs, table DictionaryBatch.
ghost use Rattle.std.specs.Prelude.{◌≡◌, ◌<◌, ◌^◌, length, is_some, IfOk, Ok};
ghost use Rattle.std.specs.List.{list_any};
ghost use Rattle.std.specs.Option.{option_map};
ghost use Rattle.ipc_flatbuf.specs.ReadResults.{ReturnsOrRunsOut};
ghost use Rattle.ipc_flatbuf.specs.Messages.{model_of};
ghost use Rattle.nest_memory.specs.TypeOf.{type_of};
ghost use Rattle.nest_array.specs.Seen.{layout_of};
ghost use Rattle.ipc_arrays.specs.Decoding.{rest_of};
ghost use Rattle.ipc_arrays.specs.Projection.{projection_state};
ghost use Rattle.ipc_schema.specs.StoredArrays.{stored_arrays};
ghost use Rattle.ipc_schema.specs.StoredTypes.{read_type};
ghost use Rattle.ipc_schema.specs.ProjectedSchemas.{projected_schema_of};
ghost use Rattle.ipc_schema.specs.DictionaryModels.{value_type_of};
ghost use Rattle.ipc.specs.Streams.{spec_has_dictionary, named_in, spec_data_position, spec_check_order, spec_only_column, plain_column_in, converted_column_in, only_column_in, counts_of_arrays, spec_with_values, column_in_batch, data_in, new_values_in, found_in, dictionary_in, known_at, state_of};

use crate::deltas::more_values;
use crate::plain_buffers::{decompress_buffers, drop_dictionaries, need_all, replace_buffers};
use crate::state::{DictionaryState, values_of as known_values};
use ipc_arrays::stored::convert_batch;
use ipc_arrays::{BatchCursor, ExpectedLength, ProjectionCursor, check_exhausted, read_column};
use ipc_flatbuf::batch::{read_batch, read_variadic_buffer_counts};
use ipc_flatbuf::message::Message;
use ipc_flatbuf::{
    CompressionCodec, FieldAction, FlatbufferTable, IpcReadError, StoredArray, are_read_as_stored,
    are_views_read, i64_field, offset_field, read_table, u8_field,
};
use ipc_schema::{
    DictionaryValueType, ProjectedSchema, outermost_ids, push_arrays, replace_stored,
};
use nest_array::any::AnyArray;
use nest_memory::datatypes::DataType;
use std::alloc::{AllocError, Global};

// The type of the values of a dictionary, and how their arrays are stored.
#[derive(Clone, Copy)]
struct StoredValues<'a> {
    data_type: &'a DataType,
    arrays: &'a [StoredArray],
}

// Returns whether a step skips a column with a dictionary.
fn has_dictionary(step: FieldAction) -> bool
    ensures { result ≡ spec_has_dictionary step }
{
    match step {
        FieldAction::Read => false,
        FieldAction::Skip(span) => span.has_dictionary,
    }
}

// Returns whether some step does.
fn skips_dictionary(steps: &[FieldAction]) -> bool
    ensures { result ≡ list_any spec_has_dictionary steps.now }
{
    steps.iter().any(|step| has_dictionary(*step))
}

// Returns the values that an id names, or `None` if the id may belong to a skipped column.
fn values_named(
    picked: &ProjectedSchema,
    id: i64,
) -> Result<Option<&DictionaryValueType>, IpcReadError>
    ensures { ReturnsOrRunsOut (λ v. option_map (λ b. value_type_of b.now) v) result (named_in (projected_schema_of picked.now) id) }
{
    match picked.dictionaries.named.get(&id) {
        Some(values) => Ok(Some(values)),
        None if skips_dictionary(&picked.steps) => Ok(None),
        None => Err(IpcReadError::UnknownDictionary),
    }
}

// Returns the position of the record batch in a dictionary batch.
fn data_position(to: Option<usize>) -> Result<usize, IpcReadError>
    ensures { result ≡ spec_data_position to }
{
    match to {
        None => Err(IpcReadError::MissingData),
        Some(position) => Ok(position),
    }
}

// Checks that a delta extends an id, and that a file replaces none.
fn check_order(once: bool, delta: bool, there: bool) -> Result<(), IpcReadError>
    ensures { result ≡ spec_check_order once delta there }
{
    if delta && !there {
        return Err(IpcReadError::MissingDictionary);
    }
    if once && !delta && there {
        return Err(IpcReadError::DuplicateDictionary);
    }
    Ok(())
}

// Reads the only column of a dictionary's record batch.
fn only_column(
    alloc: Global,
    data_type: &DataType,
    rows: usize,
    body: &[u8],
    left: BatchCursor<'_>,
) -> Result<AnyArray, IpcReadError>
    ensures { ReturnsOrRunsOut layout_of result (spec_only_column (type_of data_type.now) rows body.now (rest_of left.entry)) }
{
    match read_column(alloc, data_type, ExpectedLength::Rows(rows), body, left) {
        Err(error) => Err(error),
        Ok((column, left)) => match check_exhausted(left) {
            Err(error) => Err(error),
            Ok(()) => Ok(column),
        },
    }
}

// Reads the same column, whose arrays are read as they are stored, from buffers that may be compressed.
fn plain_column(
    alloc: Global,
    data_type: &DataType,
    compression: Option<CompressionCodec>,
    rows: usize,
    body: &[u8],
    left: BatchCursor<'_>,
) -> Result<AnyArray, IpcReadError>
    ensures { ReturnsOrRunsOut layout_of result (plain_column_in compression (type_of data_type.now) rows body.now (rest_of left.entry)) }
{
    match compression {
        None => only_column(alloc, data_type, rows, body, left),
        Some(codec) => {
            let needed = need_all(alloc, left.buffers)?;
            let (buffers, bytes) = decompress_buffers(alloc, codec, body, left.buffers, &needed)?;
            let plain = replace_buffers(left, &buffers);
            only_column(alloc, data_type, rows, &bytes, plain)
        }
    }
}

// Returns the arrays that an array of this type has in a record batch, and how they are stored.
fn arrays_of(alloc: Global, data_type: &DataType) -> Result<Vec<StoredArray>, AllocError>
    ensures { IfOk result (λ v. v.items ≡ stored_arrays (type_of data_type.now)) }
{
    let mut arrays = Vec::new(alloc);
    push_arrays(data_type, &mut arrays)?;
    Ok(arrays)
}

// Returns a type as it is stored as the type that is read.
fn read_type_of(alloc: Global, data_type: &DataType) -> Result<DataType, IpcReadError>
    ensures { ReturnsOrRunsOut type_of result (Ok (read_type (type_of data_type.now))) }
{
    match data_type.clone(alloc) {
        Err(_) => Err(IpcReadError::Memory),
        Ok(mut copy) => {
            replace_stored(&mut copy);
            Ok(copy)
        }
    }
}

// Reads the same column, of which some array is stored otherwise than it is read.
fn converted_column(
    alloc: Global,
    values: StoredValues<'_>,
    compression: Option<CompressionCodec>,
    rows: usize,
    body: &[u8],
    ahead: ProjectionCursor<'_>,
) -> Result<AnyArray, IpcReadError>
    requires { values.arrays.now ≡ stored_arrays (type_of values.data_type.now) }
    ensures { ReturnsOrRunsOut layout_of result (converted_column_in compression (type_of values.entry.data_type.now) rows body.now (projection_state ahead.entry)) }
{
    let batch = convert_batch(
        alloc,
        compression,
        values.arrays,
        body,
        drop_dictionaries(ahead),
    )?;
    let data_type = read_type_of(alloc, values.data_type)?;
    let left = replace_buffers(ahead.left, &batch.buffers);
    only_column(alloc, &data_type, rows, &batch.body, left)
}

// Reads the same column, whatever its arrays are.
fn only_column_in_batch(
    alloc: Global,
    values: StoredValues<'_>,
    compression: Option<CompressionCodec>,
    rows: usize,
    body: &[u8],
    ahead: ProjectionCursor<'_>,
) -> Result<AnyArray, IpcReadError>
    requires { values.arrays.now ≡ stored_arrays (type_of values.data_type.now) }
    ensures { ReturnsOrRunsOut layout_of result (only_column_in compression (type_of values.entry.data_type.now) rows body.now (projection_state ahead.entry)) }
{
    if are_read_as_stored(values.arrays) {
        plain_column(alloc, values.data_type, compression, rows, body, ahead.left)
    } else {
        converted_column(alloc, values, compression, rows, body, ahead)
    }
}

// Returns the variadic buffer counts in the record batch at a position. They are read only where there are view arrays.
fn dictionary_counts(
    alloc: Global,
    arrays: &[StoredArray],
    message: Message<'_>,
    position: usize,
    left: usize,
) -> Result<Vec<i64>, IpcReadError>
    requires { length message.metadata.now < 2 ^ 31 }
    ensures { ReturnsOrRunsOut (λ v. v.items) result (counts_of_arrays arrays.now (model_of message.entry) position left) }
{
    if are_views_read(arrays) {
        read_variadic_buffer_counts(alloc, message.metadata, position, left)
    } else {
        Ok(Vec::new(alloc))
    }
}

// Reads the values of a dictionary over the dictionaries nested in them.
fn read_column_over(
    alloc: Global,
    state: &DictionaryState,
    values: &DictionaryValueType,
    message: Message<'_>,
    position: usize,
    left: usize,
) -> Result<AnyArray, IpcReadError>
    requires { length message.metadata.now < 2 ^ 31 }
    ensures { ReturnsOrRunsOut layout_of result (column_in_batch (state_of state.now) (model_of message.entry) position left (value_type_of values.now)) }
{
    let root = message.root;
    let batch = read_batch(alloc, message.metadata, position, left, root.body_length)?;
    let ids = outermost_ids(alloc, &values.inside, &state.picked.dictionaries)?;
    let dictionaries = known_values(alloc, &state.known, &ids)?;
    let arrays = arrays_of(alloc, &values.data_type)?;
    let more = dictionary_counts(alloc, &arrays, message, position, left)?;
    let left = BatchCursor {
        nodes: &batch.nodes,
        buffers: &batch.buffers,
        dictionaries: &dictionaries,
    };
    let compression = batch.compression;
    only_column_in_batch(
        alloc,
        StoredValues {
            data_type: &values.data_type,
            arrays: &arrays,
        },
        compression,
        batch.rows,
        message.body,
        ProjectionCursor { left, more: &more },
    )
}

// Returns whether an id has values.
fn is_known(state: &DictionaryState, id: i64) -> bool
    ensures { result ≡ is_some (known_at (state_of state.now).known id) }
{
    state.known.get(&id).is_some()
}

// Returns the position of the record batch, and whether the dictionary batch is a delta.
#[tactic(auto, unfolding(crate::specs::Streams::data_in))]
fn data_of(
    once: bool,
    there: bool,
    metadata: &[u8],
    table: FlatbufferTable,
) -> Result<(usize, bool), IpcReadError>
    requires length { length metadata.now < 2 ^ 31 }
    requires at { table.at < 2 ^ 32 }
    requires vtable { table.vtable < 2 ^ 32 }
    ensures { result ≡ data_in once there metadata.now table }
{
    let position = data_position(offset_field(metadata, table, 1)?)?;
    let delta = u8_field(metadata, table, 2)? > 0;
    check_order(once, delta, there)?;
    Ok((position, delta))
}

// Reads the values for an id, and whether they are a delta.
fn new_values(
    alloc: Global,
    once: bool,
    state: &DictionaryState,
    message: Message<'_>,
    table: FlatbufferTable,
    left: usize,
    id: i64,
    values: &DictionaryValueType,
) -> Result<(bool, AnyArray), IpcReadError>
    requires length { length message.metadata.now < 2 ^ 31 }
    requires at { table.at < 2 ^ 32 }
    requires vtable { table.vtable < 2 ^ 32 }
    ensures { ReturnsOrRunsOut (λ x. (x.0, layout_of x.1)) result (new_values_in once (state_of state.now) (model_of message.entry) table left id (value_type_of values.now)) }
{
    let there = is_known(state, id);
    let (position, delta) = data_of(once, there, message.metadata, table)?;
    match read_column_over(alloc, state, values, message, position, left) {
        Err(error) => Err(error),
        Ok(column) => Ok((delta, column)),
    }
}

// Sets or extends the values of an id.
fn store_values(
    alloc: Global,
    state: &mut DictionaryState,
    id: i64,
    delta: bool,
    values: AnyArray,
) -> Result<(), IpcReadError>
    ensures picked { state.new.picked ≡ state.old.picked }
    ensures known { ReturnsOrRunsOut (λ x. state_of state.new) result (spec_with_values delta (state_of state.old) id (layout_of values)) }
{
    if delta {
        return more_values(alloc, state, id, values);
    }
    state.insert(alloc, id, values)?;
    Ok(())
}

// Reads the values for an id, or returns `None` if the id belongs to a skipped column.
fn found_values(
    alloc: Global,
    once: bool,
    state: &DictionaryState,
    message: Message<'_>,
    table: FlatbufferTable,
    left: usize,
    id: i64,
) -> Result<Option<(bool, AnyArray)>, IpcReadError>
    requires length { length message.metadata.now < 2 ^ 31 }
    requires at { table.at < 2 ^ 32 }
    requires vtable { table.vtable < 2 ^ 32 }
    ensures { ReturnsOrRunsOut (λ found. option_map (λ x. (x.0, layout_of x.1)) found) result (found_in once (state_of state.now) (model_of message.entry) table left id) }
{
    match values_named(&state.picked, id) {
        Err(error) => Err(error),
        Ok(None) => Ok(None),
        Ok(Some(values)) => {
            match new_values(alloc, once, state, message, table, left, id, values) {
                Err(error) => Err(error),
                Ok(new) => Ok(Some(new)),
            }
        }
    }
}

/// Reads a dictionary batch into the state. A delta extends its id. With `once`, as in files, an id has at most one batch that is no
/// delta; otherwise a second one replaces the first. The dictionary of a skipped column is skipped.
#[tactic(auto, unfolding(crate::specs::Streams::dictionary_in))]
pub(crate) fn read_dictionary(
    alloc: Global,
    once: bool,
    state: &mut DictionaryState,
    message: Message<'_>,
) -> Result<(), IpcReadError>
    requires { length message.metadata.now < 2 ^ 31 }
    ensures picked { state.new.picked ≡ state.old.picked }
    ensures known { ReturnsOrRunsOut (λ x. state_of state.new) result (dictionary_in once (state_of state.old) (model_of message.entry)) }
{
    let root = message.root;
    let (table, left) = read_table(message.metadata, root.header, root.left)?;
    let id = i64_field(message.metadata, table, 0, 0)?;
    match found_values(alloc, once, state, message, table, left, id) {
        Err(error) => Err(error),
        Ok(None) => Ok(()),
        Ok(Some((delta, values))) => store_values(alloc, state, id, delta, values),
    }
}
