//! Writes streams.
ghost use Rattle.std.specs.Prelude.{◌≡◌, ◌⊎◌, ◌<◌, ◌^◌, ◌++◌, ◌∷◌, [], List, ℕ, None, map, length, IfErr, IfOk, OnOk, Ok};
ghost use Rattle.std.specs.List.{AllByRecursion, flat_map};
ghost use Rattle.nest_memory.specs.TypeOf.{field_of};
ghost use Rattle.nest_memory.specs.TypeTree.{field_type};
ghost use Rattle.nest_array.specs.Seen.{layout_of};
ghost use Rattle.ipc_flatbuf.specs.declared.error.IpcWriteError.TheVariants.{Memory};
ghost use Rattle.ipc_schema.specs.Schemas.{schema_of};
ghost use Rattle.ipc_flatbuf.specs.Batches.{batch_of};
ghost use Rattle.ipc_arrays.specs.Encoding.{columns_body, size_error, IsWriteError};
ghost use Rattle.ipc.specs.FileDictionaries.{whole};
ghost use Rattle.ipc.specs.EntriesOf.{entry_of, by_id};
ghost use Rattle.ipc.specs.Streams.{record_batch_of, stream_in, types_of_fields};
ghost use Rattle.ipc.specs.EncodedStreams.{batch_tree, batch_bytes, dictionary_bytes, pending_by, stream_dictionary_batches, encoded_batch, encoded_batches, encoded_stream, emitted_after, spec_is_column, spec_are_columns, record_batch_error, dictionary_error, each_error, batch_error, batches_error, stream_error, IsErrorOrMemory, RecordBatchRoundTrips, DictionaryRoundTrips, BatchRoundTrips, BatchesRoundTrip, AreSameBatches, decoded_batches, decoded_stream};
ghost use Rattle.ipc.specs.EncodedBatches.{IsMetadata, emitted_after_all};

use crate::batch::Batch;
use crate::dictionaries::{pending_dictionaries, record_emitted};
use ipc_arrays::{layout_columns, write_columns};
use ipc_flatbuf::IpcWriteError;
use ipc_flatbuf::batch::{BatchMetadata, write_batch, write_dictionary};
use ipc_schema::{Schema, write_schema_with_dictionaries};
use nest_array::any::AnyArray;
use nest_memory::datatypes::Field;
use std::alloc::Global;
use std::collections::BTreeMap;

// Returns whether a column has the data type of a field and this many rows.
fn is_column(field: &Field, rows: usize, column: &AnyArray) -> bool
    ensures { result ≡ spec_is_column (field_type (field_of field.now)) rows (layout_of column.now) }
{
    field.data_type == *column.data_type() && column.len() == rows
}

// Returns whether there is a column of that kind for each field.
pub(crate) fn are_columns(fields: &[Field], rows: usize, columns: &[AnyArray]) -> bool
    ensures { result ≡ spec_are_columns (types_of_fields fields.now) rows (map layout_of columns.now) }
{
    if fields.len() != columns.len() {
        return false;
    }
    for i in 0..fields.len() {
        if !is_column(&fields[i], rows, &columns[i]) {
            return false;
        }
    }
    true
}

// Returns the metadata of a record batch and the length of its body.
fn metadata_of(
    alloc: Global,
    rows: usize,
    columns: &[AnyArray],
) -> Result<(BatchMetadata, usize), IpcWriteError>
    ensures metadata { IfOk result (λ x. IsMetadata (record { rows = rows; columns = map layout_of columns.now }) (batch_of x.0) x.1) }
    ensures form { OnOk result (size_error (map layout_of columns.now) ≡ None) }
    ensures err { IfErr result (IsWriteError (map layout_of columns.now)) }
{
    let placed = layout_columns(alloc, columns)?;
    let metadata = BatchMetadata {
        rows,
        nodes: placed.nodes,
        buffers: placed.buffers,
        compression: None,
    };
    Ok((metadata, placed.length))
}

// Appends a dictionary batch, message and body, and returns the length of the body.
#[tactic(auto, unfolding(crate::specs::EncodedStreams::dictionary_bytes))]
pub(crate) fn append_dictionary(
    alloc: Global,
    out: &mut Vec<u8>,
    delta: bool,
    id: i64,
    values: &AnyArray,
) -> Result<usize, IpcWriteError>
    ensures bytes { OnOk result (out.new.items ≡ out.old.items ++ dictionary_bytes (delta, (id, layout_of values.now))) }
    ensures body { IfOk result (λ long. long ≡ length (columns_body (layout_of values.now ∷ []))) }
    ensures small { IfOk result (λ long. long < 2 ^ 63) }
    ensures again { OnOk result (DictionaryRoundTrips (delta, (id, layout_of values.now))) }
    ensures form { OnOk result (dictionary_error (delta, (id, layout_of values.now)) ≡ None) }
    ensures err { IfErr result (IsErrorOrMemory (dictionary_error (delta, (id, layout_of values.now)))) }
{
    let columns = std::slice::from_ref(values);
    let (metadata, body_length) = metadata_of(alloc, values.len(), columns)?;
    write_dictionary(alloc, out, delta, id, &metadata, body_length)?;
    write_columns(out, columns)?;
    Ok(body_length)
}

// Appends a dictionary batch of all values for each pending dictionary.
fn write_dictionaries(
    alloc: Global,
    out: &mut Vec<u8>,
    pending: &[(i64, &AnyArray)],
) -> Result<(), IpcWriteError>
    ensures bytes { OnOk result (out.new.items ≡ out.old.items ++ flat_map dictionary_bytes (map whole (map entry_of pending.now))) }
    ensures again { OnOk result (AllByRecursion DictionaryRoundTrips (map whole (map entry_of pending.now))) }
    ensures form { OnOk result (each_error dictionary_error (map whole (map entry_of pending.now)) ≡ None) }
    ensures err { IfErr result (IsErrorOrMemory (each_error dictionary_error (map whole (map entry_of pending.now)))) }
{
    for (id, values) in pending {
        append_dictionary(alloc, out, false, *id, values)?;
    }
    Ok(())
}

// Appends a record batch, message and body, and returns the length of the body.
#[tactic(auto, unfolding(crate::specs::EncodedStreams::batch_bytes))]
pub(crate) fn write_record_batch(
    alloc: Global,
    out: &mut Vec<u8>,
    rows: usize,
    columns: &[AnyArray],
) -> Result<usize, IpcWriteError>
    ensures bytes { OnOk result (out.new.items ≡ out.old.items ++ batch_bytes (record { rows = rows; columns = map layout_of columns.now })) }
    ensures body { IfOk result (λ long. long ≡ length (columns_body (map layout_of columns.now))) }
    ensures small { IfOk result (λ long. long < 2 ^ 63) }
    ensures again { OnOk result (RecordBatchRoundTrips (record { rows = rows; columns = map layout_of columns.now })) }
    ensures form { OnOk result (record_batch_error (record { rows = rows; columns = map layout_of columns.now }) ≡ None) }
    ensures err { IfErr result (IsErrorOrMemory (record_batch_error (record { rows = rows; columns = map layout_of columns.now }))) }
{
    let (metadata, body_length) = metadata_of(alloc, rows, columns)?;
    write_batch(alloc, out, &metadata, body_length)?;
    write_columns(out, columns)?;
    Ok(body_length)
}

/// Encodes a record batch of a stream: appends its pending dictionaries to `out`, then its message and body.
///
/// `emitted` has the values last emitted for each id. Returns the length of the body, and the pending dictionaries, which
/// `record_emitted` adds to `emitted` once the bytes are out.
///
/// # Errors
/// `Columns`, if the columns are not those of the fields; `Size` of a dictionary batch or of the record batch. `Memory`, where an
/// allocation fails. `out` may have more bytes then.
#[tactic(auto, unfolding(crate::specs::EncodedStreams::encoded_batch))]
pub fn encode_stream_batch<'a>(
    alloc: Global,
    out: &mut Vec<u8>,
    fields: &[Field],
    emitted: &BTreeMap<i64, AnyArray>,
    batch: &'a Batch,
) -> Result<(usize, Vec<(i64, &'a AnyArray)>), IpcWriteError>
    ensures bytes { OnOk result (out.new.items ≡ out.old.items ++ encoded_batch stream_dictionary_batches (by_id emitted.now.entries) (record_batch_of batch.now)) }
    ensures pending { IfOk result (λ x. map entry_of x.1.items ≡ pending_by (by_id emitted.now.entries) (record_batch_of batch.now)) }
    ensures body { IfOk result (λ x. x.0 ≡ length (columns_body (record_batch_of batch.now).columns)) }
    ensures small { IfOk result (λ x. x.0 < 2 ^ 63) }
    ensures again { OnOk result (BatchRoundTrips (stream_dictionary_batches (by_id emitted.now.entries) (record_batch_of batch.now)) (record_batch_of batch.now)) }
    ensures form { OnOk result (batch_error (types_of_fields fields.now) (by_id emitted.now.entries) (record_batch_of batch.now) ≡ None) }
    ensures err { IfErr result (IsErrorOrMemory (batch_error (types_of_fields fields.now) (by_id emitted.now.entries) (record_batch_of batch.now))) }
{
    if !are_columns(fields, batch.rows, &batch.columns) {
        return Err(IpcWriteError::Columns);
    }
    let pending = pending_dictionaries(alloc, emitted, &batch.columns)?;
    write_dictionaries(alloc, out, &pending)?;
    let body_length = write_record_batch(alloc, out, batch.rows, &batch.columns)?;
    Ok((body_length, pending))
}

/// Encodes a record batch as `encode_stream_batch` does, and records its pending dictionaries as emitted. Returns the length of the body.
///
/// # Errors
/// Those of `encode_stream_batch`. Unless the error is `Memory`, `emitted` is unchanged.
pub fn append_stream_batch(
    alloc: Global,
    out: &mut Vec<u8>,
    fields: &[Field],
    emitted: &mut BTreeMap<i64, AnyArray>,
    batch: &Batch,
) -> Result<usize, IpcWriteError>
    ensures bytes { OnOk result (out.new.items ≡ out.old.items ++ encoded_batch stream_dictionary_batches (by_id emitted.old.entries) (record_batch_of batch.now)) }
    ensures emitted { OnOk result (by_id emitted.new.entries ≡ emitted_after (by_id emitted.old.entries) (record_batch_of batch.now)) }
    ensures body { IfOk result (λ long. long ≡ length (columns_body (record_batch_of batch.now).columns)) }
    ensures small { IfOk result (λ long. long < 2 ^ 63) }
    ensures again { OnOk result (BatchRoundTrips (stream_dictionary_batches (by_id emitted.old.entries) (record_batch_of batch.now)) (record_batch_of batch.now)) }
    ensures form { OnOk result (batch_error (types_of_fields fields.now) (by_id emitted.old.entries) (record_batch_of batch.now) ≡ None) }
    ensures err { IfErr result (IsErrorOrMemory (batch_error (types_of_fields fields.now) (by_id emitted.old.entries) (record_batch_of batch.now))) }
    ensures kept { IfErr result (λ why. (why ≡ Memory) ⊎ (by_id emitted.new.entries ≡ by_id emitted.old.entries)) }
{
    let (body_length, pending) = encode_stream_batch(alloc, out, fields, emitted, batch)?;
    record_emitted(alloc, emitted, &pending)?;
    Ok(body_length)
}

// Encodes record batches in order.
fn write_batches(
    alloc: Global,
    out: &mut Vec<u8>,
    fields: &[Field],
    emitted: &mut BTreeMap<i64, AnyArray>,
    batches: &[Batch],
) -> Result<(), IpcWriteError>
    ensures bytes { OnOk result (out.new.items ≡ out.old.items ++ encoded_batches stream_dictionary_batches (by_id emitted.old.entries) (map record_batch_of batches.now)) }
    ensures again { OnOk result (BatchesRoundTrip stream_dictionary_batches (by_id emitted.old.entries) (map record_batch_of batches.now)) }
    ensures form { OnOk result (batches_error (types_of_fields fields.now) (by_id emitted.old.entries) (map record_batch_of batches.now) ≡ None) }
    ensures err { IfErr result (IsErrorOrMemory (batches_error (types_of_fields fields.now) (by_id emitted.old.entries) (map record_batch_of batches.now))) }
{
    for batch in batches {
        append_stream_batch(alloc, out, fields, emitted, batch)?;
    }
    Ok(())
}

/// Writes a schema and record batches as a stream with its end-of-stream marker.
///
/// The stream round-trips, whatever bytes follow it: reading returns an equal schema, and batches with the same rows, data types and
/// slots. A sliced array is written without the values outside the slice. A dictionary is written before the first batch that needs it,
/// and again where a batch replaces its values.
///
/// # Errors
/// The first error in the order of writing: a field of the schema (`Depth`, `Extension`, `Dictionary`, `Type`, `Float`, `Unit`, `Size`), or
/// the size of its message (`Size`); then batch by batch `Columns`, if the columns are not those of the schema, or `Size`. `Memory`, where an allocation fails.
#[tactic(auto, unfolding(crate::specs::EncodedStreams::encoded_messages))]
pub fn write_stream(
    alloc: Global,
    schema: &Schema,
    batches: &[Batch],
) -> Result<Vec<u8>, IpcWriteError>
    ensures bytes { IfOk result (λ out. out.items ≡ encoded_stream (schema_of schema.now) (map record_batch_of batches.now)) }
    ensures again { IfOk result (λ out. (rest : List ℕ) → stream_in (out.items ++ rest) ≡ Ok (decoded_stream (schema_of schema.now) (map record_batch_of batches.now) (length out.items))) }
    ensures same { OnOk result (AreSameBatches (map record_batch_of batches.now) (decoded_batches (map record_batch_of batches.now))) }
    ensures form { OnOk result (stream_error (schema_of schema.now) (map record_batch_of batches.now) ≡ None) }
    ensures err { IfErr result (IsErrorOrMemory (stream_error (schema_of schema.now) (map record_batch_of batches.now))) }
{
    let mut out = write_schema_with_dictionaries(alloc, schema)?;
    let mut emitted = BTreeMap::new(alloc);
    write_batches(alloc, &mut out, &schema.fields, &mut emitted, batches)?;
    out.extend_from_slice(&[255, 255, 255, 255, 0, 0, 0, 0])?;
    Ok(out)
}
