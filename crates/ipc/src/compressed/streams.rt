//! Writes streams with compressed buffers.
ghost use Rattle.std.specs.Prelude.{◌≡◌, ◌++◌, List, ℕ, None, map, length, IfErr, IfOk, OnOk, Ok};
ghost use Rattle.std.specs.Int.{w64};
ghost use Rattle.std.specs.Int.RustNames.{FitsSigned};
ghost use Rattle.std.specs.List.{AllByRecursion};
ghost use Rattle.ipc_schema.specs.Schemas.{schema_of};
ghost use Rattle.ipc.specs.EntriesOf.{entry_of, by_id};
ghost use Rattle.ipc.specs.Streams.{record_batch_of, stream_in, types_of_fields};
ghost use Rattle.ipc.specs.EncodedStreams.{pending_by, stream_dictionary_batches, emitted_after, IsErrorOrMemory, BatchRoundTrips, BatchesRoundTrip, AreSameBatches, decoded_batches, decoded_stream};
ghost use Rattle.ipc.specs.CompressedStreams.{AppendsCompressedBatch, AppendsCompressedBatches, IsCompressedStream, compressed_batch_error, compressed_batches_error, compressed_stream_error};

use crate::batch::Batch;
use crate::compressed::messages::compress_messages;
use crate::dictionaries::record_emitted;
use crate::writing::encode_stream_batch;
use ipc_flatbuf::IpcWriteError;
use ipc_schema::{Schema, write_schema_with_dictionaries};
use nest_array::any::AnyArray;
use nest_memory::datatypes::Field;
use std::alloc::Global;
use std::collections::BTreeMap;

// States that the id of a dictionary is in the range of its type.
fn known_id(entry: &(i64, &AnyArray))
    ensures { FitsSigned w64 entry.now.0 }
{
    let _id = entry.0;
}

// States it of the ids of dictionaries.
pub(crate) fn known_ids(pending: &[(i64, &AnyArray)])
    ensures { AllByRecursion (λ e. FitsSigned w64 e.0) (map entry_of pending.now) }
{
    for entry in pending {
        known_id(entry);
    }
}

/// Encodes a record batch of a stream with its buffers compressed by LZ4: appends its pending dictionaries to `out`, then its message and
/// body.
///
/// A reader of the stream reads the same as from the bytes of [`encode_stream_batch`]. `emitted` has the values last emitted for each
/// id. Returns the pending dictionaries, which `record_emitted` adds to `emitted` once the bytes are out.
///
/// # Errors
/// Those of [`encode_stream_batch`], then `Size` where the metadata of a compressed message has 2^31 bytes or more. `Memory` where an
/// allocation fails. `out` may have more bytes then.
pub fn encode_compressed_stream_batch<'a>(
    alloc: Global,
    out: &mut Vec<u8>,
    fields: &[Field],
    emitted: &BTreeMap<i64, AnyArray>,
    batch: &'a Batch,
) -> Result<Vec<(i64, &'a AnyArray)>, IpcWriteError>
    ensures bytes { OnOk result (AppendsCompressedBatch (by_id emitted.now.entries) (record_batch_of batch.now) out.old.items out.new.items) }
    ensures pending { IfOk result (λ pending. map entry_of pending.items ≡ pending_by (by_id emitted.now.entries) (record_batch_of batch.now)) }
    ensures plain { OnOk result (BatchRoundTrips (stream_dictionary_batches (by_id emitted.now.entries) (record_batch_of batch.now)) (record_batch_of batch.now)) }
    ensures form { OnOk result (compressed_batch_error (types_of_fields fields.now) (by_id emitted.now.entries) (record_batch_of batch.now) ≡ None) }
    ensures err { IfErr result (IsErrorOrMemory (compressed_batch_error (types_of_fields fields.now) (by_id emitted.now.entries) (record_batch_of batch.now))) }
{
    let mut plain = Vec::new(alloc);
    let (_, pending) = encode_stream_batch(alloc, &mut plain, fields, emitted, batch)?;
    known_ids(&pending);
    compress_messages(alloc, &plain, out)?;
    Ok(pending)
}

// Encodes a record batch so, and records its pending dictionaries as emitted.
fn append_compressed_batch(
    alloc: Global,
    out: &mut Vec<u8>,
    fields: &[Field],
    emitted: &mut BTreeMap<i64, AnyArray>,
    batch: &Batch,
) -> Result<(), IpcWriteError>
    ensures bytes { OnOk result (AppendsCompressedBatch (by_id emitted.old.entries) (record_batch_of batch.now) out.old.items out.new.items) }
    ensures emitted { OnOk result (by_id emitted.new.entries ≡ emitted_after (by_id emitted.old.entries) (record_batch_of batch.now)) }
    ensures plain { OnOk result (BatchRoundTrips (stream_dictionary_batches (by_id emitted.old.entries) (record_batch_of batch.now)) (record_batch_of batch.now)) }
    ensures form { OnOk result (compressed_batch_error (types_of_fields fields.now) (by_id emitted.old.entries) (record_batch_of batch.now) ≡ None) }
    ensures err { IfErr result (IsErrorOrMemory (compressed_batch_error (types_of_fields fields.now) (by_id emitted.old.entries) (record_batch_of batch.now))) }
{
    let pending = encode_compressed_stream_batch(alloc, out, fields, emitted, batch)?;
    record_emitted(alloc, emitted, &pending)?;
    Ok(())
}

// Encodes record batches in order.
fn write_compressed_batches(
    alloc: Global,
    out: &mut Vec<u8>,
    fields: &[Field],
    emitted: &mut BTreeMap<i64, AnyArray>,
    batches: &[Batch],
) -> Result<(), IpcWriteError>
    ensures bytes { OnOk result (AppendsCompressedBatches (by_id emitted.old.entries) (map record_batch_of batches.now) out.old.items out.new.items) }
    ensures plain { OnOk result (BatchesRoundTrip stream_dictionary_batches (by_id emitted.old.entries) (map record_batch_of batches.now)) }
    ensures form { OnOk result (compressed_batches_error (types_of_fields fields.now) (by_id emitted.old.entries) (map record_batch_of batches.now) ≡ None) }
    ensures err { IfErr result (IsErrorOrMemory (compressed_batches_error (types_of_fields fields.now) (by_id emitted.old.entries) (map record_batch_of batches.now))) }
{
    for batch in batches {
        append_compressed_batch(alloc, out, fields, emitted, batch)?;
    }
    Ok(())
}

/// Writes a schema and record batches as a stream with its end-of-stream marker. The buffers of the record batches and of their
/// dictionaries are compressed by LZ4.
///
/// The stream round-trips, whatever bytes follow it: reading returns an equal schema, and the same batches as the stream of
/// [`crate::write_stream`].
///
/// # Errors
/// Those of [`crate::write_stream`]. A record batch is also refused with `Size` where the metadata of a compressed message has 2^31 bytes or
/// more.
pub fn write_compressed_stream(
    alloc: Global,
    schema: &Schema,
    batches: &[Batch],
) -> Result<Vec<u8>, IpcWriteError>
    ensures bytes { IfOk result (λ out. IsCompressedStream (schema_of schema.now) (map record_batch_of batches.now) out.items) }
    ensures again { IfOk result (λ out. (rest : List ℕ) → stream_in (out.items ++ rest) ≡ Ok (decoded_stream (schema_of schema.now) (map record_batch_of batches.now) (length out.items))) }
    ensures same { OnOk result (AreSameBatches (map record_batch_of batches.now) (decoded_batches (map record_batch_of batches.now))) }
    ensures form { OnOk result (compressed_stream_error (schema_of schema.now) (map record_batch_of batches.now) ≡ None) }
    ensures err { IfErr result (IsErrorOrMemory (compressed_stream_error (schema_of schema.now) (map record_batch_of batches.now))) }
{
    let mut out = write_schema_with_dictionaries(alloc, schema)?;
    let mut emitted = BTreeMap::new(alloc);
    write_compressed_batches(alloc, &mut out, &schema.fields, &mut emitted, batches)?;
    out.extend_from_slice(&[255, 255, 255, 255, 0, 0, 0, 0])?;
    Ok(out)
}
