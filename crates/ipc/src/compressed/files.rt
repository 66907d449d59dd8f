//! Writes files with compressed buffers.
ghost use Rattle.std.specs.Prelude.{◌≡◌, [], List, None, Ok, map, length, IfErr, IfOk, MatchResult, OnOk};
ghost use Rattle.ipc_schema.specs.Schemas.{schema_of};
ghost use Rattle.ipc.specs.EntriesOf.{entry_of, by_id};
ghost use Rattle.ipc.specs.Streams.{column_types, record_batch_of, restored, state_of, types_of_fields};
ghost use Rattle.ipc.specs.Files.{file_in};
ghost use Rattle.ipc.specs.EncodedStreams.{pending_by, schema_error, IsErrorOrMemory, BatchRoundTrips, BatchesRoundTrip, AreSameBatches};
ghost use Rattle.ipc.specs.EncodedFiles.{decoded_file, file_blocks_of, file_dictionary_batches, file_state_after, file_state_of, file_state_start};
ghost use Rattle.ipc.specs.CompressedMessages.{BatchMessage, ArePlainMessages};
ghost use Rattle.ipc.specs.CompressedFiles.{AppendsCompressedFileBatch, AppendsCompressedParts, IsCompressedFile, compressed_file_batch_error, compressed_file_batches_error, compressed_file_error, compressed_file_messages_error, compressed_messages_error};
ghost use Rattle.ipc.specs.CompressedFileLaws.{HasFileBatches, HasFileMessages};

use crate::batch::Batch;
use crate::compressed::blocks::push_blocks;
use crate::compressed::messages::compress_messages;
use crate::compressed::streams::known_ids;
use crate::dictionaries::record_emitted;
use crate::state::DictionaryState;
use crate::writing_files::{EncodedFileBatch, FileBlocks, encode_file_batch, initial_state};
use ipc_flatbuf::IpcWriteError;
use ipc_schema::footer::write_footer;
use ipc_schema::{Schema, write_schema_with_dictionaries};
use nest_array::any::AnyArray;
use nest_memory::datatypes::Field;
use std::alloc::Global;
use std::collections::BTreeMap;

// Appends encoded messages with their buffers compressed, and their blocks.
fn compress_parts(
    alloc: Global,
    bytes: &[u8],
    out: &mut Vec<u8>,
    blocks: &mut FileBlocks,
) -> Result<(), IpcWriteError>
    requires { (ms : List BatchMessage) × ArePlainMessages ms bytes.now }
    ensures ok { (ms : List BatchMessage) → ArePlainMessages ms bytes.now → OnOk result (AppendsCompressedParts ms out.old.items (file_blocks_of blocks.old) out.new.items (file_blocks_of blocks.new)) }
    ensures form { (ms : List BatchMessage) → ArePlainMessages ms bytes.now → OnOk result (compressed_messages_error ms ≡ None) }
    ensures err { (ms : List BatchMessage) → ArePlainMessages ms bytes.now → IfErr result (IsErrorOrMemory (compressed_messages_error ms)) }
{
    let start = out.len();
    compress_messages(alloc, bytes, out)?;
    push_blocks(blocks, start, &out[start..])?;
    Ok(())
}

/// Encodes a record batch of a file with its buffers compressed by LZ4: appends its dictionary batches to `out`, then its message and body,
/// and their blocks to `blocks`.
///
/// A reader of the file reads the same as from the bytes of [`encode_file_batch`], which says what `known` and the result are.
///
/// # Errors
/// Those of [`encode_file_batch`], then `Size` where a compressed message without its body has 2^31 bytes or more. `Memory` where an
/// allocation fails. After an error `known` is unchanged.
pub fn encode_compressed_file_batch<'a>(
    alloc: Global,
    out: &mut Vec<u8>,
    blocks: &mut FileBlocks,
    fields: &[Field],
    emitted: &BTreeMap<i64, AnyArray>,
    known: &mut DictionaryState,
    batch: &'a Batch,
) -> Result<EncodedFileBatch<'a>, IpcWriteError>
    ensures bytes { OnOk result (AppendsCompressedFileBatch (by_id emitted.now.entries) (record_batch_of batch.now) out.old.items (file_blocks_of blocks.old) out.new.items (file_blocks_of blocks.new)) }
    ensures pending { IfOk result (λ encoded. map entry_of encoded.pending.items ≡ pending_by (by_id emitted.now.entries) (record_batch_of batch.now)) }
    ensures undo { MatchResult result (λ encoded. restored encoded.before (state_of known.new) ≡ state_of known.old) (λ _. state_of known.new ≡ state_of known.old) }
    ensures picked { known.new.picked ≡ known.old.picked }
    ensures known { OnOk result (state_of known.new ≡ (file_state_after (file_state_of emitted.now.entries known.old) (record_batch_of batch.now)).state) }
    ensures plain { OnOk result (BatchRoundTrips (file_dictionary_batches (by_id emitted.now.entries) (record_batch_of batch.now)) (record_batch_of batch.now)) }
    ensures form { OnOk result (compressed_file_batch_error (types_of_fields fields.now) (file_state_of emitted.now.entries known.old) (record_batch_of batch.now) ≡ None) }
    ensures err { IfErr result (IsErrorOrMemory (compressed_file_batch_error (types_of_fields fields.now) (file_state_of emitted.now.entries known.old) (record_batch_of batch.now))) }
{
    let mut plain = Vec::new(alloc);
    let mut unused = FileBlocks::new(alloc);
    let encoded = encode_file_batch(
        alloc,
        &mut plain,
        &mut unused,
        fields,
        emitted,
        known,
        batch,
    )?;
    let EncodedFileBatch { pending, before } = encoded;
    known_ids(&pending);
    match compress_parts(alloc, &plain, out, blocks) {
        Ok(()) => Ok(EncodedFileBatch { pending, before }),
        Err(error) => {
            known.undo(before);
            Err(error)
        }
    }
}

// The same, and records the pending dictionaries as emitted.
fn write_compressed_block(
    alloc: Global,
    out: &mut Vec<u8>,
    fields: &[Field],
    emitted: &mut BTreeMap<i64, AnyArray>,
    known: &mut DictionaryState,
    blocks: &mut FileBlocks,
    batch: &Batch,
) -> Result<(), IpcWriteError>
    ensures bytes { OnOk result (AppendsCompressedFileBatch (by_id emitted.old.entries) (record_batch_of batch.now) out.old.items (file_blocks_of blocks.old) out.new.items (file_blocks_of blocks.new)) }
    ensures file_state { OnOk result (file_state_of emitted.new.entries known.new ≡ file_state_after (file_state_of emitted.old.entries known.old) (record_batch_of batch.now)) }
    ensures plain { OnOk result (BatchRoundTrips (file_dictionary_batches (by_id emitted.old.entries) (record_batch_of batch.now)) (record_batch_of batch.now)) }
    ensures form { OnOk result (compressed_file_batch_error (types_of_fields fields.now) (file_state_of emitted.old.entries known.old) (record_batch_of batch.now) ≡ None) }
    ensures err { IfErr result (IsErrorOrMemory (compressed_file_batch_error (types_of_fields fields.now) (file_state_of emitted.old.entries known.old) (record_batch_of batch.now))) }
{
    let encoded = encode_compressed_file_batch(alloc, out, blocks, fields, emitted, known, batch)?;
    record_emitted(alloc, emitted, &encoded.pending)?;
    Ok(())
}

// Encodes record batches in order, and returns their blocks.
fn write_compressed_blocks(
    alloc: Global,
    out: &mut Vec<u8>,
    fields: &[Field],
    emitted: &mut BTreeMap<i64, AnyArray>,
    known: &mut DictionaryState,
    batches: &[Batch],
) -> Result<FileBlocks, IpcWriteError>
    ensures bytes { IfOk result (λ blocks. HasFileBatches (length out.old.items) (by_id emitted.old.entries) (map record_batch_of batches.now) out.old.items out.new.items (file_blocks_of blocks)) }
    ensures plain { OnOk result (BatchesRoundTrip file_dictionary_batches (by_id emitted.old.entries) (map record_batch_of batches.now)) }
    ensures form { OnOk result (compressed_file_batches_error (types_of_fields fields.now) (file_state_of emitted.old.entries known.old) (map record_batch_of batches.now) ≡ None) }
    ensures err { IfErr result (IsErrorOrMemory (compressed_file_batches_error (types_of_fields fields.now) (file_state_of emitted.old.entries known.old) (map record_batch_of batches.now))) }
{
    let mut blocks = FileBlocks::new(alloc);
    for batch in batches {
        write_compressed_block(alloc, out, fields, emitted, known, &mut blocks, batch)?;
    }
    Ok(blocks)
}

// Appends the messages of a schema and record batches with the end-of-stream marker, and returns the blocks.
fn write_compressed_messages(
    alloc: Global,
    out: &mut Vec<u8>,
    schema: &Schema,
    batches: &[Batch],
) -> Result<FileBlocks, IpcWriteError>
    ensures bytes { IfOk result (λ blocks. HasFileMessages (schema_of schema.now) (map record_batch_of batches.now) out.old.items out.new.items (file_blocks_of blocks)) }
    ensures plain { OnOk result (BatchesRoundTrip file_dictionary_batches [] (map record_batch_of batches.now)) }
    ensures schema { OnOk result (schema_error (schema_of schema.now) ≡ None) }
    ensures form { OnOk result (compressed_file_batches_error (column_types (schema_of schema.now)) (file_state_start (schema_of schema.now)) (map record_batch_of batches.now) ≡ None) }
    ensures err { IfErr result (IsErrorOrMemory (compressed_file_messages_error (schema_of schema.now) (map record_batch_of batches.now))) }
{
    let message = write_schema_with_dictionaries(alloc, schema)?;
    out.extend_from_slice(&message)?;
    let mut emitted = BTreeMap::new(alloc);
    let mut known = initial_state(alloc, &message)?;
    let blocks = write_compressed_blocks(
        alloc,
        out,
        &schema.fields,
        &mut emitted,
        &mut known,
        batches,
    )?;
    out.extend_from_slice(&[255, 255, 255, 255, 0, 0, 0, 0])?;
    Ok(blocks)
}

/// Writes a schema and record batches as a file. The buffers of the record batches and of their dictionaries are compressed by LZ4.
///
/// The file round-trips: reading returns an equal schema, and the same batches as the file of [`crate::write_file`].
///
/// # Errors
/// Those of [`crate::write_file`]. A record batch is also refused with `Size` where a compressed message without its body has 2^31 bytes or
/// more.
pub fn write_compressed_file(
    alloc: Global,
    schema: &Schema,
    batches: &[Batch],
) -> Result<Vec<u8>, IpcWriteError>
    ensures bytes { IfOk result (λ out. IsCompressedFile (schema_of schema.now) (map record_batch_of batches.now) out.items) }
    ensures again { IfOk result (λ out. file_in out.items ≡ Ok (decoded_file (schema_of schema.now) (map record_batch_of batches.now))) }
    ensures same { OnOk result (AreSameBatches (map record_batch_of batches.now) (decoded_file (schema_of schema.now) (map record_batch_of batches.now)).batches) }
    ensures form { OnOk result (compressed_file_error (schema_of schema.now) (map record_batch_of batches.now) ≡ None) }
    ensures err { IfErr result (IsErrorOrMemory (compressed_file_error (schema_of schema.now) (map record_batch_of batches.now))) }
{
    let mut out = Vec::new(alloc);
    out.extend_from_slice(&[65, 82, 82, 79, 87, 49, 0, 0])?;
    let blocks = write_compressed_messages(alloc, &mut out, schema, batches)?;
    write_footer(
        alloc,
        &mut out,
        schema,
        &blocks.dictionaries,
        &blocks.batches,
    )?;
    Ok(out)
}
