//! Writes files.
ghost use Rattle.std.specs.Prelude.{◌≡◌, ◌+◌, ◌-◌, ◌<◌, ◌≤◌, ◌^◌, ◌++◌, ◌∷◌, [], None, map, length, pos, IfErr, IfOk, MatchResult, OnOk, Ok};
ghost use Rattle.std.specs.List.{AllByRecursion, flat_map};
ghost use Rattle.nest_array.specs.Seen.{layout_of};
ghost use Rattle.ipc_flatbuf.specs.ReadResults.{ReturnsOrRunsOut};
ghost use Rattle.ipc_flatbuf.specs.declared.error.IpcWriteError.TheVariants.{Memory, Size};
ghost use Rattle.ipc_schema.specs.ProjectedSchemas.{projected_schema_of};
ghost use Rattle.ipc_schema.specs.Schemas.{schema_of};
ghost use Rattle.ipc_schema.specs.SchemaBytes.{schema_message};
ghost use Rattle.ipc_arrays.specs.Encoding.{columns_body};
ghost use Rattle.ipc.specs.FileDictionaries.{dictionary_batch_of};
ghost use Rattle.ipc.specs.EntriesOf.{entry_of, by_id};
ghost use Rattle.ipc.specs.Streams.{record_batch_of, restored, state_of, column_types, types_of_fields};
ghost use Rattle.ipc.specs.Files.{file_in};
ghost use Rattle.ipc.specs.SliceStreamReaders.{state_in};
ghost use Rattle.ipc.specs.EncodedStreams.{batch_bytes, dictionary_head, dictionary_bytes, pending_by, encoded_batch, encoded_batches, encoded_messages, schema_error, IsErrorOrMemory, RecordBatchRoundTrips, DictionaryRoundTrips, BatchRoundTrips, BatchesRoundTrip, AreSameBatches};
ghost use Rattle.ipc.specs.EncodedFiles.{block_at, part_bytes, part_error, with_blocks, written_block, dictionary_blocks, file_dictionary_batches, no_blocks, blocks_from, file_blocks_of, encoded_file, after, file_state_after, file_state_start, state_by, state_after, unreadable_error, spec_write_error_of, record_batch_block_error, dictionary_batch_error, dictionary_batches_error, file_batch_error, file_batches_error, file_error, decoded_file, file_state_of, messages_error, DecodesLikeStream};
ghost use Rattle.ipc.specs.EncodedBatches.{with_part};

use crate::batch::Batch;
use crate::dictionaries::{
    DictionaryBatch, any_replaced, dictionary_batches, pending_dictionaries, record_emitted,
};
use crate::dictionary::read_dictionary;
use crate::state::{DictionaryState, KnownDictionaries};
use crate::writing::{append_dictionary, are_columns, write_record_batch};
use ipc_flatbuf::message::next_message;
use ipc_flatbuf::{IpcReadError, IpcWriteError};
use ipc_schema::footer::{Block, write_footer};
use ipc_schema::{Schema, write_schema_with_dictionaries};
use nest_array::any::AnyArray;
use nest_memory::datatypes::Field;
use std::alloc::Global;
use std::collections::BTreeMap;

/// The blocks of a file: where its dictionary batches and record batches are. Source: File.fbs, table Footer.
#[derive(Drop)]
pub struct FileBlocks {
    /// The blocks of the dictionary batches.
    pub dictionaries: Vec<Block>,
    /// The blocks of the record batches.
    pub batches: Vec<Block>,
}

impl FileBlocks {
    /// Returns no blocks.
    pub fn new(alloc: Global) -> FileBlocks
        ensures { file_blocks_of result ≡ no_blocks }
    {
        FileBlocks {
            dictionaries: Vec::new(alloc),
            batches: Vec::new(alloc),
        }
    }
}

// Returns the block of a message between these positions, whose body has this length.
pub(crate) fn block_between(
    start: usize,
    end: usize,
    body_length: usize,
) -> Result<Block, IpcWriteError>
    requires within { start + body_length ≤ end }
    requires small { end < 2 ^ 63 }
    ensures block { IfOk result (λ block. block ≡ record { offset = pos start; metadata_length = pos (end - start - body_length); body_length = pos body_length }) }
    ensures short { OnOk result (end - start - body_length < 2 ^ 31) }
    ensures err { IfErr result (λ why. (why ≡ Size) × (2 ^ 31 ≤ end - start - body_length)) }
{
    let metadata_length = end - start - body_length;
    if metadata_length >= 1 << 31 {
        return Err(IpcWriteError::Size);
    }
    Ok(Block {
        offset: start as i64,
        metadata_length: metadata_length as i32,
        body_length: body_length as i64,
    })
}

// Returns the error of a dictionary batch that a reader refuses.
fn write_error_of(error: IpcReadError) -> IpcWriteError
    ensures { result ≡ spec_write_error_of error }
{
    match error {
        IpcReadError::Memory => IpcWriteError::Memory,
        _ => IpcWriteError::DictionaryReplacement,
    }
}

// Reads the dictionary batch at the start of `bytes` back, as a reader of the file does.
fn read_back(alloc: Global, known: &mut DictionaryState, bytes: &[u8]) -> Result<(), IpcReadError>
    ensures picked { known.new.picked ≡ known.old.picked }
    ensures known { ReturnsOrRunsOut (λ x. state_of known.new) result (state_by (state_of known.old) bytes.now) }
{
    let (next, _) = next_message(bytes)?;
    match next {
        None => Ok(()),
        Some(message) => read_dictionary(alloc, true, known, message),
    }
}

// The same, with the error of the writer.
fn learn(alloc: Global, known: &mut DictionaryState, bytes: &[u8]) -> Result<(), IpcWriteError>
    ensures picked { known.new.picked ≡ known.old.picked }
    ensures known { OnOk result (state_by (state_of known.old) bytes.now ≡ Ok (state_of known.new)) }
    ensures err { IfErr result (IsErrorOrMemory (unreadable_error (state_by (state_of known.old) bytes.now))) }
{
    match read_back(alloc, known, bytes) {
        Err(error) => Err(write_error_of(error)),
        Ok(()) => Ok(()),
    }
}

// Appends a dictionary batch that a reader of the file can read, and returns its block.
fn write_dictionary_block(
    alloc: Global,
    out: &mut Vec<u8>,
    known: &mut DictionaryState,
    put: &DictionaryBatch,
) -> Result<Block, IpcWriteError>
    ensures bytes { OnOk result (out.new.items ≡ out.old.items ++ dictionary_bytes (dictionary_batch_of put.now)) }
    ensures block { IfOk result (λ block. block ≡ block_at (length out.old.items) (dictionary_head (dictionary_batch_of put.now)) (columns_body ((dictionary_batch_of put.now).1.1 ∷ []))) }
    ensures again { OnOk result (DictionaryRoundTrips (dictionary_batch_of put.now)) }
    ensures picked { known.new.picked ≡ known.old.picked }
    ensures known { OnOk result (state_of known.new ≡ state_after (state_of known.old) (dictionary_batch_of put.now)) }
    ensures form { OnOk result (dictionary_batch_error (state_of known.old) (dictionary_batch_of put.now) ≡ None) }
    ensures err { IfErr result (IsErrorOrMemory (dictionary_batch_error (state_of known.old) (dictionary_batch_of put.now))) }
{
    let start = out.len();
    let body_length = append_dictionary(alloc, out, put.delta, put.id, &put.values)?;
    let block = block_between(start, out.len(), body_length)?;
    learn(alloc, known, &out[start..])?;
    Ok(block)
}

// Appends dictionary batches, and their blocks.
fn write_dictionary_blocks(
    alloc: Global,
    out: &mut Vec<u8>,
    blocks: &mut Vec<Block>,
    known: &mut DictionaryState,
    puts: &[DictionaryBatch],
) -> Result<(), IpcWriteError>
    ensures bytes { OnOk result (out.new.items ≡ out.old.items ++ flat_map dictionary_bytes (map dictionary_batch_of puts.now)) }
    ensures blocks { OnOk result (blocks.new.items ≡ blocks.old.items ++ dictionary_blocks (length out.old.items) (map dictionary_batch_of puts.now)) }
    ensures again { OnOk result (AllByRecursion DictionaryRoundTrips (map dictionary_batch_of puts.now)) }
    ensures picked { known.new.picked ≡ known.old.picked }
    ensures known { OnOk result (state_of known.new ≡ after state_after (state_of known.old) (map dictionary_batch_of puts.now)) }
    ensures form { OnOk result (dictionary_batches_error (state_of known.old) (map dictionary_batch_of puts.now) ≡ None) }
    ensures err { IfErr result (IsErrorOrMemory (dictionary_batches_error (state_of known.old) (map dictionary_batch_of puts.now))) }
{
    for put in puts {
        let block = write_dictionary_block(alloc, out, known, put)?;
        blocks.push(block)?;
    }
    Ok(())
}

// Appends a record batch, and returns its block.
fn write_record_batch_block(
    alloc: Global,
    out: &mut Vec<u8>,
    rows: usize,
    columns: &[AnyArray],
) -> Result<Block, IpcWriteError>
    ensures bytes { OnOk result (out.new.items ≡ out.old.items ++ batch_bytes (record { rows = rows; columns = map layout_of columns.now })) }
    ensures block { IfOk result (λ block. block ≡ written_block (length out.old.items) (record { rows = rows; columns = map layout_of columns.now })) }
    ensures again { OnOk result (RecordBatchRoundTrips (record { rows = rows; columns = map layout_of columns.now })) }
    ensures form { OnOk result (record_batch_block_error (record { rows = rows; columns = map layout_of columns.now }) ≡ None) }
    ensures err { IfErr result (IsErrorOrMemory (record_batch_block_error (record { rows = rows; columns = map layout_of columns.now }))) }
{
    let start = out.len();
    let body_length = write_record_batch(alloc, out, rows, columns)?;
    block_between(start, out.len(), body_length)
}

/// What is left to do with a record batch of a file that was encoded.
#[derive(Drop)]
pub struct EncodedFileBatch<'a> {
    /// The pending dictionaries, which `record_emitted` adds to `emitted` once the bytes are out.
    pub pending: Vec<(i64, &'a AnyArray)>,
    /// The dictionaries of the reader before, if the batch changes them. `DictionaryState::undo` puts them back, if the bytes cannot be written.
    pub before: Option<KnownDictionaries>,
}

// Appends dictionary batches and a record batch, and their blocks. After an error `known` may have other dictionaries.
fn write_parts(
    alloc: Global,
    out: &mut Vec<u8>,
    blocks: &mut FileBlocks,
    known: &mut DictionaryState,
    puts: &[DictionaryBatch],
    batch: &Batch,
) -> Result<(), IpcWriteError>
    ensures bytes { OnOk result (out.new.items ≡ out.old.items ++ part_bytes (map dictionary_batch_of puts.now) (record_batch_of batch.now)) }
    ensures blocks { OnOk result (file_blocks_of blocks.new ≡ with_blocks (file_blocks_of blocks.old) (length out.old.items) (map dictionary_batch_of puts.now) (record_batch_of batch.now)) }
    ensures picked { known.new.picked ≡ known.old.picked }
    ensures known { OnOk result (state_of known.new ≡ after state_after (state_of known.old) (map dictionary_batch_of puts.now)) }
    ensures again { OnOk result (AllByRecursion DictionaryRoundTrips (map dictionary_batch_of puts.now)) }
    ensures batch_again { OnOk result (RecordBatchRoundTrips (record_batch_of batch.now)) }
    ensures form { OnOk result (part_error (state_of known.old) (map dictionary_batch_of puts.now) (record_batch_of batch.now) ≡ None) }
    ensures err { IfErr result (IsErrorOrMemory (part_error (state_of known.old) (map dictionary_batch_of puts.now) (record_batch_of batch.now))) }
{
    write_dictionary_blocks(alloc, out, &mut blocks.dictionaries, known, puts)?;
    let block = write_record_batch_block(alloc, out, batch.rows, &batch.columns)?;
    blocks.batches.push(block)?;
    Ok(())
}

// The same, but `known` is unchanged after an error. Returns its dictionaries before, if there are dictionary batches.
#[tactic(auto, unfolding(crate::specs::EncodedFiles::dictionary_blocks))]
fn write_parts_or_undo(
    alloc: Global,
    out: &mut Vec<u8>,
    blocks: &mut FileBlocks,
    known: &mut DictionaryState,
    puts: &[DictionaryBatch],
    batch: &Batch,
) -> Result<Option<KnownDictionaries>, IpcWriteError>
    ensures bytes { OnOk result (out.new.items ≡ out.old.items ++ part_bytes (map dictionary_batch_of puts.now) (record_batch_of batch.now)) }
    ensures blocks { OnOk result (file_blocks_of blocks.new ≡ with_blocks (file_blocks_of blocks.old) (length out.old.items) (map dictionary_batch_of puts.now) (record_batch_of batch.now)) }
    ensures picked { known.new.picked ≡ known.old.picked }
    ensures known { OnOk result (state_of known.new ≡ after state_after (state_of known.old) (map dictionary_batch_of puts.now)) }
    ensures undo { MatchResult result (λ before. restored before (state_of known.new) ≡ state_of known.old) (λ _. state_of known.new ≡ state_of known.old) }
    ensures again { OnOk result (AllByRecursion DictionaryRoundTrips (map dictionary_batch_of puts.now)) }
    ensures batch_again { OnOk result (RecordBatchRoundTrips (record_batch_of batch.now)) }
    ensures form { OnOk result (part_error (state_of known.old) (map dictionary_batch_of puts.now) (record_batch_of batch.now) ≡ None) }
    ensures err { IfErr result (IsErrorOrMemory (part_error (state_of known.old) (map dictionary_batch_of puts.now) (record_batch_of batch.now))) }
{
    if puts.is_empty() {
        let block = write_record_batch_block(alloc, out, batch.rows, &batch.columns)?;
        blocks.batches.push(block)?;
        return Ok(None);
    }
    let before = known.dictionaries(alloc)?;
    match write_parts(alloc, out, blocks, known, puts, batch) {
        Ok(()) => Ok(Some(before)),
        Err(error) => {
            known.restore(before);
            Err(error)
        }
    }
}

/// Encodes a record batch of a file: appends its dictionary batches to `out`, then its message and body, and their blocks to `blocks`.
///
/// A file has no replacement dictionaries, so values that extend an emitted dictionary are appended as a delta. `known` is the state of a
/// reader of the file before and after; its dictionaries are cloned only if there are dictionary batches.
///
/// # Errors
/// `Columns`, if the columns are not those of the fields; `DictionaryReplacement`, if a dictionary would be replaced; then in the order of
/// writing: `Size` of a dictionary batch, `DictionaryReplacement` if no reader could append the delta, as an offset or key would overflow;
/// `Size` of the record batch. `Memory`, where an allocation fails. After an error `known` is unchanged.
#[tactic(auto, unfolding(crate::specs::EncodedStreams::encoded_batch))]
pub fn encode_file_batch<'a>(
    alloc: Global,
    out: &mut Vec<u8>,
    blocks: &mut FileBlocks,
    fields: &[Field],
    emitted: &BTreeMap<i64, AnyArray>,
    known: &mut DictionaryState,
    batch: &'a Batch,
) -> Result<EncodedFileBatch<'a>, IpcWriteError>
    ensures bytes { OnOk result (out.new.items ≡ out.old.items ++ encoded_batch file_dictionary_batches (by_id emitted.now.entries) (record_batch_of batch.now)) }
    ensures pending { IfOk result (λ encoded. map entry_of encoded.pending.items ≡ pending_by (by_id emitted.now.entries) (record_batch_of batch.now)) }
    ensures undo { MatchResult result (λ encoded. restored encoded.before (state_of known.new) ≡ state_of known.old) (λ _. state_of known.new ≡ state_of known.old) }
    ensures blocks { OnOk result (file_blocks_of blocks.new ≡ with_part (file_blocks_of blocks.old) (length out.old.items) (by_id emitted.now.entries) (record_batch_of batch.now)) }
    ensures picked { known.new.picked ≡ known.old.picked }
    ensures known { OnOk result (state_of known.new ≡ (file_state_after (file_state_of emitted.now.entries known.old) (record_batch_of batch.now)).state) }
    ensures again { OnOk result (BatchRoundTrips (file_dictionary_batches (by_id emitted.now.entries) (record_batch_of batch.now)) (record_batch_of batch.now)) }
    ensures form { OnOk result (file_batch_error (types_of_fields fields.now) (file_state_of emitted.now.entries known.old) (record_batch_of batch.now) ≡ None) }
    ensures err { IfErr result (IsErrorOrMemory (file_batch_error (types_of_fields fields.now) (file_state_of emitted.now.entries known.old) (record_batch_of batch.now))) }
{
    if !are_columns(fields, batch.rows, &batch.columns) {
        return Err(IpcWriteError::Columns);
    }
    let pending = pending_dictionaries(alloc, emitted, &batch.columns)?;
    if any_replaced(alloc, emitted, &pending)? {
        return Err(IpcWriteError::DictionaryReplacement);
    }
    let puts = dictionary_batches(alloc, emitted, &pending)?;
    let before = write_parts_or_undo(alloc, out, blocks, known, &puts, batch)?;
    Ok(EncodedFileBatch { pending, before })
}

// The same, and records the pending dictionaries as emitted.
fn write_block(
    alloc: Global,
    out: &mut Vec<u8>,
    fields: &[Field],
    emitted: &mut BTreeMap<i64, AnyArray>,
    known: &mut DictionaryState,
    blocks: &mut FileBlocks,
    batch: &Batch,
) -> Result<(), IpcWriteError>
    ensures bytes { OnOk result (out.new.items ≡ out.old.items ++ encoded_batch file_dictionary_batches (by_id emitted.old.entries) (record_batch_of batch.now)) }
    ensures file_state { OnOk result (file_state_of emitted.new.entries known.new ≡ file_state_after (file_state_of emitted.old.entries known.old) (record_batch_of batch.now)) }
    ensures blocks { OnOk result (file_blocks_of blocks.new ≡ with_part (file_blocks_of blocks.old) (length out.old.items) (by_id emitted.old.entries) (record_batch_of batch.now)) }
    ensures again { OnOk result (BatchRoundTrips (file_dictionary_batches (by_id emitted.old.entries) (record_batch_of batch.now)) (record_batch_of batch.now)) }
    ensures form { OnOk result (file_batch_error (types_of_fields fields.now) (file_state_of emitted.old.entries known.old) (record_batch_of batch.now) ≡ None) }
    ensures err { IfErr result (IsErrorOrMemory (file_batch_error (types_of_fields fields.now) (file_state_of emitted.old.entries known.old) (record_batch_of batch.now))) }
{
    let encoded = encode_file_batch(alloc, out, blocks, fields, emitted, known, batch)?;
    record_emitted(alloc, emitted, &encoded.pending)?;
    Ok(())
}

// Encodes record batches in order, and returns their blocks.
fn write_blocks(
    alloc: Global,
    out: &mut Vec<u8>,
    fields: &[Field],
    emitted: &mut BTreeMap<i64, AnyArray>,
    known: &mut DictionaryState,
    batches: &[Batch],
) -> Result<FileBlocks, IpcWriteError>
    ensures bytes { OnOk result (out.new.items ≡ out.old.items ++ encoded_batches file_dictionary_batches (by_id emitted.old.entries) (map record_batch_of batches.now)) }
    ensures blocks { IfOk result (λ blocks. file_blocks_of blocks ≡ blocks_from (length out.old.items) (by_id emitted.old.entries) (map record_batch_of batches.now)) }
    ensures again { OnOk result (BatchesRoundTrip file_dictionary_batches (by_id emitted.old.entries) (map record_batch_of batches.now)) }
    ensures form { OnOk result (file_batches_error (types_of_fields fields.now) (file_state_of emitted.old.entries known.old) (map record_batch_of batches.now) ≡ None) }
    ensures err { IfErr result (IsErrorOrMemory (file_batches_error (types_of_fields fields.now) (file_state_of emitted.old.entries known.old) (map record_batch_of batches.now))) }
{
    let mut blocks = FileBlocks::new(alloc);
    for batch in batches {
        write_block(alloc, out, fields, emitted, known, &mut blocks, batch)?;
    }
    Ok(blocks)
}

/// Returns the state of a reader after the schema message that `message` begins with, which was written here.
///
/// # Errors
/// `Memory`.
pub fn initial_state(alloc: Global, message: &[u8]) -> Result<DictionaryState, IpcWriteError>
    ensures state { IfOk result (λ s. state_in message.now ≡ Ok (state_of s)) }
    ensures err { IfErr result (λ why. why ≡ Memory) }
{
    match DictionaryState::read(alloc, message) {
        Ok(state) => Ok(state),
        Err(_) => Err(IpcWriteError::Memory),
    }
}

// Appends the messages of a schema and record batches with the end-of-stream marker, and returns the blocks.
#[tactic(auto, unfolding(crate::specs::EncodedStreams::encoded_messages))]
fn write_messages(
    alloc: Global,
    out: &mut Vec<u8>,
    schema: &Schema,
    batches: &[Batch],
) -> Result<FileBlocks, IpcWriteError>
    ensures bytes { OnOk result (out.new.items ≡ out.old.items ++ encoded_messages file_dictionary_batches (schema_of schema.now) (map record_batch_of batches.now)) }
    ensures blocks { IfOk result (λ blocks. file_blocks_of blocks ≡ blocks_from (length out.old.items + length (schema_message (schema_of schema.now))) [] (map record_batch_of batches.now)) }
    ensures again { OnOk result (BatchesRoundTrip file_dictionary_batches [] (map record_batch_of batches.now)) }
    ensures schema { OnOk result (schema_error (schema_of schema.now) ≡ None) }
    ensures form { OnOk result (file_batches_error (column_types (schema_of schema.now)) (file_state_start (schema_of schema.now)) (map record_batch_of batches.now) ≡ None) }
    ensures err { IfErr result (IsErrorOrMemory (messages_error (schema_of schema.now) (map record_batch_of batches.now))) }
{
    let message = write_schema_with_dictionaries(alloc, schema)?;
    out.extend_from_slice(&message)?;
    let mut emitted = BTreeMap::new(alloc);
    let mut known = initial_state(alloc, &message)?;
    let blocks = write_blocks(
        alloc,
        out,
        &schema.fields,
        &mut emitted,
        &mut known,
        batches,
    )?;
    out.extend_from_slice(&[255, 255, 255, 255, 0, 0, 0, 0])?;
    Ok(blocks)
}

/// Writes a schema and record batches as a file: the messages of a stream, then a footer with a block for each batch.
///
/// The file round-trips: reading returns an equal schema, and batches with the same rows, data types and slots. A sliced array is written
/// without the values outside the slice. A dictionary whose values are extended from batch to batch is written once, then as deltas; a
/// reader of the file has all its values before the first record batch.
///
/// # Errors
/// The first error in the order of writing: a field of the schema (`Depth`, `Extension`, `Dictionary`, `Type`, `Float`, `Unit`, `Size`), or
/// the size of its message (`Size`); then batch by batch `Columns`, if the columns are not those of the schema; `DictionaryReplacement`, if
/// a dictionary would be replaced, or no reader could append the delta; `Size`; last `Size` of the footer. `Memory`, where an allocation
/// fails.
#[tactic(auto, unfolding(crate::specs::EncodedFiles::encoded_file))]
pub fn write_file(
    alloc: Global,
    schema: &Schema,
    batches: &[Batch],
) -> Result<Vec<u8>, IpcWriteError>
    ensures bytes { IfOk result (λ out. out.items ≡ encoded_file (schema_of schema.now) (map record_batch_of batches.now)) }
    ensures again { IfOk result (λ out. file_in out.items ≡ Ok (decoded_file (schema_of schema.now) (map record_batch_of batches.now))) }
    ensures same { OnOk result (AreSameBatches (map record_batch_of batches.now) (decoded_file (schema_of schema.now) (map record_batch_of batches.now)).batches) }
    ensures plain { OnOk result (DecodesLikeStream (schema_of schema.now) (map record_batch_of batches.now)) }
    ensures form { OnOk result (file_error (schema_of schema.now) (map record_batch_of batches.now) ≡ None) }
    ensures err { IfErr result (IsErrorOrMemory (file_error (schema_of schema.now) (map record_batch_of batches.now))) }
{
    let mut out = Vec::new(alloc);
    out.extend_from_slice(&[65, 82, 82, 79, 87, 49, 0, 0])?;
    let blocks = write_messages(alloc, &mut out, schema, batches)?;
    write_footer(
        alloc,
        &mut out,
        schema,
        &blocks.dictionaries,
        &blocks.batches,
    )?;
    Ok(out)
}
