//! Writes a file to a writer, one record batch at a time.
ghost use Rattle.std.specs.Prelude.{◌≡◌, ◌+◌, ◌<◌, ◌^◌, ◌++◌, length, map, false, None, Ok, IfErr, IfOk, MatchResult, OnOk};
ghost use Rattle.std.specs.List.{AllByRecursion};
ghost use Rattle.ipc_flatbuf.specs.declared.error.IpcWriteError.TheVariants.{Memory};
ghost use Rattle.ipc_schema.specs.Schemas.{schema_of};
ghost use Rattle.ipc_schema.specs.FooterBytes.{file_head};
ghost use Rattle.ipc_schema.specs.FooterLaws.{FooterRoundTrips};
ghost use Rattle.ipc.specs.PendingDictionaries.{with_entries};
ghost use Rattle.ipc.specs.EntriesOf.{entry_of, by_id};
ghost use Rattle.ipc.specs.Streams.{record_batch_of, restored, state_of, column_types};
ghost use Rattle.ipc.specs.EncodedStreams.{pending_by, encoded_batch, schema_error, IsErrorOrMemory, BatchRoundTrips};
ghost use Rattle.ipc.specs.EncodedFiles.{no_blocks, file_blocks_of, file_state, file_state_after, file_state_start, file_dictionary_batches};
ghost use Rattle.ipc_io.specs.Writers.{StartsWriting, FinishesWriting, WritesBytes};
ghost use Rattle.ipc_io.specs.FileWriters.{file_state_so_far, header_bytes, footer_over, footer_of, trailer_bytes, batch_blocks, shifted_block, shifted_blocks, IsShiftable, KeepsOrUndoes, placed_error, trailer_error, as_stream, RecordsBlocks, RecordsBatchBlocks, RecordsState, WritesFileRecordBatch};

use crate::error::WriteError;
use crate::stream_writer::{StreamWriter, message_of};
use ipc::{
    Batch, DictionaryState, EncodedFileBatch, FileBlocks, KnownDictionaries, encode_file_batch,
    initial_state,
};
use ipc_flatbuf::IpcWriteError;
use ipc_schema::Schema;
use ipc_schema::footer::{Block, write_footer};
use nest_array::any::AnyArray;
use std::alloc::{AllocError, Global};
use std::collections::BTreeMap;
use std::io::Write;
use std::marker::Model;

/// A writer of a file over `Write`, which takes one record batch at a time.
///
/// Values that extend an emitted dictionary are written as a delta; a replacement dictionary is an error, as files cannot hold one. The
/// writer holds the schema, the dictionaries last emitted, the dictionaries as a reader of the file has them, a block for each batch, and
/// the bytes of one record batch. After an `Io` error it writes nothing more.
#[derive(Drop)]
pub struct FileWriter<W> {
    stream: StreamWriter<W>,
    blocks: FileBlocks,
    position: u64,
    known: DictionaryState,
}

impl<W> Model for FileWriter<W> {
    ghost use Rattle.ipc.specs.Streams.{state_of};
    ghost use Rattle.ipc.specs.EncodedFiles.{file_blocks_of};
    ghost use Rattle.ipc_io.specs.FileWriters.{FileWriterTree, coded_file_writer};

    ghost Value = { FileWriterTree W };

    ghost coded = { coded_file_writer W.code };

    ghost view = { λ w. record { stream = w.stream; blocks = file_blocks_of w.blocks; position = w.position; known = state_of w.known } };
}

// The bytes before the batches, a clone of the schema, and the state of a reader after these bytes.
#[derive(Drop)]
struct Header {
    bytes: Vec<u8>,
    schema: Schema,
    known: DictionaryState,
}

// The bytes of a record batch and its dictionary batches, their blocks, the pending dictionaries, and the dictionaries of a reader before, if
// the batch changes them.
#[derive(Drop)]
struct EncodedBatch<'a> {
    bytes: Vec<u8>,
    blocks: FileBlocks,
    pending: Vec<(i64, &'a AnyArray)>,
    before: Option<KnownDictionaries>,
}

// Returns a message after the first 8 bytes of a file.
fn with_magic(alloc: Global, message: &[u8]) -> Result<Vec<u8>, AllocError>
    ensures { IfOk result (λ out. out.items ≡ file_head ++ message.now) }
{
    let mut out = Vec::new(alloc);
    out.extend_from_slice(&[65, 82, 82, 79, 87, 49, 0, 0])?;
    out.extend_from_slice(message)?;
    Ok(out)
}

// Returns the header of a file.
fn header_of(alloc: Global, schema: &Schema) -> Result<Header, IpcWriteError>
    ensures bytes { IfOk result (λ header. header.bytes.items ≡ header_bytes (schema_of schema.now)) }
    ensures same { IfOk result (λ header. schema_of header.schema ≡ schema_of schema.now) }
    ensures known { IfOk result (λ header. state_of header.known ≡ (file_state_start (schema_of schema.now)).state) }
    ensures form { OnOk result (schema_error (schema_of schema.now) ≡ None) }
    ensures err { IfErr result (IsErrorOrMemory (schema_error (schema_of schema.now))) }
{
    let (message, copy) = message_of(alloc, schema)?;
    let known = initial_state(alloc, &message)?;
    match with_magic(alloc, &message) {
        Ok(bytes) => Ok(Header {
            bytes,
            schema: copy,
            known,
        }),
        Err(_) => Err(IpcWriteError::Memory),
    }
}

// Returns these blocks with `position` added to their offsets.
fn shift_blocks(alloc: Global, position: u64, blocks: &[Block]) -> Result<Vec<Block>, AllocError>
    requires { AllByRecursion (IsShiftable position) blocks.now }
    ensures { IfOk result (λ v. v.items ≡ map (shifted_block position) blocks.now) }
{
    let mut all = Vec::with_capacity(alloc, blocks.len())?;
    for block in blocks {
        let offset = position + block.offset.unsigned_abs();
        all.push(Block {
            offset: offset as i64,
            metadata_length: block.metadata_length,
            body_length: block.body_length,
        })?;
    }
    Ok(all)
}

// The same for dictionary and record batches.
fn shift_all_blocks(
    alloc: Global,
    position: u64,
    blocks: &FileBlocks,
) -> Result<FileBlocks, AllocError>
    requires dictionaries { AllByRecursion (IsShiftable position) (file_blocks_of blocks.now).dictionaries }
    requires batches { AllByRecursion (IsShiftable position) (file_blocks_of blocks.now).batches }
    ensures { IfOk result (λ all. file_blocks_of all ≡ shifted_blocks position (file_blocks_of blocks.now)) }
{
    let dictionaries = shift_blocks(alloc, position, &blocks.dictionaries)?;
    let batches = shift_blocks(alloc, position, &blocks.batches)?;
    Ok(FileBlocks {
        dictionaries,
        batches,
    })
}

// Encodes a record batch that begins at a position of the file. After an error `known` is unchanged.
fn encode_batch_at<'a>(
    alloc: Global,
    position: u64,
    schema: &Schema,
    emitted: &BTreeMap<i64, AnyArray>,
    known: &mut DictionaryState,
    batch: &'a Batch,
) -> Result<EncodedBatch<'a>, IpcWriteError>
    ensures bytes { IfOk result (λ encoded. encoded.bytes.items ≡ encoded_batch file_dictionary_batches (by_id emitted.now.entries) (record_batch_of batch.now)) }
    ensures blocks { IfOk result (λ encoded. file_blocks_of encoded.blocks ≡ batch_blocks position (by_id emitted.now.entries) (record_batch_of batch.now)) }
    ensures pending { IfOk result (λ encoded. map entry_of encoded.pending.items ≡ pending_by (by_id emitted.now.entries) (record_batch_of batch.now)) }
    ensures small { IfOk result (λ encoded. position + length encoded.bytes.items < 2 ^ 63) }
    ensures picked { known.new.picked ≡ known.old.picked }
    ensures undo { MatchResult result (λ encoded. restored encoded.before (state_of known.new) ≡ state_of known.old) (λ _. state_of known.new ≡ state_of known.old) }
    ensures known { OnOk result (state_of known.new ≡ (file_state_after (file_state (by_id emitted.now.entries) (state_of known.old)) (record_batch_of batch.now)).state) }
    ensures again { OnOk result (BatchRoundTrips (file_dictionary_batches (by_id emitted.now.entries) (record_batch_of batch.now)) (record_batch_of batch.now)) }
    ensures form { OnOk result (placed_error position (column_types (schema_of schema.now)) (file_state (by_id emitted.now.entries) (state_of known.old)) (record_batch_of batch.now) ≡ None) }
    ensures err { IfErr result (IsErrorOrMemory (placed_error position (column_types (schema_of schema.now)) (file_state (by_id emitted.now.entries) (state_of known.old)) (record_batch_of batch.now))) }
{
    let mut bytes = Vec::new(alloc);
    let mut blocks = FileBlocks::new(alloc);
    let fields = &schema.fields;
    let encoded = encode_file_batch(
        alloc,
        &mut bytes,
        &mut blocks,
        fields,
        emitted,
        known,
        batch,
    )?;
    let EncodedFileBatch { pending, before } = encoded;
    let room = (1u64 << 63).saturating_sub(position);
    if bytes.len() as u64 >= room {
        known.undo(before);
        return Err(IpcWriteError::Size);
    }
    match shift_all_blocks(alloc, position, &blocks) {
        Ok(blocks) => Ok(EncodedBatch {
            bytes,
            blocks,
            pending,
            before,
        }),
        Err(_) => {
            known.undo(before);
            Err(IpcWriteError::Memory)
        }
    }
}

// Returns the bytes after the batches: the end-of-stream marker and the footer.
fn trailer_of(alloc: Global, schema: &Schema, blocks: &FileBlocks) -> Result<Vec<u8>, IpcWriteError>
    ensures bytes { IfOk result (λ out. out.items ≡ trailer_bytes (footer_over (schema_of schema.now) (file_blocks_of blocks.now))) }
    ensures again { OnOk result (FooterRoundTrips (footer_over (schema_of schema.now) (file_blocks_of blocks.now))) }
    ensures form { OnOk result (trailer_error (footer_over (schema_of schema.now) (file_blocks_of blocks.now)) ≡ None) }
    ensures err { IfErr result (IsErrorOrMemory (trailer_error (footer_over (schema_of schema.now) (file_blocks_of blocks.now)))) }
{
    let mut out = Vec::new(alloc);
    out.extend_from_slice(&[255, 255, 255, 255, 0, 0, 0, 0])?;
    write_footer(
        alloc,
        &mut out,
        schema,
        &blocks.dictionaries,
        &blocks.batches,
    )?;
    Ok(out)
}

impl<W> FileWriter<W> {
    /// Returns the schema of the record batches.
    pub fn schema(&self) -> &Schema
        ensures { schema_of result.now ≡ self.now.stream.schema }
    {
        self.stream.schema()
    }

    /// Returns a reference to the inner writer.
    pub fn get_ref(&self) -> &W
        ensures { result.now ≡ self.now.stream.inner }
    {
        self.stream.get_ref()
    }

    /// Returns whether a call failed with `Io`; then nothing more is written.
    pub fn is_failed(&self) -> bool
        ensures { result ≡ self.now.stream.failed }
    {
        self.stream.is_failed()
    }
}

impl<W: Write + Drop> FileWriter<W> {
    /// Writes the magic bytes and the schema message, and returns a writer of the file. The file begins at the current end of the inner
    /// writer.
    ///
    /// # Errors
    /// `Ipc` with the first error of the schema, or `Memory`; nothing was written. `Io` with an error of the inner writer.
    pub fn new(alloc: Global, writer: W, schema: &Schema) -> Result<FileWriter<W>, WriteError>
        ensures begun { StartsWriting W.contents (schema_error (schema_of schema.now)) (header_bytes (schema_of schema.now)) (schema_of schema.now) writer (as_stream result) }
        ensures blocks { IfOk result (λ w. w.blocks ≡ no_blocks) }
        ensures position { IfOk result (λ w. w.position ≡ length (header_bytes (schema_of schema.now))) }
        ensures known { IfOk result (λ w. w.known ≡ (file_state_start (schema_of schema.now)).state) }
    {
        match header_of(alloc, schema) {
            Ok(header) => FileWriter::begin(alloc, writer, header),
            Err(error) => Err(WriteError::Ipc(error)),
        }
    }

    // Writes the first bytes of a file.
    fn begin(alloc: Global, writer: W, header: Header) -> Result<FileWriter<W>, WriteError>
        ensures begun { StartsWriting W.contents None header.bytes.items (schema_of header.schema) writer (as_stream result) }
        ensures blocks { IfOk result (λ w. w.blocks ≡ no_blocks) }
        ensures position { IfOk result (λ w. w.position ≡ length header.bytes.items) }
        ensures known { IfOk result (λ w. w.known ≡ state_of header.known) }
    {
        let Header {
            bytes,
            schema,
            known,
        } = header;
        match StreamWriter::begin(alloc, writer, schema, &bytes) {
            Ok(stream) => Ok(FileWriter {
                stream,
                blocks: FileBlocks::new(alloc),
                position: bytes.len() as u64,
                known,
            }),
            Err(e) => Err(e),
        }
    }

    // Writes an encoded batch and records its blocks. Memory for the blocks is reserved before any byte is written.
    fn put(&mut self, alloc: Global, encoded: &EncodedBatch<'_>) -> Result<(), WriteError>
        requires whole { self.old.stream.failed ≡ false }
        requires small { self.old.position + length encoded.now.bytes.items < 2 ^ 63 }
        ensures put { WritesBytes W.contents None encoded.now.bytes.items (with_entries self.old.stream.emitted (map entry_of encoded.now.pending.items)) self.old.stream self.new.stream result }
        ensures noted { RecordsBlocks (file_blocks_of encoded.now.blocks) (length encoded.now.bytes.items) self.old self.new result }
        ensures known { self.new.known ≡ self.old.known }
    {
        let dictionaries = &encoded.blocks.dictionaries;
        let batches = &encoded.blocks.batches;
        self.blocks.dictionaries.reserve(dictionaries.len())?;
        self.blocks.batches.reserve(batches.len())?;
        self.stream
            .write_with(alloc, &encoded.bytes, &encoded.pending)?;
        self.blocks.dictionaries.extend_from_slice(dictionaries)?;
        self.blocks.batches.extend_from_slice(batches)?;
        self.position += encoded.bytes.len() as u64;
        Ok(())
    }

    // Writes an encoded batch. If it cannot be written, the dictionaries of a reader are put back.
    fn put_or_undo(&mut self, alloc: Global, encoded: EncodedBatch<'_>) -> Result<(), WriteError>
        requires whole { self.old.stream.failed ≡ false }
        requires small { self.old.position + length encoded.bytes.items < 2 ^ 63 }
        ensures put { let e = encoded.entry in
            WritesBytes W.contents None e.bytes.items (with_entries self.old.stream.emitted (map entry_of e.pending.items)) self.old.stream self.new.stream result }
        ensures noted { RecordsBlocks (file_blocks_of encoded.entry.blocks) (length encoded.entry.bytes.items) self.old self.new result }
        ensures known { KeepsOrUndoes (restored encoded.entry.before self.old.known) self.old.known self.new.known result }
    {
        match self.put(alloc, &encoded) {
            Err(WriteError::Ipc(error)) => {
                self.known.undo(encoded.before);
                Err(WriteError::Ipc(error))
            }
            result => result,
        }
    }

    /// Writes the dictionary batches that a record batch needs, then its message and body, as `ipc::write_file` does.
    ///
    /// # Errors
    /// `Ipc` with the first error of the batch, as of `ipc::write_file`; with `Size`, if the file would have 2^63 bytes or more; or `Memory`.
    /// Nothing was written, and the writer is unchanged. `Io` with an error of the inner writer, or `OutOfMemory`, if a dictionary was
    /// written and could not be recorded; a prefix of the batch may have been written, and nothing more will be. `Failed`, if a call failed
    /// with `Io` before.
    pub fn write(&mut self, alloc: Global, batch: &Batch) -> Result<(), WriteError>
        ensures put { WritesFileRecordBatch W.contents (record_batch_of batch.now) self.old self.new result }
        ensures noted { RecordsBatchBlocks (record_batch_of batch.now) self.old self.new result }
        ensures known { RecordsState (file_state_after (file_state_so_far self.old) (record_batch_of batch.now)).state self.old self.new result }
        ensures again { OnOk result (BatchRoundTrips (file_dictionary_batches self.old.stream.emitted (record_batch_of batch.now)) (record_batch_of batch.now)) }
    {
        if self.stream.is_failed() {
            return Err(WriteError::Failed);
        }
        let schema = self.stream.schema();
        let emitted = self.stream.emitted();
        match encode_batch_at(
            alloc,
            self.position,
            schema,
            emitted,
            &mut self.known,
            batch,
        ) {
            Ok(encoded) => self.put_or_undo(alloc, encoded),
            Err(error) => Err(WriteError::Ipc(error)),
        }
    }

    /// Writes the end-of-stream marker, the footer and the magic bytes, flushes the inner writer and returns it.
    ///
    /// The bytes written since `new` are those of `ipc::write_file` for the same record batches.
    ///
    /// # Errors
    /// `Ipc` with `Size`, if the footer exceeds 2^31 - 1 bytes, or with `Memory`; the file then lacks its end. `Io` with an error of the inner
    /// writer. `Failed`, if a call failed with `Io` before.
    pub fn finish(self, alloc: Global) -> Result<W, WriteError>
        ensures ended { FinishesWriting W.contents (trailer_error (footer_of self)) (trailer_bytes (footer_of self)) self.stream result }
        ensures again { OnOk result (FooterRoundTrips (footer_of self)) }
    {
        let FileWriter { stream, blocks, .. } = self;
        if stream.is_failed() {
            return Err(WriteError::Failed);
        }
        match trailer_of(alloc, stream.schema(), &blocks) {
            Ok(bytes) => stream.end(&bytes),
            Err(error) => Err(WriteError::Ipc(error)),
        }
    }
}
