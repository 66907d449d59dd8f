//! Writes a stream to a writer, one record batch at a time.
ghost use Rattle.std.specs.Prelude.{◌≡◌, ◌++◌, List, ℕ, None, map, Ok, IfErr, IfOk, OnOk};
ghost use Rattle.ipc_flatbuf.specs.MessageBytes.{end_of_stream};
ghost use Rattle.ipc_schema.specs.Schemas.{schema_of};
ghost use Rattle.ipc_schema.specs.SchemaBytes.{schema_message};
ghost use Rattle.ipc.specs.PendingDictionaries.{with_entries};
ghost use Rattle.ipc.specs.EntriesOf.{entry_of, by_id};
ghost use Rattle.ipc.specs.Streams.{record_batch_of};
ghost use Rattle.ipc.specs.EncodedStreams.{stream_dictionary_batches, schema_error, IsErrorOrMemory, BatchRoundTrips};
ghost use Rattle.ipc_io.specs.Writers.{StartsWriting, FinishesWriting, SchemaRoundTrips, WritesBytes, WritesRecordBatch};

use crate::error::WriteError;
use crate::output::write_all;
use ipc::dictionaries::record_emitted;
use ipc::{Batch, encode_stream_batch};
use ipc_flatbuf::IpcWriteError;
use ipc_schema::{Schema, write_schema_with_dictionaries};
use nest_array::any::AnyArray;
use std::alloc::Global;
use std::collections::BTreeMap;
use std::io;
use std::io::{ErrorKind, Write};
use std::marker::Model;

/// A writer of a stream over `Write`, which takes one record batch at a time.
///
/// It holds the schema, the dictionaries last emitted and the bytes of one record batch. After an `Io` error it writes nothing more.
#[derive(Drop)]
pub struct StreamWriter<W> {
    inner: W,
    schema: Schema,
    emitted: BTreeMap<i64, AnyArray>,
    failed: bool,
}

impl<W> Model for StreamWriter<W> {
    ghost use Rattle.ipc_io.specs.Writers.{WriterTree, coded_writer};

    ghost Value = { WriterTree W };

    ghost coded = { coded_writer W.code };

    ghost use Rattle.ipc_schema.specs.Schemas.{schema_of};
    ghost use Rattle.ipc.specs.EntriesOf.{by_id};

    ghost view = { λ w. record { inner = w.inner; schema = schema_of w.schema; emitted = by_id w.emitted.entries; failed = w.failed } };
}

// Returns the message of a schema, and a clone of the schema.
pub(crate) fn message_of(alloc: Global, schema: &Schema) -> Result<(Vec<u8>, Schema), IpcWriteError>
    ensures bytes { IfOk result (λ x. x.0.items ≡ schema_message (schema_of schema.now)) }
    ensures same { IfOk result (λ x. schema_of x.1 ≡ schema_of schema.now) }
    ensures again { OnOk result (SchemaRoundTrips (schema_of schema.now)) }
    ensures form { OnOk result (schema_error (schema_of schema.now) ≡ None) }
    ensures err { IfErr result (IsErrorOrMemory (schema_error (schema_of schema.now))) }
{
    let message = write_schema_with_dictionaries(alloc, schema)?;
    let copy = schema.clone(alloc)?;
    Ok((message, copy))
}

impl<W> StreamWriter<W> {
    /// Returns the schema of the record batches.
    pub fn schema(&self) -> &Schema
        ensures { schema_of result.now ≡ self.now.schema }
    {
        &self.schema
    }

    /// Returns a reference to the inner writer.
    pub fn get_ref(&self) -> &W
        ensures { result.now ≡ self.now.inner }
    {
        &self.inner
    }

    /// Returns whether a call failed with `Io`; then nothing more is written.
    pub fn is_failed(&self) -> bool
        ensures { result ≡ self.now.failed }
    {
        self.failed
    }

    // Returns the values last emitted for each dictionary id.
    pub(crate) fn emitted(&self) -> &BTreeMap<i64, AnyArray>
        ensures { by_id result.now.entries ≡ self.now.emitted }
    {
        &self.emitted
    }
}

impl<W: Write + Drop> StreamWriter<W> {
    /// Writes the schema message and returns a writer of the stream.
    ///
    /// # Errors
    /// `Ipc` with the first error of the schema, or `Memory`; nothing was written. `Io` with an error of the inner writer.
    pub fn new(alloc: Global, writer: W, schema: &Schema) -> Result<StreamWriter<W>, WriteError>
        ensures begun { StartsWriting W.contents (schema_error (schema_of schema.now)) (schema_message (schema_of schema.now)) (schema_of schema.now) writer result }
        ensures again { OnOk result (SchemaRoundTrips (schema_of schema.now)) }
    {
        match message_of(alloc, schema) {
            Ok((message, schema)) => StreamWriter::begin(alloc, writer, schema, &message),
            Err(error) => Err(WriteError::Ipc(error)),
        }
    }

    // Writes the first bytes of a stream.
    pub(crate) fn begin(
        alloc: Global,
        writer: W,
        schema: Schema,
        bytes: &[u8],
    ) -> Result<StreamWriter<W>, WriteError>
        ensures { StartsWriting W.contents None bytes.now (schema_of schema) writer result }
    {
        let mut writer = writer;
        match write_all(&mut writer, bytes) {
            Ok(()) => Ok(StreamWriter {
                inner: writer,
                schema,
                emitted: BTreeMap::new(alloc),
                failed: false,
            }),
            Err(e) => Err(WriteError::Io(e)),
        }
    }

    // Writes bytes, unless a call failed before.
    fn put(&mut self, bytes: &[u8]) -> Result<(), WriteError>
        ensures { WritesBytes W.contents None bytes.now self.old.emitted self.old self.new result }
    {
        if self.failed {
            return Err(WriteError::Failed);
        }
        match write_all(&mut self.inner, bytes) {
            Ok(()) => Ok(()),
            Err(e) => {
                self.failed = true;
                Err(WriteError::Io(e))
            }
        }
    }

    // Writes bytes that hold these dictionaries, and records them as emitted. If an allocation fails then, the bytes are out, so nothing
    // more may follow.
    pub(crate) fn write_with(
        &mut self,
        alloc: Global,
        bytes: &[u8],
        pending: &[(i64, &AnyArray)],
    ) -> Result<(), WriteError>
        ensures { WritesBytes W.contents None bytes.now (with_entries self.old.emitted (map entry_of pending.now)) self.old self.new result }
    {
        self.put(bytes)?;
        match record_emitted(alloc, &mut self.emitted, pending) {
            Ok(()) => Ok(()),
            Err(_) => {
                self.failed = true;
                Err(WriteError::Io(io::Error::from(ErrorKind::OutOfMemory)))
            }
        }
    }

    /// Writes the pending dictionaries of a record batch, then its message and body, as `ipc::write_stream` does.
    ///
    /// # Errors
    /// `Ipc` with the first error of the batch, or `Memory`; nothing was written, and the writer is unchanged. `Io` with an error of the inner
    /// writer, or `OutOfMemory`, if a dictionary was written and could not be recorded; a prefix of the batch may have been written, and
    /// nothing more will be. `Failed`, if a call failed with `Io` before.
    pub fn write(&mut self, alloc: Global, batch: &Batch) -> Result<(), WriteError>
        ensures put { WritesRecordBatch W.contents (record_batch_of batch.now) self.old self.new result }
        ensures again { OnOk result (BatchRoundTrips (stream_dictionary_batches self.old.emitted (record_batch_of batch.now)) (record_batch_of batch.now)) }
    {
        if self.failed {
            return Err(WriteError::Failed);
        }
        let mut out = Vec::new(alloc);
        match encode_stream_batch(alloc, &mut out, &self.schema.fields, &self.emitted, batch) {
            Ok((_, pending)) => self.write_with(alloc, &out, &pending),
            Err(error) => Err(WriteError::Ipc(error)),
        }
    }

    // Writes the last bytes, flushes the inner writer and returns it.
    pub(crate) fn end(self, bytes: &[u8]) -> Result<W, WriteError>
        ensures { FinishesWriting W.contents None bytes.now self result }
    {
        let mut writer = self;
        writer.put(bytes)?;
        match writer.inner.flush() {
            Ok(()) => Ok(writer.inner),
            Err(e) => Err(WriteError::Io(e)),
        }
    }

    /// Writes the end-of-stream marker, flushes the inner writer and returns it.
    ///
    /// The bytes written since `new` are those of `ipc::write_stream` for the same record batches.
    ///
    /// # Errors
    /// `Io` with an error of the inner writer. `Failed`, if a call failed with `Io` before.
    pub fn finish(self) -> Result<W, WriteError>
        ensures { FinishesWriting W.contents None end_of_stream self result }
    {
        self.end(&[255, 255, 255, 255, 0, 0, 0, 0])
    }
}
