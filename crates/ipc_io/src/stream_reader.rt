//! Reads a stream from a reader, one record batch at a time.
ghost use Rattle.std.specs.Prelude.{◌≡◌, true, false, None, Ok, IfOk};
ghost use Rattle.ipc_schema.specs.Projections.{all, projection_of};
ghost use Rattle.ipc_schema.specs.Schemas.{schema_of};
ghost use Rattle.ipc.specs.Streams.{state_of};
ghost use Rattle.ipc_io.specs.StreamReaders.{FirstIn, ReadsNext, MessageIn, NextIn, Opens};

use crate::error::ReadError;
use crate::fetching::fetch_message;
use ipc::{Batch, DictionaryState, read_message};
use ipc_flatbuf::IpcReadError;
use ipc_schema::{ProjectedSchema, Projection, Schema, projected_schema_in_message};
use std::alloc::Global;
use std::io;
use std::io::{ErrorKind, Read};
use std::marker::Model;

/// A reader of a stream over `Read`, which returns one record batch at a time.
///
/// It holds the schema, the dictionaries read so far and one message. Its results are those of an `ipc::SliceStreamReader` over the same
/// bytes. Bytes after the end-of-stream marker are not read.
#[derive(Drop)]
pub struct StreamReader<R> {
    inner: R,
    state: DictionaryState,
    over: bool,
}

impl<R> Model for StreamReader<R> {
    ghost use Rattle.ipc_io.specs.StreamReaders.{StreamReaderTree, coded_stream_reader};

    ghost Value = { StreamReaderTree R };

    ghost coded = { coded_stream_reader R.code };

    ghost use Rattle.ipc.specs.Streams.{state_of};

    ghost view = { λ r. record { inner = r.inner; state = state_of r.state; over = r.over } };
}

// What a message is: the end of the stream, a dictionary batch, or a record batch.
#[derive(Drop)]
enum Found {
    End,
    Dictionary,
    Next(Batch),
}

// Reads the schema message.
#[tactic(auto, using(crate::proofs::StreamSteps::unfetched_first, crate::proofs::StreamSteps::first_is_missing, crate::proofs::StreamSteps::first_fails, crate::proofs::StreamSteps::first_is))]
pub(crate) fn read_first<R: Read>(
    alloc: Global,
    columns: Projection<'_>,
    reader: &mut R,
) -> Result<ProjectedSchema, ReadError>
    ensures { FirstIn (projection_of columns.entry) (R.remaining reader.old) (R.remaining reader.new) result }
{
    match fetch_message(alloc, reader)? {
        None => Err(ReadError::Ipc(IpcReadError::MissingSchema)),
        Some(first) => {
            match projected_schema_in_message(alloc, columns, Some(first.message())) {
                Err(error) => Err(ReadError::Ipc(error)),
                Ok(picked) => Ok(picked),
            }
        }
    }
}

// Reads the next message.
#[tactic(auto, using(crate::proofs::StreamSteps::unfetched_next, crate::proofs::StreamSteps::found_end, crate::proofs::StreamSteps::found_fails, crate::proofs::StreamSteps::found_dictionary, crate::proofs::StreamSteps::found_batch))]
fn read_found<R: Read>(
    alloc: Global,
    reader: &mut R,
    state: &mut DictionaryState,
) -> Result<Found, ReadError>
    ensures read { MessageIn (state_of state.old) (R.remaining reader.old) (state_of state.new) (R.remaining reader.new) result }
    ensures picked { state.new.picked ≡ state.old.picked }
{
    match fetch_message(alloc, reader)? {
        None => Ok(Found::End),
        Some(next) => match read_message(alloc, state, next.message()) {
            Err(error) => Err(ReadError::Ipc(error)),
            Ok(None) => Ok(Found::Dictionary),
            Ok(Some(batch)) => Ok(Found::Next(batch)),
        },
    }
}

// Reads the next record batch, and the dictionary batches before it into the state.
fn read_next<R: Read>(
    alloc: Global,
    reader: &mut R,
    state: &mut DictionaryState,
) -> Result<Option<Batch>, ReadError>
    ensures next { NextIn (state_of state.old) (R.remaining reader.old) (state_of state.new) (R.remaining reader.new) result }
    ensures picked { state.new.picked ≡ state.old.picked }
{
    'messages: for _turn in 0..u64::MAX {
        match read_found(alloc, reader, state) {
            Err(e) => return Err(e),
            Ok(Found::End) => return Ok(None),
            Ok(Found::Dictionary) => {}
            Ok(Found::Next(batch)) => return Ok(Some(batch)),
        }
    }
    Err(ReadError::Io(io::Error::from(ErrorKind::TimedOut)))
}

impl<R> StreamReader<R> {
    /// Returns the schema of the projected columns.
    pub fn schema(&self) -> &Schema
        ensures { schema_of result.now ≡ self.now.state.picked.schema }
    {
        &self.state.picked.schema
    }

    /// Returns a reference to the inner reader.
    pub fn get_ref(&self) -> &R
        ensures { result.now ≡ self.now.inner }
    {
        &self.inner
    }

    /// Returns the inner reader, which is past the last message that was read.
    pub fn into_inner(self) -> R
        ensures { result ≡ self.inner }
    {
        self.inner
    }
}

impl<R: Read + Drop> StreamReader<R> {
    /// Reads the schema of a stream and returns a reader of all columns.
    ///
    /// # Errors
    /// `Ipc` with the first error of the schema message, or `Memory`. `Io` with an error of the reader.
    pub fn new(alloc: Global, reader: R) -> Result<StreamReader<R>, ReadError>
        ensures { Opens R.remaining all reader result }
    {
        StreamReader::with_projection(alloc, reader, Projection::All)
    }

    /// Returns a reader of the projected columns. The other columns are skipped, even where their data types cannot be read.
    ///
    /// # Errors
    /// Those of `new`.
    pub fn with_projection(
        alloc: Global,
        reader: R,
        columns: Projection<'_>,
    ) -> Result<StreamReader<R>, ReadError>
        ensures { Opens R.remaining (projection_of columns.entry) reader result }
    {
        let mut reader = reader;
        match read_first(alloc, columns, &mut reader) {
            Ok(picked) => {
                let state = DictionaryState::new(alloc, picked);
                Ok(StreamReader {
                    inner: reader,
                    state,
                    over: false,
                })
            }
            Err(e) => Err(e),
        }
    }

    /// Returns the next record batch, or `None` at the end of the stream.
    ///
    /// After the end, or after an error, every call returns `None`. Bytes after the end-of-stream marker stay in the reader.
    ///
    /// # Errors
    /// `Ipc` with the first error of the messages up to the batch, or `Memory`. `Io` with an error of the reader.
    pub fn next_batch(&mut self, alloc: Global) -> Result<Option<Batch>, ReadError>
        ensures next { ReadsNext R.remaining self.old self.new result }
        ensures over { IfOk result (λ next. next ≡ None → self.new.over ≡ true) }
        ensures still { self.old.over ≡ true → (result ≡ Ok None) × (self.new ≡ self.old) }
        ensures rest { self.old.over ≡ false → NextIn self.old.state (R.remaining self.old.inner) self.new.state (R.remaining self.new.inner) result }
    {
        if self.over {
            return Ok(None);
        }
        match read_next(alloc, &mut self.inner, &mut self.state) {
            Ok(next) => {
                self.over = next.is_none();
                Ok(next)
            }
            Err(e) => {
                self.over = true;
                Err(e)
            }
        }
    }
}
