//! Reads a stream in memory one record batch at a time.
ghost use Rattle.std.specs.Prelude.{◌≡◌, [], None, Ok, IfErr, IfOk};
ghost use Rattle.std.specs.Option.{option_map};
ghost use Rattle.ipc_flatbuf.specs.ReadResults.{ReturnsOrRunsOut};
ghost use Rattle.ipc_schema.specs.Projections.{all, projection_of};
ghost use Rattle.ipc_schema.specs.Schemas.{schema_of};
ghost use Rattle.ipc.specs.Streams.{record_batch_of};
ghost use Rattle.ipc.specs.SliceStreamReaders.{next_of, reader_in};

use crate::batch::Batch;
use crate::reading::next_batch;
use crate::state::DictionaryState;
use ipc_flatbuf::IpcReadError;
use ipc_schema::{Projection, Schema, read_projected_schema};
use std::alloc::Global;
use std::marker::Model;

/// A reader of a stream in memory, which returns one record batch at a time.
///
/// It holds the schema, the dictionaries read so far and the rest of the bytes. Its batches are those that `read_stream` returns, up to
/// the first error.
#[derive(Drop)]
pub struct SliceStreamReader<'a> {
    state: DictionaryState,
    left: &'a [u8],
}

impl<'a> Model for SliceStreamReader<'a> {
    ghost use Rattle.ipc.specs.SliceStreamReaders.{SliceStreamReaderTree, coded_reader};

    ghost Value = { SliceStreamReaderTree };

    ghost coded = { coded_reader };

    ghost use Rattle.ipc.specs.Streams.{state_of};

    ghost view = { λ r. record { state = state_of r.state; left = r.left.now } };
}

impl<'a> SliceStreamReader<'a> {
    /// Reads the schema at the start of `bytes` and returns a reader of all columns.
    ///
    /// # Errors
    /// The first error of the schema message, or `Memory`.
    pub fn new(alloc: Global, bytes: &'a [u8]) -> Result<SliceStreamReader<'a>, IpcReadError>
        ensures { ReturnsOrRunsOut (λ r. r) result (reader_in all bytes.now) }
    {
        SliceStreamReader::with_projection(alloc, bytes, Projection::All)
    }

    /// Returns a reader of the projected columns. The other columns are skipped, even where their data types cannot be read.
    ///
    /// # Errors
    /// Those of `new`.
    #[tactic(auto, unfolding(crate::specs::SliceStreamReaders::reader_in))]
    pub fn with_projection(
        alloc: Global,
        bytes: &'a [u8],
        columns: Projection<'_>,
    ) -> Result<SliceStreamReader<'a>, IpcReadError>
        ensures { ReturnsOrRunsOut (λ r. r) result (reader_in (projection_of columns.entry) bytes.now) }
    {
        let (picked, left) = read_projected_schema(alloc, columns, bytes)?;
        let state = DictionaryState::new(alloc, picked);
        Ok(SliceStreamReader { state, left })
    }

    /// Returns the schema of the projected columns.
    pub fn schema(&self) -> &Schema
        ensures { schema_of result.now ≡ self.now.state.picked.schema }
    {
        &self.state.picked.schema
    }

    /// Returns the next record batch, or `None` at the end of the stream.
    ///
    /// Dictionary batches before it are read and remembered. After the end, or after an error, every call returns `None`.
    ///
    /// # Errors
    /// The first error of the messages up to the batch, or `Memory`.
    #[tactic(auto, using(crate::proofs::AtEnd::at_end), unfolding(crate::specs::SliceStreamReaders::next_of))]
    pub fn next_batch(&mut self, alloc: Global) -> Result<Option<Batch>, IpcReadError>
        ensures next { ReturnsOrRunsOut (λ b. (option_map record_batch_of b, self.new)) result (next_of self.old) }
        ensures end { IfOk result (λ next. next ≡ None → self.new.left ≡ []) }
        ensures over { IfErr result (λ _. self.new.left ≡ []) }
        ensures still { self.old.left ≡ [] → (result ≡ Ok None) × (self.new ≡ self.old) }
        ensures schema { self.new.state.picked ≡ self.old.state.picked }
    {
        if self.left.is_empty() {
            return Ok(None);
        }
        match next_batch(alloc, &mut self.state, self.left) {
            Err(error) => {
                self.left = &[];
                Err(error)
            }
            Ok((next, rest)) => {
                self.left = if next.is_some() { rest } else { &[] };
                Ok(next)
            }
        }
    }
}
