//! Reads a file in memory, all of it or one record batch at a time.
ghost use Rattle.std.specs.Prelude.{◌≡◌, ◌<◌, true, length, map};
ghost use Rattle.std.specs.List.{list_all};
ghost use Rattle.ipc_flatbuf.specs.ReadResults.{ReturnsOrRunsOut};
ghost use Rattle.ipc_schema.specs.Projections.{all, projection_of};
ghost use Rattle.ipc_schema.specs.Schemas.{schema_of};
ghost use Rattle.ipc_schema.specs.Footers.{is_block_before};
ghost use Rattle.ipc.specs.Streams.{record_batch_of, state_of};
ghost use Rattle.ipc.specs.Files.{dictionaries_at, file_reader_in, batch_of_file, batches_of_file, projected_file_in, file_in, file_of};

use crate::batch::Batch;
use crate::block::{read_batch_block, read_dictionary_block};
use crate::state::DictionaryState;
use ipc_flatbuf::IpcReadError;
use ipc_schema::footer::{Block, block_bytes, read_footer};
use ipc_schema::{Projection, Schema};
use std::alloc::Global;
use std::marker::Model;

/// A file that has been read.
#[derive(Drop)]
pub struct File {
    /// The schema of the projected columns.
    pub schema: Schema,
    /// The record batches, in the order of the footer.
    pub batches: Vec<Batch>,
}

// Reads the dictionary batches of these blocks into the state.
fn read_dictionaries(
    alloc: Global,
    state: &mut DictionaryState,
    bytes: &[u8],
    blocks: &[Block],
) -> Result<(), IpcReadError>
    requires { list_all (is_block_before (length bytes.now)) blocks.now ≡ true }
    ensures { ReturnsOrRunsOut (λ done. state_of state.new) result (dictionaries_at (state_of state.old) bytes.now blocks.now) }
{
    for block in blocks {
        read_dictionary_block(alloc, state, block_bytes(bytes, *block), *block)?;
    }
    Ok(())
}

/// A reader of a file in memory, which returns its record batches in any order.
///
/// It holds the schema, all dictionaries and the blocks of the footer. Its batches are those that `read_file` returns.
#[derive(Drop)]
pub struct SliceFileReader<'a> {
    state: DictionaryState,
    bytes: &'a [u8],
    blocks: Vec<Block>,
}

impl<'a> Model for SliceFileReader<'a> {
    ghost use Rattle.ipc.specs.Files.{SliceFileReaderTree, coded_file_reader};

    ghost Value = { SliceFileReaderTree };

    ghost coded = { coded_file_reader };

    ghost use Rattle.std.specs.Prelude.{◌≡◌, length, true};
    ghost use Rattle.std.specs.List.{list_all};
    ghost use Rattle.ipc_schema.specs.Footers.{is_block_before};
    ghost use Rattle.ipc.specs.Streams.{state_of};

    ghost view = { λ r. record { state = state_of r.state; bytes = r.bytes.now; blocks = r.blocks.items } };

    ghost invariant = { λ r. list_all (is_block_before (length r.bytes.now)) r.blocks.items ≡ true };
}

impl<'a> SliceFileReader<'a> {
    /// Reads the footer and the dictionaries of a file and returns a reader of all columns.
    ///
    /// # Errors
    /// The first error of the footer or of a dictionary, or `Memory`.
    pub fn new(alloc: Global, bytes: &'a [u8]) -> Result<SliceFileReader<'a>, IpcReadError>
        ensures { ReturnsOrRunsOut (λ r. r) result (file_reader_in all bytes.now) }
    {
        SliceFileReader::with_projection(alloc, bytes, Projection::All)
    }

    /// Returns a reader of the projected columns. The other columns are skipped, even where their data types cannot be read.
    ///
    /// # Errors
    /// Those of `new`.
    #[tactic(auto, unfolding(crate::specs::Files::file_reader_in))]
    pub fn with_projection(
        alloc: Global,
        bytes: &'a [u8],
        columns: Projection<'_>,
    ) -> Result<SliceFileReader<'a>, IpcReadError>
        ensures { ReturnsOrRunsOut (λ r. r) result (file_reader_in (projection_of columns.entry) bytes.now) }
    {
        let footer = read_footer(alloc, columns, bytes)?;
        let mut state = DictionaryState::new(alloc, footer.picked);
        let blocks = footer.batches;
        match read_dictionaries(alloc, &mut state, bytes, &footer.dictionaries) {
            Err(error) => Err(error),
            Ok(()) => Ok(SliceFileReader {
                state,
                bytes,
                blocks,
            }),
        }
    }

    /// Returns the schema of the projected columns.
    pub fn schema(&self) -> &Schema
        ensures { schema_of result.now ≡ self.now.state.picked.schema }
    {
        &self.state.picked.schema
    }

    /// Returns the number of record batches.
    pub fn len(&self) -> usize
        ensures { result ≡ length self.now.blocks }
    {
        self.blocks.len()
    }

    /// Returns the record batch at index `i` of the footer. Every call with the same index returns the same batch.
    ///
    /// # Errors
    /// The first error of the batch, or `Memory`.
    pub fn batch(&self, alloc: Global, i: usize) -> Result<Batch, IpcReadError>
        requires { i < length self.now.blocks }
        ensures { ReturnsOrRunsOut record_batch_of result (batch_of_file self.now i) }
    {
        let block = self.blocks[i];
        read_batch_block(alloc, &self.state, block_bytes(self.bytes, block), block)
    }

    // Returns all record batches, in the order of the footer.
    fn batches(&self, alloc: Global) -> Result<Vec<Batch>, IpcReadError>
        ensures { ReturnsOrRunsOut (λ v. map record_batch_of v.items) result (batches_of_file self.now) }
    {
        let mut batches = Vec::new(alloc);
        for i in 0..self.len() {
            let batch = self.batch(alloc, i)?;
            batches.push(batch)?;
        }
        Ok(batches)
    }
}

/// Reads a file: the schema of its footer, its dictionaries, then its record batches in the order of the footer.
///
/// # Errors
/// The first error in that order, or `Memory`.
pub fn read_file(alloc: Global, bytes: &[u8]) -> Result<File, IpcReadError>
    ensures { ReturnsOrRunsOut file_of result (file_in bytes.now) }
{
    read_file_projected(alloc, bytes, Projection::All)
}

/// Reads the projected columns of a file. The other columns are skipped, even where their data types cannot be read.
///
/// # Errors
/// Those of `read_file`.
#[tactic(auto, unfolding(crate::specs::Files::projected_file_in))]
pub fn read_file_projected(
    alloc: Global,
    bytes: &[u8],
    columns: Projection<'_>,
) -> Result<File, IpcReadError>
    ensures { ReturnsOrRunsOut file_of result (projected_file_in (projection_of columns.entry) bytes.now) }
{
    let reader = SliceFileReader::with_projection(alloc, bytes, columns)?;
    match reader.batches(alloc) {
        Err(error) => Err(error),
        Ok(batches) => Ok(File {
            schema: reader.state.picked.schema,
            batches,
        }),
    }
}
