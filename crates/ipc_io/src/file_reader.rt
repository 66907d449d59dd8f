//! Reads a file from a reader that seeks, one record batch at a time.
ghost use Rattle.std.specs.Prelude.{◌≡◌, ◌<◌, ◌^◌, length, IfErr, IfOk, IfSome};
ghost use Rattle.ipc_schema.specs.Projections.{all, projection_of};
ghost use Rattle.ipc_schema.specs.Schemas.{schema_of};
ghost use Rattle.ipc_schema.specs.Footers.{spec_block_bytes};
ghost use Rattle.ipc_schema.specs.ProjectedFooters.{projected_footer_in};
ghost use Rattle.ipc.specs.Streams.{state_of};
ghost use Rattle.ipc.specs.Files.{file_reader_in};
ghost use Rattle.ipc_io.specs.Fetched.{IsReadFailure};
ghost use Rattle.ipc_io.specs.Seeks.{KeepsBytes, bytes_of};
ghost use Rattle.ipc_io.specs.FileReaders.{DecodesAs, OpensFile, ReadsBatch, ReadsDictionaries, IsUnchanged, as_footer, as_span, footer_span, slice_reader};

use crate::error::ReadError;
use crate::seek_read::SeekRead;
use crate::seeking::{read_range, stream_len};
use ipc::{Batch, DictionaryState, read_batch_block, read_dictionary_block};
use ipc_schema::footer::{Block, ProjectedFooter, block_length, footer_length, read_footer_at};
use ipc_schema::{Projection, Schema};
use std::alloc::Global;
use std::marker::Model;

/// A reader of a file over `Read` and `Seek`, which returns its record batches in any order.
///
/// It holds the schema, all dictionaries and the blocks of the footer, and reads one record batch at a time. Its results are those of an
/// `ipc::SliceFileReader` over the same bytes. Nothing is read past the end of the reader.
#[derive(Drop)]
pub struct FileReader<R> {
    inner: R,
    state: DictionaryState,
    blocks: Vec<Block>,
}

impl<R> Model for FileReader<R> {
    ghost use Rattle.ipc_io.specs.FileReaders.{FileReaderTree, coded_io_file_reader};

    ghost Value = { FileReaderTree R };

    ghost coded = { coded_io_file_reader R.code };

    ghost use Rattle.ipc.specs.Streams.{state_of};

    ghost view = { λ r. record { inner = r.inner; state = state_of r.state; blocks = r.blocks.items } };
}

// Returns the position of the footer of a file, and its length.
fn find_footer<R: SeekRead>(alloc: Global, reader: &mut R) -> Result<(usize, usize), ReadError>
    ensures found { DecodesAs as_span footer_span (bytes_of R.stream_position R.stream_bytes reader.old) result }
    ensures small { IfOk result (λ x. x.1 < 2 ^ 31) }
    ensures kept { KeepsBytes R.stream_position R.stream_bytes reader.old reader.new }
{
    let size = stream_len(reader)?;
    let first = size.saturating_sub(6);
    let head = read_range(alloc, reader, 0, size - first)?;
    let last = size.saturating_sub(10);
    let tail = read_range(alloc, reader, last, size - last)?;
    let long = footer_length(size, &head, &tail)?;
    Ok((size - (10 + long), long))
}

// Reads the footer of a file.
pub(crate) fn find_blocks<R: SeekRead>(
    alloc: Global,
    columns: Projection<'_>,
    reader: &mut R,
) -> Result<ProjectedFooter, ReadError>
    ensures footer { DecodesAs as_footer (projected_footer_in (projection_of columns.entry)) (bytes_of R.stream_position R.stream_bytes reader.old) result }
    ensures kept { KeepsBytes R.stream_position R.stream_bytes reader.old reader.new }
{
    let span = find_footer(alloc, reader)?;
    let own = read_range(alloc, reader, span.0, span.1)?;
    match read_footer_at(alloc, columns, &own, span.0) {
        Ok(footer) => Ok(footer),
        Err(error) => Err(ReadError::Ipc(error)),
    }
}

// Reads the bytes of a block.
fn read_block<R: SeekRead>(
    alloc: Global,
    reader: &mut R,
    block: Block,
) -> Result<Vec<u8>, ReadError>
    ensures own { IfOk result (λ own. IfSome (bytes_of R.stream_position R.stream_bytes reader.old) (λ bytes. own.items ≡ spec_block_bytes bytes block)) }
    ensures kept { KeepsBytes R.stream_position R.stream_bytes reader.old reader.new }
    ensures err { IfErr result IsReadFailure }
{
    let position = block.offset.unsigned_abs() as usize;
    read_range(alloc, reader, position, block_length(block))
}

// Reads the dictionary batches of these blocks into the state.
fn read_dictionaries<R: SeekRead>(
    alloc: Global,
    reader: &mut R,
    state: &mut DictionaryState,
    blocks: &[Block],
) -> Result<(), ReadError>
    ensures known { ReadsDictionaries R.stream_position R.stream_bytes (state_of state.old) blocks.now reader.old (state_of state.new) result }
    ensures kept { KeepsBytes R.stream_position R.stream_bytes reader.old reader.new }
{
    for block in blocks {
        let own = read_block(alloc, reader, *block)?;
        read_dictionary_block(alloc, state, &own, *block)?;
    }
    Ok(())
}

// Reads the footer and all dictionaries of a file: the state after them, and the blocks of the record batches.
fn read_front<R: SeekRead>(
    alloc: Global,
    columns: Projection<'_>,
    reader: &mut R,
) -> Result<(DictionaryState, Vec<Block>), ReadError>
    ensures front { DecodesAs (λ xs x. slice_reader xs (state_of x.0) x.1.items) (file_reader_in (projection_of columns.entry)) (bytes_of R.stream_position R.stream_bytes reader.old) result }
    ensures kept { KeepsBytes R.stream_position R.stream_bytes reader.old reader.new }
{
    let footer = find_blocks(alloc, columns, reader)?;
    let mut state = DictionaryState::new(alloc, footer.picked);
    let batches = footer.batches;
    match read_dictionaries(alloc, reader, &mut state, &footer.dictionaries) {
        Ok(()) => Ok((state, batches)),
        Err(e) => Err(e),
    }
}

impl<R> FileReader<R> {
    /// Returns the schema of the projected columns.
    pub fn schema(&self) -> &Schema
        ensures { schema_of result.now ≡ self.now.state.picked.schema }
    {
        &self.state.picked.schema
    }

    /// Returns the number of record batches.
    pub fn len(&self) -> usize
        ensures { result ≡ length self.now.blocks }
    {
        self.blocks.len()
    }

    /// Returns a reference to the inner reader.
    pub fn get_ref(&self) -> &R
        ensures { result.now ≡ self.now.inner }
    {
        &self.inner
    }

    /// Returns the inner reader. Its position is unspecified.
    pub fn into_inner(self) -> R
        ensures { result ≡ self.inner }
    {
        self.inner
    }
}

impl<R: SeekRead + Drop> FileReader<R> {
    /// Reads the footer and the dictionaries of a file and returns a reader of all columns.
    ///
    /// # Errors
    /// `Ipc` with the first error of the footer or of a dictionary, or `Memory`. `Io` with an error of the reader, or `UnexpectedEof`, if it
    /// has fewer bytes than `Seek` returned.
    pub fn new(alloc: Global, reader: R) -> Result<FileReader<R>, ReadError>
        ensures { OpensFile R.stream_position R.stream_bytes all reader result }
    {
        FileReader::with_projection(alloc, reader, Projection::All)
    }

    /// Returns a reader of the projected columns. The other columns are skipped, even where their data types cannot be read.
    ///
    /// # Errors
    /// Those of `new`.
    pub fn with_projection(
        alloc: Global,
        reader: R,
        columns: Projection<'_>,
    ) -> Result<FileReader<R>, ReadError>
        ensures { OpensFile R.stream_position R.stream_bytes (projection_of columns.entry) reader result }
    {
        let mut reader = reader;
        match read_front(alloc, columns, &mut reader) {
            Ok((state, blocks)) => Ok(FileReader {
                inner: reader,
                state,
                blocks,
            }),
            Err(e) => Err(e),
        }
    }

    /// Reads the record batch at index `i` of the footer.
    ///
    /// # Errors
    /// `Ipc` with the first error of the batch, or `Memory`. `Io` with an error of the reader, or `UnexpectedEof`. After an error the reader is
    /// unchanged, except for the position of the inner reader, and any batch can be read.
    pub fn batch(&mut self, alloc: Global, i: usize) -> Result<Batch, ReadError>
        requires { i < length self.old.blocks }
        ensures batch { ReadsBatch R.stream_position R.stream_bytes i self.old result }
        ensures still { IsUnchanged R.stream_position R.stream_bytes self.old self.new }
    {
        let block = self.blocks[i];
        let own = read_block(alloc, &mut self.inner, block)?;
        match read_batch_block(alloc, &self.state, &own, block) {
            Ok(batch) => Ok(batch),
            Err(error) => Err(ReadError::Ipc(error)),
        }
    }
}
