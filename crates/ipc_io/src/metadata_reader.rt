//! Reads the numbers of rows of a file's record batches from their metadata.
ghost use Rattle.std.specs.Prelude.{◌≡◌, ◌<◌, ◌^◌, length, IfErr, IfOk, IfSome, Some};
ghost use Rattle.ipc_flatbuf.specs.ReadResults.{ReturnsOrRunsOut};
ghost use Rattle.ipc_schema.specs.Projections.{projection_of};
ghost use Rattle.ipc_schema.specs.Schemas.{schema_of};
ghost use Rattle.ipc_io.specs.Fetched.{Fetches, IsReadFailure};
ghost use Rattle.ipc_io.specs.Seeks.{KeepsBytes, bytes_of};
ghost use Rattle.ipc_io.specs.FileMetadata.{CountsRows, IsMetadataUnchanged, OpensMetadata, block_front, metadata_at, rows_in_front, rows_in_metadata};
ghost use Rattle.ipc_io.specs.FileReaders.{DecodesAs};

use crate::error::ReadError;
use crate::fetching::{fetch_bytes, fetch_metadata_length};
use crate::file_reader::find_blocks;
use crate::seek_read::SeekRead;
use crate::seeking::read_range;
use ipc_flatbuf::IpcReadError;
use ipc_flatbuf::batch::read_batch;
use ipc_flatbuf::message::{MessageKind, read_root};
use ipc_schema::footer::Block;
use ipc_schema::{Projection, Schema};
use std::alloc::Global;
use std::io::Read;
use std::marker::Model;

/// A reader of the metadata of a file over `Read` and `Seek`.
///
/// It holds the schema and the blocks of the footer. It reads no dictionary, and no body of a record batch.
#[derive(Drop)]
pub struct FileMetadataReader<R> {
    inner: R,
    schema: Schema,
    blocks: Vec<Block>,
}

impl<R> Model for FileMetadataReader<R> {
    ghost use Rattle.ipc_io.specs.FileMetadata.{MetadataReaderTree, coded_metadata_reader};

    ghost Value = { MetadataReaderTree R };

    ghost coded = { coded_metadata_reader R.code };

    ghost use Rattle.ipc_schema.specs.Schemas.{schema_of};

    ghost view = { λ r. record { inner = r.inner; schema = schema_of r.schema; blocks = r.blocks.items } };
}

// Reads the metadata of the next message.
#[tactic(auto, using(crate::proofs::Metadata::length_missing, crate::proofs::Metadata::metadata_read))]
pub(crate) fn fetch_metadata<R: Read>(alloc: Global, reader: &mut R) -> Result<Vec<u8>, ReadError>
    ensures read { Fetches metadata_at (λ v. v.items) (R.remaining reader.old) (R.remaining reader.new) result }
    ensures small { IfOk result (λ v. length v.items < 2 ^ 31) }
{
    let size = fetch_metadata_length(alloc, reader)?;
    fetch_bytes(alloc, reader, size)
}

// Returns the number of rows in the metadata of a record batch. `behind` has the bytes of its block between the metadata and the body.
#[tactic(auto, unfolding(crate::specs::FileMetadata::rows_in_metadata))]
fn read_rows(
    alloc: Global,
    block: Block,
    metadata: &[u8],
    behind: &[u8],
) -> Result<usize, IpcReadError>
    requires { length metadata.now < 2 ^ 31 }
    ensures { ReturnsOrRunsOut (λ rows. rows) result (rows_in_metadata block metadata.now behind.now) }
{
    let root = read_root(metadata)?;
    if !(behind.is_empty() && root.body_length == block.body_length.unsigned_abs() as usize) {
        return Err(IpcReadError::Block);
    }
    match root.kind {
        MessageKind::RecordBatch => {
            let batch = read_batch(alloc, metadata, root.header, root.left, root.body_length)?;
            Ok(batch.rows)
        }
        MessageKind::Schema => Err(IpcReadError::HeaderType),
        MessageKind::DictionaryBatch => Err(IpcReadError::HeaderType),
    }
}

// Returns the number of rows of the record batch of a block. `front` has the bytes of the block before the body.
#[tactic(auto, using(crate::proofs::Metadata::rows_unread, crate::proofs::Metadata::rows_are, crate::proofs::Metadata::rows_fail))]
fn rows_before_body(alloc: Global, block: Block, front: &[u8]) -> Result<usize, ReadError>
    ensures { DecodesAs (λ bytes rows. rows) (rows_in_front block) (Some front.now) result }
{
    let mut rest = front;
    let metadata = fetch_metadata(alloc, &mut rest)?;
    match read_rows(alloc, block, &metadata, rest) {
        Ok(rows) => Ok(rows),
        Err(error) => Err(ReadError::Ipc(error)),
    }
}

// Reads the bytes of a block before the body.
pub(crate) fn read_front<R: SeekRead>(
    alloc: Global,
    reader: &mut R,
    block: Block,
) -> Result<Vec<u8>, ReadError>
    ensures front { IfOk result (λ front. IfSome (bytes_of R.stream_position R.stream_bytes reader.old) (λ bytes. front.items ≡ block_front bytes block)) }
    ensures kept { KeepsBytes R.stream_position R.stream_bytes reader.old reader.new }
    ensures err { IfErr result IsReadFailure }
{
    let position = block.offset.unsigned_abs() as usize;
    let want = block.metadata_length.unsigned_abs() as usize;
    read_range(alloc, reader, position, want)
}

impl<R> FileMetadataReader<R> {
    /// Returns the schema of the projected columns.
    pub fn schema(&self) -> &Schema
        ensures { schema_of result.now ≡ self.now.schema }
    {
        &self.schema
    }

    /// Returns the number of record batches.
    pub fn len(&self) -> usize
        ensures { result ≡ length self.now.blocks }
    {
        self.blocks.len()
    }
}

impl<R: SeekRead + Drop> FileMetadataReader<R> {
    /// Reads the footer of a file and returns a reader of its metadata. The other columns are skipped, even where their data types cannot
    /// be read.
    ///
    /// # Errors
    /// `Ipc` with the first error of the footer, or `Memory`. `Io` with an error of the reader, or `UnexpectedEof`, if it has fewer bytes
    /// than `Seek` returned.
    pub fn with_projection(
        alloc: Global,
        reader: R,
        columns: Projection<'_>,
    ) -> Result<FileMetadataReader<R>, ReadError>
        ensures { OpensMetadata R.stream_position R.stream_bytes (projection_of columns.entry) reader result }
    {
        let mut reader = reader;
        match find_blocks(alloc, columns, &mut reader) {
            Ok(footer) => {
                let picked = footer.picked;
                let blocks = footer.batches;
                Ok(FileMetadataReader {
                    inner: reader,
                    schema: picked.schema,
                    blocks,
                })
            }
            Err(e) => Err(e),
        }
    }

    /// Returns the number of rows of the record batch at index `i` of the footer, from its metadata.
    ///
    /// # Errors
    /// `Ipc` with the first error of the metadata, or `Memory`: `Block`, if the metadata does not fill its part of the block; `HeaderType`,
    /// if it is no record batch. `Io` with an error of the reader, or `UnexpectedEof`. After an error the reader is unchanged, except for
    /// the position of the inner reader.
    pub fn row_count(&mut self, alloc: Global, i: usize) -> Result<usize, ReadError>
        requires { i < length self.old.blocks }
        ensures rows { CountsRows R.stream_position R.stream_bytes i self.old result }
        ensures still { IsMetadataUnchanged R.stream_position R.stream_bytes self.old self.new }
    {
        let block = self.blocks[i];
        let front = read_front(alloc, &mut self.inner, block)?;
        rows_before_body(alloc, block, &front)
    }
}
