//! Laws of readers and writers over `Read`, `Write` and `Seek`. Each function has an empty body: its contract is the law.
ghost use Rattle.std.specs.Prelude.{◌≡◌, ℕ, List, [], None, Some, Ok};
ghost use Rattle.std.specs.Io.KnownBytes.{Appends};
ghost use Rattle.ipc_schema.specs.Projections.{ProjectionModel};
ghost use Rattle.ipc_schema.specs.Schemas.{SchemaModel};
ghost use Rattle.ipc.specs.Streams.{RecordBatchTree};
ghost use Rattle.ipc.specs.Files.{FileTree, file_in, projected_file_in};
ghost use Rattle.ipc.specs.EncodedStreams.{encoded_stream, decoded_batches, AreSameBatches};
ghost use Rattle.ipc.specs.EncodedFiles.{encoded_file, file_error, decoded_file, HasNoDeltas};
ghost use Rattle.ipc_io.specs.WriterLaws.{IsFinished, StreamRoundTrips, FailedStreamIsPrefix, FailedWriterWritesNothing};
ghost use Rattle.ipc_io.specs.FileWriterLaws.{IsFinishedFile, FailedFileIsPrefix, FinishesUnlessFooterIsTooLong, RefusalKeepsWriter, FailureKeepsWriter};
ghost use Rattle.ipc_io.specs.ReaderLaws.{ReadsStream, ReadsStreamError};
ghost use Rattle.ipc_io.specs.FileReaderLaws.{ReadsFile, ReadsFileError};
ghost use Rattle.ipc_io.specs.FileMetadata.{row_counts_in, row_counts_of};

use crate::seek_read::SeekRead;
use std::io::{Read, Write};

/// The bytes that a stream writer writes from `new` to `finish` are those of `ipc::write_stream` for the same record batches.
pub fn finished_writer_wrote_its_stream<W: Write>()
    ensures { (s : SchemaModel) (bs : List RecordBatchTree) (start end : W) → IsFinished W.contents s bs start end → Appends (W.contents start) (W.contents end) (encoded_stream s bs) }
{}

/// Reading these bytes returns the schema and the same record batches, whatever bytes follow.
pub fn written_stream_round_trips<W: Write>()
    ensures read { StreamRoundTrips W.contents }
    ensures same { (s : SchemaModel) (bs : List RecordBatchTree) (start end : W) → IsFinished W.contents s bs start end → AreSameBatches bs (decoded_batches bs) }
{}

/// When a stream writer fails in a record batch, it has written a prefix of the stream, whatever batches were to follow.
pub fn failed_writer_wrote_a_prefix_of_its_stream<W: Write>()
    ensures { FailedStreamIsPrefix W.contents }
{}

/// The bytes that a file writer writes from `new` to `finish` are those of `ipc::write_file` for the same record batches. An inner writer
/// that was empty has just these.
pub fn finished_writer_wrote_its_file<W: Write>()
    ensures put { (s : SchemaModel) (bs : List RecordBatchTree) (start end : W) → IsFinishedFile W.contents s bs start end → Appends (W.contents start) (W.contents end) (encoded_file s bs) }
    ensures alone { (s : SchemaModel) (bs : List RecordBatchTree) (start end : W) → W.contents start ≡ Some [] → IsFinishedFile W.contents s bs start end → W.contents end ≡ Some (encoded_file s bs) }
    ensures form { (s : SchemaModel) (bs : List RecordBatchTree) (start end : W) → IsFinishedFile W.contents s bs start end → file_error s bs ≡ None }
{}

/// Reading these bytes returns the schema and the same record batches. Without deltas they are those of the stream.
pub fn written_file_round_trips<W: Write>()
    ensures read { (s : SchemaModel) (bs : List RecordBatchTree) (start end : W) → IsFinishedFile W.contents s bs start end → file_in (encoded_file s bs) ≡ Ok (decoded_file s bs) }
    ensures same { (s : SchemaModel) (bs : List RecordBatchTree) (start end : W) → IsFinishedFile W.contents s bs start end → AreSameBatches bs (decoded_file s bs).batches }
    ensures plain { (s : SchemaModel) (bs : List RecordBatchTree) (start end : W) → IsFinishedFile W.contents s bs start end → HasNoDeltas [] bs → (decoded_file s bs).batches ≡ decoded_batches bs }
{}

/// The footer of a file that was started cannot be written only if it is too long, or an allocation fails.
pub fn file_finishes_unless_its_footer_is_too_long<W: Write>()
    ensures { FinishesUnlessFooterIsTooLong W.contents }
{}

/// When a file writer fails in a record batch, it has written a prefix of the file, whatever batches were to follow.
pub fn failed_writer_wrote_a_prefix_of_its_file<W: Write>()
    ensures { FailedFileIsPrefix W.contents }
{}

/// A writer that failed writes nothing more and returns `Failed`.
pub fn failed_writer_writes_nothing<W: Write>()
    ensures { FailedWriterWritesNothing W.contents }
{}

/// A record batch that cannot be written leaves a file writer unchanged, with its blocks and dictionaries. A file writer that failed writes
/// nothing more and returns `Failed`.
pub fn refused_batch_leaves_the_file_writer_unchanged<W: Write>()
    ensures refused { RefusalKeepsWriter W.contents }
    ensures failed { FailureKeepsWriter W.contents }
{}

/// The record batches that a reader returns until its end are those of the stream in its bytes.
pub fn reader_returns_the_batches_of_its_stream<R: Read>()
    ensures { ReadsStream R.remaining }
{}

/// The error that a reader returns after any record batches is that of the stream in its bytes.
pub fn reader_returns_the_error_of_its_stream<R: Read>()
    ensures { ReadsStreamError R.remaining }
{}

/// The record batches that a reader returns in the order of the footer are those of the file in its bytes.
pub fn reader_returns_the_batches_of_its_file<R: SeekRead>()
    ensures { ReadsFile R.stream_position R.stream_bytes }
{}

/// The error that a reader returns after any of them is that of the file in its bytes.
pub fn reader_returns_the_error_of_its_file<R: SeekRead>()
    ensures { ReadsFileError R.stream_position R.stream_bytes }
{}

/// If the record batches of a file decode, its metadata has the same schema and the same numbers of rows.
pub fn metadata_has_the_numbers_of_rows()
    ensures { (picks : ProjectionModel) (bytes : List ℕ) (f : FileTree) → projected_file_in picks bytes ≡ Ok f → row_counts_in picks bytes ≡ Ok (row_counts_of f) }
{}
