//! Laws and worked examples of what metadata says. Each function has an empty body: its contract is the law.
ghost use Rattle.std.specs.Prelude.{◌≡◌, ℕ, List, None, Ok, Some};
ghost use Rattle.ipc_flatbuf.specs.BatchExamples.{values_of, worked_of};
ghost use Rattle.ipc_flatbuf.specs.CompressionExamples.{lz4_metadata, metadata_with};
ghost use Rattle.ipc_flatbuf.specs.declared.compression.codec.CompressionCodec.TheVariants.{Lz4Frame, Zstd};
ghost use Rattle.ipc_flatbuf.specs.declared.message.types.MessageKind.TheVariants.{RecordBatch};
ghost use Rattle.ipc_schema.specs.declared.footer.types.Block.{Block};
ghost use Rattle.ipc_io.specs.BatchInfos.{message_info, record_batch_info};
ghost use Rattle.ipc_io.specs.FileMetadata.{row_counts_at};
ghost use Rattle.ipc_io.specs.InfoLaws.{root_with, rows_or_error, two_rows};
ghost use Rattle.ipc_io.specs.Infos.{block_infos_in};
ghost use Rattle.ipc_io.specs.declared.batch_info.BatchKind.TheVariants.{Delta, Dictionary, Records};

/// The numbers of rows of the record batches of a file are those that a `FileMetadataReader` returns, and their first error is the same.
pub fn infos_have_the_numbers_of_rows()
    ensures { (bytes : List ℕ) (blocks : List Block) → row_counts_at bytes blocks ≡ rows_or_error (block_infos_in RecordBatch blocks bytes) }
{}

/// The metadata of other writers: a record batch, compressed ones, a dictionary batch and a delta, each of two rows.
pub fn infos_are_read()
    ensures plain { message_info worked_of ≡ Ok (two_rows Records None) }
    ensures lz4 { record_batch_info (root_with 9720) lz4_metadata ≡ Ok (two_rows Records (Some Lz4Frame)) }
    ensures zstd { record_batch_info (root_with 10232) (metadata_with 1) ≡ Ok (two_rows Records (Some Zstd)) }
    ensures dictionary { message_info (values_of 0) ≡ Ok (two_rows Dictionary None) }
    ensures delta { message_info (values_of 1) ≡ Ok (two_rows Delta None) }
{}
