//! Theorems and worked examples about record batches and dictionary batches, as functions with empty bodies.
ghost use Rattle.std.specs.Prelude.{◌≡◌, ◌<◌, ◌^◌, ◌++◌, List, ℕ, ℤ, pos, Bool, true, false, [], ◌∷◌, Some, Ok, Err};
ghost use Rattle.std.specs.Int.{w8, w64};
ghost use Rattle.std.specs.Int.RustNames.{FitsSigned};
ghost use Rattle.ipc_flatbuf.specs.Flatbuffers.{number_at, signed_at, field, spec_offset_field, spec_read_table};
ghost use Rattle.ipc_flatbuf.specs.Messages.{message_at};
ghost use Rattle.ipc_flatbuf.specs.Batches.{BatchModel, batch_at};
ghost use Rattle.ipc_flatbuf.specs.BatchExamples.{worked_message, worked_body, worked_of, worked_tree, values_message, values_body, values_of, values_table, values_tree};
ghost use Rattle.ipc_flatbuf.specs.declared.error.IpcReadError.TheVariants.{BufferRange, BufferSum, RowCount, UnsupportedCompression};
ghost use Rattle.ipc_flatbuf.specs.BatchErrorExamples.{batch_bytes, no_rows};
ghost use Rattle.ipc_flatbuf.specs.VariadicBuffers.{variadic_buffer_counts_at};
ghost use Rattle.ipc_flatbuf.specs.CompressionExamples.{lz4_metadata, lz4_tree, metadata_with, zstd_tree};
ghost use Rattle.ipc_flatbuf.specs.BatchLaws.{BatchFits, BatchRoundTripsWithBodies};
ghost use Rattle.ipc_flatbuf.specs.DictionaryBytes.{dictionary_message};
ghost use Rattle.ipc_flatbuf.specs.DictionaryLaws.{DictionaryRoundTripsWithBodies};

/// A record batch whose buffers are within its body round-trips, whatever bytes follow the body.
pub fn batches_round_trip()
    ensures { (b : BatchModel) (long : ℕ) → BatchFits b → long < 2 ^ 63 → BatchRoundTripsWithBodies b long }
{}

/// The bytes of another writer decode to a record batch of two rows.
pub fn batch_is_read()
    ensures message { message_at (worked_message ++ worked_body) ≡ Ok (Some worked_of, []) }
    ensures batch { batch_at worked_of.metadata worked_of.root.header worked_of.root.left worked_of.root.body_length ≡ Ok worked_tree }
{}

/// The metadata of another writer decodes to compressed record batches. An absent codec is LZ4, 1 is Zstandard, and 2 is an error.
pub fn compression_is_read()
    ensures lz4 { batch_at lz4_metadata 56 9720 56 ≡ Ok lz4_tree }
    ensures zstd { batch_at (metadata_with 1) 56 10232 56 ≡ Ok zstd_tree }
    ensures unknown { batch_at (metadata_with 2) 56 10232 56 ≡ Err UnsupportedCompression }
{}

/// A dictionary batch whose buffers are within its body round-trips, with its id and `isDelta`.
pub fn dictionaries_round_trip()
    ensures { (delta : Bool) (id : ℤ) (b : BatchModel) (long : ℕ) → FitsSigned w64 id → BatchFits b → long < 2 ^ 63 → DictionaryRoundTripsWithBodies delta id b long }
{}

/// A worked example: the bytes of a dictionary of two values, and each step of reading them. `isDelta` is false.
pub fn dictionary_is_written()
    ensures written { dictionary_message false (pos 515) values_tree 8 ≡ values_message 0 }
    ensures message { message_at (values_message 0 ++ values_body) ≡ Ok (Some (values_of 0), []) }
    ensures table { spec_read_table (values_of 0).metadata (values_of 0).root.header (values_of 0).root.left ≡ Ok (values_table, 11248) }
    ensures id { field (signed_at w64 (values_of 0).metadata) (pos 0) (values_of 0).metadata values_table 0 ≡ Ok (pos 515) }
    ensures position { spec_offset_field (values_of 0).metadata values_table 1 ≡ Ok (Some 96) }
    ensures no_delta { field (number_at w8 (values_of 0).metadata) 0 (values_of 0).metadata values_table 2 ≡ Ok 0 }
    ensures batch { batch_at (values_of 0).metadata 96 11248 (values_of 0).root.body_length ≡ Ok values_tree }
{}

/// The same values as a delta: only the byte of `isDelta` differs, and it is read as 1.
pub fn delta_is_written()
    ensures written { dictionary_message true (pos 515) values_tree 8 ≡ values_message 1 }
    ensures message { message_at (values_message 1 ++ values_body) ≡ Ok (Some (values_of 1), []) }
    ensures table { spec_read_table (values_of 1).metadata (values_of 1).root.header (values_of 1).root.left ≡ Ok (values_table, 11248) }
    ensures delta { field (number_at w8 (values_of 1).metadata) 0 (values_of 1).metadata values_table 2 ≡ Ok 1 }
{}

/// The first error of the metadata of a record batch, with errors in all that is read after it: the number of rows, the codec, and the buffers.
/// An absent number of rows is 0.
pub fn invalid_batches_fail()
    ensures read { batch_at (batch_bytes 16 0 1 0) 16 1000 8 ≡ Ok no_rows }
    ensures absent { batch_at (batch_bytes 0 255 1 0) 16 1000 8 ≡ Ok no_rows }
    ensures rows { batch_at (batch_bytes 16 255 2 9) 16 1000 8 ≡ Err RowCount }
    ensures codec { batch_at (batch_bytes 16 0 2 9) 16 1000 8 ≡ Err UnsupportedCompression }
    ensures range { batch_at (batch_bytes 16 0 1 9) 16 1000 8 ≡ Err BufferRange }
    ensures sum { batch_at (batch_bytes 16 0 1 8) 16 1000 8 ≡ Err BufferSum }
    ensures counts { variadic_buffer_counts_at (batch_bytes 16 0 1 0) 16 1000 ≡ Ok (pos 0 ∷ pos 8 ∷ []) }
{}
