//! Worked examples of record batches that are converted, and theorems about them, stated as the contracts of functions that do nothing.
ghost use Rattle.std.specs.Prelude.{◌≡◌, ◌∷◌, ◌++◌, [], None, Some, Ok, Err, replicate, pos, false};
ghost use Rattle.ipc_flatbuf.specs.declared.compression.codec.CompressionCodec.TheVariants.{Lz4Frame};
ghost use Rattle.ipc_flatbuf.specs.declared.error.IpcReadError.TheVariants.{BufferCount, BufferTooShort, View};
ghost use Rattle.ipc_flatbuf.specs.declared.projection.StoredArray.TheVariants as arrays;
ghost use Rattle.ipc_arrays.specs.Stored.{converted_batch};
ghost use Rattle.ipc_arrays.specs.StoredLaws.{ViewsAreRead};
ghost use Rattle.ipc_arrays.specs.StoredExamples.{node, at, ahead, word, third_view, skipped_field, views_body, views_ahead, views_read, compressed_body, compressed_ahead, compressed_read, decimals_body, decimals_ahead, decimals_read, skipped_ahead, skipped_body, skipped_read};

/// A Utf8View column of "a", a null, and a string of 14 bytes in its second variadic buffer. Padding and the view of the null are not read.
pub fn views_are_converted()
    ensures { converted_batch None (arrays.View ∷ []) (views_body (third_view 1 2)) views_ahead ≡ Ok views_read }
{}

/// The view of a valid slot is rejected if its prefix is not that of the string, its length is negative, or it ends after its buffer, and
/// if there is no such buffer.
pub fn invalid_views_are_rejected()
    ensures prefix { converted_batch None (arrays.View ∷ []) (views_body (word 14 ++ (98 ∷ 99 ∷ 100 ∷ 102 ∷ word 1 ++ word 2))) views_ahead ≡ Err View }
    ensures length { converted_batch None (arrays.View ∷ []) (views_body (replicate 4 255 ++ replicate 12 0)) views_ahead ≡ Err View }
    ensures offset { converted_batch None (arrays.View ∷ []) (views_body (third_view 1 3)) views_ahead ≡ Err View }
    ensures index { converted_batch None (arrays.View ∷ []) (views_body (third_view 2 2)) views_ahead ≡ Err View }
{}

/// A variadic count, views or an array of a buffer may be missing.
pub fn missing_parts_are_rejected()
    ensures count { converted_batch None (arrays.View ∷ []) [] (ahead (node 0 0 ∷ []) (at 0 0 ∷ at 0 0 ∷ []) []) ≡ Err BufferCount }
    ensures views { converted_batch None (arrays.View ∷ []) (replicate 31 0) (ahead (node 2 0 ∷ []) (at 0 0 ∷ at 0 31 ∷ []) (pos 0 ∷ [])) ≡ Err BufferTooShort }
    ensures array { converted_batch None [] [] (ahead [] (at 0 0 ∷ []) []) ≡ Err BufferCount }
{}

/// A view column of a batch that is compressed, whose buffers are stored without compression.
pub fn compressed_views_are_converted()
    ensures { converted_batch (Some Lz4Frame) (arrays.View ∷ []) compressed_body compressed_ahead ≡ Ok compressed_read }
{}

/// Decimals of 32 and 64 bits keep their values, -5 and 5, in 128 bits.
pub fn decimals_are_widened()
    ensures { converted_batch None (arrays.Decimal32 ∷ arrays.Decimal64 ∷ []) decimals_body decimals_ahead ≡ Ok decimals_read }
{}

/// A view column that is skipped keeps its variadic count, and its buffers become empty. The column after it is read.
pub fn skipped_views_become_empty()
    ensures { converted_batch None (arrays.Skipped skipped_field ∷ arrays.Plain 2 ∷ []) skipped_body skipped_ahead ≡ Ok skipped_read }
{}

/// The buffers that a view array is converted to decode to a LargeBinary or LargeUtf8 array of its strings and its validity.
pub fn views_are_read()
    ensures { ViewsAreRead }
{}
