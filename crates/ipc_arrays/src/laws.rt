//! Theorems and worked examples about columns and their bytes, stated as the contracts of functions that do nothing.
ghost use Rattle.std.specs.Prelude.{◌≡◌, ℕ, [], ◌∷◌, List, map, true, Ok};
ghost use Rattle.nest_memory.specs.TypeTree.{TypeTree};
ghost use Rattle.nest_model.specs.Layout.{Layout};
ghost use Rattle.ipc_arrays.specs.Decoding.{decoded_column, decoded_columns};
ghost use Rattle.ipc_arrays.specs.declared.cursor.ExpectedLength.TheVariants.{Rows};
ghost use Rattle.ipc_arrays.specs.NoDictionaries.{are_dictionary_free};
ghost use Rattle.ipc_arrays.specs.BodyBuffers.{buffer_specs};
ghost use Rattle.ipc_arrays.specs.declared.cursor.ExpectedLength.TheVariants.{Rows};
ghost use Rattle.ipc_arrays.specs.ReplacedValues.{AreSameUpToValues, AreEncodedAlike};
ghost use Rattle.ipc_arrays.specs.Encoding.{field_node_of, normalized, written_arrays, buffers_of, columns_body, dictionaries_of};
ghost use Rattle.ipc_arrays.specs.Examples.{worked_type, worked_body, worked_rest, worked_column, nothing, DecodesAsStated, EncodesAsStated, null_column, boolean_column, int128_column, int256_column, days_ms_column, months_days_ns_column, fixed_size_binary_column, binary_column, large_utf8_column, sliced_binary_column};
ghost use Rattle.ipc_arrays.specs.Projection.{ProjectionState, decoded_projection, every_column};
ghost use Rattle.ipc_arrays.specs.NeededBufferLaws.{ColumnsUseTheirBuffers, UnneededBuffersDoNotMatter};
ghost use Rattle.ipc_arrays.specs.ProjectionExamples.{SkippedColumnsAreChecked, ColumnsAroundAreRead};

/// The body of another writer, byte by byte, decodes to an `Int32` column of 7 and null.
pub fn int32_column_is_read()
    ensures { decoded_column worked_type (Rows 2) worked_body worked_rest ≡ Ok (worked_column, nothing) }
{}

/// An `Int32` column of 7 and null is written as that field node, those two buffers and that body.
pub fn int32_column_is_written()
    ensures nodes { map field_node_of (written_arrays (worked_column ∷ [])) ≡ worked_rest.nodes }
    ensures buffers { buffer_specs 0 (buffers_of (written_arrays (worked_column ∷ []))) ≡ worked_rest.buffers }
    ensures body { columns_body (worked_column ∷ []) ≡ worked_body }
{}

/// A null array has a field node and no buffers.
pub fn null_array_round_trips()
    ensures read { DecodesAsStated null_column }
    ensures written { EncodesAsStated null_column }
{}

/// A boolean array of ten values, one of them null: bits are in least significant bit order.
pub fn boolean_array_round_trips()
    ensures read { DecodesAsStated boolean_column }
    ensures written { EncodesAsStated boolean_column }
{}

/// A 128-bit value is in two's complement, little-endian.
pub fn int128_array_round_trips()
    ensures read { DecodesAsStated int128_column }
    ensures written { EncodesAsStated int128_column }
{}

/// A 256-bit value has its low 128 bits first.
pub fn int256_array_round_trips()
    ensures read { DecodesAsStated int256_column }
    ensures written { EncodesAsStated int256_column }
{}

/// A `DAY_TIME` interval has its days first, then its milliseconds.
pub fn days_ms_array_round_trips()
    ensures read { DecodesAsStated days_ms_column }
    ensures written { EncodesAsStated days_ms_column }
{}

/// A `MONTH_DAY_NANO` interval has its months first, then its days, then its nanoseconds.
pub fn months_days_ns_array_round_trips()
    ensures read { DecodesAsStated months_days_ns_column }
    ensures written { EncodesAsStated months_days_ns_column }
{}

/// A fixed-size binary array of two values of three bytes.
pub fn fixed_size_binary_array_round_trips()
    ensures read { DecodesAsStated fixed_size_binary_column }
    ensures written { EncodesAsStated fixed_size_binary_column }
{}

/// A binary array of two values, with 32-bit offsets.
pub fn binary_array_round_trips()
    ensures read { DecodesAsStated binary_column }
    ensures written { EncodesAsStated binary_column }
{}

/// A UTF-8 array with 64-bit offsets.
pub fn large_utf8_array_round_trips()
    ensures read { DecodesAsStated large_utf8_column }
    ensures written { EncodesAsStated large_utf8_column }
{}

/// A sliced binary array is written with offsets from 0 on, and with only the bytes between its first and last offset.
pub fn offsets_are_rebased_to_zero()
    ensures { columns_body (sliced_binary_column ∷ []) ≡ binary_column.body }
{}

/// Columns that are equal once normalized have equal field nodes and bodies, whatever lies outside of their slices.
pub fn equal_normalized_columns_have_equal_bytes()
    ensures { (one other : List Layout) → map normalized one ≡ map normalized other → (written_arrays one ≡ written_arrays other) × (columns_body one ≡ columns_body other) }
{}

/// The values of dictionaries are not in the body: columns that differ only in them, even if one has more, have equal field nodes
/// and buffers.
pub fn dictionary_values_are_not_in_the_body()
    ensures { (columns others : List Layout) → AreSameUpToValues columns others → AreEncodedAlike columns others }
{}

/// Columns without dictionary-encoded arrays need no dictionary values.
pub fn columns_without_dictionaries_need_no_values()
    ensures { (columns : List Layout) → are_dictionary_free columns ≡ true → dictionaries_of (written_arrays columns) ≡ [] }
{}

/// A skipped column consumes its field nodes, its buffers and the variadic buffers of its view arrays, and an error is returned if one
/// is missing. The columns around it are read.
pub fn skipped_columns_are_checked()
    ensures passed { SkippedColumnsAreChecked }
    ensures around { ColumnsAroundAreRead }
{}

/// A projection of every column returns the result of `read_columns`, be it the columns or the error.
pub fn full_projection_reads_every_column()
    ensures { (types : List TypeTree) (rows : ℕ) (body : List ℕ) (ahead : ProjectionState) → decoded_projection (every_column types) types rows body ahead ≡ decoded_columns types rows body ahead.rest }
{}

/// A column that is read leaves the buffers after those of its data type, so it uses each of these and no other.
pub fn columns_use_their_buffers()
    ensures { ColumnsUseTheirBuffers }
{}

/// The projected columns do not depend on the buffers that [`crate::needed_buffers`] leaves out: other bytes there make no difference.
pub fn unneeded_buffers_do_not_matter()
    ensures { UnneededBuffersDoNotMatter }
{}
