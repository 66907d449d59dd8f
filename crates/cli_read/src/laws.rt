//! Examples and laws of inputs read in part. Each function's contract is an example or a law, and its body is empty.
ghost use Rattle.std.specs.Prelude.{◌≡◌, ◌<◌, ◌-◌, ◌++◌, ℕ, List, [], ◌∷◌, length, take, Option, None, Some, Ok, Err, true, false};
ghost use Rattle.std.specs.List.{AllByRecursion, flat_map};
ghost use Rattle.ipc_flatbuf.specs.declared.error.IpcReadError as read_errors;
ghost use Rattle.ipc_flatbuf.specs.declared.error.IpcReadError.TheVariants.{Truncated};
ghost use Rattle.ipc_schema.specs.Projections.{ProjectionModel};
ghost use Rattle.cli_args.specs.Requests.{RequestTree, all, indices, rows};
ghost use Rattle.cli_rows.specs.SelectedTables.{IsSelectedFrom};
ghost use Rattle.cli_rows.specs.TableExamples.{boolean_table, columnless_table, three_booleans};
ghost use Rattle.ipc.specs.Files.{file_reader_in};
ghost use Rattle.cli_rows.specs.Tables.{TableTree, decoded_table, is_file_prefix, record_rows};
ghost use Rattle.cli_rows.specs.Text.{json_line, text_of_rows};
ghost use Rattle.cli_rows.specs.declared.difference.Difference.{Difference};
ghost use Rattle.cli_rows.specs.declared.difference.Difference.TheVariants.{Row, Schema};
ghost use Rattle.cli_rows.specs.declared.error.CliError.TheVariants.{IndexOutOfRange, Read};
ghost use Rattle.cli_read.specs.Comparisons.{FailsIn, FailsInSecond, FindsDifference, FindsTableDifference};
ghost use Rattle.cli_read.specs.Counts.{Counts, HasColumnOfRows, metadata_contents, total_rows};
ghost use Rattle.cli_read.specs.Decoded.{Decoded, file_contents, stream_contents};
ghost use Rattle.cli_read.specs.InputExamples.{broken_input, complete_input, first_batches, unreadable_input};
ghost use Rattle.cli_read.specs.Inputs.{IsDecodedFrom};
ghost use Rattle.cli_read.specs.Printed.{HasText, SufficientBatchesPrint};
ghost use Rattle.cli_read.specs.Tails.{AreLastOfTable, file_ends, last, stream_ends};
ghost use Rattle.cli_read.specs.Takes.{IsTakeError, Takes};

/// All record batches of a stream or a file are its decoded table, by the first bytes.
pub fn all_batches_are_the_decoded_table()
    ensures stream { (picks : ProjectionModel) (bytes : List ℕ) → is_file_prefix bytes ≡ false → (stream_contents picks bytes).whole ≡ decoded_table picks bytes }
    ensures file { (picks : ProjectionModel) (bytes : List ℕ) → is_file_prefix bytes ≡ true → (file_contents picks bytes).whole ≡ decoded_table picks bytes }
{}

/// An error in the first record batches is the error of all.
pub fn an_error_in_a_prefix_is_the_error()
    ensures stream { (picks : ProjectionModel) (bytes : List ℕ) (k : ℕ) (e : read_errors.IpcReadError) → (stream_contents picks bytes).first k ≡ Err e → (stream_contents picks bytes).whole ≡ Err e }
    ensures file { (picks : ProjectionModel) (bytes : List ℕ) (k : ℕ) (e : read_errors.IpcReadError) → (file_contents picks bytes).first k ≡ Err e → (file_contents picks bytes).whole ≡ Err e }
{}

/// Without an error the first record batches are those of the decoded table.
pub fn prefixes_are_the_first_batches()
    ensures stream { (picks : ProjectionModel) (bytes : List ℕ) (k : ℕ) (h : TableTree) → (stream_contents picks bytes).whole ≡ Ok h → (stream_contents picks bytes).first k ≡ Ok (first_batches h k) }
    ensures file { (picks : ProjectionModel) (bytes : List ℕ) (k : ℕ) (h : TableTree) → (file_contents picks bytes).whole ≡ Ok h → (file_contents picks bytes).first k ≡ Ok (first_batches h k) }
{}

/// If all record batches decode, the last rows that are found are those of the table. Their lines are the last of those that `rows` prints.
pub fn last_rows_are_those_of_the_table()
    ensures stream { (picks : ProjectionModel) (bytes : List ℕ) → AreLastOfTable (stream_contents picks bytes) (stream_ends (stream_contents picks bytes)) }
    ensures file { (picks : ProjectionModel) (bytes : List ℕ) → AreLastOfTable (file_contents picks bytes) (file_ends (file_reader_in picks bytes)) }
    ensures lines { (n : ℕ) (h : TableTree) → HasText (rows all) h (text_of_rows (take (length (record_rows h) - n) (record_rows h)) ++ text_of_rows (last n (record_rows h))) }
{}

/// If each record batch has as many rows as its first column, the number of rows is the number of lines that `rows` prints, one for each row.
/// If the record batches of a file decode, the number of rows by its metadata is theirs.
pub fn counted_rows_are_the_lines()
    ensures rows { (h : TableTree) → AllByRecursion HasColumnOfRows h.batches → total_rows h ≡ length (record_rows h) }
    ensures lines { (h : TableTree) → HasText (rows all) h (flat_map json_line (record_rows h)) }
    ensures file { (picks : ProjectionModel) (bytes : List ℕ) (h : TableTree) (n : ℕ) → (file_contents picks bytes).whole ≡ Ok h → Counts (Some (metadata_contents picks bytes)) n → n ≡ total_rows h }
{}

/// If the first record batches have all selected rows, they print the text that all record batches print.
pub fn sufficient_batches_print_the_text()
    ensures stream { (q : RequestTree) (picks : ProjectionModel) (bytes : List ℕ) → SufficientBatchesPrint q (stream_contents picks bytes) }
    ensures file { (q : RequestTree) (picks : ProjectionModel) (bytes : List ℕ) → SufficientBatchesPrint q (file_contents picks bytes) }
{}

/// If both inputs are read without an error, the difference found is the first difference of their tables.
pub fn found_differences_are_the_first()
    ensures { (p : ProjectionModel) (xs ys : List ℕ) (s t : Decoded) (h g : TableTree) (d : Option Difference) → IsDecodedFrom p xs s → IsDecodedFrom p ys t → FindsTableDifference s t h g d }
{}

/// Three rows in other batches; another second row, also before an error; one more row; another schema, also before an error.
pub fn differences_are_found()
    ensures same { FindsDifference (complete_input (boolean_table ((true ∷ false ∷ []) ∷ [] ∷ (true ∷ []) ∷ []))) (complete_input (boolean_table ((true ∷ []) ∷ (false ∷ true ∷ []) ∷ []))) None }
    ensures second { FindsDifference (complete_input (boolean_table ((true ∷ false ∷ []) ∷ []))) (complete_input (boolean_table ((true ∷ []) ∷ (true ∷ []) ∷ []))) (Some (Row 1)) }
    ensures before { FindsDifference (broken_input (boolean_table ((true ∷ false ∷ []) ∷ [])) Truncated) (complete_input (boolean_table ((true ∷ []) ∷ (true ∷ []) ∷ []))) (Some (Row 1)) }
    ensures longer { FindsDifference (complete_input (boolean_table ((true ∷ []) ∷ (false ∷ []) ∷ []))) (complete_input (boolean_table ((true ∷ []) ∷ []))) (Some (Row 1)) }
    ensures schema { FindsDifference (broken_input (boolean_table []) Truncated) (complete_input (columnless_table (3 ∷ []))) (Some Schema) }
{}

/// After an error neither a missing row nor equality is found.
pub fn unread_rows_are_not_compared()
    ensures end { FindsDifference (broken_input (boolean_table ((true ∷ []) ∷ [])) Truncated) (complete_input (boolean_table ((true ∷ []) ∷ []))) None → ⊥ }
    ensures row { FindsDifference (broken_input (boolean_table ((true ∷ []) ∷ [])) Truncated) (complete_input (boolean_table ((true ∷ false ∷ []) ∷ []))) (Some (Row 1)) → ⊥ }
{}

/// An error is returned in the record batch after equal rows: not in an earlier batch, and not after rows that differ. Before any record
/// batch, an error of the second input is returned only if the first was opened.
pub fn errors_follow_equal_rows()
    ensures after { FailsIn (Some 1) (Read Truncated) (broken_input (boolean_table ((true ∷ []) ∷ [])) Truncated) (complete_input (boolean_table ((true ∷ false ∷ []) ∷ []))) }
    ensures early { FailsIn (Some 0) (Read Truncated) (broken_input (boolean_table ((true ∷ []) ∷ [])) Truncated) (complete_input (boolean_table ((true ∷ false ∷ []) ∷ []))) → ⊥ }
    ensures other { FailsIn (Some 1) (Read Truncated) (broken_input (boolean_table ((false ∷ []) ∷ [])) Truncated) (complete_input (boolean_table ((true ∷ false ∷ []) ∷ []))) → ⊥ }
    ensures opened { FailsInSecond None (Read Truncated) (complete_input (boolean_table [])) (unreadable_input Truncated) }
    ensures first { FailsInSecond None (Read Truncated) (unreadable_input Truncated) (unreadable_input Truncated) → ⊥ }
{}

/// Of true and false in one batch and true in the next: the third and the second row, in that order; the second row twice; no row.
pub fn rows_are_taken_in_order()
    ensures two { Takes (2 ∷ 1 ∷ []) (Some (complete_input three_booleans)) (boolean_table ((true ∷ false ∷ []) ∷ [])) }
    ensures twice { Takes (1 ∷ 1 ∷ []) (Some (complete_input three_booleans)) (boolean_table ((false ∷ []) ∷ (false ∷ []) ∷ [])) }
    ensures none { Takes [] (Some (complete_input three_booleans)) (boolean_table []) }
{}

/// An index is out of range if all was read and there is no such row. An error is returned in its batch if a row is not before it.
pub fn missing_rows_are_errors()
    ensures index { IsTakeError (3 ∷ []) (complete_input three_booleans) None IndexOutOfRange }
    ensures there { IsTakeError (2 ∷ []) (complete_input three_booleans) None IndexOutOfRange → ⊥ }
    ensures error { IsTakeError (1 ∷ []) (broken_input (boolean_table ((true ∷ []) ∷ [])) Truncated) (Some 1) (Read Truncated) }
    ensures before { IsTakeError (0 ∷ []) (broken_input (boolean_table ((true ∷ []) ∷ [])) Truncated) (Some 1) (Read Truncated) → ⊥ }
    ensures early { IsTakeError (1 ∷ []) (broken_input (boolean_table ((true ∷ []) ∷ [])) Truncated) (Some 0) (Read Truncated) → ⊥ }
{}

/// If there is a column, the text of the rows taken is what the request prints.
pub fn text_of_taken_rows()
    ensures { (wanted : List ℕ) (h t : TableTree) (s : List ℕ) → 0 < length h.schema.fields → IsSelectedFrom (indices wanted) h t → HasText (rows all) t s → HasText (rows (indices wanted)) h s }
{}
