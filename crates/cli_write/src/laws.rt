//! Examples and laws of written outputs. Each function's contract is an example or a law, and its body is empty.
ghost use Rattle.std.specs.Prelude.{◌≡◌, ◌++◌, ℕ, List, [], ◌∷◌, true, false, None, Ok, Option, Some, codes, map};
ghost use Rattle.ipc_flatbuf.specs.declared.error.IpcReadError.TheVariants.{Truncated};
ghost use Rattle.ipc_schema.specs.Schemas.{SchemaModel};
ghost use Rattle.nest_memory.specs.TypeTree.{FieldTree};
ghost use Rattle.json_read.specs.JsonLines.{json_value};
ghost use Rattle.json_read.specs.declared.error.UnsupportedTypeError.TheVariants.{FloatingPoint};
ghost use Rattle.cli_args.specs.Columns.{named};
ghost use Rattle.cli_args.specs.Conditions.{is_true};
ghost use Rattle.cli_args.specs.Requests.{all, slice, where_true};
ghost use Rattle.cli_args.specs.declared.format.Format.TheVariants.{Stream};
ghost use Rattle.cli_rows.specs.Concatenated.{HaveSchema, all_batches};
ghost use Rattle.cli_rows.specs.TableExamples.{boolean_table, columnless_table, ok_field, three_booleans};
ghost use Rattle.cli_rows.specs.Tables.{TableTree};
ghost use Rattle.cli_rows.specs.declared.error.CliError.TheVariants.{Condition, Read};
ghost use Rattle.cli_rows.specs.declared.error.ColumnError.TheVariants.{UnknownColumn};
ghost use Rattle.cli_read.specs.InputExamples.{broken_input, complete_input};
ghost use Rattle.cli_write.specs.Concat.{IsAppendError, WritesConcatenation};
ghost use Rattle.cli_write.specs.ConcatExamples.{truncated_batch};
ghost use Rattle.cli_write.specs.Copies.{FailsWhileCopying, IsCopy, HasSufficientBatches};
ghost use Rattle.cli_write.specs.Imports.{HasRows, IsImportError, WritesLines};
ghost use Rattle.cli_write.specs.LineExamples.{IsBooleanLine, float_field, invalid_json};
ghost use Rattle.cli_write.specs.Writers.{WritesTableBatches};
ghost use Rattle.cli_write.specs.declared.concat.AppendError.TheVariants.{Schema};
ghost use Rattle.cli_write.specs.declared.import.error.ImportError.TheVariants as import_errors;

use cli_args::Format;

/// Of a batch of true and false and a batch of true: all batches unchanged, a slice, and the rows that are true. Neither all rows in one batch,
/// nor fewer rows.
pub fn selected_rows_are_copied()
    ensures whole { IsCopy all three_booleans three_booleans }
    ensures slice { IsCopy (slice 1 1) three_booleans (boolean_table ((false ∷ []) ∷ [])) }
    ensures column { IsCopy (where_true (is_true (named (codes "ok")) 0)) three_booleans (boolean_table ((true ∷ []) ∷ (true ∷ []) ∷ [])) }
    ensures other { IsCopy all three_booleans (boolean_table ((true ∷ false ∷ true ∷ []) ∷ [])) → ⊥ }
    ensures fewer { IsCopy (slice 1 2) three_booleans (boolean_table ((false ∷ []) ∷ [])) → ⊥ }
{}

/// A batch of two rows is sufficient for the first two rows, whatever is after it, and not for the third. It is sufficient for all rows if no
/// batch is after it.
pub fn first_batches_are_sufficient()
    ensures first { HasSufficientBatches (slice 0 2) (broken_input (boolean_table ((true ∷ false ∷ []) ∷ [])) Truncated) 1 }
    ensures third { HasSufficientBatches (slice 1 2) (broken_input (boolean_table ((true ∷ false ∷ []) ∷ [])) Truncated) 1 → ⊥ }
    ensures whole { HasSufficientBatches all (complete_input (boolean_table ((true ∷ false ∷ []) ∷ []))) 1 }
    ensures part { HasSufficientBatches all (broken_input (boolean_table ((true ∷ false ∷ []) ∷ [])) Truncated) 1 → ⊥ }
{}

/// An error stops a copy in its record batch, not in an earlier or a later one, and not if the rows before it are sufficient. An unknown column
/// stops it before any record batch.
pub fn errors_stop_a_copy()
    ensures after { FailsWhileCopying all Stream [] (broken_input (boolean_table ((true ∷ []) ∷ [])) Truncated) (Some 1) (Read Truncated) }
    ensures early { FailsWhileCopying all Stream [] (broken_input (boolean_table ((true ∷ []) ∷ [])) Truncated) (Some 0) (Read Truncated) → ⊥ }
    ensures late { FailsWhileCopying all Stream [] (broken_input (boolean_table ((true ∷ []) ∷ [])) Truncated) (Some 2) (Read Truncated) → ⊥ }
    ensures enough { FailsWhileCopying (slice 0 1) Stream [] (broken_input (boolean_table ((true ∷ []) ∷ [])) Truncated) (Some 1) (Read Truncated) → ⊥ }
    ensures column { FailsWhileCopying (where_true (is_true (named (codes "o")) 4)) Stream [] (complete_input three_booleans) None (Condition (UnknownColumn 4)) }
{}

/// An input of the same schema is appended, and one of another schema is not. An error is returned in its record batch, and not for an input
/// of another schema.
pub fn inputs_are_appended()
    ensures other { IsAppendError Schema Stream three_booleans.schema [] (Some (complete_input (columnless_table (1 ∷ [])))) }
    ensures same { IsAppendError Schema Stream three_booleans.schema [] (Some (complete_input (boolean_table ((true ∷ []) ∷ [])))) → ⊥ }
    ensures error { IsAppendError (truncated_batch 1) Stream three_booleans.schema three_booleans.batches (Some (broken_input (boolean_table ((true ∷ []) ∷ [])) Truncated)) }
    ensures early { IsAppendError (truncated_batch 0) Stream three_booleans.schema three_booleans.batches (Some (broken_input (boolean_table ((true ∷ []) ∷ [])) Truncated)) → ⊥ }
    ensures unlike { IsAppendError (truncated_batch 1) Stream three_booleans.schema [] (Some (broken_input (columnless_table (1 ∷ [])) Truncated)) → ⊥ }
{}

/// The record batches of inputs of one schema, written one after another, decode to the concatenation of the inputs.
pub fn written_batches_are_concatenated(form: Format)
    ensures { (s : SchemaModel) (hs : List TableTree) (x y : Option (List ℕ)) → HaveSchema s hs → WritesTableBatches form s (all_batches hs) x y → WritesConcatenation form (map Ok hs) x y }
{}

/// Lines `{"ok":true}` and `{"ok":false}` are these rows in their order, in any record batches. Neither in another order, nor fewer rows,
/// nor columns of other fields.
pub fn lines_are_rows()
    ensures batch { (x y : List ℕ) → IsBooleanLine x true → IsBooleanLine y false → HasRows (ok_field ∷ []) (x ∷ y ∷ []) (boolean_table ((true ∷ false ∷ []) ∷ [])) }
    ensures batches { (x y : List ℕ) → IsBooleanLine x true → IsBooleanLine y false → HasRows (ok_field ∷ []) (x ∷ y ∷ []) (boolean_table ((true ∷ []) ∷ [] ∷ (false ∷ []) ∷ [])) }
    ensures order { (x y : List ℕ) → IsBooleanLine x true → IsBooleanLine y false → HasRows (ok_field ∷ []) (x ∷ y ∷ []) (boolean_table ((false ∷ true ∷ []) ∷ [])) → ⊥ }
    ensures fewer { (x y : List ℕ) → IsBooleanLine x true → IsBooleanLine y false → HasRows (ok_field ∷ []) (x ∷ y ∷ []) (boolean_table ((true ∷ []) ∷ [])) → ⊥ }
    ensures fields { HasRows (ok_field ∷ []) [] (columnless_table []) → ⊥ }
{}

/// The first invalid line is returned, from 0: the second of `{"ok":true}` and a line that is not JSON. An unsupported type is returned
/// before any line.
pub fn the_first_invalid_line_is_returned(form: Format)
    ensures second { (x y : List ℕ) → IsBooleanLine x true → json_value y ≡ None → IsImportError (import_errors.Line 1 invalid_json) (ok_field ∷ []) form (x ∷ y ∷ []) }
    ensures first { (x y : List ℕ) → IsBooleanLine x true → json_value y ≡ None → IsImportError (import_errors.Line 0 invalid_json) (ok_field ∷ []) form (x ∷ y ∷ []) → ⊥ }
    ensures float { (lines : List (List ℕ)) → IsImportError (import_errors.Type FloatingPoint) (float_field ∷ []) form lines }
    ensures boolean { (lines : List (List ℕ)) → IsImportError (import_errors.Type FloatingPoint) (ok_field ∷ []) form lines → ⊥ }
{}

/// Bytes of lines are appended to the output.
pub fn lines_are_appended(form: Format)
    ensures { (fs : List FieldTree) (lines : List (List ℕ)) (old new : List ℕ) → WritesLines fs form lines (Some old) (Some new) → (bytes : List ℕ) × (new ≡ old ++ bytes) }
{}
