//! Examples and laws of selected rows, text and tables. Each function's contract is an example or a law, and its body is empty.
ghost use Rattle.std.specs.Prelude.{◌≡◌, ◌++◌, ℕ, List, [], ◌∷◌, true, false, Ok, Option, Some, None, codes, get_or};
ghost use Rattle.nest_memory.specs.TypeTree.{FieldTree};
ghost use Rattle.cli_args.specs.Columns.{indexed, named};
ghost use Rattle.cli_args.specs.Conditions.{is_true};
ghost use Rattle.cli_args.specs.Requests.{SelectionTree, all, columns, indices, rows, slice, where_true};
ghost use Rattle.cli_rows.specs.ColumnExamples.{ok_and_id};
ghost use Rattle.cli_rows.specs.ColumnFields.{spec_column_index};
ghost use Rattle.cli_rows.specs.ColumnNames.{request_error, resolved_selection, spec_selection_error, unknown_name};
ghost use Rattle.cli_rows.specs.Compared.{IsTableDifference};
ghost use Rattle.cli_rows.specs.Concatenated.{IsConcatenation};
ghost use Rattle.cli_rows.specs.Difference.{AreEqualUpTo, IsDifference};
ghost use Rattle.cli_rows.specs.ListExamples.{other_numbers, three_numbers, two_numbers};
ghost use Rattle.cli_rows.specs.NearNames.{edit_distance, spec_is_similar, spec_unknown_name_text};
ghost use Rattle.cli_rows.specs.Rows.{RowSlot};
ghost use Rattle.cli_rows.specs.SelectExamples.{first, null_record, second, third, three};
ghost use Rattle.cli_rows.specs.SelectedTables.{AreRowsOf, IsSelectedFrom};
ghost use Rattle.cli_rows.specs.Selection.{selected_rows};
ghost use Rattle.cli_rows.specs.TableExamples.{boolean_table, columnless_table, three_booleans};
ghost use Rattle.cli_rows.specs.SupportText.{text_of_columns, text_of_error};
ghost use Rattle.cli_rows.specs.Tables.{TableTree};
ghost use Rattle.cli_rows.specs.Text.{text_of_schema};
ghost use Rattle.cli_rows.specs.TextExamples.{id_field, name_field, names_field, view_columns, view_field};
ghost use Rattle.cli_rows.specs.declared.difference.Difference.{Difference};
ghost use Rattle.cli_rows.specs.declared.difference.Difference.TheVariants.{Row as RowDiffers, Schema};
ghost use Rattle.cli_rows.specs.declared.error.CliError.TheVariants.{Condition};
ghost use Rattle.cli_rows.specs.declared.error.ColumnError.TheVariants.{UnknownColumn, NotBoolean};

/// Of a boolean column and an integer column: the first, the second, an unknown name, and no name.
pub fn columns_are_found_by_name()
    ensures found { request_error (rows (where_true (is_true (named (codes "ok")) 0))) ok_and_id ≡ None }
    ensures numbers { request_error (rows (where_true (is_true (named (codes "id")) 3))) ok_and_id ≡ Some (Condition (NotBoolean 3)) }
    ensures absent { request_error (rows (where_true (is_true (named (codes "o")) 3))) ok_and_id ≡ Some (Condition (UnknownColumn 3)) }
    ensures unnamed { request_error columns ok_and_id ≡ None }
{}

/// An integer column that is never null, and a string column.
pub fn schema_is_text()
    ensures { text_of_schema (id_field ∷ name_field ∷ []) ≡ codes "id: int64 not null" ++ (10 ∷ codes "name: string" ++ (10 ∷ [])) }
{}

/// An integer column, a struct with a list view, and a string column.
pub fn unsupported_columns_are_text()
    ensures lines { text_of_columns view_columns (id_field ∷ name_field ∷ []) ≡ codes "id: int64 not null\ns.v: list_view (not supported)\nname: string\n" }
    ensures error { text_of_error view_field ≡ codes "column \"s.v\": list_view is not supported (read other columns with --columns)" }
{}

/// Of three rows: all; a slice; a slice that ends past the last row; a slice after the last row; rows by index, one of them twice; an
/// index out of range.
pub fn rows_are_selected()
    ensures all { selected_rows all three ≡ Some (first ∷ second ∷ third ∷ []) }
    ensures slice { selected_rows (slice 1 1) three ≡ Some (second ∷ []) }
    ensures end { selected_rows (slice 1 9) three ≡ Some (second ∷ third ∷ []) }
    ensures after { selected_rows (slice 3 1) three ≡ Some [] }
    ensures indices { selected_rows (indices (2 ∷ 0 ∷ 2 ∷ [])) three ≡ Some (third ∷ first ∷ third ∷ []) }
    ensures none { selected_rows (indices (0 ∷ 3 ∷ [])) three ≡ None }
{}

/// The rows where the first column of a name is true: neither null nor false, in a valid record. None if the column is not boolean, or
/// there is no column of the name.
pub fn rows_where_true_are_selected()
    ensures column { selected_rows (where_true (is_true (named (codes "ok")) 0)) (third ∷ first ∷ second ∷ null_record ∷ first ∷ []) ≡ Some (first ∷ first ∷ []) }
    ensures numbers { selected_rows (where_true (is_true (named (codes "id")) 0)) three ≡ Some [] }
    ensures absent { selected_rows (where_true (is_true (named (codes "o")) 0)) three ≡ Some [] }
{}

/// Of two columns: names of both, and twice; a name that is only the beginning of one, after one that has a column; an empty name.
pub fn unknown_names_are_found()
    ensures known { unknown_name (codes "id" ∷ codes "ok" ∷ codes "id" ∷ []) ok_and_id ≡ None }
    ensures second { unknown_name (codes "ok" ∷ codes "o" ∷ codes "x" ∷ []) ok_and_id ≡ Some 1 }
    ensures empty { unknown_name (codes "" ∷ codes "ok" ∷ []) ok_and_id ≡ Some 0 }
    ensures none { unknown_name [] ok_and_id ≡ None }
{}

/// An unknown name is that of no column.
pub fn unknown_names_have_no_column()
    ensures { (names : List (List ℕ)) (fields : List FieldTree) (i : ℕ) → unknown_name names fields ≡ Some i → spec_column_index (get_or names i []) fields ≡ None }
{}

/// No edit; a character inserted, deleted, replaced, exchanged with the next one; one of two bytes replaced; several edits; an empty name.
pub fn edits_are_counted()
    ensures none { edit_distance (codes "id") (codes "id") ≡ 0 }
    ensures inserted { edit_distance (codes "nme") (codes "name") ≡ 1 }
    ensures deleted { edit_distance (codes "nam e") (codes "name") ≡ 1 }
    ensures replaced { edit_distance (codes "neme") (codes "name") ≡ 1 }
    ensures exchanged { edit_distance (codes "naem") (codes "name") ≡ 1 }
    ensures two_bytes { edit_distance (195 ∷ 169 ∷ []) (codes "e") ≡ 1 }
    ensures several { edit_distance (codes "id") (codes "price") ≡ 4 }
    ensures empty { edit_distance (codes "") (codes "id") ≡ 2 }
{}

/// One edit of a wanted name of two, three, four and five bytes; two edits of one of two, three and six; more; another case.
pub fn names_are_similar()
    ensures one_of_two { spec_is_similar (codes "od") (codes "id") ≡ true }
    ensures one_of_three { spec_is_similar (codes "nme") (codes "name") ≡ true }
    ensures one_of_four { spec_is_similar (codes "naem") (codes "name") ≡ true }
    ensures one_of_five { spec_is_similar (codes "nam e") (codes "name") ≡ true }
    ensures two_of_two { spec_is_similar (codes "ok") (codes "id") ≡ false }
    ensures two_of_three { spec_is_similar (codes "nme") (codes "names") ≡ false }
    ensures two_of_six { spec_is_similar (codes "naemes") (codes "names") ≡ true }
    ensures more { spec_is_similar (codes "id") (codes "price") ≡ false }
    ensures case { spec_is_similar (codes "ID") (codes "id") ≡ true }
{}

/// No similar name, one, two in the order of the columns; no column.
pub fn unknown_names_are_text()
    ensures none { spec_unknown_name_text (codes "price") (id_field ∷ name_field ∷ []) ≡ codes "there is no column \"price\"" }
    ensures one { spec_unknown_name_text (codes "nme") (id_field ∷ name_field ∷ []) ≡ codes "there is no column \"nme\" (similar: \"name\")" }
    ensures two { spec_unknown_name_text (codes "nams") (names_field ∷ id_field ∷ name_field ∷ []) ≡ codes "there is no column \"nams\" (similar: \"names\", \"name\")" }
    ensures empty { spec_unknown_name_text (codes "id") [] ≡ codes "there is no column \"id\"" }
{}

/// Columns of names `id` and `ok`, by their indices; an unknown name stays.
pub fn names_are_resolved()
    ensures first { resolved_selection ok_and_id (where_true (is_true (named (codes "ok")) 0)) ≡ where_true (is_true (indexed 0) 0) }
    ensures second { resolved_selection ok_and_id (where_true (is_true (named (codes "id")) 0)) ≡ where_true (is_true (indexed 1) 0) }
    ensures absent { resolved_selection ok_and_id (where_true (is_true (named (codes "o")) 0)) ≡ where_true (is_true (named (codes "o")) 0) }
    ensures rows { selected_rows (where_true (is_true (indexed 1) 0)) (third ∷ first ∷ second ∷ null_record ∷ []) ≡ Some (first ∷ []) }
{}

/// A resolved selection has the same error, and selects the same rows of record batches of the fields.
pub fn resolved_selections_select_the_same()
    ensures error { (fs : List FieldTree) (c : SelectionTree) → spec_selection_error (resolved_selection fs c) fs ≡ spec_selection_error c fs }
    ensures rows { (fs : List FieldTree) (c : SelectionTree) (rows : List RowSlot) → AreRowsOf fs rows → selected_rows (resolved_selection fs c) rows ≡ selected_rows c rows }
{}

/// Three numbers compared with the same three; with another second number; with two of them.
pub fn first_difference_is_found()
    ensures none { IsDifference three_numbers three_numbers None }
    ensures second { IsDifference three_numbers other_numbers (Some 1) }
    ensures shorter { IsDifference three_numbers two_numbers (Some 2) }
    ensures longer { IsDifference two_numbers three_numbers (Some 2) }
    ensures later { IsDifference three_numbers other_numbers (Some 2) → ⊥ }
    ensures earlier { IsDifference three_numbers two_numbers (Some 1) → ⊥ }
{}

/// Three numbers and two of them are equal up to two, not up to three.
pub fn prefixes_are_compared()
    ensures two { AreEqualUpTo 2 three_numbers two_numbers }
    ensures three { AreEqualUpTo 3 three_numbers two_numbers → ⊥ }
    ensures other { AreEqualUpTo 2 three_numbers other_numbers → ⊥ }
{}

/// The first difference of rows is unique.
pub fn first_difference_is_unique()
    ensures { (xs ys : List RowSlot) (d e : Option ℕ) → IsDifference xs ys d → IsDifference xs ys e → d ≡ e }
{}

/// Three rows in other batches; another second row; one more row; another schema.
pub fn tables_differ()
    ensures same { IsTableDifference (boolean_table ((true ∷ false ∷ []) ∷ [] ∷ (true ∷ []) ∷ [])) (boolean_table ((true ∷ []) ∷ (false ∷ true ∷ []) ∷ [])) None }
    ensures second { IsTableDifference (boolean_table ((true ∷ false ∷ []) ∷ [])) (boolean_table ((true ∷ []) ∷ (true ∷ []) ∷ [])) (Some (RowDiffers 1)) }
    ensures longer { IsTableDifference (boolean_table ((true ∷ false ∷ []) ∷ [])) (boolean_table ((true ∷ []) ∷ [])) (Some (RowDiffers 1)) }
    ensures schema { IsTableDifference (boolean_table []) (columnless_table []) (Some Schema) }
{}

/// Tables without columns have as many rows as their batches: three and three, three and two.
pub fn columnless_tables_differ()
    ensures same { IsTableDifference (columnless_table (2 ∷ 1 ∷ [])) (columnless_table (3 ∷ [])) None }
    ensures longer { IsTableDifference (columnless_table (2 ∷ 1 ∷ [])) (columnless_table (1 ∷ 1 ∷ [])) (Some (RowDiffers 2)) }
{}

/// The first difference of tables is unique.
pub fn first_table_difference_is_unique()
    ensures { (s t : TableTree) (d e : Option Difference) → IsTableDifference s t d → IsTableDifference s t e → d ≡ e }
{
    first_difference_is_unique();
}

/// Two inputs of one batch each are concatenated to two batches, in order.
pub fn inputs_are_concatenated()
    ensures { IsConcatenation (boolean_table ((true ∷ []) ∷ (false ∷ []) ∷ [])) (Ok (boolean_table ((true ∷ []) ∷ [])) ∷ Ok (boolean_table ((false ∷ []) ∷ [])) ∷ []) }
{}

/// Of a batch of true and false and a batch of true: a slice, rows by index, and the rows that are true. The batches of the result are free.
pub fn selected_rows_are_a_table()
    ensures slice { IsSelectedFrom (slice 1 1) three_booleans (boolean_table ((false ∷ []) ∷ [])) }
    ensures batches { IsSelectedFrom (slice 1 9) three_booleans (boolean_table ((false ∷ []) ∷ (true ∷ []) ∷ [])) }
    ensures batch { IsSelectedFrom (slice 1 9) three_booleans (boolean_table ((false ∷ true ∷ []) ∷ [])) }
    ensures none { IsSelectedFrom (slice 3 1) three_booleans (boolean_table []) }
    ensures indices { IsSelectedFrom (indices (1 ∷ 0 ∷ 1 ∷ [])) three_booleans (boolean_table ((false ∷ true ∷ false ∷ []) ∷ [])) }
    ensures column { IsSelectedFrom (where_true (is_true (named (codes "ok")) 0)) three_booleans (boolean_table ((true ∷ []) ∷ (true ∷ []) ∷ [])) }
{}

/// Neither another row, fewer or more rows, another order, nor another schema. No rows by an index out of range, or of an unknown column.
pub fn other_rows_are_not_selected()
    ensures before { IsSelectedFrom (slice 1 1) three_booleans (boolean_table ((true ∷ []) ∷ [])) → ⊥ }
    ensures fewer { IsSelectedFrom (slice 1 2) three_booleans (boolean_table ((false ∷ []) ∷ [])) → ⊥ }
    ensures more { IsSelectedFrom (slice 1 1) three_booleans (boolean_table ((false ∷ []) ∷ (true ∷ []) ∷ [])) → ⊥ }
    ensures order { IsSelectedFrom (indices (1 ∷ 0 ∷ [])) three_booleans (boolean_table ((true ∷ false ∷ []) ∷ [])) → ⊥ }
    ensures schema { IsSelectedFrom (slice 3 1) three_booleans (columnless_table []) → ⊥ }
    ensures index { IsSelectedFrom (indices (3 ∷ [])) three_booleans (boolean_table []) → ⊥ }
    ensures column { IsSelectedFrom (where_true (is_true (named (codes "o")) 0)) three_booleans (boolean_table []) → ⊥ }
{}

/// Selected rows of tables without columns are counted: a slice of two rows in two batches, and two rows by index; not one of two rows.
pub fn columnless_rows_are_selected()
    ensures slice { IsSelectedFrom (slice 1 9) (columnless_table (2 ∷ 1 ∷ [])) (columnless_table (2 ∷ [])) }
    ensures indices { IsSelectedFrom (indices (2 ∷ 2 ∷ [])) (columnless_table (2 ∷ 1 ∷ [])) (columnless_table (1 ∷ 1 ∷ [])) }
    ensures fewer { IsSelectedFrom (slice 1 9) (columnless_table (2 ∷ 1 ∷ [])) (columnless_table (1 ∷ [])) → ⊥ }
{}
