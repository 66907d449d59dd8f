//! Worked examples: the largest length that is accepted, and the next, which is refused.

ghost use Rattle.std.specs.Prelude.{◌≡◌, ◌+◌, ◌-◌, ◌^◌, ◌<◌, ℕ, pos, Bool, true, false, List, [], ◌∷◌, length, map, replicate, Option, Some, None};
ghost use Rattle.nest_memory.specs.TypeTree as types;
ghost use Rattle.nest_memory.specs.TypeTree.{TypeTree};
ghost use Rattle.nest_memory.specs.declared.datatypes.IntegerType.{IntegerType};
ghost use Rattle.nest_memory.specs.declared.datatypes.IntegerType.TheVariants as integers;
ghost use Rattle.nest_memory.specs.declared.datatypes.UnionMode.TheVariants as modes;
ghost use Rattle.nest_memory.specs.declared.error.ArgumentError.TheVariants.{ItemSize, ItemType};
ghost use Rattle.nest_memory.specs.declared.error.Error.TheVariants.{InvalidArgumentError, Overflow};
ghost use Rattle.nest_model.specs.Checks.{Pass, FailFirst};
ghost use Rattle.nest_model.specs.Slot as slots;
ghost use Rattle.nest_model.specs.Slot.{Slot};
ghost use Rattle.nest_model.specs.Examples.{a_field, two_fields, list_type, one_field, number, plain_types};
ghost use Rattle.nest_model.specs.Nulls.{type_error};
ghost use Rattle.nest_model.specs.BuilderRow.{Row, end_from};
ghost use Rattle.nest_model.specs.BuilderTree as builders;
ghost use Rattle.nest_model.specs.BuilderTree.{BuilderTree};
ghost use Rattle.nest_model.specs.BuilderItem as items;
ghost use Rattle.nest_model.specs.BuilderItem.{bytes_held};
ghost use Rattle.nest_model.specs.BuilderRefusals.{item_refusal, over_limits};
ghost use Rattle.nest_model.specs.BuilderAddRow.{row_checks, lengths_checks};
ghost use Rattle.nest_model.specs.BuilderJoin.{join_checks};
ghost use Rattle.nest_model.specs.BuilderExamples.{an_int, some_bytes, items_of, a_text, no_records, numbers_by, over_nulls, rows_over_nothing, keyed_seven, append_checks, pair_rows, some_text, int_records, text_checks};

/// Null arrays: one more offset than slots, lengths and products of 64 bits, dense union offsets of 31 bits.
pub fn null_arrays()
    ensures plain { map (λ t. type_error t (2 ^ 64 - 1)) plain_types ≡ replicate 20 None }
    ensures binary { type_error types.binary (2 ^ 64 - 2) ≡ None }
    ensures long_binary { type_error types.binary (2 ^ 64 - 1) ≡ Some Overflow }
    ensures large_binary { type_error types.large_binary (2 ^ 64 - 2) ≡ None }
    ensures long_large_binary { type_error types.large_binary (2 ^ 64 - 1) ≡ Some Overflow }
    ensures text { type_error types.utf8 (2 ^ 64 - 2) ≡ None }
    ensures long_text { type_error types.utf8 (2 ^ 64 - 1) ≡ Some Overflow }
    ensures large_text { type_error types.large_utf8 (2 ^ 64 - 2) ≡ None }
    ensures long_large_text { type_error types.large_utf8 (2 ^ 64 - 1) ≡ Some Overflow }
    ensures bytes { type_error (types.fixed_size_binary (2 ^ 32 + 1)) (2 ^ 32 - 1) ≡ None }
    ensures long_bytes { type_error (types.fixed_size_binary (2 ^ 32)) (2 ^ 32) ≡ Some Overflow }
    ensures list { type_error (list_type types.int32) (2 ^ 64 - 2) ≡ None }
    ensures long_list { type_error (list_type types.int32) (2 ^ 64 - 1) ≡ Some Overflow }
    ensures large_list { type_error (types.large_list (a_field types.int32)) (2 ^ 64 - 2) ≡ None }
    ensures long_large_list { type_error (types.large_list (a_field types.int32)) (2 ^ 64 - 1) ≡ Some Overflow }
    ensures entries { type_error (types.map (a_field (types.struct (two_fields types.utf8 types.utf8))) false) (2 ^ 64 - 2) ≡ None }
    ensures long_entries { type_error (types.map (a_field (types.struct (two_fields types.utf8 types.utf8))) false) (2 ^ 64 - 1) ≡ Some Overflow }
    ensures long_product { type_error (types.fixed_size_list (a_field types.int8) (2 ^ 32)) (2 ^ 32) ≡ Some Overflow }
    ensures record { type_error (types.struct (one_field types.utf8)) (2 ^ 64 - 2) ≡ None }
    ensures long_record { type_error (types.struct (one_field types.utf8)) (2 ^ 64 - 1) ≡ Some Overflow }
    ensures dense { type_error (types.union (one_field types.int32) None modes.Dense) (2 ^ 31) ≡ None }
    ensures long_dense { type_error (types.union (one_field types.int32) None modes.Dense) (2 ^ 31 + 1) ≡ Some Overflow }
    ensures sparse { type_error (types.union (one_field types.int32) None modes.Sparse) (2 ^ 64 - 1) ≡ None }
{}

/// The number of values and of their bytes. A string or binary value counts its bytes, any other slot none.
pub fn values()
    ensures counted { bytes_held (slots.utf8 (97 ∷ 98 ∷ []) ∷ slots.null ∷ slots.bytes (1 ∷ 2 ∷ 3 ∷ []) ∷ slots.boolean true ∷ slots.number (pos 7 ∷ []) ∷ []) ≡ 5 }
    ensures last { (xs : List Slot) → length xs ≡ 2 ^ 64 - 2 → item_refusal (an_int 7) (builders.flat types.int32 xs) ≡ None }
    ensures one_more { (xs : List Slot) → length xs ≡ 2 ^ 64 - 1 → item_refusal (an_int 7) (builders.flat types.int32 xs) ≡ Some Overflow }
    ensures last_null { (xs : List Slot) → length xs ≡ 2 ^ 64 - 2 → item_refusal items.null (builders.flat types.int32 xs) ≡ None }
    ensures one_null_more { (xs : List Slot) → length xs ≡ 2 ^ 64 - 1 → item_refusal items.null (builders.flat types.int32 xs) ≡ Some Overflow }
    ensures last_text { (xs : List Slot) → length xs < 2 ^ 64 - 1 → bytes_held xs ≡ 2 ^ 31 - 3 → item_refusal (some_text (97 ∷ 98 ∷ [])) (builders.flat types.utf8 xs) ≡ None }
    ensures text_past { (xs : List Slot) → length xs < 2 ^ 64 - 1 → bytes_held xs ≡ 2 ^ 31 - 2 → item_refusal (some_text (97 ∷ 98 ∷ [])) (builders.flat types.utf8 xs) ≡ Some Overflow }
    ensures last_bytes { (xs : List Slot) → length xs < 2 ^ 64 - 1 → bytes_held xs ≡ 2 ^ 31 - 3 → item_refusal (some_bytes (1 ∷ 2 ∷ [])) (builders.flat types.binary xs) ≡ None }
    ensures bytes_past { (xs : List Slot) → length xs < 2 ^ 64 - 1 → bytes_held xs ≡ 2 ^ 31 - 2 → item_refusal (some_bytes (1 ∷ 2 ∷ [])) (builders.flat types.binary xs) ≡ Some Overflow }
    ensures last_large_text { (xs : List Slot) → length xs < 2 ^ 64 - 1 → bytes_held xs ≡ 2 ^ 63 - 3 → item_refusal (some_text (97 ∷ 98 ∷ [])) (builders.flat types.large_utf8 xs) ≡ None }
    ensures large_text_past { (xs : List Slot) → length xs < 2 ^ 64 - 1 → bytes_held xs ≡ 2 ^ 63 - 2 → item_refusal (some_text (97 ∷ 98 ∷ [])) (builders.flat types.large_utf8 xs) ≡ Some Overflow }
    ensures last_of_size { (xs : List Slot) → length xs ≡ 2 ^ 63 - 2 → item_refusal (some_bytes (1 ∷ 2 ∷ [])) (builders.flat (types.fixed_size_binary 2) xs) ≡ None }
    ensures kind_first { (xs : List Slot) → length xs ≡ 2 ^ 64 - 1 → item_refusal (a_text 97) (builders.flat (types.fixed_size_binary 2) xs) ≡ Some (InvalidArgumentError ItemType) }
    ensures then_size { (xs : List Slot) → length xs ≡ 2 ^ 64 - 1 → item_refusal (some_bytes (1 ∷ [])) (builders.flat (types.fixed_size_binary 2) xs) ≡ Some (InvalidArgumentError ItemSize) }
    ensures of_size_past { (xs : List Slot) → length xs ≡ 2 ^ 63 - 1 → item_refusal (some_bytes (1 ∷ 2 ∷ [])) (builders.flat (types.fixed_size_binary 2) xs) ≡ Some Overflow }
{}

/// The number of rows of a dictionary when a known value is pushed.
pub fn known_values()
    ensures last { (keys : List (Option ℕ)) → length keys ≡ 2 ^ 64 - 2 → item_refusal (an_int 7) (keyed_seven keys) ≡ None }
    ensures one_more { (keys : List (Option ℕ)) → length keys ≡ 2 ^ 64 - 1 → item_refusal (an_int 7) (keyed_seven keys) ≡ Some Overflow }
{}

/// The number of null rows: dictionaries of each key type, structs and their fields, and lists.
pub fn null_rows()
    ensures last_key { (k : IntegerType) (t : TypeTree) (ks : List (Option ℕ)) (c : BuilderTree) → length ks ≡ 2 ^ 64 - 2 → item_refusal items.null (builders.dictionary k t ks c) ≡ None }
    ensures one_key_more { (k : IntegerType) (t : TypeTree) (ks : List (Option ℕ)) (c : BuilderTree) → length ks ≡ 2 ^ 64 - 1 → item_refusal items.null (builders.dictionary k t ks c) ≡ Some Overflow }
    ensures last_record { (t : TypeTree) (bits : List Bool) → length bits ≡ 2 ^ 64 - 2 → item_refusal items.null (int_records t bits) ≡ None }
    ensures one_record_more { (t : TypeTree) (bits : List Bool) → length bits ≡ 2 ^ 64 - 1 → item_refusal items.null (int_records t bits) ≡ Some Overflow }
    ensures over_a_field { (xs : List Slot) → length xs ≡ 2 ^ 64 - 2 → item_refusal items.null (no_records (builders.flat types.null xs)) ≡ None }
    ensures last_large_row { (t : TypeTree) (rows : List Row) (c : BuilderTree) → length rows ≡ 2 ^ 64 - 2 → item_refusal items.null (builders.list true t rows c) ≡ None }
    ensures one_large_row_more { (t : TypeTree) (rows : List Row) (c : BuilderTree) → length rows ≡ 2 ^ 64 - 1 → item_refusal items.null (builders.list true t rows c) ≡ Some Overflow }
{}

/// The offset where the items of a pushed list end, with 32-bit and 64-bit offsets, and the number of lists.
pub fn pushed_rows()
    ensures last_item { (xs : List Slot) → length xs ≡ 2 ^ 31 - 2 → item_refusal (items_of (items.null ∷ [])) (over_nulls false xs) ≡ None }
    ensures item_past { (xs : List Slot) → length xs ≡ 2 ^ 31 - 1 → item_refusal (items_of (items.null ∷ [])) (over_nulls false xs) ≡ Some Overflow }
    ensures last_large_item { (xs : List Slot) → length xs ≡ 2 ^ 63 - 2 → item_refusal (items_of (items.null ∷ [])) (over_nulls true xs) ≡ None }
    ensures large_item_past { (xs : List Slot) → length xs ≡ 2 ^ 63 - 1 → item_refusal (items_of (items.null ∷ [])) (over_nulls true xs) ≡ Some Overflow }
    ensures last_row { (large : Bool) (rows : List Row) → length rows ≡ 2 ^ 64 - 2 → item_refusal (items_of []) (rows_over_nothing large rows) ≡ None }
    ensures one_row_more { (large : Bool) (rows : List Row) → length rows ≡ 2 ^ 64 - 1 → item_refusal (items_of []) (rows_over_nothing large rows) ≡ Some Overflow }
{}

/// The number of added rows, also by their lengths, and the offset where their items end.
pub fn rows_added()
    ensures last { (large : Bool) (rows : List Row) → length rows ≡ 2 ^ 64 - 2 → end_from 0 rows ≡ 0 → Pass (row_checks (rows_over_nothing large rows)) }
    ensures one_more { (large : Bool) (rows : List Row) → length rows ≡ 2 ^ 64 - 1 → end_from 0 rows ≡ 0 → FailFirst Overflow (row_checks (rows_over_nothing large rows)) }
    ensures last_two { (large : Bool) (rows : List Row) → length rows ≡ 2 ^ 64 - 3 → end_from 0 rows ≡ 0 → Pass (lengths_checks (None ∷ Some 0 ∷ []) (rows_over_nothing large rows)) }
    ensures two_more { (large : Bool) (rows : List Row) → length rows ≡ 2 ^ 64 - 2 → end_from 0 rows ≡ 0 → FailFirst Overflow (lengths_checks (None ∷ Some 0 ∷ []) (rows_over_nothing large rows)) }
    ensures last_item { (xs : List Slot) → length xs ≡ 2 ^ 31 - 1 → Pass (lengths_checks (Some (2 ^ 31 - 1) ∷ []) (over_nulls false xs)) }
    ensures item_past { (xs : List Slot) → length xs ≡ 2 ^ 31 → FailFirst Overflow (lengths_checks (Some (2 ^ 31) ∷ []) (over_nulls false xs)) }
    ensures last_large_item { (xs : List Slot) → length xs ≡ 2 ^ 63 - 1 → Pass (lengths_checks (Some (2 ^ 63 - 1) ∷ []) (over_nulls true xs)) }
    ensures large_item_past { (xs : List Slot) → length xs ≡ 2 ^ 63 → FailFirst Overflow (lengths_checks (Some (2 ^ 63) ∷ []) (over_nulls true xs)) }
{}

/// Joined builders: the number of rows, the offset where items end, the number of bytes, and the level below a list.
pub fn joined_rows()
    ensures last { (large : Bool) (rows more : List Row) → length rows ≡ 2 ^ 64 - 2 → length more ≡ 1 → end_from 0 rows ≡ 0 → end_from 0 more ≡ 0 → Pass (append_checks large rows more) }
    ensures one_more { (large : Bool) (rows more : List Row) → length rows ≡ 2 ^ 64 - 1 → length more ≡ 1 → FailFirst Overflow (append_checks large rows more) }
    ensures last_item { (rows more : List Row) → length rows ≡ 1 → length more ≡ 1 → end_from 0 rows ≡ 2 ^ 31 - 2 → end_from 0 more ≡ 1 → Pass (append_checks false rows more) }
    ensures item_past { (rows more : List Row) → length rows ≡ 1 → length more ≡ 1 → end_from 0 rows ≡ 2 ^ 31 - 1 → end_from 0 more ≡ 1 → FailFirst Overflow (append_checks false rows more) }
    ensures last_large_item { (rows more : List Row) → length rows ≡ 1 → length more ≡ 1 → end_from 0 rows ≡ 2 ^ 63 - 2 → end_from 0 more ≡ 1 → Pass (append_checks true rows more) }
    ensures large_item_past { (rows more : List Row) → length rows ≡ 1 → length more ≡ 1 → end_from 0 rows ≡ 2 ^ 63 - 1 → end_from 0 more ≡ 1 → FailFirst Overflow (append_checks true rows more) }
    ensures last_pair { (xs ys : List Bool) → length xs ≡ 2 ^ 63 - 2 → length ys ≡ 1 → Pass (join_checks (pair_rows xs) (pair_rows ys)) }
    ensures pair_past { (xs ys : List Bool) → length xs ≡ 2 ^ 63 - 1 → length ys ≡ 1 → FailFirst Overflow (join_checks (pair_rows xs) (pair_rows ys)) }
    ensures last_text { (xs ys : List Slot) → length xs ≡ 1 → length ys ≡ 1 → bytes_held xs ≡ 2 ^ 31 - 2 → bytes_held ys ≡ 1 → Pass (text_checks xs ys) }
    ensures text_past { (xs ys : List Slot) → length xs ≡ 1 → length ys ≡ 1 → bytes_held xs ≡ 2 ^ 31 - 1 → bytes_held ys ≡ 1 → FailFirst Overflow (text_checks xs ys) }
    ensures below_a_list { (xs ys : List Slot) → length xs ≡ 2 ^ 64 - 1 → length ys ≡ 1 → FailFirst Overflow (join_checks (over_nulls true xs) (over_nulls true ys)) }
{}

/// Levels past a limit: the number of rows, values, items and bytes, at this level and below.
pub fn levels()
    ensures most { (xs : List Slot) → length xs ≡ 2 ^ 64 - 1 → over_limits (builders.flat types.null xs) ≡ false }
    ensures past { (xs : List Slot) → length xs ≡ 2 ^ 64 → over_limits (builders.flat types.null xs) ≡ true }
    ensures most_rows { (rows : List Row) → length rows ≡ 2 ^ 64 - 1 → end_from 0 rows ≡ 0 → over_limits (rows_over_nothing false rows) ≡ false }
    ensures rows_past { (rows : List Row) → length rows ≡ 2 ^ 64 → over_limits (rows_over_nothing false rows) ≡ true }
    ensures most_items { (rows : List Row) → length rows ≡ 1 → end_from 0 rows ≡ 2 ^ 31 - 1 → over_limits (rows_over_nothing false rows) ≡ false }
    ensures items_past { (rows : List Row) → length rows ≡ 1 → end_from 0 rows ≡ 2 ^ 31 → over_limits (rows_over_nothing false rows) ≡ true }
    ensures most_large_items { (rows : List Row) → length rows ≡ 1 → end_from 0 rows ≡ 2 ^ 63 - 1 → over_limits (rows_over_nothing true rows) ≡ false }
    ensures large_items_past { (rows : List Row) → length rows ≡ 1 → end_from 0 rows ≡ 2 ^ 63 → over_limits (rows_over_nothing true rows) ≡ true }
    ensures most_pairs { (bits : List Bool) → length bits ≡ 2 ^ 63 - 1 → over_limits (pair_rows bits) ≡ false }
    ensures pairs_past { (bits : List Bool) → length bits ≡ 2 ^ 63 → over_limits (pair_rows bits) ≡ true }
    ensures most_values { over_limits (numbers_by integers.Int8 128) ≡ false }
    ensures values_past { over_limits (numbers_by integers.Int8 129) ≡ true }
    ensures most_records { (t : TypeTree) (bits : List Bool) → length bits ≡ 2 ^ 64 - 1 → over_limits (int_records t bits) ≡ false }
    ensures records_past { (t : TypeTree) (bits : List Bool) → length bits ≡ 2 ^ 64 → over_limits (int_records t bits) ≡ true }
    ensures below_a_record { (xs : List Slot) → length xs ≡ 2 ^ 64 → over_limits (no_records (builders.flat types.null xs)) ≡ true }
    ensures below_a_list { (xs : List Slot) → length xs ≡ 2 ^ 64 → over_limits (over_nulls true xs) ≡ true }
{}
