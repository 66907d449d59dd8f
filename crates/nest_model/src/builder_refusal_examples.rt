//! Worked examples: the error of each refused push, row and join.

ghost use Rattle.std.specs.Prelude.{◌≡◌, ◌+◌, ◌-◌, ◌^◌, pos, Bool, true, false, List, [], ◌∷◌, length, Some, None};
ghost use Rattle.nest_memory.specs.TypeTree as types;
ghost use Rattle.nest_memory.specs.TypeTree.{TypeTree};
ghost use Rattle.nest_memory.specs.declared.datatypes.IntegerType.TheVariants as integers;
ghost use Rattle.nest_memory.specs.declared.datatypes.physical_type.PrimitiveType.TheVariants as primitives;
ghost use Rattle.nest_memory.specs.declared.error.Error.TheVariants.{InvalidArgumentError, Overflow};
ghost use Rattle.nest_memory.specs.declared.error.ArgumentError.TheVariants.{ItemSize, ItemType, Incomplete, LengthsSum};
ghost use Rattle.nest_model.specs.Checks.{Pass, FailFirst};
ghost use Rattle.nest_model.specs.Slot.{Slot};
ghost use Rattle.nest_model.specs.BuilderTree as builders;
ghost use Rattle.nest_model.specs.BuilderTree.{BuilderTree, BuilderTrees, key_count};
ghost use Rattle.nest_model.specs.BuilderItem as items;
ghost use Rattle.nest_model.specs.BuilderInput.{value_item};
ghost use Rattle.nest_model.specs.BuilderAppend.{appended, all_appended};
ghost use Rattle.nest_model.specs.BuilderRefusals.{flat_passes, item_refusal, value_refusal, plain_refusal, required_item, requirement_refusal};
ghost use Rattle.nest_model.specs.BuilderReading.{complete, begun, read_refusal};
ghost use Rattle.nest_model.specs.BuilderAddRow.{row_checks, lengths_checks};
ghost use Rattle.nest_model.specs.BuilderJoin.{join_checks};
ghost use Rattle.nest_model.specs.Examples.{extended};
ghost use Rattle.nest_model.specs.BuilderRow.{Row};
ghost use Rattle.nest_model.specs.BuilderExamples.{an_int, some_ints, items_of, a_text, some_bytes, no_ints, no_lists, no_pairs, no_records, no_bytes, list_of, pairs_of, records_of, in_child, three_pending, two_pending, letters, full_dictionary, numbers_by, bytes_by, over_nulls, int_rows, pair_rows, nulls};

/// Fixed-size lists refuse another number of items, also at a level below. A refused item comes before the number.
pub fn pairs()
    ensures two { item_refusal (items_of (some_ints (5 ∷ 6 ∷ []))) no_pairs ≡ None }
    ensures four { item_refusal (items_of (some_ints (1 ∷ 2 ∷ 3 ∷ 4 ∷ []))) no_pairs ≡ Some (InvalidArgumentError ItemSize) }
    ensures nothing { item_refusal (items_of []) no_pairs ≡ Some (InvalidArgumentError ItemSize) }
    ensures below { item_refusal (items_of (items_of (some_ints (1 ∷ 2 ∷ [])) ∷ items_of (some_ints (3 ∷ [])) ∷ [])) (no_lists no_pairs) ≡ Some (InvalidArgumentError ItemSize) }
    ensures item_first { item_refusal (items_of (a_text 120 ∷ [])) no_pairs ≡ Some (InvalidArgumentError ItemType) }
    ensures begun { read_refusal (begun (items_of (some_ints (1 ∷ 2 ∷ [])) ∷ []) (complete (items_of (some_ints (3 ∷ []))))) (no_lists no_pairs) ≡ Some (InvalidArgumentError ItemSize) }
    ensures one_of_two { read_refusal (begun (an_int 1 ∷ []) (complete (an_int 2))) no_pairs ≡ None }
{}

/// The kind of a value is checked before its size. Fixed-size binary values that are shorter or longer are refused.
pub fn values()
    ensures text_for_numbers { item_refusal (a_text 120) no_ints ≡ Some (InvalidArgumentError ItemType) }
    ensures another_number { item_refusal (items.plain (items.native primitives.Int64 (pos 7 ∷ []))) no_ints ≡ Some (InvalidArgumentError ItemType) }
    ensures value_for_a_list { item_refusal (an_int 1) (no_lists no_ints) ≡ Some (InvalidArgumentError ItemType) }
    ensures bytes_for_texts { item_refusal (some_bytes (1 ∷ [])) (builders.flat types.large_utf8 []) ≡ Some (InvalidArgumentError ItemType) }
    ensures text_for_bytes { item_refusal (a_text 120) no_bytes ≡ Some (InvalidArgumentError ItemType) }
    ensures shorter { item_refusal (some_bytes (1 ∷ [])) no_bytes ≡ Some (InvalidArgumentError ItemSize) }
    ensures longer { item_refusal (some_bytes (1 ∷ 2 ∷ 3 ∷ [])) no_bytes ≡ Some (InvalidArgumentError ItemSize) }
    ensures of_that_size { item_refusal (some_bytes (1 ∷ 2 ∷ [])) no_bytes ≡ None }
{}

/// Lists and structs accept no plain value, and only lists accept a list, also one that was read in part.
pub fn other_kinds()
    ensures value_for_pairs { item_refusal (an_int 1) no_pairs ≡ Some (InvalidArgumentError ItemType) }
    ensures value_for_a_record { item_refusal (an_int 1) (no_records no_ints) ≡ Some (InvalidArgumentError ItemType) }
    ensures list_for_numbers { item_refusal (items_of []) no_ints ≡ Some (InvalidArgumentError ItemType) }
    ensures list_for_keys { item_refusal (items_of []) letters ≡ Some (InvalidArgumentError ItemType) }
    ensures list_for_a_record { item_refusal (items_of []) (no_records no_ints) ≡ Some (InvalidArgumentError ItemType) }
    ensures begun_for_numbers { read_refusal (begun [] (complete items.null)) no_ints ≡ Some (InvalidArgumentError ItemType) }
    ensures begun_for_keys { read_refusal (begun [] (complete items.null)) letters ≡ Some (InvalidArgumentError ItemType) }
    ensures begun_for_a_record { read_refusal (begun [] (complete items.null)) (no_records no_ints) ≡ Some (InvalidArgumentError ItemType) }
{}

/// A push that requires a plain value reads `None` as null, and checks the kind of a value first.
pub fn required_values()
    ensures none { required_item None ≡ items.null }
    ensures value { required_item (Some (items.utf8 (120 ∷ []))) ≡ a_text 120 }
    ensures no_room { (xs : List Slot) → length xs ≡ 2 ^ 64 - 1 → requirement_refusal None (nulls xs) ≡ Some Overflow }
    ensures room { requirement_refusal None no_ints ≡ None }
    ensures kind_first { requirement_refusal (Some (items.utf8 (120 ∷ []))) full_dictionary ≡ Some (InvalidArgumentError ItemType) }
    ensures no_key { requirement_refusal (Some (items.native primitives.Int32 (pos 128 ∷ []))) full_dictionary ≡ Some Overflow }
    ensures given_none { value_item items.utf8 None ≡ items.null }
    ensures given { value_item items.utf8 (Some (120 ∷ [])) ≡ a_text 120 }
{}

/// A dictionary without a free key refuses a new value, before the checks of its values, and accepts a known value.
/// If the kind is checked first, a value of another kind is refused for its kind.
pub fn full_dictionaries()
    ensures new { item_refusal (an_int 128) full_dictionary ≡ Some Overflow }
    ensures known { item_refusal (an_int 127) full_dictionary ≡ None }
    ensures last { item_refusal (an_int 127) (numbers_by integers.Int8 127) ≡ None }
    ensures last_of_unsigned { item_refusal (an_int 255) (numbers_by integers.UInt8 255) ≡ None }
    ensures new_of_unsigned { item_refusal (an_int 256) (numbers_by integers.UInt8 256) ≡ Some Overflow }
    ensures another_size { item_refusal (some_bytes (1 ∷ 2 ∷ 3 ∷ [])) (bytes_by integers.Int8 128) ≡ Some Overflow }
    ensures known_bytes { item_refusal (some_bytes (0 ∷ 127 ∷ [])) (bytes_by integers.Int8 128) ≡ None }
    ensures another_size_of_none { item_refusal (some_bytes (1 ∷ 2 ∷ 3 ∷ [])) (bytes_by integers.Int8 0) ≡ Some (InvalidArgumentError ItemSize) }
    ensures another_kind { item_refusal (an_int 1) letters ≡ Some (InvalidArgumentError ItemType) }
    ensures another_kind_in_full { value_refusal (items.utf8 (120 ∷ [])) full_dictionary ≡ Some Overflow }
    ensures kind_first { plain_refusal (items.utf8 (120 ∷ [])) full_dictionary ≡ Some (InvalidArgumentError ItemType) }
{}

/// A row is added over the pending items. Items of another type or too few items are refused.
/// A fixed-size list refuses too many.
pub fn rows_added()
    ensures list { Pass (row_checks three_pending) }
    ensures empty_row { Pass (row_checks (appended (items_of (some_ints (1 ∷ []))) (no_lists no_ints))) }
    ensures behind_its_rows { FailFirst (InvalidArgumentError Incomplete) (row_checks (in_child (λ c. no_ints) (appended (items_of (some_ints (1 ∷ []))) (no_lists no_ints)))) }
    ensures list_of_another { FailFirst (InvalidArgumentError Incomplete) (row_checks (list_of types.utf8 no_ints)) }
    ensures pair { Pass (row_checks (in_child (all_appended (some_ints (1 ∷ 2 ∷ []))) no_pairs)) }
    ensures too_few { FailFirst (InvalidArgumentError Incomplete) (row_checks (in_child (appended (an_int 1)) no_pairs)) }
    ensures too_many { FailFirst (InvalidArgumentError ItemSize) (row_checks (in_child (all_appended (some_ints (1 ∷ 2 ∷ 3 ∷ 4 ∷ []))) no_pairs)) }
    ensures pair_of_another { FailFirst (InvalidArgumentError Incomplete) (row_checks (in_child (all_appended (some_ints (1 ∷ 2 ∷ 3 ∷ []))) (pairs_of types.utf8 no_ints))) }
    ensures record { Pass (row_checks (in_child (appended (an_int 1)) (no_records no_ints))) }
    ensures untold { FailFirst (InvalidArgumentError Incomplete) (row_checks (no_records no_ints)) }
    ensures two_records { FailFirst (InvalidArgumentError Incomplete) (row_checks (in_child (all_appended (some_ints (1 ∷ 2 ∷ []))) (no_records no_ints))) }
    ensures record_of_another { FailFirst (InvalidArgumentError Incomplete) (row_checks (in_child (appended (an_int 1)) (records_of types.utf8 no_ints))) }
    ensures row_of_numbers { FailFirst (InvalidArgumentError ItemType) (row_checks no_ints) }
    ensures no_rows { FailFirst (InvalidArgumentError ItemType) (row_checks letters) }
    ensures never_past_of_size { (t : TypeTree) (bits : List Bool) (c : BuilderTree) → FailFirst Overflow (row_checks (builders.fixed_size_list t bits c)) → ⊥ }
    ensures never_past_of_records { (t : TypeTree) (bits : List Bool) (cs : BuilderTrees) → FailFirst Overflow (row_checks (builders.struct t bits cs)) → ⊥ }
{}

/// Rows added by their lengths start after the last row and end where the items end. The items have the list's type.
pub fn with_rows()
    ensures all { Pass (lengths_checks (Some 2 ∷ None ∷ Some 1 ∷ []) three_pending) }
    ensures fewer { FailFirst (InvalidArgumentError LengthsSum) (lengths_checks (Some 2 ∷ []) three_pending) }
    ensures after_a_row { Pass (lengths_checks (Some 2 ∷ []) two_pending) }
    ensures with_that_row { FailFirst (InvalidArgumentError LengthsSum) (lengths_checks (Some 3 ∷ []) two_pending) }
    ensures of_numbers { FailFirst (InvalidArgumentError ItemType) (lengths_checks [] no_ints) }
    ensures of_pairs { FailFirst (InvalidArgumentError ItemType) (lengths_checks [] no_pairs) }
    ensures of_keys { FailFirst (InvalidArgumentError ItemType) (lengths_checks [] letters) }
    ensures of_records { FailFirst (InvalidArgumentError ItemType) (lengths_checks [] (no_records no_ints)) }
    ensures of_another { FailFirst (InvalidArgumentError Incomplete) (lengths_checks (Some 2 ∷ []) (list_of types.utf8 (all_appended (some_ints (1 ∷ 2 ∷ 3 ∷ [])) no_ints))) }
{}

/// Builders of equal types are joined. The types are checked before the total length.
pub fn joins()
    ensures same { Pass (join_checks three_pending two_pending) }
    ensures texts { Pass (join_checks (builders.flat types.large_utf8 []) (builders.flat types.large_utf8 [])) }
    ensures another { FailFirst (InvalidArgumentError ItemType) (join_checks no_ints (builders.flat types.date32 [])) }
    ensures extension { FailFirst (InvalidArgumentError ItemType) (join_checks no_ints (builders.flat (extended types.int32) [])) }
    ensures of_extension { FailFirst (InvalidArgumentError ItemType) (join_checks (builders.flat (extended types.int32) []) no_ints) }
    ensures list_of_extension { FailFirst (InvalidArgumentError ItemType) (join_checks (no_lists no_ints) (no_lists (builders.flat (extended types.int32) []))) }
    ensures another_first { (xs ys : List Slot) → length xs ≡ 2 ^ 64 - 1 → length ys ≡ 1 → FailFirst (InvalidArgumentError ItemType) (join_checks (nulls xs) (builders.flat types.boolean ys)) }
    ensures past { (xs ys : List Slot) → length xs ≡ 2 ^ 64 - 1 → length ys ≡ 1 → FailFirst Overflow (join_checks (nulls xs) (nulls ys)) }
    ensures longest { (xs ys : List Slot) → length xs ≡ 2 ^ 64 - 2 → length ys ≡ 1 → Pass (join_checks (nulls xs) (nulls ys)) }
{}

/// The largest lengths, products and offsets are accepted; the next larger are not.
pub fn limits()
    ensures longest { flat_passes types.null (2 ^ 64 - 1) 0 ≡ false }
    ensures too_long { flat_passes types.null (2 ^ 64) 0 ≡ true }
    ensures longest_product { flat_passes (types.fixed_size_binary (2 ^ 32 + 1)) (2 ^ 32 - 1) 0 ≡ false }
    ensures too_long_product { flat_passes (types.fixed_size_binary 2) (2 ^ 63) 0 ≡ true }
    ensures most_bytes { flat_passes types.binary 1 (2 ^ 31 - 1) ≡ false }
    ensures too_many_bytes { flat_passes types.binary 1 (2 ^ 31) ≡ true }
    ensures most_of_text { flat_passes types.utf8 1 (2 ^ 31 - 1) ≡ false }
    ensures too_much_text { flat_passes types.utf8 1 (2 ^ 31) ≡ true }
    ensures most_large_bytes { flat_passes types.large_binary 1 (2 ^ 63 - 1) ≡ false }
    ensures too_many_large_bytes { flat_passes types.large_binary 1 (2 ^ 63) ≡ true }
    ensures most_of_large_text { flat_passes types.large_utf8 1 (2 ^ 63 - 1) ≡ false }
    ensures too_much_large_text { flat_passes types.large_utf8 1 (2 ^ 63) ≡ true }
{}

/// The last offset of a list: the largest is accepted, the next larger is not.
pub fn largest_offsets()
    ensures largest { (xs : List Slot) → length xs ≡ 2 ^ 31 - 1 → Pass (row_checks (over_nulls false xs)) }
    ensures past { (xs : List Slot) → length xs ≡ 2 ^ 31 → FailFirst Overflow (row_checks (over_nulls false xs)) }
    ensures largest_of_large { (xs : List Slot) → length xs ≡ 2 ^ 63 - 1 → Pass (row_checks (over_nulls true xs)) }
    ensures past_of_large { (xs : List Slot) → length xs ≡ 2 ^ 63 → FailFirst Overflow (row_checks (over_nulls true xs)) }
{}

/// The limit of a level is checked after its items and their number.
/// A null row must also fit at each level where it adds a null.
pub fn limits_of_rows()
    ensures item_first { (rows : List Row) → length rows ≡ 2 ^ 64 - 1 → item_refusal (items_of (a_text 120 ∷ [])) (int_rows rows) ≡ Some (InvalidArgumentError ItemType) }
    ensures then_rows { (rows : List Row) → length rows ≡ 2 ^ 64 - 1 → item_refusal (items_of []) (int_rows rows) ≡ Some Overflow }
    ensures number_first { (bits : List Bool) → length bits ≡ 2 ^ 64 - 1 → item_refusal (items_of []) (pair_rows bits) ≡ Some (InvalidArgumentError ItemSize) }
    ensures last_row { (rows : List Row) → length rows ≡ 2 ^ 64 - 2 → item_refusal items.null (int_rows rows) ≡ None }
    ensures one_row_more { (rows : List Row) → length rows ≡ 2 ^ 64 - 1 → item_refusal items.null (int_rows rows) ≡ Some Overflow }
    ensures last_pair { (bits : List Bool) → length bits ≡ 2 ^ 63 - 2 → item_refusal items.null (pair_rows bits) ≡ None }
    ensures one_pair_more { (bits : List Bool) → length bits ≡ 2 ^ 63 - 1 → item_refusal items.null (pair_rows bits) ≡ Some Overflow }
    ensures over_full_items { (xs : List Slot) → length xs ≡ 2 ^ 64 - 1 → item_refusal items.null (over_nulls false xs) ≡ None }
    ensures over_a_full_field { (xs : List Slot) → length xs ≡ 2 ^ 64 - 1 → item_refusal items.null (no_records (nulls xs)) ≡ Some Overflow }
{}

/// The number of values that keys of each type can index.
pub fn keys()
    ensures int8 { key_count integers.Int8 ≡ 128 }
    ensures int16 { key_count integers.Int16 ≡ 32768 }
    ensures int32 { key_count integers.Int32 ≡ 2147483648 }
    ensures int64 { key_count integers.Int64 ≡ 9223372036854775808 }
    ensures uint8 { key_count integers.UInt8 ≡ 256 }
    ensures uint16 { key_count integers.UInt16 ≡ 65536 }
    ensures uint32 { key_count integers.UInt32 ≡ 4294967296 }
    ensures uint64 { key_count integers.UInt64 ≡ 18446744073709551616 }
{}
