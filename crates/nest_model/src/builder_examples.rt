//! Worked examples of builders.

ghost use Rattle.std.specs.Prelude.{◌≡◌, false, [], ◌∷◌, Some, None};
ghost use Rattle.nest_memory.specs.TypeTree as types;
ghost use Rattle.nest_memory.specs.declared.datatypes.IntegerType.TheVariants as integers;
ghost use Rattle.nest_model.specs.Slot as slots;
ghost use Rattle.nest_model.specs.Examples.{number, numbers, list_slot, record_slot};
ghost use Rattle.nest_model.specs.BuilderTree as builders;
ghost use Rattle.nest_model.specs.BuilderTree.{builder_len};
ghost use Rattle.nest_model.specs.BuilderLevels.{own_slots, levels, rows_needed};
ghost use Rattle.nest_model.specs.BuilderComplete.{IsComplete, truncate_builder, emptied};
ghost use Rattle.nest_model.specs.BuilderItem as items;
ghost use Rattle.nest_model.specs.BuilderAddRow.{with_row};
ghost use Rattle.nest_model.specs.BuilderAppend.{appended, all_appended};
ghost use Rattle.nest_model.specs.BuilderExamples.{an_int, some_ints, items_of, a_text, text_slot, no_ints, no_pairs, no_records, short_keys, with_record, lists_of_records, three_pending, records_with_a_null, letters, full_dictionary, x_struct, three_rows};

/// Lists of structs of a dictionary: each level; two equal strings share one value.
pub fn dictionary_in_records_in_lists()
    ensures levels { levels lists_of_records
        ≡ (list_slot (x_struct ∷ x_struct ∷ []) ∷ slots.null ∷ [])
        ∷ (x_struct ∷ x_struct ∷ [])
        ∷ (text_slot 120 ∷ text_slot 120 ∷ [])
        ∷ (text_slot 120 ∷ []) ∷ [] }
    ensures needed { rows_needed lists_of_records 2 ≡ 2 ∷ 2 ∷ 2 ∷ 1 ∷ [] }
    ensures complete { IsComplete lists_of_records }
    ensures none { rows_needed lists_of_records 0 ≡ 0 ∷ 0 ∷ 0 ∷ 0 ∷ [] }
    ensures emptied { truncate_builder lists_of_records 0 ≡ emptied lists_of_records }
{}

/// Rows of a fixed-size list of size 2: two items make a row, and a null row has two null items.
pub fn pairs()
    ensures two { levels (appended (items_of (some_ints (5 ∷ 6 ∷ []))) no_pairs) ≡ (numbers (5 ∷ 6 ∷ []) ∷ []) ∷ (number 5 ∷ number 6 ∷ []) ∷ [] }
    ensures null_row { levels (appended items.null no_pairs) ≡ (slots.null ∷ []) ∷ (slots.null ∷ slots.null ∷ []) ∷ [] }
{}

/// Rows added over pending items: by their lengths, one row, and a null row.
pub fn rows_over_waiting_items()
    ensures by_lengths { own_slots three_rows ≡ numbers (1 ∷ 2 ∷ []) ∷ slots.null ∷ numbers (3 ∷ []) ∷ [] }
    ensures child_stays { levels three_rows
        ≡ (numbers (1 ∷ 2 ∷ []) ∷ slots.null ∷ numbers (3 ∷ []) ∷ []) ∷ (number 1 ∷ number 2 ∷ number 3 ∷ []) ∷ [] }
    ensures under_a_null { levels (with_row false three_pending) ≡ (slots.null ∷ []) ∷ (number 1 ∷ number 2 ∷ number 3 ∷ []) ∷ [] }
{}

/// A dictionary keeps each value once, in order of first acceptance; a null adds no value.
pub fn values_of_a_dictionary()
    ensures keys { letters ≡ builders.dictionary integers.Int8 short_keys (Some 0 ∷ Some 1 ∷ None ∷ Some 2 ∷ []) (builders.flat types.utf8 (text_slot 65 ∷ text_slot 66 ∷ text_slot 67 ∷ [])) }
    ensures slots { own_slots letters ≡ text_slot 65 ∷ text_slot 66 ∷ slots.null ∷ text_slot 67 ∷ [] }
    ensures again { levels (appended (a_text 66) letters)
        ≡ (text_slot 65 ∷ text_slot 66 ∷ slots.null ∷ text_slot 67 ∷ text_slot 66 ∷ []) ∷ (text_slot 65 ∷ text_slot 66 ∷ text_slot 67 ∷ []) ∷ [] }
    ensures known { builder_len (appended (an_int 127) full_dictionary) ≡ 129 }
{}

/// Structs: a null row has a null in the child.
pub fn records()
    ensures slots { levels records_with_a_null ≡ (record_slot (number 1 ∷ []) ∷ slots.null ∷ record_slot (number 2 ∷ []) ∷ []) ∷ (number 1 ∷ slots.null ∷ number 2 ∷ []) ∷ [] }
    ensures null_row { appended items.null (no_records no_ints) ≡ with_record false items.null (no_records no_ints) }
{}

/// Truncation keeps exactly the items that the first rows need.
pub fn first_rows()
    ensures of_lists { levels (truncate_builder three_rows 1) ≡ (numbers (1 ∷ 2 ∷ []) ∷ []) ∷ (number 1 ∷ number 2 ∷ []) ∷ [] }
    ensures of_pairs { levels (truncate_builder (all_appended (items.null ∷ items_of (some_ints (5 ∷ 6 ∷ [])) ∷ []) no_pairs) 1) ≡ (slots.null ∷ []) ∷ (slots.null ∷ slots.null ∷ []) ∷ [] }
    ensures of_a_dictionary { levels (truncate_builder letters 1) ≡ (text_slot 65 ∷ []) ∷ (text_slot 65 ∷ []) ∷ [] }
    ensures of_records { levels (truncate_builder records_with_a_null 2) ≡ (record_slot (number 1 ∷ []) ∷ slots.null ∷ []) ∷ (number 1 ∷ slots.null ∷ []) ∷ [] }
{}

/// A null list adds no item.
pub fn null_lists()
    ensures null_list { levels (appended items.null three_rows)
        ≡ (numbers (1 ∷ 2 ∷ []) ∷ slots.null ∷ numbers (3 ∷ []) ∷ slots.null ∷ []) ∷ (number 1 ∷ number 2 ∷ number 3 ∷ []) ∷ [] }
{}
