//! Worked examples: the slots that arrays represent.

ghost use Rattle.std.specs.Prelude.{◌≡◌, ◌≢◌, ◌-◌, ◌^◌, pos, negsuc, true, false, map, replicate, [], ◌∷◌, Some, None};
ghost use Rattle.nest_memory.specs.declared.datatypes.UnionMode.TheVariants as modes;
ghost use Rattle.nest_memory.specs.declared.datatypes.physical_type.PrimitiveType.TheVariants as primitives;
ghost use Rattle.nest_memory.specs.TypeTree as types;
ghost use Rattle.nest_model.specs.Slot as slots;
ghost use Rattle.nest_model.specs.Slot.{node_counts};
ghost use Rattle.nest_model.specs.Layout as layouts;
ghost use Rattle.nest_model.specs.Accessors.{with_validity};
ghost use Rattle.nest_model.specs.Meaning.{len, slot, slots_of};
ghost use Rattle.nest_model.specs.Slice.{slice_layout};
ghost use Rattle.nest_model.specs.Part.{field_named};
ghost use Rattle.nest_model.specs.Nullness.{is_null_at, null_count, has_keys};
ghost use Rattle.nest_model.specs.SameArray.{IsSameArray};
ghost use Rattle.nest_model.specs.Selected.{selected, mask_indices};
ghost use Rattle.nest_model.specs.Fits.{Fits};
ghost use Rattle.nest_model.specs.Examples.{ints, texts, dictionaries, number, list_slot, record_slot, numbers, small_lists, deep_lists, small_map, structs, with_ids, eleven_types, in_turn, seven_of, one_row, first_twice, keys_of_keys, one_number, dense_of, one_id, null_text, null_over_items, null_over_nothing, five_by, pairs, two_bytes, greetings, accented, map_over, one_entry, short_keys, lists_slot, keyless, two_fields, flag_and_number};

/// A list with an empty row, and lists whose offsets start after 0 or end before the end of the child.
pub fn lists_of_numbers()
    ensures rows { slots_of small_lists ≡ numbers (1 ∷ 2 ∷ []) ∷ numbers [] ∷ numbers (3 ∷ []) ∷ numbers (4 ∷ 5 ∷ []) ∷ [] }
    ensures ends_earlier { slots_of (five_by (0 ∷ 2 ∷ [])) ≡ numbers (1 ∷ 2 ∷ []) ∷ [] }
    ensures begins_later { slots_of (five_by (1 ∷ 3 ∷ 5 ∷ [])) ≡ numbers (2 ∷ 3 ∷ []) ∷ numbers (4 ∷ 5 ∷ []) ∷ [] }
    ensures of_a_cut { slots_of (slice_layout small_lists 1 2) ≡ numbers [] ∷ numbers (3 ∷ []) ∷ [] }
    ensures no_row_left { slots_of (slice_layout small_lists 4 0) ≡ [] }
{}

/// A list of lists: each row, and its node count.
pub fn lists_of_lists()
    ensures rows { slots_of deep_lists
        ≡ lists_slot ((1 ∷ 2 ∷ []) ∷ (3 ∷ 4 ∷ []) ∷ [])
        ∷ lists_slot ((5 ∷ 6 ∷ 7 ∷ []) ∷ [] ∷ (8 ∷ []) ∷ [])
        ∷ lists_slot ((9 ∷ 10 ∷ []) ∷ []) ∷ [] }
    ensures worth { node_counts (slots_of deep_lists) ≡ 19 }
    ensures fits { Fits deep_lists }
{}

/// A null row that covers an item is the same slot as one that covers none.
pub fn items_under_a_null()
    ensures rows { slots_of null_over_items ≡ list_slot (number 1 ∷ slots.null ∷ []) ∷ slots.null ∷ list_slot [] ∷ [] }
    ensures same { IsSameArray null_over_items null_over_nothing }
    ensures fits { Fits null_over_items }
{}

/// Fixed-size lists: the rows of a slice with a new validity, and its length.
pub fn pairs_of_numbers()
    ensures rows { slots_of (pairs 2 None) ≡ numbers (1 ∷ 2 ∷ []) ∷ numbers (3 ∷ 4 ∷ []) ∷ numbers (5 ∷ 6 ∷ []) ∷ [] }
    ensures length { len (slice_layout (pairs 2 None) 1 2) ≡ 2 }
    ensures of_a_cut { slots_of (with_validity (slice_layout (pairs 2 None) 1 2) (Some (false ∷ true ∷ []))) ≡ slots.null ∷ numbers (5 ∷ 6 ∷ []) ∷ [] }
    ensures threes { slots_of (pairs 3 None) ≡ numbers (1 ∷ 2 ∷ 3 ∷ []) ∷ numbers (4 ∷ 5 ∷ 6 ∷ []) ∷ [] }
{}

/// Fixed-size binary, binary and UTF-8 arrays: the bytes of a null slot are not part of the array.
pub fn bytes_and_texts()
    ensures fixed { slots_of two_bytes ≡ slots.bytes (97 ∷ 98 ∷ []) ∷ slots.bytes (99 ∷ 100 ∷ []) ∷ [] }
    ensures fixed_cut { slots_of (slice_layout two_bytes 1 1) ≡ slots.bytes (99 ∷ 100 ∷ []) ∷ [] }
    ensures same { IsSameArray (greetings (0 ∷ 5 ∷ 8 ∷ []) (Some (true ∷ false ∷ []))) (greetings (0 ∷ 5 ∷ 5 ∷ []) (Some (true ∷ false ∷ []))) }
    ensures other { slots_of (greetings (0 ∷ 5 ∷ 8 ∷ []) None) ≢ slots_of (greetings (0 ∷ 5 ∷ 8 ∷ []) (Some (true ∷ false ∷ []))) }
    ensures character { slots_of (accented (1 ∷ 3 ∷ [])) ≡ slots.utf8 (195 ∷ 169 ∷ []) ∷ [] }
{}

/// Native values as integers: the signed high half first, then the low half.
pub fn halves()
    ensures { slots_of (layouts.primitive primitives.Int256 (types.decimal256 76 0) ((negsuc 0 ∷ pos (2 ^ 128 - 1) ∷ []) ∷ []) None)
        ≡ slots.number (negsuc 0 ∷ pos (2 ^ 128 - 1) ∷ []) ∷ [] }
{}

/// The entries of a map and of its slice, and a null row that covers an entry.
pub fn maps()
    ensures count { len small_map ≡ 2 }
    ensures first { slot small_map 0 ≡ list_slot (record_slot (slots.utf8 (97 ∷ []) ∷ slots.utf8 (98 ∷ []) ∷ []) ∷ []) }
    ensures second { slot (slice_layout small_map 1 1) 0 ≡ list_slot (record_slot (slots.utf8 (97 ∷ 97 ∷ []) ∷ slots.utf8 (98 ∷ 98 ∷ []) ∷ []) ∷ []) }
    ensures null_row { slots_of (map_over (types.struct (two_fields types.utf8 types.utf8)) one_entry (Some (false ∷ []))) ≡ slots.null ∷ [] }
    ensures fits { Fits small_map }
{}

/// A struct: the values of a null row are not part of the array, and a slice keeps the null.
pub fn structs_with_a_null()
    ensures rows { slots_of (structs 19) ≡ flag_and_number false 42 ∷ flag_and_number false 28 ∷ slots.null ∷ flag_and_number true 31 ∷ [] }
    ensures same { IsSameArray (structs 19) (structs 77) }
    ensures worth { node_counts (slots_of (structs 19)) ≡ 10 }
    ensures of_a_cut { slots_of (slice_layout (structs 19) 2 2) ≡ slots.null ∷ flag_and_number true 31 ∷ [] }
    ensures fits { Fits (structs 19) }
{}

/// Dictionaries with the same values at other keys, and a null key compared to a key of a null value.
pub fn dictionary_keys()
    ensures other_keys { IsSameArray (slice_layout (dictionaries (0 ∷ 1 ∷ 0 ∷ []) None (texts (0 ∷ 1 ∷ 2 ∷ []) (97 ∷ 98 ∷ []))) 1 2)
        (dictionaries (1 ∷ 0 ∷ []) None (texts (0 ∷ 1 ∷ 2 ∷ 3 ∷ []) (97 ∷ 98 ∷ 97 ∷ []))) }
    ensures worth { node_counts (slots_of (dictionaries (1 ∷ 0 ∷ []) None (texts (0 ∷ 1 ∷ 2 ∷ 3 ∷ []) (97 ∷ 98 ∷ 97 ∷ [])))) ≡ 2 }
    ensures null_key { IsSameArray (short_keys (pos 0 ∷ []) (Some (false ∷ []))) (short_keys (pos 7 ∷ []) (Some (false ∷ []))) }
    ensures null_value { IsSameArray (dictionaries (0 ∷ []) (Some (false ∷ [])) (texts (0 ∷ 1 ∷ []) (120 ∷ []))) (dictionaries (0 ∷ []) None null_text) }
    ensures keys_of_keys { slots_of keys_of_keys ≡ slots.utf8 (120 ∷ []) ∷ slots.utf8 (120 ∷ []) ∷ [] }
    ensures worth_of_keys { node_counts (slots_of keys_of_keys) ≡ 2 }
    ensures null_by_key { is_null_at (dictionaries (0 ∷ []) (Some (false ∷ [])) (texts (0 ∷ 1 ∷ []) (120 ∷ []))) 0 ≡ true }
    ensures null_by_value { is_null_at (dictionaries (0 ∷ []) None null_text) 0 ≡ false }
{}

/// The fields that the type ids of a union name: by ids, and the later one of two fields with the same id.
pub fn union_fields()
    ensures fields { map (field_named (Some (pos 5 ∷ pos 7 ∷ []))) eleven_types ≡ Some 0 ∷ Some 1 ∷ Some 0 ∷ Some 1 ∷ Some 1 ∷ Some 1 ∷ Some 0 ∷ Some 1 ∷ Some 1 ∷ Some 0 ∷ Some 0 ∷ [] }
    ensures fits { Fits (with_ids (pos 5 ∷ pos 7 ∷ []) eleven_types) }
    ensures picks { slots_of (slice_layout (with_ids (pos 5 ∷ pos 7 ∷ []) eleven_types) 2 2) ≡ slots.pick 0 types.int32 (number 2) ∷ slots.pick 1 types.int32 (number 3) ∷ [] }
    ensures of_a_cut { slots_of (slice_layout (with_ids (pos 5 ∷ pos 7 ∷ []) eleven_types) 9 2) ≡ slots.pick 0 types.int32 (number 9) ∷ slots.pick 0 types.int32 (number 10) ∷ [] }
    ensures later_of_two { slots_of one_id ≡ slots.pick 1 types.utf8 (slots.utf8 (97 ∷ [])) ∷ [] }
{}

/// Two fields of the same data type differ by their indices, also inside a list. Values of null rows do not differ.
pub fn fields_of_one_type()
    ensures first { slots_of (seven_of 0) ≡ slots.pick 0 types.int32 (number 7) ∷ [] }
    ensures second { slots_of (seven_of 1) ≡ slots.pick 1 types.int32 (number 7) ∷ [] }
    ensures other { slots_of (seven_of 0) ≢ slots_of (seven_of 1) }
    ensures worth { node_counts (slots_of (seven_of 0)) ≡ 2 }
    ensures in_lists { slots_of (one_row true (seven_of 0)) ≢ slots_of (one_row true (seven_of 1)) }
    ensures under_a_null { IsSameArray (one_row false (seven_of 0)) (one_row false (seven_of 1)) }
    ensures worth_of_null { node_counts (slots_of (one_row false (seven_of 0))) ≡ 1 }
    ensures same { IsSameArray (first_twice (ints (7 ∷ 8 ∷ [])) (ints (7 ∷ []))) (first_twice (ints (7 ∷ 9 ∷ [])) (ints (5 ∷ []))) }
    ensures worth_of_both { node_counts (slots_of (first_twice (ints (7 ∷ 8 ∷ [])) (ints (7 ∷ [])))) ≡ 4 }
{}

/// The slots of slices of a sparse union, and of a dense union.
pub fn union_picks()
    ensures sparse_cut { slots_of (slice_layout in_turn 1 2) ≡ slots.pick 1 types.utf8 (slots.utf8 (98 ∷ [])) ∷ slots.pick 0 types.int32 (number 12) ∷ [] }
    ensures cut_again { slots_of (slice_layout (slice_layout in_turn 1 3) 1 1) ≡ slots.pick 0 types.int32 (number 12) ∷ [] }
    ensures dense { slots_of (dense_of 0) ≡ slots.pick 0 types.int32 (number 7) ∷ [] }
    ensures dense_fits { Fits (dense_of 0) }
    ensures worth { node_counts (slots_of (slice_layout in_turn 1 2)) ≡ 4 }
    ensures largest_id { slots_of (one_number modes.Sparse (Some (pos 127 ∷ [])) (pos 127 ∷ []) None) ≡ slots.pick 0 types.int32 (number 7) ∷ [] }
{}

/// Null indices: all of a null array, none of a union, those of the validity of a struct.
pub fn nulls_counted()
    ensures null_place { is_null_at (layouts.null types.null 3) 1 ≡ true }
    ensures of_null { null_count (layouts.null types.null 3) ≡ 3 }
    ensures of_struct { null_count (structs 19) ≡ 1 }
    ensures of_union { null_count in_turn ≡ 0 }
{}

/// Only dictionaries have keys. The slot of a key can be null at an index that is not null.
pub fn arrays_with_keys()
    ensures dictionary { has_keys (dictionaries (0 ∷ []) None null_text) ≡ true }
    ensures others { map has_keys keyless ≡ replicate 11 false }
{}

/// Selected rows, one of them twice. A null of a mask selects nothing.
pub fn choices()
    ensures rows { selected (slots_of (ints (10 ∷ 20 ∷ 30 ∷ []))) (2 ∷ 0 ∷ 2 ∷ []) ≡ number 30 ∷ number 10 ∷ number 30 ∷ [] }
    ensures past_the_end { selected (slots_of (ints (10 ∷ []))) (3 ∷ []) ≡ slots.null ∷ [] }
    ensures places { mask_indices (slots_of (layouts.boolean types.boolean (true ∷ true ∷ false ∷ true ∷ []) (Some (true ∷ false ∷ true ∷ true ∷ [])))) ≡ 0 ∷ 3 ∷ [] }
{}
