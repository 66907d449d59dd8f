//! Worked examples: the parts of windows, and the largest concatenation within each limit beside the first past it.
ghost use Rattle.std.specs.Prelude.{◌≡◌, ◌⊎◌, ◌^◌, ◌-◌, true, false, [], ◌∷◌, Some, None, map, pos};
ghost use Rattle.std.specs.List.{flat_map};
ghost use Rattle.nest_memory.specs.TypeTree as types;
ghost use Rattle.nest_model.specs.Examples.{bits_of_type, pairs_type, dictionaries, ints, lists, number, numbers, texts, booleans};
ghost use Rattle.nest_model.specs.Layout as layouts;
ghost use Rattle.nest_concat.specs.Words.{InvalidArgumentError, ItemType, Overflow, PassesLength, PassesLimits, PassesOffsets, PassesPicks, RefusesConcatenate, blocks_of, bytes_in, extents_in, field_window, items_in, concatenated_validity, moved_offsets, slots_of, whole, window_parts, KeysPass, joined_keys, joined_layout, joins_past, slot_windows};
ghost use Rattle.nest_concat.specs.Interleaved.{IsIndexOf, slot_of};
ghost use Rattle.nest_concat.specs.Examples.{dense, dense_in_turn, four, sparse_from, two_columns, b_and_null, ab_by};
ghost use Rattle.nest_concat.specs.KeyedExamples.{one_key};

/// The slots of several arrays; the row lengths, bytes, items and child of a window.
pub fn windows()
    ensures slots { flat_map slots_of (ints (7 ∷ 8 ∷ []) ∷ ints [] ∷ ints (9 ∷ []) ∷ []) ≡ number 7 ∷ number 8 ∷ number 9 ∷ [] }
    ensures rows { extents_in (window_parts (texts (1 ∷ 3 ∷ 3 ∷ 6 ∷ []) (97 ∷ 98 ∷ 99 ∷ 100 ∷ 101 ∷ 102 ∷ [])) 1 2) ≡ 0 ∷ 3 ∷ [] }
    ensures bytes { bytes_in (window_parts (texts (1 ∷ 3 ∷ 3 ∷ 6 ∷ []) (97 ∷ 98 ∷ 99 ∷ 100 ∷ 101 ∷ 102 ∷ [])) 0 1) ≡ 98 ∷ 99 ∷ [] }
    ensures items { items_in (window_parts (lists types.int32 (0 ∷ 1 ∷ 3 ∷ []) (ints (5 ∷ 6 ∷ 7 ∷ 8 ∷ []))) 1 1) ≡ window_parts (ints (5 ∷ 6 ∷ 7 ∷ 8 ∷ [])) 1 2 }
    ensures blocks { blocks_of 2 (window_parts (layouts.fixed_size_list (pairs_type 2) (ints (5 ∷ 6 ∷ 7 ∷ 8 ∷ [])) None) 1 1) ≡ window_parts (ints (5 ∷ 6 ∷ 7 ∷ 8 ∷ [])) 2 2 }
    ensures field { field_window 1 (window_parts two_columns 1 1) ≡ window_parts (booleans (true ∷ false ∷ [])) 1 1 }
{}

/// Validity: no bitmap where no array has one; otherwise bits are set for arrays without one.
pub fn validities()
    ensures none { concatenated_validity (whole (booleans (true ∷ [])) ∷ whole (booleans (false ∷ [])) ∷ []) ≡ None }
    ensures second { concatenated_validity (whole (booleans (true ∷ [])) ∷ window_parts (layouts.boolean types.boolean (true ∷ true ∷ []) (Some (true ∷ false ∷ []))) 1 1 ∷ []) ≡ Some (true ∷ false ∷ []) }
    ensures first { concatenated_validity (whole (bits_of_type types.boolean (Some (false ∷ []))) ∷ whole (booleans (true ∷ [])) ∷ []) ≡ Some (false ∷ true ∷ []) }
{}

/// The last offset and the length may be the largest of their type, and not more.
/// Items before the first row are not counted.
pub fn offsets()
    ensures last { PassesOffsets false (whole (texts (0 ∷ 2 ^ 30 ∷ []) []) ∷ whole (texts (1 ∷ 2 ^ 30 ∷ []) []) ∷ []) → ⊥ }
    ensures past { PassesOffsets false (whole (texts (0 ∷ 2 ^ 30 ∷ []) []) ∷ whole (texts (0 ∷ 2 ^ 30 ∷ []) []) ∷ []) }
    ensures large { PassesOffsets true (whole (texts (0 ∷ 2 ^ 30 ∷ []) []) ∷ whole (texts (0 ∷ 2 ^ 30 ∷ []) []) ∷ []) → ⊥ }
    ensures before { PassesOffsets false (whole (texts (2 ^ 30 ∷ 2 ^ 30 ∷ []) []) ∷ whole (texts (0 ∷ 2 ^ 30 ∷ []) []) ∷ []) → ⊥ }
    ensures length_last { PassesLength (window_parts (ints []) 0 (2 ^ 63) ∷ window_parts (ints []) 0 (2 ^ 63 - 1) ∷ []) → ⊥ }
    ensures length_past { PassesLength (window_parts (ints []) 0 (2 ^ 63) ∷ window_parts (ints []) 0 (2 ^ 63) ∷ []) }
{}

/// The part of a field that the slots of a union are in: of a sparse union from the start of its window, of a dense
/// union from the lowest picked slot to the highest. Offsets move with the parts. A field has at most 2^31 slots.
pub fn parts()
    ensures sparse { field_window 1 (window_parts (sparse_from 2 (pos 0 ∷ pos 1 ∷ [])) 1 1) ≡ window_parts four 3 1 }
    ensures empty { field_window 1 (window_parts (sparse_from 2 (pos 0 ∷ pos 1 ∷ [])) 1 0) ≡ window_parts four 0 0 }
    ensures dense { field_window 0 (whole (dense_in_turn (pos 3 ∷ pos 0 ∷ pos 1 ∷ []))) ≡ window_parts four 1 3 }
    ensures one { field_window 0 (window_parts (dense_in_turn (pos 3 ∷ pos 0 ∷ pos 1 ∷ [])) 1 2) ≡ window_parts four 1 1 }
    ensures no_pick { field_window 1 (window_parts (dense_in_turn (pos 3 ∷ pos 0 ∷ pos 1 ∷ [])) 2 1) ≡ window_parts four 0 0 }
    ensures moved { moved_offsets (whole (dense_in_turn (pos 3 ∷ pos 2 ∷ pos 1 ∷ [])) ∷ whole (dense (pos 1 ∷ pos 0 ∷ []) (pos 0 ∷ pos 2 ∷ [])) ∷ []) ≡ pos 2 ∷ pos 0 ∷ pos 0 ∷ pos 1 ∷ pos 3 ∷ [] }
    ensures last { PassesPicks (Some []) 1 (whole (dense (pos 0 ∷ pos 0 ∷ []) (pos 0 ∷ pos (2 ^ 31 - 1) ∷ [])) ∷ []) → ⊥ }
    ensures past { PassesPicks (Some []) 2 (whole (dense (pos 0 ∷ pos 0 ∷ []) (pos 0 ∷ pos (2 ^ 31 - 1) ∷ [])) ∷ whole (dense (pos 0 ∷ []) (pos 0 ∷ [])) ∷ []) }
{}

/// Slots by array and index: the slots, indices out of bounds, and the windows over the slots.
pub fn indices()
    ensures slots { map (slot_of (ints (7 ∷ []) ∷ ints (8 ∷ 9 ∷ []) ∷ [])) ((1, 1) ∷ (0, 0) ∷ (1, 1) ∷ []) ≡ number 9 ∷ number 7 ∷ number 9 ∷ [] }
    ensures there { IsIndexOf (ints (7 ∷ []) ∷ ints (8 ∷ 9 ∷ []) ∷ []) (1, 1) }
    ensures past_slots { IsIndexOf (ints (7 ∷ []) ∷ ints (8 ∷ 9 ∷ []) ∷ []) (0, 1) → ⊥ }
    ensures past_arrays { IsIndexOf (ints (7 ∷ []) ∷ ints (8 ∷ 9 ∷ []) ∷ []) (2, 0) → ⊥ }
    ensures windows { slot_windows (ints (7 ∷ []) ∷ ints (8 ∷ 9 ∷ []) ∷ []) ((1, 1) ∷ []) ≡ window_parts (ints (7 ∷ [])) 0 0 ∷ window_parts (ints (8 ∷ 9 ∷ [])) 1 1 ∷ [] }
{}

/// Keys of two dictionaries: moved past the values of the first, unchanged, and of a slice.
/// The key under a null is 0.
pub fn moved_keys()
    ensures behind { joined_keys true (whole b_and_null ∷ whole (dictionaries (0 ∷ 1 ∷ []) None (texts (0 ∷ 1 ∷ 1 ∷ []) (99 ∷ []))) ∷ []) ≡ pos 1 ∷ pos 0 ∷ pos 2 ∷ pos 3 ∷ [] }
    ensures kept { joined_keys false (whole b_and_null ∷ whole (ab_by (0 ∷ 1 ∷ [])) ∷ []) ≡ pos 1 ∷ pos 0 ∷ pos 0 ∷ pos 1 ∷ [] }
    ensures cut { joined_keys true (window_parts (ab_by (1 ∷ 0 ∷ [])) 1 0 ∷ whole (dictionaries (0 ∷ []) None (texts (0 ∷ 1 ∷ []) (99 ∷ []))) ∷ []) ≡ pos 2 ∷ [] }
{}

/// 8-bit keys: a key moves past 127 values and not past 128, unless it is null. Where values are equal, no key moves.
pub fn last_keys()
    ensures last { KeysPass 128 0 (whole (one_key true 0 127) ∷ whole (one_key true 0 1) ∷ []) → ⊥ }
    ensures past { KeysPass 128 0 (whole (one_key true 0 128) ∷ whole (one_key true 0 1) ∷ []) }
    ensures null_key { KeysPass 128 0 (whole (one_key true 0 128) ∷ whole (one_key false 0 1) ∷ []) → ⊥ }
    ensures limit { PassesLimits (one_key true 0 128) (whole (one_key true 0 128) ∷ whole (one_key true 0 1) ∷ []) }
    ensures equal { PassesLimits (one_key true 127 128) (whole (one_key true 127 128) ∷ whole (one_key true 127 128) ∷ []) → ⊥ }
{}

/// Errors: no array, or arrays of different types. `Overflow` only where a limit is passed.
pub fn refusals()
    ensures none { RefusesConcatenate (InvalidArgumentError ItemType) [] }
    ensures other { RefusesConcatenate (InvalidArgumentError ItemType) (ints (7 ∷ []) ∷ booleans (true ∷ []) ∷ []) }
    ensures same { RefusesConcatenate (InvalidArgumentError ItemType) (ints (7 ∷ []) ∷ ints [] ∷ []) → ⊥ }
    ensures overflow { RefusesConcatenate Overflow (ints (7 ∷ []) ∷ ints [] ∷ []) → ⊥ }
{}

/// Concatenations of numbers, of Booleans with and without a validity bitmap, and of strings whose offsets start past 0.
///
/// Dictionaries with equal values keep them, others move their keys.
pub fn joined_arrays()
    ensures numbers { joined_layout (ints (7 ∷ []) ∷ ints (8 ∷ 9 ∷ []) ∷ []) ≡ ints (7 ∷ 8 ∷ 9 ∷ []) }
    ensures validity { joined_layout (booleans (true ∷ []) ∷ bits_of_type types.boolean (Some (false ∷ [])) ∷ []) ≡ layouts.boolean types.boolean (true ∷ true ∷ []) (Some (true ∷ false ∷ [])) }
    ensures texts { joined_layout (texts (1 ∷ 3 ∷ []) (97 ∷ 98 ∷ 99 ∷ []) ∷ texts (0 ∷ 1 ∷ 2 ∷ []) (100 ∷ 101 ∷ []) ∷ []) ≡ texts (0 ∷ 2 ∷ 3 ∷ 4 ∷ []) (98 ∷ 99 ∷ 100 ∷ 101 ∷ []) }
    ensures kept { joined_layout (ab_by (1 ∷ []) ∷ dictionaries (0 ∷ []) None (texts (1 ∷ 2 ∷ 3 ∷ []) (99 ∷ 97 ∷ 98 ∷ [])) ∷ []) ≡ ab_by (1 ∷ 0 ∷ []) }
    ensures moved { joined_layout (ab_by (1 ∷ []) ∷ dictionaries (0 ∷ []) None (texts (1 ∷ 2 ∷ []) (97 ∷ 99 ∷ [])) ∷ []) ≡ dictionaries (1 ∷ 2 ∷ []) None (texts (0 ∷ 1 ∷ 2 ∷ 3 ∷ []) (97 ∷ 98 ∷ 99 ∷ [])) }
{}

/// The test of 8-bit keys: a key moves past 127 values and not past 128, unless it is null. Equal values are kept.
pub fn joined_limits()
    ensures last { joins_past (one_key true 0 127 ∷ one_key true 0 1 ∷ []) ≡ false }
    ensures past { joins_past (one_key true 0 128 ∷ one_key true 0 1 ∷ []) ≡ true }
    ensures null_key { joins_past (one_key true 0 128 ∷ one_key false 0 1 ∷ []) ≡ false }
    ensures equal { joins_past (one_key true 127 128 ∷ one_key true 127 128 ∷ []) ≡ false }
{}
