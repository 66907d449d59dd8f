//! Worked examples: the largest selection within each limit, and the first past it.
ghost use Rattle.std.specs.Prelude.{◌≡◌, ◌+◌, ◌-◌, ◌^◌, ◌⊎◌, ℕ, Bool, pos, true, false, List, [], ◌∷◌, length, Some, None, alloc_error};
ghost use Rattle.nest_memory.specs.TypeTree as types;
ghost use Rattle.nest_memory.specs.declared.error.Error.{Error};
ghost use Rattle.nest_memory.specs.declared.error.Error.TheVariants.{Memory, Overflow};
ghost use Rattle.nest_model.specs.Examples.{a_field, both, dictionaries, ints, list_type, lists, texts, booleans, two_fields};
ghost use Rattle.nest_model.specs.Layout as layouts;
ghost use Rattle.nest_model.specs.Layout.{Layout, no_layouts, more_layouts};
ghost use Rattle.nest_take.specs.Examples.{dense_texts, sparse_texts, text_maps, three_unions};
ghost use Rattle.nest_take.specs.Limits.{PassesLength, PassesLimits, PassesOffsets, PicksPass, picks_of};
ghost use Rattle.nest_take.specs.Taken.{RefusesTake, offsets_in};

/// The last offset may be the largest of its type, and not more. A null row has no items.
pub fn offsets()
    ensures last { PassesOffsets false (0 ∷ (2 ^ 31 - 1) ∷ []) None (0 ∷ []) → ⊥ }
    ensures past { PassesOffsets false (0 ∷ 2 ^ 30 ∷ []) None (0 ∷ 0 ∷ []) }
    ensures large_last { PassesOffsets true (0 ∷ (2 ^ 63 - 1) ∷ []) None (0 ∷ []) → ⊥ }
    ensures large_past { PassesOffsets true (0 ∷ 2 ^ 62 ∷ []) None (0 ∷ 0 ∷ []) }
    ensures nulls { PassesOffsets false (0 ∷ 2 ^ 30 ∷ []) (Some (false ∷ [])) (0 ∷ 0 ∷ []) → ⊥ }
{}

/// The number of rows times their size may be 2^64 - 1, and not more.
pub fn lengths()
    ensures last { (is : List ℕ) → length is ≡ 2 ^ 32 - 1 → PassesLength (2 ^ 32 + 1) is → ⊥ }
    ensures past { (is : List ℕ) → length is ≡ 2 ^ 32 → PassesLength (2 ^ 32) is }
{}

/// Only a child passes a limit. Items under a null list are not taken.
pub fn children()
    ensures list { PassesLimits (lists types.utf8 (0 ∷ 1 ∷ []) (texts (0 ∷ 2 ^ 30 ∷ []) [])) (0 ∷ 0 ∷ []) }
    ensures list_once { PassesLimits (lists types.utf8 (0 ∷ 1 ∷ []) (texts (0 ∷ 2 ^ 30 ∷ []) [])) (0 ∷ []) → ⊥ }
    ensures second_list { PassesLimits (lists types.utf8 (0 ∷ 1 ∷ 2 ∷ []) (texts (0 ∷ 0 ∷ 2 ^ 30 ∷ []) [])) (1 ∷ 1 ∷ []) }
    ensures first_list { PassesLimits (lists types.utf8 (0 ∷ 1 ∷ 2 ∷ []) (texts (0 ∷ 0 ∷ 2 ^ 30 ∷ []) [])) (0 ∷ 0 ∷ []) → ⊥ }
    ensures null_list { PassesLimits (layouts.list false (list_type types.utf8) (0 ∷ 1 ∷ []) (texts (0 ∷ 2 ^ 30 ∷ []) []) (Some (false ∷ []))) (0 ∷ 0 ∷ []) → ⊥ }
    ensures fixed_size_list { PassesLimits (layouts.fixed_size_list (types.fixed_size_list (a_field types.utf8) 2) (texts (0 ∷ 0 ∷ 0 ∷ 0 ∷ 2 ^ 30 ∷ []) []) None) (1 ∷ 1 ∷ []) }
    ensures other_row { PassesLimits (layouts.fixed_size_list (types.fixed_size_list (a_field types.utf8) 2) (texts (0 ∷ 0 ∷ 0 ∷ 0 ∷ 2 ^ 30 ∷ []) []) None) (0 ∷ 0 ∷ []) → ⊥ }
    ensures record { PassesLimits (layouts.struct (types.struct (two_fields types.int32 types.utf8)) (both (ints (7 ∷ [])) (texts (0 ∷ 2 ^ 30 ∷ []) [])) None) (0 ∷ 0 ∷ []) }
    ensures entries { PassesLimits (layouts.map (types.map (a_field types.int32) false) (0 ∷ 2 ^ 30 ∷ []) (ints []) None) (0 ∷ 0 ∷ []) }
    ensures number { (is : List ℕ) → PassesLimits (ints (7 ∷ [])) is → ⊥ }
{}

/// Selections past the limit of 32-bit offsets and within that of 64-bit offsets.
pub fn widths()
    ensures bytes { PassesLimits (layouts.binary false types.binary (0 ∷ 2 ^ 30 ∷ []) [] None) (0 ∷ 0 ∷ []) }
    ensures large_bytes { PassesLimits (layouts.binary true types.large_binary (0 ∷ 2 ^ 30 ∷ []) [] None) (0 ∷ 0 ∷ []) → ⊥ }
    ensures large_bytes_past { PassesLimits (layouts.binary true types.large_binary (0 ∷ 2 ^ 62 ∷ []) [] None) (0 ∷ 0 ∷ []) }
    ensures large_texts { PassesLimits (layouts.utf8 true types.large_utf8 (0 ∷ 2 ^ 30 ∷ []) [] None) (0 ∷ 0 ∷ []) → ⊥ }
    ensures large_texts_past { PassesLimits (layouts.utf8 true types.large_utf8 (0 ∷ 2 ^ 62 ∷ []) [] None) (0 ∷ 0 ∷ []) }
    ensures lists { PassesLimits (lists types.int32 (0 ∷ 2 ^ 30 ∷ []) (ints [])) (0 ∷ 0 ∷ []) }
    ensures large_lists { PassesLimits (layouts.list true (types.large_list (a_field types.int32)) (0 ∷ 2 ^ 30 ∷ []) (ints []) None) (0 ∷ 0 ∷ []) → ⊥ }
    ensures large_lists_past { PassesLimits (layouts.list true (types.large_list (a_field types.int32)) (0 ∷ 2 ^ 62 ∷ []) (ints []) None) (0 ∷ 0 ∷ []) }
{}

/// Fixed-size layouts: the number of rows times the size may be 2^64 - 1, and not more.
pub fn sizes()
    ensures bytes_last { (is : List ℕ) → length is ≡ 2 ^ 32 - 1 → PassesLimits (layouts.fixed_size_binary (types.fixed_size_binary (2 ^ 32 + 1)) [] None) is → ⊥ }
    ensures bytes_past { (is : List ℕ) → length is ≡ 2 ^ 32 → PassesLimits (layouts.fixed_size_binary (types.fixed_size_binary (2 ^ 32)) [] None) is }
    ensures items_last { (is : List ℕ) → length is ≡ 2 ^ 32 - 1 → PassesLimits (layouts.fixed_size_list (types.fixed_size_list (a_field types.int32) (2 ^ 32 + 1)) (ints []) None) is → ⊥ }
    ensures items_past { (is : List ℕ) → length is ≡ 2 ^ 32 → PassesLimits (layouts.fixed_size_list (types.fixed_size_list (a_field types.int32) (2 ^ 32)) (ints []) None) is }
{}

/// Maps: the limits apply to the entries of the selected rows and to the children of the entries.
pub fn maps()
    ensures in_entries { PassesLimits (text_maps (0 ∷ 1 ∷ []) (0 ∷ 2 ^ 30 ∷ [])) (0 ∷ 0 ∷ []) }
    ensures once { PassesLimits (text_maps (0 ∷ 1 ∷ []) (0 ∷ 2 ^ 30 ∷ [])) (0 ∷ []) → ⊥ }
    ensures of_no_entry { PassesLimits (text_maps (0 ∷ 0 ∷ 1 ∷ []) (0 ∷ 2 ^ 30 ∷ [])) (0 ∷ 0 ∷ []) → ⊥ }
    ensures of_the_other { PassesLimits (text_maps (0 ∷ 0 ∷ 1 ∷ []) (0 ∷ 2 ^ 30 ∷ [])) (1 ∷ 1 ∷ []) }
{}

/// Nulls, Booleans, numbers and structs of them pass no limit. A dictionary keeps its values, so it passes none.
pub fn unlimited()
    ensures nulls { (n : ℕ) (is : List ℕ) → PassesLimits (layouts.null types.null n) is → ⊥ }
    ensures booleans { (bs : List Bool) (is : List ℕ) → PassesLimits (booleans bs) is → ⊥ }
    ensures keyed { (is : List ℕ) → PassesLimits (dictionaries (0 ∷ []) None (texts (0 ∷ 2 ^ 30 ∷ []) [])) is → ⊥ }
    ensures records { (is : List ℕ) → PassesLimits (layouts.struct (types.struct (two_fields types.int32 types.int32)) (both (ints (7 ∷ [])) (ints (8 ∷ []))) None) is → ⊥ }
{}

/// Unions: a sparse child is taken from the start of the union's window, a dense child at the offsets that pick it.
pub fn picks()
    ensures sparse { PassesLimits (sparse_texts (0 ∷ 0 ∷ 2 ^ 30 ∷ [])) (0 ∷ 0 ∷ []) }
    ensures before_window { PassesLimits (sparse_texts (0 ∷ 2 ^ 30 ∷ 2 ^ 30 ∷ [])) (0 ∷ 0 ∷ []) → ⊥ }
    ensures last_pick { (ps : List ℕ) → length ps ≡ 2 ^ 31 → PicksPass (λ f. ps) 0 (more_layouts (ints []) no_layouts) → ⊥ }
    ensures pick_past { (ps : List ℕ) → length ps ≡ 2 ^ 31 + 1 → PicksPass (λ f. ps) 0 (more_layouts (ints []) no_layouts) }
    ensures of_field { picks_of None (pos 0 ∷ pos 1 ∷ pos 0 ∷ []) (pos 5 ∷ pos 6 ∷ pos 7 ∷ []) 0 (2 ∷ 1 ∷ 2 ∷ []) ≡ 7 ∷ 7 ∷ [] }
    ensures of_no_field { picks_of (Some (pos 9 ∷ [])) (pos 0 ∷ []) (pos 5 ∷ []) 0 (0 ∷ []) ≡ [] }
{}

/// Picks of a dense union are counted for each field, and each child is taken at its offsets.
pub fn dense_picks()
    ensures of_texts { PassesLimits (dense_texts (pos 0 ∷ pos 1 ∷ []) (pos 0 ∷ pos 0 ∷ []) (0 ∷ 2 ^ 30 ∷ [])) (1 ∷ 1 ∷ []) }
    ensures of_numbers { PassesLimits (dense_texts (pos 0 ∷ pos 1 ∷ []) (pos 0 ∷ pos 0 ∷ []) (0 ∷ 2 ^ 30 ∷ [])) (0 ∷ 0 ∷ 1 ∷ []) → ⊥ }
    ensures by_offset { PassesLimits (dense_texts (pos 1 ∷ []) (pos 1 ∷ []) (0 ∷ 0 ∷ 2 ^ 30 ∷ [])) (0 ∷ 0 ∷ []) }
    ensures by_no_place { PassesLimits (dense_texts (pos 1 ∷ []) (pos 1 ∷ []) (0 ∷ 2 ^ 30 ∷ 2 ^ 30 ∷ [])) (0 ∷ 0 ∷ []) → ⊥ }
{}

/// The new offsets of a dense union count the picks of each field from 0.
pub fn new_offsets()
    ensures { offsets_in three_unions (2 ∷ 1 ∷ 2 ∷ 1 ∷ []) ≡ pos 0 ∷ pos 0 ∷ pos 1 ∷ pos 1 ∷ [] }
{}

/// The errors of `take`: `Memory`, and `Overflow` where a limit is passed.
pub fn refusals()
    ensures memory { (a : Layout) (is : List ℕ) → RefusesTake (Memory alloc_error) a is }
    ensures overflow { (a : Layout) (is : List ℕ) → RefusesTake Overflow a is → PassesLimits a is }
    ensures no_other { (e : Error) (a : Layout) (is : List ℕ) → RefusesTake e a is → (e ≡ Memory alloc_error) ⊎ (e ≡ Overflow) }
{}
