//! Worked examples: parts of arrays, and the errors of other parts.

ghost use Rattle.std.specs.Prelude.{◌-◌, ◌^◌, pos, negsuc, true, false, [], ◌∷◌, replicate, Some, None};
ghost use Rattle.nest_memory.specs.declared.datatypes.IntegerType.TheVariants as integers;
ghost use Rattle.nest_memory.specs.declared.datatypes.UnionMode.TheVariants as modes;
ghost use Rattle.nest_memory.specs.declared.datatypes.physical_type.PrimitiveType.TheVariants as primitives;
ghost use Rattle.nest_memory.specs.declared.error.SpecError.TheVariants as spec;
ghost use Rattle.nest_memory.specs.declared.error.ArgumentError.TheVariants as argument;
ghost use Rattle.nest_memory.specs.declared.error.Error.TheVariants.{OutOfSpec, InvalidArgumentError};
ghost use Rattle.nest_memory.specs.TypeTree as types;
ghost use Rattle.nest_model.specs.Layout as layouts;
ghost use Rattle.nest_model.specs.Layout.{more_layouts, no_layouts};
ghost use Rattle.nest_model.specs.Checks.{Pass};
ghost use Rattle.nest_model.specs.Fits.{Fits, FirstError, validity_checks, ValidityError};
ghost use Rattle.nest_model.specs.Examples.{a_field, two_fields, list_type, ints, lists, both, small_lists, with_ids, eleven_types, in_turn, null_keys, dense_of, five_by, pairs, accented, three_ints, two_texts, number_and_text, map_over, one_entry, extended, short_keys, x_by, short_child, one_number, of_fields, six, string_keys_type};

/// Offsets may end before the end of the child, not after it. The child has the item type.
pub fn lists_refused()
    ensures taken { Fits (five_by (0 ∷ 2 ∷ [])) }
    ensures past_the_child { FirstError (OutOfSpec spec.OffsetPastChild) (five_by (0 ∷ 6 ∷ [])) }
    ensures another_child { FirstError (OutOfSpec spec.ChildType) (lists types.int32 (0 ∷ 2 ∷ 4 ∷ []) small_lists) }
    ensures another_type { FirstError (OutOfSpec spec.WrongType) (layouts.list true (list_type types.int32) (0 ∷ []) (ints []) None) }
    ensures too_many_bits { FirstError (OutOfSpec spec.ValidityLength) (layouts.list false (list_type types.int32) (0 ∷ 1 ∷ []) (ints (1 ∷ [])) (Some (true ∷ true ∷ []))) }
{}

/// A logical type with native values of its physical type is valid.
/// The length of the validity is checked before the type.
pub fn natives_refused()
    ensures date { Fits (layouts.primitive primitives.Int32 types.date32 ((pos 1 ∷ []) ∷ []) None) }
    ensures another_type { FirstError (OutOfSpec spec.WrongType) (layouts.primitive primitives.Int32 types.int64 ((pos 1 ∷ []) ∷ []) None) }
    ensures validity_first { FirstError (OutOfSpec spec.ValidityLength) (layouts.primitive primitives.Int32 types.int64 ((pos 1 ∷ []) ∷ []) (Some [])) }
    ensures of_a_null_array { FirstError (OutOfSpec spec.WrongType) (layouts.null types.boolean 3) }
{}

/// An offset inside a character, bytes that end inside a character, and an offset past the end of the bytes.
pub fn texts_refused()
    ensures inside_a_character { FirstError (OutOfSpec spec.Utf8) (accented (0 ∷ 2 ∷ 4 ∷ [])) }
    ensures taken { Fits (accented (1 ∷ 3 ∷ [])) }
    ensures past_the_bytes { FirstError (OutOfSpec spec.OffsetPastChild) (accented (0 ∷ 5 ∷ [])) }
{}

/// Sizes: a size is not 0, and the number of items is a multiple of it.
pub fn sizes_refused()
    ensures zero { FirstError (OutOfSpec spec.ZeroSize) (pairs 0 None) }
    ensures of_one { Fits (pairs 1 None) }
    ensures no_multiple { FirstError (OutOfSpec spec.NotMultiple) (pairs 4 None) }
    ensures type_first { FirstError (OutOfSpec spec.WrongType) (layouts.fixed_size_list types.utf8 six (Some [])) }
    ensures then_size { FirstError (OutOfSpec spec.ZeroSize) (layouts.fixed_size_list (types.fixed_size_list (a_field types.utf8) 0) six (Some [])) }
    ensures then_child { FirstError (OutOfSpec spec.ChildType) (layouts.fixed_size_list (types.fixed_size_list (a_field types.utf8) 4) six (Some [])) }
    ensures then_multiple { FirstError (OutOfSpec spec.NotMultiple) (pairs 4 (Some [])) }
    ensures then_bits { FirstError (OutOfSpec spec.ValidityLength) (pairs 2 (Some [])) }
    ensures bytes_no_multiple { FirstError (OutOfSpec spec.NotMultiple) (layouts.fixed_size_binary (types.fixed_size_binary 2) (97 ∷ 98 ∷ 99 ∷ []) None) }
    ensures too_many_bits { ValidityError (OutOfSpec spec.ValidityLength) (pairs 2 None) (Some (true ∷ true ∷ [])) }
{}

/// Children in another order than the fields, of different lengths, or none.
pub fn structs_refused()
    ensures another_order { FirstError (OutOfSpec spec.ChildType) (number_and_text (both two_texts three_ints) None) }
    ensures another_length { FirstError (OutOfSpec spec.ChildLength) (number_and_text (both three_ints two_texts) (Some (replicate 9 true))) }
    ensures no_fields { FirstError (OutOfSpec spec.NoFields) (layouts.struct (types.struct types.no_fields) no_layouts None) }
    ensures another_count { FirstError (OutOfSpec spec.FieldCount) (number_and_text (more_layouts three_ints no_layouts) None) }
{}

/// Entries that are not a struct of two fields: an extension of one, or a struct of three fields.
pub fn maps_refused()
    ensures extended { FirstError (InvalidArgumentError argument.MapInner) (map_over (extended (types.struct (two_fields types.utf8 types.utf8))) one_entry None) }
    ensures three_fields { FirstError (InvalidArgumentError argument.MapInner) (map_over (types.struct (types.more_fields (a_field types.utf8) (two_fields types.utf8 types.utf8))) one_entry None) }
    ensures another_child { FirstError (InvalidArgumentError argument.ChildType) (map_over (types.struct (two_fields types.utf8 types.int32)) one_entry None) }
    ensures offsets_first { FirstError (OutOfSpec spec.OffsetPastChild) (layouts.map types.utf8 (0 ∷ 2 ∷ []) one_entry (Some [])) }
    ensures then_type { FirstError (OutOfSpec spec.WrongType) (layouts.map types.utf8 (0 ∷ 1 ∷ []) one_entry (Some [])) }
    ensures then_entries { FirstError (InvalidArgumentError argument.MapInner) (map_over types.utf8 one_entry (Some [])) }
    ensures then_child { FirstError (InvalidArgumentError argument.ChildType) (map_over (types.struct (two_fields types.utf8 types.int32)) one_entry (Some [])) }
    ensures then_bits { FirstError (OutOfSpec spec.ValidityLength) (map_over (types.struct (two_fields types.utf8 types.utf8)) one_entry (Some [])) }
{}

/// Types that are not ids, ids out of range, a wrong number of ids, offsets of a sparse union,
/// a dense union without offsets.
pub fn unions_refused()
    ensures of_no_field { FirstError (OutOfSpec spec.UnionType) (with_ids (pos 5 ∷ pos 7 ∷ []) (pos 6 ∷ eleven_types)) }
    ensures id_too_large { FirstError (OutOfSpec spec.IdRange) (with_ids (pos 5 ∷ pos 128 ∷ []) eleven_types) }
    ensures id_missing { FirstError (OutOfSpec spec.IdCount) (with_ids (pos 5 ∷ []) eleven_types) }
    ensures most_fields { Fits (of_fields 127) }
    ensures one_more_field { FirstError (OutOfSpec spec.TooManyFields) (of_fields 128) }
    ensures largest_id { Fits (one_number modes.Sparse (Some (pos 127 ∷ [])) (pos 127 ∷ []) None) }
    ensures negative_type_of_ids { FirstError (OutOfSpec spec.UnionType) (one_number modes.Sparse (Some (pos 127 ∷ [])) (negsuc 0 ∷ []) None) }
    ensures negative_offset { FirstError (OutOfSpec spec.UnionSlot) (one_number modes.Dense None (pos 0 ∷ []) (Some (negsuc 0 ∷ []))) }
    ensures negative_type { FirstError (OutOfSpec spec.UnionType) (one_number modes.Sparse None (negsuc 0 ∷ []) None) }
    ensures offsets_for_sparse { FirstError (OutOfSpec spec.UnionMode) (one_number modes.Sparse None (pos 0 ∷ []) (Some (pos 0 ∷ []))) }
    ensures count_first { FirstError (OutOfSpec spec.OffsetCount) (one_number modes.Sparse None (pos 0 ∷ []) (Some [])) }
    ensures none_for_dense { FirstError (OutOfSpec spec.UnionMode) (one_number modes.Dense None (pos 0 ∷ []) None) }
    ensures another_count { FirstError (OutOfSpec spec.OffsetCount) (one_number modes.Dense None (pos 0 ∷ []) (Some [])) }
    ensures past_its_field { FirstError (OutOfSpec spec.UnionSlot) (dense_of 1) }
    ensures short_field { FirstError (OutOfSpec spec.UnionSlot) short_child }
    ensures no_validity { ValidityError (InvalidArgumentError argument.NoValidity) in_turn None }
{}

/// Keys at null slots are also indices of the values, unless all keys are null.
pub fn keys_refused()
    ensures under_a_null { FirstError (OutOfSpec spec.KeyRange) (short_keys (pos 0 ∷ pos 9 ∷ []) (Some (true ∷ false ∷ []))) }
    ensures negative { FirstError (OutOfSpec spec.KeyRange) (short_keys (negsuc 0 ∷ []) None) }
    ensures largest { FirstError (OutOfSpec spec.KeyRange) (x_by primitives.UInt64 types.uint64 integers.UInt64 (pos (2 ^ 64 - 1) ∷ []) None) }
    ensures all_null { Fits null_keys }
    ensures no_longer_null { ValidityError (OutOfSpec spec.KeyRange) null_keys None }
    ensures one_of_them { Pass (validity_checks (short_keys (pos 9 ∷ pos 0 ∷ []) (Some (false ∷ false ∷ []))) (Some (false ∷ true ∷ []))) }
    ensures another_key_type { FirstError (OutOfSpec spec.KeyType) (x_by primitives.Int8 types.int8 integers.Int16 (pos 0 ∷ []) None) }
    ensures logical_keys { Fits (x_by primitives.Int32 types.date32 integers.Int32 (pos 0 ∷ []) None) }
    ensures extended_values { Fits (layouts.dictionary string_keys_type
        (layouts.primitive primitives.Int8 types.int8 ((pos 0 ∷ []) ∷ []) None) (layouts.utf8 false (extended types.utf8) (0 ∷ 1 ∷ []) (120 ∷ []) None)) }
{}
