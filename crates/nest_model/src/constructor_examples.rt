//! Worked examples: the ordered checks of each constructor. Each example fails one check and all later ones.

ghost use Rattle.std.specs.Prelude.{pos, true, false, [], ◌∷◌, Some, None};
ghost use Rattle.nest_memory.specs.declared.datatypes.IntegerType.TheVariants as integers;
ghost use Rattle.nest_memory.specs.declared.datatypes.physical_type.PrimitiveType.TheVariants as primitives;
ghost use Rattle.nest_memory.specs.declared.datatypes.UnionMode.TheVariants as modes;
ghost use Rattle.nest_memory.specs.declared.error.SpecError.TheVariants as spec;
ghost use Rattle.nest_memory.specs.declared.error.ArgumentError.TheVariants as argument;
ghost use Rattle.nest_memory.specs.declared.error.Error.TheVariants.{OutOfSpec, InvalidArgumentError};
ghost use Rattle.nest_memory.specs.TypeTree as types;
ghost use Rattle.nest_model.specs.Layout as layouts;
ghost use Rattle.nest_model.specs.Layout.{more_layouts, no_layouts};
ghost use Rattle.nest_model.specs.Checks.{Pass};
ghost use Rattle.nest_model.specs.Fits.{Fits, FirstError, validity_checks, ValidityError};
ghost use Rattle.nest_model.specs.Examples.{a_field, two_fields, sparse_union, text_dictionary, ints, texts, both, small_lists, small_map, structs, in_turn, null_keys, pairs, two_bytes, three_ints, two_texts, number_and_text, extended, x_by, short_keys, one_number, bits_of_type, bytes_by, text_by, fixed_bytes, int_children, union_by, keyed_by_bytes, dense_union};

/// Null and boolean arrays.
pub fn nulls_and_booleans()
    ensures null { Fits (layouts.null types.null 3) }
    ensures extended_null { Fits (layouts.null (extended types.null) 3) }
    ensures null_type { FirstError (OutOfSpec spec.WrongType) (layouts.null types.boolean 0) }
    ensures boolean { Fits (bits_of_type types.boolean (Some (true ∷ []))) }
    ensures extended_boolean { Fits (bits_of_type (extended types.boolean) None) }
    ensures bits_first { FirstError (OutOfSpec spec.ValidityLength) (bits_of_type types.int8 (Some [])) }
    ensures then_type { FirstError (OutOfSpec spec.WrongType) (bits_of_type types.int8 (Some (true ∷ []))) }
{}

/// Binary arrays, with offsets of both widths.
pub fn binary()
    ensures small { Fits (bytes_by false types.binary (0 ∷ 1 ∷ []) (Some (true ∷ []))) }
    ensures large { Fits (bytes_by true types.large_binary (0 ∷ 1 ∷ []) None) }
    ensures offsets_first { FirstError (OutOfSpec spec.OffsetPastChild) (bytes_by false types.utf8 (0 ∷ 3 ∷ []) (Some [])) }
    ensures then_bits { FirstError (OutOfSpec spec.ValidityLength) (bytes_by false types.utf8 (0 ∷ 2 ∷ []) (Some [])) }
    ensures then_type { FirstError (OutOfSpec spec.WrongType) (bytes_by false types.utf8 (0 ∷ 2 ∷ []) None) }
    ensures small_of_large { FirstError (OutOfSpec spec.WrongType) (bytes_by true types.binary (0 ∷ 2 ∷ []) None) }
    ensures large_of_small { FirstError (OutOfSpec spec.WrongType) (bytes_by false types.large_binary (0 ∷ 2 ∷ []) None) }
{}

/// UTF-8 arrays, with offsets of both widths.
pub fn texts_in_order()
    ensures small { Fits (text_by false types.utf8 (0 ∷ []) (Some [])) }
    ensures large { Fits (text_by true types.large_utf8 (0 ∷ []) None) }
    ensures offsets_first { FirstError (OutOfSpec spec.OffsetPastChild) (text_by false types.binary (0 ∷ 3 ∷ []) (Some [])) }
    ensures then_text { FirstError (OutOfSpec spec.Utf8) (text_by false types.binary (0 ∷ 1 ∷ []) (Some [])) }
    ensures then_bits { FirstError (OutOfSpec spec.ValidityLength) (text_by false types.binary (0 ∷ []) (Some (true ∷ []))) }
    ensures then_type { FirstError (OutOfSpec spec.WrongType) (text_by false types.binary (0 ∷ []) None) }
    ensures small_of_large { FirstError (OutOfSpec spec.WrongType) (text_by true types.utf8 (0 ∷ []) None) }
    ensures large_of_small { FirstError (OutOfSpec spec.WrongType) (text_by false types.large_utf8 (0 ∷ []) None) }
{}

/// Fixed-size binary arrays.
pub fn bytes_of_a_size()
    ensures taken { Fits two_bytes }
    ensures type_first { FirstError (OutOfSpec spec.WrongType) (fixed_bytes types.binary (Some (true ∷ []))) }
    ensures then_size { FirstError (OutOfSpec spec.ZeroSize) (fixed_bytes (types.fixed_size_binary 0) (Some (true ∷ []))) }
    ensures then_multiple { FirstError (OutOfSpec spec.NotMultiple) (fixed_bytes (types.fixed_size_binary 2) (Some [])) }
    ensures then_bits { FirstError (OutOfSpec spec.ValidityLength) (fixed_bytes (types.fixed_size_binary 3) (Some [])) }
    ensures of_one { Fits (fixed_bytes (types.fixed_size_binary 1) (Some (true ∷ true ∷ true ∷ []))) }
    ensures whole { Fits (fixed_bytes (types.fixed_size_binary 3) (Some (true ∷ []))) }
{}

/// Struct arrays.
pub fn records_in_order()
    ensures taken { Fits (structs 19) }
    ensures type_first { FirstError (OutOfSpec spec.WrongType) (layouts.struct types.int32 (both three_ints two_texts) (Some [])) }
    ensures then_fields { FirstError (OutOfSpec spec.NoFields) (layouts.struct (types.struct types.no_fields) (both three_ints two_texts) (Some [])) }
    ensures then_count { FirstError (OutOfSpec spec.FieldCount) (layouts.struct (types.struct (types.more_fields (a_field types.utf8) types.no_fields)) (both three_ints two_texts) (Some [])) }
    ensures then_children { FirstError (OutOfSpec spec.ChildType) (layouts.struct (types.struct (two_fields types.utf8 types.int32)) (both three_ints two_texts) (Some [])) }
    ensures then_lengths { FirstError (OutOfSpec spec.ChildLength) (number_and_text (both three_ints two_texts) (Some [])) }
    ensures then_bits { FirstError (OutOfSpec spec.ValidityLength) (number_and_text (both (ints (1 ∷ 2 ∷ [])) two_texts) (Some [])) }
{}

/// Union arrays.
pub fn picks_in_order()
    ensures taken { Fits in_turn }
    ensures past_the_fields { FirstError (OutOfSpec spec.UnionType) (one_number modes.Sparse None (pos 1 ∷ []) None) }
    ensures later_window { Fits (layouts.union (sparse_union types.int32 types.int32 None) (pos 0 ∷ []) (both (ints (1 ∷ 2 ∷ [])) (ints (1 ∷ 2 ∷ []))) None 1) }
    ensures past_the_window { FirstError (OutOfSpec spec.UnionSlot) (layouts.union (sparse_union types.int32 types.int32 None) (pos 0 ∷ []) (both (ints (1 ∷ 2 ∷ [])) (ints (1 ∷ 2 ∷ []))) None 2) }
    ensures longer_fields { Fits (layouts.union (sparse_union types.int32 types.int32 None) (pos 0 ∷ []) (both three_ints (ints (1 ∷ []))) None 0) }
    ensures dense_in_any_order { Fits (layouts.union (dense_union types.int32 types.int32) (pos 1 ∷ pos 0 ∷ []) (both three_ints (ints (1 ∷ []))) (Some (pos 0 ∷ pos 2 ∷ [])) 0) }
    ensures type_first { FirstError (OutOfSpec spec.WrongType) (layouts.union types.utf8 (pos 9 ∷ []) (more_layouts two_texts no_layouts) (Some []) 0) }
    ensures then_count { FirstError (OutOfSpec spec.FieldCount) (union_by 128 (pos 200 ∷ []) (pos 9 ∷ []) (int_children 129) (Some [])) }
    ensures then_fields { FirstError (OutOfSpec spec.TooManyFields) (union_by 128 (pos 200 ∷ []) (pos 9 ∷ []) (more_layouts two_texts (int_children 127)) (Some [])) }
    ensures then_children { FirstError (OutOfSpec spec.ChildType) (union_by 1 (pos 200 ∷ pos 200 ∷ []) (pos 9 ∷ []) (more_layouts two_texts no_layouts) (Some [])) }
    ensures then_offsets { FirstError (OutOfSpec spec.OffsetCount) (union_by 1 (pos 200 ∷ pos 200 ∷ []) (pos 9 ∷ []) (int_children 1) (Some [])) }
    ensures then_mode { FirstError (OutOfSpec spec.UnionMode) (union_by 1 (pos 200 ∷ pos 200 ∷ []) (pos 9 ∷ []) (int_children 1) (Some (pos 9 ∷ []))) }
    ensures then_ids { FirstError (OutOfSpec spec.IdCount) (union_by 1 (pos 200 ∷ pos 200 ∷ []) (pos 9 ∷ []) (int_children 1) None) }
    ensures then_range { FirstError (OutOfSpec spec.IdRange) (union_by 1 (pos 200 ∷ []) (pos 9 ∷ []) (int_children 1) None) }
    ensures then_types { FirstError (OutOfSpec spec.UnionType) (union_by 1 (pos 5 ∷ []) (pos 9 ∷ []) (int_children 1) None) }
    ensures then_slots { FirstError (OutOfSpec spec.UnionSlot) (union_by 1 (pos 5 ∷ []) (pos 5 ∷ []) (int_children 1) None) }
{}

/// Dictionary arrays.
pub fn keys_in_order()
    ensures type_first { FirstError (OutOfSpec spec.WrongType) (keyed_by_bytes types.utf8 three_ints) }
    ensures then_keys { FirstError (OutOfSpec spec.KeyType) (keyed_by_bytes text_dictionary three_ints) }
    ensures then_values { FirstError (OutOfSpec spec.ChildType) (keyed_by_bytes (types.dictionary integers.Int8 types.utf8 false) three_ints) }
    ensures then_range { FirstError (OutOfSpec spec.KeyRange) (keyed_by_bytes (types.dictionary integers.Int8 types.utf8 false) two_texts) }
    ensures taken { Fits (keyed_by_bytes (types.dictionary integers.Int8 types.int32 false) (ints (0 ∷ 1 ∷ 2 ∷ 3 ∷ 4 ∷ 5 ∷ 6 ∷ 7 ∷ 8 ∷ 9 ∷ []))) }
    ensures another_unit { FirstError (OutOfSpec spec.ChildType) (keyed_by_bytes (types.dictionary integers.Int8 types.date32 false) (ints (0 ∷ 1 ∷ 2 ∷ 3 ∷ 4 ∷ 5 ∷ 6 ∷ 7 ∷ 8 ∷ 9 ∷ []))) }
    ensures extended { Fits (keyed_by_bytes (extended (types.dictionary integers.Int8 types.int32 false)) (ints (0 ∷ 1 ∷ 2 ∷ 3 ∷ 4 ∷ 5 ∷ 6 ∷ 7 ∷ 8 ∷ 9 ∷ []))) }
{}

/// Checks of a new validity. Null and union arrays have none.
/// A dictionary checks the length and then the keys, other arrays check only the length.
pub fn new_validities()
    ensures of_null { ValidityError (InvalidArgumentError argument.NoValidity) (layouts.null types.null 1) None }
    ensures bits_of_null { ValidityError (InvalidArgumentError argument.NoValidity) (layouts.null types.null 1) (Some (true ∷ [])) }
    ensures bits_of_union { ValidityError (InvalidArgumentError argument.NoValidity) in_turn (Some (true ∷ true ∷ true ∷ true ∷ [])) }
    ensures of_boolean { ValidityError (OutOfSpec spec.ValidityLength) (bits_of_type types.boolean None) (Some []) }
    ensures of_native { ValidityError (OutOfSpec spec.ValidityLength) three_ints (Some []) }
    ensures of_binary { ValidityError (OutOfSpec spec.ValidityLength) (bytes_by false types.binary (0 ∷ 1 ∷ []) None) (Some []) }
    ensures of_text { ValidityError (OutOfSpec spec.ValidityLength) two_texts (Some []) }
    ensures of_bytes { ValidityError (OutOfSpec spec.ValidityLength) two_bytes (Some []) }
    ensures of_list { ValidityError (OutOfSpec spec.ValidityLength) small_lists (Some []) }
    ensures of_map { ValidityError (OutOfSpec spec.ValidityLength) small_map (Some []) }
    ensures of_struct { ValidityError (OutOfSpec spec.ValidityLength) (structs 19) (Some []) }
    ensures of_dictionary { ValidityError (OutOfSpec spec.ValidityLength) null_keys (Some (true ∷ [])) }
    ensures removed { Pass (validity_checks (structs 19) None) }
    ensures taken { Pass (validity_checks two_texts (Some (false ∷ true ∷ []))) }
    ensures key_taken { Pass (validity_checks (short_keys (pos 0 ∷ []) (Some (false ∷ []))) None) }
{}

/// Keys of every width.
pub fn key_widths()
    ensures int8 { Fits (x_by primitives.Int8 types.int8 integers.Int8 (pos 0 ∷ []) None) }
    ensures int16 { Fits (x_by primitives.Int16 types.int16 integers.Int16 (pos 0 ∷ []) None) }
    ensures int32 { Fits (x_by primitives.Int32 types.int32 integers.Int32 (pos 0 ∷ []) None) }
    ensures int64 { Fits (x_by primitives.Int64 types.int64 integers.Int64 (pos 0 ∷ []) None) }
    ensures uint8 { Fits (x_by primitives.UInt8 types.uint8 integers.UInt8 (pos 0 ∷ []) None) }
    ensures uint16 { Fits (x_by primitives.UInt16 types.uint16 integers.UInt16 (pos 0 ∷ []) None) }
    ensures uint32 { Fits (x_by primitives.UInt32 types.uint32 integers.UInt32 (pos 0 ∷ []) None) }
    ensures uint64 { Fits (x_by primitives.UInt64 types.uint64 integers.UInt64 (pos 0 ∷ []) None) }
    ensures of_others { FirstError (OutOfSpec spec.KeyType) (x_by primitives.UInt16 types.uint16 integers.UInt32 (pos 0 ∷ []) None) }
    ensures signed { FirstError (OutOfSpec spec.KeyType) (x_by primitives.UInt8 types.uint8 integers.Int8 (pos 0 ∷ []) None) }
{}
