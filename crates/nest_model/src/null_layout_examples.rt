//! Worked examples: the parts of null and empty arrays of every kind, and the errors of their children.

ghost use Rattle.std.specs.Prelude.{◌≡◌, ◌+◌, ◌-◌, ◌^◌, pos, negsuc, true, false, [], ◌∷◌, Some, None};
ghost use Rattle.nest_memory.specs.declared.datatypes.IntegerType.TheVariants as integers;
ghost use Rattle.nest_memory.specs.declared.datatypes.IntervalUnit.TheVariants as intervals;
ghost use Rattle.nest_memory.specs.declared.datatypes.UnionMode.TheVariants as modes;
ghost use Rattle.nest_memory.specs.declared.datatypes.physical_type.PrimitiveType.TheVariants as primitives;
ghost use Rattle.nest_memory.specs.declared.error.SpecError.TheVariants as spec;
ghost use Rattle.nest_memory.specs.declared.error.ArgumentError.TheVariants as argument;
ghost use Rattle.nest_memory.specs.declared.error.Error.TheVariants.{OutOfSpec, InvalidArgumentError, Overflow, NotYetImplemented};
ghost use Rattle.nest_memory.specs.TypeTree as types;
ghost use Rattle.nest_model.specs.Layout as layouts;
ghost use Rattle.nest_model.specs.Layout.{more_layouts, no_layouts};
ghost use Rattle.nest_model.specs.Nulls.{type_error, empty_error};
ghost use Rattle.nest_model.specs.NullLayout.{null_layout, empty_layout};
ghost use Rattle.nest_model.specs.Examples.{a_field, one_field, two_fields, list_type, sparse_union, int_fields, both, extended, no_slot_type, two_nulls, null_dates, empty_ints, int_map_type, int_entry_type, date_union_type, date_keys_type, large_date_keys_type, int_keys_type};

/// Flat arrays of two nulls. The values of their slots are false, zeros and no bytes.
pub fn flat_nulls()
    ensures null { null_layout types.null 2 ≡ layouts.null types.null 2 }
    ensures boolean { null_layout types.boolean 2 ≡ layouts.boolean types.boolean (false ∷ false ∷ []) two_nulls }
    ensures date { null_layout types.date32 2 ≡ null_dates 2 }
    ensures date64 { null_layout types.date64 1 ≡ layouts.primitive primitives.Int64 types.date64 ((pos 0 ∷ []) ∷ []) (Some (false ∷ [])) }
    ensures two_numbers { null_layout (types.interval intervals.DayTime) 1 ≡ layouts.primitive primitives.DaysMs (types.interval intervals.DayTime) ((pos 0 ∷ pos 0 ∷ []) ∷ []) (Some (false ∷ [])) }
    ensures three_numbers { null_layout (types.interval intervals.MonthDayNano) 1
        ≡ layouts.primitive primitives.MonthDayNano (types.interval intervals.MonthDayNano) ((pos 0 ∷ pos 0 ∷ pos 0 ∷ []) ∷ []) (Some (false ∷ [])) }
    ensures binary { null_layout types.binary 2 ≡ layouts.binary false types.binary (0 ∷ 0 ∷ 0 ∷ []) [] two_nulls }
    ensures large_binary { null_layout types.large_binary 2 ≡ layouts.binary true types.large_binary (0 ∷ 0 ∷ 0 ∷ []) [] two_nulls }
    ensures text { null_layout types.utf8 2 ≡ layouts.utf8 false types.utf8 (0 ∷ 0 ∷ 0 ∷ []) [] two_nulls }
    ensures large_text { null_layout types.large_utf8 2 ≡ layouts.utf8 true types.large_utf8 (0 ∷ 0 ∷ 0 ∷ []) [] two_nulls }
    ensures bytes { null_layout (types.fixed_size_binary 2) 2 ≡ layouts.fixed_size_binary (types.fixed_size_binary 2) (0 ∷ 0 ∷ 0 ∷ 0 ∷ []) two_nulls }
    ensures extension { null_layout (extended types.boolean) 2 ≡ layouts.boolean (extended types.boolean) (false ∷ false ∷ []) two_nulls }
{}

/// Nested arrays of two nulls: a list without items, a struct with nulls of each field,
/// a dictionary with zero keys and one null value.
pub fn nested_nulls()
    ensures list { null_layout (list_type types.int32) 2 ≡ layouts.list false (list_type types.int32) (0 ∷ 0 ∷ 0 ∷ []) empty_ints two_nulls }
    ensures large_list { null_layout (types.large_list (a_field types.int32)) 2 ≡ layouts.list true (types.large_list (a_field types.int32)) (0 ∷ 0 ∷ 0 ∷ []) empty_ints two_nulls }
    ensures entries { null_layout int_map_type 2
        ≡ layouts.map int_map_type (0 ∷ 0 ∷ 0 ∷ []) (layouts.struct int_entry_type (both empty_ints empty_ints) None) two_nulls }
    ensures pairs { null_layout (types.fixed_size_list (a_field types.date32) 2) 1 ≡ layouts.fixed_size_list (types.fixed_size_list (a_field types.date32) 2) (null_dates 2) (Some (false ∷ [])) }
    ensures record { let t = types.struct (two_fields types.date32 types.null) in null_layout t 2 ≡ layouts.struct t (both (null_dates 2) (layouts.null types.null 2)) two_nulls }
    ensures sparse { let t = sparse_union types.date32 types.null None in null_layout t 2 ≡ layouts.union t (pos 0 ∷ pos 0 ∷ []) (both (null_dates 2) (layouts.null types.null 2)) None 0 }
    ensures dense { null_layout date_union_type 2
        ≡ layouts.union date_union_type (pos 7 ∷ pos 7 ∷ []) (more_layouts (null_dates 2) no_layouts) (Some (pos 0 ∷ pos 1 ∷ [])) 0 }
    ensures keys { null_layout date_keys_type 2
        ≡ layouts.dictionary date_keys_type (layouts.primitive primitives.Int8 types.int8 ((pos 0 ∷ []) ∷ (pos 0 ∷ []) ∷ []) two_nulls) (null_dates 1) }
    ensures large_keys { null_layout large_date_keys_type 1
        ≡ layouts.dictionary large_date_keys_type (layouts.primitive primitives.UInt64 types.uint64 ((pos 0 ∷ []) ∷ []) (Some (false ∷ []))) (null_dates 1) }
{}

/// Empty arrays have no validity, and empty dictionaries have no values.
pub fn empties()
    ensures boolean { empty_layout types.boolean ≡ layouts.boolean types.boolean [] None }
    ensures text { empty_layout types.utf8 ≡ layouts.utf8 false types.utf8 (0 ∷ []) [] None }
    ensures bytes { empty_layout (types.fixed_size_binary 2) ≡ layouts.fixed_size_binary (types.fixed_size_binary 2) [] None }
    ensures list { empty_layout (list_type types.int32) ≡ layouts.list false (list_type types.int32) (0 ∷ []) empty_ints None }
    ensures record { empty_layout (types.struct (one_field types.int32)) ≡ layouts.struct (types.struct (one_field types.int32)) (more_layouts empty_ints no_layouts) None }
    ensures keys { empty_layout int_keys_type ≡ layouts.dictionary int_keys_type (layouts.primitive primitives.Int8 types.int8 [] None) empty_ints }
{}

/// Null and empty arrays of floats are not supported. The checked length of a child is 0 below lists and maps,
/// the product below fixed-size lists, and 1 below dictionaries, or 0 if they are empty.
pub fn refused_below()
    ensures float16 { type_error types.float16 0 ≡ Some NotYetImplemented }
    ensures float64 { empty_error types.float64 ≡ Some NotYetImplemented }
    ensures empty_float16 { empty_error types.float16 ≡ Some NotYetImplemented }
    ensures list_of_floats { empty_error (list_type types.float32) ≡ Some NotYetImplemented }
    ensures no_size { empty_error (types.fixed_size_list (a_field types.float32) 0) ≡ Some (OutOfSpec spec.ZeroSize) }
    ensures no_bytes { empty_error (types.fixed_size_binary 0) ≡ Some (OutOfSpec spec.ZeroSize) }
    ensures below_a_list { type_error (list_type no_slot_type) 1 ≡ None }
    ensures below_a_large_list { type_error (types.large_list (a_field no_slot_type)) 1 ≡ None }
    ensures below_a_map { type_error (types.map (a_field (types.struct (two_fields no_slot_type no_slot_type))) false) 1 ≡ None }
    ensures below_pairs { type_error (types.fixed_size_list (a_field no_slot_type) 2) 1 ≡ Some (OutOfSpec spec.UnionType) }
    ensures below_no_pair { type_error (types.fixed_size_list (a_field no_slot_type) 2) 0 ≡ None }
    ensures below_records { type_error (types.struct (two_fields types.int32 no_slot_type)) 1 ≡ Some (OutOfSpec spec.UnionType) }
    ensures below_picks { type_error (sparse_union types.int32 no_slot_type None) 1 ≡ Some (OutOfSpec spec.UnionType) }
    ensures below_keys { type_error (types.dictionary integers.Int8 no_slot_type false) 0 ≡ Some (OutOfSpec spec.UnionType) }
    ensures below_no_key { empty_error (types.dictionary integers.Int8 no_slot_type false) ≡ None }
    ensures below_keys_of_a_list { type_error (list_type (types.dictionary integers.Int8 no_slot_type false)) 1 ≡ None }
    ensures length_of_a_list { type_error (list_type types.float32) (2 ^ 64 - 1) ≡ Some Overflow }
    ensures length_of_a_large_list { type_error (types.large_list (a_field types.float32)) (2 ^ 64 - 1) ≡ Some Overflow }
    ensures entries_of_a_map { type_error (types.map (a_field types.float32) false) (2 ^ 64 - 1) ≡ Some (InvalidArgumentError argument.MapInner) }
    ensures then_length_of_a_map { type_error (types.map (a_field (types.struct (two_fields types.float32 types.float32))) false) (2 ^ 64 - 1) ≡ Some Overflow }
    ensures then_fields_of_a_map { type_error (types.map (a_field (types.struct (two_fields types.float32 types.float32))) false) 1 ≡ Some NotYetImplemented }
    ensures entries_first { type_error (types.map (a_field types.float32) false) 1 ≡ Some (InvalidArgumentError argument.MapInner) }
    ensures extended_entries { empty_error (types.map (a_field (extended int_entry_type)) false) ≡ Some (InvalidArgumentError argument.MapInner) }
{}

/// The ordered errors of null unions. Each example fails one check and all later ones.
pub fn picks_in_order()
    ensures fields { type_error (types.union (types.more_fields (a_field types.float32) (int_fields 127)) (Some (pos 200 ∷ [])) modes.Dense) (2 ^ 31 + 1) ≡ Some (OutOfSpec spec.TooManyFields) }
    ensures then_ids { type_error (types.union (one_field types.float32) (Some (pos 200 ∷ pos 200 ∷ [])) modes.Dense) (2 ^ 31 + 1) ≡ Some (OutOfSpec spec.IdCount) }
    ensures then_range { type_error (types.union (one_field types.float32) (Some (pos 128 ∷ [])) modes.Dense) (2 ^ 31 + 1) ≡ Some (OutOfSpec spec.IdRange) }
    ensures then_types { type_error (types.union types.no_fields (Some []) modes.Dense) (2 ^ 31 + 1) ≡ Some (OutOfSpec spec.UnionType) }
    ensures then_length { type_error (types.union (one_field types.float32) (Some (pos 127 ∷ [])) modes.Dense) (2 ^ 31 + 1) ≡ Some Overflow }
    ensures then_children { type_error (types.union (one_field types.float32) (Some (pos 127 ∷ [])) modes.Dense) (2 ^ 31) ≡ Some NotYetImplemented }
    ensures largest_id { type_error (types.union (one_field types.int32) (Some (pos 127 ∷ [])) modes.Sparse) 1 ≡ None }
    ensures negative_id { type_error (types.union (one_field types.int32) (Some (negsuc 0 ∷ [])) modes.Sparse) 0 ≡ Some (OutOfSpec spec.IdRange) }
    ensures no_ids { empty_error (types.union (one_field types.int32) (Some []) modes.Sparse) ≡ Some (OutOfSpec spec.IdCount) }
{}
