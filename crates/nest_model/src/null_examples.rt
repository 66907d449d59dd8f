//! Worked examples: null and empty arrays of data types.

ghost use Rattle.std.specs.Prelude.{◌≡◌, ◌+◌, ◌-◌, ◌^◌, pos, false, [], ◌∷◌, Some, None};
ghost use Rattle.nest_memory.specs.declared.datatypes.IntegerType.TheVariants as integers;
ghost use Rattle.nest_memory.specs.declared.datatypes.UnionMode.TheVariants as modes;
ghost use Rattle.nest_memory.specs.declared.error.SpecError.TheVariants as spec;
ghost use Rattle.nest_memory.specs.declared.error.ArgumentError.TheVariants as argument;
ghost use Rattle.nest_memory.specs.declared.error.Error.TheVariants.{OutOfSpec, InvalidArgumentError, Overflow, NotYetImplemented};
ghost use Rattle.nest_memory.specs.TypeTree as types;
ghost use Rattle.nest_model.specs.Slot as slots;
ghost use Rattle.nest_model.specs.Accessors.{types_of, natives_of, union_offsets_of, keys_of, child_of};
ghost use Rattle.nest_model.specs.Meaning.{len, slots_of};
ghost use Rattle.nest_model.specs.Nullness.{null_count};
ghost use Rattle.nest_model.specs.Nulls.{null_slots, type_error, empty_error};
ghost use Rattle.nest_model.specs.NullLayout.{null_layout, empty_layout};
ghost use Rattle.nest_model.specs.Examples.{a_field, two_fields, list_type, sparse_union, fields_type, extended};

/// Data types without null arrays, and lengths that are too long.
/// The data type is checked first, then the product, then the children from left to right.
pub fn refused_types()
    ensures float { type_error types.float32 0 ≡ Some NotYetImplemented }
    ensures product_first { type_error (types.fixed_size_list (a_field (types.fixed_size_binary 0)) 2) (2 ^ 63) ≡ Some Overflow }
    ensures child_after { type_error (types.fixed_size_list (a_field (types.fixed_size_binary 0)) 2) 1 ≡ Some (OutOfSpec spec.ZeroSize) }
    ensures longest_product { type_error (types.fixed_size_list (a_field types.int8) (2 ^ 32 + 1)) (2 ^ 32 - 1) ≡ None }
    ensures long_product { type_error (types.fixed_size_list (a_field types.int8) (2 ^ 33)) (2 ^ 33) ≡ Some Overflow }
    ensures children_from_left { type_error (types.struct (two_fields types.float32 (types.fixed_size_binary 0))) 1 ≡ Some NotYetImplemented }
    ensures no_fields { type_error (types.struct types.no_fields) 1 ≡ Some (OutOfSpec spec.NoFields) }
    ensures no_pairs { empty_error (types.map (a_field types.int8) false) ≡ Some (InvalidArgumentError argument.MapInner) }
    ensures offsets_too_long { type_error (list_type types.int32) (2 ^ 64 - 1) ≡ Some Overflow }
    ensures text_too_long { type_error types.utf8 (2 ^ 64 - 1) ≡ Some Overflow }
    ensures null_of_any_length { type_error types.null (2 ^ 64 - 1) ≡ None }
    ensures through_an_extension { type_error (extended types.float64) 0 ≡ Some NotYetImplemented }
{}

/// Errors of unions: too many fields, invalid ids, slots without a field, and the largest length of a dense union.
pub fn refused_unions()
    ensures empty { empty_error (types.union types.no_fields None modes.Sparse) ≡ None }
    ensures of_none { type_error (types.union types.no_fields None modes.Sparse) 1 ≡ Some (OutOfSpec spec.UnionType) }
    ensures most_fields { type_error (fields_type 127) 0 ≡ None }
    ensures one_more_field { type_error (fields_type 128) 0 ≡ Some (OutOfSpec spec.TooManyFields) }
    ensures dense_too_long { type_error (types.union (types.more_fields (a_field types.int32) types.no_fields) None modes.Dense) (2 ^ 31 + 1) ≡ Some Overflow }
    ensures ids_of_another_count { type_error (types.union (types.more_fields (a_field types.int32) types.no_fields) (Some (pos 1 ∷ pos 2 ∷ [])) modes.Sparse) 0 ≡ Some (OutOfSpec spec.IdCount) }
    ensures id_out_of_range { type_error (types.union (types.more_fields (a_field types.int32) types.no_fields) (Some (pos 200 ∷ [])) modes.Sparse) 0 ≡ Some (OutOfSpec spec.IdRange) }
{}

/// Null slots are `Null`. Those of a union are picks of the first id's field, or of field 0 if there are no ids.
pub fn slots_of_null()
    ensures dates { null_slots types.date32 3 ≡ slots.null ∷ slots.null ∷ slots.null ∷ [] }
    ensures counted { null_count (null_layout types.date32 3) ≡ 3 }
    ensures first_id { null_slots (sparse_union types.int32 types.utf8 (Some (pos 5 ∷ pos 7 ∷ []))) 2 ≡ slots.pick 0 types.int32 slots.null ∷ slots.pick 0 types.int32 slots.null ∷ [] }
    ensures later_of_two { null_slots (sparse_union types.int32 types.utf8 (Some (pos 5 ∷ pos 5 ∷ []))) 2 ≡ slots.pick 1 types.utf8 slots.null ∷ slots.pick 1 types.utf8 slots.null ∷ [] }
    ensures first_field { null_slots (sparse_union types.int32 types.utf8 None) 1 ≡ slots.pick 0 types.int32 slots.null ∷ [] }
    ensures through_an_extension { null_slots (extended (sparse_union types.int32 types.utf8 None)) 1 ≡ slots.pick 0 types.int32 slots.null ∷ [] }
{}

/// The parts of null arrays: types and offsets of a union, keys of a dictionary with one null value.
pub fn parts_of_null()
    ensures types { types_of (null_layout (sparse_union types.int32 types.utf8 (Some (pos 5 ∷ pos 7 ∷ []))) 2) ≡ pos 5 ∷ pos 5 ∷ [] }
    ensures dense { union_offsets_of (null_layout (types.union (types.more_fields (a_field types.int32) types.no_fields) None modes.Dense) 2) ≡ Some (pos 0 ∷ pos 1 ∷ []) }
    ensures counted { null_count (null_layout (sparse_union types.int32 types.utf8 None) 2) ≡ 0 }
    ensures keys { slots_of (keys_of (null_layout (types.dictionary integers.Int8 (list_type types.int32) false) 2)) ≡ slots.null ∷ slots.null ∷ [] }
    ensures value { slots_of (child_of (null_layout (types.dictionary integers.Int8 (list_type types.int32) false) 2)) ≡ slots.null ∷ [] }
    ensures two_halves { natives_of (null_layout (types.decimal256 76 0) 1) ≡ (pos 0 ∷ pos 0 ∷ []) ∷ [] }
    ensures no_value { slots_of (child_of (empty_layout (types.dictionary integers.Int8 (list_type types.int32) false))) ≡ [] }
    ensures list_child { slots_of (child_of (null_layout (list_type types.int32) 2)) ≡ [] }
    ensures items { len (child_of (null_layout (types.fixed_size_list (a_field types.int8) 3) 2)) ≡ 6 }
{}
