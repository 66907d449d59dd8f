//! Worked examples: complete builders, dictionaries with distinct values, and builders of the same kinds.

ghost use Rattle.std.specs.Prelude.{◌≡◌, ℕ, Bool, true, false, List, [], ◌∷◌, Option, Some, None};
ghost use Rattle.nest_memory.specs.TypeTree as types;
ghost use Rattle.nest_memory.specs.TypeTree.{TypeTree};
ghost use Rattle.nest_memory.specs.declared.datatypes.IntegerType.{IntegerType};
ghost use Rattle.nest_memory.specs.declared.datatypes.IntegerType.TheVariants as integers;
ghost use Rattle.nest_model.specs.Slot as slots;
ghost use Rattle.nest_model.specs.Slot.{Slot};
ghost use Rattle.nest_model.specs.Examples.{list_type, number, extended};
ghost use Rattle.nest_model.specs.BuilderRow.{Row};
ghost use Rattle.nest_model.specs.BuilderTree as builders;
ghost use Rattle.nest_model.specs.BuilderTree.{BuilderTree, BuilderTrees};
ghost use Rattle.nest_model.specs.BuilderComplete.{IsComplete, ValuesDiffer};
ghost use Rattle.nest_model.specs.BuilderJoin.{CanJoin};
ghost use Rattle.nest_model.specs.BuilderAppend.{appended, all_appended};
ghost use Rattle.nest_model.specs.BuilderAddRow.{IsReady, HasCompleteChildren};
ghost use Rattle.nest_model.specs.BuilderExamples.{an_int, some_ints, items_of, no_ints, no_lists, no_pairs, no_records, list_of, pairs_of, records_of, in_child, three_pending, two_pending, letters, keyed_ints};

/// A builder is complete if each level has exactly the items that the rows need, of the types of the fields.
pub fn complete_builders()
    ensures flat { IsComplete no_ints }
    ensures list { IsComplete (appended (items_of (some_ints (1 ∷ 2 ∷ []))) (no_lists no_ints)) }
    ensures pairs { IsComplete (appended (items_of (some_ints (1 ∷ 2 ∷ []))) no_pairs) }
    ensures record { IsComplete (no_records no_ints) }
    ensures keys { IsComplete letters }
    ensures extended_values { IsComplete (keyed_ints (extended types.int32) []) }
    ensures items_wait { ¬ IsComplete three_pending }
    ensures items_wait_for_pairs { ¬ IsComplete (in_child (appended (an_int 1)) no_pairs) }
    ensures field_waits { ¬ IsComplete (in_child (appended (an_int 1)) (no_records no_ints)) }
    ensures value_waits { ¬ IsComplete (keyed_ints types.int32 (number 7 ∷ [])) }
    ensures list_of_another { ¬ IsComplete (list_of types.utf8 no_ints) }
    ensures pairs_of_another { ¬ IsComplete (pairs_of types.utf8 no_ints) }
    ensures record_of_another { ¬ IsComplete (records_of types.utf8 no_ints) }
    ensures values_of_another { ¬ IsComplete (keyed_ints types.utf8 []) }
    ensures values_of_another_unit { ¬ IsComplete (keyed_ints types.date32 []) }
    ensures below_a_list { ¬ IsComplete (no_lists three_pending) }
    ensures below_pairs { ¬ IsComplete (pairs_of (list_type types.int32) three_pending) }
    ensures below_a_record { ¬ IsComplete (no_records three_pending) }
{}

/// The values of a dictionary are distinct if no two indices have equal slots, at every level.
pub fn different_values()
    ensures once { ValuesDiffer letters }
    ensures twice { ¬ ValuesDiffer (keyed_ints types.int32 (number 7 ∷ number 8 ∷ number 7 ∷ [])) }
    ensures in_a_list { ¬ ValuesDiffer (no_lists (keyed_ints types.int32 (number 7 ∷ number 7 ∷ []))) }
    ensures in_pairs { ¬ ValuesDiffer (pairs_of types.int32 (keyed_ints types.int32 (number 7 ∷ number 7 ∷ []))) }
    ensures in_a_record { ¬ ValuesDiffer (no_records (keyed_ints types.int32 (number 7 ∷ number 7 ∷ []))) }
    ensures no_dictionary { ValuesDiffer (no_records (no_lists (builders.flat types.int32 (number 7 ∷ number 7 ∷ [])))) }
{}

/// The precondition of adding a row, for each kind; and builders of the same kinds.
pub fn children_of_rows()
    ensures flat { (t : TypeTree) (xs : List Slot) → HasCompleteChildren (builders.flat t xs) }
    ensures list { HasCompleteChildren three_pending }
    ensures pairs { (t : TypeTree) (bits : List Bool) (c : BuilderTree) → IsComplete c → HasCompleteChildren (builders.fixed_size_list t bits c) }
    ensures keys { (k : IntegerType) (t : TypeTree) (keys : List (Option ℕ)) (c : BuilderTree) → IsComplete c → HasCompleteChildren (builders.dictionary k t keys c) }
    ensures record { HasCompleteChildren (in_child (appended (an_int 1)) (no_records no_ints)) }
    ensures alike_flat { (t : TypeTree) (xs ys : List Slot) → CanJoin (builders.flat t xs) (builders.flat t ys) }
    ensures alike_lists { CanJoin three_pending two_pending }
    ensures alike_pairs { (t : TypeTree) (xs ys : List Bool) → CanJoin (builders.fixed_size_list t xs no_ints) (builders.fixed_size_list t ys no_ints) }
    ensures not_widths { (t : TypeTree) (c : BuilderTree) → ¬ CanJoin (builders.list true t [] c) (builders.list false t [] c) }
{}
