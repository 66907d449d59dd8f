//! Laws of refused pushes, rows and joins.

ghost use Rattle.std.specs.Prelude.{◌≡◌, ◌↔◌, ◌⊎◌, ◌||◌, ℕ, ◌+◌, true, false, List, ◌∷◌, ◌++◌, length, Option, Some, None, alloc_error};
ghost use Rattle.nest_memory.specs.declared.error.Error.{Error};
ghost use Rattle.nest_memory.specs.declared.error.Error.TheVariants.{Memory};
ghost use Rattle.nest_model.specs.Checks.{Pass, HaveOneOutcome, first_of};
ghost use Rattle.nest_model.specs.BuilderTree.{BuilderTree};
ghost use Rattle.nest_model.specs.BuilderComplete.{IsComplete};
ghost use Rattle.nest_model.specs.BuilderInput.{YieldsAll};
ghost use Rattle.nest_model.specs.BuilderItem as items;
ghost use Rattle.nest_model.specs.BuilderItem.{PlainValue, Item, seal_items, IsValueAt};
ghost use Rattle.nest_model.specs.BuilderAppend.{appended, all_appended, nulls_appended, Accepted};
ghost use Rattle.nest_model.specs.BuilderAddRow.{IsReady, HasCompleteChildren, AreReady, FitsLimits, row_checks, lengths_checks};
ghost use Rattle.nest_model.specs.BuilderExamples.{OptionalStrings, IsIterator, StepsOf, strings_input, string_item, string_items, RefusesAString};
ghost use Rattle.nest_model.specs.BuilderJoin.{CanJoin, joined_builder, join_checks};
ghost use Rattle.nest_model.specs.BuilderRefusals.{nulls_pass, is_known, item_refusal, items_refusal, value_refusal, plain_refusal, over_limits};
ghost use Rattle.nest_model.specs.BuilderReading.{Read, ReadOf, ReadsValue, read_refusal, Refused, Consumed, ConsumedEach, ConsumedAll, RefusedSome, ReadsList, complete};
ghost use Rattle.nest_model.specs.LawStatements.{AllAccepted};

/// A push that no check refuses appends its item, to builders of any nesting.
pub fn accepted_unless_refused()
    ensures { (x : Item) (t : BuilderTree) → IsComplete t → item_refusal x t ≡ None → Accepted x t (appended x t) }
{}

/// A push that no check refuses leaves each level within its limits.
pub fn accepted_within_limits()
    ensures { (x : Item) (t : BuilderTree) → over_limits t ≡ false → item_refusal x t ≡ None → over_limits (appended x t) ≡ false }
{}

/// A plain push and a push that checks the kind first refuse the same values.
pub fn refused_alike()
    ensures { (v : PlainValue) (t : BuilderTree) → (value_refusal v t ≡ None) ↔ (plain_refusal v t ≡ None) }
{}

/// A value is known to a builder exactly if one of the builder's slots is the value.
pub fn known_values()
    ensures stands { (c : BuilderTree) (v : PlainValue) → is_known c v ≡ true → (k : ℕ) × IsValueAt c v k }
    ensures back { (c : BuilderTree) (v : PlainValue) (k : ℕ) → IsValueAt c v k → is_known c v ≡ true }
{}

/// Two runs of nulls pass a limit exactly if the first run does, or the second run after it.
pub fn nulls_passing()
    ensures { (t : BuilderTree) (m n : ℕ) → nulls_pass (m + n) t ≡ (nulls_pass m t || nulls_pass n (nulls_appended m t)) }
{}

/// A list of items is refused with the error of its first refused item.
pub fn refused_in_order()
    ensures both { (xs ys : List Item) (t : BuilderTree)
        → items_refusal (seal_items (xs ++ ys)) t ≡ first_of (items_refusal (seal_items xs) t) (items_refusal (seal_items ys) (all_appended xs t)) }
    ensures first { (e : Error) (xs ys : List Item) (x : Item) (t : BuilderTree) → AllAccepted xs t
        → item_refusal x (all_appended xs t) ≡ Some e → items_refusal (seal_items (xs ++ x ∷ ys)) t ≡ Some e }
{}

/// If the part of an item that was read is refused, the item is refused with the same error.
pub fn refused_while_reading()
    ensures { (r : Read) (x : Item) (t : BuilderTree) (e : Error) → ReadOf r x → read_refusal r t ≡ Some e → item_refusal x t ≡ Some e }
{}

/// A push of a string fails only if a check refuses the string or an allocation fails.
/// A string that was accepted is appended, and no check refuses it.
pub fn strings_read()
    ensures refused { (s : Option (List ℕ)) (t : BuilderTree) (e : Error) → item_refusal (string_item s) t ≡ None → Refused (ReadsValue items.utf8) s t e → e ≡ Memory alloc_error }
    ensures cause { (s : Option (List ℕ)) (t : BuilderTree) (e f : Error) → item_refusal (string_item s) t ≡ Some f → Refused (ReadsValue items.utf8) s t e → (e ≡ f) ⊎ (e ≡ Memory alloc_error) }
    ensures several { (given : OptionalStrings) (old new : BuilderTree) → ConsumedEach (ReadsValue items.utf8) given old new
        → (new ≡ all_appended (string_items given) old) × AllAccepted (string_items given) old }
    ensures all { (u : OptionalStrings) (old new : BuilderTree) → ConsumedAll strings_input u old new
        → (xs : OptionalStrings) × YieldsAll IsIterator StepsOf u xs × ConsumedEach (ReadsValue items.utf8) xs old new }
    ensures refused_some { (u : OptionalStrings) (old : BuilderTree) (e : Error) → RefusedSome strings_input u old e
        → (e ≡ Memory alloc_error) ⊎ RefusesAString u old e }
    ensures no_list { (r : Read) → ReadsList strings_input None r → r ≡ complete items.null }
    ensures taken { (s : Option (List ℕ)) (old new : BuilderTree) → Consumed (ReadsValue items.utf8) s old new → (new ≡ appended (string_item s) old) × (item_refusal (string_item s) old ≡ None) }
{}

/// The checks of a row, of rows added by their lengths and of a join have one outcome:
/// all pass, or exactly one check is the first to fail.
pub fn one_outcome()
    ensures row { (t : BuilderTree) → HaveOneOutcome (row_checks t) }
    ensures lengths { (ns : List (Option ℕ)) (t : BuilderTree) → HaveOneOutcome (lengths_checks ns t) }
    ensures join { (t other : BuilderTree) → HaveOneOutcome (join_checks t other) }
{}

/// The checks of a row pass exactly if it is ready and within the limits; likewise for rows added by their lengths.
pub fn rows_ready()
    ensures row { (t : BuilderTree) → HasCompleteChildren t → Pass (row_checks t) ↔ (IsReady t × FitsLimits 1 t) }
    ensures lengths { (ns : List (Option ℕ)) (t : BuilderTree) → HasCompleteChildren t → Pass (lengths_checks ns t) ↔ (AreReady ns t × FitsLimits (length ns) t) }
{}

/// Builders of the same kinds can be joined exactly if no level of the joined builder is past a limit.
pub fn joins_within_limits()
    ensures { (t other : BuilderTree) → CanJoin t other → Pass (join_checks t other) ↔ (over_limits (joined_builder t other) ≡ false) }
{}
