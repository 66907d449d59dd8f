//! Examples and laws of conditions. Each function's contract is an example or a law, and its body is empty.
ghost use Rattle.std.specs.Prelude.{◌≡◌, Bool, List, [], ◌∷◌, true, false, Option, Some, None, FitsSigned, IsSome, ℤ, codes, negsuc, pos};
ghost use Rattle.std.specs.Int.{w32};
ghost use Rattle.nest_memory.specs.TypeTree as types;
ghost use Rattle.nest_memory.specs.TypeTree.{FieldTree, TypeTree};
ghost use Rattle.nest_memory.specs.declared.datatypes.TimeUnit.TheVariants.{Second, Millisecond, Microsecond, Nanosecond};
ghost use Rattle.nest_memory.specs.declared.datatypes.IntegerType.TheVariants.{Int32};
ghost use Rattle.nest_model.specs.Slot as slots;
ghost use Rattle.nest_model.specs.Slot.{Slot};
ghost use Rattle.cli_args.specs.Columns.{indexed};
ghost use Rattle.cli_args.specs.Conditions.{ConditionTree, LiteralTree, boolean, both, compare, either, is_null, is_true, negation, number, text};
ghost use Rattle.cli_args.specs.NumberLiterals.{decimal_number};
ghost use Rattle.cli_args.specs.declared.condition.Comparison.{Comparison};
ghost use Rattle.cli_args.specs.declared.condition.Comparison.TheVariants.{Equal, NotEqual, Less, LessOrEqual, Greater, GreaterOrEqual};
ghost use Rattle.cli_rows.specs.ConditionErrors.{resolved_condition, spec_condition_error};
ghost use Rattle.cli_rows.specs.ConditionExamples.{absent, booleans_row, double_value, example_fields, first, value_of_half, integer_value, minus_three, minus_three_and_a_half, n, nought, p, q, s, second, single_value, string_by_key, string_value, tenth, three, three_and_a_half, three_point_zero, value_of_type, x, y};
ghost use Rattle.cli_rows.specs.Conditions.{is_true_in, nullness, spec_compared, truth_in};
ghost use Rattle.json_write.specs.Times.{date_text};
ghost use Rattle.cli_rows.specs.TimeLiterals.{day_with_text, whole_number};
ghost use Rattle.cli_rows.specs.Truth.{truth_and, truth_not, truth_or};
ghost use Rattle.cli_rows.specs.declared.error.ColumnError.TheVariants.{UnknownColumn, NotBoolean, NotComparable, OtherLiteral};

/// The truth table of `not`.
pub fn negations()
    ensures yes { truth_not (Some true) ≡ Some false }
    ensures no { truth_not (Some false) ≡ Some true }
    ensures unknown { truth_not None ≡ None }
{}

/// The truth table of `and`.
pub fn conjunctions()
    ensures yes_yes { truth_and (Some true) (Some true) ≡ Some true }
    ensures yes_no { truth_and (Some true) (Some false) ≡ Some false }
    ensures yes_unknown { truth_and (Some true) None ≡ None }
    ensures no_yes { truth_and (Some false) (Some true) ≡ Some false }
    ensures no_no { truth_and (Some false) (Some false) ≡ Some false }
    ensures no_unknown { truth_and (Some false) None ≡ Some false }
    ensures unknown_yes { truth_and None (Some true) ≡ None }
    ensures unknown_no { truth_and None (Some false) ≡ Some false }
    ensures unknown_unknown { truth_and None None ≡ None }
{}

/// The truth table of `or`.
pub fn disjunctions()
    ensures yes_yes { truth_or (Some true) (Some true) ≡ Some true }
    ensures yes_no { truth_or (Some true) (Some false) ≡ Some true }
    ensures yes_unknown { truth_or (Some true) None ≡ Some true }
    ensures no_yes { truth_or (Some false) (Some true) ≡ Some true }
    ensures no_no { truth_or (Some false) (Some false) ≡ Some false }
    ensures no_unknown { truth_or (Some false) None ≡ None }
    ensures unknown_yes { truth_or None (Some true) ≡ Some true }
    ensures unknown_no { truth_or None (Some false) ≡ None }
    ensures unknown_unknown { truth_or None None ≡ None }
{}

/// De Morgan's laws, and double negation.
pub fn truths_are_negated()
    ensures conjunction { (t u : Option Bool) → truth_not (truth_and t u) ≡ truth_or (truth_not t) (truth_not u) }
    ensures disjunction { (t u : Option Bool) → truth_not (truth_or t u) ≡ truth_and (truth_not t) (truth_not u) }
    ensures twice { (t : Option Bool) → truth_not (truth_not t) ≡ t }
{}

/// 3 and 3.5; 3 and 3.0; -3 and -3.5.
pub fn integers_are_compared()
    ensures less { spec_compared Less three_and_a_half three ≡ Some true }
    ensures not_equal { spec_compared NotEqual three_and_a_half three ≡ Some true }
    ensures not_greater { spec_compared GreaterOrEqual three_and_a_half three ≡ Some false }
    ensures equal { spec_compared Equal three_point_zero three ≡ Some true }
    ensures at_most { spec_compared LessOrEqual three_point_zero three ≡ Some true }
    ensures at_least { spec_compared GreaterOrEqual three_point_zero three ≡ Some true }
    ensures not_less { spec_compared Less three_point_zero three ≡ Some false }
    ensures negative { spec_compared Greater minus_three_and_a_half minus_three ≡ Some true }
    ensures signs { spec_compared Less three_and_a_half minus_three ≡ Some true }
{}

/// The largest and the least integers, of 64 bits.
pub fn large_integers_are_compared()
    ensures largest { spec_compared Less (decimal_number (pos 184467440737095516155) 1) (types.uint64, slots.number (pos 18446744073709551615 ∷ [])) ≡ Some true }
    ensures least { spec_compared LessOrEqual (decimal_number (negsuc 9223372036854775807) 0) (integer_value (negsuc 9223372036854775807)) ≡ Some true }
{}

/// A decimal of two digits after the point, 5.00, and 5, 5.0001 and 4.9.
pub fn decimals_are_compared()
    ensures equal { spec_compared Equal (decimal_number (pos 5) 0) (types.decimal 10 2, slots.number (pos 500 ∷ [])) ≡ Some true }
    ensures less { spec_compared Less (decimal_number (pos 50001) 4) (types.decimal 10 2, slots.number (pos 500 ∷ [])) ≡ Some true }
    ensures greater { spec_compared Greater (decimal_number (pos 49) 1) (types.decimal 10 2, slots.number (pos 500 ∷ [])) ≡ Some true }
{}

/// 0.1 as a double, a single and a half, which is less, compared with 0.1; negative zero with 0; NaN and infinity with 0.1.
pub fn floats_are_compared()
    ensures double { spec_compared Equal tenth (double_value 0x3fb9_9999_9999_999a) ≡ Some true }
    ensures next { spec_compared Greater tenth (double_value 0x3fb9_9999_9999_999b) ≡ Some true }
    ensures single { spec_compared Equal tenth (single_value 0x3dcc_cccd) ≡ Some true }
    ensures half { spec_compared Less tenth (value_of_half 0x2e66) ≡ Some true }
    ensures zero { spec_compared Equal nought (double_value 0x8000_0000_0000_0000) ≡ Some true }
    ensures negative { spec_compared Less nought (double_value 0xbfb9_9999_9999_999a) ≡ Some true }
    ensures nan_equal { spec_compared Equal tenth (double_value 0x7ff8_0000_0000_0000) ≡ Some false }
    ensures nan_other { spec_compared NotEqual tenth (double_value 0x7ff8_0000_0000_0000) ≡ Some true }
    ensures nan_less { spec_compared Less tenth (double_value 0x7ff8_0000_0000_0000) ≡ Some false }
    ensures nan_more { spec_compared GreaterOrEqual tenth (single_value 0x7fc0_0000) ≡ Some false }
    ensures infinity { spec_compared Greater tenth (double_value 0x7ff0_0000_0000_0000) ≡ Some true }
{}

/// Strings by their bytes: an upper-case letter before each lower-case one, a prefix first, and whatever their lengths.
pub fn strings_are_compared()
    ensures cases { spec_compared Less (text (codes "a")) (string_value (codes "Z")) ≡ Some true }
    ensures prefix { spec_compared Less (text (codes "abc")) (string_value (codes "ab")) ≡ Some true }
    ensures lengths { spec_compared Greater (text (codes "aa")) (string_value (codes "b")) ≡ Some true }
    ensures equal { spec_compared Equal (text (codes "ab")) (string_value (codes "ab")) ≡ Some true }
    ensures large { spec_compared GreaterOrEqual (text []) (types.large_utf8, slots.utf8 []) ≡ Some true }
{}

/// Dates by their text: day 0 and the day before it, a leap day, and the last day before the year 0.
pub fn dates_have_numbers()
    ensures first { day_with_text (codes "1970-01-01") ≡ Some (pos 0) }
    ensures before { day_with_text (codes "1969-12-31") ≡ Some (negsuc 0) }
    ensures leap_day { day_with_text (codes "2000-02-29") ≡ Some (pos 11_016) }
    ensures negative { day_with_text (codes "-000001-12-31") ≡ Some (negsuc 719_528) }
{}

/// The text of each day is that of the day.
pub fn days_have_their_text()
    ensures { (n : ℤ) → FitsSigned w32 n → day_with_text (date_text n) ≡ Some n }
{}

/// A leap day with itself and the day before it, as text and as a number; a time with one a millisecond after it; timestamps in UTC and
/// without a zone; midnight.
pub fn dates_and_times_are_compared()
    ensures date { spec_compared Equal (text (codes "2000-02-29")) (value_of_type types.date32 (pos 11_016)) ≡ Some true }
    ensures earlier { spec_compared GreaterOrEqual (text (codes "2000-02-29")) (value_of_type types.date32 (pos 11_015)) ≡ Some false }
    ensures number { spec_compared Equal (decimal_number (pos 11_016) 0) (value_of_type types.date32 (pos 11_016)) ≡ Some true }
    ensures time { spec_compared Greater (text (codes "12:34:56")) (value_of_type (types.time32 Millisecond) (pos 45_296_001)) ≡ Some true }
    ensures utc { spec_compared Equal (text (codes "2024-02-29T12:34:56Z")) (value_of_type (types.timestamp Microsecond (Some [])) (pos 1_709_210_096_000_000)) ≡ Some true }
    ensures no_zone { spec_compared Less (text (codes "2024-02-29T12:34:56")) (value_of_type (types.timestamp Nanosecond None) (pos 1_709_210_095_999_999_999)) ≡ Some true }
    ensures midnight { spec_compared LessOrEqual (text (codes "2024-02-29")) (value_of_type (types.timestamp Second None) (pos 1_709_164_800)) ≡ Some true }
    ensures milliseconds { spec_compared Equal (text (codes "2024-02-29")) (value_of_type types.date64 (pos 1_709_164_800_000)) ≡ Some true }
{}

/// Durations by their number of units.
pub fn durations_are_compared()
    ensures { spec_compared Greater (decimal_number (pos 15) 1) (value_of_type (types.duration Second) (pos 2)) ≡ Some true }
{}

/// Values of dictionaries as any others; a null key or a key of a null value is null.
pub fn values_of_dictionaries_are_compared()
    ensures equal { spec_compared Equal (text (codes "ab")) (string_by_key (codes "ab")) ≡ Some true }
    ensures less { spec_compared Less (text (codes "abc")) (string_by_key (codes "ab")) ≡ Some true }
    ensures null { truth_not (spec_compared Equal (text (codes "ab")) (types.dictionary Int32 types.utf8 false, slots.null)) ≡ None }
{}

/// False before true.
pub fn booleans_are_compared()
    ensures less { spec_compared Less (boolean true) (types.boolean, slots.boolean false) ≡ Some true }
    ensures equal { spec_compared Equal (boolean false) (types.boolean, slots.boolean false) ≡ Some true }
    ensures other { spec_compared NotEqual (boolean false) (types.boolean, slots.boolean true) ≡ Some true }
{}

/// A comparison with a null is unknown.
pub fn nulls_are_not_compared()
    ensures { (op : Comparison) (literal : LiteralTree) (t : TypeTree) → spec_compared op literal (t, slots.null) ≡ None }
{}

/// Whether a value is null is never unknown.
pub fn nulls_are_found()
    ensures known { (t : TypeTree) (v : Slot) → IsSome (nullness (t, v)) }
    ensures null { nullness (types.int64, slots.null) ≡ Some true }
    ensures value { nullness three ≡ Some false }
{}

/// In a row of true and null: each column, their conjunction and disjunction, and which is null.
pub fn conditions_have_truths()
    ensures column { truth_in (first p) (booleans_row (slots.boolean true) slots.null) ≡ Some true }
    ensures null { truth_in (first q) (booleans_row (slots.boolean true) slots.null) ≡ None }
    ensures not { truth_in (negation (first q)) (booleans_row (slots.boolean true) slots.null) ≡ None }
    ensures and { truth_in (both (first p) (second q)) (booleans_row (slots.boolean true) slots.null) ≡ None }
    ensures or { truth_in (either (first q) (second p)) (booleans_row (slots.boolean true) slots.null) ≡ Some true }
    ensures is_null { truth_in (is_null q 0) (booleans_row (slots.boolean true) slots.null) ≡ Some true }
    ensures is_not_null { truth_in (negation (is_null q 0)) (booleans_row (slots.boolean true) slots.null) ≡ Some false }
    ensures selected { is_true_in (negation (first q)) (booleans_row (slots.boolean true) (slots.boolean false)) ≡ true }
    ensures unknown { is_true_in (negation (first q)) (booleans_row (slots.boolean true) slots.null) ≡ false }
{}

/// An unknown column, one that is not boolean, one whose type is not compared, and a literal of another kind than the column.
pub fn conditions_have_errors()
    ensures unknown { spec_condition_error (first absent) example_fields ≡ Some (UnknownColumn 0) }
    ensures unknown_null { spec_condition_error (is_null absent 3) example_fields ≡ Some (UnknownColumn 3) }
    ensures unknown_compared { spec_condition_error (compare absent 4 Less three_and_a_half) example_fields ≡ Some (UnknownColumn 4) }
    ensures not_boolean { spec_condition_error (second n) example_fields ≡ Some (NotBoolean 6) }
    ensures not_compared { spec_condition_error (compare y 2 Less three_and_a_half) example_fields ≡ Some (NotComparable 2) }
    ensures date { spec_condition_error (compare x 2 Less three_and_a_half) example_fields ≡ None }
    ensures number { spec_condition_error (compare n 5 Equal (text (codes "3"))) example_fields ≡ Some (OtherLiteral 5) }
    ensures string { spec_condition_error (compare s 0 Equal three_point_zero) example_fields ≡ Some (OtherLiteral 0) }
    ensures boolean { spec_condition_error (compare p 1 Equal three_point_zero) example_fields ≡ Some (OtherLiteral 1) }
    ensures none { spec_condition_error (both (compare n 0 Less three_and_a_half) (either (is_null x 6) (negation (compare s 20 Equal (text []))))) example_fields ≡ None }
{}

/// Of two errors the first in the text, also where a column is only negated.
pub fn first_error_is_found()
    ensures and { spec_condition_error (both (first n) (second absent)) example_fields ≡ Some (NotBoolean 0) }
    ensures or { spec_condition_error (either (first absent) (second n)) example_fields ≡ Some (UnknownColumn 0) }
    ensures second { spec_condition_error (both (first p) (second absent)) example_fields ≡ Some (UnknownColumn 6) }
    ensures not { spec_condition_error (both (negation (first n)) (second absent)) example_fields ≡ Some (NotBoolean 0) }
{}

/// Columns by their indices, and dates by their numbers; an unknown name stays.
pub fn conditions_are_resolved()
    ensures literal { resolved_condition example_fields (compare x 0 Less (text (codes "2000-02-29"))) ≡ compare (indexed 4) 0 Less (number (whole_number (pos 11_016))) }
    ensures names { resolved_condition example_fields (both (first q) (negation (second absent))) ≡ both (is_true (indexed 1) 0) (negation (second absent)) }
{}
