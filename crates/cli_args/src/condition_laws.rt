//! Examples of conditions. Each function's contract is a list of examples, and its body is empty.
ghost use Rattle.std.specs.Prelude.{◌≡◌, [], ◌++◌, true, false, codes, pos, negsuc, replicate};
ghost use Rattle.cli_args.specs.Columns.{named};
ghost use Rattle.cli_args.specs.ConditionExamples.{FailsAt, ParsesTo};
ghost use Rattle.cli_args.specs.Conditions.{boolean, both, compare, either, is_null, is_true, negation, text};
ghost use Rattle.cli_args.specs.NumberLiterals.{decimal_number, nearest_bits};
ghost use Rattle.std.specs.Float.Ieee.{binary32, binary64};
ghost use Rattle.cli_args.specs.declared.condition.Comparison.TheVariants.{Equal, Greater, GreaterOrEqual, Less, LessOrEqual, NotEqual};
ghost use Rattle.cli_args.specs.declared.condition_error.SyntaxErrorKind.TheVariants.{ColumnExpected, EndExpected, LiteralExpected, NullExpected, ParenthesisExpected, TooDeep, TooManyDigits, UnclosedName, UnclosedString, UnexpectedCharacter};

/// `not` binds before `and`, and `and` before `or`.
pub fn conditions_have_precedences()
    ensures connectives { ParsesTo (codes "a or b and not c") (either (is_true (named (codes "a")) 0) (both (is_true (named (codes "b")) 5) (negation (is_true (named (codes "c")) 15)))) }
    ensures left { ParsesTo (codes "a and b or c") (either (both (is_true (named (codes "a")) 0) (is_true (named (codes "b")) 6)) (is_true (named (codes "c")) 11)) }
    ensures negation { ParsesTo (codes "not a and b") (both (negation (is_true (named (codes "a")) 4)) (is_true (named (codes "b")) 10)) }
    ensures comparison { ParsesTo (codes "not a = 1") (negation (compare (named (codes "a")) 4 Equal (decimal_number (pos 1) 0))) }
    ensures chain { ParsesTo (codes "a or b or c") (either (is_true (named (codes "a")) 0) (either (is_true (named (codes "b")) 5) (is_true (named (codes "c")) 10))) }
{}

/// Parentheses.
pub fn parentheses_group_conditions()
    ensures disjunction { ParsesTo (codes "(a or b) and c") (both (either (is_true (named (codes "a")) 1) (is_true (named (codes "b")) 6)) (is_true (named (codes "c")) 13)) }
    ensures negation { ParsesTo (codes "not(a and b)") (negation (both (is_true (named (codes "a")) 4) (is_true (named (codes "b")) 10))) }
    ensures nested { ParsesTo (codes "((a))") (is_true (named (codes "a")) 2) }
{}

/// Each comparison operator.
pub fn comparisons_are_parsed()
    ensures equal { ParsesTo (codes "a = 1") (compare (named (codes "a")) 0 Equal (decimal_number (pos 1) 0)) }
    ensures not_equal { ParsesTo (codes "a != 1") (compare (named (codes "a")) 0 NotEqual (decimal_number (pos 1) 0)) }
    ensures different { ParsesTo (codes "a <> 1") (compare (named (codes "a")) 0 NotEqual (decimal_number (pos 1) 0)) }
    ensures less { ParsesTo (codes "a<1") (compare (named (codes "a")) 0 Less (decimal_number (pos 1) 0)) }
    ensures at_most { ParsesTo (codes "a<=1") (compare (named (codes "a")) 0 LessOrEqual (decimal_number (pos 1) 0)) }
    ensures greater { ParsesTo (codes "a > 1") (compare (named (codes "a")) 0 Greater (decimal_number (pos 1) 0)) }
    ensures at_least { ParsesTo (codes "a >= 1") (compare (named (codes "a")) 0 GreaterOrEqual (decimal_number (pos 1) 0)) }
{}

/// `is null` and `is not null`.
pub fn null_tests_are_parsed()
    ensures null { ParsesTo (codes "a is null") (is_null (named (codes "a")) 0) }
    ensures value { ParsesTo (codes "a is not null") (negation (is_null (named (codes "a")) 0)) }
    ensures negation { ParsesTo (codes "not a is null") (negation (is_null (named (codes "a")) 4)) }
{}

/// A quoted name may have a space and doubled quotes, or be a keyword.
pub fn quoted_names_are_parsed()
    ensures space { ParsesTo (codes "\"is ok\"") (is_true (named (codes "is ok")) 0) }
    ensures quote { ParsesTo (codes "x or \"a\"\"b\" = 1") (either (is_true (named (codes "x")) 0) (compare (named (codes "a\"b")) 5 Equal (decimal_number (pos 1) 0))) }
    ensures keyword { ParsesTo (codes "\"and\"") (is_true (named (codes "and")) 0) }
    ensures bare { ParsesTo (codes "_a1") (is_true (named (codes "_a1")) 0) }
{}

/// Strings, with doubled quotes and without a byte.
pub fn strings_are_parsed()
    ensures word { ParsesTo (codes "a = 'north'") (compare (named (codes "a")) 0 Equal (text (codes "north"))) }
    ensures quote { ParsesTo (codes "a = 'it''s'") (compare (named (codes "a")) 0 Equal (text (codes "it's"))) }
    ensures quotes { ParsesTo (codes "a = ''''''") (compare (named (codes "a")) 0 Equal (text (codes "''"))) }
    ensures empty { ParsesTo (codes "a = ''") (compare (named (codes "a")) 0 Equal (text [])) }
{}

/// Integers and decimals, by their integer and the digits after the point.
pub fn numbers_are_parsed()
    ensures negative { ParsesTo (codes "a > -12") (compare (named (codes "a")) 0 Greater (decimal_number (negsuc 11) 0)) }
    ensures decimal { ParsesTo (codes "a > 9.5") (compare (named (codes "a")) 0 Greater (decimal_number (pos 95) 1)) }
    ensures scale { ParsesTo (codes "a > -12.50") (compare (named (codes "a")) 0 Greater (decimal_number (negsuc 1249) 2)) }
    ensures zeros { ParsesTo (codes "a = 007") (compare (named (codes "a")) 0 Equal (decimal_number (pos 7) 0)) }
    ensures longest { ParsesTo (codes "a = 99999999999999999999999999999999999999") (compare (named (codes "a")) 0 Equal (decimal_number (pos 99999999999999999999999999999999999999) 0)) }
{}

/// The floating-point numbers nearest to 9.5, 0.1, 2^24 + 1, at a tie between two singles, and -0.1, by their bits.
pub fn numbers_have_nearest_floats()
    ensures double { nearest_bits binary64 (pos 95) 1 ≡ 0x4023_0000_0000_0000 }
    ensures single { nearest_bits binary32 (pos 95) 1 ≡ 0x4118_0000 }
    ensures tenth { nearest_bits binary64 (pos 1) 1 ≡ 0x3fb9_9999_9999_999a }
    ensures tenth_single { nearest_bits binary32 (pos 10) 2 ≡ 0x3dcc_cccd }
    ensures tie { nearest_bits binary32 (pos 16777217) 0 ≡ 0x4b80_0000 }
    ensures negative { nearest_bits binary64 (negsuc 0) 1 ≡ 0xbfb9_9999_9999_999a }
{}

/// Keywords and booleans in any case of letters, and white space.
pub fn keywords_have_any_case()
    ensures null { ParsesTo (codes "A IS NOT NULL") (negation (is_null (named (codes "A")) 0)) }
    ensures connectives { ParsesTo (codes "a AND b Or NOT c") (either (both (is_true (named (codes "a")) 0) (is_true (named (codes "b")) 6)) (negation (is_true (named (codes "c")) 15))) }
    ensures yes { ParsesTo (codes "a = TRUE") (compare (named (codes "a")) 0 Equal (boolean true)) }
    ensures no { ParsesTo (codes "a != false") (compare (named (codes "a")) 0 NotEqual (boolean false)) }
    ensures space { ParsesTo (codes "  a   and  b ") (both (is_true (named (codes "a")) 2) (is_true (named (codes "b")) 11)) }
{}

/// Errors of tokens: an unexpected character, a quote that is not closed, a long number.
pub fn invalid_tokens_are_refused()
    ensures character { FailsAt (codes "a # b") 2 UnexpectedCharacter }
    ensures sign { FailsAt (codes "a = - 1") 4 UnexpectedCharacter }
    ensures point { FailsAt (codes "a = 1.") 5 UnexpectedCharacter }
    ensures string { FailsAt (codes "a = 'b") 4 UnclosedString }
    ensures escape { FailsAt (codes "a = 'b''") 4 UnclosedString }
    ensures name { FailsAt (codes "a or \"b") 5 UnclosedName }
    ensures digits { FailsAt (codes "a = 11111111111111111111.1111111111111111111") 4 TooManyDigits }
{}

/// Errors of the grammar, at the token that is wrong.
pub fn invalid_conditions_are_refused()
    ensures none { FailsAt (codes "") 0 ColumnExpected }
    ensures column { FailsAt (codes "a and ") 6 ColumnExpected }
    ensures literal { FailsAt (codes "a = b") 4 LiteralExpected }
    ensures null_literal { FailsAt (codes "a = null") 4 LiteralExpected }
    ensures null { FailsAt (codes "a is true") 5 NullExpected }
    ensures not_null { FailsAt (codes "a is not 1") 9 NullExpected }
    ensures parenthesis { FailsAt (codes "(a or b") 7 ParenthesisExpected }
    ensures end { FailsAt (codes "a b") 2 EndExpected }
    ensures closing { FailsAt (codes "a)") 1 EndExpected }
    ensures first { FailsAt (codes "a b # 'c") 2 EndExpected }
{}

/// Each parenthesis takes three levels, of 1000: 332 parentheses are parsed, and more are refused.
pub fn deep_conditions_are_refused()
    ensures deepest { ParsesTo (replicate 332 40 ++ codes "a" ++ replicate 332 41) (is_true (named (codes "a")) 332) }
    ensures parentheses { FailsAt (replicate 400 40) 333 TooDeep }
{}
