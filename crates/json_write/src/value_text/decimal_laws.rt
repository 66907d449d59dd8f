//! Worked examples of decimals of 256 bits, as functions with empty bodies. The halves and the texts are those of Arrow C++.
ghost use Rattle.std.specs.Prelude.{◌≡◌, [], ◌∷◌, None, Some, codes, negsuc, pos};
ghost use Rattle.json_write.specs.DecimalExamples.{halves_of_digits, halves_of_minus_five, halves_of_the_least};
ghost use Rattle.json_write.specs.Formats.{text_of_numbers};
ghost use Rattle.json_write.specs.declared.format.ValueFormat.TheVariants.{Decimal256};

/// The halves of a number of 76 digits, of the least one, and of one with a digit for each place after the point.
pub fn some_texts_of_halves()
    ensures digits { text_of_numbers (Decimal256 76 5) halves_of_digits ≡ Some (codes "12345678901234567890123456789012345678901234567890123456789012345678901.23456") }
    ensures least { text_of_numbers (Decimal256 76 0) halves_of_the_least ≡ Some (codes "-9999999999999999999999999999999999999999999999999999999999999999999999999999") }
    ensures fraction { text_of_numbers (Decimal256 76 76) halves_of_minus_five ≡ Some (codes "-0.0000000000000000000000000000000000000000000000000000000000000000000000000005") }
{}

/// A low half has no sign and at most 128 bits, and a value has two halves. Other numbers have no text.
pub fn other_numbers_have_no_text()
    ensures negative { text_of_numbers (Decimal256 76 0) (pos 0 ∷ negsuc 0 ∷ []) ≡ None }
    ensures long { text_of_numbers (Decimal256 76 0) (pos 0 ∷ pos 340282366920938463463374607431768211456 ∷ []) ≡ None }
    ensures one { text_of_numbers (Decimal256 76 0) (pos 7 ∷ []) ≡ None }
{}
