//! Properties of the text, as functions with empty bodies.
ghost use Rattle.std.specs.Prelude.{◌≡◌, ◌<◌, ◌*◌, ◌≢◌, ℕ, IsFalse, Some, true, from_bits};
ghost use Rattle.std.specs.Float.Ieee.{Float, Format, binary32, hid, nan, ones, top};
ghost use Rattle.fast_float.specs.Parse.{parse_float};
ghost use Rattle.float_text.specs.Half.{half_text, half_value};
ghost use Rattle.float_text.specs.Shortest.{reads_as, shortest_decimal};
ghost use Rattle.float_text.specs.Text.{AreNumberBytes, BeginsAsNumber, float_text, is_finite};

/// The text of a number reads as the number, by the kit's definition of what a text reads as.
pub fn text_reads_back()
    ensures { (f : Format) (bits : ℕ) → bits < 2 * top f → parse_float f (float_text f bits) ≡ Some (from_bits f bits) }
{}

/// Numbers of one text have the same bits, unless they are NaN, whose text does not have the payload.
pub fn text_determines_number()
    ensures { (f : Format) (a b : ℕ) → a < 2 * top f → b < 2 * top f → from_bits f a ≢ nan → float_text f a ≡ float_text f b → a ≡ b }
{}

/// The text of a half-precision number reads as the number, as a single-precision one.
pub fn half_text_reads_back()
    ensures { (bits : ℕ) → bits < 65536 → parse_float binary32 (half_text bits) ≡ Some (half_value bits) }
{}

/// Half-precision numbers of one text have the same bits, unless they are NaN, whose text does not have the payload.
pub fn half_text_determines_number()
    ensures { (a b : ℕ) → a < 65536 → b < 65536 → half_value a ≢ nan → half_text a ≡ half_text b → a ≡ b }
{}

/// The text of a finite number has only digits, points, `e` and minus signs. It is not empty, and begins with a digit or a minus sign.
pub fn finite_text_is_a_number()
    ensures bytes { (f : Format) (bits : ℕ) → is_finite f bits ≡ true → AreNumberBytes (float_text f bits) }
    ensures first { (f : Format) (bits : ℕ) → is_finite f bits ≡ true → BeginsAsNumber (float_text f bits) }
{}

/// No decimal `digits` times 10^(p - 342) reads as a finite number above 0 if its power of ten is larger than that of the shortest decimal.
pub fn shortest_has_largest_power()
    ensures { (f : Format) (bits digits p : ℕ) → 0 < bits → bits < ones f * hid f → (shortest_decimal f bits).1 < p → IsFalse (reads_as f bits digits p) }
{}
