//! The integer types of offsets.
ghost use Rattle.std.specs.Prelude.{◌≡◌, ◌<◌, ◌≤◌, ◌^◌, ℕ, ℤ, pos, Bool, true, false, MatchOption};
ghost use Rattle.nest_memory.specs.Rising.{below_zero, largest_offset};

/// An integer type of offsets: `i32` in the small layouts, `i64` in the large ones; arrow2's `Offset`.
///
/// Source: "Variable-size Binary Layout" and "Variable-size List Layout" of the Arrow columnar format.
pub trait Offset: Copy {
    ghost value: { Self → ℤ };

    ghost largest: { ℕ };

    ghost IS_LARGE: { Bool };

    /// Whether an offset has 64 bits.
    const IS_LARGE: bool;

    /// Returns whether the offset is negative.
    fn is_negative(&self) -> bool
        ensures { result ≡ below_zero (value self.now) };

    /// Returns the offset as a `usize`.
    fn to_usize(&self) -> usize
        requires { below_zero (value self.now) ≡ false }
        ensures value { pos result ≡ value self.now }
        ensures fits { result ≤ largest };

    /// Returns the offset of this value, or `None` if it exceeds the largest one.
    fn from_usize(n: usize) -> Option<Self>
        ensures { MatchOption result (largest < n) (λ o. (value o ≡ pos n) × (n ≤ largest)) };

    ghost small: { largest < 2 ^ 63 };

    // The width determines the largest offset.
    ghost largest_is: { largest ≡ largest_offset IS_LARGE };
}

impl Offset for i32 {
    ghost value = { λ x. x };

    ghost largest = { 2147483647 };

    ghost IS_LARGE = { false };

    const IS_LARGE: bool = false;

    ghost use Rattle.std.proofs.Common.{lit<, refl};

    ghost small = { lit< tt };

    ghost largest_is = { refl };

    fn is_negative(&self) -> bool {
        *self < 0
    }

    fn to_usize(&self) -> usize {
        *self as usize
    }

    fn from_usize(n: usize) -> Option<i32> {
        if n > 2147483647 { None } else { Some(n as i32) }
    }
}

impl Offset for i64 {
    ghost value = { λ x. x };

    ghost largest = { 9223372036854775807 };

    ghost IS_LARGE = { true };

    const IS_LARGE: bool = true;

    ghost use Rattle.std.proofs.Common.{lit<, refl};

    ghost small = { lit< tt };

    ghost largest_is = { refl };

    fn is_negative(&self) -> bool {
        *self < 0
    }

    fn to_usize(&self) -> usize {
        *self as usize
    }

    fn from_usize(n: usize) -> Option<i64> {
        if n > 9223372036854775807 {
            None
        } else {
            Some(n as i64)
        }
    }
}
