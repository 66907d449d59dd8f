//! The two formats.
ghost use Rattle.std.specs.Prelude.{◌≡◌, ℕ, refl};
ghost use Rattle.std.specs.Float.Ieee.{top};
ghost use Rattle.float_text.specs.Text.{leading_zeros, whole_digits};

use fast_float::FastFloat;

/// A format of IEEE 754 (section 3.6): `f32` is binary32 and `f64` binary64.
pub trait FloatFormat: FastFloat {
    /// The longest whole part that is written without an exponent.
    const WHOLE_DIGITS: u64;

    /// The most zeros after the point that are written without an exponent.
    const LEADING_ZEROS: u64;

    /// The bits of -0.0.
    const SIGN_BIT: u64;

    ghost WHOLE_DIGITS: { ℕ };

    ghost LEADING_ZEROS: { ℕ };

    ghost SIGN_BIT: { ℕ };

    ghost whole_is: { WHOLE_DIGITS ≡ whole_digits Self.format };

    ghost zeros_are: { LEADING_ZEROS ≡ leading_zeros Self.format };

    ghost sign_is: { SIGN_BIT ≡ top Self.format };
}

impl FloatFormat for f32 {
    const WHOLE_DIGITS: u64 = 13;

    const LEADING_ZEROS: u64 = 5;

    const SIGN_BIT: u64 = 0x8000_0000;

    ghost WHOLE_DIGITS = { 13 };

    ghost LEADING_ZEROS = { 5 };

    ghost SIGN_BIT = { 0x8000_0000 };

    ghost whole_is = { refl };

    ghost zeros_are = { refl };

    ghost sign_is = { refl };
}

impl FloatFormat for f64 {
    const WHOLE_DIGITS: u64 = 16;

    const LEADING_ZEROS: u64 = 4;

    const SIGN_BIT: u64 = 0x8000_0000_0000_0000;

    ghost WHOLE_DIGITS = { 16 };

    ghost LEADING_ZEROS = { 4 };

    ghost SIGN_BIT = { 0x8000_0000_0000_0000 };

    ghost whole_is = { refl };

    ghost zeros_are = { refl };

    ghost sign_is = { refl };
}
