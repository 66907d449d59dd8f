//! Half-precision numbers.
ghost use Rattle.std.specs.Prelude.{◌≡◌, ◌<◌, false};
ghost use Rattle.std.specs.Float.Ieee.{binary32, to_bits};
ghost use Rattle.std.specs.Fmt.{WritesOnOk};
ghost use Rattle.float_text.specs.Half.{half_of_fields, half_text, single_of_half};

use crate::text::write_float;
use std::fmt;
use std::fmt::Formatter;

/// Returns the bits of the single-precision number that equals a finite half-precision number without a sign.
fn finite_single(exponent: u32, digits: u32) -> u32
    requires { (exponent < 31) × (digits < 1024) }
    ensures value { result ≡ to_bits binary32 (half_of_fields false exponent digits) }
    ensures is_finite { result < 0x7f80_0000 }
{
    if exponent > 0 {
        return ((exponent + 112) << 23) + (digits << 13);
    }
    if digits == 0 {
        return 0;
    }
    // the leading digit comes to the place above the 23 digits, where it adds one to the exponent
    let shift = digits.leading_zeros() - 8;
    ((125 - shift) << 23) + (digits << shift)
}

/// Returns the bits of the single-precision number that equals a half-precision number
/// ([IEEE 754](https://doi.org/10.1109/IEEESTD.2019.8766229) binary16), by its bits.
///
/// Each half has an equal single. For a NaN it is the NaN `0x7fc0_0000`.
pub fn single_of_half(bits: u16) -> u32
    ensures { result ≡ single_of_half bits }
{
    let sign = u32::from(bits / 0x8000) << 31;
    let exponent = u32::from(bits % 0x8000 / 1024);
    let digits = u32::from(bits % 1024);
    if exponent < 31 {
        sign + finite_single(exponent, digits)
    } else if digits == 0 {
        sign + 0x7f80_0000
    } else {
        0x7fc0_0000
    }
}

/// Writes a half-precision number by its bits: the text of the single-precision number that equals it.
pub fn write_half<W: fmt::Write>(f: &mut Formatter<W>, bits: u16) -> fmt::Result
    ensures { WritesOnOk W.write_str_gives f.old result (half_text bits) f.new }
{
    write_float::<f32, W>(f, u64::from(single_of_half(bits)))
}
