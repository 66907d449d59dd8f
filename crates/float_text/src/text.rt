//! Numbers as decimal text.
ghost use Rattle.std.specs.Prelude.{◌≡◌, ◌+◌, ◌-◌, ◌*◌, ◌<◌, ◌≤◌, IsTrue, length, replicate};
ghost use Rattle.std.specs.Float.Ieee.{hid, ones, top};
ghost use Rattle.std.specs.Fmt.{WritesOnOk, decimal};
ghost use Rattle.std.specs.Str.{IsAscii};
ghost use Rattle.float_text.specs.Text.{float_text, is_finite, size_text, with_exponent, with_point, zeros};

use crate::format::FloatFormat;
use crate::shortest::shortest;
use itoa::Buffer;
use std::fmt;
use std::fmt::Formatter;

fn write_zeros<W: fmt::Write>(f: &mut Formatter<W>, count: u64) -> fmt::Result
    ensures { WritesOnOk W.write_str_gives f.old result (zeros count) f.new }
{
    'zeros: for _at in 0..count {
        f.write_char('0')?;
    }
    Ok(())
}

fn write_integer<W: fmt::Write>(f: &mut Formatter<W>, number: u64) -> fmt::Result
    ensures { WritesOnOk W.write_str_gives f.old result (decimal number) f.new }
{
    let mut buffer = Buffer::new();
    f.write_str(buffer.format(number))
}

/// Writes digits with a point after the first and an exponent.
fn write_with_exponent<W: fmt::Write>(f: &mut Formatter<W>, digits: &str, point: u64) -> fmt::Result
    requires { IsAscii digits.now × (0 < length digits.now) }
    ensures { WritesOnOk W.write_str_gives f.old result (with_exponent digits.now point) f.new }
{
    f.write_str(&digits[..1])?;
    if digits.len() > 1 {
        f.write_char('.')?;
        f.write_str(&digits[1..])?;
    }
    f.write_char('e')?;
    if point < 343 {
        f.write_char('-')?;
        write_integer(f, 343 - point)
    } else {
        write_integer(f, point - 343)
    }
}

/// Writes digits with a point, after or before zeros where these are few, and else with an exponent.
fn write_with_point<F: FloatFormat, W: fmt::Write>(
    f: &mut Formatter<W>,
    digits: &str,
    point: u64,
) -> fmt::Result
    requires { IsAscii digits.now × (0 < length digits.now) × (length digits.now ≤ 40) × (point ≤ 700) }
    ensures { WritesOnOk W.write_str_gives f.old result (with_point F.format digits.now point) f.new }
{
    let len = digits.len() as u64;
    if point < 343 {
        if point + F::LEADING_ZEROS < 342 {
            return write_with_exponent(f, digits, point);
        }
        f.write_str("0.")?;
        write_zeros(f, 342 - point)?;
        return f.write_str(digits);
    }
    if point < 342 + len {
        let whole = (point - 342) as usize;
        f.write_str(&digits[..whole])?;
        f.write_char('.')?;
        return f.write_str(&digits[whole..]);
    }
    if point > 342 + F::WHOLE_DIGITS {
        return write_with_exponent(f, digits, point);
    }
    f.write_str(digits)?;
    write_zeros(f, point - 342 - len)?;
    f.write_str(".0")
}

/// Writes a finite number above 0.
fn write_size<F: FloatFormat, W: fmt::Write>(f: &mut Formatter<W>, bits: u64) -> fmt::Result
    requires { (0 < bits) × (bits < ones F.format * hid F.format) }
    ensures { WritesOnOk W.write_str_gives f.old result (size_text F.format bits) f.new }
{
    let (number, power) = shortest::<F>(bits);
    let mut buffer = Buffer::new();
    let digits = buffer.format(number);
    write_with_point::<F, W>(f, digits, digits.len() as u64 + power)
}

/// Returns whether the bits are those of a finite number, which is not an infinity and not a NaN.
pub fn is_finite<F: FloatFormat>(bits: u64) -> bool
    requires { bits < 2 * top F.format }
    ensures { result ≡ is_finite F.format bits }
{
    bits % F::SIGN_BIT < F::INFINITY_BITS
}

/// Writes a number by its bits: the shortest decimal that reads as the number, or `NaN`, `Infinity` or `-Infinity`.
///
/// Of the decimals with the fewest digits it is the closest to the number. A number from 0.00001 up to 10^16 (`f32`: from 0.000001 up to
/// 10^13) is written without an exponent, and with a digit after the point, as `12.0`.
pub fn write_float<F: FloatFormat, W: fmt::Write>(f: &mut Formatter<W>, bits: u64) -> fmt::Result
    requires { bits < 2 * top F.format }
    ensures { WritesOnOk W.write_str_gives f.old result (float_text F.format bits) f.new }
{
    let is_negative = bits >= F::SIGN_BIT;
    let size = bits % F::SIGN_BIT;
    if size > F::INFINITY_BITS {
        return f.write_str("NaN");
    }
    if is_negative {
        f.write_char('-')?;
    }
    if size == F::INFINITY_BITS {
        f.write_str("Infinity")
    } else if size == 0 {
        f.write_str("0.0")
    } else {
        write_size::<F, W>(f, size)
    }
}
