//! Decimal digits.
ghost use Rattle.std.specs.Prelude.{◌≡◌, ◌<◌};
ghost use Rattle.std.specs.Fmt.{WritesOnOk, sign_text};
ghost use Rattle.json_write.specs.Digits.{at_least, digit, fraction_text, signed_integer_text, last_digits, number_text};

use itoa::Buffer;
use std::fmt;
use std::fmt::Formatter;

/// Returns the decimal digit of a number below ten.
fn digit_of(number: u64) -> char
    requires { number < 10 }
    ensures value { result ≡ digit number }
    ensures ascii { result < 128 }
{
    char::from(b'0' + number as u8)
}

/// Writes the last `count` decimal digits of a number.
#[tactic(auto, using(crate::proofs::DigitFacts::digit_steps))]
pub(crate) fn write_last_digits<W: fmt::Write>(
    f: &mut Formatter<W>,
    count: u32,
    number: u64,
) -> fmt::Result
    ensures { WritesOnOk W.write_str_gives f.old result (last_digits count number) f.new }
{
    if count == 0 {
        return Ok(());
    }
    write_last_digits(f, count - 1, number / 10)?;
    f.write_char(digit_of(number % 10))
}

/// Writes a number with at least six decimal digits.
pub(crate) fn write_six_digits<W: fmt::Write>(f: &mut Formatter<W>, number: u64) -> fmt::Result
    ensures { WritesOnOk W.write_str_gives f.old result (at_least 6 number) f.new }
{
    if number < 1_000_000 {
        write_last_digits(f, 6, number)
    } else {
        write_number(f, number)
    }
}

/// Writes a number without leading zeros.
pub(crate) fn write_number<W: fmt::Write>(f: &mut Formatter<W>, number: u64) -> fmt::Result
    ensures { WritesOnOk W.write_str_gives f.old result (number_text number) f.new }
{
    let mut buffer = Buffer::new();
    f.write_str(buffer.format(number))
}

/// Writes an integer.
pub(crate) fn write_integer<W: fmt::Write>(f: &mut Formatter<W>, value: i64) -> fmt::Result
    ensures { WritesOnOk W.write_str_gives f.old result (signed_integer_text value) f.new }
{
    write_sign(f, value < 0)?;
    write_number(f, value.unsigned_abs())
}

/// Writes the sign of a negative number.
pub(crate) fn write_sign<W: fmt::Write>(f: &mut Formatter<W>, negative: bool) -> fmt::Result
    ensures { WritesOnOk W.write_str_gives f.old result (sign_text negative) f.new }
{
    if negative { f.write_char('-') } else { Ok(()) }
}

/// Writes the point and `count` digits, or nothing if there are none.
pub(crate) fn write_fraction<W: fmt::Write>(
    f: &mut Formatter<W>,
    count: u32,
    number: u64,
) -> fmt::Result
    ensures { WritesOnOk W.write_str_gives f.old result (fraction_text count number) f.new }
{
    if count == 0 {
        return Ok(());
    }
    f.write_char('.')?;
    write_last_digits(f, count, number)
}
