//! Numbers read from their digits.
ghost use Rattle.std.specs.Prelude.{◌≡◌, ◌<◌, ◌≤◌, ◌^◌, FitsSigned, SomeIff, length, unsigned_abs};
ghost use Rattle.std.specs.Int.{w64};
ghost use Rattle.json_write.specs.Digits.{at_least, fraction_text, signed_integer_text, last_digits, number_text};
ghost use Rattle.json_write.specs.Reading.{IsParsed};
ghost use Rattle.json_write.specs.Times.{unit_digits};

use crate::value_text::unit::digits;
use nest_memory::datatypes::TimeUnit;

/// Returns the number that has these digits, which may begin with zeros.
pub(crate) fn digits_number(digits: &[u8]) -> Option<u128>
    requires { length digits.now ≤ 38 }
    ensures { IsParsed (last_digits (length digits.now)) (λ n. n < 10 ^ length digits.now) digits.now result }
{
    let mut number = 0u128;
    'scan: for digit in digits {
        if !digit.is_ascii_digit() {
            return None;
        }
        number = number * 10 + (*digit - b'0') as u128;
    }
    Some(number)
}

/// Returns the number with this text, which has no leading zeros.
pub(crate) fn parse_number(digits: &[u8]) -> Option<u128>
    ensures { IsParsed number_text (λ n. n < 10 ^ 38) digits.now result }
{
    let len = digits.len();
    if len == 0 {
        return None;
    }
    if len > 38 {
        return None;
    }
    if digits[0] == b'0' {
        return if len == 1 { Some(0) } else { None };
    }
    digits_number(digits)
}

/// Returns the number that is written with at least six digits.
pub(crate) fn parse_six_digits(digits: &[u8]) -> Option<u128>
    ensures { IsParsed (at_least 6) (λ n. n < 10 ^ 38) digits.now result }
{
    if digits.len() == 6 {
        digits_number(digits)
    } else if digits.len() < 6 {
        None
    } else {
        parse_number(digits)
    }
}

/// Returns the integer with this text.
pub(crate) fn parse_integer(text: &[u8]) -> Option<i128>
    ensures { IsParsed signed_integer_text (λ z. unsigned_abs z < 10 ^ 38) text.now result }
{
    let (first, rest) = text.split_first()?;
    if *first == b'-' {
        let number = parse_number(rest)?;
        if number == 0 {
            None
        } else {
            Some(-(number as i128))
        }
    } else {
        let number = parse_number(text)?;
        Some(number as i128)
    }
}

/// Returns the fraction of a second, in units.
pub(crate) fn parse_fraction(text: &[u8], unit: TimeUnit) -> Option<u32>
    ensures { IsParsed (fraction_text (unit_digits unit)) (λ n. n < 10 ^ unit_digits unit) text.now result }
{
    let count = digits(unit) as usize;
    if count == 0 {
        return if text.is_empty() { Some(0) } else { None };
    }
    let (point, digits) = text.split_first()?;
    if *point != b'.' {
        return None;
    }
    if digits.len() != count {
        return None;
    }
    let number = digits_number(digits)?;
    Some(number as u32)
}

/// Returns the number if 64 bits hold it.
pub(crate) fn to_i64(number: i128) -> Option<i64>
    ensures { SomeIff result (FitsSigned w64 number) number }
{
    i64::try_from(number).ok()
}
