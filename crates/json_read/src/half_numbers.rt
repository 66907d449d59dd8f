//! Half-precision numbers from decimal text, by their bits.
ghost use Rattle.std.specs.Prelude.{◌≡◌, ℕ, ◌+◌, ◌-◌, ◌*◌, ◌^◌, ◌<◌, ◌≤◌, ◌↔◌, ◌++◌, IfNone, IfSome, IsTrue, get_or, length, take, drop, min};
ghost use Rattle.std.specs.Float.Ieee.{size};
ghost use Rattle.float_text.specs.Shortest.{in_units};
ghost use Rattle.std.specs.Char.{digit_value};
ghost use Rattle.std.specs.Str.Parse.{AllDigits, digits_value};
ghost use Rattle.fast_float.specs.Text.{digits_of, tens_up, tens_down};
ghost use Rattle.json_read.specs.HalfNumbers.{half_name_bits, half_number_bits, half_of_parts, if_in_range, nearest_half};
ghost use Rattle.json_read.specs.ScaledNumbers.{IsScaled, spec_digits_before_cut};

use fast_float::{Numeral, parse_u64};

/// Numbers are compared in units of 10^-25, of which each number half way between two halves is a multiple.
const PLACES: u128 = 25;

/// Numbers of so many units are past the range.
const LIMIT: u128 = 1 << 100;

/// 2^-24, the least half above 0, in these units: 2 * 5^25.
const STEP: u128 = 596_046_447_753_906_250;

/// The bits of infinity, the first that are past the range.
const INFINITY: u64 = 0x7c00;

/// A number in units of 10^-25, rounded down.
#[derive(Clone, Copy)]
struct Scaled {
    units: u128,
    /// Whether the number is not a whole number of units.
    more: bool,
}

// Returns the digit at an index of the digits before and after the point.
fn digit_at(whole: &[u8], fraction: &[u8], at: usize) -> u8
    requires digits { AllDigits 10 (whole.now ++ fraction.now) }
    requires within { at < length whole.now + length fraction.now }
    ensures value { result ≡ digit_value (get_or (whole.now ++ fraction.now) at 0) }
    ensures small { result < 10 }
{
    if at < whole.len() {
        whole[at] - b'0'
    } else {
        fraction[at - whole.len()] - b'0'
    }
}

// Returns the number of the first `count` digits, unless it reaches the limit.
fn front_value(whole: &[u8], fraction: &[u8], count: usize) -> Option<u128>
    requires digits { AllDigits 10 (whole.now ++ fraction.now) }
    requires within { count ≤ length whole.now + length fraction.now }
    ensures some { IfSome result (λ n. (n ≡ digits_value 10 (take count (whole.now ++ fraction.now))) × (n < 2 ^ 100)) }
    ensures none { IfNone result (2 ^ 100 ≤ digits_value 10 (take count (whole.now ++ fraction.now))) }
{
    let mut value = 0;
    for at in 0..count {
        value = value * 10 + u128::from(digit_at(whole, fraction, at));
        if value >= LIMIT {
            return None;
        }
    }
    Some(value)
}

// Returns whether one of the digits after the first `from` is not 0.
fn has_more(whole: &[u8], fraction: &[u8], from: usize) -> bool
    requires digits { AllDigits 10 (whole.now ++ fraction.now) }
    requires within { from ≤ length whole.now + length fraction.now }
    ensures { IsTrue result ↔ 0 < digits_value 10 (drop from (whole.now ++ fraction.now)) }
{
    for at in from..whole.len() + fraction.len() {
        if digit_at(whole, fraction, at) != 0 {
            return true;
        }
    }
    false
}

// Returns the number with zeros after its digits, unless it reaches the limit.
fn with_zeros(value: u128, zeros: u64) -> Option<u128>
    requires { value < 2 ^ 100 }
    ensures some { IfSome result (λ n. (n ≡ value * 10 ^ zeros) × (n < 2 ^ 100)) }
    ensures none { IfNone result (2 ^ 100 ≤ value * 10 ^ zeros) }
{
    let mut total = value;
    for zero in 0..zeros {
        total *= 10;
        if total >= LIMIT {
            return None;
        }
    }
    Some(total)
}

// Returns the number that the digits of an exponent write, or 2^64 - 1 if that is less.
fn saturated(exponent: &[u8]) -> u64
    requires { AllDigits 10 exponent.now }
    ensures { result ≡ min (digits_value 10 exponent.now) (2 ^ 64 - 1) }
{
    if exponent.is_empty() {
        return 0;
    }
    match parse_u64(exponent) {
        Ok(power) => power,
        Err(_) => u64::MAX,
    }
}

// Returns how many digits, with zeros after them, the number has before the 25th place after its point.
fn digits_before_cut(number: &Numeral<'_>) -> u128
    ensures { result ≡ spec_digits_before_cut number.now }
{
    let power = u128::from(saturated(number.exponent()));
    let places = number.whole().len() as u128 + PLACES;
    if number.is_exponent_negative() {
        places.saturating_sub(power)
    } else {
        places + power
    }
}

// Returns the number in units of 10^-25, unless it reaches the limit.
fn scale(number: &Numeral<'_>) -> Option<Scaled>
    ensures some { IfSome result (λ s. IsScaled (digits_of number.now * 10 ^ tens_up number.now) (10 ^ tens_down number.now) s.units s.more × (s.units < 2 ^ 100)) }
    ensures none { IfNone result (2 ^ 100 * 10 ^ tens_down number.now ≤ digits_of number.now * 10 ^ tens_up number.now * 10 ^ 25) }
{
    let whole = number.whole();
    let fraction = number.fraction();
    let count = whole.len() + fraction.len();
    let place = digits_before_cut(number);
    let kept = place.min(count as u128) as usize;
    let zeros = place.saturating_sub(count as u128).min(31) as u64;
    let Some(front) = front_value(whole, fraction, kept) else {
        return None;
    };
    let Some(units) = with_zeros(front, zeros) else {
        return None;
    };
    Some(Scaled {
        units,
        more: has_more(whole, fraction, kept),
    })
}

// Returns the bits of the half nearest to the number, at a tie the even one.
fn nearest(number: Scaled) -> u64
    requires { number.units < 2 ^ 100 }
    ensures { (num den : ℕ) → 0 < den → IsScaled num den number.units number.more → result ≡ nearest_half num den }
{
    let dropped = digits_past((number.units / STEP) as u64);
    u64::from(dropped) * 1024 + rounded(number, STEP << dropped)
}

// Returns how many binary digits a number has past 11.
fn digits_past(number: u64) -> u32
    requires { number < 2 ^ 41 }
    ensures digits { result ≡ size number - 11 }
    ensures few { result ≤ 30 }
{
    (64 - number.leading_zeros()).saturating_sub(11)
}

// Returns the number in multiples of a unit, rounded to the nearest integer, at a tie to the even one.
fn rounded(number: Scaled, unit: u128) -> u64
    requires unit { (0 < unit) × (unit < 2 ^ 127) }
    requires few { number.units < unit * 2 ^ 63 }
    ensures value { result ≡ in_units number.units number.more unit }
    ensures bound { result ≤ 2 ^ 63 }
{
    let quotient = (number.units / unit) as u64;
    let twice = number.units % unit * 2;
    if twice < unit {
        quotient
    } else if twice > unit || number.more {
        quotient + 1
    } else {
        quotient + quotient % 2
    }
}

// Returns the bits of the half nearest to the number, unless it is past the range.
fn half_of_numeral(number: &Numeral<'_>) -> Option<u16>
    ensures { result ≡ half_of_parts number.now }
{
    match scale(number) {
        Some(scaled) => if_finite(nearest(scaled)),
        None => None,
    }
}

// Returns the bits unless they are past those of finite halves.
fn if_finite(bits: u64) -> Option<u16>
    ensures { result ≡ if_in_range bits }
{
    if bits < INFINITY {
        Some(bits as u16)
    } else {
        None
    }
}

/// Returns the bits of the half nearest to the number that a text denotes, at a tie of the even one.
///
/// `None` if the text is no number, or the number is past the range.
pub(crate) fn half_of_number(text: &[u8]) -> Option<u16>
    ensures { result ≡ half_number_bits text.now }
{
    let (negative, digits) = match text {
        [b'-', rest @ ..] => (true, rest),
        [b'+', rest @ ..] => (false, rest),
        _ => (false, text),
    };
    let number = Numeral::scan(digits);
    if !number.has_digits() || number.len() != digits.len() {
        return None;
    }
    let bits = half_of_numeral(&number)?;
    Some(if negative { 0x8000 + bits } else { bits })
}

/// Returns the bits of the half that a string names, unless it is another string than `NaN`, `Infinity` and `-Infinity`.
pub(crate) fn half_of_name(text: &str) -> Option<u16>
    ensures { result ≡ half_name_bits text.now }
{
    if text == "NaN" {
        Some(0x7e00)
    } else if text == "Infinity" {
        Some(0x7c00)
    } else if text == "-Infinity" {
        Some(0xfc00)
    } else {
        None
    }
}
