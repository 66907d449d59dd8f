//! Bytes from hexadecimal digits.
ghost use Rattle.std.specs.Prelude.{◌≡◌, ◌+◌, ◌*◌, ◌&&◌, false, true, IfErr, IfOk, MatchOption, None, OnOk};
ghost use Rattle.std.specs.Char.{digit_value};
ghost use Rattle.json_read.specs.FlatValues.{bytes_of_hex, hex_error, is_hex};
ghost use Rattle.json_read.specs.SlotAdded.{IsPushError};

use crate::value_error::{PushError, ValueError};
use std::alloc::Global;

// Returns the value of a hexadecimal digit of either case.
#[inline]
fn digit_of(letter: u8) -> Option<u8>
    ensures { MatchOption result (is_hex letter ≡ false) (λ d. (is_hex letter ≡ true) × (d ≡ digit_value letter)) }
{
    match letter {
        b'0'..=b'9' => Some(letter - b'0'),
        b'A'..=b'F' => Some(letter - b'A' + 10),
        b'a'..=b'f' => Some(letter - b'a' + 10),
        _ => None,
    }
}

// Returns the byte of two digits.
#[inline]
fn byte_of(high: u8, low: u8) -> Option<u8>
    ensures { MatchOption result (is_hex high && is_hex low ≡ false) (λ b. (is_hex high && is_hex low ≡ true) × (b ≡ digit_value high * 16 + digit_value low)) }
{
    match (digit_of(high), digit_of(low)) {
        (Some(high), Some(low)) => Some(high * 16 + low),
        _ => None,
    }
}

/// Decodes a string of hexadecimal digits, two a byte, the high digit first.
///
/// # Errors
/// `InvalidHex` if a byte is no hexadecimal digit or their number is odd. `Memory` if an allocation fails.
pub(crate) fn bytes_of(alloc: Global, text: &[u8]) -> Result<Vec<u8>, PushError>
    ensures bytes { IfOk result (λ v. v.items ≡ bytes_of_hex text.now) }
    ensures valid { OnOk result (hex_error text.now ≡ None) }
    ensures error { IfErr result (λ e. IsPushError e (hex_error text.now)) }
{
    let mut bytes = Vec::with_capacity(alloc, text.len() / 2)?;
    let mut left = text;
    while let [high, low, rest @ ..] = left {
        match byte_of(*high, *low) {
            Some(byte) => bytes.push(byte)?,
            None => return Err(PushError::Value(ValueError::InvalidHex)),
        }
        left = rest;
    }
    if left.is_empty() {
        Ok(bytes)
    } else {
        Err(PushError::Value(ValueError::InvalidHex))
    }
}
