//! Tokens at the front of the text: punctuation, names and numbers.
ghost use Rattle.std.specs.Prelude.{◌≡◌, ◌≤◌, length, MatchOption, Some, None};
ghost use Rattle.std.specs.Char.{is_ascii_digit};
ghost use Rattle.std.specs.List.{prefix_len};
ghost use Rattle.type_text.specs.TypeParser.{ReadsAs, after_prefix, expected, is_decimal_numeral, read_flag, quoted_name, read_name, read_number, read_name_or_default, split_first};

use crate::error::{PartError, SyntaxError};

/// Returns the text after the prefix, or `None` if the text does not begin with it.
pub fn strip_prefix<'a>(text: &'a str, prefix: &str) -> Option<&'a str>
    ensures { MatchOption result (after_prefix prefix.now text.now ≡ None) (λ x. after_prefix prefix.now text.now ≡ Some x.now) }
{
    text.strip_prefix(prefix)
}

/// Returns the text after the prefix, which is required.
pub fn expect<'a>(text: &'a str, prefix: &str) -> Result<&'a str, PartError>
    ensures { ReadsAs (λ x. x.now) result (expected prefix.now text.now) }
{
    match strip_prefix(text, prefix) {
        Some(rest) => Ok(rest),
        None => Err(PartError::Syntax(SyntaxError::Unexpected(text.len()))),
    }
}

/// Returns whether the text begins with the prefix, and the text without it.
pub fn flag<'a>(text: &'a str, prefix: &str) -> (bool, &'a str)
    ensures flag { result.0 ≡ (read_flag prefix.now text.now).0 }
    ensures rest { result.1.now ≡ (read_flag prefix.now text.now).1 }
{
    match strip_prefix(text, prefix) {
        Some(rest) => (true, rest),
        None => (false, text),
    }
}

/// Splits the text at the first `end`, which is in neither part.
fn split_once<'a>(text: &'a str, end: &str) -> Option<(&'a str, &'a str)>
    requires { 1 ≤ length end.now }
    ensures { MatchOption result (split_first end.now text.now ≡ None) (λ x. split_first end.now text.now ≡ Some (x.0.now, x.1.now)) }
{
    text.split_once(end)
}

/// Reads a name, which ends at the first `end`.
pub fn name<'a>(text: &'a str, end: &str) -> Result<(&'a str, &'a str), PartError>
    requires { 1 ≤ length end.now }
    ensures { ReadsAs (λ x. (x.0.now, x.1.now)) result (read_name end.now text.now) }
{
    match split_once(text, end) {
        Some((name, rest)) => Ok((name, rest)),
        None => Err(PartError::Syntax(SyntaxError::Unexpected(text.len()))),
    }
}

/// Reads a name in quotes, or returns the default name where no quotes follow. The default name is never quoted.
#[tactic(auto, unfolding(crate::specs::TypeParser::read_name_or_default))]
pub fn name_or_default<'a>(text: &'a str, default: &'a str) -> Result<(&'a str, &'a str), PartError>
    ensures { ReadsAs (λ x. (x.0.now, x.1.now)) result (read_name_or_default default.now text.now) }
{
    match strip_prefix(text, " ('") {
        None => Ok((default, text)),
        Some(quoted) => {
            let (name, rest) = name(quoted, "')")?;
            if default == name {
                return Err(PartError::Syntax(SyntaxError::Unexpected(text.len())));
            }
            Ok((name, rest))
        }
    }
}

/// Reads a number below 2^64 in decimal digits without a leading zero.
pub fn number(text: &str) -> Result<(usize, &str), PartError>
    ensures { ReadsAs (λ x. (x.0, x.1.now)) result (read_number text.now) }
{
    let (digits, rest) = text.split_at(digits(text));
    if !is_decimal(digits.as_bytes()) {
        return Err(PartError::Syntax(SyntaxError::Unexpected(text.len())));
    }
    match digits.parse::<usize>() {
        Ok(n) => Ok((n, rest)),
        Err(_) => Err(PartError::Syntax(SyntaxError::Unexpected(text.len()))),
    }
}

/// Returns the number of decimal digits that the text begins with.
fn digits(text: &str) -> usize
    ensures { result ≡ prefix_len is_ascii_digit text.now }
{
    let bytes = text.as_bytes();
    let mut count = 0;
    for byte in bytes {
        if !byte.is_ascii_digit() {
            break;
        }
        count += 1;
    }
    count
}

/// Returns whether the digits are a number without a leading zero.
fn is_decimal(digits: &[u8]) -> bool
    ensures { result ≡ is_decimal_numeral digits.now }
{
    match digits {
        [] => false,
        [_] => true,
        [first, ..] => *first != b'0',
    }
}
