//! Tokens of conditions.
ghost use Rattle.std.specs.Prelude.{◌≡◌, ◌+◌, ◌^◌, ◌<◌, ◌≤◌, ◌++◌, length, map, MatchOption, Some, None, bytes_eq, option_map};
ghost use Rattle.std.specs.Char.{is_ascii_digit, to_ascii_lowercase};
ghost use Rattle.std.specs.List.{prefix_len};
ghost use Rattle.std.specs.Str.Parse.{AllDigits, digits_value, digits_value_after};
ghost use Rattle.cli_args.specs.ConditionResults.{ReadsAs, error_at};
ghost use Rattle.cli_args.specs.ConditionTokens.{after_prefix, first_operator, first_symbol, is_name_byte, quoted_length, quoted_text, read_number, read_number_or_word, read_text_token, read_token, read_word, signed, split_digits, split_fraction, starts_with_digit, undoubled, without_space, word_token};
ghost use Rattle.cli_args.specs.ConditionTokenTrees.{token_tree};

use crate::condition::Comparison;
use crate::condition_error::{ConditionSyntaxError, ParseConditionError, SyntaxErrorKind};

/// A token of a condition.
#[derive(Clone, Copy)]
pub enum Token<'a> {
    And,
    Or,
    Not,
    Is,
    Null,
    /// A column name.
    Name(&'a str),
    /// A column name that was in double quotes. Two double quotes stand for one.
    QuotedName(&'a str),
    /// A string that was in single quotes. Two single quotes stand for one.
    Text(&'a str),
    /// A number: an integer, and the number of its digits after the decimal point.
    Number(i128, u8),
    Boolean(bool),
    Operator(Comparison),
    Opening,
    Closing,
    End,
}

/// Returns the error of a kind where the rest of the condition begins. The condition has `len` bytes.
pub fn error_at(len: usize, rest: &str, kind: SyntaxErrorKind) -> ConditionSyntaxError
    ensures { result ≡ error_at len rest.now kind }
{
    ConditionSyntaxError {
        position: len.saturating_sub(rest.len()),
        kind,
    }
}

/// Returns the text after its white space.
pub fn without_space(text: &str) -> &str
    ensures { result.now ≡ without_space text.now }
{
    text.trim_ascii_start()
}

/// Returns the text after the prefix, or `None` if the text does not begin with it.
pub fn strip_prefix<'a>(text: &'a str, prefix: &str) -> Option<&'a str>
    ensures { MatchOption result (after_prefix prefix.now text.now ≡ None) (λ x. after_prefix prefix.now text.now ≡ Some x.now) }
{
    text.strip_prefix(prefix)
}

#[tactic(auto, unfolding(crate::specs::ConditionTokens::first_operator))]
fn operator(text: &str) -> Option<(Comparison, &str)>
    ensures { option_map (λ x. (x.0, x.1.now)) result ≡ first_operator text.now }
{
    if let Some(rest) = strip_prefix(text, "=") {
        return Some((Comparison::Equal, rest));
    }
    if let Some(rest) = strip_prefix(text, "!=") {
        return Some((Comparison::NotEqual, rest));
    }
    if let Some(rest) = strip_prefix(text, "<>") {
        return Some((Comparison::NotEqual, rest));
    }
    if let Some(rest) = strip_prefix(text, "<=") {
        return Some((Comparison::LessOrEqual, rest));
    }
    if let Some(rest) = strip_prefix(text, "<") {
        return Some((Comparison::Less, rest));
    }
    if let Some(rest) = strip_prefix(text, ">=") {
        return Some((Comparison::GreaterOrEqual, rest));
    }
    if let Some(rest) = strip_prefix(text, ">") {
        return Some((Comparison::Greater, rest));
    }
    None
}

#[tactic(auto, unfolding(crate::specs::ConditionTokens::first_symbol))]
fn symbol(text: &str) -> Option<(Token<'_>, &str)>
    ensures { option_map (λ x. (token_tree x.0, x.1.now)) result ≡ first_symbol text.now }
{
    if let Some(rest) = strip_prefix(text, "(") {
        return Some((Token::Opening, rest));
    }
    if let Some(rest) = strip_prefix(text, ")") {
        return Some((Token::Closing, rest));
    }
    match operator(text) {
        Some((comparison, rest)) => Some((Token::Operator(comparison), rest)),
        None => None,
    }
}

/// Returns the number of bytes before the closing quote.
fn quoted_len(quote: u8, text: &[u8]) -> Option<usize>
    ensures { result ≡ quoted_length quote text.now }
{
    let mut i = 0;
    while i < text.len() {
        if text[i] != quote {
            i += 1;
        } else if i + 1 < text.len() && text[i + 1] == quote {
            i += 2;
        } else {
            return Some(i);
        }
    }
    None
}

/// Splits the text after an opening quote at its closing quote.
pub fn split_quoted<'a>(quote: u8, text: &'a str) -> Option<(&'a str, &'a str)>
    requires { quote < 128 }
    ensures { option_map (λ x. (undoubled quote x.0.now, x.1.now)) result ≡ quoted_text quote text.now }
{
    match quoted_len(quote, text.as_bytes()) {
        Some(n) => Some((&text[..n], &text[n + 1..])),
        None => None,
    }
}

fn digits_len(text: &[u8]) -> usize
    ensures { result ≡ prefix_len is_ascii_digit text.now }
{
    let mut count = 0;
    for byte in text {
        if !byte.is_ascii_digit() {
            break;
        }
        count += 1;
    }
    count
}

fn name_len(text: &[u8]) -> usize
    ensures { result ≡ prefix_len is_name_byte text.now }
{
    let mut count = 0;
    for byte in text {
        if !byte.is_ascii_alphanumeric() && *byte != b'_' {
            break;
        }
        count += 1;
    }
    count
}

/// Splits the text after the digits that it begins with.
fn split_digits<'a>(text: &'a str) -> (&'a str, &'a str)
    ensures split { (result.0.now, result.1.now) ≡ split_digits text.now }
    ensures digits { AllDigits 10 result.0.now }
{
    text.split_at(digits_len(text.as_bytes()))
}

/// Splits the digits of a fraction, after a decimal point, from the text after them.
#[tactic(auto, unfolding(crate::specs::ConditionTokens::split_fraction))]
fn split_fraction<'a>(text: &'a str) -> (&'a str, &'a str)
    ensures split { (result.0.now, result.1.now) ≡ split_fraction text.now }
    ensures digits { AllDigits 10 result.0.now }
{
    if let Some(rest) = strip_prefix(text, ".") {
        let (digits, after) = split_digits(rest);
        if digits.is_empty() {
            ("", text)
        } else {
            (digits, after)
        }
    } else {
        ("", text)
    }
}

/// Returns the number that some digits encode after those of `number`.
fn value_after(number: u128, digits: &[u8]) -> u128
    requires digits { AllDigits 10 digits.now }
    requires fits { digits_value_after 10 number digits.now < 2 ^ 127 }
    ensures { result ≡ digits_value_after 10 number digits.now }
{
    let mut value = number;
    for digit in digits {
        value = value * 10 + u128::from(*digit - b'0');
    }
    value
}

fn magnitude(whole: &str, fraction: &str) -> u128
    requires whole { AllDigits 10 whole.now }
    requires fraction { AllDigits 10 fraction.now }
    requires fits { length whole.now + length fraction.now ≤ 38 }
    ensures value { result ≡ digits_value 10 (whole.now ++ fraction.now) }
    ensures fits { result < 2 ^ 127 }
{
    let value = value_after(0, whole.as_bytes());
    value_after(value, fraction.as_bytes())
}

fn signed(is_negative: bool, magnitude: u128) -> i128
    requires { magnitude < 2 ^ 127 }
    ensures { result ≡ signed is_negative magnitude }
{
    let value = magnitude as i128;
    if is_negative { -value } else { value }
}

/// Reads a number after its sign.
#[tactic(auto, unfolding(crate::specs::ConditionTokens::read_number))]
fn number<'a>(
    too_long: ConditionSyntaxError,
    is_negative: bool,
    text: &'a str,
) -> Result<(Token<'a>, &'a str), ParseConditionError>
    ensures { ReadsAs (λ x. (token_tree x.0, x.1.now)) result (read_number too_long is_negative text.now) }
{
    let (whole, rest) = split_digits(text);
    let (fraction, rest) = split_fraction(rest);
    if whole.len() > 38 || fraction.len() > 38 - whole.len() {
        return Err(ParseConditionError::Syntax(too_long));
    }
    let value = signed(is_negative, magnitude(whole, fraction));
    Ok((
        Token::Number(value, fraction.len() as u8),
        without_space(rest),
    ))
}

fn starts_with_digit(text: &str) -> bool
    ensures { result ≡ starts_with_digit text.now }
{
    match text.as_bytes() {
        [] => false,
        [first, ..] => first.is_ascii_digit(),
    }
}

/// Returns whether the text is a word, in any case of letters.
fn has_word(word: &str, text: &str) -> bool
    ensures { result ≡ bytes_eq (map to_ascii_lowercase text.now) (map to_ascii_lowercase word.now) }
{
    text.eq_ignore_ascii_case(word)
}

#[tactic(auto, unfolding(crate::specs::ConditionTokens::word_token))]
fn word_token(text: &str) -> Token<'_>
    ensures { token_tree result ≡ word_token text.now }
{
    if has_word("and", text) {
        Token::And
    } else if has_word("or", text) {
        Token::Or
    } else if has_word("not", text) {
        Token::Not
    } else if has_word("is", text) {
        Token::Is
    } else if has_word("null", text) {
        Token::Null
    } else if has_word("true", text) {
        Token::Boolean(true)
    } else if has_word("false", text) {
        Token::Boolean(false)
    } else {
        Token::Name(text)
    }
}

/// Reads a keyword or a name.
#[tactic(auto, unfolding(crate::specs::ConditionTokens::read_word))]
fn word<'a>(
    unexpected: ConditionSyntaxError,
    text: &'a str,
) -> Result<(Token<'a>, &'a str), ParseConditionError>
    ensures { ReadsAs (λ x. (token_tree x.0, x.1.now)) result (read_word unexpected text.now) }
{
    let (word, rest) = text.split_at(name_len(text.as_bytes()));
    if word.is_empty() {
        return Err(ParseConditionError::Syntax(unexpected));
    }
    Ok((word_token(word), without_space(rest)))
}

/// Reads a number, a keyword or a name.
#[tactic(auto, unfolding(crate::specs::ConditionTokens::read_number_or_word))]
fn number_or_word<'a>(
    len: usize,
    text: &'a str,
) -> Result<(Token<'a>, &'a str), ParseConditionError>
    ensures { ReadsAs (λ x. (token_tree x.0, x.1.now)) result (read_number_or_word len text.now) }
{
    let too_long = error_at(len, text, SyntaxErrorKind::TooManyDigits);
    let unexpected = error_at(len, text, SyntaxErrorKind::UnexpectedCharacter);
    match strip_prefix(text, "-") {
        Some(digits) => {
            if starts_with_digit(digits) {
                number(too_long, true, digits)
            } else {
                Err(ParseConditionError::Syntax(unexpected))
            }
        }
        None => {
            if starts_with_digit(text) {
                number(too_long, false, text)
            } else {
                word(unexpected, text)
            }
        }
    }
}

/// Reads a quoted name, a string, a number, a keyword or a name.
#[tactic(auto, unfolding(crate::specs::ConditionTokens::read_text_token))]
fn text_token<'a>(len: usize, text: &'a str) -> Result<(Token<'a>, &'a str), ParseConditionError>
    ensures { ReadsAs (λ x. (token_tree x.0, x.1.now)) result (read_text_token len text.now) }
{
    if let Some(quoted) = strip_prefix(text, "\"") {
        return match split_quoted(b'"', quoted) {
            Some((raw, rest)) => Ok((Token::QuotedName(raw), without_space(rest))),
            None => Err(ParseConditionError::Syntax(error_at(
                len,
                text,
                SyntaxErrorKind::UnclosedName,
            ))),
        };
    }
    if let Some(quoted) = strip_prefix(text, "'") {
        return match split_quoted(b'\'', quoted) {
            Some((raw, rest)) => Ok((Token::Text(raw), without_space(rest))),
            None => Err(ParseConditionError::Syntax(error_at(
                len,
                text,
                SyntaxErrorKind::UnclosedString,
            ))),
        };
    }
    number_or_word(len, text)
}

/// Reads a token. An error is at its first byte, in a condition of `len` bytes.
#[tactic(auto, unfolding(crate::specs::ConditionTokens::read_token))]
pub fn next_token<'a>(
    len: usize,
    text: &'a str,
) -> Result<(Token<'a>, &'a str), ParseConditionError>
    ensures { ReadsAs (λ x. (token_tree x.0, x.1.now)) result (read_token len text.now) }
{
    if text.is_empty() {
        return Ok((Token::End, text));
    }
    match symbol(text) {
        Some((token, rest)) => Ok((token, without_space(rest))),
        None => text_token(len, text),
    }
}
