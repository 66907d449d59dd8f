//! Parses conditions. Each level is counted, so that no condition can overflow the stack.
ghost use Rattle.std.specs.Prelude.{◌≡◌, IfOk, Ok, string_bytes};
ghost use Rattle.cli_args.specs.ColumnTrees.{column_tree};
ghost use Rattle.cli_args.specs.Conditions.{both, either};
ghost use Rattle.cli_args.specs.ConditionParser.{is_and, is_end, is_not, is_or, parsed_condition, read_and, read_closing, read_comparison, read_complete, read_is_not_null, read_is_null, read_joined, read_literal, read_negation, read_not, read_not_with, read_null, read_null_test, read_or, read_parenthesized, read_test};
ghost use Rattle.cli_args.specs.ConditionResults.{ReadsAs};
ghost use Rattle.cli_args.specs.ConditionTokens.{undoubled};
ghost use Rattle.cli_args.specs.ConditionTokenTrees.{token_tree};
ghost use Rattle.cli_args.specs.ConditionTrees.{condition_tree, literal_tree};

use crate::condition::{Comparison, Condition, Literal};
use crate::condition_error::{ParseConditionError, SyntaxErrorKind};
use crate::condition_token::{Token, error_at, next_token, without_space};
use crate::number_literal::number_literal;
use crate::request::Column;
use std::alloc::{AllocError, Global};

/// The maximum number of levels of a condition. Each `or`, `and` and `not` of the grammar is a level.
pub const MAX_LEVELS: u32 = 1000;

/// Replaces each pair of quotes by one.
pub(crate) fn undoubled_name(alloc: Global, raw: &str) -> Result<String, AllocError>
    ensures { IfOk result (λ s. string_bytes s ≡ undoubled 34 raw.now) }
{
    raw.replace(alloc, "\"\"", "\"")
}

/// Replaces each pair of quotes by one.
fn undoubled_text(alloc: Global, raw: &str) -> Result<String, AllocError>
    ensures { IfOk result (λ s. string_bytes s ≡ undoubled 39 raw.now) }
{
    raw.replace(alloc, "''", "'")
}

/// Reads a literal.
#[tactic(auto, unfolding(crate::specs::ConditionParser::read_literal))]
fn literal<'a>(
    alloc: Global,
    len: usize,
    text: &'a str,
) -> Result<(Literal, &'a str), ParseConditionError>
    ensures { ReadsAs (λ x. (literal_tree x.0, x.1.now)) result (read_literal len text.now) }
{
    let (token, rest) = next_token(len, text)?;
    match token {
        Token::Number(value, scale) => {
            let number = number_literal(alloc, value, scale)?;
            Ok((Literal::Number(number), rest))
        }
        Token::Text(raw) => Ok((Literal::String(undoubled_text(alloc, raw)?), rest)),
        Token::Boolean(value) => Ok((Literal::Boolean(value), rest)),
        Token::And
        | Token::Or
        | Token::Not
        | Token::Is
        | Token::Null
        | Token::Name(_)
        | Token::QuotedName(_)
        | Token::Operator(_)
        | Token::Opening
        | Token::Closing
        | Token::End => Err(ParseConditionError::Syntax(error_at(
            len,
            text,
            SyntaxErrorKind::LiteralExpected,
        ))),
    }
}

/// Reads `null`.
#[tactic(auto, unfolding(crate::specs::ConditionParser::read_null))]
fn null(len: usize, text: &str) -> Result<&str, ParseConditionError>
    ensures { ReadsAs (λ x. x.now) result (read_null len text.now) }
{
    let (token, rest) = next_token(len, text)?;
    match token {
        Token::Null => Ok(rest),
        Token::And
        | Token::Or
        | Token::Not
        | Token::Is
        | Token::Name(_)
        | Token::QuotedName(_)
        | Token::Text(_)
        | Token::Number(_, _)
        | Token::Boolean(_)
        | Token::Operator(_)
        | Token::Opening
        | Token::Closing
        | Token::End => Err(ParseConditionError::Syntax(error_at(
            len,
            text,
            SyntaxErrorKind::NullExpected,
        ))),
    }
}

fn is_and(token: Token<'_>) -> bool
    ensures { result ≡ is_and (token_tree token.entry) }
{
    matches!(token, Token::And)
}

fn is_or(token: Token<'_>) -> bool
    ensures { result ≡ is_or (token_tree token.entry) }
{
    matches!(token, Token::Or)
}

fn is_not(token: Token<'_>) -> bool
    ensures { result ≡ is_not (token_tree token.entry) }
{
    matches!(token, Token::Not)
}

fn is_end(token: Token<'_>) -> bool
    ensures { result ≡ is_end (token_tree token.entry) }
{
    matches!(token, Token::End)
}

/// Reads the literal of a comparison.
#[tactic(auto, unfolding(crate::specs::ConditionParser::read_comparison))]
fn comparison_test<'a>(
    alloc: Global,
    len: usize,
    column: Column,
    position: usize,
    comparison: Comparison,
    text: &'a str,
) -> Result<(Condition, &'a str), ParseConditionError>
    ensures { ReadsAs (λ x. (condition_tree x.0, x.1.now)) result (read_comparison len (column_tree column) position comparison text.now) }
{
    let (literal, rest) = literal(alloc, len, text)?;
    Ok((
        Condition::Compare(column, position, comparison, literal),
        rest,
    ))
}

#[tactic(auto, unfolding(crate::specs::ConditionParser::read_is_null))]
fn is_null_test<'a>(
    len: usize,
    column: Column,
    position: usize,
    text: &'a str,
) -> Result<(Condition, &'a str), ParseConditionError>
    ensures { ReadsAs (λ x. (condition_tree x.0, x.1.now)) result (read_is_null len (column_tree column) position text.now) }
{
    let rest = null(len, text)?;
    Ok((Condition::IsNull(column, position), rest))
}

#[tactic(auto, unfolding(crate::specs::ConditionParser::read_is_not_null))]
fn is_not_null_test<'a>(
    alloc: Global,
    len: usize,
    column: Column,
    position: usize,
    text: &'a str,
) -> Result<(Condition, &'a str), ParseConditionError>
    ensures { ReadsAs (λ x. (condition_tree x.0, x.1.now)) result (read_is_not_null len (column_tree column) position text.now) }
{
    let rest = null(len, text)?;
    let inner = Box::new(alloc, Condition::IsNull(column, position))?;
    Ok((Condition::Not(inner), rest))
}

/// Reads what follows `is`.
#[tactic(auto, unfolding(crate::specs::ConditionParser::read_null_test))]
fn null_test<'a>(
    alloc: Global,
    len: usize,
    column: Column,
    position: usize,
    text: &'a str,
) -> Result<(Condition, &'a str), ParseConditionError>
    ensures { ReadsAs (λ x. (condition_tree x.0, x.1.now)) result (read_null_test len (column_tree column) position text.now) }
{
    let (next, rest) = next_token(len, text)?;
    if is_not(next) {
        is_not_null_test(alloc, len, column, position, rest)
    } else {
        is_null_test(len, column, position, text)
    }
}

/// Reads what follows a column name.
#[tactic(auto, unfolding(crate::specs::ConditionParser::read_test))]
fn test<'a>(
    alloc: Global,
    len: usize,
    column: Column,
    position: usize,
    text: &'a str,
) -> Result<(Condition, &'a str), ParseConditionError>
    ensures { ReadsAs (λ x. (condition_tree x.0, x.1.now)) result (read_test len (column_tree column) position text.now) }
{
    let (next, rest) = next_token(len, text)?;
    match next {
        Token::Operator(comparison) => {
            comparison_test(alloc, len, column, position, comparison, rest)
        }
        Token::Is => null_test(alloc, len, column, position, rest),
        Token::And
        | Token::Or
        | Token::Not
        | Token::Null
        | Token::Name(_)
        | Token::QuotedName(_)
        | Token::Text(_)
        | Token::Number(_, _)
        | Token::Boolean(_)
        | Token::Opening
        | Token::Closing
        | Token::End => Ok((Condition::IsTrue(column, position), text)),
    }
}

/// Reads a closing parenthesis.
#[tactic(auto, unfolding(crate::specs::ConditionParser::read_closing))]
fn closing(len: usize, text: &str) -> Result<&str, ParseConditionError>
    ensures { ReadsAs (λ x. x.now) result (read_closing len text.now) }
{
    let (token, rest) = next_token(len, text)?;
    match token {
        Token::Closing => Ok(rest),
        Token::And
        | Token::Or
        | Token::Not
        | Token::Is
        | Token::Null
        | Token::Name(_)
        | Token::QuotedName(_)
        | Token::Text(_)
        | Token::Number(_, _)
        | Token::Boolean(_)
        | Token::Operator(_)
        | Token::Opening
        | Token::End => Err(ParseConditionError::Syntax(error_at(
            len,
            text,
            SyntaxErrorKind::ParenthesisExpected,
        ))),
    }
}

fn or_of(alloc: Global, left: Condition, right: Condition) -> Result<Condition, ParseConditionError>
    ensures { ReadsAs condition_tree result (Ok (either (condition_tree left) (condition_tree right))) }
{
    let left = Box::new(alloc, left)?;
    let right = Box::new(alloc, right)?;
    Ok(Condition::Or(left, right))
}

fn and_of(
    alloc: Global,
    left: Condition,
    right: Condition,
) -> Result<Condition, ParseConditionError>
    ensures { ReadsAs condition_tree result (Ok (both (condition_tree left) (condition_tree right))) }
{
    let left = Box::new(alloc, left)?;
    let right = Box::new(alloc, right)?;
    Ok(Condition::And(left, right))
}

/// Reads an `or` of at most `levels` levels.
#[cycle(conditions)]
fn or_at(
    alloc: Global,
    len: usize,
    levels: u32,
    text: &str,
) -> Result<(Condition, &str), ParseConditionError>
    ensures { ReadsAs (λ x. (condition_tree x.0, x.1.now)) result (read_or len levels text.now) }
{
    if levels == 0 {
        return Err(ParseConditionError::Syntax(error_at(len, text, SyntaxErrorKind::TooDeep)));
    }
    or_joined(alloc, len, levels - 1, text)
}

/// Reads an `or` whose operands have at most `levels` levels.
#[cycle(conditions)]
#[tactic(auto, unfolding(crate::specs::ConditionParser::read_joined, crate::specs::ConditionParser::read_right))]
fn or_joined(
    alloc: Global,
    len: usize,
    levels: u32,
    text: &str,
) -> Result<(Condition, &str), ParseConditionError>
    ensures { ReadsAs (λ x. (condition_tree x.0, x.1.now)) result (read_joined len is_or either (read_and len levels) (read_or len levels) text.now) }
{
    let (left, rest) = and_at(alloc, len, levels, text)?;
    let (next, after) = next_token(len, rest)?;
    if !is_or(next) {
        return Ok((left, rest));
    }
    let (right, rest) = or_at(alloc, len, levels, after)?;
    Ok((or_of(alloc, left, right)?, rest))
}

/// Reads an `and` of at most `levels` levels.
#[cycle(conditions)]
fn and_at(
    alloc: Global,
    len: usize,
    levels: u32,
    text: &str,
) -> Result<(Condition, &str), ParseConditionError>
    ensures { ReadsAs (λ x. (condition_tree x.0, x.1.now)) result (read_and len levels text.now) }
{
    if levels == 0 {
        return Err(ParseConditionError::Syntax(error_at(len, text, SyntaxErrorKind::TooDeep)));
    }
    and_joined(alloc, len, levels - 1, text)
}

/// Reads an `and` whose operands have at most `levels` levels.
#[cycle(conditions)]
#[tactic(auto, unfolding(crate::specs::ConditionParser::read_joined, crate::specs::ConditionParser::read_right))]
fn and_joined(
    alloc: Global,
    len: usize,
    levels: u32,
    text: &str,
) -> Result<(Condition, &str), ParseConditionError>
    ensures { ReadsAs (λ x. (condition_tree x.0, x.1.now)) result (read_joined len is_and both (read_not len levels) (read_and len levels) text.now) }
{
    let (left, rest) = not_at(alloc, len, levels, text)?;
    let (next, after) = next_token(len, rest)?;
    if !is_and(next) {
        return Ok((left, rest));
    }
    let (right, rest) = and_at(alloc, len, levels, after)?;
    Ok((and_of(alloc, left, right)?, rest))
}

/// Reads a `not` of at most `levels` levels.
#[cycle(conditions)]
fn not_at(
    alloc: Global,
    len: usize,
    levels: u32,
    text: &str,
) -> Result<(Condition, &str), ParseConditionError>
    ensures { ReadsAs (λ x. (condition_tree x.0, x.1.now)) result (read_not len levels text.now) }
{
    if levels == 0 {
        return Err(ParseConditionError::Syntax(error_at(len, text, SyntaxErrorKind::TooDeep)));
    }
    not_with(alloc, len, levels - 1, text)
}

/// Reads a `not` whose inner conditions have at most `levels` levels.
#[cycle(conditions)]
#[tactic(auto, unfolding(crate::specs::ConditionParser::read_not_with))]
fn not_with(
    alloc: Global,
    len: usize,
    levels: u32,
    text: &str,
) -> Result<(Condition, &str), ParseConditionError>
    ensures { ReadsAs (λ x. (condition_tree x.0, x.1.now)) result (read_not_with len (read_not len levels) (read_or len levels) text.now) }
{
    let position = len.saturating_sub(text.len());
    let (first, rest) = next_token(len, text)?;
    match first {
        Token::Not => negation(alloc, len, levels, rest),
        Token::Opening => parenthesized(alloc, len, levels, rest),
        Token::Name(name) => {
            let column = Column::Named(String::from_str(alloc, name)?);
            test(alloc, len, column, position, rest)
        }
        Token::QuotedName(raw) => {
            let column = Column::Named(undoubled_name(alloc, raw)?);
            test(alloc, len, column, position, rest)
        }
        Token::And
        | Token::Or
        | Token::Is
        | Token::Null
        | Token::Text(_)
        | Token::Number(_, _)
        | Token::Boolean(_)
        | Token::Operator(_)
        | Token::Closing
        | Token::End => Err(ParseConditionError::Syntax(error_at(
            len,
            text,
            SyntaxErrorKind::ColumnExpected,
        ))),
    }
}

/// Reads what follows `not`.
#[cycle(conditions)]
#[tactic(auto, unfolding(crate::specs::ConditionParser::read_negation))]
fn negation(
    alloc: Global,
    len: usize,
    levels: u32,
    text: &str,
) -> Result<(Condition, &str), ParseConditionError>
    ensures { ReadsAs (λ x. (condition_tree x.0, x.1.now)) result (read_negation (read_not len levels) text.now) }
{
    let (inner, rest) = not_at(alloc, len, levels, text)?;
    Ok((Condition::Not(Box::new(alloc, inner)?), rest))
}

/// Reads what follows an opening parenthesis.
#[cycle(conditions)]
#[tactic(auto, unfolding(crate::specs::ConditionParser::read_parenthesized))]
fn parenthesized(
    alloc: Global,
    len: usize,
    levels: u32,
    text: &str,
) -> Result<(Condition, &str), ParseConditionError>
    ensures { ReadsAs (λ x. (condition_tree x.0, x.1.now)) result (read_parenthesized len (read_or len levels) text.now) }
{
    let (inner, rest) = or_at(alloc, len, levels, text)?;
    let rest = closing(len, rest)?;
    Ok((inner, rest))
}

/// Reads a condition that nothing follows.
#[tactic(auto, unfolding(crate::specs::ConditionParser::read_complete))]
fn complete(alloc: Global, len: usize, text: &str) -> Result<Condition, ParseConditionError>
    ensures { ReadsAs condition_tree result (read_complete len 1000 text.now) }
{
    let (condition, rest) = or_at(alloc, len, MAX_LEVELS, text)?;
    let (next, _) = next_token(len, rest)?;
    if !is_end(next) {
        return Err(ParseConditionError::Syntax(error_at(len, rest, SyntaxErrorKind::EndExpected)));
    }
    Ok(condition)
}

/// Parses a condition.
///
/// # Errors
///
/// - `Syntax`: the first error from left to right, at the token that is wrong.
/// - `Memory`: an allocation fails.
pub fn parse_condition(alloc: Global, text: &str) -> Result<Condition, ParseConditionError>
    ensures { ReadsAs condition_tree result (parsed_condition text.now) }
{
    complete(alloc, text.len(), without_space(text))
}
