//! Errors of conditions.
use std::alloc::{AllocError, AllocFailed};
use thiserror::Error;

/// What is wrong in the text of a condition.
#[derive(Clone, Copy, Debug, PartialEq, Eq, Error)]
pub enum SyntaxErrorKind {
    /// No token begins with this character.
    #[error("unexpected character")]
    UnexpectedCharacter,
    /// A string has no closing quote.
    #[error("the string is not closed")]
    UnclosedString,
    /// A quoted column name has no closing quote.
    #[error("the quoted column name is not closed")]
    UnclosedName,
    /// A number has more than 38 digits.
    #[error("the number has more than 38 digits")]
    TooManyDigits,
    /// A condition does not begin with a column name, `not` or an opening parenthesis.
    #[error("a column name is expected")]
    ColumnExpected,
    /// No literal follows a comparison operator.
    #[error("a literal is expected")]
    LiteralExpected,
    /// No `null` follows `is` or `is not`.
    #[error("`null` is expected")]
    NullExpected,
    /// A parenthesis is not closed.
    #[error("a closing parenthesis is expected")]
    ParenthesisExpected,
    /// A token follows the condition.
    #[error("the end of the condition is expected")]
    EndExpected,
    /// The condition has more than `MAX_LEVELS` levels.
    #[error("the condition is nested too deeply")]
    TooDeep,
}

/// An error in the text of a condition.
#[derive(Clone, Copy, Debug, PartialEq, Eq, Error)]
#[error("position {position}: {kind}")]
pub struct ConditionSyntaxError {
    /// The position of the token that is wrong, in bytes.
    pub position: usize,
    /// What is wrong.
    pub kind: SyntaxErrorKind,
}

/// Error returned by `parse_condition`.
#[derive(Clone, Copy, Debug, PartialEq, Eq, Error)]
pub enum ParseConditionError {
    /// The text is not a condition.
    #[error("{0}")]
    Syntax(ConditionSyntaxError),
    /// An allocation failed.
    #[error("out of memory")]
    Memory,
}

impl From<AllocError> for ParseConditionError {
    ghost use Rattle.std.specs.Prelude.{◌≡◌};
    ghost use Rattle.cli_args.specs.declared.condition_error.ParseConditionError.TheVariants.{Memory};

    ghost from_gives = { λ _ e. e ≡ Memory };

    fn from(_error: AllocError) -> ParseConditionError {
        ParseConditionError::Memory
    }
}

impl<T: Drop> From<AllocFailed<T>> for ParseConditionError {
    ghost use Rattle.std.specs.Prelude.{◌≡◌};
    ghost use Rattle.cli_args.specs.declared.condition_error.ParseConditionError.TheVariants.{Memory};

    ghost from_gives = { λ _ e. e ≡ Memory };

    fn from(_error: AllocFailed<T>) -> ParseConditionError {
        ParseConditionError::Memory
    }
}
