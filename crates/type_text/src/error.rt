//! Errors of the parser.
ghost use Rattle.std.specs.Prelude.{◌≡◌};

use nest_memory::error::Error;
use std::alloc::{AllocError, AllocFailed};

/// Error returned by `parse_type`. Positions are byte offsets into the text.
#[derive(Clone, Copy, Debug, PartialEq, Eq, thiserror::Error)]
pub enum ParseTypeError {
    /// The text is not a data type: the text from this byte on is not what the syntax requires there.
    #[error("invalid data type at byte {0}")]
    Syntax(usize),
    /// The data type that begins at this byte is nested more than `MAX_DEPTH` levels deep.
    #[error("data type at byte {0} exceeds the maximum nesting depth")]
    TooDeep(usize),
    /// An allocation failed.
    #[error("out of memory")]
    Memory(AllocError),
}

/// A syntax error, located by the number of bytes that remain after it.
#[derive(Clone, Copy)]
pub enum SyntaxError {
    /// The remaining bytes are not what the syntax requires.
    Unexpected(usize),
    /// The type at the start of the remaining bytes is nested too deep.
    TooDeep(usize),
}

/// Error returned by the parser of a part of a data type.
#[derive(Clone, Copy)]
pub enum PartError {
    Syntax(SyntaxError),
    /// An allocation failed.
    Memory,
}

impl From<AllocError> for PartError {
    ghost use Rattle.type_text.specs.declared.error.PartError.TheVariants.{Memory};

    ghost from_gives = { λ _ e. e ≡ Memory };

    fn from(_error: AllocError) -> PartError {
        PartError::Memory
    }
}

impl<T: Drop> From<AllocFailed<T>> for PartError {
    ghost use Rattle.type_text.specs.declared.error.PartError.TheVariants.{Memory};

    ghost from_gives = { λ _ e. e ≡ Memory };

    fn from(_error: AllocFailed<T>) -> PartError {
        PartError::Memory
    }
}

impl From<Error> for PartError {
    ghost use Rattle.type_text.specs.declared.error.PartError.TheVariants.{Memory};

    ghost from_gives = { λ _ e. e ≡ Memory };

    fn from(_error: Error) -> PartError {
        PartError::Memory
    }
}
