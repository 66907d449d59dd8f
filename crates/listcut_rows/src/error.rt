//! The error of `listcut`.
ghost use Rattle.std.specs.Prelude.{◌≡◌};
ghost use Rattle.listcut_rows.specs.Words.{Memory};

use std::alloc::{AllocError, AllocFailed};
use thiserror::Error;

/// Error returned by `run`. The program prints it as one line.
#[derive(Clone, Copy, Debug, PartialEq, Eq, Error)]
pub enum ListcutError {
    /// The arguments are neither an offset and a length nor `take` and indices.
    #[error("listcut: arguments")]
    Arguments,
    /// Reading the input failed.
    #[error("listcut: input")]
    Input,
    /// The number, from 1, of the first line that is invalid or exceeds the maximum number of items.
    #[error("listcut: line {0}")]
    Line(u64),
    /// The slice or an index is out of bounds.
    #[error("listcut: range")]
    Range,
    /// The rows at the indices have 2^31 items or more.
    #[error("listcut: size")]
    Size,
    /// Writing the output failed; a prefix of it may have been written.
    #[error("listcut: output")]
    Output,
    /// An allocation failed.
    #[error("listcut: memory")]
    Memory,
}

impl From<AllocError> for ListcutError {
    ghost from_gives = { λ _ e. e ≡ Memory };

    fn from(_error: AllocError) -> ListcutError {
        ListcutError::Memory
    }
}

impl<T: Drop> From<AllocFailed<T>> for ListcutError {
    ghost from_gives = { λ _ e. e ≡ Memory };

    fn from(_error: AllocFailed<T>) -> ListcutError {
        ListcutError::Memory
    }
}
