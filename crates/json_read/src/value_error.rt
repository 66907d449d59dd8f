//! Errors of adding JSON values to builders.
ghost use Rattle.std.specs.Prelude.{◌≡◌};
ghost use Rattle.json_read.specs.declared.value_error.PushError.TheVariants.{Memory};

use std::alloc::{AllocError, AllocFailed};
use thiserror::Error;

/// A JSON value that is no slot of the data type.
#[derive(Clone, Copy, Debug, PartialEq, Eq, Error)]
pub enum ValueError {
    /// The value has another JSON type than the data type requires, such as a string for an integer.
    #[error("value of another type")]
    WrongType,
    /// The number of an integer type has a fraction or an exponent.
    #[error("number is not an integer")]
    NotAnInteger,
    /// The number is out of the range of its type.
    #[error("number out of range")]
    OutOfRange,
    /// The string is not the text of a value of the data type, such as a date that does not exist, or for a floating-point type a string
    /// other than "NaN", "Infinity" and "-Infinity".
    #[error("string is not the text of a value of the type")]
    InvalidText,
    /// The decimal has more digits than its precision.
    #[error("decimal exceeds its precision")]
    PrecisionExceeded,
    /// The string of a binary value is not pairs of hexadecimal digits.
    #[error("binary value is not a string of hexadecimal digit pairs")]
    InvalidHex,
    /// The number of items, bytes or numbers is not that of the data type.
    #[error("wrong number of items or bytes")]
    WrongLength,
    /// The name of the member is not that of a field.
    #[error("unknown field")]
    UnknownField,
    /// A member before has the same name.
    #[error("duplicate field")]
    DuplicateField,
    /// A value is null, or a member is missing, in a field that is not nullable.
    #[error("null in a field that is not nullable")]
    UnexpectedNull,
}

/// Error returned when a value is added to a builder.
#[derive(Clone, Copy, Debug, PartialEq, Eq, Error)]
pub enum PushError {
    /// The value is no slot of the data type. Of several errors it is the first in the order of the text.
    #[error("{0}")]
    Value(ValueError),
    /// The array or a child array would exceed the maximum length, the offset type or the key type.
    #[error("array exceeds its maximum size")]
    Overflow,
    /// An allocation failed.
    #[error("out of memory")]
    Memory,
}

impl From<AllocError> for PushError {
    ghost from_gives = { λ _ e. e ≡ Memory };

    fn from(_error: AllocError) -> PushError {
        PushError::Memory
    }
}

impl<T: Drop> From<AllocFailed<T>> for PushError {
    ghost from_gives = { λ _ e. e ≡ Memory };

    fn from(_error: AllocFailed<T>) -> PushError {
        PushError::Memory
    }
}
