//! Errors of reading JSON lines.
ghost use Rattle.std.specs.Prelude.{◌≡◌};
ghost use Rattle.json_read.specs.declared.error.NewBuilderError.TheVariants as builder_error;

use crate::value_error::ValueError;
use std::alloc::{AllocError, AllocFailed};
use std::fmt;
use std::fmt::{Display, Formatter};
use thiserror::Error;

/// A data type whose values cannot be read from JSON.
#[derive(Clone, Copy, Debug, PartialEq, Eq, Error)]
pub enum UnsupportedTypeError {
    /// The data type of a float array, of which none can be built. The types that `float_type` returns can be read.
    #[error("floating-point type")]
    FloatingPoint,
    /// A map.
    #[error("map type")]
    Map,
    /// A union.
    #[error("union type")]
    Union,
    /// A struct with two fields of the same name, which a member cannot distinguish.
    #[error("struct type with duplicate field names")]
    DuplicateFieldNames,
    /// A struct without fields.
    #[error("struct type without fields")]
    EmptyStruct,
    /// Fixed-size lists or fixed-size binary of size 0.
    #[error("fixed-size type of size 0")]
    ZeroSize,
    /// A dictionary whose values are nested, of type null or dictionaries.
    #[error("dictionary type with values of a nested, null or dictionary type")]
    DictionaryValues,
    /// An extension of a variable-size binary or UTF-8 type, for which no builder exists.
    #[error("extension of a variable-size binary or UTF-8 type")]
    VariableSizeExtension,
}

/// Error returned by `new_builder`.
#[derive(Clone, Copy, Debug, PartialEq, Eq, Error)]
pub enum NewBuilderError {
    /// JSON of the type cannot be read. Of several reasons it is the first, a type before its children, these in order.
    #[error("cannot be read from JSON: {0}")]
    Type(UnsupportedTypeError),
    /// An allocation failed.
    #[error("out of memory")]
    Memory,
}

/// A line that is no slot of the data type.
#[derive(Clone, Copy, Debug, PartialEq, Eq, Error)]
pub enum LineError {
    /// The line is not UTF-8, or not one JSON value.
    #[error("invalid JSON")]
    InvalidJson,
    /// The value is no slot of the data type.
    #[error("{0}")]
    Value(ValueError),
}

/// The error of a line, and the field that it is in.
#[derive(Debug, Drop, PartialEq, Eq)]
pub struct FieldError {
    /// The path of the field: the names of the fields from the value of the line down, joined by dots. `None` if the error is in no field, as
    /// that of a line that is not JSON.
    pub field: Option<String>,
    /// The error of the line.
    pub reason: LineError,
}

impl Display for FieldError {
    fn fmt<W: fmt::Write>(&self, f: &mut Formatter<W>) -> fmt::Result {
        let reason = self.reason;
        match &self.field {
            Some(field) => write!(f, "field \"{field}\": {reason}"),
            None => write!(f, "{reason}"),
        }
    }
}

/// Error returned when a line is added to a builder.
#[derive(Drop)]
pub(crate) enum PushLineError {
    /// The line is no slot of the data type.
    Line(FieldError),
    /// The array or a child array would exceed its maximum size.
    Overflow,
    /// An allocation failed.
    Memory,
}

/// Error returned by `read_json_lines` and `read_first_json_lines`.
#[derive(Debug, Drop, PartialEq, Eq, Error)]
pub enum JsonReadError {
    /// JSON of the type cannot be read. Of several reasons it is the first, a type before its children, these in order.
    #[error("cannot be read from JSON: {0}")]
    Type(UnsupportedTypeError),
    /// The first invalid line, counted from 0, and its error.
    #[error("line {line} (counted from 0): {error}")]
    Line { line: usize, error: FieldError },
    /// The array or a child array would exceed the maximum length, the offset type or the key type.
    #[error("array exceeds its maximum size")]
    Overflow,
    /// An allocation failed.
    #[error("out of memory")]
    Memory,
}

impl From<AllocError> for NewBuilderError {
    ghost from_gives = { λ _ e. e ≡ builder_error.Memory };

    fn from(_error: AllocError) -> NewBuilderError {
        NewBuilderError::Memory
    }
}

impl<T: Drop> From<AllocFailed<T>> for NewBuilderError {
    ghost from_gives = { λ _ e. e ≡ builder_error.Memory };

    fn from(_error: AllocFailed<T>) -> NewBuilderError {
        NewBuilderError::Memory
    }
}
