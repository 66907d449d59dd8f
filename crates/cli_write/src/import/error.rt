//! Errors of lines of JSON.
ghost use Rattle.std.specs.Prelude.{◌≡◌};
ghost use Rattle.cli_write.specs.declared.import.error.ImportError.TheVariants.{Memory};

use cli_rows::CliError;
use ipc_flatbuf::IpcWriteError;
use json_read::{FieldError, JsonReadError, UnsupportedTypeError};
use std::alloc::{AllocError, AllocFailed};

/// Error returned where lines of JSON are not written as Arrow.
#[derive(Debug, Drop, PartialEq, Eq)]
pub enum ImportError {
    /// Records of these fields are not read from JSON, for the first reason: a type before its children, in order.
    Type(UnsupportedTypeError),
    /// The first invalid line, from 0, with the reason and the field that it is in.
    Line(usize, FieldError),
    /// The rows of a record batch exceed the limits of an array, or the lines exceed 2^64.
    Overflow,
    /// The rows cannot be written in the format of the output.
    Write(IpcWriteError),
    /// Reading the lines failed.
    Input,
    /// Writing the output failed. A prefix of it may have been written.
    Output,
    /// An allocation failed.
    Memory,
}

impl From<AllocError> for ImportError {
    ghost from_gives = { λ _ e. e ≡ Memory };

    fn from(_e: AllocError) -> ImportError {
        ImportError::Memory
    }
}

impl<T: Drop> From<AllocFailed<T>> for ImportError {
    ghost from_gives = { λ _ e. e ≡ Memory };

    fn from(_e: AllocFailed<T>) -> ImportError {
        ImportError::Memory
    }
}

/// Converts an error of a [`BatchWriter`](crate::BatchWriter).
impl From<CliError> for ImportError {
    ghost use Rattle.cli_write.specs.ImportStates.{import_error};

    ghost from_gives = { λ error e. e ≡ import_error error };

    fn from(error: CliError) -> ImportError {
        match error {
            CliError::Write(error) => ImportError::Write(error),
            CliError::Memory => ImportError::Memory,
            CliError::Input
            | CliError::Read(_)
            | CliError::MismatchedColumns
            | CliError::IndexOutOfRange
            | CliError::Condition(_)
            | CliError::UnknownName(_)
            | CliError::Output => ImportError::Output,
        }
    }
}

impl From<JsonReadError> for ImportError {
    ghost use Rattle.cli_write.specs.ImportStates.{json_import_error};

    ghost from_gives = { λ error e. e ≡ json_import_error error };

    fn from(error: JsonReadError) -> ImportError {
        match error {
            JsonReadError::Type(reason) => ImportError::Type(reason),
            JsonReadError::Line { line, error } => ImportError::Line(line, error),
            JsonReadError::Overflow => ImportError::Overflow,
            JsonReadError::Memory => ImportError::Memory,
        }
    }
}
