//! The errors of the program's libraries.
ghost use Rattle.std.specs.Prelude.{◌≡◌};
ghost use Rattle.cli_rows.specs.declared.error.CliError.TheVariants.{Memory};

use ipc_flatbuf::{IpcReadError, IpcWriteError};
use ipc_io::{ReadError, WriteError};
use std::alloc::{AllocError, AllocFailed};
use std::fmt;
use std::fmt::{Display, Formatter};
use thiserror::Error;

/// Error of a column in a condition on rows, by the position of its name in the text of the condition, in bytes.
#[derive(Clone, Copy, Debug, PartialEq, Eq, Error)]
pub enum ColumnError {
    /// There is no column of this name.
    #[error("position {0}: there is no column of this name")]
    UnknownColumn(usize),
    /// The column is not boolean.
    #[error("position {0}: the column is not boolean")]
    NotBoolean(usize),
    /// Values of the column's type cannot be compared.
    #[error("position {0}: columns of this type cannot be compared")]
    NotComparable(usize),
    /// The literal is of another kind than the values of the column.
    #[error("position {0}: the column cannot be compared with this literal")]
    OtherLiteral(usize),
    /// The string is not the text of a value of the column's type.
    #[error("position {0}: the string is not a value of the column's type")]
    InvalidText(usize),
}

/// Error returned where an input is not read, or an output not written.
#[derive(Clone, Copy, Debug, PartialEq, Eq, Error)]
pub enum CliError {
    /// Reading the input failed.
    #[error("input cannot be read")]
    Input,
    /// The input is not an Arrow file or stream that is read.
    #[error("{0}")]
    Read(IpcReadError),
    /// The rows cannot be written in the format of the output.
    #[error("{0}")]
    Write(IpcWriteError),
    /// The columns of a record batch do not match the schema, or there is no column.
    #[error("the record batch has no columns of the schema")]
    MismatchedColumns,
    /// There is no row at an index.
    #[error("a row index is out of range")]
    IndexOutOfRange,
    /// A condition does not fit the columns.
    #[error("{0}")]
    Condition(ColumnError),
    /// No column has a projected name. The number of the first such name, from 0.
    #[error("there is no column of projected name {0}")]
    UnknownName(usize),
    /// Writing the output failed. A prefix of it may have been written.
    #[error("output cannot be written")]
    Output,
    /// An allocation failed.
    #[error("out of memory")]
    Memory,
}

impl From<AllocError> for CliError {
    ghost from_gives = { λ _ e. e ≡ Memory };

    fn from(_e: AllocError) -> CliError {
        CliError::Memory
    }
}

impl<T: Drop> From<AllocFailed<T>> for CliError {
    ghost from_gives = { λ _ e. e ≡ Memory };

    fn from(_e: AllocFailed<T>) -> CliError {
        CliError::Memory
    }
}

impl From<IpcReadError> for CliError {
    ghost use Rattle.cli_rows.specs.declared.error.CliError.TheVariants.{Read};

    ghost from_gives = { λ error e. e ≡ Read error };

    fn from(error: IpcReadError) -> CliError {
        CliError::Read(error)
    }
}

impl From<IpcWriteError> for CliError {
    ghost use Rattle.cli_rows.specs.declared.error.CliError.TheVariants.{Write};

    ghost from_gives = { λ error e. e ≡ Write error };

    fn from(error: IpcWriteError) -> CliError {
        CliError::Write(error)
    }
}

impl From<ReadError> for CliError {
    ghost use Rattle.cli_rows.specs.Errors.{read_error};

    ghost from_gives = { λ error e. e ≡ read_error error };

    fn from(error: ReadError) -> CliError {
        match error {
            ReadError::Ipc(error) => CliError::Read(error),
            ReadError::Io(_) => CliError::Input,
        }
    }
}

impl From<WriteError> for CliError {
    ghost use Rattle.cli_rows.specs.Errors.{write_error};

    ghost from_gives = { λ error e. e ≡ write_error error };

    fn from(error: WriteError) -> CliError {
        match error {
            WriteError::Ipc(error) => CliError::Write(error),
            WriteError::Io(_) => CliError::Output,
            WriteError::Failed => CliError::Output,
        }
    }
}

/// Error in a record batch of an input, or before its record batches.
#[derive(Clone, Copy, Debug, PartialEq, Eq)]
pub struct BatchError {
    /// The number of the record batch, from 0. `None` before the first record batch.
    pub batch: Option<usize>,
    /// The error.
    pub error: CliError,
}

impl Display for BatchError {
    fn fmt<W: fmt::Write>(&self, f: &mut Formatter<W>) -> fmt::Result {
        match self.batch {
            None => write!(f, "{}", self.error),
            Some(k) => write!(f, "record batch {k}: {}", self.error),
        }
    }
}
