//! Files of column names.
use crate::input::{OpenError, open_path};
use cli_rows::{CliError, read_input};
use thiserror::Error;

/// Error returned where a file of column names is not read.
#[derive(Clone, Copy, Debug, PartialEq, Eq, Error)]
pub enum ColumnFileError {
    /// The file is not opened or read.
    #[error("{0}")]
    Open(OpenError),
    /// The file is not UTF-8.
    #[error("the column names are not UTF-8")]
    NotUtf8,
}

impl From<OpenError> for ColumnFileError {
    fn from(error: OpenError) -> ColumnFileError {
        ColumnFileError::Open(error)
    }
}

impl From<CliError> for ColumnFileError {
    fn from(error: CliError) -> ColumnFileError {
        ColumnFileError::Open(OpenError::from(error))
    }
}

/// Returns the text of a file of column names.
pub fn read_column_file(rt: &HostRuntime, file: &str) -> Result<String, ColumnFileError> {
    let mut opened = open_path(rt, file)?;
    let bytes = read_input(rt.alloc(), &mut opened)?;
    match String::from_utf8(bytes) {
        Ok(text) => Ok(text),
        Err(error) => {
            drop(error);
            Err(ColumnFileError::NotUtf8)
        }
    }
}
