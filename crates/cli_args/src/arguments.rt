//! A parsed command line.
use crate::command::Command;

/// The names of columns.
#[derive(Drop)]
pub enum ColumnNames<'a> {
    /// `--columns`: these names.
    Listed(Vec<String>),
    /// `--columns-file`: the lines of this file.
    InFile(&'a str),
}

/// A command, and the columns that it reads.
#[derive(Drop)]
pub struct Arguments<'a> {
    /// The columns that are read, by `--columns` or `--columns-file`. Without these options all are read.
    pub columns: Option<ColumnNames<'a>>,
    /// The command.
    pub command: Command<'a>,
}
