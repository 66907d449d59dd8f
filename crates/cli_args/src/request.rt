//! What a command prints or selects.
use crate::condition::Condition;

/// A column.
#[derive(Drop)]
pub enum Column {
    /// The first column of this name.
    Named(String),
    /// The column at this index.
    Indexed(usize),
}

/// A selection of rows.
#[derive(Drop)]
pub enum Selection {
    /// All rows.
    All,
    /// A slice: its offset, and its length at most.
    Slice(usize, usize),
    /// The row at each index, in the order of the indices.
    Indices(Vec<usize>),
    /// The rows where this condition is true.
    Where(Condition),
}

/// What to print of an input.
#[derive(Drop)]
pub enum Request {
    /// The schema, a line for each column.
    Columns,
    /// Rows, a line each.
    Rows(Selection),
}
