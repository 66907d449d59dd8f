//! The record batches of a stream or a file.
use nest_array::any::AnyArray;

/// A record batch: a number of rows, and a column for each field of its schema.
#[derive(Drop)]
pub struct Batch {
    /// The number of rows, also of a batch without columns.
    pub rows: usize,
    /// The columns, in the order of the fields of the schema.
    pub columns: Vec<AnyArray>,
}
