//! Tables in memory.
use ipc::Batch;
use ipc_schema::Schema;

/// A schema and record batches.
#[derive(Drop)]
pub struct Table {
    /// The schema of all record batches.
    pub schema: Schema,
    /// The record batches, in order.
    pub batches: Vec<Batch>,
}
