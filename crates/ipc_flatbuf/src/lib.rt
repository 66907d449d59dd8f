//! The metadata of the Arrow IPC format: flatbuffers, encapsulated messages, record batches and dictionary batches.
//!
//! Readers decode metadata in place and check each offset. A budget limits the apparent size of the metadata: a table
//! counts 8 bytes, a vector 4 bytes and its items, once for each offset that refers to it. [`message::read_root`] sets
//! the budget to 64 times the length of the metadata.
#![tactic(auto)]

pub mod batch;
mod compression;
mod error;
pub mod message;
mod numbers;
mod projection;
mod tables;
mod vectors;
mod writers;

pub use batch::{BufferSpec, FieldNode};
pub use compression::{CompressionCodec, CompressionError};
pub use error::{IpcReadError, IpcWriteError};
pub use numbers::{i16_at, i32_at, i64_at, non_negative, offset_at, u8_at, u16_at, u32_at, u64_at};
pub use projection::{FieldAction, SkippedField, StoredArray, are_read_as_stored, are_views_read};
pub use tables::{
    FlatbufferTable, field_position, i16_field, i32_field, i64_field, offset_field, table_at,
    u8_field,
};
pub use vectors::{
    VectorItems, charge_budget, items_at, read_string, read_table, read_vector, str_at,
};
pub use writers::{
    write_each, write_i32, write_i64, write_offset, write_string, write_tables, write_u32,
    write_zeros,
};
