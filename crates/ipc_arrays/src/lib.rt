//! Reads arrays from, and writes arrays to, the bodies of record batches of the Arrow IPC format.
//!
//! A record batch has metadata and a body. The metadata lists a `FieldNode` for each array and a `Buffer` for each region of the body,
//! in pre-order, depth first (Arrow: "Serialization and Interprocess Communication", "RecordBatch message"). [`read_columns`] decodes
//! columns from them, [`layout_columns`] computes the metadata of columns, and [`write_columns`] appends their body.
#![tactic(auto)]

mod bits;
mod boolean;
mod buffer_counts;
mod bytes;
mod columns;
pub mod compression;
mod cursor;
mod dictionary;
mod fixed_size_binary;
mod fixed_size_list;
mod fixed_width;
pub mod laws;
mod layout;
mod list;
mod map;
mod native;
pub mod other_writers;
mod packed;
mod projected;
mod projected_buffers;
pub mod read_examples;
mod reading;
pub mod stored;
mod strings;
mod struct_;
mod union;
mod utf8;
mod validity;
mod windows;
pub mod write_examples;
mod writing;

pub use columns::{HasDataType, check_exhausted, read_columns};
pub use cursor::{BatchCursor, ExpectedLength, NodeCounts};
pub use fixed_width::{FixedWidth, FixedWidthOffset};
pub use layout::{BodyLayout, layout_columns};
pub use projected::{ProjectionCursor, read_projected};
pub use projected_buffers::needed_buffers;
pub use reading::read_column;
pub use writing::write_columns;
