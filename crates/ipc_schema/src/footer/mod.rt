//! Readers and writers of the footers of Arrow IPC files: the schema, and the blocks of dictionaries and record batches.

mod blocks;
pub mod laws;
mod reading;
mod types;
mod writing;

pub use blocks::{block_bytes, block_length};
pub use reading::{footer_length, read_footer, read_footer_at};
pub use types::{Block, ProjectedFooter};
pub use writing::write_footer;
