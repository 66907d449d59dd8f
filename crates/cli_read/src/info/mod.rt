//! What the metadata of an input says, as text.

pub mod laws;
mod lines;
mod totals;

pub use lines::{file_info_lines, stream_info_lines};
