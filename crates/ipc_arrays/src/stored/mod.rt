//! Arrays that are stored otherwise than they are read: views, and decimals of 32 and 64 bits.
//!
//! A record batch with such arrays is converted before its columns are decoded: its buffers and its body become those of arrays that are
//! read as they are stored.

mod arrays;
mod batch;
mod contents;
mod decimals;
pub mod laws;
mod packed_views;
mod views;

pub use batch::{ConvertedBatch, convert_batch};
