//! Arrow streams and files written one record batch at a time: converted, selected, concatenated, or read from lines of JSON. The memory is
//! that of one record batch and of the dictionaries read and written.
#![tactic(auto)]

mod batch;
mod concat;
mod copier;
pub mod import;
pub mod laws;
mod writer;

pub use concat::{AppendError, append, begin_concat};
pub use copier::{Progress, copy};
pub use writer::BatchWriter;
