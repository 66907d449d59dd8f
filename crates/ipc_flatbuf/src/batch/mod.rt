//! Readers and writers of the metadata of record batches and dictionary batches.

mod bounds;
mod dictionary;
pub mod laws;
mod metadata;
mod parts;
mod reading;
mod variadic;
mod writing;

pub use dictionary::write_dictionary;
pub use metadata::BatchMetadata;
pub use parts::{BufferSpec, FieldNode};
pub use reading::read_batch;
pub use variadic::read_variadic_buffer_counts;
pub use writing::write_batch;
