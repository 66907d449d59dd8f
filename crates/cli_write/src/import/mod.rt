//! Lines of JSON written as Arrow streams and files. The memory is that of the lines of one record batch, as text and as columns.

mod batch;
mod buffer;
mod error;
mod lines;

pub use error::ImportError;
pub use lines::import;
