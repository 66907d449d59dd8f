//! The error of calls on arrays and builders.
pub use nest_memory::error::{ArgumentError, Error, SpecError};
