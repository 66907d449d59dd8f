//! Comparison of two Arrow inputs. Rows are compared as soon as both sides have some, and a record batch is dropped before the next one of
//! its side is read.

mod buffer;
mod bytes;
mod inputs;

pub use inputs::{CompareError, compare};
