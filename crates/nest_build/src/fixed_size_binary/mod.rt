//! Builders of fixed-size binary arrays.
mod builder;
mod equality;
pub mod iterator;
mod makers;
pub mod mutable;

pub use iterator::{MutableFixedSizeBinaryIter, MutableFixedSizeBinaryValuesIter};
pub use mutable::MutableFixedSizeBinaryArray;
