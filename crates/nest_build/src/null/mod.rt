//! Builders of null arrays.
pub mod mutable;

pub use mutable::MutableNullArray;
