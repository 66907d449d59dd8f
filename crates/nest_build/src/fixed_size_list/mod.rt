//! The builder of fixed-size list arrays.

pub mod data_type;
mod mutable;
pub mod rows;
mod slices;

pub use mutable::{MutableFixedSizeListArray, freeze_over};
pub use rows::FixedRows;
