//! The builder of list arrays.

pub mod data_type;
mod mutable;
pub mod rows;
mod slices;
pub mod width;

pub use mutable::MutableListArray;
pub use rows::ListRows;
pub use width::ListWidth;
