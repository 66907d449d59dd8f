//! Tests of `take` and `filter` over arrays of every kind, as a crate above `nest_take` sees them.

pub mod arrays;
mod limits;
mod nested;
mod no_index;
mod rows;
