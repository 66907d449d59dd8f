//! Builders.
pub mod any;
pub mod conversions;
pub mod dictionaries;
pub mod fixed_size_binary;
pub mod flat;
pub mod flat_accessors;
pub mod lists;
pub mod nulls;
pub mod rows;
