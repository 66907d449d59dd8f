//! Arrays of every kind, kernels and text.
pub mod any;
pub mod concatenate;
pub mod constructors;
pub mod downcasts;
pub mod equality;
pub mod flat;
pub mod flat_from_slices;
pub mod iterators;
pub mod levels;
pub mod memory;
pub mod null_arrays;
pub mod take;
pub mod text;
pub mod values;
