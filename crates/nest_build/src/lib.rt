//! Builders of nested arrays in the Arrow format.
//!
//! A statement whose value is never read (`let _len = ..`, `x.known()`) shows the prover a fact that the next step
//! needs. It does nothing at run time.
#![tactic(auto)]

pub mod array;
mod boxed;
pub mod child;
pub mod dictionary;
pub mod fixed_size_binary;
pub mod fixed_size_list;
pub mod flat;
pub mod list;
pub mod null;
pub mod push;
pub mod tried;
