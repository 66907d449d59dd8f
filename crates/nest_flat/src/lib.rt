//! Flat arrays of the Arrow columnar format: primitive, boolean, binary and UTF-8 arrays.
//!
//! A statement whose value is unused (`let _ends = ..`, `x.known()`) states a fact for the prover and does nothing at
//! run time.
#![tactic(auto)]

pub mod any_native;
pub mod any_primitive;
pub mod binary;
pub mod boolean;
mod equality;
pub mod flat_array;
pub mod growth;
pub mod iterator;
mod makers;
pub mod plain;
pub mod primitive;
mod spans;
pub mod utf8;
pub mod validity;
