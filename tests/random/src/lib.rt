//! Random data types, slots and arrays, and a plain model of arrays, which is round-trip from them.
#![tactic(auto)]

pub mod layouts;
pub mod natives;
pub mod numbers;
pub mod perturb;
pub mod read;
pub mod slot;
pub mod slots;
pub mod start;
pub mod types;
