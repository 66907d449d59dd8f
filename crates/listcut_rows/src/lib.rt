//! The library of the program `listcut`: it reads lists of 64-bit integers, one a line, selects rows and writes them.
//!
//! A statement whose value is never used (`let _len = ..`, `x.known()`) gives the prover a fact and has no effect at run time.
#![tactic(auto)]

pub mod command;
pub mod error;
pub mod input;
mod int64;
pub mod laws;
mod numbers;
pub mod output;
mod select;
mod selection;
