//! Selection of slots of arrays of any nesting: [`take`] by indices, [`filter`] by a Boolean mask.
//!
//! A statement with an unused value (`let _len = ..`, `x.known()`) states a fact for the prover and does nothing else.
#![tactic(auto)]

mod any;
mod binary;
mod boolean;
mod dictionary;
pub mod examples;
mod fixed_size_binary;
mod fixed_size_list;
mod indices;
pub mod laws;
mod list;
mod map;
mod mask;
mod null;
mod primitive;
mod spans;
mod struct_;
mod union;
mod utf8;

pub use any::take;
pub use mask::filter;
