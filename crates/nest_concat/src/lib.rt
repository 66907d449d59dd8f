//! Concatenation of arrays of any nesting by [`concatenate`], and of single slots of several arrays by [`interleave`].
//!
//! A statement with an unused value (`let _len = ..`, `x.known()`) states a fact for the prover and does nothing else.
#![tactic(auto)]

mod any;
mod arrays;
mod binary;
mod bits;
mod boolean;
mod dictionary;
pub mod examples;
mod fixed_size_binary;
mod fixed_size_list;
mod keys;
pub mod laws;
mod list;
mod map;
mod mixed;
mod natives;
mod null;
mod primitive;
mod spans;
mod struct_;
mod union;
mod utf8;

pub use arrays::concatenate;
pub use mixed::interleave;
