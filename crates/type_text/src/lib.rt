//! Data types parsed from text: the inverse of `Display` for `DataType`.
#![tactic(auto)]

mod error;
mod keyword;
pub mod laws;
mod lexer;
mod nested;
mod parametric;
mod parse;

pub use error::ParseTypeError;
pub use parse::{MAX_DEPTH, parse_type};
