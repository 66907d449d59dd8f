//! Floating-point numbers as decimal text: the shortest decimal that reads as the number ([IEEE 754](https://doi.org/10.1109/IEEESTD.2019.8766229)
//! section 5.12), in the layout of the Rust crate `ryu`. Numbers are passed as their bits.
//!
//! `0.1` is written for the double nearest to a tenth, although its value is 0.1000000000000000055..: no shorter decimal reads as this double,
//! and no other of one digit is as close. The digits are exact: the number is made an integer in base 10^9.
#![tactic(auto)]

mod decimal;
mod format;
mod half;
pub mod laws;
mod shortest;
mod text;

pub use format::FloatFormat;
pub use half::{single_of_half, write_half};
pub use text::{is_finite, write_float};
