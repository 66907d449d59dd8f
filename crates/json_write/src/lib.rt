//! Writes arrays, windows and scalars of any data type as JSON (RFC 8259).
//!
//! A statement whose value is never used (`let _len = ..`, `x.known()`) gives the prover a fact and has no effect at run time.
#![tactic(auto)]

pub mod display;
mod flat;
mod floats;
pub mod format;
pub mod laws;
mod native;
mod nested;
pub mod output;
mod quoting;
mod scalar;
pub mod struct_rows;
pub mod traits;
pub mod value_text;

pub use display::Json;
pub use format::ValueFormat;
pub use traits::WriteJson;
