//! Columnar memory: shared buffers, bitmaps, offsets, data types and errors.
//!
//! A statement whose value is never read (`let _len = ..`, `x.known()`, `prove!(..)`) states a fact for the prover and
//! does nothing at run time.
#![tactic(auto)]

pub mod bitmap;
pub mod buffer;
pub mod datatypes;
pub mod error;
pub mod offset;
pub mod offsets;
pub mod types;
