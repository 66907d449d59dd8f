//! Tests of `nest_memory`: its public calls, as their callers see them.
//!
//! Copies, values, scalars and taken rows.

mod data_types;
mod natives;
mod parts;
