//! Random sequences of calls on builders of every kind: after each call, the builder is compared with a plain model of its rows and of
//! the values that its children have beyond them.
#![tactic(auto)]

mod any_kind;
pub mod checks;
pub mod failure;
pub mod level;
mod limits;
pub mod makers;
pub mod program;
mod typed;
pub mod types;
pub mod values;
