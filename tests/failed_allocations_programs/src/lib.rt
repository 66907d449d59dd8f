//! The calls of the programs `nest` and `listcut`: each allocation fails once.
#![tactic(auto)]

mod allocations;
mod buffer;
mod listcut;
mod nest_calls;
