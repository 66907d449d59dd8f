//! What is proved beside the main theorems: one function per theorem, whose contract states it and whose body is the call that keeps it.
//!
//! How to read a contract is said in `theorems`. Nothing links this crate. It is read beside `docs/PROMISES.md`.
#![tactic(auto)]

pub mod arrays;
pub mod arrow_ipc;
pub mod builders;
