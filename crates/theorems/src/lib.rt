//! The main theorems: one function per theorem, whose contract states it and whose body is the call that keeps it.
//!
//! Nothing links this crate. Each file of `must-fail` changes a body so that its contract no longer holds, which the prover must refuse.
//! `promises` has the other theorems.
//!
//! In a contract `ok` and `err` say what holds where the call returns `Ok` and `Err`. `x.old` and `x.new` are a value before and
//! after the call, `x.now` a value that is only read. A clause with `↔` says exactly when an error is returned.
//! `Memory alloc_error` is the error of a failed allocation, which no contract can exclude.
#![tactic(auto)]

pub mod arrays;
pub mod arrow_ipc;
pub mod builders;
pub mod equality;
pub mod kernels;
pub mod text;
