//! Builders, constructors, copies, slices, `take`, scalars, iterators and strings: each allocation fails once.
#![tactic(auto)]

mod allocations;
mod any_kind;
mod arrays;
mod builders;
mod iterators;
mod mirrors;
mod parsed;
mod typed;
