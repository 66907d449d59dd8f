//! The example functions of `docs/GUIDE.md`, a module for each chapter.
#![tactic(auto)]

pub mod arrays;
pub mod builders;
pub mod equality;
pub mod files;
pub mod selection;
pub mod sharing;
pub mod slices;
pub mod values;
