//! What the random tests begin with. `scripts/test --start N` writes another number here.

pub const START: u64 = 1;

/// How many arrays are laid out in all, about.
pub const ARRAYS: usize = 20000;
