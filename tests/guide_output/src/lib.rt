//! Tests of `guide`: what its functions return, as `docs/GUIDE.md` quotes it. They are run, not proved.
#![tactic(auto)]

#[cfg(test)]
mod arrays;
#[cfg(test)]
mod builders;
#[cfg(test)]
mod columns;
#[cfg(test)]
mod expected;
#[cfg(test)]
mod files;
#[cfg(test)]
mod lines;
