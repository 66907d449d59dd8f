//! Buffers of compressed record batches: batches of Arrow C++, errors, and what is written.
#![tactic(auto)]

#[cfg(test)]
mod batches;
#[cfg(test)]
mod bodies;
#[cfg(test)]
mod errors;
#[cfg(test)]
mod written;
