//! The LZ4 block and frame formats: samples of other encoders, damaged frames, limits, and what is written.
#![tactic(auto)]

#[cfg(test)]
mod contents;
#[cfg(test)]
mod damaged;
#[cfg(test)]
mod errors;
#[cfg(test)]
mod limits;
#[cfg(test)]
mod samples;
#[cfg(test)]
mod written;
