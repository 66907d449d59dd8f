//! Zstandard frames: samples of other encoders, damaged and changed frames, errors, limits and FSE tables.
#![tactic(auto)]

#[cfg(test)]
mod changed;
#[cfg(test)]
mod compressed;
#[cfg(test)]
mod damaged;
#[cfg(test)]
mod errors;
#[cfg(test)]
mod samples;
#[cfg(test)]
mod tables;
