//! Tests of the text of single values.
#![tactic(auto)]

#[cfg(test)]
mod floats;
#[cfg(test)]
mod texts;
