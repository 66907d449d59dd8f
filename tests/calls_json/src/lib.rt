//! Tests of `json_read` and of `cli_write` over lines of JSON.
#![tactic(auto)]

mod decimals;
mod floats;
mod imports;
mod lines;
