//! Streams, files and schemas that are read and written: each allocation fails once.
#![tactic(auto)]

mod allocations;
mod compressed;
mod delta_files;
mod dictionaries_written;
mod dictionary_streams;
mod files_read;
mod nested;
mod schemas;
pub mod streams;
mod views;
