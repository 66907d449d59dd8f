//! Tests of `ipc_io`: each public function, over readers and writers that fail, end early or return few bytes at a time.
#![tactic(auto)]

mod delta_files;
mod dictionary_writers;
mod examples;
mod fake_io;
mod file_readers;
mod file_writers;
mod metadata_readers;
mod readers;
mod samples;
mod writers;
