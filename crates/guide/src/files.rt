//! Record batches as files and streams of the Arrow IPC format.
pub mod in_memory;
pub mod json_lines;
pub mod on_disk;
pub mod orders;
pub mod streaming;
