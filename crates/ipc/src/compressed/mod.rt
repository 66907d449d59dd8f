//! Writes streams and files whose record batches have compressed buffers.
//!
//! Record batches are encoded without compression, and then the buffers of each message are compressed. A reader reads the same from both.
//! Source: Columnar format, "Compression"; Message.fbs, table `BodyCompression`.

mod blocks;
mod body;
mod files;
pub mod laws;
mod messages;
mod streams;

pub use body::compress_body;
pub use files::{encode_compressed_file_batch, write_compressed_file};
pub use streams::{encode_compressed_stream_batch, write_compressed_stream};
