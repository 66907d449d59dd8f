//! The buffers of compressed record batches, as the Arrow IPC format has them (Message.fbs, table `BodyCompression`).

mod body;
mod buffer;
mod compress;
mod error;
pub mod laws;

pub use body::plain_body;
pub use buffer::decompress_buffer;
pub use compress::compress_buffer;
