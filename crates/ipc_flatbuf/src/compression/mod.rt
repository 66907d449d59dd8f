//! The compression of the buffers in the body of a record batch.

mod codec;
mod error;
mod reading;

pub use codec::CompressionCodec;
pub use error::CompressionError;
pub(crate) use reading::read_compression;
