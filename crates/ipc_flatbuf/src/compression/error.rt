//! The error of compressed buffers.
ghost use Rattle.std.specs.Prelude.{◌≡◌};

use std::alloc::{AllocError, AllocFailed};

/// Error returned by the decoders: the first in the order of the buffers and of their bytes, or `Memory` where an allocation fails.
#[derive(Clone, Copy, Debug, PartialEq, Eq, thiserror::Error)]
pub enum CompressionError {
    /// The offset or length of a buffer is negative, or the buffer ends after the body.
    #[error("buffer is outside of the message body")]
    BufferRange,
    /// A buffer that is not empty has fewer than eight bytes, or the bytes end inside of a frame.
    #[error("compressed buffer is truncated")]
    Truncated,
    /// The bytes do not begin with the magic number of a frame of the codec.
    #[error("compressed buffer is not a frame of its codec")]
    Magic,
    /// A block of a frame cannot be decoded.
    #[error("block of a compressed buffer is invalid")]
    Block,
    /// A checksum differs.
    #[error("checksum of a compressed buffer differs")]
    Checksum,
    /// A frame has a feature that is not supported, as a dictionary.
    #[error("compressed buffer has a feature that is not supported")]
    Unsupported,
    /// A buffer does not decode to the length that it states, states a negative length other than -1, or has bytes after its LZ4 frame.
    #[error("compressed buffer does not decode to the length that it states")]
    Length,
    /// An allocation failed.
    #[error("out of memory")]
    Memory,
}

impl From<AllocError> for CompressionError {
    ghost use Rattle.ipc_flatbuf.specs.declared.compression.error.CompressionError.TheVariants.{Memory};

    ghost from_gives = { λ _ e. e ≡ Memory };

    fn from(_refused: AllocError) -> CompressionError {
        CompressionError::Memory
    }
}

impl<T: Drop> From<AllocFailed<T>> for CompressionError {
    ghost use Rattle.ipc_flatbuf.specs.declared.compression.error.CompressionError.TheVariants.{Memory};

    ghost from_gives = { λ _ e. e ≡ Memory };

    fn from(_refused: AllocFailed<T>) -> CompressionError {
        CompressionError::Memory
    }
}
