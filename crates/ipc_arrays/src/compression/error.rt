//! The errors of the codecs as errors of compressed buffers.
ghost use Rattle.std.specs.Prelude.{◌≡◌};
ghost use Rattle.ipc_arrays.specs.CompressionCodecs.{error_of_lz4, error_of_zstd};

use ipc_flatbuf::CompressionError;
use lz4_frame::Lz4Error;
use zstd_decode::ZstdError;

/// Returns the error of a buffer that an error of LZ4 is.
pub(crate) fn lz4_error(error: Lz4Error) -> CompressionError
    ensures { result ≡ error_of_lz4 error }
{
    match error {
        Lz4Error::Truncated => CompressionError::Truncated,
        Lz4Error::NotAFrame => CompressionError::Magic,
        Lz4Error::InvalidOffset | Lz4Error::BlockSize => CompressionError::Block,
        Lz4Error::HeaderChecksum | Lz4Error::BlockChecksum | Lz4Error::ContentChecksum => {
            CompressionError::Checksum
        }
        Lz4Error::SkippableFrame
        | Lz4Error::UnsupportedVersion
        | Lz4Error::ReservedBits
        | Lz4Error::DictionaryId => CompressionError::Unsupported,
        Lz4Error::TooLong | Lz4Error::ContentSize | Lz4Error::TrailingBytes => {
            CompressionError::Length
        }
        Lz4Error::Memory => CompressionError::Memory,
    }
}

/// Returns the error of a buffer that an error of Zstandard is.
pub(crate) fn zstd_error(error: ZstdError) -> CompressionError
    ensures { result ≡ error_of_zstd error }
{
    match error {
        ZstdError::Truncated => CompressionError::Truncated,
        ZstdError::NotAFrame => CompressionError::Magic,
        ZstdError::BlockType
        | ZstdError::BlockSize
        | ZstdError::FseTable
        | ZstdError::HuffmanTable
        | ZstdError::NoTable
        | ZstdError::Bitstream
        | ZstdError::Literals
        | ZstdError::Sequences
        | ZstdError::Offset => CompressionError::Block,
        ZstdError::ContentChecksum => CompressionError::Checksum,
        ZstdError::ReservedBit | ZstdError::DictionaryId | ZstdError::WindowSize => {
            CompressionError::Unsupported
        }
        ZstdError::TooLong | ZstdError::ContentSize => CompressionError::Length,
        ZstdError::Memory => CompressionError::Memory,
    }
}
