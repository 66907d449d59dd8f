//! The reader of the compression of a record batch.
ghost use Rattle.std.specs.Prelude.{◌≡◌, ◌<◌, ◌^◌, length};
ghost use Rattle.ipc_flatbuf.specs.Compression.{spec_codec_of, spec_check_method, compression_at};

use crate::compression::codec::CompressionCodec;
use crate::{IpcReadError, read_table, u8_field};

fn codec_of(number: u8) -> Result<CompressionCodec, IpcReadError>
    ensures { result ≡ spec_codec_of number }
{
    if number == 0 {
        Ok(CompressionCodec::Lz4Frame)
    } else if number == 1 {
        Ok(CompressionCodec::Zstd)
    } else {
        Err(IpcReadError::UnsupportedCompression)
    }
}

fn check_method(number: u8) -> Result<(), IpcReadError>
    ensures { result ≡ spec_check_method number }
{
    if number == 0 {
        Ok(())
    } else {
        Err(IpcReadError::UnsupportedCompression)
    }
}

/// Returns the codec in the table `BodyCompression` at a position, and the budget left. A batch without the table is not compressed.
///
/// # Errors
/// [`IpcReadError::Flatbuffer`] and [`IpcReadError::ApparentSize`], [`IpcReadError::UnsupportedCompression`] where the
/// codec or the method is unknown.
#[tactic(auto, unfolding(crate::specs::Compression::compression_at))]
pub(crate) fn read_compression(
    bytes: &[u8],
    position: Option<usize>,
    left: usize,
) -> Result<(Option<CompressionCodec>, usize), IpcReadError>
    requires { length bytes.now < 2 ^ 32 }
    ensures { result ≡ compression_at bytes.now position left }
{
    match position {
        None => Ok((None, left)),
        Some(position) => {
            let (table, left) = read_table(bytes, position, left)?;
            let codec = codec_of(u8_field(bytes, table, 0)?)?;
            check_method(u8_field(bytes, table, 1)?)?;
            Ok((Some(codec), left))
        }
    }
}
