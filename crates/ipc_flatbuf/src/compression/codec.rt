//! The codecs of compressed buffers.
ghost use Rattle.std.specs.Prelude.{◌≡◌};
ghost use Rattle.ipc_flatbuf.specs.Compression.{codec_number};

/// The codec of the buffers of a record batch (Message.fbs, enum `CompressionType`).
#[derive(Clone, Copy, Debug, PartialEq, Eq)]
pub enum CompressionCodec {
    /// Each buffer is an LZ4 frame.
    Lz4Frame,
    /// Each buffer is one or more Zstandard frames.
    Zstd,
}

impl CompressionCodec {
    /// Returns the number of the codec in `CompressionType`.
    pub fn number(self) -> u8
        ensures { result ≡ codec_number self }
    {
        match self {
            CompressionCodec::Lz4Frame => 0,
            CompressionCodec::Zstd => 1,
        }
    }
}
