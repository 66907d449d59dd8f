//! Encoding of buffers.
ghost use Rattle.std.specs.Prelude.{◌≡◌, ◌++◌, OnOk, OnErr};
ghost use Rattle.ipc_arrays.specs.WrittenBuffers.{after_length, AppendsBuffer};

use lz4_frame::encode_frame;
use std::alloc::{AllocError, Global};

/// Appends a stated length and a content. After an error `out` is unchanged.
#[tactic(auto, unfolding(crate::specs::WrittenBuffers::after_length))]
fn append_after_length(out: &mut Vec<u8>, length: i64, content: &[u8]) -> Result<(), AllocError>
    ensures ok { OnOk result (out.new.items ≡ out.old.items ++ after_length length content.now) }
    ensures err { OnErr result (out.new.items ≡ out.old.items) }
{
    let start = out.len();
    out.extend_from_slice(&length.to_le_bytes())?;
    let appended = out.extend_from_slice(content);
    if appended.is_err() {
        out.truncate(start);
    }
    appended
}

/// Appends the buffer of a compressed body, of the codec LZ4, that decodes to `content`.
///
/// An empty content is an empty buffer. Another one is its length and an LZ4 frame, or -1 and the content itself where the frame is not
/// shorter. After an error `out` is unchanged.
///
/// # Errors
/// `AllocError` where an allocation fails.
pub fn compress_buffer(alloc: Global, content: &[u8], out: &mut Vec<u8>) -> Result<(), AllocError>
    ensures ok { OnOk result (AppendsBuffer out.old.items out.new.items content.now) }
    ensures err { OnErr result (out.new.items ≡ out.old.items) }
{
    if content.is_empty() {
        return Ok(());
    }
    let frame = encode_frame(alloc, content)?;
    if frame.len() < content.len() && content.len() < 1 << 63 {
        append_after_length(out, content.len() as i64, &frame)
    } else {
        append_after_length(out, -1, content)
    }
}
