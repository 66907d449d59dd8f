//! Offsets into bytes, shared by binary and UTF-8 arrays.
ghost use Rattle.std.specs.Prelude.{◌≡◌, ◌+◌, ◌↔◌, ◌≤◌, ◌<◌, ◌^◌, [], IfOk, IsOkUnless, IsTrue, IsUtf8, alloc_error, length, replicate, suc};
ghost use Rattle.nest_model.specs.Fits.{covered as covered_lem};
ghost use Rattle.nest_flat.specs.Texts.{AreEdges};
ghost use Rattle.nest_flat.specs.Words.{AreOffsets, EachUtf8, Memory, begin, sublist, extent, last_of, count_rows};

use nest_memory::buffer::Buffer;
use nest_memory::error::Error;
use nest_memory::offset::Offset;
use nest_memory::offsets::{Offsets, OffsetsBuffer};
use simdutf8::compat::from_utf8;
use std::alloc::Global;
use std::str;

/// Returns the last offset.
pub(crate) fn last<O: Offset>(offsets: &OffsetsBuffer<O>) -> usize
    ensures last { result ≡ last_of offsets.now }
    ensures known { AreOffsets offsets.now }
{
    offsets.known();
    offsets.last()
}

/// Returns the bytes of slot `i`, from offset `i` to offset `i + 1`.
pub(crate) fn span<'a, O: Offset>(
    offsets: &OffsetsBuffer<O>,
    bytes: &'a Buffer<u8>,
    i: usize,
) -> &'a [u8]
    requires fits { last_of offsets.now ≤ length bytes.now }
    requires within { i < count_rows offsets.now }
    ensures { result.now ≡ sublist bytes.now (begin offsets.now i) (extent offsets.now i) }
{
    offsets.known();
    let (start, end) = offsets.start_end(i);
    &bytes.as_slice()[start..end]
}

/// Returns valid UTF-8 bytes as a string. For the few bytes of one slot.
pub(crate) fn text_of(bytes: &[u8]) -> &str
    requires { IsUtf8 bytes.now }
    ensures { result.now ≡ bytes.now }
{
    match str::from_utf8(bytes) {
        Ok(text) => text,
        Err(_) => unreachable!(),
    }
}

/// Returns valid UTF-8 bytes as a string. For the bytes of many slots.
pub(crate) fn long_text_of(bytes: &[u8]) -> &str
    requires { IsUtf8 bytes.now }
    ensures { result.now ≡ bytes.now }
{
    match from_utf8(bytes) {
        Ok(text) => text,
        Err(_) => unreachable!(),
    }
}

/// Returns the bytes from the first offset to the last.
fn covered<'a, O: Offset>(offsets: &OffsetsBuffer<O>, bytes: &'a Buffer<u8>) -> &'a [u8]
    requires { last_of offsets.now ≤ length bytes.now }
    ensures { result.now ≡ covered_lem offsets.now bytes.now }
{
    offsets.known();
    let first = offsets.first();
    let last = offsets.last();
    &bytes.as_slice()[first..last]
}

/// Returns whether every offset is at a character boundary of the string between the first and the last offset.
fn are_edges<O: Offset>(offsets: &OffsetsBuffer<O>, text: &str) -> bool
    ensures { IsTrue result ↔ AreEdges offsets.now text.now }
{
    offsets.known();
    let first = offsets.first();
    for i in 0..offsets.len_proxy() {
        let (_, end) = offsets.start_end(i);
        if !text.is_char_boundary(end - first) {
            return false;
        }
    }
    true
}

/// Returns whether the bytes of each slot are UTF-8. The bytes of all slots are validated as one string, in which
/// every offset must be at a character boundary.
pub(crate) fn are_texts<O: Offset>(offsets: &OffsetsBuffer<O>, bytes: &Buffer<u8>) -> bool
    requires { last_of offsets.now ≤ length bytes.now }
    ensures { IsTrue result ↔ EachUtf8 offsets.now bytes.now }
{
    offsets.known();
    match from_utf8(covered(offsets, bytes)) {
        Ok(text) => are_edges(offsets, text),
        Err(_) => false,
    }
}

/// Returns the offsets and the bytes of `length` empty slots.
pub(crate) fn no_bytes<O: Offset>(
    alloc: Global,
    length: usize,
) -> Result<(OffsetsBuffer<O>, Buffer<u8>), Error>
    requires { length + 1 < 2 ^ 64 }
    ensures ok { IfOk result (λ p. (p.0 ≡ replicate (suc length) 0) × (p.1 ≡ [])) }
    ensures err { IsOkUnless result (Memory alloc_error) }
{
    let mut offsets = Offsets::new_zeroed(alloc, length)?;
    Ok((offsets.freeze()?, Buffer::new(alloc)?))
}
