//! Bitmaps in a body, least significant bit first (Arrow: "Validity bitmaps").
ghost use Rattle.std.specs.Prelude.{◌≡◌, ◌<◌, ◌≤◌, ◌*◌, ◌++◌, length, take, IfOk, OnOk, Ok};
ghost use Rattle.ipc_flatbuf.specs.ReadResults.{ReturnsOrRunsOut};
ghost use Rattle.nest_memory.specs.Bits.{bits_from};
ghost use Rattle.nest_memory.specs.Sublist.{sublist};
ghost use Rattle.ipc_arrays.specs.Decoding.{decoded_bits};
ghost use Rattle.ipc_arrays.specs.Bitmaps.{byte_value, bitmap_bytes};
ghost use Rattle.ipc_arrays.specs.BodyBuffers.{padded};

use crate::bytes::{copy_first, pad};
use ipc_flatbuf::IpcReadError;
use nest_memory::bitmap::immutable::Bitmap;
use nest_memory::error::Error;
use std::alloc::{AllocError, Global};

fn bitmap_of(alloc: Global, bytes: Vec<u8>, slots: usize) -> Result<Bitmap, IpcReadError>
    requires { slots ≤ 8 * length bytes.items }
    ensures read { ReturnsOrRunsOut (λ b. b) result (Ok (bits_from bytes.items 0 slots)) }
    ensures slots { IfOk result (λ b. length b ≡ slots) }
{
    match Bitmap::try_new(alloc, bytes, slots) {
        Ok(bits) => Ok(bits),
        Err(Error::Memory(_)) => Err(IpcReadError::Memory),
        Err(_) => unreachable!(),
    }
}

/// Reads a bitmap of `slots` bits. Only the bytes that hold these bits are copied.
///
/// # Errors
///
/// `IpcReadError::BufferTooShort` if there are fewer than `slots` bits, and `IpcReadError::Memory` if an allocation fails.
#[tactic(auto, unfolding(crate::specs::Decoding::decoded_bits))]
pub(crate) fn read_bits(alloc: Global, slots: usize, bytes: &[u8]) -> Result<Bitmap, IpcReadError>
    ensures read { ReturnsOrRunsOut (λ b. b) result (decoded_bits slots bytes.now) }
    ensures slots { IfOk result (λ b. length b ≡ slots) }
{
    let needed = slots.div_ceil(8);
    if needed > bytes.len() {
        return Err(IpcReadError::BufferTooShort);
    }
    let copy = copy_first(alloc, needed, bytes)?;
    bitmap_of(alloc, copy, slots)
}

// Returns the byte that holds the bits from index `first` on.
fn byte_of(bits: &Bitmap, first: usize) -> u8
    requires { first < length bits.now }
    ensures { result ≡ byte_value (sublist bits.now first 8) }
{
    let count = (bits.len() - first).min(8);
    let mut byte = 0;
    for i in 0..count {
        byte = 2 * byte + bits.get_bit(first + (count - 1 - i)) as u8;
    }
    byte
}

// Appends the bytes of a bitmap; unused bits of the last byte are 0.
fn write_bits(out: &mut Vec<u8>, bits: &Bitmap) -> Result<(), AllocError>
    ensures { OnOk result (out.new.items ≡ out.old.items ++ bitmap_bytes bits.now) }
{
    for j in 0..bits.len().div_ceil(8) {
        out.push(byte_of(bits, 8 * j))?;
    }
    Ok(())
}

/// Appends a bitmap as a padded buffer.
#[tactic(auto, unfolding(crate::specs::BodyBuffers::padded))]
pub(crate) fn write_bitmap(out: &mut Vec<u8>, bits: &Bitmap) -> Result<(), AllocError>
    ensures { OnOk result (out.new.items ≡ out.old.items ++ padded (bitmap_bytes bits.now)) }
{
    let start = out.len();
    write_bits(out, bits)?;
    pad(out, start)
}
