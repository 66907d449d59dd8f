//! Little-endian integers at a position of the metadata.
ghost use Rattle.std.specs.Prelude.{◌≡◌, ◌+◌, ◌*◌, ◌<◌, ◌≤◌, ◌^◌, length, IfOk, Ok, Result, ℕ, ◌-◌};
ghost use Rattle.std.specs.Int.{w8, w16, w32, w64};
ghost use Rattle.ipc_flatbuf.specs.Flatbuffers.{number_at, signed_at, spec_non_negative, spec_offset_at};

use crate::IpcReadError;

/// Returns the byte at a position.
///
/// # Errors
/// [`IpcReadError::Flatbuffer`] where the bytes end before it, as for all numbers below.
pub fn u8_at(bytes: &[u8], position: usize) -> Result<u8, IpcReadError>
    ensures { result ≡ number_at w8 bytes.now position }
{
    if position >= bytes.len() {
        return Err(IpcReadError::Flatbuffer);
    }
    let (_, rest) = bytes.split_at(position);
    Ok(u8::from_le_bytes([rest[0]]))
}

/// Returns the `u16` at a position.
pub fn u16_at(bytes: &[u8], position: usize) -> Result<u16, IpcReadError>
    ensures { result ≡ number_at w16 bytes.now position }
{
    if position > bytes.len() || bytes.len() - position < 2 {
        return Err(IpcReadError::Flatbuffer);
    }
    let (_, rest) = bytes.split_at(position);
    Ok(u16::from_le_bytes([rest[0], rest[1]]))
}

/// Returns the `u32` at a position.
pub fn u32_at(bytes: &[u8], position: usize) -> Result<u32, IpcReadError>
    ensures { result ≡ number_at w32 bytes.now position }
{
    if position > bytes.len() || bytes.len() - position < 4 {
        return Err(IpcReadError::Flatbuffer);
    }
    let (_, rest) = bytes.split_at(position);
    Ok(u32::from_le_bytes([rest[0], rest[1], rest[2], rest[3]]))
}

/// Returns the `u64` at a position.
pub fn u64_at(bytes: &[u8], position: usize) -> Result<u64, IpcReadError>
    ensures { result ≡ number_at w64 bytes.now position }
{
    if position > bytes.len() || bytes.len() - position < 8 {
        return Err(IpcReadError::Flatbuffer);
    }
    let (_, rest) = bytes.split_at(position);
    Ok(u64::from_le_bytes([
        rest[0], rest[1], rest[2], rest[3], rest[4], rest[5], rest[6], rest[7],
    ]))
}

/// Returns the `i16` at a position.
pub fn i16_at(bytes: &[u8], position: usize) -> Result<i16, IpcReadError>
    ensures { result ≡ signed_at w16 bytes.now position }
{
    Ok(u16_at(bytes, position)?.cast_signed())
}

/// Returns the `i32` at a position.
pub fn i32_at(bytes: &[u8], position: usize) -> Result<i32, IpcReadError>
    ensures { result ≡ signed_at w32 bytes.now position }
{
    Ok(u32_at(bytes, position)?.cast_signed())
}

/// Returns the `i64` at a position.
pub fn i64_at(bytes: &[u8], position: usize) -> Result<i64, IpcReadError>
    ensures { result ≡ signed_at w64 bytes.now position }
{
    Ok(u64_at(bytes, position)?.cast_signed())
}

/// Returns the number as a `usize`, or `error` where it is negative.
pub fn non_negative(error: IpcReadError, number: i64) -> Result<usize, IpcReadError>
    ensures { result ≡ spec_non_negative error number }
{
    if number < 0 {
        Err(error)
    } else {
        Ok(number as usize)
    }
}

/// Returns the position that the `uoffset_t` at a position refers to.
///
/// # Errors
/// [`IpcReadError::Flatbuffer`] where the bytes end before the offset. The target is not checked.
#[tactic(auto, unfolding(crate::specs::Flatbuffers::spec_offset_at))]
pub fn offset_at(bytes: &[u8], position: usize) -> Result<usize, IpcReadError>
    requires { length bytes.now < 2 ^ 32 }
    ensures { result ≡ spec_offset_at bytes.now position }
{
    let distance = u32_at(bytes, position)?;
    Ok(position + distance as usize)
}
