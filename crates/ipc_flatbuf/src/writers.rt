//! Writers of the parts of flatbuffers.
ghost use Rattle.std.specs.Prelude.{◌≡◌, ◌<◌, ◌≤◌, ◌^◌, ◌+◌, ◌*◌, ◌++◌, length, OnOk, IfErr, true};
ghost use Rattle.ipc_flatbuf.specs.PartBytes.{i32_bytes, i64_bytes, u32_bytes, padding_zeros, string_bytes, offsets_size, offsets, concatenated, table_vector_bytes, bytes_of_each};
ghost use Rattle.std.specs.Str.{is_utf8};
ghost use Rattle.ipc_flatbuf.specs.WriteErrors.{IsSizeError};

use crate::IpcWriteError;
use std::alloc::AllocError;

/// Appends an `i32`, little-endian.
#[tactic(auto, unfolding(crate::specs::PartBytes::i32_bytes))]
pub fn write_i32(out: &mut Vec<u8>, n: i32) -> Result<(), AllocError>
    ensures { OnOk result (out.new.items ≡ out.old.items ++ i32_bytes n) }
{
    out.extend_from_slice(&n.to_le_bytes())
}

/// Appends an `i64`, little-endian.
#[tactic(auto, unfolding(crate::specs::PartBytes::i64_bytes))]
pub fn write_i64(out: &mut Vec<u8>, n: i64) -> Result<(), AllocError>
    ensures { OnOk result (out.new.items ≡ out.old.items ++ i64_bytes n) }
{
    out.extend_from_slice(&n.to_le_bytes())
}

/// Appends a `u32`, little-endian.
#[tactic(auto, unfolding(crate::specs::PartBytes::u32_bytes))]
pub fn write_u32(out: &mut Vec<u8>, n: u32) -> Result<(), AllocError>
    ensures { OnOk result (out.new.items ≡ out.old.items ++ u32_bytes n) }
{
    out.extend_from_slice(&n.to_le_bytes())
}

/// Appends up to 8 zero bytes.
pub fn write_zeros(out: &mut Vec<u8>, count: usize) -> Result<(), AllocError>
    requires { count < 9 }
    ensures { OnOk result (out.new.items ≡ out.old.items ++ padding_zeros count) }
{
    let eight = [0u8, 0, 0, 0, 0, 0, 0, 0];
    out.extend_from_slice(&eight[..count])
}

/// Appends the offset of a table that is `head` bytes into a part, which begins `distance` bytes after the offset.
///
/// # Errors
/// [`IpcWriteError::Size`] where the distance is 2^31 or more.
pub fn write_offset(out: &mut Vec<u8>, distance: usize, head: u8) -> Result<(), IpcWriteError>
    ensures ok { OnOk result (out.new.items ≡ out.old.items ++ u32_bytes (distance + head)) }
    ensures small { OnOk result (distance < 2 ^ 31) }
    ensures size { IfErr result (λ why. IsSizeError why distance) }
{
    if distance >= 1 << 31 {
        return Err(IpcWriteError::Size);
    }
    write_u32(out, (distance + head as usize) as u32)?;
    Ok(())
}

/// Appends a string: its length, its bytes, and 1 to 8 zeros up to a multiple of 8 bytes.
///
/// # Errors
/// [`IpcWriteError::Size`] where the string has 2^31 bytes or more.
#[tactic(auto, unfolding(crate::specs::PartBytes::string_bytes))]
pub fn write_string(out: &mut Vec<u8>, text: &str) -> Result<(), IpcWriteError>
    ensures ok { OnOk result (out.new.items ≡ out.old.items ++ string_bytes text.now) }
    ensures utf8 { OnOk result (is_utf8 text.now ≡ true) }
    ensures size { IfErr result (λ why. IsSizeError why (length text.now)) }
{
    if text.len() >= 1 << 31 {
        return Err(IpcWriteError::Size);
    }
    write_u32(out, text.len() as u32)?;
    out.extend_from_slice(text.as_bytes())?;
    write_zeros(out, 8 - (text.len() + 4) % 8)?;
    Ok(())
}

/// Appends the offset of the table in each of `bodies`, `head` bytes into it.
fn write_offsets(
    out: &mut Vec<u8>,
    head: u8,
    distance: usize,
    bodies: &[Vec<u8>],
) -> Result<(), IpcWriteError>
    requires room { 4 * length bodies.now ≤ distance }
    requires small { distance < 2 ^ 63 }
    ensures ok { OnOk result (out.new.items ≡ out.old.items ++ offsets head distance (bytes_of_each bodies.now)) }
    ensures size { IfErr result (λ why. IsSizeError why (distance + length (concatenated (bytes_of_each bodies.now)))) }
{
    let mut distance = distance;
    for body in bodies {
        write_offset(out, distance, head)?;
        distance = distance + body.len() - 4;
    }
    Ok(())
}

/// Appends the bytes of each part in turn.
pub fn write_each(out: &mut Vec<u8>, bodies: &[Vec<u8>]) -> Result<(), AllocError>
    ensures { OnOk result (out.new.items ≡ out.old.items ++ concatenated (bytes_of_each bodies.now)) }
{
    for body in bodies {
        out.extend_from_slice(body)?;
    }
    Ok(())
}

/// Appends a vector of tables: the offsets, zeros up to a multiple of 8 bytes, and the bodies.
///
/// Each table is `head` bytes into its body.
///
/// # Errors
/// [`IpcWriteError::Size`] where the number of tables or the distance to one is 2^31 or more.
pub fn write_tables(out: &mut Vec<u8>, head: u8, bodies: &[Vec<u8>]) -> Result<(), IpcWriteError>
    ensures ok { OnOk result (out.new.items ≡ out.old.items ++ table_vector_bytes head (bytes_of_each bodies.now)) }
    ensures size { IfErr result (λ why. IsSizeError why (length (table_vector_bytes head (bytes_of_each bodies.now)))) }
{
    let count = bodies.len();
    if count >= 1 << 31 {
        return Err(IpcWriteError::Size);
    }
    let row = 8 * (count / 2 + 1);
    write_u32(out, count as u32)?;
    write_offsets(out, head, row - 4, bodies)?;
    write_zeros(out, row - (4 + 4 * count))?;
    write_each(out, bodies)?;
    Ok(())
}
