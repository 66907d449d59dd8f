//! Flatbuffer tables and their fields.
ghost use Rattle.std.specs.Prelude.{◌≡◌, ◌+◌, ◌*◌, ◌<◌, ◌≤◌, ◌^◌, length, IfOk, Ok, Result, ℕ, ◌-◌};
ghost use Rattle.std.specs.Int.{w8, w16, w32, w64};
ghost use Rattle.ipc_flatbuf.specs.Flatbuffers.{number_at, signed_at, spec_back_from, spec_table_at, spec_field_position, field, spec_offset_field};

use crate::IpcReadError;
use crate::numbers::{i16_at, i32_at, i64_at, offset_at, u8_at, u16_at, u32_at};

/// The position of a flatbuffer table, and the position and size in bytes of its vtable.
#[derive(Clone, Copy, Debug, PartialEq, Eq)]
pub struct FlatbufferTable {
    pub at: usize,
    pub vtable: usize,
    pub size: usize,
}

#[tactic(auto, unfolding(crate::specs::Flatbuffers::spec_back_from))]
fn back_from(position: usize, distance: u32) -> Result<usize, IpcReadError>
    requires { position < 2 ^ 32 }
    ensures { result ≡ spec_back_from position distance }
{
    let distance = distance as usize;
    if distance < 1 << 31 {
        if distance <= position {
            Ok(position - distance)
        } else {
            Err(IpcReadError::Flatbuffer)
        }
    } else {
        Ok(position + ((1 << 32) - distance))
    }
}

/// Returns the table at a position.
///
/// # Errors
/// [`IpcReadError::Flatbuffer`] where the vtable is not within the bytes, or its size is odd or less than 4.
#[tactic(auto, unfolding(crate::specs::Flatbuffers::spec_table_at))]
pub fn table_at(bytes: &[u8], position: usize) -> Result<FlatbufferTable, IpcReadError>
    requires { length bytes.now < 2 ^ 32 }
    ensures value { result ≡ spec_table_at bytes.now position }
    ensures within { IfOk result (λ table. (table.at < 2 ^ 32) × (table.vtable < 2 ^ 32)) }
{
    let back = u32_at(bytes, position)?;
    let vtable = back_from(position, back)?;
    let size = u16_at(bytes, vtable)? as usize;
    if size >= 4 && size % 2 == 0 && vtable + size <= bytes.len() {
        Ok(FlatbufferTable {
            at: position,
            vtable,
            size,
        })
    } else {
        Err(IpcReadError::Flatbuffer)
    }
}

/// Returns the position of a field of a table, `None` where the field is absent.
///
/// # Errors
/// [`IpcReadError::Flatbuffer`] where the vtable entry is not within the bytes, or is 1, 2 or 3.
#[tactic(auto, unfolding(crate::specs::Flatbuffers::spec_field_position))]
pub fn field_position(
    bytes: &[u8],
    table: FlatbufferTable,
    id: u8,
) -> Result<Option<usize>, IpcReadError>
    requires at { table.at < 2 ^ 32 }
    requires vtable { table.vtable < 2 ^ 32 }
    ensures { result ≡ spec_field_position bytes.now table id }
{
    let entry = 2 * id as usize + 4;
    if entry < table.size {
        let distance = u16_at(bytes, table.vtable + entry)?;
        if distance == 0 {
            Ok(None)
        } else if distance < 4 {
            Err(IpcReadError::Flatbuffer)
        } else {
            Ok(Some(table.at + distance as usize))
        }
    } else {
        Ok(None)
    }
}

/// Returns the `u8` in a field, 0 where the field is absent.
///
/// # Errors
/// [`IpcReadError::Flatbuffer`] where the entry or the value is invalid, as for all fields below.
pub fn u8_field(bytes: &[u8], table: FlatbufferTable, id: u8) -> Result<u8, IpcReadError>
    requires at { table.at < 2 ^ 32 }
    requires vtable { table.vtable < 2 ^ 32 }
    ensures { result ≡ field (number_at w8 bytes.now) 0 bytes.now table id }
{
    match field_position(bytes, table, id)? {
        None => Ok(0),
        Some(position) => u8_at(bytes, position),
    }
}

/// Returns the `i16` in a field, `default` where the field is absent.
pub fn i16_field(
    bytes: &[u8],
    table: FlatbufferTable,
    id: u8,
    default: i16,
) -> Result<i16, IpcReadError>
    requires at { table.at < 2 ^ 32 }
    requires vtable { table.vtable < 2 ^ 32 }
    ensures { result ≡ field (signed_at w16 bytes.now) default bytes.now table id }
{
    match field_position(bytes, table, id)? {
        None => Ok(default),
        Some(position) => i16_at(bytes, position),
    }
}

/// Returns the `i32` in a field, `default` where the field is absent.
pub fn i32_field(
    bytes: &[u8],
    table: FlatbufferTable,
    id: u8,
    default: i32,
) -> Result<i32, IpcReadError>
    requires at { table.at < 2 ^ 32 }
    requires vtable { table.vtable < 2 ^ 32 }
    ensures { result ≡ field (signed_at w32 bytes.now) default bytes.now table id }
{
    match field_position(bytes, table, id)? {
        None => Ok(default),
        Some(position) => i32_at(bytes, position),
    }
}

/// Returns the `i64` in a field, `default` where the field is absent.
pub fn i64_field(
    bytes: &[u8],
    table: FlatbufferTable,
    id: u8,
    default: i64,
) -> Result<i64, IpcReadError>
    requires at { table.at < 2 ^ 32 }
    requires vtable { table.vtable < 2 ^ 32 }
    ensures { result ≡ field (signed_at w64 bytes.now) default bytes.now table id }
{
    match field_position(bytes, table, id)? {
        None => Ok(default),
        Some(position) => i64_at(bytes, position),
    }
}

/// Returns the position that the offset in a field refers to, `None` where the field is absent.
pub fn offset_field(
    bytes: &[u8],
    table: FlatbufferTable,
    id: u8,
) -> Result<Option<usize>, IpcReadError>
    requires length { length bytes.now < 2 ^ 32 }
    requires at { table.at < 2 ^ 32 }
    requires vtable { table.vtable < 2 ^ 32 }
    ensures { result ≡ spec_offset_field bytes.now table id }
{
    match field_position(bytes, table, id)? {
        None => Ok(None),
        Some(position) => Ok(Some(offset_at(bytes, position)?)),
    }
}
