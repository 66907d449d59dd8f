//! Tables, vectors and strings, which are charged to the budget of the metadata.
ghost use Rattle.std.specs.Prelude.{◌≡◌, ◌+◌, ◌*◌, ◌<◌, ◌≤◌, ◌^◌, length, IfOk, Ok, Result, ℕ, ◌-◌};
ghost use Rattle.std.specs.Int.{w8, w16, w32, w64};
ghost use Rattle.ipc_flatbuf.specs.ReadResults.{Returns};
ghost use Rattle.ipc_flatbuf.specs.Flatbuffers.{spec_charge_budget, spec_read_table, spec_read_vector, spec_read_string, spec_utf8_of, spec_str_at, spec_items_at};

use crate::IpcReadError;
use crate::numbers::u32_at;
use crate::tables::{FlatbufferTable, table_at};

/// The position of the first item of a flatbuffer vector, and the number of items.
#[derive(Clone, Copy, Debug, PartialEq, Eq)]
pub struct VectorItems {
    pub first: usize,
    pub count: usize,
}

/// Returns the budget without a cost in bytes.
///
/// # Errors
/// [`IpcReadError::ApparentSize`] where the cost exceeds the budget `left`.
#[tactic(auto, unfolding(crate::specs::Flatbuffers::spec_charge_budget))]
pub fn charge_budget(left: usize, cost: usize) -> Result<usize, IpcReadError>
    ensures { result ≡ spec_charge_budget left cost }
{
    if cost <= left {
        Ok(left - cost)
    } else {
        Err(IpcReadError::ApparentSize)
    }
}

/// Returns the table at a position and the budget left, of which a table costs 8 bytes.
///
/// # Errors
/// [`IpcReadError::Flatbuffer`] as [`table_at`], [`IpcReadError::ApparentSize`] where the budget does not suffice.
#[tactic(auto, unfolding(crate::specs::Flatbuffers::spec_read_table))]
pub fn read_table(
    bytes: &[u8],
    position: usize,
    left: usize,
) -> Result<(FlatbufferTable, usize), IpcReadError>
    requires { length bytes.now < 2 ^ 32 }
    ensures value { result ≡ spec_read_table bytes.now position left }
    ensures within { IfOk result (λ x. (x.0.at < 2 ^ 32) × (x.0.vtable < 2 ^ 32)) }
{
    let table = table_at(bytes, position)?;
    let rest = charge_budget(left, 8)?;
    Ok((table, rest))
}

/// Returns the vector at a position, whose items have `size` bytes each, and the budget left.
///
/// # Errors
/// [`IpcReadError::Flatbuffer`] where the vector is not within the bytes, [`IpcReadError::ApparentSize`] where the
/// budget does not suffice.
#[tactic(auto, unfolding(crate::specs::Flatbuffers::spec_read_vector))]
pub fn read_vector(
    size: u8,
    bytes: &[u8],
    position: usize,
    left: usize,
) -> Result<(VectorItems, usize), IpcReadError>
    requires { length bytes.now < 2 ^ 32 }
    ensures value { result ≡ spec_read_vector size bytes.now position left }
    ensures within { IfOk result (λ x. x.0.first + x.0.count * size ≤ length bytes.now) }
{
    let count = u32_at(bytes, position)? as usize;
    let taken = count * size as usize;
    if position + 4 + taken <= bytes.len() {
        let rest = charge_budget(left, 4 + taken)?;
        Ok((
            VectorItems {
                first: position + 4,
                count,
            },
            rest,
        ))
    } else {
        Err(IpcReadError::Flatbuffer)
    }
}

/// Returns the bytes as a string, with the budget left.
fn utf8_of(bytes: &[u8], left: usize) -> Result<(&str, usize), IpcReadError>
    ensures { Returns (λ x. (x.0.now, x.1)) result (spec_utf8_of bytes.now left) }
{
    match str::from_utf8(bytes) {
        Ok(text) => Ok((text, left)),
        Err(_) => Err(IpcReadError::MetadataUtf8),
    }
}

/// Returns the string at a position and the budget left.
///
/// # Errors
/// As [`read_vector`], and [`IpcReadError::MetadataUtf8`] where the bytes are not UTF-8.
#[tactic(auto, unfolding(crate::specs::Flatbuffers::spec_read_string))]
pub fn read_string(
    bytes: &[u8],
    position: usize,
    left: usize,
) -> Result<(&str, usize), IpcReadError>
    requires { length bytes.now < 2 ^ 32 }
    ensures { Returns (λ x. (x.0.now, x.1)) result (spec_read_string bytes.now position left) }
{
    let (items, rest) = read_vector(1, bytes, position, left)?;
    let (_, from) = bytes.split_at(items.first);
    let (text, _) = from.split_at(items.count);
    utf8_of(text, rest)
}

/// Returns the string at a position, `""` where it is absent, and the budget left.
#[tactic(auto, unfolding(crate::specs::Flatbuffers::spec_str_at))]
pub fn str_at(
    bytes: &[u8],
    position: Option<usize>,
    left: usize,
) -> Result<(&str, usize), IpcReadError>
    requires { length bytes.now < 2 ^ 32 }
    ensures { Returns (λ x. (x.0.now, x.1)) result (spec_str_at bytes.now position left) }
{
    match position {
        None => Ok(("", left)),
        Some(position) => read_string(bytes, position, left),
    }
}

/// Returns the vector at a position, an empty one where it is absent, and the budget left.
#[tactic(auto, unfolding(crate::specs::Flatbuffers::spec_items_at))]
pub fn items_at(
    size: u8,
    bytes: &[u8],
    position: Option<usize>,
    left: usize,
) -> Result<(VectorItems, usize), IpcReadError>
    requires { length bytes.now < 2 ^ 32 }
    ensures value { result ≡ spec_items_at size bytes.now position left }
    ensures within { IfOk result (λ x. x.0.first + x.0.count * size ≤ length bytes.now) }
{
    match position {
        None => Ok((VectorItems { first: 0, count: 0 }, left)),
        Some(position) => read_vector(size, bytes, position, left),
    }
}
