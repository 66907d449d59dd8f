//! The views of a view array (Arrow: "Variable-size Binary View Layout").
ghost use Rattle.std.specs.Prelude.{◌≡◌, ◌+◌, ◌*◌, ◌<◌, ◌≤◌, length, map, IfOk};
ghost use Rattle.std.specs.Int.{w32, from_le_bytes};
ghost use Rattle.ipc_flatbuf.specs.ReadResults.{Returns};
ghost use Rattle.nest_flat.specs.Words.{ValidityCovers};
ghost use Rattle.ipc_arrays.specs.Views.{view_number, variadic_slice, long_value, spec_view_value, viewed_string};

use ipc_flatbuf::IpcReadError;
use nest_flat::validity;
use nest_memory::bitmap::immutable::Bitmap;

// Returns a number of a view, which must not be negative.
#[tactic(auto, unfolding(crate::specs::Views::view_number))]
fn number_at(view: &[u8], position: usize) -> Result<usize, IpcReadError>
    requires { position + 4 ≤ length view.now }
    ensures { result ≡ view_number view.now position }
{
    let (_, from) = view.split_at(position);
    let number = i32::from_le_bytes([from[0], from[1], from[2], from[3]]);
    if number < 0 {
        Err(IpcReadError::View)
    } else {
        Ok(number as usize)
    }
}

// Returns `size` bytes of a variadic buffer.
#[tactic(auto, unfolding(crate::specs::Views::variadic_slice))]
fn variadic_bytes<'a>(
    variadic: &[&'a [u8]],
    index: usize,
    offset: usize,
    size: usize,
) -> Result<&'a [u8], IpcReadError>
    ensures value { Returns (λ s. s.now) result (variadic_slice (map (λ b. b.now) variadic.now) index offset size) }
    ensures size { IfOk result (λ s. length s.now ≡ size) }
{
    if index >= variadic.len() {
        return Err(IpcReadError::View);
    }
    let buffer = variadic[index];
    if offset > buffer.len() || size > buffer.len() - offset {
        return Err(IpcReadError::View);
    }
    let (_, from) = buffer.split_at(offset);
    let (bytes, _) = from.split_at(size);
    Ok(bytes)
}

fn first_four(bytes: &[u8]) -> u32
    requires { 4 ≤ length bytes.now }
    ensures { result ≡ from_le_bytes w32 bytes.now }
{
    u32::from_le_bytes([bytes[0], bytes[1], bytes[2], bytes[3]])
}

// Returns the value of a view that is longer than 12 bytes.
#[tactic(auto, unfolding(crate::specs::Views::long_value))]
fn variadic_value<'a>(
    variadic: &[&'a [u8]],
    size: usize,
    view: &[u8],
) -> Result<&'a [u8], IpcReadError>
    requires long { 12 < size }
    requires view { 16 ≤ length view.now }
    ensures { Returns (λ s. s.now) result (long_value (map (λ b. b.now) variadic.now) size view.now) }
{
    let index = number_at(view, 8)?;
    let offset = number_at(view, 12)?;
    let value = variadic_bytes(variadic, index, offset, size)?;
    let (_, prefix) = view.split_at(4);
    if first_four(value) != first_four(prefix) {
        return Err(IpcReadError::View);
    }
    Ok(value)
}

// Returns the value of a view.
#[tactic(auto, unfolding(crate::specs::Views::spec_view_value))]
fn view_value<'a>(variadic: &[&'a [u8]], view: &'a [u8]) -> Result<&'a [u8], IpcReadError>
    requires { length view.now ≡ 16 }
    ensures { Returns (λ s. s.now) result (spec_view_value (map (λ b. b.now) variadic.now) view.now) }
{
    let size = number_at(view, 0)?;
    if size > 12 {
        return variadic_value(variadic, size, view);
    }
    let (_, from) = view.split_at(4);
    let (value, _) = from.split_at(size);
    Ok(value)
}

/// Returns the string of a slot. That of a null is empty, and its view is not read.
///
/// # Errors
///
/// `IpcReadError::View` if the length, buffer index or offset is negative, the value is not within a variadic buffer, or the prefix is not
/// its first four bytes.
#[tactic(auto, unfolding(crate::specs::Views::viewed_string))]
pub(crate) fn slot_string<'a>(
    validity: &Option<Bitmap>,
    views: &'a [u8],
    variadic: &[&'a [u8]],
    i: usize,
) -> Result<&'a [u8], IpcReadError>
    requires covers { ValidityCovers validity.now (i + 1) }
    requires within { 16 * i + 16 ≤ length views.now }
    ensures { Returns (λ s. s.now) result (viewed_string validity.now views.now (map (λ b. b.now) variadic.now) i) }
{
    if !validity::is_valid(validity, i) {
        return Ok(&[]);
    }
    let (_, from) = views.split_at(16 * i);
    let (view, _) = from.split_at(16);
    view_value(variadic, view)
}
