//! JSON to a writer and as a `String`.
ghost use Rattle.std.specs.Prelude.{◌≡◌, IfOk, OnOk, string_bytes};
ghost use Rattle.std.specs.Io.KnownBytes.{Appends};

use crate::display::Json;
use crate::traits::WriteJson;
use std::alloc::{AllocError, Global};
use std::io;

/// Writes an array, a window or a scalar as JSON.
///
/// # Errors
/// Any error of the writer, which may have received a prefix of the JSON text.
pub fn write_json<W: io::Write, T: WriteJson>(writer: &mut W, value: &T) -> io::Result<()>
    ensures { OnOk result (Appends (W.contents writer.old) (W.contents writer.new) (T.json value.now)) }
{
    let json = Json::of(value);
    write!(writer, "{json}")
}

/// Returns an array, a window or a scalar as JSON.
///
/// # Errors
/// `AllocError` if an allocation fails.
pub fn to_json_string<T: WriteJson>(alloc: Global, value: &T) -> Result<String, AllocError>
    ensures { IfOk result (λ json. string_bytes json ≡ T.json value.now) }
{
    let json = Json::of(value);
    format!(in alloc; "{json}")
}
