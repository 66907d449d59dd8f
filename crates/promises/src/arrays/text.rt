//! Text: arrays, windows and scalars as JSON, and data types from their text.
ghost use Rattle.std.specs.Fmt.{WritesOnOk};
ghost use Rattle.std.specs.Io.KnownBytes.{Appends};
ghost use Rattle.std.specs.Prelude.{◌≡◌, ◌<◌, IfOk, OnOk, false, map, string_bytes};
ghost use Rattle.json_write.specs.JsonText.{prefixes_of, slot_json};
ghost use Rattle.nest_memory.specs.TypeOf.{field_list_of};
ghost use Rattle.nest_memory.specs.TypeTree.{fields_of};
ghost use Rattle.nest_model.specs.Layout.{layout_type};
ghost use Rattle.nest_model.specs.Meaning.{len};

use json_write::output::write_json;
use json_write::struct_rows::{member_prefixes, write_struct_slot};
use json_write::traits::WriteJson;
use nest_array::StructArray;
use nest_memory::datatypes::Field;
use std::alloc::{AllocError, Global};
use std::fmt::Formatter;
use std::{fmt, io};

/// Writes the JSON text to a writer.
pub fn write_json_text<W: io::Write, T: WriteJson>(writer: &mut W, value: &T) -> io::Result<()>
    ensures { OnOk result (Appends (W.contents writer.old) (W.contents writer.new) (T.json value.now)) }
{
    write_json(writer, value)
}

/// Returns the text before each member of a JSON object of these fields.
pub fn member_heads_of(alloc: Global, fields: &[Field]) -> Result<Vec<String>, AllocError>
    ensures { IfOk result (λ heads. map string_bytes heads.items ≡ prefixes_of (field_list_of fields.now) false) }
{
    member_prefixes(alloc, fields)
}

/// Writes one slot of a struct array by prepared member heads.
pub fn write_struct_json<W: fmt::Write>(
    f: &mut Formatter<W>,
    array: &StructArray,
    heads: &[String],
    i: usize,
) -> fmt::Result
    requires within { i < len array.now }
    requires heads { map string_bytes heads.now ≡ prefixes_of (fields_of (layout_type array.now)) false }
    ensures { WritesOnOk W.write_str_gives f.old result (slot_json array.now i) f.new }
{
    write_struct_slot(f, array, heads, i)
}
