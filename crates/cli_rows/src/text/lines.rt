//! Schemas and rows as lines of text.
ghost use Rattle.std.specs.Prelude.{◌≡◌, ◌+◌, ◌≤◌, IfOk, false, map, string_bytes};
ghost use Rattle.std.specs.Fmt.{WritesOnOk};
ghost use Rattle.std.specs.List.{flat_map};
ghost use Rattle.nest_memory.specs.TypeOf.{field_of};
ghost use Rattle.nest_memory.specs.TypeTree.{fields_of};
ghost use Rattle.nest_model.specs.Layout.{layout_type};
ghost use Rattle.nest_model.specs.Meaning.{len};
ghost use Rattle.nest_array.specs.Seen.{layout_of};
ghost use Rattle.nest_array.specs.WindowParts.{window_parts};
ghost use Rattle.cli_rows.specs.Rows.{rows_in};
ghost use Rattle.json_write.specs.JsonText.{prefixes_of};
ghost use Rattle.cli_rows.specs.Text.{text_of_schema, text_of_rows};

use json_write::struct_rows::{member_prefixes, write_struct_slot};
use json_write::traits::WriteSlot;
use nest_array::{AnyArray, StructArray, Window};
use nest_memory::datatypes::Field;
use std::alloc::{AllocError, Global};
use std::fmt;
use std::fmt::{Display, Formatter};

/// A window of at least this many records makes the member names once.
const MANY: usize = 8;

/// The rows of windows, a line each, by `Display`.
#[derive(Drop)]
struct RowLines<'a> {
    alloc: Global,
    windows: &'a [Window<'a>],
}

impl Display for RowLines<'_> {
    ghost use Rattle.std.specs.Prelude.{Some};
    ghost use Rattle.std.specs.List.{flat_map};
    ghost use Rattle.cli_rows.specs.Rows.{rows_in};
    ghost use Rattle.cli_rows.specs.Text.{text_of_rows};

    ghost output = { λ l. Some (text_of_rows (flat_map rows_in l.windows.now)) };

    fn fmt<W: fmt::Write>(&self, f: &mut Formatter<W>) -> fmt::Result {
        write_windows(self.alloc, f, self.windows)
    }
}

fn write_windows<W: fmt::Write>(
    alloc: Global,
    f: &mut Formatter<W>,
    windows: &[Window<'_>],
) -> fmt::Result
    ensures { WritesOnOk W.write_str_gives f.old result (text_of_rows (flat_map rows_in windows.now)) f.new }
{
    for window in windows {
        write_window(alloc, f, window)?;
    }
    Ok(())
}

fn write_window<W: fmt::Write>(
    alloc: Global,
    f: &mut Formatter<W>,
    window: &Window<'_>,
) -> fmt::Result
    ensures { WritesOnOk W.write_str_gives f.old result (text_of_rows (rows_in window.now)) f.new }
{
    window.known();
    let (o, n) = (window.offset(), window.len());
    match window.array() {
        AnyArray::Struct(records) if n >= MANY => write_records(alloc, f, records, o, n),
        array => write_run(f, array, o, n),
    }
}

/// Writes `n` records from offset `o`, a line each.
fn write_records<W: fmt::Write>(
    alloc: Global,
    f: &mut Formatter<W>,
    records: &StructArray,
    o: usize,
    n: usize,
) -> fmt::Result
    requires { o + n ≤ len records.now }
    ensures { WritesOnOk W.write_str_gives f.old result (text_of_rows (rows_in (window_parts records.now o n))) f.new }
{
    let heads = member_prefixes(alloc, records.fields())?;
    write_headed(f, records, &heads, o, n)
}

/// Writes the same records by the text before each member.
fn write_headed<W: fmt::Write>(
    f: &mut Formatter<W>,
    records: &StructArray,
    heads: &[String],
    o: usize,
    n: usize,
) -> fmt::Result
    requires within { o + n ≤ len records.now }
    requires heads { map string_bytes heads.now ≡ prefixes_of (fields_of (layout_type records.now)) false }
    ensures { WritesOnOk W.write_str_gives f.old result (text_of_rows (rows_in (window_parts records.now o n))) f.new }
{
    let _end = records.len();
    for k in 0..n {
        write_struct_slot(f, records, heads, o + k)?;
        f.write_str("\n")?;
    }
    Ok(())
}

/// Writes `n` values from offset `o`, a line each.
fn write_run<W: fmt::Write>(
    f: &mut Formatter<W>,
    array: &AnyArray,
    o: usize,
    n: usize,
) -> fmt::Result
    requires { o + n ≤ len (layout_of array.now) }
    ensures { WritesOnOk W.write_str_gives f.old result (text_of_rows (rows_in (window_parts (layout_of array.now) o n))) f.new }
{
    let _end = array.len();
    for k in 0..n {
        array.write_slot(f, o + k)?;
        f.write_str("\n")?;
    }
    Ok(())
}

/// Returns the rows of windows as lines of JSON.
///
/// # Errors
/// `AllocError` if an allocation fails.
pub fn row_lines(alloc: Global, windows: &[Window<'_>]) -> Result<String, AllocError>
    ensures { IfOk result (λ text. string_bytes text ≡ text_of_rows (flat_map rows_in windows.now)) }
{
    let lines = RowLines { alloc, windows };
    format!(in alloc; "{lines}")
}

/// Columns, a line each, by `Display`.
#[derive(Drop)]
struct ColumnLines<'a> {
    fields: &'a [Field],
}

impl Display for ColumnLines<'_> {
    ghost use Rattle.std.specs.Prelude.{Some, map};
    ghost use Rattle.nest_memory.specs.TypeOf.{field_of};
    ghost use Rattle.cli_rows.specs.Text.{text_of_schema};

    ghost output = { λ l. Some (text_of_schema (map field_of l.fields.now)) };

    fn fmt<W: fmt::Write>(&self, f: &mut Formatter<W>) -> fmt::Result {
        write_columns(f, self.fields)
    }
}

fn write_columns<W: fmt::Write>(f: &mut Formatter<W>, fields: &[Field]) -> fmt::Result
    ensures { WritesOnOk W.write_str_gives f.old result (text_of_schema (map field_of fields.now)) f.new }
{
    for field in fields {
        field.fmt(f)?;
        f.write_str("\n")?;
    }
    Ok(())
}

/// Returns a line for each column: its name, its data type and whether it is never null.
///
/// # Errors
/// `AllocError` if an allocation fails.
pub fn schema_lines(alloc: Global, fields: &[Field]) -> Result<String, AllocError>
    ensures { IfOk result (λ text. string_bytes text ≡ text_of_schema (map field_of fields.now)) }
{
    let lines = ColumnLines { fields };
    format!(in alloc; "{lines}")
}
