//! Columns that are not supported as text.
ghost use Rattle.std.specs.Prelude.{◌≡◌, ◌++◌, IfOk, None, map, string_bytes};
ghost use Rattle.std.specs.Fmt.{WritesOnOk};
ghost use Rattle.nest_memory.specs.TypeOf.{field_of};
ghost use Rattle.ipc_schema.specs.FieldSupport.{field_support_of, unsupported_field_of};
ghost use Rattle.cli_rows.specs.SupportText.{column_line, fields_after, text_of_columns, text_of_error, text_of_unsupported};

use ipc_schema::{FieldSupport, UnsupportedField};
use nest_memory::datatypes::Field;
use std::alloc::{AllocError, Global};
use std::fmt;
use std::fmt::{Display, Formatter};

/// Columns, a line each, by `Display`. `fields` has those that are supported.
#[derive(Drop)]
struct SupportLines<'a> {
    columns: &'a [FieldSupport<'a>],
    fields: &'a [Field],
}

impl Display for SupportLines<'_> {
    ghost use Rattle.std.specs.Prelude.{Some, map};
    ghost use Rattle.nest_memory.specs.TypeOf.{field_of};
    ghost use Rattle.ipc_schema.specs.FieldSupport.{field_support_of};
    ghost use Rattle.cli_rows.specs.SupportText.{text_of_columns};

    ghost output = { λ l. Some (text_of_columns (map field_support_of l.columns.now) (map field_of l.fields.now)) };

    fn fmt<W: fmt::Write>(&self, f: &mut Formatter<W>) -> fmt::Result {
        write_columns(f, self.columns, self.fields)
    }
}

fn write_unsupported<W: fmt::Write>(
    f: &mut Formatter<W>,
    field: &UnsupportedField<'_>,
) -> fmt::Result
    ensures { WritesOnOk W.write_str_gives f.old result (text_of_unsupported (unsupported_field_of field.now)) f.new }
{
    let (path, name) = (field.path(), field.data_type.name());
    write!(f, "{path}: {name} (not supported)\n")
}

// Writes the first field, if there is one.
fn write_field<W: fmt::Write>(f: &mut Formatter<W>, fields: &[Field]) -> fmt::Result
    ensures { WritesOnOk W.write_str_gives f.old result (column_line None (map field_of fields.now)) f.new }
{
    match fields.first() {
        None => Ok(()),
        Some(field) => {
            field.fmt(f)?;
            f.write_str("\n")
        }
    }
}

fn write_column<W: fmt::Write>(
    f: &mut Formatter<W>,
    column: &FieldSupport<'_>,
    fields: &[Field],
) -> fmt::Result
    ensures { WritesOnOk W.write_str_gives f.old result (column_line (field_support_of column.now).unsupported (map field_of fields.now)) f.new }
{
    match &column.unsupported {
        Some(field) => write_unsupported(f, field),
        None => write_field(f, fields),
    }
}

// Returns the fields after a column.
fn rest_after<'a>(column: &FieldSupport<'_>, fields: &'a [Field]) -> &'a [Field]
    ensures { map field_of result.now ≡ fields_after (field_support_of column.now).unsupported (map field_of fields.now) }
{
    if column.unsupported.is_some() || fields.is_empty() {
        return fields;
    }
    let (_, rest) = fields.split_at(1);
    rest
}

fn write_columns<W: fmt::Write>(
    f: &mut Formatter<W>,
    columns: &[FieldSupport<'_>],
    fields: &[Field],
) -> fmt::Result
    ensures { WritesOnOk W.write_str_gives f.old result (text_of_columns (map field_support_of columns.now) (map field_of fields.now)) f.new }
{
    let mut rest = fields;
    for column in columns {
        write_column(f, column, rest)?;
        rest = rest_after(column, rest);
    }
    Ok(())
}

/// Returns a line for each column: that of its field, which is the next one of `fields`, or the path and the type of its first unsupported
/// field.
///
/// # Errors
/// `AllocError` if an allocation fails.
pub fn support_lines(
    alloc: Global,
    columns: &[FieldSupport<'_>],
    fields: &[Field],
) -> Result<String, AllocError>
    ensures { IfOk result (λ text. string_bytes text ≡ text_of_columns (map field_support_of columns.now) (map field_of fields.now)) }
{
    let lines = SupportLines { columns, fields };
    format!(in alloc; "{lines}")
}

/// Returns the error of a field that is not supported: its path and its type.
///
/// # Errors
/// `AllocError` if an allocation fails.
pub fn support_error(alloc: Global, field: &UnsupportedField<'_>) -> Result<String, AllocError>
    ensures { IfOk result (λ text. string_bytes text ≡ text_of_error (unsupported_field_of field.now)) }
{
    let (path, name) = (field.path(), field.data_type.name());
    format!(in alloc;
        "column \"{path}\": {name} is not supported (read other columns with --columns)"
    )
}
