//! Columns of arrays of records.
ghost use Rattle.std.specs.Prelude.{◌≡◌, IfSome, bytes_eq, option_map, string_bytes};
ghost use Rattle.nest_memory.specs.TypeOf.{field_list_of, field_of};
ghost use Rattle.nest_model.specs.Meaning.{len};
ghost use Rattle.nest_array.specs.Seen.{layout_of, layouts_of};
ghost use Rattle.json_write.specs.JsonText.{field_name};
ghost use Rattle.cli_args.specs.ColumnTrees.{column_tree};
ghost use Rattle.cli_rows.specs.Conditions.{IsColumn, column_at, column_layout, column_named};

use cli_args::Column;
use nest_array::{AnyArray, StructArray};
use nest_memory::datatypes::Field;

fn name_of(field: &Field) -> &String
    ensures { string_bytes result.now ≡ field_name (field_of field.now) }
{
    &field.name
}

/// Returns whether a field has this name.
pub fn is_named(field: &Field, name: &String) -> bool
    ensures { result ≡ bytes_eq (field_name (field_of field.now)) (string_bytes name.now) }
{
    name_of(field).as_bytes() == name.as_bytes()
}

/// Returns whether a field has the name of a text.
pub fn is_called(field: &Field, name: &str) -> bool
    ensures { result ≡ bytes_eq (field_name (field_of field.now)) name.now }
{
    name_of(field).as_bytes() == name.as_bytes()
}

/// Returns the child of the first field of a name.
fn child_named<'a>(
    name: &String,
    fields: &[Field],
    children: &'a [AnyArray],
) -> Option<&'a AnyArray>
    ensures { option_map (λ a. layout_of a.now) result ≡ column_named (string_bytes name.now) (field_list_of fields.now) (layouts_of children.now) }
{
    for i in 0..fields.len() {
        if i >= children.len() {
            return None;
        }
        if is_named(&fields[i], name) {
            return Some(&children[i]);
        }
    }
    None
}

/// Returns the child of the field at an index.
fn child_at<'a>(index: usize, fields: &[Field], children: &'a [AnyArray]) -> Option<&'a AnyArray>
    ensures { option_map (λ a. layout_of a.now) result ≡ column_at index (field_list_of fields.now) (layouts_of children.now) }
{
    if index >= fields.len() {
        return None;
    }
    if index >= children.len() {
        return None;
    }
    Some(&children[index])
}

/// Returns the child of a column.
fn child_of<'a>(column: &Column, fields: &[Field], children: &'a [AnyArray]) -> Option<&'a AnyArray>
    ensures { option_map (λ a. layout_of a.now) result ≡ column_layout (column_tree column.now) (field_list_of fields.now) (layouts_of children.now) }
{
    match column {
        Column::Named(name) => child_named(name, fields, children),
        Column::Indexed(index) => child_at(*index, fields, children),
    }
}

/// Returns a column of an array of records.
pub fn column_of<'a>(records: &'a StructArray, column: &Column) -> Option<&'a AnyArray>
    ensures values { IsColumn (column_tree column.now) records.now (option_map (λ a. layout_of a.now) result) }
    ensures length { IfSome result (λ a. len (layout_of a.now) ≡ len records.now) }
{
    records.known();
    child_of(column, records.fields(), records.values())
}
