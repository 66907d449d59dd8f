//! Columns by name and by index.
ghost use Rattle.std.specs.Prelude.{◌≡◌, map, option_map, string_bytes};
ghost use Rattle.nest_memory.specs.TypeOf.{field_of};
ghost use Rattle.ipc_schema.specs.Projections.{projection_of};
ghost use Rattle.cli_args.specs.ColumnTrees.{column_tree};
ghost use Rattle.cli_args.specs.RequestTrees.{request_tree, selection_tree};
ghost use Rattle.cli_rows.specs.ColumnFields.{field_of_column, resolved_column, spec_column_index, spec_field_at, spec_field_named};
ghost use Rattle.cli_rows.specs.ColumnNames.{lacks_name, resolved_request, resolved_selection, spec_selection_error, unknown_name, unknown_projected_name};

use crate::conditions::{condition_error, resolve_condition};
use crate::error::CliError;
use crate::select::{is_called, is_named};
use cli_args::{Column, Request, Selection};
use ipc_schema::Projection;
use nest_memory::datatypes::Field;

/// Returns the first field of a name.
fn field_named<'a>(name: &String, fields: &'a [Field]) -> Option<&'a Field>
    ensures { option_map (λ f. field_of f.now) result ≡ spec_field_named (string_bytes name.now) (map field_of fields.now) }
{
    for field in fields {
        if is_named(field, name) {
            return Some(field);
        }
    }
    None
}

/// Returns the field at an index.
fn field_at(index: usize, fields: &[Field]) -> Option<&Field>
    ensures { option_map (λ f. field_of f.now) result ≡ spec_field_at index (map field_of fields.now) }
{
    if index >= fields.len() {
        return None;
    }
    Some(&fields[index])
}

/// Returns the field of a column.
pub(crate) fn column_field<'a>(column: &Column, fields: &'a [Field]) -> Option<&'a Field>
    ensures { option_map (λ f. field_of f.now) result ≡ field_of_column (column_tree column.now) (map field_of fields.now) }
{
    match column {
        Column::Named(name) => field_named(name, fields),
        Column::Indexed(index) => field_at(*index, fields),
    }
}

/// Returns the index of the first field of a name.
fn column_index(name: &String, fields: &[Field]) -> Option<usize>
    ensures { result ≡ spec_column_index (string_bytes name.now) (map field_of fields.now) }
{
    for i in 0..fields.len() {
        if is_named(&fields[i], name) {
            return Some(i);
        }
    }
    None
}

/// Replaces a name by the index of its first field, if there is one.
pub(crate) fn resolve_column(column: &mut Column, fields: &[Field])
    ensures { column_tree column.new ≡ resolved_column (map field_of fields.now) (column_tree column.old) }
{
    if let Column::Named(name) = column {
        if let Some(index) = column_index(name, fields) {
            *column = Column::Indexed(index);
        }
    }
}

/// Returns why a selection is invalid for a schema, whatever its rows: the first error of the condition of `Where`.
pub fn selection_error(selection: &Selection, fields: &[Field]) -> Option<CliError>
    ensures { result ≡ spec_selection_error (selection_tree selection.now) (map field_of fields.now) }
{
    match selection {
        Selection::Where(condition) => match condition_error(condition, fields) {
            None => None,
            Some(error) => Some(CliError::Condition(error)),
        },
        _ => None,
    }
}

/// Returns a selection with the index of each column of `Where` in place of its name, if there is a column of the name. It selects the same
/// rows of these fields, and has the same error.
pub fn resolve_selection(selection: Selection, fields: &[Field]) -> Selection
    ensures { selection_tree result ≡ resolved_selection (map field_of fields.now) (selection_tree selection) }
{
    match selection {
        Selection::All => Selection::All,
        Selection::Slice(start, count) => Selection::Slice(start, count),
        Selection::Indices(indices) => Selection::Indices(indices),
        Selection::Where(mut condition) => {
            resolve_condition(&mut condition, fields);
            Selection::Where(condition)
        }
    }
}

/// Returns a request whose selection is resolved by [`resolve_selection`].
pub fn resolve_request(request: Request, fields: &[Field]) -> Request
    ensures { request_tree result ≡ resolved_request (map field_of fields.now) (request_tree request) }
{
    match request {
        Request::Columns => Request::Columns,
        Request::Rows(selection) => Request::Rows(resolve_selection(selection, fields)),
    }
}

/// Returns whether no field has this name.
fn is_lacking(name: &str, fields: &[Field]) -> bool
    ensures { result ≡ lacks_name name.now (map field_of fields.now) }
{
    for field in fields {
        if is_called(field, name) {
            return false;
        }
    }
    true
}

/// Returns the index of the first name that no field has.
fn unknown_in(names: &[&str], fields: &[Field]) -> Option<usize>
    ensures { result ≡ unknown_name (map (λ n. n.now) names.now) (map field_of fields.now) }
{
    for i in 0..names.len() {
        if is_lacking(names[i], fields) {
            return Some(i);
        }
    }
    None
}

/// Returns the first name of a projection that no field has, by its index among the names.
pub fn first_unknown_name(columns: Projection<'_>, fields: &[Field]) -> Option<usize>
    ensures { result ≡ unknown_projected_name (projection_of columns.entry) (map field_of fields.now) }
{
    match columns {
        Projection::All => None,
        Projection::Indices(_) => None,
        Projection::Names(names) => unknown_in(names, fields),
    }
}
