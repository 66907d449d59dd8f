//! The text that a request prints.
ghost use Rattle.std.specs.Prelude.{◌≡◌, IfErr, IfOk, IsOkUnless, Some, map, option_map, string_bytes};
ghost use Rattle.std.specs.List.{flat_map};
ghost use Rattle.nest_array.specs.Seen.{layout_of};
ghost use Rattle.cli_args.specs.Requests.{columns, rows};
ghost use Rattle.cli_args.specs.RequestTrees.{request_tree, selection_tree};
ghost use Rattle.cli_rows.specs.RequestErrors.{IsIndexError, IsRequestError};
ghost use Rattle.cli_rows.specs.RequestText.{spec_request_text};
ghost use Rattle.cli_rows.specs.Rows.{rows_of};
ghost use Rattle.cli_rows.specs.Selection.{selected_rows};
ghost use Rattle.cli_rows.specs.Tables.{table_of, table_of_parts};
ghost use Rattle.cli_rows.specs.Text.{text_of_rows};
ghost use Rattle.cli_rows.specs.declared.error.CliError.TheVariants.{Memory};

use crate::columns::selection_error;
use crate::error::CliError;
use crate::records::record_arrays;
use crate::select::select_rows;
use crate::table::Table;
use crate::text::{row_lines, schema_lines};
use cli_args::{Request, Selection};
use ipc::Batch;
use ipc_schema::Schema;
use nest_array::AnyArray;
use std::alloc::Global;

/// Returns the selected rows as lines.
fn selected_lines(
    alloc: Global,
    selection: &Selection,
    arrays: &[AnyArray],
) -> Result<String, CliError>
    ensures text { IfOk result (λ text. option_map text_of_rows (selected_rows (selection_tree selection.now) (flat_map rows_of (map layout_of arrays.now))) ≡ Some (string_bytes text)) }
    ensures error { IfErr result (λ e. IsIndexError e (selected_rows (selection_tree selection.now) (flat_map rows_of (map layout_of arrays.now)))) }
{
    match select_rows(alloc, selection, arrays)? {
        None => Err(CliError::IndexOutOfRange),
        Some(windows) => Ok(row_lines(alloc, &windows)?),
    }
}

/// Returns the rows of arrays as lines.
///
/// # Errors
/// `Memory` if an allocation fails.
pub fn array_lines(alloc: Global, arrays: &[AnyArray]) -> Result<String, CliError>
    ensures text { IfOk result (λ text. string_bytes text ≡ text_of_rows (flat_map rows_of (map layout_of arrays.now))) }
    ensures error { IsOkUnless result Memory }
{
    match selected_lines(alloc, &Selection::All, arrays) {
        Ok(text) => Ok(text),
        Err(_) => Err(CliError::Memory),
    }
}

/// Returns the selected rows of record batches as lines.
fn rows_text(
    alloc: Global,
    schema: &Schema,
    selection: &Selection,
    batches: Vec<Batch>,
) -> Result<String, CliError>
    ensures text { IfOk result (λ text. spec_request_text (rows (selection_tree selection.now)) (table_of_parts schema.now batches.items) ≡ Some (string_bytes text)) }
    ensures error { IfErr result (λ e. IsRequestError e (rows (selection_tree selection.now)) (table_of_parts schema.now batches.items)) }
{
    if let Some(error) = selection_error(selection, &schema.fields) {
        drop(batches);
        return Err(error);
    }
    match record_arrays(alloc, schema, batches) {
        Err(error) => Err(error),
        Ok(arrays) => {
            let text = selected_lines(alloc, selection, &arrays);
            drop(arrays);
            text
        }
    }
}

/// Returns the schema as lines.
fn schema_text(alloc: Global, schema: &Schema, batches: Vec<Batch>) -> Result<String, CliError>
    ensures text { IfOk result (λ text. spec_request_text columns (table_of_parts schema.now batches.items) ≡ Some (string_bytes text)) }
    ensures error { IfErr result (λ e. IsRequestError e columns (table_of_parts schema.now batches.items)) }
{
    drop(batches);
    Ok(schema_lines(alloc, &schema.fields)?)
}

/// Returns the text that a request prints of record batches: a line for each column, or for each selected row.
///
/// # Errors
/// First `Condition` if the condition of `Where` has an error. Then `MismatchedColumns` if the columns of a batch do not match the schema,
/// or there is no column, and `IndexOutOfRange` if there is no row at an index. `Memory`, in place of any, if an allocation fails.
pub fn request_text(
    alloc: Global,
    schema: &Schema,
    request: &Request,
    batches: Vec<Batch>,
) -> Result<String, CliError>
    ensures text { IfOk result (λ text. spec_request_text (request_tree request.now) (table_of_parts schema.now batches.items) ≡ Some (string_bytes text)) }
    ensures error { IfErr result (λ e. IsRequestError e (request_tree request.now) (table_of_parts schema.now batches.items)) }
{
    match request {
        Request::Columns => schema_text(alloc, schema, batches),
        Request::Rows(selection) => rows_text(alloc, schema, selection, batches),
    }
}

/// Returns the text that a request prints of a table.
///
/// # Errors
/// Those of [`request_text`].
pub fn table_text(alloc: Global, request: &Request, table: Table) -> Result<String, CliError>
    ensures text { IfOk result (λ text. spec_request_text (request_tree request.now) (table_of table) ≡ Some (string_bytes text)) }
    ensures error { IfErr result (λ e. IsRequestError e (request_tree request.now) (table_of table)) }
{
    let Table { schema, batches } = table;
    let text = request_text(alloc, &schema, request, batches);
    drop(schema);
    text
}
