//! Selected rows of one record batch.
ghost use Rattle.std.specs.Prelude.{◌≡◌, [], ◌∷◌, IfErr, IfOk, length, map};
ghost use Rattle.ipc.specs.Streams.{record_batch_of};
ghost use Rattle.ipc_schema.specs.Schemas.{schema_of};
ghost use Rattle.cli_args.specs.RequestTrees.{selection_tree};
ghost use Rattle.cli_rows.specs.SelectedTables.{batch_rows};
ghost use Rattle.cli_rows.specs.declared.error.CliError.TheVariants.{Memory};
ghost use Rattle.cli_write.specs.RemainingSelections.{AreSelectedBatches, AreSelectedRows, IsBatchSelectionError};

use cli_args::Selection;
use cli_rows::{CliError, row_array, selected_batches, selection_error};
use ipc::Batch;
use ipc_schema::Schema;
use std::alloc::Global;
use std::slice;

/// Returns the number of rows of a record batch: the length of its first column or, without a field, its own number of rows.
pub(crate) fn row_count(schema: &Schema, batch: &Batch) -> usize
    ensures { result ≡ length (batch_rows (schema_of schema.now).fields (record_batch_of batch.now ∷ [])) }
{
    let fields = schema.fields.as_slice();
    if fields.is_empty() {
        return batch.rows;
    }
    match batch.columns.first() {
        None => 0,
        Some(column) => column.len(),
    }
}

fn single_batch(alloc: Global, batch: Batch) -> Result<Vec<Batch>, CliError>
    ensures batch { IfOk result (λ v. v.items ≡ batch ∷ []) }
    ensures error { IfErr result (λ e. e ≡ Memory) }
{
    let mut batches = Vec::new(alloc);
    batches.push(batch)?;
    Ok(batches)
}

/// Returns selected rows of a record batch as record batches.
fn selected_rows_of(
    alloc: Global,
    schema: &Schema,
    selection: &Selection,
    batch: Batch,
) -> Result<Vec<Batch>, CliError>
    ensures rows { IfOk result (λ v. AreSelectedRows (selection_tree selection.now) (schema_of schema.now).fields (record_batch_of batch ∷ []) (map record_batch_of v.items)) }
    ensures error { IfErr result (λ e. IsBatchSelectionError e (selection_tree selection.now) (schema_of schema.now).fields (record_batch_of batch ∷ [])) }
{
    if let Some(error) = selection_error(selection, &schema.fields) {
        drop(batch);
        return Err(error);
    }
    match row_array(alloc, schema, batch) {
        Err(error) => Err(error),
        Ok(array) => {
            let rows = slice::from_ref(&array);
            let batches = selected_batches(alloc, &schema.fields, selection, rows);
            drop(array);
            batches
        }
    }
}

/// Selects rows of a record batch. `All` returns the batch unchanged.
pub(crate) fn select_from_batch(
    alloc: Global,
    schema: &Schema,
    selection: &Selection,
    batch: Batch,
) -> Result<Vec<Batch>, CliError>
    ensures rows { IfOk result (λ v. AreSelectedBatches (selection_tree selection.now) (schema_of schema.now).fields (record_batch_of batch ∷ []) (map record_batch_of v.items)) }
    ensures error { IfErr result (λ e. IsBatchSelectionError e (selection_tree selection.now) (schema_of schema.now).fields (record_batch_of batch ∷ [])) }
{
    match selection {
        Selection::All => single_batch(alloc, batch),
        _ => selected_rows_of(alloc, schema, selection, batch),
    }
}
