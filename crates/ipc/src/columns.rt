//! A schema and a record batch of named columns.
ghost use Rattle.std.specs.Prelude.{◌≡◌, IfErr, IfOk, MatchOption, OnOk, map};
ghost use Rattle.nest_array.specs.Seen.{layouts_of};
ghost use Rattle.nest_model.specs.Meaning as meaning;
ghost use Rattle.ipc_schema.specs.Schemas.{schema_of};
ghost use Rattle.ipc.specs.Streams.{record_batch_of};
ghost use Rattle.ipc.specs.NamedColumns.{BatchError, BatchFits, RefusesBatch, columns_batch, columns_schema};

use crate::batch::Batch;
use ipc_schema::Schema;
use nest_array::any::AnyArray;
use nest_array::nullable_fields;
use nest_array::struct_::have_len;
use nest_memory::error::{Error, SpecError};
use std::alloc::Global;
use std::collections::BTreeMap;

/// Returns a schema and a record batch of these columns, with one name for each.
///
/// The fields are nullable. Their data types are those of the columns. Neither they nor the schema have metadata. The batch has as many rows
/// as each column, and without columns none. Writers of this schema take other batches too, if their columns have these data types.
///
/// # Errors
/// The first that applies:
/// - `FieldCount` if the number of names is not the number of columns.
/// - `ChildLength` if a column has another length than the first.
/// - `Memory` if an allocation fails.
pub fn batch_of_columns(
    alloc: Global,
    names: &[&str],
    columns: Vec<AnyArray>,
) -> Result<(Schema, Batch), Error>
    ensures schema { IfOk result (λ x. schema_of x.0 ≡ columns_schema (map (λ n. n.now) names.now) (layouts_of columns.items)) }
    ensures batch { IfOk result (λ x. record_batch_of x.1 ≡ columns_batch (layouts_of columns.items)) }
    ensures fit { OnOk result (BatchFits (map (λ n. n.now) names.now) (layouts_of columns.items)) }
    ensures err { IfErr result (λ e. RefusesBatch e (map (λ n. n.now) names.now) (layouts_of columns.items)) }
{
    if let Some(error) = first_error(names, &columns) {
        drop(columns);
        return Err(error);
    }
    match nullable_fields(alloc, names, &columns) {
        Ok(fields) => {
            let rows = first_len(&columns);
            let metadata = BTreeMap::new(alloc);
            Ok((Schema { fields, metadata }, Batch { rows, columns }))
        }
        Err(error) => {
            drop(columns);
            Err(error)
        }
    }
}

// Returns the error of the first check of the columns that fails.
fn first_error(names: &[&str], columns: &[AnyArray]) -> Option<Error>
    ensures { let ns = map (λ n. n.now) names.now in let cs = layouts_of columns.now in
        MatchOption result (BatchFits ns cs) (λ e. BatchError e ns cs) }
{
    if names.len() != columns.len() {
        return Some(Error::OutOfSpec(SpecError::FieldCount));
    }
    if have_len(columns, first_len(columns)) {
        None
    } else {
        Some(Error::OutOfSpec(SpecError::ChildLength))
    }
}

// Returns the length of the first column, or 0 if there is none.
fn first_len(columns: &[AnyArray]) -> usize
    ensures { result ≡ meaning.first_len (layouts_of columns.now) }
{
    match columns {
        [] => 0,
        [first, ..] => first.len(),
    }
}
