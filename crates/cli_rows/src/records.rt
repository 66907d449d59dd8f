//! Record batches as arrays of their rows.
ghost use Rattle.std.specs.Prelude.{◌≡◌, [], ◌∷◌, IfErr, IfOk, Ok, map};
ghost use Rattle.std.specs.List.{AllByRecursion};
ghost use Rattle.nest_memory.specs.TypeOf.{field_of};
ghost use Rattle.nest_model.specs.Fits.{Fits};
ghost use Rattle.nest_array.specs.Seen.{layout_of};
ghost use Rattle.ipc.specs.Streams.{record_batch_of};
ghost use Rattle.ipc_schema.specs.Schemas.{schema_of};
ghost use Rattle.cli_rows.specs.RowErrors.{IsRowError};
ghost use Rattle.cli_rows.specs.Records.{column_layouts, record_type, records};
ghost use Rattle.cli_rows.specs.Compared.{IsRowsError, batch_array};
ghost use Rattle.cli_rows.specs.Tables.{MatchesSchema, table_of_parts, table_records};

use crate::error::CliError;
use crate::schema::row_type;
use ipc::Batch;
use ipc_schema::Schema;
use nest_array::{AnyArray, NullArray, StructArray};
use nest_memory::datatypes::{DataType, Field};
use std::alloc::Global;

/// Returns columns as one array of records of the fields.
fn record_array(
    alloc: Global,
    fields: &[Field],
    columns: Vec<AnyArray>,
) -> Result<AnyArray, CliError>
    ensures made { IfOk result (λ a. layout_of a ≡ records (record_type (map field_of fields.now)) (column_layouts columns.items)) }
    ensures error { IfErr result (λ e. IsRowError e (Fits (records (record_type (map field_of fields.now)) (column_layouts columns.items)))) }
{
    match row_type(alloc, fields) {
        Err(_) => {
            drop(columns);
            Err(CliError::Memory)
        }
        Ok(row_type) => match StructArray::try_new(row_type, columns, None) {
            Ok(array) => Ok(AnyArray::Struct(array)),
            Err(_) => Err(CliError::MismatchedColumns),
        },
    }
}

/// Returns the columns of each record batch as an array of records of the fields.
fn arrays_of_fields(
    alloc: Global,
    fields: &[Field],
    batches: Vec<Batch>,
) -> Result<Vec<AnyArray>, CliError>
    ensures made { IfOk result (λ v. map layout_of v.items ≡ map (records (record_type (map field_of fields.now))) (map (λ b. column_layouts b.columns.items) batches.items)) }
    ensures error { IfErr result (λ e. IsRowError e (AllByRecursion Fits (map (records (record_type (map field_of fields.now))) (map (λ b. column_layouts b.columns.items) batches.items)))) }
{
    let mut arrays = Vec::new(alloc);
    for batch in batches {
        let array = record_array(alloc, fields, batch.columns)?;
        arrays.push(array)?;
    }
    Ok(arrays)
}

/// Returns each record batch as an array of records of its columns.
pub(crate) fn record_arrays(
    alloc: Global,
    schema: &Schema,
    batches: Vec<Batch>,
) -> Result<Vec<AnyArray>, CliError>
    ensures made { IfOk result (λ v. map layout_of v.items ≡ table_records (table_of_parts schema.now batches.items)) }
    ensures error { IfErr result (λ e. IsRowError e (MatchesSchema (table_of_parts schema.now batches.items))) }
{
    let fields = schema.fields.as_slice();
    match arrays_of_fields(alloc, fields, batches) {
        Ok(arrays) => Ok(arrays),
        Err(error) => Err(error),
    }
}

/// Returns a record batch as one array of records of its columns.
///
/// # Errors
/// `MismatchedColumns` if the columns do not match the schema, or there is no column. `Memory` if an allocation fails.
pub fn batch_records(alloc: Global, schema: &Schema, batch: Batch) -> Result<AnyArray, CliError>
    ensures made { IfOk result (λ a. layout_of a ≡ records (record_type (schema_of schema.now).fields) (record_batch_of batch).columns) }
    ensures error { IfErr result (λ e. IsRowError e (Fits (records (record_type (schema_of schema.now).fields) (record_batch_of batch).columns))) }
{
    let fields = schema.fields.as_slice();
    match record_array(alloc, fields, batch.columns) {
        Ok(array) => Ok(array),
        Err(error) => Err(error),
    }
}

/// Returns as many nulls as a record batch without a column has rows.
fn columnless_array(batch: &Batch) -> AnyArray
    ensures { layout_of result ≡ batch_array [] (record_batch_of batch.now) }
{
    AnyArray::Null(NullArray::new(DataType::Null, batch.rows))
}

/// Returns a record batch as one array of its rows: records of its columns or, without a column, as many nulls as it has rows.
///
/// # Errors
/// `MismatchedColumns` if the columns do not match the schema. `Memory` if an allocation fails.
pub fn row_array(alloc: Global, schema: &Schema, batch: Batch) -> Result<AnyArray, CliError>
    ensures rows { IfOk result (λ a. layout_of a ≡ batch_array (schema_of schema.now).fields (record_batch_of batch)) }
    ensures error { IfErr result (λ e. IsRowsError e (Ok (record { schema = schema_of schema.now; batches = record_batch_of batch ∷ [] }))) }
{
    let fields = schema.fields.as_slice();
    if fields.is_empty() {
        let array = columnless_array(&batch);
        drop(batch);
        return Ok(array);
    }
    match record_array(alloc, fields, batch.columns) {
        Ok(array) => Ok(array),
        Err(error) => Err(error),
    }
}
