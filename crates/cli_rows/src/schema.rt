//! Schemas as the data type of a row.
ghost use Rattle.std.specs.Prelude.{◌≡◌, IfOk, IsOkUnless, map};
ghost use Rattle.nest_memory.specs.TypeOf.{field_of, type_of};
ghost use Rattle.cli_rows.specs.Records.{record_type};
ghost use Rattle.cli_rows.specs.declared.error.CliError.TheVariants.{Memory};

use crate::error::CliError;
use ipc_schema::clone_fields;
use nest_memory::datatypes::{DataType, Field};
use std::alloc::Global;

/// Returns the data type of a row: a struct of the fields.
///
/// # Errors
/// `Memory` if an allocation fails.
pub fn row_type(alloc: Global, fields: &[Field]) -> Result<DataType, CliError>
    ensures row { IfOk result (λ t. type_of t ≡ record_type (map field_of fields.now)) }
    ensures error { IsOkUnless result Memory }
{
    match clone_fields(alloc, fields) {
        Ok(fields) => Ok(DataType::Struct(fields)),
        Err(_) => Err(CliError::Memory),
    }
}
