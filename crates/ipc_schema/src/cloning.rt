//! Clones of schemas.
ghost use Rattle.std.specs.Prelude.{◌≡◌, map, IfErr, IfOk};
ghost use Rattle.nest_memory.specs.TypeOf.{field_of};
ghost use Rattle.ipc_flatbuf.specs.declared.error.IpcWriteError.TheVariants.{Memory};
ghost use Rattle.ipc_schema.specs.Schemas.{schema_of};

use crate::metadata::copy_of;
use crate::schema::Schema;
use ipc_flatbuf::IpcWriteError;
use nest_memory::datatypes::Field;
use std::alloc::Global;

/// Returns deep copies of fields.
///
/// # Errors
/// `Memory`.
pub fn clone_fields(alloc: Global, fields: &[Field]) -> Result<Vec<Field>, IpcWriteError>
    ensures same { IfOk result (λ copy. map field_of copy.items ≡ map field_of fields.now) }
    ensures err { IfErr result (λ error. error ≡ Memory) }
{
    let mut copy = Vec::new(alloc);
    for field in fields {
        match field.clone(alloc) {
            Ok(field) => copy.push(field)?,
            Err(_) => return Err(IpcWriteError::Memory),
        }
    }
    Ok(copy)
}

impl Schema {
    /// Returns a deep copy of the schema.
    ///
    /// # Errors
    /// `Memory`.
    pub fn clone(&self, alloc: Global) -> Result<Schema, IpcWriteError>
        ensures same { IfOk result (λ copy. schema_of copy ≡ schema_of self.now) }
        ensures err { IfErr result (λ error. error ≡ Memory) }
    {
        let fields = clone_fields(alloc, &self.fields)?;
        let metadata = copy_of(&self.metadata)?;
        Ok(Schema { fields, metadata })
    }
}
