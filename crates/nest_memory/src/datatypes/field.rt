//! Fields of nested data types.
ghost use Rattle.std.specs.Prelude.{◌≡◌, [], IfOk, IsOkUnless, alloc_error};
ghost use Rattle.nest_memory.specs.declared.error.Error.TheVariants.{Memory};

use crate::datatypes::DataType;
use crate::error::Error;
use std::alloc::Global;
use std::collections::BTreeMap;

/// The custom metadata of a field: strings by key.
pub type Metadata = BTreeMap<String, String>;

/// A child of a nested data type, after `Field` of `Schema.fbs` of the Arrow format.
#[cycle(types)]
#[derive(Drop)]
pub struct Field {
    /// The name; any string.
    pub name: String,
    /// The data type of the values.
    pub data_type: DataType,
    /// Whether values may be null.
    pub is_nullable: bool,
    /// The custom metadata.
    pub metadata: Metadata,
}

impl Field {
    ghost use Rattle.nest_memory.specs.TypeTree.{field, field_type};
    ghost use Rattle.nest_memory.specs.TypeOf.{type_of, field_of};

    /// Returns a field without metadata.
    ///
    /// # Errors
    /// [`Error::Memory`] where an allocation fails; then the data type is dropped.
    pub fn new(
        alloc: Global,
        name: &str,
        data_type: DataType,
        is_nullable: bool,
    ) -> Result<Field, Error>
        ensures ok { IfOk result (λ f. field_of f ≡ field name.now (type_of data_type) is_nullable []) }
        ensures err { IsOkUnless result (Memory alloc_error) }
    {
        Ok(Field {
            name: String::from_str(alloc, name)?,
            data_type,
            is_nullable,
            metadata: BTreeMap::new(alloc),
        })
    }

    /// Returns the data type of the values.
    pub fn data_type(&self) -> &DataType
        ensures { type_of result.now ≡ field_type (field_of self.now) }
    {
        &self.data_type
    }
}
