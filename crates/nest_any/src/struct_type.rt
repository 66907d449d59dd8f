//! Data types of struct builders.
ghost use Rattle.std.specs.Prelude.{◌≡◌, ◌<◌};
ghost use Rattle.nest_memory.specs.TypeTree.{count_fields, fields_of};
ghost use Rattle.nest_memory.specs.TypeOf.{field_list_of};
ghost use Rattle.nest_memory.specs.declared.datatypes.physical_type.PhysicalType.TheVariants as physical;
ghost use Rattle.nest_any.specs.Words.{physical_type, type_of};

use nest_memory::datatypes::DataType;
use nest_memory::datatypes::field::Field;
use std::marker::Model;

/// A struct type with at least one field.
#[derive(Drop)]
pub(crate) struct StructType {
    data_type: DataType,
}

impl Model for StructType {
    ghost use Rattle.std.specs.Prelude.{◌≡◌, ◌<◌};
    ghost use Rattle.nest_memory.specs.TypeTree.{TypeTree, count_fields, fields_of};
    ghost use Rattle.nest_memory.specs.TypeCode.{coded_type};
    ghost use Rattle.nest_memory.specs.TypeOf.{type_of};
    ghost use Rattle.nest_memory.specs.Physical.{physical_type};
    ghost use Rattle.nest_memory.specs.declared.datatypes.physical_type.PhysicalType.TheVariants as physical;

    ghost Value = { TypeTree };

    ghost coded = { coded_type };

    ghost view = { λ a. type_of a.data_type };

    ghost invariant = { λ a. (physical_type (type_of a.data_type) ≡ physical.Struct) × (0 < count_fields (fields_of (type_of a.data_type))) };
}

impl StructType {
    pub(crate) fn new(data_type: DataType) -> StructType
        requires records { physical_type (type_of data_type) ≡ physical.Struct }
        requires some { 0 < count_fields (fields_of (type_of data_type)) }
        ensures { result ≡ type_of data_type }
    {
        StructType { data_type }
    }

    pub(crate) fn get(&self) -> &DataType
        ensures value { type_of result.now ≡ self.now }
        ensures records { physical_type self.now ≡ physical.Struct }
        ensures some { 0 < count_fields (fields_of self.now) }
    {
        &self.data_type
    }

    pub(crate) fn fields(&self) -> &[Field]
        ensures { field_list_of result.now ≡ fields_of self.now }
    {
        self.data_type.fields()
    }

    pub(crate) fn into_inner(self) -> DataType
        ensures { type_of result ≡ self }
    {
        let StructType { data_type } = self;
        data_type
    }
}
