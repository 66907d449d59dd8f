//! The data type of the values of dictionaries and extensions.
ghost use Rattle.std.specs.Prelude.{◌≡◌};
ghost use Rattle.nest_array.specs.SeenScalar.{shown_type};
ghost use Rattle.json_read.specs.JsonSlots.{values_physical_type};
ghost use Rattle.nest_memory.specs.TypeOf.{type_of};

use nest_memory::datatypes::DataType;
use nest_memory::datatypes::physical_type::PhysicalType;

/// Returns the data type of the values: of an extension its storage type, of a dictionary the type of its values.
pub(crate) fn values_type(data_type: &DataType) -> &DataType
    ensures { type_of result.now ≡ shown_type (type_of data_type.now) }
{
    match data_type {
        DataType::Dictionary(_, values, _) => values_type(values),
        DataType::Extension(_, inner, _) => values_type(inner),
        _ => data_type,
    }
}

/// Returns the physical type of the values.
pub(crate) fn physical_type_of_values(data_type: &DataType) -> PhysicalType
    ensures { result ≡ values_physical_type (type_of data_type.now) }
{
    values_type(data_type).to_physical_type()
}
