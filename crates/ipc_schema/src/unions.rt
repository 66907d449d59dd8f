//! Unions of a schema, which metadata of version V4 does not support.
ghost use Rattle.std.specs.Prelude.{◌≡◌, map};
ghost use Rattle.std.specs.List.{list_any};
ghost use Rattle.nest_memory.specs.TypeOf.{type_of, field_of};
ghost use Rattle.ipc_schema.specs.Unions.{spec_is_union, spec_field_has_union, have_union, spec_check_version};

use crate::type_writing::{children_of, table_type};
use ipc_flatbuf::IpcReadError;
use ipc_flatbuf::message::MetadataVersion;
use nest_memory::datatypes::{DataType, Field};

fn is_union(data_type: &DataType) -> bool
    ensures { result ≡ spec_is_union (type_of data_type.now) }
{
    match data_type {
        DataType::Union(_, _, _) => true,
        _ => false,
    }
}

// In a field and its descendants, to a depth.
#[cycle(unions)]
fn field_has_union(depth: u8, field: &Field) -> bool
    ensures { result ≡ spec_field_has_union depth (field_of field.now) }
{
    if depth == 0 {
        return false;
    }
    let data_type = table_type(field.data_type());
    is_union(data_type) || any_has_union(depth - 1, children_of(data_type))
}

#[cycle(unions)]
fn any_has_union(depth: u8, fields: &[Field]) -> bool
    ensures { result ≡ list_any (spec_field_has_union depth) (map field_of fields.now) }
{
    for field in fields {
        if field_has_union(depth, field) {
            return true;
        }
    }
    false
}

/// Checks that the metadata version supports the types of the fields: before V5 unions had a validity bitmap.
///
/// It checks 64 levels, the depth that readers accept.
///
/// # Errors
/// [`IpcReadError::Version`] where the version is V4 and a field or a descendant is a union.
pub fn check_version(version: MetadataVersion, fields: &[Field]) -> Result<(), IpcReadError>
    ensures { result ≡ spec_check_version version (have_union (map field_of fields.now)) }
{
    match version {
        MetadataVersion::V5 => Ok(()),
        MetadataVersion::V4 => {
            if any_has_union(64, fields) {
                Err(IpcReadError::Version)
            } else {
                Ok(())
            }
        }
    }
}
