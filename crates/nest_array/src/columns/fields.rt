//! The fields of a struct over its columns.
ghost use Rattle.std.specs.Prelude.{◌≡◌, [], IfOk, IsOkUnless, alloc_error, length, map};
ghost use Rattle.nest_array.specs.Words.{Memory, column_fields, field, field_list_of, field_of, layout_of, layout_type, layouts_of};

use crate::any::AnyArray;
use nest_memory::datatypes::field::Field;
use nest_memory::error::Error;
use std::alloc::Global;

/// Returns a field of this name for a column, without metadata.
pub(crate) fn column_field(
    alloc: Global,
    name: &str,
    column: &AnyArray,
    is_nullable: bool,
) -> Result<Field, Error>
    ensures ok { IfOk result (λ f. field_of f ≡ field name.now (layout_type (layout_of column.now)) is_nullable []) }
    ensures err { IsOkUnless result (Memory alloc_error) }
{
    let data_type = column.data_type().clone(alloc)?;
    Field::new(alloc, name, data_type, is_nullable)
}

/// Returns a nullable field for each column, with its name and its data type, without metadata.
///
/// # Errors
/// `Memory` if an allocation fails.
pub fn nullable_fields(
    alloc: Global,
    names: &[&str],
    columns: &[AnyArray],
) -> Result<Vec<Field>, Error>
    requires { length names.now ≡ length columns.now }
    ensures ok { IfOk result (λ v. field_list_of v.items ≡ column_fields (map (λ n. n.now) names.now) (layouts_of columns.now)) }
    ensures err { IsOkUnless result (Memory alloc_error) }
{
    let mut fields = Vec::with_capacity(alloc, names.len())?;
    for i in 0..names.len() {
        match column_field(alloc, names[i], &columns[i], true) {
            Ok(field) => fields.push_reserved(field),
            Err(error) => return Err(error),
        }
    }
    Ok(fields)
}
