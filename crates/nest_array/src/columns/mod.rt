//! Struct arrays of named columns and map arrays of keys and values, whose data types are those of the parts.
mod entries;
pub mod examples;
mod fields;
pub mod laws;

ghost use Rattle.std.specs.Prelude.{◌≡◌, MatchOption, MatchResult, map};
ghost use Rattle.nest_array.specs.Words.{ColumnsError, ColumnsFit, RefusesColumns, columns_struct, layouts_of};

use crate::any::AnyArray;
use crate::struct_::{StructArray, have_len};
pub use entries::map_of_entries;
pub use fields::nullable_fields;
use nest_memory::datatypes::DataType;
use nest_memory::error::{Error, SpecError};
use std::alloc::Global;

/// Returns a struct array of these columns, with one name for each.
///
/// Its fields are nullable and have no metadata. Their data types are those of the columns. The array has no validity.
///
/// # Errors
/// The first that applies:
/// - `FieldCount` if the number of names is not the number of columns.
/// - `NoFields` if there are no columns.
/// - `ChildLength` if a column has another length than the first.
/// - `Memory` if an allocation fails.
pub fn struct_of_columns(
    alloc: Global,
    names: &[&str],
    columns: Vec<AnyArray>,
) -> Result<StructArray, Error>
    ensures { let ns = map (λ n. n.now) names.now in let cs = layouts_of columns.items in
        MatchResult result (λ a. ColumnsFit ns cs × (a ≡ columns_struct ns cs)) (λ e. RefusesColumns e ns cs) }
{
    if let Some(error) = first_error(names, &columns) {
        drop(columns);
        return Err(error);
    }
    match nullable_fields(alloc, names, &columns) {
        Ok(fields) => Ok(StructArray::new(DataType::Struct(fields), columns, None)),
        Err(error) => {
            drop(columns);
            Err(error)
        }
    }
}

/// Returns the error of the first check of the columns that fails.
fn first_error(names: &[&str], columns: &[AnyArray]) -> Option<Error>
    ensures { let ns = map (λ n. n.now) names.now in let cs = layouts_of columns.now in
        MatchOption result (ColumnsFit ns cs) (λ e. ColumnsError e ns cs) }
{
    if names.len() != columns.len() {
        return Some(Error::OutOfSpec(SpecError::FieldCount));
    }
    match columns {
        [] => Some(Error::OutOfSpec(SpecError::NoFields)),
        [first, ..] => {
            if have_len(columns, first.len()) {
                None
            } else {
                Some(Error::OutOfSpec(SpecError::ChildLength))
            }
        }
    }
}
