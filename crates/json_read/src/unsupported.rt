//! Data types whose values cannot be read from JSON, checked before a builder is made.
ghost use Rattle.std.specs.Prelude.{◌≡◌, IfErr, IfOk, IsOkUnless, None, OnOk};
ghost use Rattle.json_read.specs.UnsupportedTypes.{IsNewBuilderError, unsupported_field, unsupported_fields, has_duplicate_names, spec_is_variable_size_binary, unsupported_type};
ghost use Rattle.nest_any.specs.Words.{is_flat};
ghost use Rattle.json_write.specs.JsonText.{field_name};
ghost use Rattle.json_read.specs.declared.error.NewBuilderError.TheVariants.{Memory};
ghost use Rattle.nest_memory.specs.Physical.{physical_type};
ghost use Rattle.nest_memory.specs.TypeOf.{field_list_of, field_of, type_of};
ghost use Rattle.nest_memory.specs.TypeTree as types;

use crate::error::{NewBuilderError, UnsupportedTypeError};
use nest_memory::datatypes::DataType;
use nest_memory::datatypes::field::Field;
use nest_memory::datatypes::physical_type::PhysicalType;
use std::alloc::Global;
use std::collections::BTreeSet;

/// Checks that JSON of the data type can be read. The names of a struct's fields are collected, which allocates.
///
/// # Errors
/// - `Type`: it cannot be read. Of several reasons it is the first, a type before its children, these in order.
/// - `Memory`: an allocation fails.
#[cycle(unsupported)]
pub(crate) fn check_type(alloc: Global, data_type: &DataType) -> Result<(), NewBuilderError>
    ensures ok { OnOk result (unsupported_type (type_of data_type.now) ≡ None) }
    ensures error { IfErr result (λ e. IsNewBuilderError e (unsupported_type (type_of data_type.now))) }
{
    match data_type {
        DataType::Float16 | DataType::Float32 | DataType::Float64 => {
            Err(NewBuilderError::Type(UnsupportedTypeError::FloatingPoint))
        }
        DataType::FixedSizeBinary(size) => check_size(*size),
        DataType::List(field) | DataType::LargeList(field) => check_field(alloc, field),
        DataType::FixedSizeList(field, size) => {
            check_size(*size)?;
            check_field(alloc, field)
        }
        DataType::Struct(fields) => check_struct(alloc, fields),
        DataType::Union(_fields, _ids, _mode) => Err(NewBuilderError::Type(
            UnsupportedTypeError::Union,
        )),
        DataType::Map(_entries, _sorted) => Err(NewBuilderError::Type(UnsupportedTypeError::Map)),
        DataType::Dictionary(_key, values, _ordered) => {
            if !is_flat_type(values.to_physical_type()) {
                return Err(NewBuilderError::Type(UnsupportedTypeError::DictionaryValues));
            }
            check_type(alloc, values)
        }
        DataType::Extension(_name, inner, _metadata) => {
            if is_variable_size_binary(inner.to_physical_type()) {
                return Err(NewBuilderError::Type(UnsupportedTypeError::VariableSizeExtension));
            }
            check_type(alloc, inner)
        }
        _ => Ok(()),
    }
}

#[cycle(unsupported)]
fn check_field(alloc: Global, field: &Field) -> Result<(), NewBuilderError>
    ensures ok { OnOk result (unsupported_field (field_of field.now) ≡ None) }
    ensures error { IfErr result (λ e. IsNewBuilderError e (unsupported_field (field_of field.now))) }
{
    check_type(alloc, &field.data_type)
}

#[cycle(unsupported)]
fn check_struct(alloc: Global, fields: &Vec<Field>) -> Result<(), NewBuilderError>
    ensures ok { OnOk result (unsupported_type (types.struct (field_list_of fields.now.items)) ≡ None) }
    ensures error { IfErr result (λ e. IsNewBuilderError e (unsupported_type (types.struct (field_list_of fields.now.items)))) }
{
    if fields.is_empty() {
        return Err(NewBuilderError::Type(UnsupportedTypeError::EmptyStruct));
    }
    if have_duplicate_names(alloc, fields)? {
        return Err(NewBuilderError::Type(UnsupportedTypeError::DuplicateFieldNames));
    }
    check_fields(alloc, fields)
}

#[cycle(unsupported)]
fn check_fields(alloc: Global, fields: &Vec<Field>) -> Result<(), NewBuilderError>
    ensures ok { OnOk result (unsupported_fields (field_list_of fields.now.items) ≡ None) }
    ensures error { IfErr result (λ e. IsNewBuilderError e (unsupported_fields (field_list_of fields.now.items))) }
{
    for field in fields {
        check_field(alloc, field)?;
    }
    Ok(())
}

fn check_size(size: usize) -> Result<(), NewBuilderError>
    ensures ok { OnOk result (unsupported_type (types.fixed_size_binary size) ≡ None) }
    ensures error { IfErr result (λ e. IsNewBuilderError e (unsupported_type (types.fixed_size_binary size))) }
{
    if size == 0 {
        return Err(NewBuilderError::Type(UnsupportedTypeError::ZeroSize));
    }
    Ok(())
}

/// Returns whether two fields have the same name.
fn have_duplicate_names(alloc: Global, fields: &Vec<Field>) -> Result<bool, NewBuilderError>
    ensures duplicates { IfOk result (λ b. b ≡ has_duplicate_names (field_list_of fields.now.items)) }
    ensures memory { IsOkUnless result Memory }
{
    let mut seen: BTreeSet<&str> = BTreeSet::new(alloc);
    let mut i = fields.len();
    'fields: while i > 0 {
        i -= 1;
        if !seen.insert(name_of(&fields[i]))? {
            return Ok(true);
        }
    }
    Ok(false)
}

// Returns the name of the field.
fn name_of(field: &Field) -> &str
    ensures { result.now ≡ field_name (field_of field.now) }
{
    field.name.as_str()
}

// Returns whether the type is variable-size binary or UTF-8.
fn is_variable_size_binary(kind: PhysicalType) -> bool
    ensures { result ≡ spec_is_variable_size_binary kind }
{
    matches!(
        kind,
        PhysicalType::Binary
            | PhysicalType::LargeBinary
            | PhysicalType::Utf8
            | PhysicalType::LargeUtf8
    )
}

// Returns whether the type has no children and is not null.
fn is_flat_type(kind: PhysicalType) -> bool
    ensures { result ≡ is_flat kind }
{
    matches!(
        kind,
        PhysicalType::Boolean
            | PhysicalType::Primitive(_)
            | PhysicalType::Binary
            | PhysicalType::FixedSizeBinary
            | PhysicalType::LargeBinary
            | PhysicalType::Utf8
            | PhysicalType::LargeUtf8
    )
}
