//! Types whose arrays are stored otherwise than they are read, in a schema as it is stored.
ghost use Rattle.std.specs.Prelude.{◌≡◌, ◌++◌, map, IfOk, OnOk, None, [], ◌∷◌};
ghost use Rattle.nest_memory.specs.TypeTree as types;
ghost use Rattle.nest_memory.specs.TypeOf.{type_of, field_of, field_list_of};
ghost use Rattle.ipc_flatbuf.specs.declared.projection.StoredArray.TheVariants.{Plain};
ghost use Rattle.ipc_schema.specs.StoredArrays.{spec_array_buffers, stored_arrays, field_arrays, arrays_of_fields};
ghost use Rattle.ipc_schema.specs.StoredTypes.{spec_binary_view, spec_utf8_view, spec_decimal32, spec_decimal64, spec_named_storage, spec_is_reserved_name, spec_other_storage, spec_value_type, spec_unwrapped, read_type, read_field, read_fields};

use crate::skipped_fields::{mode_buffers, plain_buffers};
use crate::type_writing::type_number;
use ipc_flatbuf::StoredArray;
use nest_memory::datatypes::floats::{is_float, is_float_name};
use nest_memory::datatypes::{DataType, Field};
use std::alloc::{AllocError, Global};
use std::mem;

fn stored_type(alloc: Global, name: &str, read: DataType) -> Result<DataType, AllocError>
    ensures { IfOk result (λ t. type_of t ≡ types.extension name.now (type_of read) None) }
{
    let name = String::from_str(alloc, name)?;
    let read = Box::new(alloc, read)?;
    Ok(DataType::Extension(name, read, None))
}

/// Returns the type of binary views as they are stored.
pub(crate) fn binary_view(alloc: Global) -> Result<DataType, AllocError>
    ensures { IfOk result (λ t. type_of t ≡ spec_binary_view) }
{
    stored_type(alloc, "tiekvorn.binary_view", DataType::LargeBinary)
}

/// Returns the type of string views as they are stored.
pub(crate) fn utf8_view(alloc: Global) -> Result<DataType, AllocError>
    ensures { IfOk result (λ t. type_of t ≡ spec_utf8_view) }
{
    stored_type(alloc, "tiekvorn.utf8_view", DataType::LargeUtf8)
}

/// Returns the type of decimals of 32 bits as they are stored.
pub(crate) fn decimal32(alloc: Global, digits: usize, after: usize) -> Result<DataType, AllocError>
    ensures { IfOk result (λ t. type_of t ≡ spec_decimal32 digits after) }
{
    stored_type(
        alloc,
        "tiekvorn.decimal32",
        DataType::Decimal(digits, after),
    )
}

/// Returns the type of decimals of 64 bits as they are stored.
pub(crate) fn decimal64(alloc: Global, digits: usize, after: usize) -> Result<DataType, AllocError>
    ensures { IfOk result (λ t. type_of t ≡ spec_decimal64 digits after) }
{
    stored_type(
        alloc,
        "tiekvorn.decimal64",
        DataType::Decimal(digits, after),
    )
}

fn named_storage(name: &str) -> Option<StoredArray>
    ensures { result ≡ spec_named_storage name.now }
{
    if name == "tiekvorn.binary_view" || name == "tiekvorn.utf8_view" {
        Some(StoredArray::View)
    } else if name == "tiekvorn.decimal32" {
        Some(StoredArray::Decimal32)
    } else if name == "tiekvorn.decimal64" {
        Some(StoredArray::Decimal64)
    } else {
        None
    }
}

/// Returns whether no field may name an extension type so.
pub(crate) fn is_reserved_name(name: &str) -> bool
    ensures { result ≡ spec_is_reserved_name name.now }
{
    is_float_name(name) || named_storage(name).is_some()
}

/// Returns how an array of this type is stored, where it is read as an array of another type.
pub(crate) fn other_storage(data_type: &DataType) -> Option<StoredArray>
    ensures { result ≡ spec_other_storage (type_of data_type.now) }
{
    match data_type {
        DataType::Extension(name, _, _) if !is_float(data_type) => named_storage(name.as_str()),
        _ => None,
    }
}

/// Returns the value type of a dictionary of this type: without extension types, unless its array is stored otherwise than it is read.
pub(crate) fn value_type(data_type: &DataType) -> &DataType
    ensures { type_of result.now ≡ spec_value_type (type_of data_type.now) }
{
    if other_storage(data_type).is_some() {
        data_type
    } else {
        data_type.to_logical_type()
    }
}

fn array_buffers(data_type: &DataType) -> usize
    ensures { result ≡ spec_array_buffers (type_of data_type.now) }
{
    match data_type {
        DataType::Dictionary(_, _, _) => 2,
        DataType::Union(_, _, mode) => mode_buffers(*mode),
        _ => plain_buffers(type_number(data_type)),
    }
}

// Appends an array of a type, without its descendants.
fn push_own(data_type: &DataType, arrays: &mut Vec<StoredArray>) -> Result<(), AllocError>
    ensures { OnOk result (arrays.new.items ≡ arrays.old.items ++ Plain (spec_array_buffers (type_of data_type.now)) ∷ []) }
{
    arrays.push(StoredArray::Plain(array_buffers(data_type)))?;
    Ok(())
}

/// Appends the arrays that an array of this type and its descendants have in a record batch.
#[cycle(arrays)]
pub fn push_arrays(data_type: &DataType, arrays: &mut Vec<StoredArray>) -> Result<(), AllocError>
    ensures { OnOk result (arrays.new.items ≡ arrays.old.items ++ stored_arrays (type_of data_type.now)) }
{
    match data_type {
        DataType::Extension(_, inner, _) => match other_storage(data_type) {
            Some(array) => Ok(arrays.push(array)?),
            None => push_arrays(inner, arrays),
        },
        DataType::List(field) => {
            push_own(data_type, arrays)?;
            push_field(field, arrays)
        }
        DataType::LargeList(field) => {
            push_own(data_type, arrays)?;
            push_field(field, arrays)
        }
        DataType::FixedSizeList(field, _) => {
            push_own(data_type, arrays)?;
            push_field(field, arrays)
        }
        DataType::Map(field, _) => {
            push_own(data_type, arrays)?;
            push_field(field, arrays)
        }
        DataType::Struct(fields) => {
            push_own(data_type, arrays)?;
            push_each(fields, arrays)
        }
        DataType::Union(fields, _, _) => {
            push_own(data_type, arrays)?;
            push_each(fields, arrays)
        }
        _ => push_own(data_type, arrays),
    }
}

#[cycle(arrays)]
fn push_field(field: &Field, arrays: &mut Vec<StoredArray>) -> Result<(), AllocError>
    ensures { OnOk result (arrays.new.items ≡ arrays.old.items ++ field_arrays (field_of field.now)) }
{
    push_arrays(&field.data_type, arrays)
}

#[cycle(arrays)]
fn push_each(fields: &Vec<Field>, arrays: &mut Vec<StoredArray>) -> Result<(), AllocError>
    ensures { OnOk result (arrays.new.items ≡ arrays.old.items ++ arrays_of_fields (field_list_of fields.now.items)) }
{
    for field in fields {
        push_field(field, arrays)?;
    }
    Ok(())
}

fn contents(boxed: Box<DataType>) -> DataType
    ensures { type_of result ≡ type_of boxed.value }
{
    let mut boxed = boxed;
    mem::replace(&mut *boxed, DataType::Null)
}

// Returns the storage of an extension type, and any other type itself.
fn unwrapped(data_type: DataType) -> DataType
    ensures { type_of result ≡ spec_unwrapped (type_of data_type) }
{
    match data_type {
        DataType::Extension(_, inner, _) => contents(inner),
        other => other,
    }
}

// Returns the type that is read in place of a type as it is stored.
#[cycle(reading)]
fn type_read(data_type: DataType) -> DataType
    ensures { type_of result ≡ read_type (type_of data_type) }
{
    if other_storage(&data_type).is_some() {
        unwrapped(data_type)
    } else {
        with_children_read(data_type)
    }
}

// The same of a type that is stored as it is read, but for its children.
#[cycle(reading)]
fn with_children_read(data_type: DataType) -> DataType
    requires { spec_other_storage (type_of data_type) ≡ None }
    ensures { type_of result ≡ read_type (type_of data_type) }
{
    match data_type {
        DataType::List(field) => DataType::List(field_read(field)),
        DataType::LargeList(field) => DataType::LargeList(field_read(field)),
        DataType::FixedSizeList(field, size) => DataType::FixedSizeList(field_read(field), size),
        DataType::Map(field, sorted) => DataType::Map(field_read(field), sorted),
        DataType::Struct(fields) => DataType::Struct(fields_read(fields)),
        DataType::Union(fields, ids, mode) => DataType::Union(fields_read(fields), ids, mode),
        DataType::Dictionary(key, values, ordered) => {
            DataType::Dictionary(key, inner_read(values), ordered)
        }
        DataType::Extension(name, inner, metadata) => {
            DataType::Extension(name, inner_read(inner), metadata)
        }
        other => other,
    }
}

#[cycle(reading)]
fn inner_read(inner: Box<DataType>) -> Box<DataType>
    ensures { type_of result.value ≡ read_type (type_of inner.value) }
{
    let mut inner = inner;
    let stored = mem::replace(&mut *inner, DataType::Null);
    *inner = type_read(stored);
    inner
}

#[cycle(reading)]
fn field_read(field: Box<Field>) -> Box<Field>
    ensures { field_of result.value ≡ read_field (field_of field.value) }
{
    let mut field = field;
    replace_in_field(&mut field);
    field
}

/// Returns each field as it is read.
#[cycle(reading)]
pub(crate) fn fields_read(fields: Vec<Field>) -> Vec<Field>
    ensures each { map field_of result.items ≡ map read_field (map field_of fields.items) }
    ensures tree { field_list_of result.items ≡ read_fields (field_list_of fields.items) }
{
    let mut fields = fields;
    for field in fields.iter_mut() {
        replace_in_field(field);
    }
    fields
}

/// Replaces the type of a field as it is stored by the type that is read.
#[cycle(reading)]
pub(crate) fn replace_in_field(field: &mut Field)
    ensures { field_of field.new ≡ read_field (field_of field.old) }
{
    let stored = mem::replace(&mut field.data_type, DataType::Null);
    field.data_type = type_read(stored);
}

/// Replaces a type as it is stored by the type that is read.
pub fn replace_stored(data_type: &mut DataType)
    ensures { type_of data_type.new ≡ read_type (type_of data_type.old) }
{
    let stored = mem::replace(data_type, DataType::Null);
    *data_type = type_read(stored);
}
