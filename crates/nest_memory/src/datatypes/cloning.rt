//! Clones of data types and fields. A derived `clone` has no contract for a recursive type.
ghost use Rattle.std.specs.Prelude.{◌≡◌, IfOk, IsOkUnless, alloc_error, option_map, string_bytes};
ghost use Rattle.nest_memory.specs.TypeTree as types;
ghost use Rattle.nest_memory.specs.TypeOf.{type_of, field_of, field_list_of, entries_of, text_of};
ghost use Rattle.nest_memory.specs.declared.error.Error.TheVariants.{Memory};

use crate::datatypes::field::{Field, Metadata};
use crate::datatypes::{DataType, IntegerType, TimeUnit, UnionMode};
use crate::error::Error;
use std::alloc::{AllocError, Global};
use std::collections::BTreeMap;

impl DataType {
    /// Returns a deep copy of the data type.
    ///
    /// # Errors
    /// [`Error::Memory`] where an allocation fails.
    pub fn clone(&self, alloc: Global) -> Result<DataType, Error>
        ensures ok { IfOk result (λ t. type_of t ≡ type_of self.now) }
        ensures err { IsOkUnless result (Memory alloc_error) }
    {
        Ok(copy(alloc, self)?)
    }
}

impl Field {
    /// Returns a deep copy of the field.
    ///
    /// # Errors
    /// [`Error::Memory`] where an allocation fails.
    pub fn clone(&self, alloc: Global) -> Result<Field, Error>
        ensures ok { IfOk result (λ f. field_of f ≡ field_of self.now) }
        ensures err { IsOkUnless result (Memory alloc_error) }
    {
        Ok(copy_field(alloc, self)?)
    }
}

// Types without parts, or with one box, are returned early. The others share one local, which is cleared at each call;
// their own functions keep what is cleared small.
#[cycle(cloning)]
fn copy(alloc: Global, source: &DataType) -> Result<DataType, AllocError>
    ensures { IfOk result (λ t. type_of t ≡ type_of source.now) }
{
    let copied = match source {
        DataType::Null => return Ok(DataType::Null),
        DataType::Boolean => return Ok(DataType::Boolean),
        DataType::Int8 => return Ok(DataType::Int8),
        DataType::Int16 => return Ok(DataType::Int16),
        DataType::Int32 => return Ok(DataType::Int32),
        DataType::Int64 => return Ok(DataType::Int64),
        DataType::UInt8 => return Ok(DataType::UInt8),
        DataType::UInt16 => return Ok(DataType::UInt16),
        DataType::UInt32 => return Ok(DataType::UInt32),
        DataType::UInt64 => return Ok(DataType::UInt64),
        DataType::Float16 => return Ok(DataType::Float16),
        DataType::Float32 => return Ok(DataType::Float32),
        DataType::Float64 => return Ok(DataType::Float64),
        DataType::Timestamp(unit, zone) => copy_timestamp(alloc, *unit, zone),
        DataType::Date32 => return Ok(DataType::Date32),
        DataType::Date64 => return Ok(DataType::Date64),
        DataType::Time32(unit) => return Ok(DataType::Time32(*unit)),
        DataType::Time64(unit) => return Ok(DataType::Time64(*unit)),
        DataType::Duration(unit) => return Ok(DataType::Duration(*unit)),
        DataType::Interval(unit) => return Ok(DataType::Interval(*unit)),
        DataType::Binary => return Ok(DataType::Binary),
        DataType::FixedSizeBinary(size) => return Ok(DataType::FixedSizeBinary(*size)),
        DataType::LargeBinary => return Ok(DataType::LargeBinary),
        DataType::Utf8 => return Ok(DataType::Utf8),
        DataType::LargeUtf8 => return Ok(DataType::LargeUtf8),
        DataType::List(field) => return Ok(DataType::List(copy_boxed(alloc, field)?)),
        DataType::FixedSizeList(field, size) => {
            return Ok(DataType::FixedSizeList(copy_boxed(alloc, field)?, *size));
        }
        DataType::LargeList(field) => return Ok(DataType::LargeList(copy_boxed(alloc, field)?)),
        DataType::Struct(fields) => copy_struct(alloc, fields),
        DataType::Union(fields, ids, mode) => copy_union(alloc, fields, ids, *mode),
        DataType::Map(entries, sorted) => {
            return Ok(DataType::Map(copy_boxed(alloc, entries)?, *sorted));
        }
        DataType::Dictionary(key, values, ordered) => {
            return Ok(DataType::Dictionary(*key, copy_inner(alloc, values)?, *ordered));
        }
        DataType::Decimal(precision, scale) => return Ok(DataType::Decimal(*precision, *scale)),
        DataType::Decimal256(precision, scale) => {
            return Ok(DataType::Decimal256(*precision, *scale));
        }
        DataType::Extension(name, inner, metadata) => {
            copy_extension(alloc, name, inner, metadata)
        }
    };
    Ok(copied?)
}

#[inline(never)]
fn copy_timestamp(
    alloc: Global,
    unit: TimeUnit,
    zone: &Option<String>,
) -> Result<DataType, AllocError>
    ensures { IfOk result (λ t. type_of t ≡ types.timestamp unit (text_of zone.now)) }
{
    Ok(DataType::Timestamp(unit, copy_text(alloc, zone)?))
}

#[cycle(cloning)]
#[inline(never)]
fn copy_struct(alloc: Global, fields: &Vec<Field>) -> Result<DataType, AllocError>
    ensures { IfOk result (λ t. type_of t ≡ types.struct (field_list_of fields.now.items)) }
{
    Ok(DataType::Struct(copy_fields(alloc, fields)?))
}

#[cycle(cloning)]
#[inline(never)]
fn copy_union(
    alloc: Global,
    fields: &Vec<Field>,
    ids: &Option<Vec<i32>>,
    mode: UnionMode,
) -> Result<DataType, AllocError>
    ensures { IfOk result (λ t. type_of t ≡ types.union (field_list_of fields.now.items) (option_map (λ v. v.items) ids.now) mode) }
{
    Ok(DataType::Union(copy_fields(alloc, fields)?, copy_ids(alloc, ids)?, mode))
}

#[cycle(cloning)]
#[inline(never)]
fn copy_extension(
    alloc: Global,
    name: &String,
    inner: &Box<DataType>,
    metadata: &Option<String>,
) -> Result<DataType, AllocError>
    ensures { IfOk result (λ t. type_of t ≡ types.extension (string_bytes name.now) (type_of inner.now.value) (text_of metadata.now)) }
{
    let copied = copy_inner(alloc, inner)?;
    Ok(DataType::Extension(
        String::from_str(alloc, name.as_str())?,
        copied,
        copy_text(alloc, metadata)?,
    ))
}

#[cycle(cloning)]
#[inline(never)]
fn copy_inner(alloc: Global, inner: &Box<DataType>) -> Result<Box<DataType>, AllocError>
    ensures { IfOk result (λ t. type_of t.value ≡ type_of inner.now.value) }
{
    let copied = copy(alloc, inner)?;
    Ok(Box::new(alloc, copied)?)
}

#[cycle(cloning)]
#[inline(always)]
fn copy_field(alloc: Global, field: &Field) -> Result<Field, AllocError>
    ensures { IfOk result (λ f. field_of f ≡ field_of field.now) }
{
    Ok(Field {
        name: String::from_str(alloc, field.name.as_str())?,
        is_nullable: field.is_nullable,
        metadata: copy_metadata(alloc, &field.metadata)?,
        data_type: copy(alloc, &field.data_type)?,
    })
}

#[cycle(cloning)]
#[inline(never)]
fn copy_boxed(alloc: Global, field: &Box<Field>) -> Result<Box<Field>, AllocError>
    ensures { IfOk result (λ f. field_of f.value ≡ field_of field.now.value) }
{
    let copied = copy_field(alloc, field)?;
    Ok(Box::new(alloc, copied)?)
}

#[cycle(cloning)]
fn copy_fields(alloc: Global, fields: &Vec<Field>) -> Result<Vec<Field>, AllocError>
    ensures { IfOk result (λ v. field_list_of v.items ≡ field_list_of fields.now.items) }
{
    let mut copied = Vec::with_capacity(alloc, fields.len())?;
    for field in fields {
        let field = copy_field(alloc, field)?;
        copied.push_reserved(field);
    }
    Ok(copied)
}

fn copy_text(alloc: Global, text: &Option<String>) -> Result<Option<String>, AllocError>
    ensures { IfOk result (λ t. text_of t ≡ text_of text.now) }
{
    match text {
        None => Ok(None),
        Some(text) => Ok(Some(String::from_str(alloc, text.as_str())?)),
    }
}

fn copy_ids(alloc: Global, ids: &Option<Vec<i32>>) -> Result<Option<Vec<i32>>, AllocError>
    ensures { IfOk result (λ v. option_map (λ w. w.items) v ≡ option_map (λ w. w.items) ids.now) }
{
    match ids {
        None => Ok(None),
        Some(ids) => Ok(Some(Vec::from_slice(alloc, ids.as_slice())?)),
    }
}

// Most fields have no metadata; then the map is not iterated.
#[inline]
fn copy_metadata(alloc: Global, metadata: &Metadata) -> Result<Metadata, AllocError>
    ensures { IfOk result (λ m. entries_of m.entries ≡ entries_of metadata.now.entries) }
{
    if metadata.is_empty() {
        return Ok(BTreeMap::new(alloc));
    }
    Ok(copy_entries(metadata)?)
}

// The copy uses the allocator of the map, which is `Global` too.
#[inline(never)]
fn copy_entries(metadata: &Metadata) -> Result<Metadata, AllocError>
    ensures { IfOk result (λ m. entries_of m.entries ≡ entries_of metadata.now.entries) }
{
    let copied = metadata.clone()?;
    Ok(copied)
}
