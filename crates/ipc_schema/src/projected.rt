//! Readers of the projection of a schema: the columns that are read, and the nodes and buffers of the skipped ones.
ghost use Rattle.std.specs.Prelude.{◌≡◌, ◌<◌, ◌≤◌, ◌^◌, ◌+◌, ◌*◌, ◌++◌, map, length, IfOk, IfSome, OnOk, Ok};
ghost use Rattle.std.specs.List.{list_any};
ghost use Rattle.nest_memory.specs.TypeOf.{field_of};
ghost use Rattle.ipc_flatbuf.specs.ReadResults.{ReturnsOrRunsOut};
ghost use Rattle.ipc_flatbuf.specs.Messages.{optional_model_of};
ghost use Rattle.ipc_schema.specs.DictionaryModels.{progress_of};
ghost use Rattle.ipc_schema.specs.Schemas.{schema_of};
ghost use Rattle.ipc_schema.specs.Projections.{projection_of, columns_of, IsColumnSet};
ghost use Rattle.ipc_schema.specs.ProjectedSchemas.{spec_item_by, spec_item_at, spec_projected_fields_at, spec_projected_fields_of_items, spec_has_union, spec_check_projected_version, spec_projected_schema_at, spec_projected_schema_in_message, stream_projected_schema_at, projected_schema_of, no_fields, read, with_item, joined_fields, item_of, fields_model_of};

use crate::columns::{ColumnSet, Projection};
use crate::dictionaries::DictionaryTypes;
use crate::metadata::metadata_at;
use crate::reading::{field_at, schema_message};
use crate::schema::Schema;
use crate::skipped_fields::skipped_field_at;
use crate::stored_types::{push_arrays, replace_in_field};
use crate::unions::check_version;
use ipc_flatbuf::message::{Message, MetadataVersion, next_message};
use ipc_flatbuf::{
    FieldAction, IpcReadError, SkippedField, StoredArray, VectorItems, i16_field, items_at,
    offset_at, offset_field, read_table,
};
use nest_memory::datatypes::Field;
use std::alloc::{AllocError, Global};

/// The projection of a schema: the fields that are read, whether each field of the schema is read or skipped, and the
/// dictionaries of the fields that are read.
#[derive(Drop)]
pub struct ProjectedSchema {
    pub schema: Schema,
    pub steps: Vec<FieldAction>,
    /// How the arrays of each field are stored in a record batch, in the order of field nodes.
    pub arrays: Vec<StoredArray>,
    pub dictionaries: DictionaryTypes,
}

// A field that is read, or the nodes and buffers of one that is skipped.
#[derive(Drop)]
enum Item {
    Read(Field),
    Passed(SkippedField),
}

// Whether each field is read or skipped, the fields that are read, and how the arrays of all are stored.
#[derive(Drop)]
struct Parts {
    steps: Vec<FieldAction>,
    fields: Vec<Field>,
    arrays: Vec<StoredArray>,
}

fn item_by(
    alloc: Global,
    picked: bool,
    bytes: &[u8],
    position: usize,
    left: usize,
    seen: &mut DictionaryTypes,
) -> Result<(Item, usize), IpcReadError>
    requires { length bytes.now < 2 ^ 32 }
    ensures { ReturnsOrRunsOut (λ x. (item_of x.0, progress_of x.1 seen.new)) result (spec_item_by picked bytes.now position (progress_of left seen.old)) }
{
    if picked {
        let (field, left) = field_at(alloc, 64, bytes, position, left, seen)?;
        Ok((Item::Read(field), left))
    } else {
        let (span, left) = skipped_field_at(64, bytes, position, left)?;
        Ok((Item::Passed(span), left))
    }
}

// The field with index i.
fn item_at(
    alloc: Global,
    column_set: &ColumnSet<'_>,
    i: usize,
    bytes: &[u8],
    position: usize,
    left: usize,
    seen: &mut DictionaryTypes,
) -> Result<(Item, usize), IpcReadError>
    requires made { IsColumnSet column_set.now }
    requires length { length bytes.now < 2 ^ 32 }
    ensures { ReturnsOrRunsOut (λ x. (item_of x.0, progress_of x.1 seen.new)) result (spec_item_at (columns_of column_set.now) bytes.now i position (progress_of left seen.old)) }
{
    let picked = column_set.contains_field(bytes, i, position, left)?;
    item_by(alloc, picked, bytes, position, left, seen)
}

fn push_read(parts: &mut Parts, stored: Field) -> Result<(), AllocError>
    ensures { OnOk result (fields_model_of parts.new ≡ joined_fields (fields_model_of parts.old) (with_item (read (field_of stored)) no_fields)) }
{
    let mut field = stored;
    push_arrays(&field.data_type, &mut parts.arrays)?;
    replace_in_field(&mut field);
    parts.steps.push(FieldAction::Read)?;
    parts.fields.push(field)?;
    Ok(())
}

fn push(parts: &mut Parts, item: Item) -> Result<(), AllocError>
    ensures { OnOk result (fields_model_of parts.new ≡ joined_fields (fields_model_of parts.old) (with_item (item_of item) no_fields)) }
{
    match item {
        Item::Read(field) => push_read(parts, field),
        Item::Passed(span) => {
            parts.steps.push(FieldAction::Skip(span))?;
            parts.arrays.push(StoredArray::Skipped(span))?;
            Ok(())
        }
    }
}

// The fields of a vector.
fn projected_fields_at(
    alloc: Global,
    column_set: &ColumnSet<'_>,
    bytes: &[u8],
    items: VectorItems,
    left: usize,
    seen: &mut DictionaryTypes,
) -> Result<(Parts, usize), IpcReadError>
    requires made { IsColumnSet column_set.now }
    requires length { length bytes.now < 2 ^ 32 }
    requires within { items.first + items.count * 4 ≤ length bytes.now }
    ensures { ReturnsOrRunsOut (λ x. (fields_model_of x.0, progress_of x.1 seen.new)) result (spec_projected_fields_of_items (columns_of column_set.now) bytes.now items (progress_of left seen.old)) }
{
    let mut parts = Parts {
        steps: Vec::new(alloc),
        fields: Vec::new(alloc),
        arrays: Vec::new(alloc),
    };
    let mut rest = left;
    for i in 0..items.count {
        let position = offset_at(bytes, items.first + 4 * i)?;
        let (item, after) = item_at(alloc, column_set, i, bytes, position, rest, seen)?;
        push(&mut parts, item)?;
        rest = after;
    }
    Ok((parts, rest))
}

/// Returns the projection of the schema whose table is at a position of the metadata, and the budget left.
///
/// # Errors
/// [`IpcReadError::Endianness`], and those of the fields and the custom metadata.
#[tactic(auto, unfolding(crate::specs::ProjectedSchemas::spec_projected_schema_at))]
pub fn projected_schema_at(
    alloc: Global,
    column_set: &ColumnSet<'_>,
    bytes: &[u8],
    position: usize,
    left: usize,
) -> Result<(ProjectedSchema, usize), IpcReadError>
    requires made { IsColumnSet column_set.now }
    requires length { length bytes.now < 2 ^ 32 }
    ensures { ReturnsOrRunsOut (λ x. (projected_schema_of x.0, x.1)) result (spec_projected_schema_at (columns_of column_set.now) bytes.now position left) }
{
    let (table, left) = read_table(bytes, position, left)?;
    if i16_field(bytes, table, 0, 0)? != 0 {
        return Err(IpcReadError::Endianness);
    }
    let (items, left) = items_at(4, bytes, offset_field(bytes, table, 1)?, left)?;
    let mut dictionaries = DictionaryTypes::new(alloc);
    let (parts, left) = projected_fields_at(
        alloc,
        column_set,
        bytes,
        items,
        left,
        &mut dictionaries,
    )?;
    let to = offset_field(bytes, table, 2)?;
    let (metadata, left) = metadata_at(alloc, bytes, to, left)?;
    let Parts {
        steps,
        fields,
        arrays,
    } = parts;
    let schema = Schema { fields, metadata };
    let picked = ProjectedSchema {
        schema,
        steps,
        arrays,
        dictionaries,
    };
    Ok((picked, left))
}

fn has_union(step: FieldAction) -> bool
    ensures { result ≡ spec_has_union step }
{
    match step {
        FieldAction::Read => false,
        FieldAction::Skip(span) => span.has_union,
    }
}

fn skips_union(steps: &[FieldAction]) -> bool
    ensures { result ≡ list_any spec_has_union steps.now }
{
    steps.iter().any(|step| has_union(*step))
}

/// Checks that the metadata version supports the fields, both those that are read and those that are skipped.
///
/// Before V5 unions had a validity bitmap, so unions of V4 are neither read nor skipped.
///
/// # Errors
/// [`IpcReadError::Version`] where the version is V4 and there is a union.
pub fn check_projected_version(
    version: MetadataVersion,
    fields: &[Field],
    steps: &[FieldAction],
) -> Result<(), IpcReadError>
    ensures { result ≡ spec_check_projected_version version (map field_of fields.now) steps.now }
{
    check_version(version, fields)?;
    match version {
        MetadataVersion::V5 => Ok(()),
        MetadataVersion::V4 => {
            if skips_union(steps) {
                Err(IpcReadError::Version)
            } else {
                Ok(())
            }
        }
    }
}

/// Returns the projection of the schema of the first message of a stream.
///
/// # Errors
/// [`IpcReadError::MissingSchema`] where the message is not a schema, and the errors of reading one.
#[tactic(auto, unfolding(crate::specs::ProjectedSchemas::spec_projected_schema_in_message))]
pub fn projected_schema_in_message(
    alloc: Global,
    columns: Projection<'_>,
    first: Option<Message<'_>>,
) -> Result<ProjectedSchema, IpcReadError>
    requires { IfSome first (λ m. length m.metadata.now < 2 ^ 31) }
    ensures { ReturnsOrRunsOut projected_schema_of result (spec_projected_schema_in_message (projection_of columns.entry) (optional_model_of first.entry)) }
{
    let message = schema_message(first)?;
    let column_set = ColumnSet::new(alloc, columns)?;
    let root = message.root;
    let (picked, _) = projected_schema_at(
        alloc,
        &column_set,
        message.metadata,
        root.header,
        root.left,
    )?;
    match check_projected_version(root.version, &picked.schema.fields, &picked.steps) {
        Err(error) => Err(error),
        Ok(_) => Ok(picked),
    }
}

/// Returns the projection of the schema of a stream, and the bytes after the schema message.
///
/// # Errors
/// [`IpcReadError::MissingSchema`] where the first message is not a schema, and the errors of reading one.
#[tactic(auto, unfolding(crate::specs::ProjectedSchemas::stream_projected_schema_at))]
pub fn read_projected_schema<'a>(
    alloc: Global,
    columns: Projection<'_>,
    bytes: &'a [u8],
) -> Result<(ProjectedSchema, &'a [u8]), IpcReadError>
    ensures { ReturnsOrRunsOut (λ x. (projected_schema_of x.0, x.1.now)) result (stream_projected_schema_at (projection_of columns.entry) bytes.now) }
{
    let (first, rest) = next_message(bytes)?;
    let picked = projected_schema_in_message(alloc, columns, first)?;
    Ok((picked, rest))
}
