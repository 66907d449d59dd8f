//! Readers of schemas.
ghost use Rattle.std.specs.Prelude.{◌≡◌, ◌<◌, ◌≤◌, ◌^◌, ◌+◌, ◌*◌, not, map, length, IfOk, IfSome, Ok, string_bytes};
ghost use Rattle.nest_memory.specs.TypeOf.{entries_of, field_of, type_of};
ghost use Rattle.ipc_schema.specs.Extensions.{spec_names_reserved, field_with_metadata};
ghost use Rattle.ipc_flatbuf.specs.ReadResults.{ReturnsOrRunsOut, Returns, check};
ghost use Rattle.ipc_flatbuf.specs.declared.error.IpcReadError.TheVariants.{ChildCount, UnsupportedType};
ghost use Rattle.ipc_schema.specs.FieldVectors.{tables_in_turn};
ghost use Rattle.ipc_schema.specs.DictionaryModels.{seen_of, progress_of};
ghost use Rattle.ipc_flatbuf.specs.Messages.{model_of, optional_model_of};
ghost use Rattle.ipc_schema.specs.Types.{spec_can_have};
ghost use Rattle.ipc_schema.specs.ShapeModels.{shape_tree, completed_type};
ghost use Rattle.ipc_schema.specs.Schemas.{field_of_keys, spec_field_over, spec_field_at, spec_fields_of_items, spec_schema_at, schema_parts, stream_schema_at, spec_read_schema, schema_of, schema_with_dictionaries_of};

use crate::dictionaries::{
    DictionaryTypes, Encoding, dictionary_at, dictionary_type_of, record_id, record_values,
};
use crate::metadata::{metadata_at, names_reserved, take};
use crate::nested::shape_at;
use crate::schema::{Schema, SchemaWithDictionaries};
use crate::stored_types::fields_read;
use crate::type_shapes::{Shape, can_have, with_children};
use crate::type_tags::type_position;
use crate::unions::check_version;
use ipc_flatbuf::message::{Message, MessageKind, next_message};
use ipc_flatbuf::{
    IpcReadError, VectorItems, i16_field, items_at, offset_at, offset_field, read_table, str_at,
    u8_field,
};
use nest_memory::datatypes::{DataType, Field, Metadata};
use std::alloc::Global;

// Checks the number of children of a type.
fn check_child_count(shape: &Shape<'_>, count: usize) -> Result<(), IpcReadError>
    ensures { result ≡ check (spec_can_have (shape_tree shape.now) count) ChildCount }
{
    if can_have(shape, count) {
        Ok(())
    } else {
        Err(IpcReadError::ChildCount)
    }
}

// Checks that the metadata of a field names no extension type whose name is reserved.
fn check_extension_name(metadata: &Metadata) -> Result<(), IpcReadError>
    ensures { result ≡ check (not (spec_names_reserved (entries_of metadata.now.entries))) UnsupportedType }
{
    if names_reserved(metadata) {
        Err(IpcReadError::UnsupportedType)
    } else {
        Ok(())
    }
}

// The dictionary encoding of a field, and the number of ids before its own.
#[derive(Clone, Copy)]
struct Keys {
    dictionary: Option<Encoding>,
    before: usize,
}

// The field of a type and all its metadata, which may contain the keys of an extension type.
fn extension_field(
    alloc: Global,
    name: String,
    data_type: DataType,
    is_nullable: bool,
    all: Metadata,
) -> Result<Field, IpcReadError>
    ensures { ReturnsOrRunsOut field_of result (Ok (field_with_metadata (string_bytes name) (type_of data_type) is_nullable (entries_of all.entries))) }
{
    let mut metadata = all;
    match take(&mut metadata, "ARROW:extension:name") {
        None => Ok(Field {
            name,
            data_type,
            is_nullable,
            metadata,
        }),
        Some(title) => {
            let text = take(&mut metadata, "ARROW:extension:metadata");
            let inner = Box::new(alloc, data_type)?;
            Ok(Field {
                name,
                data_type: DataType::Extension(title, inner, text),
                is_nullable,
                metadata,
            })
        }
    }
}

// The field of its parts; adds the value type of its dictionary id.
fn field_with(
    alloc: Global,
    name: &str,
    shape: Shape<'_>,
    fields: Vec<Field>,
    is_nullable: bool,
    metadata: Metadata,
    keys: Keys,
    seen: &mut DictionaryTypes,
) -> Result<Field, IpcReadError>
    ensures { ReturnsOrRunsOut (λ x. (field_of x, seen_of seen.new)) result (field_of_keys name.now is_nullable (entries_of metadata.entries) keys (seen_of seen.old) (completed_type shape.entry fields)) }
{
    let values = with_children(alloc, shape, fields)?;
    record_values(alloc, seen, keys.dictionary, &values, keys.before)?;
    let data_type = dictionary_type_of(alloc, keys.dictionary, values)?;
    let name = String::from_str(alloc, name)?;
    extension_field(alloc, name, data_type, is_nullable, metadata)
}

// A field whose children have this depth at most.
#[cycle(fields)]
fn field_over(
    alloc: Global,
    depth: u8,
    bytes: &[u8],
    position: usize,
    left: usize,
    seen: &mut DictionaryTypes,
) -> Result<(Field, usize), IpcReadError>
    requires { length bytes.now < 2 ^ 32 }
    ensures { ReturnsOrRunsOut (λ x. (field_of x.0, progress_of x.1 seen.new)) result (spec_field_over (spec_field_at depth bytes.now) bytes.now position (progress_of left seen.old)) }
{
    let (table, left) = read_table(bytes, position, left)?;
    let (name, left) = str_at(bytes, offset_field(bytes, table, 0)?, left)?;
    let is_nullable = u8_field(bytes, table, 1)? > 0;
    let number = u8_field(bytes, table, 2)?;
    let (tag, position) = type_position(number, offset_field(bytes, table, 3)?)?;
    let (children, left) = items_at(4, bytes, offset_field(bytes, table, 5)?, left)?;
    let (shape, left) = shape_at(alloc, tag, children.count, bytes, position, left)?;
    let (dictionary, left) = dictionary_at(bytes, offset_field(bytes, table, 4)?, left)?;
    check_child_count(&shape, children.count)?;
    let before = seen.ids.len();
    let keys = Keys { dictionary, before };
    record_id(seen, dictionary)?;
    let (fields, left) = fields_at(alloc, depth, bytes, children, left, seen)?;
    let (metadata, left) = metadata_at(alloc, bytes, offset_field(bytes, table, 6)?, left)?;
    check_extension_name(&metadata)?;
    let field = field_with(
        alloc,
        name,
        shape,
        fields,
        is_nullable,
        metadata,
        keys,
        seen,
    )?;
    Ok((field, left))
}

/// Returns the field at a position with its descendants, to a depth, and the budget left.
#[cycle(fields)]
pub fn field_at(
    alloc: Global,
    depth: u8,
    bytes: &[u8],
    position: usize,
    left: usize,
    seen: &mut DictionaryTypes,
) -> Result<(Field, usize), IpcReadError>
    requires { length bytes.now < 2 ^ 32 }
    ensures { ReturnsOrRunsOut (λ x. (field_of x.0, progress_of x.1 seen.new)) result (spec_field_at depth bytes.now position (progress_of left seen.old)) }
{
    if depth == 0 {
        return Err(IpcReadError::Depth);
    }
    field_over(alloc, depth - 1, bytes, position, left, seen)
}

// The fields of a vector.
#[cycle(fields)]
fn fields_at(
    alloc: Global,
    depth: u8,
    bytes: &[u8],
    items: VectorItems,
    left: usize,
    seen: &mut DictionaryTypes,
) -> Result<(Vec<Field>, usize), IpcReadError>
    requires length { length bytes.now < 2 ^ 32 }
    requires within { items.first + items.count * 4 ≤ length bytes.now }
    ensures { ReturnsOrRunsOut (λ x. (map field_of x.0.items, progress_of x.1 seen.new)) result (spec_fields_of_items depth bytes.now items (progress_of left seen.old)) }
{
    let mut fields = Vec::new(alloc);
    let mut rest = left;
    for i in 0..items.count {
        let position = offset_at(bytes, items.first + 4 * i)?;
        let (field, after) = field_at(alloc, depth, bytes, position, rest, seen)?;
        fields.push(field)?;
        rest = after;
    }
    Ok((fields, rest))
}

/// Returns the schema whose table is at a position of the metadata as it is stored, with its dictionaries, and the budget left.
///
/// # Errors
/// [`IpcReadError::Endianness`], and those of the fields and the custom metadata.
///
/// Source: Schema.fbs, table `Schema`.
#[tactic(auto, unfolding(crate::specs::Schemas::spec_schema_at))]
pub fn schema_at(
    alloc: Global,
    bytes: &[u8],
    position: usize,
    left: usize,
) -> Result<(SchemaWithDictionaries, usize), IpcReadError>
    requires { length bytes.now < 2 ^ 32 }
    ensures { ReturnsOrRunsOut (λ x. (schema_with_dictionaries_of x.0, x.1)) result (spec_schema_at bytes.now position left) }
{
    let (table, left) = read_table(bytes, position, left)?;
    if i16_field(bytes, table, 0, 0)? != 0 {
        return Err(IpcReadError::Endianness);
    }
    let (items, left) = items_at(4, bytes, offset_field(bytes, table, 1)?, left)?;
    let mut dictionaries = DictionaryTypes::new(alloc);
    let (fields, left) = fields_at(alloc, 64, bytes, items, left, &mut dictionaries)?;
    let to = offset_field(bytes, table, 2)?;
    let (metadata, left) = metadata_at(alloc, bytes, to, left)?;
    let schema = Schema { fields, metadata };
    let parsed = SchemaWithDictionaries {
        schema,
        dictionaries,
    };
    Ok((parsed, left))
}

/// Checks that a message is a schema without a body.
///
/// # Errors
/// [`IpcReadError::MissingSchema`] where it is not a schema, [`IpcReadError::BodyLength`] where it has a body.
pub fn schema_message(first: Option<Message<'_>>) -> Result<Message<'_>, IpcReadError>
    requires { IfSome first (λ m. length m.metadata.now < 2 ^ 31) }
    ensures parts { Returns model_of result (schema_parts (optional_model_of first.entry)) }
    ensures small { IfOk result (λ m. length m.metadata.now < 2 ^ 31) }
{
    match first {
        None => Err(IpcReadError::MissingSchema),
        Some(message) => {
            if message.root.kind != MessageKind::Schema {
                Err(IpcReadError::MissingSchema)
            } else if message.root.body_length != 0 {
                Err(IpcReadError::BodyLength)
            } else {
                Ok(message)
            }
        }
    }
}

// Returns a schema as it is read.
fn as_read(stored: SchemaWithDictionaries) -> SchemaWithDictionaries
    ensures { schema_with_dictionaries_of result ≡ (spec_read_schema (schema_of stored.schema), seen_of stored.dictionaries) }
{
    let SchemaWithDictionaries {
        schema,
        dictionaries,
    } = stored;
    let Schema { fields, metadata } = schema;
    let fields = fields_read(fields);
    SchemaWithDictionaries {
        schema: Schema { fields, metadata },
        dictionaries,
    }
}

/// Returns the schema of a stream with its dictionaries, and the bytes after the schema message.
///
/// # Errors
/// [`IpcReadError::MissingSchema`] where the first message is not a schema, [`IpcReadError::Version`] where the
/// version does not support its types, and the errors of messages, fields and custom metadata.
#[tactic(auto, unfolding(crate::specs::Schemas::stream_schema_at, crate::specs::Schemas::stored_schema_of_stream))]
pub fn read_schema(
    alloc: Global,
    bytes: &[u8],
) -> Result<(SchemaWithDictionaries, &[u8]), IpcReadError>
    ensures { ReturnsOrRunsOut (λ x. (schema_with_dictionaries_of x.0, x.1.now)) result (stream_schema_at bytes.now) }
{
    let (first, rest) = next_message(bytes)?;
    let message = schema_message(first)?;
    let root = message.root;
    let (stored, _) = schema_at(alloc, message.metadata, root.header, root.left)?;
    let parsed = as_read(stored);
    match check_version(root.version, &parsed.schema.fields) {
        Err(error) => Err(error),
        Ok(_) => Ok((parsed, rest)),
    }
}
