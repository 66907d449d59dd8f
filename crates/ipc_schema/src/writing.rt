//! Writers of schemas.
ghost use Rattle.std.specs.Prelude.{◌≡◌, ◌<◌, ◌≤◌, ◌^◌, ◌+◌, ◌++◌, List, ℕ, map, true, length, IfOk, OnOk, IfErr, Ok, option_map, unwrap_or, string_bytes};
ghost use Rattle.std.specs.BTreeMap.{IsOrdered};
ghost use Rattle.std.specs.List.{AllByRecursion};
ghost use Rattle.std.specs.Str.{is_utf8};
ghost use Rattle.std.specs.String.{string_cmp};
ghost use Rattle.nest_memory.specs.TypeOf.{type_of, field_of, entries_of};
ghost use Rattle.ipc_flatbuf.specs.PartBytes.{concatenated, bytes_of_each};
ghost use Rattle.ipc_flatbuf.specs.WriteErrors.{IsSizeError};
ghost use Rattle.ipc_flatbuf.specs.VectorLaws.{ReadsBackAs};
ghost use Rattle.ipc_flatbuf.specs.MessageBytes.{message_bytes, metadata_size};
ghost use Rattle.ipc_flatbuf.specs.declared.message.types.MessageKind.TheVariants.{Schema as SchemaKind};
ghost use Rattle.ipc_schema.specs.Schemas.{schema_of, spec_schema_at, stream_schema_at};
ghost use Rattle.ipc_schema.specs.Projections.{all};
ghost use Rattle.ipc_schema.specs.ProjectedSchemas.{stream_projected_schema_at};
ghost use Rattle.ipc_schema.specs.ProjectionLaws.{all_written};
ghost use Rattle.ipc_schema.specs.DictionaryIds.{total, count_dictionaries};
ghost use Rattle.ipc_schema.specs.WriteChecks.{spec_check_type, spec_has_free_name, spec_has_no_reserved_key, spec_check_own, spec_check_each, spec_check_field, check_fields, IsSchemaWriteError};
ghost use Rattle.ipc_schema.specs.SchemaBytes.{field_vtable, field_head, entries_bytes, parts_of_field, field_bytes, each_bytes, field_parts, schema_bytes, schema_message};
ghost use Rattle.ipc_schema.specs.MetadataLaws.{AreUtf8};
ghost use Rattle.ipc_schema.specs.TypeLaws.{TypeFits};
ghost use Rattle.ipc_schema.specs.FieldLaws.{FieldFits, TableFits, name_of, nullable_of, own_entries, own_type, table_bytes};
ghost use Rattle.ipc_schema.specs.Extensions.{all_metadata_of};
ghost use Rattle.ipc_schema.specs.SchemaLaws.{SchemaFits, part_of, with_dictionary_ids, schema_cost};

use crate::dictionaries::Encoding;
use crate::dictionary_writing::{
    can_encode, dictionary_len, dictionary_slot, encoding_of, table_len, write_dictionary,
};
use crate::metadata::{has_key, with_extension, write_metadata};
use crate::schema::Schema;
use crate::stored_types::is_reserved_name;
use crate::type_writing::{
    check_type, children_of, is_extension, storage_type, table_type, type_number, write_type,
};
use ipc_flatbuf::message::{MessageKind, write_message};
use ipc_flatbuf::{IpcWriteError, write_offset, write_string, write_tables};
use nest_memory::datatypes::floats::is_float;
use nest_memory::datatypes::{DataType, Field, Metadata};
use std::alloc::{AllocError, Global};

// Whether the name of an extension type is not reserved.
fn has_free_name(data_type: &DataType) -> bool
    ensures { result ≡ spec_has_free_name (type_of data_type.now) }
{
    match data_type {
        DataType::Extension(title, _, _) => is_float(data_type) || !is_reserved_name(title),
        _ => true,
    }
}

// Whether a field has no name and no metadata key that is reserved for extension types.
fn has_no_reserved_key(data_type: &DataType, own: &Metadata) -> bool
    ensures { result ≡ spec_has_no_reserved_key (type_of data_type.now) (entries_of own.now.entries) }
{
    has_free_name(data_type)
        && !has_key(own, "ARROW:extension:name")
        && !(is_extension(data_type) && has_key(own, "ARROW:extension:metadata"))
}

// Checks that a field can be written, without its children.
#[tactic(auto, unfolding(crate::specs::WriteChecks::spec_check_own))]
fn check_own(field: &Field) -> Result<(), IpcWriteError>
    ensures { result ≡ spec_check_own (field_of field.now) }
{
    let data_type = field.data_type();
    if is_extension(storage_type(data_type)) {
        Err(IpcWriteError::Extension)
    } else if !can_encode(storage_type(data_type)) {
        Err(IpcWriteError::Dictionary)
    } else if !has_no_reserved_key(data_type, own_metadata(field)) {
        Err(IpcWriteError::Extension)
    } else {
        check_type(table_type(data_type))
    }
}

// Checks that a field with its descendants can be written, to a depth.
#[cycle(checks)]
fn check_field(depth: u8, field: &Field) -> Result<(), IpcWriteError>
    ensures { result ≡ spec_check_field depth (field_of field.now) }
{
    if depth == 0 {
        return Err(IpcWriteError::Depth);
    }
    check_own(field)?;
    check_each(depth - 1, children_of(table_type(field.data_type())))
}

// Checks that each field can be written.
#[cycle(checks)]
fn check_each(depth: u8, fields: &[Field]) -> Result<(), IpcWriteError>
    ensures { result ≡ spec_check_each (spec_check_field depth) (map field_of fields.now) }
{
    for field in fields {
        check_field(depth, field)?;
    }
    Ok(())
}

// The ends of the parts of a field: its dictionary, its type, its children, its name.
#[derive(Clone, Copy)]
struct Ends {
    dictionary_end: usize,
    type_end: usize,
    children_end: usize,
    name_end: usize,
}

// The table of a field, up to its first offset.
#[tactic(auto, unfolding(crate::specs::SchemaBytes::field_vtable))]
fn write_vtable(out: &mut Vec<u8>, dictionary: &Option<Encoding>) -> Result<(), AllocError>
    ensures { OnOk result (out.new.items ≡ out.old.items ++ field_vtable dictionary.now) }
{
    let len = table_len(dictionary);
    let slot = dictionary_slot(dictionary);
    out.extend_from_slice(&[
        18, 0, len, 0, 4, 0, 20, 0, 21, 0, 8, 0, slot, 0, 12, 0, 16, 0, 0, 0, 0, 0, 0, 0, 24, 0, 0,
        0,
    ])
}

// The table of a field, before its parts.
#[tactic(auto, unfolding(crate::specs::SchemaBytes::field_head))]
fn write_head(
    out: &mut Vec<u8>,
    is_nullable: bool,
    tag: u8,
    dictionary: &Option<Encoding>,
    ends: Ends,
) -> Result<(), IpcWriteError>
    requires rising { (ends.dictionary_end ≤ ends.name_end) × (ends.type_end ≤ ends.name_end) × (ends.children_end ≤ ends.name_end) }
    requires small { ends.name_end < 2 ^ 63 }
    ensures ok { OnOk result (out.new.items ≡ out.old.items ++ field_head is_nullable tag dictionary.now ends.dictionary_end ends.type_end ends.children_end ends.name_end) }
    ensures size { IfErr result (λ why. IsSizeError why (48 + ends.name_end)) }
{
    write_vtable(out, dictionary)?;
    write_offset(out, 20 + ends.children_end, 0)?;
    write_offset(out, 28 + ends.dictionary_end, 0)?;
    write_offset(out, 12 + ends.type_end, 0)?;
    write_offset(out, 8 + ends.name_end, 0)?;
    out.extend_from_slice(&[is_nullable as u8, tag, 0, 0])?;
    Ok(())
}

// The table of a field and its parts.
#[tactic(auto, unfolding(crate::specs::SchemaBytes::field_parts))]
fn write_field(
    out: &mut Vec<u8>,
    is_nullable: bool,
    tag: u8,
    dictionary: &Option<Encoding>,
    data_type: &[u8],
    children: &[u8],
    name: &[u8],
    metadata: &[u8],
) -> Result<(), IpcWriteError>
    ensures ok { OnOk result (out.new.items ≡ out.old.items ++ field_parts is_nullable tag dictionary.now data_type.now children.now name.now metadata.now) }
    ensures size { IfErr result (λ why. IsSizeError why (length (field_parts is_nullable tag dictionary.now data_type.now children.now name.now metadata.now))) }
{
    if data_type.len() >= 1 << 31 || children.len() >= 1 << 31 || name.len() >= 1 << 31 {
        return Err(IpcWriteError::Size);
    }
    let dictionary_end = dictionary_len(dictionary);
    let type_end = dictionary_end + data_type.len();
    let children_end = type_end + children.len();
    let name_end = children_end + name.len();
    let ends = Ends {
        dictionary_end,
        type_end,
        children_end,
        name_end,
    };
    write_head(out, is_nullable, tag, dictionary, ends)?;
    write_dictionary(out, dictionary)?;
    out.extend_from_slice(data_type)?;
    out.extend_from_slice(children)?;
    out.extend_from_slice(name)?;
    out.extend_from_slice(metadata)?;
    Ok(())
}

// The part of a field; the type is the value type where it is dictionary-encoded.
fn field_part_of_type(
    alloc: Global,
    name: &String,
    is_nullable: bool,
    dictionary: &Option<Encoding>,
    data_type: &DataType,
    children: &[u8],
    own: &Metadata,
) -> Result<Vec<u8>, IpcWriteError>
    requires { spec_check_type (type_of data_type.now) ≡ Ok tt }
    ensures ok { IfOk result (λ part. part.items ≡ parts_of_field is_nullable dictionary.now (type_of data_type.now) children.now (string_bytes name.now) (entries_of own.now.entries)) }
    ensures fits { OnOk result ((is_utf8 (string_bytes name.now) ≡ true) × TypeFits (type_of data_type.now) × AreUtf8 (entries_of own.now.entries)) }
    ensures rising { IsOrdered string_cmp own.now }
    ensures size { IfErr result (λ why. IsSizeError why (length (parts_of_field is_nullable dictionary.now (type_of data_type.now) children.now (string_bytes name.now) (entries_of own.now.entries)))) }
{
    let _len = own.len();
    let mut table = Vec::new(alloc);
    write_type(&mut table, data_type)?;
    let mut text = Vec::new(alloc);
    write_string(&mut text, name.as_str())?;
    let mut metadata = Vec::new(alloc);
    write_metadata(alloc, &mut metadata, own)?;
    let mut out = Vec::new(alloc);
    write_field(
        &mut out,
        is_nullable,
        type_number(data_type),
        dictionary,
        &table,
        children,
        &text,
        &metadata,
    )?;
    Ok(out)
}

fn field_name(field: &Field) -> &String
    ensures { string_bytes result.now ≡ name_of (field_of field.now) }
{
    &field.name
}

fn is_nullable(field: &Field) -> bool
    ensures { result ≡ nullable_of (field_of field.now) }
{
    field.is_nullable
}

fn own_metadata(field: &Field) -> &Metadata
    ensures { entries_of result.now.entries ≡ own_entries (field_of field.now) }
{
    &field.metadata
}

// All metadata of a field, with the keys of its extension type.
fn all_metadata(
    alloc: Global,
    data_type: &DataType,
    own: &Metadata,
) -> Result<Option<Metadata>, AllocError>
    ensures { IfOk result (λ all. unwrap_or (option_map (λ m. entries_of m.entries) all) (entries_of own.now.entries) ≡ all_metadata_of (type_of data_type.now) (entries_of own.now.entries)) }
{
    match data_type {
        DataType::Extension(title, _, text) if !is_float(data_type) => {
            let all = with_extension(alloc, own, title, text)?;
            Ok(Some(all))
        }
        _ => Ok(None),
    }
}

// The part of a field, with the keys of its extension type and the parts of its children.
fn field_part_over(
    alloc: Global,
    dictionary: &Option<Encoding>,
    field: &Field,
    children: &[u8],
) -> Result<Vec<u8>, IpcWriteError>
    requires { spec_check_type (own_type (field_of field.now)) ≡ Ok tt }
    ensures ok { IfOk result (λ part. part.items ≡ table_bytes dictionary.now (field_of field.now) children.now) }
    ensures fits { OnOk result (TableFits (field_of field.now)) }
    ensures size { IfErr result (λ why. IsSizeError why (length (table_bytes dictionary.now (field_of field.now) children.now))) }
{
    let name = field_name(field);
    let nullable = is_nullable(field);
    let data_type = table_type(field.data_type());
    let own = own_metadata(field);
    match all_metadata(alloc, field.data_type(), own)? {
        None => field_part_of_type(alloc, name, nullable, dictionary, data_type, children, own),
        Some(all) => field_part_of_type(
            alloc, name, nullable, dictionary, data_type, children, &all,
        ),
    }
}

// The part of a field with its descendants, and the next dictionary id after it.
#[cycle(parts)]
fn field_part(
    alloc: Global,
    depth: u8,
    next: usize,
    field: &Field,
) -> Result<(Vec<u8>, usize), IpcWriteError>
    requires { spec_check_field depth (field_of field.now) ≡ Ok tt }
    ensures ok { IfOk result (λ part. part.0.items ≡ field_bytes depth next (field_of field.now)) }
    ensures behind { IfOk result (λ part. part.1 ≡ next + count_dictionaries depth (field_of field.now)) }
    ensures fits { OnOk result (FieldFits depth (field_of field.now)) }
    ensures size { IfErr result (λ why. IsSizeError why (next + length (field_bytes depth next (field_of field.now)))) }
{
    let data_type = field.data_type();
    let (dictionary, inner) = encoding_of(next, data_type)?;
    let children = children_of(table_type(data_type));
    let (parts, behind) = field_parts_of(alloc, depth - 1, inner, children)?;
    let mut row = Vec::new(alloc);
    write_tables(&mut row, 24, &parts)?;
    let part = field_part_over(alloc, &dictionary, field, &row)?;
    Ok((part, behind))
}

// The part of each field, and the next dictionary id after them.
#[cycle(parts)]
fn field_parts_of(
    alloc: Global,
    depth: u8,
    next: usize,
    fields: &[Field],
) -> Result<(Vec<Vec<u8>>, usize), IpcWriteError>
    requires { spec_check_each (spec_check_field depth) (map field_of fields.now) ≡ Ok tt }
    ensures ok { IfOk result (λ parts. bytes_of_each parts.0.items ≡ each_bytes depth next (map field_of fields.now)) }
    ensures behind { IfOk result (λ parts. parts.1 ≡ next + total (count_dictionaries depth) (map field_of fields.now)) }
    ensures fits { OnOk result (AllByRecursion (FieldFits depth) (map field_of fields.now)) }
    ensures size { IfErr result (λ why. IsSizeError why (next + length (concatenated (each_bytes depth next (map field_of fields.now))))) }
{
    let mut parts = Vec::new(alloc);
    let mut behind = next;
    for field in fields {
        let (part, after) = field_part(alloc, depth, behind, field)?;
        parts.push(part)?;
        behind = after;
    }
    Ok((parts, behind))
}

// Appends the part of a schema.
#[tactic(auto, unfolding(crate::specs::SchemaBytes::schema_bytes))]
fn write_schema_part(out: &mut Vec<u8>, fields: &[u8], metadata: &[u8]) -> Result<(), IpcWriteError>
    ensures ok { OnOk result (out.new.items ≡ out.old.items ++ schema_bytes fields.now metadata.now) }
    ensures size { IfErr result (λ why. IsSizeError why (length (schema_bytes fields.now metadata.now))) }
{
    out.extend_from_slice(&[
        10, 0, 12, 0, 0, 0, 4, 0, 8, 0, 0, 0, 0, 0, 0, 0, 16, 0, 0, 0, 12, 0, 0, 0,
    ])?;
    write_offset(out, 8 + fields.len(), 0)?;
    out.extend_from_slice(&[0, 0, 0, 0])?;
    out.extend_from_slice(fields)?;
    out.extend_from_slice(metadata)?;
    Ok(())
}

// The part of a schema whose fields can be written.
fn schema_bytes_of(alloc: Global, schema: &Schema) -> Result<Vec<u8>, IpcWriteError>
    requires { check_fields (schema_of schema.now).fields ≡ Ok tt }
    ensures ok { IfOk result (λ part. part.items ≡ part_of (schema_of schema.now)) }
    ensures fits { OnOk result (SchemaFits (schema_of schema.now)) }
    ensures size { IfErr result (λ why. IsSizeError why (length (part_of (schema_of schema.now)))) }
{
    let mut fields = Vec::new(alloc);
    let (parts, _) = field_parts_of(alloc, 64, 0, &schema.fields)?;
    write_tables(&mut fields, 24, &parts)?;
    let mut metadata = Vec::new(alloc);
    write_metadata(alloc, &mut metadata, &schema.metadata)?;
    let mut part = Vec::new(alloc);
    write_schema_part(&mut part, &fields, &metadata)?;
    Ok(part)
}

/// Returns the part of the metadata that holds the table of a schema, 16 bytes into it.
///
/// At any position it is read as the schema. Its dictionaries have the ids 0, 1, 2 and so on, in pre-order.
///
/// # Errors
/// The error of the first field that cannot be written, and [`IpcWriteError::Size`].
pub fn schema_with_dictionaries_table(
    alloc: Global,
    schema: &Schema,
) -> Result<Vec<u8>, IpcWriteError>
    ensures again { OnOk result (ReadsBackAs spec_schema_at 16 (part_of (schema_of schema.now)) (with_dictionary_ids (schema_of schema.now)) (schema_cost (schema_of schema.now))) }
    ensures bytes { IfOk result (λ part. part.items ≡ part_of (schema_of schema.now)) }
    ensures fits { OnOk result (SchemaFits (schema_of schema.now)) }
    ensures err { IfErr result (IsSchemaWriteError (check_fields (schema_of schema.now).fields) (length (part_of (schema_of schema.now)))) }
{
    check_each(64, &schema.fields)?;
    let part = schema_bytes_of(alloc, schema)?;
    Ok(part)
}

// The schema message of a part.
fn message_of(alloc: Global, part: &[u8]) -> Result<Vec<u8>, IpcWriteError>
    ensures bytes { IfOk result (λ out. out.items ≡ message_bytes SchemaKind 0 16 part.now) }
    ensures small { OnOk result (metadata_size (message_bytes SchemaKind 0 16 part.now) < 2 ^ 31) }
    ensures size { IfErr result (λ why. IsSizeError why (metadata_size (message_bytes SchemaKind 0 16 part.now))) }
{
    let mut out = Vec::new(alloc);
    write_message(alloc, &mut out, MessageKind::Schema, 0, 16, part)?;
    Ok(out)
}

/// Returns the schema message of a schema.
///
/// The schema round-trips, whatever bytes follow. Its dictionaries have the ids 0, 1, 2 and so on, in pre-order.
///
/// # Errors
/// The error of the first field that cannot be written, [`IpcWriteError::Size`] where the metadata has 2^31 bytes or
/// more, [`IpcWriteError::Memory`] where an allocation fails.
pub fn write_schema_with_dictionaries(
    alloc: Global,
    schema: &Schema,
) -> Result<Vec<u8>, IpcWriteError>
    ensures again { IfOk result (λ out. (rest : List ℕ) → stream_schema_at (out.items ++ rest) ≡ Ok (with_dictionary_ids (schema_of schema.now), rest)) }
    ensures columns { IfOk result (λ out. (rest : List ℕ) → stream_projected_schema_at all (out.items ++ rest) ≡ Ok (all_written (schema_of schema.now), rest)) }
    ensures bytes { IfOk result (λ out. out.items ≡ schema_message (schema_of schema.now)) }
    ensures form { OnOk result (check_fields (schema_of schema.now).fields ≡ Ok tt) }
    ensures small { OnOk result (metadata_size (schema_message (schema_of schema.now)) < 2 ^ 31) }
    ensures err { IfErr result (IsSchemaWriteError (check_fields (schema_of schema.now).fields) (metadata_size (schema_message (schema_of schema.now)))) }
{
    let part = schema_with_dictionaries_table(alloc, schema)?;
    let message = message_of(alloc, &part)?;
    Ok(message)
}
