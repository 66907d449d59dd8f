//! Readers and writers of custom metadata, vectors of `KeyValue`.
ghost use Rattle.std.specs.Prelude.{◌≡◌, ◌<◌, ◌≤◌, ◌^◌, ◌+◌, ◌*◌, ◌++◌, true, map, length, IfOk, OnOk, IfErr, Ok, option_map, string_bytes};
ghost use Rattle.std.specs.Str.{is_utf8};
ghost use Rattle.std.specs.String.{string_cmp};
ghost use Rattle.std.specs.BTreeMap.{IsOrdered};
ghost use Rattle.nest_memory.specs.TypeOf.{entries_of, text_of};
ghost use Rattle.ipc_flatbuf.specs.ReadResults.{ReturnsOrRunsOut, Returns};
ghost use Rattle.ipc_flatbuf.specs.PartBytes.{concatenated, bytes_of_each};
ghost use Rattle.ipc_flatbuf.specs.Flatbuffers.{tables_at};
ghost use Rattle.ipc_flatbuf.specs.WriteErrors.{IsSizeError};
ghost use Rattle.ipc_schema.specs.Schemas.{spec_pair_at, spec_metadata_at, with_all};
ghost use Rattle.ipc_schema.specs.Extensions.{extension_name, metadata_value, spec_names_reserved, spec_has_key, without, spec_with_pair, with_text};
ghost use Rattle.ipc_schema.specs.SchemaBytes.{pair_bytes, entries_bytes};
ghost use Rattle.ipc_schema.specs.MetadataLaws.{AreUtf8};

use crate::stored_types::is_reserved_name;
use ipc_flatbuf::{
    IpcReadError, IpcWriteError, VectorItems, items_at, offset_at, offset_field, read_table,
    str_at, write_offset, write_string, write_tables,
};
use nest_memory::datatypes::Metadata;
use std::alloc::{AllocError, Global};
use std::collections::BTreeMap;

/// A key and its value (Schema.fbs, table `KeyValue`).
#[derive(Clone, Copy)]
pub struct Pair<'a> {
    pub key: &'a str,
    pub value: &'a str,
}

#[tactic(auto, unfolding(crate::specs::Schemas::spec_pair_at))]
fn pair_at(bytes: &[u8], position: usize, left: usize) -> Result<(Pair<'_>, usize), IpcReadError>
    requires { length bytes.now < 2 ^ 32 }
    ensures { Returns (λ x. ((x.0.key.now, x.0.value.now), x.1)) result (spec_pair_at bytes.now position left) }
{
    let (table, left) = read_table(bytes, position, left)?;
    let key_at = offset_field(bytes, table, 0)?;
    let (key, left) = str_at(bytes, key_at, left)?;
    let value_at = offset_field(bytes, table, 1)?;
    let (value, left) = str_at(bytes, value_at, left)?;
    if key_at.is_some() && value_at.is_some() {
        Ok((Pair { key, value }, left))
    } else {
        Err(IpcReadError::Metadata)
    }
}

// Inserts a pair; a later value of a key replaces the earlier one.
fn insert(alloc: Global, metadata: &mut Metadata, key: &str, value: &str) -> Result<(), AllocError>
    ensures { OnOk result (entries_of metadata.new.entries ≡ spec_with_pair key.now value.now (entries_of metadata.old.entries)) }
{
    let key = String::from_str(alloc, key)?;
    let value = String::from_str(alloc, value)?;
    metadata.insert(key, value)?;
    Ok(())
}

fn pairs_of(
    alloc: Global,
    bytes: &[u8],
    items: VectorItems,
    left: usize,
) -> Result<(Metadata, usize), IpcReadError>
    requires length { length bytes.now < 2 ^ 32 }
    requires within { items.first + items.count * 4 ≤ length bytes.now }
    ensures { ReturnsOrRunsOut (λ x. (entries_of x.0.entries, x.1)) result (with_all (tables_at (spec_pair_at bytes.now) bytes.now items.count items.first left)) }
{
    let mut metadata = BTreeMap::new(alloc);
    let mut rest = left;
    for i in 0..items.count {
        let position = offset_at(bytes, items.first + 4 * i)?;
        let (pair, after) = pair_at(bytes, position, rest)?;
        insert(alloc, &mut metadata, pair.key, pair.value)?;
        rest = after;
    }
    Ok((metadata, rest))
}

/// Returns the custom metadata at a position, empty where it is absent, and the budget left.
///
/// # Errors
/// [`IpcReadError::Metadata`] where a pair has no key or no value, and those of flatbuffers.
#[tactic(auto, unfolding(crate::specs::Schemas::spec_metadata_at))]
pub fn metadata_at(
    alloc: Global,
    bytes: &[u8],
    position: Option<usize>,
    left: usize,
) -> Result<(Metadata, usize), IpcReadError>
    requires { length bytes.now < 2 ^ 32 }
    ensures { ReturnsOrRunsOut (λ x. (entries_of x.0.entries, x.1)) result (spec_metadata_at bytes.now position left) }
{
    let (items, left) = items_at(4, bytes, position, left)?;
    pairs_of(alloc, bytes, items, left)
}

/// Removes a key and returns its value.
pub fn take(metadata: &mut Metadata, key: &str) -> Option<String>
    ensures value { option_map string_bytes result ≡ metadata_value key.now (entries_of metadata.old.entries) }
    ensures rest { entries_of metadata.new.entries ≡ without key.now (entries_of metadata.old.entries) }
{
    metadata.remove(key)
}

/// Returns a copy of the metadata.
pub fn copy_of(metadata: &Metadata) -> Result<Metadata, AllocError>
    ensures { IfOk result (λ m. entries_of m.entries ≡ entries_of metadata.now.entries) }
{
    let copied = metadata.clone()?;
    Ok(copied)
}

/// Returns a copy of the metadata with the keys of an extension type, `ARROW:extension:name` and, where there is
/// text, `ARROW:extension:metadata`.
pub fn with_extension(
    alloc: Global,
    metadata: &Metadata,
    title: &String,
    text: &Option<String>,
) -> Result<Metadata, AllocError>
    ensures { IfOk result (λ m. entries_of m.entries ≡ spec_with_pair extension_name (string_bytes title.now) (with_text (text_of text.now) (entries_of metadata.now.entries))) }
{
    let mut all = copy_of(metadata)?;
    if let Some(text) = text {
        insert(alloc, &mut all, "ARROW:extension:metadata", text.as_str())?;
    }
    insert(alloc, &mut all, "ARROW:extension:name", title.as_str())?;
    Ok(all)
}

/// Returns whether the metadata names an extension type whose name is reserved.
pub fn names_reserved(metadata: &Metadata) -> bool
    ensures { result ≡ spec_names_reserved (entries_of metadata.now.entries) }
{
    match metadata.get("ARROW:extension:name") {
        None => false,
        Some(name) => is_reserved_name(name.as_str()),
    }
}

/// Returns whether the metadata has a key.
pub fn has_key(metadata: &Metadata, key: &str) -> bool
    ensures { result ≡ spec_has_key key.now (entries_of metadata.now.entries) }
{
    metadata.contains_key(key)
}

// The table of a pair with its strings.
#[tactic(auto, unfolding(crate::specs::SchemaBytes::pair_bytes))]
fn pair_part(alloc: Global, key: &str, value: &str) -> Result<Vec<u8>, IpcWriteError>
    ensures ok { IfOk result (λ part. part.items ≡ pair_bytes (key.now, value.now)) }
    ensures texts { OnOk result ((is_utf8 key.now ≡ true) × (is_utf8 value.now ≡ true)) }
    ensures size { IfErr result (λ why. IsSizeError why (length (pair_bytes (key.now, value.now)))) }
{
    let mut texts = Vec::new(alloc);
    write_string(&mut texts, key)?;
    let distance = 8 + texts.len();
    write_string(&mut texts, value)?;
    let mut out = Vec::new(alloc);
    out.extend_from_slice(&[8, 0, 12, 0, 4, 0, 8, 0, 8, 0, 0, 0, 12, 0, 0, 0])?;
    write_offset(&mut out, distance, 0)?;
    out.extend_from_slice(&[0, 0, 0, 0])?;
    out.extend_from_slice(&texts)?;
    Ok(out)
}

// The table of each pair.
fn pair_parts(alloc: Global, metadata: &Metadata) -> Result<Vec<Vec<u8>>, IpcWriteError>
    ensures ok { IfOk result (λ parts. bytes_of_each parts.items ≡ map pair_bytes (entries_of metadata.now.entries)) }
    ensures texts { OnOk result (AreUtf8 (entries_of metadata.now.entries)) }
    ensures size { IfErr result (λ why. IsSizeError why (length (concatenated (map pair_bytes (entries_of metadata.now.entries))))) }
{
    let mut parts = Vec::new(alloc);
    for (key, value) in metadata {
        let part = pair_part(alloc, key.as_str(), value.as_str())?;
        parts.push(part)?;
    }
    Ok(parts)
}

/// Appends the vector of the pairs of custom metadata.
///
/// # Errors
/// [`IpcWriteError::Size`] where the vector has 2^31 bytes or more.
pub fn write_metadata(
    alloc: Global,
    out: &mut Vec<u8>,
    metadata: &Metadata,
) -> Result<(), IpcWriteError>
    ensures ok { OnOk result (out.new.items ≡ out.old.items ++ entries_bytes (entries_of metadata.now.entries)) }
    ensures texts { OnOk result (AreUtf8 (entries_of metadata.now.entries)) }
    ensures rising { IsOrdered string_cmp metadata.now }
    ensures size { IfErr result (λ why. IsSizeError why (length (entries_bytes (entries_of metadata.now.entries)))) }
{
    let _len = metadata.len();
    let parts = pair_parts(alloc, metadata)?;
    write_tables(out, 8, &parts)
}
