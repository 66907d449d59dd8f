//! Readers of dictionary encodings, and the value types of dictionary ids.
ghost use Rattle.std.specs.Prelude.{◌≡◌, ◌<◌, ◌^◌, length, suc, drop, Ok, IfOk, OnOk, option_map};
ghost use Rattle.nest_memory.specs.TypeOf.{type_of};
ghost use Rattle.ipc_schema.specs.StoredTypes.{spec_value_type};
ghost use Rattle.ipc_flatbuf.specs.ReadResults.{ReturnsOrRunsOut};
ghost use Rattle.ipc_schema.specs.Dictionaries.{spec_key_at, spec_encoding_at, spec_dictionary_at, spec_with_encoding, no_dictionaries, spec_record_id, with_value_type, spec_same_values, spec_name_values, spec_record_values};
ghost use Rattle.ipc_schema.specs.DictionaryModels.{value_type_of, seen_of};
ghost use Rattle.std.specs.Map.{lookup};
ghost use Rattle.std.specs.BTreeMap.{is_at};
ghost use Rattle.std.specs.Ordering.{int_cmp};

use crate::stored_types::value_type;
use crate::types::integer_at;
use ipc_flatbuf::{IpcReadError, i16_field, i64_field, offset_field, read_table, u8_field};
use nest_memory::datatypes::{DataType, IntegerType};
use std::alloc::{AllocError, Global};
use std::collections::BTreeMap;

/// The dictionary encoding of a field: its id, the type of its keys, and `isOrdered` (Schema.fbs, table `DictionaryEncoding`).
#[derive(Clone, Copy)]
pub struct Encoding {
    pub id: i64,
    pub key: IntegerType,
    pub is_ordered: bool,
}

// The type of the keys, `Int32` where it is absent.
#[tactic(auto, unfolding(crate::specs::Dictionaries::spec_key_at))]
fn key_at(
    bytes: &[u8],
    position: Option<usize>,
    left: usize,
) -> Result<(IntegerType, usize), IpcReadError>
    requires { length bytes.now < 2 ^ 32 }
    ensures { result ≡ spec_key_at bytes.now position left }
{
    match position {
        None => Ok((IntegerType::Int32, left)),
        Some(position) => integer_at(bytes, position, left),
    }
}

#[tactic(auto, unfolding(crate::specs::Dictionaries::spec_encoding_at))]
fn encoding_at(
    bytes: &[u8],
    position: usize,
    left: usize,
) -> Result<(Encoding, usize), IpcReadError>
    requires { length bytes.now < 2 ^ 32 }
    ensures { result ≡ spec_encoding_at bytes.now position left }
{
    let (table, left) = read_table(bytes, position, left)?;
    let id = i64_field(bytes, table, 0, 0)?;
    let ordered = u8_field(bytes, table, 2)?;
    let (key, left) = key_at(bytes, offset_field(bytes, table, 1)?, left)?;
    if i16_field(bytes, table, 3, 0)? != 0 {
        return Err(IpcReadError::TypeRange);
    }
    let is_ordered = ordered > 0;
    Ok((
        Encoding {
            id,
            key,
            is_ordered,
        },
        left,
    ))
}

/// Returns the dictionary encoding at a position, `None` where it is absent, and the budget left.
///
/// # Errors
/// [`IpcReadError::TypeRange`] where the key type or the dictionary kind is invalid, and those of flatbuffers.
pub fn dictionary_at(
    bytes: &[u8],
    position: Option<usize>,
    left: usize,
) -> Result<(Option<Encoding>, usize), IpcReadError>
    requires { length bytes.now < 2 ^ 32 }
    ensures { result ≡ spec_dictionary_at bytes.now position left }
{
    match position {
        None => Ok((None, left)),
        Some(position) => {
            let (encoding, left) = encoding_at(bytes, position, left)?;
            Ok((Some(encoding), left))
        }
    }
}

/// Returns the type of a field whose table has the type of the values.
pub fn dictionary_type_of(
    alloc: Global,
    dictionary: Option<Encoding>,
    data_type: DataType,
) -> Result<DataType, IpcReadError>
    ensures { ReturnsOrRunsOut type_of result (Ok (spec_with_encoding dictionary (type_of data_type))) }
{
    match dictionary {
        None => Ok(data_type),
        Some(encoding) => {
            let values = Box::new(alloc, data_type)?;
            Ok(DataType::Dictionary(encoding.key, values, encoding.is_ordered))
        }
    }
}

/// The value type of a dictionary id as it is stored, without extension types, and the dictionary ids nested in it.
#[derive(Drop)]
pub struct DictionaryValueType {
    pub data_type: DataType,
    pub inside: Vec<i64>,
}

/// The dictionary ids of the fields of a schema in pre-order, and the value type of each id.
///
/// The id of a field precedes those of its children.
#[derive(Drop)]
pub struct DictionaryTypes {
    pub ids: Vec<i64>,
    pub named: BTreeMap<i64, DictionaryValueType>,
}

impl DictionaryTypes {
    /// Returns the dictionaries of a schema without fields.
    pub fn new(alloc: Global) -> DictionaryTypes
        ensures { seen_of result ≡ no_dictionaries }
    {
        DictionaryTypes {
            ids: Vec::new(alloc),
            named: BTreeMap::new(alloc),
        }
    }
}

/// Appends the dictionary id of a field, before its children are read.
pub fn record_id(
    seen: &mut DictionaryTypes,
    dictionary: Option<Encoding>,
) -> Result<(), IpcReadError>
    ensures { ReturnsOrRunsOut (λ x. seen_of seen.new) result (Ok (spec_record_id dictionary (seen_of seen.old))) }
{
    if let Some(encoding) = dictionary {
        seen.ids.push(encoding.id)?;
    }
    Ok(())
}

fn same_values(old: &DictionaryValueType, new: &DictionaryValueType) -> bool
    ensures { result ≡ spec_same_values (value_type_of old.now) (value_type_of new.now) }
{
    old.data_type == new.data_type && old.inside == new.inside
}

fn insert(seen: &mut DictionaryTypes, id: i64, new: DictionaryValueType) -> Result<(), AllocError>
    ensures { OnOk result (seen_of seen.new ≡ with_value_type id (value_type_of new) (seen_of seen.old)) }
{
    seen.named.insert(id, new)?;
    Ok(())
}

// Whether the value type of an id is this one, `None` where the id is new.
fn names_as(seen: &DictionaryTypes, id: &i64, new: &DictionaryValueType) -> Option<bool>
    ensures { result ≡ option_map (λ old. spec_same_values old (value_type_of new.now)) (lookup (is_at (int_cmp id.now)) (seen_of seen.now).named) }
{
    match seen.named.get(id) {
        None => None,
        Some(old) => Some(same_values(old, new)),
    }
}

// Adds the value type of an id, which is the same for all fields with the id.
fn name_values(
    seen: &mut DictionaryTypes,
    id: i64,
    new: DictionaryValueType,
) -> Result<(), IpcReadError>
    ensures { ReturnsOrRunsOut (λ x. seen_of seen.new) result (spec_name_values id (value_type_of new) (seen_of seen.old) (lookup (is_at (int_cmp id)) (seen_of seen.old).named)) }
{
    match names_as(seen, &id, &new) {
        None => {
            insert(seen, id, new)?;
            Ok(())
        }
        Some(true) => Ok(()),
        Some(false) => Err(IpcReadError::DictionaryType),
    }
}

// A copy of the ids from index before + 1.
fn ids_behind(alloc: Global, ids: &[i64], before: usize) -> Result<Vec<i64>, AllocError>
    ensures { IfOk result (λ v. v.items ≡ drop (suc before) ids.now) }
{
    if before < ids.len() {
        Ok(Vec::from_slice(alloc, &ids[before + 1..])?)
    } else {
        Ok(Vec::new(alloc))
    }
}

// The value type of a field whose own id has this index.
fn values_behind(
    alloc: Global,
    seen: &DictionaryTypes,
    data_type: &DataType,
    before: usize,
) -> Result<DictionaryValueType, IpcReadError>
    ensures { ReturnsOrRunsOut value_type_of result (Ok (record { values = spec_value_type (type_of data_type.now); inside = drop (suc before) (seen_of seen.now).ids })) }
{
    let inside = ids_behind(alloc, &seen.ids, before)?;
    match value_type(data_type).clone(alloc) {
        Err(_) => Err(IpcReadError::Memory),
        Ok(data_type) => Ok(DictionaryValueType { data_type, inside }),
    }
}

/// Adds the value type of a field, after its children are read. `before` is the number of ids before its own.
///
/// # Errors
/// [`IpcReadError::DictionaryType`] where another field with this id has a different value type.
pub fn record_values(
    alloc: Global,
    seen: &mut DictionaryTypes,
    dictionary: Option<Encoding>,
    data_type: &DataType,
    before: usize,
) -> Result<(), IpcReadError>
    ensures { ReturnsOrRunsOut (λ x. seen_of seen.new) result (spec_record_values dictionary (type_of data_type.now) before (seen_of seen.old)) }
{
    match dictionary {
        None => Ok(()),
        Some(encoding) => {
            let new = values_behind(alloc, seen, data_type, before)?;
            name_values(seen, encoding.id, new)
        }
    }
}
