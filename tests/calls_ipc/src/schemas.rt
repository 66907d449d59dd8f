//! Schemas of each type: those of another implementation, and those that are written and round-trip.
//!
//! Schemas of another implementation have their text, or their errors; each type is round-trip; each prefix of a message and each
//! byte of it changed is decoded.
use crate::samples::{REJECTED_SCHEMAS, SCHEMAS};
use crate::samples_read::bytes_of;
use crate::schema_text::text_of_schema;
use ipc_flatbuf::message::MetadataVersion;
use ipc_flatbuf::{IpcReadError, IpcWriteError};
use ipc_schema::{Schema, check_version, read_schema, write_schema_with_dictionaries};
use nest_memory::datatypes::{DataType, Field, IntervalUnit, Metadata, TimeUnit, UnionMode};
use random::numbers::Generator;
use random::types::random_type;
use std::alloc::Global;
use std::collections::BTreeMap;

#[test]
fn of_another_program(rt: HostRuntime) {
    for sample in &SCHEMAS {
        let bytes = bytes_of(rt.alloc(), sample).expect(&rt, "no bytes");
        let text = text_of_schema(rt.alloc(), &bytes).expect(&rt, "no text");
        assert!(rt; text.as_str() == sample.text, "{}: {text}", sample.name);
    }
}

#[test]
fn invalid_samples(rt: HostRuntime) {
    for sample in &REJECTED_SCHEMAS {
        let bytes = bytes_of(rt.alloc(), sample).expect(&rt, "no bytes");
        let text = text_of_schema(rt.alloc(), &bytes).expect(&rt, "no text");
        assert!(rt; text.as_str() == sample.text, "{}: {text}", sample.name);
    }
}

fn field_of(alloc: Global, data_type: DataType) -> Result<Field, IpcWriteError> {
    Field::new(alloc, "f", data_type, true).map_err(|_| IpcWriteError::Memory)
}

fn schema_of(alloc: Global, data_type: DataType) -> Result<Schema, IpcWriteError> {
    let mut fields = Vec::new(alloc);
    fields.push(field_of(alloc, data_type)?)?;
    Ok(Schema {
        fields,
        metadata: BTreeMap::new(alloc),
    })
}

fn boxed(alloc: Global, data_type: DataType) -> Result<Box<Field>, IpcWriteError> {
    Ok(Box::new(alloc, field_of(alloc, data_type)?)?)
}

fn fields_of(alloc: Global, count: usize) -> Result<Vec<Field>, IpcWriteError> {
    let mut fields = Vec::new(alloc);
    for _ in 0..count {
        fields.push(field_of(alloc, DataType::Int8)?)?;
    }
    Ok(fields)
}

fn ids_of(alloc: Global, ids: &[i32]) -> Result<Option<Vec<i32>>, IpcWriteError> {
    Ok(Some(Vec::from_slice(alloc, ids)?))
}

/// Lists inside of one another.
fn lists(alloc: Global, depth: usize) -> Result<DataType, IpcWriteError> {
    let mut data_type = DataType::Null;
    for _ in 0..depth {
        data_type = DataType::List(boxed(alloc, data_type)?);
    }
    Ok(data_type)
}

/// The first reason why a schema of the type is not written; None where it is round-trip as it was.
fn reason(alloc: Global, data_type: DataType) -> Result<Option<IpcWriteError>, IpcReadError> {
    let schema = schema_of(alloc, data_type).map_err(|_| IpcReadError::Memory)?;
    reason_of(alloc, &schema)
}

/// The same of a schema.
fn reason_of(alloc: Global, schema: &Schema) -> Result<Option<IpcWriteError>, IpcReadError> {
    match write_schema_with_dictionaries(alloc, schema) {
        Err(why) => Ok(Some(why)),
        Ok(bytes) => {
            let (read, rest) = read_schema(alloc, &bytes)?;
            if read.schema.fields == schema.fields && rest.is_empty() {
                Ok(None)
            } else {
                Err(IpcReadError::Block)
            }
        }
    }
}

const UNITS: [TimeUnit; 4] = [
    TimeUnit::Second,
    TimeUnit::Millisecond,
    TimeUnit::Microsecond,
    TimeUnit::Nanosecond,
];

#[test]
fn each_unit(rt: HostRuntime) {
    let alloc = rt.alloc();
    for (index, unit) in UNITS.into_iter().enumerate() {
        let zone = String::from_str(alloc, "Europe/Oslo").expect(&rt, "no memory");
        let short = (index > 1).then_some(IpcWriteError::Unit);
        let long = (index < 2).then_some(IpcWriteError::Unit);
        for (data_type, want) in [
            (DataType::Time32(unit), short),
            (DataType::Time64(unit), long),
            (DataType::Duration(unit), None),
            (DataType::Timestamp(unit, None), None),
            (DataType::Timestamp(unit, Some(String::new(alloc))), None),
            (DataType::Timestamp(unit, Some(zone)), None),
        ] {
            assert!(rt; reason(alloc, data_type) == Ok(want));
        }
    }
}

#[test]
fn each_type_without_a_unit(rt: HostRuntime) {
    let alloc = rt.alloc();
    for data_type in [
        DataType::Null,
        DataType::Boolean,
        DataType::Int8,
        DataType::Int16,
        DataType::Int32,
        DataType::Int64,
        DataType::UInt8,
        DataType::UInt16,
        DataType::UInt32,
        DataType::UInt64,
        DataType::Date32,
        DataType::Date64,
        DataType::Interval(IntervalUnit::YearMonth),
        DataType::Interval(IntervalUnit::DayTime),
        DataType::Interval(IntervalUnit::MonthDayNano),
        DataType::Binary,
        DataType::LargeBinary,
        DataType::Utf8,
        DataType::LargeUtf8,
        DataType::FixedSizeBinary(1),
        DataType::FixedSizeBinary((1 << 31) - 1),
        DataType::Decimal(1, 0),
        DataType::Decimal(38, (1 << 31) - 1),
        DataType::Decimal256(1, 0),
        DataType::Decimal256(76, 38),
    ] {
        assert!(rt; reason(alloc, data_type) == Ok(None));
    }
}

#[test]
fn types_without_a_form(rt: HostRuntime) {
    let alloc = rt.alloc();
    for (data_type, want) in [
        (DataType::Float16, IpcWriteError::Float),
        (DataType::Float32, IpcWriteError::Float),
        (DataType::Float64, IpcWriteError::Float),
        (DataType::FixedSizeBinary(0), IpcWriteError::Type),
        (DataType::FixedSizeBinary(1 << 31), IpcWriteError::Size),
        (DataType::Decimal(0, 0), IpcWriteError::Type),
        (DataType::Decimal(39, 0), IpcWriteError::Type),
        (DataType::Decimal(38, 1 << 31), IpcWriteError::Size),
        (DataType::Decimal256(0, 1 << 31), IpcWriteError::Type),
        (DataType::Decimal256(77, 0), IpcWriteError::Type),
        (DataType::Decimal256(76, usize::MAX), IpcWriteError::Size),
    ] {
        assert!(rt; reason(alloc, data_type) == Ok(Some(want)));
    }
}

fn nested(alloc: Global) -> Result<Vec<(DataType, Option<IpcWriteError>)>, IpcWriteError> {
    let mut types = Vec::new(alloc);
    let pair = DataType::Struct(fields_of(alloc, 2)?);
    let large = DataType::LargeList(boxed(alloc, DataType::Utf8)?);
    types.push((DataType::List(boxed(alloc, large)?), None))?;
    types.push((
        DataType::FixedSizeList(boxed(alloc, DataType::Int8)?, 1),
        None,
    ))?;
    types.push((
        DataType::FixedSizeList(boxed(alloc, DataType::Int8)?, 0),
        Some(IpcWriteError::Type),
    ))?;
    let long = DataType::FixedSizeList(boxed(alloc, DataType::Float16)?, 1 << 31);
    types.push((long, Some(IpcWriteError::Size)))?;
    types.push((DataType::Struct(fields_of(alloc, 1)?), None))?;
    types.push((DataType::Struct(Vec::new(alloc)), Some(IpcWriteError::Type)))?;
    types.push((DataType::Map(boxed(alloc, pair)?, true), None))?;
    let three = DataType::Struct(fields_of(alloc, 3)?);
    types.push((
        DataType::Map(boxed(alloc, three)?, false),
        Some(IpcWriteError::Type),
    ))?;
    types.push((
        DataType::Map(boxed(alloc, DataType::Int8)?, false),
        Some(IpcWriteError::Type),
    ))?;
    types.push((
        DataType::List(boxed(alloc, DataType::Float16)?),
        Some(IpcWriteError::Float),
    ))?;
    types.push((lists(alloc, 63)?, None))?;
    types.push((lists(alloc, 64)?, Some(IpcWriteError::Depth)))?;
    Ok(types)
}

#[test]
fn each_nested_type(rt: HostRuntime) {
    let alloc = rt.alloc();
    let types = nested(alloc).expect(&rt, "no types");
    for (data_type, want) in types {
        assert!(rt; reason(alloc, data_type) == Ok(want));
    }
}

fn union_of(
    alloc: Global,
    count: usize,
    ids: Option<&[i32]>,
    mode: UnionMode,
) -> Result<DataType, IpcWriteError> {
    let fields = fields_of(alloc, count)?;
    let ids = match ids {
        None => None,
        Some(ids) => ids_of(alloc, ids)?,
    };
    Ok(DataType::Union(fields, ids, mode))
}

#[test]
fn unions_with_ids_and_without(rt: HostRuntime) {
    let alloc = rt.alloc();
    let refused = Some(IpcWriteError::Type);
    for (count, ids, want) in [
        (0, None, None),
        (2, None, None),
        (127, None, None),
        (128, None, refused),
        (2, Some(&[0, 127][..]), None),
        (3, Some(&[5, 5, 0][..]), None),
        (2, Some(&[0, 128][..]), refused),
        (2, Some(&[-1, 0][..]), refused),
        (2, Some(&[0][..]), refused),
        (0, Some(&[][..]), None),
    ] {
        for mode in [UnionMode::Dense, UnionMode::Sparse] {
            let data_type = union_of(alloc, count, ids, mode).expect(&rt, "no type");
            assert!(rt; reason(alloc, data_type) == Ok(want));
        }
    }
}

fn extension_of(
    alloc: Global,
    name: &str,
    inner: DataType,
    text: Option<&str>,
) -> Result<DataType, IpcWriteError> {
    let name = String::from_str(alloc, name)?;
    let text = match text {
        None => None,
        Some(text) => Some(String::from_str(alloc, text)?),
    };
    Ok(DataType::Extension(name, Box::new(alloc, inner)?, text))
}

fn extensions(alloc: Global) -> Result<Vec<(DataType, Option<IpcWriteError>)>, IpcWriteError> {
    let mut types = Vec::new(alloc);
    types.push((extension_of(alloc, "odd", DataType::Int8, None)?, None))?;
    types.push((extension_of(alloc, "", DataType::Utf8, Some(""))?, None))?;
    let list = DataType::List(boxed(alloc, extension_of(alloc, "in", DataType::Null, Some("x"))?)?);
    types.push((extension_of(alloc, "out", list, Some("y"))?, None))?;
    let twice = extension_of(alloc, "in", DataType::Null, None)?;
    types.push((
        extension_of(alloc, "out", twice, None)?,
        Some(IpcWriteError::Extension),
    ))?;
    types.push((
        extension_of(alloc, "f", DataType::Float16, None)?,
        Some(IpcWriteError::Float),
    ))?;
    let pair = extension_of(alloc, "p", DataType::Struct(fields_of(alloc, 2)?), None)?;
    types.push((
        DataType::Map(boxed(alloc, pair)?, false),
        Some(IpcWriteError::Type),
    ))?;
    Ok(types)
}

#[test]
fn extensions_are_in_metadata(rt: HostRuntime) {
    let alloc = rt.alloc();
    let types = extensions(alloc).expect(&rt, "no types");
    for (data_type, want) in types {
        assert!(rt; reason(alloc, data_type) == Ok(want));
    }
}

#[test]
fn extensions_and_metadata(rt: HostRuntime) {
    let alloc = rt.alloc();
    for (key, is_extension, want) in [
        ("ARROW:extension:metadata", false, None),
        (
            "ARROW:extension:metadata",
            true,
            Some(IpcWriteError::Extension),
        ),
        (
            "ARROW:extension:name",
            false,
            Some(IpcWriteError::Extension),
        ),
        ("ARROW:extension:name", true, Some(IpcWriteError::Extension)),
        ("ARROW:extension", true, None),
    ] {
        let data_type = if is_extension {
            extension_of(alloc, "odd", DataType::Int8, Some("text")).expect(&rt, "no type")
        } else {
            DataType::Int8
        };
        let mut schema = schema_of(alloc, data_type).expect(&rt, "no schema");
        let key = String::from_str(alloc, key).expect(&rt, "no memory");
        let inserted = schema.fields[0].metadata.insert(key, String::new(alloc));
        assert!(rt; inserted.is_ok());
        assert!(rt; reason_of(alloc, &schema) == Ok(want));
    }
}

#[test]
fn unions_are_of_the_last_version(rt: HostRuntime) {
    let alloc = rt.alloc();
    let union = union_of(alloc, 1, None, UnionMode::Dense).expect(&rt, "no type");
    let own = extension_of(alloc, "odd", union, None).expect(&rt, "no type");
    let extended = schema_of(alloc, own).expect(&rt, "no schema");
    assert!(rt; check_version(MetadataVersion::V4, &extended.fields) == Err(IpcReadError::Version));
    let union = union_of(alloc, 1, None, UnionMode::Dense).expect(&rt, "no type");
    let list = DataType::List(boxed(alloc, union).expect(&rt, "no field"));
    let schema = schema_of(alloc, list).expect(&rt, "no schema");
    assert!(rt; check_version(MetadataVersion::V4, &schema.fields) == Err(IpcReadError::Version));
    assert!(rt; check_version(MetadataVersion::V5, &schema.fields) == Ok(()));
    let deep = lists(alloc, 63).expect(&rt, "no type");
    let schema = schema_of(alloc, deep).expect(&rt, "no schema");
    assert!(rt; check_version(MetadataVersion::V4, &schema.fields) == Ok(()));
}

/// Whether a type is a struct, no extension of one, of two fields.
fn is_pair(data_type: &DataType) -> bool {
    match data_type {
        DataType::Struct(fields) => fields.len() == 2,
        _ => false,
    }
}

fn are_ids(ids: &Option<Vec<i32>>, count: usize) -> bool {
    let each = match ids {
        None => true,
        Some(ids) => ids.len() == count && ids.iter().all(|id| 0 <= *id && *id <= 127),
    };
    each && count <= 127
}

/// The first reason why a type is not written, by a plain model: its own, then those of the fields inside of it.
fn wanted(data_type: &DataType, depth: usize) -> Option<IpcWriteError> {
    match data_type {
        DataType::Float16 | DataType::Float32 | DataType::Float64 => Some(IpcWriteError::Float),
        DataType::Time32(TimeUnit::Microsecond | TimeUnit::Nanosecond) => Some(IpcWriteError::Unit),
        DataType::Time64(TimeUnit::Second | TimeUnit::Millisecond) => Some(IpcWriteError::Unit),
        DataType::List(field) | DataType::LargeList(field) => wanted_of_one(field, depth),
        DataType::FixedSizeList(_, 0) => Some(IpcWriteError::Type),
        DataType::FixedSizeList(field, _) => wanted_of_one(field, depth),
        DataType::Map(field, _) => {
            if is_pair(&field.data_type) {
                wanted_of_one(field, depth)
            } else {
                Some(IpcWriteError::Type)
            }
        }
        DataType::Struct(fields) => {
            if fields.is_empty() {
                Some(IpcWriteError::Type)
            } else {
                wanted_of(fields, depth)
            }
        }
        DataType::Union(fields, ids, _) => {
            if are_ids(ids, fields.len()) {
                wanted_of(fields, depth)
            } else {
                Some(IpcWriteError::Type)
            }
        }
        DataType::Dictionary(_, values, _) => wanted(values, depth),
        DataType::Extension(_, _, _) => Some(IpcWriteError::Type),
        _ => None,
    }
}

/// Whether a type is a dictionary whose values have no index for their own.
fn is_crowded(data_type: &DataType) -> bool {
    match data_type {
        DataType::Dictionary(_, values, _) => match &**values {
            DataType::Dictionary(_, _, _) | DataType::Extension(_, _, _) => true,
            _ => false,
        },
        _ => false,
    }
}

fn is_extension(data_type: &DataType) -> bool {
    match data_type {
        DataType::Extension(_, _, _) => true,
        _ => false,
    }
}

fn has_key(field: &Field, key: &str) -> bool {
    field.metadata.contains_key(key)
}

fn wanted_of_one(field: &Field, depth: usize) -> Option<IpcWriteError> {
    if depth == 0 {
        return Some(IpcWriteError::Depth);
    }
    let (data_type, is_extended) = match &field.data_type {
        DataType::Extension(_, inner, _) => (&**inner, true),
        data_type => (data_type, false),
    };
    if is_extension(data_type) {
        return Some(IpcWriteError::Extension);
    }
    if is_crowded(data_type) {
        return Some(IpcWriteError::Dictionary);
    }
    if has_key(field, "ARROW:extension:name")
        || is_extended && has_key(field, "ARROW:extension:metadata")
    {
        return Some(IpcWriteError::Extension);
    }
    wanted(data_type, depth - 1)
}

/// The first reason why one of fields is not written, by the model.
pub fn wanted_of(fields: &[Field], depth: usize) -> Option<IpcWriteError> {
    for field in fields {
        let why = wanted_of_one(field, depth);
        if why.is_some() {
            return why;
        }
    }
    None
}

/// How many dictionaries are among fields, at any depth.
pub fn count_dictionaries(fields: &[Field]) -> usize {
    let mut count = 0;
    for field in fields {
        count += count_of(&field.data_type);
    }
    count
}

fn count_of(data_type: &DataType) -> usize {
    match data_type {
        DataType::Dictionary(_, values, _) => 1 + count_of(values),
        DataType::Extension(_, inner, _) => count_of(inner),
        DataType::List(field) | DataType::LargeList(field) | DataType::Map(field, _) => {
            count_of(&field.data_type)
        }
        DataType::FixedSizeList(field, _) => count_of(&field.data_type),
        DataType::Struct(fields) | DataType::Union(fields, _, _) => count_dictionaries(fields),
        _ => 0,
    }
}

/// How many of them are inside of the values of no other.
pub fn count_outer(fields: &[Field]) -> usize {
    let mut count = 0;
    for field in fields {
        count += outer_of(&field.data_type);
    }
    count
}

fn outer_of(data_type: &DataType) -> usize {
    match data_type {
        DataType::Dictionary(_, _, _) => 1,
        DataType::Extension(_, inner, _) => outer_of(inner),
        DataType::List(field) | DataType::LargeList(field) | DataType::Map(field, _) => {
            outer_of(&field.data_type)
        }
        DataType::FixedSizeList(field, _) => outer_of(&field.data_type),
        DataType::Struct(fields) | DataType::Union(fields, _, _) => count_outer(fields),
        _ => 0,
    }
}

fn random_metadata(alloc: Global, rng: &mut Generator) -> Result<Metadata, IpcWriteError> {
    let mut metadata = BTreeMap::new(alloc);
    for _ in 0..rng.below(3) {
        let key = String::from_str(
            alloc,
            ["", "k", "ARROW:extension:metadata", "\u{e9}"][rng.below(4)],
        )?;
        let value = String::from_str(alloc, ["", "v", "eight by"][rng.below(3)])?;
        metadata.insert(key, value)?;
    }
    Ok(metadata)
}

/// A schema of a few fields of any types.
pub fn random_schema(
    alloc: Global,
    rng: &mut Generator,
    depth: usize,
) -> Result<Schema, IpcWriteError> {
    let mut fields = Vec::new(alloc);
    for _ in 0..rng.below(4) {
        let data_type = random_type(alloc, rng, depth).map_err(|_| IpcWriteError::Memory)?;
        let name = String::from_str(alloc, ["a", "", "a longer name"][rng.below(3)])?;
        fields.push(Field {
            name,
            data_type,
            is_nullable: rng.boolean(),
            metadata: random_metadata(alloc, rng)?,
        })?;
    }
    let metadata = random_metadata(alloc, rng)?;
    Ok(Schema { fields, metadata })
}

/// Whether a schema is round-trip, or is rejected by the reason that the model has.
fn is_decoded(alloc: Global, schema: &Schema) -> bool {
    match write_schema_with_dictionaries(alloc, schema) {
        Err(why) => wanted_of(&schema.fields, 64) == Some(why),
        Ok(bytes) => match read_schema(alloc, &bytes) {
            Err(_) => false,
            Ok((read, rest)) => {
                rest.is_empty()
                    && wanted_of(&schema.fields, 64).is_none()
                    && read.schema.fields == schema.fields
                    && read.schema.metadata == schema.metadata
            }
        },
    }
}

#[test]
fn each_beginning_of_a_message(rt: HostRuntime) {
    for sample in &SCHEMAS {
        let bytes = bytes_of(rt.alloc(), sample).expect(&rt, "no bytes");
        for len in 1..bytes.len() {
            let error = read_schema(rt.alloc(), &bytes[..len]).err();
            assert!(rt;
                error == Some(IpcReadError::Truncated),
                "{}: {len}",
                sample.name
            );
        }
    }
}

/// How many messages are read that differ from one in a byte: it is 255 or one more. What is read of each is written and round-trip.
fn count_read(alloc: Global, bytes: &mut [u8]) -> Option<usize> {
    let mut count = 0;
    for index in 0..bytes.len() {
        let old = bytes[index];
        for new in [255, old.wrapping_add(1)] {
            bytes[index] = new;
            if let Ok((keyed, _)) = read_schema(alloc, bytes) {
                if !is_decoded(alloc, &keyed.schema) {
                    return None;
                }
                count += 1;
            }
        }
        bytes[index] = old;
    }
    Some(count)
}

/// Messages of more bytes are not changed byte by byte: it takes too long.
const BYTES: usize = 280;

#[test]
fn each_byte_changed(rt: HostRuntime) {
    for sample in &SCHEMAS {
        let mut bytes = bytes_of(rt.alloc(), sample).expect(&rt, "no bytes");
        if bytes.len() <= BYTES {
            let count = count_read(rt.alloc(), &mut bytes).expect(&rt, "not read back");
            assert!(rt; count > bytes.len() / 4, "{}: {count}", sample.name);
        }
    }
}
