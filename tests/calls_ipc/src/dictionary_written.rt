//! Schemas with dictionaries that are written: round-trip with the ids 0, 1, 2 and so on, or rejected by the first reason.
//!
//! Schemas with dictionaries, of another implementation, random, and of each type of keys, are written and round-trip with the
//! ids 0, 1, 2 and so on, or have the first reason of a plain model.
use crate::samples::DICTIONARY_SCHEMAS;
use crate::samples_read::bytes_of;
use crate::schemas::{count_dictionaries, random_schema, wanted_of};
use ipc_flatbuf::IpcWriteError;
use ipc_schema::{
    Schema, SchemaWithDictionaries, read_schema, schema_with_dictionaries_table,
    write_schema_with_dictionaries,
};
use nest_memory::datatypes::{DataType, Field, IntegerType};
use random::numbers::Generator;
use random::start::START;
use std::alloc::Global;
use std::collections::BTreeMap;

/// Whether the ids are 0, 1, 2 and so on, as many as dictionaries.
fn are_in_order(keyed: &SchemaWithDictionaries) -> bool {
    let mut next = 0;
    for id in &keyed.dictionaries.ids {
        if *id != next {
            return false;
        }
        next += 1;
    }
    next as usize == count_dictionaries(&keyed.schema.fields)
        && keyed.dictionaries.named.len() == next as usize
}

/// Whether a schema is round-trip with its ids, and what is after it is left, or is rejected by the reason that the model has.
fn is_decoded(alloc: Global, schema: &Schema) -> bool {
    match write_schema_with_dictionaries(alloc, schema) {
        Err(why) => wanted_of(&schema.fields, 64) == Some(why),
        Ok(bytes) => match read_schema(alloc, &bytes) {
            Err(_) => false,
            Ok((read, rest)) => {
                rest.is_empty()
                    && wanted_of(&schema.fields, 64).is_none()
                    && read.schema.fields == schema.fields
                    && read.schema.metadata == schema.metadata
                    && are_in_order(&read)
            }
        },
    }
}

const RANDOM: u64 = 47;

#[test]
fn random_schemas(rt: HostRuntime) {
    for case in 0..400 {
        let mut rng = Generator::new(START, RANDOM, case);
        let schema = random_schema(rt.alloc(), &mut rng, case % 4).expect(&rt, "no schema");
        assert!(rt; is_decoded(rt.alloc(), &schema), "case {case}");
    }
}

// What other writers have is written and round-trip, each id a number of its own.
#[test]
fn of_another_program(rt: HostRuntime) {
    let alloc = rt.alloc();
    for sample in &DICTIONARY_SCHEMAS {
        let bytes = bytes_of(alloc, sample).expect(&rt, "no bytes");
        let (keyed, _) = read_schema(alloc, &bytes).expect(&rt, "no schema");
        assert!(rt; is_decoded(alloc, &keyed.schema), "{}", sample.name);
        assert!(rt;
            write_schema_with_dictionaries(alloc, &keyed.schema).is_ok(),
            "{}",
            sample.name
        );
    }
}

fn field_of(alloc: Global, data_type: DataType) -> Result<Field, IpcWriteError> {
    Field::new(alloc, "f", data_type, true).map_err(|_| IpcWriteError::Memory)
}

fn schema_of(alloc: Global, data_type: DataType) -> Result<Schema, IpcWriteError> {
    let mut fields = Vec::new(alloc);
    fields.push(field_of(alloc, data_type)?)?;
    Ok(Schema {
        fields,
        metadata: BTreeMap::new(alloc),
    })
}

fn keyed(alloc: Global, key: IntegerType, values: DataType) -> Result<DataType, IpcWriteError> {
    Ok(DataType::Dictionary(key, Box::new(alloc, values)?, true))
}

fn extended(alloc: Global, inner: DataType) -> Result<DataType, IpcWriteError> {
    let name = String::from_str(alloc, "odd")?;
    Ok(DataType::Extension(name, Box::new(alloc, inner)?, None))
}

fn listed(alloc: Global, item: DataType) -> Result<DataType, IpcWriteError> {
    Ok(DataType::List(Box::new(alloc, field_of(alloc, item)?)?))
}

/// Dictionaries of lists of dictionaries, so many.
fn deep(alloc: Global, depth: usize) -> Result<DataType, IpcWriteError> {
    let mut data_type = DataType::Null;
    for _ in 0..depth {
        data_type = keyed(alloc, IntegerType::UInt16, listed(alloc, data_type)?)?;
    }
    Ok(data_type)
}

const KEYS: [IntegerType; 8] = [
    IntegerType::Int8,
    IntegerType::Int16,
    IntegerType::Int32,
    IntegerType::Int64,
    IntegerType::UInt8,
    IntegerType::UInt16,
    IntegerType::UInt32,
    IntegerType::UInt64,
];

#[test]
fn each_type_of_keys(rt: HostRuntime) {
    let alloc = rt.alloc();
    for key in KEYS {
        let data_type = keyed(alloc, key, DataType::Utf8).expect(&rt, "no type");
        let schema = schema_of(alloc, data_type).expect(&rt, "no schema");
        assert!(rt; write_schema_with_dictionaries(alloc, &schema).is_ok());
        assert!(rt; is_decoded(alloc, &schema));
    }
}

fn types(alloc: Global) -> Result<Vec<(DataType, Option<IpcWriteError>)>, IpcWriteError> {
    let key = IntegerType::Int8;
    let mut types = Vec::new(alloc);
    types.push((extended(alloc, keyed(alloc, key, DataType::Utf8)?)?, None))?;
    let inner = keyed(alloc, key, listed(alloc, extended(alloc, DataType::Int8)?)?)?;
    types.push((keyed(alloc, key, listed(alloc, inner)?)?, None))?;
    let twice = keyed(alloc, key, keyed(alloc, key, DataType::Float16)?)?;
    types.push((twice, Some(IpcWriteError::Dictionary)))?;
    let around = keyed(alloc, key, extended(alloc, DataType::Float16)?)?;
    types.push((around, Some(IpcWriteError::Dictionary)))?;
    let below = extended(
        alloc,
        extended(alloc, keyed(alloc, key, DataType::Float16)?)?,
    )?;
    types.push((below, Some(IpcWriteError::Extension)))?;
    let floats = keyed(alloc, key, DataType::Float16)?;
    types.push((floats, Some(IpcWriteError::Float)))?;
    let long = keyed(alloc, key, DataType::FixedSizeBinary(1 << 31))?;
    types.push((long, Some(IpcWriteError::Size)))?;
    let none = keyed(alloc, key, DataType::Struct(Vec::new(alloc)))?;
    types.push((none, Some(IpcWriteError::Type)))?;
    types.push((deep(alloc, 63)?, None))?;
    types.push((deep(alloc, 64)?, Some(IpcWriteError::Depth)))?;
    Ok(types)
}

#[test]
fn each_reason(rt: HostRuntime) {
    let alloc = rt.alloc();
    let types = types(alloc).expect(&rt, "no types");
    for (data_type, want) in types {
        let schema = schema_of(alloc, data_type).expect(&rt, "no schema");
        assert!(rt; write_schema_with_dictionaries(alloc, &schema).err() == want);
        assert!(rt; want.is_some() || is_decoded(alloc, &schema));
    }
}

// A key of extensions comes after a dictionary directly of another.
#[test]
fn metadata_of_its_own(rt: HostRuntime) {
    let alloc = rt.alloc();
    let key = IntegerType::Int8;
    let one = keyed(alloc, key, DataType::Utf8).expect(&rt, "no type");
    let other = keyed(alloc, key, DataType::Utf8).expect(&rt, "no type");
    let twice = keyed(alloc, key, other).expect(&rt, "no type");
    for (data_type, want) in [
        (one, IpcWriteError::Extension),
        (twice, IpcWriteError::Dictionary),
    ] {
        let mut schema = schema_of(alloc, data_type).expect(&rt, "no schema");
        let name = String::from_str(alloc, "ARROW:extension:name").expect(&rt, "no memory");
        let inserted = schema.fields[0].metadata.insert(name, String::new(alloc));
        assert!(rt; inserted.is_ok());
        assert!(rt; write_schema_with_dictionaries(alloc, &schema).err() == Some(want));
    }
}

#[test]
fn table_in_the_message(rt: HostRuntime) {
    let alloc = rt.alloc();
    let list = listed(alloc, DataType::Utf8).expect(&rt, "no type");
    let schema = schema_of(alloc, list).expect(&rt, "no schema");
    let message = write_schema_with_dictionaries(alloc, &schema).expect(&rt, "not written");
    let table = schema_with_dictionaries_table(alloc, &schema).expect(&rt, "not written");
    assert!(rt; message[56..56 + table.len()] == table[..]);
}
