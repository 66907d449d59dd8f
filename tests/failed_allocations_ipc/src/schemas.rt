//! A schema with nested dictionaries and an extension type, read, written and read again; and one with an extension type, written
//! and read.

use crate::streams::{from_read_error, from_write_error};
use failed_allocations::failures::{Failure, Failures, expect};
use ipc_schema::{Schema, read_schema, write_schema_with_dictionaries};
use nest_memory::datatypes::{DataType, Field};
use nest_memory::error::Error;
use std::alloc::Global;
use std::collections::BTreeMap;

/// One field by a dictionary of structs of two fields by dictionaries.
const SCHEMA: [u8; 536] = [
    255, 255, 255, 255, 16, 2, 0, 0, 24, 0, 0, 0, 0, 0, 0, 0, 0, 0, 0, 0, 0, 0, 10, 0, 11, 0, 8, 0,
    10, 0, 4, 0, 10, 0, 0, 0, 20, 0, 0, 0, 4, 0, 1, 0, 0, 0, 0, 0, 8, 0, 8, 0, 0, 0, 4, 0, 8, 0, 0,
    0, 4, 0, 0, 0, 1, 0, 0, 0, 28, 0, 0, 0, 0, 0, 0, 0, 0, 0, 18, 0, 26, 0, 4, 0, 24, 0, 25, 0, 8,
    0, 12, 0, 16, 0, 20, 0, 18, 0, 0, 0, 24, 0, 0, 0, 40, 0, 0, 0, 60, 0, 0, 0, 72, 0, 0, 0, 80, 0,
    0, 0, 1, 13, 0, 0, 1, 0, 0, 0, 97, 0, 0, 0, 0, 0, 0, 0, 0, 0, 0, 0, 4, 0, 4, 0, 4, 0, 0, 0, 0,
    0, 0, 0, 0, 0, 0, 0, 12, 0, 16, 0, 8, 0, 0, 0, 0, 0, 0, 0, 12, 0, 0, 0, 0, 0, 0, 0, 3, 0, 0, 0,
    0, 0, 0, 0, 2, 0, 0, 0, 44, 0, 0, 0, 88, 0, 0, 0, 2, 0, 0, 0, 112, 0, 0, 0, 132, 0, 0, 0, 0, 0,
    0, 0, 0, 0, 18, 0, 22, 0, 4, 0, 20, 0, 21, 0, 8, 0, 12, 0, 16, 0, 0, 0, 18, 0, 0, 0, 112, 0, 0,
    0, 128, 0, 0, 0, 148, 0, 0, 0, 160, 0, 0, 0, 1, 5, 0, 0, 0, 0, 0, 0, 0, 0, 18, 0, 22, 0, 4, 0,
    20, 0, 21, 0, 8, 0, 12, 0, 16, 0, 0, 0, 18, 0, 0, 0, 128, 0, 0, 0, 144, 0, 0, 0, 172, 0, 0, 0,
    184, 0, 0, 0, 1, 2, 0, 0, 8, 0, 12, 0, 4, 0, 8, 0, 8, 0, 0, 0, 168, 0, 0, 0, 192, 0, 0, 0, 0,
    0, 0, 0, 8, 0, 12, 0, 4, 0, 8, 0, 8, 0, 0, 0, 180, 0, 0, 0, 184, 0, 0, 0, 1, 0, 0, 0, 120, 0,
    0, 0, 0, 0, 0, 0, 0, 0, 0, 0, 4, 0, 4, 0, 4, 0, 0, 0, 0, 0, 0, 0, 0, 0, 0, 0, 12, 0, 16, 0, 8,
    0, 0, 0, 0, 0, 0, 0, 12, 0, 0, 0, 0, 0, 0, 0, 7, 0, 0, 0, 0, 0, 0, 0, 0, 0, 0, 0, 1, 0, 0, 0,
    121, 0, 0, 0, 0, 0, 0, 0, 8, 0, 9, 0, 4, 0, 8, 0, 8, 0, 0, 0, 32, 0, 0, 0, 1, 0, 0, 0, 0, 0, 0,
    0, 0, 0, 0, 0, 12, 0, 16, 0, 8, 0, 0, 0, 0, 0, 0, 0, 12, 0, 0, 0, 0, 0, 0, 0, 9, 0, 0, 0, 0, 0,
    0, 0, 0, 0, 0, 0, 20, 0, 0, 0, 65, 82, 82, 79, 87, 58, 101, 120, 116, 101, 110, 115, 105, 111,
    110, 58, 110, 97, 109, 101, 0, 0, 0, 0, 3, 0, 0, 0, 111, 100, 100, 0, 1, 0, 0, 0, 107, 0, 0, 0,
    1, 0, 0, 0, 118, 0, 0, 0,
];

/// How many ids are read.
fn dictionary_count(alloc: Global) -> Result<usize, Error> {
    let (read, _) = read_schema(alloc, &SCHEMA).map_err(from_read_error)?;
    Ok(read.dictionaries.ids.len())
}

fn extended(alloc: Global) -> Result<Schema, Error> {
    let name = String::from_str(alloc, "odd")?;
    let text = Some(String::from_str(alloc, "of a test")?);
    let data_type = DataType::Extension(name, Box::new(alloc, DataType::Int8)?, text);
    let mut fields = Vec::new(alloc);
    fields.push(Field::new(alloc, "f", data_type, true)?)?;
    Ok(Schema {
        fields,
        metadata: BTreeMap::new(alloc),
    })
}

/// How many fields are read of what was written.
fn field_count(alloc: Global) -> Result<usize, Error> {
    let schema = extended(alloc)?;
    let bytes = write_schema_with_dictionaries(alloc, &schema).map_err(from_write_error)?;
    let (read, _) = read_schema(alloc, &bytes).map_err(from_read_error)?;
    Ok(read.schema.fields.len())
}

/// How many ids are read of what was written of what was read.
fn rewritten_dictionary_count(alloc: Global) -> Result<usize, Error> {
    let (read, _) = read_schema(alloc, &SCHEMA).map_err(from_read_error)?;
    let bytes = write_schema_with_dictionaries(alloc, &read.schema).map_err(from_write_error)?;
    let (again, _) = read_schema(alloc, &bytes).map_err(from_read_error)?;
    Ok(again.dictionaries.ids.len())
}

pub fn both_ways(failures: &mut Failures, alloc: Global) -> Result<(), Failure> {
    let ids = failures.retry(|| dictionary_count(alloc))?;
    expect(ids == 3, "another number of ids")?;
    let written = failures.retry(|| rewritten_dictionary_count(alloc))?;
    expect(written == 3, "another number of written ids")?;
    let fields = failures.retry(|| field_count(alloc))?;
    expect(fields == 1, "another number of fields")
}
