//! Equality of schemas: all parts are compared, fields in order.
use ipc_schema::Schema;
use nest_memory::datatypes::{DataType, Field, Metadata};
use nest_memory::error::Error;
use std::alloc::Global;

/// Returns a schema of a field of these parts, a field `b`, and metadata of one entry.
fn schema_of(
    alloc: Global,
    name: &str,
    data_type: DataType,
    is_nullable: bool,
    value: &str,
) -> Result<Schema, Error> {
    let mut fields = Vec::new(alloc);
    fields.push(Field::new(alloc, name, data_type, is_nullable)?)?;
    fields.push(Field::new(alloc, "b", DataType::Utf8, false)?)?;
    let mut metadata = Metadata::new(alloc);
    metadata.insert(
        String::from_str(alloc, "k")?,
        String::from_str(alloc, value)?,
    )?;
    Ok(Schema { fields, metadata })
}

#[test]
fn each_part_is_compared(rt: HostRuntime) {
    let alloc = rt.alloc();
    let schema = schema_of(alloc, "a", DataType::Int32, true, "v").expect(&rt, "a schema");
    for (name, data_type, is_nullable, value, want) in [
        ("a", DataType::Int32, true, "v", true),
        ("c", DataType::Int32, true, "v", false),
        ("a", DataType::Int64, true, "v", false),
        ("a", DataType::Int32, false, "v", false),
        ("a", DataType::Int32, true, "w", false),
    ] {
        let other = schema_of(alloc, name, data_type, is_nullable, value).expect(&rt, "a schema");
        assert!(rt; (schema == other) == want, "{name} {is_nullable} {value}");
        assert!(rt; (other != schema) != want, "{name} {is_nullable} {value}");
    }
}

#[test]
fn order_and_count_are_compared(rt: HostRuntime) {
    let alloc = rt.alloc();
    let schema = schema_of(alloc, "a", DataType::Int32, true, "v").expect(&rt, "a schema");
    let mut other = schema_of(alloc, "a", DataType::Int32, true, "v").expect(&rt, "a schema");
    other.fields.swap(0, 1);
    assert!(rt; schema != other);
    other.fields.swap(0, 1);
    assert!(rt; schema == other);
    other.metadata.clear();
    assert!(rt; schema != other);
    other.fields.clear();
    assert!(rt; schema != other && other == other);
}
