//! Schemas and record batches of named columns.
use ipc::{Batch, batch_of_columns, read_stream, write_stream};
use ipc_schema::Schema;
use nest_array::{AnyArray, Boxed, nullable_fields};
use nest_flat::primitive::PrimitiveArray;
use nest_flat::utf8::Utf8Array;
use nest_memory::datatypes::{DataType, Field};
use nest_memory::error::{Error, SpecError};
use std::alloc::Global;

fn columns(alloc: Global, ages: &[Option<i32>]) -> Result<Vec<AnyArray>, Error> {
    let mut columns = Vec::with_capacity(alloc, 2)?;
    columns.push(Utf8Array::<i32>::from_slice(alloc, &["ann", "bob"])?.boxed())?;
    columns.push(PrimitiveArray::from_options(alloc, ages)?.boxed())?;
    Ok(columns)
}

fn fields(alloc: Global) -> Result<Vec<Field>, Error> {
    let mut fields = Vec::with_capacity(alloc, 2)?;
    fields.push(Field::new(alloc, "name", DataType::Utf8, true)?)?;
    fields.push(Field::new(alloc, "age", DataType::Int32, true)?)?;
    Ok(fields)
}

fn people(alloc: Global, names: &[&str]) -> Result<(Schema, Batch), Error> {
    batch_of_columns(alloc, names, columns(alloc, &[Some(30), None])?)
}

#[test]
fn two_columns(rt: HostRuntime) -> Result<(), Error> {
    let alloc = rt.alloc();
    let (schema, batch) = people(alloc, &["name", "age"])?;
    assert!(rt; schema.fields == fields(alloc)?);
    assert!(rt; schema.metadata.is_empty());
    assert!(rt; batch.rows == 2);
    assert!(rt; batch.columns == columns(alloc, &[Some(30), None])?);
    Ok(())
}

/// Names may be equal or empty.
#[test]
fn other_names(rt: HostRuntime) -> Result<(), Error> {
    let (schema, batch) = people(rt.alloc(), &["", ""])?;
    assert!(rt; schema.fields.len() == 2 && schema.fields[1].name.is_empty());
    assert!(rt; batch.rows == 2);
    Ok(())
}

/// Without columns there are no rows.
#[test]
fn no_columns(rt: HostRuntime) -> Result<(), Error> {
    let alloc = rt.alloc();
    let (schema, batch) = batch_of_columns(alloc, &[], Vec::new(alloc))?;
    assert!(rt; schema.fields.is_empty());
    assert!(rt; batch.rows == 0 && batch.columns.is_empty());
    Ok(())
}

/// The batch can be written under the schema.
#[test]
fn written_batches(rt: HostRuntime) -> Result<(), Error> {
    let alloc = rt.alloc();
    let (schema, batch) = people(alloc, &["name", "age"])?;
    let batches = [batch];
    let bytes = write_stream(alloc, &schema, &batches).expect(&rt, "a stream");
    let stream = read_stream(alloc, &bytes).expect(&rt, "a stream");
    assert!(rt; stream.schema == schema);
    assert!(rt; stream.batches.len() == 1);
    assert!(rt; stream.batches[0].columns == batches[0].columns);
    Ok(())
}

fn refused(alloc: Global, names: &[&str], columns: Vec<AnyArray>) -> Option<Error> {
    batch_of_columns(alloc, names, columns).err()
}

#[test]
fn refused_columns(rt: HostRuntime) -> Result<(), Error> {
    let alloc = rt.alloc();
    let field_count = Some(Error::OutOfSpec(SpecError::FieldCount));
    let child_length = Some(Error::OutOfSpec(SpecError::ChildLength));
    let unequal = columns(alloc, &[Some(30)])?;
    assert!(rt; refused(alloc, &["name"], unequal) == field_count);
    assert!(rt; refused(alloc, &["name"], Vec::new(alloc)) == field_count);
    let unequal = columns(alloc, &[Some(30)])?;
    assert!(rt; refused(alloc, &["name", "age"], unequal) == child_length);
    Ok(())
}

#[test]
fn fields_of_columns(rt: HostRuntime) -> Result<(), Error> {
    let alloc = rt.alloc();
    let columns = columns(alloc, &[])?;
    assert!(rt; nullable_fields(alloc, &["name", "age"], &columns)? == fields(alloc)?);
    Ok(())
}
