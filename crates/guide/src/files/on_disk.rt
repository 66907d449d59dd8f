//! Files on disk.
use anyhow::Result;
use std::{fs, slice};
use tiekvorn::arrow_ipc::{
    Batch, File, FileReader, Projection, StreamWriter, batch_of_columns, read_file, write_file,
};
use tiekvorn::{Boxed, PrimitiveArray, Utf8Array};

/// Writes a file of two people, one without an age.
pub fn write_people(rt: &HostRuntime, path: &str) -> Result<()> {
    let alloc = rt.alloc();
    let ids = PrimitiveArray::from_slice(alloc, &[1i64, 2])?.boxed();
    let names = Utf8Array::<i32>::from_slice(alloc, &["Ann", "Cy"])?.boxed();
    let ages = PrimitiveArray::from_options(alloc, &[Some(31i32), None])?.boxed();
    let columns = vec![in alloc; ids, names, ages]?;
    let (schema, batch) = batch_of_columns(alloc, &["id", "name", "age"], columns)?;
    let bytes = write_file(alloc, &schema, slice::from_ref(&batch))?;
    fs::write(rt, path, &bytes)?;
    Ok(())
}

/// Reads all of a file.
pub fn read_people(rt: &HostRuntime, path: &str) -> Result<File> {
    let bytes = fs::read(rt, path)?;
    Ok(read_file(rt.alloc(), &bytes)?)
}

/// Copies a file to a stream, one record batch at a time.
pub fn file_to_stream(rt: &HostRuntime, from: &str, to: &str) -> Result<()> {
    let alloc = rt.alloc();
    let mut reader = FileReader::new(alloc, fs::open(rt, from)?)?;
    let mut writer = StreamWriter::new(alloc, fs::create(rt, to)?, reader.schema())?;
    for i in 0..reader.len() {
        let batch = reader.batch(alloc, i)?;
        writer.write(alloc, &batch)?;
    }
    writer.finish()?;
    Ok(())
}

/// Reads two columns of a file, one record batch at a time.
pub fn read_names_and_ages(rt: &HostRuntime, path: &str) -> Result<Vec<Batch>> {
    let alloc = rt.alloc();
    let columns = Projection::Names(&["name", "age"]);
    let mut reader = FileReader::with_projection(alloc, fs::open(rt, path)?, columns)?;
    let mut batches = Vec::new(alloc);
    for i in 0..reader.len() {
        batches.push(reader.batch(alloc, i)?)?;
    }
    Ok(batches)
}
