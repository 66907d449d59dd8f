//! The chapter on files and streams.
use crate::expected::{FILES, JSON_LINES, ON_DISK, STREAMS};
use crate::lines::are;
use anyhow::Result;
use guide::files::{in_memory, json_lines, on_disk, orders, streaming};
use std::alloc::Global;
use std::fs;
use tiekvorn::arrow_ipc::{Batch, Schema, read_stream, write_file, write_stream};
use tiekvorn::json::Json;
use tiekvorn::{AnyArray, Field};

fn batches(alloc: Global) -> Result<Vec<Batch>> {
    let mut batches = Vec::with_capacity(alloc, 2)?;
    batches.push(orders::batch(alloc, "Ann")?)?;
    batches.push(orders::batch(alloc, "Cy")?)?;
    Ok(batches)
}

fn begun(alloc: Global) -> Result<String> {
    let mut lines = String::new(alloc);
    lines.push_str("\n")?;
    Ok(lines)
}

/// Adds a line for each column.
fn add_columns(
    alloc: Global,
    lines: &mut String,
    name: &str,
    fields: &[Field],
    columns: &[AnyArray],
) -> Result<()> {
    for (field, column) in fields.iter().zip(columns) {
        let json = Json::of(column);
        lines.push_str(&format!(in alloc; "{name}, {}: {json}\n", field.name)?)?;
    }
    Ok(())
}

fn add_batches(
    alloc: Global,
    lines: &mut String,
    name: &str,
    schema: &Schema,
    batches: &[Batch],
) -> Result<()> {
    for batch in batches {
        add_columns(alloc, lines, name, &schema.fields, &batch.columns)?;
    }
    Ok(())
}

/// Returns whether batches that were read are equal to those that were written.
fn all_equal(written: &[Batch], read: &[Batch]) -> bool {
    let mut same = written.len() == read.len();
    for (a, b) in written.iter().zip(read) {
        same = same && orders::are_equal(a, b);
    }
    same
}

fn add_round_trips(alloc: Global, lines: &mut String, schema: &Schema) -> Result<()> {
    let batches = batches(alloc)?;
    let file = in_memory::file_round_trip(alloc, schema, &batches)?;
    add_batches(alloc, lines, "file_round_trip", &file.schema, &file.batches)?;
    let same = all_equal(&batches, &file.batches);
    lines.push_str(&format!(in alloc; "file_round_trip, are_equal: {same}\n")?)?;
    let stream = in_memory::stream_round_trip(alloc, schema, &batches)?;
    let same = all_equal(&batches, &stream.batches);
    lines.push_str(&format!(in alloc; "stream_round_trip, are_equal: {same}\n")?)?;
    Ok(())
}

fn add_parts(alloc: Global, lines: &mut String, schema: &Schema, bytes: &[u8]) -> Result<()> {
    let file = in_memory::read_columns(alloc, bytes, &["paid", "name"])?;
    add_batches(alloc, lines, "read_columns", &file.schema, &file.batches)?;
    if let Some(batch) = in_memory::last_batch(alloc, bytes)? {
        add_columns(alloc, lines, "last_batch", &schema.fields, &batch.columns)?;
    }
    Ok(())
}

fn add_errors(alloc: Global, lines: &mut String, bytes: &[u8]) -> Result<()> {
    let error = in_memory::file_error(alloc, b"no file, but a text");
    lines.push_str(&format!(in alloc; "file_error of a text: {error:?}\n")?)?;
    let error = in_memory::file_error(alloc, &bytes[..bytes.len() / 2]);
    lines.push_str(&format!(in alloc; "file_error of half a file: {error:?}\n")?)?;
    let mut forged = Vec::from_slice(alloc, bytes)?;
    if forged.len() > 10 {
        let place = forged.len() - 7;
        forged[place] = 255;
    }
    let error = in_memory::file_error(alloc, &forged);
    let name = "file_error of a footer with a negative length";
    lines.push_str(&format!(in alloc; "{name}: {error:?}\n")?)?;
    let error = in_memory::file_error(alloc, bytes);
    lines.push_str(&format!(in alloc; "file_error of a file: {error:?}\n")?)?;
    Ok(())
}

fn file_lines(alloc: Global) -> Result<String> {
    let mut lines = begun(alloc)?;
    let schema = orders::schema(alloc)?;
    add_round_trips(alloc, &mut lines, &schema)?;
    let bytes = write_file(alloc, &schema, &batches(alloc)?)?;
    add_parts(alloc, &mut lines, &schema, &bytes)?;
    add_errors(alloc, &mut lines, &bytes)?;
    Ok(lines)
}

fn stream_lines(alloc: Global) -> Result<String> {
    let mut lines = begun(alloc)?;
    let schema = orders::schema(alloc)?;
    let batches = batches(alloc)?;
    let bytes = streaming::write_batches(alloc, Vec::new(alloc), &schema, &batches)?;
    let same = bytes == write_stream(alloc, &schema, &batches)?;
    lines.push_str(&format!(in alloc; "write_batches, the bytes of write_stream: {same}\n")?)?;
    let first = streaming::read_first_batches(alloc, bytes.as_slice(), 1)?;
    add_batches(alloc, &mut lines, "read_first_batches(1)", &schema, &first)?;
    match streaming::read_first_batches(alloc, &bytes[..bytes.len() / 2], 2) {
        Ok(batches) => drop(batches),
        Err(error) => {
            lines.push_str(&format!(in alloc;
                "read_first_batches of half a stream: {error:?}\n"
            )?)?;
        }
    }
    Ok(lines)
}

fn disk_lines(rt: &HostRuntime) -> Result<String> {
    let alloc = rt.alloc();
    let mut lines = begun(alloc)?;
    on_disk::write_people(rt, "people.arrow")?;
    let file = on_disk::read_people(rt, "people.arrow")?;
    add_batches(
        alloc,
        &mut lines,
        "read_people",
        &file.schema,
        &file.batches,
    )?;
    on_disk::file_to_stream(rt, "people.arrow", "people.arrows")?;
    let bytes = fs::read(rt, "people.arrows")?;
    let stream = read_stream(alloc, &bytes)?;
    let same = all_equal(&file.batches, &stream.batches);
    lines.push_str(&format!(in alloc; "file_to_stream, are_equal: {same}\n")?)?;
    let fields = &file.schema.fields[1..];
    for batch in &on_disk::read_names_and_ages(rt, "people.arrow")? {
        add_columns(
            alloc,
            &mut lines,
            "read_names_and_ages",
            fields,
            &batch.columns,
        )?;
    }
    Ok(lines)
}

fn json_text(alloc: Global) -> Result<String> {
    let mut lines = begun(alloc)?;
    let two = "{\"age\":31,\"name\":\"Ann\"}\n{\"name\":\"Cy\"}\n";
    let people = json_lines::people_from_json(alloc, two.as_bytes())?;
    lines.push_str(&format!(in alloc; "people_from_json: {}\n", Json::of(&people))?)?;
    let line = r#"{"name":"Ann","age":3000000000}"#;
    match json_lines::people_from_json(alloc, line.as_bytes()) {
        Ok(people) => drop(people),
        Err(error) => lines.push_str(&format!(in alloc; "people_from_json of {line}: {error}\n")?)?,
    }
    Ok(lines)
}

#[test]
fn files_on_disk_have_these_columns(rt: HostRuntime) {
    let found = disk_lines(&rt);
    assert!(rt; are(&found, ON_DISK), "{found:?}");
}

#[test]
fn lines_of_json_are_read(rt: HostRuntime) {
    let found = json_text(rt.alloc());
    assert!(rt; are(&found, JSON_LINES), "{found:?}");
}

#[test]
fn files_have_these_columns(rt: HostRuntime) {
    let found = file_lines(rt.alloc());
    assert!(rt; are(&found, FILES), "{found:?}");
}

#[test]
fn streams_have_these_batches(rt: HostRuntime) {
    let found = stream_lines(rt.alloc());
    assert!(rt; are(&found, STREAMS), "{found:?}");
}
