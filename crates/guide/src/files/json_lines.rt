//! Lines of JSON as arrays.
use anyhow::Result;
use std::alloc::Global;
use tiekvorn::AnyArray;
use tiekvorn::json::read_json_lines;
use tiekvorn::types::parse_type;

/// Reads a struct from each line. Its fields may be in any order, and a missing one is null.
pub fn people_from_json(alloc: Global, lines: &[u8]) -> Result<AnyArray> {
    let data_type = parse_type(alloc, "struct<name: string, age: int32>")?;
    Ok(read_json_lines(alloc, &data_type, lines)?)
}
