//! The chapter on arrays from their parts.
use crate::expected::ARRAYS;
use crate::lines::{add, are};
use anyhow::Result;
use guide::arrays::{flat, nested, refused, tagged, types};
use std::alloc::Global;

fn lines(alloc: Global) -> Result<String> {
    let mut lines = String::new(alloc);
    lines.push_str("\n")?;
    add(alloc, &mut lines, "numbers", flat::numbers(alloc))?;
    add(alloc, &mut lines, "booleans", flat::booleans(alloc))?;
    add(alloc, &mut lines, "strings", flat::strings(alloc))?;
    add(alloc, &mut lines, "binaries", flat::binaries(alloc))?;
    add(
        alloc,
        &mut lines,
        "fixed_size_binaries",
        flat::fixed_size_binaries(alloc),
    )?;
    add(alloc, &mut lines, "nulls", flat::nulls())?;
    add_nested(alloc, &mut lines)?;
    add_types(alloc, &mut lines)?;
    Ok(lines)
}

fn add_nested(alloc: Global, lines: &mut String) -> Result<()> {
    add(alloc, lines, "lists", nested::lists(alloc))?;
    let pairs = nested::fixed_size_lists(alloc);
    add(alloc, lines, "fixed_size_lists", pairs)?;
    add(alloc, lines, "structs", nested::structs(alloc))?;
    add(alloc, lines, "struct_lists", nested::struct_lists(alloc))?;
    add(alloc, lines, "maps", nested::maps(alloc))?;
    add(alloc, lines, "unions", nested::unions(alloc))?;
    add(alloc, lines, "dictionary", nested::dictionary(alloc))?;
    add(alloc, lines, "tagged_lists", tagged::tagged_lists(alloc))?;
    add(alloc, lines, "null_numbers", refused::null_numbers(alloc))?;
    let list = refused::offset_past_values(alloc);
    add(alloc, lines, "offset_past_values", list)
}

fn add_types(alloc: Global, lines: &mut String) -> Result<()> {
    for text in ["list<item: int64 not null>", "list<item: int46>"] {
        let line = match types::parse_data_type(alloc, text) {
            Ok(data_type) => {
                let line = format!(in alloc; "parse_data_type({text:?}): {data_type}\n")?;
                drop(data_type);
                line
            }
            Err(error) => format!(in alloc; "parse_data_type({text:?}): {error}\n")?,
        };
        lines.push_str(&line)?;
    }
    Ok(())
}

#[test]
fn arrays_have_these_slots(rt: HostRuntime) {
    let found = lines(rt.alloc());
    assert!(rt; are(&found, ARRAYS), "{found:?}");
}
