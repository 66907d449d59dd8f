//! The chapter on builders.
use crate::expected::BUILDERS;
use crate::lines::{add, are};
use anyhow::Result;
use guide::builders::{any, dictionaries, flat, lists, structs};
use std::alloc::Global;
use tiekvorn::{AnyNative, MutableArray, MutablePrimitiveArray, Plain};

fn lines(alloc: Global) -> Result<String> {
    let mut lines = String::new(alloc);
    lines.push_str("\n")?;
    add(alloc, &mut lines, "numbers", flat::numbers(alloc))?;
    add(alloc, &mut lines, "booleans", flat::booleans(alloc))?;
    add(alloc, &mut lines, "strings", flat::strings(alloc))?;
    add(alloc, &mut lines, "binaries", flat::binaries(alloc))?;
    let binaries = flat::fixed_size_binaries(alloc);
    add(alloc, &mut lines, "fixed_size_binaries", binaries)?;
    add(alloc, &mut lines, "nulls", flat::nulls(alloc))?;
    add(alloc, &mut lines, "lists", lists::lists(alloc))?;
    let pairs = lists::fixed_size_lists(alloc);
    add(alloc, &mut lines, "fixed_size_lists", pairs)?;
    add_refused(alloc, &mut lines)?;
    add_people(alloc, &mut lines)?;
    add_dictionary(alloc, &mut lines)?;
    Ok(lines)
}

fn add_refused(alloc: Global, lines: &mut String) -> Result<()> {
    let mut pairs = lists::new_pair_builder(alloc)?;
    let pushed = lists::push_three(&mut pairs);
    let (len, values) = (pairs.len(), pairs.values().len());
    lines.push_str(&format!(in alloc;
        "push_three: {pushed:?}, then {len} lists and {values} values\n"
    )?)?;
    let mut numbers = MutablePrimitiveArray::<i64>::new(alloc);
    let pushed = any::push_string(&mut numbers, "x");
    lines.push_str(&format!(in alloc; "push_string: {pushed:?}\n")?)?;
    add(alloc, lines, "freeze_any", any::freeze_any(&mut numbers))
}

fn add_people(alloc: Global, lines: &mut String) -> Result<()> {
    let age = Some(Plain::Native(AnyNative::Int32(31)));
    let rows = [
        (Some(Plain::Text("Ann")), age),
        (Some(Plain::Text("Bob")), Some(Plain::Text("?"))),
        (Some(Plain::Text("Cy")), None),
    ];
    let mut people = structs::new_people_builder(alloc)?;
    structs::load(&mut people, &rows)?;
    let frozen = people.freeze();
    add(alloc, lines, "load", frozen)
}

fn add_dictionary(alloc: Global, lines: &mut String) -> Result<()> {
    let (array, key) = dictionaries::dictionary(alloc)?;
    add(alloc, lines, "dictionary", Ok(array))?;
    lines.push_str(&format!(in alloc; "key_of_string(\"c\"): {key:?}\n")?)?;
    Ok(())
}

#[test]
fn builders_freeze_to_these_arrays(rt: HostRuntime) {
    let found = lines(rt.alloc());
    assert!(rt; are(&found, BUILDERS), "{found:?}");
}
