//! Makes a struct array of two columns, and prints its rows as JSON, then one of them by index.
#![tactic(auto)]

use anyhow::Result;
use std::alloc::Global;
use tiekvorn::array::struct_of_columns;
use tiekvorn::compute::take;
use tiekvorn::json::Json;
use tiekvorn::*;

fn people(alloc: Global) -> Result<AnyArray> {
    let mut scores = MutableListArray::<i32, _>::new(alloc, MutablePrimitiveArray::new(alloc))?;
    scores.try_push_slice(Some(&[Some(7i64), None]))?;
    scores.try_push_slice(None)?;
    let names = Utf8Array::<i32>::from_slice(alloc, &["Ada", "Bo"])?.boxed();
    let columns = vec![in alloc; names, scores.as_box()?]?;
    Ok(struct_of_columns(alloc, &["name", "scores"], columns)?.boxed())
}

fn main(rt: HostRuntime) -> Result<()> {
    let people = people(rt.alloc())?;
    println!(rt; "{}", Json::of(&people))?;
    if people.len() == 2 {
        println!(rt; "row 1: {}", Json::of(&take(rt.alloc(), &people, &[1])?))?;
    }
    Ok(())
}
