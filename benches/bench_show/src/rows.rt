//! The rows of `listcut` by its own writer, and the same rows as JSON.
ghost use Rattle.std.specs.Prelude.{◌≡◌, Some};
ghost use Rattle.nest_memory.specs.TypeTree as types;
ghost use Rattle.nest_memory.specs.TypeTree.{item_type};
ghost use Rattle.nest_model.specs.Layout.{layout_type};

use anyhow::Result;
use bench_tools::{begin, report};
use listcut_rows::input::read_rows;
use listcut_rows::output::write_rows;
use nest_array::{AnyArray, ListArray};
use std::alloc::{AllocError, Global};
use std::rt::Clock;

/// Lines of eight numbers each.
fn lines(alloc: Global, n: usize) -> Result<String, AllocError> {
    let mut text = String::new(alloc);
    for i in 0..n {
        let k = i % 1000;
        writeln!(text, "[{k},1,22,333,4444,-5,66,777]")?;
    }
    Ok(text)
}

fn run_writer<R: Clock + Print + AllocGlobal>(
    rt: &R,
    rows: &ListArray,
    measured: bool,
) -> Result<()>
    requires { item_type (layout_type rows.now) ≡ Some types.int64 }
{
    let mut first = Vec::new(rt.alloc());
    write_rows(rt.alloc(), rows, &mut first)?;
    drop(first);
    let begun = begin(rt, measured)?;
    let mut out = Vec::new(rt.alloc());
    write_rows(rt.alloc(), rows, &mut out)?;
    report(
        rt,
        "rows of 8 numbers, by listcut's writer",
        out.len(),
        begun,
        rows.len(),
    )?;
    Ok(())
}

/// Both ways to write the same rows.
pub fn run<R: Clock + Print + AllocGlobal>(rt: &R, n: usize, measured: bool) -> Result<()> {
    let text = lines(rt.alloc(), n)?;
    let rows = read_rows(rt.alloc(), text.as_bytes())?;
    run_writer(rt, &rows, measured)?;
    crate::run_array(rt, "the same rows", Ok(AnyArray::List(rows)), measured)
}
