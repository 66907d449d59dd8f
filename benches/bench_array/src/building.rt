//! Arrays built row by row.
ghost use Rattle.std.specs.Prelude.{OnOk};
ghost use Rattle.nest_model.specs.BuilderComplete.{IsComplete};
ghost use Rattle.bench_array.specs.Trees.{list_tree, sized_tree};

use anyhow::Result;
use bench_tools::{begin, report};
use nest_array::AnyArray;
use nest_build::array::MutableArray;
use nest_build::fixed_size_binary::MutableFixedSizeBinaryArray;
use nest_build::fixed_size_list::MutableFixedSizeListArray;
use nest_build::list::MutableListArray;
use nest_build::push::TryPush;
use nest_flat::primitive::mutable::MutablePrimitiveArray;
use nest_memory::error::Error;
use std::alloc::Global;
use std::rt::Clock;

const FEW: usize = 100;

const ROWS: usize = 500_000;

type Numbers = MutablePrimitiveArray<i64>;

type Lists = MutableListArray<i32, Numbers>;

type Nested = MutableListArray<i32, Lists>;

const NUMBERS: [Option<i64>; 8] = [
    Some(1),
    Some(2),
    Some(3),
    Some(4),
    Some(5),
    Some(6),
    Some(7),
    Some(8),
];

const NUMBERS_AND_NULL: [Option<i64>; 8] = [
    Some(1),
    Some(2),
    Some(3),
    None,
    Some(5),
    Some(6),
    Some(7),
    Some(8),
];

const BYTES: [u8; 16] = *b"sixteen bytes ..";

/// Pushes rows of these items by a slice, every tenth of them null where `nulls` says so.
fn push_lists(
    builder: &mut Lists,
    items: &[Option<i64>],
    n: usize,
    nulls: bool,
) -> Result<(), Error>
    requires { IsComplete (list_tree builder.old.data_type builder.old.rows builder.old.values) }
{
    'rows: for i in 0..n {
        let row = if nulls && i % 10 == 9 {
            None
        } else {
            Some(items)
        };
        builder.try_push_slice(row)?;
    }
    Ok(())
}

/// The same of fixed-size lists, by an iterator.
fn push_sized(
    builder: &mut MutableFixedSizeListArray<Numbers>,
    items: &[Option<i64>],
    n: usize,
    nulls: bool,
) -> Result<(), Error>
    requires { IsComplete (sized_tree builder.old.data_type builder.old.rows builder.old.values) }
{
    'rows: for i in 0..n {
        if nulls && i % 10 == 9 {
            builder.push_null()?;
        } else {
            builder.try_push(Some(items.iter().copied()))?;
        }
    }
    Ok(())
}

/// Byte strings of 16 bytes.
fn push_bytes(
    builder: &mut MutableFixedSizeBinaryArray,
    n: usize,
    nulls: bool,
) -> Result<(), Error> {
    'rows: for i in 0..n {
        let item = if nulls && i % 10 == 9 {
            None
        } else {
            Some(BYTES.as_slice())
        };
        builder.try_push(item)?;
    }
    Ok(())
}

/// Pushes a list into the child of a builder of lists of lists.
fn push_below(child: &mut Lists, items: &[Option<i64>]) -> Result<(), Error>
    requires { IsComplete (⟦<Lists as MutableArray>⟧.model child.old) }
    ensures { IsComplete (⟦<Lists as MutableArray>⟧.model child.new) }
{
    child.try_push_slice(Some(items))
}

/// Pushes a row of two lists, which were pushed into the child. That it is whole is proved, and need not be asked.
fn push_nested(builder: &mut Nested, items: &[Option<i64>]) -> Result<(), Error>
    requires { IsComplete (⟦<Nested as MutableArray>⟧.model builder.old) }
    ensures { OnOk result (IsComplete (⟦<Nested as MutableArray>⟧.model builder.new)) }
{
    push_below(builder.mut_values(), items)?;
    push_below(builder.mut_values(), items)?;
    builder.known();
    builder.try_push_valid()
}

/// So many rows of two lists of these items.
fn push_all_nested(builder: &mut Nested, items: &[Option<i64>], n: usize) -> Result<(), Error>
    requires { IsComplete (⟦<Nested as MutableArray>⟧.model builder.old) }
{
    'rows: for _ in 0..n {
        push_nested(builder, items)?;
    }
    Ok(())
}

fn numbers(nulls: bool) -> [Option<i64>; 8] {
    if nulls { NUMBERS_AND_NULL } else { NUMBERS }
}

/// So many lists pushed one by one and frozen.
fn lists(alloc: Global, n: usize, nulls: bool) -> Result<AnyArray, Error> {
    let mut builder: Lists = MutableListArray::new(alloc, MutablePrimitiveArray::new(alloc))?;
    let frozen = match push_lists(&mut builder, &numbers(nulls), n, nulls) {
        Ok(()) => builder.as_box(),
        Err(error) => Err(error),
    };
    drop(builder);
    frozen
}

fn sized_lists(alloc: Global, n: usize, nulls: bool) -> Result<AnyArray, Error> {
    let items: Numbers = MutablePrimitiveArray::new(alloc);
    let mut builder = MutableFixedSizeListArray::new(alloc, items, 8)?;
    let frozen = match push_sized(&mut builder, &numbers(nulls), n, nulls) {
        Ok(()) => builder.as_box(),
        Err(error) => Err(error),
    };
    drop(builder);
    frozen
}

fn byte_strings(alloc: Global, n: usize, nulls: bool) -> Result<AnyArray, Error> {
    let mut builder = MutableFixedSizeBinaryArray::new(alloc, 16);
    let frozen = match push_bytes(&mut builder, n, nulls) {
        Ok(()) => builder.as_box(),
        Err(error) => Err(error),
    };
    drop(builder);
    frozen
}

/// So many rows of two lists of four numbers.
fn nested_lists(alloc: Global, n: usize) -> Result<AnyArray, Error> {
    let items: Lists = MutableListArray::new(alloc, MutablePrimitiveArray::new(alloc))?;
    let mut builder: Nested = MutableListArray::new(alloc, items)?;
    let frozen = match push_all_nested(&mut builder, &NUMBERS[..4], n) {
        Ok(()) => builder.as_box(),
        Err(error) => Err(error),
    };
    drop(builder);
    frozen
}

/// What is built.
#[derive(Clone, Copy)]
enum Work {
    Lists,
    SizedLists,
    Bytes,
    NestedLists,
}

fn built(alloc: Global, work: Work, n: usize, nulls: bool) -> Result<AnyArray, Error> {
    match work {
        Work::Lists => lists(alloc, n, nulls),
        Work::SizedLists => sized_lists(alloc, n, nulls),
        Work::Bytes => byte_strings(alloc, n, nulls),
        Work::NestedLists => nested_lists(alloc, n),
    }
}

fn run_rows<R: Clock + Print + AllocGlobal>(
    rt: &R,
    line: &str,
    work: Work,
    nulls: bool,
    measured: bool,
) -> Result<()> {
    let n = if measured { ROWS } else { FEW };
    let begun = begin(rt, measured)?;
    let array = built(rt.alloc(), work, n, nulls)?;
    let told = report(rt, line, array.null_count(), begun, n);
    drop(array);
    told?;
    Ok(())
}

fn run_both<R: Clock + Print + AllocGlobal>(rt: &R, work: Work, measured: bool) -> Result<()> {
    run_rows(
        rt,
        "  rows pushed and frozen, their nulls",
        work,
        false,
        measured,
    )?;
    run_rows(
        rt,
        "  rows and nulls pushed and frozen, their nulls",
        work,
        true,
        measured,
    )
}

/// Builds each, without a null, and with a null in each row of numbers and every tenth row null.
pub fn run<R: Clock + Print + AllocGlobal>(rt: &R, measured: bool) -> Result<()> {
    println!(rt; "lists of 8 numbers, built")?;
    run_both(rt, Work::Lists, measured)?;
    println!(rt; "lists of the fixed size 8, built")?;
    run_both(rt, Work::SizedLists, measured)?;
    println!(rt; "byte strings of 16 bytes, built")?;
    run_both(rt, Work::Bytes, measured)?;
    println!(rt; "lists of two lists of 4 numbers, built")?;
    run_rows(
        rt,
        "  rows pushed and frozen, their nulls",
        Work::NestedLists,
        false,
        measured,
    )
}
