//! Records of a number and a text, and lists of two of them, pushed row by row.
ghost use Rattle.nest_any.specs.Trees.{tree_of, trees_of};
ghost use Rattle.nest_model.specs.BuilderAddRow.{AreEachComplete, HasCompleteChildren};
ghost use Rattle.nest_model.specs.BuilderComplete.{IsComplete};

use crate::makers;
use crate::makers::UNFINISHED;
use anyhow::Result;
use bench_tools::{begin, report};
use nest_any::{AnyMutableArray, AnyMutableFlat, MutableStructArray};
use nest_array::AnyArray;
use nest_build::array::MutableArray;
use nest_build::push::TryPush;
use nest_flat::any_native::AnyNative;
use nest_flat::any_primitive::mutable::AnyMutablePrimitive;
use nest_flat::plain::Plain;
use nest_memory::error::Error;
use std::alloc::Global;
use std::rt::Clock;

const FEW: usize = 100;

const ROWS: usize = 1_000_000;

const NUMBER: i64 = 19;

const TEXT: &str = "nineteen";

/// Pushes a number into the first child, as what it is.
fn push_number(child: &mut AnyMutableArray, number: i64) -> Result<(), Error>
    requires { IsComplete (tree_of child.old) }
    ensures { IsComplete (tree_of child.new) }
{
    match child {
        AnyMutableArray::Flat(AnyMutableFlat::Primitive(AnyMutablePrimitive::Int64(numbers))) => {
            numbers.try_push(Some(number))
        }
        _ => Ok(()),
    }
}

/// Pushes a text into the second child, as what it is.
fn push_text(child: &mut AnyMutableArray, text: &str) -> Result<(), Error>
    requires { IsComplete (tree_of child.old) }
    ensures { IsComplete (tree_of child.new) }
{
    match child {
        AnyMutableArray::Flat(AnyMutableFlat::Utf8(texts)) => texts.try_push(Some(text)),
        _ => Ok(()),
    }
}

/// The cells of a record, by children whose kinds are known.
fn push_cells(children: &mut [AnyMutableArray]) -> Result<(), Error>
    requires { AreEachComplete (trees_of children.old) }
    ensures { AreEachComplete (trees_of children.new) }
{
    if children.len() == 2 {
        push_number(&mut children[0], NUMBER)?;
        push_text(&mut children[1], TEXT)?;
    }
    Ok(())
}

/// A record, cell by cell. That the children stay whole is proved, and need not be asked.
fn push_typed(records: &mut MutableStructArray) -> Result<(), Error>
    requires { HasCompleteChildren records.old }
    ensures { HasCompleteChildren records.new }
{
    push_cells(records.mut_values())?;
    records.push(true)
}

fn push_all_typed(records: &mut MutableStructArray, n: usize) -> Result<(), Error>
    requires { HasCompleteChildren records.old }
{
    'rows: for _ in 0..n {
        push_typed(records)?;
    }
    Ok(())
}

fn push_plain(builder: &mut AnyMutableArray, value: Plain<'_>) -> Result<(), Error> {
    if !builder.is_complete() {
        return Err(UNFINISHED);
    }
    builder.try_push_plain(Some(value))
}

/// A record by plain values, whatever the kinds of its children are.
fn push_any(records: &mut AnyMutableArray) -> Result<(), Error> {
    if let Some(child) = records.child(0) {
        push_plain(child, Plain::Native(AnyNative::Int64(NUMBER)))?;
    }
    if let Some(child) = records.child(1) {
        push_plain(child, Plain::Text(TEXT))?;
    }
    report_row(records)
}

fn report_row(builder: &mut AnyMutableArray) -> Result<(), Error> {
    if !builder.has_complete_children() {
        return Err(UNFINISHED);
    }
    builder.push_row(true)
}

/// A list of two records.
fn push_list(lists: &mut AnyMutableArray) -> Result<(), Error> {
    if let Some(records) = lists.child(0) {
        push_any(records)?;
        push_any(records)?;
    }
    report_row(lists)
}

fn typed(alloc: Global, n: usize) -> Result<AnyArray, Error> {
    let mut records = makers::records(alloc)?;
    let done = push_all_typed(&mut records, n);
    let frozen = records.as_box();
    drop(records);
    unless_refused(frozen, done)
}

/// The array, unless a row of it was rejected.
fn unless_refused(
    array: Result<AnyArray, Error>,
    done: Result<(), Error>,
) -> Result<AnyArray, Error> {
    match done {
        Ok(()) => array,
        Err(error) => {
            drop(array);
            Err(error)
        }
    }
}

/// By plain values: records, or lists of two of them.
fn plain(alloc: Global, n: usize, listed: bool) -> Result<AnyArray, Error> {
    let mut builder = if listed {
        makers::lists(alloc)?
    } else {
        AnyMutableArray::Struct(makers::records(alloc)?)
    };
    let mut done = Ok(());
    for _ in 0..n {
        if done.is_ok() {
            done = if listed {
                push_list(&mut builder)
            } else {
                push_any(&mut builder)
            };
        }
    }
    let frozen = builder.as_box();
    drop(builder);
    unless_refused(frozen, done)
}

/// What is built.
#[derive(Clone, Copy)]
enum Work {
    Typed,
    Plain,
    Lists,
}

fn built(alloc: Global, work: Work, n: usize) -> Result<AnyArray, Error> {
    match work {
        Work::Typed => typed(alloc, n),
        Work::Plain => plain(alloc, n, false),
        Work::Lists => plain(alloc, n, true),
    }
}

fn run_rows<R: Clock + Print + AllocGlobal>(
    rt: &R,
    line: &str,
    work: Work,
    measured: bool,
) -> Result<()> {
    let n = if measured { ROWS } else { FEW };
    let begun = begin(rt, measured)?;
    let array = built(rt.alloc(), work, n)?;
    let told = report(rt, line, array.len(), begun, n);
    drop(array);
    told?;
    Ok(())
}

/// Builds each.
pub fn run<R: Clock + Print + AllocGlobal>(rt: &R, measured: bool) -> Result<()> {
    println!(rt; "records of a number and a string, pushed and frozen")?;
    run_rows(rt, "  by children of known kinds", Work::Typed, measured)?;
    run_rows(rt, "  by plain values", Work::Plain, measured)?;
    println!(rt; "lists of two such records, pushed and frozen")?;
    run_rows(rt, "  by plain values", Work::Lists, measured)
}
