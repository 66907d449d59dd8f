//! A program of calls on a builder of any kind, each of them made on the model too.

use crate::checks::{same_levels, same_types};
use crate::failure::{Failure, expect};
use crate::level::{Level, Rows};
use crate::makers::no_rows;
use crate::types::{a_random_type, flat};
use crate::values::{a_random_value, plain};
use nest_any::AnyMutableArray;
use nest_array::AnyArray;
use nest_build::array::MutableArray;
use nest_memory::datatypes::DataType;
use nest_memory::datatypes::physical_type::PhysicalType;
use nest_memory::error::Error;
use random::numbers::Generator;
use random::read::slots_of;
use random::slot::Slot;
use std::alloc::Global;

const STEPS: usize = 30;

const DEPTH: usize = 4;

/// The data type and each call follow from the random numbers.
pub fn run(alloc: Global, rng: &mut Generator) -> Result<(), Failure> {
    let data_type = a_random_type(alloc, rng, DEPTH)?;
    run_on(alloc, rng, &data_type)
}

/// The same on builders of one type.
pub fn run_on(alloc: Global, rng: &mut Generator, data_type: &DataType) -> Result<(), Failure> {
    let mut builder = no_rows(alloc, data_type)?;
    let mut level = Level::new(alloc, data_type)?;
    same_types(&mut builder, &level)?;
    same_levels(&mut builder, &level)?;
    for _ in 0..STEPS {
        step(alloc, rng, &mut builder, &mut level)?;
        same_levels(&mut builder, &level)?;
    }
    fill(alloc, rng, &mut builder, &mut level)?;
    same_levels(&mut builder, &level)?;
    freeze(alloc, rng, &mut builder, &mut level)?;
    same_levels(&mut builder, &level)?;
    same_types(&mut builder, &level)?;
    fill(alloc, rng, &mut builder, &mut level)?;
    freeze(alloc, rng, &mut builder, &mut level)
}

/// A call on the builder, or on one below it.
fn step(
    alloc: Global,
    rng: &mut Generator,
    builder: &mut AnyMutableArray,
    level: &mut Level,
) -> Result<(), Failure> {
    if !level.children.is_empty() && rng.boolean() {
        let i = rng.below(level.children.len());
        if let Some(child) = builder.child(i) {
            return step(alloc, rng, child, &mut level.children[i]);
        }
    }
    match rng.below(16) {
        0..=5 => fill(alloc, rng, builder, level),
        6 | 7 => null(builder, level),
        8 | 9 => push_row(builder, level, !rng.one_in(4)),
        10 | 11 => push_of_any_kind(alloc, rng, builder, level),
        12 | 13 => truncate(rng, builder, level),
        14 => room(rng, builder),
        _ => freeze(alloc, rng, builder, level),
    }
}

/// A whole row more: what is missing in the children, the items of the row, and the row.
fn fill(
    alloc: Global,
    rng: &mut Generator,
    builder: &mut AnyMutableArray,
    level: &mut Level,
) -> Result<(), Failure> {
    if level.children.is_empty() || is_dictionary(level) {
        if is_null(level) || rng.one_in(5) {
            return null(builder, level);
        }
        let value_type = value_type(alloc, level)?;
        return push(alloc, rng, builder, level, &value_type);
    }
    let (least, most) = level.next_row(rng.below(3));
    for i in 0..level.children.len() {
        let Some(child) = builder.child(i) else {
            return Err(Failure::Mismatch("child"));
        };
        fill_to(alloc, rng, child, &mut level.children[i], least, most)?;
    }
    expect(level.has_complete_children(), "a model that is not whole")?;
    push_row(builder, level, !rng.one_in(5))
}

/// Fills a child until it has at least so many rows, and cuts it to at most so many.
fn fill_to(
    alloc: Global,
    rng: &mut Generator,
    child: &mut AnyMutableArray,
    level: &mut Level,
    least: usize,
    most: usize,
) -> Result<(), Failure> {
    while level.len() < least || !level.is_complete() {
        fill(alloc, rng, child, level)?;
    }
    if level.len() > most {
        child.truncate(most);
        level.truncate(most);
    }
    Ok(())
}

fn is_null(level: &Level) -> bool {
    level.data_type.to_physical_type() == PhysicalType::Null
}

fn is_dictionary(level: &Level) -> bool {
    matches!(&level.rows, Rows::Dictionaries { .. })
}

/// The type of the values of a level without children, and of the values of dictionaries.
fn value_type(alloc: Global, level: &Level) -> Result<DataType, Error> {
    match level.children.first() {
        Some(values) => values.data_type.clone(alloc),
        None => level.data_type.clone(alloc),
    }
}

/// A null, into a whole builder.
pub fn null(builder: &mut AnyMutableArray, level: &mut Level) -> Result<(), Failure> {
    if !level.is_complete() {
        return Ok(());
    }
    expect(builder.push_null() == level.push_null(), "push_null")
}

/// A row of what waits, where the children are whole.
pub fn push_row(
    builder: &mut AnyMutableArray,
    level: &mut Level,
    valid: bool,
) -> Result<(), Failure> {
    if !level.has_complete_children() {
        return Ok(());
    }
    expect(builder.push_row(valid) == level.push_row(valid), "push_row")
}

/// A value of a type, into a whole builder.
fn push(
    alloc: Global,
    rng: &mut Generator,
    builder: &mut AnyMutableArray,
    level: &mut Level,
    value_type: &DataType,
) -> Result<(), Failure> {
    if !level.is_complete() {
        return Ok(());
    }
    let value = a_random_value(alloc, rng, value_type)?;
    push_value(builder, level, &value, value_type)
}

/// A value into a whole builder.
pub fn push_value(
    builder: &mut AnyMutableArray,
    level: &mut Level,
    value: &Slot,
    value_type: &DataType,
) -> Result<(), Failure> {
    let answer = builder.try_push_plain(plain(value_type, value));
    expect(answer == level.push(value, value_type), "try_push_plain")
}

/// A value of any kind, which most builders reject.
fn push_of_any_kind(
    alloc: Global,
    rng: &mut Generator,
    builder: &mut AnyMutableArray,
    level: &mut Level,
) -> Result<(), Failure> {
    let value_type = flat(alloc, rng)?;
    push(alloc, rng, builder, level, &value_type)
}

/// The first rows of a whole builder.
fn truncate(
    rng: &mut Generator,
    builder: &mut AnyMutableArray,
    level: &mut Level,
) -> Result<(), Failure> {
    if level.is_complete() {
        let n = rng.between(0, level.len());
        builder.truncate(n);
        level.truncate(n);
    }
    Ok(())
}

/// Calls that change no row.
fn room(rng: &mut Generator, builder: &mut AnyMutableArray) -> Result<(), Failure> {
    let answer = if rng.boolean() {
        builder.reserve(rng.below(20))
    } else {
        builder.shrink_to_fit()
    };
    expect(answer == Ok(()), "reserve or shrink_to_fit")
}

/// The array of the rows, where the builder is whole.
pub fn freeze(
    alloc: Global,
    rng: &mut Generator,
    builder: &mut AnyMutableArray,
    level: &mut Level,
) -> Result<(), Failure> {
    let wanted = level.freeze();
    let found = frozen(alloc, rng, builder);
    match (found, wanted) {
        (Ok(array), Ok(slots)) => {
            expect(*array.data_type() == level.data_type, "the array's type")?;
            expect(array.len() == slots.len(), "the array's length")?;
            expect(slots_of(alloc, &array)? == slots, "the array's slots")
        }
        (Err(error), Err(cause)) => expect(error == cause, "the refusal of a freeze"),
        _ => Err(Failure::Mismatch("whether a freeze is refused")),
    }
}

/// The array, by itself or from after the count of its owners.
fn frozen(
    alloc: Global,
    rng: &mut Generator,
    builder: &mut AnyMutableArray,
) -> Result<AnyArray, Error> {
    if rng.boolean() {
        return builder.as_box();
    }
    let shared = builder.as_arc(alloc)?;
    (*shared).clone(alloc)
}
