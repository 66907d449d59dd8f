//! Programs on builders of one type: rows by iterators, several at once, another builder's rows.
//!
//! Builders of one type: rows by iterators, several at once, another builder's rows, strings by keys.

use crate::checks::same_rows;
use crate::failure::{Failure, expect};
use crate::level::Level;
use nest_build::array::MutableArray;
use nest_build::dictionary::MutableDictionaryArray;
use nest_build::fixed_size_list::MutableFixedSizeListArray;
use nest_build::list::MutableListArray;
use nest_build::push::{TryExtend, TryExtendFromSelf, TryPush};
use nest_flat::primitive::mutable::MutablePrimitiveArray;
use nest_flat::utf8::mutable::MutableUtf8Array;
use nest_memory::error::Error;
use random::numbers::Generator;
use random::read::slots_of;
use random::slot::Slot;
use random::start::START;
use std::alloc::Global;

const PROGRAMS: usize = 100;

const STEPS: usize = 30;

/// Numbers, or a null in their index.
type Numbers = Option<Vec<Option<i64>>>;

/// The items of a row, or a null.
type Row = Option<Vec<Numbers>>;

/// A builder of lists of lists of numbers, of two kinds of lists.
trait ListsOfLists: TryPush<Row> + TryExtend<Row> + TryExtendFromSelf + MutableArray {
    fn no_rows(alloc: Global) -> Result<Self, Error>
    where
        Self: Sized;

    /// That each level is as the model says.
    fn is_as(&self, level: &Level) -> Result<(), Failure>;
}

type Lists = MutableListArray<i32, MutableListArray<i64, MutablePrimitiveArray<i64>>>;

impl ListsOfLists for Lists {
    fn no_rows(alloc: Global) -> Result<Lists, Error> {
        let inner = MutableListArray::new(alloc, MutablePrimitiveArray::new(alloc))?;
        MutableListArray::new(alloc, inner)
    }

    fn is_as(&self, level: &Level) -> Result<(), Failure> {
        same_rows(self, level)?;
        same_rows(self.values(), &level.children[0])?;
        same_rows(self.values().values(), &level.children[0].children[0])
    }
}

type Pairs = MutableListArray<i64, MutableFixedSizeListArray<MutablePrimitiveArray<i64>>>;

impl ListsOfLists for Pairs {
    fn no_rows(alloc: Global) -> Result<Pairs, Error> {
        let numbers = MutablePrimitiveArray::new(alloc);
        MutableListArray::new(alloc, MutableFixedSizeListArray::new(alloc, numbers, 2)?)
    }

    fn is_as(&self, level: &Level) -> Result<(), Failure> {
        same_rows(self, level)?;
        same_rows(self.values(), &level.children[0])?;
        same_rows(self.values().values(), &level.children[0].children[0])
    }
}

/// Mostly two numbers or nulls.
fn numbers(alloc: Global, rng: &mut Generator) -> Result<Numbers, Error> {
    if rng.one_in(6) {
        return Ok(None);
    }
    let count = if rng.one_in(8) { rng.below(4) } else { 2 };
    let mut numbers = Vec::with_capacity(alloc, count)?;
    for _ in 0..count {
        numbers.push(if rng.one_in(4) {
            None
        } else {
            Some(rng.below(5) as i64)
        })?;
    }
    Ok(Some(numbers))
}

fn row(alloc: Global, rng: &mut Generator) -> Result<Row, Error> {
    if rng.one_in(5) {
        return Ok(None);
    }
    let mut row = Vec::new(alloc);
    for _ in 0..rng.below(4) {
        row.push(numbers(alloc, rng)?)?;
    }
    Ok(Some(row))
}

fn slot_of_numbers(alloc: Global, numbers: &Numbers) -> Result<Slot, Error> {
    let Some(numbers) = numbers else {
        return Ok(Slot::Null);
    };
    let mut slots = Vec::with_capacity(alloc, numbers.len())?;
    for number in numbers {
        slots.push(number.map_or(Slot::Null, |number| Slot::number(i128::from(number))))?;
    }
    Ok(Slot::List(slots))
}

fn slot_of_row(alloc: Global, row: &Row) -> Result<Slot, Error> {
    let Some(row) = row else {
        return Ok(Slot::Null);
    };
    let mut slots = Vec::with_capacity(alloc, row.len())?;
    for numbers in row {
        slots.push(slot_of_numbers(alloc, numbers)?)?;
    }
    Ok(Slot::List(slots))
}

fn push<B: ListsOfLists>(
    alloc: Global,
    rng: &mut Generator,
    builder: &mut B,
    level: &mut Level,
) -> Result<(), Failure> {
    let row = row(alloc, rng)?;
    let item = slot_of_row(alloc, &row)?;
    expect(builder.try_push(row) == level.push_item(&item), "try_push")
}

/// Three rows, or none.
fn extend<B: ListsOfLists>(
    alloc: Global,
    rng: &mut Generator,
    builder: &mut B,
    level: &mut Level,
) -> Result<(), Failure> {
    let mut rows = Vec::new(alloc);
    let mut items = Vec::new(alloc);
    for _ in 0..3 {
        let row = row(alloc, rng)?;
        items.push(slot_of_row(alloc, &row)?)?;
        rows.push(row)?;
    }
    expect(
        builder.try_extend(rows) == level.push_all(items.as_slice()),
        "try_extend",
    )
}

/// The rows of another builder.
fn join<B: ListsOfLists>(
    alloc: Global,
    rng: &mut Generator,
    builder: &mut B,
    level: &mut Level,
) -> Result<(), Failure> {
    let mut other = B::no_rows(alloc)?;
    let mut other_level = Level::new(alloc, &level.data_type)?;
    for _ in 0..rng.below(3) {
        push(alloc, rng, &mut other, &mut other_level)?;
    }
    let answer = builder.try_extend_from_self(&other);
    expect(answer == level.join(&other_level), "try_extend_from_self")?;
    other.is_as(&other_level)
}

fn freeze<B: MutableArray>(
    alloc: Global,
    builder: &mut B,
    level: &mut Level,
) -> Result<(), Failure> {
    let slots = level.freeze()?;
    let array = builder.as_box()?;
    expect(*array.data_type() == level.data_type, "the array's type")?;
    expect(slots_of(alloc, &array)? == slots, "the array's slots")
}

fn cut<B: MutableArray>(rng: &mut Generator, builder: &mut B, level: &mut Level) {
    let n = rng.between(0, level.len());
    builder.truncate(n);
    level.truncate(n);
}

fn run<B: ListsOfLists>(alloc: Global, rng: &mut Generator) -> Result<(), Failure> {
    let mut builder = B::no_rows(alloc)?;
    let mut level = Level::new(alloc, builder.data_type())?;
    for _ in 0..STEPS {
        match rng.below(12) {
            0..=3 => push(alloc, rng, &mut builder, &mut level)?,
            4..=6 => extend(alloc, rng, &mut builder, &mut level)?,
            7 => expect(builder.push_null() == level.push_null(), "push_null")?,
            8 => join(alloc, rng, &mut builder, &mut level)?,
            9 | 10 => cut(rng, &mut builder, &mut level),
            _ => freeze(alloc, &mut builder, &mut level)?,
        }
        builder.is_as(&level)?;
    }
    freeze(alloc, &mut builder, &mut level)
}

fn run_all<F: Fn(&mut Generator) -> Result<(), Failure>>(
    test: u64,
    run: F,
) -> Option<(usize, Failure)> {
    for number in 0..PROGRAMS {
        if let Err(wrong) = run(&mut Generator::new(START, test, number)) {
            return Some((number, wrong));
        }
    }
    None
}

#[test]
fn lists_of_lists(rt: HostRuntime) {
    let wrong = run_all(103, |rng| run::<Lists>(rt.alloc(), rng));
    assert!(rt; wrong.is_none(), "start {START}, program {wrong:?}");
}

#[test]
fn lists_of_pairs(rt: HostRuntime) {
    let wrong = run_all(104, |rng| run::<Pairs>(rt.alloc(), rng));
    assert!(rt; wrong.is_none(), "start {START}, program {wrong:?}");
}

type Dictionaries = MutableDictionaryArray<u8, MutableUtf8Array<i32>>;

const TEXT_VALUES: [&str; 5] = ["a", "", "ab", "\u{e9}", "b"];

fn string_slot(alloc: Global, text: Option<&str>) -> Result<Slot, Error> {
    Ok(match text {
        Some(text) => Slot::Text(Vec::from_slice(alloc, text.as_bytes())?),
        None => Slot::Null,
    })
}

fn a_random_string(rng: &mut Generator) -> Option<&'static str> {
    if rng.one_in(5) {
        None
    } else {
        Some(TEXT_VALUES[rng.below(TEXT_VALUES.len())])
    }
}

/// A text, or two at once.
fn push_texts(
    alloc: Global,
    rng: &mut Generator,
    keyed: &mut Dictionaries,
    level: &mut Level,
) -> Result<(), Failure> {
    let (first, second) = (a_random_string(rng), a_random_string(rng));
    if rng.boolean() {
        let answer = keyed.try_push(first);
        return expect(
            answer == level.push_item(&string_slot(alloc, first)?),
            "try_push",
        );
    }
    let items = [string_slot(alloc, first)?, string_slot(alloc, second)?];
    let answer = keyed.try_extend([first, second]);
    expect(answer == level.push_all(&items), "try_extend")
}

fn run_dictionary(alloc: Global, rng: &mut Generator) -> Result<(), Failure> {
    let texts = MutableUtf8Array::new(alloc)?;
    let mut keyed: Dictionaries = MutableDictionaryArray::try_from_values(alloc, texts)?;
    let mut level = Level::new(alloc, MutableArray::data_type(&keyed))?;
    for _ in 0..STEPS {
        match rng.below(8) {
            0..=5 => push_texts(alloc, rng, &mut keyed, &mut level)?,
            6 => cut(rng, &mut keyed, &mut level),
            _ => freeze(alloc, &mut keyed, &mut level)?,
        }
        same_rows(&keyed, &level)?;
        same_rows(keyed.values(), &level.children[0])?;
        for text in TEXT_VALUES {
            let index = level.children[0].place_of(&string_slot(alloc, Some(text))?);
            expect(
                keyed.key_of(&text).map(|key| usize::from(key)) == index,
                "key_of",
            )?;
        }
    }
    freeze(alloc, &mut keyed, &mut level)
}

#[test]
fn dictionary_strings(rt: HostRuntime) {
    let wrong = run_all(105, |rng| run_dictionary(rt.alloc(), rng));
    assert!(rt; wrong.is_none(), "start {START}, program {wrong:?}");
}
