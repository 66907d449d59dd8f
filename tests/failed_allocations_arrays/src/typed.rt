//! Builders of one type, over one another.

use crate::mirrors::{Mirrored, change, freeze};
use failed_allocations::failures::{Failure, Failures, expect};
use nest_array::AnyArray;
use nest_build::array::MutableArray;
use nest_build::dictionary::MutableDictionaryArray;
use nest_build::fixed_size_binary::MutableFixedSizeBinaryArray;
use nest_build::fixed_size_list::MutableFixedSizeListArray;
use nest_build::list::MutableListArray;
use nest_build::push::{TryExtend, TryExtendFromSelf, TryPush};
use nest_flat::any_native::AnyNative;
use nest_flat::plain::Plain;
use nest_flat::primitive::mutable::MutablePrimitiveArray;
use nest_flat::utf8::mutable::MutableUtf8Array;
use nest_memory::error::Error;
use std::alloc::Global;

type Numbers = MutablePrimitiveArray<i64>;

type Pairs = MutableFixedSizeListArray<Numbers>;

type Lists = MutableListArray<i32, Pairs>;

/// Lists over a builder of any type in a box.
type BoxedLists = MutableListArray<i64, Box<dyn MutableArray>>;

type Strings = MutableUtf8Array<i32>;

/// Byte strings of two bytes by keys of 8 bits.
type Dictionaries = MutableDictionaryArray<i8, MutableFixedSizeBinaryArray>;

/// Whether two builders have the same rows: of these values, or of nulls.
fn hold_same<B: MutableArray>(first: &B, second: &B, values: &[Plain<'_>]) -> bool {
    first.len() == second.len()
        && first.is_complete() == second.is_complete()
        && (0..first.len()).all(|i| {
            first.is_valid(i) == second.is_valid(i)
                && values
                    .iter()
                    .all(|value| first.holds(i, value) == second.holds(i, value))
        })
}

fn number(value: i64) -> Plain<'static> {
    Plain::Native(AnyNative::Int64(value))
}

fn are_same_pairs(first: &Pairs, second: &Pairs) -> bool {
    let values = [number(1), number(2), number(3)];
    hold_same(first, second, &[]) && hold_same(first.values(), second.values(), &values)
}

/// The pair of a number and a null.
fn pair(alloc: Global, first: i64) -> Result<Vec<Option<i64>>, Error> {
    Ok(vec![in alloc; Some(first), None]?)
}

/// A row of a pair and of a null.
fn row(alloc: Global, first: i64) -> Result<Vec<Option<Vec<Option<i64>>>>, Error> {
    Ok(vec![in alloc; Some(pair(alloc, first)?), None]?)
}

fn no_pairs(alloc: Global) -> Result<Pairs, Error> {
    MutableFixedSizeListArray::new(alloc, MutablePrimitiveArray::new(alloc), 2)
}

fn no_lists(alloc: Global) -> Result<Lists, Error> {
    MutableListArray::new(alloc, no_pairs(alloc)?)
}

/// Two rows and a null between them, pushed at once.
fn extend(alloc: Global, lists: &mut Lists) -> Result<(), Error> {
    let rows = vec![in alloc; Some(row(alloc, 1)?), None, Some(row(alloc, 2)?)]?;
    lists.try_extend(rows)
}

/// The rows of another builder.
fn join(alloc: Global, lists: &mut Lists) -> Result<(), Error> {
    let mut other = no_lists(alloc)?;
    extend(alloc, &mut other)?;
    lists.try_extend_from_self(&other)
}

impl Mirrored for Lists {
    fn is_same(&mut self, other: &mut Lists) -> bool {
        hold_same(self, other, &[])
            && self.offsets().last() == other.offsets().last()
            && are_same_pairs(self.values(), other.values())
    }

    fn fill(
        failures: &mut Failures,
        alloc: Global,
        first: &mut Lists,
        second: &mut Lists,
    ) -> Result<(), Failure> {
        change(failures, first, second, |lists| extend(alloc, lists))?;
        change(
            failures,
            first,
            second,
            |lists| lists.try_push(Some(row(alloc, 3)?)),
        )?;
        change(failures, first, second, |lists| join(alloc, lists))?;
        change(
            failures,
            first,
            second,
            |lists| lists.mut_values().push_null(),
        )?;
        change(failures, first, second, |lists| lists.try_push_valid())?;
        change(
            failures,
            first,
            second,
            |lists| lists.mut_values().push_null(),
        )?;
        change(failures, first, second, |lists| {
            lists.try_extend_from_lengths(&[None, Some(1), Some(0)])
        })
    }
}

pub fn lists(failures: &mut Failures, alloc: Global) -> Result<(), Failure> {
    let array = freeze(failures, alloc, || no_lists(alloc))?;
    expect(
        array.len() == 11 && array.null_count() == 3,
        "lists of pairs",
    )
}

impl Mirrored for BoxedLists {
    fn is_same(&mut self, other: &mut BoxedLists) -> bool {
        let (items, others) = (self.values(), other.values());
        hold_same(self, other, &[])
            && items.len() == others.len()
            && (0..items.len()).all(|i| {
                items.is_valid(i) == others.is_valid(i)
                    && items.holds(i, &number(7)) == others.holds(i, &number(7))
            })
    }

    fn fill(
        failures: &mut Failures,
        _alloc: Global,
        first: &mut BoxedLists,
        second: &mut BoxedLists,
    ) -> Result<(), Failure> {
        change(failures, first, second, |lists| {
            lists.mut_values().try_push_plain(Some(number(7)))
        })?;
        change(
            failures,
            first,
            second,
            |lists| lists.mut_values().push_null(),
        )?;
        change(failures, first, second, |lists| lists.try_push_valid())?;
        change(failures, first, second, |lists| lists.push_null())
    }
}

pub fn boxed(failures: &mut Failures, alloc: Global) -> Result<(), Failure> {
    let array = freeze(failures, alloc, || {
        let numbers: Numbers = MutablePrimitiveArray::new(alloc);
        let child: Box<dyn MutableArray> = Box::new(alloc, numbers)?;
        MutableListArray::new(alloc, child)
    })?;
    expect(
        array.len() == 2 && array.null_count() == 1,
        "lists over a box",
    )
}

impl Mirrored for Strings {
    fn is_same(&mut self, other: &mut Strings) -> bool {
        hold_same(
            self,
            other,
            &[Plain::Text("ab"), Plain::Text("a longer text")],
        )
    }

    fn fill(
        failures: &mut Failures,
        alloc: Global,
        first: &mut Strings,
        second: &mut Strings,
    ) -> Result<(), Failure> {
        change(failures, first, second, |texts| texts.try_push(Some("ab")))?;
        change(
            failures,
            first,
            second,
            |texts| texts.try_extend([None, Some("a longer text")]),
        )?;
        change(failures, first, second, |texts| {
            let mut other = MutableUtf8Array::new(alloc)?;
            other.try_push(Some("ab"))?;
            other.try_push(None)?;
            texts.try_extend_from_self(&other)
        })
    }
}

pub fn strings(failures: &mut Failures, alloc: Global) -> Result<(), Failure> {
    let array = freeze(failures, alloc, || MutableUtf8Array::new(alloc))?;
    expect(array.len() == 5 && array.null_count() == 2, "texts")
}

/// The bytes of a number.
fn bytes_of(number: usize) -> [u8; 2] {
    [7, (number % 256) as u8]
}

impl Mirrored for Dictionaries {
    fn is_same(&mut self, other: &mut Dictionaries) -> bool {
        self.values().len() == other.values().len()
            && hold_same(self, other, &[])
            && (0..self.len()).all(|i| {
                let bytes = bytes_of(i);
                let value = Plain::Bytes(&bytes);
                self.holds(i, &value) == other.holds(i, &value)
            })
    }

    fn fill(
        failures: &mut Failures,
        _alloc: Global,
        first: &mut Dictionaries,
        second: &mut Dictionaries,
    ) -> Result<(), Failure> {
        for i in 0..40 {
            let bytes = bytes_of(i);
            change(failures, first, second, |keyed| {
                keyed.try_push_plain(Some(Plain::Bytes(&bytes)))
            })?;
        }
        Ok(())
    }
}

/// Values enough for their table to grow.
pub fn forty_values(failures: &mut Failures, alloc: Global) -> Result<(), Failure> {
    let array = freeze(failures, alloc, || {
        MutableDictionaryArray::try_from_values(alloc, MutableFixedSizeBinaryArray::new(alloc, 2))
    })?;
    let AnyArray::Dictionary(keyed) = &array else {
        return Err(Failure::Mismatch("the kind of an array"));
    };
    expect(
        keyed.len() == 40 && keyed.values().len() == 40,
        "values by keys",
    )?;
    expect((0..40).all(|i| keyed.key_value(i) == i), "keys in turn")
}
