//! Two thousand steps, random from a rule of integers, on builders and beside them on a plain list of what they should
//! have: rows, nulls, errors and slices. At each hundredth step both have the same slots.
//!
//! Two thousand rows, nulls, errors and slices on a builder of lists, of fixed-size lists, of records and of dictionaries,
//! beside a plain list.
use crate::hostile::dictionaries::{Pairs, no_pairs};
use crate::hostile::records::no_records;
use crate::hostile::runs::{MEMORY, UNFINISHED};
use nest_any::{AnyMutableArray, AnyMutableFlat, MutableStructArray};
use nest_build::array::MutableArray;
use nest_build::fixed_size_list::MutableFixedSizeListArray;
use nest_build::list::MutableListArray;
use nest_build::push::TryPush;
use nest_flat::any_native::AnyNative;
use nest_flat::plain::Plain;
use nest_flat::primitive::mutable::MutablePrimitiveArray;
use nest_memory::error::Error;
use std::alloc::Global;
use std::process::Abort;

/// What a builder does at a step. Its row of a number is a rule of its own.
trait Stepped {
    /// Adds the row of the number.
    fn add(&mut self, number: u32) -> Result<(), Error>;

    /// Adds what it rejects.
    fn add_rejected(&mut self, number: u32) -> Result<(), Error>;

    /// Whether row i, which is not null, is that of the number.
    fn is_row(&self, i: usize, number: u32) -> bool;
}

/// The number after this one.
fn random(number: u64) -> u64 {
    (number % 4294967296 * 1103515245 + 12345) % 2147483648
}

fn add_null<B: MutableArray>(builder: &mut B) -> Result<(), Error> {
    if !builder.is_complete() {
        return Err(UNFINISHED);
    }
    builder.push_null()
}

/// Keeps the first n rows.
fn cut<B: MutableArray>(builder: &mut B, n: usize) {
    if builder.is_complete() && n <= builder.len() {
        builder.truncate(n);
    }
}

/// Whether the builder's rows are these, `None` a null.
fn has_rows<B: MutableArray + Stepped>(builder: &B, rows: &[Option<u32>]) -> bool {
    if !builder.is_complete() || builder.len() != rows.len() {
        return false;
    }
    for i in 0..builder.len() {
        let same = match rows[i] {
            Some(number) => builder.is_valid(i) && builder.is_row(i, number),
            None => !builder.is_valid(i),
        };
        if !same {
            return false;
        }
    }
    true
}

/// Adds a row to the plain list if it was added to the builder, which may fail only with `Memory`.
fn follow(rows: &mut Vec<Option<u32>>, row: Option<u32>, done: Result<(), Error>) -> bool {
    match done {
        Ok(()) => rows.push(row).is_ok(),
        Err(error) => error == MEMORY,
    }
}

/// Makes the step that a number says, on both; whether the builder did what it should.
fn step<B: MutableArray + Stepped>(
    builder: &mut B,
    rows: &mut Vec<Option<u32>>,
    number: u32,
) -> bool {
    match number / 1000 % 8 {
        0..=3 => follow(rows, Some(number % 1000), builder.add(number % 1000)),
        4 => follow(rows, None, add_null(builder)),
        5 | 6 => builder.add_rejected(number % 1000).is_err(),
        _ => {
            let n = number as usize % rows.len().saturating_add(1);
            cut(builder, n);
            rows.truncate(n);
            true
        }
    }
}

/// Makes two thousand steps.
fn make_steps<B: MutableArray + Stepped>(
    rt: &impl Abort,
    builder: &mut B,
    rows: &mut Vec<Option<u32>>,
) {
    let mut number = 1u64;
    for count in 0..2000u32 {
        number = random(number);
        assert!(rt; step(builder, rows, (number / 65536 % 32768) as u32));
        if count % 100 == 99 {
            assert!(rt; has_rows(builder, rows));
        }
    }
}

/// The rows of a plain list, with room for as many as there are steps.
fn no_rows(alloc: Global) -> Result<Vec<Option<u32>>, Error> {
    Ok(Vec::with_capacity(alloc, 2000)?)
}

/// Makes the steps on a builder, if there is memory for it and for the plain list.
fn make_all<B: MutableArray + Stepped>(
    rt: &impl Abort,
    builder: Result<B, Error>,
    rows: Result<Vec<Option<u32>>, Error>,
) {
    match (builder, rows) {
        (Ok(mut builder), Ok(mut rows)) => {
            make_steps(rt, &mut builder, &mut rows);
            drop(rows);
            drop(builder);
        }
        (Ok(builder), Err(error)) => {
            drop(builder);
            assert!(rt; error == MEMORY);
        }
        (Err(error), rows) => {
            drop(rows);
            assert!(rt; error == MEMORY);
        }
    }
}

/// Whether the items from there on are this number and those after it.
fn are_counted<B: MutableArray>(items: &B, start: usize, count: u32, number: u32) -> bool {
    for k in 0..count {
        let at = start.saturating_add(k as usize);
        let value = Plain::Native(AnyNative::Int64(number as i64 + k as i64));
        if at >= items.len() || !items.holds(at, &value) {
            return false;
        }
    }
    true
}

/// The number and those after it.
fn counted(number: u32) -> [Option<i64>; 3] {
    let first = number as i64;
    [Some(first), Some(first + 1), Some(first + 2)]
}

/// Lists of up to three integers.
type Lists = MutableListArray<i32, MutablePrimitiveArray<i64>>;

fn no_lists(alloc: Global) -> Result<Lists, Error> {
    MutableListArray::new(alloc, MutablePrimitiveArray::new(alloc))
}

impl Stepped for Lists {
    fn add(&mut self, number: u32) -> Result<(), Error> {
        if !self.is_complete() {
            return Err(UNFINISHED);
        }
        let items = counted(number);
        self.try_push(Some(items[..(number % 4) as usize].iter().copied()))
    }

    fn add_rejected(&mut self, number: u32) -> Result<(), Error> {
        if number % 2 == 0 && self.is_complete() {
            return self.try_push_plain(Some(Plain::Native(AnyNative::Int64(1))));
        }
        self.try_extend_from_lengths(&[Some(1)])
    }

    fn is_row(&self, i: usize, number: u32) -> bool {
        let offsets = self.offsets();
        if i >= offsets.len_proxy() {
            return false;
        }
        let (start, end) = offsets.start_end(i);
        end - start == (number % 4) as usize
            && are_counted(self.values(), start, number % 4, number)
    }
}

#[test]
fn a_builder_of_lists(rt: HostRuntime) {
    let alloc = rt.alloc();
    make_all(&rt, no_lists(alloc), no_rows(alloc));
}

/// Pairs of integers.
type NumberPairs = MutableFixedSizeListArray<MutablePrimitiveArray<i64>>;

fn no_number_pairs(alloc: Global) -> Result<NumberPairs, Error> {
    MutableFixedSizeListArray::new(alloc, MutablePrimitiveArray::new(alloc), 2)
}

impl Stepped for NumberPairs {
    fn add(&mut self, number: u32) -> Result<(), Error> {
        if !self.is_complete() {
            return Err(UNFINISHED);
        }
        let items = counted(number);
        self.try_push(Some(items[..2].iter().copied()))
    }

    fn add_rejected(&mut self, number: u32) -> Result<(), Error> {
        if !self.is_complete() {
            return Err(UNFINISHED);
        }
        let items = counted(number);
        self.try_push(Some(items.iter().copied()))
    }

    fn is_row(&self, i: usize, number: u32) -> bool {
        are_counted(self.values(), i.saturating_add(i), 2, number)
    }
}

#[test]
fn a_builder_of_lists_of_one_size(rt: HostRuntime) {
    let alloc = rt.alloc();
    make_all(&rt, no_number_pairs(alloc), no_rows(alloc));
}

/// The pair of a 0 and one of fifty bytes.
fn bytes_of(number: u32) -> [u8; 2] {
    [0, (number % 50) as u8]
}

impl Stepped for Pairs {
    fn add(&mut self, number: u32) -> Result<(), Error> {
        crate::hostile::dictionaries::push(self, &bytes_of(number))
    }

    fn add_rejected(&mut self, number: u32) -> Result<(), Error> {
        let [zero, last] = bytes_of(number);
        crate::hostile::dictionaries::push(self, &[zero, last, last])
    }

    fn is_row(&self, i: usize, number: u32) -> bool {
        i < self.len() && self.holds(i, &Plain::Bytes(&bytes_of(number)))
    }
}

#[test]
fn a_builder_of_dictionaries(rt: HostRuntime) {
    let alloc = rt.alloc();
    make_all(&rt, no_pairs(alloc), no_rows(alloc));
}

const NAMES: [&str; 4] = ["a", "b", "c", ""];

/// The value of a number for a child: a text, or the number itself.
fn field_of(child: &AnyMutableArray, number: u32) -> Plain<'static> {
    match child {
        AnyMutableArray::Flat(AnyMutableFlat::Utf8(_)) => {
            Plain::Text(NAMES[(number % 4) as usize])
        }
        _ => Plain::Native(AnyNative::Int64(number as i64)),
    }
}

/// Pushes the value of the number into each child.
fn push_each(records: &mut MutableStructArray, number: u32) -> Result<(), Error> {
    for child in records.mut_values() {
        if !child.is_complete() {
            return Err(UNFINISHED);
        }
        let value = field_of(child, number);
        child.try_push_plain(Some(value))?;
    }
    Ok(())
}

/// Takes back what waits in the children past the first n rows.
fn take_back(records: &mut MutableStructArray, n: usize) {
    for child in records.mut_values() {
        cut(child, n);
    }
}

/// Pushes a row of what waits in complete children.
fn push_row(records: &mut MutableStructArray) -> Result<(), Error> {
    if !records.has_complete_children() {
        return Err(UNFINISHED);
    }
    records.push(true)
}

impl Stepped for MutableStructArray {
    fn add(&mut self, number: u32) -> Result<(), Error> {
        let rows = MutableArray::len(self);
        let pushed = push_each(self, number);
        let ended = if pushed.is_ok() {
            push_row(self)
        } else {
            pushed
        };
        if ended.is_err() {
            take_back(self, rows);
        }
        ended
    }

    fn add_rejected(&mut self, _number: u32) -> Result<(), Error> {
        push_row(self)
    }

    fn is_row(&self, i: usize, number: u32) -> bool {
        for child in self.values() {
            if i >= child.len() || !child.holds(i, &field_of(child, number)) {
                return false;
            }
        }
        true
    }
}

#[test]
fn a_builder_of_records(rt: HostRuntime) {
    let alloc = rt.alloc();
    make_all(&rt, no_records(alloc), no_rows(alloc));
}
