//! The builder of fixed-size lists.

use nest_array::FixedSizeListArray;
use nest_build::array::MutableArray;
use nest_build::fixed_size_list::MutableFixedSizeListArray;
use nest_build::list::MutableListArray;
use nest_build::push::{TryExtend, TryPush};
use nest_build::tried::push_all;
use nest_flat::primitive::mutable::MutablePrimitiveArray;
use nest_memory::datatypes::DataType;
use nest_memory::error::{ArgumentError, Error, SpecError};
use std::alloc::Global;

/// Fixed-size lists of integers.
type Lists = MutableFixedSizeListArray<MutablePrimitiveArray<i64>>;

fn no_lists(alloc: Global, size: usize) -> Result<Lists, Error> {
    MutableFixedSizeListArray::new(alloc, MutablePrimitiveArray::new(alloc), size)
}

fn push(rows: &mut Lists, row: Option<&[Option<i64>]>) -> Result<(), Error> {
    if !rows.is_complete() {
        return Err(Error::InvalidArgumentError(ArgumentError::Incomplete));
    }
    rows.try_push(row.map(|items| items.iter().copied()))
}

const ITEM_SIZE: Result<(), Error> = Err(Error::InvalidArgumentError(ArgumentError::ItemSize));

const UNFINISHED: Result<(), Error> = Err(Error::InvalidArgumentError(ArgumentError::Incomplete));

/// How long the frozen array and its items are; the array is dropped.
fn frozen_lens(array: Result<FixedSizeListArray, Error>) -> Option<(usize, usize)> {
    match array {
        Ok(array) => {
            let found = (array.len(), array.values().len());
            drop(array);
            Some(found)
        }
        Err(_) => None,
    }
}

#[test]
fn rows_of_another_size_are_rejected(rt: HostRuntime) {
    let mut rows = no_lists(rt.alloc(), 2).expect(&rt, "no row");
    let four = push(&mut rows, Some(&[Some(1), Some(2), Some(3), Some(4)]));
    let none = push(&mut rows, Some(&[]));
    let before = rows.values().len();
    let two = push(&mut rows, Some(&[Some(5), Some(6)]));
    let after = (rows.len(), rows.size());
    let array = frozen_lens(rows.freeze());
    assert!(rt; four == ITEM_SIZE && none == ITEM_SIZE);
    assert!(rt; before == 0);
    assert!(rt; two == Ok(()));
    assert!(rt; after == (1, 2));
    assert!(rt; array == Some((1, 2)));
}

/// Pushes a row of the values of a slice.
fn push_slice(rows: &mut Lists, row: Option<&[Option<i64>]>) -> Result<(), Error> {
    if !rows.is_complete() {
        return Err(Error::InvalidArgumentError(ArgumentError::Incomplete));
    }
    rows.try_push_slice(row)
}

/// A pair of the values of a slice and a null are taken, one value is rejected.
#[test]
fn rows_of_slices(rt: HostRuntime) {
    let mut rows = no_lists(rt.alloc(), 2).expect(&rt, "no row");
    let two = push_slice(&mut rows, Some(&[Some(5), None]));
    let one = push_slice(&mut rows, Some(&[Some(1)]));
    let null = push_slice(&mut rows, None);
    let array = frozen_lens(rows.freeze());
    assert!(rt; two == Ok(()) && null == Ok(()));
    assert!(rt; one == ITEM_SIZE);
    assert!(rt; array == Some((2, 4)));
}

fn push_item(rows: &mut Lists, item: i64) -> Result<(), Error> {
    TryPush::try_push(rows.mut_values(), Some(item))
}

fn push_items_from(rows: &mut Lists, items: &[i64]) -> Result<(), Error> {
    for item in items {
        push_item(rows, *item)?;
    }
    Ok(())
}

/// Four waiting items, and one, make no pair and continue waiting.
#[test]
fn waiting_items_of_another_number_make_no_row(rt: HostRuntime) {
    let mut rows = no_lists(rt.alloc(), 2).expect(&rt, "no row");
    let first = push_items_from(&mut rows, &[1]);
    let one = rows.push_valid();
    let more = push_items_from(&mut rows, &[2, 3, 4]);
    let four = rows.push_valid();
    let waiting = rows.values().len();
    let frozen = frozen_lens(rows.freeze());
    let still = rows.values().len();
    assert!(rt; first == Ok(()) && more == Ok(()));
    assert!(rt; one == UNFINISHED);
    assert!(rt; four == ITEM_SIZE);
    assert!(rt; frozen == None);
    assert!(rt; (waiting, still) == (4, 4));
}

/// Pushes a row of two items, pushes a null, and says whether a validity was there before and after.
fn push_valid_and_null(rows: &mut Lists) -> Result<(bool, bool), Error> {
    push_items_from(rows, &[1, 2])?;
    rows.try_push_valid()?;
    let before = rows.validity().is_some();
    push(rows, None)?;
    rows.reserve(3)?;
    rows.shrink_to_fit()?;
    Ok((before, rows.validity().is_some()))
}

/// Keeps the first of two rows; the second is null.
fn keep_first(rows: &mut Lists) -> bool {
    if !rows.is_complete() || rows.len() != 2 || rows.is_valid(1) {
        return false;
    }
    rows.truncate(1);
    rows.values().len() == 2
}

#[test]
fn a_valid_row_and_a_null_are_pushed(rt: HostRuntime) {
    let mut rows = no_lists(rt.alloc(), 2).expect(&rt, "no row");
    let validities = push_valid_and_null(&mut rows);
    let items = rows.values().len();
    let cut = keep_first(&mut rows);
    let shared = match rows.as_arc(rt.alloc()) {
        Ok(array) => array.len(),
        Err(_) => 0,
    };
    let empty = rows.is_empty();
    assert!(rt; validities == Ok((false, true)));
    assert!(rt; items == 4);
    assert!(rt; cut);
    assert!(rt; shared == 1);
    assert!(rt; empty);
}

/// What a constructor rejected.
fn not_made(made: Result<Lists, Error>) -> Option<Error> {
    match made {
        Err(error) => Some(error),
        Ok(rows) => {
            drop(rows);
            None
        }
    }
}

#[test]
fn lists_of_a_data_type_and_size(rt: HostRuntime) {
    let alloc = rt.alloc();
    assert!(rt; not_made(no_lists(alloc, 0)) == Some(Error::OutOfSpec(SpecError::ZeroSize)));
    let pairs = FixedSizeListArray::default_datatype(alloc, DataType::Int64, 2).expect(
        &rt,
        "a data type",
    );
    let child = MutablePrimitiveArray::new(alloc);
    let wrong = MutableFixedSizeListArray::new_from(alloc, child, pairs, 3);
    assert!(rt; not_made(wrong) == Some(Error::OutOfSpec(SpecError::WrongType)));
    let pairs = FixedSizeListArray::default_datatype(alloc, DataType::Utf8, 2).expect(
        &rt,
        "a data type",
    );
    let child = MutablePrimitiveArray::new(alloc);
    let wrong = MutableFixedSizeListArray::new_from(alloc, child, pairs, 2);
    assert!(rt; not_made(wrong) == Some(Error::OutOfSpec(SpecError::ChildType)));
    let child = MutablePrimitiveArray::new(alloc);
    let named = MutableFixedSizeListArray::new_with_field(alloc, child, "x", false, 2);
    assert!(rt; not_made(named) == None);
}

/// The rows [1], [2,3] and null.
fn three_rows(alloc: Global) -> Result<Vec<Option<Vec<Option<i64>>>>, Error> {
    let one = vec![in alloc; Some(1i64)]?;
    let two = vec![in alloc; Some(2i64), Some(3)]?;
    Ok(vec![in alloc; Some(one), Some(two), None]?)
}

/// Which of these rows were accepted.
fn push_each(
    alloc: Global,
    rows: &mut Lists,
    items: Result<Vec<Option<Vec<Option<i64>>>>, Error>,
) -> Result<bool, Error> {
    match items {
        Ok(items) => {
            if !rows.is_complete() {
                drop(items);
                return Err(Error::InvalidArgumentError(ArgumentError::Incomplete));
            }
            let marks = push_all(alloc, rows, items)?;
            Ok(marks.as_slice() == [true, false, true].as_slice())
        }
        Err(error) => Err(error),
    }
}

/// Each item that is accepted is kept, the others are left.
#[test]
fn accepted_rows_are_kept_and_others_left(rt: HostRuntime) {
    let mut rows = no_lists(rt.alloc(), 1).expect(&rt, "no row");
    let marked = push_each(rt.alloc(), &mut rows, three_rows(rt.alloc()));
    let found = (rows.len(), rows.values().len());
    assert!(rt; marked == Ok(true));
    assert!(rt; found == (2, 2));
}

/// Lists of pairs.
type Rows = MutableListArray<i32, Lists>;

fn no_rows(alloc: Global) -> Result<Rows, Error> {
    let items: MutablePrimitiveArray<i64> = MutablePrimitiveArray::new(alloc);
    MutableListArray::new(alloc, MutableFixedSizeListArray::new(alloc, items, 2)?)
}

/// The pair 1, 2, and after it these numbers.
fn pair_and(
    alloc: Global,
    numbers: &[Option<i64>],
) -> Result<Vec<Option<Vec<Option<i64>>>>, Error> {
    let pair = vec![in alloc; Some(1i64), Some(2)]?;
    let more = Vec::from_slice(alloc, numbers)?;
    Ok(vec![in alloc; Some(pair), Some(more)]?)
}

/// Pushes a row of lists.
fn push_row(
    rows: &mut Rows,
    row: Result<Vec<Option<Vec<Option<i64>>>>, Error>,
) -> Result<(), Error> {
    match row {
        Ok(row) => {
            if !rows.is_complete() {
                drop(row);
                return UNFINISHED;
            }
            rows.try_push(Some(row))
        }
        Err(error) => Err(error),
    }
}

/// How long each level is.
fn levels(rows: &Rows) -> (usize, usize, usize) {
    let pairs = rows.values();
    (rows.len(), pairs.len(), pairs.values().len())
}

/// A list of pairs rejects a row with a pair of another size and takes it back; accepted ones are frozen.
#[test]
fn a_rejected_pair_removes_its_row(rt: HostRuntime) {
    let mut rows = no_rows(rt.alloc()).expect(&rt, "no rows");
    let refused = push_row(&mut rows, pair_and(rt.alloc(), &[Some(3)]));
    let before = levels(&rows);
    let taken = push_row(&mut rows, pair_and(rt.alloc(), &[Some(5), None]));
    let after = levels(&rows);
    assert!(rt; refused == ITEM_SIZE);
    assert!(rt; before == (0, 0, 0));
    assert!(rt; taken == Ok(()));
    assert!(rt; after == (1, 2, 4));
}

/// Pushes all rows, or none.
fn extend(
    rows: &mut Lists,
    items: Result<Vec<Option<Vec<Option<i64>>>>, Error>,
) -> Result<(), Error> {
    match items {
        Ok(items) => {
            if !rows.is_complete() {
                drop(items);
                return UNFINISHED;
            }
            rows.try_extend(items)
        }
        Err(error) => Err(error),
    }
}

#[test]
fn all_rows_are_taken_or_none(rt: HostRuntime) {
    let mut rows = no_lists(rt.alloc(), 2).expect(&rt, "no row");
    let refused = extend(&mut rows, pair_and(rt.alloc(), &[Some(3)]));
    let before = rows.len();
    let taken = extend(&mut rows, pair_and(rt.alloc(), &[Some(3), None]));
    let after = (rows.len(), rows.values().len());
    assert!(rt; refused == ITEM_SIZE);
    assert!(rt; before == 0);
    assert!(rt; taken == Ok(()));
    assert!(rt; after == (2, 4));
}
