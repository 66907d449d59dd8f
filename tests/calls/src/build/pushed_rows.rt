//! Rows by themselves: pushed by their ends, their lengths or their number, joined, cut and frozen.
//!
//! Rows by themselves are pushed, joined and frozen, also over their items, of lists by either width and of fixed size.
use nest_array::{AnyArray, FixedSizeListArray, ListArray, NullArray};
use nest_build::fixed_size_list::{FixedRows, freeze_over};
use nest_build::list::ListRows;
use nest_build::list::width::{FrozenRows, RowStore};
use nest_flat::validity;
use nest_memory::datatypes::DataType;
use nest_memory::error::Error;
use std::alloc::Global;

/// Rows of two items, a null, and rows of three items and of none.
fn four_rows(alloc: Global) -> Result<ListRows<i32>, Error> {
    let mut rows: ListRows<i32> = ListRows::new(alloc)?;
    rows.reserve(4)?;
    rows.push(true, 2)?;
    rows.extend_from_lengths(&[None, Some(3), Some(0)])?;
    Ok(rows)
}

#[test]
fn rows_are_pushed_and_frozen(rt: HostRuntime) {
    let mut rows = four_rows(rt.alloc()).expect(&rt, "four rows");
    let more = four_rows(rt.alloc()).expect(&rt, "four rows");
    rows.append(&more).expect(&rt, "rows more");
    let (offsets, bits) = rows.freeze().expect(&rt, "an array");
    let ends = [0i32, 2, 2, 5, 5, 7, 7, 10, 10];
    assert!(rt; offsets.as_slice() == ends.as_slice());
    assert!(rt; validity::null_count(&bits) == 2);
    assert!(rt; rows.len() == 0);
}

/// Two rows, pushed by what all widths have, and two more of their own.
fn doubled<R: RowStore>(alloc: Global) -> Result<R, Error> {
    let mut rows = R::new(alloc)?;
    let mut more = R::new(alloc)?;
    rows.reserve(4)?;
    rows.push(true, 2)?;
    rows.extend_from_lengths(&[None])?;
    more.push(true, 1)?;
    rows.append(&more)?;
    drop(more);
    Ok(rows)
}

#[test]
fn rows_of_any_width(rt: HostRuntime) {
    let narrow: ListRows<i32> = doubled(rt.alloc()).expect(&rt, "doubled");
    let wide: ListRows<i64> = doubled(rt.alloc()).expect(&rt, "doubled");
    assert!(rt; narrow.len() == 3);
    assert!(rt; wide.len() == 3);
    assert!(rt; narrow.last() == 3);
    assert!(rt; wide.last() == 3);
}

#[test]
fn rows_of_one_size_are_counted(rt: HostRuntime) {
    let mut rows = FixedRows::new(rt.alloc());
    rows.reserve(2).expect(&rt, "room");
    rows.push(true).expect(&rt, "a row more");
    rows.push(false).expect(&rt, "a row more");
    let mut more = FixedRows::new(rt.alloc());
    more.push(true).expect(&rt, "a row more");
    rows.append(&more).expect(&rt, "rows more");
    let (count, bits) = rows.freeze().expect(&rt, "an array");
    assert!(rt; count == 3);
    assert!(rt; validity::null_count(&bits) == 1);
    assert!(rt; rows.len() == 0);
}

/// Four rows over five nulls.
fn frozen_rows(alloc: Global) -> Result<ListArray, Error> {
    let mut rows = four_rows(alloc)?;
    let data_type = ListArray::default_datatype(alloc, DataType::Null)?;
    let items = NullArray::new(DataType::Null, rows.last());
    let lists = rows.freeze_over(alloc, data_type, AnyArray::Null(items));
    drop(rows);
    lists
}

/// A pair and a null, over four nulls.
fn frozen_pairs(alloc: Global) -> Result<FixedSizeListArray, Error> {
    let mut rows = FixedRows::new(alloc);
    rows.push(true)?;
    rows.push(false)?;
    let data_type = FixedSizeListArray::default_datatype(alloc, DataType::Null, 2)?;
    let items = AnyArray::Null(NullArray::new(DataType::Null, 4));
    let pairs = freeze_over(alloc, data_type, &mut rows, items);
    drop(rows);
    pairs
}

#[test]
fn rows_are_frozen_over_their_items(rt: HostRuntime) {
    let lists = frozen_rows(rt.alloc()).expect(&rt, "frozen rows");
    let found = (lists.len(), lists.null_count(), lists.values().len());
    assert!(rt; found == (4, 1, 5));
    let pairs = frozen_pairs(rt.alloc()).expect(&rt, "frozen pairs");
    let found = (pairs.len(), pairs.null_count(), pairs.values().len());
    assert!(rt; found == (2, 1, 4));
}
