//! Builders over builders over builders: the largest offset, and cuts at both ends.
//!
//! A row ends at 2^31 - 1 items and none past it; rows are cut to all and to none.
use nest_build::array::MutableArray;
use nest_build::fixed_size_list::MutableFixedSizeListArray;
use nest_build::list::MutableListArray;
use nest_build::null::MutableNullArray;
use nest_build::push::TryExtend;
use nest_flat::primitive::mutable::MutablePrimitiveArray;
use nest_memory::datatypes::DataType;
use nest_memory::error::{ArgumentError, Error};
use std::alloc::Global;
use std::mem;

const UNFINISHED: Error = Error::InvalidArgumentError(ArgumentError::Incomplete);

/// Lists of nulls.
type NullLists = MutableListArray<i32, MutableNullArray>;

/// Pushes a row of the nulls that wait.
fn push_row(rows: &mut NullLists) -> Result<(), Error> {
    rows.try_push_valid()
}

/// As many nulls wait as an offset of 32 bits can be.
fn full_of_nulls(alloc: Global) -> Result<NullLists, Error> {
    let mut rows = MutableListArray::new(alloc, MutableNullArray::new(alloc, DataType::Null, 0))?;
    let mut full = MutableNullArray::new(alloc, DataType::Null, 2147483647);
    mem::swap(rows.mut_values(), &mut full);
    drop(full);
    Ok(rows)
}

#[test]
fn a_row_ends_at_the_largest_offset_and_none_past_it(rt: HostRuntime) {
    let mut rows = full_of_nulls(rt.alloc()).expect(&rt, "full of nulls");
    assert!(rt; push_row(&mut rows) == Ok(()));
    rows.mut_values().push_null().expect(&rt, "a null more");
    assert!(rt; push_row(&mut rows) == Err(Error::Overflow));
    assert!(rt; rows.len() == 1);
    assert!(rt; rows.values().len() == 2147483648);
}

/// Lists of pairs.
type Rows = MutableListArray<i32, MutableFixedSizeListArray<MutablePrimitiveArray<i64>>>;

fn no_rows(alloc: Global) -> Result<Rows, Error> {
    let numbers = MutablePrimitiveArray::new(alloc);
    MutableListArray::new(alloc, MutableFixedSizeListArray::new(alloc, numbers, 2)?)
}

/// How long each level is.
fn levels(rows: &Rows) -> (usize, usize, usize) {
    let pairs = rows.values();
    (rows.len(), pairs.len(), pairs.values().len())
}

/// A pair of numbers as an item.
fn pair(alloc: Global, a: i64) -> Result<Vec<Option<i64>>, Error> {
    Ok(vec![in alloc; Some(a), None]?)
}

/// A row of a pair and of a null.
fn row(alloc: Global, a: i64) -> Result<Vec<Option<Vec<Option<i64>>>>, Error> {
    Ok(vec![in alloc; Some(pair(alloc, a)?), None]?)
}

/// Pushes three rows, one of them null, all of them or none.
fn push_three(alloc: Global, rows: &mut Rows) -> Result<(), Error> {
    if !rows.is_complete() {
        return Err(UNFINISHED);
    }
    let three = vec![in alloc; Some(row(alloc, 1)?), None, Some(row(alloc, 2)?)]?;
    rows.try_extend(three)
}

/// Slices where it may be cut there.
fn cut(rows: &mut Rows, n: usize) {
    if rows.is_complete() && n <= rows.len() {
        rows.truncate(n);
    }
}

#[test]
fn rows_are_truncated_to_all_and_to_none(rt: HostRuntime) {
    let mut rows = no_rows(rt.alloc()).expect(&rt, "no rows");
    push_three(rt.alloc(), &mut rows).expect(&rt, "three rows");
    cut(&mut rows, 3);
    assert!(rt; levels(&rows) == (3, 4, 8));
    cut(&mut rows, 2);
    assert!(rt; levels(&rows) == (2, 2, 4));
    cut(&mut rows, 0);
    assert!(rt; levels(&rows) == (0, 0, 0));
    assert!(rt; rows.is_complete());
}
