//! Builders of lists: over fixed-size lists, joined with another's rows, and over a child in a box.
use crate::hostile::arrays::is_int64s;
use crate::hostile::runs::{
    Calls, UNFINISHED, errors_of, has_bits, has_ends, has_values, push_rejected,
};
use nest_array::AnyArray;
use nest_build::array::MutableArray;
use nest_build::fixed_size_list::MutableFixedSizeListArray;
use nest_build::list::MutableListArray;
use nest_build::push::{TryExtend, TryExtendFromSelf, TryPush};
use nest_flat::any_native::AnyNative;
use nest_flat::plain::Plain;
use nest_flat::primitive::mutable::MutablePrimitiveArray;
use nest_memory::error::Error;
use std::alloc::Global;
use std::test::Fail;

/// Lists of pairs.
type PairLists = MutableListArray<i32, MutableFixedSizeListArray<MutablePrimitiveArray<i64>>>;

fn no_pair_lists(alloc: Global) -> Result<PairLists, Error> {
    let numbers = MutablePrimitiveArray::new(alloc);
    MutableListArray::new(alloc, MutableFixedSizeListArray::new(alloc, numbers, 2)?)
}

/// A row of a pair, whose second number is null, and of a null.
fn pair_row(alloc: Global, first: i64) -> Result<Vec<Option<Vec<Option<i64>>>>, Error> {
    let pair = vec![in alloc; Some(first), None]?;
    Ok(vec![in alloc; Some(pair), None]?)
}

/// Pushes two such rows and a null between them, all of them or none.
fn extend_by_three(alloc: Global, rows: &mut PairLists) -> Result<(), Error> {
    if !rows.is_complete() {
        return Err(UNFINISHED);
    }
    let three = vec![in alloc; Some(pair_row(alloc, 1)?), None, Some(pair_row(alloc, 2)?)]?;
    rows.try_extend(three)
}

/// Whether a list of [1,null] and a null, a null list, and a list of [2,null] and a null were frozen.
fn are_pair_lists(array: &AnyArray) -> bool {
    let AnyArray::List(lists) = array else {
        return false;
    };
    let AnyArray::FixedSizeList(pairs) = lists.values() else {
        return false;
    };
    if lists.len() != 3 || pairs.len() != 4 {
        return false;
    }
    let nulls = lists.is_null(1) && pairs.is_null(1) && pairs.is_null(3);
    nulls
        && lists.null_count() == 1
        && pairs.null_count() == 2
        && lists.offsets().as_slice() == [0i32, 2, 2, 4].as_slice()
        && is_int64s(
            pairs.values(),
            &[Some(1), None, None, None, Some(2), None, None, None],
        )
}

impl Calls for PairLists {
    fn count(&self) -> usize {
        1
    }

    fn call(&mut self, alloc: Global, _k: usize) -> Result<(), Error> {
        extend_by_three(alloc, self)
    }

    fn is_after(&mut self, k: usize) -> bool {
        let pairs = self.values();
        if k == 0 {
            return self.is_complete() && has_bits(self, &[]) && has_bits(pairs, &[]);
        }
        let numbers = [Some(1i64), None, None, None, Some(2), None, None, None];
        self.is_complete()
            && has_bits(self, &[true, false, true])
            && has_ends(self.offsets(), &[2, 2, 4])
            && has_bits(pairs, &[true, false, true, false])
            && has_values(pairs.values(), &numbers)
    }

    fn is_frozen(&mut self) -> Result<bool, Error> {
        match self.as_box() {
            Ok(array) => {
                let same = are_pair_lists(&array);
                drop(array);
                Ok(same)
            }
            Err(error) => Err(error),
        }
    }
}

/// The same of three rows at once of lists of pairs, of another builder's rows, and over a child in a box.
#[test]
fn three_rows_at_once(rt: HostRuntime) -> Result<(), Fail> {
    let alloc = rt.alloc();
    let refused = errors_of(&rt, alloc, no_pair_lists(alloc));
    push_rejected(&rt, refused > 0)
}

/// Lists of integers.
type Lists = MutableListArray<i32, MutablePrimitiveArray<i64>>;

fn no_lists(alloc: Global) -> Result<Lists, Error> {
    MutableListArray::new(alloc, MutablePrimitiveArray::new(alloc))
}

/// Pushes a row, or a null.
fn push(rows: &mut Lists, row: Option<&[i64]>) -> Result<(), Error> {
    if !rows.is_complete() {
        return Err(UNFINISHED);
    }
    rows.try_push(row.map(|items| items.iter().map(|item| Some(*item))))
}

/// Adds the rows null and [4] of another builder.
fn join(alloc: Global, rows: &mut Lists) -> Result<(), Error> {
    let mut other = no_lists(alloc)?;
    let done = push_both(&mut other);
    let joined = if done.is_ok() && rows.is_complete() && other.is_complete() {
        rows.try_extend_from_self(&other)
    } else {
        done
    };
    drop(other);
    joined
}

fn push_both(rows: &mut Lists) -> Result<(), Error> {
    push(rows, None)?;
    push(rows, Some(&[4]))
}

/// Whether [1], [2,3], null and [4] were frozen.
fn are_four_lists(array: &AnyArray) -> bool {
    let AnyArray::List(lists) = array else {
        return false;
    };
    lists.len() == 4
        && lists.is_null(2)
        && lists.null_count() == 1
        && lists.offsets().as_slice() == [0i32, 1, 3, 3, 4].as_slice()
        && is_int64s(lists.values(), &[Some(1), Some(2), Some(3), Some(4)])
}

impl Calls for Lists {
    fn count(&self) -> usize {
        3
    }

    fn call(&mut self, alloc: Global, k: usize) -> Result<(), Error> {
        match k {
            0 => push(self, Some(&[1])),
            1 => push(self, Some(&[2, 3])),
            _ => join(alloc, self),
        }
    }

    fn is_after(&mut self, k: usize) -> bool {
        let (rows, items) = match k {
            0 => (0usize, 0usize),
            1 => (1, 1),
            2 => (2, 3),
            _ => (4, 4),
        };
        self.is_complete()
            && has_bits(self, &[true, true, false, true][..rows])
            && has_ends(self.offsets(), &[1, 3, 3, 4][..rows])
            && has_values(
                self.values(),
                &[Some(1i64), Some(2), Some(3), Some(4)][..items],
            )
    }

    fn is_frozen(&mut self) -> Result<bool, Error> {
        match self.as_box() {
            Ok(array) => {
                let same = are_four_lists(&array);
                drop(array);
                Ok(same)
            }
            Err(error) => Err(error),
        }
    }
}

#[test]
fn rows_of_another_builder(rt: HostRuntime) -> Result<(), Fail> {
    let alloc = rt.alloc();
    let refused = errors_of(&rt, alloc, no_lists(alloc));
    push_rejected(&rt, refused > 0)
}

/// Lists of whatever the boxed child takes.
type BoxedLists = MutableListArray<i32, Box<dyn MutableArray>>;

fn push_below(rows: &mut BoxedLists, value: Option<Plain<'_>>) -> Result<(), Error> {
    let child = rows.mut_values();
    if !child.is_complete() {
        return Err(UNFINISHED);
    }
    child.try_push_plain(value)
}

fn push_row(rows: &mut BoxedLists) -> Result<(), Error> {
    if !rows.values().is_complete() {
        return Err(UNFINISHED);
    }
    rows.try_push_valid()
}

/// Whether [7,null] was frozen.
fn is_one_list(array: &AnyArray) -> bool {
    let AnyArray::List(lists) = array else {
        return false;
    };
    lists.null_count() == 0
        && lists.offsets().as_slice() == [0i32, 2].as_slice()
        && is_int64s(lists.values(), &[Some(7), None])
}

impl Calls for BoxedLists {
    fn count(&self) -> usize {
        3
    }

    fn call(&mut self, _alloc: Global, k: usize) -> Result<(), Error> {
        match k {
            0 => push_below(self, Some(Plain::Native(AnyNative::Int64(7)))),
            1 => push_below(self, None),
            _ => push_row(self),
        }
    }

    fn is_after(&mut self, k: usize) -> bool {
        let (rows, items) = match k {
            0 => (0usize, 0usize),
            1 => (0, 1),
            2 => (0, 2),
            _ => (1, 2),
        };
        self.is_complete() == (k == 0 || k > 2)
            && has_bits(self, &[true][..rows])
            && has_ends(self.offsets(), &[2][..rows])
            && has_values(self.values(), &[Some(7i64), None][..items])
    }

    fn is_frozen(&mut self) -> Result<bool, Error> {
        match self.as_box() {
            Ok(array) => {
                let same = is_one_list(&array);
                drop(array);
                Ok(same)
            }
            Err(error) => Err(error),
        }
    }
}

#[test]
fn a_row_over_a_boxed_child(rt: HostRuntime) -> Result<(), Fail> {
    let alloc = rt.alloc();
    let numbers: MutablePrimitiveArray<i64> = MutablePrimitiveArray::new(alloc);
    let child: Box<dyn MutableArray> = match Box::new(alloc, numbers) {
        Ok(child) => child,
        Err(_) => return push_rejected(&rt, true),
    };
    assert!(rt; child.is_complete());
    let made: Result<BoxedLists, Error> = MutableListArray::new(alloc, child);
    let refused = errors_of(&rt, alloc, made);
    push_rejected(&rt, refused > 0)
}
