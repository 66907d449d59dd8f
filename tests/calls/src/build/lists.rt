//! Pushed rows by their arrays.

use nest_array::{AnyArray, ListArray};
use nest_build::array::MutableArray;
use nest_build::fixed_size_binary::MutableFixedSizeBinaryArray;
use nest_build::list::MutableListArray;
use nest_build::null::MutableNullArray;
use nest_build::push::{TryExtend, TryExtendFromSelf, TryPush};
use nest_flat::any_native::AnyNative;
use nest_flat::any_primitive::AnyPrimitive;
use nest_flat::plain::Plain;
use nest_flat::primitive::mutable::MutablePrimitiveArray;
use nest_memory::bitmap::mutable::MutableBitmap;
use nest_memory::datatypes::DataType;
use nest_memory::error::{ArgumentError, Error, SpecError};
use nest_memory::offsets::Offsets;
use std::alloc::{AllocError, Global};
use std::mem;
use std::rc::Rc;

/// Lists of integers.
type Lists = MutableListArray<i32, MutablePrimitiveArray<i64>>;

fn no_lists(alloc: Global) -> Result<Lists, Error> {
    MutableListArray::new(alloc, MutablePrimitiveArray::new(alloc))
}

const SEVEN: Plain<'static> = Plain::Native(AnyNative::Int64(7));

const ONE_TO_FIVE: [Option<i64>; 5] = [Some(1), Some(2), Some(3), Some(4), Some(5)];

fn show_items(items: &AnyArray, text: &mut String) -> Result<(), Error> {
    let AnyArray::Primitive(AnyPrimitive::Int64(items)) = items else {
        return Ok(());
    };
    text.push_str("[ ")?;
    for k in 0..items.len() {
        match items.get(k) {
            None => text.push_str("null ")?,
            Some(value) => write!(text, "{value} ")?,
        }
    }
    text.push_str("] ")?;
    Ok(())
}

fn show_rows(alloc: Global, array: &ListArray, text: &mut String) -> Result<(), Error> {
    for i in 0..array.len() {
        if array.is_null(i) {
            text.push_str("null ")?;
        } else {
            let items = array.value(alloc, i)?;
            let done = show_items(&items, text);
            drop(items);
            done?;
        }
    }
    Ok(())
}

/// The slots of an array as text.
fn text_of(alloc: Global, array: Result<ListArray, Error>) -> Result<String, Error> {
    match array {
        Err(error) => Err(error),
        Ok(array) => {
            let mut text = String::new(alloc);
            let done = show_rows(alloc, &array, &mut text);
            drop(array);
            done?;
            Ok(text)
        }
    }
}

fn push_rows(rows: &mut Lists) -> Result<(), Error> {
    let encoded_rows = [Some([Some(1), None].as_slice()), None, Some([].as_slice())];
    for row in encoded_rows {
        if rows.is_complete() {
            rows.try_push(row.map(|items| items.iter().copied()))?;
        }
    }
    Ok(())
}

/// The array of the rows [1,null], null, [].
fn pushed(alloc: Global) -> Result<ListArray, Error> {
    let mut rows = no_lists(alloc)?;
    if let Err(error) = push_rows(&mut rows) {
        drop(rows);
        return Err(error);
    }
    let array = rows.freeze();
    drop(rows);
    array
}

fn offsets_are(array: &Result<ListArray, Error>, offsets: &[i32]) -> bool {
    match array {
        Err(_) => false,
        Ok(array) => array.offsets().as_slice() == offsets,
    }
}

/// Pushed [1,null], null, [] is frozen to these slots, by the offsets 0, 2, 2, 2.
#[test]
fn pushed_rows_are_the_slots(rt: HostRuntime) {
    let text = text_of(rt.alloc(), pushed(rt.alloc())).expect(&rt, "its text");
    assert!(rt; text.as_str() == "[ 1 null ] null [ ] ");
    let array = pushed(rt.alloc());
    assert!(rt; offsets_are(&array, [0i32, 2, 2, 2].as_slice()));
}

/// What a call rejected.
fn refusal(array: Result<ListArray, Error>) -> Option<Error> {
    match array {
        Err(error) => Some(error),
        Ok(array) => {
            drop(array);
            None
        }
    }
}

/// Pushes a row of the values of a slice.
fn push_slice(rows: &mut Lists, row: Option<&[Option<i64>]>) -> Result<(), Error> {
    if !rows.is_complete() {
        return Err(Error::InvalidArgumentError(ArgumentError::Incomplete));
    }
    rows.try_push_slice(row)
}

/// A value and a null, a null row, no value, and one value.
#[test]
fn rows_of_slices(rt: HostRuntime) {
    let mut rows = no_lists(rt.alloc()).expect(&rt, "no row");
    let two = push_slice(&mut rows, Some(&[Some(1), None]));
    let null = push_slice(&mut rows, None);
    let none = push_slice(&mut rows, Some(&[]));
    let one = push_slice(&mut rows, Some(&[Some(3)]));
    let array = rows.freeze();
    assert!(rt; two == Ok(()) && null == Ok(()) && none == Ok(()) && one == Ok(()));
    assert!(rt; offsets_are(&array, [0i32, 2, 2, 2, 3].as_slice()));
    let text = text_of(rt.alloc(), array).expect(&rt, "its text");
    assert!(rt; text.as_str() == "[ 1 null ] null [ ] [ 3 ] ");
}

/// Lists of byte strings of length 2.
type PairLists = MutableListArray<i32, MutableFixedSizeBinaryArray>;

/// Pushes a row of the byte strings of a slice.
fn push_pairs(rows: &mut PairLists, row: &[Option<&[u8]>]) -> Result<(), Error> {
    if !rows.is_complete() {
        return Err(Error::InvalidArgumentError(ArgumentError::Incomplete));
    }
    rows.try_push_slice(Some(row))
}

/// A value of another length rejects its row and removes the values before it.
#[test]
fn a_slice_with_a_rejected_value_adds_no_row(rt: HostRuntime) {
    let pairs = MutableFixedSizeBinaryArray::new(rt.alloc(), 2);
    let mut rows: PairLists = MutableListArray::new(rt.alloc(), pairs).expect(&rt, "no row");
    let mixed = [Some(b"ab".as_slice()), Some(b"c".as_slice())];
    let refused = push_pairs(&mut rows, mixed.as_slice());
    let before = (rows.len(), rows.values().len());
    let taken = push_pairs(&mut rows, [Some(b"ab".as_slice()), None].as_slice());
    let after = (rows.len(), rows.values().len());
    assert!(rt; refused == Err(Error::InvalidArgumentError(ArgumentError::ItemSize)));
    assert!(rt; before == (0, 0));
    assert!(rt; taken == Ok(()));
    assert!(rt; after == (1, 2));
}

/// The items of a builder wait until their row is pushed.
fn wait_and_push(rows: &mut Lists) -> Result<bool, Error> {
    TryPush::try_push(rows.mut_values(), Some(7i64))?;
    let waits = !rows.is_complete();
    let unfinished = Some(Error::InvalidArgumentError(ArgumentError::Incomplete));
    let refused = refusal(rows.freeze()) == unfinished;
    push_row(rows)?;
    Ok(waits && refused && rows.is_complete() && rows.len() == 1)
}

/// Items wait until their row is pushed, and a builder with waiting items is not frozen.
#[test]
fn items_wait_for_their_row(rt: HostRuntime) {
    let mut rows = no_lists(rt.alloc()).expect(&rt, "no row");
    assert!(rt; wait_and_push(&mut rows) == Ok(true));
    let array = rows.freeze();
    assert!(rt; rows.is_complete());
    assert!(rt; text_of(rt.alloc(), array).expect(&rt, "its text").as_str() == "[ 7 ] ");
}

// Holds where any one allocation fails: a rejected row changes nothing, and a freeze empties the builder.
#[test]
fn rejected_rows_change_nothing(rt: HostRuntime) {
    let Ok(mut rows) = no_lists(rt.alloc()) else {
        return;
    };
    let mut accepted = 0usize;
    for turn in 0..12u32 {
        assert!(rt; rows.is_complete());
        let row = if turn % 3 == 2 {
            None
        } else {
            Some(ONE_TO_FIVE.as_slice())
        };
        match rows.try_push(row.map(|items| items.iter().copied())) {
            Ok(()) => accepted = accepted.saturating_add(1),
            Err(error) => assert!(rt; error == Error::Memory(AllocError)),
        }
        assert!(rt; rows.len() == accepted);
    }
    if let Some(error) = refusal(rows.freeze()) {
        assert!(rt; error == Error::Memory(AllocError));
    }
    assert!(rt; rows.len() == 0);
    assert!(rt; rows.is_complete());
}

/// Pushes a row of the items that wait.
fn push_row(rows: &mut Lists) -> Result<(), Error> {
    rows.try_push_valid()
}

/// The numbers from 1 to 3 wait.
fn three_waiting(alloc: Global) -> Result<Lists, Error> {
    let mut rows = no_lists(alloc)?;
    let items = [Some(1i64), Some(2), Some(3)];
    match TryExtend::try_extend(rows.mut_values(), items.iter().copied()) {
        Ok(()) => Ok(rows),
        Err(error) => {
            drop(rows);
            Err(error)
        }
    }
}

fn push_lengths(rows: &mut Lists, lengths: &[Option<usize>]) -> Result<(), Error> {
    rows.try_extend_from_lengths(lengths)
}

#[test]
fn rows_by_their_lengths(rt: HostRuntime) {
    let mut rows = three_waiting(rt.alloc()).expect(&rt, "three waiting");
    let too_few = push_lengths(&mut rows, [Some(2)].as_slice());
    assert!(rt; too_few == Err(Error::InvalidArgumentError(ArgumentError::LengthsSum)));
    assert!(rt; rows.len() == 0);
    assert!(rt; rows.validity().is_none());
    assert!(rt; push_lengths(&mut rows, [Some(2), None, Some(1)].as_slice()) == Ok(()));
    assert!(rt; rows.validity().is_some());
    let array = rows.freeze();
    assert!(rt;
        text_of(rt.alloc(), array).expect(&rt, "its text").as_str() == "[ 1 2 ] null [ 3 ] "
    );
}

/// What a constructor rejected.
fn not_made(made: Result<Lists, Error>) -> Option<Error> {
    match made {
        Err(error) => Some(error),
        Ok(rows) => {
            drop(rows);
            None
        }
    }
}

#[test]
fn a_child_with_rows_makes_no_lists(rt: HostRuntime) {
    let alloc = rt.alloc();
    let mut child = MutablePrimitiveArray::<i64>::new(alloc);
    TryPush::try_push(&mut child, Some(1i64)).expect(&rt, "a row more");
    let not_empty = Some(Error::InvalidArgumentError(ArgumentError::ChildNotEmpty));
    assert!(rt; not_made(MutableListArray::new(alloc, child)) == not_empty);
}

#[test]
fn lists_of_a_data_type(rt: HostRuntime) {
    let alloc = rt.alloc();
    let child = MutablePrimitiveArray::new(alloc);
    let wrong = MutableListArray::new_from(alloc, child, DataType::Int64, 2);
    assert!(rt; not_made(wrong) == Some(Error::OutOfSpec(SpecError::WrongType)));
    let texts = ListArray::default_datatype(alloc, DataType::Utf8).expect(&rt, "a data type");
    let child = MutablePrimitiveArray::new(alloc);
    let wrong = MutableListArray::new_from(alloc, child, texts, 2);
    assert!(rt; not_made(wrong) == Some(Error::OutOfSpec(SpecError::ChildType)));
    let numbers = ListArray::default_datatype(alloc, DataType::Int64).expect(&rt, "a data type");
    let child = MutablePrimitiveArray::new(alloc);
    assert!(rt; not_made(MutableListArray::new_from(alloc, child, numbers, 2)) == None);
    let child = MutablePrimitiveArray::new(alloc);
    assert!(rt; not_made(MutableListArray::new_with_field(alloc, child, "x", false)) == None);
    let child = MutablePrimitiveArray::new(alloc);
    assert!(rt; not_made(MutableListArray::with_capacity(alloc, child, 3)) == None);
    let child = MutablePrimitiveArray::new(alloc);
    assert!(rt; not_made(MutableListArray::new_with_capacity(alloc, child, 3)) == None);
}

fn push_each(rows: &mut Lists, items: &[Option<&[Option<i64>]>]) -> Result<(), Error> {
    for item in items {
        if rows.is_complete() {
            rows.try_push(item.map(|items| items.iter().copied()))?;
        }
    }
    Ok(())
}

/// Lists of whatever the boxed child takes.
type BoxedLists = MutableListArray<i64, Box<dyn MutableArray>>;

fn push_below(rows: &mut BoxedLists, value: Option<Plain<'_>>) -> Result<(), Error> {
    let child = rows.mut_values();
    if !child.is_complete() {
        return Err(Error::InvalidArgumentError(ArgumentError::Incomplete));
    }
    child.try_push_plain(value)
}

fn push_boxed(rows: &mut BoxedLists) -> Result<(), Error> {
    if !rows.values().is_complete() {
        return Err(Error::InvalidArgumentError(ArgumentError::Incomplete));
    }
    rows.try_push_valid()
}

/// Whether 7 and a null are taken, a text isn't, and a row of both is pushed.
fn take_both(rows: &mut BoxedLists) -> bool {
    let other_kind = Err(Error::InvalidArgumentError(ArgumentError::ItemType));
    let taken = push_below(rows, Some(SEVEN)).is_ok();
    let text = push_below(rows, Some(Plain::Text("x"))) == other_kind;
    let null = push_below(rows, None).is_ok();
    let waits = !rows.is_complete();
    taken && text && null && waits && push_boxed(rows).is_ok() && rows.is_complete()
}

/// Whether the list takes no value, and its one row is valid and no value.
fn accepts_no_value(rows: &mut BoxedLists) -> bool {
    let other_kind = Err(Error::InvalidArgumentError(ArgumentError::ItemType));
    if !rows.is_complete() || rows.try_push_plain(Some(SEVEN)) != other_kind {
        return false;
    }
    rows.len() == 1 && rows.is_valid(0) && !rows.holds(0, &SEVEN)
}

/// How long an array is; it is dropped.
fn len_of(array: Result<AnyArray, Error>) -> Option<usize> {
    match array {
        Ok(array) => {
            let found = array.len();
            drop(array);
            Some(found)
        }
        Err(_) => None,
    }
}

/// A list over a boxed builder of numbers takes 7 and a null, and no text; no plain value is a list; a list over such a list is
/// filled again.
#[test]
fn a_boxed_child_takes_the_items(rt: HostRuntime) {
    let numbers: MutablePrimitiveArray<i64> = MutablePrimitiveArray::new(rt.alloc());
    let child: Box<dyn MutableArray> = Box::new(rt.alloc(), numbers).expect(&rt, "memory");
    assert!(rt; child.is_complete());
    let mut rows: BoxedLists = MutableListArray::new(rt.alloc(), child).expect(&rt, "memory");
    let both = take_both(&mut rows);
    let lists = accepts_no_value(&mut rows);
    let found = len_of(rows.into_box());
    assert!(rt; both);
    assert!(rt; lists);
    assert!(rt; found == Some(1));
}

/// Whether a null is taken below, and a row of it is pushed.
fn take_null(rows: &mut BoxedLists) -> bool {
    push_below(rows, None).is_ok() && push_boxed(rows).is_ok() && rows.is_complete()
}

/// A boxed builder of lists of numbers is the child of a builder of lists.
#[test]
fn a_boxed_builder_of_lists_takes_rows(rt: HostRuntime) {
    let numbers: MutablePrimitiveArray<i64> = MutablePrimitiveArray::new(rt.alloc());
    let lists: MutableListArray<i32, MutablePrimitiveArray<i64>> = MutableListArray::new(
        rt.alloc(),
        numbers,
    ).expect(&rt, "memory");
    let child: Box<dyn MutableArray> = Box::new(rt.alloc(), lists).expect(&rt, "memory");
    assert!(rt; child.is_complete());
    let mut rows: BoxedLists = MutableListArray::new(rt.alloc(), child).expect(&rt, "memory");
    let taken = take_null(&mut rows) && take_null(&mut rows);
    let found = len_of(rows.into_box());
    assert!(rt; taken);
    assert!(rt; found == Some(2));
}

/// Lists of lists of whatever the boxed child takes.
type Nested = MutableListArray<i32, BoxedLists>;

fn push_outer(rows: &mut Nested) -> Result<(), Error> {
    let child = rows.mut_values();
    if !child.is_complete() {
        return Err(Error::InvalidArgumentError(ArgumentError::Incomplete));
    }
    child.push_null()?;
    if !rows.values().is_complete() {
        return Err(Error::InvalidArgumentError(ArgumentError::Incomplete));
    }
    rows.try_push_valid()
}

/// How long a shared array is.
fn shared_len(array: Result<Rc<AnyArray>, Error>) -> Option<usize> {
    match array {
        Ok(array) => Some(array.len()),
        Err(_) => None,
    }
}

#[test]
fn a_list_over_a_list_of_a_boxed_builder_is_filled_again(rt: HostRuntime) {
    let numbers: MutablePrimitiveArray<i64> = MutablePrimitiveArray::new(rt.alloc());
    let child: Box<dyn MutableArray> = Box::new(rt.alloc(), numbers).expect(&rt, "memory");
    assert!(rt; child.is_complete());
    let inner: BoxedLists = MutableListArray::new(rt.alloc(), child).expect(&rt, "memory");
    assert!(rt; inner.is_complete());
    let mut rows: Nested = MutableListArray::new(rt.alloc(), inner).expect(&rt, "memory");
    let ended = push_outer(&mut rows).is_ok() && push_outer(&mut rows).is_ok();
    let first = shared_len(rows.as_arc(rt.alloc()));
    let empty = rows.is_empty();
    let again = push_outer(&mut rows);
    let second = shared_len(rows.into_arc(rt.alloc()));
    assert!(rt; ended && again == Ok(()));
    assert!(rt; first == Some(2) && empty);
    assert!(rt; second == Some(1));
}

/// Pushes a row over another child, then over the one before.
fn push_over_both(rows: &mut BoxedLists, other: &mut Box<dyn MutableArray>) -> (bool, bool) {
    mem::swap(rows.mut_values(), other);
    let unfinished = Err(Error::InvalidArgumentError(ArgumentError::Incomplete));
    let refused = !rows.is_complete() && push_boxed(rows) == unfinished;
    mem::swap(rows.mut_values(), other);
    (refused, rows.is_complete() && push_boxed(rows).is_ok())
}

#[test]
fn a_child_of_another_type_makes_no_row(rt: HostRuntime) {
    let numbers: MutablePrimitiveArray<i64> = MutablePrimitiveArray::new(rt.alloc());
    let child: Box<dyn MutableArray> = Box::new(rt.alloc(), numbers).expect(&rt, "memory");
    assert!(rt; child.is_complete());
    let mut rows: BoxedLists = MutableListArray::new(rt.alloc(), child).expect(&rt, "memory");
    let nulls = MutableNullArray::new(rt.alloc(), DataType::Null, 0);
    let mut other: Box<dyn MutableArray> = Box::new(rt.alloc(), nulls).expect(&rt, "memory");
    let seen = push_over_both(&mut rows, &mut other);
    assert!(rt; seen == (true, true));
}

/// Slices, room, and a null.
fn keep_first(rows: &mut Lists) -> Result<(), Error> {
    rows.reserve(4)?;
    if rows.is_complete() {
        rows.push_null()?;
    }
    if rows.is_complete() && rows.len() == 3 {
        rows.truncate(1);
    }
    rows.shrink_to_fit()
}

#[test]
fn rows_are_truncated_with_their_items(rt: HostRuntime) {
    let mut rows = no_lists(rt.alloc()).expect(&rt, "no row");
    let two = [
        Some([Some(1)].as_slice()),
        Some([Some(2), Some(3)].as_slice()),
    ];
    push_each(&mut rows, two.as_slice()).expect(&rt, "each row");
    keep_first(&mut rows).expect(&rt, "keep first");
    assert!(rt; rows.is_complete());
    assert!(rt; rows.values().len() == 1);
    let array = rows.freeze();
    assert!(rt; text_of(rt.alloc(), array).expect(&rt, "its text").as_str() == "[ 1 ] ");
}

/// Lists by these offsets over the numbers from 1 to 3.
fn by_offsets(alloc: Global, ends: &[usize], bits: usize) -> Result<Lists, Error> {
    let mut offsets = Offsets::new(alloc)?;
    offsets.try_extend_from_lengths(ends)?;
    let mut validity = MutableBitmap::new(alloc);
    validity.extend_constant(bits, true)?;
    let mut items = MutablePrimitiveArray::new(alloc);
    items.try_extend([Some(1i64), Some(2), Some(3)].as_slice().iter().copied())?;
    MutableListArray::new_from_mutable(alloc, items, offsets, Some(validity))
}

/// Lists by offsets that end before their items, by a validity of another length, over a child with a row.
#[test]
fn lists_by_offsets(rt: HostRuntime) {
    let alloc = rt.alloc();
    let short = by_offsets(alloc, [2].as_slice(), 1);
    assert!(rt; not_made(short) == Some(Error::InvalidArgumentError(ArgumentError::LengthsSum)));
    let long = by_offsets(alloc, [2, 1].as_slice(), 3);
    assert!(rt; not_made(long) == Some(Error::OutOfSpec(SpecError::ValidityLength)));
    let mut rows = by_offsets(alloc, [2, 1].as_slice(), 2).expect(&rt, "by offsets");
    assert!(rt; rows.is_complete());
    assert!(rt; rows.offsets().len_proxy() == 2);
    let array = rows.freeze();
    assert!(rt; text_of(alloc, array).expect(&rt, "its text").as_str() == "[ 1 2 ] [ 3 ] ");
}
/// Adds another builder's rows where both are whole.
fn join(rows: &mut Lists, other: &Lists) -> Result<(), Error> {
    if !rows.is_complete() || !other.is_complete() {
        return Err(Error::InvalidArgumentError(ArgumentError::Incomplete));
    }
    rows.try_extend_from_self(other)
}

/// The rows [1], [2,3], and those of another builder, null and [4].
fn joined(alloc: Global) -> Result<ListArray, Error> {
    let mut rows = no_lists(alloc)?;
    let mut other = match no_lists(alloc) {
        Ok(other) => other,
        Err(error) => {
            drop(rows);
            return Err(error);
        }
    };
    let first = [
        Some([Some(1)].as_slice()),
        Some([Some(2), Some(3)].as_slice()),
    ];
    let second = [None, Some([Some(4)].as_slice())];
    let done = push_each(&mut rows, first.as_slice());
    let more = push_each(&mut other, second.as_slice());
    let both = join(&mut rows, &other);
    drop(other);
    let array = rows.freeze();
    drop(rows);
    if done.is_err() || more.is_err() || both.is_err() {
        drop(array);
        return Err(Error::Overflow);
    }
    array
}

/// Another builder's rows are joined at each level; of another type none is.
#[test]
fn rows_of_another_builder_are_joined(rt: HostRuntime) {
    let text = text_of(rt.alloc(), joined(rt.alloc())).expect(&rt, "its text");
    assert!(rt; text.as_str() == "[ 1 ] [ 2 3 ] null [ 4 ] ");
}

#[test]
fn rows_of_another_type_are_not_joined(rt: HostRuntime) {
    let alloc = rt.alloc();
    let mut rows = no_lists(alloc).expect(&rt, "no row");
    let child = MutablePrimitiveArray::new(alloc);
    let other: Lists = MutableListArray::new_with_field(alloc, child, "x", true).expect(
        &rt,
        "new with field",
    );
    assert!(rt;
        join(&mut rows, &other) == Err(Error::InvalidArgumentError(ArgumentError::ItemType))
    );
    assert!(rt; rows.len() == 0);
}
