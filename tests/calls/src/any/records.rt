//! Builders of records, and builders of any kind over them.

use nest_any::{AnyMutableArray, AnyMutableFlat, ListBuilder, MutableStructArray};
use nest_array::{AnyArray, ListArray, StructArray};
use nest_build::array::MutableArray;
use nest_build::list::MutableListArray;
use nest_flat::any_native::AnyNative;
use nest_flat::any_primitive::mutable::AnyMutablePrimitive;
use nest_flat::plain::Plain;
use nest_flat::primitive::mutable::MutablePrimitiveArray;
use nest_flat::utf8::mutable::MutableUtf8Array;
use nest_memory::bitmap::mutable::MutableBitmap;
use nest_memory::datatypes::DataType;
use nest_memory::datatypes::field::Field;
use nest_memory::error::{ArgumentError, Error, SpecError};
use std::alloc::{AllocError, Global};

pub(super) const UNFINISHED: Error = Error::InvalidArgumentError(ArgumentError::Incomplete);

pub(super) const OTHER_KIND: Error = Error::InvalidArgumentError(ArgumentError::ItemType);

pub(crate) fn texts(alloc: Global) -> Result<AnyMutableArray, Error> {
    Ok(AnyMutableArray::Flat(AnyMutableFlat::Utf8(MutableUtf8Array::new(alloc)?)))
}

pub(crate) fn numbers(alloc: Global) -> AnyMutableArray {
    AnyMutableArray::Flat(AnyMutableFlat::Primitive(AnyMutablePrimitive::Int64(
        MutablePrimitiveArray::new(alloc),
    )))
}

/// Lists of such items.
pub(crate) fn lists_of(alloc: Global, items: DataType) -> Result<DataType, Error> {
    let items = Field::new(alloc, "item", items, true)?;
    Ok(DataType::List(Box::new(alloc, items)?))
}

/// Records of one field.
pub(crate) fn records_of(alloc: Global, items: DataType) -> Result<DataType, Error> {
    let field = Field::new(alloc, "a", items, true)?;
    Ok(DataType::Struct(vec![in alloc; field]?))
}

/// The builder of records over children, if there is memory for them.
pub(crate) fn over<E: Drop>(
    alloc: Global,
    data_type: DataType,
    values: Result<Vec<AnyMutableArray>, E>,
    validity: Option<MutableBitmap>,
) -> Result<MutableStructArray, Error> {
    match values {
        Ok(values) => MutableStructArray::try_new(alloc, data_type, values, validity),
        Err(refused) => {
            drop(refused);
            drop(validity);
            drop(data_type);
            Err(Error::Memory(AllocError))
        }
    }
}

/// Lists over a child that is whole.
pub(crate) fn nested(
    alloc: Global,
    data_type: DataType,
    child: AnyMutableArray,
) -> Result<AnyMutableArray, Error> {
    if !child.is_complete() {
        drop(child);
        drop(data_type);
        return Err(UNFINISHED);
    }
    AnyMutableArray::try_nested(alloc, data_type, child)
}

/// A builder, if what was done with it was accepted.
pub(crate) fn kept(
    builder: AnyMutableArray,
    done: Result<(), Error>,
) -> Result<AnyMutableArray, Error> {
    match done {
        Ok(()) => Ok(builder),
        Err(error) => {
            drop(builder);
            Err(error)
        }
    }
}

/// Records of a text each.
fn string_records(alloc: Global) -> Result<MutableStructArray, Error> {
    let data_type = records_of(alloc, DataType::Utf8)?;
    match texts(alloc) {
        Ok(texts) => over(alloc, data_type, vec![in alloc; texts], None),
        Err(error) => {
            drop(data_type);
            Err(error)
        }
    }
}

/// Pushes a value into a builder that is whole.
pub(crate) fn push(builder: &mut AnyMutableArray, value: Plain<'_>) -> Result<(), Error> {
    if !builder.is_complete() {
        return Err(UNFINISHED);
    }
    builder.try_push_plain(Some(value))
}

/// Pushes a row of what waits in complete children.
pub(crate) fn push_row(builder: &mut AnyMutableArray, valid: bool) -> Result<(), Error> {
    if !builder.has_complete_children() {
        return Err(UNFINISHED);
    }
    builder.push_row(valid)
}

/// Pushes a value into the first child of a builder and pushes a row of it.
pub(crate) fn push_record(records: &mut AnyMutableArray, value: Plain<'_>) -> Result<(), Error> {
    match records.child(0) {
        Some(child) => push(child, value)?,
        None => return Err(UNFINISHED),
    }
    push_row(records, true)
}

/// A list of two records, and a null list.
pub(crate) fn push_lists(lists: &mut AnyMutableArray) -> Result<(), Error> {
    match lists.child(0) {
        Some(records) => {
            push_record(records, Plain::Text("x"))?;
            push_record(records, Plain::Text("x"))?;
        }
        None => {}
    }
    push_row(lists, true)?;
    if lists.is_complete() {
        lists.push_null()?;
    }
    Ok(())
}

fn two_records_and_a_null(alloc: Global) -> Result<AnyMutableArray, Error> {
    let data_type = lists_of(alloc, records_of(alloc, DataType::Utf8)?)?;
    let mut lists = match string_records(alloc) {
        Ok(records) => { nested(alloc, data_type, AnyMutableArray::Struct(records))? }
        Err(error) => {
            drop(data_type);
            return Err(error);
        }
    };
    let done = push_lists(&mut lists);
    kept(lists, done)
}

/// Whether the records' only child has these strings.
fn has_strings(records: &StructArray, wanted: &[&str]) -> bool {
    let [AnyArray::Utf8(texts)] = records.values() else {
        return false;
    };
    if texts.len() != wanted.len() {
        return false;
    }
    for i in 0..texts.len() {
        if texts.get(i) != Some(wanted[i]) {
            return false;
        }
    }
    true
}

/// Whether lists have these offsets, and the last of them is null.
pub(crate) fn has_offsets(lists: &ListArray, wanted: &[i32]) -> bool {
    let offsets = lists.offsets();
    offsets.as_slice() == wanted
}

/// Whether a list of two records of "x" and a null list were frozen.
fn are_two_records_and_a_null(frozen: &Result<AnyArray, Error>) -> bool {
    match frozen {
        Ok(AnyArray::List(lists)) => match lists.values() {
            AnyArray::Struct(records) => {
                has_offsets(lists, &[0, 2, 2])
                    && lists.len() == 2
                    && lists.is_null(1)
                    && has_strings(records, &["x", "x"])
            }
            _ => false,
        },
        _ => false,
    }
}

/// Lists of records of a text: two records and a null list are pushed, frozen to the offsets 0, 2, 2, and the emptied builder
/// is whole.
#[test]
fn lists_of_records_are_pushed_and_frozen(rt: HostRuntime) {
    let alloc = rt.alloc();
    let mut lists = two_records_and_a_null(alloc).expect(&rt, "two records and a null");
    let rows = lists.len();
    let frozen = lists.as_box();
    let is_new = lists.is_empty() && lists.is_complete();
    let shown = are_two_records_and_a_null(&frozen);
    assert!(rt; rows == 2);
    assert!(rt; is_new);
    assert!(rt; shown);
}

/// A builder without children has no child, pushes no row, and takes no value of another kind.
#[test]
fn a_flat_builder_has_no_child_rows(rt: HostRuntime) {
    let mut flat = numbers(rt.alloc());
    let childless = flat.child(0).is_none();
    let ended = push_row(&mut flat, true);
    let pushed = push(&mut flat, Plain::Text("x"));
    assert!(rt; childless);
    assert!(rt; ended == Err(OTHER_KIND));
    assert!(rt; pushed == Err(OTHER_KIND));
}

/// Why a builder was rejected; an accepted one is dropped.
fn error_of(made: Result<AnyMutableArray, Error>) -> Option<Error> {
    match made {
        Ok(builder) => {
            drop(builder);
            None
        }
        Err(error) => Some(error),
    }
}

/// Why no lists of strings are made over a builder of numbers.
pub(crate) fn refused(alloc: Global, filled: bool, data_type: DataType) -> Option<Error> {
    let mut items = numbers(alloc);
    let pushed = if filled {
        push(&mut items, Plain::Native(AnyNative::Int64(1)))
    } else {
        Ok(())
    };
    match kept(items, pushed) {
        Ok(items) => error_of(nested(alloc, data_type, items)),
        Err(error) => {
            drop(data_type);
            Some(error)
        }
    }
}

/// Lists over a child of another type, over one with a row, and of a type that is no list.
#[test]
fn lists_over_another_child_are_rejected(rt: HostRuntime) {
    let alloc = rt.alloc();
    let child_type = Some(Error::OutOfSpec(SpecError::ChildType));
    let not_empty = Some(Error::InvalidArgumentError(ArgumentError::ChildNotEmpty));
    let wrong_type = Some(Error::OutOfSpec(SpecError::WrongType));
    assert!(rt;
        refused(
            alloc,
            false,
            lists_of(alloc, DataType::Utf8).expect(&rt, "a data type")
        ) == child_type
    );
    assert!(rt;
        refused(
            alloc,
            true,
            lists_of(alloc, DataType::Utf8).expect(&rt, "a data type")
        ) == not_empty
    );
    assert!(rt; refused(alloc, true, DataType::Utf8) == wrong_type);
    assert!(rt;
        refused(
            alloc,
            false,
            lists_of(alloc, DataType::Int64).expect(&rt, "a data type")
        )
        .is_none()
    );
}

/// Two numbers that wait in the child.
fn push_two(lists: &mut AnyMutableArray) -> Result<(), Error> {
    match lists.child(0) {
        Some(items) => {
            push(items, Plain::Native(AnyNative::Int64(1)))?;
            push(items, Plain::Native(AnyNative::Int64(2)))
        }
        None => Ok(()),
    }
}

/// Whether a builder with waiting items was rejected.
fn is_unfinished(frozen: Result<AnyArray, Error>) -> bool {
    match frozen {
        Ok(array) => {
            drop(array);
            false
        }
        Err(error) => error == UNFINISHED,
    }
}

/// Whether a null list by the offsets 0 and 2 was frozen.
fn is_null_of_two(frozen: &Result<AnyArray, Error>) -> bool {
    match frozen {
        Ok(AnyArray::List(lists)) => {
            has_offsets(lists, &[0, 2]) && lists.len() == 1 && lists.is_null(0)
        }
        _ => false,
    }
}

/// Items that wait are under an null row, by the offsets 0, 2; a builder with waiting items is not frozen.
#[test]
fn items_under_a_null_row(rt: HostRuntime) {
    let alloc = rt.alloc();
    let data_type = lists_of(alloc, DataType::Int64).expect(&rt, "a data type");
    let mut lists = nested(alloc, data_type, numbers(alloc)).expect(&rt, "lists");
    let pushed = push_two(&mut lists);
    let waits = is_unfinished(lists.as_box());
    let ended = push_row(&mut lists, false);
    let frozen = lists.as_box();
    let shown = is_null_of_two(&frozen);
    assert!(rt; pushed == Ok(()));
    assert!(rt; waits);
    assert!(rt; ended == Ok(()));
    assert!(rt; shown);
}

/// Records of two numbers each, one of which waits.
fn half_a_row(alloc: Global) -> Result<AnyMutableArray, Error> {
    let a = Field::new(alloc, "a", DataType::Int64, true)?;
    let b = Field::new(alloc, "b", DataType::Int64, true)?;
    let data_type = DataType::Struct(vec![in alloc; a, b]?);
    let records = over(
        alloc,
        data_type,
        vec![in alloc; numbers(alloc), numbers(alloc)],
        None,
    )?;
    let mut records = AnyMutableArray::Struct(records);
    let done = match records.child(1) {
        Some(child) => push(child, Plain::Native(AnyNative::Int64(1))),
        None => Ok(()),
    };
    kept(records, done)
}

/// Of two children one was given a row: it waits, and no record is pushed or frozen.
#[test]
fn half_a_row_waits(rt: HostRuntime) {
    let mut records = half_a_row(rt.alloc()).expect(&rt, "half a row");
    let ended = push_row(&mut records, true);
    let waits = is_unfinished(records.as_box());
    let rows = records.len();
    let waiting = match records.child(1) {
        Some(child) => child.len(),
        None => 0,
    };
    assert!(rt; ended == Err(UNFINISHED));
    assert!(rt; waits);
    assert!(rt; rows == 0);
    assert!(rt; waiting == 1);
}

/// Records of a number and a text, none yet.
fn no_records(alloc: Global) -> Result<AnyMutableArray, Error> {
    let a = Field::new(alloc, "a", DataType::Int64, true)?;
    let b = Field::new(alloc, "b", DataType::Utf8, true)?;
    let data_type = DataType::Struct(vec![in alloc; a, b]?);
    let records = match texts(alloc) {
        Ok(texts) => over(
            alloc,
            data_type,
            vec![in alloc; numbers(alloc), texts],
            None,
        )?,
        Err(error) => {
            drop(data_type);
            return Err(error);
        }
    };
    Ok(AnyMutableArray::Struct(records))
}

/// Whether the records and each of their children have so many rows.
fn have_rows(any: &AnyMutableArray, count: usize) -> bool {
    let AnyMutableArray::Struct(records) = any else {
        return false;
    };
    for child in records.values() {
        if child.len() != count {
            return false;
        }
    }
    any.len() == count
}

/// Whether a null was added, at each level or at none.
fn add_null(records: &mut AnyMutableArray) -> bool {
    records.is_complete() && records.push_null().is_ok()
}

// Holds where any one allocation fails.
#[test]
fn a_rejected_null_changes_no_level(rt: HostRuntime) {
    let Ok(mut records) = no_records(rt.alloc()) else {
        return;
    };
    let mut rows = 0usize;
    for _ in 0..20 {
        if add_null(&mut records) {
            rows = rows.saturating_add(1);
        }
        assert!(rt; have_rows(&records, rows));
    }
    let frozen = records.as_box();
    let shown = match &frozen {
        Ok(array) => array.len() == rows && array.null_count() == rows,
        Err(error) => *error == Error::Memory(AllocError),
    };
    assert!(rt; shown);
    assert!(rt; have_rows(&records, 0));
}

/// A record with a validity without nulls.
fn masked(alloc: Global) -> Result<MutableStructArray, Error> {
    let data_type = records_of(alloc, DataType::Int64)?;
    let mut validity = MutableBitmap::new(alloc);
    validity.push(true)?;
    let mut child = numbers(alloc);
    push(&mut child, Plain::Native(AnyNative::Int64(1)))?;
    over(alloc, data_type, vec![in alloc; child], Some(validity))
}

/// Whether records are frozen without a validity.
fn has_no_validity(alloc: Global) -> Result<bool, Error> {
    let mut records = masked(alloc)?;
    let frozen = records.freeze();
    drop(records);
    let no_validity = match &frozen {
        Ok(records) => records.validity().is_none(),
        Err(_) => false,
    };
    drop(frozen);
    Ok(no_validity)
}

/// Whether records are boxed with a validity.
fn is_masked(alloc: Global) -> Result<bool, Error> {
    let mut records = masked(alloc)?;
    let boxed = records.as_box();
    drop(records);
    let masked = match &boxed {
        Ok(AnyArray::Struct(records)) => records.validity().is_some(),
        _ => false,
    };
    drop(boxed);
    Ok(masked)
}

/// Of a validity without nulls `freeze` leaves none, `as_box` keeps it.
#[test]
fn freeze_drops_a_validity_without_nulls(rt: HostRuntime) {
    assert!(rt; has_no_validity(rt.alloc()).expect(&rt, "is no_validity"));
    assert!(rt; is_masked(rt.alloc()).expect(&rt, "is masked"));
}

/// Lists of records.
type RecordLists = MutableListArray<i32, MutableStructArray>;

fn no_lists(alloc: Global) -> Result<RecordLists, Error> {
    let records = string_records(alloc)?;
    if !records.is_complete() || !records.is_empty() {
        drop(records);
        return Err(UNFINISHED);
    }
    MutableListArray::new(alloc, records)
}

/// A text that waits in the child of the records.
fn push_text(lists: &mut RecordLists) -> Result<(), Error> {
    for child in lists.mut_values().mut_values() {
        push(child, Plain::Text("x"))?;
    }
    Ok(())
}

/// Pushes the record, and the list of it.
fn push_to_both(lists: &mut RecordLists) -> Result<(), Error> {
    let records = lists.mut_values();
    if records.has_complete_children() {
        records.push(true)?;
    }
    if lists.values().is_complete() {
        lists.try_push_valid()?;
    }
    Ok(())
}

/// Whether a list of one record of "x" was frozen.
fn is_one_record(frozen: &Result<AnyArray, Error>) -> bool {
    match frozen {
        Ok(AnyArray::List(lists)) => match lists.values() {
            AnyArray::Struct(records) => {
                has_offsets(lists, &[0, 1]) && has_strings(records, &["x"])
            }
            _ => false,
        },
        _ => false,
    }
}

/// Whether what was not pushed keeps the lists from being frozen by each call, and continues waiting.
fn waits(alloc: Global, lists: &mut RecordLists) -> bool {
    let boxed = is_unfinished(lists.as_box());
    let shared = match lists.as_arc(alloc) {
        Ok(array) => {
            drop(array);
            false
        }
        Err(error) => error == UNFINISHED,
    };
    let frozen = match lists.freeze() {
        Ok(array) => {
            drop(array);
            false
        }
        Err(error) => error == UNFINISHED,
    };
    boxed && shared && frozen && !lists.is_complete()
}

/// A record waits in a builder of lists over records until it is pushed.
#[test]
fn an_unfinished_record_blocks_its_list(rt: HostRuntime) {
    let alloc = rt.alloc();
    let mut lists = no_lists(alloc).expect(&rt, "no row");
    let pushed = push_text(&mut lists);
    let waits = waits(alloc, &mut lists);
    let ended = push_to_both(&mut lists);
    let frozen = lists.as_box();
    let shown = is_one_record(&frozen);
    assert!(rt; pushed == Ok(()));
    assert!(rt; waits);
    assert!(rt; ended == Ok(()));
    assert!(rt; shown);
}

/// Pushes a row of what waits in a complete child.
fn push_list_row(lists: &mut ListBuilder) -> Result<(), Error> {
    if !lists.has_complete_children() {
        return Err(UNFINISHED);
    }
    lists.push_row(true)
}

/// A number that is pushed into the child that a builder of lists lends is in the next row.
#[test]
fn what_is_written_to_a_lent_child_stays(rt: HostRuntime) {
    let alloc = rt.alloc();
    let data_type = lists_of(alloc, DataType::Int64).expect(&rt, "a data type");
    let mut lists = nested(alloc, data_type, numbers(alloc)).expect(&rt, "lists");
    let pushed = match lists.as_list_mut() {
        Some(lists) => push(lists.child(), Plain::Native(AnyNative::Int64(1))),
        None => Err(UNFINISHED),
    };
    let no_records = lists.as_struct_mut().is_none();
    let ended = match lists.as_list_mut() {
        Some(lists) => push_list_row(lists),
        None => Err(UNFINISHED),
    };
    let rows = lists.len();
    assert!(rt; pushed == Ok(()));
    assert!(rt; no_records);
    assert!(rt; ended == Ok(()));
    assert!(rt; rows == 1);
}

/// Records are shared, and taken apart into their data type and children.
#[test]
fn records_are_shared_and_split(rt: HostRuntime) {
    let alloc = rt.alloc();
    let shared = string_records(alloc)
        .expect(&rt, "text records")
        .into_arc(alloc);
    let is_empty = match &shared {
        Ok(array) => array.len() == 0,
        Err(_) => false,
    };
    let (data_type, values, validity) = string_records(alloc)
        .expect(&rt, "text records")
        .into_inner();
    let count = values.len();
    assert!(rt; is_empty);
    assert!(rt; count == 1);
    assert!(rt; validity.is_none());
}
