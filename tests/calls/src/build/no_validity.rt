//! No validity after a freeze, and none where every row was taken back.
//!
//! A null brings a validity, and a freeze takes it: of lists by either width and of fixed size, of dictionaries, flat and boxed
//! builders; so does a slice to no row of nested ones.
use nest_build::array::MutableArray;
use nest_build::dictionary::MutableDictionaryArray;
use nest_build::fixed_size_binary::MutableFixedSizeBinaryArray;
use nest_build::fixed_size_list::{FixedRows, MutableFixedSizeListArray};
use nest_build::list::{ListRows, MutableListArray};
use nest_build::push::TryPush;
use nest_flat::boolean::mutable::MutableBooleanArray;
use nest_flat::primitive::mutable::MutablePrimitiveArray;
use nest_flat::utf8::mutable::MutableUtf8Array;
use nest_memory::error::Error;
use std::alloc::Global;

type Numbers = MutablePrimitiveArray<i64>;

type Dictionaries<K> = MutableDictionaryArray<K, MutableFixedSizeBinaryArray>;

fn numbers(alloc: Global) -> Numbers {
    MutablePrimitiveArray::new(alloc)
}

/// Whether a null brings a validity, and a freeze takes it.
fn has_no_validity<B: MutableArray>(builder: &mut B) -> Result<bool, Error> {
    builder.push_null()?;
    let masked = builder.validity().is_some();
    drop(builder.as_box()?);
    Ok(masked && builder.validity().is_none() && builder.is_empty())
}

/// The same of `as_arc`, by a builder that is filled again.
fn has_no_validity_again<B: MutableArray>(alloc: Global, builder: &mut B) -> Result<bool, Error> {
    builder.push_null()?;
    let masked = builder.validity().is_some();
    drop(builder.as_arc(alloc)?);
    Ok(masked && builder.validity().is_none())
}

fn has_no_validity_twice<B: MutableArray>(alloc: Global, builder: &mut B) -> Result<bool, Error> {
    Ok(has_no_validity(builder)? && has_no_validity_again(alloc, builder)?)
}

#[test]
fn lists_have_no_validity_after_a_freeze(rt: HostRuntime) -> Result<(), Error> {
    let alloc = rt.alloc();
    let mut lists: MutableListArray<i32, Numbers> = MutableListArray::new(alloc, numbers(alloc))?;
    assert!(rt; has_no_validity_twice(alloc, &mut lists)?);
    let mut large: MutableListArray<i64, Numbers> = MutableListArray::new(alloc, numbers(alloc))?;
    assert!(rt; has_no_validity_twice(alloc, &mut large)?);
    let mut sized = MutableFixedSizeListArray::new(alloc, numbers(alloc), 2)?;
    assert!(rt; has_no_validity_twice(alloc, &mut sized)?);
    let nested: MutableListArray<i32, Numbers> = MutableListArray::new(alloc, numbers(alloc))?;
    let mut boxed: Box<dyn MutableArray> = Box::new(alloc, nested)?;
    assert!(rt; has_no_validity_twice(alloc, &mut boxed)?);
    Ok(())
}

#[test]
fn a_child_has_no_validity_after_a_freeze(rt: HostRuntime) -> Result<(), Error> {
    let alloc = rt.alloc();
    let mut lists: MutableListArray<i32, Numbers> = MutableListArray::new(alloc, numbers(alloc))?;
    lists.try_push(Some(vec![in alloc; Some(1), None]?))?;
    assert!(rt; lists.values().validity().is_some());
    drop(lists.freeze()?);
    assert!(rt; lists.values().validity().is_none());
    Ok(())
}

#[test]
fn dictionaries_have_no_validity_after_a_freeze(rt: HostRuntime) -> Result<(), Error> {
    let alloc = rt.alloc();
    let mut signed: Dictionaries<i8> = MutableDictionaryArray::new(
        alloc,
        MutableFixedSizeBinaryArray::new(alloc, 2),
    )?;
    assert!(rt; has_no_validity_twice(alloc, &mut signed)?);
    assert!(rt; signed.keys().validity().is_none());
    let mut unsigned: Dictionaries<u64> = MutableDictionaryArray::new(
        alloc,
        MutableFixedSizeBinaryArray::new(alloc, 2),
    )?;
    assert!(rt; has_no_validity_twice(alloc, &mut unsigned)?);
    Ok(())
}

#[test]
fn flat_builders_have_no_validity_after_a_freeze(rt: HostRuntime) -> Result<(), Error> {
    let alloc = rt.alloc();
    assert!(rt; has_no_validity_twice(alloc, &mut numbers(alloc))?);
    assert!(rt; has_no_validity_twice(alloc, &mut MutableBooleanArray::new(alloc))?);
    let mut texts: MutableUtf8Array<i32> = MutableUtf8Array::new(alloc)?;
    assert!(rt; has_no_validity_twice(alloc, &mut texts)?);
    assert!(rt; has_no_validity_twice(alloc, &mut MutableFixedSizeBinaryArray::new(alloc, 2))?);
    Ok(())
}

#[test]
fn truncated_rows_leave_no_validity(rt: HostRuntime) -> Result<(), Error> {
    let alloc = rt.alloc();
    let mut lists: MutableListArray<i32, Numbers> = MutableListArray::new(alloc, numbers(alloc))?;
    lists.push_null()?;
    lists.truncate(0);
    assert!(rt; lists.validity().is_none());
    let mut sized = MutableFixedSizeListArray::new(alloc, numbers(alloc), 2)?;
    sized.push_null()?;
    sized.push_null()?;
    sized.truncate(1);
    assert!(rt; sized.validity().is_some());
    sized.truncate(0);
    assert!(rt; sized.validity().is_none());
    let mut keyed: Dictionaries<i8> = MutableDictionaryArray::new(
        alloc,
        MutableFixedSizeBinaryArray::new(alloc, 2),
    )?;
    keyed.push_null()?;
    keyed.truncate(0);
    assert!(rt; keyed.validity().is_none());
    assert!(rt; keyed.is_empty());
    Ok(())
}

#[test]
fn rows_by_themselves_leave_no_validity(rt: HostRuntime) -> Result<(), Error> {
    let alloc = rt.alloc();
    let mut rows: ListRows<i32> = ListRows::new(alloc)?;
    rows.push(false, 0)?;
    drop(rows.freeze()?);
    assert!(rt; rows.validity().is_none());
    let mut sized = FixedRows::new(alloc);
    sized.push(false)?;
    sized.clear();
    assert!(rt; sized.validity().is_none());
    Ok(())
}
