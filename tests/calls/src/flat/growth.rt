//! Builders of flat arrays by their examples rows.

use nest_flat::boolean::BooleanArray;
use nest_flat::boolean::mutable::MutableBooleanArray;
use nest_flat::primitive::PrimitiveArray;
use nest_flat::primitive::mutable::MutablePrimitiveArray;
use nest_memory::datatypes::DataType;
use nest_memory::error::{ArgumentError, Error};
use std::alloc::{AllocError, Global};

const NUMBERS: [Option<i64>; 3] = [Some(1), None, Some(3)];

const BOOLEANS: [Option<bool>; 3] = [Some(true), None, Some(false)];

fn show_numbers(array: &PrimitiveArray<i64>, text: &mut String) -> Result<(), Error> {
    for i in 0..array.len() {
        match array.get(i) {
            None => text.push_str("null ")?,
            Some(value) => write!(text, "{value} ")?,
        }
    }
    Ok(())
}

fn show_booleans(array: &BooleanArray, text: &mut String) -> Result<(), Error> {
    for i in 0..array.len() {
        match array.get(i) {
            None => text.push_str("null ")?,
            Some(value) => write!(text, "{value} ")?,
        }
    }
    Ok(())
}

/// The slots that the builder freezes, as text.
fn frozen_numbers(
    alloc: Global,
    builder: &mut MutablePrimitiveArray<i64>,
) -> Result<String, Error> {
    let array = builder.freeze()?;
    let mut text = String::new(alloc);
    let done = show_numbers(&array, &mut text);
    drop(array);
    done?;
    Ok(text)
}

/// The same of booleans.
fn frozen_booleans(alloc: Global, builder: &mut MutableBooleanArray) -> Result<String, Error> {
    let array = builder.freeze()?;
    let mut text = String::new(alloc);
    let done = show_booleans(&array, &mut text);
    drop(array);
    done?;
    Ok(text)
}

fn is_string(text: Result<String, Error>, expected: &str) -> bool {
    match text {
        Err(_) => false,
        Ok(text) => text.as_str() == expected,
    }
}

fn push_numbers(builder: &mut MutablePrimitiveArray<i64>) -> Result<(), Error> {
    for item in NUMBERS {
        builder.try_push(item)?;
    }
    Ok(())
}

/// What was pushed is frozen and round-trip.
#[test]
fn pushed_numbers_are_frozen(rt: HostRuntime) {
    let mut builder = MutablePrimitiveArray::new(rt.alloc());
    assert!(rt; push_numbers(&mut builder) == Ok(()));
    assert!(rt; builder.values().as_slice() == [1i64, 0, 3].as_slice());
    assert!(rt; builder.validity().is_some());
    assert!(rt; is_string(frozen_numbers(rt.alloc(), &mut builder), "1 null 3 "));
    assert!(rt; builder.is_empty());
    assert!(rt; builder.validity().is_none());
    assert!(rt; matches!(builder.data_type(), DataType::Int64));
}

#[test]
fn numbers_are_extended_and_truncated(rt: HostRuntime) {
    let mut builder = MutablePrimitiveArray::new(rt.alloc());
    let mut more = MutablePrimitiveArray::new(rt.alloc());
    assert!(rt; builder.try_extend([Some(5i64)]) == Ok(()));
    assert!(rt; more.try_extend(NUMBERS) == Ok(()));
    assert!(rt; builder.try_extend_from_self(&more) == Ok(()));
    assert!(rt; builder.reserve(4) == Ok(()));
    builder.shrink_to_fit();
    if builder.len() == 4 {
        builder.truncate(3);
    }
    assert!(rt; is_string(frozen_numbers(rt.alloc(), &mut builder), "5 1 null "));
}

#[test]
fn booleans_are_extended_and_truncated(rt: HostRuntime) {
    let mut builder = MutableBooleanArray::new(rt.alloc());
    let mut more = MutableBooleanArray::new(rt.alloc());
    assert!(rt; builder.try_push(Some(true)) == Ok(()));
    assert!(rt; builder.validity().is_none());
    assert!(rt; more.try_extend(BOOLEANS) == Ok(()));
    assert!(rt; builder.try_extend_from_self(&more) == Ok(()));
    assert!(rt; builder.values().unset_bits() == 2);
    if builder.len() == 4 {
        assert!(rt; !builder.is_valid(2));
        builder.truncate(3);
    }
    assert!(rt; is_string(frozen_booleans(rt.alloc(), &mut builder), "true true null "));
    assert!(rt; builder.is_empty());
}

#[test]
fn dates_take_no_plain_numbers(rt: HostRuntime) {
    let plain: MutablePrimitiveArray<i32> = MutablePrimitiveArray::new(rt.alloc());
    let mut dates = MutablePrimitiveArray::<i32>::new(rt.alloc()).to(DataType::Date32);
    assert!(rt; matches!(dates.data_type(), DataType::Date32));
    assert!(rt; dates.try_push(Some(19000)) == Ok(()));
    let refused = dates.try_extend_from_self(&plain);
    assert!(rt; refused == Err(Error::InvalidArgumentError(ArgumentError::ItemType)));
    assert!(rt; dates.len() == 1);
}

// Holds where any one allocation fails: a rejected call changes nothing, and a freeze empties the builder.
#[test]
fn rejected_items_change_nothing(rt: HostRuntime) {
    let mut builder = MutablePrimitiveArray::new(rt.alloc());
    let mut accepted = 0usize;
    for _turn in 0..6u32 {
        match builder.try_extend(NUMBERS) {
            Ok(()) => accepted = accepted.saturating_add(3),
            Err(error) => assert!(rt; error == Error::Memory(AllocError)),
        }
        assert!(rt; builder.len() == accepted);
        assert!(rt; builder.validity().is_some() == (accepted > 0));
    }
    match builder.try_push(None) {
        Ok(()) => accepted = accepted.saturating_add(1),
        Err(error) => assert!(rt; error == Error::Memory(AllocError)),
    }
    assert!(rt; builder.len() == accepted);
    if let Err(error) = frozen_numbers(rt.alloc(), &mut builder) {
        assert!(rt; error == Error::Memory(AllocError));
    }
    assert!(rt; builder.is_empty());
}
