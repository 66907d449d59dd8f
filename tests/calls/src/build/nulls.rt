//! The builder of nulls.
//!
//! A full builder of nulls rejects one more; nulls are pushed, cut and frozen; no value is taken.

use nest_array::AnyArray;
use nest_build::array::MutableArray;
use nest_build::null::MutableNullArray;
use nest_flat::plain::Plain;
use nest_memory::datatypes::DataType;
use nest_memory::error::{ArgumentError, Error};

#[test]
fn a_full_builder_takes_no_null(rt: HostRuntime) {
    let mut nulls = MutableNullArray::new(rt.alloc(), DataType::Null, usize::MAX);
    assert!(rt; nulls.push_null() == Err(Error::Overflow));
    assert!(rt; nulls.len() == usize::MAX);
}

/// How many nulls an array has; it is dropped.
fn nulls_in(array: Result<AnyArray, Error>) -> Option<usize> {
    match array {
        Ok(AnyArray::Null(array)) => {
            let count = array.null_count();
            drop(array);
            Some(count)
        }
        Ok(array) => {
            drop(array);
            None
        }
        Err(_) => None,
    }
}

fn push_two(nulls: &mut Box<dyn MutableArray>) -> Result<bool, Error> {
    if !nulls.is_complete() {
        return Ok(false);
    }
    nulls.push_null()?;
    nulls.try_push_plain(None)?;
    let value = nulls.try_push_plain(Some(Plain::Boolean(true)));
    let refused = value == Err(Error::InvalidArgumentError(ArgumentError::ItemType));
    Ok(refused && nulls.validity().is_none() && nulls.len() == 5)
}

#[test]
fn nulls_are_pushed_and_frozen(rt: HostRuntime) {
    let three = MutableNullArray::new(rt.alloc(), DataType::Null, 3);
    let mut nulls: Box<dyn MutableArray> = Box::new(rt.alloc(), three).expect(&rt, "memory");
    assert!(rt; push_two(&mut nulls) == Ok(true));
    nulls.reserve(7).expect(&rt, "room");
    nulls.shrink_to_fit().expect(&rt, "less room");
    if nulls.is_complete() && nulls.len() == 5 {
        assert!(rt; !nulls.is_valid(4));
        assert!(rt; !nulls.holds(4, &Plain::Boolean(false)));
        nulls.truncate(4);
    }
    assert!(rt; nulls_in(nulls.as_box()) == Some(4));
    assert!(rt; nulls.is_empty());
}

#[test]
fn a_builder_of_nulls_keeps_its_type(rt: HostRuntime) {
    let mut nulls = MutableNullArray::new(rt.alloc(), DataType::Null, 2);
    let array = nulls.freeze().expect(&rt, "an array");
    assert!(rt; array.len() == 2);
    assert!(rt; *nulls.data_type() == DataType::Null);
    let shared = nulls.as_arc(rt.alloc()).expect(&rt, "an array");
    assert!(rt; nulls.len() == 0);
}
