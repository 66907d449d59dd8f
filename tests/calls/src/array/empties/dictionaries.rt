//! Dictionaries of nulls: their keys are null, over one null value.
use crate::array::empties::types::{
    dictionary, extension, list, none, nulls, records, refusal, two,
};
use nest_array::{AnyArray, DictionaryArray};
use nest_memory::datatypes::{DataType, IntegerType};
use nest_memory::error::{Error, SpecError};
use std::alloc::{AllocError, Global};

fn lists_by_keys(alloc: Global) -> Result<DataType, Error> {
    dictionary(alloc, IntegerType::Int8, list(alloc, Ok(DataType::Int32)))
}

fn dictionary_of(array: Result<AnyArray, Error>) -> Option<DictionaryArray> {
    match array {
        Ok(AnyArray::Dictionary(array)) => Some(array),
        Ok(other) => {
            drop(other);
            None
        }
        Err(_error) => None,
    }
}

/// Keys of 8 bits over lists of numbers, two slots: two null keys over one null value; none: no value.
#[test]
fn null_keys_over_one_null_value(rt: HostRuntime) {
    let made = nulls(rt.alloc(), lists_by_keys(rt.alloc()), 2);
    let array = dictionary_of(made).expect(&rt, "a dictionary");
    assert!(rt; array.len() == 2);
    assert!(rt; array.null_count() == 2);
    assert!(rt; array.values().len() == 1);
    assert!(rt; array.values().null_count() == 1);
}

#[test]
fn an_empty_dictionary_has_no_value(rt: HostRuntime) {
    let made = none(rt.alloc(), extension(rt.alloc(), lists_by_keys(rt.alloc())));
    let array = dictionary_of(made).expect(&rt, "a dictionary");
    assert!(rt; array.len() == 0);
    assert!(rt; array.values().len() == 0);
}

#[test]
fn keys_of_each_width(rt: HostRuntime) {
    let alloc = rt.alloc();
    for key in [
        IntegerType::Int8,
        IntegerType::Int16,
        IntegerType::Int32,
        IntegerType::Int64,
        IntegerType::UInt8,
        IntegerType::UInt16,
        IntegerType::UInt32,
        IntegerType::UInt64,
    ] {
        let of = dictionary(alloc, key, Ok(DataType::Utf8));
        assert!(rt; refusal(nulls(alloc, of, 3)) == None);
    }
}

#[test]
fn values_are_viewed(rt: HostRuntime) {
    let alloc = rt.alloc();
    let floats = dictionary(alloc, IntegerType::Int8, Ok(DataType::Float64));
    assert!(rt; refusal(nulls(alloc, floats, 0)) == Some(Error::NotYetImplemented));
    let wrong = Some(Error::OutOfSpec(SpecError::WrongType));
    assert!(rt; DictionaryArray::new_null(alloc, DataType::Float64, 1).err() == wrong);
    assert!(rt; DictionaryArray::new_empty(alloc, DataType::Int8).err() == wrong);
}

/// How long an array is, how many of its keys are null, and how many values it has; it is dropped.
fn counts(array: Result<DictionaryArray, Error>) -> Result<(usize, usize, usize), Error> {
    match array {
        Ok(array) => {
            let found = (array.len(), array.null_count(), array.values().len());
            drop(array);
            Ok(found)
        }
        Err(error) => Err(error),
    }
}

#[test]
fn null_keys_by_the_call_of_their_kind(rt: HostRuntime) {
    let alloc = rt.alloc();
    let data_type = lists_by_keys(alloc).expect(&rt, "lists by keys");
    assert!(rt; counts(DictionaryArray::new_null(alloc, data_type, 2)) == Ok((2, 2, 1)));
    let data_type = lists_by_keys(alloc).expect(&rt, "lists by keys");
    assert!(rt; counts(DictionaryArray::new_empty(alloc, data_type)) == Ok((0, 0, 0)));
}

fn lists_and_names(alloc: Global) -> Result<DataType, Error> {
    let names = dictionary(alloc, IntegerType::UInt32, Ok(DataType::Utf8));
    records(two(alloc, list(alloc, Ok(DataType::Int32)), names))
}

// Passes whichever allocation fails.
#[test]
fn without_memory(rt: HostRuntime) {
    match nulls(rt.alloc(), lists_and_names(rt.alloc()), 3) {
        Ok(array) => {
            assert!(rt; array.len() == 3);
            assert!(rt; array.null_count() == 3);
        }
        Err(error) => assert!(rt; error == Error::Memory(AllocError)),
    }
}
