//! What constructors of dictionaries reject, and in which order.
use super::{by_keys, int32_keys, keys, texts};
use crate::array::arrays::both;
use nest_array::{AnyArray, AnyKeys, DictionaryArray, DictionaryKey};
use nest_memory::datatypes::{DataType, IntegerType};
use nest_memory::error::{Error, SpecError};
use std::alloc::Global;

/// The type of values of this type by such keys.
fn dictionary_type(
    alloc: Global,
    key: IntegerType,
    value: DataType,
    ordered: bool,
) -> Result<DataType, Error> {
    Ok(DataType::Dictionary(key, Box::new(alloc, value)?, ordered))
}

/// Values by keys under this type.
fn under(
    alloc: Global,
    data_type: Result<DataType, Error>,
    keys: Result<AnyKeys, Error>,
    values: Result<AnyArray, Error>,
) -> Result<DictionaryArray, Error> {
    match both(both(data_type, keys), values) {
        Ok(((data_type, keys), values)) => DictionaryArray::try_new(alloc, data_type, keys, values),
        Err(error) => Err(error),
    }
}

/// Why key 7, which names nothing, into a text is rejected under this type.
fn refused(alloc: Global, data_type: Result<DataType, Error>) -> Option<Error> {
    under(
        alloc,
        data_type,
        int32_keys(alloc, &[7], None),
        texts(alloc, &[Some("x")]),
    )
    .err()
}

#[test]
fn each_check_before_the_next(rt: HostRuntime) {
    let alloc = rt.alloc();
    let spec = |failure| Some(Error::OutOfSpec(failure));
    assert!(rt; refused(alloc, Ok(DataType::Utf8)) == spec(SpecError::WrongType));
    let other_keys = dictionary_type(alloc, IntegerType::Int8, DataType::LargeUtf8, false);
    assert!(rt; refused(alloc, other_keys) == spec(SpecError::KeyType));
    let other_values = dictionary_type(alloc, IntegerType::Int32, DataType::LargeUtf8, false);
    assert!(rt; refused(alloc, other_values) == spec(SpecError::ChildType));
    let of_texts = dictionary_type(alloc, IntegerType::Int32, DataType::Utf8, false);
    assert!(rt; refused(alloc, of_texts) == spec(SpecError::KeyRange));
}

/// Why these keys into one text are rejected.
fn rejected_keys(alloc: Global, keys: Result<AnyKeys, Error>) -> Option<Error> {
    by_keys(alloc, keys, texts(alloc, &[Some("x")])).err()
}

/// A raw key 9 under a null beside a valid key, the keys -1 and 2^64 - 1: rejected; each error before the next.
#[test]
fn raw_keys_under_nulls_and_negative_ones(rt: HostRuntime) {
    let alloc = rt.alloc();
    let past = Some(Error::OutOfSpec(SpecError::KeyRange));
    let under_null = keys(alloc, &[0i8, 9], Some(&[true, false])).map(|keys| i8::wrap(keys));
    assert!(rt; rejected_keys(alloc, under_null) == past);
    assert!(rt; rejected_keys(alloc, int32_keys(alloc, &[-1], None)) == past);
    assert!(rt; rejected_keys(alloc, int32_keys(alloc, &[1], None)) == past);
    assert!(rt; rejected_keys(alloc, int32_keys(alloc, &[0], None)) == None);
    let largest = keys(alloc, &[u64::MAX], None).map(|keys| u64::wrap(keys));
    assert!(rt; rejected_keys(alloc, largest) == past);
}

/// A text by a key, under a type that says whether strings are ordered.
fn one_string(alloc: Global, ordered: bool) -> Result<DictionaryArray, Error> {
    under(
        alloc,
        dictionary_type(alloc, IntegerType::Int32, DataType::Utf8, ordered),
        int32_keys(alloc, &[0], None),
        texts(alloc, &[Some("x")]),
    )
}

#[test]
fn the_type_says_whether_values_are_ordered(rt: HostRuntime) {
    let alloc = rt.alloc();
    let ordered = one_string(alloc, true).expect(&rt, "an ordered text");
    let unordered = one_string(alloc, false).expect(&rt, "a text");
    assert!(rt; ordered.is_ordered());
    assert!(rt; !unordered.is_ordered());
    assert!(rt; ordered != unordered);
}

#[test]
fn parts_that_fit(rt: HostRuntime) {
    let alloc = rt.alloc();
    let values = texts(alloc, &[Some("x")]).expect(&rt, "a text");
    let keys = int32_keys(alloc, &[0, 0], None).expect(&rt, "two keys");
    let array = DictionaryArray::try_from_keys(alloc, keys, values).expect(&rt, "two texts");
    assert!(rt; array.len() == 2);
}
