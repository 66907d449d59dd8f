//! Dictionaries as a kind of builder of any kind.

use crate::any::records::{
    OTHER_KIND, UNFINISHED, has_offsets, kept, lists_of, nested, numbers, over, push, push_lists,
    push_row, records_of, refused, texts,
};
use nest_any::{AnyMutableArray, MutableStructArray};
use nest_array::{AnyArray, AnyKeys, DictionaryArray};
use nest_build::array::MutableArray;
use nest_flat::any_native::AnyNative;
use nest_flat::plain::Plain;
use nest_memory::datatypes::{DataType, IntegerType};
use nest_memory::error::{ArgumentError, Error, SpecError};
use std::alloc::Global;

/// Dictionaries of such values, by keys of 8 bits.
fn dictionary_data_type(alloc: Global, values: DataType) -> Result<DataType, Error> {
    let values = Box::new(alloc, values)?;
    Ok(DataType::Dictionary(IntegerType::Int8, values, false))
}

/// A builder that is whole.
fn whole(builder: AnyMutableArray) -> Result<AnyMutableArray, Error> {
    if !builder.is_complete() {
        drop(builder);
        return Err(UNFINISHED);
    }
    Ok(builder)
}

pub(crate) fn dictionary_of_strings(alloc: Global) -> Result<AnyMutableArray, Error> {
    let data_type = dictionary_data_type(alloc, DataType::Utf8)?;
    match texts(alloc) {
        Ok(texts) => nested(alloc, data_type, texts),
        Err(error) => {
            drop(data_type);
            Err(error)
        }
    }
}

fn dictionary_numbers(alloc: Global) -> Result<AnyMutableArray, Error> {
    let data_type = dictionary_data_type(alloc, DataType::Int64)?;
    nested(alloc, data_type, numbers(alloc))
}

/// Records of a dictionary-encoded text each.
fn dictionary_records(alloc: Global) -> Result<MutableStructArray, Error> {
    let keyed = match dictionary_of_strings(alloc) {
        Ok(keyed) => whole(keyed),
        Err(error) => Err(error),
    };
    let keyed = match keyed {
        Ok(keyed) => vec![in alloc; keyed],
        Err(error) => return Err(error),
    };
    match record_type(alloc) {
        Ok(data_type) => over(alloc, data_type, keyed, None),
        Err(error) => {
            drop(keyed);
            Err(error)
        }
    }
}

fn record_type(alloc: Global) -> Result<DataType, Error> {
    records_of(alloc, dictionary_data_type(alloc, DataType::Utf8)?)
}

fn dictionary_lists(alloc: Global) -> Result<AnyMutableArray, Error> {
    let data_type = lists_of(alloc, record_type(alloc)?)?;
    match dictionary_records(alloc) {
        Ok(records) => nested(alloc, data_type, AnyMutableArray::Struct(records)),
        Err(error) => {
            drop(data_type);
            Err(error)
        }
    }
}

/// Whether dictionaries have these keys and strings.
fn has_keys(keyed: &DictionaryArray, wanted: &[Option<i8>], wanted_texts: &[&str]) -> bool {
    let AnyKeys::Int8(keys) = keyed.keys() else {
        return false;
    };
    if keys.len() != wanted.len() {
        return false;
    }
    for i in 0..keys.len() {
        if keys.get(i) != wanted[i] {
            return false;
        }
    }
    has_strings(keyed.values(), wanted_texts)
}

fn has_strings(values: &AnyArray, wanted: &[&str]) -> bool {
    let AnyArray::Utf8(texts) = values else {
        return false;
    };
    if texts.len() != wanted.len() {
        return false;
    }
    for i in 0..texts.len() {
        if texts.get(i) != Some(wanted[i]) {
            return false;
        }
    }
    true
}

/// Whether a list of two records of "x" and a null list were frozen, over one text.
fn is_one_string_twice(frozen: &Result<AnyArray, Error>) -> bool {
    let Ok(AnyArray::List(lists)) = frozen else {
        return false;
    };
    let AnyArray::Struct(records) = lists.values() else {
        return false;
    };
    let [AnyArray::Dictionary(keyed)] = records.values() else {
        return false;
    };
    has_offsets(lists, &[0, 2, 2])
        && lists.len() == 2
        && lists.is_null(1)
        && has_keys(keyed, &[Some(0), Some(0)], &["x"])
}

/// Lists of records of a dictionary-encoded text: two records of "x" and a null list are frozen to the offsets 0, 2, 2, the
/// keys 0, 0 and one text.
#[test]
fn lists_of_records_of_dictionaries_are_frozen(rt: HostRuntime) {
    let mut lists = dictionary_lists(rt.alloc()).expect(&rt, "keyed lists");
    let pushed = push_lists(&mut lists);
    let frozen = lists.as_box();
    let is_new = lists.is_empty() && lists.is_complete();
    let shown = is_one_string_twice(&frozen);
    assert!(rt; pushed == Ok(()));
    assert!(rt; is_new);
    assert!(rt; shown);
}

/// A builder of dictionaries lends no child, pushes no row, and takes no value of another kind.
#[test]
fn a_dictionary_has_no_child_rows(rt: HostRuntime) {
    let mut keyed = dictionary_of_strings(rt.alloc()).expect(&rt, "keyed texts");
    let childless = keyed.child(0).is_none();
    let ended = push_row(&mut keyed, true);
    let pushed = push(&mut keyed, Plain::Native(AnyNative::Int64(7)));
    let rows = keyed.len();
    assert!(rt; childless);
    assert!(rt; ended == Err(OTHER_KIND));
    assert!(rt; pushed == Err(OTHER_KIND));
    assert!(rt; rows == 0);
}

/// Dictionaries over a child of another type, over one with a row, and of values with children.
#[test]
fn dictionaries_over_another_child_are_rejected(rt: HostRuntime) {
    let alloc = rt.alloc();
    let child_type = Some(Error::OutOfSpec(SpecError::ChildType));
    let not_empty = Some(Error::InvalidArgumentError(ArgumentError::ChildNotEmpty));
    let wrong_type = Some(Error::OutOfSpec(SpecError::WrongType));
    let lists = lists_of(alloc, DataType::Int64).expect(&rt, "a data type");
    let keys = dictionary_data_type(alloc, DataType::Utf8).expect(&rt, "a data type");
    for values in [DataType::Null, keys] {
        let data_type = dictionary_data_type(alloc, values).expect(&rt, "a data type");
        assert!(rt; refused(alloc, false, data_type) == wrong_type);
    }
    assert!(rt;
        refused(
            alloc,
            true,
            dictionary_data_type(alloc, lists).expect(&rt, "a data type")
        ) == wrong_type
    );
    assert!(rt;
        refused(
            alloc,
            true,
            dictionary_data_type(alloc, DataType::Utf8).expect(&rt, "a data type")
        ) == not_empty
    );
    assert!(rt;
        refused(
            alloc,
            false,
            dictionary_data_type(alloc, DataType::Utf8).expect(&rt, "a data type")
        ) == child_type
    );
    assert!(rt;
        refused(
            alloc,
            false,
            dictionary_data_type(alloc, DataType::Int64).expect(&rt, "a data type")
        )
        .is_none()
    );
}

/// "A", "B", null and "A".
fn push_four(keyed: &mut AnyMutableArray) -> Result<(), Error> {
    push(keyed, Plain::Text("A"))?;
    push(keyed, Plain::Text("B"))?;
    if keyed.is_complete() {
        keyed.push_null()?;
    }
    push(keyed, Plain::Text("A"))
}

/// Whether these keys and strings were frozen.
fn is_frozen(frozen: &Result<AnyArray, Error>, keys: &[Option<i8>], texts: &[&str]) -> bool {
    match frozen {
        Ok(AnyArray::Dictionary(keyed)) => has_keys(keyed, keys, texts),
        _ => false,
    }
}

/// "A", "B", null, "A" are frozen to the keys 0, 1, null, 0 over two strings; the emptied builder takes "C" by key 0.
#[test]
fn each_string_has_one_key(rt: HostRuntime) {
    let mut keyed = dictionary_of_strings(rt.alloc()).expect(&rt, "keyed texts");
    let pushed = push_four(&mut keyed);
    let frozen = keyed.as_box();
    let first = is_frozen(&frozen, &[Some(0), Some(1), None, Some(0)], &["A", "B"]);
    let again = push(&mut keyed, Plain::Text("C"));
    let frozen = keyed.as_box();
    let second = is_frozen(&frozen, &[Some(0)], &["C"]);
    assert!(rt; pushed == Ok(()));
    assert!(rt; again == Ok(()));
    assert!(rt; first);
    assert!(rt; second);
}

/// The key of a number, and how many values there are.
fn key_and_count(keyed: &AnyMutableArray, number: i64) -> (Option<usize>, usize) {
    match keyed {
        AnyMutableArray::Dictionary(keyed) => (keyed.key_of(&number), keyed.values().len()),
        _ => (None, 0),
    }
}

/// A number that was pushed twice is one value with a key, another has none.
#[test]
fn a_number_is_found(rt: HostRuntime) {
    let mut keyed = dictionary_numbers(rt.alloc()).expect(&rt, "keyed numbers");
    let pushed = push(&mut keyed, Plain::Native(AnyNative::Int64(7)));
    let again = push(&mut keyed, Plain::Native(AnyNative::Int64(7)));
    let known = key_and_count(&keyed, 7);
    let other = key_and_count(&keyed, 8);
    assert!(rt; pushed == Ok(()));
    assert!(rt; again == Ok(()));
    assert!(rt; known == (Some(0), 1));
    assert!(rt; other == (None, 1));
}
