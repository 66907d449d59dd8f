//! Dictionaries that are concatenated.

use crate::concat::{is_its_slices, joined};
use crate::take::arrays::{
    Made, are_same, cut, keyed, lists, nulls, numbers, records, refusal, texts, two,
};
use nest_array::{AnyArray, AnyKeys, DictionaryArray, DictionaryKey};
use nest_concat::concatenate;
use nest_flat::primitive::PrimitiveArray;
use nest_flat::utf8::Utf8Array;
use nest_memory::bitmap::immutable::Bitmap;
use nest_memory::buffer::Buffer;
use nest_memory::datatypes::{DataType, IntegerType};
use nest_memory::error::Error;
use nest_memory::offsets::OffsetsBuffer;
use std::alloc::{AllocError, Global};

fn ab(alloc: Global) -> Made {
    texts(alloc, &[Some("a"), Some("b")])
}

fn cd(alloc: Global) -> Made {
    texts(alloc, &[Some("c"), None, Some("a")])
}

/// How many values an array of dictionaries has, 0 of any other.
fn count_values(array: Made) -> usize {
    match array {
        Ok(array) => {
            let count = array
                .as_dictionary()
                .map_or(0, |keyed| keyed.values().len());
            drop(array);
            count
        }
        Err(_) => 0,
    }
}

/// The place that raw key i names, also under a null; none of any other array.
fn place(array: Made, i: usize) -> Option<usize> {
    match array {
        Ok(array) => {
            let found = match array.as_dictionary() {
                Some(keyed) if i < keyed.len() => keyed.keys().index(i),
                _ => None,
            };
            drop(array);
            found
        }
        Err(_) => None,
    }
}

// "b", null, "a" and then null, "c", "a" by keys over other values: the values of both are one after the other.
#[test]
fn other_values(rt: HostRuntime) {
    let alloc = rt.alloc();
    let first = || keyed(alloc, &[1, 1, 0], Some(&[true, false, true]), ab(alloc));
    let second = || keyed(alloc, &[1, 0, 2], None, cd(alloc));
    let all = || texts(alloc, &[Some("a"), Some("b"), Some("c"), None, Some("a")]);
    let bits = [true, false, true, true, true, true];
    let expected = keyed(alloc, &[1, 0, 0, 3, 2, 4], Some(&bits), all());
    assert!(rt; are_same(joined(alloc, first(), second()), expected));
    assert!(rt; count_values(joined(alloc, first(), second())) == 5);
    assert!(rt; place(joined(alloc, first(), second()), 0) == Some(1));
    assert!(rt; place(joined(alloc, first(), second()), 1) == Some(0));
    assert!(rt; place(joined(alloc, first(), second()), 3) == Some(3));
    assert!(rt; place(joined(alloc, first(), second()), 5) == Some(4));
}

// Keys over equal values stay, over the values of the first; a raw key under a null is 0.
#[test]
fn equal_values(rt: HostRuntime) {
    let alloc = rt.alloc();
    let first = || keyed(alloc, &[1, 1], Some(&[true, false]), ab(alloc));
    let second = || keyed(alloc, &[0, 1], None, ab(alloc));
    let expected = keyed(
        alloc,
        &[1, 0, 0, 1],
        Some(&[true, false, true, true]),
        ab(alloc),
    );
    assert!(rt; are_same(joined(alloc, first(), second()), expected));
    assert!(rt; count_values(joined(alloc, first(), second())) == 2);
    assert!(rt; place(joined(alloc, first(), second()), 0) == Some(1));
    assert!(rt; place(joined(alloc, first(), second()), 1) == Some(0));
    assert!(rt; place(joined(alloc, first(), second()), 3) == Some(1));
}

// The values of an array stay whole where it is cut, and count also where no slot is left.
#[test]
fn slices_have_all_values(rt: HostRuntime) {
    let alloc = rt.alloc();
    let first = || cut(keyed(alloc, &[1, 0, 1], None, ab(alloc)), 1, 0);
    let second = || cut(keyed(alloc, &[0, 2], None, cd(alloc)), 1, 1);
    assert!(rt;
        are_same(
            joined(alloc, first(), second()),
            keyed(alloc, &[0], None, ab(alloc))
        )
    );
    assert!(rt; count_values(joined(alloc, first(), second())) == 5);
    assert!(rt; place(joined(alloc, first(), second()), 0) == Some(4));
}

#[test]
fn slices_of_dictionaries(rt: HostRuntime) {
    let alloc = rt.alloc();
    let bits = [true, false, true, true];
    let rows = || keyed(alloc, &[1, 1, 0, 2], Some(&bits), cd(alloc));
    assert!(rt; is_its_slices(alloc, 4, rows));
    assert!(rt; is_its_slices(alloc, 3, || lists(alloc, rows(), &[1, 1, 3, 4], None)));
    assert!(rt;
        is_its_slices(
            alloc,
            4,
            || records(
                alloc,
                rows(),
                numbers(alloc, &[1, 2, 3, 4], None),
                Some(&bits)
            )
        )
    );
    let deep = || lists(alloc, numbers(alloc, &[5, 6, 7], None), &[0, 1, 1, 3], None);
    assert!(rt;
        is_its_slices(
            alloc,
            4,
            || keyed(alloc, &[2, 0, 0, 1], Some(&bits), deep())
        )
    );
    assert!(rt; is_its_slices(alloc, 2, || keyed(alloc, &[1, 0], None, rows())));
}

// Lists of dictionaries, dictionaries of lists and of dictionaries, over other values.
#[test]
fn nested(rt: HostRuntime) {
    let alloc = rt.alloc();
    let first = lists(
        alloc,
        keyed(alloc, &[1, 0, 1], None, ab(alloc)),
        &[1, 2, 3],
        None,
    );
    let second = lists(
        alloc,
        keyed(alloc, &[0, 2], None, cd(alloc)),
        &[0, 0, 2],
        None,
    );
    let words = texts(alloc, &[Some("a"), Some("b"), Some("c")]);
    let expected = lists(
        alloc,
        keyed(alloc, &[0, 1, 2, 0], None, words),
        &[0, 1, 2, 2, 4],
        None,
    );
    assert!(rt; are_same(joined(alloc, first, second), expected));
    let rows = |items: &[i32]| lists(alloc, numbers(alloc, items, None), &[0, 2, 3], None);
    let found = joined(
        alloc,
        keyed(alloc, &[1, 0], None, rows(&[1, 2, 3])),
        keyed(alloc, &[0], None, rows(&[4, 5, 6])),
    );
    let all = lists(
        alloc,
        numbers(alloc, &[3, 1, 2, 4, 5], None),
        &[0, 1, 3, 5],
        None,
    );
    assert!(rt; are_same(found, keyed(alloc, &[0, 1, 2], None, all)));
    let twice = |values: Made| keyed(alloc, &[1, 0], None, keyed(alloc, &[1, 0], None, values));
    let found = joined(alloc, twice(ab(alloc)), twice(cd(alloc)));
    let words = texts(alloc, &[Some("a"), Some("b"), Some("c"), None]);
    let expected = keyed(
        alloc,
        &[0, 1, 2, 3],
        None,
        keyed(alloc, &[0, 1, 2, 3], None, words),
    );
    assert!(rt; are_same(found, expected));
}

/// Keys of one width.
fn narrow<K: DictionaryKey + Drop>(
    alloc: Global,
    data_type: DataType,
    raw: &[K],
    bits: Option<&[bool]>,
) -> Result<PrimitiveArray<K>, Error> {
    let validity = match bits {
        None => None,
        Some(bits) => Some(Bitmap::from_bools(alloc, bits)?),
    };
    let raw = Buffer::from_vec(alloc, Vec::from_slice(alloc, raw)?)?;
    PrimitiveArray::try_new(data_type, raw, validity)
}

/// So many nulls by keys.
fn some_nulls_by(keys: Result<AnyKeys, Error>, alloc: Global, count: usize) -> Made {
    match keys {
        Ok(keys) => match nulls(count) {
            Ok(values) => DictionaryArray::try_from_keys(alloc, keys, values).map(
                |keyed| keyed.boxed(),
            ),
            Err(error) => {
                drop(keys);
                Err(error)
            }
        },
        Err(error) => Err(error),
    }
}

/// Keys of 8 bits over so many nulls.
fn int8s(alloc: Global, raw: &[i8], bits: Option<&[bool]>, count: usize) -> Made {
    some_nulls_by(
        narrow(alloc, DataType::Int8, raw, bits).map(|keys| AnyKeys::Int8(keys)),
        alloc,
        count,
    )
}

fn uint8s(alloc: Global, raw: &[u8], count: usize) -> Made {
    some_nulls_by(
        narrow(alloc, DataType::UInt8, raw, None).map(|keys| AnyKeys::UInt8(keys)),
        alloc,
        count,
    )
}

// Key 127 is the last of 8 bits with a sign, 255 of those without; a key under a null is no matter.
#[test]
fn the_last_keys(rt: HostRuntime) {
    let alloc = rt.alloc();
    assert!(rt;
        place(
            joined(
                alloc,
                int8s(alloc, &[0], None, 127),
                int8s(alloc, &[0], None, 1)
            ),
            1
        ) == Some(127)
    );
    let found = joined(
        alloc,
        int8s(alloc, &[0], None, 128),
        int8s(alloc, &[0], None, 1),
    );
    assert!(rt; refusal(found) == Some(Error::Overflow));
    let found = joined(
        alloc,
        int8s(alloc, &[0], None, 127),
        int8s(alloc, &[1], None, 2),
    );
    assert!(rt; refusal(found) == Some(Error::Overflow));
    let found = || joined(
        alloc,
        int8s(alloc, &[5], None, 128),
        int8s(alloc, &[0, 1], Some(&[false, false]), 2),
    );
    assert!(rt; place(found(), 0) == Some(5));
    assert!(rt; place(found(), 1) == Some(0));
    assert!(rt; count_values(found()) == 130);
    assert!(rt;
        place(
            joined(
                alloc,
                int8s(alloc, &[127], None, 128),
                int8s(alloc, &[127], None, 128)
            ),
            1
        ) == Some(127)
    );
    assert!(rt;
        place(
            joined(alloc, uint8s(alloc, &[0], 255), uint8s(alloc, &[0], 1)),
            1
        ) == Some(255)
    );
    let found = joined(alloc, uint8s(alloc, &[0], 256), uint8s(alloc, &[0], 1));
    assert!(rt; refusal(found) == Some(Error::Overflow));
}

/// Whether the second of two keys of a width names what it should after two other values.
fn moves(alloc: Global, first: Result<AnyKeys, Error>, second: Result<AnyKeys, Error>) -> bool {
    place(
        joined(
            alloc,
            some_nulls_by(first, alloc, 2),
            some_nulls_by(second, alloc, 3),
        ),
        1,
    ) == Some(3)
}

/// Each width of keys; the last key of 8 bits and the first that isn't; nulls after too many values; values that are too many.
#[test]
fn each_width(rt: HostRuntime) {
    let alloc = rt.alloc();
    let keys = || narrow(alloc, DataType::Int8, &[1i8], None).map(|keys| AnyKeys::Int8(keys));
    assert!(rt; moves(alloc, keys(), keys()));
    let keys = || narrow(alloc, DataType::Int16, &[1i16], None).map(|keys| AnyKeys::Int16(keys));
    assert!(rt; moves(alloc, keys(), keys()));
    let keys = || narrow(alloc, DataType::Int32, &[1i32], None).map(|keys| AnyKeys::Int32(keys));
    assert!(rt; moves(alloc, keys(), keys()));
    let keys = || narrow(alloc, DataType::Int64, &[1i64], None).map(|keys| AnyKeys::Int64(keys));
    assert!(rt; moves(alloc, keys(), keys()));
    let keys = || narrow(alloc, DataType::UInt8, &[1u8], None).map(|keys| AnyKeys::UInt8(keys));
    assert!(rt; moves(alloc, keys(), keys()));
    let keys = || narrow(alloc, DataType::UInt16, &[1u16], None).map(|keys| AnyKeys::UInt16(keys));
    assert!(rt; moves(alloc, keys(), keys()));
    let keys = || narrow(alloc, DataType::UInt32, &[1u32], None).map(|keys| AnyKeys::UInt32(keys));
    assert!(rt; moves(alloc, keys(), keys()));
    let keys = || narrow(alloc, DataType::UInt64, &[1u64], None).map(|keys| AnyKeys::UInt64(keys));
    assert!(rt; moves(alloc, keys(), keys()));
}

// More values than a length can be.
#[test]
fn too_many_values(rt: HostRuntime) {
    let alloc = rt.alloc();
    let keys = || narrow(alloc, DataType::UInt64, &[0u64], None).map(|keys| AnyKeys::UInt64(keys));
    let all = || some_nulls_by(keys(), alloc, usize::MAX);
    let found = joined(alloc, all(), some_nulls_by(keys(), alloc, 1));
    assert!(rt; refusal(found) == Some(Error::Overflow));
    assert!(rt; count_values(joined(alloc, all(), all())) == usize::MAX);
}

/// A type of the caller over strings.
fn named(alloc: Global) -> Result<DataType, Error> {
    let name = String::from_str(alloc, "name")?;
    Ok(DataType::Extension(name, Box::new(alloc, DataType::Utf8)?, None))
}

/// The text x under that type.
fn named_x(alloc: Global) -> Made {
    let data_type = named(alloc)?;
    let offsets = OffsetsBuffer::try_new(alloc, Vec::from_slice(alloc, &[0i32, 1])?)?;
    let bytes = Buffer::from_vec(alloc, Vec::from_slice(alloc, b"x")?)?;
    Utf8Array::try_new(data_type, offsets, bytes, None).map(|texts| AnyArray::Utf8(texts))
}

/// That text by a key, under the type of strings by keys.
fn extended(alloc: Global) -> Made {
    let value_type = Box::new(alloc, DataType::Utf8)?;
    let data_type = DataType::Dictionary(IntegerType::Int32, value_type, false);
    let keys = narrow(alloc, DataType::Int32, &[0i32], None)?;
    let values = named_x(alloc)?;
    DictionaryArray::try_new(alloc, data_type, AnyKeys::Int32(keys), values).map(
        |keyed| keyed.boxed(),
    )
}

// The values of one data type may be of an extension of it in one array, and not in another: they are joined, under the first's type.
#[test]
fn values_of_an_extension(rt: HostRuntime) {
    let alloc = rt.alloc();
    let plain = || keyed(alloc, &[1], None, ab(alloc));
    let words = || texts(alloc, &[Some("x"), Some("b")]);
    let found = || joined(alloc, extended(alloc), plain());
    assert!(rt; are_same(found(), keyed(alloc, &[0, 1], None, words())));
    assert!(rt; count_values(found()) == 3);
    let found = || joined(alloc, plain(), extended(alloc));
    assert!(rt; are_same(found(), keyed(alloc, &[1, 0], None, words())));
    assert!(rt; count_values(found()) == 3);
    let rows = |items: Made| lists(alloc, items, &[0, 1], None);
    let found = joined(alloc, rows(plain()), rows(extended(alloc)));
    assert!(rt;
        are_same(
            found,
            lists(
                alloc,
                keyed(alloc, &[1, 0], None, words()),
                &[0, 1, 2],
                None
            )
        )
    );
}

// Passes whichever allocation fails.
#[test]
fn without_memory(rt: HostRuntime) {
    let alloc = rt.alloc();
    let first = || lists(
        alloc,
        keyed(alloc, &[1, 0, 1], None, ab(alloc)),
        &[1, 2, 3],
        None,
    );
    let second = || lists(
        alloc,
        keyed(alloc, &[0, 2], None, cd(alloc)),
        &[0, 0, 2],
        None,
    );
    match two(alloc, first(), second()) {
        Ok(arrays) => {
            let found = refusal(concatenate(alloc, arrays.as_slice()));
            drop(arrays);
            assert!(rt; found.is_none() || found == Some(Error::Memory(AllocError)));
        }
        Err(error) => assert!(rt; error == Error::Memory(AllocError)),
    }
}
