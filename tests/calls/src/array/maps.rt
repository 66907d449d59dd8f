//! Arrays of maps by explicit entries: what is rejected, cut, copied and compared.
mod cuts;
mod equality;
mod memory;
mod refusals;

use crate::array::arrays::{both, buffer, offsets_of, two, type_of, validity};
use nest_array::{AnyArray, MapArray, StructArray};
use nest_flat::utf8::Utf8Array;
use nest_memory::datatypes::DataType;
use nest_memory::datatypes::field::Field;
use nest_memory::error::Error;
use std::alloc::Global;

/// Strings, as an array of any kind.
pub(crate) fn texts(alloc: Global, offsets: &[i32], bytes: &[u8]) -> Result<AnyArray, Error> {
    match both(offsets_of(alloc, offsets), buffer(alloc, bytes)) {
        Ok((offsets, values)) => Utf8Array::try_new(DataType::Utf8, offsets, values, None).map(
            |texts| AnyArray::Utf8(texts),
        ),
        Err(error) => Err(error),
    }
}

fn string_field(alloc: Global, name: &str) -> Result<Field, Error> {
    Field::new(alloc, name, DataType::Utf8, true)
}

/// The type of records of two strings, a and b.
fn pair_type(alloc: Global) -> Result<DataType, Error> {
    let fields = two(alloc, string_field(alloc, "a"), string_field(alloc, "b"));
    fields.map(|fields| DataType::Struct(fields))
}

/// Records of two strings.
fn pairs(
    alloc: Global,
    first: Result<AnyArray, Error>,
    second: Result<AnyArray, Error>,
) -> Result<AnyArray, Error> {
    match both(pair_type(alloc), two(alloc, first, second)) {
        Ok((data_type, children)) => {
            StructArray::try_new(data_type, children, None).map(|records| records.boxed())
        }
        Err(error) => Err(error),
    }
}

/// The records a, b; aa, bb; and aaa, bbb.
fn entries(alloc: Global) -> Result<AnyArray, Error> {
    let first = texts(alloc, &[0, 1, 3, 6], b"aaaaaa");
    pairs(alloc, first, texts(alloc, &[0, 1, 3, 6], b"bbbbbb"))
}

/// The type of maps whose entries have this type.
fn map_type(alloc: Global, inner: Result<DataType, Error>) -> Result<DataType, Error> {
    let field = inner.and_then(|inner| Field::new(alloc, "entries", inner, false));
    match field {
        Ok(field) => Ok(DataType::Map(Box::new(alloc, field)?, false)),
        Err(error) => Err(error),
    }
}

/// Maps under this type.
fn maps_under(
    alloc: Global,
    data_type: Result<DataType, Error>,
    field: Result<AnyArray, Error>,
    offsets: &[i32],
    bits: Option<&[bool]>,
) -> Result<MapArray, Error> {
    let ranges = both(offsets_of(alloc, offsets), validity(alloc, bits));
    match both(both(data_type, field), ranges) {
        Ok(((data_type, field), (offsets, validity))) => {
            MapArray::try_new(alloc, data_type, offsets, field, validity)
        }
        Err(error) => Err(error),
    }
}

/// Maps of these entries, under the type that has them.
fn maps_of(
    alloc: Global,
    field: Result<AnyArray, Error>,
    offsets: &[i32],
    bits: Option<&[bool]>,
) -> Result<MapArray, Error> {
    let data_type = map_type(alloc, type_of(alloc, &field));
    maps_under(alloc, data_type, field, offsets, bits)
}

/// Two maps over the three entries: the one from a to b, and the one from aa to bb.
pub(crate) fn two_maps(alloc: Global) -> Result<MapArray, Error> {
    maps_of(alloc, entries(alloc), &[0, 1, 2], None)
}

/// Whether the array has this text alone.
fn is_string(array: &AnyArray, text: &str) -> bool {
    match array {
        AnyArray::Utf8(texts) => texts.len() == 1 && *texts.value(0) == *text,
        _ => false,
    }
}

fn is_entry(array: &AnyArray, key: &str, value: &str) -> bool {
    match array {
        AnyArray::Struct(records) => match records.values() {
            [keys, values] => is_string(keys, key) && is_string(values, value),
            _ => false,
        },
        _ => false,
    }
}

/// Whether entries were given and are the one from this key to this value; they are dropped.
fn has_entry(entries: Result<AnyArray, Error>, key: &str, value: &str) -> bool {
    match entries {
        Ok(entries) => {
            let same = is_entry(&entries, key, value);
            drop(entries);
            same
        }
        Err(_) => false,
    }
}

/// Maps from "a" to "b" and from "aa" to "bb" over three records, entry by entry; cut to the second: from "aa" to "bb".
#[test]
fn two_maps_entry_by_entry(rt: HostRuntime) {
    let array = two_maps(rt.alloc()).expect(&rt, "two maps");
    assert!(rt; array.len() == 2);
    assert!(rt; has_entry(array.value(rt.alloc(), 0), "a", "b"));
    assert!(rt; has_entry(array.value(rt.alloc(), 1), "aa", "bb"));
    assert!(rt; array.offsets().as_slice() == [0, 1, 2].as_slice());
    assert!(rt; array.field().len() == 3);
}

#[test]
fn maps_borrow_their_entries(rt: HostRuntime) {
    let array = two_maps(rt.alloc()).expect(&rt, "two maps");
    assert!(rt; array.len() == 2);
    assert!(rt; array.window(1).offset() == 1);
    assert!(rt; array.window(1).len() == 1);
}
