//! Iterators over maps from both ends.
use crate::scan::parts::{both, buffer, offsets_of, two, validity};
use crate::scan::walks::{expect_decoded, walk, walked};
use nest_array::{AnyArray, MapArray, StructArray};
use nest_flat::utf8::Utf8Array;
use nest_memory::datatypes::DataType;
use nest_memory::datatypes::field::Field;
use nest_memory::error::Error;
use nest_scan::{MapValuesIter, Scan};
use std::alloc::Global;

/// Strings, as an array of any kind.
pub(crate) fn texts(alloc: Global, offsets: &[i32], bytes: &[u8]) -> Result<AnyArray, Error> {
    match both(offsets_of(alloc, offsets), buffer(alloc, bytes)) {
        Ok((offsets, values)) => Utf8Array::try_new(DataType::Utf8, offsets, values, None).map(
            |texts| AnyArray::Utf8(texts),
        ),
        Err(error) => Err(error),
    }
}

fn pair_type(alloc: Global) -> Result<DataType, Error> {
    let first = Field::new(alloc, "a", DataType::Utf8, true);
    let second = Field::new(alloc, "b", DataType::Utf8, true);
    two(alloc, first, second).map(|fields| DataType::Struct(fields))
}

/// The records a, b; aa, bb; and aaa, bbb.
fn entries(alloc: Global) -> Result<AnyArray, Error> {
    let first = texts(alloc, &[0, 1, 3, 6], b"aaaaaa");
    let children = two(alloc, first, texts(alloc, &[0, 1, 3, 6], b"bbbbbb"));
    match both(pair_type(alloc), children) {
        Ok((data_type, children)) => {
            StructArray::try_new(data_type, children, None).map(|records| records.boxed())
        }
        Err(error) => Err(error),
    }
}

fn map_type(alloc: Global) -> Result<DataType, Error> {
    let field = pair_type(alloc).and_then(|inner| Field::new(alloc, "entries", inner, false));
    match field {
        Ok(field) => Ok(DataType::Map(Box::new(alloc, field)?, false)),
        Err(error) => Err(error),
    }
}

/// The map from a to b, and that from aa to bb.
fn two_maps(alloc: Global, bits: Option<&[bool]>) -> Result<MapArray, Error> {
    let ranges = both(offsets_of(alloc, &[0, 1, 2]), validity(alloc, bits));
    match both(both(map_type(alloc), entries(alloc)), ranges) {
        Ok(((data_type, field), (offsets, validity))) => {
            MapArray::try_new(alloc, data_type, offsets, field, validity)
        }
        Err(error) => Err(error),
    }
}

/// A walk over the slots.
fn slots(alloc: Global, maps: &MapArray, turns: &str) -> Result<String, Error> {
    walked(alloc, maps.iter(alloc), turns)
}

/// A walk over the maps, also under nulls, from a clone that is made before each turn but the first.
fn values(alloc: Global, maps: &MapArray, turns: &str) -> Result<String, Error> {
    let mut text = String::new(alloc);
    let mut values = MapValuesIter::new(alloc, maps);
    for turn in turns.split(' ') {
        walk(&mut values, turn, &mut text)?;
        values = values.clone()?;
    }
    Ok(text)
}

/// Maps from both ends; a clone continues from the same index.
#[test]
fn maps_from_both_ends(rt: HostRuntime) {
    let alloc = rt.alloc();
    let maps = two_maps(alloc, None).expect(&rt, "two maps");
    expect_decoded(&rt, values(alloc, &maps, "< # <>"), "{aa;bb;} 1 {a;b;} - ");
}

#[test]
fn nulls_among_maps(rt: HostRuntime) {
    let alloc = rt.alloc();
    let bits = [false, true].as_slice();
    let maps = two_maps(alloc, Some(bits)).expect(&rt, "two maps");
    expect_decoded(&rt, slots(alloc, &maps, ">>>"), "null {aa;bb;} - ");
    expect_decoded(&rt, values(alloc, &maps, ">#"), "{a;b;} 1 ");
}
