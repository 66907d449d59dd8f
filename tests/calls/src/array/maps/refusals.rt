//! What the constructor of maps rejects, and which error is the first.
use super::{entries, map_type, maps_of, maps_under, pair_type, string_field};
use crate::array::arrays::{list_type, numbers, two};
use nest_memory::datatypes::DataType;
use nest_memory::error::{ArgumentError, Error, SpecError};
use std::alloc::Global;

const MAP_INNER: Option<Error> = Some(Error::InvalidArgumentError(ArgumentError::MapInner));

/// An extension of this type.
fn extension(alloc: Global, inner: Result<DataType, Error>) -> Result<DataType, Error> {
    let name = String::from_str(alloc, "own");
    match inner {
        Ok(inner) => Ok(DataType::Extension(name?, Box::new(alloc, inner)?, None)),
        Err(error) => Err(error),
    }
}

/// Maps whose entries are under an extension of a struct of two fields, or a struct of three, are rejected for their inner
/// type; a null over one record is a null.
#[test]
fn extension_of_records_inside(rt: HostRuntime) {
    let alloc = rt.alloc();
    let data_type = map_type(alloc, extension(alloc, pair_type(alloc)));
    let refused = maps_under(alloc, data_type, entries(alloc), &[0, 1, 2], None).err();
    assert!(rt; refused == MAP_INNER);
}

#[test]
fn extension_of_maps(rt: HostRuntime) {
    let alloc = rt.alloc();
    let data_type = extension(alloc, map_type(alloc, pair_type(alloc)));
    let array = maps_under(alloc, data_type, entries(alloc), &[0, 1, 2], None);
    let array = array.expect(&rt, "two maps");
    assert!(rt; array.len() == 2);
}

/// The type of records of three strings.
fn triple_type(alloc: Global) -> Result<DataType, Error> {
    let mut fields = two(alloc, string_field(alloc, "a"), string_field(alloc, "b"))?;
    fields.push(string_field(alloc, "c")?)?;
    Ok(DataType::Struct(fields))
}

#[test]
fn three_fields_inside(rt: HostRuntime) {
    let alloc = rt.alloc();
    let data_type = map_type(alloc, triple_type(alloc));
    let refused = maps_under(alloc, data_type, entries(alloc), &[0, 1, 2], None).err();
    assert!(rt; refused == MAP_INNER);
}

#[test]
fn entries_that_are_no_records(rt: HostRuntime) {
    let alloc = rt.alloc();
    let refused = maps_of(alloc, numbers(alloc, &[1, 2]), &[0, 1, 2], None).err();
    assert!(rt; refused == MAP_INNER);
}

/// The checks in their order: each of these fails all later ones too.
#[test]
fn first_of_the_checks(rt: HostRuntime) {
    let alloc = rt.alloc();
    let long = Some([true, true, true].as_slice());
    let past = maps_under(alloc, Ok(DataType::Int32), entries(alloc), &[0, 1, 4], long).err();
    assert!(rt; past == Some(Error::OutOfSpec(SpecError::OffsetPastChild)));
    let lists = list_type(alloc, Ok(DataType::Int32));
    let refused = maps_under(alloc, lists, entries(alloc), &[0, 1, 2], long).err();
    assert!(rt; refused == Some(Error::OutOfSpec(SpecError::WrongType)));
    let inner = map_type(alloc, triple_type(alloc));
    let refused = maps_under(alloc, inner, entries(alloc), &[0, 1, 2], long).err();
    assert!(rt; refused == MAP_INNER);
    let data_type = map_type(alloc, pair_type(alloc));
    let refused = maps_under(alloc, data_type, numbers(alloc, &[1, 2]), &[0, 1, 2], long).err();
    assert!(rt; refused == Some(Error::InvalidArgumentError(ArgumentError::ChildType)));
    let refused = maps_of(alloc, entries(alloc), &[0, 1, 2], long).err();
    assert!(rt; refused == Some(Error::OutOfSpec(SpecError::ValidityLength)));
}

#[test]
fn no_offset_past_the_entries(rt: HostRuntime) {
    let alloc = rt.alloc();
    assert!(rt;
        maps_of(alloc, entries(alloc), &[0, 3], None)
            .err()
            .is_none()
    );
    let past = maps_of(alloc, entries(alloc), &[0, 4], None).err();
    assert!(rt; past == Some(Error::OutOfSpec(SpecError::OffsetPastChild)));
}
