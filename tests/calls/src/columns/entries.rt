//! Map arrays of keys and values.
use super::{numbers, strings, strings_and_numbers};
use json_write::Json;
use nest_array::{Array, MapArray, StructArray, map_of_entries};
use nest_memory::datatypes::DataType;
use nest_memory::datatypes::field::Field;
use nest_memory::error::{Error, SpecError};
use nest_memory::offsets::OffsetsBuffer;
use std::alloc::Global;

fn offsets_of(alloc: Global, offsets: &[i32]) -> Result<OffsetsBuffer<i32>, Error> {
    OffsetsBuffer::try_new(alloc, Vec::from_slice(alloc, offsets)?)
}

/// The fields "key", not nullable, and "value".
fn entry_fields(alloc: Global) -> Result<Vec<Field>, Error> {
    let mut fields = Vec::with_capacity(alloc, 2)?;
    fields.push(Field::new(alloc, "key", DataType::Utf8, false)?)?;
    fields.push(Field::new(alloc, "value", DataType::Int32, true)?)?;
    Ok(fields)
}

/// A map array with its fields made one by one.
fn maps_by_fields(
    alloc: Global,
    offsets: &[i32],
    values: &[Option<i32>],
) -> Result<MapArray, Error> {
    let offsets = offsets_of(alloc, offsets)?;
    let inner = DataType::Struct(entry_fields(alloc)?);
    let field = Field::new(alloc, "entries", inner, false)?;
    let data_type = DataType::Map(Box::new(alloc, field)?, false);
    let fields = entry_fields(alloc)?;
    let columns = strings_and_numbers(alloc, values)?;
    let entries = StructArray::try_new(DataType::Struct(fields), columns, None)?;
    MapArray::try_new(alloc, data_type, offsets, entries.boxed(), None)
}

fn maps(alloc: Global, offsets: &[i32], values: &[Option<i32>]) -> Result<MapArray, Error> {
    let offsets = offsets_of(alloc, offsets)?;
    let keys = strings(alloc)?;
    let values = numbers(alloc, values)?;
    map_of_entries(alloc, offsets, keys, values)
}

#[test]
fn keys_and_values(rt: HostRuntime) -> Result<(), Error> {
    let alloc = rt.alloc();
    let array = maps(alloc, &[0, 1, 1, 2], &[Some(30), None])?;
    assert!(rt; array == maps_by_fields(alloc, &[0, 1, 1, 2], &[Some(30), None])?);
    assert!(rt; array.validity().is_none());
    let data_type = format!(in alloc; "{}", array.data_type())?;
    assert_eq!(rt; data_type.as_str(), "map<string, int32>");
    let entries = format!(in alloc; "{}", array.field().data_type())?;
    assert_eq!(rt;
        entries.as_str(),
        "struct<key: string not null, value: int32>"
    );
    let any = array.boxed();
    let text = format!(in alloc; "{}", Json::of(&any))?;
    assert_eq!(rt;
        text.as_str(),
        "[[{\"key\":\"ann\",\"value\":30}],[],[{\"key\":\"bob\",\"value\":null}]]"
    );
    Ok(())
}

/// Offsets may leave out entries at the start and at the end.
#[test]
fn part_of_the_entries(rt: HostRuntime) -> Result<(), Error> {
    let alloc = rt.alloc();
    let array = maps(alloc, &[1, 1], &[Some(30), None])?;
    assert!(rt; array == maps_by_fields(alloc, &[1, 1], &[Some(30), None])?);
    assert!(rt; array.len() == 1);
    assert!(rt; array.field().len() == 2);
    Ok(())
}

#[test]
fn value_for_each_key(rt: HostRuntime) -> Result<(), Error> {
    let child_length = Some(Error::OutOfSpec(SpecError::ChildLength));
    assert!(rt; maps(rt.alloc(), &[0, 1], &[Some(30)]).err() == child_length);
    let past = maps(rt.alloc(), &[0, 3], &[Some(30), None, None]).err();
    assert!(rt; past == child_length);
    Ok(())
}

#[test]
fn no_offset_past_the_keys(rt: HostRuntime) -> Result<(), Error> {
    let offset_past_child = Some(Error::OutOfSpec(SpecError::OffsetPastChild));
    let past = maps(rt.alloc(), &[0, 3], &[Some(30), None]).err();
    assert!(rt; past == offset_past_child);
    Ok(())
}
