//! Columns as other writers leave them: arrays of length 0 with any offsets, nulls over bytes that are not UTF-8, a null count
//! without validity.
use ipc_arrays::{BatchCursor, read_columns};
use ipc_flatbuf::{BufferSpec, FieldNode, IpcReadError};
use nest_array::any::AnyArray;
use nest_memory::datatypes::{DataType, Field};
use std::alloc::Global;

// Field nodes of these lengths and null counts.
fn nodes_of(alloc: Global, counts: &[(i64, i64)]) -> Result<Vec<FieldNode>, IpcReadError> {
    let mut nodes = Vec::new(alloc);
    for (length, null_count) in counts {
        let (length, null_count) = (*length, *null_count);
        nodes.push(FieldNode { length, null_count })?;
    }
    Ok(nodes)
}

// Reads a column from a body of these buffers, which follow one another.
fn column_of(
    alloc: Global,
    data_type: DataType,
    counts: &[(i64, i64)],
    buffers: &[&[u8]],
) -> Result<AnyArray, IpcReadError> {
    let mut body = Vec::new(alloc);
    let mut specs = Vec::new(alloc);
    for bytes in buffers {
        let (offset, length) = (body.len() as i64, bytes.len() as i64);
        specs.push(BufferSpec { offset, length })?;
        body.extend_from_slice(bytes)?;
    }
    let nodes = nodes_of(alloc, counts)?;
    let cursor = BatchCursor {
        nodes: &nodes,
        buffers: &specs,
        dictionaries: &[],
    };
    let types = vec![in alloc; data_type]?;
    let rows = counts[0].0 as usize;
    let mut columns = read_columns(alloc, &types, rows, &body, cursor)?;
    match columns.pop() {
        None => Err(IpcReadError::RowCount),
        Some(column) => Ok(column),
    }
}

fn item(alloc: Global, data_type: DataType) -> Result<Box<Field>, IpcReadError> {
    match Field::new(alloc, "item", data_type, true) {
        Ok(field) => Ok(Box::new(alloc, field)?),
        Err(_) => Err(IpcReadError::Memory),
    }
}

fn entries(alloc: Global) -> Result<DataType, IpcReadError> {
    let mut fields = Vec::new(alloc);
    for name in ["key", "value"] {
        match Field::new(alloc, name, DataType::Int8, true) {
            Ok(field) => fields.push(field)?,
            Err(_) => return Err(IpcReadError::Memory),
        }
    }
    Ok(DataType::Struct(fields))
}

#[test]
fn offsets_of_empty_arrays_are_not_read(rt: HostRuntime) {
    let alloc = rt.alloc();
    let offsets: [&[u8]; 5] = [&[], &[7], &[7, 0, 0, 0], &[255; 8], &[9; 24]];
    for bytes in offsets {
        for data_type in [
            DataType::Binary,
            DataType::LargeBinary,
            DataType::Utf8,
            DataType::LargeUtf8,
        ] {
            let column = column_of(alloc, data_type, &[(0, 0)], &[&[], bytes, &[104, 105]]);
            assert!(rt; column.expect(&rt, "a column").len() == 0);
        }
        let lists = DataType::List(item(alloc, DataType::Int8).expect(&rt, "an item"));
        let column = column_of(alloc, lists, &[(0, 0), (2, 0)], &[&[], bytes, &[], &[5, 6]]);
        let AnyArray::List(lists) = column.expect(&rt, "a column") else {
            unreachable!()
        };
        assert!(rt; lists.len() == 0 && lists.values().len() == 2);
        let entries = entries(alloc).expect(&rt, "a type");
        let maps = DataType::Map(item(alloc, entries).expect(&rt, "an item"), false);
        let counts = [(0, 0), (1, 0), (1, 0), (1, 0)];
        let buffers: [&[u8]; 7] = [&[], bytes, &[], &[], &[5], &[], &[6]];
        let column = column_of(alloc, maps, &counts, &buffers);
        let AnyArray::Map(maps) = column.expect(&rt, "a column") else {
            unreachable!()
        };
        assert!(rt; maps.len() == 0 && maps.field().len() == 1);
    }
}

#[test]
fn offsets_of_one_slot_are_read(rt: HostRuntime) {
    let alloc = rt.alloc();
    let past = column_of(
        alloc,
        DataType::Utf8,
        &[(1, 0)],
        &[&[], &[0, 0, 0, 0, 3, 0, 0, 0], &[104, 105]],
    );
    assert!(rt; past.err() == Some(IpcReadError::OffsetPastChild));
    let short = column_of(
        alloc,
        DataType::Utf8,
        &[(1, 0)],
        &[&[], &[0, 0, 0, 0], &[104, 105]],
    );
    assert!(rt; short.err() == Some(IpcReadError::BufferTooShort));
}

// The offsets of strings of these bytes: two, two and one.
const OFFSETS: [u8; 16] = [0, 0, 0, 0, 2, 0, 0, 0, 4, 0, 0, 0, 5, 0, 0, 0];

#[test]
fn bytes_under_nulls_may_be_anything(rt: HostRuntime) {
    let alloc = rt.alloc();
    for under in [[255, 254], [195, 40], [104, 195], [105, 106]] {
        let bytes = [97, 98, under[0], under[1], 99];
        let column = column_of(alloc, DataType::Utf8, &[(3, 1)], &[&[5], &OFFSETS, &bytes]);
        let AnyArray::Utf8(strings) = column.expect(&rt, "a column") else {
            unreachable!()
        };
        assert!(rt; strings.len() == 3 && strings.null_count() == 1);
        assert!(rt; strings.value(0) == "ab" && strings.is_null(1) && strings.value(2) == "c");
    }
}

#[test]
fn bytes_of_valid_slots_are_utf8(rt: HostRuntime) {
    let alloc = rt.alloc();
    // a character whose second byte is in the next slot, too
    for (bits, bytes) in [
        (3, [97, 98, 255, 254, 99]),
        (6, [97, 98, 195, 40, 99]),
        (3, [97, 195, 169, 98, 99]),
    ] {
        let column = column_of(
            alloc,
            DataType::Utf8,
            &[(3, 1)],
            &[&[bits], &OFFSETS, &bytes],
        );
        assert!(rt; column.err() == Some(IpcReadError::Utf8));
    }
    // without nulls
    let column = column_of(
        alloc,
        DataType::Utf8,
        &[(3, 0)],
        &[&[], &OFFSETS, &[97, 98, 255, 254, 99]],
    );
    assert!(rt; column.err() == Some(IpcReadError::Utf8));
    // bytes of a binary array may be anything
    let column = column_of(
        alloc,
        DataType::Binary,
        &[(3, 0)],
        &[&[], &OFFSETS, &[97, 98, 255, 254, 99]],
    );
    assert!(rt; column.is_ok());
}

#[test]
fn nulls_without_validity(rt: HostRuntime) {
    let alloc = rt.alloc();
    let column = column_of(alloc, DataType::Int8, &[(2, 1)], &[&[], &[6, 7]]);
    assert!(rt; column.err() == Some(IpcReadError::BufferTooShort));
    let column = column_of(alloc, DataType::Int8, &[(2, 0)], &[&[], &[6, 7]]);
    assert!(rt; column.is_ok());
}
