//! The words of flatbuffers by themselves.
//!
//! Each word of flatbuffers once.
use ipc_flatbuf::message::{MessageKind, read_root, write_message, write_root};
use ipc_flatbuf::{
    FlatbufferTable, IpcReadError, IpcWriteError, charge_budget, field_position, i16_at, i16_field,
    i32_at, i32_field, i64_at, i64_field, items_at, non_negative, offset_at, offset_field,
    read_string, read_table, read_vector, str_at, table_at, u8_at, u8_field, u16_at, u32_at, u64_at,
    write_each, write_i32, write_i64, write_offset, write_string, write_tables, write_u32,
    write_zeros,
};
use std::alloc::Global;

/// A vtable at 0, a table at 8 with an i32 and a byte, a string at 24.
const TABLE: [u8; 32] = [
    8, 0, 9, 0, 4, 0, 8, 0, 8, 0, 0, 0, 16, 0, 0, 0, 7, 0, 0, 0, 0, 0, 0, 0, 2, 0, 0, 0, 111, 107,
    0, 0,
];

#[test]
fn numbers(rt: HostRuntime) {
    let bytes = [1, 2, 3, 255, 5, 6, 7, 128];
    assert!(rt; u8_at(&bytes, 7) == Ok(128));
    assert!(rt; u8_at(&bytes, 8) == Err(IpcReadError::Flatbuffer));
    assert!(rt; u16_at(&bytes, 0) == Ok(513));
    assert!(rt; u32_at(&bytes, 4) == Ok(2147943941));
    assert!(rt; u64_at(&bytes, 0) == Ok(9225348984514740737));
    assert!(rt; i16_at(&bytes, 2) == Ok(-253));
    assert!(rt; i32_at(&bytes, 0) == Ok(-16580095));
    assert!(rt; i64_at(&bytes, 1) == Err(IpcReadError::Flatbuffer));
    assert!(rt; non_negative(IpcReadError::RowCount, -1) == Err(IpcReadError::RowCount));
    assert!(rt; non_negative(IpcReadError::RowCount, 5) == Ok(5));
}

#[test]
fn tables(rt: HostRuntime) {
    let table = FlatbufferTable {
        at: 8,
        vtable: 0,
        size: 8,
    };
    assert!(rt; table_at(&TABLE, 8) == Ok(table));
    assert!(rt; read_table(&TABLE, 8, 8) == Ok((table, 0)));
    assert!(rt; read_table(&TABLE, 8, 7) == Err(IpcReadError::ApparentSize));
    assert!(rt; field_position(&TABLE, table, 1) == Ok(Some(16)));
    assert!(rt; field_position(&TABLE, table, 2) == Ok(None));
    assert!(rt; u8_field(&TABLE, table, 1) == Ok(7));
    assert!(rt; i16_field(&TABLE, table, 0, 3) == Ok(16));
    assert!(rt; i32_field(&TABLE, table, 2, 3) == Ok(3));
    assert!(rt; i64_field(&TABLE, table, 2, 4) == Ok(4));
    assert!(rt; offset_field(&TABLE, table, 0) == Ok(Some(28)));
    assert!(rt; offset_at(&TABLE, 8) == Ok(16));
    assert!(rt; charge_budget(3, 4) == Err(IpcReadError::ApparentSize));
}

#[test]
fn vectors(rt: HostRuntime) {
    let (text, left) = read_string(&TABLE, 24, 100).expect(&rt, "no string");
    assert!(rt; text == "ok");
    assert!(rt; left == 94);
    let (text, _) = str_at(&TABLE, None, 0).expect(&rt, "no text");
    assert!(rt; text == "");
    let (text, _) = str_at(&TABLE, Some(24), 100).expect(&rt, "no text");
    assert!(rt; text == "ok");
    let (items, left) = read_vector(1, &TABLE, 24, 100).expect(&rt, "no vector");
    assert!(rt; items.first == 28);
    assert!(rt; items.count == 2);
    assert!(rt; left == 94);
    assert!(rt; read_vector(4, &TABLE, 24, 100) == Err(IpcReadError::Flatbuffer));
    let (items, _) = items_at(4, &TABLE, None, 0).expect(&rt, "no items");
    assert!(rt; items.count == 0);
}

/// A row of one table, whose body is eight bytes.
fn row(alloc: Global) -> Result<Vec<u8>, IpcWriteError> {
    let mut body = Vec::new(alloc);
    write_i64(&mut body, -1)?;
    let mut bodies = Vec::new(alloc);
    bodies.push(body)?;
    let mut out = Vec::new(alloc);
    write_tables(&mut out, 4, &bodies)?;
    write_each(&mut out, &bodies)?;
    Ok(out)
}

/// Numbers, zeros and a string.
fn parts(alloc: Global) -> Result<Vec<u8>, IpcWriteError> {
    let mut out = Vec::new(alloc);
    write_zeros(&mut out, 4)?;
    write_i32(&mut out, -3)?;
    write_u32(&mut out, 4)?;
    write_offset(&mut out, 8, 4)?;
    write_string(&mut out, "ok")?;
    Ok(out)
}

#[test]
fn written(rt: HostRuntime) {
    let alloc = rt.alloc();
    let row = row(alloc).expect(&rt, "no row");
    assert!(rt; row.len() == 24);
    assert!(rt; row[0] == 1);
    assert!(rt; row[4] == 8);
    assert!(rt; row[8] == 255);
    let parts = parts(alloc).expect(&rt, "no parts");
    assert!(rt; i32_at(&parts, 4) == Ok(-3));
    assert!(rt; u32_at(&parts, 8) == Ok(4));
    assert!(rt; offset_at(&parts, 12) == Ok(24));
    assert!(rt; parts.len() == 24);
    let mut metadata = Vec::new(alloc);
    assert!(rt; write_root(&mut metadata, MessageKind::DictionaryBatch, 8, 0, &TABLE).is_ok());
    let root = read_root(&metadata).expect(&rt, "no root");
    assert!(rt; root.kind == MessageKind::DictionaryBatch);
    assert!(rt; root.header == 48);
    assert!(rt; root.body_length == 8);
    let mut message = Vec::new(alloc);
    assert!(rt; write_message(alloc, &mut message, MessageKind::Schema, 0, 8, &TABLE).is_ok());
    assert!(rt; message.len() == 88);
}
