//! Formats rows and writes them.
ghost use Rattle.std.specs.Prelude.{◌≡◌, ℕ, ◌+◌, ◌<◌, ◌≤◌, ◌++◌, ◌∷◌, Some, map, OnOk, IfOk};
ghost use Rattle.std.specs.List.{join_with_byte};
ghost use Rattle.nest_memory.specs.TypeTree as types;
ghost use Rattle.listcut_rows.specs.Words.{Writes, sublist, item_slot, item_text, item_type, layout_type, len, row_text, slot, slots_of, rows_text};

use crate::error::ListcutError;
use crate::int64::numbers;
use itoa::Buffer;
use nest_array::ListArray;
use nest_flat::primitive::PrimitiveArray;
use std::alloc::{AllocError, Global};
use std::io::Write;

/// Appends the text of an item.
fn push_item(out: &mut Vec<u8>, item: Option<i64>) -> Result<(), AllocError>
    ensures { OnOk result (out.new.items ≡ out.old.items ++ item_text (item_slot item)) }
{
    match item {
        None => out.extend_from_slice(b"null"),
        Some(number) => {
            let mut buffer = Buffer::new();
            out.extend_from_slice(buffer.format(number).as_bytes())
        }
    }
}

/// Appends the text of `count` items from index `start`, separated by commas.
fn push_items(
    out: &mut Vec<u8>,
    items: &PrimitiveArray<i64>,
    start: usize,
    count: usize,
) -> Result<(), AllocError>
    requires { start + count ≤ len items.now }
    ensures { OnOk result (out.new.items ≡ out.old.items ++ join_with_byte 44 (map item_text (sublist (slots_of items.now) start count))) }
{
    let _end = items.len();
    for i in 0..count {
        if i > 0 {
            out.push(b',')?;
        }
        push_item(out, items.get(start + i))?;
    }
    Ok(())
}

/// Appends the text of a row.
fn push_row(out: &mut Vec<u8>, rows: &ListArray, i: usize) -> Result<(), AllocError>
    requires within { i < len rows.now }
    requires numbers { item_type (layout_type rows.now) ≡ Some types.int64 }
    ensures { OnOk result (out.new.items ≡ out.old.items ++ row_text (slot rows.now i)) }
{
    if rows.is_null(i) {
        return out.extend_from_slice(b"null");
    }
    out.push(b'[')?;
    rows.known();
    let row = rows.window(i);
    row.known();
    push_items(out, numbers(row.array()), row.offset(), row.len())?;
    out.push(b']')?;
    Ok(())
}

/// Returns the text of the rows.
fn format_rows(alloc: Global, rows: &ListArray) -> Result<Vec<u8>, AllocError>
    requires { item_type (layout_type rows.now) ≡ Some types.int64 }
    ensures { IfOk result (λ out. out.items ≡ rows_text (slots_of rows.now)) }
{
    let mut out = Vec::new(alloc);
    for i in 0..rows.len() {
        push_row(&mut out, rows, i)?;
        out.push(b'\n')?;
    }
    Ok(out)
}

/// Writes all bytes, or a prefix of them if an error occurs.
fn write_bytes<W: Write>(writer: &mut W, bytes: &[u8]) -> Result<(), ListcutError>
    ensures { Writes result (W.contents writer.old) (W.contents writer.new) bytes.now }
{
    let mut rest = bytes;
    'bytes: while !rest.is_empty() {
        match writer.write(rest) {
            Ok(0) | Err(_) => return Err(ListcutError::Output),
            Ok(n) => rest = &rest[n..],
        }
    }
    match writer.flush() {
        Ok(()) => Ok(()),
        Err(_) => Err(ListcutError::Output),
    }
}

/// Writes an array of lists of integers, a row a line, in the format of [`read_rows`](crate::input::read_rows). The text is complete
/// before any of it is written.
///
/// # Errors
/// - `Output`: a write or the flush fails, or a write accepts no byte; a prefix of the text was written.
/// - `Memory`: an allocation fails; nothing was written.
pub fn write_rows<W: Write>(
    alloc: Global,
    rows: &ListArray,
    writer: &mut W,
) -> Result<(), ListcutError>
    requires { item_type (layout_type rows.now) ≡ Some types.int64 }
    ensures { Writes result (W.contents writer.old) (W.contents writer.new) (rows_text (slots_of rows.now)) }
{
    let out = format_rows(alloc, rows)?;
    write_bytes(writer, &out)
}
