//! Parses lines of text as rows.
ghost use Rattle.std.specs.Prelude.{◌≡◌, ℕ, ◌+◌, ◌<◌, ◌∷◌, ◌++◌, ◌==◌, [], false, All, MatchOption, option_map, map, IfOk, IfErr, OnOk, Ok, length};
ghost use Rattle.std.specs.Bool.{then_some};
ghost use Rattle.nest_memory.specs.TypeTree as types;
ghost use Rattle.listcut_rows.specs.Words.{IsComplete, IsReadError, builder_type, default_list_type, parsed_item, item_slot, parsed_items, item_total, layout_type, lines_of, own_slots, parsed_row, parsed_rows, slot_of_row, slots_of, tree_of};

use crate::error::ListcutError;
use crate::numbers::parse_number;
use memchr::memchr;
use nest_array::ListArray;
use nest_build::list::MutableListArray;
use nest_flat::primitive::mutable::MutablePrimitiveArray;
use nest_memory::error::Error;
use std::alloc::{AllocError, Global};

/// The items of a row, or `None` for a null row.
type Row<'a> = Option<&'a [Option<i64>]>;

/// A builder of lists of 64-bit integers with 32-bit offsets.
type RowsBuilder = MutableListArray<i32, MutablePrimitiveArray<i64>>;

/// Splits the bytes at the first `separator`; the second part is `None` if there is none.
fn split_at_byte(bytes: &[u8], separator: u8) -> (&[u8], Option<&[u8]>)
    ensures before { All (λ b. (b == separator) ≡ false) result.0.now }
    ensures complete { MatchOption result.1 (bytes.now ≡ result.0.now) (λ rest. bytes.now ≡ result.0.now ++ separator ∷ rest.now) }
{
    match memchr(separator, bytes) {
        Some(i) => (&bytes[..i], Some(&bytes[i + 1..])),
        None => (bytes, None),
    }
}

/// Parses an item: `null` or an integer.
fn parse_item(bytes: &[u8]) -> Option<Option<i64>>
    ensures { option_map item_slot result ≡ parsed_item bytes.now }
{
    if bytes == b"null".as_slice() {
        Some(None)
    } else {
        Some(Some(parse_number(bytes)?))
    }
}

/// Replaces `items` by the items that are parsed; returns false if the bytes are invalid.
fn parse_items(bytes: &[u8], items: &mut Vec<Option<i64>>) -> Result<bool, AllocError>
    ensures { IfOk result (λ complete. then_some complete (map item_slot items.new.items) ≡ parsed_items bytes.now) }
{
    items.clear();
    if bytes.is_empty() {
        return Ok(true);
    }
    let mut rest = Some(bytes);
    'items: while let Some(text) = rest {
        let (first, after) = split_at_byte(text, b',');
        let Some(item) = parse_item(first) else {
            return Ok(false);
        };
        items.push(item)?;
        rest = after;
    }
    Ok(true)
}

/// Parses a line as a row, whose items replace those in `items`; returns `None` if the line is invalid.
fn parse_row<'a>(
    line: &[u8],
    items: &'a mut Vec<Option<i64>>,
) -> Result<Option<Row<'a>>, AllocError>
    ensures { IfOk result (λ found. option_map slot_of_row found ≡ parsed_row line.now) }
{
    if line == b"null".as_slice() {
        return Ok(Some(None));
    }
    match line {
        [b'[', inside @ .., b']'] => {
            if parse_items(inside, items)? {
                Ok(Some(Some(items.as_slice())))
            } else {
                Ok(None)
            }
        }
        _ => Ok(None),
    }
}

/// Returns the first line and the bytes after it.
fn next_line(bytes: &[u8]) -> (&[u8], &[u8])
    requires { 0 < length bytes.now }
    ensures line { lines_of bytes.now ≡ result.0.now ∷ lines_of result.1.now }
    ensures less { length result.1.now < length bytes.now }
{
    let (line, after) = split_at_byte(bytes, b'\n');
    match after {
        Some(rest) => (line, rest),
        None => (line, &[]),
    }
}

/// Adds the rows that are parsed to an empty builder.
fn push_rows(alloc: Global, rows: &mut RowsBuilder, bytes: &[u8]) -> Result<(), ListcutError>
    requires complete { IsComplete (tree_of rows.old.data_type rows.old.rows rows.old.values) }
    requires no_rows { rows.old.rows ≡ [] }
    requires no_items { item_total (tree_of rows.old.data_type rows.old.rows rows.old.values) ≡ 0 }
    requires numbers { layout_type rows.old.values ≡ types.int64 }
    ensures rows { OnOk result (parsed_rows bytes.now ≡ Ok (own_slots (tree_of rows.new.data_type rows.new.rows rows.new.values))) }
    ensures complete { OnOk result (IsComplete (tree_of rows.new.data_type rows.new.rows rows.new.values)) }
    ensures same_type { OnOk result (builder_type (tree_of rows.new.data_type rows.new.rows rows.new.values) ≡ builder_type (tree_of rows.old.data_type rows.old.rows rows.old.values)) }
    ensures error { IfErr result (λ error. IsReadError error (parsed_rows bytes.now)) }
{
    let mut items = Vec::new(alloc);
    let mut above = 0u64;
    let mut rest = bytes;
    'lines: while !rest.is_empty() {
        let (line, after) = next_line(rest);
        let Some(row) = parse_row(line, &mut items)? else {
            return Err(ListcutError::Line(above + 1));
        };
        match rows.try_push_slice(row) {
            Ok(()) => {}
            Err(Error::Overflow) => return Err(ListcutError::Line(above + 1)),
            Err(_) => return Err(ListcutError::Memory),
        }
        above += 1;
        rest = after;
    }
    Ok(())
}

/// Parses lines as an array of type `List(Int64)`. A line feed ends each line; the last may lack it. A line is `null`, or items in
/// brackets separated by commas. An item is `null` or a 64-bit integer.
///
/// # Errors
/// - `Line(k)`: line `k`, from 1, is the first that is invalid or with which there are 2^31 items or more.
/// - `Memory`: an allocation fails.
pub fn read_rows(alloc: Global, bytes: &[u8]) -> Result<ListArray, ListcutError>
    ensures rows { IfOk result (λ a. parsed_rows bytes.now ≡ Ok (slots_of a)) }
    ensures same_type { IfOk result (λ a. layout_type a ≡ default_list_type types.int64) }
    ensures error { IfErr result (λ error. IsReadError error (parsed_rows bytes.now)) }
{
    let values: MutablePrimitiveArray<i64> = MutablePrimitiveArray::new(alloc);
    let Ok(mut rows) = MutableListArray::new(alloc, values) else {
        return Err(ListcutError::Memory);
    };
    if let Err(error) = push_rows(alloc, &mut rows, bytes) {
        drop(rows);
        return Err(error);
    }
    let array = rows.freeze();
    drop(rows);
    match array {
        Ok(array) => Ok(array),
        Err(_) => Err(ListcutError::Memory),
    }
}
