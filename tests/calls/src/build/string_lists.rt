//! Lists of strings.

use nest_array::{AnyArray, ListArray};
use nest_build::array::MutableArray;
use nest_build::list::MutableListArray;
use nest_build::push::TryPush;
use nest_flat::utf8::Utf8Array;
use nest_flat::utf8::mutable::MutableUtf8Array;
use nest_memory::error::{ArgumentError, Error};
use std::alloc::Global;

type Lists = MutableListArray<i32, MutableUtf8Array<i32>>;

fn no_lists(alloc: Global) -> Result<Lists, Error> {
    let texts = MutableUtf8Array::new(alloc)?;
    MutableListArray::new(alloc, texts)
}

const WORDS: [Option<&'static str>; 3] = [Some("a"), None, Some("bc")];

fn push_row(rows: &mut Lists, row: Option<&[Option<&'static str>]>) -> Result<(), Error> {
    if !rows.is_complete() {
        return Err(Error::InvalidArgumentError(ArgumentError::Incomplete));
    }
    rows.try_push(row.map(|items| items.iter().copied()))
}

/// Adds the row ["a", null, "bc"], then a null row.
fn push_rows(rows: &mut Lists) -> Result<(), Error> {
    push_row(rows, Some(WORDS.as_slice()))?;
    push_row(rows, None)
}

/// Whether its rows end at these offsets, and its strings are at these bytes.
fn is_at(array: &ListArray, offsets: &[i32], bytes: &[u8]) -> bool {
    let AnyArray::Utf8(texts) = array.values() else {
        return false;
    };
    array.offsets().as_slice() == offsets && Utf8Array::values(texts).as_slice() == bytes
}

/// The same of an array that was made; it is dropped.
fn made_at(array: Result<ListArray, Error>, offsets: &[i32], bytes: &[u8]) -> bool {
    match array {
        Err(_) => false,
        Ok(array) => {
            let same = is_at(&array, offsets, bytes);
            drop(array);
            same
        }
    }
}

/// A list of strings is frozen to its offsets and its bytes.
#[test]
fn lists_of_strings_are_frozen(rt: HostRuntime) {
    let mut rows = no_lists(rt.alloc()).expect(&rt, "no row");
    let pushed = push_rows(&mut rows);
    let count = rows.len();
    let made = made_at(rows.freeze(), [0i32, 3, 3].as_slice(), b"abc");
    let empty = rows.is_complete() && rows.is_empty();
    assert!(rt; pushed == Ok(()));
    assert!(rt; count == 2);
    assert!(rt; made);
    assert!(rt; empty);
}
