//! A file of a dictionary of strings with deltas, with other blocks in its footer, with each of its bytes changed, and each of its prefixes: it is decoded,
//! by `read_file`, by a reader and by a reader of a stream alike.
//!
//! A file whose words grow: other blocks named, a delta without its flag, each prefix, and each byte changed.
use crate::dictionary_columns::{dictionary_of_strings, schema_of, single};
use crate::dictionary_model::unwritten;
use crate::files::{blocks_of, blocks_of_kind, file_with};
use crate::stream_text::{is_file_read, text_of_file};
use ipc::write_file;
use ipc_flatbuf::IpcReadError;
use ipc_flatbuf::message::MessageKind;
use ipc_schema::footer::Block;
use nest_memory::error::Error;
use std::alloc::Global;

// The words a and b, then c after them; the batches name b, and c and a.
fn delta(alloc: Global) -> Result<Vec<u8>, Error> {
    let mut batches = Vec::new(alloc);
    for (keys, letters) in [("1", "ab"), ("20", "abc")] {
        batches.push(single(alloc, dictionary_of_strings(alloc, keys, letters)?)?)?;
    }
    let schema = schema_of(alloc, &batches[0].columns)?;
    write_file(alloc, &schema, &batches).map_err(unwritten)
}

/// Which of the dictionaries and of the batches the footer names, and what the file is after its schema.
const NAMED: [(&[usize], &[usize], &str); 8] = [
    (
        &[0, 1],
        &[0, 1],
        "batch 1\nrow s62\nbatch 2\nrow s63\nrow s61\n",
    ),
    (
        &[0, 1],
        &[1, 0],
        "batch 2\nrow s63\nrow s61\nbatch 1\nrow s62\n",
    ),
    (&[0, 1, 1], &[1], "batch 2\nrow s63\nrow s61\n"),
    (&[0], &[0], "batch 1\nrow s62\n"),
    (&[0], &[0, 1], "error KeyRange\n"),
    (&[1, 0], &[0, 1], "error MissingDictionary\n"),
    (&[1], &[0], "error MissingDictionary\n"),
    (&[0, 1, 0], &[0], "error DuplicateDictionary\n"),
];

fn picked(alloc: Global, blocks: &[Block], indices: &[usize]) -> Result<Vec<Block>, IpcReadError> {
    let mut picked = Vec::new(alloc);
    for index in indices {
        picked.push(blocks[*index])?;
    }
    Ok(picked)
}

// What a file is, some of whose blocks its footer names.
fn named(
    alloc: Global,
    bytes: &[u8],
    dictionaries: &[usize],
    batches: &[usize],
) -> Result<String, IpcReadError> {
    let all = blocks_of(alloc, &bytes[8..])?;
    let last = all[all.len() - 1];
    let end = last.offset as usize + last.metadata_length as usize + last.body_length as usize;
    let stream = &bytes[8..end + 8];
    let batches = picked(alloc, &all, batches)?;
    let all = blocks_of_kind(alloc, stream, MessageKind::DictionaryBatch)?;
    let dictionaries = picked(alloc, &all, dictionaries)?;
    let file = file_with(alloc, stream, &dictionaries, &batches)?;
    if is_file_read(alloc, &file).is_none() {
        return String::from_str(alloc, "not read alike").map_err(|_| IpcReadError::Memory);
    }
    text_of_file(alloc, &file)
}

#[test]
fn other_blocks(rt: HostRuntime) {
    let alloc = rt.alloc();
    let bytes = delta(alloc).expect(&rt, "no file");
    for i in 0..NAMED.len() {
        let (dictionaries, batches, want) = NAMED[i];
        let text = named(alloc, &bytes, dictionaries, batches).expect(&rt, "no text");
        assert!(rt; text.ends_with(want), "case {i}: {text}");
    }
}

// At how many indices a byte of 0 returns a file this error.
fn places_of(alloc: Global, bytes: &mut [u8], failure: &str) -> Result<usize, IpcReadError> {
    let mut count = 0;
    for index in 0..bytes.len() {
        let old = bytes[index];
        bytes[index] = 0;
        if text_of_file(alloc, bytes)?.as_str() == failure {
            count += 1;
        }
        bytes[index] = old;
    }
    Ok(count)
}

// The flag of the delta, and where its table says that there is one.
#[test]
fn a_delta_without_its_flag(rt: HostRuntime) {
    let alloc = rt.alloc();
    let mut bytes = delta(alloc).expect(&rt, "no file");
    let count = places_of(alloc, &mut bytes, "error DuplicateDictionary\n").expect(
        &rt,
        "no results",
    );
    assert!(rt; count == 2, "{count}");
}

#[test]
fn each_beginning(rt: HostRuntime) {
    let alloc = rt.alloc();
    let bytes = delta(alloc).expect(&rt, "no file");
    for end in 0..bytes.len() {
        let read = is_file_read(alloc, &bytes[..end]);
        assert!(rt; read == Some(false), "up to {end}");
    }
}

// What a byte is changed to, by its index: 0, 255 or one more.
fn other_byte(index: usize, byte: u8) -> u8 {
    match index % 3 {
        0 => 0,
        1 => 255,
        _ => byte.wrapping_add(1),
    }
}

// Where a changed byte is not decoded.
fn unanswered(alloc: Global, quarter: usize) -> Result<Option<usize>, Error> {
    let mut bytes = delta(alloc)?;
    let count = bytes.len();
    for index in quarter * count / 4..(quarter + 1) * count / 4 {
        let old = bytes[index];
        bytes[index] = other_byte(index, old);
        if is_file_read(alloc, &bytes).is_none() {
            return Ok(Some(index));
        }
        bytes[index] = old;
    }
    Ok(None)
}

#[test]
fn each_byte_of_the_first_quarter_changed(rt: HostRuntime) {
    assert!(rt; unanswered(rt.alloc(), 0) == Ok(None));
}

#[test]
fn each_byte_of_the_second_quarter_changed(rt: HostRuntime) {
    assert!(rt; unanswered(rt.alloc(), 1) == Ok(None));
}

#[test]
fn each_byte_of_the_third_quarter_changed(rt: HostRuntime) {
    assert!(rt; unanswered(rt.alloc(), 2) == Ok(None));
}

#[test]
fn each_byte_of_the_last_quarter_changed(rt: HostRuntime) {
    assert!(rt; unanswered(rt.alloc(), 3) == Ok(None));
}
