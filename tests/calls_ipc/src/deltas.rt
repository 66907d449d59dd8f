//! Delta dictionaries by deltas, message by message: words by keys, and records of them by keys.
//!
//! Delta dictionaries by deltas, in streams and files: words, records of words, nulls, none, words again inside of records;
//! each prefix, and each byte changed.
use crate::delta_messages::{file_of, put_delta, put_end, put_keys, put_values};
use crate::dictionary_columns::{dictionary_of_strings, keyed, record, schema_of, single, words};
use crate::dictionary_model::{unread, unwritten};
use crate::stream_text::{is_file_read, is_read, text_of_file, text_of_stream};
use ipc_schema::write_schema_with_dictionaries;
use nest_array::any::AnyArray;
use nest_memory::error::Error;
use std::alloc::Global;

// A stream by steps, of one column: words by keys.
//
// | Step | What is put |
// |---|---|
// | `=ab` | the words are a and b |
// | `+c` | the word c after them |
// | `0-` | a batch of the first word and a null |
fn stream_of_strings(alloc: Global, steps: &[&str]) -> Result<Vec<u8>, Error> {
    let column = dictionary_of_strings(alloc, "", "")?;
    let schema = schema_of(alloc, std::slice::from_ref(&column))?;
    let mut out = write_schema_with_dictionaries(alloc, &schema).map_err(unwritten)?;
    for step in steps {
        let letters = &step[1..];
        match step.as_bytes()[0] {
            b'=' => put_values(alloc, &mut out, 0, &words(alloc, letters)?).map_err(unwritten)?,
            b'+' => put_delta(alloc, &mut out, 0, &words(alloc, letters)?).map_err(unwritten)?,
            _ => {
                let column = dictionary_of_strings(alloc, step, "abcdefgh")?;
                put_keys(alloc, &mut out, &single(alloc, column)?).map_err(unwritten)?;
            }
        }
    }
    put_end(&mut out).map_err(unwritten)?;
    Ok(out)
}

// A stream by steps, of one column: records of words by keys, by keys.
//
// | Step | What is put |
// |---|---|
// | `=ab`, `+c` | the words, and more of them |
// | `#01` | the records of these keys of words |
// | `&2` | more records |
// | `0-` | a batch of records |
fn stream_of_records(alloc: Global, steps: &[&str]) -> Result<Vec<u8>, Error> {
    let none = record(
        alloc,
        vec![in alloc; dictionary_of_strings(alloc, "", "")?]?,
    )?;
    let column = keyed(alloc, "", none)?;
    let schema = schema_of(alloc, std::slice::from_ref(&column))?;
    let mut out = write_schema_with_dictionaries(alloc, &schema).map_err(unwritten)?;
    for step in steps {
        put_step(alloc, &mut out, step)?;
    }
    put_end(&mut out).map_err(unwritten)?;
    Ok(out)
}

// So many records that are not viewed at, but for their type.
fn records(alloc: Global, keys: &str) -> Result<AnyArray, Error> {
    record(
        alloc,
        vec![in alloc; dictionary_of_strings(alloc, keys, "abcdefghi")?]?,
    )
}

fn put_step(alloc: Global, out: &mut Vec<u8>, step: &str) -> Result<(), Error> {
    let rest = &step[1..];
    match step.as_bytes()[0] {
        b'=' => put_values(alloc, out, 1, &words(alloc, rest)?).map_err(unwritten),
        b'+' => put_delta(alloc, out, 1, &words(alloc, rest)?).map_err(unwritten),
        b'#' => put_values(alloc, out, 0, &records(alloc, rest)?).map_err(unwritten),
        b'&' => put_delta(alloc, out, 0, &records(alloc, rest)?).map_err(unwritten),
        _ => {
            let column = keyed(alloc, step, records(alloc, "01234567")?)?;
            put_keys(alloc, out, &single(alloc, column)?).map_err(unwritten)
        }
    }
}

// What a stream and its file are, after their schema.
fn results(alloc: Global, stream: &[u8]) -> Result<(String, String), Error> {
    let text = text_of_stream(alloc, stream).map_err(unread)?;
    let file = file_of(alloc, stream).map_err(unread)?;
    let of_file = text_of_file(alloc, &file).map_err(unread)?;
    let alike = is_read(alloc, stream).is_some() && is_file_read(alloc, &file).is_some();
    if !alike {
        return Err(Error::NotYetImplemented);
    }
    Ok((rows_of(alloc, &text)?, rows_of(alloc, &of_file)?))
}

fn rows_of(alloc: Global, text: &str) -> Result<String, Error> {
    let rows = match text.find("batch") {
        None => text,
        Some(index) => &text[index..],
    };
    Ok(String::from_str(alloc, rows)?)
}

const MISSING: &str = "error MissingDictionary\n";

const DELTA: &str = "error Delta\n";

const REPLACED: &str = "error DuplicateDictionary\n";

const KEY: &str = "error KeyRange\n";

/// Steps, and what the stream and the file of them are.
const OF_WORDS: [(&[&str], &str, &str); 9] = [
    (
        &["=ab", "01", "+c", "20-"],
        "batch 2\nrow s61\nrow s62\nbatch 3\nrow s63\nrow s61\nrow N\n",
        "batch 2\nrow s61\nrow s62\nbatch 3\nrow s63\nrow s61\nrow N\n",
    ),
    (
        &["=a", "+-b", "+", "+c", "0123"],
        "batch 4\nrow s61\nrow N\nrow s62\nrow s63\n",
        "batch 4\nrow s61\nrow N\nrow s62\nrow s63\n",
    ),
    (
        &["=", "+a", "0"],
        "batch 1\nrow s61\n",
        "batch 1\nrow s61\n",
    ),
    // A batch of a stream has no word that comes after it; one of a file has all of them.
    (&["=a", "1", "+b"], KEY, "batch 1\nrow s62\n"),
    (&["+a", "0"], MISSING, MISSING),
    (
        &["=a", "0", "=b", "+c", "01"],
        "batch 1\nrow s61\nbatch 2\nrow s62\nrow s63\n",
        REPLACED,
    ),
    (&["=a", "+b", "=c", "1"], KEY, REPLACED),
    (
        &["=a", "+b", "=c", "0", "+d", "01"],
        "batch 1\nrow s63\nbatch 2\nrow s63\nrow s64\n",
        REPLACED,
    ),
    (&["0", "=a", "+b"], MISSING, "batch 1\nrow s61\n"),
];

/// The same of records.
const OF_RECORDS: [(&[&str], &str, &str); 8] = [
    (
        &["=ab", "#01", "01", "&1-", "123"],
        "batch 2\nrow {s61,}\nrow {s62,}\nbatch 3\nrow {s62,}\nrow {s62,}\nrow {N,}\n",
        "batch 2\nrow {s61,}\nrow {s62,}\nbatch 3\nrow {s62,}\nrow {s62,}\nrow {N,}\n",
    ),
    // Keys of records name words as they are then, and words that come after those change nothing.
    (
        &["=ab", "#01", "+c", "&20", "0123", "+d", "&3", "01234"],
        "batch 4\nrow {s61,}\nrow {s62,}\nrow {s63,}\nrow {s61,}\nbatch 5\nrow {s61,}\nrow {s62,}\nrow {s63,}\nrow {s61,}\nrow {s64,}\n",
        "batch 4\nrow {s61,}\nrow {s62,}\nrow {s63,}\nrow {s61,}\nbatch 5\nrow {s61,}\nrow {s62,}\nrow {s63,}\nrow {s61,}\nrow {s64,}\n",
    ),
    // Words again: the records are what they were, but no others are after them.
    (&["=ab", "#01", "=cd", "01", "&1"], DELTA, REPLACED),
    (
        &["=ab", "#01", "=cd", "01"],
        "batch 2\nrow {s61,}\nrow {s62,}\n",
        REPLACED,
    ),
    (&["=ab", "#01", "=cd", "+e", "&1"], DELTA, REPLACED),
    (
        &["=ab", "#01", "=cd", "#1", "&0", "01"],
        "batch 2\nrow {s64,}\nrow {s63,}\n",
        REPLACED,
    ),
    // Records again leave the words as they were.
    (
        &["=ab", "#01", "#10", "+c", "&2", "012"],
        "batch 3\nrow {s62,}\nrow {s61,}\nrow {s63,}\n",
        REPLACED,
    ),
    // The first error in the order of reading: what the records' keys name.
    (&["=ab", "#01", "=c", "&1"], KEY, REPLACED),
];

#[test]
fn strings_after_others(rt: HostRuntime) {
    let alloc = rt.alloc();
    for i in 0..OF_WORDS.len() {
        let (steps, stream, file) = OF_WORDS[i];
        let bytes = stream_of_strings(alloc, steps).expect(&rt, "no stream");
        let (one, other) = results(alloc, &bytes).expect(&rt, "no results");
        assert!(rt; one.as_str() == stream, "case {i}: {one}");
        assert!(rt; other.as_str() == file, "case {i}: {other}");
    }
}

#[test]
fn records_after_others(rt: HostRuntime) {
    let alloc = rt.alloc();
    for i in 0..OF_RECORDS.len() {
        let (steps, stream, file) = OF_RECORDS[i];
        let bytes = stream_of_records(alloc, steps).expect(&rt, "no stream");
        let (one, other) = results(alloc, &bytes).expect(&rt, "no results");
        assert!(rt; one.as_str() == stream, "case {i}: {one}");
        assert!(rt; other.as_str() == file, "case {i}: {other}");
    }
}

#[test]
fn each_beginning(rt: HostRuntime) {
    let alloc = rt.alloc();
    let stream = stream_of_strings(alloc, &["=ab", "01", "+c", "20-"]).expect(&rt, "no stream");
    let mut count = 0;
    for end in 0..stream.len() {
        let read = is_read(alloc, &stream[..end]);
        assert!(rt; read.is_some(), "up to {end}");
        if read == Some(true) {
            count += 1;
        }
    }
    // After each of the five messages.
    assert!(rt; count == 5, "{count}");
}

#[test]
fn each_byte_changed(rt: HostRuntime) {
    let alloc = rt.alloc();
    let mut stream = stream_of_strings(alloc, &["=a", "+b", "1"]).expect(&rt, "no stream");
    for index in 0..stream.len() {
        let byte = stream[index];
        for other in [byte.wrapping_add(1), 255] {
            stream[index] = other;
            assert!(rt; is_read(alloc, &stream).is_some(), "{other} at {index}");
        }
        stream[index] = byte;
    }
}
