//! Columns by dictionaries that are written, each form of them once, and round-trip: the messages of both forms, and what another
//! program has, written again; each prefix of what is written, and each of its bytes changed.
//!
//! Columns by dictionaries are written and round-trip in both forms: keys of each width, nulls, slices, values that no key
//! names, inside of others and of values, ids in pre-order; streams and files of another implementation are written again; each
//! beginning of what is written, and each byte changed.
use crate::dictionary_columns::{
    batch, by, dictionary_of_strings, keyed, list, map, record, schema_of, single, union, words,
};
use crate::dictionary_model::{are_written, is_written, model_of, unread, unwritten, written};
use crate::samples::{READ_DICTIONARIES, READ_DICTIONARY_FILES, Sample};
use crate::samples_read::bytes_of;
use crate::stream_text::{
    is_file_read, is_read, put_parts, read_alike, text_of_file, text_of_stream,
};
use ipc::{Batch, read_file, read_stream, write_file, write_stream};
use ipc_flatbuf::{IpcReadError, IpcWriteError};
use ipc_schema::Schema;
use nest_array::any::AnyArray;
use nest_memory::datatypes::IntegerType;
use nest_memory::error::Error;
use std::alloc::Global;

const KEYS: [IntegerType; 8] = [
    IntegerType::Int8,
    IntegerType::Int16,
    IntegerType::Int32,
    IntegerType::Int64,
    IntegerType::UInt8,
    IntegerType::UInt16,
    IntegerType::UInt32,
    IntegerType::UInt64,
];

// Whether a batch of columns is written as these messages, and round-trip.
fn is_batch(alloc: Global, columns: Vec<AnyArray>, messages: &str) -> Result<bool, Error> {
    let schema = schema_of(alloc, &columns)?;
    let batches = [batch(columns)];
    are_written(alloc, &schema, &batches, messages, Some(messages))
}

fn is_column(alloc: Global, column: AnyArray, messages: &str) -> Result<bool, Error> {
    is_batch(alloc, vec![in alloc; column]?, messages)
}

fn of_width(alloc: Global, key: IntegerType) -> Result<bool, Error> {
    let all = is_column(
        alloc,
        by(alloc, key, "0120", words(alloc, "abc")?)?,
        "s d0 b4 ",
    )?;
    let nulls = by(alloc, key, "-1-0", words(alloc, "abc")?)?;
    let cut = by(alloc, key, "-1-02", words(alloc, "abc")?)?.sliced(1, 3);
    Ok(all && is_column(alloc, nulls, "s d0 b4 ")? && is_column(alloc, cut, "s d0 b3 ")?)
}

#[test]
fn dictionary_strings_of_each_key_width(rt: HostRuntime) {
    for key in KEYS {
        assert!(rt; of_width(rt.alloc(), key) == Ok(true), "{key:?}");
    }
}

/// Words by keys: which keys, which words, which messages.
const WORDS: [(&str, &str, &str); 9] = [
    ("0120", "abc", "s d0 b4 "),
    ("-0-", "a", "s d0 b3 "),
    ("--", "a", "s d0 b2 "),
    ("--", "", "s d0 b2 "),
    ("", "", "s d0 b0 "),
    ("", "ab", "s d0 b0 "),
    ("4", "abcde", "s d0 b1 "),
    ("0123", "a-b-", "s d0 b4 "),
    ("0123", "aabb", "s d0 b4 "),
];

#[test]
fn dictionary_strings(rt: HostRuntime) {
    let alloc = rt.alloc();
    for (keys, letters, messages) in WORDS {
        let column = dictionary_of_strings(alloc, keys, letters).expect(&rt, "no column");
        assert!(rt;
            is_column(alloc, column, messages) == Ok(true),
            "{keys} of {letters}"
        );
    }
}

// Values that are a slice of more.
fn values_of_a_slice(alloc: Global) -> Result<AnyArray, Error> {
    keyed(alloc, "10-", words(alloc, "xab-y")?.sliced(1, 3))
}

fn two(alloc: Global, one: AnyArray, other: AnyArray) -> Result<Vec<AnyArray>, Error> {
    Ok(vec![in alloc; one, other]?)
}

fn two_dictionary(alloc: Global) -> Result<Vec<AnyArray>, Error> {
    two(
        alloc,
        dictionary_of_strings(alloc, "01-", "ab")?,
        dictionary_of_strings(alloc, "210", "cde")?,
    )
}

fn in_lists(alloc: Global) -> Result<AnyArray, Error> {
    list(
        alloc,
        &[0, 2, 2, 3],
        dictionary_of_strings(alloc, "01-", "ab")?,
    )
}

fn in_a_slice_of_lists(alloc: Global) -> Result<AnyArray, Error> {
    Ok(in_lists(alloc)?.sliced(1, 2))
}

fn in_records(alloc: Global) -> Result<AnyArray, Error> {
    record(alloc, two_dictionary(alloc)?)
}

fn in_maps(alloc: Global) -> Result<AnyArray, Error> {
    map(alloc, &[0, 1, 3], in_records(alloc)?)
}

fn in_unions(alloc: Global) -> Result<AnyArray, Error> {
    union(alloc, &[1, 0, 1], two_dictionary(alloc)?)
}

fn of_records(alloc: Global) -> Result<AnyArray, Error> {
    keyed(alloc, "2-01", in_records(alloc)?)
}

fn of_lists(alloc: Global) -> Result<AnyArray, Error> {
    keyed(alloc, "2-01", in_lists(alloc)?)
}

fn of_lists_of_those(alloc: Global) -> Result<AnyArray, Error> {
    by(
        alloc,
        IntegerType::UInt32,
        "10",
        list(alloc, &[0, 3, 4], of_lists(alloc)?)?,
    )
}

fn of_unions_in_lists(alloc: Global) -> Result<AnyArray, Error> {
    list(alloc, &[0, 2], keyed(alloc, "21", in_unions(alloc)?)?)
}

#[test]
fn inside_of_others_and_of_values(rt: HostRuntime) {
    let alloc = rt.alloc();
    let cases: [(fn(Global) -> Result<AnyArray, Error>, &str); 10] = [
        (values_of_a_slice, "s d0 b3 "),
        (in_lists, "s d0 b3 "),
        (in_a_slice_of_lists, "s d0 b2 "),
        (in_records, "s d0 d1 b3 "),
        (in_maps, "s d0 d1 b2 "),
        (in_unions, "s d0 d1 b3 "),
        (of_records, "s d1 d2 d0 b4 "),
        (of_lists, "s d1 d0 b4 "),
        (of_lists_of_those, "s d2 d1 d0 b2 "),
        (of_unions_in_lists, "s d1 d2 d0 b1 "),
    ];
    let mut i = 0;
    for (make, messages) in cases {
        let column = make(alloc).expect(&rt, "no column");
        assert!(rt; is_column(alloc, column, messages) == Ok(true), "case {i}");
        i += 1;
    }
}

// Two columns of one array of values: each has an id.
fn of_one_array(alloc: Global) -> Result<Vec<AnyArray>, Error> {
    let values = words(alloc, "abc")?;
    let other = keyed(alloc, "210", values.clone(alloc)?)?;
    two(alloc, keyed(alloc, "012", values)?, other)
}

// Records by keys in the first column, and words without keys between it and the last.
fn of_three(alloc: Global) -> Result<Vec<AnyArray>, Error> {
    let last = dictionary_of_strings(alloc, "000", "z")?;
    Ok(vec![in alloc; of_records(alloc)?.sliced(0, 3), words(alloc, "abc")?, last]?)
}

#[test]
fn ids_of_several_columns_are_in_pre_order(rt: HostRuntime) {
    let alloc = rt.alloc();
    let one = of_one_array(alloc).expect(&rt, "no columns");
    assert!(rt; is_batch(alloc, one, "s d0 d1 b3 ") == Ok(true));
    let three = of_three(alloc).expect(&rt, "no columns");
    assert!(rt; is_batch(alloc, three, "s d1 d2 d0 d3 b3 ") == Ok(true));
}

// Whether what another implementation has is written again in both forms, as the model has it, and says the same.
fn is_again(
    alloc: Global,
    results: &str,
    schema: &Schema,
    batches: &[Batch],
) -> Result<bool, Error> {
    let model = model_of(alloc, batches)?;
    let found = written(alloc, schema, batches)?;
    let stream = write_stream(alloc, schema, batches).map_err(unwritten)?;
    let text = text_of_stream(alloc, &stream).map_err(unread)?;
    if text.as_str() != results || !is_written(&found, model.stream.as_str(), model.file()) {
        return Ok(false);
    }
    match write_file(alloc, schema, batches) {
        Err(why) => Ok(model.replaces && why == IpcWriteError::DictionaryReplacement),
        Ok(file) => Ok(text_of_file(alloc, &file).map_err(unread)?.as_str() == results),
    }
}

fn is_stream_again(alloc: Global, sample: &Sample) -> Result<bool, Error> {
    let bytes = bytes_of(alloc, sample).map_err(unread)?;
    let stream = read_stream(alloc, &bytes).map_err(unread)?;
    is_again(alloc, sample.text, &stream.schema, &stream.batches)
}

fn is_file_again(alloc: Global, sample: &Sample) -> Result<bool, Error> {
    let bytes = bytes_of(alloc, sample).map_err(unread)?;
    let file = read_file(alloc, &bytes).map_err(unread)?;
    is_again(alloc, sample.text, &file.schema, &file.batches)
}

#[test]
fn what_another_program_has_is_written_again(rt: HostRuntime) {
    let alloc = rt.alloc();
    let mut count = 0;
    for sample in &READ_DICTIONARIES {
        assert!(rt;
            is_stream_again(alloc, sample) == Ok(true),
            "{}",
            sample.name
        );
        count += 1;
    }
    for sample in &READ_DICTIONARY_FILES {
        assert!(rt; is_file_again(alloc, sample) == Ok(true), "{}", sample.name);
        count += 1;
    }
    assert!(rt; count == 17);
}

// Records by keys, whose words change in the second of two batches.
fn two_batches(alloc: Global, letters: &str) -> Result<(Schema, Vec<Batch>), Error> {
    let mut batches = Vec::new(alloc);
    for letters in ["ab", letters] {
        let inner = record(
            alloc,
            vec![in alloc; dictionary_of_strings(alloc, "1-", letters)?]?,
        )?;
        batches.push(single(alloc, keyed(alloc, "01", inner)?)?)?;
    }
    let schema = schema_of(alloc, &batches[0].columns)?;
    Ok((schema, batches))
}

fn stream_of_two(alloc: Global) -> Result<Vec<u8>, Error> {
    let (schema, batches) = two_batches(alloc, "cd")?;
    write_stream(alloc, &schema, &batches).map_err(unwritten)
}

fn file_of_two(alloc: Global) -> Result<Vec<u8>, Error> {
    let (schema, batches) = two_batches(alloc, "ab")?;
    write_file(alloc, &schema, &batches).map_err(unwritten)
}

#[test]
fn each_beginning_of_a_stream(rt: HostRuntime) {
    let alloc = rt.alloc();
    let bytes = stream_of_two(alloc).expect(&rt, "no stream");
    let mut count = 0;
    for end in 0..bytes.len() {
        let read = is_read(alloc, &bytes[..end]);
        assert!(rt; read.is_some(), "up to {end}");
        if read == Some(true) {
            count += 1;
        }
    }
    // After each of the seven messages.
    assert!(rt; count == 7, "{count}");
}

#[test]
fn each_beginning_of_a_file(rt: HostRuntime) {
    let alloc = rt.alloc();
    let bytes = file_of_two(alloc).expect(&rt, "no file");
    for end in 0..bytes.len() {
        assert!(rt;
            is_file_read(alloc, &bytes[..end]) == Some(false),
            "up to {end}"
        );
    }
}

// Whether what is read of bytes, if anything is, is written and round-trip, or has a reason not to be written.
fn is_decoded(alloc: Global, bytes: &[u8]) -> Result<bool, IpcReadError> {
    let Some(read) = read_alike(alloc, bytes) else {
        return Ok(false);
    };
    let Ok(stream) = read else {
        return Ok(true);
    };
    match write_stream(alloc, &stream.schema, &stream.batches) {
        Err(why) => Ok(why != IpcWriteError::Memory),
        Ok(again) => {
            let mut text = String::new(alloc);
            put_parts(&mut text, &stream.schema, &stream.batches)?;
            Ok(text.as_str() == text_of_stream(alloc, &again)?.as_str())
        }
    }
}

// What a byte is changed to: 255 at an even index, one more at an odd one.
fn other_byte(index: usize, byte: u8) -> u8 {
    if index % 2 == 0 {
        255
    } else {
        byte.wrapping_add(1)
    }
}

// Where a changed byte is not decoded.
fn unanswered(alloc: Global, bytes: &mut [u8], from: usize, to: usize) -> Option<usize> {
    for index in from..to {
        let old = bytes[index];
        bytes[index] = other_byte(index, old);
        if is_decoded(alloc, bytes) != Ok(true) {
            return Some(index);
        }
        bytes[index] = old;
    }
    None
}

// The same of a sixth of the stream: a test has a minute.
fn unanswered_in(alloc: Global, sixth: usize) -> Result<Option<usize>, Error> {
    let mut bytes = stream_of_two(alloc)?;
    let count = bytes.len();
    Ok(unanswered(
        alloc,
        &mut bytes,
        sixth * count / 6,
        (sixth + 1) * count / 6,
    ))
}

#[test]
fn each_byte_of_the_first_sixth_changed(rt: HostRuntime) {
    assert!(rt; unanswered_in(rt.alloc(), 0) == Ok(None));
}

#[test]
fn each_byte_of_the_second_sixth_changed(rt: HostRuntime) {
    assert!(rt; unanswered_in(rt.alloc(), 1) == Ok(None));
}

#[test]
fn each_byte_of_the_third_sixth_changed(rt: HostRuntime) {
    assert!(rt; unanswered_in(rt.alloc(), 2) == Ok(None));
}

#[test]
fn each_byte_of_the_fourth_sixth_changed(rt: HostRuntime) {
    assert!(rt; unanswered_in(rt.alloc(), 3) == Ok(None));
}

#[test]
fn each_byte_of_the_fifth_sixth_changed(rt: HostRuntime) {
    assert!(rt; unanswered_in(rt.alloc(), 4) == Ok(None));
}

#[test]
fn each_byte_of_the_last_sixth_changed(rt: HostRuntime) {
    assert!(rt; unanswered_in(rt.alloc(), 5) == Ok(None));
}

// The same of a file that is read alike by both readers.
fn unread_byte(alloc: Global, bytes: &mut [u8], from: usize, to: usize) -> Option<usize> {
    for index in from..to {
        let old = bytes[index];
        bytes[index] = other_byte(index, old);
        if is_file_read(alloc, bytes).is_none() {
            return Some(index);
        }
        bytes[index] = old;
    }
    None
}

#[test]
fn each_byte_of_a_file_changed(rt: HostRuntime) {
    let mut bytes = file_of_two(rt.alloc()).expect(&rt, "no file");
    let end = bytes.len() / 4;
    let index = unread_byte(rt.alloc(), &mut bytes, 0, end);
    assert!(rt; index.is_none(), "{index:?}");
}

#[test]
fn each_byte_of_the_middle_of_a_file_changed(rt: HostRuntime) {
    let mut bytes = file_of_two(rt.alloc()).expect(&rt, "no file");
    let (from, to) = (bytes.len() / 4, bytes.len() / 2);
    let index = unread_byte(rt.alloc(), &mut bytes, from, to);
    assert!(rt; index.is_none(), "{index:?}");
}

#[test]
fn each_byte_of_the_end_of_a_file_changed(rt: HostRuntime) {
    let mut bytes = file_of_two(rt.alloc()).expect(&rt, "no file");
    let (from, to) = (bytes.len() / 2, bytes.len());
    let index = unread_byte(rt.alloc(), &mut bytes, from, to);
    assert!(rt; index.is_none(), "{index:?}");
}
