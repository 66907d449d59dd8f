//! Several batches with dictionaries: which dictionaries come again, what a file has of them, and which files are rejected.
//!
//! Dictionaries of several batches: the same, equal, delta and changed ones, inner and outer; which come again in a stream,
//! what a file has of them, and which is rejected; a batch at a time, and after a error.
use crate::dictionary_columns::{
    batch, by, dictionary_of_strings, keyed, record, schema_of, single, words,
};
use crate::dictionary_model::{are_written, messages_of, unread, unwritten};
use ipc::dictionaries::{DictionaryBatch, any_replaced, dictionary_batches, record_emitted};
use ipc::{
    Batch, DictionaryState, FileBlocks, append_stream_batch, encode_file_batch,
    encode_stream_batch, write_file, write_stream,
};
use ipc_flatbuf::IpcWriteError;
use ipc_schema::footer::write_footer;
use ipc_schema::{Schema, write_schema_with_dictionaries};
use nest_array::any::AnyArray;
use nest_memory::datatypes::IntegerType;
use nest_memory::error::Error;
use std::alloc::Global;
use std::collections::BTreeMap;

// Whether batches, at least one, are written as these messages of a stream and of a file.
fn are_batches(
    alloc: Global,
    batches: &[Batch],
    stream: &str,
    file: Option<&str>,
) -> Result<bool, Error> {
    let schema = schema_of(alloc, &batches[0].columns)?;
    are_written(alloc, &schema, batches, stream, file)
}

/// Batches of words by keys: the keys and the words of each; the messages of the stream, and of the file, if there is one.
#[derive(Drop)]
struct Run {
    steps: &'static [(&'static str, &'static str)],
    stream: &'static str,
    file: Option<&'static str>,
}

/// All arrays are made again, so that equal words are other memory.
const RUNS: [Run; 11] = [
    Run {
        steps: &[("01", "ab"), ("10-", "ab")],
        stream: "s d0 b2 b3 ",
        file: Some("s d0 b2 b3 "),
    },
    Run {
        steps: &[("01", "ab"), ("", "ab"), ("1", "ab"), ("1111", "ab")],
        stream: "s d0 b2 b0 b1 b4 ",
        file: Some("s d0 b2 b0 b1 b4 "),
    },
    Run {
        steps: &[("01", "ab"), ("012", "abc")],
        stream: "s d0 b2 d0 b3 ",
        file: Some("s d0 b2 D0 b3 "),
    },
    Run {
        steps: &[("012", "abc"), ("01", "ab")],
        stream: "s d0 b3 d0 b2 ",
        file: None,
    },
    Run {
        steps: &[("01", "ab"), ("01", "cd")],
        stream: "s d0 b2 d0 b2 ",
        file: None,
    },
    Run {
        steps: &[("01", "ab"), ("10", "ba")],
        stream: "s d0 b2 d0 b2 ",
        file: None,
    },
    Run {
        steps: &[("01", "ab"), ("01", "cd"), ("1", "cd"), ("01", "ab")],
        stream: "s d0 b2 d0 b2 b1 d0 b2 ",
        file: None,
    },
    Run {
        steps: &[("01", "ab"), ("", "cd")],
        stream: "s d0 b2 d0 b0 ",
        file: None,
    },
    Run {
        steps: &[("", ""), ("--", ""), ("01", "ab")],
        stream: "s d0 b0 b2 d0 b2 ",
        file: Some("s d0 b0 b2 D0 b2 "),
    },
    Run {
        steps: &[("01", "a-"), ("0-", "a-"), ("0", "ab")],
        stream: "s d0 b2 b2 d0 b1 ",
        file: None,
    },
    Run {
        steps: &[],
        stream: "s ",
        file: Some("s "),
    },
];

fn batches_of(alloc: Global, run: &Run) -> Result<Vec<Batch>, Error> {
    let mut batches = Vec::new(alloc);
    for (keys, letters) in run.steps {
        batches.push(single(alloc, dictionary_of_strings(alloc, keys, letters)?)?)?;
    }
    Ok(batches)
}

fn is_run(alloc: Global, run: &Run) -> Result<bool, Error> {
    let column = dictionary_of_strings(alloc, "0", "a")?;
    let schema = schema_of(alloc, std::slice::from_ref(&column))?;
    let batches = batches_of(alloc, run)?;
    are_written(alloc, &schema, &batches, run.stream, run.file)
}

#[test]
fn dictionary_strings_in_batches(rt: HostRuntime) {
    for i in 0..RUNS.len() {
        assert!(rt; is_run(rt.alloc(), &RUNS[i]) == Ok(true), "run {i}");
    }
}

// Batches that share one array of values, and one whose values are a slice of more with the same slots.
fn shared(alloc: Global) -> Result<Vec<Batch>, Error> {
    let values = words(alloc, "abc")?;
    let mut batches = Vec::new(alloc);
    for keys in ["01", "2-", "0"] {
        batches.push(single(alloc, keyed(alloc, keys, values.clone(alloc)?)?)?)?;
    }
    let cut = words(alloc, "zabcz")?.sliced(1, 3);
    batches.push(single(alloc, keyed(alloc, "210", cut)?)?)?;
    Ok(batches)
}

#[test]
fn equal_dictionaries_are_written_once(rt: HostRuntime) {
    let batches = shared(rt.alloc()).expect(&rt, "no batches");
    let messages = "s d0 b2 b2 b1 b3 ";
    let same = are_batches(rt.alloc(), &batches, messages, Some(messages));
    assert!(rt; same == Ok(true));
}

// Slices of one column.
fn cuts(alloc: Global) -> Result<Vec<Batch>, Error> {
    let column = dictionary_of_strings(alloc, "0120-1", "abc")?;
    let mut batches = Vec::new(alloc);
    for (o, n) in [(0, 2), (2, 4), (3, 0), (0, 6)] {
        batches.push(single(alloc, column.clone(alloc)?.sliced(o, n))?)?;
    }
    Ok(batches)
}

#[test]
fn slices_of_one_column_share_its_values(rt: HostRuntime) {
    let batches = cuts(rt.alloc()).expect(&rt, "no batches");
    let messages = "s d0 b2 b4 b0 b6 ";
    let same = are_batches(rt.alloc(), &batches, messages, Some(messages));
    assert!(rt; same == Ok(true));
}

/// Batches of records of words, the records by keys too: the words, their keys, the keys of records; the messages.
#[derive(Drop)]
struct Nest {
    steps: &'static [(&'static str, &'static str, &'static str)],
    stream: &'static str,
    file: Option<&'static str>,
}

const NESTS: [Nest; 7] = [
    Nest {
        steps: &[("ab", "01", "01"), ("ab", "01", "10-"), ("ab", "01", "")],
        stream: "s d1 d0 b2 b3 b0 ",
        file: Some("s d1 d0 b2 b3 b0 "),
    },
    // The records stay the same; what their keys name has more words.
    Nest {
        steps: &[("ab", "01", "01"), ("abc", "01", "01")],
        stream: "s d1 d0 b2 d1 d0 b2 ",
        file: Some("s d1 d0 b2 D1 b2 "),
    },
    // The records stay the same, by other keys of other words.
    Nest {
        steps: &[("ab", "01", "01"), ("ba", "10", "01"), ("ba", "10", "1")],
        stream: "s d1 d0 b2 d1 d0 b2 b1 ",
        file: None,
    },
    // More records of the same words.
    Nest {
        steps: &[("ab", "01", "01"), ("ab", "010", "012")],
        stream: "s d1 d0 b2 d0 b3 ",
        file: Some("s d1 d0 b2 D0 b3 "),
    },
    // And back.
    Nest {
        steps: &[("ab", "01", "01"), ("cb", "01", "01"), ("ab", "01", "01")],
        stream: "s d1 d0 b2 d1 d0 b2 d1 d0 b2 ",
        file: None,
    },
    // First the outer, then the inner one.
    Nest {
        steps: &[("ab", "01", "0"), ("ab", "10", "0"), ("cd", "10", "0")],
        stream: "s d1 d0 b1 d0 b1 d1 d0 b1 ",
        file: None,
    },
    // Nulls are the same by a key and by its value.
    Nest {
        steps: &[("a-", "01", "01"), ("a-", "0-", "01")],
        stream: "s d1 d0 b2 b2 ",
        file: Some("s d1 d0 b2 b2 "),
    },
];

fn nested(alloc: Global, letters: &str, keys: &str, outer: &str) -> Result<AnyArray, Error> {
    let inner = record(
        alloc,
        vec![in alloc; dictionary_of_strings(alloc, keys, letters)?]?,
    )?;
    by(alloc, IntegerType::UInt16, outer, inner)
}

fn batches_of_nest(alloc: Global, nest: &Nest) -> Result<Vec<Batch>, Error> {
    let mut batches = Vec::new(alloc);
    for (letters, keys, outer) in nest.steps {
        batches.push(single(alloc, nested(alloc, letters, keys, outer)?)?)?;
    }
    Ok(batches)
}

#[test]
fn records_by_keys_in_batches(rt: HostRuntime) {
    let alloc = rt.alloc();
    for i in 0..NESTS.len() {
        let nest = &NESTS[i];
        let batches = batches_of_nest(alloc, nest).expect(&rt, "no batches");
        let same = are_batches(alloc, &batches, nest.stream, nest.file);
        assert!(rt; same == Ok(true), "nest {i}");
    }
}

/// Two columns of words by keys: the words of each; the messages.
const PAIRS: [(&[(&str, &str)], &str, Option<&str>); 5] = [
    (
        &[("ab", "ab"), ("ab", "ab")],
        "s d0 d1 b2 b2 ",
        Some("s d0 d1 b2 b2 "),
    ),
    (
        &[("ab", "ab"), ("ab", "abc"), ("abc", "abcd")],
        "s d0 d1 b2 d1 b2 d0 d1 b2 ",
        Some("s d0 d1 b2 D1 b2 D0 D1 b2 "),
    ),
    (&[("ab", "ab"), ("ab", "cd")], "s d0 d1 b2 d1 b2 ", None),
    (&[("ab", "ab"), ("cd", "ab")], "s d0 d1 b2 d0 b2 ", None),
    // The words of one are the other's: each has its own.
    (&[("ab", "cd"), ("cd", "ab")], "s d0 d1 b2 d0 d1 b2 ", None),
];

fn batches_of_pairs(alloc: Global, steps: &[(&str, &str)]) -> Result<Vec<Batch>, Error> {
    let mut batches = Vec::new(alloc);
    for (one, other) in steps {
        let one = dictionary_of_strings(alloc, "01", one)?;
        let other = dictionary_of_strings(alloc, "10", other)?;
        batches.push(batch(vec![in alloc; one, other]?))?;
    }
    Ok(batches)
}

#[test]
fn two_columns_in_batches(rt: HostRuntime) {
    let alloc = rt.alloc();
    for i in 0..PAIRS.len() {
        let (steps, stream, file) = PAIRS[i];
        let batches = batches_of_pairs(alloc, steps).expect(&rt, "no batches");
        let same = are_batches(alloc, &batches, stream, file);
        assert!(rt; same == Ok(true), "pair {i}");
    }
}

// Why no file is of batches of words by keys, some of which are strings without keys: `.` in the index of the keys.
fn reason(
    alloc: Global,
    steps: &[(&str, &str)],
) -> Result<(Option<IpcWriteError>, Option<IpcWriteError>), Error> {
    let mut batches = Vec::new(alloc);
    for (keys, letters) in steps {
        let column = if *keys == "." {
            words(alloc, letters)?
        } else {
            dictionary_of_strings(alloc, keys, letters)?
        };
        batches.push(single(alloc, column)?)?;
    }
    let schema = schema_of(alloc, &batches[0].columns)?;
    let stream = write_stream(alloc, &schema, &batches).err();
    Ok((stream, write_file(alloc, &schema, &batches).err()))
}

#[test]
fn the_first_reason_in_the_order_of_writing(rt: HostRuntime) {
    let alloc = rt.alloc();
    let (columns, anew) = (
        Some(IpcWriteError::Columns),
        Some(IpcWriteError::DictionaryReplacement),
    );
    let one = reason(alloc, &[("0", "a"), ("0", "b"), (".", "c")]);
    assert!(rt; one == Ok((columns, anew)));
    let other = reason(alloc, &[("0", "a"), (".", "c"), ("0", "b")]);
    assert!(rt; other == Ok((columns, columns)));
    let delta = reason(alloc, &[("0", "a"), ("0", "ab"), (".", "c"), ("0", "b")]);
    assert!(rt; delta == Ok((columns, columns)));
    let none = reason(alloc, &[("0", "a"), ("0", "b")]);
    assert!(rt; none == Ok((None, anew)));
}

// The words emitted for the ids 0 and 1.
fn emitted_words(alloc: Global) -> Result<BTreeMap<i64, AnyArray>, Error> {
    let mut emitted = BTreeMap::new(alloc);
    emitted.insert(0i64, words(alloc, "ab")?)?;
    emitted.insert(1i64, words(alloc, "c")?)?;
    Ok(emitted)
}

fn is_replaced(alloc: Global, values: &AnyArray) -> Result<bool, Error> {
    let emitted = emitted_words(alloc)?;
    let same = words(alloc, "c")?;
    Ok(any_replaced(alloc, &emitted, &[(1i64, &same), (0i64, values)])?)
}

#[test]
fn values_that_begin_with_the_emitted_ones_replace_none(rt: HostRuntime) {
    let alloc = rt.alloc();
    for (letters, want) in [
        ("ab", false),
        ("abc", false),
        ("ab-a", false),
        ("", true),
        ("a", true),
        ("ba", true),
        ("a-", true),
        ("xab", true),
    ] {
        let values = words(alloc, letters).expect(&rt, "no words");
        assert!(rt; is_replaced(alloc, &values) == Ok(want), "{letters}");
    }
    let other = dictionary_of_strings(alloc, "01", "ab").expect(&rt, "no words");
    assert!(rt; is_replaced(alloc, &other) == Ok(true));
}

fn is_dictionary_batch(found: &DictionaryBatch, delta: bool, id: i64, values: &AnyArray) -> bool {
    found.delta == delta && found.id == id && found.values == *values
}

// Whether a new id gets a batch of all its values, a longer one a delta of the words after those emitted, and an unchanged one none.
fn are_dictionary_batches(alloc: Global) -> Result<bool, Error> {
    let mut emitted = emitted_words(alloc)?;
    let (new, longer, same) = (
        words(alloc, "x-")?,
        words(alloc, "abba")?,
        words(alloc, "c")?,
    );
    let pending = [(2i64, &new), (0i64, &longer), (1i64, &same)];
    let found = dictionary_batches(alloc, &emitted, &pending)?;
    record_emitted(alloc, &mut emitted, &pending)?;
    Ok(
        found.len() == 2
            && is_dictionary_batch(&found[0], false, 2, &new)
            && is_dictionary_batch(&found[1], true, 0, &words(alloc, "ba")?)
            && dictionary_batches(alloc, &emitted, &pending)?.is_empty(),
    )
}

#[test]
fn dictionary_batches_of_new_and_longer_values(rt: HostRuntime) {
    assert!(rt; are_dictionary_batches(rt.alloc()) == Ok(true));
}

// A stream that is put together a batch at a time.
fn stepwise(alloc: Global, schema: &Schema, batches: &[Batch]) -> Result<Vec<u8>, IpcWriteError> {
    let mut out = write_schema_with_dictionaries(alloc, schema)?;
    let mut sent = BTreeMap::new(alloc);
    for batch in batches {
        append_stream_batch(alloc, &mut out, &schema.fields, &mut sent, batch)?;
    }
    out.extend_from_slice(&[255, 255, 255, 255, 0, 0, 0, 0])?;
    Ok(out)
}

// The same, where what each batch needed is remembered after it.
fn by_parts(alloc: Global, schema: &Schema, batches: &[Batch]) -> Result<Vec<u8>, IpcWriteError> {
    let mut out = write_schema_with_dictionaries(alloc, schema)?;
    let mut sent = BTreeMap::new(alloc);
    for batch in batches {
        let (_, needed) = encode_stream_batch(alloc, &mut out, &schema.fields, &sent, batch)?;
        record_emitted(alloc, &mut sent, &needed)?;
    }
    out.extend_from_slice(&[255, 255, 255, 255, 0, 0, 0, 0])?;
    Ok(out)
}

// A file that is put together a batch at a time.
fn file_by_parts(
    alloc: Global,
    schema: &Schema,
    batches: &[Batch],
) -> Result<Vec<u8>, IpcWriteError> {
    let mut out = Vec::new(alloc);
    out.extend_from_slice(b"ARROW1\0\0")?;
    let message = write_schema_with_dictionaries(alloc, schema)?;
    out.extend_from_slice(&message)?;
    let mut sent = BTreeMap::new(alloc);
    let mut known = DictionaryState::read(alloc, &message).map_err(|_| IpcWriteError::Memory)?;
    let mut blocks = FileBlocks::new(alloc);
    for batch in batches {
        let fields = &schema.fields;
        let encoded = encode_file_batch(
            alloc,
            &mut out,
            &mut blocks,
            fields,
            &sent,
            &mut known,
            batch,
        )?;
        record_emitted(alloc, &mut sent, &encoded.pending)?;
    }
    out.extend_from_slice(&[255, 255, 255, 255, 0, 0, 0, 0])?;
    write_footer(
        alloc,
        &mut out,
        schema,
        &blocks.dictionaries,
        &blocks.batches,
    )?;
    Ok(out)
}

fn is_stepwise(alloc: Global, nest: &Nest) -> Result<bool, Error> {
    let batches = batches_of_nest(alloc, nest)?;
    let schema = schema_of(alloc, &batches[0].columns)?;
    let whole = write_stream(alloc, &schema, &batches).map_err(unwritten)?;
    let file = write_file(alloc, &schema, &batches);
    Ok(
        stepwise(alloc, &schema, &batches).map_err(unwritten)? == whole
            && by_parts(alloc, &schema, &batches).map_err(unwritten)? == whole
            && file_by_parts(alloc, &schema, &batches) == file,
    )
}

#[test]
fn a_batch_at_a_time(rt: HostRuntime) {
    for i in 0..NESTS.len() {
        assert!(rt; is_stepwise(rt.alloc(), &NESTS[i]) == Ok(true), "nest {i}");
    }
}

// The messages of a stream in which a batch of other columns was rejected: what was written last is still known.
fn after_a_error(alloc: Global) -> Result<(Option<IpcWriteError>, String), Error> {
    let good = single(alloc, nested(alloc, "ab", "01", "01")?)?;
    let bad = single(alloc, dictionary_of_strings(alloc, "0", "c")?)?;
    let schema = schema_of(alloc, &good.columns)?;
    let mut out = write_schema_with_dictionaries(alloc, &schema).map_err(unwritten)?;
    let mut sent = BTreeMap::new(alloc);
    append_stream_batch(alloc, &mut out, &schema.fields, &mut sent, &good).map_err(unwritten)?;
    let why = append_stream_batch(alloc, &mut out, &schema.fields, &mut sent, &bad).err();
    append_stream_batch(alloc, &mut out, &schema.fields, &mut sent, &good).map_err(unwritten)?;
    Ok((why, messages_of(alloc, &out).map_err(unread)?))
}

#[test]
fn a_error_changes_nothing(rt: HostRuntime) {
    let (why, messages) = after_a_error(rt.alloc()).expect(&rt, "not written");
    assert!(rt; why == Some(IpcWriteError::Columns));
    assert!(rt; messages.as_str() == "s d1 d0 b2 b2 ", "{messages}");
}
