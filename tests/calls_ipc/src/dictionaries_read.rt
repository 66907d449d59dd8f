//! Streams and files with dictionaries, of another implementation: read by every reader alike, or rejected; what replaces, is shared,
//! nested, missing, skipped; each byte of the short ones changed.
//!
//! Streams and files with dictionaries, of another implementation: read by every reader alike, or rejected; dictionaries that
//! are replaced, shared, nested, missing, skipped, under nulls; each byte of the short ones changed.
use crate::files::{blocks_of, blocks_of_kind, file_with};
use crate::samples::{
    READ_DICTIONARIES, READ_DICTIONARY_FILES, REJECTED_DICTIONARIES, REJECTED_DICTIONARY_FILES,
    Sample,
};
use crate::samples_read::bytes_of;
use crate::stream_text::{
    append_batch, is_file_read, is_read, put_rows, text_of_file, text_of_stream,
};
use ipc::{
    DictionaryState, SliceFileReader, SliceStreamReader, next_batch, read_batch_block,
    read_dictionary_block, read_file_projected, read_message, read_stream, read_stream_projected,
};
use ipc_flatbuf::IpcReadError;
use ipc_flatbuf::message::{MessageKind, next_message};
use ipc_schema::footer::{Block, block_bytes, read_footer};
use ipc_schema::{Projection, read_projected_schema, read_schema};
use std::alloc::Global;

fn decoded(alloc: Global, sample: &Sample) -> Result<(String, Option<bool>), IpcReadError> {
    let bytes = bytes_of(alloc, sample)?;
    Ok((text_of_stream(alloc, &bytes)?, is_read(alloc, &bytes)))
}

fn file_decoded(alloc: Global, sample: &Sample) -> Result<(String, Option<bool>), IpcReadError> {
    let bytes = bytes_of(alloc, sample)?;
    Ok((text_of_file(alloc, &bytes)?, is_file_read(alloc, &bytes)))
}

#[test]
fn valid_samples(rt: HostRuntime) {
    for sample in &READ_DICTIONARIES {
        let (text, read) = decoded(rt.alloc(), sample).expect(&rt, "no text");
        assert!(rt; text.as_str() == sample.text, "{}: {text}", sample.name);
        assert!(rt; read == Some(true), "{}", sample.name);
    }
}

#[test]
fn each_file_that_is_read(rt: HostRuntime) {
    for sample in &READ_DICTIONARY_FILES {
        let (text, read) = file_decoded(rt.alloc(), sample).expect(&rt, "no text");
        assert!(rt; text.as_str() == sample.text, "{}: {text}", sample.name);
        assert!(rt; read == Some(true), "{}", sample.name);
    }
}

#[test]
fn invalid_samples_are_rejected(rt: HostRuntime) {
    for sample in &REJECTED_DICTIONARIES {
        let (text, read) = decoded(rt.alloc(), sample).expect(&rt, "no text");
        assert!(rt; text.as_str() == sample.text, "{}: {text}", sample.name);
        assert!(rt; read == Some(false), "{}", sample.name);
    }
    for sample in &REJECTED_DICTIONARY_FILES {
        let (text, read) = file_decoded(rt.alloc(), sample).expect(&rt, "no text");
        assert!(rt; text.as_str() == sample.text, "{}: {text}", sample.name);
        assert!(rt; read == Some(false), "{}", sample.name);
    }
}

// The bytes of a valid stream.
fn stream_named(alloc: Global, name: &str) -> Result<Vec<u8>, IpcReadError> {
    for sample in &READ_DICTIONARIES {
        if sample.name == name {
            return bytes_of(alloc, sample);
        }
    }
    Err(IpcReadError::MissingSchema)
}

// The bytes of a valid file.
fn file_named(alloc: Global, name: &str) -> Result<Vec<u8>, IpcReadError> {
    for sample in &READ_DICTIONARY_FILES {
        if sample.name == name {
            return bytes_of(alloc, sample);
        }
    }
    Err(IpcReadError::MissingSchema)
}

// Whether each column by itself is that of the whole stream, and none of them leaves the rows.
fn has_each_column(alloc: Global, bytes: &[u8]) -> Result<bool, IpcReadError> {
    let whole = read_stream(alloc, bytes)?;
    let none = read_stream_projected(alloc, bytes, Projection::Indices(&[]))?;
    for b in 0..whole.batches.len() {
        if none.batches[b].rows != whole.batches[b].rows || !none.batches[b].columns.is_empty() {
            return Ok(false);
        }
    }
    for i in 0..whole.schema.fields.len() {
        let one = read_stream_projected(alloc, bytes, Projection::Indices(&[i]))?;
        for b in 0..whole.batches.len() {
            if one.batches[b].columns[0] != whole.batches[b].columns[i] {
                return Ok(false);
            }
        }
    }
    Ok(none.read == whole.read)
}

#[test]
fn dictionaries_of_other_columns_are_skipped(rt: HostRuntime) {
    let alloc = rt.alloc();
    for sample in &READ_DICTIONARIES {
        let bytes = bytes_of(alloc, sample).expect(&rt, "no bytes");
        assert!(rt;
            has_each_column(alloc, &bytes) == Ok(true),
            "{}",
            sample.name
        );
    }
}

// A delta of a column that is not read is skipped as any dictionary is, and so is one that cannot be concatenated.
#[test]
fn errors_in_skipped_columns_are_not_reported(rt: HostRuntime) {
    let alloc = rt.alloc();
    let bytes = stream_named(alloc, "delta").expect(&rt, "no bytes");
    let none = read_stream_projected(alloc, &bytes, Projection::Indices(&[])).expect(
        &rt, "an error",
    );
    assert!(rt; none.batches.len() == 3 && none.batches[0].rows == 3);
    let file = file_named(alloc, "delta").expect(&rt, "no bytes");
    let none = read_file_projected(alloc, &file, Projection::Indices(&[])).expect(&rt, "an error");
    assert!(rt; none.batches.len() == 3 && none.batches[2].rows == 1);
    for sample in &REJECTED_DICTIONARIES {
        let bytes = bytes_of(alloc, sample).expect(&rt, "no bytes");
        let failure = read_stream_projected(alloc, &bytes, Projection::Indices(&[])).err();
        let want = sample.name == "dictionary_of_two_types";
        assert!(rt; failure.is_none() || want, "{}: {failure:?}", sample.name);
    }
}

// Two batches of a reader; the first is pushed once the second was read.
fn first_after_second(alloc: Global, bytes: &[u8]) -> Result<String, IpcReadError> {
    let mut text = String::new(alloc);
    let mut reader = SliceStreamReader::new(alloc, bytes)?;
    let first = reader.next_batch(alloc)?;
    let second = reader.next_batch(alloc)?;
    for batch in [second, first] {
        match batch {
            None => text.push_str("none\n")?,
            Some(batch) => append_batch(&mut text, &batch)?,
        }
    }
    Ok(text)
}

#[test]
fn a_batch_keeps_the_values_that_are_replaced(rt: HostRuntime) {
    let alloc = rt.alloc();
    for (name, want) in [
        (
            "replacement",
            "batch 2\nrow s63\nrow s64\nbatch 2\nrow s61\nrow s62\n",
        ),
        (
            "dictionary_nested",
            "batch 2\nrow {s72,1,}\nrow N\nbatch 4\nrow {s70,1,}\nrow {s71,1,}\nrow N\nrow {s70,1,}\n",
        ),
        (
            "dictionary_keys_of_nulls",
            "none\nbatch 3\nrow N\nrow s78\nrow N\n",
        ),
    ] {
        let bytes = stream_named(alloc, name).expect(&rt, "no bytes");
        let text = first_after_second(alloc, &bytes).expect(&rt, "an error");
        assert!(rt; text.as_str() == want, "{name}: {text}");
    }
}

// How many values are known after each message of a stream, and whether it brought a batch.
fn steps_of(alloc: Global, bytes: &[u8]) -> Result<String, IpcReadError> {
    let mut text = String::new(alloc);
    let (picked, mut rest) = read_projected_schema(alloc, Projection::All, bytes)?;
    let mut state = DictionaryState::new(alloc, picked);
    for _ in 0..bytes.len() {
        let (next, behind) = next_message(rest)?;
        match next {
            None => break,
            Some(message) => match read_message(alloc, &mut state, message)? {
                None => write!(text, "{} ", state.known.len())?,
                Some(batch) => write!(text, "{} of {} rows ", state.known.len(), batch.rows)?,
            },
        }
        rest = behind;
    }
    Ok(text)
}

#[test]
fn what_is_known_after_each_message(rt: HostRuntime) {
    let alloc = rt.alloc();
    for (name, want) in [
        ("replacement", "1 1 of 2 rows 1 1 of 2 rows "),
        ("dictionary_nested", "1 2 2 of 4 rows 2 2 2 of 2 rows "),
        ("dictionary_shared", "1 1 "),
    ] {
        let bytes = stream_named(alloc, name).expect(&rt, "no bytes");
        let text = steps_of(alloc, &bytes).expect(&rt, "an error");
        assert!(rt; text.as_str().starts_with(want), "{name}: {text}");
    }
}

// The next batch of a state that came from another index is over the values that it knows.
#[test]
fn a_state_resumes_at_any_message(rt: HostRuntime) {
    let alloc = rt.alloc();
    let bytes = stream_named(alloc, "replacement").expect(&rt, "no bytes");
    let batches = blocks_of(alloc, &bytes).expect(&rt, "blocks");
    let second = batches[1].offset as usize - 8;
    let (picked, rest) = read_projected_schema(alloc, Projection::All, &bytes).expect(
        &rt, "a schema",
    );
    let mut state = DictionaryState::new(alloc, picked);
    let early = next_batch(alloc, &mut state, &bytes[second..]).err();
    assert!(rt; early == Some(IpcReadError::MissingDictionary));
    let (first, _) = next_batch(alloc, &mut state, rest).expect(&rt, "an error");
    assert!(rt; first.expect(&rt, "the end").rows == 2);
    let (other, _) = next_batch(alloc, &mut state, &bytes[second..]).expect(&rt, "an error");
    let mut text = String::new(alloc);
    append_batch(&mut text, &other.expect(&rt, "the end")).expect(&rt, "no text");
    assert!(rt; text.as_str() == "batch 2\nrow s61\nrow s62\n", "{text}");
}

// Where the messages of a stream lie in its file: dictionaries, then batches.
fn lists_of(alloc: Global, stream: &[u8]) -> Result<(Vec<Block>, Vec<Block>), IpcReadError> {
    let dictionaries = blocks_of_kind(alloc, stream, MessageKind::DictionaryBatch)?;
    Ok((dictionaries, blocks_of(alloc, stream)?))
}

// Whether the ids of a stream are those that a footer is written with.
fn is_numbered(alloc: Global, stream: &[u8]) -> Result<bool, IpcReadError> {
    let (keyed, _) = read_schema(alloc, stream)?;
    let ids = &keyed.dictionaries.ids;
    for i in 0..ids.len() {
        if ids[i] != i as i64 {
            return Ok(false);
        }
    }
    Ok(true)
}

// What the file of a stream is: of a stream in which a dictionary is replaced it is rejected.
fn as_file(alloc: Global, stream: &[u8]) -> Result<String, IpcReadError> {
    let (dictionaries, batches) = lists_of(alloc, stream)?;
    let file = file_with(alloc, stream, &dictionaries, &batches)?;
    text_of_file(alloc, &file)
}

#[test]
fn streams_as_files(rt: HostRuntime) {
    let alloc = rt.alloc();
    let mut count = 0;
    for sample in &READ_DICTIONARIES {
        let bytes = bytes_of(alloc, sample).expect(&rt, "no bytes");
        if is_numbered(alloc, &bytes) == Ok(true) {
            let text = as_file(alloc, &bytes).expect(&rt, "no file");
            let replaces = ["replacement", "dictionary_nested"]
                .iter()
                .any(|name| *name == sample.name);
            let want = if replaces {
                "error DuplicateDictionary\n"
            } else {
                sample.text
            };
            assert!(rt; text.as_str() == want, "{}: {text}", sample.name);
            count += 1;
        }
    }
    assert!(rt; count > 5, "{count}");
}

// The file of a stream without some of its dictionaries, in the order that is given.
fn with_dictionaries(alloc: Global, name: &str, order: &[usize]) -> Result<String, IpcReadError> {
    let bytes = stream_named(alloc, name)?;
    let (all, batches) = lists_of(alloc, &bytes)?;
    let mut some = Vec::new(alloc);
    for i in order {
        some.push(all[*i])?;
    }
    let file = file_with(alloc, &bytes, &some, &batches)?;
    text_of_file(alloc, &file)
}

#[test]
fn a_file_has_each_dictionary_once(rt: HostRuntime) {
    let alloc = rt.alloc();
    for (name, order, want) in [
        ("dictionary", [].as_slice(), "error MissingDictionary\n"),
        (
            "replacement",
            [0usize, 1].as_slice(),
            "error DuplicateDictionary\n",
        ),
        (
            "dictionaries_inside",
            [0usize].as_slice(),
            "error MissingDictionary\n",
        ),
    ] {
        let text = with_dictionaries(alloc, name, order).expect(&rt, "no file");
        assert!(rt; text.as_str() == want, "{name}: {text}");
    }
    for (order, want) in [(0usize, "row s61\nrow s62\n"), (1, "row s63\nrow s64\n")] {
        let text = with_dictionaries(alloc, "replacement", &[order]).expect(&rt, "no file");
        assert!(rt; text.ends_with(want), "{text}");
    }
    let orders = [[0usize, 1].as_slice(), [1usize, 0].as_slice()];
    let one = with_dictionaries(alloc, "dictionaries_inside", orders[0]).expect(&rt, "no file");
    let other = with_dictionaries(alloc, "dictionaries_inside", orders[1]).expect(&rt, "no file");
    assert!(rt; one == other && one.starts_with("metadata"), "{one}");
}

// The batches of a reader's file, the last one first.
fn backwards(alloc: Global, bytes: &[u8]) -> Result<String, IpcReadError> {
    let mut text = String::new(alloc);
    let reader = SliceFileReader::new(alloc, bytes)?;
    for i in 0..reader.len() {
        let batch = reader.batch(alloc, reader.len() - 1 - i)?;
        append_batch(&mut text, &batch)?;
    }
    Ok(text)
}

#[test]
fn batches_of_a_file_in_any_order(rt: HostRuntime) {
    let alloc = rt.alloc();
    for sample in &READ_DICTIONARY_FILES {
        let bytes = bytes_of(alloc, sample).expect(&rt, "no bytes");
        let reader = SliceFileReader::new(alloc, &bytes).expect(&rt, "no reader");
        let text = backwards(alloc, &bytes).expect(&rt, "no text");
        let mut count = 0;
        for part in sample.text.split("batch ") {
            let part = part.trim_end();
            assert!(rt;
                count == 0 || text.contains(part),
                "{}: {text}",
                sample.name
            );
            count += 1;
        }
        assert!(rt; count == reader.len() + 1, "{}", sample.name);
    }
}

// The values that are known after each dictionary block of a file, and the batch of each other block.
fn read_by_blocks(alloc: Global, bytes: &[u8]) -> Result<String, IpcReadError> {
    let mut text = String::new(alloc);
    let footer = read_footer(alloc, Projection::All, bytes)?;
    let mut state = DictionaryState::new(alloc, footer.picked);
    for block in &footer.dictionaries {
        read_dictionary_block(alloc, &mut state, block_bytes(bytes, *block), *block)?;
        for (id, values) in state.known.iter() {
            write!(text, "id {id} ")?;
            put_rows(&mut text, values.len(), std::slice::from_ref(values))?;
        }
    }
    for block in &footer.batches {
        let batch = read_batch_block(alloc, &state, block_bytes(bytes, *block), *block)?;
        append_batch(&mut text, &batch)?;
    }
    Ok(text)
}

#[test]
fn blocks_of_a_file_one_by_one(rt: HostRuntime) {
    let alloc = rt.alloc();
    for (name, want) in [
        (
            "delta",
            "id 0 batch 2\nrow s61\nrow s62\nid 0 batch 3\nrow s61\nrow s62\nrow s63\n\
             batch 3\nrow s61\nrow s62\nrow s62\nbatch 2\nrow s63\nrow s61\nbatch 1\nrow s63\n",
        ),
        (
            "dictionary",
            "id 0 batch 2\nrow s78\nrow s7979\n\
             batch 5\nrow s78\nrow N\nrow s7979\nrow s78\nrow s78\n",
        ),
    ] {
        let bytes = file_named(alloc, name).expect(&rt, "no bytes");
        let text = read_by_blocks(alloc, &bytes).expect(&rt, "no text");
        assert!(rt; text.as_str() == want, "{name}: {text}");
    }
}

// A block whose body is longer.
fn longer(block: Block) -> Block {
    Block {
        offset: block.offset,
        metadata_length: block.metadata_length,
        body_length: block.body_length + 8,
    }
}

// The blocks of values, of their delta, of rows of the values, and of rows of the delta.
#[test]
fn blocks_of_other_messages_are_rejected(rt: HostRuntime) {
    let alloc = rt.alloc();
    let bytes = file_named(alloc, "delta").expect(&rt, "no bytes");
    let footer = read_footer(alloc, Projection::All, &bytes).expect(&rt, "no footer");
    let (values, delta) = (footer.dictionaries[0], footer.dictionaries[1]);
    let (rows, others) = (footer.batches[0], footer.batches[1]);
    let mut state = DictionaryState::new(alloc, footer.picked);
    for (own, block, want) in [
        (values, longer(values), IpcReadError::Block),
        (values, delta, IpcReadError::Block),
        (rows, rows, IpcReadError::HeaderType),
        (delta, delta, IpcReadError::MissingDictionary),
    ] {
        let own = block_bytes(&bytes, own);
        let error = read_dictionary_block(alloc, &mut state, own, block).err();
        assert!(rt; error == Some(want), "{block:?}: {error:?}");
    }
    let own = block_bytes(&bytes, rows);
    let early = read_batch_block(alloc, &state, own, rows).err();
    assert!(rt; early == Some(IpcReadError::MissingDictionary));
    let own = block_bytes(&bytes, values);
    assert!(rt; read_dictionary_block(alloc, &mut state, own, values) == Ok(()));
    let twice = read_dictionary_block(alloc, &mut state, own, values);
    assert!(rt; twice == Err(IpcReadError::DuplicateDictionary));
    for (own, block, want) in [
        (rows, rows, None),
        (rows, longer(rows), Some(IpcReadError::Block)),
        (values, values, Some(IpcReadError::HeaderType)),
        (others, others, Some(IpcReadError::KeyRange)),
    ] {
        let error = read_batch_block(alloc, &state, block_bytes(&bytes, own), block).err();
        assert!(rt; error == want, "{block:?}: {error:?}");
    }
}

/// Longer streams are neither cut nor changed byte by byte: it takes too long.
const BYTES: usize = 540;

#[test]
fn each_beginning(rt: HostRuntime) {
    let alloc = rt.alloc();
    for sample in &READ_DICTIONARIES {
        let bytes = bytes_of(alloc, sample).expect(&rt, "no bytes");
        if bytes.len() <= BYTES {
            for end in 0..bytes.len() {
                assert!(rt;
                    is_read(alloc, &bytes[..end]).is_some(),
                    "{} up to {end}",
                    sample.name
                );
            }
        }
    }
}

// Whether a stream with a byte that is 255 or one more is decoded alike, for each of its bytes.
fn are_decoded(alloc: Global, bytes: &mut [u8]) -> bool {
    for i in 0..bytes.len() {
        let byte = bytes[i];
        for other in [255, byte.wrapping_add(1)] {
            bytes[i] = other;
            if is_read(alloc, bytes).is_none() {
                return false;
            }
        }
        bytes[i] = byte;
    }
    true
}

#[test]
fn each_byte_changed(rt: HostRuntime) {
    let alloc = rt.alloc();
    for sample in &READ_DICTIONARIES {
        let mut bytes = bytes_of(alloc, sample).expect(&rt, "no bytes");
        if bytes.len() <= BYTES {
            assert!(rt; are_decoded(alloc, &mut bytes), "{}", sample.name);
        }
    }
}

#[test]
fn each_byte_changed_where_one_is_replaced(rt: HostRuntime) {
    let mut bytes = stream_named(rt.alloc(), "replacement").expect(&rt, "no bytes");
    assert!(rt; are_decoded(rt.alloc(), &mut bytes));
}

#[test]
fn each_byte_of_a_file_changed(rt: HostRuntime) {
    let alloc = rt.alloc();
    let mut bytes = file_named(alloc, "dictionary").expect(&rt, "no bytes");
    for i in 0..bytes.len() {
        let byte = bytes[i];
        for other in [255, byte.wrapping_add(1)] {
            bytes[i] = other;
            assert!(rt; is_file_read(alloc, &bytes).is_some(), "{other} at {i}");
        }
        bytes[i] = byte;
    }
}
