//! Files: those of another implementation, streams as files, and what is written.
//!
//! Files of another implementation, streams of others as files, blocks in another order, batches in any order, and files that
//! are written.
use crate::samples::{READ, READ_FILES, REJECTED_FILES, Sample};
use crate::samples_read::bytes_of;
use crate::stream_text::{append_batch, is_file_read, text_of_file, text_of_stream};
use crate::streams::WORKED;
use ipc::{SliceFileReader, read_file, read_stream, write_file};
use ipc_flatbuf::IpcReadError;
use ipc_flatbuf::message::{MessageKind, MetadataVersion, next_message, version_of};
use ipc_schema::footer::{Block, block_bytes, read_footer, write_footer};
use ipc_schema::{Projection, check_version, read_schema, schema_at, schema_with_dictionaries_table};
use std::alloc::Global;

#[test]
fn valid_samples(rt: HostRuntime) {
    for sample in &READ_FILES {
        let bytes = bytes_of(rt.alloc(), sample).expect(&rt, "no bytes");
        let text = text_of_file(rt.alloc(), &bytes).expect(&rt, "no text");
        assert!(rt; text.as_str() == sample.text, "{}: {text}", sample.name);
    }
}

#[test]
fn invalid_samples_are_rejected(rt: HostRuntime) {
    for sample in &REJECTED_FILES {
        let bytes = bytes_of(rt.alloc(), sample).expect(&rt, "no bytes");
        let text = text_of_file(rt.alloc(), &bytes).expect(&rt, "no text");
        assert!(rt; text.as_str() == sample.text, "{}: {text}", sample.name);
    }
}

/// Where the batches of a stream lie in the file of it, in their order.
pub fn blocks_of(alloc: Global, stream: &[u8]) -> Result<Vec<Block>, IpcReadError> {
    blocks_of_kind(alloc, stream, MessageKind::RecordBatch)
}

/// The same of the messages of a kind.
pub fn blocks_of_kind(
    alloc: Global,
    stream: &[u8],
    kind: MessageKind,
) -> Result<Vec<Block>, IpcReadError> {
    let mut blocks = Vec::new(alloc);
    let mut rest = stream;
    for _ in 0..stream.len() {
        let offset = 8 + stream.len() - rest.len();
        let (next, behind) = next_message(rest)?;
        rest = behind;
        match next {
            None => return Ok(blocks),
            Some(message) => {
                if message.root.kind == kind {
                    let metadata_length = 8 + stream.len()
                        - behind.len()
                        - message.body.len()
                        - offset;
                    blocks.push(Block {
                        offset: offset as i64,
                        metadata_length: metadata_length as i32,
                        body_length: message.body.len() as i64,
                    })?;
                }
            }
        }
    }
    Ok(blocks)
}

/// The file of a stream, whose footer has these blocks.
pub fn file_with(
    alloc: Global,
    stream: &[u8],
    dictionaries: &[Block],
    batches: &[Block],
) -> Result<Vec<u8>, IpcReadError> {
    let mut out = Vec::new(alloc);
    out.extend_from_slice(b"ARROW1\0\0")?;
    out.extend_from_slice(stream)?;
    let (keyed, _) = read_schema(alloc, stream)?;
    match write_footer(alloc, &mut out, &keyed.schema, dictionaries, batches) {
        Ok(()) => Ok(out),
        Err(_) => Err(IpcReadError::Memory),
    }
}

// What the file of a stream is.
fn as_file(alloc: Global, stream: &[u8]) -> Result<String, IpcReadError> {
    let blocks = blocks_of(alloc, stream)?;
    let file = file_with(alloc, stream, &[], &blocks)?;
    text_of_file(alloc, &file)
}

#[test]
fn streams_as_files(rt: HostRuntime) {
    let alloc = rt.alloc();
    let mut count = 0;
    for sample in &READ {
        let bytes = bytes_of(alloc, sample).expect(&rt, "bytes");
        let text = as_file(alloc, &bytes).expect(&rt, "a file");
        if !sample.text.contains("unread") {
            assert!(rt; text.as_str() == sample.text, "{}: {text}", sample.name);
            count = count + 1;
        }
    }
    assert!(rt; count > 5);
}

// What a stream says, once it was read and written as a file.
fn written_again(alloc: Global, bytes: &[u8]) -> Result<String, IpcReadError> {
    let stream = read_stream(alloc, bytes)?;
    match write_file(alloc, &stream.schema, &stream.batches) {
        Ok(written) => text_of_file(alloc, &written),
        Err(_) => Err(IpcReadError::Memory),
    }
}

#[test]
fn streams_of_others_are_written_as_files(rt: HostRuntime) {
    let alloc = rt.alloc();
    for sample in &READ {
        let bytes = bytes_of(alloc, sample).expect(&rt, "bytes");
        let again = written_again(alloc, &bytes).expect(&rt, "a file");
        if !sample.text.contains("unread") {
            assert!(rt; again.as_str() == sample.text, "{}: {again}", sample.name);
        }
    }
    let again = written_again(alloc, &WORKED).expect(&rt, "a file");
    assert!(rt;
        again.as_str()
            == text_of_stream(alloc, &WORKED)
                .expect(&rt, "a text")
                .as_str()
    );
}

// A stream of three batches, of 7, 8 and 9, each with a null.
fn three_batches(alloc: Global) -> Result<Vec<u8>, IpcReadError> {
    let mut stream = Vec::new(alloc);
    stream.extend_from_slice(&WORKED[..288])?;
    stream.extend_from_slice(&WORKED[128..288])?;
    stream.extend_from_slice(&WORKED[128..])?;
    stream[288 + 152] = 8;
    stream[448 + 152] = 9;
    Ok(stream)
}

// The batches of a reader, in the order in which they are asked for.
fn asked(alloc: Global, bytes: &[u8], order: &[usize]) -> Result<String, IpcReadError> {
    let reader = SliceFileReader::new(alloc, bytes)?;
    let mut text = String::new(alloc);
    for i in order {
        let batch = reader.batch(alloc, *i)?;
        append_batch(&mut text, &batch)?;
    }
    Ok(text)
}

#[test]
fn batches_in_any_order(rt: HostRuntime) {
    let alloc = rt.alloc();
    let stream = three_batches(alloc).expect(&rt, "a stream");
    let blocks = blocks_of(alloc, &stream).expect(&rt, "blocks");
    assert!(rt; blocks.len() == 3);
    let file = file_with(alloc, &stream, &[], &blocks).expect(&rt, "a file");
    let message = block_bytes(&file, blocks[2]);
    assert!(rt; message.len() == 160 && message[152] == 9);
    let reader = SliceFileReader::new(alloc, &file).expect(&rt, "a reader");
    assert!(rt; reader.len() == 3 && reader.schema().fields.len() == 1);
    let text = asked(alloc, &file, &[2, 0, 1, 2]).expect(&rt, "a text");
    assert!(rt;
        text.as_str()
            == "batch 2\nrow 9\nrow N\nbatch 2\nrow 7\nrow N\nbatch 2\nrow 8\nrow N\nbatch 2\nrow 9\nrow N\n"
    );
}

#[test]
fn batches_in_the_order_of_the_footer(rt: HostRuntime) {
    let alloc = rt.alloc();
    let stream = three_batches(alloc).expect(&rt, "a stream");
    let blocks = blocks_of(alloc, &stream).expect(&rt, "blocks");
    let file = file_with(alloc, &stream, &[], &[blocks[1], blocks[0]]).expect(&rt, "a file");
    let text = text_of_file(alloc, &file).expect(&rt, "a text");
    assert!(rt;
        text.as_str()
            == "metadata 0\nfield .a 1 0 i4\nbatch 2\nrow 8\nrow N\nbatch 2\nrow 7\nrow N\n"
    );
}

#[test]
fn what_no_block_names_is_not_read(rt: HostRuntime) {
    let alloc = rt.alloc();
    let stream = three_batches(alloc).expect(&rt, "a stream");
    let blocks = blocks_of(alloc, &stream).expect(&rt, "blocks");
    let mut file = file_with(alloc, &stream, &[], &blocks[2..]).expect(&rt, "a file");
    for i in 6..456usize {
        file[i] = 255;
    }
    let text = text_of_file(alloc, &file).expect(&rt, "a text");
    assert!(rt; text.as_str() == "metadata 0\nfield .a 1 0 i4\nbatch 2\nrow 9\nrow N\n");
}

#[test]
fn the_footer_of_a_file(rt: HostRuntime) {
    let alloc = rt.alloc();
    let bytes = bytes_of(alloc, &READ_FILES[2]).expect(&rt, "no bytes");
    let footer = read_footer(alloc, Projection::All, &bytes).expect(&rt, "no footer");
    assert!(rt; footer.picked.schema.fields.is_empty() && footer.dictionaries.is_empty());
    assert!(rt; footer.picked.steps.is_empty() && footer.picked.dictionaries.ids.is_empty());
    assert!(rt; footer.batches.len() == 1);
    assert!(rt;
        footer.batches[0]
            == Block {
                offset: 64,
                metadata_length: 88,
                body_length: 0
            }
    );
}

#[test]
fn the_table_of_a_schema(rt: HostRuntime) {
    let alloc = rt.alloc();
    let (keyed, _) = read_schema(alloc, &WORKED).expect(&rt, "a schema");
    let part = schema_with_dictionaries_table(alloc, &keyed.schema).expect(&rt, "a table");
    let (keyed, left) = schema_at(alloc, &part, 16, 64 * part.len()).expect(&rt, "a schema");
    let again = &keyed.schema;
    assert!(rt; left < 64 * part.len());
    assert!(rt; again.fields.len() == 1 && again.fields[0].name.as_str() == "a");
    assert!(rt; version_of(3) == Ok(MetadataVersion::V4));
    assert!(rt; version_of(5) == Err(IpcReadError::Version));
    assert!(rt; check_version(MetadataVersion::V4, &again.fields) == Ok(()));
}
