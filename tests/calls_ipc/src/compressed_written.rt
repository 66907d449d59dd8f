//! Streams and files of each type that are written with LZ4, and round-trip; their bodies, and those of other codecs written again.
use crate::samples::{READ, READ_DICTIONARIES, READ_FLAT, READ_NESTED, Sample};
use crate::samples_read::{bytes_of, copied};
use crate::stream_text::{text_of_file, text_of_stream};
use ipc::compressed::compress_body;
use ipc::{
    FileBlocks, encode_compressed_file_batch, encode_compressed_stream_batch, initial_state,
    read_stream, write_compressed_file, write_compressed_stream, write_file, write_stream,
};
use ipc_flatbuf::batch::read_batch;
use ipc_flatbuf::message::{Message, MessageKind, next_message};
use ipc_flatbuf::{BufferSpec, CompressionCodec, IpcReadError, IpcWriteError};
use ipc_schema::write_schema_with_dictionaries;
use std::alloc::Global;
use std::collections::BTreeMap;
use std::process::Abort;

// Columns `id` of integers, `word` of strings and `flag` of booleans, 100 rows, of Arrow C++.
const ZSTD_ROWS: &[u8] = include_bytes!("pyarrow/samples/compressed/zstd_rows.arrows");

// What was written, with LZ4 and without.
fn rewritten(alloc: Global, bytes: &[u8]) -> Result<(Vec<u8>, Vec<u8>), IpcWriteError> {
    match read_stream(alloc, bytes) {
        Err(_) => Err(IpcWriteError::Memory),
        Ok(stream) => {
            let compressed = write_compressed_stream(alloc, &stream.schema, &stream.batches)?;
            let plain = write_stream(alloc, &stream.schema, &stream.batches)?;
            Ok((compressed, plain))
        }
    }
}

// Whether both are read as the same schema and rows.
fn round_trips(alloc: Global, bytes: &[u8]) -> Result<bool, IpcReadError> {
    let Ok((compressed, plain)) = rewritten(alloc, bytes) else {
        return Ok(false);
    };
    Ok(text_of_stream(alloc, &compressed)? == text_of_stream(alloc, &plain)?)
}

// Whether both files are read as the same schema and rows, or cannot be written for the same reason.
fn files_round_trip(alloc: Global, bytes: &[u8]) -> Result<bool, IpcReadError> {
    let stream = read_stream(alloc, bytes)?;
    let compressed = write_compressed_file(alloc, &stream.schema, &stream.batches);
    match write_file(alloc, &stream.schema, &stream.batches) {
        Err(error) => match compressed {
            Err(other) => Ok(error == other),
            Ok(_) => Ok(false),
        },
        Ok(plain) => match compressed {
            Err(_) => Ok(false),
            Ok(bytes) => Ok(text_of_file(alloc, &bytes)? == text_of_file(alloc, &plain)?),
        },
    }
}

fn all_round_trip(rt: &(impl Abort + AllocGlobal), samples: &[Sample]) {
    for sample in samples {
        let bytes = bytes_of(rt.alloc(), sample).expect(rt, "bytes");
        assert!(rt;
            round_trips(rt.alloc(), &bytes) == Ok(true),
            "{}",
            sample.name
        );
        assert!(rt;
            files_round_trip(rt.alloc(), &bytes) == Ok(true),
            "{} as a file",
            sample.name
        );
    }
}

#[test]
fn each_type_round_trips(rt: HostRuntime) {
    all_round_trip(&rt, &READ);
    all_round_trip(&rt, &READ_FLAT);
    all_round_trip(&rt, &READ_NESTED);
}

#[test]
fn dictionaries_round_trip(rt: HostRuntime) {
    all_round_trip(&rt, &READ_DICTIONARIES);
}

#[test]
fn other_codecs_are_written_again(rt: HostRuntime) {
    let alloc = rt.alloc();
    let bytes = copied(alloc, ZSTD_ROWS).expect(&rt, "bytes");
    assert!(rt; round_trips(alloc, &bytes) == Ok(true));
    let (compressed, plain) = rewritten(alloc, &bytes).expect(&rt, "streams");
    assert!(rt; compressed.len() < plain.len());
}

// The codec of a message of a record batch, none of another message.
fn codec_of(alloc: Global, message: Message<'_>) -> Result<Option<CompressionCodec>, IpcReadError> {
    if message.root.kind != MessageKind::RecordBatch {
        return Ok(None);
    }
    let root = message.root;
    let batch = read_batch(
        alloc,
        message.metadata,
        root.header,
        root.left,
        root.body_length,
    )?;
    Ok(batch.compression)
}

// The number of record batches with LZ4 in a stream.
fn count_compressed(alloc: Global, bytes: &[u8]) -> Result<usize, IpcReadError> {
    let mut count = 0;
    let mut rest = bytes;
    for _ in 0..bytes.len() {
        let (message, after) = next_message(rest)?;
        let Some(message) = message else {
            return Ok(count);
        };
        if codec_of(alloc, message)? == Some(CompressionCodec::Lz4Frame) {
            count += 1;
        }
        rest = after;
    }
    Ok(count)
}

#[test]
fn each_record_batch_has_the_codec(rt: HostRuntime) {
    let alloc = rt.alloc();
    let bytes = copied(alloc, ZSTD_ROWS).expect(&rt, "bytes");
    let batches = read_stream(alloc, &bytes)
        .expect(&rt, "a stream")
        .batches
        .len();
    let (compressed, plain) = rewritten(alloc, &bytes).expect(&rt, "streams");
    assert!(rt; count_compressed(alloc, &compressed) == Ok(batches));
    assert!(rt; count_compressed(alloc, &plain) == Ok(0));
}

#[test]
fn short_buffers_are_stored(rt: HostRuntime) {
    let body = [1u8, 2, 3, 0, 0, 0, 0, 0];
    let buffers = [
        BufferSpec {
            offset: 0,
            length: 0,
        },
        BufferSpec {
            offset: 0,
            length: 3,
        },
    ];
    let (specs, out) = compress_body(rt.alloc(), &body, &buffers).expect(&rt, "a body");
    let want = [
        255u8, 255, 255, 255, 255, 255, 255, 255, 1, 2, 3, 0, 0, 0, 0, 0,
    ];
    assert!(rt; out.as_slice() == want.as_slice());
    assert!(rt; specs[0] == buffers[0]);
    assert!(rt; specs[1].offset == 0 && specs[1].length == 11);
}

// The bytes that `encode_compressed_stream_batch` and `encode_compressed_file_batch` append to a schema message.
fn encoded(alloc: Global, bytes: &[u8]) -> Result<(Vec<u8>, Vec<u8>), IpcWriteError> {
    let Ok(stream) = read_stream(alloc, bytes) else {
        return Err(IpcWriteError::Memory);
    };
    let fields = &stream.schema.fields;
    let emitted = BTreeMap::new(alloc);
    let mut out = write_schema_with_dictionaries(alloc, &stream.schema)?;
    let mut known = initial_state(alloc, &out)?;
    let mut file = Vec::new(alloc);
    file.extend_from_slice(&out)?;
    let mut blocks = FileBlocks::new(alloc);
    let batch = &stream.batches[0];
    encode_compressed_stream_batch(alloc, &mut out, fields, &emitted, batch)?;
    encode_compressed_file_batch(
        alloc,
        &mut file,
        &mut blocks,
        fields,
        &emitted,
        &mut known,
        batch,
    )?;
    if blocks.batches.len() != 1 || !blocks.dictionaries.is_empty() {
        return Err(IpcWriteError::Columns);
    }
    Ok((out, file))
}

#[test]
fn a_batch_is_encoded_for_both(rt: HostRuntime) {
    let alloc = rt.alloc();
    let bytes = copied(alloc, ZSTD_ROWS).expect(&rt, "bytes");
    let (stream, file) = encoded(alloc, &bytes).expect(&rt, "messages");
    assert!(rt; stream == file);
    let (compressed, _) = rewritten(alloc, &bytes).expect(&rt, "streams");
    assert!(rt; compressed.starts_with(&stream));
}
