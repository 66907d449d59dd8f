//! Streams and files that are read by columns: what is projection, each prefix, each byte changed, each error of what is skipped.
//!
//! Streams by columns: by name, by position, all, none; columns of types that are not read are skipped, each prefix of their
//! streams is decoded, and each byte changed.
use crate::projections::{COMPLETE_TEXTS, LAST_COLUMN_FILE, PROJECTIONS, ProjectedSample, STREAMS};
use crate::samples::{READ, READ_FILES, READ_NESTED, Sample};
use crate::samples_read::{bytes_of, copied};
use crate::stream_text::{put_parts, text_of_stream};
use crate::streams::WORKED;
use ipc::{
    SliceFileReader, SliceStreamReader, read_file_projected, read_stream, read_stream_projected,
};
use ipc_flatbuf::IpcReadError;
use ipc_flatbuf::batch::read_variadic_buffer_counts;
use ipc_flatbuf::message::{Message, next_message};
use ipc_schema::{ColumnSet, Projection};
use std::alloc::Global;

/// What a stream is by columns, or its error.
fn projected_result(
    alloc: Global,
    bytes: &[u8],
    columns: Projection<'_>,
) -> Result<String, IpcReadError> {
    let mut text = String::new(alloc);
    match read_stream_projected(alloc, bytes, columns) {
        Err(failure) => write!(text, "error {failure:?}\n")?,
        Ok(stream) => {
            put_parts(&mut text, &stream.schema, &stream.batches)?;
            if stream.read < bytes.len() {
                write!(text, "unread {}\n", bytes.len() - stream.read)?;
            }
        }
    }
    Ok(text)
}

#[test]
fn by_name_and_by_position(rt: HostRuntime) {
    let alloc = rt.alloc();
    for projection in &PROJECTIONS {
        let bytes = copied(alloc, projection.bytes).expect(&rt, "no bytes");
        let text = projected_result(alloc, &bytes, Projection::Names(projection.names)).expect(
            &rt, "no text",
        );
        assert!(rt; text.as_str() == projection.text, "{text}");
        let text = projected_result(alloc, &bytes, Projection::Indices(projection.indices)).expect(
            &rt, "no text",
        );
        assert!(rt; text.as_str() == projection.text, "{text}");
    }
}

#[test]
fn complete_streams(rt: HostRuntime) {
    let alloc = rt.alloc();
    for i in 0..STREAMS.len() {
        let bytes = copied(alloc, STREAMS[i].bytes).expect(&rt, "no bytes");
        let text = text_of_stream(alloc, &bytes).expect(&rt, "no text");
        assert!(rt; text.as_str() == COMPLETE_TEXTS[i], "{text}");
    }
}

/// Whether all columns of a stream are what the stream is.
fn is_complete(alloc: Global, sample: &Sample) -> Result<bool, IpcReadError> {
    let bytes = bytes_of(alloc, sample)?;
    let text = projected_result(alloc, &bytes, Projection::All)?;
    Ok(text.as_str() == sample.text)
}

#[test]
fn all_columns(rt: HostRuntime) {
    for sample in &READ {
        assert!(rt;
            is_complete(rt.alloc(), sample) == Ok(true),
            "{}",
            sample.name
        );
    }
    for sample in &READ_NESTED {
        assert!(rt;
            is_complete(rt.alloc(), sample) == Ok(true),
            "{}",
            sample.name
        );
    }
}

/// Whether no column of a stream is read, and its batches have as many rows.
fn has_rows(alloc: Global, sample: &Sample) -> Result<bool, IpcReadError> {
    let bytes = bytes_of(alloc, sample)?;
    let whole = read_stream(alloc, &bytes)?;
    let none = read_stream_projected(alloc, &bytes, Projection::Indices(&[]))?;
    if none.batches.len() != whole.batches.len() || none.schema.fields.len() != 0 {
        return Ok(false);
    }
    for i in 0..whole.batches.len() {
        if none.batches[i].rows != whole.batches[i].rows || none.batches[i].columns.len() != 0 {
            return Ok(false);
        }
    }
    Ok(none.read == whole.read)
}

#[test]
fn no_column_has_its_rows(rt: HostRuntime) {
    for sample in &READ {
        assert!(rt; has_rows(rt.alloc(), sample) == Ok(true), "{}", sample.name);
    }
    for sample in &READ_NESTED {
        assert!(rt; has_rows(rt.alloc(), sample) == Ok(true), "{}", sample.name);
    }
}

/// The batches that a reader of some columns returns, up to its end; nothing comes after.
fn read_one_by_one(alloc: Global, projection: &ProjectedSample) -> Result<String, IpcReadError> {
    let bytes = copied(alloc, projection.bytes)?;
    let mut reader = SliceStreamReader::with_projection(
        alloc,
        &bytes,
        Projection::Names(projection.names),
    )?;
    let mut text = String::new(alloc);
    let mut batches = Vec::new(alloc);
    for _ in 0..bytes.len() {
        match reader.next_batch(alloc)? {
            None => break,
            Some(batch) => batches.push(batch)?,
        }
    }
    if reader.next_batch(alloc)?.is_none() {
        put_parts(&mut text, reader.schema(), &batches)?;
    }
    Ok(text)
}

#[test]
fn one_by_one(rt: HostRuntime) {
    for projection in &STREAMS {
        let text = read_one_by_one(rt.alloc(), projection).expect(&rt, "not read");
        assert!(rt; text.as_str() == projection.text, "{text}");
    }
}

/// What a file is by columns, or its error; a reader's batches are the same.
fn file_projected(
    alloc: Global,
    bytes: &[u8],
    columns: Projection<'_>,
) -> Result<String, IpcReadError> {
    let mut text = String::new(alloc);
    match read_file_projected(alloc, bytes, columns) {
        Err(failure) => write!(text, "error {failure:?}\n")?,
        Ok(file) => {
            put_parts(&mut text, &file.schema, &file.batches)?;
            let reader = SliceFileReader::with_projection(alloc, bytes, columns)?;
            if reader.len() != file.batches.len()
                || reader.schema().fields.len() != file.schema.fields.len()
            {
                text.push_str("another")?;
            }
            for i in 0..reader.len() {
                if reader.batch(alloc, i)?.columns.len() != file.batches[i].columns.len() {
                    text.push_str("another")?;
                }
            }
        }
    }
    Ok(text)
}

#[test]
fn files(rt: HostRuntime) {
    let alloc = rt.alloc();
    for sample in &READ_FILES {
        let bytes = bytes_of(alloc, sample).expect(&rt, "no bytes");
        let text = file_projected(alloc, &bytes, Projection::All).expect(&rt, "no text");
        assert!(rt; text.as_str() == sample.text, "{}: {text}", sample.name);
    }
    let bytes = copied(alloc, LAST_COLUMN_FILE).expect(&rt, "no bytes");
    let text = file_projected(alloc, &bytes, Projection::Names(&["a"])).expect(&rt, "no text");
    assert!(rt; text.as_str() == STREAMS[2].text, "{text}");
    let text = file_projected(alloc, &bytes, Projection::All).expect(&rt, "no text");
    assert!(rt; text.as_str() == "error UnsupportedType\n", "{text}");
}

/// How many prefixes of a stream are read by columns.
fn count_beginnings(alloc: Global, projection: &ProjectedSample) -> Result<usize, IpcReadError> {
    let bytes = copied(alloc, projection.bytes)?;
    let mut count = 0;
    for end in 0..bytes.len() {
        if read_stream_projected(
            alloc,
            &bytes[..end],
            Projection::Names(projection.names),
        ).is_ok()
        {
            count += 1;
        }
    }
    Ok(count)
}

#[test]
fn each_beginning(rt: HostRuntime) {
    for projection in &PROJECTIONS {
        let count = count_beginnings(rt.alloc(), projection).expect(&rt, "no bytes");
        assert!(rt; count < 5, "{count}");
    }
}

#[test]
fn each_byte_changed(rt: HostRuntime) {
    let alloc = rt.alloc();
    for projection in &STREAMS {
        let mut bytes = copied(alloc, projection.bytes).expect(&rt, "no bytes");
        for i in 0..bytes.len() {
            let byte = bytes[i];
            bytes[i] = 255;
            let by_name = projected_result(alloc, &bytes, Projection::Names(projection.names));
            assert!(rt; by_name.is_ok(), "{i}");
            bytes[i] = byte.wrapping_add(1);
            let at = projected_result(alloc, &bytes, Projection::Indices(projection.indices));
            assert!(rt; at.is_ok(), "{i}");
            bytes[i] = byte;
        }
    }
}

// The first record batch of a stream without dictionaries.
fn first_batch(bytes: &[u8]) -> Result<Option<Message<'_>>, IpcReadError> {
    let (_, rest) = next_message(bytes)?;
    let (message, _) = next_message(rest)?;
    Ok(message)
}

/// Two view columns, one with two variadic buffers and one with none; then no view column.
#[test]
fn variadic_buffers_are_counted(rt: HostRuntime) {
    let alloc = rt.alloc();
    let bytes = copied(alloc, STREAMS[1].bytes).expect(&rt, "no bytes");
    let message = first_batch(&bytes).expect(&rt, "no message");
    let message = message.expect(&rt, "the end");
    let (metadata, root) = (message.metadata, message.root);
    // A table of 8 bytes, the length of the vector, and two counts.
    for left in [root.left, 8 + 4 + 16] {
        let counts = read_variadic_buffer_counts(alloc, metadata, root.header, left).expect(
            &rt,
            "no counts",
        );
        assert!(rt; counts.as_slice() == [2i64, 0].as_slice(), "{left}");
    }
    let end = metadata.len() - 1;
    for (end, left, want) in [
        (end + 1, 8 + 4 + 15, IpcReadError::ApparentSize),
        (end + 1, 7, IpcReadError::ApparentSize),
        (end, root.left, IpcReadError::Flatbuffer),
    ] {
        let error = read_variadic_buffer_counts(alloc, &metadata[..end], root.header, left).err();
        assert!(rt; error == Some(want), "{end} {left}: {error:?}");
    }
    let message = first_batch(&WORKED).expect(&rt, "no message");
    let message = message.expect(&rt, "the end");
    let root = message.root;
    let counts = read_variadic_buffer_counts(
        alloc,
        message.metadata,
        root.header,
        root.left,
    ).expect(&rt, "no counts");
    assert!(rt; counts.is_empty());
}

#[test]
fn a_projection_knows_positions(rt: HostRuntime) {
    let picker = ColumnSet::new(rt.alloc(), Projection::Indices(&[1, 3])).expect(&rt, "no picker");
    for i in 0..5 {
        assert!(rt;
            picker.contains_field(&[], i, 0, 0) == Ok(i == 1 || i == 3),
            "{i}"
        );
    }
}
