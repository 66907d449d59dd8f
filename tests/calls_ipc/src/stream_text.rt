//! What a reader returns, as the text that is beside the samples.
use crate::schema_text::put_schema;
use ipc::{Batch, File, SliceFileReader, SliceStreamReader, Stream, read_file, read_stream};
use ipc_flatbuf::IpcReadError;
use ipc_io::{FileReader, ReadError};
use ipc_schema::Schema;
use nest_array::any::AnyArray;
use nest_flat::any_native::AnyNative;
use std::alloc::Global;
use std::io::Cursor;

fn put_value(text: &mut String, value: AnyNative) -> Result<(), IpcReadError> {
    match value {
        AnyNative::Int8(number) => write!(text, " {number}")?,
        AnyNative::Int16(number) => write!(text, " {number}")?,
        AnyNative::Int32(number) => write!(text, " {number}")?,
        AnyNative::Int64(number) => write!(text, " {number}")?,
        AnyNative::Int128(number) => write!(text, " {number}")?,
        AnyNative::Int256(number) => write!(text, " {}:{}", number.high, number.low)?,
        AnyNative::UInt8(number) => write!(text, " {number}")?,
        AnyNative::UInt16(number) => write!(text, " {number}")?,
        AnyNative::UInt32(number) => write!(text, " {number}")?,
        AnyNative::UInt64(number) => write!(text, " {number}")?,
        AnyNative::DaysMs(span) => write!(text, " {}:{}", span.days, span.milliseconds)?,
        AnyNative::MonthDayNano(span) => write!(
            text,
            " {}:{}:{}",
            span.months, span.days, span.ns
        )?,
    }
    Ok(())
}

fn put_bytes(text: &mut String, head: &str, bytes: &[u8]) -> Result<(), IpcReadError> {
    text.push_str(head)?;
    for byte in bytes {
        write!(text, "{byte:02x}")?;
    }
    Ok(())
}

fn put_there(text: &mut String, column: &AnyArray, i: usize) -> Result<(), IpcReadError> {
    match column {
        AnyArray::Boolean(array) => {
            text.push_str(if array.value(i) { " 1" } else { " 0" })?;
            Ok(())
        }
        AnyArray::Primitive(array) => put_value(text, array.value(i)),
        AnyArray::FixedSizeBinary(array) => put_bytes(text, " x", array.value(i)),
        AnyArray::Binary(array) => put_bytes(text, " x", array.value(i)),
        AnyArray::LargeBinary(array) => put_bytes(text, " x", array.value(i)),
        AnyArray::Utf8(array) => put_bytes(text, " s", array.value(i).as_bytes()),
        AnyArray::LargeUtf8(array) => put_bytes(text, " s", array.value(i).as_bytes()),
        AnyArray::List(array) => {
            let (start, end) = array.offsets().start_end(i);
            put_items(text, array.values(), start, end)
        }
        AnyArray::LargeList(array) => {
            let (start, end) = array.offsets().start_end(i);
            put_items(text, array.values(), start, end)
        }
        AnyArray::Map(array) => {
            let (start, end) = array.offsets().start_end(i);
            put_items(text, array.field(), start, end)
        }
        AnyArray::FixedSizeList(array) => {
            let size = array.size();
            put_items(text, array.values(), i * size, (i + 1) * size)
        }
        AnyArray::Struct(array) => put_record(text, array.values(), i),
        AnyArray::Union(array) => {
            let (field, place) = array.index(i);
            write!(text, " @{field}:")?;
            put_inner(text, &array.fields()[field], place)
        }
        AnyArray::Dictionary(array) => put_slot(text, array.values(), array.key_value(i)),
        AnyArray::Null(_) => {
            text.push_str(" another")?;
            Ok(())
        }
    }
}

// A slot inside of another: without the blank before it.
fn put_inner(text: &mut String, column: &AnyArray, i: usize) -> Result<(), IpcReadError> {
    let mut inner = String::new(*text.allocator());
    put_slot(&mut inner, column, i)?;
    text.push_str(&inner[1..])?;
    Ok(())
}

fn put_items(
    text: &mut String,
    items: &AnyArray,
    start: usize,
    end: usize,
) -> Result<(), IpcReadError> {
    text.push_str(" [")?;
    for i in start..end {
        put_inner(text, items, i)?;
        text.push_str(",")?;
    }
    text.push_str("]")?;
    Ok(())
}

fn put_record(text: &mut String, children: &[AnyArray], i: usize) -> Result<(), IpcReadError> {
    text.push_str(" {")?;
    for child in children {
        put_inner(text, child, i)?;
        text.push_str(",")?;
    }
    text.push_str("}")?;
    Ok(())
}

fn put_slot(text: &mut String, column: &AnyArray, i: usize) -> Result<(), IpcReadError> {
    let is_union = matches!(column, AnyArray::Union(_));
    if !is_union && column.is_null(i) {
        text.push_str(" N")?;
        return Ok(());
    }
    put_there(text, column, i)
}

/// The text of a slot.
pub fn slot_text(alloc: Global, column: &AnyArray, i: usize) -> Result<String, IpcReadError> {
    let mut text = String::new(alloc);
    put_slot(&mut text, column, i)?;
    Ok(text)
}

/// More rows are not viewed at: a batch without columns may say any number.
const ROWS: usize = 100;

/// A batch and its rows, a line each.
pub fn append_batch(text: &mut String, batch: &Batch) -> Result<(), IpcReadError> {
    put_rows(text, batch.rows, &batch.columns)
}

/// So many rows of columns.
pub fn put_rows(text: &mut String, rows: usize, columns: &[AnyArray]) -> Result<(), IpcReadError> {
    write!(text, "batch {rows}\n")?;
    for i in 0..rows.min(ROWS) {
        text.push_str("row")?;
        for column in columns {
            put_slot(text, column, i)?;
        }
        text.push_str("\n")?;
    }
    Ok(())
}

/// A schema and batches.
pub fn put_parts(
    text: &mut String,
    schema: &Schema,
    batches: &[Batch],
) -> Result<(), IpcReadError> {
    put_schema(text, schema)?;
    for batch in batches {
        append_batch(text, batch)?;
    }
    Ok(())
}

/// What a stream is, or its error.
pub fn text_of_stream(alloc: Global, bytes: &[u8]) -> Result<String, IpcReadError> {
    let mut text = String::new(alloc);
    match read_stream(alloc, bytes) {
        Err(failure) => write!(text, "error {failure:?}\n")?,
        Ok(stream) => {
            put_parts(&mut text, &stream.schema, &stream.batches)?;
            if stream.read < bytes.len() {
                write!(text, "unread {}\n", bytes.len() - stream.read)?;
            }
        }
    }
    Ok(text)
}

// The batches that a reader returns, up to its end or its error; nothing comes after.
fn put_read(text: &mut String, alloc: Global, bytes: &[u8]) -> Result<(), IpcReadError> {
    let mut reader = SliceStreamReader::new(alloc, bytes)?;
    for _ in 0..bytes.len() {
        match reader.next_batch(alloc) {
            Err(failure) => {
                return match reader.next_batch(alloc)? {
                    None => Err(failure),
                    Some(_batch) => Ok(()),
                };
            }
            Ok(None) => {
                return match reader.next_batch(alloc)? {
                    None => Ok(()),
                    Some(batch) => append_batch(text, &batch),
                };
            }
            Ok(Some(batch)) => append_batch(text, &batch)?,
        }
    }
    Ok(())
}

fn text_of_batches(alloc: Global, batches: &[Batch]) -> Result<String, IpcReadError> {
    let mut text = String::new(alloc);
    for batch in batches {
        append_batch(&mut text, batch)?;
    }
    Ok(text)
}

/// What `read_stream` and a reader both return: the same error, or the same batches. None where they differ.
pub fn read_alike(alloc: Global, bytes: &[u8]) -> Option<Result<Stream, IpcReadError>> {
    let mut one_by_one = String::new(alloc);
    let read = put_read(&mut one_by_one, alloc, bytes);
    let stream = match read_stream(alloc, bytes) {
        Ok(stream) => stream,
        Err(failure) if read == Err(failure) => return Some(Err(failure)),
        Err(_) => return None,
    };
    let whole = text_of_batches(alloc, &stream.batches).ok()?;
    if read.is_err() || one_by_one != whole {
        return None;
    }
    Some(Ok(stream))
}

/// Whether the bytes are read, by `read_stream` and by a reader alike. None where they differ.
pub fn is_read(alloc: Global, bytes: &[u8]) -> Option<bool> {
    Some(read_alike(alloc, bytes)?.is_ok())
}

/// What a file is, or its error.
pub fn text_of_file(alloc: Global, bytes: &[u8]) -> Result<String, IpcReadError> {
    let mut text = String::new(alloc);
    match read_file(alloc, bytes) {
        Err(failure) => write!(text, "error {failure:?}\n")?,
        Ok(file) => put_parts(&mut text, &file.schema, &file.batches)?,
    }
    Ok(text)
}

// The batches that a reader of a file returns, each asked for when the one after it was.
fn put_projected(
    text: &mut String,
    reader: &SliceFileReader<'_>,
    alloc: Global,
) -> Result<(), IpcReadError> {
    for i in 0..reader.len() {
        let _last = reader.batch(alloc, reader.len() - 1 - i);
        let batch = reader.batch(alloc, i)?;
        append_batch(text, &batch)?;
    }
    Ok(())
}

fn put_file_read(text: &mut String, alloc: Global, bytes: &[u8]) -> Result<(), IpcReadError> {
    let reader = SliceFileReader::new(alloc, bytes)?;
    put_projected(text, &reader, alloc)
}

// The batches that a reader of the bytes as a stream returns, asked for in the same order.
fn put_device_read(text: &mut String, alloc: Global, bytes: &[u8]) -> Result<(), ReadError> {
    let mut reader = FileReader::new(alloc, Cursor::new(bytes))?;
    for i in 0..reader.len() {
        let _last = reader.batch(alloc, reader.len() - 1 - i);
        let batch = reader.batch(alloc, i)?;
        append_batch(text, &batch)?;
    }
    Ok(())
}

// Whether both return the same error, or the same batches.
fn same_read(
    read: Result<(), IpcReadError>,
    text: &str,
    other: Result<(), ReadError>,
    by: &str,
) -> bool {
    match (read, other) {
        (Ok(()), Ok(())) => text == by,
        (Err(failure), Err(ReadError::Ipc(other))) => failure == other,
        _ => false,
    }
}

/// What `read_file`, a reader and a reader of the bytes as `Read` and `Seek` all return: the same error, or the same batches. None where they
/// differ.
pub fn read_file_alike(alloc: Global, bytes: &[u8]) -> Option<Result<File, IpcReadError>> {
    let mut one_by_one = String::new(alloc);
    let read = put_file_read(&mut one_by_one, alloc, bytes);
    let mut by_device = String::new(alloc);
    let device = put_device_read(&mut by_device, alloc, bytes);
    if !same_read(read, one_by_one.as_str(), device, by_device.as_str()) {
        return None;
    }
    let file = match read_file(alloc, bytes) {
        Ok(file) => file,
        Err(failure) if read == Err(failure) => return Some(Err(failure)),
        Err(_) => return None,
    };
    let whole = text_of_batches(alloc, &file.batches).ok()?;
    if read.is_err() || one_by_one != whole {
        return None;
    }
    Some(Ok(file))
}

/// Whether a file is read, by all three alike. None where they differ.
pub fn is_file_read(alloc: Global, bytes: &[u8]) -> Option<bool> {
    Some(read_file_alike(alloc, bytes)?.is_ok())
}
