//! Streams of flat arrays of every kind, message by message, by types that are named here; and written again.
//!
//! Flat arrays of every kind, of another implementation: read, or rejected; each window written and round-trip; each prefix
//! of their bodies, and each byte changed.
use crate::samples::{READ_FLAT, REJECTED_FLAT, Sample};
use crate::samples_read::bytes_of;
use crate::stream_text::put_rows;
use ipc_arrays::{BatchCursor, layout_columns, read_columns, write_columns};
use ipc_flatbuf::batch::{BatchMetadata, read_batch};
use ipc_flatbuf::message::next_message;
use ipc_flatbuf::{IpcReadError, IpcWriteError};
use nest_array::any::AnyArray;
use nest_memory::datatypes::{DataType, IntervalUnit, TimeUnit};
use std::alloc::Global;

// A timestamp's type with a zone.
fn zoned(alloc: Global, unit: TimeUnit, zone: &str) -> Result<DataType, IpcReadError> {
    let mut name = String::new(alloc);
    name.push_str(zone)?;
    Ok(DataType::Timestamp(unit, Some(name)))
}

fn times(alloc: Global) -> Result<Vec<DataType>, IpcReadError> {
    let mut types = Vec::new(alloc);
    types.push(DataType::Timestamp(TimeUnit::Second, None))?;
    types.push(zoned(alloc, TimeUnit::Millisecond, "")?)?;
    types.push(zoned(alloc, TimeUnit::Microsecond, "UTC")?)?;
    types.push(zoned(alloc, TimeUnit::Nanosecond, "Europe/Oslo")?)?;
    types.push(DataType::Duration(TimeUnit::Second))?;
    types.push(DataType::Duration(TimeUnit::Millisecond))?;
    types.push(DataType::Duration(TimeUnit::Microsecond))?;
    types.push(DataType::Duration(TimeUnit::Nanosecond))?;
    Ok(types)
}

fn dates(alloc: Global) -> Result<Vec<DataType>, IpcReadError> {
    let types = vec![in alloc;
        DataType::Date32,
        DataType::Date64,
        DataType::Time32(TimeUnit::Second),
        DataType::Time32(TimeUnit::Millisecond),
        DataType::Time64(TimeUnit::Microsecond),
        DataType::Time64(TimeUnit::Nanosecond),
    ]?;
    Ok(types)
}

// The types of a sample's columns.
fn types_of(alloc: Global, name: &str) -> Result<Vec<DataType>, IpcReadError> {
    let types = match name {
        "null" => vec![in alloc; DataType::Null]?,
        "boolean" => vec![in alloc; DataType::Boolean, DataType::Boolean]?,
        "boolean_16" => vec![in alloc; DataType::Boolean]?,
        "binary" => vec![in alloc; DataType::Binary, DataType::LargeBinary]?,
        "utf8" => vec![in alloc; DataType::Utf8, DataType::LargeUtf8]?,
        "decimals" => vec![in alloc;
            DataType::Decimal(38, 2),
            DataType::Decimal256(76, 5),
            DataType::Decimal(5, 0),
        ]?,
        "intervals" => vec![in alloc;
            DataType::Interval(IntervalUnit::YearMonth),
            DataType::Interval(IntervalUnit::DayTime),
            DataType::Interval(IntervalUnit::MonthDayNano),
        ]?,
        "dates_times" => dates(alloc)?,
        "timestamps_durations" => times(alloc)?,
        "fixed_size_binary" => vec![in alloc;
            DataType::FixedSizeBinary(3),
            DataType::FixedSizeBinary(1),
        ]?,
        "offset_inside_character" => vec![in alloc; DataType::Utf8]?,
        _ => vec![in alloc; DataType::Int32, DataType::Utf8]?,
    };
    Ok(types)
}

// The columns that the first batch of a stream encodes, and its rows.
fn columns_of(alloc: Global, sample: &Sample) -> Result<(usize, Vec<AnyArray>), IpcReadError> {
    let bytes = bytes_of(alloc, sample)?;
    let types = types_of(alloc, sample.name)?;
    let (_schema, rest) = next_message(&bytes)?;
    match next_message(rest)? {
        (None, _) => Err(IpcReadError::Truncated),
        (Some(message), _) => {
            let root = message.root;
            let batch = read_batch(
                alloc,
                message.metadata,
                root.header,
                root.left,
                root.body_length,
            )?;
            let columns = read_by(alloc, &types, &batch, message.body)?;
            Ok((batch.rows, columns))
        }
    }
}

fn read_by(
    alloc: Global,
    types: &[DataType],
    batch: &BatchMetadata,
    body: &[u8],
) -> Result<Vec<AnyArray>, IpcReadError> {
    let left = BatchCursor {
        nodes: &batch.nodes,
        buffers: &batch.buffers,
        dictionaries: &[],
    };
    read_columns(alloc, types, batch.rows, body, left)
}

fn text_of(alloc: Global, sample: &Sample) -> Result<String, IpcReadError> {
    let mut text = String::new(alloc);
    match columns_of(alloc, sample) {
        Err(failure) => write!(text, "error {failure:?}\n")?,
        Ok((rows, columns)) => put_rows(&mut text, rows, &columns)?,
    }
    Ok(text)
}

#[test]
fn each_kind_is_read(rt: HostRuntime) {
    for sample in &READ_FLAT {
        let text = text_of(rt.alloc(), sample).expect(&rt, "no text");
        assert!(rt; text.as_str() == sample.text, "{}: {text}", sample.name);
    }
}

#[test]
fn each_error_of_flat_arrays(rt: HostRuntime) {
    for sample in &REJECTED_FLAT {
        let text = text_of(rt.alloc(), sample).expect(&rt, "no text");
        assert!(rt; text.as_str() == sample.text, "{}: {text}", sample.name);
    }
}

// What is written of columns, as it is round-trip.
fn again(
    alloc: Global,
    types: &[DataType],
    rows: usize,
    columns: &[AnyArray],
) -> Result<Result<Vec<AnyArray>, IpcReadError>, IpcWriteError> {
    let placed = layout_columns(alloc, columns)?;
    let mut body = Vec::new(alloc);
    write_columns(&mut body, columns)?;
    let left = BatchCursor {
        nodes: &placed.nodes,
        buffers: &placed.buffers,
        dictionaries: &[],
    };
    Ok(read_columns(alloc, types, rows, &body, left))
}

#[test]
fn each_kind_is_written_again(rt: HostRuntime) {
    let alloc = rt.alloc();
    for sample in &READ_FLAT {
        let (rows, columns) = columns_of(alloc, sample).expect(&rt, "no columns");
        let types = types_of(alloc, sample.name).expect(&rt, "no types");
        let read = again(alloc, &types, rows, &columns)
            .expect(&rt, "no body")
            .expect(&rt, "no columns");
        assert!(rt; read.len() == columns.len());
        for i in 0..columns.len() {
            assert!(rt; read[i] == columns[i], "{}", sample.name);
        }
    }
}

// Whether each window of columns is round-trip as it was.
fn windows_are_same(alloc: Global, sample: &Sample) -> Result<bool, IpcReadError> {
    let types = types_of(alloc, sample.name)?;
    let (rows, _) = columns_of(alloc, sample)?;
    for start in 0..rows {
        for count in 0..rows - start + 1 {
            let (_, mut columns) = columns_of(alloc, sample)?;
            for column in &mut columns {
                column.slice(start, count);
            }
            match again(alloc, &types, count, &columns) {
                Err(_) => return Ok(false),
                Ok(read) => {
                    let read = read?;
                    for i in 0..columns.len() {
                        if read[i] != columns[i] {
                            return Ok(false);
                        }
                    }
                }
            }
        }
    }
    Ok(true)
}

#[test]
fn each_window_is_read_back(rt: HostRuntime) {
    for sample in &READ_FLAT {
        let same = windows_are_same(rt.alloc(), sample).expect(&rt, "no columns");
        assert!(rt; same, "{}", sample.name);
    }
}

// Whether columns are read of each prefix of a batch's body, and of each body that differs from it in one byte: an result comes,
// and what is read is written and round-trip.
fn are_decoded(alloc: Global, sample: &Sample) -> Result<usize, IpcReadError> {
    let bytes = bytes_of(alloc, sample)?;
    let types = types_of(alloc, sample.name)?;
    let (_schema, rest) = next_message(&bytes)?;
    let (Some(message), _) = next_message(rest)? else {
        return Err(IpcReadError::Truncated);
    };
    let root = message.root;
    let batch = read_batch(
        alloc,
        message.metadata,
        root.header,
        root.left,
        root.body_length,
    )?;
    let mut body = Vec::new(alloc);
    body.extend_from_slice(message.body)?;
    let mut count = 0;
    for size in 0..body.len() {
        count += is_read(alloc, &types, &batch, &body[..size])?;
    }
    for index in 0..body.len() {
        let old = body[index];
        for new in [0, 128, 255, old.wrapping_add(1)] {
            body[index] = new;
            count += is_read(alloc, &types, &batch, &body)?;
        }
        body[index] = old;
    }
    Ok(count)
}

// 1 where the columns are read, and then round-trip of what is written of them.
fn is_read(
    alloc: Global,
    types: &[DataType],
    batch: &BatchMetadata,
    body: &[u8],
) -> Result<usize, IpcReadError> {
    let Ok(columns) = read_by(alloc, types, batch, body) else {
        return Ok(0);
    };
    match again(alloc, types, batch.rows, &columns) {
        Err(_) => Err(IpcReadError::Memory),
        Ok(read) => {
            let read = read?;
            for i in 0..columns.len() {
                if read[i] != columns[i] {
                    return Err(IpcReadError::Memory);
                }
            }
            Ok(1)
        }
    }
}

#[test]
fn each_beginning_and_each_byte(rt: HostRuntime) {
    for sample in &READ_FLAT {
        let count = are_decoded(rt.alloc(), sample).expect(&rt, "columns that are not read back");
        assert!(rt; count > 0 || sample.name == "null", "{}", sample.name);
    }
}
