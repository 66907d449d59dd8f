//! Flat arrays of each kind, written byte by byte and read from any index of a body; each of their errors once.
//!
//! Flat arrays of each kind byte by byte, and each of their errors.
use ipc_arrays::{
    BatchCursor, BodyLayout, ExpectedLength, layout_columns, read_column, write_columns,
};
use ipc_flatbuf::{BufferSpec, FieldNode, IpcReadError, IpcWriteError};
use nest_array::any::AnyArray;
use nest_array::fixed_size_binary::FixedSizeBinaryArray;
use nest_array::null::NullArray;
use nest_flat::any_primitive::AnyPrimitive;
use nest_flat::binary::BinaryArray;
use nest_flat::boolean::BooleanArray;
use nest_flat::primitive::PrimitiveArray;
use nest_flat::utf8::Utf8Array;
use nest_memory::bitmap::immutable::Bitmap;
use nest_memory::buffer::Buffer;
use nest_memory::datatypes::{DataType, IntervalUnit};
use nest_memory::error::Error;
use nest_memory::offset::Offset;
use nest_memory::offsets::OffsetsBuffer;
use nest_memory::types::{NativeType, days_ms, i256, months_days_ns};
use std::alloc::Global;

// What is written of one column.
fn written(alloc: Global, column: AnyArray) -> Result<(BodyLayout, Vec<u8>), IpcWriteError> {
    let columns = [column];
    let placed = layout_columns(alloc, &columns)?;
    let mut out = Vec::new(alloc);
    write_columns(&mut out, &columns)?;
    Ok((placed, out))
}

fn buffer<T: Copy>(alloc: Global, values: &[T]) -> Result<Buffer<T>, Error> {
    let mut items = Vec::new(alloc);
    for value in values {
        items.push(*value)?;
    }
    Buffer::from_vec(alloc, items)
}

fn offsets<O: Offset>(alloc: Global, values: &[O]) -> Result<OffsetsBuffer<O>, Error> {
    let mut items = Vec::new(alloc);
    for value in values {
        items.push(*value)?;
    }
    OffsetsBuffer::try_new(alloc, items)
}

fn booleans(alloc: Global) -> Result<BooleanArray, Error> {
    let bits = [
        true, false, true, true, false, false, true, false, true, true, false, true,
    ];
    let valid = [
        true, true, false, true, true, true, true, true, true, true, true, true,
    ];
    let bits = Bitmap::from_bools(alloc, &bits)?;
    let valid = Bitmap::from_bools(alloc, &valid)?;
    BooleanArray::try_new(DataType::Boolean, bits, Some(valid))
}

#[test]
fn booleans_are_written_from_bit_0(rt: HostRuntime) {
    let alloc = rt.alloc();
    let whole = booleans(alloc).expect(&rt, "an array");
    let (placed, body) = written(alloc, AnyArray::Boolean(whole)).expect(&rt, "a body");
    let want = [251u8, 15, 0, 0, 0, 0, 0, 0, 77, 11, 0, 0, 0, 0, 0, 0];
    assert!(rt; body.as_slice() == want.as_slice());
    assert!(rt; placed.nodes[0].null_count == 1);
    let part = booleans(alloc).expect(&rt, "an array").sliced(3, 5);
    let (placed, body) = written(alloc, AnyArray::Boolean(part)).expect(&rt, "a body");
    assert!(rt; body.as_slice() == [9u8, 0, 0, 0, 0, 0, 0, 0].as_slice());
    assert!(rt; placed.buffers[0].length == 0);
    assert!(rt; placed.buffers[1].length == 1);
}

#[test]
fn nulls_have_no_buffer(rt: HostRuntime) {
    let alloc = rt.alloc();
    let nulls = NullArray::try_new(DataType::Null, 5).expect(&rt, "an array");
    let (placed, body) = written(alloc, AnyArray::Null(nulls)).expect(&rt, "a body");
    assert!(rt; body.len() == 0 && placed.buffers.len() == 0);
    assert!(rt; placed.nodes[0].length == 5 && placed.nodes[0].null_count == 5);
    let most = NullArray::try_new(DataType::Null, (1 << 63) - 1).expect(&rt, "an array");
    assert!(rt; written(alloc, AnyArray::Null(most)).is_ok());
    let past = NullArray::try_new(DataType::Null, 1 << 63).expect(&rt, "an array");
    assert!(rt; written(alloc, AnyArray::Null(past)).err() == Some(IpcWriteError::Size));
}

// The body of one value.
fn value_bytes<T: NativeType>(
    alloc: Global,
    data_type: DataType,
    value: T,
    wrap: fn(PrimitiveArray<T>) -> AnyPrimitive,
) -> Result<Vec<u8>, Error> {
    let values = buffer(alloc, &[value])?;
    let array = PrimitiveArray::try_new(data_type, values, None)?;
    match written(alloc, AnyArray::Primitive(wrap(array))) {
        Ok((_placed, body)) => Ok(body),
        Err(_) => Ok(Vec::new(alloc)),
    }
}

#[test]
fn wide_values_are_little_endian(rt: HostRuntime) {
    let alloc = rt.alloc();
    let wide = value_bytes(alloc, DataType::Decimal(9, 0), -2i128, AnyPrimitive::Int128).expect(
        &rt, "a body",
    );
    assert!(rt; wide.len() == 16 && wide[0] == 254 && wide[15] == 255);
    let value = i256::from_words(-3, 5);
    let halves = value_bytes(
        alloc,
        DataType::Decimal256(9, 0),
        value,
        AnyPrimitive::Int256,
    )
    .expect(&rt, "a body");
    assert!(rt; halves.len() == 32 && halves[0] == 5 && halves[15] == 0);
    assert!(rt; halves[16] == 253 && halves[31] == 255);
    let span = days_ms {
        days: 1,
        milliseconds: -1,
    };
    let days = value_bytes(
        alloc,
        DataType::Interval(IntervalUnit::DayTime),
        span,
        AnyPrimitive::DaysMs,
    )
    .expect(&rt, "a body");
    assert!(rt; days.as_slice() == [1u8, 0, 0, 0, 255, 255, 255, 255].as_slice());
    let span = months_days_ns {
        months: 1,
        days: 2,
        ns: -1,
    };
    let months = value_bytes(
        alloc,
        DataType::Interval(IntervalUnit::MonthDayNano),
        span,
        AnyPrimitive::MonthDayNano,
    )
    .expect(&rt, "a body");
    let want = [
        1u8, 0, 0, 0, 2, 0, 0, 0, 255, 255, 255, 255, 255, 255, 255, 255,
    ];
    assert!(rt; months.as_slice() == want.as_slice());
}

#[test]
fn strings_are_truncated_to_the_offsets(rt: HostRuntime) {
    let alloc = rt.alloc();
    let indices = offsets(alloc, &[1i32, 3, 3, 6]).expect(&rt, "offsets");
    let bytes = buffer(alloc, b"_abcde_").expect(&rt, "bytes");
    let texts = Utf8Array::try_new(DataType::Utf8, indices, bytes, None).expect(&rt, "an array");
    let (placed, body) = written(alloc, AnyArray::Utf8(texts)).expect(&rt, "a body");
    let want = [
        0u8, 0, 0, 0, 2, 0, 0, 0, 2, 0, 0, 0, 5, 0, 0, 0, b'a', b'b', b'c', b'd', b'e', 0, 0, 0,
    ];
    assert!(rt; body.as_slice() == want.as_slice());
    assert!(rt; placed.buffers.len() == 3 && placed.buffers[2].length == 5);
    let indices = offsets(alloc, &[1i64, 3, 3, 6]).expect(&rt, "offsets");
    let bytes = buffer(alloc, b"_abcde_").expect(&rt, "bytes");
    let strings = BinaryArray::try_new(DataType::LargeBinary, indices, bytes, None)
        .expect(&rt, "an array")
        .sliced(2, 1);
    let (placed, body) = written(alloc, AnyArray::LargeBinary(strings)).expect(&rt, "a body");
    assert!(rt; placed.buffers[1].length == 16 && placed.buffers[2].length == 3);
    assert!(rt; body[0] == 0 && body[8] == 3 && body[16] == b'c');
}

#[test]
fn sized_strings_are_copied(rt: HostRuntime) {
    let alloc = rt.alloc();
    let bytes = buffer(alloc, b"abcdef").expect(&rt, "bytes");
    let valid = Bitmap::from_bools(alloc, &[false, true, true]).expect(&rt, "bits");
    let strings = FixedSizeBinaryArray::try_new(DataType::FixedSizeBinary(2), bytes, Some(valid))
        .expect(&rt, "an array")
        .sliced(1, 2);
    let column = AnyArray::FixedSizeBinary(strings);
    let (placed, body) = written(alloc, column).expect(&rt, "a body");
    assert!(rt; body.as_slice() == [b'c', b'd', b'e', b'f', 0, 0, 0, 0].as_slice());
    assert!(rt; placed.buffers[0].length == 0 && placed.buffers[1].length == 4);
}

// The array of two slots, or its error, of a body that these buffers lie in.
fn read(
    alloc: Global,
    data_type: &DataType,
    rows: usize,
    nulls: i64,
    body: &[u8],
    positions: &[(i64, i64)],
) -> Result<AnyArray, IpcReadError> {
    let nodes = [FieldNode {
        length: rows as i64,
        null_count: nulls,
    }];
    let mut buffers = Vec::new(alloc);
    for (offset, length) in positions {
        buffers.push(BufferSpec {
            offset: *offset,
            length: *length,
        })?;
    }
    let left = BatchCursor {
        nodes: &nodes,
        buffers: &buffers,
        dictionaries: &[],
    };
    match read_column(alloc, data_type, ExpectedLength::Rows(rows), body, left) {
        Ok((array, _left)) => Ok(array),
        Err(failure) => Err(failure),
    }
}

// Offsets of 32 bits from the second byte on, then bytes.
const STRINGS: [u8; 20] = [
    9, 0, 0, 0, 0, 2, 0, 0, 0, 3, 0, 0, 0, 0xc3, 0xa9, b'x', 0xff, 0, 0, 0,
];

#[test]
fn strings_from_any_index(rt: HostRuntime) {
    let alloc = rt.alloc();
    let buffers = [(0, 0), (1, 12), (13, 3)];
    let texts = read(alloc, &DataType::Utf8, 2, 0, &STRINGS, &buffers).expect(&rt, "an array");
    match texts {
        AnyArray::Utf8(array) => {
            assert!(rt; array.value(0).as_bytes() == [0xc3u8, 0xa9].as_slice());
            assert!(rt; array.value(1) == "x");
        }
        _ => assert!(rt; false),
    }
}

#[test]
fn each_error_of_strings(rt: HostRuntime) {
    let alloc = rt.alloc();
    let utf8 = DataType::Utf8;
    let binary = DataType::Binary;
    let cases = [
        (
            &utf8,
            [(0, 0), (1, 11), (13, 3)],
            IpcReadError::BufferTooShort,
        ),
        (&utf8, [(0, 0), (5, 12), (13, 3)], IpcReadError::Offsets),
        (
            &utf8,
            [(0, 0), (1, 12), (13, 2)],
            IpcReadError::OffsetPastChild,
        ),
        (&utf8, [(0, 0), (1, 12), (14, 4)], IpcReadError::Utf8),
        (&utf8, [(0, 0), (1, 12), (13, 9)], IpcReadError::BufferRange),
        (&binary, [(0, 1), (1, 12), (13, 3)], IpcReadError::NullCount),
        (
            &binary,
            [(0, 0), (0, 12), (13, 3)],
            IpcReadError::OffsetPastChild,
        ),
    ];
    for (data_type, buffers, want) in cases {
        match read(alloc, data_type, 2, 0, &STRINGS, &buffers) {
            Ok(_array) => assert!(rt; false),
            Err(failure) => assert!(rt; failure == want, "{failure:?}"),
        }
    }
    let bytes = read(alloc, &binary, 2, 0, &STRINGS, &[(0, 0), (1, 12), (14, 4)]);
    assert!(rt; bytes.is_ok());
    let few = read(alloc, &binary, 2, 0, &STRINGS, &[(0, 0), (1, 12)]);
    assert!(rt; few.err() == Some(IpcReadError::BufferCount));
}

#[test]
fn strings_of_no_slot(rt: HostRuntime) {
    let alloc = rt.alloc();
    let binary = DataType::Binary;
    assert!(rt; read(alloc, &binary, 0, 0, &STRINGS, &[(0, 0), (0, 0), (0, 0)]).is_ok());
    assert!(rt; read(alloc, &binary, 0, 0, &STRINGS, &[(0, 0), (5, 4), (13, 2)]).is_ok());
    // the offsets are not read: the first one past the bytes, and three bytes
    assert!(rt; read(alloc, &binary, 0, 0, &STRINGS, &[(0, 0), (5, 4), (13, 1)]).is_ok());
    assert!(rt; read(alloc, &binary, 0, 0, &STRINGS, &[(0, 0), (5, 3), (13, 2)]).is_ok());
}

#[test]
fn each_error_of_other_kinds(rt: HostRuntime) {
    let alloc = rt.alloc();
    let body = [5u8, 1, 2, 3, 4, 5, 6];
    let bits = [(0, 1), (0, 1)];
    assert!(rt; read(alloc, &DataType::Boolean, 8, 6, &body, &bits).is_ok());
    let short = read(alloc, &DataType::Boolean, 8, 6, &body, &[(0, 1), (1, 0)]);
    assert!(rt; short.err() == Some(IpcReadError::BufferTooShort));
    let counted = read(alloc, &DataType::Boolean, 8, 5, &body, &bits);
    assert!(rt; counted.err() == Some(IpcReadError::NullCount));
    let two = DataType::FixedSizeBinary(2);
    assert!(rt; read(alloc, &two, 3, 0, &body, &[(0, 0), (1, 6)]).is_ok());
    let short = read(alloc, &two, 3, 0, &body, &[(0, 0), (1, 5)]);
    assert!(rt; short.err() == Some(IpcReadError::BufferTooShort));
    let none = read(
        alloc,
        &DataType::FixedSizeBinary(0),
        3,
        0,
        &body,
        &[(0, 0), (1, 6)],
    );
    assert!(rt; none.err() == Some(IpcReadError::TypeRange));
    let huge = read(
        alloc,
        &DataType::FixedSizeBinary(1 << 62),
        1 << 62,
        0,
        &body,
        &[(0, 0), (1, 6)],
    );
    assert!(rt; huge.err() == Some(IpcReadError::BufferTooShort));
    assert!(rt; read(alloc, &DataType::Null, 3, 1, &body, &[]).is_ok());
    assert!(rt;
        read(alloc, &DataType::Null, 3, 4, &body, &[]).err() == Some(IpcReadError::NodeRange)
    );
}
