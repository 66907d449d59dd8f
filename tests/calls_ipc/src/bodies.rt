//! Columns that are written, byte by byte, and round-trip.
//!
//! Columns that are written, byte by byte, of windows too, and round-trip; of dictionaries the keys.
use ipc_arrays::{BatchCursor, BodyLayout, FixedWidth, layout_columns, read_columns, write_columns};
use ipc_flatbuf::IpcWriteError;
use nest_array::any::AnyArray;
use nest_array::dictionary::DictionaryArray;
use nest_array::dictionary::keys::AnyKeys;
use nest_flat::any_primitive::AnyPrimitive;
use nest_flat::primitive::PrimitiveArray;
use nest_memory::bitmap::immutable::Bitmap;
use nest_memory::buffer::Buffer;
use nest_memory::datatypes::{DataType, IntegerType};
use nest_memory::error::Error;
use nest_memory::types::NativeType;
use std::alloc::Global;

// Numbers, and whether each is there.
fn array<T: NativeType>(
    alloc: Global,
    data_type: DataType,
    numbers: &[T],
    valid: &[bool],
) -> Result<PrimitiveArray<T>, Error> {
    let mut values = Vec::new(alloc);
    for number in numbers {
        values.push(*number)?;
    }
    let values = Buffer::from_vec(alloc, values)?;
    let validity = Bitmap::from_bools(alloc, valid)?;
    PrimitiveArray::try_new(data_type, values, Some(validity))
}

fn bytes_of(alloc: Global, columns: &[AnyArray]) -> Result<(BodyLayout, Vec<u8>), IpcWriteError> {
    let placed = layout_columns(alloc, columns)?;
    let mut out = Vec::new(alloc);
    write_columns(&mut out, columns)?;
    Ok((placed, out))
}

// The columns that are read of what was written of these.
fn again(alloc: Global, rows: usize, columns: &[AnyArray]) -> Result<Option<Vec<AnyArray>>, Error> {
    let Ok((placed, body)) = bytes_of(alloc, columns) else {
        return Ok(None);
    };
    let mut types = Vec::new(alloc);
    for column in columns {
        types.push(column.data_type().clone(alloc)?)?;
    }
    let mut values = Vec::new(alloc);
    for column in columns {
        if let AnyArray::Dictionary(array) = column {
            values.push(Some(array.values()))?;
        }
    }
    let left = BatchCursor {
        nodes: &placed.nodes,
        buffers: &placed.buffers,
        dictionaries: &values,
    };
    Ok(read_columns(alloc, &types, rows, &body, left).ok())
}

#[test]
fn seven_and_null(rt: HostRuntime) {
    let alloc = rt.alloc();
    let numbers = array(alloc, DataType::Int32, &[7i32, 0], &[true, false]).expect(&rt, "an array");
    let columns = [AnyArray::Primitive(AnyPrimitive::Int32(numbers))];
    let (placed, body) = bytes_of(alloc, &columns).expect(&rt, "bytes");
    assert!(rt; body.as_slice() == [1u8, 0, 0, 0, 0, 0, 0, 0, 7, 0, 0, 0, 0, 0, 0, 0].as_slice());
    assert!(rt; placed.length == 16);
    assert!(rt; placed.nodes[0].length == 2);
    assert!(rt; placed.nodes[0].null_count == 1);
    assert!(rt; placed.buffers[0].offset == 0);
    assert!(rt; placed.buffers[0].length == 1);
    assert!(rt; placed.buffers[1].offset == 8);
    assert!(rt; placed.buffers[1].length == 8);
}

#[test]
fn two_columns(rt: HostRuntime) {
    let alloc = rt.alloc();
    let first = array(
        alloc,
        DataType::Int16,
        &[-2i16, 258, 5],
        &[true, true, true],
    )
    .expect(&rt, "an array");
    let second = array(
        alloc,
        DataType::UInt8,
        &[1u8, 2, 255],
        &[false, false, true],
    )
    .expect(&rt, "an array");
    let columns = [
        AnyArray::Primitive(AnyPrimitive::Int16(first)),
        AnyArray::Primitive(AnyPrimitive::UInt8(second)),
    ];
    let (placed, body) = bytes_of(alloc, &columns).expect(&rt, "bytes");
    // No validity where nothing is null, six bytes of values, then a validity and three bytes.
    let want = [
        254u8, 255, 2, 1, 5, 0, 0, 0, 4, 0, 0, 0, 0, 0, 0, 0, 1, 2, 255, 0, 0, 0, 0, 0,
    ];
    assert!(rt; body.as_slice() == want.as_slice());
    assert!(rt; placed.length == 24);
    assert!(rt; placed.nodes[1].null_count == 2);
    assert!(rt; placed.buffers[0].length == 0);
    assert!(rt; placed.buffers[1].offset == 0);
    assert!(rt; placed.buffers[1].length == 6);
    assert!(rt; placed.buffers[2].offset == 8);
    assert!(rt; placed.buffers[2].length == 1);
    assert!(rt; placed.buffers[3].offset == 16);
    assert!(rt; placed.buffers[3].length == 3);
}

#[test]
fn bits_of_a_window_begin_at_bit_0(rt: HostRuntime) {
    let alloc = rt.alloc();
    let valid = [
        true, false, true, true, false, true, true, true, false, true, false, false,
    ];
    let numbers = [1u8, 2, 3, 4, 5, 6, 7, 8, 9, 10, 11, 12];
    for (start, count, bits) in [(1, 3, 6), (3, 9, 93), (8, 4, 2), (9, 3, 1)] {
        let whole = array(alloc, DataType::UInt8, &numbers, &valid).expect(&rt, "an array");
        let columns = [AnyArray::Primitive(AnyPrimitive::UInt8(whole.sliced(start, count)))];
        let (placed, body) = bytes_of(alloc, &columns).expect(&rt, "bytes");
        assert!(rt; body[0] == bits);
        assert!(rt; body[1] == 0);
        assert!(rt; body[8] == numbers[start]);
        assert!(rt; placed.buffers[0].length == (if count > 8 { 2 } else { 1 }));
        let read = again(alloc, count, &columns)
            .expect(&rt, "memory")
            .expect(&rt, "columns");
        assert!(rt; read[0] == columns[0]);
    }
}

// Numbers that follow from a first one.
fn next(state: u64) -> u64 {
    state
        .wrapping_mul(6364136223846793005)
        .wrapping_add(1442695040888963407)
}

#[test]
fn random_columns_are_read_back(rt: HostRuntime) {
    let alloc = rt.alloc();
    let mut state = 1;
    for case in 0..60usize {
        let mut values = Vec::new(alloc);
        let mut valid = Vec::new(alloc);
        for _ in 0..40 {
            state = next(state);
            assert!(rt; values.push(state.cast_signed()).is_ok());
            assert!(rt; valid.push((state >> 40) % 5 != 0 || case % 7 == 0).is_ok());
        }
        let whole = array(alloc, DataType::Int64, &values, &valid).expect(&rt, "an array");
        let start = case % 17;
        let count = case % 23;
        let columns = [AnyArray::Primitive(AnyPrimitive::Int64(whole.sliced(start, count)))];
        let read = again(alloc, count, &columns)
            .expect(&rt, "memory")
            .expect(&rt, "columns");
        assert!(rt; read[0] == columns[0]);
        assert!(rt; read[0].null_count() == columns[0].null_count());
    }
}

#[test]
fn no_rows_and_no_columns(rt: HostRuntime) {
    let alloc = rt.alloc();
    let none = array::<u64>(alloc, DataType::UInt64, &[], &[]).expect(&rt, "an array");
    let columns = [AnyArray::Primitive(AnyPrimitive::UInt64(none))];
    let (placed, body) = bytes_of(alloc, &columns).expect(&rt, "bytes");
    assert!(rt; body.len() == 0);
    assert!(rt; placed.buffers.len() == 2);
    let read = again(alloc, 0, &columns)
        .expect(&rt, "memory")
        .expect(&rt, "columns");
    assert!(rt; read[0] == columns[0]);
    let (placed, body) = bytes_of(alloc, &[]).expect(&rt, "bytes");
    assert!(rt; body.len() == 0);
    assert!(rt; placed.nodes.len() == 0);
}

// The keys 1 and 0 of two numbers, and a null between them.
fn keyed(alloc: Global) -> Result<DictionaryArray, Error> {
    let keys = array(alloc, DataType::Int8, &[1i8, 1, 0], &[true, false, true])?;
    let values = array(alloc, DataType::Int32, &[7i32, 8], &[true, true])?;
    let values = AnyArray::Primitive(AnyPrimitive::Int32(values));
    let inner = Box::new(alloc, DataType::Int32)?;
    let data_type = DataType::Dictionary(IntegerType::Int8, inner, false);
    DictionaryArray::try_new(alloc, data_type, AnyKeys::Int8(keys), values)
}

#[test]
fn keys_are_written_and_no_values(rt: HostRuntime) {
    let alloc = rt.alloc();
    let columns = [AnyArray::Dictionary(keyed(alloc).expect(&rt, "an array"))];
    let (placed, body) = bytes_of(alloc, &columns).expect(&rt, "bytes");
    assert!(rt; body.as_slice() == [5u8, 0, 0, 0, 0, 0, 0, 0, 1, 0, 0, 0, 0, 0, 0, 0].as_slice());
    assert!(rt; placed.nodes.len() == 1 && placed.buffers.len() == 2);
    let read = again(alloc, 3, &columns)
        .expect(&rt, "memory")
        .expect(&rt, "columns");
    assert!(rt; read[0] == columns[0]);
}

#[test]
fn values_are_little_endian(rt: HostRuntime) {
    let mut out = Vec::new(rt.alloc());
    assert!(rt; (-2i16).put(&mut out).is_ok());
    assert!(rt; 258u32.put(&mut out).is_ok());
    assert!(rt; out.as_slice() == [254u8, 255, 2, 1, 0, 0].as_slice());
}
