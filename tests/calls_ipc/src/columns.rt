//! Columns of integers, from nodes, buffers and a body.
//!
//! A column is read from a body, of each kind of integers; each of its errors once.
use ipc_arrays::{BatchCursor, ExpectedLength, read_column, read_columns};
use ipc_flatbuf::{BufferSpec, FieldNode, IpcReadError};
use nest_array::any::AnyArray;
use nest_flat::any_native::AnyNative;
use nest_memory::datatypes::DataType;
use std::alloc::Global;

/// The body of 7 and a null, of 32 bits.
const BODY: [u8; 16] = [1, 0, 0, 0, 0, 0, 0, 0, 7, 0, 0, 0, 0, 0, 0, 0];

// The native value of a slot.
fn value(column: &AnyArray, i: usize) -> Option<AnyNative> {
    match column {
        AnyArray::Primitive(array) => Some(array.value(i)),
        _ => None,
    }
}

fn read(
    alloc: Global,
    data_type: DataType,
    numbers: (i64, i64),
    bits: (i64, i64),
    values: (i64, i64),
) -> Result<AnyArray, IpcReadError> {
    let nodes = [FieldNode {
        length: numbers.0,
        null_count: numbers.1,
    }];
    let buffers = [
        BufferSpec {
            offset: bits.0,
            length: bits.1,
        },
        BufferSpec {
            offset: values.0,
            length: values.1,
        },
    ];
    let left = BatchCursor {
        nodes: &nodes,
        buffers: &buffers,
        dictionaries: &[],
    };
    match read_column(alloc, &data_type, ExpectedLength::Rows(2), &BODY, left) {
        Ok((array, _left)) => Ok(array),
        Err(error) => Err(error),
    }
}

#[test]
fn seven_and_null(rt: HostRuntime) {
    let array = read(rt.alloc(), DataType::Int32, (2, 1), (0, 1), (8, 8)).expect(&rt, "a column");
    assert!(rt; array.len() == 2);
    assert!(rt; *array.data_type() == DataType::Int32);
    assert!(rt; value(&array, 0) == Some(AnyNative::Int32(7)));
    assert!(rt; array.is_null(1));
}

#[test]
fn without_nulls(rt: HostRuntime) {
    let array = read(rt.alloc(), DataType::UInt16, (2, 0), (0, 0), (7, 4)).expect(&rt, "a column");
    assert!(rt; array.null_count() == 0);
    assert!(rt; value(&array, 0) == Some(AnyNative::UInt16(1792)));
    assert!(rt; value(&array, 1) == Some(AnyNative::UInt16(0)));
}

#[test]
fn each_fault(rt: HostRuntime) {
    for (numbers, bits, values, want) in [
        ((-1, 0), (0, 1), (8, 8), IpcReadError::NodeRange),
        ((2, -1), (0, 1), (8, 8), IpcReadError::NodeRange),
        ((2, 3), (0, 1), (8, 8), IpcReadError::NodeRange),
        ((3, 1), (0, 1), (8, 8), IpcReadError::RowCount),
        ((2, 1), (0, 17), (8, 8), IpcReadError::BufferRange),
        ((2, 1), (0, 0), (8, 8), IpcReadError::BufferTooShort),
        ((2, 2), (0, 1), (8, 8), IpcReadError::NullCount),
        ((2, 0), (0, 1), (8, 8), IpcReadError::NullCount),
        ((2, 1), (0, 1), (8, 7), IpcReadError::BufferTooShort),
    ] {
        match read(rt.alloc(), DataType::Int32, numbers, bits, values) {
            Ok(_array) => assert!(rt; false),
            Err(error) => assert!(rt; error == want),
        }
    }
}

// The error where nothing is read of so much.
fn fault_of(alloc: Global, left: BatchCursor<'_>) -> Option<IpcReadError> {
    match read_column(
        alloc,
        &DataType::Int32,
        ExpectedLength::Rows(2),
        &BODY,
        left,
    ) {
        Ok((_array, _left)) => None,
        Err(error) => Some(error),
    }
}

#[test]
fn nothing_left(rt: HostRuntime) {
    let nodes = [FieldNode {
        length: 2,
        null_count: 0,
    }];
    let none = BatchCursor {
        nodes: &[],
        buffers: &[],
        dictionaries: &[],
    };
    assert!(rt; fault_of(rt.alloc(), none) == Some(IpcReadError::NodeCount));
    let one = BatchCursor {
        nodes: &nodes,
        buffers: &[],
        dictionaries: &[],
    };
    assert!(rt; fault_of(rt.alloc(), one) == Some(IpcReadError::BufferCount));
}

/// The body as two columns of numbers of 32 and of 64 bits, by these nodes and buffers.
fn both(
    alloc: Global,
    nodes: &[FieldNode],
    buffers: &[BufferSpec],
) -> Result<Vec<AnyArray>, IpcReadError> {
    let types = [DataType::Int32, DataType::UInt64];
    let left = BatchCursor {
        nodes,
        buffers,
        dictionaries: &[],
    };
    read_columns(alloc, &types, 2, &BODY, left)
}

// The first error, if there is one.
fn both_fail(alloc: Global, nodes: &[FieldNode], buffers: &[BufferSpec]) -> Option<IpcReadError> {
    match both(alloc, nodes, buffers) {
        Ok(_columns) => None,
        Err(error) => Some(error),
    }
}

fn region(offset: i64, length: i64) -> BufferSpec {
    BufferSpec { offset, length }
}

#[test]
fn two_columns_use_all_nodes_and_buffers(rt: HostRuntime) {
    let alloc = rt.alloc();
    let nulls = FieldNode {
        length: 2,
        null_count: 1,
    };
    let full = FieldNode {
        length: 2,
        null_count: 0,
    };
    let buffers = [
        region(0, 1),
        region(8, 8),
        region(3, 0),
        region(0, 16),
        region(0, 0),
    ];
    let columns = both(alloc, &[nulls, full], &buffers[..4]).expect(&rt, "two columns");
    assert!(rt; columns.len() == 2);
    assert!(rt; value(&columns[0], 0) == Some(AnyNative::Int32(7)) && columns[0].is_null(1));
    assert!(rt; columns[1].null_count() == 0);
    assert!(rt; value(&columns[1], 0) == Some(AnyNative::UInt64(1)));
    assert!(rt; value(&columns[1], 1) == Some(AnyNative::UInt64(7)));
    let short = both_fail(alloc, &[nulls], &buffers[..4]);
    assert!(rt; short == Some(IpcReadError::NodeCount));
    let node_left = both_fail(alloc, &[nulls, full, full], &buffers);
    assert!(rt; node_left == Some(IpcReadError::NodeCount));
    let buffer_left = both_fail(alloc, &[nulls, full], &buffers);
    assert!(rt; buffer_left == Some(IpcReadError::BufferCount));
}
