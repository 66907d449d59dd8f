//! Data types without children, before their strings are copied.
ghost use Rattle.std.specs.Prelude.{◌≡◌, Ok, option_map};
ghost use Rattle.nest_memory.specs.TypeTree as types;
ghost use Rattle.nest_memory.specs.TypeOf.{type_of};
ghost use Rattle.ipc_flatbuf.specs.ReadResults.{ReturnsOrRunsOut};
ghost use Rattle.ipc_schema.specs.LeafModels.{leaf_tree};

use crate::stored_types::{binary_view, decimal32, decimal64, utf8_view};
use ipc_flatbuf::IpcReadError;
use nest_memory::datatypes::floats::{Precision, float_type};
use nest_memory::datatypes::{DataType, IntegerType, IntervalUnit, TimeUnit};
use std::alloc::Global;

/// A data type without children, whose time zone is a string of the metadata.
#[derive(Clone, Copy)]
pub enum Leaf<'a> {
    Null,
    Boolean,
    Integer(IntegerType),
    Float(Precision),
    Decimal32(usize, usize),
    Decimal64(usize, usize),
    Decimal(usize, usize),
    Decimal256(usize, usize),
    Date32,
    Date64,
    Time32(TimeUnit),
    Time64(TimeUnit),
    Timestamp(TimeUnit, Option<&'a str>),
    Duration(TimeUnit),
    Interval(IntervalUnit),
    Binary,
    LargeBinary,
    FixedSizeBinary(usize),
    Utf8,
    LargeUtf8,
    BinaryView,
    Utf8View,
}

fn timestamp_of(alloc: Global, unit: TimeUnit, zone: Option<&str>) -> Result<DataType, IpcReadError>
    ensures { ReturnsOrRunsOut type_of result (Ok (types.timestamp unit (option_map (λ z. z.now) zone.entry))) }
{
    match zone {
        None => Ok(DataType::Timestamp(unit, None)),
        Some(zone) => {
            let zone = String::from_str(alloc, zone)?;
            Ok(DataType::Timestamp(unit, Some(zone)))
        }
    }
}

/// Returns the data type with a copy of its time zone.
pub fn data_type_of(alloc: Global, leaf: Leaf<'_>) -> Result<DataType, IpcReadError>
    ensures { ReturnsOrRunsOut type_of result (Ok (leaf_tree leaf.entry)) }
{
    match leaf {
        Leaf::Null => Ok(DataType::Null),
        Leaf::Boolean => Ok(DataType::Boolean),
        Leaf::Integer(integer) => Ok(DataType::from(integer)),
        Leaf::Float(precision) => Ok(float_type(alloc, precision)?),
        Leaf::Decimal32(digits, after) => Ok(decimal32(alloc, digits, after)?),
        Leaf::Decimal64(digits, after) => Ok(decimal64(alloc, digits, after)?),
        Leaf::Decimal(digits, after) => Ok(DataType::Decimal(digits, after)),
        Leaf::Decimal256(digits, after) => Ok(DataType::Decimal256(digits, after)),
        Leaf::Date32 => Ok(DataType::Date32),
        Leaf::Date64 => Ok(DataType::Date64),
        Leaf::Time32(unit) => Ok(DataType::Time32(unit)),
        Leaf::Time64(unit) => Ok(DataType::Time64(unit)),
        Leaf::Timestamp(unit, zone) => timestamp_of(alloc, unit, zone),
        Leaf::Duration(unit) => Ok(DataType::Duration(unit)),
        Leaf::Interval(unit) => Ok(DataType::Interval(unit)),
        Leaf::Binary => Ok(DataType::Binary),
        Leaf::LargeBinary => Ok(DataType::LargeBinary),
        Leaf::FixedSizeBinary(size) => Ok(DataType::FixedSizeBinary(size)),
        Leaf::Utf8 => Ok(DataType::Utf8),
        Leaf::LargeUtf8 => Ok(DataType::LargeUtf8),
        Leaf::BinaryView => Ok(binary_view(alloc)?),
        Leaf::Utf8View => Ok(utf8_view(alloc)?),
    }
}
