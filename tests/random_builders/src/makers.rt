//! Builders without a row.

use nest_any::{AnyMutableArray, AnyMutableFlat, MutableStructArray};
use nest_build::fixed_size_binary::MutableFixedSizeBinaryArray;
use nest_build::null::MutableNullArray;
use nest_flat::any_primitive::mutable::AnyMutablePrimitive;
use nest_flat::binary::mutable::MutableBinaryArray;
use nest_flat::boolean::mutable::MutableBooleanArray;
use nest_flat::primitive::mutable::MutablePrimitiveArray;
use nest_flat::utf8::mutable::MutableUtf8Array;
use nest_memory::datatypes::DataType;
use nest_memory::datatypes::physical_type::{PhysicalType, PrimitiveType};
use nest_memory::error::Error;
use std::alloc::Global;

/// The builder of a type, with those below it.
pub fn no_rows(alloc: Global, data_type: &DataType) -> Result<AnyMutableArray, Error> {
    let own_type = data_type.clone(alloc)?;
    match data_type.to_physical_type() {
        PhysicalType::Null => Ok(AnyMutableArray::Null(MutableNullArray::new(alloc, own_type, 0))),
        PhysicalType::Struct => {
            let children = children(alloc, data_type)?;
            let records = MutableStructArray::try_new(alloc, own_type, children, None)?;
            Ok(AnyMutableArray::Struct(records))
        }
        _ => match child_type(data_type) {
            Some(child) => AnyMutableArray::try_nested(alloc, own_type, no_rows(alloc, child)?),
            None => Ok(AnyMutableArray::Flat(flat(alloc, own_type)?)),
        },
    }
}

/// The type of a list's items or of a dictionary's values. Values are pushed by their logical type.
pub fn child_type(data_type: &DataType) -> Option<&DataType> {
    match data_type.value_type() {
        Some(values) => Some(values.to_logical_type()),
        None => data_type.item_type(),
    }
}

fn children(alloc: Global, data_type: &DataType) -> Result<Vec<AnyMutableArray>, Error> {
    let mut children = Vec::new(alloc);
    for field in data_type.fields() {
        children.push(no_rows(alloc, field.data_type())?)?;
    }
    Ok(children)
}

/// The builder of a type of values without children.
pub fn flat(alloc: Global, data_type: DataType) -> Result<AnyMutableFlat, Error> {
    Ok(match data_type.to_physical_type() {
        PhysicalType::Boolean => {
            AnyMutableFlat::Boolean(MutableBooleanArray::new(alloc).to(data_type))
        }
        PhysicalType::Binary => AnyMutableFlat::Binary(MutableBinaryArray::new(alloc)?),
        PhysicalType::LargeBinary => AnyMutableFlat::LargeBinary(MutableBinaryArray::new(alloc)?),
        PhysicalType::Utf8 => AnyMutableFlat::Utf8(MutableUtf8Array::new(alloc)?),
        PhysicalType::LargeUtf8 => AnyMutableFlat::LargeUtf8(MutableUtf8Array::new(alloc)?),
        PhysicalType::FixedSizeBinary => AnyMutableFlat::FixedSizeBinary(
            MutableFixedSizeBinaryArray::new(alloc, data_type.size().unwrap_or(1)),
        ),
        PhysicalType::Primitive(kind) => {
            AnyMutableFlat::Primitive(primitive(alloc, kind, data_type)?)
        }
        _ => return Err(Error::NotYetImplemented),
    })
}

fn primitive(
    alloc: Global,
    kind: PrimitiveType,
    data_type: DataType,
) -> Result<AnyMutablePrimitive, Error> {
    // One arm for each kind, whose variants have one name.
    macro_rules! of_kind {
        ($($kind:ident)*) => {
            match kind {
                $(PrimitiveType::$kind => {
                    AnyMutablePrimitive::$kind(MutablePrimitiveArray::new(alloc).to(data_type))
                })*
                _ => return Err(Error::NotYetImplemented),
            }
        };
    }
    Ok(
        of_kind!(Int8 Int16 Int32 Int64 Int128 Int256 UInt8 UInt16 UInt32 UInt64 DaysMs MonthDayNano),
    )
}
