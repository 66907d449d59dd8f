//! Conversions of data types to logical and physical types, and of native types to data types.
ghost use Rattle.std.specs.Prelude.{◌≡◌};
ghost use Rattle.nest_memory.specs.TypeOf.{type_of};
ghost use Rattle.nest_memory.specs.TypeTree.{logical_type};
ghost use Rattle.nest_memory.specs.Physical.{physical_type, integer_tree, primitive_tree};

use crate::datatypes::physical_type::{PhysicalType, PrimitiveType};
use crate::datatypes::{DataType, IntegerType, IntervalUnit};

impl DataType {
    /// Returns the data type without its outer extension types.
    pub fn to_logical_type(&self) -> &DataType
        ensures { type_of result.now ≡ logical_type (type_of self.now) }
    {
        match self {
            DataType::Extension(_, inner, _) => inner.to_logical_type(),
            _ => self,
        }
    }

    /// Returns the physical type of the logical type.
    pub fn to_physical_type(&self) -> PhysicalType
        ensures { result ≡ physical_type (type_of self.now) }
    {
        match self {
            DataType::Null => PhysicalType::Null,
            DataType::Boolean => PhysicalType::Boolean,
            DataType::Int8 => PhysicalType::Primitive(PrimitiveType::Int8),
            DataType::Int16 => PhysicalType::Primitive(PrimitiveType::Int16),
            DataType::Int32
            | DataType::Date32
            | DataType::Time32(_)
            | DataType::Interval(IntervalUnit::YearMonth) => PhysicalType::Primitive(
                PrimitiveType::Int32,
            ),
            DataType::Int64
            | DataType::Date64
            | DataType::Timestamp(_, _)
            | DataType::Time64(_)
            | DataType::Duration(_) => PhysicalType::Primitive(PrimitiveType::Int64),
            DataType::Decimal(_, _) => PhysicalType::Primitive(PrimitiveType::Int128),
            DataType::Decimal256(_, _) => PhysicalType::Primitive(PrimitiveType::Int256),
            DataType::UInt8 => PhysicalType::Primitive(PrimitiveType::UInt8),
            DataType::UInt16 => PhysicalType::Primitive(PrimitiveType::UInt16),
            DataType::UInt32 => PhysicalType::Primitive(PrimitiveType::UInt32),
            DataType::UInt64 => PhysicalType::Primitive(PrimitiveType::UInt64),
            DataType::Float16 => PhysicalType::Primitive(PrimitiveType::Float16),
            DataType::Float32 => PhysicalType::Primitive(PrimitiveType::Float32),
            DataType::Float64 => PhysicalType::Primitive(PrimitiveType::Float64),
            DataType::Interval(IntervalUnit::DayTime) => PhysicalType::Primitive(
                PrimitiveType::DaysMs,
            ),
            DataType::Interval(IntervalUnit::MonthDayNano) => PhysicalType::Primitive(
                PrimitiveType::MonthDayNano,
            ),
            DataType::Binary => PhysicalType::Binary,
            DataType::FixedSizeBinary(_) => PhysicalType::FixedSizeBinary,
            DataType::LargeBinary => PhysicalType::LargeBinary,
            DataType::Utf8 => PhysicalType::Utf8,
            DataType::LargeUtf8 => PhysicalType::LargeUtf8,
            DataType::List(_) => PhysicalType::List,
            DataType::FixedSizeList(_, _) => PhysicalType::FixedSizeList,
            DataType::LargeList(_) => PhysicalType::LargeList,
            DataType::Struct(_) => PhysicalType::Struct,
            DataType::Union(_, _, _) => PhysicalType::Union,
            DataType::Map(_, _) => PhysicalType::Map,
            DataType::Dictionary(key, _, _) => PhysicalType::Dictionary(*key),
            DataType::Extension(_, inner, _) => inner.to_physical_type(),
        }
    }
}

impl From<IntegerType> for DataType {
    ghost from_gives = { λ key t. type_of t ≡ integer_tree key };

    fn from(key: IntegerType) -> DataType {
        match key {
            IntegerType::Int8 => DataType::Int8,
            IntegerType::Int16 => DataType::Int16,
            IntegerType::Int32 => DataType::Int32,
            IntegerType::Int64 => DataType::Int64,
            IntegerType::UInt8 => DataType::UInt8,
            IntegerType::UInt16 => DataType::UInt16,
            IntegerType::UInt32 => DataType::UInt32,
            IntegerType::UInt64 => DataType::UInt64,
        }
    }
}

/// Returns the default data type of a native type: the first one with that physical type.
///
/// Those of `Int128` and `Int256` are decimals of precision 32 and scale 32.
impl From<PrimitiveType> for DataType {
    ghost from_gives = { λ primitive t. type_of t ≡ primitive_tree primitive };

    fn from(primitive: PrimitiveType) -> DataType {
        match primitive {
            PrimitiveType::Int8 => DataType::Int8,
            PrimitiveType::Int16 => DataType::Int16,
            PrimitiveType::Int32 => DataType::Int32,
            PrimitiveType::Int64 => DataType::Int64,
            PrimitiveType::Int128 => DataType::Decimal(32, 32),
            PrimitiveType::Int256 => DataType::Decimal256(32, 32),
            PrimitiveType::UInt8 => DataType::UInt8,
            PrimitiveType::UInt16 => DataType::UInt16,
            PrimitiveType::UInt32 => DataType::UInt32,
            PrimitiveType::UInt64 => DataType::UInt64,
            PrimitiveType::Float16 => DataType::Float16,
            PrimitiveType::Float32 => DataType::Float32,
            PrimitiveType::Float64 => DataType::Float64,
            PrimitiveType::DaysMs => DataType::Interval(IntervalUnit::DayTime),
            PrimitiveType::MonthDayNano => DataType::Interval(IntervalUnit::MonthDayNano),
        }
    }
}
