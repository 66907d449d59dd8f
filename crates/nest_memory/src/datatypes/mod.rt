//! Logical types, physical types and fields, after `datatypes` of arrow2.
mod cloning;
mod conversion;
mod display;
mod equality;
pub mod field;
pub mod floats;
mod parts;
pub mod physical_type;

ghost use Rattle.std.specs.Prelude.{◌≡◌, ◌↔◌, IsTrue};
ghost use Rattle.nest_memory.specs.declared.datatypes.UnionMode.TheVariants.{Sparse};

pub use field::{Field, Metadata};
pub use physical_type::{PhysicalType, PrimitiveType};

/// The unit of a time, a duration or a timestamp.
#[derive(Clone, Copy, Debug, PartialEq, Eq)]
pub enum TimeUnit {
    Second,
    Millisecond,
    Microsecond,
    Nanosecond,
}

/// The unit of a calendar interval.
#[derive(Clone, Copy, Debug, PartialEq, Eq)]
pub enum IntervalUnit {
    /// Months.
    YearMonth,
    /// Days and milliseconds.
    DayTime,
    /// Months, days and nanoseconds.
    MonthDayNano,
}

/// The integer types of dictionary keys.
#[derive(Clone, Copy, Debug, PartialEq, Eq)]
pub enum IntegerType {
    Int8,
    Int16,
    Int32,
    Int64,
    UInt8,
    UInt16,
    UInt32,
    UInt64,
}

/// The mode of a union.
#[derive(Clone, Copy, Debug, PartialEq, Eq)]
pub enum UnionMode {
    /// Each slot has an offset into the child of its type.
    Dense,
    /// A slot has the same index in the child of its type.
    Sparse,
}

impl UnionMode {
    /// Returns whether the mode is `Sparse`.
    pub fn is_sparse(&self) -> bool
        ensures { IsTrue result ↔ (self.now ≡ Sparse) }
    {
        match self {
            UnionMode::Dense => false,
            UnionMode::Sparse => true,
        }
    }
}

/// The logical type of an array, after `Schema.fbs` of the Arrow format.
#[cycle(types)]
#[derive(Drop)]
pub enum DataType {
    /// Nulls only.
    Null,
    /// Booleans, of one bit each.
    Boolean,
    /// Signed integers of 8 bits.
    Int8,
    /// Signed integers of 16 bits.
    Int16,
    /// Signed integers of 32 bits.
    Int32,
    /// Signed integers of 64 bits.
    Int64,
    /// Unsigned integers of 8 bits.
    UInt8,
    /// Unsigned integers of 16 bits.
    UInt16,
    /// Unsigned integers of 32 bits.
    UInt32,
    /// Unsigned integers of 64 bits.
    UInt64,
    /// Floats of 16 bits, of which arrays are not implemented; [`floats`] has the types that represent floats.
    Float16,
    /// Floats of 32 bits, of which arrays are not implemented; [`floats`] has the types that represent floats.
    Float32,
    /// Floats of 64 bits, of which arrays are not implemented; [`floats`] has the types that represent floats.
    Float64,
    /// Units since the epoch (1970-01-01) in 64 bits, with an optional time zone.
    Timestamp(TimeUnit, Option<String>),
    /// Days since the epoch, in 32 bits.
    Date32,
    /// Milliseconds since the epoch, in 64 bits.
    Date64,
    /// Units since midnight, in 32 bits.
    Time32(TimeUnit),
    /// Units since midnight, in 64 bits.
    Time64(TimeUnit),
    /// A number of units, in 64 bits.
    Duration(TimeUnit),
    /// A calendar interval.
    Interval(IntervalUnit),
    /// Bytes, with 32-bit offsets.
    Binary,
    /// Bytes; each slot has this many.
    FixedSizeBinary(usize),
    /// Bytes, with 64-bit offsets.
    LargeBinary,
    /// UTF-8 strings, with 32-bit offsets.
    Utf8,
    /// UTF-8 strings, with 64-bit offsets.
    LargeUtf8,
    /// Lists with 32-bit offsets, and the field of their items.
    List(Box<Field>),
    /// Lists of this many items each, and the field of the items.
    FixedSizeList(Box<Field>, usize),
    /// Lists with 64-bit offsets, and the field of their items.
    LargeList(Box<Field>),
    /// Structs of these fields.
    Struct(Vec<Field>),
    /// Unions of these fields, with optional type ids. Without ids, a field's type id is its position.
    Union(Vec<Field>, Option<Vec<i32>>, UnionMode),
    /// Maps: the field of the entries, which are structs of a key and a value, and whether the keys are sorted.
    Map(Box<Field>, bool),
    /// Dictionary-encoded values: the type of the keys, that of the values, and whether the values are ordered.
    Dictionary(IntegerType, Box<DataType>, bool),
    /// Decimals of 128 bits: the precision and the scale, in digits.
    Decimal(usize, usize),
    /// Decimals of 256 bits: the precision and the scale, in digits.
    Decimal256(usize, usize),
    /// An extension type: its name, its storage type and its metadata.
    Extension(String, Box<DataType>, Option<String>),
}
