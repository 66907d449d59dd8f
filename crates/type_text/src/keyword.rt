//! The keywords that data types begin with. No keyword is a prefix of another.
ghost use Rattle.std.specs.Prelude.{◌≡◌};
ghost use Rattle.nest_memory.specs.TypeText.{integer_text};
ghost use Rattle.type_text.specs.Keywords.{keyword_text};
ghost use Rattle.type_text.specs.TypeParser.{ReadsAs, read_keyword};

use crate::error::{PartError, SyntaxError};
use crate::lexer::strip_prefix;
use nest_memory::datatypes::IntegerType;

/// A data type that is its keyword alone, other than an integer.
#[derive(Clone, Copy)]
pub enum PlainType {
    Null,
    Boolean,
    Float16,
    Float32,
    Float64,
    Date32,
    Date64,
    YearMonth,
    DayTime,
    MonthDayNano,
    Binary,
    LargeBinary,
    Utf8,
    LargeUtf8,
}

/// A parametric type: its keyword is followed by a unit or by numbers.
#[derive(Clone, Copy)]
pub enum ParametricType {
    Timestamp,
    Time32,
    Time64,
    Duration,
    FixedSizeBinary,
    Decimal,
    Decimal256,
}

/// A nested type: its keyword is followed by data types.
#[derive(Clone, Copy)]
pub enum NestedType {
    List,
    FixedSizeList,
    LargeList,
    Struct,
    DenseUnion,
    SparseUnion,
    Map,
    Dictionary,
    Extension,
}

/// The keyword of a data type, with its opening bracket.
#[derive(Clone, Copy)]
pub enum Keyword {
    Plain(PlainType),
    Integer(IntegerType),
    Parametric(ParametricType),
    Nested(NestedType),
}

/// All keywords, the most frequent first.
const KEYWORDS: [Keyword; 38] = [
    Keyword::Integer(IntegerType::Int32),
    Keyword::Integer(IntegerType::Int64),
    Keyword::Plain(PlainType::Utf8),
    Keyword::Plain(PlainType::Float64),
    Keyword::Plain(PlainType::Boolean),
    Keyword::Nested(NestedType::List),
    Keyword::Nested(NestedType::Struct),
    Keyword::Nested(NestedType::Dictionary),
    Keyword::Nested(NestedType::Map),
    Keyword::Parametric(ParametricType::Timestamp),
    Keyword::Integer(IntegerType::Int8),
    Keyword::Integer(IntegerType::Int16),
    Keyword::Integer(IntegerType::UInt8),
    Keyword::Integer(IntegerType::UInt16),
    Keyword::Integer(IntegerType::UInt32),
    Keyword::Integer(IntegerType::UInt64),
    Keyword::Plain(PlainType::Null),
    Keyword::Plain(PlainType::Float16),
    Keyword::Plain(PlainType::Float32),
    Keyword::Plain(PlainType::Date32),
    Keyword::Plain(PlainType::Date64),
    Keyword::Plain(PlainType::YearMonth),
    Keyword::Plain(PlainType::DayTime),
    Keyword::Plain(PlainType::MonthDayNano),
    Keyword::Plain(PlainType::Binary),
    Keyword::Plain(PlainType::LargeBinary),
    Keyword::Plain(PlainType::LargeUtf8),
    Keyword::Parametric(ParametricType::Time32),
    Keyword::Parametric(ParametricType::Time64),
    Keyword::Parametric(ParametricType::Duration),
    Keyword::Parametric(ParametricType::FixedSizeBinary),
    Keyword::Parametric(ParametricType::Decimal),
    Keyword::Parametric(ParametricType::Decimal256),
    Keyword::Nested(NestedType::FixedSizeList),
    Keyword::Nested(NestedType::LargeList),
    Keyword::Nested(NestedType::DenseUnion),
    Keyword::Nested(NestedType::SparseUnion),
    Keyword::Nested(NestedType::Extension),
];

impl Keyword {
    /// Returns the text of the keyword.
    fn text(self) -> &'static str
        ensures { result.now ≡ keyword_text self }
    {
        match self {
            Keyword::Plain(kind) => kind.text(),
            Keyword::Integer(key) => integer(key),
            Keyword::Parametric(kind) => kind.text(),
            Keyword::Nested(kind) => kind.text(),
        }
    }
}

impl PlainType {
    ghost use Rattle.type_text.specs.Keywords.{plain_text};

    fn text(self) -> &'static str
        ensures { result.now ≡ plain_text self }
    {
        match self {
            PlainType::Null => "null",
            PlainType::Boolean => "bool",
            PlainType::Float16 => "halffloat",
            PlainType::Float32 => "float",
            PlainType::Float64 => "double",
            PlainType::Date32 => "date32[day]",
            PlainType::Date64 => "date64[ms]",
            PlainType::YearMonth => "month_interval",
            PlainType::DayTime => "day_time_interval",
            PlainType::MonthDayNano => "month_day_nano_interval",
            PlainType::Binary => "binary",
            PlainType::LargeBinary => "large_binary",
            PlainType::Utf8 => "string",
            PlainType::LargeUtf8 => "large_string",
        }
    }
}

fn integer(key: IntegerType) -> &'static str
    ensures { result.now ≡ integer_text key }
{
    match key {
        IntegerType::Int8 => "int8",
        IntegerType::Int16 => "int16",
        IntegerType::Int32 => "int32",
        IntegerType::Int64 => "int64",
        IntegerType::UInt8 => "uint8",
        IntegerType::UInt16 => "uint16",
        IntegerType::UInt32 => "uint32",
        IntegerType::UInt64 => "uint64",
    }
}

impl ParametricType {
    ghost use Rattle.type_text.specs.Keywords.{parametric_text};

    fn text(self) -> &'static str
        ensures { result.now ≡ parametric_text self }
    {
        match self {
            ParametricType::Timestamp => "timestamp[",
            ParametricType::Time32 => "time32[",
            ParametricType::Time64 => "time64[",
            ParametricType::Duration => "duration[",
            ParametricType::FixedSizeBinary => "fixed_size_binary[",
            ParametricType::Decimal => "decimal128(",
            ParametricType::Decimal256 => "decimal256(",
        }
    }
}

impl NestedType {
    ghost use Rattle.type_text.specs.Keywords.{nested_text};

    fn text(self) -> &'static str
        ensures { result.now ≡ nested_text self }
    {
        match self {
            NestedType::List => "list<",
            NestedType::FixedSizeList => "fixed_size_list<",
            NestedType::LargeList => "large_list<",
            NestedType::Struct => "struct<",
            NestedType::DenseUnion => "dense_union<",
            NestedType::SparseUnion => "sparse_union<",
            NestedType::Map => "map<",
            NestedType::Dictionary => "dictionary<values=",
            NestedType::Extension => "extension<",
        }
    }
}

/// Splits the text after the keyword that it begins with.
pub fn keyword_at(text: &str) -> Result<(Keyword, &str), PartError>
    ensures { ReadsAs (λ x. (x.0, x.1.now)) result (read_keyword text.now) }
{
    for keyword in KEYWORDS {
        if let Some(rest) = strip_prefix(text, keyword.text()) {
            return Ok((keyword, rest));
        }
    }
    Err(PartError::Syntax(SyntaxError::Unexpected(text.len())))
}
