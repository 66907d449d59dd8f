//! The tags of type tables.
ghost use Rattle.std.specs.Prelude.{◌≡◌};
ghost use Rattle.ipc_schema.specs.Types.{spec_known_tag, spec_tag_of, spec_type_position};

use ipc_flatbuf::IpcReadError;

/// The supported types without children (Schema.fbs, union `Type`).
#[derive(Clone, Copy, Debug, PartialEq, Eq)]
pub enum LeafTag {
    Null,
    Int,
    FloatingPoint,
    Binary,
    Utf8,
    Bool,
    Decimal,
    Date,
    Time,
    Timestamp,
    Interval,
    FixedSizeBinary,
    Duration,
    LargeBinary,
    LargeUtf8,
    BinaryView,
    Utf8View,
}

/// The supported types.
#[derive(Clone, Copy, Debug, PartialEq, Eq)]
pub enum Tag {
    Leaf(LeafTag),
    List,
    LargeList,
    FixedSizeList,
    Struct,
    Map,
    Union,
}

fn known_tag(number: u8) -> Result<Tag, IpcReadError>
    ensures { result ≡ spec_known_tag number }
{
    match number {
        1 => Ok(Tag::Leaf(LeafTag::Null)),
        2 => Ok(Tag::Leaf(LeafTag::Int)),
        3 => Ok(Tag::Leaf(LeafTag::FloatingPoint)),
        4 => Ok(Tag::Leaf(LeafTag::Binary)),
        5 => Ok(Tag::Leaf(LeafTag::Utf8)),
        6 => Ok(Tag::Leaf(LeafTag::Bool)),
        7 => Ok(Tag::Leaf(LeafTag::Decimal)),
        8 => Ok(Tag::Leaf(LeafTag::Date)),
        9 => Ok(Tag::Leaf(LeafTag::Time)),
        10 => Ok(Tag::Leaf(LeafTag::Timestamp)),
        11 => Ok(Tag::Leaf(LeafTag::Interval)),
        12 => Ok(Tag::List),
        13 => Ok(Tag::Struct),
        14 => Ok(Tag::Union),
        15 => Ok(Tag::Leaf(LeafTag::FixedSizeBinary)),
        16 => Ok(Tag::FixedSizeList),
        17 => Ok(Tag::Map),
        18 => Ok(Tag::Leaf(LeafTag::Duration)),
        19 => Ok(Tag::Leaf(LeafTag::LargeBinary)),
        20 => Ok(Tag::Leaf(LeafTag::LargeUtf8)),
        21 => Ok(Tag::LargeList),
        23 => Ok(Tag::Leaf(LeafTag::BinaryView)),
        24 => Ok(Tag::Leaf(LeafTag::Utf8View)),
        _ => Err(IpcReadError::UnsupportedType),
    }
}

fn tag_of(number: u8) -> Result<Tag, IpcReadError>
    ensures { result ≡ spec_tag_of number }
{
    if number == 0 {
        Err(IpcReadError::MissingType)
    } else if number > 26 {
        Err(IpcReadError::UnknownType)
    } else {
        known_tag(number)
    }
}

/// Returns the type of a field and the position of its table.
///
/// # Errors
/// [`IpcReadError::MissingType`], [`IpcReadError::UnknownType`] or [`IpcReadError::UnsupportedType`].
pub fn type_position(number: u8, to: Option<usize>) -> Result<(Tag, usize), IpcReadError>
    ensures { result ≡ spec_type_position number to }
{
    match to {
        None => Err(IpcReadError::MissingType),
        Some(position) => {
            let tag = tag_of(number)?;
            Ok((tag, position))
        }
    }
}
