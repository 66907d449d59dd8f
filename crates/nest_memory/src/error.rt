//! The errors of this library's array crates.
ghost use Rattle.std.specs.Prelude.{◌≡◌, alloc_error};
ghost use Rattle.nest_memory.specs.declared.error.Error.TheVariants.{Memory};

use std::alloc::{AllocError, AllocFailed};

/// The result of a call with this library's [`Error`].
pub type Result<T> = std::result::Result<T, Error>;

/// How parts violate the Arrow columnar format, or the layout of this kind of array.
#[derive(Clone, Copy, Debug, PartialEq, Eq, thiserror::Error)]
pub enum SpecError {
    #[error("the data type does not match this kind of array, or its size differs")]
    WrongType,
    #[error("slots of a fixed size must have a size of at least 1")]
    ZeroSize,
    #[error("a child's data type differs from the one that the data type names")]
    ChildType,
    #[error("the number of values is not a multiple of the fixed size")]
    NotMultiple,
    #[error("the validity must have one bit for each slot")]
    ValidityLength,
    #[error("the last offset is past the end of the values")]
    OffsetPastChild,
    #[error("a struct must have at least one field")]
    NoFields,
    #[error("there must be one child for each field")]
    FieldCount,
    #[error("the children of a struct must have equal lengths")]
    ChildLength,
    #[error("a union has at most 127 fields")]
    TooManyFields,
    #[error("a dense union must have one offset for each type id")]
    OffsetCount,
    #[error("a dense union requires offsets, and a sparse union must have none")]
    UnionMode,
    #[error("a union with type ids must have one for each field")]
    IdCount,
    #[error("the type ids of a union must be from 0 to 127")]
    IdRange,
    #[error("a slot of the union has a type id that no field has")]
    UnionType,
    #[error("a slot of the union is outside its child")]
    UnionSlot,
    #[error("the dictionary keys are not of the key type of the data type")]
    KeyType,
    #[error("a dictionary key is negative or past the end of the values")]
    KeyRange,
    #[error("offsets must start at or above 0 and never decrease")]
    Offsets,
    #[error("the values are not UTF-8, or an offset is inside a character")]
    Utf8,
}

/// Why an argument is invalid.
#[derive(Clone, Copy, Debug, PartialEq, Eq, thiserror::Error)]
pub enum ArgumentError {
    #[error("the field's data type differs from that of the map's entries")]
    ChildType,
    #[error("the entries of a map must be a struct of exactly two fields")]
    MapInner,
    #[error("a null array or a union has no validity")]
    NoValidity,
    #[error("the size of the item differs from that of the slots")]
    ItemSize,
    #[error("the type of the item, or of the other builder, differs from this builder's")]
    ItemType,
    #[error("a row of the builder is incomplete")]
    Incomplete,
    #[error("the lengths do not end at the end of the values")]
    LengthsSum,
    #[error("the values of the dictionary are not of the requested type")]
    ValuesType,
    #[error("the child of a new builder must be empty")]
    ChildNotEmpty,
}

/// The error returned by the functions of arrays and builders.
#[derive(Clone, Copy, Debug, PartialEq, Eq, thiserror::Error)]
pub enum Error {
    #[error("out of specification: {0}")]
    OutOfSpec(SpecError),
    #[error("invalid argument: {0}")]
    InvalidArgumentError(ArgumentError),
    #[error("a length, a product, an offset or a key overflows its type")]
    Overflow,
    #[error("not yet implemented: arrays of floats")]
    NotYetImplemented,
    #[error("out of memory")]
    Memory(AllocError),
}

impl From<AllocError> for Error {
    ghost from_gives = { λ refused e. e ≡ Memory refused };

    fn from(refused: AllocError) -> Error {
        Error::Memory(refused)
    }
}

impl<T: Drop> From<AllocFailed<T>> for Error {
    ghost from_gives = { λ _ e. e ≡ Memory alloc_error };

    fn from(_refused: AllocFailed<T>) -> Error {
        Error::Memory(AllocError)
    }
}
