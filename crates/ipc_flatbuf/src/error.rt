//! The errors of reading and of writing Arrow IPC data.
ghost use Rattle.std.specs.Prelude.{◌≡◌};

use crate::CompressionError;
use std::alloc::{AllocError, AllocFailed};

/// Why bytes were not read: the first error in the order of reading, or `Memory` in place of it or of a later one.
#[derive(Clone, Copy, Debug, PartialEq, Eq, thiserror::Error)]
pub enum IpcReadError {
    /// The bytes end inside of a message, or a file has fewer than 18 bytes.
    #[error("data is truncated: the bytes end inside of a message, or a file is shorter than 18 bytes")]
    Truncated,
    /// The length of the metadata of a message is negative.
    #[error("metadata length of a message is negative")]
    MetadataLength,
    /// The metadata is not a valid flatbuffer: an offset, a vtable, a field or a vector is out of range.
    #[error("metadata is not a valid flatbuffer: an offset, a vtable, a field or a vector is out of range")]
    Flatbuffer,
    /// The apparent size of the metadata exceeds 64 times its length.
    ///
    /// The apparent size counts a table, vector or string once for each offset that refers to it.
    #[error("apparent size of the metadata exceeds 64 times its length")]
    ApparentSize,
    /// A string of the metadata is not valid UTF-8.
    #[error("string of the metadata is not valid UTF-8")]
    MetadataUtf8,
    /// The metadata version is neither V4 nor V5, or it is V4 and the schema has a union.
    ///
    /// Unions of version V4 have validity bitmaps, which are not supported.
    #[error("metadata version is neither V4 nor V5, or it is V4 and the schema has a union")]
    Version,
    /// The message header is not a schema, a dictionary batch or a record batch, or not the one that is expected here.
    #[error("unexpected message header type")]
    HeaderType,
    /// The body length of a message is negative, or a schema message has a body.
    #[error("body length of a message is negative, or a schema message has a body")]
    BodyLength,
    /// The stream does not begin with a schema message, or the footer has no schema.
    #[error("stream does not begin with a schema message, or footer has no schema")]
    MissingSchema,
    /// The data is not little-endian.
    #[error("data is not little-endian")]
    Endianness,
    /// The fields nest deeper than 64 levels.
    #[error("field is nested deeper than 64 levels")]
    Depth,
    /// A field has no type.
    #[error("field has no type")]
    MissingType,
    /// The type of a field is not a type of the format.
    #[error("type of a field is unknown")]
    UnknownType,
    /// The type of a field is valid but not supported.
    #[error("type of a field is not supported")]
    UnsupportedType,
    /// A parameter of a type is out of range: a bit width, unit, size, precision, scale, union mode or dictionary kind.
    #[error("parameter of a type is out of range")]
    TypeRange,
    /// The type ids of a union are not one id from 0 to 127 for each field, or it has more than 127 fields.
    #[error("type ids of a union are not one id from 0 to 127 for each of at most 127 fields")]
    UnionIds,
    /// The number of children of a field does not match its type.
    #[error("number of children of a field does not match its type")]
    ChildCount,
    /// The child of a map is not a struct of two fields.
    #[error("entries of a map are not a struct of two fields")]
    MapEntries,
    /// Two fields have one dictionary id but different value types.
    #[error("fields with the same dictionary id have different value types")]
    DictionaryType,
    /// A `KeyValue` of custom metadata has no key or no value.
    #[error("custom metadata has an entry without key or value")]
    Metadata,
    /// The id of a dictionary batch is not the id of a field.
    #[error("id of a dictionary batch is not in the schema")]
    UnknownDictionary,
    /// A dictionary batch has no record batch.
    #[error("dictionary batch has no data")]
    MissingData,
    /// A record batch or a delta refers to a dictionary that was not read before.
    #[error("dictionary is used before it is read")]
    MissingDictionary,
    /// A file has two dictionary batches of one id, and the second is not a delta.
    #[error("file replaces a dictionary: two batches of one id are not deltas")]
    DuplicateDictionary,
    /// A delta would exceed the offset type, or follows values whose nested dictionaries were replaced.
    #[error("delta cannot be appended to its dictionary")]
    Delta,
    /// The number of rows of a batch is negative, or the length of a column differs from it.
    #[error("number of rows is negative or differs from the length of a column")]
    RowCount,
    /// The codec or the method of the compression of a body is unknown.
    #[error("compression of a message body is neither LZ4 nor Zstandard of its buffers")]
    UnsupportedCompression,
    /// The offset or length of a buffer is negative, or the buffer ends after the body.
    #[error("buffer is outside of the message body")]
    BufferRange,
    /// The total length of all buffers exceeds the length of the body.
    #[error("total length of the buffers exceeds the length of the message body")]
    BufferSum,
    /// The number of field nodes does not match the fields.
    #[error("number of field nodes does not match the fields")]
    NodeCount,
    /// The number of buffers does not match the layouts of the fields.
    #[error("number of buffers does not match the layouts of the fields")]
    BufferCount,
    /// The length or null count of a field node is negative, or the null count exceeds the length.
    #[error("length or null count of a field node is out of range")]
    NodeRange,
    /// The length of a child of a struct, fixed-size list or sparse union does not match its parent.
    #[error("length of a child does not match its parent")]
    ChildLength,
    /// A compressed buffer is not decoded.
    #[error("{0}")]
    Compression(CompressionError),
    /// A buffer is shorter than the length of the array requires.
    #[error("buffer is shorter than the length of the array requires")]
    BufferTooShort,
    /// The null count of a field node differs from the number of unset bits of the validity bitmap.
    #[error("null count does not match the validity bitmap")]
    NullCount,
    /// The first offset is negative, or the offsets decrease.
    #[error("offsets are negative or decrease")]
    Offsets,
    /// The last offset exceeds the length of the child or of the data.
    #[error("last offset exceeds the length of the values")]
    OffsetPastChild,
    /// A value of a string array is not valid UTF-8.
    #[error("value of a string array is not valid UTF-8")]
    Utf8,
    /// The view of a valid slot has a negative length, is not within a variadic buffer, or has another prefix than its string.
    #[error("view of a string is not within a variadic buffer, or its prefix is not that of the string")]
    View,
    /// A type id of a union array is not the id of a field.
    #[error("type id of a union array is not the id of a field")]
    UnionType,
    /// The key of a valid slot is not the index of a dictionary value.
    #[error("dictionary key is out of range")]
    KeyRange,
    /// An offset of a dense union exceeds the length of its child.
    #[error("offset of a dense union is out of range")]
    UnionOffset,
    /// A file does not begin and end with the magic `ARROW1`.
    #[error("file does not begin and end with ARROW1")]
    Magic,
    /// The footer length is out of range for the size of the file.
    #[error("footer length is out of range for the file")]
    FooterLength,
    /// A block of the footer is not a message of its lengths before the footer, or the blocks together exceed the file.
    #[error("block of the footer does not match a message of the file")]
    Block,
    /// An allocation failed.
    #[error("out of memory")]
    Memory,
}

impl From<AllocError> for IpcReadError {
    ghost use Rattle.ipc_flatbuf.specs.declared.error.IpcReadError.TheVariants.{Memory};

    ghost from_gives = { λ _ e. e ≡ Memory };

    fn from(_refused: AllocError) -> IpcReadError {
        IpcReadError::Memory
    }
}

impl<T: Drop> From<AllocFailed<T>> for IpcReadError {
    ghost use Rattle.ipc_flatbuf.specs.declared.error.IpcReadError.TheVariants.{Memory};

    ghost from_gives = { λ _ e. e ≡ Memory };

    fn from(_refused: AllocFailed<T>) -> IpcReadError {
        IpcReadError::Memory
    }
}

impl From<CompressionError> for IpcReadError {
    ghost use Rattle.ipc_flatbuf.specs.Compression.{read_error_of};

    ghost from_gives = { λ error e. e ≡ read_error_of error };

    fn from(error: CompressionError) -> IpcReadError {
        match error {
            CompressionError::BufferRange => IpcReadError::BufferRange,
            CompressionError::Memory => IpcReadError::Memory,
            _ => IpcReadError::Compression(error),
        }
    }
}

/// Why a schema or a batch is not written: the first error in the order of writing, or `Memory` in place of it or of a later one.
#[derive(Clone, Copy, Debug, PartialEq, Eq, thiserror::Error)]
pub enum IpcWriteError {
    /// The fields nest deeper than 64 levels.
    #[error("field is nested deeper than 64 levels")]
    Depth,
    /// An extension type is the storage of another, or custom metadata of a field has a key that is reserved for extension types.
    #[error("extension type is nested in another, or a metadata key is reserved for extension types")]
    Extension,
    /// The value type of a dictionary is itself a dictionary or an extension type.
    #[error("value type of a dictionary is a dictionary or an extension type")]
    Dictionary,
    /// The type of a field cannot be written.
    #[error("type of a field is not supported")]
    Type,
    /// The type of a field is a floating-point type, whose arrays cannot be written.
    #[error("arrays of floating-point types are not supported")]
    Float,
    /// A 32-bit time has microseconds or nanoseconds, or a 64-bit time has seconds or milliseconds.
    #[error("unit does not match the bit width of a time type")]
    Unit,
    /// A size, precision or scale exceeds 2^31 - 1, a length exceeds 2^63 - 1, or message metadata exceeds 2^31 - 1 bytes.
    #[error("size, length or message metadata exceeds the range of the format")]
    Size,
    /// The columns of a batch do not match the schema in number or type, or their lengths differ.
    #[error("columns do not match the schema, or their lengths differ")]
    Columns,
    /// A file would need to replace a dictionary, which the file format does not allow.
    #[error("file cannot replace a dictionary")]
    DictionaryReplacement,
    /// An allocation failed.
    #[error("out of memory")]
    Memory,
}

impl From<AllocError> for IpcWriteError {
    ghost use Rattle.ipc_flatbuf.specs.declared.error.IpcWriteError.TheVariants.{Memory};

    ghost from_gives = { λ _ e. e ≡ Memory };

    fn from(_refused: AllocError) -> IpcWriteError {
        IpcWriteError::Memory
    }
}

impl<T: Drop> From<AllocFailed<T>> for IpcWriteError {
    ghost use Rattle.ipc_flatbuf.specs.declared.error.IpcWriteError.TheVariants.{Memory};

    ghost from_gives = { λ _ e. e ≡ Memory };

    fn from(_refused: AllocFailed<T>) -> IpcWriteError {
        IpcWriteError::Memory
    }
}
