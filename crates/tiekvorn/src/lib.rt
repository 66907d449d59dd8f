//! Nested columnar arrays in the Arrow format, with the names of arrow2.
//!
//! Arrays, their builders, data types, buffers and offsets are at the top; calls on whole arrays are in `compute`, files and streams in
//! `arrow_ipc`, JSON in `json`. Each item's documentation and contract are in the crate that declares it. The words of a contract are
//! imported from that crate, as in `ghost use Rattle.nest_model.specs.Meaning.{slots_of}`.
#![tactic(auto)]

pub mod array;
pub mod arrow_ipc;
pub mod compute;
pub mod error;
pub mod json;
pub mod prelude;
pub mod types;

pub use nest_any::{
    AnyMutableArray, AnyMutableDictionary, AnyMutableFlat, ListBuilder, MutableStructArray,
};
pub use nest_array::{
    AnyArray, AnyKeys, AnyScalar, Array, Boxed, DictionaryArray, DictionaryKey,
    FixedSizeBinaryArray, FixedSizeBinaryValues, FixedSizeListArray, GenericBinaryArray,
    LargeListArray, ListArray, ListOffset, MapArray, NullArray, ScalarValue, StructArray,
    UnionArray, Window, new_empty_array, new_null_array, new_scalar, scalars_at,
};
pub use nest_build::array::MutableArray;
pub use nest_build::dictionary::{BuilderKey, MutableDictionaryArray};
pub use nest_build::fixed_size_binary::MutableFixedSizeBinaryArray;
pub use nest_build::fixed_size_list::MutableFixedSizeListArray;
pub use nest_build::flat::{FlatBuilder, TakesValue};
pub use nest_build::list::{ListWidth, MutableListArray};
pub use nest_build::null::MutableNullArray;
pub use nest_build::push::{TryExtend, TryExtendFromSelf, TryPush};
pub use nest_build::tried::push_all;
pub use nest_flat::any_native::AnyNative;
pub use nest_flat::any_primitive::mutable::AnyMutablePrimitive;
pub use nest_flat::any_primitive::{AnyPrimitive, Native, NativeArray};
pub use nest_flat::binary::BinaryArray;
pub use nest_flat::binary::mutable::MutableBinaryArray;
pub use nest_flat::boolean::BooleanArray;
pub use nest_flat::boolean::mutable::MutableBooleanArray;
pub use nest_flat::flat_array::FlatArray;
pub use nest_flat::plain::{AsPlain, Plain};
pub use nest_flat::primitive::PrimitiveArray;
pub use nest_flat::primitive::mutable::MutablePrimitiveArray;
pub use nest_flat::utf8::Utf8Array;
pub use nest_flat::utf8::mutable::MutableUtf8Array;
pub use nest_memory::bitmap::{Bitmap, MutableBitmap};
pub use nest_memory::buffer::Buffer;
pub use nest_memory::datatypes::{
    DataType, Field, IntegerType, IntervalUnit, Metadata, PhysicalType, PrimitiveType, TimeUnit,
    UnionMode,
};
pub use nest_memory::offsets::{Offsets, OffsetsBuffer};
pub use nest_scan::{Scan, ScanKeys, ScanValues};
