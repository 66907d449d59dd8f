//! The traits whose methods a program calls: `use tiekvorn::prelude::*`.
pub use nest_array::{
    Array, Boxed, DictionaryKey, FixedSizeBinaryValues, GenericBinaryArray, ListOffset,
};
pub use nest_build::array::MutableArray;
pub use nest_build::dictionary::BuilderKey;
pub use nest_build::push::{TryExtend, TryExtendFromSelf, TryPush};
pub use nest_flat::any_primitive::{Native, NativeArray};
pub use nest_flat::plain::AsPlain;
pub use nest_memory::offset::Offset;
pub use nest_memory::types::NativeType;
pub use nest_scan::{Scan, ScanKeys, ScanValues};
