//! Arrow arrays of any nesting.
//!
//! Statements such as `let _len = ..` and `x.known()` show the prover a fact that the next step needs.
//! They do nothing at run time.
#![tactic(auto)]

pub mod any;
pub mod array;
pub mod boxed;
pub mod columns;
pub mod dictionary;
mod downcasts;
pub mod equal;
pub mod fixed_size_binary;
pub mod fixed_size_list;
pub mod generic_binary;
pub mod list;
pub mod map;
pub mod null;
pub mod nulls;
pub mod scalar;
pub mod steps;
pub mod struct_;
mod types;
pub mod union;
pub mod window;

pub use any::{AnyArray, clone};
pub use array::Array;
pub use boxed::Boxed;
pub use columns::{map_of_entries, nullable_fields, struct_of_columns};
pub use dictionary::DictionaryArray;
pub use dictionary::keys::{AnyKeys, DictionaryKey};
pub use fixed_size_binary::FixedSizeBinaryArray;
pub use fixed_size_list::FixedSizeListArray;
pub use generic_binary::{FixedSizeBinaryValues, GenericBinaryArray};
pub use list::ListArray;
pub use list::large::LargeListArray;
pub use list::offset::ListOffset;
pub use map::MapArray;
pub use null::NullArray;
pub use nulls::{new_empty_array, new_null_array};
pub use scalar::{AnyScalar, ScalarValue, new_scalar, scalars_at};
pub use steps::Steps;
pub use struct_::StructArray;
pub use union::UnionArray;
pub use window::Window;
