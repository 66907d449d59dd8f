//! Iterators over arrays of any nesting.
//!
//! A statement with an unused value (`let _len = ..`, `x.known()`) states a fact for the prover and does nothing else.
#![tactic(auto)]

pub mod dictionary;
pub mod elements;
pub mod examples;
pub mod fixed_size_binary;
pub mod fixed_size_list;
pub mod list;
pub mod map;
pub mod scan;
pub mod struct_;
pub mod tried;
pub mod union;

pub use dictionary::{
    DictionaryIter, DictionaryIterTyped, DictionaryValuesIter, DictionaryValuesIterTyped, KeysIter,
    KeysValuesIter, ScanKeys, TextOffset,
};
pub use elements::{DoubleEnded, Elements, ElementsIter};
pub use fixed_size_binary::{FixedSizeBinaryIter, FixedSizeBinaryValuesIter};
pub use fixed_size_list::{FixedSizeListIter, FixedSizeListValuesIter};
pub use list::{ListIter, ListValuesIter};
pub use map::{MapIter, MapValuesIter};
pub use scan::{Scan, ScanValues};
pub use struct_::{StructIter, StructValueIter};
pub use tried::{NullableElements, OptionalItems, Tried, TryElements};
pub use union::UnionIter;
