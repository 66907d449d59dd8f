//! The builder of dictionary arrays: its rows, its values, and the hash table of the values.

mod data_type;
mod hash;
mod key;
mod mutable;
pub mod rows;
mod table;
mod values;

pub use key::BuilderKey;
pub use mutable::MutableDictionaryArray;
pub use rows::DictionaryRows;
pub use table::KeyTable;
