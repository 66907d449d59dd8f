//! Dictionaries when record batches are written: their ids, the new and replacement dictionaries that a batch needs first, and the
//! dictionary batches that a file holds. Source: Columnar format, "Dictionary Messages".

pub mod batches;
pub mod emitted;
pub mod examples;
pub mod laws;
pub mod pending;

pub use batches::{DictionaryBatch, any_replaced, dictionary_batches};
pub use emitted::record_emitted;
pub use pending::pending_dictionaries;
