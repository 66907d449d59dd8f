//! Schemas.
use crate::dictionaries::DictionaryTypes;
use nest_memory::datatypes::{Field, Metadata};

/// The fields of the columns of all record batches, with custom metadata (Schema.fbs, table `Schema`).
#[derive(Drop)]
pub struct Schema {
    /// The field of each column.
    pub fields: Vec<Field>,
    /// The custom metadata.
    pub metadata: Metadata,
}

/// A schema and the dictionaries of its fields, whose ids are in pre-order, as field nodes and buffers are.
#[derive(Drop)]
pub struct SchemaWithDictionaries {
    pub schema: Schema,
    pub dictionaries: DictionaryTypes,
}
