//! Readers and writers of schemas and file footers of the Arrow IPC format.
//!
//! [`read_schema`] returns the schema of a stream, [`read_projected_schema`] only the columns of a [`Projection`].
//! [`write_schema_with_dictionaries`] writes the schema message, [`footer`] reads and writes the footer of a file.
#![tactic(auto)]

mod cloning;
mod columns;
mod dictionaries;
mod dictionary_ids;
mod dictionary_writing;
mod equality;
mod field_support;
mod floats;
pub mod laws;
mod leaf_types;
mod metadata;
mod nested;
mod projected;
mod reading;
mod schema;
mod skipped_fields;
mod stored_types;
mod type_shapes;
mod type_tags;
mod type_writing;
mod types;
mod unions;
mod writing;

pub use cloning::clone_fields;
pub use columns::{ColumnSet, Projection};
pub use dictionaries::{DictionaryTypes, DictionaryValueType};
pub use dictionary_ids::outermost_ids;
pub use field_support::{
    FieldPath, FieldSupport, UnsupportedField, UnsupportedType, columns_support,
};
pub use projected::{
    ProjectedSchema, check_projected_version, projected_schema_at, projected_schema_in_message,
    read_projected_schema,
};
pub use reading::{read_schema, schema_at};
pub use schema::{Schema, SchemaWithDictionaries};
pub use stored_types::{push_arrays, replace_stored};
pub use unions::check_version;
pub use writing::{schema_with_dictionaries_table, write_schema_with_dictionaries};

pub mod footer;
