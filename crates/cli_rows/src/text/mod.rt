//! Schemas and rows as lines of text.

mod lines;
mod support;

pub use lines::{row_lines, schema_lines};
pub use support::{support_error, support_lines};
