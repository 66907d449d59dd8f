//! Arrays as JSON text, and arrays from JSON, a value a line.
pub use json_read::{
    FieldError, JsonReadError, JsonRows, LineError, NewBuilderError, UnsupportedTypeError,
    ValueError, new_builder, read_first_json_lines, read_json_lines,
};
pub use json_write::output::{to_json_string, write_json};
pub use json_write::{Json, WriteJson};
