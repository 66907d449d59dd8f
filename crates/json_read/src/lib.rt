//! Reads JSON values (RFC 8259), one a line, as the slots of an array of a given data type.
//!
//! A statement whose value is never used (`let _len = ..`, `x.known()`) gives the prover a fact and has no effect at run time.
#![tactic(auto)]

mod builders;
mod error;
mod error_paths;
mod fields;
mod flat;
mod floats;
mod half_numbers;
mod hexadecimal;
pub mod laws;
mod line_split;
mod lines;
mod list_rows;
mod natives;
mod numbers;
mod push;
mod required_fields;
mod struct_rows;
mod text_numbers;
mod texts;
mod unsupported;
mod value_error;
mod values_type;

pub use builders::new_builder;
pub use error::{FieldError, JsonReadError, LineError, NewBuilderError, UnsupportedTypeError};
pub use lines::{JsonRows, read_first_json_lines, read_json_lines};
pub use value_error::ValueError;
