//! Tables of the Arrow IPC formats as the program `nest` handles them: errors, row selection, and schemas and rows as text.
//!
//! A statement whose value is never read (`let _len = ..`, `x.known()`) shows the prover a fact that the next step needs, and does
//! nothing when it runs.
#![tactic(auto)]

mod batches;
mod columns;
pub mod condition_laws;
mod conditions;
mod difference;
mod encoding;
mod error;
pub mod laws;
mod near_names;
mod other_formats;
mod output;
mod print;
mod records;
mod schema;
mod select;
mod table;
mod take;
mod text;

pub use batches::{batches_of_arrays, push_batch, selected_batches};
pub use columns::{first_unknown_name, resolve_request, resolve_selection, selection_error};
pub use difference::{Difference, difference_text};
pub use encoding::encode_table;
pub use error::{BatchError, CliError, ColumnError};
pub use near_names::{similar_names, unknown_name_text};
pub use other_formats::{OtherFormat, other_format};
pub use output::{read_input, write_output};
pub use print::{array_lines, request_text, table_text};
pub use records::{batch_records, row_array};
pub use schema::row_type;
pub use select::{in_row_order, is_complete, skip_rows, window_difference};
pub use table::Table;
pub use take::take_rows;
pub use text::{schema_lines, support_error, support_lines};
