//! Arrow streams and files read one record batch at a time: schemas and rows as text, the last rows, the number of rows, rows by index, what
//! the metadata says, and the first difference of two inputs. The memory is that of one record batch of each input, of the known dictionaries, and of the rows that
//! are returned, twice for the last rows of a stream.
#![tactic(auto)]

mod by_index;
mod comparison;
mod counting;
mod failures;
pub mod info;
mod input;
pub mod laws;
mod printer;
mod reader;
mod rows;
mod schema;
mod tail;

pub use by_index::{take, take_encoded, take_lines};
pub use comparison::{CompareError, compare};
pub use counting::{count_lines, count_rows};
pub use failures::first_error;
pub use info::{file_info_lines, stream_info_lines};
pub use input::{Input, is_file, read_first_bytes};
pub use printer::print;
pub use reader::{BatchReader, open};
pub use schema::{SchemaReader, open_schema, schema_text};
pub use tail::tail_lines;
