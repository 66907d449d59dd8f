//! Rows of an Arrow input by index. The memory is that of one record batch, the known dictionaries and the rows taken.

mod encoded;
mod indices;
mod rows;

pub use encoded::{take_encoded, take_lines};
pub use rows::take;
