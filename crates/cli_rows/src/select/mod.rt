//! Selection of rows as windows over arrays, the truth of conditions in rows, and the first row in which two windows differ. No value is
//! copied.

mod columns;
mod conditions;
mod decimals;
mod difference;
mod floats;
mod kinds;
mod offsets;
mod order;
mod time_literals;
mod truth;
mod values;
mod windows;

pub use columns::{is_called, is_named};
pub use conditions::true_rows;
pub use difference::window_difference;
pub use kinds::{ValueKind, accepts, column_kind};
pub use order::{in_row_order, is_complete, skip_rows};
pub use time_literals::number_of_text;
pub use windows::select_rows;
