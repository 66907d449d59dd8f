//! Equality of arrays, `take`, `filter`, `concatenate` and `interleave`.
pub use nest_array::equal::{equal, equal_counted, equal_windows};
pub use nest_concat::{concatenate, interleave};
pub use nest_take::{filter, take};
