//! The slots of an array, read by its accessors as the Arrow format says.

mod calls;
mod parts;
mod scalars;

pub use calls::{slot_at, slots_by_calls};
pub use parts::slots_of;
pub use scalars::slot_of_scalar;
