//! Arrays from builders, and what a refused push leaves.
pub mod any;
pub mod dictionaries;
pub mod flat;
pub mod lists;
pub mod structs;
