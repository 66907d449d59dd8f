//! Null and empty arrays of every type.

mod dictionaries;
mod kinds;
mod refusals;
mod types;
mod unions;
mod values;
