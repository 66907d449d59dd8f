//! Tests of `nest_any`: its public calls, as their callers see them.
//!
//! A record that was not pushed keeps lists from being frozen, by each call.

mod dictionaries;
mod known_parts;
mod nested_dictionaries;
mod no_validity;
mod records;
mod slots;
