//! Tests of `nest_scan`: its public calls, as their callers see them.

mod dictionaries;
mod lists;
mod maps;
mod memory;
mod parts;
mod records;
mod sized;
mod unions;
mod walks;
