//! Tests of `nest_array`: its public calls, as their callers see them.
//!
//! A union's type 127, a negative type, a negative offset.
//!
//! Raw keys under nulls that name no value may not become valid.

mod arrays;
mod calls;
mod copies;
mod counts;
mod dictionaries;
mod downcasts;
mod empties;
mod fixed_size_binaries;
mod generic_binaries;
mod maps;
mod nulls;
mod own_parts;
mod refusals;
mod rows;
mod scalars;
mod unions;
