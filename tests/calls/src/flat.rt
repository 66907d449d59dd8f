//! Tests of `nest_flat`: its public calls, as their callers see them.

mod arrays;
mod bytes_growth;
mod growth;
mod makers;
mod natives;
mod no_nulls;
mod parts;
mod plain;
