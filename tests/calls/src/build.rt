//! Tests of `nest_build`: its public calls, as their callers see them.

mod by_parts;
mod bytes;
mod dictionaries;
mod fixed_size_binaries;
mod fixed_size_lists;
mod flat;
mod frozen;
mod hints;
mod key_tables;
mod keys_of_values;
mod lists;
mod makers;
mod nested;
mod no_validity;
mod nulls;
mod pushed_rows;
mod rows;
mod string_lists;
mod texts;
