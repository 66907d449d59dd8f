//! How many allocations each scenario makes. `scripts/test` adds a test for each of them.

use crate::{arrays, builders, parsed, typed};
use failed_allocations::expect_count;

#[test]
fn builders_flat_values(rt: HostRuntime) {
    expect_count(&rt, builders::flat_values, 494);
}

#[test]
fn builders_lists_of_records(rt: HostRuntime) {
    expect_count(&rt, builders::lists_of_records, 273);
}

#[test]
fn builders_lists_of_pairs(rt: HostRuntime) {
    expect_count(&rt, builders::lists_of_pairs, 178);
}

#[test]
fn builders_records_of_dictionaries(rt: HostRuntime) {
    expect_count(&rt, builders::records_of_dictionaries, 230);
}

#[test]
fn builders_lists_of_dictionary_records(rt: HostRuntime) {
    expect_count(&rt, builders::lists_of_dictionary_records, 270);
}

#[test]
fn arrays_maps(rt: HostRuntime) {
    expect_count(&rt, arrays::maps, 158);
}

#[test]
fn arrays_unions(rt: HostRuntime) {
    expect_count(&rt, arrays::unions, 167);
}

#[test]
fn arrays_joined(rt: HostRuntime) {
    expect_count(&rt, arrays::joined, 124);
}

#[test]
fn arrays_parts(rt: HostRuntime) {
    expect_count(&rt, arrays::parts, 93);
}

#[test]
fn arrays_nulls(rt: HostRuntime) {
    expect_count(&rt, arrays::nulls, 325);
}

#[test]
fn arrays_shown(rt: HostRuntime) {
    expect_count(&rt, arrays::shown, 32);
}

#[test]
fn typed_lists(rt: HostRuntime) {
    expect_count(&rt, typed::lists, 113);
}

#[test]
fn typed_boxed(rt: HostRuntime) {
    expect_count(&rt, typed::boxed, 33);
}

#[test]
fn typed_strings(rt: HostRuntime) {
    expect_count(&rt, typed::strings, 31);
}

#[test]
fn typed_forty_values(rt: HostRuntime) {
    expect_count(&rt, typed::forty_values, 49);
}

#[test]
fn parsed_types(rt: HostRuntime) {
    expect_count(&rt, parsed::types, 38);
}

#[test]
fn parsed_decimals(rt: HostRuntime) {
    expect_count(&rt, parsed::decimals, 8);
}
