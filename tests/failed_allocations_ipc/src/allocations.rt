//! How many allocations each scenario makes. `scripts/test` adds a test for each of them.

use crate::{
    compressed, delta_files, dictionaries_written, dictionary_streams, files_read, nested, schemas,
    streams, views,
};
use failed_allocations::expect_count;

#[test]
fn streams_both_ways(rt: HostRuntime) {
    expect_count(&rt, streams::both_ways, 309);
}

#[test]
fn nested_both_ways(rt: HostRuntime) {
    expect_count(&rt, nested::both_ways, 546);
}

#[test]
fn schemas_both_ways(rt: HostRuntime) {
    expect_count(&rt, schemas::both_ways, 186);
}

#[test]
fn dictionary_streams_replaced(rt: HostRuntime) {
    expect_count(&rt, dictionary_streams::replaced, 92);
}

#[test]
fn dictionary_streams_delta(rt: HostRuntime) {
    expect_count(&rt, dictionary_streams::delta, 147);
}

#[test]
fn dictionaries_written_streams(rt: HostRuntime) {
    expect_count(&rt, dictionaries_written::streams, 252);
}

#[test]
fn dictionaries_written_files(rt: HostRuntime) {
    expect_count(&rt, dictionaries_written::files, 500);
}

#[test]
fn dictionaries_written_delta(rt: HostRuntime) {
    expect_count(&rt, dictionaries_written::delta, 508);
}

#[test]
fn files_read_read(rt: HostRuntime) {
    expect_count(&rt, files_read::read, 283);
}

#[test]
fn delta_files_written(rt: HostRuntime) {
    expect_count(&rt, delta_files::written, 341);
}

#[test]
fn compressed_both_ways(rt: HostRuntime) {
    expect_count(&rt, compressed::both_ways, 30);
}

#[test]
fn views_read(rt: HostRuntime) {
    expect_count(&rt, views::read, 503);
}
