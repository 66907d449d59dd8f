//! How many allocations each scenario makes. `scripts/test` adds a test for each of them.

use crate::{listcut, nest_calls};
use failed_allocations::expect_count;

#[test]
fn listcut_both_forms(rt: HostRuntime) {
    expect_count(&rt, listcut::both_forms, 61);
}

#[test]
fn nest_calls_all(rt: HostRuntime) {
    expect_count(&rt, nest_calls::all, 513);
}
