//! The first row at which windows differ.
ghost use Rattle.std.specs.Prelude.{◌≡◌, ◌↔◌, ◌<◌, IfSome, IsTrue};
ghost use Rattle.nest_memory.specs.Sublist.{sublist};
ghost use Rattle.cli_rows.specs.Rows.{rows_in};
ghost use Rattle.cli_rows.specs.Difference.{IsDifference};

use nest_array::Window;
use nest_array::equal::equal_windows;

/// Returns whether row `k` of two windows is equal.
fn same_row(x: &Window<'_>, y: &Window<'_>, k: usize) -> bool
    requires within { k < x.now.count }
    requires as_many { x.now.count ≡ y.now.count }
    ensures { IsTrue result ↔ (sublist (rows_in x.now) k 1 ≡ sublist (rows_in y.now) k 1) }
{
    x.known();
    let v = x.cut(k, 1);
    let w = y.cut(k, 1);
    equal_windows(&v, &w)
}

/// Returns the first row in which two windows of the same length differ.
pub fn window_difference(x: &Window<'_>, y: &Window<'_>) -> Option<usize>
    requires { x.now.count ≡ y.now.count }
    ensures first { IsDifference (rows_in x.now) (rows_in y.now) result }
    ensures within { IfSome result (λ k. k < x.now.count) }
{
    if equal_windows(x, y) {
        return None;
    }
    x.known();
    y.known();
    for k in 0..x.len() {
        if !same_row(x, y, k) {
            return Some(k);
        }
    }
    None
}
