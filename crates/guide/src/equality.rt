//! Arrays compared, without allocation.
ghost use Rattle.std.specs.Prelude.{◌≤◌, ◌↔◌, IsTrue};
ghost use Rattle.guide.specs.Words.{EndsWith, IsSameArray, layout_of, len};

use tiekvorn::compute::{equal, equal_windows};
use tiekvorn::{AnyArray, Window};

/// Returns whether two arrays have equal data types and equal slots, whatever their buffers are.
pub fn are_equal(a: &AnyArray, b: &AnyArray) -> bool
    ensures { IsTrue result ↔ IsSameArray (layout_of a.now) (layout_of b.now) }
{
    equal(a, b)
}

/// Returns whether `column` ends with the slots of `tail`.
pub fn ends_with(column: &AnyArray, tail: &AnyArray) -> bool
    requires { len (layout_of tail.now) ≤ len (layout_of column.now) }
    ensures { IsTrue result ↔ EndsWith (layout_of column.now) (layout_of tail.now) }
{
    let count = tail.len();
    let start = column.len() - count;
    equal_windows(&Window::new(column, start, count), &Window::of(tail))
}
