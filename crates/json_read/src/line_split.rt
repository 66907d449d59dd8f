//! Lines of text.
ghost use Rattle.std.specs.Prelude.{◌≡◌, ◌<◌, ◌≤◌, ◌∷◌, [], length, take};
ghost use Rattle.json_read.specs.LineSplit.{EndsLines, lines_of};

use memchr::memchr;

/// Returns the length of the first line without its line feed, and with it.
pub(crate) fn line_ends(text: &[u8]) -> (usize, usize)
    requires { 0 < length text.now }
    ensures line { lines_of (take result.1 text.now) ≡ take result.0 text.now ∷ [] }
    ensures ends { result.1 < length text.now → EndsLines (take result.1 text.now) }
    ensures within { (result.0 ≤ result.1) × (result.1 ≤ length text.now) × (0 < result.1) }
{
    match memchr(b'\n', text) {
        Some(i) => (i, i + 1),
        None => (text.len(), text.len()),
    }
}
