//! A law of UTF-8 arrays.

ghost use Rattle.std.specs.Prelude.{◌↔◌, ℕ, ◌≤◌, List, length};
ghost use Rattle.nest_memory.specs.Rising.{last_of};
ghost use Rattle.nest_model.specs.Fits.{EachUtf8, ValidUtf8};
ghost use Rattle.nest_model.specs.Array.{AreOffsets};

/// Each slot is UTF-8 if and only if the bytes from the first offset to the last are UTF-8 and each offset is a
/// character boundary.
pub fn whole_texts()
    ensures { (os bs : List ℕ) → AreOffsets os → last_of os ≤ length bs → EachUtf8 os bs ↔ ValidUtf8 os bs }
{}
