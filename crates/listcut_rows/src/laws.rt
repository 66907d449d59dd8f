//! Properties of the format, as functions with empty bodies.

ghost use Rattle.std.specs.Prelude.{◌≡◌, ◌↔◌, ℕ, List, Ok, Err};
ghost use Rattle.listcut_rows.specs.Words.{AreRows, IsFirstInvalidLine, IsRowsText, Slot, lines_of, parsed_rows, rows_text};

/// Rows are parsed from their text.
pub fn rows_round_trip()
    ensures { (rows : List Slot) → AreRows rows → parsed_rows (rows_text rows) ≡ Ok rows }
{}

/// Bytes are parsed as rows exactly if they are the text of these rows, which may lack its last line feed.
pub fn parsed_bytes_are_the_text()
    ensures { (bytes : List ℕ) (rows : List Slot) → (parsed_rows bytes ≡ Ok rows) ↔ (AreRows rows × IsRowsText bytes rows) }
{}

/// The error names a line exactly if it is the first invalid one: the lines before it are rows, and it is none.
pub fn error_names_the_first_invalid_line()
    ensures { (bytes : List ℕ) (k : ℕ) → (parsed_rows bytes ≡ Err k) ↔ IsFirstInvalidLine (lines_of bytes) k }
{}
