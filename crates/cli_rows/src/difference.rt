//! Where two inputs first differ.
ghost use Rattle.std.specs.Prelude.{◌≡◌, IfOk, string_bytes};
ghost use Rattle.cli_rows.specs.Compared.{spec_difference_text};

use std::alloc::{AllocError, Global};

/// The first difference of two inputs.
#[derive(Clone, Copy, Debug, PartialEq, Eq)]
pub enum Difference {
    /// The schemas differ: a field, or custom metadata.
    Schema,
    /// The rows of this index differ, or one input has no such row.
    Row(usize),
}

/// Returns a difference as a line: `schema`, or `row` and the index.
///
/// # Errors
/// `AllocError` if an allocation fails.
pub fn difference_text(alloc: Global, difference: Difference) -> Result<String, AllocError>
    ensures { IfOk result (λ text. string_bytes text ≡ spec_difference_text difference) }
{
    match difference {
        Difference::Schema => String::from_str(alloc, "schema\n"),
        Difference::Row(index) => format!(in alloc; "row {index}\n"),
    }
}
