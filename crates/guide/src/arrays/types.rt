//! Data types from text.
ghost use Rattle.std.specs.Prelude.{◌≡◌, IfOk};
ghost use Rattle.guide.specs.Words.{text_of_type, type_of};

use std::alloc::Global;
use tiekvorn::DataType;
use tiekvorn::types::{ParseTypeError, parse_type};

/// Parses a data type, for example `list<item: int64 not null>`.
pub fn parse_data_type(alloc: Global, text: &str) -> Result<DataType, ParseTypeError>
    ensures { IfOk result (λ t. text_of_type (type_of t) ≡ text.now) }
{
    parse_type(alloc, text)
}
