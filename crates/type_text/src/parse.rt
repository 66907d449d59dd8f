//! Parses a complete text as a data type.
ghost use Rattle.std.specs.Prelude.{◌≡◌, length, IfErr, IfOk, Ok};
ghost use Rattle.nest_memory.specs.TypeOf.{type_of};
ghost use Rattle.nest_memory.specs.TypeText.{text_of_type};
ghost use Rattle.nest_memory.specs.TypeTree.{TypeTree};
ghost use Rattle.type_text.specs.TypeParser.{ParsesAs, ReadsAs, IsErrorWithin, IsErrorOf, parsed_type, read_complete_type};
ghost use Rattle.type_text.specs.Representable.{IsRepresentable};

use crate::error::{ParseTypeError, PartError, SyntaxError};
use crate::nested::type_at;
use nest_memory::datatypes::DataType;
use std::alloc::{AllocError, Global};

/// The maximum nesting depth of a data type: a list of numbers has depth 2.
pub const MAX_DEPTH: u32 = 64;

/// Parses a data type from the text that `Display` of `DataType` writes, which is the text of pyarrow's `str(data_type)`
/// and of `DataType::ToString` in Arrow C++.
///
/// `Display` of the result is exactly the given text (`sound`), and every type that its text represents in full is parsed
/// from its text (`complete`). The text doesn't represent these types in full. Each of them is rejected, or parsed as
/// another type of the same text:
///
/// - a type with metadata, of a field or of an extension;
/// - `Float16`, `Float32` and `Float64`: `halffloat`, `float` and `double` are parsed as the extension types that `float_type`
///   of `nest_memory` returns;
/// - a name that contains its own terminator: `: ` in a field's name, `, ` in an extension's, `]` in a time zone, `')` in a
///   name of a map; and a first field of a struct or a union whose name begins with `>`;
/// - a union without type ids, with negative ones, or with more or fewer ids than fields;
/// - a map whose entries are not a struct of two fields or are nullable, whose keys are nullable, or whose values are not;
/// - a map of unsorted keys where only the entries have a name of their own: it is parsed as the name of the values.
///
/// # Errors
///
/// - `Syntax(i)`: the text from byte `i` on is not what the syntax requires there: a type, a unit, punctuation such as `>` or
///   `, indices=`, a number below 2^64 (a type id below 2^31) without a leading zero, a name with its terminator, or, after
///   the type, the end of the text. A default name in quotes is an error at the space before the quotes. A
///   floating-point type in the form `extension<tiekvorn.float64, uint64>` is an error at its name.
/// - `TooDeep(i)`: a type that is nested in `MAX_DEPTH` others begins at byte `i`.
/// - `Memory`: an allocation fails.
pub fn parse_type(alloc: Global, text: &str) -> Result<DataType, ParseTypeError>
    ensures exact { ParsesAs result (parsed_type text.now) }
    ensures sound { IfOk result (λ t. text_of_type (type_of t) ≡ text.now) }
    ensures complete { (t : TypeTree) → IsRepresentable 64 t → text_of_type t ≡ text.now → ParsesAs result (Ok t) }
    ensures within { IfErr result (IsErrorWithin (length text.now)) }
{
    match complete_type(alloc, text) {
        Ok(data_type) => Ok(data_type),
        Err(error) => Err(locate(text.len(), error)),
    }
}

/// Converts an error of the parser to the error for a text of `len` bytes.
fn locate(len: usize, error: PartError) -> ParseTypeError
    ensures { IsErrorOf len error result }
{
    match error {
        PartError::Syntax(SyntaxError::Unexpected(remaining)) => ParseTypeError::Syntax(
            len.saturating_sub(remaining),
        ),
        PartError::Syntax(SyntaxError::TooDeep(remaining)) => ParseTypeError::TooDeep(
            len.saturating_sub(remaining),
        ),
        PartError::Memory => ParseTypeError::Memory(AllocError),
    }
}

/// Reads a data type that nothing follows.
#[tactic(auto, unfolding(crate::specs::TypeParser::read_complete_type))]
fn complete_type(alloc: Global, text: &str) -> Result<DataType, PartError>
    ensures { ReadsAs type_of result (read_complete_type text.now) }
{
    let (data_type, rest) = type_at(alloc, MAX_DEPTH, text)?;
    if !rest.is_empty() {
        return Err(PartError::Syntax(SyntaxError::Unexpected(rest.len())));
    }
    Ok(data_type)
}
