//! Text: printed JSON is the text of the slots, and a data type is read from its text alone.
ghost use Rattle.std.specs.Prelude.{◌≡◌, IfErr, IfOk, Ok, length, string_bytes};
ghost use Rattle.nest_memory.specs.TypeOf.{type_of};
ghost use Rattle.nest_memory.specs.TypeText.{text_of_type};
ghost use Rattle.nest_memory.specs.TypeTree.{TypeTree};
ghost use Rattle.type_text.specs.Representable.{IsRepresentable};
ghost use Rattle.type_text.specs.TypeParser.{ParsesAs, IsErrorWithin, parsed_type};

use json_write::output::to_json_string;
use json_write::traits::WriteJson;
use nest_memory::datatypes::DataType;
use std::alloc::{AllocError, Global};
use type_text::{ParseTypeError, parse_type};

/// Returns the JSON text (RFC 8259) of an array, a window or a scalar.
pub fn json_text_of<T: WriteJson>(alloc: Global, value: &T) -> Result<String, AllocError>
    ensures { IfOk result (λ text. string_bytes text ≡ T.json value.now) }
{
    to_json_string(alloc, value)
}

/// Returns the data type that has this text, or the offset of the first byte that no data type has there. Every data type whose
/// text determines it round-trips.
pub fn type_from_text(alloc: Global, text: &str) -> Result<DataType, ParseTypeError>
    ensures parsed { ParsesAs result (parsed_type text.now) }
    ensures same_text { IfOk result (λ t. text_of_type (type_of t) ≡ text.now) }
    ensures round_trips { (t : TypeTree) → IsRepresentable 64 t → text_of_type t ≡ text.now → ParsesAs result (Ok t) }
    ensures within { IfErr result (IsErrorWithin (length text.now)) }
{
    parse_type(alloc, text)
}
