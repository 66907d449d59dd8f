//! Properties of the parser, as functions with empty bodies.
ghost use Rattle.std.specs.Prelude.{◌≡◌, ℕ, List, [], true, false, codes, Ok};
ghost use Rattle.nest_memory.specs.TypeText.{text_of_type};
ghost use Rattle.nest_memory.specs.TypeTree.{TypeTree};
ghost use Rattle.type_text.specs.Examples.{ShareText, map_of_null, null_map, one_field, two_fields};
ghost use Rattle.type_text.specs.Representable.{IsRepresentable};
ghost use Rattle.type_text.specs.TypeParser.{parsed_type};

/// Every data type of at most 64 levels that its text represents in full is parsed from its text.
pub fn representable_types_round_trip()
    ensures { (t : TypeTree) → IsRepresentable 64 t → parsed_type (text_of_type t) ≡ Ok t }
{}

/// A parsed data type has exactly the given text.
pub fn parsed_types_have_the_text()
    ensures { (bs : List ℕ) (t : TypeTree) → parsed_type bs ≡ Ok t → text_of_type t ≡ bs }
{}

/// Only data types of at most 64 levels that their text represents in full are parsed.
pub fn parsed_types_are_representable()
    ensures { (bs : List ℕ) (t : TypeTree) → parsed_type bs ≡ Ok t → IsRepresentable 64 t }
{}

/// Two data types that their text represents in full are equal if their texts are equal.
pub fn equal_texts_have_equal_types()
    ensures { (t u : TypeTree) → IsRepresentable 64 t → IsRepresentable 64 u → text_of_type t ≡ text_of_type u → t ≡ u }
{}

/// Shortest texts that two types share: of any types; of valid maps, where the quotes hold the name of the values or of the
/// entries; and of structs, where two unnamed fields print as one field with a long name.
pub fn types_that_share_a_text()
    ensures entries { ShareText (codes "map<null>") (map_of_null true) (map_of_null false) }
    ensures quotes { ShareText (codes "map<null, null ('')>") (null_map [] (codes "entries")) (null_map (codes "value") []) }
    ensures names { ShareText (codes "struct<: null, : null>") two_fields one_field }
{}
