//! Properties of the JSON text, as functions with empty bodies.
ghost use Rattle.std.specs.Prelude.{◌≡◌, ◌≤◌, [], ◌∷◌, ◌++◌, Some, map};
ghost use Rattle.std.specs.List.{join_with_byte};
ghost use Rattle.json.specs.Json.{document, max_depth};
ghost use Rattle.json.specs.Print.{print};
ghost use Rattle.json.specs.Tree.{HasNumbers, depth, json_tokens};
ghost use Rattle.nest_array.specs.WindowParts.{window_slots};
ghost use Rattle.nest_memory.specs.TypeTree.{TypeTree};
ghost use Rattle.nest_model.specs.Array.{IsArray};
ghost use Rattle.nest_model.specs.Layout.{layout_type};
ghost use Rattle.nest_model.specs.Slot.{Slot, seal};
ghost use Rattle.json_write.specs.TextLaws.{TextDeterminesSlots};
ghost use Rattle.json_write.specs.JsonText.{json_of_slot, json_of_window};
ghost use Rattle.json_write.specs.TypedSlots.{AreItems, HasDistinctUnionNames, HasOwnText};
ghost use Rattle.json_write.specs.JsonTree.{tree_of_window};

use nest_array::Window;

/// The text of a window is JSON: it prints the tokens of a JSON value. The kit's parser reads it as that value, if the numbers have
/// 64 bits and the nesting is within the parser's limit.
pub fn text_is_valid_json(window: &Window)
    ensures printed { json_of_window window.now ≡ print (json_tokens (tree_of_window window.now)) }
    ensures read { HasNumbers (tree_of_window window.now) → depth (tree_of_window window.now) ≤ max_depth
        → document (json_of_window window.now) ≡ Some (tree_of_window window.now) }
{}

/// The text of a window is a JSON array of its slots, under the data type of its array.
pub fn slots_are_comma_separated(window: &Window)
    ensures { json_of_window window.now ≡ 91 ∷ (join_with_byte 44 (map (json_of_slot (layout_type window.now.array)) (window_slots window.now)) ++ 93 ∷ []) }
{}

/// Two slots of one data type are equal if their text is equal. The fields of each union must have distinct names, since a union slot is
/// written with the name of its field alone. Integers must fit in 128 bits, as those of all native values do, and no floating-point number
/// may be NaN, whose text lacks the payload.
pub fn equal_texts_have_equal_slots()
    ensures { (t : TypeTree) (s z : Slot) → HasDistinctUnionNames t → HasOwnText t s → HasOwnText t z → json_of_slot t s ≡ json_of_slot t z → s ≡ z }
{}

/// The slots of a window over a valid array are slots of its data type.
pub fn slots_have_the_data_type(window: &Window)
    ensures { IsArray window.now.array → AreItems (layout_type window.now.array) (seal (window_slots window.now)) }
{}

/// Two windows over arrays of one data type have equal slots if their text is equal, under the conditions of
/// `equal_texts_have_equal_slots`.
pub fn equal_texts_have_equal_windows(window: &Window, other: &Window)
    ensures { TextDeterminesSlots window.now other.now }
{}
