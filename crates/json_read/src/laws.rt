//! Properties of reading JSON, as functions with empty bodies: what `json_write` writes is read as the same slots.
ghost use Rattle.std.specs.Prelude.{◌≡◌, ◌≢◌, ◌*◌, ◌%◌, ◌<◌, ◌≤◌, ◌↔◌, ℕ, ℤ, List, [], ◌∷◌, None, Some, codes, false, negsuc, pos, true};
ghost use Rattle.json.specs.Json.{Json, Members, array, item, member, no_items, no_members, null, number, object, string};
ghost use Rattle.json_read.specs.FlatValues.{bytes_of_hex, hex_error, native_error, number_in, ranges_of};
ghost use Rattle.json_read.specs.FlatRoundTrip.{AreNumbersOf, BytesRoundTrip, NumbersRoundTrip};
ghost use Rattle.json_read.specs.DistinctNames.{HasDistinctFieldNames};
ghost use Rattle.json_read.specs.ErrorPaths.{spec_row_path};
ghost use Rattle.json_read.specs.Examples.{id_and_tags, id_then_tags, required_type, struct_type, tags_and_id, tags_then_id};
ghost use Rattle.json_read.specs.HalfNumbers.{distance, nearest_half};
ghost use Rattle.json_read.specs.JsonLines.{row_error};
ghost use Rattle.json_read.specs.JsonSlots.{value_error, slot_of};
ghost use Rattle.json_read.specs.RequiredFields.{has_required_field, is_nullable, is_unexpected_null, null_error};
ghost use Rattle.json_read.specs.RoundTrip.{AreBytes, CanRoundTrip};
ghost use Rattle.json_read.specs.declared.value_error.ValueError.TheVariants.{InvalidHex, NotAnInteger, WrongType, OutOfRange, DuplicateField, UnexpectedNull, UnknownField, WrongLength};
ghost use Rattle.nest_memory.specs.TypeTree as types;
ghost use Rattle.nest_memory.specs.TypeTree.{FieldTree, FieldTrees, TypeTree, field, field_type};
ghost use Rattle.nest_memory.specs.declared.datatypes.physical_type.PrimitiveType.{PrimitiveType};
ghost use Rattle.nest_memory.specs.declared.datatypes.physical_type.PrimitiveType.TheVariants.{Int8, UInt8};
ghost use Rattle.nest_model.specs.Slot as slots;
ghost use Rattle.nest_model.specs.Slot.{Slot, more_slots, no_slots};
ghost use Rattle.json_write.specs.TypedSlots.{IsSlotOf, LacksNan};
ghost use Rattle.json_write.specs.JsonTree.{tree_of_slot};

/// The numbers of a native value are read back from their JSON text: a number, an array of numbers or a string, as the data type has it.
/// A floating-point number must not be NaN, which has one text for all payloads.
pub fn numbers_round_trip()
    ensures { (p : PrimitiveType) (t : TypeTree) (z : ℤ) (zs : List ℤ) → AreNumbersOf p t (z ∷ zs) → NumbersRoundTrip p t (z ∷ zs) }
{
    float_text::laws::half_text_reads_back();
}

/// Bytes are read back from their hexadecimal digits.
pub fn bytes_round_trip()
    ensures { (bs : List ℕ) → AreBytes bs → BytesRoundTrip bs }
{}

/// The JSON value that is written for a slot is read as that slot. A floating-point number must not be NaN.
pub fn slots_round_trip()
    ensures { (t : TypeTree) (s : Slot) → HasDistinctFieldNames t → IsSlotOf t s → CanRoundTrip s → LacksNan t s → slot_of t (tree_of_slot t s) ≡ s }
{
    float_text::laws::half_text_reads_back();
}

/// `{"tags":["a"],"id":1}` as a struct of `id` and `tags`, and `{}`, which has neither.
pub fn members_in_any_order()
    ensures slot { slot_of struct_type tags_and_id ≡ id_and_tags }
    ensures valid { value_error struct_type tags_and_id ≡ None }
    ensures missing { slot_of struct_type (object no_members) ≡ slots.record_of (more_slots slots.null (more_slots slots.null no_slots)) }
{}

/// Errors of the same struct: `{"no":1}`, `{"id":1,"id":1}`, `{"id":"1"}`, `{"tags":[1,null]}`, `[]`; and of `[1,2]` as a list of size 1.
pub fn invalid_members()
    ensures unknown { value_error struct_type (object (member (codes "no") (number (codes "1")) no_members)) ≡ Some UnknownField }
    ensures twice { value_error struct_type (object (member (codes "id") (number (codes "1")) (member (codes "id") (number (codes "1")) no_members))) ≡ Some DuplicateField }
    ensures text { value_error struct_type (object (member (codes "id") (string (codes "1")) no_members)) ≡ Some WrongType }
    ensures item { value_error struct_type (object (member (codes "tags") (array (item (number (codes "1")) (item null no_items))) no_members)) ≡ Some WrongType }
    ensures list { value_error struct_type (array no_items) ≡ Some WrongType }
    ensures size { value_error (types.fixed_size_list (field [] types.int8 true []) 1) (array (item (number (codes "1")) (item (number (codes "2")) no_items))) ≡ Some WrongLength }
{}

/// Nulls of a struct of `id` and `tags`, where `id` and the items of `tags` are not nullable: `{"id":null}`, `{}`, `{"id":1,"tags":["a",null]}`
/// and `{"id":1,"tags":null}`, which is valid. Any other error is before that of a null, as in `{"no":1}`.
pub fn unexpected_nulls()
    ensures null { row_error required_type (object (member (codes "id") null no_members)) ≡ Some UnexpectedNull }
    ensures missing { row_error required_type (object no_members) ≡ Some UnexpectedNull }
    ensures item { row_error required_type (id_then_tags (number (codes "1")) (array (item (string (codes "a")) (item null no_items)))) ≡ Some UnexpectedNull }
    ensures list { row_error required_type (id_then_tags (number (codes "1")) null) ≡ None }
    ensures other { row_error required_type (object (member (codes "no") (number (codes "1")) no_members)) ≡ Some UnknownField }
{}

/// The fields that errors are in: `{"id":"x"}`, `{"id":1,"tags":["a",2]}`, `{"no":1}`, which names itself, and `[]`, whose error is in no field.
/// Of `{"tags":[1],"id":"x"}` it is the first, and of a null in a field that is not nullable only if there is no other error.
pub fn paths_of_errors()
    ensures value { spec_row_path struct_type (object (member (codes "id") (string (codes "x")) no_members)) ≡ Some (codes "id") }
    ensures item { spec_row_path struct_type (id_then_tags (number (codes "1")) (array (item (string (codes "a")) (item (number (codes "2")) no_items)))) ≡ Some (codes "tags.item") }
    ensures unknown { spec_row_path struct_type (object (member (codes "no") (number (codes "1")) no_members)) ≡ Some (codes "no") }
    ensures row { spec_row_path struct_type (array no_items) ≡ None }
    ensures first { spec_row_path struct_type (tags_then_id (array (item (number (codes "1")) no_items)) (string (codes "x"))) ≡ Some (codes "tags.item") }
    ensures null { spec_row_path required_type (id_then_tags (number (codes "1")) (array (item null no_items))) ≡ Some (codes "tags.item") }
    ensures missing { spec_row_path required_type (object no_members) ≡ Some (codes "id") }
    ensures null_last { spec_row_path required_type (id_then_tags null (number (codes "1"))) ≡ Some (codes "tags") }
{}

/// Every error of an object is in a field.
pub fn errors_of_objects_have_paths()
    ensures { (fs : FieldTrees) (ms : Members) → spec_row_path (types.struct fs) (object ms) ≡ None → row_error (types.struct fs) (object ms) ≡ None }
{}

/// A value of a field that is not nullable is no null slot, unless it is an error. Without such fields no null is one.
pub fn required_values_are_valid()
    ensures valid { (f : FieldTree) (j : Json) → is_nullable f ≡ false → is_unexpected_null f j ≡ false → slot_of (field_type f) j ≢ slots.null }
    ensures none { (t : TypeTree) (j : Json) → has_required_field t ≡ false → null_error t j ≡ None }
{}

/// Numbers of 8 bits: the least, the greatest, and values that are invalid.
pub fn eight_bit_numbers()
    ensures least { native_error (ranges_of Int8) (number (codes "-128")) ≡ None }
    ensures least_number { number_in (number (codes "-128")) ≡ negsuc 127 }
    ensures past { native_error (ranges_of Int8) (number (codes "128")) ≡ Some OutOfRange }
    ensures greatest { native_error (ranges_of UInt8) (number (codes "255")) ≡ None }
    ensures minus_zero { native_error (ranges_of UInt8) (number (codes "-0")) ≡ None }
    ensures minus_zero_number { number_in (number (codes "-0")) ≡ pos 0 }
    ensures fraction { native_error (ranges_of Int8) (number (codes "1.0")) ≡ Some NotAnInteger }
    ensures exponent { native_error (ranges_of Int8) (number (codes "1e2")) ≡ Some NotAnInteger }
{}

/// Hexadecimal digits of either case, an odd number of them and an invalid one.
pub fn hexadecimal_bytes()
    ensures bytes { bytes_of_hex (codes "0aFf") ≡ 10 ∷ 255 ∷ [] }
    ensures valid { hex_error (codes "0aFf") ≡ None }
    ensures none { hex_error [] ≡ None }
    ensures odd { hex_error (codes "0") ≡ Some InvalidHex }
    ensures letter { hex_error (codes "0g") ≡ Some InvalidHex }
{}

/// No half, and not 2^16 after the largest one, is nearer to a number than the half that the number is read as. Where two are as near, its bits are even.
pub fn halves_are_nearest()
    ensures nearest { (num den half : ℕ) → 0 < den → distance num den (nearest_half num den) ≤ distance num den half }
    ensures even_at_ties { (num den half : ℕ) → 0 < den → half ≢ nearest_half num den → distance num den (nearest_half num den) ≡ distance num den half → nearest_half num den % 2 ≡ 0 }
{}

/// A number is out of the range of halves from 65520 on, which is half way from the largest half to 2^16.
pub fn range_of_halves()
    ensures { (num den : ℕ) → 0 < den → (nearest_half num den < 31_744) ↔ (num < 65_520 * den) }
{}
