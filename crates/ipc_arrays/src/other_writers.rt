//! Worked examples of columns as other writers leave them, and laws about what is not looked at, stated as contracts.
ghost use Rattle.std.specs.Prelude.{◌≡◌, ◌<◌, ◌≤◌, ℕ, Bool, true, false, List, [], ◌∷◌, IfOk, IsOk, Ok, Err};
ghost use Rattle.std.specs.Str.{is_utf8};
ghost use Rattle.ipc_flatbuf.specs.declared.error.IpcReadError.TheVariants.{BufferTooShort, Utf8};
ghost use Rattle.nest_memory.specs.TypeTree.{TypeTree};
ghost use Rattle.nest_model.specs.Layout as layouts;
ghost use Rattle.nest_model.specs.Meaning.{slots_of};
ghost use Rattle.nest_model.specs.Part.{count_rows, valid_at};
ghost use Rattle.ipc_arrays.specs.Decoding.{BinaryParts, decoded_offsets, decoded_validity, bytes_of_slot, checked_utf8};
ghost use Rattle.ipc_arrays.specs.declared.cursor.NodeCounts.{NodeCounts};
ghost use Rattle.ipc_arrays.specs.OtherWriters.{no_strings, no_strings_read, no_bytes, no_bytes_read, no_maps, no_maps_read, inner_lists, inner_lists_read, null_bytes, null_bytes_read, null_text, null_text_read, valid_bytes, no_validity};
ghost use Rattle.ipc_arrays.specs.ReadExamples.{IsRead, IsRejected};
ghost use Rattle.ipc_arrays.specs.Utf8Laws.{EachValidUtf8};

/// An array of length 0 is read whatever its offsets buffer holds: an offset past the data, too few bytes, a negative offset before
/// entries, which the map array keeps, and an offset past the items of lists in a list.
pub fn empty_array_is_read()
    ensures utf8 { IsRead no_strings no_strings_read }
    ensures binary { IsRead no_bytes no_bytes_read }
    ensures map { IsRead no_maps no_maps_read }
    ensures inner { IsRead inner_lists inner_lists_read }
{}

/// The offsets buffer of an array of length 0 is not read: its offset is 0.
pub fn offsets_of_empty_array_are_not_read()
    ensures { (large : Bool) (bytes : List ℕ) → decoded_offsets large 0 bytes ≡ Ok (0 ∷ []) }
{}

/// A null over bytes that are not UTF-8 is read as an empty string. If all bytes are UTF-8, they are kept. The array is rejected if
/// the slot of the bytes is valid.
pub fn null_over_other_bytes_is_read()
    ensures rebuilt { IsRead null_bytes null_bytes_read }
    ensures kept { IsRead null_text null_text_read }
    ensures valid { IsRejected valid_bytes Utf8 }
{}

/// The slots of a UTF-8 array are those of its buffers, however it is read. It is read if the bytes of every valid slot are UTF-8.
pub fn utf8_slots_are_those_of_the_buffers()
    ensures slots { (large : Bool) (t : TypeTree) (s : BinaryParts) → IfOk (checked_utf8 large t s) (λ a. slots_of a ≡ slots_of (layouts.utf8 large t s.offsets s.bytes s.validity)) }
    ensures read { (large : Bool) (t : TypeTree) (s : BinaryParts) → EachValidUtf8 s → IsOk (checked_utf8 large t s) }
{}

/// A UTF-8 array is rejected if the bytes of a valid slot are not UTF-8.
pub fn other_bytes_are_rejected()
    ensures { (large : Bool) (t : TypeTree) (s : BinaryParts) (i : ℕ) → i < count_rows s.offsets → valid_at s.validity i ≡ true → is_utf8 (bytes_of_slot s i) ≡ false → checked_utf8 large t s ≡ Err Utf8 }
{}

/// An array with nulls is rejected if its validity buffer is empty.
pub fn nulls_without_validity_are_rejected()
    ensures example { IsRejected no_validity BufferTooShort }
    ensures each { (counts : NodeCounts) → 0 < counts.nulls → counts.nulls ≤ counts.slots → decoded_validity counts [] ≡ Err BufferTooShort }
{}
