//! The slots of each nested kind, by the children's lists of slots.

ghost use Rattle.std.specs.Prelude.{◌≡◌, ℕ, ◌*◌, ◌<◌, ℤ, Bool, List, map, length, get_or, Option};
ghost use Rattle.nest_memory.specs.declared.datatypes.physical_type.PrimitiveType.{PrimitiveType};
ghost use Rattle.nest_memory.specs.TypeTree.{TypeTree, size_of};
ghost use Rattle.nest_memory.specs.Sublist.{sublist};
ghost use Rattle.nest_model.specs.Part.{Validity, begin, extent};
ghost use Rattle.nest_model.specs.Layout as layouts;
ghost use Rattle.nest_model.specs.Layout.{Layout, Layouts};
ghost use Rattle.nest_model.specs.Slot as slots;
ghost use Rattle.nest_model.specs.Slot.{Slot};
ghost use Rattle.nest_model.specs.Meaning.{len, first_len, slot, slots_of, masked, where_valid, fields_at, IsPick};
ghost use Rattle.nest_model.specs.Array.{TopFits};
ghost use Rattle.nest_model.specs.LawStatements.{ListSlots, MapSlots, FixedSizeListSlots, DictionarySlots};

/// The item of the list of slots at an index is the slot at that index.
pub fn slot_at_index()
    ensures { (a : Layout) (i : ℕ) (d : Slot) → i < len a → get_or (slots_of a) i d ≡ slot a i }
{}

/// The slots of primitive and boolean arrays are their values, and `Null` where the validity bit is unset.
pub fn flat_slots()
    ensures natives { (k : PrimitiveType) (t : TypeTree) (vs : List (List ℤ)) (va : Validity) → slots_of (layouts.primitive k t vs va) ≡ masked va (map slots.number vs) }
    ensures bits { (t : TypeTree) (bs : List Bool) (va : Validity) → slots_of (layouts.boolean t bs va) ≡ masked va (map slots.boolean bs) }
{}

/// A slot of a binary, UTF-8 or fixed-size binary array is null or the bytes that it covers.
pub fn bytes_slots()
    ensures binary { (large : Bool) (t : TypeTree) (os bs : List ℕ) (va : Validity) (i : ℕ)
        → slot (layouts.binary large t os bs va) i ≡ where_valid va i (slots.bytes (sublist bs (begin os i) (extent os i))) }
    ensures text { (large : Bool) (t : TypeTree) (os bs : List ℕ) (va : Validity) (i : ℕ)
        → slot (layouts.utf8 large t os bs va) i ≡ where_valid va i (slots.utf8 (sublist bs (begin os i) (extent os i))) }
    ensures fixed { (t : TypeTree) (bs : List ℕ) (va : Validity) (i : ℕ)
        → slot (layouts.fixed_size_binary t bs va) i ≡ where_valid va i (slots.bytes (sublist bs (i * size_of t) (size_of t))) }
{}

/// A slot of a list is null or the list of the items that it covers.
pub fn list_slots()
    ensures { ListSlots }
{}

/// A slot of a map is null or the list of the entries that it covers.
pub fn map_slots()
    ensures { MapSlots }
{}

/// A slot of a fixed-size list is null or the list of its items.
pub fn fixed_size_list_slots()
    ensures { FixedSizeListSlots }
{}

/// A slot of a struct is null or the slots of its children at that index.
pub fn struct_slots()
    ensures { (t : TypeTree) (cs : Layouts) (va : Validity) (i : ℕ) → TopFits (layouts.struct t cs va) → i < first_len cs
        → slot (layouts.struct t cs va) i ≡ where_valid va i (slots.record_of (fields_at cs i)) }
{}

/// A slot of a union is the pick of the field that its type id names, with the slot of that field's child.
pub fn union_slots()
    ensures { (t : TypeTree) (ks : List ℤ) (cs : Layouts) (os : Option (List ℤ)) (start i : ℕ) → TopFits (layouts.union t ks cs os start) → i < length ks
        → (f : ℕ) × IsPick t ks cs os start i f }
{}

/// A slot of a dictionary is null or the value at its key.
pub fn dictionary_slots()
    ensures { DictionarySlots }
{}
