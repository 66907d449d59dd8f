//! Laws of slots.

ghost use Rattle.std.specs.Prelude.{◌≡◌, ℕ, ◌+◌, ◌≤◌, ℤ, Bool, List, ◌++◌, length};
ghost use Rattle.std.specs.Bool.{Decides};
ghost use Rattle.nest_memory.specs.TypeTree.{TypeTree};
ghost use Rattle.nest_model.specs.Slot as slots;
ghost use Rattle.nest_model.specs.Slot.{Slot, Slots, seal, unseal, node_count, node_counts};
ghost use Rattle.nest_model.specs.SlotCode.{same_slot, same_slots};

/// `seal` and `unseal` are inverse and injective.
pub fn sealed_lists()
    ensures out { (ss : List Slot) → unseal (seal ss) ≡ ss }
    ensures back { (ss : Slots) → seal (unseal ss) ≡ ss }
    ensures one { (ss rs : List Slot) → seal ss ≡ seal rs → ss ≡ rs }
    ensures one_back { (ss rs : Slots) → unseal ss ≡ unseal rs → ss ≡ rs }
{}

/// The tests decide equality of slots and of lists of slots.
pub fn slot_tests()
    ensures slot { (s r : Slot) → Decides (same_slot s r) (s ≡ r) }
    ensures list { (ss rs : List Slot) → Decides (same_slots ss rs) (ss ≡ rs) }
{}

/// The node count of a slot without parts is 1, that of a list, struct or pick is 1 more than that of its parts.
/// The node count of concatenated lists is the sum of theirs.
pub fn nodes()
    ensures of_list { (ss : List Slot) → node_count (slots.list (seal ss)) ≡ 1 + node_counts ss }
    ensures of_record { (ss : List Slot) → node_count (slots.record_of (seal ss)) ≡ 1 + node_counts ss }
    ensures of_null { node_count slots.null ≡ 1 }
    ensures of_truth { (b : Bool) → node_count (slots.boolean b) ≡ 1 }
    ensures of_number { (zs : List ℤ) → node_count (slots.number zs) ≡ 1 }
    ensures of_text { (t : List ℕ) → node_count (slots.utf8 t) ≡ 1 }
    ensures of_bytes { (b : List ℕ) → node_count (slots.bytes b) ≡ 1 }
    ensures of_pick { (f : ℕ) (t : TypeTree) (s : Slot) → node_count (slots.pick f t s) ≡ 1 + node_count s }
    ensures joined { (ss rs : List Slot) → node_counts (ss ++ rs) ≡ node_counts ss + node_counts rs }
    ensures at_least { (ss : List Slot) → length ss ≤ node_counts ss }
{}
