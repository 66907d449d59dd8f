//! Theorems about `concatenate`.
ghost use Rattle.std.specs.Prelude.{◌≡◌, ℕ, List, [], ◌∷◌, ◌++◌, ◌+◌, ◌-◌, ◌<◌, ◌≤◌, ◌↔◌, IsTrue, length, map};
ghost use Rattle.std.specs.List.{All};
ghost use Rattle.nest_memory.specs.TypeTree.{TypeTree};
ghost use Rattle.nest_model.specs.Array.{IsArray};
ghost use Rattle.nest_model.specs.Slice.{slice_layout};
ghost use Rattle.nest_model.specs.Layout.{dictionary};
ghost use Rattle.nest_model.specs.Meaning.{slot};
ghost use Rattle.nest_model.specs.SameArray.{IsSameArray};
ghost use Rattle.nest_concat.specs.Joinable.{MayJoin};
ghost use Rattle.nest_concat.specs.Laid.{joined_layout, joins_past, laid, passes, two_joined};
ghost use Rattle.nest_concat.specs.Words.{AreOfOneType, IsConcatenated, IsJoined, Layout, PassesLimits, WindowParts, first_array, layout_type, len, slots_of, whole};

/// Concatenating one array returns an equal array.
pub fn one_array()
    ensures { (a b : Layout) → IsConcatenated (a ∷ []) b → IsSameArray b a }
{}

/// Concatenating the slices of an array up to an index and from it on returns an equal array.
pub fn slices_of_one_array()
    ensures { (a b : Layout) (k : ℕ) → k ≤ len a → IsConcatenated (slice_layout a 0 k ∷ slice_layout a k (len a - k) ∷ []) b → IsSameArray b a }
{}

/// `concatenate` is associative: its result can be concatenated with arrays before it or after it.
pub fn of_concatenated()
    ensures first { (bs cs : List Layout) (a d : Layout) → 0 < length bs → IsConcatenated bs a → IsConcatenated (a ∷ cs) d → IsConcatenated (bs ++ cs) d }
    ensures last { (bs cs : List Layout) (a d : Layout) → 0 < length bs → IsConcatenated cs a → IsConcatenated (bs ++ a ∷ []) d → IsConcatenated (bs ++ cs) d }
{}

/// The layout of concatenated windows or arrays has their slots, and is an array at every level where they are.
pub fn joined_layouts_have_their_slots()
    ensures windows { (a : Layout) (ws : List WindowParts) → MayJoin a ws → IsJoined (layout_type a) ws (laid a ws) }
    ensures arrays { (a : Layout) (ws : List WindowParts) → MayJoin a ws → IsArray (laid a ws) }
    ensures wholes { (bs : List Layout) → AreOfOneType bs → All IsArray bs → IsConcatenated bs (joined_layout bs) }
    ensures array { (bs : List Layout) → AreOfOneType bs → All IsArray bs → IsArray (joined_layout bs) }
    ensures two { (a b : Layout) → layout_type b ≡ layout_type a → IsArray a → IsArray b → slots_of (two_joined a b) ≡ slots_of a ++ slots_of b }
{}

/// The tests of limits are true exactly where a limit is passed.
pub fn limits_are_tested()
    ensures windows { (a : Layout) (ws : List WindowParts) → IsTrue (passes a ws) ↔ PassesLimits a ws }
    ensures wholes { (bs : List Layout) → IsTrue (joins_past bs) ↔ PassesLimits (first_array (map whole bs)) (map whole bs) }
{}

/// In the concatenation of two arrays, slots of the first keep their indices, and slots of the second follow.
/// So dictionary keys keep their values when other values are appended.
pub fn joined_slots_keep_their_positions()
    ensures count { (a b : Layout) → layout_type b ≡ layout_type a → IsArray a → IsArray b → len (two_joined a b) ≡ len a + len b }
    ensures first { (a b : Layout) (i : ℕ) → layout_type b ≡ layout_type a → IsArray a → IsArray b → i < len a → slot (two_joined a b) i ≡ slot a i }
    ensures behind { (a b : Layout) (i : ℕ) → layout_type b ≡ layout_type a → IsArray a → IsArray b → i < len b → slot (two_joined a b) (len a + i) ≡ slot b i }
    ensures keyed { (t : TypeTree) (ks c d : Layout) → IsArray (dictionary t ks c) → IsArray d → layout_type d ≡ layout_type c → IsArray (dictionary t ks (two_joined c d)) }
    ensures same { (t : TypeTree) (ks c d : Layout) → IsArray (dictionary t ks c) → IsArray d → layout_type d ≡ layout_type c → IsSameArray (dictionary t ks (two_joined c d)) (dictionary t ks c) }
{}
