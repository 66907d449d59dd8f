//! Laws of null and empty arrays.

ghost use Rattle.std.specs.Prelude.{◌≡◌, ℕ, [], Option, Some, None, alloc_error};
ghost use Rattle.nest_memory.specs.TypeTree.{TypeTree};
ghost use Rattle.nest_memory.specs.Physical.{physical_type};
ghost use Rattle.nest_memory.specs.declared.datatypes.physical_type.PhysicalType.{PhysicalType};
ghost use Rattle.nest_memory.specs.declared.error.Error.{Error};
ghost use Rattle.nest_memory.specs.declared.error.Error.TheVariants.{OutOfSpec, Memory};
ghost use Rattle.nest_memory.specs.declared.error.SpecError.TheVariants as spec;
ghost use Rattle.nest_model.specs.Layout.{layout_type};
ghost use Rattle.nest_model.specs.Meaning.{len, slots_of};
ghost use Rattle.nest_model.specs.Fits.{Fits};
ghost use Rattle.nest_model.specs.Array.{IsArray};
ghost use Rattle.nest_model.specs.Nulls.{null_slots, type_error, empty_error};
ghost use Rattle.nest_model.specs.NullLayout.{null_layout, empty_layout};
ghost use Rattle.nest_model.specs.MadeNulls.{RefusesType, AcceptsKind, RefusesKind};

/// If the data type and length have no error, `null_layout` is an array of that many null slots.
pub fn null_arrays()
    ensures data_type { (t : TypeTree) (n : ℕ) → type_error t n ≡ None → layout_type (null_layout t n) ≡ t }
    ensures length { (t : TypeTree) (n : ℕ) → type_error t n ≡ None → len (null_layout t n) ≡ n }
    ensures slots { (t : TypeTree) (n : ℕ) → type_error t n ≡ None → slots_of (null_layout t n) ≡ null_slots t n }
    ensures fits { (t : TypeTree) (n : ℕ) → type_error t n ≡ None → Fits (null_layout t n) }
    ensures array { (t : TypeTree) (n : ℕ) → type_error t n ≡ None → IsArray (null_layout t n) }
{}

/// A call that fails returns the error of the data type, or `Memory` if the data type has none.
/// If the data type is of another kind, the error is `WrongType`.
pub fn refused_types()
    ensures first_error { (e f : Error) → RefusesType e (Some f) → e ≡ f }
    ensures memory { (e : Error) → RefusesType e None → e ≡ Memory alloc_error }
    ensures accepted_kind { (p : PhysicalType) (t : TypeTree) (f : Error) → ¬ AcceptsKind p t (Some f) }
    ensures accepted_alone { (p q : PhysicalType) (t : TypeTree) → AcceptsKind p t None → AcceptsKind q t None → p ≡ q }
    ensures own_kind { (e : Error) (t : TypeTree) (first_error : Option Error) → RefusesKind e (physical_type t) t first_error → RefusesType e first_error }
    ensures other_kind { (e : Error) (p : PhysicalType) (t : TypeTree) (first_error : Option Error) → ¬ (physical_type t ≡ p) → RefusesKind e p t first_error → e ≡ OutOfSpec spec.WrongType }
{}

/// If the data type has no error, `empty_layout` is an array without slots.
pub fn empty_arrays()
    ensures data_type { (t : TypeTree) → empty_error t ≡ None → layout_type (empty_layout t) ≡ t }
    ensures slots { (t : TypeTree) → empty_error t ≡ None → slots_of (empty_layout t) ≡ [] }
    ensures fits { (t : TypeTree) → empty_error t ≡ None → Fits (empty_layout t) }
    ensures array { (t : TypeTree) → empty_error t ≡ None → IsArray (empty_layout t) }
{}
