//! Scalars: one slot of an array, with the array's data type.
mod equality;
mod new;

ghost use Rattle.std.specs.Prelude.{◌≡◌, ◌↔◌, IsTrue};
ghost use Rattle.nest_model.specs.Slot as slots;
ghost use Rattle.nest_array.specs.SeenScalar.{ValueFits, slot_of_value};
ghost use Rattle.nest_array.specs.Words.{type_of};

use crate::any::AnyArray;
use nest_flat::any_native::AnyNative;
use nest_memory::datatypes::DataType;
pub use new::{new_scalar, scalars_at};
use std::marker::Model;

/// A data type and one slot of it. It replaces arrow2's `Box<dyn Scalar>`.
#[cycle(scalar)]
#[derive(Drop)]
pub struct AnyScalar {
    data_type: DataType,
    value: ScalarValue,
}

/// The value of a scalar. A slot of a dictionary array has the value at its key.
#[cycle(scalar)]
#[derive(Drop)]
pub enum ScalarValue {
    Null,
    Boolean(bool),
    Native(AnyNative),
    Text(String),
    Bytes(Vec<u8>),
    /// The items of a list of any kind, or the entries of a map.
    List(AnyArray),
    /// One scalar per field of a struct.
    Struct(Vec<AnyScalar>),
    /// The pick of a union: the index of a field, and the scalar of its slot.
    Pick(usize, Box<AnyScalar>),
}

impl Model for AnyScalar {
    ghost use Rattle.nest_array.specs.ScalarParts.{ScalarParts, coded_scalar, scalar_parts};
    ghost use Rattle.nest_model.specs.Slot.{node_count};

    ghost Value = { ScalarParts };

    ghost coded = { coded_scalar };

    ghost use Rattle.nest_memory.specs.TypeOf.{type_of};
    ghost use Rattle.nest_array.specs.SeenScalar.{ValueFits, slot_of_value};

    ghost view = { λ s. scalar_parts (type_of s.data_type) (slot_of_value s.value) };

    ghost invariant = { λ s. ValueFits (type_of s.data_type) s.value };

    ghost size = { λ p. node_count p.slot };

    ghost use Rattle.std.proofs.Common.{arith};
    ghost use Rattle.nest_array.specs.ScalarFalls.{deep-nodes};

    ghost size_decreases = { λ s h. Prim.omega (arith, deep-nodes s.value) };
}

impl AnyScalar {
    /// Returns the data type.
    pub fn data_type(&self) -> &DataType
        ensures { type_of result.now ≡ self.now.data_type }
    {
        &self.data_type
    }

    /// Returns the value.
    pub fn value(&self) -> &ScalarValue
        ensures slot { slot_of_value result.now ≡ self.now.slot }
        ensures fits { ValueFits self.now.data_type result.now }
    {
        &self.value
    }

    /// Returns whether the slot is not null.
    pub fn is_valid(&self) -> bool
        ensures { IsTrue result ↔ (self.now.slot ≡ slots.null → ⊥) }
    {
        match &self.value {
            ScalarValue::Null => false,
            _ => true,
        }
    }
}
