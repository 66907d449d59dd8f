//! The trait and functions shared by builders with one child.
ghost use Rattle.std.specs.Prelude.{◌≡◌, ◌↔◌, IsTrue, IfOk, IsOkUnless, Some, alloc_error};
ghost use Rattle.nest_build.specs.Words.{IsComplete, Memory, builder_type, emptied, item_type, layout_of, layout_type, own_slots, slots_of, type_of, with_items};

use crate::array::MutableArray;
use nest_array::AnyArray;
use nest_memory::datatypes::DataType;
use nest_memory::error::Error;
use std::alloc::Global;

/// A builder with one child that can be borrowed mutably. Callers need not name this trait.
pub trait OverChild: MutableArray {
    /// The builder of the items.
    type Child: MutableArray;

    /// The builder with its child replaced.
    ghost over: { Self → Self.Child → Self };

    // Replacing the child replaces its levels and no others.
    ghost over_items: { (b : Self) → (c : Self.Child) → Self.model (over b c) ≡ with_items (Self.model b) (Self.Child.model c) };
}

/// Returns whether the item type of a list type equals a data type.
pub fn has_items(lists: &DataType, items: &DataType) -> bool
    ensures { IsTrue result ↔ (item_type (type_of lists.now) ≡ Some (type_of items.now)) }
{
    match lists.item_type() {
        None => false,
        Some(item) => item == items,
    }
}

/// Returns whether two data types are equal.
pub fn same_types(a: &DataType, b: &DataType) -> bool
    ensures { IsTrue result ↔ (type_of a.now ≡ type_of b.now) }
{
    *a == *b
}

/// Returns the data type of a builder and the frozen array of its child. The child is empty afterwards, also after
/// `Memory`.
pub(crate) fn frozen_parts<M: MutableArray>(
    alloc: Global,
    data_type: &DataType,
    values: &mut M,
) -> Result<(DataType, AnyArray), Error>
    requires { IsComplete (M.model values.old) }
    ensures same_type { IfOk result (λ parts. type_of parts.0 ≡ type_of data_type.now) }
    ensures slots { IfOk result (λ parts. slots_of (layout_of parts.1) ≡ own_slots (M.model values.old)) }
    ensures child_type { IfOk result (λ parts. layout_type (layout_of parts.1) ≡ builder_type (M.model values.old)) }
    ensures emptied { M.model values.new ≡ emptied (M.model values.old) }
    ensures memory { IsOkUnless result (Memory alloc_error) }
{
    let array = values.as_box();
    match data_type.clone(alloc) {
        Ok(data_type) => match array {
            Ok(array) => Ok((data_type, array)),
            Err(error) => {
                drop(data_type);
                Err(error)
            }
        },
        Err(error) => {
            drop(array);
            Err(error)
        }
    }
}
