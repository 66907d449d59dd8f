//! Arrays with several owners.
ghost use Rattle.std.specs.Prelude.{◌≡◌, IfOk};
ghost use Rattle.nest_build.specs.Words.{own_slots};
ghost use Rattle.guide.specs.Words.{layout_of, slots_of};

use std::alloc::Global;
use std::rc::Rc;
use tiekvorn::error::Error;
use tiekvorn::{AnyArray, Array, ListArray, MutableArray};

/// Moves an array into an `Rc`.
pub fn shared(alloc: Global, lists: ListArray) -> Result<Rc<AnyArray>, Error>
    ensures { IfOk result (λ r. layout_of r.value ≡ lists) }
{
    lists.arced(alloc)
}

/// Returns an `AnyArray` on the buffers of `array`.
pub fn boxed<A: Array>(alloc: Global, array: &A) -> Result<AnyArray, Error>
    ensures { IfOk result (λ a. layout_of a ≡ A.layout array.now) }
{
    array.to_boxed(alloc)
}

/// Freezes a builder, and moves the array into an `Rc`.
pub fn freeze_shared<B: MutableArray>(alloc: Global, builder: &mut B) -> Result<Rc<AnyArray>, Error>
    ensures { IfOk result (λ r. slots_of (layout_of r.value) ≡ own_slots (B.model builder.old)) }
{
    builder.as_arc(alloc)
}
