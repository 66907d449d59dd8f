//! Conversions of flat arrays to `AnyArray`. The arrays of this crate have methods of the same names.
ghost use Rattle.std.specs.Prelude.{◌≡◌, IfOk, IsOkUnless, alloc_error};
ghost use Rattle.nest_array.specs.Words.{Memory, layout_of};

use crate::any::AnyArray;
use crate::array::ArrayVariant;
use nest_memory::error::Error;
use std::alloc::Global;
use std::rc::Rc;

/// Conversions to `AnyArray` by value: arrow2's `boxed` and `arced`. `to_boxed` is a method of `Array`.
pub trait Boxed: ArrayVariant + Sized {
    /// Returns the array in its variant.
    final fn boxed(self) -> AnyArray
        ensures { layout_of result ≡ Self.parts self }
    {
        self.into_any()
    }

    /// Returns the array in its variant, in an `Rc`.
    ///
    /// # Errors
    /// `Memory` where an allocation fails.
    final fn arced(self, alloc: Global) -> Result<Rc<AnyArray>, Error>
        ensures ok { IfOk result (λ r. layout_of r.value ≡ Self.parts self) }
        ensures err { IsOkUnless result (Memory alloc_error) }
    {
        Ok(Rc::new(alloc, self.into_any())?)
    }
}

impl<A: ArrayVariant> Boxed for A {}
