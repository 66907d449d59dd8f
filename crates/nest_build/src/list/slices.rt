//! Rows of a list builder from slices of values.
ghost use Rattle.std.specs.Prelude.{◌≡◌, ◌⊎◌, None, Some, OnOk, OnErr, IfErr, alloc_error};
ghost use Rattle.std.specs.Option.{option_copied};
ghost use Rattle.nest_build.specs.Words.{Accepted, IsComplete, Memory, item_refusal, row_item};

use crate::array::MutableArray;
use crate::flat::{FlatBuilder, TakesValue};
use crate::list::mutable::MutableListArray;
use crate::list::width::ListWidth;
use crate::push::TryPush;
use nest_flat::plain::AsPlain;
use nest_memory::error::Error;

impl<O: ListWidth, M: FlatBuilder> MutableListArray<O, M> {
    /// Appends a row: null, or the list of the values of a slice. Equivalent to `try_push` of the slice's iterator.
    ///
    /// # Errors
    /// The error of the first value that the child refuses; else `Overflow` if the end of the row exceeds the largest
    /// offset; `Memory` if an allocation fails.
    pub fn try_push_slice<A: AsPlain + Copy + Drop>(
        &mut self,
        row: Option<&[Option<A>]>,
    ) -> Result<(), Error>
    where
        M: TakesValue<A>,
        requires { IsComplete (⟦<MutableListArray<O, M> as MutableArray>⟧.model self.old) }
        ensures accepted { let tree = ⟦<MutableListArray<O, M> as MutableArray>⟧.model in OnOk result (Accepted (row_item A.value (option_copied row.entry)) (tree self.old) (tree self.new)) }
        ensures unrefused { OnOk result (item_refusal (row_item A.value (option_copied row.entry)) (⟦<MutableListArray<O, M> as MutableArray>⟧.model self.old) ≡ None) }
        ensures err { let tree = ⟦<MutableListArray<O, M> as MutableArray>⟧.model in OnErr result (tree self.new ≡ tree self.old) }
        ensures cause { IfErr result (λ e. (e ≡ Memory alloc_error) ⊎ (item_refusal (row_item A.value (option_copied row.entry)) (⟦<MutableListArray<O, M> as MutableArray>⟧.model self.old) ≡ Some e)) }
    {
        match row {
            None => self.push_null(),
            Some(items) => self.try_push(Some(items.iter().copied())),
        }
    }
}
