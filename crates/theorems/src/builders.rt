//! Builders: a builder freezes to the slots it began with followed by the accepted ones, and a refused push changes no slot at any level.
ghost use Rattle.std.specs.Prelude.{◌≡◌, ◌⊎◌, ◌↔◌, OnOk, OnErr, IfOk, IfErr, IsErrOf, alloc_error};
ghost use Rattle.nest_array.specs.Seen.{layout_of};
ghost use Rattle.nest_memory.specs.declared.error.ArgumentError.TheVariants.{Incomplete};
ghost use Rattle.nest_memory.specs.declared.error.Error.TheVariants.{InvalidArgumentError, Memory};
ghost use Rattle.nest_model.specs.BuilderComplete.{IsComplete, emptied};
ghost use Rattle.nest_model.specs.BuilderInput.{CanRead};
ghost use Rattle.nest_model.specs.BuilderLevels.{own_slots};
ghost use Rattle.nest_model.specs.BuilderReading.{RefusedSome, ConsumedAll};
ghost use Rattle.nest_model.specs.BuilderTree.{builder_type};
ghost use Rattle.nest_model.specs.Layout.{layout_type};
ghost use Rattle.nest_model.specs.Meaning.{slots_of};

use nest_array::AnyArray;
use nest_build::array::MutableArray;
use nest_build::push::TryExtend;
use nest_memory::error::Error;
use std::alloc::Global;
use std::rc::Rc;

/// Appends all items of an iterator, or none; returns the error of the first item that is refused.
pub fn push_items<A, B: TryExtend<A>, I: IntoIterator<Item = A>>(
    builder: &mut B,
    items: I,
) -> Result<(), Error>
    requires complete { IsComplete (B.model builder.old) }
    requires can_read { CanRead (record { becomes = I.into_iter_gives; can = I.IntoIter.can_next; left = I.IntoIter.remaining; steps = I.IntoIter.next_gives }) B.can_extend items }
    ensures pushed { OnOk result (ConsumedAll
        (record { becomes = I.into_iter_gives; steps = I.IntoIter.next_gives; reads = B.reads_each }) items
        (B.model builder.old) (B.model builder.new)) }
    ensures err { OnErr result (B.model builder.new ≡ B.model builder.old) }
    ensures refused { IfErr result (λ e. RefusedSome
        (record { becomes = I.into_iter_gives; steps = I.IntoIter.next_gives; reads = B.reads_each }) items
        (B.model builder.old) e) }
{
    builder.try_extend(items)
}

/// Returns the array of the rows in an `Rc`. Fails where the builder is not complete, and then nothing changes, or when an allocation fails.
pub fn freeze_shared<B: MutableArray>(builder: &mut B, alloc: Global) -> Result<Rc<AnyArray>, Error>
    ensures slots { IfOk result (λ r. slots_of (layout_of r.value) ≡ own_slots (B.model builder.old)) }
    ensures data_type { IfOk result (λ r. layout_type (layout_of r.value) ≡ builder_type (B.model builder.old)) }
    ensures incomplete { IsErrOf result (InvalidArgumentError Incomplete) ↔ ¬ IsComplete (B.model builder.old) }
    ensures unchanged { ¬ IsComplete (B.model builder.old) → B.model builder.new ≡ B.model builder.old }
    ensures emptied { IsComplete (B.model builder.old) → B.model builder.new ≡ emptied (B.model builder.old) }
    ensures validity { IsComplete (B.model builder.old) → B.bare builder.new }
    ensures errors { IfErr result (λ e. (e ≡ InvalidArgumentError Incomplete) ⊎ (e ≡ Memory alloc_error)) }
{
    builder.as_arc(alloc)
}
