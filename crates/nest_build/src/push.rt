//! Pushing items of one type: arrow2's `TryPush`, `TryExtend` and `TryExtendFromSelf`.
ghost use Rattle.std.specs.Prelude.{◌≡◌, ◌<◌, ◌⊎◌, false, true, OnOk, OnErr, IfErr, replicate, alloc_error};
ghost use Rattle.nest_model.specs.BuilderItem.{null as null_item};
ghost use Rattle.nest_build.specs.Words.{AcceptedAll, CanRead, FailFirst, IsComplete, Joined, Memory, Overflow, Pass, Read, Refused, RefusedSome, Consumed, ConsumedAll, join_checks, nulls_pass};

use crate::array::MutableArray;
use nest_memory::error::Error;

/// A builder that accepts items of one type.
pub trait TryPush<A>: MutableArray {
    /// The items that can be read: an iterator's `next` may be called, and it ends.
    ghost can_push: { A → Type 0 };

    /// What a push reads of an item: all of it, or a prefix.
    ghost reads: { A → Read → Type 0 };

    /// Appends a row: the value that the item represents.
    ///
    /// # Errors
    /// The first failed check of this level or one below: `ItemType`, `ItemSize`, `Overflow`. `Memory` if an allocation
    /// fails.
    fn try_push(&mut self, item: A) -> Result<(), Error>
        requires complete { IsComplete (Self.model self.old) }
        requires can { can_push item }
        ensures ok { OnOk result (Consumed reads item (Self.model self.old) (Self.model self.new)) }
        ensures err { OnErr result (Self.model self.new ≡ Self.model self.old) }
        ensures cause { IfErr result (λ e. Refused reads item (Self.model self.old) e) };
}

/// A builder that accepts all of several items or none.
pub trait TryExtend<A>: MutableArray {
    /// The items that can be read.
    ghost can_extend: { A → Type 0 };

    /// What is read of an item: all of it, or a prefix.
    ghost reads_each: { A → Read → Type 0 };

    /// Appends a row per item, all of them or none.
    ///
    /// # Errors
    /// The error of `try_push` for the first item that is refused: `ItemType`, `ItemSize`, `Overflow`. `Memory` if an
    /// allocation fails.
    fn try_extend<I: IntoIterator<Item = A>>(&mut self, items: I) -> Result<(), Error>
        requires complete { IsComplete (Self.model self.old) }
        requires can { CanRead (record { becomes = I.into_iter_gives; can = I.IntoIter.can_next; left = I.IntoIter.remaining; steps = I.IntoIter.next_gives }) can_extend items }
        ensures ok { OnOk result (ConsumedAll
            (record { becomes = I.into_iter_gives; steps = I.IntoIter.next_gives; reads = reads_each }) items
            (Self.model self.old) (Self.model self.new)) }
        ensures err { OnErr result (Self.model self.new ≡ Self.model self.old) }
        ensures cause { IfErr result (λ e. RefusedSome
            (record { becomes = I.into_iter_gives; steps = I.IntoIter.next_gives; reads = reads_each }) items
            (Self.model self.old) e) };
}

/// A builder that accepts all rows of another builder of its type or none.
pub trait TryExtendFromSelf: MutableArray {
    /// Appends the rows of `other` at each level.
    ///
    /// # Errors
    /// `ItemType` if the data types differ; then `Overflow` if a level would exceed its limit; `Memory` if an
    /// allocation fails.
    fn try_extend_from_self(&mut self, other: &Self) -> Result<(), Error>
        requires complete { IsComplete (Self.model self.old) }
        requires other_whole { IsComplete (Self.model other.now) }
        ensures joined { OnOk result (Joined (Self.model other.now) (Self.model self.old) (Self.model self.new)) }
        ensures unrefused { OnOk result (Pass (join_checks (Self.model self.old) (Self.model other.now))) }
        ensures err { OnErr result (Self.model self.new ≡ Self.model self.old) }
        ensures cause { IfErr result (λ e. (e ≡ Memory alloc_error) ⊎ FailFirst e (join_checks (Self.model self.old) (Self.model other.now))) };
}

/// Pushes each item. Removes all of them again if one is refused.
pub fn extend_by_push<A, B: TryPush<A>, I: IntoIterator<Item = A>>(
    builder: &mut B,
    items: I,
) -> Result<(), Error>
    requires complete { IsComplete (B.model builder.old) }
    requires can { CanRead (record { becomes = I.into_iter_gives; can = I.IntoIter.can_next; left = I.IntoIter.remaining; steps = I.IntoIter.next_gives }) B.can_push items }
    ensures ok { OnOk result (ConsumedAll
        (record { becomes = I.into_iter_gives; steps = I.IntoIter.next_gives; reads = B.reads }) items
        (B.model builder.old) (B.model builder.new)) }
    ensures err { OnErr result (B.model builder.new ≡ B.model builder.old) }
    ensures cause { IfErr result (λ e. RefusedSome
        (record { becomes = I.into_iter_gives; steps = I.IntoIter.next_gives; reads = B.reads }) items
        (B.model builder.old) e) }
{
    let len = builder.len();
    for item in items {
        match builder.try_push(item) {
            Ok(()) => {}
            Err(error) => {
                builder.truncate(len);
                return Err(error);
            }
        }
    }
    Ok(())
}

/// Pushes `n` nulls. Removes all of them again if one is refused.
pub fn extend_nulls<B: MutableArray>(builder: &mut B, n: usize) -> Result<(), Error>
    requires complete { IsComplete (B.model builder.old) }
    requires some { 0 < n }
    ensures ok { OnOk result (AcceptedAll (replicate n null_item) (B.model builder.old) (B.model builder.new) × (nulls_pass n (B.model builder.old) ≡ false)) }
    ensures err { OnErr result (B.model builder.new ≡ B.model builder.old) }
    ensures cause { IfErr result (λ e. (e ≡ Memory alloc_error) ⊎ ((e ≡ Overflow) × (nulls_pass n (B.model builder.old) ≡ true))) }
{
    let len = builder.len();
    for _i in 0..n {
        match builder.push_null() {
            Ok(()) => {}
            Err(error) => {
                builder.truncate(len);
                return Err(error);
            }
        }
    }
    Ok(())
}
