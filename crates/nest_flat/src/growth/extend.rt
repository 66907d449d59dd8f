//! Appending the items of an iterator, all or none.
ghost use Rattle.std.specs.Prelude.{◌≡◌, ◌≤◌, ◌∷◌, [], List, Option, None, OnOk, OnErr, IfErr};
ghost use Rattle.nest_flat.specs.Words.{CanDrain, Error, Extended, YieldsAll, Grew, IsReportedError, Layout, RefusesBeginning, Slot, is_masked, layout_type, len, rolled_back};

use nest_memory::error::Error;

/// A builder of a flat array that appends items of one type.
pub(crate) trait Grow<A> {
    /// The layout of the slots so far.
    ghost layout: { Self → Layout };

    /// The slot that an item represents.
    ghost slot_of_item: { A → Slot };

    /// The layout after an item is appended.
    ghost pushed: { Layout → A → Layout };

    /// The error of appending an item, other than a failed allocation.
    ghost refusal: { Layout → A → Option Error };

    /// Returns the number of slots.
    fn count(&self) -> usize
        ensures { result ≡ len (layout self.now) };

    /// Returns whether there is a validity.
    fn has_validity(&self) -> bool
        ensures masked { result ≡ is_masked (layout self.now) }
        ensures whole { rolled_back (layout self.now) (len (layout self.now)) (is_masked (layout self.now)) ≡ layout self.now };

    /// Appends a slot.
    fn push_item(&mut self, item: A) -> Result<(), Error>
        ensures parts { OnOk result (layout self.new ≡ pushed (layout self.old) item) }
        ensures grew { OnOk result (Grew (slot_of_item item ∷ []) (layout self.old) (layout self.new)) }
        ensures err { OnErr result (layout self.new ≡ layout self.old) }
        ensures unrefused { OnOk result (refusal (layout self.old) item ≡ None) }
        ensures cause { IfErr result (λ e. IsReportedError (refusal (layout self.old) item) e) };

    /// Keeps the first `n` slots, and drops the validity unless `masked`.
    fn rollback(&mut self, n: usize, masked: bool)
        requires { n ≤ len (layout self.old) }
        ensures { layout self.new ≡ rolled_back (layout self.old) n masked };
}

/// Appends each item. On error every appended item is removed again.
pub(crate) fn extend_by_push<A, B: Grow<A>, I: IntoIterator<Item = A>>(
    builder: &mut B,
    items: I,
) -> Result<(), Error>
    requires { CanDrain I.into_iter_gives I.IntoIter.can_next I.IntoIter.remaining items }
    ensures ok { OnOk result ((xs : List A) × YieldsAll I.into_iter_gives I.IntoIter.next_gives items xs × Extended B.pushed B.refusal B.slot_of_item xs (B.layout builder.old) (B.layout builder.new)) }
    ensures same_type { layout_type (B.layout builder.new) ≡ layout_type (B.layout builder.old) }
    ensures err { OnErr result (B.layout builder.new ≡ B.layout builder.old) }
    ensures cause { IfErr result (λ e. RefusesBeginning I.into_iter_gives I.IntoIter.next_gives B.pushed B.refusal items (B.layout builder.old) e) }
{
    let len = builder.count();
    let masked = builder.has_validity();
    for item in items {
        if let Err(error) = builder.push_item(item) {
            builder.rollback(len, masked);
            return Err(error);
        }
    }
    Ok(())
}
