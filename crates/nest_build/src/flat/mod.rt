//! `MutableArray` for all flat builders, through the trait `FlatBuilder`.
pub mod any_primitive;
mod binary;
mod boolean;
mod primitive;
mod utf8;

ghost use Rattle.std.specs.Prelude.{◌≡◌, ◌≤◌, ◌<◌, ◌↔◌, ◌⊎◌, ⊤, [], true, false, IsTrue, OnOk, OnErr, IfOk, IfErr, IsErrOf, IsOkUnless, None, Some, take, option_map, alloc_error};
ghost use Rattle.nest_model.specs.BuilderTree as builders;
ghost use Rattle.nest_flat.specs.NullSlots.{NullsByValidity};
ghost use Rattle.nest_build.specs.Words.{Accepted, FailFirst, Holds, InvalidArgumentError, IsOfOtherKind, ItemType, Joined, Layout, Memory, Overflow, Pass, ReadsValue, Refused, TopFits, Consumed, required_item, requirement_refusal, flat_tree, join_checks, layout_of, layout_type, len, plain_value, plain_values, reserve_passes, slots_of, type_of, valid_at, validity_of};

use crate::array::{MutableArray, shared};
use crate::push::{TryExtend, TryExtendFromSelf, TryPush, extend_by_push};
use nest_array::AnyArray;
use nest_flat::plain::{AsPlain, Plain};
use nest_memory::bitmap::mutable::MutableBitmap;
use nest_memory::datatypes::DataType;
use nest_memory::error::Error;
use std::alloc::Global;
use std::rc::Rc;

/// A builder of a flat array. Every `FlatBuilder` is a `MutableArray`; callers need not name this trait.
pub trait FlatBuilder: Drop {
    /// The layout of the array so far.
    ghost parts: { Self → Layout };

    /// Shows the prover the invariants of a flat builder. Does nothing at run time.
    fn facts(&self)
        ensures fits { TopFits (parts self.now) }
        ensures nulls { NullsByValidity (parts self.now) };

    fn count(&self) -> usize
        ensures { result ≡ len (parts self.now) };

    fn type_of_slots(&self) -> &DataType
        ensures { type_of result.now ≡ layout_type (parts self.now) };

    fn bits(&self) -> Option<&MutableBitmap>
        ensures { option_map (λ b. b.now) result ≡ validity_of (parts self.now) };

    fn bit(&self, i: usize) -> bool
        requires { i < len (parts self.now) }
        ensures { result ≡ valid_at (validity_of (parts self.now)) i };

    /// Returns whether slot `i` is this value, of the builder's kind.
    fn is_value(&self, i: usize, value: &Plain<'_>) -> bool
        requires { i < len (parts self.now) }
        ensures { IsTrue result ↔ Holds (flat_tree (parts self.now)) i (plain_value value.now) };

    /// Appends a slot: the value, or null.
    fn push_plain(&mut self, value: Option<Plain<'_>>) -> Result<(), Error>
        ensures accepted { OnOk result (Accepted (required_item (plain_values value.entry)) (flat_tree (parts self.old)) (flat_tree (parts self.new))) }
        ensures unrefused { OnOk result (requirement_refusal (plain_values value.entry) (flat_tree (parts self.old)) ≡ None) }
        ensures err { OnErr result (parts self.new ≡ parts self.old) }
        ensures kind { IsErrOf result (InvalidArgumentError ItemType) ↔ IsOfOtherKind (plain_values value.entry) (flat_tree (parts self.old)) }
        ensures cause { IfErr result (λ e. (e ≡ Memory alloc_error) ⊎ (requirement_refusal (plain_values value.entry) (flat_tree (parts self.old)) ≡ Some e)) };

    /// Appends the slots of another builder, all of them or none.
    fn join(&mut self, other: &Self) -> Result<(), Error>
        ensures joined { OnOk result (Joined (flat_tree (parts other.now)) (flat_tree (parts self.old)) (flat_tree (parts self.new))) }
        ensures unrefused { OnOk result (Pass (join_checks (flat_tree (parts self.old)) (flat_tree (parts other.now)))) }
        ensures err { OnErr result (parts self.new ≡ parts self.old) }
        ensures cause { IfErr result (λ e. (e ≡ Memory alloc_error) ⊎ FailFirst e (join_checks (flat_tree (parts self.old)) (flat_tree (parts other.now)))) };

    /// Keeps the first `n` slots.
    fn cut(&mut self, n: usize)
        requires { n ≤ len (parts self.old) }
        ensures { flat_tree (parts self.new) ≡ builders.flat (layout_type (parts self.old)) (take n (slots_of (parts self.old))) };

    /// Reserves capacity for at least `additional` more slots.
    fn room(&mut self, additional: usize) -> Result<(), Error>
        ensures same { parts self.new ≡ parts self.old }
        ensures room { OnOk result (reserve_passes additional (flat_tree (parts self.old)) ≡ false) }
        ensures cause { IfErr result (λ e. (e ≡ Memory alloc_error) ⊎ ((e ≡ Overflow) × (reserve_passes additional (flat_tree (parts self.old)) ≡ true))) };

    /// Shrinks the capacity to the slots as far as the allocator can.
    fn shrink(&mut self)
        ensures { parts self.new ≡ parts self.old };

    /// Returns the array of the slots. The builder has no slots and no validity afterwards, also after `Memory`.
    fn frozen(&mut self) -> Result<AnyArray, Error>
        ensures ok { IfOk result (λ a. layout_of a ≡ parts self.old) }
        ensures emptied { flat_tree (parts self.new) ≡ builders.flat (layout_type (parts self.old)) [] }
        ensures validity { validity_of (parts self.new) ≡ None }
        ensures memory { IsOkUnless result (Memory alloc_error) };
}

/// A builder of a flat array with items of type `A`.
pub trait TakesValue<A: AsPlain> {}

impl<B: FlatBuilder> MutableArray for B {
    ghost model = { λ b. flat_tree (B.parts b) };

    ghost bare = { λ b. validity_of (B.parts b) ≡ None };

    fn data_type(&self) -> &DataType {
        self.type_of_slots()
    }

    fn len(&self) -> usize {
        self.count()
    }

    fn is_empty(&self) -> bool {
        self.count() == 0
    }

    fn validity(&self) -> Option<&MutableBitmap> {
        self.facts();
        self.bits()
    }

    fn is_valid(&self, i: usize) -> bool {
        self.facts();
        let _count = self.count();
        self.bit(i)
    }

    fn is_complete(&self) -> bool {
        true
    }

    fn holds(&self, i: usize, value: &Plain<'_>) -> bool {
        self.is_value(i, value)
    }

    fn push_null(&mut self) -> Result<(), Error> {
        self.push_plain(None)
    }

    fn try_push_plain(&mut self, value: Option<Plain<'_>>) -> Result<(), Error> {
        self.push_plain(value)
    }

    fn truncate(&mut self, n: usize) {
        self.cut(n)
    }

    fn reserve(&mut self, additional: usize) -> Result<(), Error> {
        self.room(additional)
    }

    fn shrink_to_fit(&mut self) -> Result<(), Error> {
        self.shrink();
        Ok(())
    }

    fn as_box(&mut self) -> Result<AnyArray, Error> {
        self.frozen()
    }

    fn as_arc(&mut self, alloc: Global) -> Result<Rc<AnyArray>, Error> {
        shared(self.frozen(), alloc)
    }
}

/// Appends a value of one type, or a null.
fn push_value<A: AsPlain + Drop, B: FlatBuilder>(
    builder: &mut B,
    item: Option<A>,
) -> Result<(), Error>
    ensures ok { OnOk result (Consumed (ReadsValue A.value) item (flat_tree (B.parts builder.old)) (flat_tree (B.parts builder.new))) }
    ensures err { OnErr result (B.parts builder.new ≡ B.parts builder.old) }
    ensures cause { IfErr result (λ e. Refused (ReadsValue A.value) item (flat_tree (B.parts builder.old)) e) }
{
    match item {
        None => builder.push_plain(None),
        Some(value) => builder.push_plain(Some(value.as_plain())),
    }
}

impl<A: AsPlain + Drop, B: FlatBuilder + TakesValue<A>> TryPush<Option<A>> for B {
    ghost can_push = { λ _. ⊤ };

    ghost reads = { ReadsValue A.value };

    fn try_push(&mut self, item: Option<A>) -> Result<(), Error> {
        push_value(self, item)
    }
}

impl<A: AsPlain + Drop, B: FlatBuilder + TakesValue<A>> TryExtend<Option<A>> for B {
    ghost can_extend = { λ _. ⊤ };

    ghost reads_each = { ReadsValue A.value };

    fn try_extend<I: IntoIterator<Item = Option<A>>>(&mut self, items: I) -> Result<(), Error> {
        extend_by_push(self, items)
    }
}

impl<B: FlatBuilder> TryExtendFromSelf for B {
    fn try_extend_from_self(&mut self, other: &B) -> Result<(), Error> {
        self.join(other)
    }
}
