//! Items that may need an allocation.
ghost use Rattle.std.specs.Prelude.{◌≡◌, ℕ, ◌<◌};
ghost use Rattle.nest_model.specs.Layout.{Layout};
ghost use Rattle.nest_model.specs.Meaning.{len};
ghost use Rattle.nest_model.specs.Nullness.{is_null_at};
ghost use Rattle.nest_scan.specs.Elements.{IsItemOrMemory};

use crate::elements::{DoubleEnded, Elements};
use nest_memory::error::Error;
use std::alloc::Global;

/// A reference to an array with one item for each slot, which may need an allocation.
pub trait TryElements: Copy {
    type Item;

    /// The array.
    ghost array: { Self → Layout };

    /// The condition on the array under which each slot has an item.
    ghost Asks: { Layout → Type 0 } = { λ _. Unit {0} };

    /// Whether a value is the item of a slot.
    ghost IsItem: { Layout → ℕ → Self.Item → Type 0 };

    /// Returns the number of slots.
    fn count(&self) -> usize
        ensures { result ≡ len (array self.now) };

    /// Returns the item of slot `i`.
    ///
    /// # Errors
    /// `Memory` where an allocation fails.
    fn item(&self, alloc: Global, i: usize) -> Result<Self::Item, Error>
        requires asked { Asks (array self.now) }
        requires within { i < len (array self.now) }
        ensures { IsItemOrMemory IsItem (array self.now) i result };
}

/// A reference to an array with a validity bitmap and one item for each slot, also under a null.
pub trait NullableElements: TryElements + DoubleEnded {
    /// Returns whether slot `i` is null.
    fn is_null_element(&self, i: usize) -> bool
        requires { i < len (Self.array self.now) }
        ensures { result ≡ is_null_at (Self.array self.now) i };

    ghost asks_nothing: { (a : Layout) → Self.Asks a };
}

/// The items of an array as `Result`s, `Err` where an allocation fails.
#[derive(Clone, Copy)]
pub struct Tried<A: TryElements> {
    alloc: Global,
    array: A,
}

impl<A: TryElements> Tried<A> {
    pub(crate) fn new(alloc: Global, array: A) -> Tried<A>
        ensures { result.array ≡ array }
    {
        Tried { alloc, array }
    }
}

impl<A: TryElements> Elements for Tried<A> {
    type Item = Result<A::Item, Error>;

    ghost use Rattle.nest_scan.specs.Elements.{IsItemOrMemory};

    ghost array = { λ s. A.array s.array };

    ghost Asks = { A.Asks };

    ghost IsItem = { IsItemOrMemory A.IsItem };

    fn count(&self) -> usize {
        self.array.count()
    }

    fn item(&self, i: usize) -> Result<A::Item, Error> {
        self.array.item(self.alloc, i)
    }
}

impl<A: TryElements + DoubleEnded> DoubleEnded for Tried<A> {}

/// The items of an array, `None` for a null.
#[derive(Clone, Copy)]
pub struct OptionalItems<A: NullableElements>(pub A);

impl<A: NullableElements> TryElements for OptionalItems<A> {
    type Item = Option<A::Item>;

    ghost use Rattle.nest_scan.specs.Elements.{IsItemOrNull};

    ghost array = { λ s. A.array s.0 };

    ghost IsItem = { IsItemOrNull A.IsItem };

    fn count(&self) -> usize {
        self.0.count()
    }

    fn item(&self, alloc: Global, i: usize) -> Result<Option<A::Item>, Error> {
        if self.0.is_null_element(i) {
            return Ok(None);
        }
        match self.0.item(alloc, i) {
            Ok(item) => Ok(Some(item)),
            Err(error) => Err(error),
        }
    }
}

impl<A: NullableElements> DoubleEnded for OptionalItems<A> {}
