//! The builder of lists of any kind over a builder of any kind.
ghost use Rattle.std.specs.Prelude.{◌≡◌, ◌≢◌, ◌≤◌, ◌<◌, ◌↔◌, ◌⊎◌, IsNone, IsTrue, OnOk, OnErr, IfOk, IfErr, IsOkUnless, None, Some, true, false, option_map, alloc_error};
ghost use Rattle.nest_model.specs.Slot as slots;
ghost use Rattle.nest_any.specs.Trees.{tree_of};
ghost use Rattle.nest_model.specs.BuilderItem.{PlainValue, takes};
ghost use Rattle.nest_any.specs.Words.{FailFirst, HasCompleteChildren, IsListBuilder, IsOfLists, IsComplete, Memory, Overflow, Pass, ShowsNulls, RowAdded, builder_len, builder_type, truncate_builder, emptied, layout_of, layout_type, list_child, lists_over, nulls_appended, nulls_pass, own_slot, own_slots, physical_type, reserve_passes, row_checks, slots_of, type_of};

use crate::any::AnyMutableArray;
use crate::children::add_nulls;
use crate::rows::TypedRows;
use nest_array::AnyArray;
use nest_build::array::MutableArray;
use nest_memory::bitmap::mutable::MutableBitmap;
use nest_memory::datatypes::DataType;
use nest_memory::error::Error;
use std::alloc::Global;
use std::marker::Model;

/// A list builder over a builder of the items: 32-bit or 64-bit offsets, or fixed-size. Items pushed into the child are
/// pending until a row of them is added.
#[cycle(builder)]
#[derive(Drop)]
pub struct ListBuilder {
    rows: TypedRows,
    values: Box<AnyMutableArray>,
    alloc: Global,
}

impl Model for ListBuilder {
    ghost use Rattle.nest_model.specs.BuilderTree.{BuilderTree};
    ghost use Rattle.nest_any.specs.BuilderCode.{coded_builder, weight};

    ghost Value = { BuilderTree };

    ghost coded = { coded_builder };

    ghost use Rattle.nest_any.specs.SeenLists.{lists_seen};

    ghost view = { lists_seen };

    ghost size = { weight };

    ghost use Rattle.std.proofs.Common.{arith};
    ghost use Rattle.nest_any.specs.Falls.{lists-fall};

    ghost size_decreases = { λ a h. Prim.omega (arith, lists-fall a.rows a.values.value) };
}

impl ListBuilder {
    ghost use Rattle.std.specs.Borrow.{Lends, LendsIf, sem};
    ghost use Rattle.nest_any.specs.contracts.lists.ListBuilder.{the_row};
    ghost use Rattle.nest_any.specs.contracts.any.AnyMutableArray.{the_row as any_row};
    ghost use Rattle.nest_any.specs.Lent.{child_builder, with_items};

    /// Returns the builder of rows over a child.
    pub(crate) fn over(alloc: Global, rows: TypedRows, values: Box<AnyMutableArray>) -> ListBuilder
        ensures { result ≡ lists_over rows (tree_of values.value) }
    {
        ListBuilder {
            rows,
            values,
            alloc,
        }
    }

    /// Returns the builder of rows over a child, which it boxes.
    pub(crate) fn boxed(
        alloc: Global,
        rows: TypedRows,
        values: AnyMutableArray,
    ) -> Result<ListBuilder, Error>
        ensures ok { IfOk result (λ b. b ≡ lists_over rows (tree_of values)) }
        ensures memory { IsOkUnless result (Memory alloc_error) }
    {
        match Box::new(alloc, values) {
            Ok(values) => Ok(ListBuilder::over(alloc, rows, values)),
            Err(error) => {
                drop(rows);
                Err(error.into())
            }
        }
    }

    /// Shows the prover the invariants: the builder accepts no plain value, its data type is a list type, and a row may
    /// be added if the child is complete. Does nothing at run time.
    pub fn known(&self)
        ensures takes { (v : PlainValue) → takes self.now v ≡ false }
        ensures kind { IsListBuilder self.now }
        ensures lists { IsOfLists (physical_type (builder_type self.now)) }
        ensures nulls { IsComplete (list_child self.now) → HasCompleteChildren self.now }
    {
        self.rows.known();
    }

    pub(crate) fn data_type(&self) -> &DataType
        ensures { type_of result.now ≡ builder_type self.now }
    {
        self.rows.data_type()
    }

    pub(crate) fn len(&self) -> usize
        ensures { result ≡ builder_len self.now }
    {
        self.rows.len()
    }

    pub(crate) fn validity(&self) -> Option<&MutableBitmap>
        ensures nulls { ShowsNulls (option_map (λ b. b.now) result) self.now }
        ensures none { builder_len self.now ≡ 0 → IsNone result }
    {
        self.rows.validity()
    }

    pub(crate) fn is_valid(&self, i: usize) -> bool
        requires { i < builder_len self.now }
        ensures { IsTrue result ↔ own_slot self.now i ≢ slots.null }
    {
        let _len = self.rows.len();
        self.rows.is_valid(i)
    }

    #[cycle(complete)]
    pub(crate) fn complete(&self) -> bool
        ensures { IsTrue result ↔ IsComplete self.now }
    {
        self.values.complete() && self.rows.fits(self.values.data_type(), self.values.len())
    }

    #[cycle(null)]
    pub(crate) fn add_null(&mut self) -> Result<(), Error>
        requires { IsComplete self.old }
        ensures ok { OnOk result (self.new ≡ nulls_appended 1 self.old) }
        ensures room { OnOk result (nulls_pass 1 self.old ≡ false) }
        ensures err { OnErr result (self.new ≡ self.old) }
        ensures cause { IfErr result (λ e. (e ≡ Memory alloc_error) ⊎ ((e ≡ Overflow) × (nulls_pass 1 self.old ≡ true))) }
    {
        let len = self.values.len();
        let nulls = self.rows.child_nulls();
        if let Err(refusal) = add_nulls(&mut self.values, nulls) {
            return Err(refusal);
        }
        let _items = self.values.len();
        match self.rows.push_null() {
            Ok(()) => Ok(()),
            Err(error) => {
                self.values.cut(len);
                Err(error)
            }
        }
    }

    #[cycle(cut)]
    pub(crate) fn cut(&mut self, n: usize)
        requires complete { IsComplete self.old }
        requires within { n ≤ builder_len self.old }
        ensures { self.new ≡ truncate_builder self.old n }
    {
        let items = self.values.len();
        let end = self.rows.truncate(n, items);
        self.values.cut(end);
    }

    #[cycle(room)]
    pub(crate) fn room(&mut self, additional: usize) -> Result<(), Error>
        ensures same { self.new ≡ self.old }
        ensures room { OnOk result (reserve_passes additional self.old ≡ false) }
        ensures cause { IfErr result (λ e. (e ≡ Memory alloc_error) ⊎ ((e ≡ Overflow) × (reserve_passes additional self.old ≡ true))) }
    {
        let Some(items) = self.rows.room_for(additional) else {
            return Err(Error::Overflow);
        };
        if let Err(refusal) = self.values.room(items) {
            return Err(refusal);
        }
        self.rows.reserve(additional)
    }

    #[cycle(shrink)]
    pub(crate) fn shrink(&mut self) -> Result<(), Error>
        ensures same { self.new ≡ self.old }
        ensures memory { IsOkUnless result (Memory alloc_error) }
    {
        self.rows.shrink_to_fit();
        self.values.shrink()
    }

    #[cycle(frozen)]
    pub(crate) fn frozen(&mut self) -> Result<AnyArray, Error>
        requires { IsComplete self.old }
        ensures slots { IfOk result (λ a. slots_of (layout_of a) ≡ own_slots self.old) }
        ensures same_type { IfOk result (λ a. layout_type (layout_of a) ≡ builder_type self.old) }
        ensures emptied { self.new ≡ emptied self.old }
        ensures memory { IsOkUnless result (Memory alloc_error) }
    {
        match self.values.frozen() {
            Ok(values) => self.rows.freeze_over(self.alloc, values),
            Err(error) => {
                self.rows.clear();
                Err(error)
            }
        }
    }

    /// Appends a row of the pending items, as `AnyMutableArray::push_row`.
    pub fn push_row(&mut self, valid: bool) -> Result<(), Error>
        requires { HasCompleteChildren self.old }
        ensures ok { OnOk result (RowAdded valid self.old self.new) }
        ensures passed { OnOk result (Pass (row_checks self.old)) }
        ensures err { OnErr result (self.new ≡ self.old) }
        ensures cause { IfErr result (λ e. (e ≡ Memory alloc_error) ⊎ FailFirst e (row_checks self.old)) }
    {
        let count = self.values.len();
        self.rows.push_row(valid, self.values.data_type(), count)
    }

    /// Returns whether the child is complete; then a row of the pending items may be added.
    pub fn has_complete_children(&self) -> bool
        ensures { IsTrue result ↔ HasCompleteChildren self.now }
    {
        self.rows.known();
        self.values.complete()
    }

    /// Returns the child, to push the items of a row before the row is added.
    pub fn child(&mut self) -> &mut AnyMutableArray
        ensures* writes_back { sem 𝓛 (Lends the_row any_row self.entry result (λ c. with_items self.entry.now (tree_of c))) }
        ensures value { tree_of result.now ≡ list_child self.old }
    {
        &mut self.values
    }

    /// Returns the child for index 0, else `None`.
    pub(crate) fn child_at(&mut self, i: usize) -> Option<&mut AnyMutableArray>
        ensures* writes_back { sem 𝓛 (LendsIf the_row any_row self.entry result (λ c. with_items self.entry.now (tree_of c)) self.old) }
        ensures value { option_map (λ c. tree_of c.now) result ≡ child_builder i self.old }
    {
        if i == 0 { Some(&mut self.values) } else { None }
    }
}
