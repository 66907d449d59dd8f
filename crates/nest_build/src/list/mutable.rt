//! The builder of list arrays over any builder of the items.
ghost use Rattle.std.specs.Prelude.{◌≡◌, ◌≢◌, ◌<◌, ◌⊎◌, ◌↔◌, [], true, OnOk, OnErr, IfOk, IfErr, IsErrOf, IsOkUnless, IsTrue, ◌+◌, alloc_error};
ghost use Rattle.std.specs.Borrow.{sem, Lends};
ghost use Rattle.nest_memory.specs.TypeTree.{field};
ghost use Rattle.nest_model.specs.BuilderTree as builders;
ghost use Rattle.nest_build.specs.Lists.{RefusesChild, new_list_checks, no_lists, default_lists};
ghost use Rattle.nest_build.specs.Words.{CanReadList, ChildNotEmpty, FailFirst, HasCompleteChildren, InvalidArgumentError, IsListBy, IsComplete, ListCovers, Memory, Pass, ReadsList, RowAdded, RowsAdded, Incomplete, builder_len, builder_type, default_field, emptied, layout_of, layout_type, items_of_lengths, lengths_checks, list_child, own_slots, row_checks, encoded_rows, slots_of, encoded_rows_checks, type_of};

use crate::array::{MutableArray, shared};
use crate::child::{OverChild, frozen_parts, has_items, same_types};
use crate::list::data_type::ListType;
use crate::list::width::{FrozenRows, ListWidth, RowStore};
use crate::push::{TryExtend, TryExtendFromSelf, TryPush, extend_by_push};
use nest_array::AnyArray;
use nest_array::array::ArrayVariant;
use nest_flat::plain::Plain;
use nest_memory::bitmap::mutable::MutableBitmap;
use nest_memory::datatypes::DataType;
use nest_memory::datatypes::field::Field;
use nest_memory::error::{ArgumentError, Error};
use std::alloc::Global;
use std::rc::Rc;

/// A builder of list arrays over a builder of the items: arrow2's `MutableListArray`. Items pushed into the child are
/// pending until a row of them is added.
#[derive(Drop)]
pub struct MutableListArray<O: ListWidth, M> {
    data_type: ListType<O>,
    rows: O::Rows,
    values: M,
    alloc: Global,
}

impl<O: ListWidth, M: MutableArray> MutableListArray<O, M> {
    ghost use Rattle.nest_build.specs.contracts.list.mutable.MutableListArray.{the_row};

    /// Returns a builder without rows over an empty child. The items are named "item" and nullable.
    ///
    /// # Errors
    /// `ChildNotEmpty` if the child has rows, `Memory` if an allocation fails.
    pub fn new(alloc: Global, values: M) -> Result<MutableListArray<O, M>, Error>
        requires { IsComplete (M.model values) }
        ensures ok { IfOk result (λ b. ⟦<MutableListArray<O, M> as MutableArray>⟧.model b ≡ no_lists O.IS_LARGE (default_field (builder_type (M.model values))) (M.model values)) }
        ensures empty { IfOk result (λ b. builder_len (M.model values) ≡ 0) }
        ensures cause { IfErr result (RefusesChild (M.model values)) }
    {
        MutableListArray::new_with_field(alloc, values, "item", true)
    }

    /// As `new`, with the name and the nullability of the items.
    ///
    /// # Errors
    /// As `new`.
    pub fn new_with_field(
        alloc: Global,
        values: M,
        name: &str,
        nullable: bool,
    ) -> Result<MutableListArray<O, M>, Error>
        requires { IsComplete (M.model values) }
        ensures ok { IfOk result (λ b. ⟦<MutableListArray<O, M> as MutableArray>⟧.model b ≡ no_lists O.IS_LARGE (field name.now (builder_type (M.model values)) nullable []) (M.model values)) }
        ensures empty { IfOk result (λ b. builder_len (M.model values) ≡ 0) }
        ensures cause { IfErr result (RefusesChild (M.model values)) }
    {
        if !values.is_empty() {
            return Err(Error::InvalidArgumentError(ArgumentError::ChildNotEmpty));
        }
        let items = values.data_type().clone(alloc)?;
        let items = Field::new(alloc, name, items, nullable)?;
        let data_type = ListType::of_field(alloc, items)?;
        MutableListArray::over(alloc, data_type, values)
    }

    /// As `new`, with capacity for `capacity` rows.
    ///
    /// # Errors
    /// As `new`.
    pub fn with_capacity(
        alloc: Global,
        values: M,
        capacity: usize,
    ) -> Result<MutableListArray<O, M>, Error>
        requires { IsComplete (M.model values) }
        ensures ok { IfOk result (λ b. ⟦<MutableListArray<O, M> as MutableArray>⟧.model b ≡ no_lists O.IS_LARGE (default_field (builder_type (M.model values))) (M.model values)) }
        ensures empty { IfOk result (λ b. builder_len (M.model values) ≡ 0) }
        ensures cause { IfErr result (RefusesChild (M.model values)) }
    {
        let mut lists: MutableListArray<O, M> = MutableListArray::new(alloc, values)?;
        lists.rows.reserve(capacity)?;
        Ok(lists)
    }

    /// As `with_capacity`.
    ///
    /// # Errors
    /// As `new`.
    pub fn new_with_capacity(
        alloc: Global,
        values: M,
        capacity: usize,
    ) -> Result<MutableListArray<O, M>, Error>
        requires { IsComplete (M.model values) }
        ensures ok { IfOk result (λ b. ⟦<MutableListArray<O, M> as MutableArray>⟧.model b ≡ no_lists O.IS_LARGE (default_field (builder_type (M.model values))) (M.model values)) }
        ensures empty { IfOk result (λ b. builder_len (M.model values) ≡ 0) }
        ensures cause { IfErr result (RefusesChild (M.model values)) }
    {
        MutableListArray::with_capacity(alloc, values, capacity)
    }

    /// Returns a builder without rows of a data type, over an empty child, with capacity for `capacity` rows.
    ///
    /// # Errors
    /// The first of: `ChildNotEmpty` if the child has rows; `WrongType` if the physical type is not a list with such
    /// offsets; `ChildType` if the types of the child and of its field differ. `Memory` if an allocation fails.
    pub fn new_from(
        alloc: Global,
        values: M,
        data_type: DataType,
        capacity: usize,
    ) -> Result<MutableListArray<O, M>, Error>
        requires { IsComplete (M.model values) }
        ensures ok { IfOk result (λ b. ⟦<MutableListArray<O, M> as MutableArray>⟧.model b ≡ builders.list O.IS_LARGE (type_of data_type) [] (M.model values)) }
        ensures passed { IfOk result (λ b. Pass (new_list_checks O.IS_LARGE (type_of data_type) (M.model values))) }
        ensures cause { IfErr result (λ e. (e ≡ Memory alloc_error) ⊎ FailFirst e (new_list_checks O.IS_LARGE (type_of data_type) (M.model values))) }
    {
        if !values.is_empty() {
            drop(data_type);
            return Err(Error::InvalidArgumentError(ArgumentError::ChildNotEmpty));
        }
        let data_type = match ListType::of_type(data_type, values.data_type()) {
            Ok(data_type) => data_type,
            Err(error) => return Err(error),
        };
        let mut lists: MutableListArray<O, M> = MutableListArray::over(alloc, data_type, values)?;
        lists.rows.reserve(capacity)?;
        Ok(lists)
    }

    /// Returns the builder with these offsets and this validity over the items of a child. The items are named "item"
    /// and nullable.
    ///
    /// # Errors
    /// `LengthsSum` if the last offset is not the number of items, then `ValidityLength` if there is not one bit per
    /// row; `Memory` if an allocation fails.
    pub fn new_from_mutable(
        alloc: Global,
        values: M,
        offsets: <O::Rows as FrozenRows>::Offsets,
        validity: Option<MutableBitmap>,
    ) -> Result<MutableListArray<O, M>, Error>
        requires { IsComplete (M.model values) }
        ensures ok { IfOk result (λ b. ⟦<MutableListArray<O, M> as MutableArray>⟧.model b
            ≡ default_lists O.IS_LARGE (encoded_rows (O.Rows.offsets_seen offsets) validity) (M.model values)) }
        ensures passed { IfOk result (λ b. Pass (encoded_rows_checks (O.Rows.offsets_seen offsets) validity (builder_len (M.model values)))) }
        ensures cause { IfErr result (λ e. (e ≡ Memory alloc_error) ⊎ FailFirst e (encoded_rows_checks (O.Rows.offsets_seen offsets) validity (builder_len (M.model values)))) }
    {
        let rows = match O::Rows::try_of(alloc, offsets, validity, values.len()) {
            Ok(rows) => rows,
            Err(error) => return Err(error),
        };
        let items = values.data_type().clone(alloc)?;
        let items = Field::new(alloc, "item", items, true)?;
        Ok(MutableListArray {
            data_type: ListType::of_field(alloc, items)?,
            rows,
            values,
            alloc,
        })
    }

    // A builder without rows over a child.
    fn over(
        alloc: Global,
        data_type: ListType<O>,
        values: M,
    ) -> Result<MutableListArray<O, M>, Error>
        ensures ok { IfOk result (λ b. ⟦<MutableListArray<O, M> as MutableArray>⟧.model b ≡ builders.list O.IS_LARGE data_type [] (M.model values)) }
        ensures memory { IsOkUnless result (Memory alloc_error) }
    {
        Ok(MutableListArray {
            data_type,
            rows: O::Rows::new(alloc)?,
            values,
            alloc,
        })
    }

    /// Returns the offsets of the rows, one more than there are rows.
    pub fn offsets(&self) -> &<O::Rows as FrozenRows>::Offsets
        ensures { IsListBy (O.Rows.offsets_seen result.now) (⟦<MutableListArray<O, M> as MutableArray>⟧.model self.now) }
    {
        self.rows.offsets()
    }

    /// Returns the child.
    pub fn values(&self) -> &M
        ensures { M.model result.now ≡ list_child (⟦<MutableListArray<O, M> as MutableArray>⟧.model self.now) }
    {
        &self.values
    }

    /// Returns the child, to push the items of a row before the row is added. The builder keeps what is left in the
    /// child.
    pub fn mut_values(&mut self) -> &mut M
        ensures* writes_back { sem 𝓛 (Lends (the_row O.row M.row O.Rows.row O.Buffer.row O.List.row O.Rows.List.row O.Rows.Offsets.row O.Offset) M.row self.entry result
            (⟦<MutableListArray<O, M> as OverChild>⟧.over self.entry.now)) }
        ensures value { M.model result.now ≡ list_child (⟦<MutableListArray<O, M> as MutableArray>⟧.model self.old) }
    {
        &mut self.values
    }

    /// Shows the prover that the offsets never decrease. Does nothing at run time.
    pub fn known(&self)
        ensures { let tree = ⟦<MutableListArray<O, M> as MutableArray>⟧.model in IsComplete (list_child (tree self.now)) → HasCompleteChildren (tree self.now) }
    {
        let _last = self.rows.last();
    }

    /// Appends a valid row of the pending items.
    ///
    /// # Errors
    /// `Incomplete` if the child has fewer items than the rows or another type; then `Overflow` if it has more items
    /// than the largest offset; `Memory` if an allocation fails. After an error no row is added and the items stay
    /// pending.
    pub fn try_push_valid(&mut self) -> Result<(), Error>
        requires { HasCompleteChildren (⟦<MutableListArray<O, M> as MutableArray>⟧.model self.old) }
        ensures ok { let tree = ⟦<MutableListArray<O, M> as MutableArray>⟧.model in OnOk result (RowAdded true (tree self.old) (tree self.new)) }
        ensures passed { OnOk result (Pass (row_checks (⟦<MutableListArray<O, M> as MutableArray>⟧.model self.old))) }
        ensures err { let tree = ⟦<MutableListArray<O, M> as MutableArray>⟧.model in OnErr result (tree self.new ≡ tree self.old) }
        ensures cause { IfErr result (λ e. (e ≡ Memory alloc_error) ⊎ FailFirst e (row_checks (⟦<MutableListArray<O, M> as MutableArray>⟧.model self.old))) }
    {
        if !self.covers_rows() {
            return Err(Error::InvalidArgumentError(ArgumentError::Incomplete));
        }
        let end = self.values.len();
        self.rows.push(true, end)
    }

    /// Appends rows of the pending items by their lengths, an empty null row for each `None`; all of them or none.
    ///
    /// # Errors
    /// `Incomplete` as `try_push_valid`; then `LengthsSum` if the rows do not end where the items do; then `Overflow`
    /// if the child has more items than the largest offset; `Memory` if an allocation fails. After an error the items
    /// stay pending.
    pub fn try_extend_from_lengths(&mut self, lengths: &[Option<usize>]) -> Result<(), Error>
        requires { HasCompleteChildren (⟦<MutableListArray<O, M> as MutableArray>⟧.model self.old) }
        ensures ok { let tree = ⟦<MutableListArray<O, M> as MutableArray>⟧.model in OnOk result (RowsAdded lengths.now (tree self.old) (tree self.new)) }
        ensures passed { OnOk result (Pass (lengths_checks lengths.now (⟦<MutableListArray<O, M> as MutableArray>⟧.model self.old))) }
        ensures err { let tree = ⟦<MutableListArray<O, M> as MutableArray>⟧.model in OnErr result (tree self.new ≡ tree self.old) }
        ensures cause { IfErr result (λ e. (e ≡ Memory alloc_error) ⊎ FailFirst e (lengths_checks lengths.now (⟦<MutableListArray<O, M> as MutableArray>⟧.model self.old))) }
    {
        if !self.covers_rows() {
            return Err(Error::InvalidArgumentError(ArgumentError::Incomplete));
        }
        let end = self.values.len();
        if !end_there(lengths, self.rows.last(), end) {
            return Err(Error::InvalidArgumentError(ArgumentError::LengthsSum));
        }
        self.rows.extend_from_lengths(lengths)
    }

    // Whether the child has the type of the items and at least the items of the rows.
    fn covers_rows(&self) -> bool
        ensures { IsTrue result ↔ ListCovers (⟦<MutableListArray<O, M> as MutableArray>⟧.model self.now) }
    {
        let end = self.rows.last();
        has_items(self.data_type.get(), self.values.data_type()) && end <= self.values.len()
    }

    /// Freezes the builder: returns the array of its rows. The builder keeps its data type; all its levels are empty
    /// and without validity afterwards, also after `Memory`.
    ///
    /// # Errors
    /// `Incomplete` if the builder is not complete; then nothing changes. `Memory` if an allocation fails.
    pub fn freeze(&mut self) -> Result<<O::Rows as FrozenRows>::List, Error>
        ensures slots { IfOk result (λ a. slots_of (O.Rows.List.parts a) ≡ own_slots (⟦<MutableListArray<O, M> as MutableArray>⟧.model self.old)) }
        ensures same_type { IfOk result (λ a. layout_type (O.Rows.List.parts a) ≡ builder_type (⟦<MutableListArray<O, M> as MutableArray>⟧.model self.old)) }
        ensures incomplete { IsErrOf result (InvalidArgumentError Incomplete) ↔ ¬ IsComplete (⟦<MutableListArray<O, M> as MutableArray>⟧.model self.old) }
        ensures unchanged { let tree = ⟦<MutableListArray<O, M> as MutableArray>⟧.model in ¬ IsComplete (tree self.old) → tree self.new ≡ tree self.old }
        ensures emptied { let tree = ⟦<MutableListArray<O, M> as MutableArray>⟧.model in IsComplete (tree self.old) → tree self.new ≡ emptied (tree self.old) }
        ensures validity { IsComplete (⟦<MutableListArray<O, M> as MutableArray>⟧.model self.old) → ⟦<MutableListArray<O, M> as MutableArray>⟧.bare self.new }
        ensures errors { IfErr result (λ e. (e ≡ InvalidArgumentError Incomplete) ⊎ (e ≡ Memory alloc_error)) }
    {
        if !self.is_complete() {
            return Err(Error::InvalidArgumentError(ArgumentError::Incomplete));
        }
        match frozen_parts(self.alloc, self.data_type.get(), &mut self.values) {
            Ok((data_type, values)) => self.rows.freeze_over(self.alloc, data_type, values),
            Err(error) => {
                self.rows.clear();
                Err(error)
            }
        }
    }

    /// Freezes the builder and consumes it.
    ///
    /// # Errors
    /// `Incomplete` if the builder is not complete, `Memory` if an allocation fails. The builder is dropped.
    pub fn into_box(self) -> Result<AnyArray, Error>
        ensures slots { IfOk result (λ a. slots_of (layout_of a) ≡ own_slots (⟦<MutableListArray<O, M> as MutableArray>⟧.model self)) }
        ensures same_type { IfOk result (λ a. layout_type (layout_of a) ≡ builder_type (⟦<MutableListArray<O, M> as MutableArray>⟧.model self)) }
        ensures incomplete { IsErrOf result (InvalidArgumentError Incomplete) ↔ ¬ IsComplete (⟦<MutableListArray<O, M> as MutableArray>⟧.model self) }
        ensures errors { IfErr result (λ e. (e ≡ InvalidArgumentError Incomplete) ⊎ (e ≡ Memory alloc_error)) }
    {
        let mut lists = self;
        let array = lists.as_box();
        drop(lists);
        array
    }

    /// Freezes the builder, consumes it and returns the array in an `Rc`.
    ///
    /// # Errors
    /// As `into_box`.
    pub fn into_arc(self, alloc: Global) -> Result<Rc<AnyArray>, Error>
        ensures slots { IfOk result (λ r. slots_of (layout_of r.value) ≡ own_slots (⟦<MutableListArray<O, M> as MutableArray>⟧.model self)) }
        ensures same_type { IfOk result (λ r. layout_type (layout_of r.value) ≡ builder_type (⟦<MutableListArray<O, M> as MutableArray>⟧.model self)) }
        ensures incomplete { IsErrOf result (InvalidArgumentError Incomplete) ↔ ¬ IsComplete (⟦<MutableListArray<O, M> as MutableArray>⟧.model self) }
        ensures errors { IfErr result (λ e. (e ≡ InvalidArgumentError Incomplete) ⊎ (e ≡ Memory alloc_error)) }
    {
        let mut lists = self;
        let array = lists.as_arc(alloc);
        drop(lists);
        array
    }
}

/// Returns whether lists of these lengths that start at offset `from` end at offset `to`. A `None` has length 0.
fn end_there(lengths: &[Option<usize>], from: usize, to: usize) -> bool
    ensures { IsTrue result ↔ (from + items_of_lengths lengths.now ≡ to) }
{
    let mut end = from;
    for items in lengths {
        let Some(next) = end.checked_add(items.unwrap_or(0)) else {
            return false;
        };
        end = next;
    }
    end == to
}

impl<O: ListWidth, M: MutableArray> OverChild for MutableListArray<O, M> {
    type Child = M;

    ghost over = { λ b c. record b { values = c } };

    ghost use Rattle.std.proofs.Common.{refl};

    ghost over_items = { λ _ _. refl };
}

impl<O: ListWidth, M: MutableArray> MutableArray for MutableListArray<O, M> {
    ghost model = { λ b. builders.list O.IS_LARGE b.data_type (O.Rows.row_list b.rows) (M.model b.values) };

    ghost bare = { λ b. O.Rows.row_list b.rows ≡ [] };

    fn data_type(&self) -> &DataType {
        self.data_type.get()
    }

    fn len(&self) -> usize {
        self.rows.len()
    }

    fn is_empty(&self) -> bool {
        self.rows.len() == 0
    }

    fn validity(&self) -> Option<&MutableBitmap> {
        self.rows.validity()
    }

    fn is_valid(&self, i: usize) -> bool {
        self.rows.is_valid(i)
    }

    fn is_complete(&self) -> bool {
        self.values.is_complete()
            && has_items(self.data_type.get(), self.values.data_type())
            && self.values.len() == self.rows.last()
    }

    fn holds(&self, _i: usize, _value: &Plain<'_>) -> bool {
        false
    }

    fn push_null(&mut self) -> Result<(), Error> {
        let end = self.rows.last();
        self.rows.push(false, end)
    }

    fn try_push_plain(&mut self, value: Option<Plain<'_>>) -> Result<(), Error> {
        match value {
            None => self.push_null(),
            Some(_) => Err(Error::InvalidArgumentError(ArgumentError::ItemType)),
        }
    }

    fn truncate(&mut self, n: usize) {
        self.rows.truncate(n);
        let end = self.rows.last();
        self.values.truncate(end)
    }

    fn reserve(&mut self, additional: usize) -> Result<(), Error> {
        self.rows.reserve(additional)
    }

    fn shrink_to_fit(&mut self) -> Result<(), Error> {
        self.rows.shrink_to_fit();
        self.values.shrink_to_fit()
    }

    fn as_box(&mut self) -> Result<AnyArray, Error> {
        match self.freeze() {
            Ok(lists) => Ok(lists.into_any()),
            Err(error) => Err(error),
        }
    }

    fn as_arc(&mut self, alloc: Global) -> Result<Rc<AnyArray>, Error> {
        shared(self.as_box(), alloc)
    }
}

impl<O: ListWidth, M: TryExtend<Option<T>>, I: IntoIterator<Item = Option<T>>, T> TryPush<Option<I>>
    for MutableListArray<O, M> {
    ghost can_push = { CanReadList (record { becomes = I.into_iter_gives; can = I.IntoIter.can_next; left = I.IntoIter.remaining; steps = I.IntoIter.next_gives }) M.can_extend };

    ghost reads = { ReadsList (record { becomes = I.into_iter_gives; steps = I.IntoIter.next_gives; reads = M.reads_each }) };

    fn try_push(&mut self, item: Option<I>) -> Result<(), Error> {
        match item {
            None => self.push_null(),
            Some(items) => {
                let len = self.values.len();
                if let Err(refusal) = self.values.try_extend(items) {
                    return Err(refusal);
                }
                let end = self.values.len();
                match self.rows.push(true, end) {
                    Ok(()) => Ok(()),
                    Err(error) => {
                        self.values.truncate(len);
                        Err(error)
                    }
                }
            }
        }
    }
}

impl<O: ListWidth, M: TryExtend<Option<T>>, I: IntoIterator<Item = Option<T>>, T> TryExtend<
    Option<I>,
> for MutableListArray<O, M> {
    ghost can_extend = { CanReadList (record { becomes = I.into_iter_gives; can = I.IntoIter.can_next; left = I.IntoIter.remaining; steps = I.IntoIter.next_gives }) M.can_extend };

    ghost reads_each = { ReadsList (record { becomes = I.into_iter_gives; steps = I.IntoIter.next_gives; reads = M.reads_each }) };

    fn try_extend<U: IntoIterator<Item = Option<I>>>(&mut self, items: U) -> Result<(), Error> {
        extend_by_push(self, items)
    }
}

impl<O: ListWidth, M: TryExtendFromSelf> TryExtendFromSelf for MutableListArray<O, M> {
    fn try_extend_from_self(&mut self, other: &MutableListArray<O, M>) -> Result<(), Error> {
        if !same_types(self.data_type.get(), other.data_type.get()) {
            return Err(Error::InvalidArgumentError(ArgumentError::ItemType));
        }
        let len = self.values.len();
        if let Err(refusal) = self.values.try_extend_from_self(&other.values) {
            return Err(refusal);
        }
        match self.rows.append(&other.rows) {
            Ok(()) => Ok(()),
            Err(error) => {
                self.values.truncate(len);
                Err(error)
            }
        }
    }
}
